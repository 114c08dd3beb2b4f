// What is done of a call.
ghost use Rattle.std.specs.Prelude.{◌≡◌, true, IfOk, OnErr};
ghost use Rattle.lsp_initialize.specs.Server.{server_capabilities_row};
ghost use Rattle.lsp_service.specs.Calls.{show_call, target_of};
ghost use Rattle.lsp_service.specs.Replies.{show_offer, show_reply};
ghost use Rattle.lsp_sample_server.specs.Plan.{show_plan};
ghost use Rattle.lsp_sample_server.specs.Sample.{bare_data, no_capabilities_shown, replies, sample_turn, takes_memory, other_reply as other_reply_def};

use lsp_initialize::ServerCapabilities;
use lsp_rpc::NoMemory;
use lsp_service::{
    Call, InitializeCall, InitializeReply, LifeCall, LifeReply, Reply, Target, WorkCall, let_go,
    not_found,
};
use lsp_session::Kind;
use lsp_work::ExecuteCommandParams;
use std::alloc::Global;

// What the first poll of a call does.
pub(crate) enum Plan {
    // It has this reply.
    Reply(Reply),
    // It greets the client.
    Greet,
    // It executes a command.
    Execute(ExecuteCommandParams),
}

// What is to be done of a call: it asks nothing of the client yet.
pub(crate) fn plan_of(alloc: Global, call: Call) -> Result<Plan, NoMemory>
    ensures plan { IfOk result (λ plan. show_plan plan ≡ sample_turn (show_call call)) }
    ensures memory { OnErr result (takes_memory (sample_turn (show_call call)) ≡ true) }
{
    match call {
        Call::Life(call) => match call {
            LifeCall::Initialize(params) => {
                let offered = initialize(alloc, params)?;
                Ok(Plan::Reply(Reply::Life(LifeReply::Initialize(Ok(offered)))))
            }
            LifeCall::Initialized(params) => {
                drop(params);
                Ok(Plan::Greet)
            }
            LifeCall::Shutdown => Ok(Plan::Reply(Reply::Life(LifeReply::Shutdown(Ok(()))))),
        },
        Call::Work(call) => match call {
            WorkCall::ExecuteCommand(params) => Ok(Plan::Execute(Box::into_inner(params))),
            other => Ok(Plan::Reply(other_reply(alloc, Call::Work(other))?)),
        },
        other => Ok(Plan::Reply(other_reply(alloc, other)?)),
    }
}

// Nothing is offered.
fn initialize(alloc: Global, _params: InitializeCall) -> Result<InitializeReply, NoMemory>
    ensures { IfOk result (λ offered. show_offer offered ≡ bare_data) }
{
    InitializeReply::offering(alloc, no_capabilities())
}

#[tactic(auto, unfolding(lsp_initialize::specs::Server::server_capabilities_row, lsp_initialize::specs::Server::server_capabilities_fields))]
fn no_capabilities() -> ServerCapabilities
    ensures { server_capabilities_row.shown result ≡ no_capabilities_shown }
{
    ServerCapabilities::default()
}

// A request of another method isn't known, and another notification is taken note of.
fn other_reply(alloc: Global, call: Call) -> Result<Reply, NoMemory>
    ensures reply { IfOk result (λ r. show_reply r
        ≡ other_reply_def (target_of (show_call call) Kind.Request)) }
    ensures memory { OnErr result (takes_memory
        (replies (other_reply_def (target_of (show_call call) Kind.Request))) ≡ true) }
{
    let kind = match call.target(Kind::Request) {
        Target::Typed(method) => method.kind(),
        Target::Custom(kind) => kind,
    };
    let_go(call);
    match kind {
        Kind::Request => not_found(alloc),
        Kind::Notification => Ok(Reply::Noted),
    }
}
