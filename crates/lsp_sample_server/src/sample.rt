// The server.
ghost use Rattle.std.specs.Prelude.{◌≡◌};
ghost use Rattle.lsp_service.specs.Started.{show_started};
ghost use Rattle.lsp_sample_server.specs.Sample.{sample_semantics};
ghost use Rattle.lsp_sample_server.specs.Shown.{show_outcome};

use crate::execute::{Outcome, execute, go_on};
use crate::plan::{Plan, plan_of};
use crate::task::SampleTask;
use lsp_client::Client;
use lsp_desk::{Caller, DeskFault};
use lsp_kinds::MessageType;
use lsp_service::{Call, LanguageServer, Reply, Started, WorkReply};
use std::alloc::Global;

/// A server that has no capabilities, and three commands: `echo` gives its argument back, `wait`
/// takes its time, and `ask` gives the folders of the client's workspace.
#[derive(Clone, Copy, Debug, PartialEq, Eq)]
pub struct Sample;

impl<D: Caller> LanguageServer<D> for Sample {
    ghost use Rattle.lsp_sample_server.specs.Sample.{sample_semantics};
    ghost use Rattle.lsp_sample_server.specs.SampleLaws.{sample_laws};

    type Task = SampleTask;

    ghost semantics = { sample_semantics };

    ghost laws = { sample_laws };

    fn call(
        &mut self,
        alloc: Global,
        call: Call,
        client: &mut D,
    ) -> Result<Started<SampleTask>, DeskFault> {
        match plan_of(alloc, call)? {
            Plan::Reply(reply) => Ok(Started::Now(reply)),
            Plan::Greet => {
                client.log_message(alloc, MessageType::INFO, "server initialized!")?;
                Ok(Started::Now(Reply::Noted))
            }
            Plan::Execute(params) => Ok(started(execute(alloc, params, client)?)),
        }
    }

    fn resume(
        &mut self,
        alloc: Global,
        task: SampleTask,
        client: &mut D,
    ) -> Result<Started<SampleTask>, DeskFault> {
        Ok(started(go_on(alloc, task, client)?))
    }
}

// What a poll of a command comes to.
fn started(outcome: Outcome) -> Started<SampleTask>
    ensures { show_started sample_semantics result ≡ show_outcome outcome }
{
    match outcome {
        Outcome::Ended(body) => Started::Now(Reply::Work(WorkReply::ExecuteCommand(body))),
        Outcome::Going(task) => Started::Later(task),
    }
}
