//! What one caller does: it sends its messages through its seat, and hands the seat back.
ghost use Rattle.std.specs.Prelude.{◌≡◌, ◌≢◌, ◌++◌, [], ◌∷◌, ℕ, true, Err, OnOk, OnErr, IfOk};
ghost use Rattle.lsp_desk.specs.Shown.{show_client_call};
ghost use Rattle.lsp_shared.specs.Desks.{desk_id};
ghost use Rattle.lsp_shared.specs.Seats.{seat_view, seat_desk, seat_meaning};
ghost use Rattle.lsp_shared.specs.Steps.{HasTurn};
ghost use Rattle.lsp_callers.specs.Said.{call_said, entry_said, said_by, EndsUnsent, StopsShort};
ghost use Rattle.lsp_callers.specs.Made.{entries_made, KeepsSeat};
ghost use Rattle.lsp_callers.specs.Callers.{IsIdleOn, ComesOf};

use crate::gate::Gate;
use lsp_desk::{Caller, ClientCall, ClientReply, DeskFault};
use lsp_shared::{NoMemory, Rested, SharedClient, SharedDesk};
use serde_json::json;
use std::alloc::Global;
use std::sync::Wait;

/// A caller that has made no call yet.
#[derive(Drop)]
pub struct Idle {
    /// Its number, from 1.
    pub number: u64,
    pub seat: Rested,
}

/// A caller that has made its calls.
#[derive(Drop)]
pub struct Heard {
    pub number: u64,
    /// How many messages it had to send.
    pub messages: u64,
    pub seat: Rested,
    /// How many of them were sent. A caller stops at the first that isn't.
    pub sent: Result<u64, DeskFault>,
}

/// What all callers do.
#[derive(Clone, Copy)]
pub struct Plan {
    pub alloc: Global,
    /// How many messages each of them sends.
    pub messages: u64,
}

/// Waits at the gate, and sends the caller's messages.
pub(crate) fn call<R: Wait + Sync, G: Gate>(
    rt: &R,
    desk: &SharedDesk,
    gate: &G,
    plan: Plan,
    caller: Idle,
) -> Heard
    requires { IsIdleOn (desk_id desk.now) caller }
    ensures { ComesOf plan.messages caller result }
{
    let Idle { number, seat } = caller;
    gate.pass(number);
    let mut client = SharedClient::sit(rt, desk, seat);
    let sent = say_all(&mut client, plan, number);
    Heard {
        number,
        messages: plan.messages,
        seat: client.rest(),
        sent,
    }
}

fn say_all<R: Wait + Sync>(
    client: &mut SharedClient<'_, R>,
    plan: Plan,
    number: u64,
) -> Result<u64, DeskFault>
    requires { (seat_view client.old).made ≡ [] }
    ensures said { IfOk result (λ sent. (sent ≡ plan.messages)
        × (entries_made (seat_view client.new) ≡ said_by number plan.messages)) }
    ensures stopped { OnErr result (StopsShort number plan.messages
        (entries_made (seat_view client.new))) }
    ensures stays { KeepsSeat (seat_desk client.old) (seat_view client.old)
        (seat_desk client.new) (seat_view client.new) }
    ensures spent { (n : ℕ) → result ≡ Err (DeskFault.Spent n) → seat_meaning.spent client.new
        ≡ true }
    // A desk that is spent is told as one, and as no other fault.
    ensures spent_stays { HasTurn result (seat_meaning.spent client.new
        ≡ seat_meaning.spent client.old) }
{
    let mut sent = 0;
    while sent < plan.messages {
        say(plan.alloc, client, number, sent + 1)?;
        sent += 1;
    }
    Ok(sent)
}

// Sends one message. A desk whose session hasn't ended sends it: any other reply is none that a
// caller goes on from.
fn say<R: Wait + Sync>(
    alloc: Global,
    client: &mut SharedClient<'_, R>,
    caller: u64,
    n: u64,
) -> Result<(), DeskFault>
    ensures said { OnOk result (entries_made (seat_view client.new)
        ≡ entries_made (seat_view client.old) ++ entry_said caller n ∷ []) }
    ensures unsent { OnErr result (EndsUnsent caller n (entries_made (seat_view client.old))
        (entries_made (seat_view client.new))) }
    ensures stays { KeepsSeat (seat_desk client.old) (seat_view client.old)
        (seat_desk client.new) (seat_view client.new) }
    ensures spent { (m : ℕ) → result ≡ Err (DeskFault.Spent m) → seat_meaning.spent client.new
        ≡ true }
    ensures spent_stays { HasTurn result (seat_meaning.spent client.new
        ≡ seat_meaning.spent client.old) }
{
    let call = message(alloc, caller, n)?;
    let reply = client.client(call)?;
    if_sent(reply)
}

fn if_sent(reply: ClientReply) -> Result<(), DeskFault>
    ensures sent { OnOk result (reply ≡ ClientReply.Sent) }
    ensures other { OnErr result (reply ≢ ClientReply.Sent) }
    ensures err { OnErr result (result ≡ Err DeskFault.NoMemory) }
{
    match reply {
        ClientReply::Sent => Ok(()),
        _ => Err(DeskFault::NoMemory),
    }
}

// A log message of type 4 (LSP 3.17, "LogMessage Notification").
fn message(alloc: Global, caller: u64, n: u64) -> Result<ClientCall, NoMemory>
    ensures { IfOk result (λ c. show_client_call c ≡ call_said caller n) }
{
    let method = String::from_str(alloc, "window/logMessage")?;
    let text = format!(in alloc; "clone {caller} message {n}")?;
    match json!(in alloc; {"message": text, "type": 4}) {
        Ok(params) => Ok(ClientCall::Tell {
            method,
            params,
            gated: false,
        }),
        Err(_) => Err(NoMemory),
    }
}
