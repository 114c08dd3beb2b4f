//! A talk: a session, and callers beside it.
ghost use Rattle.std.specs.Prelude.{◌≡◌, ◌≢◌, ◌⊎◌, ◌≤◌, ◌<◌, ◌+◌, ◌^◌, ℕ, List, true, Err, IsOk, OnOk, IfOk, string_bytes};
ghost use Rattle.std.specs.List.{AllZip};
ghost use Rattle.std.specs.Io.KnownBytes.{Appends};
ghost use Rattle.lsp_desk.specs.Meaning.{IsOpening};
ghost use Rattle.lsp_shared.specs.Desks.{desk_id};
ghost use Rattle.lsp_shared.specs.Seats.{seat_meaning, seat_view, seat_desk, entries_seen};
ghost use Rattle.lsp_shared.specs.Steps.{IsNew};
ghost use Rattle.lsp_server.specs.SourceSink.{CountRose, IsFlushed};
ghost use Rattle.lsp_server.specs.Written.{IsPrefixOf};
ghost use Rattle.lsp_callers.specs.Callers.{AreIdleFrom, AreHeardOn, ComesOf, heard_shares, messages_of};
ghost use Rattle.lsp_callers.specs.Tallies.{tallied_view, tallied_desk, tallied_spent, tally_view, tally_desk, tally_spent};
ghost use Rattle.lsp_talk.specs.Hello.{hello_bytes, IsUnseen, EndsHello};
ghost use Rattle.lsp_talk.specs.Talk.{HasTalked, WroteLine, WroteLinePart, EndsTalk, status_of_fault, talk_line as talk_line_def};

use crate::line::write_line;
use crate::session::{hello, session_at};
use lsp_callers::{Gate, Heard, Idle, Plan, RestedTally, Tallied, call_all, gather, idle_callers};
use lsp_desk::{Desk, DeskFault, ServerCall};
use lsp_program::Status;
use lsp_rpc::NoMemory;
use lsp_server::Sink;
use lsp_shared::{DeskOwner, SharedDesk};
use std::alloc::Global;
use std::sync::Wait;
use std::thread::{Threads, join};

/// Serves the sample over the frame of an `initialize`, in memory, over the owner's desk. Beside it
/// so many clones each send so many messages, on threads of their own where these can be started.
/// Then all seats are the owner's again, the rest is taken from the desk, and one line says how many
/// messages were sent and how many the desk gave. Answers the exit status, 0, 4, 6 or 7, and the
/// owner.
pub fn talk_with<'a, R: Threads + Wait + Sync, G: Gate + Sync, O: Sink>(
    rt: &'a R,
    alloc: Global,
    clones: u64,
    messages: u64,
    owner: DeskOwner<'a, R>,
    gate: &G,
    sink: &mut O,
) -> (u8, DeskOwner<'a, R>)
    requires clones { clones ≤ 4 }
    requires messages { messages ≤ 1000 }
    requires new { IsNew (seat_view owner) }
    requires opening { IsOpening seat_meaning owner }
    ensures known { (result.0 ≡ 0) ⊎ (result.0 ≡ 4) ⊎ (result.0 ≡ 6) ⊎ (result.0 ≡ 7) }
    // The talk was had, whether its line was written or not.
    ensures talked { result.0 ≡ 0
        → HasTalked clones messages (entries_seen (seat_view result.1)) }
    ensures unwritten { result.0 ≡ 4
        → HasTalked clones messages (entries_seen (seat_view result.1)) }
    ensures wrote { result.0 ≡ 0
        → WroteLine (entries_seen (seat_view result.1)) (O.taken sink.old) (O.taken sink.new) }
    ensures part { 3 ≤ result.0
        → WroteLinePart (entries_seen (seat_view result.1)) (O.taken sink.old) (O.taken sink.new) }
    ensures flushed { result.0 ≡ 0 → IsFlushed (O.taken sink.old) (O.flushed sink.old)
        → IsFlushed (O.taken sink.new) (O.flushed sink.new) }

    // Each failure has its cause, and is told.
    ensures write { result.0 ≡ 4 → CountRose (O.faults sink.old) (O.faults sink.new) }
    ensures write_told { O.faults sink.old < O.faults sink.new → result.0 ≡ 4 }
    ensures spent { result.0 ≡ 7 → (seat_meaning.spent result.1 ≡ true)
        × (sink.new ≡ sink.old) }

    // All seats are the owner's again, but where there was no memory to hand them back.
    ensures whole { result.0 ≢ 6 → (seat_view result.1).share ≡ 2 ^ 63 }
    ensures same { seat_desk result.1 ≡ seat_desk owner.entry }
{
    let Ok(input) = hello(alloc) else {
        return (Status::NoMemory as u8, owner);
    };
    let mut owner = owner;
    let Ok(callers) = idle_callers(alloc, &mut owner, clones) else {
        return (Status::NoMemory as u8, owner);
    };
    let desk = owner.desk();
    let plan = Plan { alloc, messages };
    let tallied = Tallied::new(owner);
    let tally = tallied.rest();
    let (heard, (served, tally)) = talk_beside(rt, desk, gate, plan, callers, input, tally);
    let mut tallied = Tallied::sit(rt, desk, tally);
    let Ok(heard) = heard else {
        return (Status::NoMemory as u8, tallied.into_owner());
    };
    match end(rt, desk, &mut tallied, heard, served) {
        Ok(sent) => {
            let status = write_sums(alloc, sent, tallied.delivered(), sink);
            (status, tallied.into_owner())
        }
        Err(fault) => (status_of(fault), tallied.into_owner()),
    }
}

// The callers talk beside the session, on other threads where these can be started.
fn talk_beside<R: Threads + Wait + Sync, G: Gate + Sync>(
    rt: &R,
    desk: &SharedDesk,
    gate: &G,
    plan: Plan,
    callers: Vec<Idle>,
    input: Vec<u8>,
    tally: RestedTally,
) -> (
    Result<Vec<Heard>, NoMemory>,
    (Result<(), DeskFault>, RestedTally),
)
    requires idle { AreIdleFrom (desk_id desk.now) 0 callers.items }
    requires here { tally_desk tally ≡ desk_id desk.now }
    requires hello { input.items ≡ hello_bytes }
    requires unseen { IsUnseen (tally_view tally) (tally_spent tally) }
    ensures heard { IfOk result.0 (λ heard.
        AllZip (ComesOf plan.messages) callers.items heard.items) }
    ensures served { EndsHello (tally_desk tally) (tally_view tally) result.1.0
        (tally_desk result.1.1) (tally_view result.1.1) (tally_spent result.1.1) }
{
    join(
        rt,
        || -> Result<Vec<Heard>, NoMemory>
            requires { AreIdleFrom (desk_id desk.now) 0 callers.items }
            ensures { IfOk result (λ heard.
                AllZip (ComesOf plan.messages) callers.items heard.items) }
        { call_all(rt, desk, gate, plan, callers) },
        || -> (Result<(), DeskFault>, RestedTally)
            requires { (tally_desk tally ≡ desk_id desk.now) × (input.items ≡ hello_bytes)
                × IsUnseen (tally_view tally) (tally_spent tally) }
            ensures { EndsHello (tally_desk tally) (tally_view tally) result.0
                (tally_desk result.1) (tally_view result.1) (tally_spent result.1) }
        { session_at(rt, plan.alloc, input, desk, tally) },
    )
}

// Takes in all seats, and what the desk still holds. Answers how many messages were sent.
fn end<R: Wait + Sync>(
    rt: &R,
    desk: &SharedDesk,
    tallied: &mut Tallied<'_, R>,
    heard: Vec<Heard>,
    served: Result<(), DeskFault>,
) -> Result<u64, DeskFault>
    requires here { desk_id desk.now ≡ tallied_desk tallied.old }
    requires heard { AreHeardOn (desk_id desk.now) heard.items }
    requires fits { messages_of heard.items < 2 ^ 64 }
    requires spent { (n : ℕ) → served ≡ Err (DeskFault.Spent n) → tallied_spent tallied.old ≡ true }
    ensures ended { OnOk result (EndsTalk (tallied_view tallied.old) heard.items
        (tallied_view tallied.new)) }
    ensures sent { IfOk result (λ sent. sent ≡ messages_of heard.items) }
    ensures served { OnOk result (IsOk served) }
    ensures spent { (n : ℕ) → result ≡ Err (DeskFault.Spent n) → tallied_spent tallied.new ≡ true }
    ensures shares { (tallied_view tallied.new).share
        ≡ (tallied_view tallied.old).share + heard_shares heard.items }
    ensures same { tallied_desk tallied.new ≡ tallied_desk tallied.old }
{
    let sent = gather(rt, desk, tallied, heard);
    served?;
    let sent = sent?;
    tallied.server(ServerCall::Take)?;
    Ok(sent)
}

// Writes the line, and answers the exit status.
fn write_sums<O: Sink>(alloc: Global, sent: u64, delivered: u64, sink: &mut O) -> u8
    ensures known { (result ≡ 0) ⊎ (result ≡ 4) ⊎ (result ≡ 6) }
    ensures wrote { result ≡ 0
        → Appends (O.taken sink.old) (O.taken sink.new) (talk_line_def sent delivered) }
    ensures part { 3 ≤ result → (written : List ℕ)
        × IsPrefixOf written (talk_line_def sent delivered)
        × Appends (O.taken sink.old) (O.taken sink.new) written }
    ensures flushed { result ≡ 0 → IsFlushed (O.taken sink.old) (O.flushed sink.old)
        → IsFlushed (O.taken sink.new) (O.flushed sink.new) }
    ensures write { result ≡ 4 → CountRose (O.faults sink.old) (O.faults sink.new) }
    ensures write_told { O.faults sink.old < O.faults sink.new → result ≡ 4 }
{
    match talk_line(alloc, sent, delivered) {
        Ok(line) => write_line(sink, line.as_bytes()),
        Err(NoMemory) => Status::NoMemory as u8,
    }
}

fn talk_line(alloc: Global, sent: u64, delivered: u64) -> Result<String, NoMemory>
    ensures { IfOk result (λ line. string_bytes line ≡ talk_line_def sent delivered) }
{
    Ok(format!(in alloc; "sent {sent} delivered {delivered}\n")?)
}

fn status_of(fault: DeskFault) -> u8
    ensures { result ≡ status_of_fault fault }
{
    match fault {
        DeskFault::NoMemory => Status::NoMemory as u8,
        DeskFault::Spent(_) => Status::DeskSpent as u8,
    }
}
