//! A session over a desk whose turns end.
use crate::frames::{Part, sink_of, source_of};
use crate::serving::{Outcome, outcome};
use crate::sessions::{EXIT, INITIALIZE, WAIT};
use crate::small::make_server;
use crate::spending::Spending;
use lsp_desk::ClientSocket;
use lsp_rows::{RowError, Trial};
use lsp_rpc::NoMemory;
use lsp_server::{MemorySink, Server};
use lsp_session::InOrder;
use std::alloc::Global;

const SENT: &[Part] = &[Part::Frames(&[
    INITIALIZE,
    "{\"jsonrpc\":\"2.0\",\"method\":\"initialized\",\"params\":{}}",
    "{\"jsonrpc\":\"2.0\",\"result\":null,\"id\":0}",
    WAIT,
    EXIT,
])];

const ENOUGH: u64 = 1000;

// What a session over a desk of so many turns comes to, and how many turns are left at its end.
fn spent_after(
    alloc: Global,
    turns: u64,
    sink: &mut MemorySink,
) -> Result<(Outcome, u64), NoMemory> {
    let mut source = source_of(alloc, SENT, 4096, 0)?;
    let service = make_server(alloc)?;
    let server = Server::new(ClientSocket::new(Spending::new(alloc, turns)));
    let served = server.serve(alloc, &mut source, sink, service, &mut InOrder, 1000, 8);
    let (outcome, desk) = outcome(served);
    Ok((outcome, desk.left()))
}

// A session over a desk of so many turns ends so, with none left; what it writes.
fn try_turns(
    trial: &mut Trial,
    alloc: Global,
    turns: u64,
    ended: &str,
) -> Result<MemorySink, NoMemory> {
    let mut sink = sink_of(alloc, 0)?;
    let (outcome, left) = spent_after(alloc, turns, &mut sink)?;
    trial.shows(turns, outcome, ended);
    trial.same(turns, left, 0);
    Ok(sink)
}

const ENDED: &str = "Ok((Some(Initialized), []))";

// A desk without turns is told as such, wherever its turns end, and never as want of memory. What
// is written by then begins what is written where they don't end.
#[test]
fn turns_that_end(rt: HostRuntime) -> Result<(), RowError> {
    let alloc = rt.alloc();
    let mut trial = Trial::new(alloc);
    let mut whole = sink_of(alloc, 0)?;
    let (outcome, left) = spent_after(alloc, ENOUGH, &mut whole)?;
    trial.shows("turns enough", outcome, ENDED);
    let taken = ENOUGH.saturating_sub(left);
    trial.is_true("eight turns or more are taken", taken >= 8);
    for turns in 0..taken {
        let sink = try_turns(
            &mut trial,
            alloc,
            turns,
            "Err(DeskSpent(18446744073709551615))",
        )?;
        trial.is_true(turns, whole.bytes().starts_with(sink.bytes()));
    }
    let sink = try_turns(&mut trial, alloc, taken, ENDED)?;
    trial.same("its bytes", sink.bytes(), whole.bytes());
    trial.end()
}
