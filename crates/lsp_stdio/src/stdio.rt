// A session of any handlers, as a program runs it.
ghost use Rattle.std.specs.Prelude.{◌≡◌, ◌≢◌, ◌≤◌, ◌<◌, ◌⊎◌, ◌-◌, ◌+◌, ◌^◌, false, length, IfSome};
ghost use Rattle.std.specs.Process.{exit_status};
ghost use Rattle.lsp_desk.specs.Meaning.{IsOpening};
ghost use Rattle.lsp_server.specs.SourceSink.{CountRose, IsFlushed};
ghost use Rattle.lsp_server.specs.Course.{course};
ghost use Rattle.lsp_server.specs.Served.{call_bytes};
ghost use Rattle.lsp_server.specs.ServerView.{server_desk, setting};
ghost use Rattle.lsp_stdio.specs.Stdio.{in_order, EndsWith, EndsWithin};

use crate::status::status_at;
use lsp_desk::Desk;
use lsp_program::{Status, status_of};
use lsp_server::{ReadSource, Server, Sink, Source, WriteSink};
use lsp_session::{Handlers, InOrder};
use std::alloc::Global;
use std::io::{BufWriter, Read, Write};
use std::process::ExitCode;

// How many rounds each message gets.
pub(crate) const ROUNDS: u64 = 8;

/// Serves a session of these handlers over a source and a sink, and answers the program's exit
/// status, one of [`Status`].
///
/// It ends at the end of input or the first `exit`. The calls are polled in order of admission, in
/// so many rounds after each message.
pub fn serve<I: Source, O: Sink, D: Desk + Drop, H: Handlers<D>>(
    alloc: Global,
    source: &mut I,
    sink: &mut O,
    handlers: H,
    server: Server<D>,
    rounds: u64,
) -> u8
    requires rounds { 1 ≤ rounds }
    requires opening { IsOpening D.meaning (server_desk server) }

    // What was written is of the session over all the source's bytes, by the status.
    ensures known { (result ≤ 7) × (result ≢ 2) }
    ensures session { IfSome (I.left source.old) (λ bytes. EndsWith
        (course H.semantics D.meaning in_order (setting server handlers tt rounds))
        (call_bytes bytes (I.left source.new) (O.taken sink.old) (O.taken sink.new)) result) }
    ensures flushed { (result ≢ 4) → (result ≢ 6)
        → IsFlushed (O.taken sink.old) (O.flushed sink.old)
        → IsFlushed (O.taken sink.new) (O.flushed sink.new) }

    // Each failure has its cause, and is told.
    ensures read { result ≡ 3 → CountRose (I.faults source.old) (I.faults source.new) }
    ensures write { result ≡ 4 → CountRose (O.faults sink.old) (O.faults sink.new) }
    ensures read_told { I.faults source.old < I.faults source.new → result ≡ 3 }
    ensures write_told { O.faults sink.old < O.faults sink.new → result ≡ 4 }
    ensures desk_spent { result ≡ 7 → D.meaning.alone (server_desk server) ≡ false }

    // So with no failure, and with fewer bytes than reads, memory alone may lack, or turns at a
    // desk that others use.
    ensures complete { IfSome (I.left source.old) (λ bytes. length bytes < 2 ^ 64 - 1
        → ¬ CountRose (I.faults source.old) (I.faults source.new)
        → ¬ CountRose (O.faults sink.old) (O.faults sink.new)
        → (result ≤ 1) ⊎ (result ≡ 6) ⊎ (result ≡ 7)) }
{
    match server.serve(
        alloc,
        source,
        sink,
        handlers,
        &mut InOrder,
        u64::MAX,
        rounds,
    ) {
        Ok(served) => status_at(served.exited),
        Err(stopped) => status_of(stopped.error),
    }
}

/// Serves a session of these handlers from `input` to `output`, which `main` takes of its runtime:
/// `serve_stdio(rt.alloc(), rt.stdin(), rt.stdout(), handlers, server)`. The answer is what `main`
/// returns.
///
/// Each message gets 8 rounds. What is written is buffered, and flushed before each read.
pub fn serve_stdio<R: Read + Drop, W: Write + Drop, D: Desk + Drop, H: Handlers<D>>(
    alloc: Global,
    input: R,
    output: W,
    handlers: H,
    server: Server<D>,
) -> ExitCode
    requires opening { IsOpening D.meaning (server_desk server) }
    ensures known { (exit_status result ≤ 7) × (exit_status result ≢ 2) }
    ensures session { exit_status result ≢ 6 → IfSome (R.remaining input) (λ bytes. EndsWithin
        (course H.semantics D.meaning in_order (setting server handlers tt 8)) bytes
        (exit_status result)) }
{
    let Ok(output) = BufWriter::new(alloc, output) else {
        return ExitCode::from(Status::NoMemory as u8);
    };
    let mut source = ReadSource::new(input);
    let mut sink = WriteSink::new(output);
    let status = serve(alloc, &mut source, &mut sink, handlers, server, ROUNDS);

    // After a failure some of what was written may still wait here; nothing can be told of a second
    // one.
    let _ = sink.flush();
    ExitCode::from(status)
}
