// A session of any handlers, as a program runs it while a thread of its own reads.
ghost use Rattle.std.specs.Prelude.{◌≡◌, ◌≢◌, ◌≤◌, ◌<◌, ◌⊎◌, ◌-◌, ◌^◌, false, length, IfSome};
ghost use Rattle.std.specs.Process.{exit_status};
ghost use Rattle.lsp_desk.specs.Meaning.{IsOpening};
ghost use Rattle.lsp_server.specs.SourceSink.{CountRose, IsFlushed};
ghost use Rattle.lsp_server.specs.Course.{course};
ghost use Rattle.lsp_server.specs.Served.{call_bytes};
ghost use Rattle.lsp_server.specs.ServerView.{server_desk, setting};
ghost use Rattle.lsp_stdio.specs.Stdio.{in_order};
ghost use Rattle.lsp_stdio.specs.Pumping.{EndsUnread, PumpEndsWith, PumpEndsWithin};

use crate::status::status_at;
use crate::stdio::ROUNDS;
use lsp_desk::Desk;
use lsp_program::{Status, status_of};
use lsp_server::{ReadSource, Server, Sink, Source, WriteSink};
use lsp_session::{Handlers, InOrder};
use std::alloc::Global;
use std::io::{BufWriter, Read, Write};
use std::process::ExitCode;
use std::sync::Wait;
use std::thread::Threads;

/// Serves a session of these handlers as [`serve`](crate::serve) does, while a thread of its own
/// reads: where input waits ticks are made, so that what the desk holds goes out. Each message and
/// each tick gets so many rounds of polls. The answer is the source and the program's exit status,
/// one of [`Status`].
///
/// It may wait for the source: what is said of its answer holds if it returns.
pub fn pump<
    R: Threads + Wait,
    I: Source + Send + Drop + 'static,
    O: Sink,
    D: Desk + Drop,
    H: Handlers<D>,
>(
    rt: &R,
    alloc: Global,
    source: I,
    sink: &mut O,
    handlers: H,
    server: Server<D>,
    rounds: u64,
) -> (I, u8)
    requires rounds { 1 ≤ rounds }
    requires opening { IsOpening D.meaning (server_desk server) }

    // What was written is of the session over all the source's bytes, by the status.
    ensures known { (result.1 ≤ 7) × (result.1 ≢ 2) }
    ensures session { IfSome (I.left source) (λ bytes. PumpEndsWith
        (course H.semantics D.meaning in_order (setting server handlers tt rounds))
        (call_bytes bytes (I.left result.0) (O.taken sink.old) (O.taken sink.new))
        (I.faults source) (I.faults result.0) result.1) }
    ensures flushed { (result.1 ≢ 4) → (result.1 ≢ 6)
        → IsFlushed (O.taken sink.old) (O.flushed sink.old)
        → IsFlushed (O.taken sink.new) (O.flushed sink.new) }

    // Each failure has its cause. A failed write is told; a failed read need not be at 0, 1, 4, 6
    // and 7, where the session may have ended before.
    ensures read { result.1 ≡ 3 → CountRose (I.faults source) (I.faults result.0) }
    ensures write { result.1 ≡ 4 → CountRose (O.faults sink.old) (O.faults sink.new) }
    ensures counts { (I.faults source ≤ I.faults result.0) × (O.faults sink.old ≤ O.faults sink.new) }
    ensures read_told { I.faults source < I.faults result.0
        → (result.1 ≡ 3) ⊎ EndsUnread result.1 }
    ensures write_told { O.faults sink.old < O.faults sink.new → result.1 ≡ 4 }
    ensures desk_spent { result.1 ≡ 7 → D.meaning.alone (server_desk server) ≡ false }

    // So with no failure, and with fewer bytes than reads, memory alone may lack, or turns at a
    // desk that others use.
    ensures complete { IfSome (I.left source) (λ bytes. length bytes < 2 ^ 64 - 1
        → ¬ CountRose (I.faults source) (I.faults result.0)
        → ¬ CountRose (O.faults sink.old) (O.faults sink.new)
        → (result.1 ≤ 1) ⊎ (result.1 ≡ 6) ⊎ (result.1 ≡ 7)) }
{
    let (source, pumped) = lsp_pump::pump(
        rt,
        alloc,
        server,
        source,
        sink,
        handlers,
        &mut InOrder,
        u64::MAX,
        rounds,
    );
    match pumped {
        Ok(served) => (source, status_at(served.exited)),
        Err(stopped) => (source, status_of(stopped.error)),
    }
}

/// Serves a session of these handlers from `input` to `output`, as
/// [`serve_stdio`](crate::serve_stdio) does, while a thread of its own reads:
/// `pump_stdio(&rt, rt.alloc(), rt.stdin(), rt.stdout(), handlers, server)`.
///
/// Each message gets 8 rounds, and so does each tick. What is written is buffered, and flushed after
/// each step. It may wait for the input: what is said of its answer holds if it returns.
pub fn pump_stdio<
    T: Threads + Wait,
    R: Read + Send + Drop + 'static,
    W: Write + Drop,
    D: Desk + Drop,
    H: Handlers<D>,
>(rt: &T, alloc: Global, input: R, output: W, handlers: H, server: Server<D>) -> ExitCode
    requires opening { IsOpening D.meaning (server_desk server) }
    ensures known { (exit_status result ≤ 7) × (exit_status result ≢ 2) }
    ensures session { exit_status result ≢ 6 → IfSome (R.remaining input) (λ bytes. PumpEndsWithin
        (course H.semantics D.meaning in_order (setting server handlers tt 8)) bytes
        (exit_status result)) }
{
    let Ok(output) = BufWriter::new(alloc, output) else {
        return ExitCode::from(Status::NoMemory as u8);
    };
    let source = ReadSource::new(input);
    let mut sink = WriteSink::new(output);
    let (_, status) = pump(rt, alloc, source, &mut sink, handlers, server, ROUNDS);

    // After a failure some of what was written may still wait here; nothing can be told of a second
    // one.
    let _ = sink.flush();
    ExitCode::from(status)
}
