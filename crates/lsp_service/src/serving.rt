// A session of a service over any source and sink.
ghost use Rattle.std.specs.Prelude.{◌≡◌, ◌≢◌, ◌≤◌, ◌<◌, ◌⊎◌, ◌-◌, ◌^◌, false, length, IfSome};
ghost use Rattle.lsp_desk.specs.Meaning.{IsOpening};
ghost use Rattle.lsp_session.specs.Run.{order_by};
ghost use Rattle.lsp_server.specs.SourceSink.{CountRose, IsFlushed};
ghost use Rattle.lsp_server.specs.Course.{course};
ghost use Rattle.lsp_server.specs.Served.{call_bytes};
ghost use Rattle.lsp_server.specs.ServerView.{server_desk, setting};
ghost use Rattle.lsp_server.specs.ServesSession.{ServesSession};
ghost use Rattle.lsp_stdio.specs.Stdio.{in_order, EndsWith};
ghost use Rattle.lsp_stdio.specs.Pumping.{EndsUnread, PumpEndsWith};

use crate::server::LanguageServer;
use crate::service::LspService;
use lsp_desk::Desk;
use lsp_server::{Served, Server, Sink, Source, Stopped};
use lsp_session::{Handlers, Pick};
use std::alloc::Global;
use std::sync::Wait;
use std::thread::Threads;

/// Serves a session of the service over a source and a sink, and answers the program's exit status,
/// as [`serve`](lsp_stdio::serve) does for any handlers.
pub fn serve<I: Source, O: Sink, D: Desk + Drop, S: LanguageServer<D>>(
    alloc: Global,
    source: &mut I,
    sink: &mut O,
    service: LspService<S>,
    server: Server<D>,
    rounds: u64,
) -> u8
    requires rounds { 1 ≤ rounds }
    requires opening { IsOpening D.meaning (server_desk server) }

    // What was written is of the session over all the source's bytes, by the status.
    ensures known { (result ≤ 7) × (result ≢ 2) }
    ensures session { IfSome (I.left source.old) (λ bytes. EndsWith
        (course ⟦<LspService<S> as Handlers<D>>⟧.semantics D.meaning in_order
        (setting server service tt rounds))
        (call_bytes bytes (I.left source.new) (O.taken sink.old) (O.taken sink.new)) result) }
    ensures flushed { (result ≢ 4) → (result ≢ 6)
        → IsFlushed (O.taken sink.old) (O.flushed sink.old)
        → IsFlushed (O.taken sink.new) (O.flushed sink.new) }

    // Each failure has its cause, and is told.
    ensures read { result ≡ 3 → CountRose (I.faults source.old) (I.faults source.new) }
    ensures write { result ≡ 4 → CountRose (O.faults sink.old) (O.faults sink.new) }
    ensures read_told { I.faults source.old < I.faults source.new → result ≡ 3 }
    ensures write_told { O.faults sink.old < O.faults sink.new → result ≡ 4 }
    ensures desk_spent { result ≡ 7 → D.meaning.alone (server_desk server) ≡ false }

    // So with no failure, and with fewer bytes than reads, memory alone may lack, or turns at a
    // desk that others use.
    ensures complete { IfSome (I.left source.old) (λ bytes. length bytes < 2 ^ 64 - 1
        → ¬ CountRose (I.faults source.old) (I.faults source.new)
        → ¬ CountRose (O.faults sink.old) (O.faults sink.new)
        → (result ≤ 1) ⊎ (result ≡ 6) ⊎ (result ≡ 7)) }
{
    lsp_stdio::serve(alloc, source, sink, service, server, rounds)
}

/// Serves a session of the service while a thread of its own reads, and answers the source and the
/// program's exit status, as [`pump`](lsp_stdio::pump) does for any handlers.
pub fn pump<
    R: Threads + Wait,
    I: Source + Send + Drop + 'static,
    O: Sink,
    D: Desk + Drop,
    S: LanguageServer<D>,
>(
    rt: &R,
    alloc: Global,
    source: I,
    sink: &mut O,
    service: LspService<S>,
    server: Server<D>,
    rounds: u64,
) -> (I, u8)
    requires rounds { 1 ≤ rounds }
    requires opening { IsOpening D.meaning (server_desk server) }

    // What was written is of the session over all the source's bytes, by the status.
    ensures known { (result.1 ≤ 7) × (result.1 ≢ 2) }
    ensures session { IfSome (I.left source) (λ bytes. PumpEndsWith
        (course ⟦<LspService<S> as Handlers<D>>⟧.semantics D.meaning in_order
        (setting server service tt rounds))
        (call_bytes bytes (I.left result.0) (O.taken sink.old) (O.taken sink.new))
        (I.faults source) (I.faults result.0) result.1) }
    ensures flushed { (result.1 ≢ 4) → (result.1 ≢ 6)
        → IsFlushed (O.taken sink.old) (O.flushed sink.old)
        → IsFlushed (O.taken sink.new) (O.flushed sink.new) }

    // Each failure has its cause. A failed write is told; a failed read need not be at 0, 1, 4, 6
    // and 7, where the session may have ended before.
    ensures read { result.1 ≡ 3 → CountRose (I.faults source) (I.faults result.0) }
    ensures write { result.1 ≡ 4 → CountRose (O.faults sink.old) (O.faults sink.new) }
    ensures counts { (I.faults source ≤ I.faults result.0) × (O.faults sink.old ≤ O.faults sink.new) }
    ensures read_told { I.faults source < I.faults result.0
        → (result.1 ≡ 3) ⊎ EndsUnread result.1 }
    ensures write_told { O.faults sink.old < O.faults sink.new → result.1 ≡ 4 }
    ensures desk_spent { result.1 ≡ 7 → D.meaning.alone (server_desk server) ≡ false }

    // So with no failure, and with fewer bytes than reads, memory alone may lack, or turns at a
    // desk that others use.
    ensures complete { IfSome (I.left source) (λ bytes. length bytes < 2 ^ 64 - 1
        → ¬ CountRose (I.faults source) (I.faults result.0)
        → ¬ CountRose (O.faults sink.old) (O.faults sink.new)
        → (result.1 ≤ 1) ⊎ (result.1 ≡ 6) ⊎ (result.1 ≡ 7)) }
{
    lsp_stdio::pump(rt, alloc, source, sink, service, server, rounds)
}

/// Serves a session of the service over a source and a sink, as
/// [`Server::serve`](lsp_server::Server::serve) does for any handlers.
pub fn serve_session<I: Source, O: Sink, D: Desk + Drop, S: LanguageServer<D>, P: Pick>(
    alloc: Global,
    source: &mut I,
    sink: &mut O,
    service: LspService<S>,
    server: Server<D>,
    pick: &mut P,
    reads: u64,
    rounds: u64,
) -> Result<Served<LspService<S>, D>, Stopped<D>>
    requires rounds { 1 ≤ rounds }
    requires opening { IsOpening D.meaning (server_desk server) }
    ensures { ServesSession (course ⟦<LspService<S> as Handlers<D>>⟧.semantics D.meaning
        (order_by P.gives P.later) (setting server service (P.state pick.old) rounds))
        (record {
          left = I.left source.old;
          left_after = I.left source.new;
          reads_failed = I.faults source.old;
          reads_failed_after = I.faults source.new;
          taken = O.taken sink.old;
          taken_after = O.taken sink.new;
          flushed = O.flushed sink.old;
          flushed_after = O.flushed sink.new;
          writes_failed = O.faults sink.old;
          writes_failed_after = O.faults sink.new;
        }) reads (P.state pick.new) result }
{
    server.serve(alloc, source, sink, service, pick, reads, rounds)
}
