//! A line into a sink.
ghost use Rattle.std.specs.Prelude.{◌≡◌, ◌≢◌, ◌⊎◌, ◌≤◌, ◌<◌, ◌++◌, ℕ, List, OnOk, OnErr, IsErrOf};
ghost use Rattle.std.specs.Io.KnownBytes.{Appends};
ghost use Rattle.lsp_server.specs.SourceSink.{CountRose, IsFlushed};
ghost use Rattle.lsp_server.specs.Written.{IsPrefixOf};

use lsp_program::Status;
use lsp_server::{Refused, Sink, write_all};

/// Writes and flushes the line, and answers the exit status: 0, 4 where that failed, or 6.
pub fn write_line<O: Sink>(sink: &mut O, line: &[u8]) -> u8
    ensures known { (result ≡ 0) ⊎ (result ≡ 4) ⊎ (result ≡ 6) }
    ensures done { result ≡ 0 → Appends (O.taken sink.old) (O.taken sink.new) line.now }
    ensures part { 3 ≤ result → (written : List ℕ) × IsPrefixOf written line.now
        × Appends (O.taken sink.old) (O.taken sink.new) written }
    ensures flushed { result ≡ 0 → IsFlushed (O.taken sink.old) (O.flushed sink.old)
        → IsFlushed (O.taken sink.new) (O.flushed sink.new) }
    ensures write { result ≡ 4 → CountRose (O.faults sink.old) (O.faults sink.new) }
    ensures write_told { O.faults sink.old < O.faults sink.new → result ≡ 4 }
{
    match write_all(sink, line) {
        Ok(()) => {}
        Err(refused) => return status_of(refused),
    }
    match sink.flush() {
        Ok(()) => Status::Done as u8,
        Err(refused) => status_of(refused),
    }
}

fn status_of(refused: Refused) -> u8
    ensures failed { refused ≡ Refused.Failed → result ≡ 4 }
    ensures no_memory { refused ≡ Refused.NoMemory → result ≡ 6 }
{
    match refused {
        Refused::Failed => Status::WriteFault as u8,
        Refused::NoMemory => Status::NoMemory as u8,
    }
}
