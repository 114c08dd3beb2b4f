//! Lines that are counted over reads: another consumer than a session and a relay.
ghost use Rattle.std.specs.Prelude.{◌≡◌, ◌<◌, ◌^◌, ◌+◌, ⊤, IfOk, IfSome};
ghost use Rattle.tests_session.specs.Lines.{lines_in, counted};

use crate::table::{TableRow, try_table};
use lsp_rows::{RowError, Trial};
use lsp_rpc::NoMemory;
use lsp_server::{Consumer, MemoryTransport, ServeError, Sink, Transport, over_reads};
use std::alloc::Global;

// Finds the ends of lines. It holds nothing from one piece to the next.
#[derive(Drop)]
struct Lines;

// How many lines ended. A count of 2^64 - 1 stays.
#[derive(Drop)]
struct Count {
    lines: u64,
}

impl Count {
    fn add(&mut self, piece: &[u8])
        requires { self.old.lines < 2 ^ 64 }
        ensures { self.new.lines ≡ counted (self.old.lines + lines_in piece.now) }
    {
        for byte in piece {
            if *byte == b'\n' {
                self.lines = self.lines.saturating_add(1);
            }
        }
    }
}

impl Consumer<Count> for Lines {
    ghost use Rattle.tests_session.specs.LinesCounted.{counting};

    ghost meaning = { counting (λ s. s.1.lines) };

    ghost Tied = { ⊤ };

    ghost tied = { λ _. tt };

    fn take<O: Sink>(
        &mut self,
        count: &mut Count,
        piece: &[u8],
        _sink: &mut O,
    ) -> Result<bool, ServeError> {
        count.add(piece);
        Ok(false)
    }

    fn end<O: Sink>(&mut self, _count: &mut Count, _sink: &mut O) -> Result<(), ServeError> {
        Ok(())
    }
}

// How many lines end in what is left of the transport.
fn count_lines<T: Transport>(io: &mut T, reads: u64) -> Result<u64, ServeError>
    ensures { IfOk result (λ n. IfSome (T.left io.old) (λ bytes. n ≡ counted (lines_in bytes))) }
{
    let mut count = Count { lines: 0 };
    over_reads(io, &mut Lines, &mut count, reads)?;
    Ok(count.lines)
}

// How many bytes a read gives at most.
struct Piece(usize);

const PIECES: &[Piece] = &[Piece(1), Piece(3), Piece(4096)];

impl TableRow for Piece {
    fn try_row(&self, trial: &mut Trial, alloc: Global) -> Result<(), NoMemory> {
        let bytes = Vec::from_slice(alloc, b"a\nbc\n\nd")?;
        let mut io = MemoryTransport::new(alloc, bytes, self.0.max(1));
        trial.same(self.0, count_lines(&mut io, 1000), Ok(3));
        trial.same(self.0, io.bytes().len(), 0);
        Ok(())
    }
}

#[test]
fn lines_are_counted_over_reads(rt: HostRuntime) -> Result<(), RowError> {
    try_table(rt.alloc(), PIECES)
}
