// What a session reads from and writes to, as one.
ghost use Rattle.std.specs.Prelude.{◌≡◌, ◌<◌, ⊤, ℕ, List, Option, None, length, refl, OnOk, OnErr};
ghost use Rattle.std.proofs.Common.{ap};
ghost use Rattle.lsp_server.specs.Calls.{GivesBytes, CountsRead};
ghost use Rattle.lsp_server.specs.Reads.{Moment, moment, Notes};

use crate::{Failed, Refused, Sink, Source};

/// What a session reads from and writes to, as one: a sink from which bytes come too. Since it sees
/// its reads and its writes, it can tell in which order they were made.
pub trait Transport: Sink {
    /// The bytes still to come, where the transport tells them.
    ghost left: { Self → Option (List ℕ) };

    /// How often a read has failed: a count that never falls.
    ghost read_faults: { Self → ℕ };

    /// What stood as each read was made that didn't fail, in order, where they are noted.
    ghost reads: { Self → Option (List Moment) };

    /// What no call changes.
    ghost Tied: { Type 0 } = { ⊤ };

    ghost tied: { Self → Tied };

    /// Reads into the front of `piece`, which isn't empty. The answer is the number of bytes read;
    /// 0 is the end of input.
    fn read(&mut self, piece: &mut [u8]) -> Result<usize, Failed>
        requires { 0 < length piece.old }
        ensures gives { GivesBytes left self.old self.new piece.new result }

        // A read that doesn't fail is noted. None takes or flushes anything.
        ensures notes { OnOk result (Notes (reads self.old)
            (moment (left self.old) (Self.taken self.old) (Self.flushed self.old))
            (reads self.new)) }
        ensures unnoted { OnErr result (reads self.new ≡ reads self.old) }
        ensures taken { Self.taken self.new ≡ Self.taken self.old }
        ensures flushed { Self.flushed self.new ≡ Self.flushed self.old }
        ensures write_faults { Self.faults self.new ≡ Self.faults self.old }
        ensures tied { tied self.new ≡ tied self.old }

        // The count rises exactly where the read failed.
        ensures counts { CountsRead read_faults self.old self.new result };

    /// No write and no flush is a read.
    ghost apart: { (a b : Self) → Self.beside a ≡ Self.beside b → (left a ≡ left b)
        × (read_faults a ≡ read_faults b) × (reads a ≡ reads b) × (tied a ≡ tied b) };
}

/// A source and a sink as one, which notes no read.
#[derive(Drop)]
pub struct Ends<'a, I, O> {
    pub source: &'a mut I,
    pub sink: &'a mut O,
}

impl<'a, I: Source, O: Sink> Sink for Ends<'a, I, O> {
    ghost taken = { λ ends. O.taken ends.sink.now };

    ghost flushed = { λ ends. O.flushed ends.sink.now };

    ghost faults = { λ ends. O.faults ends.sink.now };

    // The source, and which source and sink they are.
    ghost Beside = { (I × ℕ) × ℕ };

    ghost beside = { λ ends. ((ends.source.now, ends.source.ghost_name), ends.sink.ghost_name) };

    fn write(&mut self, piece: &[u8]) -> Result<usize, Refused> {
        self.sink.write(piece)
    }

    fn flush(&mut self) -> Result<(), Refused> {
        self.sink.flush()
    }
}

impl<'a, I: Source, O: Sink> Transport for Ends<'a, I, O> {
    ghost left = { λ ends. I.left ends.source.now };

    ghost read_faults = { λ ends. I.faults ends.source.now };

    ghost reads = { λ _. None };

    ghost Tied = { ℕ × ℕ };

    ghost tied = { λ ends. (ends.source.ghost_name, ends.sink.ghost_name) };

    fn read(&mut self, piece: &mut [u8]) -> Result<usize, Failed> {
        self.source.read(piece)
    }

    ghost apart = { λ a b e. (
      ap (λ x. I.left x.0.0) e,
      ap (λ x. I.faults x.0.0) e,
      refl,
      ap (λ x. (x.0.1, x.1)) e,
    ) };
}
