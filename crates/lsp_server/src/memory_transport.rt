// A transport in memory.
ghost use Rattle.std.specs.Prelude.{◌≡◌, ◌<◌, ◌≤◌, ℕ, List, Option, All, [], Some, IsTrue, IfOk, IsOk, IsErrOf, OnOk, OnErr, length, map};
ghost use Rattle.std.specs.List.{list_all};
ghost use Rattle.std.proofs.Common.{ap};
ghost use Rattle.lsp_server.specs.Memory.{Fills};
ghost use Rattle.lsp_server.specs.Calls.{GivesBytes, CountsRead, TakesBytes, FlushesBytes};
ghost use Rattle.lsp_server.specs.Reads.{Moment, moment, Notes};
ghost use Rattle.lsp_server.specs.ReadAt.{is_within, moment_at};

use crate::memory::fill;
use crate::{Failed, Refused, Sink, Transport};
use std::alloc::Global;

/// How many bytes had been read, taken and flushed as a read was made.
#[derive(Clone, Copy, Debug, PartialEq, Eq)]
pub struct ReadAt {
    pub read: usize,
    pub taken: usize,
    pub flushed: usize,
}

/// Gives bytes in pieces, keeps the bytes that it takes, and notes its reads. It fails only when
/// out of memory.
#[derive(Drop)]
pub struct MemoryTransport {
    bytes: Vec<u8>,
    at: usize,
    piece: usize,
    taken: Vec<u8>,
    flushed: usize,
    reads: Vec<ReadAt>,
    faults: u64,
    ghost within: { at ≤ length bytes.items },
    ghost some: { 0 < piece },
    ghost read: { All (λ r. r.read ≤ length bytes.items) reads.items },
    ghost earlier: { IsTrue (list_all (is_within (length taken.items)) reads.items) },
}

impl MemoryTransport {
    ghost use Rattle.lsp_server.specs.MemoryTransport.{all_bytes, bytes_left, bytes_taken, bytes_flushed, read_size, reads_failed, reads_made};

    /// Gives `piece` bytes a read, or as many as are left.
    pub fn new(alloc: Global, bytes: Vec<u8>, piece: usize) -> MemoryTransport
        requires { 0 < piece }
        ensures all { all_bytes result ≡ bytes.items }
        ensures left { bytes_left result ≡ Some bytes.items }
        ensures taken { bytes_taken result ≡ [] }
        ensures flushed { bytes_flushed result ≡ 0 }
        ensures piece { read_size result ≡ piece }
        ensures faults { reads_failed result ≡ 0 }
        ensures reads { reads_made result ≡ [] }
    {
        MemoryTransport {
            bytes,
            at: 0,
            piece,
            taken: Vec::new(alloc),
            flushed: 0,
            reads: Vec::new(alloc),
            faults: 0,
        }
    }

    /// The bytes taken.
    pub fn bytes(&self) -> &[u8]
        ensures { result.now ≡ bytes_taken self.now }
    {
        self.taken.as_slice()
    }

    /// The reads that were made and didn't fail, in order.
    pub fn reads(&self) -> &[ReadAt]
        ensures made { map (moment_at (all_bytes self.now) (bytes_taken self.now)) result.now
            ≡ reads_made self.now }
        ensures read { All (λ r. r.read ≤ length (all_bytes self.now)) result.now }
    {
        self.reads.as_slice()
    }
}

impl Sink for MemoryTransport {
    ghost use Rattle.lsp_server.specs.MemoryTransport.{bytes_left, bytes_taken, bytes_flushed, read_size, reads_failed, reads_made, KeepsReads};

    ghost taken = { λ t. Some (bytes_taken t) };

    ghost flushed = { λ t. Some (bytes_flushed t) };

    ghost faults = { λ _. 0 };

    ghost Beside = { (Option (List ℕ) × ℕ) × (List Moment × ℕ) };

    ghost beside = { λ t. ((bytes_left t, reads_failed t), (reads_made t, read_size t)) };

    fn write(&mut self, piece: &[u8]) -> Result<usize, Refused>
        ensures takes { TakesBytes (λ t. Some (bytes_taken t)) bytes_flushed self.old self.new
            piece.now result }
        ensures reads { KeepsReads self.old self.new }

        // It takes the whole piece, and only want of memory refuses it.
        ensures whole { IfOk result (λ n. n ≡ length piece.now) }
        ensures only { OnErr result (IsErrOf result Refused.NoMemory) }
    {
        match self.taken.extend_from_slice(piece) {
            Ok(()) => Ok(piece.len()),
            Err(_) => Err(Refused::NoMemory),
        }
    }

    fn flush(&mut self) -> Result<(), Refused>
        ensures flushes { FlushesBytes (λ t. Some (bytes_taken t)) (λ t. Some (bytes_flushed t))
            self.old self.new result }
        ensures reads { KeepsReads self.old self.new }

        // It never fails, and takes no memory.
        ensures never { IsOk result }
    {
        self.flushed = self.taken.len();
        Ok(())
    }
}

impl Transport for MemoryTransport {
    ghost use Rattle.lsp_server.specs.MemoryTransport.{all_bytes, bytes_left, bytes_taken, bytes_flushed, read_size, reads_failed, reads_made};

    ghost left = { bytes_left };

    ghost read_faults = { reads_failed };

    ghost reads = { λ t. Some (reads_made t) };

    ghost Tied = { ℕ };

    ghost tied = { read_size };

    fn read(&mut self, piece: &mut [u8]) -> Result<usize, Failed>
        requires { 0 < length piece.old }
        ensures gives { GivesBytes bytes_left self.old self.new piece.new result }
        ensures notes { OnOk result (Notes (Some (reads_made self.old))
            (moment (bytes_left self.old) (Some (bytes_taken self.old))
            (Some (bytes_flushed self.old))) (Some (reads_made self.new))) }
        ensures unnoted { OnErr result (Some (reads_made self.new) ≡ Some (reads_made self.old)) }
        ensures taken { Some (bytes_taken self.new) ≡ Some (bytes_taken self.old) }
        ensures flushed { Some (bytes_flushed self.new) ≡ Some (bytes_flushed self.old) }
        ensures counts { CountsRead reads_failed self.old self.new result }

        // It gives all that is left, as far as the piece has room and its size allows.
        ensures full { IfOk result (Fills (bytes_left self.old) (length piece.old)
            (read_size self.old)) }
        ensures tied { read_size self.new ≡ read_size self.old }
        ensures all { all_bytes self.new ≡ all_bytes self.old }
    {
        let made = ReadAt {
            read: self.at,
            taken: self.taken.len(),
            flushed: self.flushed,
        };
        match self.reads.push(made) {
            Ok(()) => {}
            Err(_) => {
                self.faults = self.faults.saturating_add(1);
                return Err(Failed);
            }
        }
        let n = self.piece.min(piece.len()).min(self.bytes.len() - self.at);
        fill(piece, &self.bytes[self.at..self.at + n]);
        self.at += n;
        Ok(n)
    }

    ghost apart = { λ a b e. (
      ap (λ x. x.0.0) e,
      ap (λ x. x.0.1) e,
      ap (λ x. Some x.1.0) e,
      ap (λ x. x.1.1) e,
    ) };
}
