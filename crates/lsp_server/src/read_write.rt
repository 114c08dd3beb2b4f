// A reader and a writer of std as a source and a sink: the edge of what is proved.
ghost use Rattle.std.specs.Prelude.{◌≡◌, ◌<◌, length, OnErr};
ghost use Rattle.lsp_server.specs.Memory.{number_after};
ghost use Rattle.lsp_server.specs.Calls.{GivesBytes, CountsRead, TakesBytes, FlushesBytes, CountsRefused};

use crate::{Failed, Refused, Sink, Source};
use std::io::{Read, Write};

/// Reads from a reader, one call for each read.
#[derive(Drop)]
pub struct ReadSource<R> {
    reader: R,
    faults: u64,
}

impl<R: Read> ReadSource<R> {
    ghost use Rattle.lsp_server.specs.ReadWrite.{reader_of, failed_reads};

    /// A source whose reads have not failed.
    pub fn new(reader: R) -> ReadSource<R>
        ensures reader { reader_of result ≡ reader }
        ensures faults { failed_reads result ≡ 0 }
    {
        ReadSource { reader, faults: 0 }
    }
}

impl<R: Read> Source for ReadSource<R> {
    ghost use Rattle.lsp_server.specs.ReadWrite.{reader_of, failed_reads};

    ghost left = { λ s. R.remaining (reader_of s) };

    ghost faults = { failed_reads };

    fn read(&mut self, piece: &mut [u8]) -> Result<usize, Failed>
        requires { 0 < length piece.old }
        ensures gives { GivesBytes (λ s. R.remaining (reader_of s)) self.old self.new piece.new
            result }
        ensures counts { CountsRead failed_reads self.old self.new result }

        // A failed read is counted once, up to the count's last value.
        ensures one_more { OnErr result (failed_reads self.new
            ≡ number_after (failed_reads self.old)) }
    {
        match self.reader.read(piece) {
            Ok(n) => Ok(n),
            Err(_) => {
                self.faults = self.faults.saturating_add(1);
                Err(Failed)
            }
        }
    }
}

/// Writes to a writer, one call for each write and each flush. A write that takes nothing fails.
#[derive(Drop)]
pub struct WriteSink<W> {
    writer: W,
    faults: u64,
}

impl<W: Write> WriteSink<W> {
    ghost use Rattle.lsp_server.specs.ReadWrite.{writer_of, failed_writes};

    /// A sink whose writes have not failed.
    pub fn new(writer: W) -> WriteSink<W>
        ensures writer { writer_of result ≡ writer }
        ensures faults { failed_writes result ≡ 0 }
    {
        WriteSink { writer, faults: 0 }
    }
}

impl<W: Write> Sink for WriteSink<W> {
    ghost use Rattle.lsp_server.specs.ReadWrite.{writer_of, known_flushed, failed_writes};

    ghost taken = { λ s. W.contents (writer_of s) };

    ghost flushed = { known_flushed };

    ghost faults = { failed_writes };

    ghost beside = { λ _. tt };

    fn write(&mut self, piece: &[u8]) -> Result<usize, Refused>
        ensures takes { TakesBytes (λ s. W.contents (writer_of s)) known_flushed self.old self.new
            piece.now result }

        // A refused write failed, and is counted once, up to the count's last value.
        ensures refused { CountsRefused failed_writes self.old self.new result }
    {
        match self.writer.write(piece) {
            Ok(n) if n > 0 => Ok(n),
            _ => {
                self.faults = self.faults.saturating_add(1);
                Err(Refused::Failed)
            }
        }
    }

    fn flush(&mut self) -> Result<(), Refused>
        ensures flushes { FlushesBytes (λ s. W.contents (writer_of s)) known_flushed self.old
            self.new result }

        // A refused flush failed, and is counted once, up to the count's last value.
        ensures refused { CountsRefused failed_writes self.old self.new result }
    {
        match self.writer.flush() {
            Ok(()) => Ok(()),
            Err(_) => {
                self.faults = self.faults.saturating_add(1);
                Err(Refused::Failed)
            }
        }
    }
}
