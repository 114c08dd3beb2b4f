// One call of a reader or a writer of std for each call of a source or a sink.
use crate::table::{TableRow, try_table};
use lsp_rows::{RowError, Trial};
use lsp_rpc::NoMemory;
use lsp_server::{Failed, ReadSource, Refused, Sink, Source, WriteSink, write_all};
use std::alloc::Global;
use std::io;
use std::io::{ErrorKind, Read, Write};

// A writer that counts its calls. Each write takes so many bytes at most, or each call fails.
#[derive(Drop)]
struct Counted<'a> {
    most: Option<usize>,
    writes: &'a mut u32,
    flushes: &'a mut u32,
}

impl Write for Counted<'_> {
    fn write(&mut self, piece: &[u8]) -> io::Result<usize> {
        *self.writes = self.writes.saturating_add(1);
        match self.most {
            Some(most) => Ok(most.min(piece.len())),
            None => Err(io::Error::from(ErrorKind::BrokenPipe)),
        }
    }

    fn flush(&mut self) -> io::Result<()> {
        *self.flushes = self.flushes.saturating_add(1);
        match self.most {
            Some(_) => Ok(()),
            None => Err(io::Error::from(ErrorKind::BrokenPipe)),
        }
    }
}

// A reader that counts its calls. Each read gives so many bytes at most, or fails.
#[derive(Drop)]
struct CountedReader<'a> {
    most: Option<usize>,
    reads: &'a mut u32,
}

impl Read for CountedReader<'_> {
    fn read(&mut self, piece: &mut [u8]) -> io::Result<usize> {
        *self.reads = self.reads.saturating_add(1);
        match self.most {
            Some(most) => Ok(most.min(piece.len())),
            None => Err(io::Error::from(ErrorKind::BrokenPipe)),
        }
    }
}

// How many bytes a read gives at most, and what it answers.
const READS: &[(Option<usize>, Result<usize, Failed>)] = &[
    (Some(9), Ok(5)),
    (Some(2), Ok(2)),
    (Some(0), Ok(0)),
    (None, Err(Failed)),
];

impl TableRow for (Option<usize>, Result<usize, Failed>) {
    fn try_row(&self, trial: &mut Trial, _alloc: Global) -> Result<(), NoMemory> {
        let (most, read) = self;
        let mut reads = 0;
        let mut source = ReadSource::new(CountedReader {
            most: *most,
            reads: &mut reads,
        });
        let found = source.read(&mut [0; 5]);
        trial.same(format_args!("at most {most:?}"), (found, reads), (*read, 1));
        Ok(())
    }
}

#[test]
fn one_call_of_the_reader_for_each_read(rt: HostRuntime) -> Result<(), RowError> {
    try_table(rt.alloc(), READS)
}

// What is called, of five bytes.
#[derive(Clone, Copy, Debug)]
enum Call {
    Write,
    Flush,
    All,
}

// How many bytes a write takes at most, what is called, what it answers, 0 where it gives no number,
// and how many writes and flushes that takes.
struct Row(Option<usize>, Call, Result<usize, Refused>, (u32, u32));

const CALLS: &[Row] = &[
    Row(Some(9), Call::Write, Ok(5), (1, 0)),
    Row(Some(5), Call::Write, Ok(5), (1, 0)),
    Row(Some(2), Call::Write, Ok(2), (1, 0)),
    Row(Some(0), Call::Write, Err(Refused::Failed), (1, 0)),
    Row(None, Call::Write, Err(Refused::Failed), (1, 0)),
    Row(Some(9), Call::Flush, Ok(0), (0, 1)),
    Row(Some(5), Call::Flush, Ok(0), (0, 1)),
    Row(Some(2), Call::Flush, Ok(0), (0, 1)),
    Row(Some(0), Call::Flush, Ok(0), (0, 1)),
    Row(None, Call::Flush, Err(Refused::Failed), (0, 1)),
    Row(Some(9), Call::All, Ok(0), (1, 0)),
    Row(Some(2), Call::All, Ok(0), (3, 0)),
    Row(Some(0), Call::All, Err(Refused::Failed), (1, 0)),
    Row(None, Call::All, Err(Refused::Failed), (1, 0)),
];

// What the call answers, and how many writes and flushes it takes.
fn called(most: Option<usize>, call: Call) -> (Result<usize, Refused>, (u32, u32)) {
    let (mut writes, mut flushes) = (0, 0);
    let mut sink = WriteSink::new(Counted {
        most,
        writes: &mut writes,
        flushes: &mut flushes,
    });
    let answer = match call {
        Call::Write => sink.write(b"bytes"),
        Call::Flush => sink.flush().and(Ok(0)),
        Call::All => write_all(&mut sink, b"bytes").and(Ok(0)),
    };
    (answer, (writes, flushes))
}

impl TableRow for Row {
    fn try_row(&self, trial: &mut Trial, _alloc: Global) -> Result<(), NoMemory> {
        let Row(most, call, answer, calls) = self;
        let what = format_args!("{call:?}, at most {most:?}");
        trial.same(what, called(*most, *call), (*answer, *calls));
        Ok(())
    }
}

#[test]
fn as_many_calls_of_the_writer_as_it_takes(rt: HostRuntime) -> Result<(), RowError> {
    try_table(rt.alloc(), CALLS)
}
