//! What is answered or passed on is written and flushed before the next read.
use crate::frames::{Part, bytes_of};
use crate::relay::{ASKED, SENT};
use crate::sessions::{ANSWER_1, ANSWERS_1_2, BARE_INITIALIZE, EXIT, SHUTDOWN};
use crate::small::make_server;
use crate::table::{TableRow, try_table};
use lsp_desk::PlainDesk;
use lsp_frame::CodecSettings;
use lsp_relay::relay_over;
use lsp_rows::{RowError, Trial};
use lsp_rpc::NoMemory;
use lsp_server::{MemoryTransport, ReadAt, serve_over};
use lsp_session::{InOrder, Session};
use std::alloc::Global;

// What reads: a session, or a relay.
#[derive(Clone, Copy)]
enum Reader {
    Session,
    Relay,
}

// What is sent, by pieces of this size. As each read is made, this many bytes were read before it,
// and this many taken and flushed.
struct Row {
    name: &'static str,
    reader: Reader,
    sent: &'static [Part],
    piece: usize,
    made: &'static [(usize, usize)],
    written: &'static [Part],
}

// The frames have 68, 66 and 55 bytes, and each answer 60; each of the four frames asked of a relay has
// 128 bytes, and each of the four that it sends 129.
const ROWS: &[Row] = &[
    Row {
        name: "answers to frames one by one",
        reader: Reader::Session,
        sent: &[Part::Frames(&[BARE_INITIALIZE, SHUTDOWN, EXIT])],
        piece: 68,
        made: &[(0, 0), (68, 60), (136, 120)],
        written: BOTH,
    },
    Row {
        name: "answers to frames that are cut",
        reader: Reader::Session,
        sent: &[Part::Frames(&[BARE_INITIALIZE, SHUTDOWN, EXIT])],
        piece: 100,
        made: &[(0, 0), (100, 60)],
        written: BOTH,
    },
    Row {
        name: "answers to all at once",
        reader: Reader::Session,
        sent: &[Part::Frames(&[BARE_INITIALIZE, SHUTDOWN, EXIT])],
        piece: 4096,
        made: &[(0, 0)],
        written: BOTH,
    },
    Row {
        name: "an answer before the end of input",
        reader: Reader::Session,
        sent: &[Part::Frames(&[BARE_INITIALIZE])],
        piece: 4096,
        made: &[(0, 0), (68, 60)],
        written: &[Part::Bytes(ANSWER_1)],
    },
    Row {
        name: "messages one by one",
        reader: Reader::Relay,
        sent: ASKED,
        piece: 128,
        made: &[(0, 0), (128, 129), (256, 258), (384, 387), (512, 516)],
        written: SENT,
    },
    Row {
        name: "messages that are cut",
        reader: Reader::Relay,
        sent: ASKED,
        piece: 200,
        made: &[(0, 0), (200, 129), (400, 387), (512, 516)],
        written: SENT,
    },
    Row {
        name: "messages all at once",
        reader: Reader::Relay,
        sent: ASKED,
        piece: 4096,
        made: &[(0, 0), (512, 516)],
        written: SENT,
    },
];

const BOTH: &[Part] = &[Part::Bytes(ANSWERS_1_2)];

// Whether a session ends well.
fn serves(alloc: Global, io: &mut MemoryTransport) -> Result<bool, NoMemory> {
    let mut session = Session::new(alloc, make_server(alloc)?, PlainDesk::new(alloc), 4);
    let settings = CodecSettings::default();
    let served = serve_over(alloc, io, &mut session, &mut InOrder, 1000, 1, settings);
    drop(session);
    Ok(served.is_ok())
}

// Whether a relay passes four messages, and drops none.
fn relays(alloc: Global, io: &mut MemoryTransport) -> bool {
    match relay_over(alloc, 2, io, 1000) {
        Ok(relayed) => relayed.passed == 4 && relayed.dropped == 0,
        Err(_) => false,
    }
}

fn reads(alloc: Global, reader: Reader, io: &mut MemoryTransport) -> Result<bool, NoMemory> {
    match reader {
        Reader::Session => serves(alloc, io),
        Reader::Relay => Ok(relays(alloc, io)),
    }
}

// The reads were made so.
fn try_made(trial: &mut Trial, name: &str, reads: &[ReadAt], made: &[(usize, usize)]) {
    trial.same(name, reads.len(), made.len());
    for (found, (read, taken)) in reads.iter().zip(made) {
        let wanted = ReadAt {
            read: *read,
            taken: *taken,
            flushed: *taken,
        };
        trial.same(name, *found, wanted);
    }
}

impl TableRow for Row {
    fn try_row(&self, trial: &mut Trial, alloc: Global) -> Result<(), NoMemory> {
        let wanted = bytes_of(alloc, self.written)?;
        let sent = bytes_of(alloc, self.sent)?;
        let mut io = MemoryTransport::new(alloc, sent, self.piece.max(1));
        trial.same(self.name, reads(alloc, self.reader, &mut io), Ok(true));
        trial.same(self.name, io.bytes(), wanted.as_slice());
        try_made(trial, self.name, io.reads(), self.made);
        Ok(())
    }
}

#[test]
fn all_is_written_before_the_next_read(rt: HostRuntime) -> Result<(), RowError> {
    try_table(rt.alloc(), ROWS)
}
