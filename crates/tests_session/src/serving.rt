//! Sessions of the small server, by the bytes that they are sent and write.
ghost use Rattle.lsp_desk.specs.Meaning.{IsOpening};
ghost use Rattle.lsp_desk.specs.Plain.{plain_meaning};
ghost use Rattle.lsp_server.specs.ServerView.{server_desk};

use crate::frames::{Part, sink_of, source_of, try_written};
use crate::small::{Small, make_server};
use crate::table::TableRow;
use lsp_desk::{ClientSocket, PlainDesk};
use lsp_frame::Limits;
use lsp_rows::Trial;
use lsp_rpc::{Id, NoMemory};
use lsp_server::{MemorySink, MemorySource, ServeError, Served, Server, Stopped};
use lsp_session::{InOrder, Life, Pick, Rotate};
use std::alloc::Global;

/// The life at `exit` and the ids that are left, or why the session stopped.
pub(crate) type Outcome = Result<(Option<Life>, Vec<Id>), ServeError>;

/// What comes of a session, and its desk. The service is let go.
pub(crate) fn outcome<D>(served: Result<Served<Small, D>, Stopped<D>>) -> (Outcome, D) {
    match served {
        Ok(
            Served {
                service,
                desk,
                exited,
                unanswered,
            },
        ) => {
            drop(service);
            (Ok((exited, unanswered)), desk)
        }
        Err(Stopped { error, desk }) => (Err(error), desk),
    }
}

/// How a session is served.
pub(crate) struct How {
    pub(crate) max: usize,
    pub(crate) wait: usize,
    pub(crate) limits: (u64, u64),
    pub(crate) rounds: u64,
    pub(crate) reads: u64,
    pub(crate) rotates: bool,
}

/// With the settings of a new server, one round, and reads without an end.
pub(crate) const PLAIN: How = How {
    max: 4,
    wait: 1024,
    limits: (8192, 67_108_864),
    rounds: 1,
    reads: u64::MAX,
    rotates: false,
};

/// What is sent, by pieces of these sizes, and what comes of it: how the session ends, and what is
/// written. Reads, and writes with flushes, are numbered from 1; of each pair that read and that
/// write or flush fail.
pub(crate) struct Case {
    pub(crate) name: &'static str,
    pub(crate) how: How,
    pub(crate) sent: &'static [Part],
    pub(crate) pieces: &'static [usize],
    pub(crate) failing: &'static [(u64, u64)],
    pub(crate) ended: &'static str,
    pub(crate) written: &'static [Part],
}

/// Nothing fails.
pub(crate) const NONE: &[(u64, u64)] = &[(0, 0)];

fn new_server(alloc: Global, how: &How) -> Server<PlainDesk>
    ensures { IsOpening plain_meaning (server_desk result) }
{
    let limits = Limits {
        head: how.limits.0.max(1),
        body: how.limits.1.max(1),
    };
    Server::new(ClientSocket::new(PlainDesk::new(alloc)))
        .concurrency_level(how.max.max(1))
        .waiting_limit(how.wait)
        .limits(limits)
}

fn serve<P: Pick>(
    alloc: Global,
    how: &How,
    source: &mut MemorySource,
    sink: &mut MemorySink,
    pick: &mut P,
) -> Result<Outcome, NoMemory> {
    let service = make_server(alloc)?;
    let server = new_server(alloc, how);
    let rounds = how.rounds.max(1);
    let served = server.serve(alloc, source, sink, service, pick, how.reads, rounds);
    let (outcome, desk) = outcome(served);
    drop(desk);
    Ok(outcome)
}

fn serve_so(
    alloc: Global,
    how: &How,
    source: &mut MemorySource,
    sink: &mut MemorySink,
) -> Result<Outcome, NoMemory> {
    if how.rotates {
        serve(alloc, how, source, sink, &mut Rotate::new(7))
    } else {
        serve(alloc, how, source, sink, &mut InOrder)
    }
}

fn try_case(
    trial: &mut Trial,
    alloc: Global,
    case: &Case,
    piece: usize,
    read: u64,
    call: u64,
) -> Result<(), NoMemory> {
    let mut source = source_of(alloc, case.sent, piece, read)?;
    let mut sink = sink_of(alloc, call)?;
    let ended = serve_so(alloc, &case.how, &mut source, &mut sink)?;
    let what = format_args!("{}, by {piece}, read {read}, call {call}", case.name);
    trial.shows(what, ended, case.ended);
    Ok(try_written(trial, alloc, case.name, &sink, case.written)?)
}

// Serves the case by each of its pieces, with each of its failures.
impl TableRow for Case {
    fn try_row(&self, trial: &mut Trial, alloc: Global) -> Result<(), NoMemory> {
        for piece in self.pieces {
            for (read, call) in self.failing {
                try_case(trial, alloc, self, *piece, *read, *call)?;
            }
        }
        Ok(())
    }
}
