// Sessions of the sample with settings of their own, and of editors that send floats, and params where
// a method takes none.
ghost use Rattle.std.specs.Prelude.{◌≡◌, IfOk};
ghost use Rattle.lsp_desk.specs.Meaning.{IsOpening};
ghost use Rattle.lsp_desk.specs.Plain.{plain_meaning};
ghost use Rattle.lsp_server.specs.ServerView.{server_desk};

use crate::frames::{Part, sink_of, source_of, try_written};
use crate::sessions::{INITIALIZE, INITIALIZED, SHUT_DOWN};
use lsp_desk::PlainDesk;
use lsp_frame::Floats;
use lsp_rows::{RowError, Trial};
use lsp_rpc::{Id, NoMemory};
use lsp_sample_server::{Sample, sample_service};
use lsp_server::{ServeError, Served, Server, Stopped};
use lsp_service::{LspService, serve_session};
use lsp_session::InOrder;
use std::alloc::Global;

/// A session with limits of its own, and its name: whether floats and empty params are let in, the
/// most calls that are polled, the most that wait, the rounds after each message, the reads that are
/// granted, the bodies sent, the bodies of the answers, and the ids that are left unanswered, or why
/// it stopped.
struct Limited {
    name: &'static str,
    lets_in: bool,
    max: usize,
    wait: usize,
    rounds: u64,
    reads: u64,
    sent: &'static [&'static str],
    answers: &'static [&'static str],
    left: &'static str,
}

const LIMITED: &[Limited] = &[
    Limited {
        name: "the input in pieces",
        lets_in: false,
        max: 4,
        wait: 1024,
        rounds: 8,
        reads: 98,
        sent: &[INITIALIZE],
        answers: &[INITIALIZED],
        left: "Ok([])",
    },
    Limited {
        name: "a wait that is longer than the input",
        lets_in: false,
        max: 1,
        wait: 1024,
        rounds: 1,
        reads: u64::MAX,
        sent: &[
            INITIALIZE,
            "{\"jsonrpc\":\"2.0\",\"method\":\"workspace/executeCommand\",\"params\":{\"command\":\"wait\",\"arguments\":[3]},\"id\":2}",
            "{\"jsonrpc\":\"2.0\",\"method\":\"workspace/executeCommand\",\"params\":{\"command\":\"echo\",\"arguments\":[\"x\"]},\"id\":3}",
        ],
        answers: &[INITIALIZED],
        left: "Ok([Number(2), Number(3)])",
    },
    Limited {
        name: "an id that is refused once and waits once",
        lets_in: false,
        max: 4,
        wait: 1024,
        rounds: 8,
        reads: u64::MAX,
        sent: &[
            INITIALIZE,
            "{\"jsonrpc\":\"2.0\",\"method\":\"workspace/executeCommand\",\"params\":{\"command\":\"wait\",\"arguments\":[1000]},\"id\":7}",
            "{\"jsonrpc\":\"2.0\",\"method\":\"workspace/executeCommand\",\"params\":{},\"id\":7}",
        ],
        answers: &[
            INITIALIZED,
            "{\"jsonrpc\":\"2.0\",\"error\":{\"code\":-32600,\"message\":\"Invalid request\"},\"id\":7}",
        ],
        left: "Ok([Number(7)])",
    },
    Limited {
        name: "an id past 32 bits",
        lets_in: false,
        max: 4,
        wait: 1024,
        rounds: 8,
        reads: u64::MAX,
        sent: &[
            INITIALIZE,
            "{\"jsonrpc\":\"2.0\",\"method\":\"workspace/executeCommand\",\"params\":{\"command\":\"wait\",\"arguments\":[1000]},\"id\":5000000000}",
            "{\"jsonrpc\":\"2.0\",\"method\":\"$/cancelRequest\",\"params\":{\"id\":5000000000}}",
        ],
        answers: &[INITIALIZED],
        left: "Ok([Number(5000000000)])",
    },
    Limited {
        name: "a request past the limit of those that wait",
        lets_in: false,
        max: 1,
        wait: 1,
        rounds: 1,
        reads: u64::MAX,
        sent: &[
            INITIALIZE,
            "{\"jsonrpc\":\"2.0\",\"method\":\"workspace/executeCommand\",\"params\":{\"command\":\"wait\",\"arguments\":[1000]},\"id\":2}",
            "{\"jsonrpc\":\"2.0\",\"method\":\"workspace/executeCommand\",\"params\":{\"command\":\"echo\",\"arguments\":[\"x\"]},\"id\":3}",
            "{\"jsonrpc\":\"2.0\",\"method\":\"workspace/executeCommand\",\"params\":{\"command\":\"echo\",\"arguments\":[\"y\"]},\"id\":4}",
        ],
        answers: &[
            INITIALIZED,
            "{\"jsonrpc\":\"2.0\",\"error\":{\"code\":-32803,\"message\":\"Too many requests\"},\"id\":4}",
        ],
        left: "Ok([Number(2), Number(3)])",
    },
    // It waits all the same: once the cancel has freed the slot, 3 is echoed, and then the notification
    // is heeded, whose greeting shows it.
    Limited {
        name: "a notification past that limit",
        lets_in: false,
        max: 1,
        wait: 1,
        rounds: 1,
        reads: u64::MAX,
        sent: &[
            INITIALIZE,
            "{\"jsonrpc\":\"2.0\",\"method\":\"workspace/executeCommand\",\"params\":{\"command\":\"wait\",\"arguments\":[1000]},\"id\":2}",
            "{\"jsonrpc\":\"2.0\",\"method\":\"workspace/executeCommand\",\"params\":{\"command\":\"echo\",\"arguments\":[\"x\"]},\"id\":3}",
            "{\"jsonrpc\":\"2.0\",\"method\":\"initialized\",\"params\":{}}",
            "{\"jsonrpc\":\"2.0\",\"method\":\"$/cancelRequest\",\"params\":{\"id\":2}}",
        ],
        answers: &[
            INITIALIZED,
            "{\"jsonrpc\":\"2.0\",\"error\":{\"code\":-32800,\"message\":\"Canceled\"},\"id\":2}",
            "{\"jsonrpc\":\"2.0\",\"result\":\"x\",\"id\":3}",
            "{\"jsonrpc\":\"2.0\",\"method\":\"window/logMessage\",\"params\":{\"message\":\"server initialized!\",\"type\":3}}",
        ],
        left: "Ok([])",
    },
    // One read of 50 bytes tells nothing of a frame of 97.
    Limited {
        name: "one read is granted",
        lets_in: false,
        max: 4,
        wait: 1024,
        rounds: 8,
        reads: 1,
        sent: &[INITIALIZE],
        answers: &[],
        left: "Err(ReadsSpent)",
    },
];

const WITH_FLOAT: &str =
    "{\"jsonrpc\":\"2.0\",\"id\":1,\"method\":\"initialize\",\"params\":{\"capabilities\":{},\"initializationOptions\":{\"fontSize\":1.5}}}";

const WITHOUT_FLOATS: &str =
    "{\"jsonrpc\":\"2.0\",\"id\":1,\"method\":\"initialize\",\"params\":{\"capabilities\":{}}}";

const NULL_SHUTDOWN: &str =
    "{\"jsonrpc\":\"2.0\",\"id\":2,\"method\":\"shutdown\",\"params\":null}";

const EDITORS: &[Limited] = &[
    Limited {
        name: "a float in the settings of an editor",
        lets_in: true,
        max: 4,
        wait: 1024,
        rounds: 8,
        reads: 9999,
        sent: &[WITH_FLOAT],
        answers: &[INITIALIZED],
        left: "Ok([])",
    },
    Limited {
        name: "the same as a server is made",
        lets_in: false,
        max: 4,
        wait: 1024,
        rounds: 8,
        reads: 9999,
        sent: &[WITH_FLOAT],
        answers: &[
            "{\"jsonrpc\":\"2.0\",\"error\":{\"code\":-32600,\"message\":\"Invalid request\"},\"id\":null}",
        ],
        left: "Ok([])",
    },
    Limited {
        name: "params of `shutdown` that are null",
        lets_in: true,
        max: 4,
        wait: 1024,
        rounds: 8,
        reads: 9999,
        sent: &[WITHOUT_FLOATS, NULL_SHUTDOWN],
        answers: &[INITIALIZED, SHUT_DOWN],
        left: "Ok([])",
    },
    Limited {
        name: "the same as a server is made",
        lets_in: false,
        max: 4,
        wait: 1024,
        rounds: 8,
        reads: 9999,
        sent: &[WITHOUT_FLOATS, NULL_SHUTDOWN],
        answers: &[
            INITIALIZED,
            "{\"jsonrpc\":\"2.0\",\"error\":{\"code\":-32602,\"message\":\"Unexpected params: null\"},\"id\":2}",
        ],
        left: "Ok([])",
    },
    Limited {
        name: "params of `shutdown` that are an empty object",
        lets_in: true,
        max: 4,
        wait: 1024,
        rounds: 8,
        reads: 9999,
        sent: &[
            WITHOUT_FLOATS,
            "{\"jsonrpc\":\"2.0\",\"id\":2,\"method\":\"shutdown\",\"params\":{}}",
        ],
        answers: &[INITIALIZED, SHUT_DOWN],
        left: "Ok([])",
    },
    Limited {
        name: "params of `shutdown` that are a float",
        lets_in: true,
        max: 4,
        wait: 1024,
        rounds: 8,
        reads: 9999,
        sent: &[
            WITHOUT_FLOATS,
            "{\"jsonrpc\":\"2.0\",\"id\":2,\"method\":\"shutdown\",\"params\":0.5}",
        ],
        answers: &[INITIALIZED, SHUT_DOWN],
        left: "Ok([])",
    },
    Limited {
        name: "params of `shutdown` that are an empty list",
        lets_in: true,
        max: 4,
        wait: 1024,
        rounds: 8,
        reads: 9999,
        sent: &[
            WITHOUT_FLOATS,
            "{\"jsonrpc\":\"2.0\",\"id\":2,\"method\":\"shutdown\",\"params\":[]}",
        ],
        answers: &[
            INITIALIZED,
            "{\"jsonrpc\":\"2.0\",\"error\":{\"code\":-32602,\"message\":\"Unexpected params: []\"},\"id\":2}",
        ],
        left: "Ok([])",
    },
    Limited {
        name: "params of `shutdown` with a member",
        lets_in: true,
        max: 4,
        wait: 1024,
        rounds: 8,
        reads: 9999,
        sent: &[
            WITHOUT_FLOATS,
            "{\"jsonrpc\":\"2.0\",\"id\":2,\"method\":\"shutdown\",\"params\":{\"a\":1}}",
        ],
        answers: &[
            INITIALIZED,
            "{\"jsonrpc\":\"2.0\",\"error\":{\"code\":-32602,\"message\":\"Unexpected params: {\\\"a\\\":1}\"},\"id\":2}",
        ],
        left: "Ok([])",
    },
    Limited {
        name: "params of `shutdown` that are a number",
        lets_in: true,
        max: 4,
        wait: 1024,
        rounds: 8,
        reads: 9999,
        sent: &[
            WITHOUT_FLOATS,
            "{\"jsonrpc\":\"2.0\",\"id\":2,\"method\":\"shutdown\",\"params\":0}",
        ],
        answers: &[
            INITIALIZED,
            "{\"jsonrpc\":\"2.0\",\"error\":{\"code\":-32602,\"message\":\"Unexpected params: 0\"},\"id\":2}",
        ],
        left: "Ok([])",
    },
    Limited {
        name: "null where a method takes params",
        lets_in: true,
        max: 4,
        wait: 1024,
        rounds: 8,
        reads: 9999,
        sent: &[
            WITHOUT_FLOATS,
            "{\"jsonrpc\":\"2.0\",\"id\":2,\"method\":\"workspace/executeCommand\",\"params\":null}",
        ],
        answers: &[
            INITIALIZED,
            "{\"jsonrpc\":\"2.0\",\"error\":{\"code\":-32602,\"message\":\"Invalid params\"},\"id\":2}",
        ],
        left: "Ok([])",
    },
];

// The sample behind its methods, and a server over a new desk.
fn sample(alloc: Global) -> Result<(LspService<Sample>, Server<PlainDesk>), NoMemory>
    ensures { IfOk result (λ made. IsOpening plain_meaning (server_desk made.1)) }
{
    match sample_service(alloc, PlainDesk::new(alloc)) {
        Ok((service, socket)) => Ok((service, Server::new(socket))),
        Err(_) => Err(NoMemory),
    }
}

fn letting_in(server: Server<PlainDesk>, lets_in: bool) -> Server<PlainDesk>
    ensures { server_desk result ≡ server_desk server }
{
    if lets_in {
        server.floats(Floats::Read).allow_empty_params()
    } else {
        server
    }
}

// The ids that are left, or why the session stopped; the service and the desk are let go.
fn ids_left<H: Drop, D: Drop>(
    served: Result<Served<H, D>, Stopped<D>>,
) -> Result<Vec<Id>, ServeError> {
    match served {
        Ok(
            Served {
                service,
                desk,
                exited: _,
                unanswered,
            },
        ) => {
            drop(service);
            drop(desk);
            Ok(unanswered)
        }
        Err(Stopped { error, desk }) => {
            drop(desk);
            Err(error)
        }
    }
}

fn try_limited(trial: &mut Trial, alloc: Global, row: &Limited) -> Result<(), NoMemory> {
    let mut source = source_of(alloc, &[Part::Frames(row.sent)], 50, 0)?;
    let mut sink = sink_of(alloc, 0)?;
    let (service, server) = sample(alloc)?;
    let server = server
        .concurrency_level(row.max.max(1))
        .waiting_limit(row.wait);
    let served = serve_session(
        alloc,
        &mut source,
        &mut sink,
        service,
        letting_in(server, row.lets_in),
        &mut InOrder,
        row.reads,
        row.rounds.max(1),
    );
    trial.shows(row.name, ids_left(served), row.left);
    Ok(try_written(trial, alloc, row.name, &sink, &[Part::Frames(row.answers)])?)
}

fn try_rows(alloc: Global, rows: &[Limited]) -> Result<(), RowError> {
    let mut trial = Trial::new(alloc);
    for row in rows {
        try_limited(&mut trial, alloc, row)?;
    }
    trial.end()
}

#[test]
fn limits(rt: HostRuntime) -> Result<(), RowError> {
    try_rows(rt.alloc(), LIMITED)
}

#[test]
fn editors(rt: HostRuntime) -> Result<(), RowError> {
    try_rows(rt.alloc(), EDITORS)
}
