// Sessions with their bytes: what `pump` writes is what `serve` writes, where no call waits.
ghost use Rattle.lsp_desk.specs.Meaning.{IsOpening};
ghost use Rattle.lsp_desk.specs.Plain.{plain_meaning};
ghost use Rattle.lsp_server.specs.ServerView.{server_desk};

use crate::served::{framed, new_sample};
use lsp_desk::{ClientSocket, PlainDesk};
use lsp_frame::{Floats, Limits};
use lsp_rows::{RowError, Trial};
use lsp_rpc::NoMemory;
use lsp_server::{NeverSink, NeverSource, Server};
use lsp_service::{pump, serve};
use std::alloc::Global;
use std::sync::Wait;
use std::thread::Threads;

const INITIALIZE: &str =
    "{\"jsonrpc\":\"2.0\",\"method\":\"initialize\",\"params\":{\"capabilities\":{}},\"id\":1}";

const HALF: &str =
    "{\"jsonrpc\":\"2.0\",\"method\":\"workspace/executeCommand\",\"params\":{\"command\":\"echo\",\"arguments\":[0.5]},\"id\":7}";

const SHUTDOWN: &str = "{\"jsonrpc\":\"2.0\",\"method\":\"shutdown\",\"id\":2}";

const EMPTY_SHUTDOWN: &str = "{\"jsonrpc\":\"2.0\",\"method\":\"shutdown\",\"params\":{},\"id\":3}";

const EXIT: &str = "{\"jsonrpc\":\"2.0\",\"method\":\"exit\"}";

// What is sent, and how the server was set.
struct Row {
    name: &'static str,
    sent: &'static [&'static str],
    body: u64,
    floats: Floats,
    empty_params: bool,
}

const ROWS: &[Row] = &[
    Row {
        name: "exit",
        sent: &[INITIALIZE, SHUTDOWN, EXIT],
        body: 999,
        floats: Floats::Refused,
        empty_params: false,
    },
    Row {
        name: "after an exit",
        sent: &[INITIALIZE, SHUTDOWN, EXIT, SHUTDOWN],
        body: 999,
        floats: Floats::Refused,
        empty_params: false,
    },
    Row {
        name: "end of input",
        sent: &[INITIALIZE, SHUTDOWN],
        body: 999,
        floats: Floats::Refused,
        empty_params: false,
    },
    Row {
        name: "limits",
        sent: &[INITIALIZE, HALF, SHUTDOWN, EXIT],
        body: 80,
        floats: Floats::Refused,
        empty_params: false,
    },
    Row {
        name: "floats refused",
        sent: &[INITIALIZE, HALF, SHUTDOWN, EXIT],
        body: 999,
        floats: Floats::Refused,
        empty_params: false,
    },
    Row {
        name: "floats read",
        sent: &[INITIALIZE, HALF, SHUTDOWN, EXIT],
        body: 999,
        floats: Floats::Read,
        empty_params: false,
    },
    Row {
        name: "empty params refused",
        sent: &[INITIALIZE, EMPTY_SHUTDOWN, EXIT],
        body: 999,
        floats: Floats::Refused,
        empty_params: false,
    },
    Row {
        name: "empty params",
        sent: &[INITIALIZE, EMPTY_SHUTDOWN, EXIT],
        body: 999,
        floats: Floats::Refused,
        empty_params: true,
    },
];

// How many bytes a read gives.
const CUTS: &[usize] = &[1, 2, 7, 100, 4096];

fn new_server(socket: ClientSocket<PlainDesk>, row: &Row) -> Server<PlainDesk>
    requires { IsOpening plain_meaning socket.desk }
    ensures { IsOpening plain_meaning (server_desk result) }
{
    let limits = Limits {
        head: 99,
        body: row.body.max(1),
    };
    let server = Server::new(socket).limits(limits).floats(row.floats);
    if row.empty_params {
        server.allow_empty_params()
    } else {
        server
    }
}

// Serves a row, or pumps it where reads give so many bytes, and answers the exit status; the sink has
// the bytes.
fn try_way<R: Threads + Wait>(
    rt: &R,
    alloc: Global,
    row: &Row,
    cut: Option<usize>,
    sink: &mut NeverSink,
) -> Result<u8, NoMemory> {
    let mut source = NeverSource::new(framed(alloc, row.sent)?, cut.unwrap_or(4096).max(1));
    let (service, socket) = new_sample(alloc)?;
    let server = new_server(socket, row);
    match cut {
        Some(_) => Ok(pump(rt, alloc, source, sink, service, server, 8).1),
        None => Ok(serve(alloc, &mut source, sink, service, server, 8)),
    }
}

fn try_row<R: Threads + Wait>(
    rt: &R,
    trial: &mut Trial,
    alloc: Global,
    row: &Row,
) -> Result<(), NoMemory> {
    let mut served = NeverSink::new(alloc);
    let expected = try_way(rt, alloc, row, None, &mut served)?;
    for cut in CUTS {
        let mut pumped = NeverSink::new(alloc);
        let status = try_way(rt, alloc, row, Some(*cut), &mut pumped)?;
        trial.same(row.name, status, expected);
        trial.is_true(row.name, status <= 1);
        trial.is_true(row.name, pumped.bytes() == served.bytes());
    }
    Ok(())
}

#[test]
fn as_serve(rt: HostRuntime) -> Result<(), RowError> {
    let alloc = rt.alloc();
    let mut trial = Trial::new(alloc);
    for row in ROWS {
        try_row(&rt, &mut trial, alloc, row)?;
    }
    trial.end()
}
