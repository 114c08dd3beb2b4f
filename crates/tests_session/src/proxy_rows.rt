//! Runs of the proxy's program: one in which each row of its table comes up, and other arguments.
use crate::frames::{Part, bytes_of, push_frame};
use crate::relay::{ASKED, SENT};
use crate::table::{TableRow, try_table};
use lsp_relay::{Status, run_proxy};
use lsp_rows::{RowError, Trial};
use lsp_rpc::NoMemory;
use lsp_server::{NeverSink, NeverSource};
use std::alloc::{AllocError, Global};

// What a row says, the message that comes, and the messages that are sent for it.
const ROWS: &[&[&str]] = &[
    &[
        "the first `initialize` is passed on",
        r#"{"message":{"id":1,"jsonrpc":"2.0","method":"initialize"},"side":1}"#,
        r#"{"message":{"id":0,"jsonrpc":"2.0","method":"initialize"},"side":0}"#,
    ],
    &[
        "while its response is awaited, others wait too",
        r#"{"message":{"id":1,"jsonrpc":"2.0","method":"initialize"},"side":2}"#,
    ],
    &[
        "an error goes to all that wait",
        r#"{"message":{"error":{"code":1,"message":"no"},"id":0,"jsonrpc":"2.0"},"side":0}"#,
        r#"{"message":{"error":{"code":1,"message":"no"},"id":1,"jsonrpc":"2.0"},"side":1}"#,
        r#"{"message":{"error":{"code":1,"message":"no"},"id":1,"jsonrpc":"2.0"},"side":2}"#,
    ],
    &[
        "after an error the next is passed on again",
        r#"{"message":{"id":2,"jsonrpc":"2.0","method":"initialize"},"side":2}"#,
        r#"{"message":{"id":1,"jsonrpc":"2.0","method":"initialize"},"side":0}"#,
    ],
    &[
        "another waits",
        r#"{"message":{"id":3,"jsonrpc":"2.0","method":"initialize"},"side":1}"#,
    ],
    &[
        "a result goes to all that wait, in order",
        r#"{"message":{"id":1,"jsonrpc":"2.0","result":"r"},"side":0}"#,
        r#"{"message":{"id":2,"jsonrpc":"2.0","result":"r"},"side":2}"#,
        r#"{"message":{"id":3,"jsonrpc":"2.0","result":"r"},"side":1}"#,
    ],
    &[
        "a later `initialize` is answered with it",
        r#"{"message":{"id":4,"jsonrpc":"2.0","method":"initialize"},"side":1}"#,
        r#"{"message":{"id":4,"jsonrpc":"2.0","result":"r"},"side":1}"#,
    ],
    &[
        "one without an id is dropped",
        r#"{"message":{"jsonrpc":"2.0","method":"initialize"},"side":1}"#,
    ],
    &[
        "the first `initialized` is passed on",
        r#"{"message":{"jsonrpc":"2.0","method":"initialized"},"side":2}"#,
        r#"{"message":{"jsonrpc":"2.0","method":"initialized"},"side":0}"#,
    ],
    &[
        "and no other",
        r#"{"message":{"jsonrpc":"2.0","method":"initialized"},"side":1}"#,
    ],
    &[
        "another request is passed on under a drawn id",
        r#"{"message":{"id":7,"jsonrpc":"2.0","method":"x"},"side":1}"#,
        r#"{"message":{"id":2,"jsonrpc":"2.0","method":"x"},"side":0}"#,
    ],
    &[
        "one under an id that is open is refused",
        r#"{"message":{"id":7,"jsonrpc":"2.0","method":"y"},"side":1}"#,
        r#"{"message":{"error":{"code":-32600,"message":"Invalid request"},"id":7,"jsonrpc":"2.0"},"side":1}"#,
    ],
    &[
        "under the same id of another editor it is passed on",
        r#"{"message":{"id":7,"jsonrpc":"2.0","method":"y"},"side":2}"#,
        r#"{"message":{"id":3,"jsonrpc":"2.0","method":"y"},"side":0}"#,
    ],
    &[
        "a cancel names an open request of its editor's",
        r#"{"message":{"jsonrpc":"2.0","method":"$/cancelRequest","params":{"id":7}},"side":2}"#,
        r#"{"message":{"jsonrpc":"2.0","method":"$/cancelRequest","params":{"id":3}},"side":0}"#,
    ],
    &[
        "any other is dropped",
        r#"{"message":{"jsonrpc":"2.0","method":"$/cancelRequest","params":{"id":8}},"side":2}"#,
    ],
    &[
        "with an id it is a request like others",
        r#"{"message":{"id":8,"jsonrpc":"2.0","method":"$/cancelRequest","params":{"id":7}},"side":2}"#,
        r#"{"message":{"id":4,"jsonrpc":"2.0","method":"$/cancelRequest","params":{"id":7}},"side":0}"#,
    ],
    &[
        "another notification is passed on",
        r#"{"message":{"jsonrpc":"2.0","method":"n"},"side":1}"#,
        r#"{"message":{"jsonrpc":"2.0","method":"n"},"side":0}"#,
    ],
    &[
        "a response goes to the editor that asked, under its own id",
        r#"{"message":{"id":2,"jsonrpc":"2.0","result":"a"},"side":0}"#,
        r#"{"message":{"id":7,"jsonrpc":"2.0","result":"a"},"side":1}"#,
    ],
    &[
        "a second one is dropped",
        r#"{"message":{"id":2,"jsonrpc":"2.0","result":"a"},"side":0}"#,
    ],
    &[
        "the server's request goes to the lowest editor",
        r#"{"message":{"id":"s","jsonrpc":"2.0","method":"r"},"side":0}"#,
        r#"{"message":{"id":5,"jsonrpc":"2.0","method":"r"},"side":1}"#,
    ],
    &[
        "its cancel goes after it",
        r#"{"message":{"jsonrpc":"2.0","method":"$/cancelRequest","params":{"id":"s"}},"side":0}"#,
        r#"{"message":{"jsonrpc":"2.0","method":"$/cancelRequest","params":{"id":5}},"side":1}"#,
    ],
    &[
        "any other is dropped",
        r#"{"message":{"jsonrpc":"2.0","method":"$/cancelRequest","params":{"id":"t"}},"side":0}"#,
    ],
    &[
        "another editor's response is dropped",
        r#"{"message":{"id":5,"jsonrpc":"2.0","result":"b"},"side":2}"#,
    ],
    &[
        "that editor's goes to the server, under its own id",
        r#"{"message":{"id":5,"jsonrpc":"2.0","result":"b"},"side":1}"#,
        r#"{"message":{"id":"s","jsonrpc":"2.0","result":"b"},"side":0}"#,
    ],
    &[
        "its second one is dropped",
        r#"{"message":{"id":5,"jsonrpc":"2.0","result":"b"},"side":1}"#,
    ],
    &[
        "two requests of the server under one id",
        r#"{"message":{"id":9,"jsonrpc":"2.0","method":"r"},"side":0}"#,
        r#"{"message":{"id":6,"jsonrpc":"2.0","method":"r"},"side":1}"#,
    ],
    &[
        "are told apart by their drawn ids",
        r#"{"message":{"id":9,"jsonrpc":"2.0","method":"q"},"side":0}"#,
        r#"{"message":{"id":7,"jsonrpc":"2.0","method":"q"},"side":1}"#,
    ],
    &[
        "a cancel is of the older",
        r#"{"message":{"jsonrpc":"2.0","method":"$/cancelRequest","params":{"id":9}},"side":0}"#,
        r#"{"message":{"jsonrpc":"2.0","method":"$/cancelRequest","params":{"id":6}},"side":1}"#,
    ],
    &[
        "the later one may be answered first",
        r#"{"message":{"id":7,"jsonrpc":"2.0","result":"q"},"side":1}"#,
        r#"{"message":{"id":9,"jsonrpc":"2.0","result":"q"},"side":0}"#,
    ],
    &[
        "the server's notification goes to each editor",
        r#"{"message":{"jsonrpc":"2.0","method":"n"},"side":0}"#,
        r#"{"message":{"jsonrpc":"2.0","method":"n"},"side":1}"#,
        r#"{"message":{"jsonrpc":"2.0","method":"n"},"side":2}"#,
    ],
    &[
        "`shutdown` is answered with null",
        r#"{"message":{"id":10,"jsonrpc":"2.0","method":"shutdown"},"side":1}"#,
        r#"{"message":{"id":10,"jsonrpc":"2.0","result":null},"side":1}"#,
    ],
    &[
        "without an id it is dropped",
        r#"{"message":{"jsonrpc":"2.0","method":"shutdown"},"side":1}"#,
    ],
    &[
        "a request of an editor that is down is refused",
        r#"{"message":{"id":11,"jsonrpc":"2.0","method":"x"},"side":1}"#,
        r#"{"message":{"error":{"code":-32600,"message":"Invalid request"},"id":11,"jsonrpc":"2.0"},"side":1}"#,
    ],
    &[
        "its notification is dropped",
        r#"{"message":{"jsonrpc":"2.0","method":"n"},"side":1}"#,
    ],
    &[
        "at `exit` what the server asked of it is refused",
        r#"{"message":{"jsonrpc":"2.0","method":"exit"},"side":1}"#,
        r#"{"message":{"error":{"code":-32603,"message":"Internal error"},"id":9,"jsonrpc":"2.0"},"side":0}"#,
    ],
    &[
        "anything of an editor that is gone is dropped",
        r#"{"message":{"id":12,"jsonrpc":"2.0","method":"x"},"side":1}"#,
    ],
    &[
        "the server's request goes to the lowest that is left",
        r#"{"message":{"id":"u","jsonrpc":"2.0","method":"r"},"side":0}"#,
        r#"{"message":{"id":8,"jsonrpc":"2.0","method":"r"},"side":2}"#,
    ],
    &[
        "its notification to each that is left",
        r#"{"message":{"jsonrpc":"2.0","method":"n"},"side":0}"#,
        r#"{"message":{"jsonrpc":"2.0","method":"n"},"side":2}"#,
    ],
    &[
        "at the last `exit` the server is shut down",
        r#"{"message":{"jsonrpc":"2.0","method":"exit"},"side":2}"#,
        r#"{"message":{"error":{"code":-32603,"message":"Internal error"},"id":"u","jsonrpc":"2.0"},"side":0}"#,
        r#"{"message":{"id":9,"jsonrpc":"2.0","method":"shutdown"},"side":0}"#,
    ],
    &[
        "a response to an editor that is gone is dropped",
        r#"{"message":{"id":3,"jsonrpc":"2.0","result":"a"},"side":0}"#,
    ],
    &[
        "the server's request is refused where none is left",
        r#"{"message":{"id":"v","jsonrpc":"2.0","method":"r"},"side":0}"#,
        r#"{"message":{"error":{"code":-32603,"message":"Internal error"},"id":"v","jsonrpc":"2.0"},"side":0}"#,
    ],
    &[
        "its notification goes to none",
        r#"{"message":{"jsonrpc":"2.0","method":"n"},"side":0}"#,
    ],
    &[
        "once `shutdown` is answered, the server exits",
        r#"{"message":{"id":9,"jsonrpc":"2.0","result":null},"side":0}"#,
        r#"{"message":{"jsonrpc":"2.0","method":"exit"},"side":0}"#,
    ],
];

// Appends the frame of a message from a side, or to one.
fn push_message(
    alloc: Global,
    bytes: &mut Vec<u8>,
    method: &str,
    params: &str,
) -> Result<(), AllocError> {
    let head = "{\"jsonrpc\":\"2.0\",\"method\":\"proxy/";
    let body = format!(in alloc; "{head}{method}\",\"params\":{params}}}")?;
    push_frame(alloc, bytes, body.as_str())
}

fn arguments_of(alloc: Global, texts: &[&str]) -> Result<Vec<String>, AllocError> {
    let mut arguments = Vec::new(alloc);
    for text in texts {
        arguments.push(String::from_str(alloc, text)?)?;
    }
    Ok(arguments)
}

// The program's status, and what it writes, with these arguments, by so many bytes a read.
fn try_run(
    trial: &mut Trial,
    alloc: Global,
    name: &str,
    arguments: &[&str],
    told: Vec<u8>,
    piece: usize,
    status: Status,
    wanted: &[u8],
) -> Result<(), AllocError> {
    let arguments = arguments_of(alloc, arguments)?;
    let mut source = NeverSource::new(told, piece.max(1));
    let mut sink = NeverSink::new(alloc);
    let found = run_proxy(alloc, &arguments, &mut source, &mut sink);
    let what = format_args!("{name}: {arguments:?}, by {piece}");
    trial.same(what, found, status as u8);
    trial.same(name, sink.bytes(), wanted);
    Ok(())
}

// The row, of which `told` and `wanted` have what comes before it.
fn try_row(
    trial: &mut Trial,
    alloc: Global,
    row: &[&str],
    told: &mut Vec<u8>,
    wanted: &mut Vec<u8>,
) -> Result<(), AllocError> {
    let [what, message, sent @ ..] = row else {
        return Ok(());
    };
    push_message(alloc, told, "in", message)?;
    for each in sent {
        push_message(alloc, wanted, "out", each)?;
    }
    let told = told.clone()?;
    try_run(
        trial,
        alloc,
        what,
        &["2"],
        told,
        4096,
        Status::Done,
        wanted.as_slice(),
    )
}

#[test]
fn each_row_of_the_table(rt: HostRuntime) -> Result<(), RowError> {
    let alloc = rt.alloc();
    let mut trial = Trial::new(alloc);
    let mut told = Vec::new(alloc);
    let mut wanted = Vec::new(alloc);
    for row in ROWS {
        try_row(&mut trial, alloc, row, &mut told, &mut wanted)?;
    }
    trial.end()
}

// Arguments, what is told then, by pieces of these sizes, the status, and what is written.
struct Run {
    name: &'static str,
    arguments: &'static [&'static [&'static str]],
    told: &'static [Part],
    pieces: &'static [usize],
    status: Status,
    written: &'static [Part],
}

const RUNS: &[Run] = &[
    Run {
        name: "two editors with one id",
        arguments: &[&["2"]],
        told: ASKED,
        pieces: &[1, 50, 4096],
        status: Status::Done,
        written: SENT,
    },
    Run {
        name: "what isn't one number from 1 to 64",
        arguments: &[
            &[],
            &["0"],
            &["65"],
            &["+2"],
            &["2 "],
            &[""],
            &["-1"],
            &["18446744073709551618"],
            &["2", "2"],
        ],
        told: ASKED,
        pieces: &[4096],
        status: Status::Usage,
        written: &[],
    },
    Run {
        name: "the least number, and the greatest",
        arguments: &[&["1"], &["64"], &["064"]],
        told: &[],
        pieces: &[4096],
        status: Status::Done,
        written: &[],
    },
];

impl TableRow for Run {
    fn try_row(&self, trial: &mut Trial, alloc: Global) -> Result<(), NoMemory> {
        let wanted = bytes_of(alloc, self.written)?;
        for arguments in self.arguments {
            for piece in self.pieces {
                let told = bytes_of(alloc, self.told)?;
                try_run(
                    trial,
                    alloc,
                    self.name,
                    arguments,
                    told,
                    *piece,
                    self.status,
                    wanted.as_slice(),
                )?;
            }
        }
        Ok(())
    }
}

#[test]
fn arguments(rt: HostRuntime) -> Result<(), RowError> {
    try_table(rt.alloc(), RUNS)
}
