// What services write in their sessions: replies, and answers to params that are none of their method's.
use crate::made::make_service;
use crate::served::{framed, frames, new_sample, served};
use lsp_examples::serve_asks;
use lsp_program::Status;
use lsp_rows::{RowError, Trial};
use lsp_server::{NeverSink, NeverSource, Server};
use lsp_service::serve;
use std::alloc::Global;
use std::process::ExitCode;
use std::str;

const INITIALIZE: &str =
    r#"{"jsonrpc":"2.0","method":"initialize","params":{"capabilities":{}},"id":1}"#;

const INITIALIZED: (usize, &str) = (
    53,
    r#"{"jsonrpc":"2.0","result":{"capabilities":{}},"id":1}"#,
);

const INTERNAL_ERROR: (usize, &str) = (
    75,
    r#"{"jsonrpc":"2.0","error":{"code":-32603,"message":"Internal error"},"id":2}"#,
);

// A service of the strange server, of the server that asks its editor, or of the sample.
#[derive(Clone, Copy)]
enum Of {
    Strange,
    Asks,
    Sample,
}

// Whose service it is, what is tried, what is sent, and what is written, with the lengths.
struct Row {
    service: Of,
    name: &'static str,
    sent: &'static [&'static str],
    written: &'static [(usize, &'static str)],
}

const REPLIES: &[Row] = &[
    Row {
        service: Of::Strange,
        name: "the params and the result of initialize",
        sent: &[
            r#"{"jsonrpc":"2.0","method":"initialize","params":{"capabilities":{},"clientInfo":{"name":"vi"}},"id":1}"#,
        ],
        written: &[(
            80,
            r#"{"jsonrpc":"2.0","result":{"capabilities":{},"serverInfo":{"name":"vi"}},"id":1}"#,
        )],
    },
    Row {
        service: Of::Strange,
        name: "the answer of another method",
        sent: &[
            INITIALIZE,
            r#"{"jsonrpc":"2.0","method":"workspace/executeCommand","params":{"command":"x"},"id":2}"#,
        ],
        written: &[INITIALIZED, INTERNAL_ERROR],
    },
    Row {
        service: Of::Strange,
        name: "a request that is noted",
        sent: &[
            INITIALIZE,
            r#"{"jsonrpc":"2.0","method":"workspace/executeCommand","params":{"command":"x","arguments":[1]},"id":2}"#,
        ],
        written: &[INITIALIZED, INTERNAL_ERROR],
    },
    Row {
        service: Of::Strange,
        name: "a float",
        sent: &[
            INITIALIZE,
            r#"{"jsonrpc":"2.0","method":"inlayHint/resolve","params":{"position":{"line":0,"character":0},"label":""},"id":2}"#,
        ],
        written: &[INITIALIZED, INTERNAL_ERROR],
    },
    Row {
        service: Of::Strange,
        name: "a custom request that is noted",
        sent: &[INITIALIZE, r#"{"jsonrpc":"2.0","method":"custom","id":2}"#],
        written: &[INITIALIZED, INTERNAL_ERROR],
    },
    Row {
        service: Of::Strange,
        name: "the params of a custom request",
        sent: &[
            INITIALIZE,
            r#"{"jsonrpc":"2.0","method":"custom","params":123,"id":1}"#,
        ],
        written: &[
            INITIALIZED,
            (37, r#"{"jsonrpc":"2.0","result":123,"id":1}"#),
        ],
    },
    Row {
        service: Of::Strange,
        name: "before initialize",
        sent: &[r#"{"jsonrpc":"2.0","method":"codeAction/resolve","params":{"title":""},"id":1}"#],
        written: &[(
            83,
            r#"{"jsonrpc":"2.0","error":{"code":-32002,"message":"Server not initialized"},"id":1}"#,
        )],
    },
    Row {
        service: Of::Strange,
        name: "a method that the server doesn't have",
        sent: &[
            INITIALIZE,
            r#"{"jsonrpc":"2.0","method":"textDocument/hover","params":{"textDocument":{"uri":"file:///a"},"position":{"line":0,"character":0}},"id":2}"#,
        ],
        written: &[
            INITIALIZED,
            (
                77,
                r#"{"jsonrpc":"2.0","error":{"code":-32601,"message":"Method not found"},"id":2}"#,
            ),
        ],
    },
    Row {
        service: Of::Strange,
        name: "params that don't fit",
        sent: &[
            INITIALIZE,
            r#"{"jsonrpc":"2.0","method":"textDocument/hover","params":{"textDocument":{"uri":"file:///a"}},"id":2}"#,
        ],
        written: &[
            INITIALIZED,
            (
                75,
                r#"{"jsonrpc":"2.0","error":{"code":-32602,"message":"Invalid params"},"id":2}"#,
            ),
        ],
    },
    Row {
        service: Of::Strange,
        name: "params of initialize that don't fit",
        sent: &[r#"{"jsonrpc":"2.0","method":"initialize","params":{"capabilities":1},"id":1}"#],
        written: &[(
            75,
            r#"{"jsonrpc":"2.0","error":{"code":-32602,"message":"Invalid params"},"id":1}"#,
        )],
    },
    Row {
        service: Of::Strange,
        name: "params that are missing",
        sent: &[
            INITIALIZE,
            r#"{"jsonrpc":"2.0","method":"textDocument/hover","id":2}"#,
        ],
        written: &[
            INITIALIZED,
            (
                81,
                r#"{"jsonrpc":"2.0","error":{"code":-32602,"message":"Missing params field"},"id":2}"#,
            ),
        ],
    },
    Row {
        service: Of::Strange,
        name: "params that aren't wanted",
        sent: &[
            INITIALIZE,
            r#"{"jsonrpc":"2.0","method":"shutdown","params":null,"id":2}"#,
        ],
        written: &[
            INITIALIZED,
            (
                84,
                r#"{"jsonrpc":"2.0","error":{"code":-32602,"message":"Unexpected params: null"},"id":2}"#,
            ),
        ],
    },
];

// A server that asks its editor, from the editor's side.
const ASKS: &[Row] = &[Row {
    service: Of::Asks,
    name: "each of its calls",
    sent: &[
        r#"{"jsonrpc":"2.0","method":"initialize","params":{"capabilities":{}},"id":1}"#,
        r#"{"jsonrpc":"2.0","method":"initialized","params":{}}"#,
        r#"{"jsonrpc":"2.0","result":[{"name":"a","uri":"file:///a"}],"id":0}"#,
        r#"{"jsonrpc":"2.0","method":"textDocument/didOpen","params":{"textDocument":{"uri":"file:///a/b.rs","languageId":"rust","version":1,"text":"fn main() {}"}}}"#,
        r#"{"jsonrpc":"2.0","method":"workspace/executeCommand","params":{"command":"build","workDoneToken":"t"},"id":2}"#,
        r#"{"jsonrpc":"2.0","method":"asks/echo","params":[1,"a"],"id":3}"#,
        r#"{"jsonrpc":"2.0","method":"shutdown","id":4}"#,
        r#"{"jsonrpc":"2.0","method":"exit"}"#,
    ],
    written: &[
        (
            73,
            r#"{"jsonrpc":"2.0","result":{"capabilities":{"textDocumentSync":1}},"id":1}"#,
        ),
        (
            102,
            r#"{"jsonrpc":"2.0","method":"window/logMessage","params":{"message":"Which folders are open?","type":3}}"#,
        ),
        (
            76,
            r#"{"jsonrpc":"2.0","method":"workspace/workspaceFolders","params":null,"id":0}"#,
        ),
        (
            89,
            r#"{"jsonrpc":"2.0","method":"window/logMessage","params":{"message":"folders: 1","type":3}}"#,
        ),
        (
            222,
            r#"{"jsonrpc":"2.0","method":"textDocument/publishDiagnostics","params":{"diagnostics":[{"message":"Hello, rust","range":{"end":{"character":0,"line":0},"start":{"character":0,"line":0}}}],"uri":"file:///a/b.rs","version":1}}"#,
        ),
        (
            103,
            r#"{"jsonrpc":"2.0","method":"$/progress","params":{"token":"t","value":{"kind":"begin","title":"build"}}}"#,
        ),
        (
            85,
            r#"{"jsonrpc":"2.0","method":"$/progress","params":{"token":"t","value":{"kind":"end"}}}"#,
        ),
        (38, r#"{"jsonrpc":"2.0","result":null,"id":2}"#),
        (41, r#"{"jsonrpc":"2.0","result":[1,"a"],"id":3}"#),
        (38, r#"{"jsonrpc":"2.0","result":null,"id":4}"#),
    ],
}];

const ASK: &str =
    "{\"jsonrpc\":\"2.0\",\"method\":\"workspace/executeCommand\",\"params\":{\"command\":\"ask\",\"arguments\":[]},\"id\":2}";

const ASKED: (usize, &str) = (
    76,
    "{\"jsonrpc\":\"2.0\",\"method\":\"workspace/workspaceFolders\",\"params\":null,\"id\":0}",
);

// The sample asks its client for the folders of the workspace.
const FOLDERS: &[Row] = &[
    Row {
        service: Of::Sample,
        name: "the editor's folders",
        sent: &[
            INITIALIZE,
            ASK,
            "{\"jsonrpc\":\"2.0\",\"id\":0,\"result\":[{\"uri\":\"file:///w\",\"name\":\"w\"}]}",
        ],
        written: &[
            INITIALIZED,
            ASKED,
            (
                66,
                "{\"jsonrpc\":\"2.0\",\"result\":[{\"name\":\"w\",\"uri\":\"file:///w\"}],\"id\":2}",
            ),
        ],
    },
    Row {
        service: Of::Sample,
        name: "no folders",
        sent: &[
            INITIALIZE,
            ASK,
            "{\"jsonrpc\":\"2.0\",\"id\":0,\"result\":null}",
        ],
        written: &[
            INITIALIZED,
            ASKED,
            (38, "{\"jsonrpc\":\"2.0\",\"result\":null,\"id\":2}"),
        ],
    },
    Row {
        service: Of::Sample,
        name: "an answer that doesn't fit",
        sent: &[
            INITIALIZE,
            ASK,
            "{\"jsonrpc\":\"2.0\",\"id\":0,\"result\":5}",
        ],
        written: &[
            INITIALIZED,
            ASKED,
            (
                72,
                "{\"jsonrpc\":\"2.0\",\"error\":{\"code\":-32700,\"message\":\"Parse error\"},\"id\":2}",
            ),
        ],
    },
    Row {
        service: Of::Sample,
        name: "an error",
        sent: &[
            INITIALIZE,
            ASK,
            "{\"jsonrpc\":\"2.0\",\"id\":0,\"error\":{\"code\":7,\"message\":\"none\"}}",
        ],
        written: &[
            INITIALIZED,
            ASKED,
            (
                60,
                "{\"jsonrpc\":\"2.0\",\"error\":{\"code\":7,\"message\":\"none\"},\"id\":2}",
            ),
        ],
    },
];

fn of_strange(alloc: Global, sent: &[&str]) -> Result<String, RowError> {
    let made = make_service(alloc)?;
    served(alloc, made.service, made.socket, sent)
}

// Its exit comes after `shutdown`.
fn of_asks(alloc: Global, sent: &[&str]) -> Result<String, RowError> {
    let bytes = framed(alloc, sent)?;
    let mut written = Vec::new(alloc);
    let status = serve_asks(alloc, bytes.as_slice(), &mut written);
    match String::from_utf8(written) {
        Ok(text) if status == ExitCode::SUCCESS => Ok(text),
        _ => Err(RowError::NoMemory),
    }
}

// The input ends before an exit.
fn of_sample(alloc: Global, sent: &[&str]) -> Result<String, RowError> {
    let mut source = NeverSource::new(framed(alloc, sent)?, 4096);
    let (service, socket) = new_sample(alloc)?;
    let mut sink = NeverSink::new(alloc);
    let server = Server::new(socket);
    let status = serve(alloc, &mut source, &mut sink, service, server, 8);
    match str::from_utf8(sink.bytes()) {
        Ok(text) if status == Status::Unfinished as u8 => Ok(String::from_str(alloc, text)?),
        _ => Err(RowError::NoMemory),
    }
}

// What a session of that service writes.
fn written(alloc: Global, service: Of, sent: &[&str]) -> Result<String, RowError> {
    match service {
        Of::Strange => of_strange(alloc, sent),
        Of::Asks => of_asks(alloc, sent),
        Of::Sample => of_sample(alloc, sent),
    }
}

fn try_rows(alloc: Global, rows: &[Row]) -> Result<(), RowError> {
    let mut trial = Trial::new(alloc);
    for row in rows {
        let expected = frames(alloc, row.written)?;
        trial.text(row.name, written(alloc, row.service, row.sent), &expected);
    }
    trial.end()
}

#[test]
fn replies(rt: HostRuntime) -> Result<(), RowError> {
    try_rows(rt.alloc(), REPLIES)
}

#[test]
fn asks(rt: HostRuntime) -> Result<(), RowError> {
    try_rows(rt.alloc(), ASKS)
}

#[test]
fn asks_for_the_folders(rt: HostRuntime) -> Result<(), RowError> {
    try_rows(rt.alloc(), FOLDERS)
}
