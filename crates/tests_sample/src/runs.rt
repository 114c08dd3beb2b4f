// Whole runs: the bytes and the exit status that answer what an editor sends.
use crate::documents::DOCUMENTS;
use crate::frames::{Part, bytes_of, sink_of, source_of};
use crate::sessions::{
    ASKS, CALLS, EXIT, INITIALIZE, INITIALIZED, Row, SESSIONS, SHUT_DOWN, SHUTDOWN,
};
use lsp_rows::{RowError, Trial};
use lsp_rpc::NoMemory;
use lsp_sample_run::run;
use lsp_server::{MemorySink, MemorySource};
use lsp_shared::SharedDesk;
use std::alloc::{AllocError, Global};
use std::sync::Wait;
use std::thread::Threads;

fn arguments_of(alloc: Global, texts: &[&str]) -> Result<Vec<String>, AllocError> {
    let mut arguments = Vec::new(alloc);
    for text in texts {
        arguments.push(String::from_str(alloc, text)?)?;
    }
    Ok(arguments)
}

// The exit status of the program over a new desk.
fn run_over<R: Threads + Wait + Sync>(
    rt: &R,
    alloc: Global,
    arguments: &Vec<String>,
    source: MemorySource,
    sink: &mut MemorySink,
) -> Result<u8, NoMemory> {
    let (desk, seat) = SharedDesk::new(alloc)?;
    let (source, status, _) = run(rt, alloc, arguments, desk.owner(rt, seat), source, sink);
    drop(source);
    Ok(status)
}

// What a run of the program comes to, with these arguments: its exit status, and what is written. The
// write or flush of this number fails.
fn try_run<R: Threads + Wait + Sync>(
    rt: &R,
    trial: &mut Trial,
    alloc: Global,
    name: &str,
    arguments: &[&str],
    source: MemorySource,
    call: u64,
    status: u8,
    wanted: &[u8],
) -> Result<(), NoMemory> {
    let arguments = arguments_of(alloc, arguments)?;
    let mut sink = sink_of(alloc, call)?;
    let found = run_over(rt, alloc, &arguments, source, &mut sink)?;
    trial.same(format_args!("{name}: {arguments:?}"), found, status);
    trial.same(name, sink.bytes(), wanted);
    Ok(())
}

// The sizes of the pieces, of which the last holds most sessions.
const PIECES: &[usize] = &[1, 2, 3, 7, 13, 4096];

fn try_session<R: Threads + Wait + Sync>(
    rt: &R,
    trial: &mut Trial,
    alloc: Global,
    row: &Row,
) -> Result<(), NoMemory> {
    let wanted = bytes_of(alloc, &[Part::Sized(row.answers)])?;
    for piece in PIECES {
        let source = source_of(alloc, &[Part::Frames(row.sent)], *piece, 0)?;
        let wanted = wanted.as_slice();
        try_run(
            rt,
            trial,
            alloc,
            row.name,
            row.arguments,
            source,
            0,
            row.status,
            wanted,
        )?;
    }
    Ok(())
}

fn try_sessions<R: Threads + Wait + Sync>(
    rt: &R,
    alloc: Global,
    rows: &[Row],
) -> Result<(), RowError> {
    let mut trial = Trial::new(alloc);
    for row in rows {
        try_session(rt, &mut trial, alloc, row)?;
    }
    trial.end()
}

#[test]
fn sessions(rt: HostRuntime) -> Result<(), RowError> {
    try_sessions(&rt, rt.alloc(), SESSIONS)
}

#[test]
fn calls(rt: HostRuntime) -> Result<(), RowError> {
    try_sessions(&rt, rt.alloc(), CALLS)
}

#[test]
fn asks(rt: HostRuntime) -> Result<(), RowError> {
    try_sessions(&rt, rt.alloc(), ASKS)
}

#[test]
fn sessions_of_documents(rt: HostRuntime) -> Result<(), RowError> {
    try_sessions(&rt, rt.alloc(), DOCUMENTS)
}

// What is sent with each of these lists of arguments, by pieces of these sizes, and what comes of it:
// the exit status, and what is written. Reads, and writes with flushes, are numbered from 1; of each
// pair that read and that write or flush fail.
struct Run {
    name: &'static str,
    arguments: &'static [&'static [&'static str]],
    sent: &'static [Part],
    pieces: &'static [usize],
    failing: &'static [(u64, u64)],
    status: u8,
    written: &'static [Part],
}

// Nothing fails.
const NONE: &[(u64, u64)] = &[(0, 0)];

fn try_arguments<R: Threads + Wait + Sync>(
    rt: &R,
    trial: &mut Trial,
    alloc: Global,
    row: &Run,
    arguments: &[&str],
) -> Result<(), NoMemory> {
    let wanted = bytes_of(alloc, row.written)?;
    for piece in row.pieces {
        for (read, call) in row.failing {
            let source = source_of(alloc, row.sent, *piece, *read)?;
            let wanted = wanted.as_slice();
            try_run(
                rt, trial, alloc, row.name, arguments, source, *call, row.status, wanted,
            )?;
        }
    }
    Ok(())
}

fn try_rows<R: Threads + Wait + Sync>(rt: &R, alloc: Global, rows: &[Run]) -> Result<(), RowError> {
    let mut trial = Trial::new(alloc);
    for row in rows {
        for arguments in row.arguments {
            try_arguments(rt, &mut trial, alloc, row, arguments)?;
        }
    }
    trial.end()
}

// Bytes that are not all frames.
const STRETCHES: &[Run] = &[
    Run {
        name: "a head that is cut",
        arguments: &[&["serve"]],
        sent: &[Part::Bytes(b"Content-Length: 33\r\n\r\n{\"jsonrp")],
        pieces: &[1, 7, 4096],
        failing: NONE,
        status: 1,
        written: &[Part::Bytes(
            b"Content-Length: 75\r\n\r\n{\"jsonrpc\":\"2.0\",\"error\":{\"code\":-32700,\"message\":\"Parse error\"},\"id\":null}",
        )],
    },
    Run {
        name: "a name of a header in small letters",
        arguments: &[&["serve"]],
        sent: &[Part::Bytes(b"Content-length: 2\r\n\r\n{}")],
        pieces: &[1, 7, 4096],
        failing: NONE,
        status: 1,
        written: &[Part::Bytes(
            b"Content-Length: 75\r\n\r\n{\"jsonrpc\":\"2.0\",\"error\":{\"code\":-32700,\"message\":\"Parse error\"},\"id\":null}",
        )],
    },
    Run {
        name: "a stretch after initialize",
        arguments: &[&["serve"]],
        sent: &[Part::Bytes(
            b"Content-Length: 75\r\n\r\n{\"jsonrpc\":\"2.0\",\"method\":\"initialize\",\"params\":{\"capabilities\":{}},\"id\":1}foo",
        )],
        pieces: &[1, 7, 4096],
        failing: NONE,
        status: 1,
        written: &[Part::Bytes(
            b"Content-Length: 53\r\n\r\n{\"jsonrpc\":\"2.0\",\"result\":{\"capabilities\":{}},\"id\":1}Content-Length: 75\r\n\r\n{\"jsonrpc\":\"2.0\",\"error\":{\"code\":-32700,\"message\":\"Parse error\"},\"id\":null}",
        )],
    },
];

#[test]
fn stretches(rt: HostRuntime) -> Result<(), RowError> {
    try_rows(&rt, rt.alloc(), STRETCHES)
}

const OTHER_ARGUMENTS: &[Run] = &[Run {
    name: "arguments that are none of the program's forms",
    arguments: &[
        &["serve", "0", "8"],
        &["serve", "4", "0"],
        &["serve", "4"],
        &["serve", "+4", "8"],
        &["serve", "4", "8x"],
        &["serve", "", "8"],
        &["serve", "4", "18446744073709551616"],
        &["serve", "4", "8", "1"],
        &["docs", "4", "8"],
        &["pump"],
        &["pump", "4"],
        &["pump", "0", "8"],
        &["pump", "4", "0"],
        &["pump", "4", "8", "1"],
        &["docs", "docs"],
        &["Docs"],
        &["bulk", "1", "0"],
        &["talk", "0", "1"],
        &["talk", "5", "1"],
        &["talk", "1", "1001"],
        &["talk", "2"],
        &["help"],
        &["--help"],
        &[""],
    ],
    sent: &[Part::Frames(&[INITIALIZE])],
    pieces: &[4096],
    failing: NONE,
    status: 2,
    written: &[],
}];

#[test]
fn other_arguments(rt: HostRuntime) -> Result<(), RowError> {
    try_rows(&rt, rt.alloc(), OTHER_ARGUMENTS)
}

const WHOLE: &[Part] = &[Part::Frames(&[INITIALIZE, SHUTDOWN, EXIT])];

const FAILURES: &[Run] = &[
    Run {
        name: "the second read, after the whole frame",
        arguments: &[&[]],
        sent: &[Part::Frames(&[INITIALIZE])],
        pieces: &[97],
        failing: &[(2, 0)],
        status: 3,
        written: &[Part::Frames(&[INITIALIZED])],
    },
    Run {
        name: "the first write",
        arguments: &[&[]],
        sent: &[Part::Frames(&[INITIALIZE])],
        pieces: &[97],
        failing: &[(0, 1)],
        status: 4,
        written: &[],
    },
    Run {
        name: "the first flush, after the first write",
        arguments: &[&[]],
        sent: &[Part::Frames(&[INITIALIZE])],
        pieces: &[97],
        failing: &[(0, 2)],
        status: 4,
        written: &[Part::Frames(&[INITIALIZED])],
    },
    Run {
        name: "the second read, of a thread",
        arguments: &[&["pump", "4", "8"]],
        sent: &[Part::Frames(&[INITIALIZE])],
        pieces: &[97],
        failing: &[(2, 0)],
        status: 3,
        written: &[Part::Frames(&[INITIALIZED])],
    },
    Run {
        name: "the first write, while a thread reads",
        arguments: &[&["pump", "4", "8"]],
        sent: &[Part::Frames(&[INITIALIZE])],
        pieces: &[97],
        failing: &[(0, 1)],
        status: 4,
        written: &[],
    },
    // The whole session comes in pieces of 10 bytes, of which there are 22.
    Run {
        name: "a read before the first answer",
        arguments: &[&[]],
        sent: WHOLE,
        pieces: &[10],
        failing: &[
            (1, 0),
            (2, 0),
            (3, 0),
            (4, 0),
            (5, 0),
            (6, 0),
            (7, 0),
            (8, 0),
            (9, 0),
            (10, 0),
        ],
        status: 3,
        written: &[],
    },
    Run {
        name: "a read before the second answer",
        arguments: &[&[]],
        sent: WHOLE,
        pieces: &[10],
        failing: &[
            (11, 0),
            (12, 0),
            (13, 0),
            (14, 0),
            (15, 0),
            (16, 0),
            (17, 0),
        ],
        status: 3,
        written: &[Part::Frames(&[INITIALIZED])],
    },
    Run {
        name: "a read after both answers",
        arguments: &[&[]],
        sent: WHOLE,
        pieces: &[10],
        failing: &[(18, 0), (19, 0), (20, 0), (21, 0), (22, 0)],
        status: 3,
        written: &[Part::Frames(&[INITIALIZED, SHUT_DOWN])],
    },
    Run {
        name: "no read is left to fail",
        arguments: &[&[]],
        sent: WHOLE,
        pieces: &[10],
        failing: &[(23, 0)],
        status: 0,
        written: &[Part::Frames(&[INITIALIZED, SHUT_DOWN])],
    },
    // Each read is followed by a flush, and the tenth and the seventeenth by a write before it.
    Run {
        name: "a flush or a write before the first answer",
        arguments: &[&[]],
        sent: WHOLE,
        pieces: &[10],
        failing: &[
            (0, 1),
            (0, 2),
            (0, 3),
            (0, 4),
            (0, 5),
            (0, 6),
            (0, 7),
            (0, 8),
            (0, 9),
            (0, 10),
        ],
        status: 4,
        written: &[],
    },
    Run {
        name: "a flush or a write before the second answer",
        arguments: &[&[]],
        sent: WHOLE,
        pieces: &[10],
        failing: &[
            (0, 11),
            (0, 12),
            (0, 13),
            (0, 14),
            (0, 15),
            (0, 16),
            (0, 17),
            (0, 18),
        ],
        status: 4,
        written: &[Part::Frames(&[INITIALIZED])],
    },
    Run {
        name: "a flush after both answers",
        arguments: &[&[]],
        sent: WHOLE,
        pieces: &[10],
        failing: &[(0, 19), (0, 20), (0, 21), (0, 22), (0, 23), (0, 24)],
        status: 4,
        written: &[Part::Frames(&[INITIALIZED, SHUT_DOWN])],
    },
    Run {
        name: "no write or flush is left to fail",
        arguments: &[&[]],
        sent: WHOLE,
        pieces: &[10],
        failing: &[(0, 25)],
        status: 0,
        written: &[Part::Frames(&[INITIALIZED, SHUT_DOWN])],
    },
];

#[test]
fn failing_reads_and_writes(rt: HostRuntime) -> Result<(), RowError> {
    try_rows(&rt, rt.alloc(), FAILURES)
}

const FLOODS: &[Run] = &[
    Run {
        name: "cancels of what isn't asked",
        arguments: &[&["serve", "4", "1"]],
        sent: &[
            Part::Frames(&[INITIALIZE]),
            Part::Numbered(
                501,
                "{\"jsonrpc\":\"2.0\",\"method\":\"$/cancelRequest\",\"params\":{\"id\":",
                "}}",
            ),
        ],
        pieces: &[4096],
        failing: NONE,
        status: 1,
        written: &[Part::Frames(&[INITIALIZED])],
    },
    Run {
        name: "answers that nobody asked for",
        arguments: &[&["serve", "4", "1"]],
        sent: &[
            Part::Frames(&[INITIALIZE]),
            Part::Numbered(500, "{\"jsonrpc\":\"2.0\",\"result\":null,\"id\":", "}"),
        ],
        pieces: &[4096],
        failing: NONE,
        status: 1,
        written: &[Part::Frames(&[INITIALIZED])],
    },
    // The first of these waits, and the others have its id. Their number stands in their arguments.
    Run {
        name: "requests under one id",
        arguments: &[&["serve", "4", "1"]],
        sent: &[
            Part::Frames(&[INITIALIZE]),
            Part::Numbered(
                500,
                "{\"jsonrpc\":\"2.0\",\"method\":\"workspace/executeCommand\",\"id\":7,\"params\":{\"command\":\"wait\",\"arguments\":[1000],\"n\":",
                "}}",
            ),
        ],
        pieces: &[4096],
        failing: NONE,
        status: 1,
        written: &[
            Part::Frames(&[INITIALIZED]),
            Part::Times(
                499,
                "{\"jsonrpc\":\"2.0\",\"error\":{\"code\":-32600,\"message\":\"Invalid request\"},\"id\":7}",
            ),
        ],
    },
    Run {
        name: "lists in 126 levels",
        arguments: &[&["serve", "4", "1"]],
        sent: &[Part::Nested(126)],
        pieces: &[4096],
        failing: NONE,
        status: 1,
        written: &[],
    },
    Run {
        name: "lists in 127 levels",
        arguments: &[&["serve", "4", "1"]],
        sent: &[Part::Nested(127)],
        pieces: &[4096],
        failing: NONE,
        status: 1,
        written: &[Part::Bytes(
            b"Content-Length: 75\r\n\r\n{\"jsonrpc\":\"2.0\",\"error\":{\"code\":-32700,\"message\":\"Parse error\"},\"id\":null}",
        )],
    },
];

#[test]
fn floods_and_deep_messages(rt: HostRuntime) -> Result<(), RowError> {
    try_rows(&rt, rt.alloc(), FLOODS)
}

// The lines that `bulk` and `talk` write, without a read.
const LINES: &[Run] = &[
    Run {
        name: "two items that are made up",
        arguments: &[&["bulk", "0", "2"]],
        sent: &[],
        pieces: &[1],
        failing: &[(1, 0)],
        status: 0,
        written: &[Part::Bytes(b"replies 4 errors 1 messages 0 bytes 289\n")],
    },
    Run {
        name: "many items that are made up",
        arguments: &[&["bulk", "7", "100000"]],
        sent: &[],
        pieces: &[1],
        failing: &[(1, 0)],
        status: 0,
        written: &[Part::Bytes(b"replies 80110 errors 40083 messages 19892 bytes 9388599\n")],
    },
    Run {
        name: "two callers",
        arguments: &[&["talk", "2", "3"]],
        sent: &[],
        pieces: &[1],
        failing: &[(1, 0)],
        status: 0,
        written: &[Part::Bytes(b"sent 6 delivered 6\n")],
    },
];

#[test]
fn lines(rt: HostRuntime) -> Result<(), RowError> {
    try_rows(&rt, rt.alloc(), LINES)
}
