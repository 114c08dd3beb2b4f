//! What a relay writes, byte for byte.
use crate::frames::{Part, sink_of, source_of, try_written};
use crate::table::{TableRow, try_table};
use lsp_relay::relay;
use lsp_rows::{RowError, Trial};
use lsp_rpc::NoMemory;
use std::alloc::Global;

const ASKED_BODIES: &[&str] = &[
    r#"{"jsonrpc":"2.0","method":"proxy/in","params":{"message":{"jsonrpc":"2.0","method":"x","id":7},"side":1}}"#,
    r#"{"jsonrpc":"2.0","method":"proxy/in","params":{"message":{"jsonrpc":"2.0","method":"x","id":7},"side":2}}"#,
    r#"{"jsonrpc":"2.0","method":"proxy/in","params":{"message":{"jsonrpc":"2.0","result":"b","id":1},"side":0}}"#,
    r#"{"jsonrpc":"2.0","method":"proxy/in","params":{"message":{"jsonrpc":"2.0","result":"a","id":0},"side":0}}"#,
];

pub(crate) const ASKED: &[Part] = &[Part::Frames(ASKED_BODIES)];

const FIRST_SENT: &str =
    r#"{"jsonrpc":"2.0","method":"proxy/out","params":{"message":{"id":0,"jsonrpc":"2.0","method":"x"},"side":0}}"#;

pub(crate) const SENT: &[Part] = &[Part::Frames(&[
    FIRST_SENT,
    r#"{"jsonrpc":"2.0","method":"proxy/out","params":{"message":{"id":1,"jsonrpc":"2.0","method":"x"},"side":0}}"#,
    r#"{"jsonrpc":"2.0","method":"proxy/out","params":{"message":{"id":7,"jsonrpc":"2.0","result":"b"},"side":2}}"#,
    r#"{"jsonrpc":"2.0","method":"proxy/out","params":{"message":{"id":7,"jsonrpc":"2.0","result":"a"},"side":1}}"#,
])];

// What is sent, by pieces of this size and within so many reads, and what comes of it: how the relay
// ends, and what is written. Reads, and writes with flushes, are numbered from 1; that read and that
// write or flush fail.
struct Row {
    name: &'static str,
    editors: u32,
    sent: &'static [Part],
    piece: usize,
    read: u64,
    call: u64,
    reads: u64,
    ended: &'static str,
    written: &'static [Part],
}

const ROWS: &[Row] = &[
    // An empty body tells no item, and input ends inside a frame.
    Row {
        name: "items that tell no message of two editors",
        editors: 2,
        sent: &[
            Part::Frames(&[
                "",
                "{",
                r#"{"jsonrpc":"2.0","method":"proxy/in"}"#,
                r#"{"jsonrpc":"2.0","method":"proxy/in","params":{"message":{"jsonrpc":"2.0","method":"x"},"side":0},"id":1}"#,
                r#"{"jsonrpc":"2.0","method":"proxy/in","params":{"message":{"jsonrpc":"2.0","method":"x"},"side":0},"id":null}"#,
                r#"{"jsonrpc":"2.0","method":"proxy/in","params":[{"jsonrpc":"2.0","method":"x"},0]}"#,
                r#"{"jsonrpc":"2.0","method":"proxy/in","params":{"message":{"jsonrpc":"2.0","method":"x"}}}"#,
                r#"{"jsonrpc":"2.0","method":"proxy/in","params":{"message":{"jsonrpc":"2.0","method":"x"},"side":0,"more":1}}"#,
                r#"{"jsonrpc":"2.0","method":"proxy/in","params":{"message":{"jsonrpc":"2.0","method":"x"},"side":3}}"#,
                r#"{"jsonrpc":"2.0","method":"proxy/in","params":{"message":{"jsonrpc":"2.0","method":"x"},"side":-1}}"#,
                r#"{"jsonrpc":"2.0","method":"proxy/in","params":{"message":{"jsonrpc":"2.0","method":"x"},"side":"0"}}"#,
                r#"{"jsonrpc":"2.0","method":"proxy/in","params":{"message":{"method":"x"},"side":0}}"#,
                r#"{"jsonrpc":"2.0","method":"proxy/out","params":{"message":{"jsonrpc":"2.0","method":"x"},"side":0}}"#,
                r#"{"jsonrpc":"2.0","result":{"message":{"jsonrpc":"2.0","method":"x"},"side":0},"id":1}"#,
            ]),
            Part::Frames(ASKED_BODIES),
            Part::Bytes(b"Content-Length: 9\r\n\r\n{"),
        ],
        piece: 300,
        read: 0,
        call: 0,
        reads: u64::MAX,
        ended: "Ok(Relayed { passed: 4, dropped: 14 })",
        written: SENT,
    },
    Row {
        name: "a notification goes to both, and params and errors keep their values",
        editors: 2,
        sent: &[Part::Frames(&[
            r#"{"jsonrpc":"2.0","method":"proxy/in","params":{"side":1,"message":{"params":{"b":[1,null],"a":"\u00e9"},"method":"m","id":"s","jsonrpc":"2.0"}}}"#,
            r#"{"jsonrpc":"2.0","method":"proxy/in","params":{"side":0,"message":{"id":0,"error":{"message":"no","data":[true],"code":-32601},"jsonrpc":"2.0"}}}"#,
            r#"{"jsonrpc":"2.0","method":"proxy/in","params":{"side":0,"message":{"params":{"n":-5},"method":"n","jsonrpc":"2.0"}}}"#,
        ])],
        piece: 4096,
        read: 0,
        call: 0,
        reads: u64::MAX,
        ended: "Ok(Relayed { passed: 3, dropped: 0 })",
        written: &[Part::Frames(&[
            r#"{"jsonrpc":"2.0","method":"proxy/out","params":{"message":{"id":0,"jsonrpc":"2.0","method":"m","params":{"a":"é","b":[1,null]}},"side":0}}"#,
            r#"{"jsonrpc":"2.0","method":"proxy/out","params":{"message":{"error":{"code":-32601,"data":[true],"message":"no"},"id":"s","jsonrpc":"2.0"},"side":1}}"#,
            r#"{"jsonrpc":"2.0","method":"proxy/out","params":{"message":{"jsonrpc":"2.0","method":"n","params":{"n":-5}},"side":1}}"#,
            r#"{"jsonrpc":"2.0","method":"proxy/out","params":{"message":{"jsonrpc":"2.0","method":"n","params":{"n":-5}},"side":2}}"#,
        ])],
    },
    // A first read of 200 bytes tells one message, whose frame has 129 bytes when it is sent.
    Row {
        name: "the second read fails",
        editors: 2,
        sent: ASKED,
        piece: 200,
        read: 2,
        call: 0,
        reads: 9,
        ended: "Err(ReadFault)",
        written: &[Part::Frames(&[FIRST_SENT])],
    },
    Row {
        name: "the first write fails",
        editors: 2,
        sent: ASKED,
        piece: 200,
        read: 0,
        call: 1,
        reads: 9,
        ended: "Err(WriteFault)",
        written: &[],
    },
    Row {
        name: "the flush after it fails",
        editors: 2,
        sent: ASKED,
        piece: 200,
        read: 0,
        call: 2,
        reads: 9,
        ended: "Err(WriteFault)",
        written: &[Part::Frames(&[FIRST_SENT])],
    },
    Row {
        name: "no second read is granted",
        editors: 2,
        sent: ASKED,
        piece: 200,
        read: 0,
        call: 0,
        reads: 1,
        ended: "Err(ReadsSpent)",
        written: &[Part::Frames(&[FIRST_SENT])],
    },
];

impl TableRow for Row {
    fn try_row(&self, trial: &mut Trial, alloc: Global) -> Result<(), NoMemory> {
        let mut source = source_of(alloc, self.sent, self.piece, self.read)?;
        let mut sink = sink_of(alloc, self.call)?;
        let editors = self.editors.max(1);
        let relayed = relay(alloc, editors, &mut source, &mut sink, self.reads);
        trial.shows(self.name, relayed, self.ended);
        Ok(try_written(trial, alloc, self.name, &sink, self.written)?)
    }
}

#[test]
fn relayed(rt: HostRuntime) -> Result<(), RowError> {
    try_table(rt.alloc(), ROWS)
}

// What is large, where memory is ample: a body of 32 MiB is read and written.
const LONG: &[Row] = &[Row {
    name: "a long body",
    editors: 1,
    sent: &[Part::Long(
        r#"{"jsonrpc":"2.0","method":"proxy/in","params":{"message":{"jsonrpc":"2.0","method":"x","params":[""#,
        524_288,
        "0123456789abcdefghijklmnopqrstuvwxyzABCDEFGHIJKLMNOPQRSTUVWXYZ-_",
        r#""]},"side":1}}"#,
    )],
    piece: 4096,
    read: 0,
    call: 0,
    reads: u64::MAX,
    ended: "Ok(Relayed { passed: 1, dropped: 0 })",
    written: &[Part::Long(
        r#"{"jsonrpc":"2.0","method":"proxy/out","params":{"message":{"jsonrpc":"2.0","method":"x","params":[""#,
        524_288,
        "0123456789abcdefghijklmnopqrstuvwxyzABCDEFGHIJKLMNOPQRSTUVWXYZ-_",
        r#""]},"side":0}}"#,
    )],
}];

#[test]
fn a_long_body(rt: HostRuntime) -> Result<(), RowError> {
    try_table(rt.alloc(), LONG)
}
