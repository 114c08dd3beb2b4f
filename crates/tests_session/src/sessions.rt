//! Sessions: to their end, in pieces, with failures, and of a hostile editor.
use crate::frames::Part;
use crate::serving::{Case, How, NONE, PLAIN};
use crate::table::try_table;
use lsp_rows::RowError;

/// The frames of these three have 97, 66 and 55 bytes, and that of each answer 60.
pub(crate) const INITIALIZE: &str =
    "{\"jsonrpc\":\"2.0\",\"method\":\"initialize\",\"params\":{\"capabilities\":{}},\"id\":1}";

pub(crate) const SHUTDOWN: &str = "{\"jsonrpc\":\"2.0\",\"method\":\"shutdown\",\"id\":2}";

pub(crate) const EXIT: &str = "{\"jsonrpc\":\"2.0\",\"method\":\"exit\"}";

/// Without params: its frame has 68 bytes.
pub(crate) const BARE_INITIALIZE: &str = "{\"jsonrpc\":\"2.0\",\"method\":\"initialize\",\"id\":1}";

const INITIALIZED: &str = "{\"jsonrpc\":\"2.0\",\"result\":null,\"id\":1}";

const SHUT_DOWN: &str = "{\"jsonrpc\":\"2.0\",\"result\":null,\"id\":2}";

pub(crate) const WAIT: &str = "{\"jsonrpc\":\"2.0\",\"method\":\"wait\",\"params\":1000,\"id\":3}";

const NEXT: &str = "{\"jsonrpc\":\"2.0\",\"method\":\"wait\",\"params\":1000,\"id\":4}";

const WAIT_TWICE: &str = "{\"jsonrpc\":\"2.0\",\"method\":\"wait\",\"params\":2,\"id\":3}";

const CANCEL: &str = "{\"jsonrpc\":\"2.0\",\"method\":\"$/cancelRequest\",\"params\":{\"id\":3}}";

const CANCELED: &str =
    "{\"jsonrpc\":\"2.0\",\"error\":{\"code\":-32800,\"message\":\"Canceled\"},\"id\":3}";

const NEXT_CANCELED: &str =
    "{\"jsonrpc\":\"2.0\",\"error\":{\"code\":-32800,\"message\":\"Canceled\"},\"id\":4}";

const REFUSED: &str =
    "{\"jsonrpc\":\"2.0\",\"error\":{\"code\":-32600,\"message\":\"Invalid request\"},\"id\":3}";

const PARSE_ERROR: &str =
    "{\"jsonrpc\":\"2.0\",\"error\":{\"code\":-32700,\"message\":\"Parse error\"},\"id\":null}";

const UNKNOWN: &str =
    "{\"jsonrpc\":\"2.0\",\"error\":{\"code\":-32601,\"message\":\"Method not found\",\"data\":\"\"},\"id\":0}";

const NO_MESSAGE: &str =
    "{\"jsonrpc\":\"2.0\",\"error\":{\"code\":-32600,\"message\":\"Invalid request\"},\"id\":null}";

pub(crate) const ANSWER_1: &[u8] =
    b"Content-Length: 38\r\n\r\n{\"jsonrpc\":\"2.0\",\"result\":null,\"id\":1}";

pub(crate) const ANSWERS_1_2: &[u8] =
    b"Content-Length: 38\r\n\r\n{\"jsonrpc\":\"2.0\",\"result\":null,\"id\":1}Content-Length: 38\r\n\r\n{\"jsonrpc\":\"2.0\",\"result\":null,\"id\":2}";

const ANSWERS_1_3: &[u8] =
    b"Content-Length: 38\r\n\r\n{\"jsonrpc\":\"2.0\",\"result\":null,\"id\":1}Content-Length: 38\r\n\r\n{\"jsonrpc\":\"2.0\",\"result\":null,\"id\":3}";

const BODY_OVER_LIMIT: &[u8] =
    b"Content-Length: 75\r\n\r\n{\"jsonrpc\":\"2.0\",\"error\":{\"code\":-32700,\"message\":\"Parse error\"},\"id\":null}";

// The sizes of the pieces, of which the last holds all.
const PIECES: &[usize] = &[1, 2, 3, 7, 13, 4096];

// However the input is cut, the output is that of the whole input.
const IN_PIECES: &[Case] = &[
    Case {
        name: "a whole session",
        how: PLAIN,
        sent: &[Part::Frames(&[INITIALIZE, SHUTDOWN, EXIT])],
        pieces: PIECES,
        failing: NONE,
        ended: "Ok((Some(ShutDown), []))",
        written: &[Part::Frames(&[INITIALIZED, SHUT_DOWN])],
    },
    Case {
        name: "a cancel, and one that comes too late",
        how: PLAIN,
        sent: &[Part::Frames(&[INITIALIZE, WAIT, CANCEL, CANCEL])],
        pieces: PIECES,
        failing: NONE,
        ended: "Ok((None, []))",
        written: &[Part::Frames(&[INITIALIZED, CANCELED])],
    },
    Case {
        name: "an exit answers what waits",
        how: PLAIN,
        sent: &[Part::Frames(&[INITIALIZE, WAIT, NEXT, EXIT, INITIALIZE])],
        pieces: PIECES,
        failing: NONE,
        ended: "Ok((Some(Initialized), []))",
        written: &[Part::Frames(&[INITIALIZED, CANCELED, NEXT_CANCELED])],
    },
    Case {
        name: "no method, and no message",
        how: PLAIN,
        sent: &[Part::Frames(&["{\"jsonrpc\":\"2.0\",\"id\":0}", "[1]"])],
        pieces: PIECES,
        failing: NONE,
        ended: "Ok((None, []))",
        written: &[Part::Frames(&[UNKNOWN, NO_MESSAGE])],
    },
    Case {
        name: "a body that is cut, before others",
        how: PLAIN,
        sent: &[Part::Frames(&["{\"jsonrpc\":\"2.0\",\"method\":", INITIALIZE])],
        pieces: PIECES,
        failing: NONE,
        ended: "Ok((None, []))",
        written: &[Part::Frames(&[PARSE_ERROR, INITIALIZED])],
    },
];

#[test]
fn sessions_in_pieces(rt: HostRuntime) -> Result<(), RowError> {
    try_table(rt.alloc(), IN_PIECES)
}

const SMALL_HEADS: How = How {
    max: 1,
    wait: 0,
    limits: (30, 99),
    rounds: 1,
    reads: 1000,
    rotates: true,
};

const THREE_ROUNDS: How = How {
    max: 1,
    wait: 0,
    limits: (30, 99),
    rounds: 3,
    reads: 1000,
    rotates: true,
};

const SMALL_BODIES: How = How {
    max: 1,
    wait: 0,
    limits: (30, 45),
    rounds: 1,
    reads: 1000,
    rotates: true,
};

const TO_THEIR_END: &[Case] = &[
    Case {
        name: "exit",
        how: SMALL_HEADS,
        sent: &[Part::Frames(&[BARE_INITIALIZE, SHUTDOWN, EXIT])],
        pieces: &[1, 4096],
        failing: NONE,
        ended: "Ok((Some(ShutDown), []))",
        written: &[Part::Bytes(ANSWERS_1_2)],
    },
    Case {
        name: "end of input",
        how: SMALL_HEADS,
        sent: &[Part::Frames(&[BARE_INITIALIZE])],
        pieces: &[1, 4096],
        failing: NONE,
        ended: "Ok((None, []))",
        written: &[Part::Bytes(ANSWER_1)],
    },
    Case {
        name: "polled three times",
        how: THREE_ROUNDS,
        sent: &[Part::Frames(&[BARE_INITIALIZE, WAIT_TWICE])],
        pieces: &[1, 4096],
        failing: NONE,
        ended: "Ok((None, []))",
        written: &[Part::Bytes(ANSWERS_1_3)],
    },
    Case {
        name: "polled twice",
        how: SMALL_HEADS,
        sent: &[Part::Frames(&[BARE_INITIALIZE, WAIT_TWICE])],
        pieces: &[1, 4096],
        failing: NONE,
        ended: "Ok((None, [Number(3)]))",
        written: &[Part::Bytes(ANSWER_1)],
    },
    Case {
        name: "a body over the limit",
        how: SMALL_BODIES,
        sent: &[Part::Frames(&[BARE_INITIALIZE])],
        pieces: &[1, 4096],
        failing: NONE,
        ended: "Ok((None, []))",
        written: &[Part::Bytes(BODY_OVER_LIMIT)],
    },
];

#[test]
fn sessions_to_their_end(rt: HostRuntime) -> Result<(), RowError> {
    try_table(rt.alloc(), TO_THEIR_END)
}

// One message and then many others, made of the number of each between two texts.
const FLOODS: &[Case] = &[
    Case {
        name: "requests under one id",
        how: PLAIN,
        sent: &[
            Part::Frames(&[INITIALIZE, WAIT]),
            Part::Numbered(
                500,
                "{\"jsonrpc\":\"2.0\",\"method\":\"wait\",\"params\":",
                ",\"id\":3}",
            ),
        ],
        pieces: &[4096],
        failing: NONE,
        ended: "Ok((None, [Number(3)]))",
        written: &[Part::Frames(&[INITIALIZED]), Part::Times(500, REFUSED)],
    },
    Case {
        name: "cancels of what isn't asked",
        how: PLAIN,
        sent: &[
            Part::Frames(&[INITIALIZE]),
            Part::Numbered(
                500,
                "{\"jsonrpc\":\"2.0\",\"method\":\"$/cancelRequest\",\"params\":{\"id\":",
                "}}",
            ),
        ],
        pieces: &[4096],
        failing: NONE,
        ended: "Ok((None, []))",
        written: &[Part::Frames(&[INITIALIZED])],
    },
    Case {
        name: "answers that nobody asked for",
        how: PLAIN,
        sent: &[
            Part::Frames(&[INITIALIZE]),
            Part::Numbered(500, "{\"jsonrpc\":\"2.0\",\"result\":null,\"id\":", "}"),
        ],
        pieces: &[4096],
        failing: NONE,
        ended: "Ok((None, []))",
        written: &[Part::Frames(&[INITIALIZED])],
    },
    Case {
        name: "errors to the id null that nobody asked for",
        how: PLAIN,
        sent: &[
            Part::Frames(&[INITIALIZE]),
            Part::Numbered(
                500,
                "{\"jsonrpc\":\"2.0\",\"error\":{\"message\":\"\",\"code\":",
                "},\"id\":null}",
            ),
        ],
        pieces: &[4096],
        failing: NONE,
        ended: "Ok((None, []))",
        written: &[Part::Frames(&[INITIALIZED])],
    },
];

#[test]
fn floods(rt: HostRuntime) -> Result<(), RowError> {
    try_table(rt.alloc(), FLOODS)
}

const ONE_CALL: How = How {
    max: 1,
    wait: 1024,
    limits: (8192, 67_108_864),
    rounds: 1,
    reads: u64::MAX,
    rotates: false,
};

// What is large, where memory is ample: `NoMemory` would hide a limit that no clause names. The
// cancel frees the only slot, and the last request comes after all that waited.
const QUEUED: &[Case] = &[Case {
    name: "notifications wait without a limit",
    how: ONE_CALL,
    sent: &[
        Part::Frames(&[
            BARE_INITIALIZE,
            "{\"jsonrpc\":\"2.0\",\"method\":\"wait\",\"params\":1000000,\"id\":2}",
        ]),
        Part::Times(100_000, "{\"jsonrpc\":\"2.0\",\"method\":\"initialized\"}"),
        Part::Frames(&[
            "{\"jsonrpc\":\"2.0\",\"method\":\"wait\",\"params\":0,\"id\":3}",
            "{\"jsonrpc\":\"2.0\",\"method\":\"$/cancelRequest\",\"params\":{\"id\":2}}",
            "{\"jsonrpc\":\"2.0\",\"method\":\"wait\",\"params\":0,\"id\":4}",
        ]),
    ],
    pieces: &[4096],
    failing: NONE,
    ended: "Ok((None, []))",
    written: &[Part::Frames(&[
        INITIALIZED,
        "{\"jsonrpc\":\"2.0\",\"error\":{\"code\":-32803,\"message\":\"Too many requests\"},\"id\":3}",
        "{\"jsonrpc\":\"2.0\",\"error\":{\"code\":-32800,\"message\":\"Canceled\"},\"id\":2}",
        "{\"jsonrpc\":\"2.0\",\"result\":null,\"id\":4}",
    ])],
}];

#[test]
fn notifications_wait_without_a_limit(rt: HostRuntime) -> Result<(), RowError> {
    try_table(rt.alloc(), QUEUED)
}
