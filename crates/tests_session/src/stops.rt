//! Sessions in which a read, a write or a flush fails, and such whose reads end.
use crate::frames::Part;
use crate::serving::{Case, How, NONE, PLAIN};
use crate::sessions::{ANSWER_1, ANSWERS_1_2, BARE_INITIALIZE, EXIT, INITIALIZE, SHUTDOWN};
use crate::table::try_table;
use lsp_rows::RowError;

const INITIALIZED: &str = "{\"jsonrpc\":\"2.0\",\"result\":null,\"id\":1}";

const SHUT_DOWN: &str = "{\"jsonrpc\":\"2.0\",\"result\":null,\"id\":2}";

const WHOLE: &[Part] = &[Part::Frames(&[INITIALIZE, SHUTDOWN, EXIT])];

const ANSWERED: &[Part] = &[Part::Frames(&[INITIALIZED])];

const BOTH_ANSWERED: &[Part] = &[Part::Frames(&[INITIALIZED, SHUT_DOWN])];

// The whole session comes in pieces of 10 bytes, of which there are 22.
const READS: &[Case] = &[
    Case {
        name: "a read fails before the first answer",
        how: PLAIN,
        sent: WHOLE,
        pieces: &[10],
        failing: &[
            (1, 0),
            (2, 0),
            (3, 0),
            (4, 0),
            (5, 0),
            (6, 0),
            (7, 0),
            (8, 0),
            (9, 0),
            (10, 0),
        ],
        ended: "Err(ReadFault)",
        written: &[],
    },
    Case {
        name: "a read fails before the second answer",
        how: PLAIN,
        sent: WHOLE,
        pieces: &[10],
        failing: &[
            (11, 0),
            (12, 0),
            (13, 0),
            (14, 0),
            (15, 0),
            (16, 0),
            (17, 0),
        ],
        ended: "Err(ReadFault)",
        written: ANSWERED,
    },
    Case {
        name: "a read fails after both answers",
        how: PLAIN,
        sent: WHOLE,
        pieces: &[10],
        failing: &[(18, 0), (19, 0), (20, 0), (21, 0), (22, 0)],
        ended: "Err(ReadFault)",
        written: BOTH_ANSWERED,
    },
    Case {
        name: "a read after the last would fail",
        how: PLAIN,
        sent: WHOLE,
        pieces: &[10],
        failing: &[(23, 0)],
        ended: "Ok((Some(ShutDown), []))",
        written: BOTH_ANSWERED,
    },
];

#[test]
fn each_read_fails(rt: HostRuntime) -> Result<(), RowError> {
    try_table(rt.alloc(), READS)
}

// Each read is followed by a flush, and the tenth and the seventeenth by a write before it.
const CALLS: &[Case] = &[
    Case {
        name: "a flush or a write fails before the first answer",
        how: PLAIN,
        sent: WHOLE,
        pieces: &[10],
        failing: &[
            (0, 1),
            (0, 2),
            (0, 3),
            (0, 4),
            (0, 5),
            (0, 6),
            (0, 7),
            (0, 8),
            (0, 9),
            (0, 10),
        ],
        ended: "Err(WriteFault)",
        written: &[],
    },
    Case {
        name: "a flush or a write fails before the second answer",
        how: PLAIN,
        sent: WHOLE,
        pieces: &[10],
        failing: &[
            (0, 11),
            (0, 12),
            (0, 13),
            (0, 14),
            (0, 15),
            (0, 16),
            (0, 17),
            (0, 18),
        ],
        ended: "Err(WriteFault)",
        written: ANSWERED,
    },
    Case {
        name: "a flush fails after both answers",
        how: PLAIN,
        sent: WHOLE,
        pieces: &[10],
        failing: &[(0, 19), (0, 20), (0, 21), (0, 22), (0, 23), (0, 24)],
        ended: "Err(WriteFault)",
        written: BOTH_ANSWERED,
    },
    Case {
        name: "a call after the last would fail",
        how: PLAIN,
        sent: WHOLE,
        pieces: &[10],
        failing: &[(0, 25)],
        ended: "Ok((Some(ShutDown), []))",
        written: BOTH_ANSWERED,
    },
];

#[test]
fn each_write_and_flush_fails(rt: HostRuntime) -> Result<(), RowError> {
    try_table(rt.alloc(), CALLS)
}

const NINE_READS: How = How {
    max: 4,
    wait: 1024,
    limits: (8192, 67_108_864),
    rounds: 1,
    reads: 9,
    rotates: false,
};

const ONE_READ: How = How {
    max: 4,
    wait: 1024,
    limits: (8192, 67_108_864),
    rounds: 1,
    reads: 1,
    rotates: false,
};

// Of the sink there is one write a step that puts something out, and one flush a read.
const STOPS: &[Case] = &[
    Case {
        name: "the second read",
        how: NINE_READS,
        sent: &[Part::Frames(&[BARE_INITIALIZE])],
        pieces: &[4096],
        failing: &[(2, 0)],
        ended: "Err(ReadFault)",
        written: &[Part::Bytes(ANSWER_1)],
    },
    Case {
        name: "the first write",
        how: NINE_READS,
        sent: &[Part::Frames(&[BARE_INITIALIZE])],
        pieces: &[4096],
        failing: &[(0, 1)],
        ended: "Err(WriteFault)",
        written: &[],
    },
    Case {
        name: "the flush after it, and the one of the end of input",
        how: NINE_READS,
        sent: &[Part::Frames(&[BARE_INITIALIZE])],
        pieces: &[4096],
        failing: &[(0, 2), (0, 3)],
        ended: "Err(WriteFault)",
        written: &[Part::Bytes(ANSWER_1)],
    },
    Case {
        name: "no call is left to fail",
        how: NINE_READS,
        sent: &[Part::Frames(&[BARE_INITIALIZE])],
        pieces: &[4096],
        failing: &[(0, 4)],
        ended: "Ok((None, []))",
        written: &[Part::Bytes(ANSWER_1)],
    },
    Case {
        name: "the flush of the end of input, after two writes",
        how: NINE_READS,
        sent: &[Part::Frames(&[BARE_INITIALIZE, SHUTDOWN])],
        pieces: &[4096],
        failing: &[(0, 4)],
        ended: "Err(WriteFault)",
        written: &[Part::Bytes(ANSWERS_1_2)],
    },
    Case {
        name: "no call is left to fail after two writes",
        how: NINE_READS,
        sent: &[Part::Frames(&[BARE_INITIALIZE, SHUTDOWN])],
        pieces: &[4096],
        failing: &[(0, 5)],
        ended: "Ok((None, []))",
        written: &[Part::Bytes(ANSWERS_1_2)],
    },
    Case {
        name: "no second read is granted",
        how: ONE_READ,
        sent: &[Part::Frames(&[BARE_INITIALIZE])],
        pieces: &[4096],
        failing: NONE,
        ended: "Err(ReadsSpent)",
        written: &[Part::Bytes(ANSWER_1)],
    },
];

#[test]
fn sessions_that_stop(rt: HostRuntime) -> Result<(), RowError> {
    try_table(rt.alloc(), STOPS)
}
