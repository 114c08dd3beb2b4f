// Sessions of the document server.
use crate::sessions::{EXIT, INITIALIZE, INITIALIZED, Row, SHUT_DOWN, SHUTDOWN};

const OFFERED: &str =
    "{\"jsonrpc\":\"2.0\",\"result\":{\"capabilities\":{\"textDocumentSync\":{\"change\":2,\"openClose\":true}}},\"id\":1}";

const REFUSED: &str =
    "{\"jsonrpc\":\"2.0\",\"method\":\"window/logMessage\",\"params\":{\"message\":\"refused\",\"type\":1}}";

/// What the editor has open, and what isn't accepted, which changes nothing and is logged once.
pub(crate) const DOCUMENTS: &[Row] = &[
    Row {
        name: "a whole session",
        arguments: &["docs"],
        sent: &[INITIALIZE, SHUTDOWN, EXIT],
        answers: &[(101, OFFERED), (38, SHUT_DOWN)],
        status: 0,
    },
    Row {
        name: "a character of two code units is replaced",
        arguments: &["docs"],
        sent: &[
            INITIALIZE,
            "{\"jsonrpc\":\"2.0\",\"method\":\"textDocument/didOpen\",\"params\":{\"textDocument\":{\"uri\":\"file:///a\",\"languageId\":\"text\",\"version\":1,\"text\":\"a😀b\\n\"}}}",
            "{\"jsonrpc\":\"2.0\",\"method\":\"textDocument/didChange\",\"params\":{\"textDocument\":{\"uri\":\"file:///a\",\"version\":2},\"contentChanges\":[{\"range\":{\"start\":{\"line\":0,\"character\":1},\"end\":{\"line\":0,\"character\":3}},\"text\":\"x\"}]}}",
            "{\"jsonrpc\":\"2.0\",\"method\":\"docs/text\",\"params\":{\"uri\":\"file:///a\"},\"id\":2}",
        ],
        answers: &[
            (101, OFFERED),
            (
                62,
                "{\"jsonrpc\":\"2.0\",\"result\":{\"text\":\"axb\\n\",\"version\":2},\"id\":2}",
            ),
        ],
        status: 1,
    },
    Row {
        name: "a place inside a character stands before it",
        arguments: &["docs"],
        sent: &[
            INITIALIZE,
            "{\"jsonrpc\":\"2.0\",\"method\":\"textDocument/didOpen\",\"params\":{\"textDocument\":{\"uri\":\"file:///a\",\"languageId\":\"text\",\"version\":1,\"text\":\"a😀b\"}}}",
            "{\"jsonrpc\":\"2.0\",\"method\":\"textDocument/didChange\",\"params\":{\"textDocument\":{\"uri\":\"file:///a\",\"version\":2},\"contentChanges\":[{\"range\":{\"start\":{\"line\":0,\"character\":2},\"end\":{\"line\":0,\"character\":2}},\"text\":\"x\"}]}}",
            "{\"jsonrpc\":\"2.0\",\"method\":\"docs/text\",\"params\":{\"uri\":\"file:///a\"},\"id\":2}",
        ],
        answers: &[
            (101, OFFERED),
            (
                64,
                "{\"jsonrpc\":\"2.0\",\"result\":{\"text\":\"ax😀b\",\"version\":2},\"id\":2}",
            ),
        ],
        status: 1,
    },
    Row {
        name: "places past the end of a line and of the text",
        arguments: &["docs"],
        sent: &[
            INITIALIZE,
            "{\"jsonrpc\":\"2.0\",\"method\":\"textDocument/didOpen\",\"params\":{\"textDocument\":{\"uri\":\"file:///a\",\"languageId\":\"text\",\"version\":1,\"text\":\"a\\r\\nb\"}}}",
            "{\"jsonrpc\":\"2.0\",\"method\":\"textDocument/didChange\",\"params\":{\"textDocument\":{\"uri\":\"file:///a\",\"version\":2},\"contentChanges\":[{\"range\":{\"start\":{\"line\":0,\"character\":9},\"end\":{\"line\":7,\"character\":0}},\"text\":\"\"}]}}",
            "{\"jsonrpc\":\"2.0\",\"method\":\"docs/text\",\"params\":{\"uri\":\"file:///a\"},\"id\":2}",
        ],
        answers: &[
            (101, OFFERED),
            (
                58,
                "{\"jsonrpc\":\"2.0\",\"result\":{\"text\":\"a\",\"version\":2},\"id\":2}",
            ),
        ],
        status: 1,
    },
    Row {
        name: "a document is opened twice",
        arguments: &["docs"],
        sent: &[
            INITIALIZE,
            "{\"jsonrpc\":\"2.0\",\"method\":\"textDocument/didOpen\",\"params\":{\"textDocument\":{\"uri\":\"file:///a\",\"languageId\":\"text\",\"version\":1,\"text\":\"a\"}}}",
            "{\"jsonrpc\":\"2.0\",\"method\":\"textDocument/didOpen\",\"params\":{\"textDocument\":{\"uri\":\"file:///a\",\"languageId\":\"text\",\"version\":9,\"text\":\"other\"}}}",
            "{\"jsonrpc\":\"2.0\",\"method\":\"docs/text\",\"params\":{\"uri\":\"file:///a\"},\"id\":2}",
        ],
        answers: &[
            (101, OFFERED),
            (86, REFUSED),
            (
                58,
                "{\"jsonrpc\":\"2.0\",\"result\":{\"text\":\"a\",\"version\":1},\"id\":2}",
            ),
        ],
        status: 1,
    },
    Row {
        name: "a document is closed",
        arguments: &["docs"],
        sent: &[
            INITIALIZE,
            "{\"jsonrpc\":\"2.0\",\"method\":\"textDocument/didOpen\",\"params\":{\"textDocument\":{\"uri\":\"file:///a\",\"languageId\":\"text\",\"version\":1,\"text\":\"a\"}}}",
            "{\"jsonrpc\":\"2.0\",\"method\":\"textDocument/didClose\",\"params\":{\"textDocument\":{\"uri\":\"file:///a\"}}}",
            "{\"jsonrpc\":\"2.0\",\"method\":\"docs/text\",\"params\":{\"uri\":\"file:///a\"},\"id\":2}",
        ],
        answers: &[
            (101, OFFERED),
            (38, "{\"jsonrpc\":\"2.0\",\"result\":null,\"id\":2}"),
        ],
        status: 1,
    },
    Row {
        name: "a start behind its end: none of the changes is made",
        arguments: &["docs"],
        sent: &[
            INITIALIZE,
            "{\"jsonrpc\":\"2.0\",\"method\":\"textDocument/didOpen\",\"params\":{\"textDocument\":{\"uri\":\"file:///a\",\"languageId\":\"text\",\"version\":1,\"text\":\"ab\"}}}",
            "{\"jsonrpc\":\"2.0\",\"method\":\"textDocument/didChange\",\"params\":{\"textDocument\":{\"uri\":\"file:///a\",\"version\":2},\"contentChanges\":[{\"range\":{\"start\":{\"line\":0,\"character\":0},\"end\":{\"line\":0,\"character\":0}},\"text\":\"y\"},{\"range\":{\"start\":{\"line\":0,\"character\":2},\"end\":{\"line\":0,\"character\":1}},\"text\":\"z\"}]}}",
            "{\"jsonrpc\":\"2.0\",\"method\":\"docs/text\",\"params\":{\"uri\":\"file:///a\"},\"id\":2}",
        ],
        answers: &[
            (101, OFFERED),
            (86, REFUSED),
            (
                59,
                "{\"jsonrpc\":\"2.0\",\"result\":{\"text\":\"ab\",\"version\":1},\"id\":2}",
            ),
        ],
        status: 1,
    },
    Row {
        name: "changes one after another, and a length that lies",
        arguments: &["docs"],
        sent: &[
            INITIALIZE,
            "{\"jsonrpc\":\"2.0\",\"method\":\"textDocument/didOpen\",\"params\":{\"textDocument\":{\"uri\":\"file:///a\",\"languageId\":\"text\",\"version\":3,\"text\":\"ab\"}}}",
            "{\"jsonrpc\":\"2.0\",\"method\":\"textDocument/didChange\",\"params\":{\"textDocument\":{\"uri\":\"file:///a\",\"version\":1},\"contentChanges\":[{\"range\":{\"start\":{\"line\":0,\"character\":1},\"end\":{\"line\":0,\"character\":1}},\"text\":\"c\"},{\"range\":{\"start\":{\"line\":0,\"character\":1},\"end\":{\"line\":0,\"character\":2}},\"rangeLength\":7,\"text\":\"\"}]}}",
            "{\"jsonrpc\":\"2.0\",\"method\":\"docs/text\",\"params\":{\"uri\":\"file:///a\"},\"id\":2}",
        ],
        answers: &[
            (101, OFFERED),
            (
                59,
                "{\"jsonrpc\":\"2.0\",\"result\":{\"text\":\"ab\",\"version\":1},\"id\":2}",
            ),
        ],
        status: 1,
    },
    Row {
        name: "the whole text is changed",
        arguments: &["docs"],
        sent: &[
            INITIALIZE,
            "{\"jsonrpc\":\"2.0\",\"method\":\"textDocument/didOpen\",\"params\":{\"textDocument\":{\"uri\":\"file:///a\",\"languageId\":\"text\",\"version\":1,\"text\":\"ab\"}}}",
            "{\"jsonrpc\":\"2.0\",\"method\":\"textDocument/didChange\",\"params\":{\"textDocument\":{\"uri\":\"file:///a\",\"version\":2},\"contentChanges\":[{\"text\":\"c\"}]}}",
            "{\"jsonrpc\":\"2.0\",\"method\":\"docs/text\",\"params\":{\"uri\":\"file:///a\"},\"id\":2}",
        ],
        answers: &[
            (101, OFFERED),
            (
                58,
                "{\"jsonrpc\":\"2.0\",\"result\":{\"text\":\"c\",\"version\":2},\"id\":2}",
            ),
        ],
        status: 1,
    },
    Row {
        name: "what isn't open is changed and closed",
        arguments: &["docs"],
        sent: &[
            INITIALIZE,
            "{\"jsonrpc\":\"2.0\",\"method\":\"textDocument/didChange\",\"params\":{\"textDocument\":{\"uri\":\"file:///a\",\"version\":2},\"contentChanges\":[{\"text\":\"c\"}]}}",
            "{\"jsonrpc\":\"2.0\",\"method\":\"textDocument/didClose\",\"params\":{\"textDocument\":{\"uri\":\"file:///a\"}}}",
            "{\"jsonrpc\":\"2.0\",\"method\":\"docs/text\",\"params\":{\"uri\":\"file:///a\"},\"id\":2}",
        ],
        answers: &[
            (101, OFFERED),
            (86, REFUSED),
            (86, REFUSED),
            (38, "{\"jsonrpc\":\"2.0\",\"result\":null,\"id\":2}"),
        ],
        status: 1,
    },
    Row {
        name: "params of `docs/text` that don't fit",
        arguments: &["docs"],
        sent: &[
            INITIALIZE,
            "{\"jsonrpc\":\"2.0\",\"method\":\"docs/text\",\"params\":{\"uri\":1},\"id\":2}",
            "{\"jsonrpc\":\"2.0\",\"method\":\"docs/text\",\"id\":3}",
            "{\"jsonrpc\":\"2.0\",\"method\":\"docs/text\",\"params\":[],\"id\":4}",
        ],
        answers: &[
            (101, OFFERED),
            (
                75,
                "{\"jsonrpc\":\"2.0\",\"error\":{\"code\":-32602,\"message\":\"Invalid params\"},\"id\":2}",
            ),
            (
                75,
                "{\"jsonrpc\":\"2.0\",\"error\":{\"code\":-32602,\"message\":\"Invalid params\"},\"id\":3}",
            ),
            (
                75,
                "{\"jsonrpc\":\"2.0\",\"error\":{\"code\":-32602,\"message\":\"Invalid params\"},\"id\":4}",
            ),
        ],
        status: 1,
    },
    Row {
        name: "other methods",
        arguments: &["docs"],
        sent: &[
            INITIALIZE,
            "{\"jsonrpc\":\"2.0\",\"method\":\"textDocument/hover\",\"params\":{\"textDocument\":{\"uri\":\"file:///a\"},\"position\":{\"line\":0,\"character\":0}},\"id\":2}",
            "{\"jsonrpc\":\"2.0\",\"method\":\"textDocument/didSave\",\"params\":{\"textDocument\":{\"uri\":\"file:///a\"}}}",
            "{\"jsonrpc\":\"2.0\",\"method\":\"docs/other\",\"id\":3}",
        ],
        answers: &[
            (101, OFFERED),
            (
                77,
                "{\"jsonrpc\":\"2.0\",\"error\":{\"code\":-32601,\"message\":\"Method not found\"},\"id\":2}",
            ),
            (
                97,
                "{\"jsonrpc\":\"2.0\",\"error\":{\"code\":-32601,\"message\":\"Method not found\",\"data\":\"docs/other\"},\"id\":3}",
            ),
        ],
        status: 1,
    },
    Row {
        name: "`docs/text` of the sample",
        arguments: &["serve"],
        sent: &[
            INITIALIZE,
            "{\"jsonrpc\":\"2.0\",\"method\":\"docs/text\",\"params\":{\"uri\":\"file:///a\"},\"id\":2}",
        ],
        answers: &[
            (53, INITIALIZED),
            (
                96,
                "{\"jsonrpc\":\"2.0\",\"error\":{\"code\":-32601,\"message\":\"Method not found\",\"data\":\"docs/text\"},\"id\":2}",
            ),
        ],
        status: 1,
    },
    Row {
        name: "floats, and params of `shutdown`, as editors send them",
        arguments: &["docs"],
        sent: &[
            "{\"jsonrpc\":\"2.0\",\"method\":\"initialize\",\"params\":{\"capabilities\":{},\"initializationOptions\":{\"fontSize\":1.5}},\"id\":1}",
            "{\"jsonrpc\":\"2.0\",\"method\":\"textDocument/didOpen\",\"params\":{\"textDocument\":{\"uri\":\"file:///a\",\"languageId\":\"text\",\"version\":1.0,\"text\":\"a\"}}}",
            "{\"jsonrpc\":\"2.0\",\"method\":\"docs/text\",\"params\":{\"uri\":\"file:///a\"},\"id\":3}",
            "{\"jsonrpc\":\"2.0\",\"method\":\"shutdown\",\"params\":null,\"id\":2}",
            EXIT,
        ],
        answers: &[
            (101, OFFERED),
            (
                58,
                "{\"jsonrpc\":\"2.0\",\"result\":{\"text\":\"a\",\"version\":1},\"id\":3}",
            ),
            (38, SHUT_DOWN),
        ],
        status: 0,
    },
    Row {
        name: "params of `shutdown` of the sample",
        arguments: &["serve", "4", "8"],
        sent: &[
            INITIALIZE,
            "{\"jsonrpc\":\"2.0\",\"method\":\"shutdown\",\"params\":{},\"id\":2}",
            EXIT,
        ],
        answers: &[
            (53, INITIALIZED),
            (
                82,
                "{\"jsonrpc\":\"2.0\",\"error\":{\"code\":-32602,\"message\":\"Unexpected params: {}\"},\"id\":2}",
            ),
        ],
        status: 0,
    },
];
