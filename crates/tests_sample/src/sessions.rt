// Sessions: what an editor sends, and what answers it.

pub(crate) const INITIALIZE: &str =
    "{\"jsonrpc\":\"2.0\",\"method\":\"initialize\",\"params\":{\"capabilities\":{}},\"id\":1}";

pub(crate) const SHUTDOWN: &str = "{\"jsonrpc\":\"2.0\",\"method\":\"shutdown\",\"id\":2}";

pub(crate) const EXIT: &str = "{\"jsonrpc\":\"2.0\",\"method\":\"exit\"}";

pub(crate) const INITIALIZED: &str =
    "{\"jsonrpc\":\"2.0\",\"result\":{\"capabilities\":{}},\"id\":1}";

pub(crate) const SHUT_DOWN: &str = "{\"jsonrpc\":\"2.0\",\"result\":null,\"id\":2}";

const PARSE_ERROR: &str =
    "{\"jsonrpc\":\"2.0\",\"error\":{\"code\":-32700,\"message\":\"Parse error\"},\"id\":null}";

/// A session: its name, the program's arguments, the bodies sent, the bodies of the answers with
/// their lengths, and the exit status.
pub(crate) struct Row {
    pub(crate) name: &'static str,
    pub(crate) arguments: &'static [&'static str],
    pub(crate) sent: &'static [&'static str],
    pub(crate) answers: &'static [(usize, &'static str)],
    pub(crate) status: u8,
}

/// Sessions of the sample: what is a message, and what the life of a session allows.
pub(crate) const SESSIONS: &[Row] = &[
    Row {
        name: "a whole session",
        arguments: &[],
        sent: &[INITIALIZE, SHUTDOWN, EXIT],
        answers: &[(53, INITIALIZED), (38, SHUT_DOWN)],
        status: 0,
    },
    Row {
        name: "the same while a thread reads",
        arguments: &["pump", "4", "8"],
        sent: &[INITIALIZE, SHUTDOWN, EXIT],
        answers: &[(53, INITIALIZED), (38, SHUT_DOWN)],
        status: 0,
    },
    Row {
        name: "no bytes",
        arguments: &[],
        sent: &[],
        answers: &[],
        status: 1,
    },
    Row {
        name: "no bytes for a thread that reads",
        arguments: &["pump", "1", "1"],
        sent: &[],
        answers: &[],
        status: 1,
    },
    Row {
        name: "the input ends after initialize",
        arguments: &[],
        sent: &[INITIALIZE],
        answers: &[(53, INITIALIZED)],
        status: 1,
    },
    Row {
        name: "a body that is cut",
        arguments: &[],
        sent: &["{\"jsonrpc\":\"2.0\",\"method\":"],
        answers: &[(75, PARSE_ERROR)],
        status: 1,
    },
    Row {
        name: "a name that is not registered",
        arguments: &[],
        sent: &["{\"jsonrpc\":\"2.0\",\"method\":\"foo\",\"id\":0}"],
        answers: &[(
            90,
            "{\"jsonrpc\":\"2.0\",\"error\":{\"code\":-32601,\"message\":\"Method not found\",\"data\":\"foo\"},\"id\":0}",
        )],
        status: 1,
    },
    Row {
        name: "a request that may be ignored is answered",
        arguments: &[],
        sent: &["{\"jsonrpc\":\"2.0\",\"method\":\"$/foo\",\"id\":0}"],
        answers: &[(
            92,
            "{\"jsonrpc\":\"2.0\",\"error\":{\"code\":-32601,\"message\":\"Method not found\",\"data\":\"$/foo\"},\"id\":0}",
        )],
        status: 1,
    },
    Row {
        name: "shutdown with params, and once more",
        arguments: &[],
        sent: &[
            INITIALIZE,
            "{\"jsonrpc\":\"2.0\",\"method\":\"shutdown\",\"params\":null,\"id\":2}",
            "{\"jsonrpc\":\"2.0\",\"method\":\"shutdown\",\"id\":3}",
        ],
        answers: &[
            (53, INITIALIZED),
            (
                84,
                "{\"jsonrpc\":\"2.0\",\"error\":{\"code\":-32602,\"message\":\"Unexpected params: null\"},\"id\":2}",
            ),
            (
                76,
                "{\"jsonrpc\":\"2.0\",\"error\":{\"code\":-32600,\"message\":\"Invalid request\"},\"id\":3}",
            ),
        ],
        status: 1,
    },
    Row {
        name: "no method, and no message",
        arguments: &[],
        sent: &["{\"jsonrpc\":\"2.0\",\"id\":0}", "[1]"],
        answers: &[
            (
                87,
                "{\"jsonrpc\":\"2.0\",\"error\":{\"code\":-32601,\"message\":\"Method not found\",\"data\":\"\"},\"id\":0}",
            ),
            (
                79,
                "{\"jsonrpc\":\"2.0\",\"error\":{\"code\":-32600,\"message\":\"Invalid request\"},\"id\":null}",
            ),
        ],
        status: 1,
    },
    Row {
        name: "what an editor sends",
        arguments: &[],
        sent: &[
            "{\"jsonrpc\":\"2.0\",\"id\":0,\"method\":\"initialize\",\"params\":{\"processId\":1234,\"clientInfo\":{\"name\":\"Visual Studio Code\",\"version\":\"1.92.0\"},\"locale\":\"en\",\"rootPath\":\"/w\",\"rootUri\":\"file:///w\",\"capabilities\":{\"workspace\":{\"applyEdit\":true},\"textDocument\":{\"publishDiagnostics\":{\"tagSupport\":{\"valueSet\":[1,2]}}},\"general\":{\"positionEncodings\":[\"utf-16\"]}},\"trace\":\"off\",\"workspaceFolders\":[{\"uri\":\"file:///w\",\"name\":\"w\"}]}}",
            "{\"jsonrpc\":\"2.0\",\"method\":\"$/setTrace\",\"params\":{\"value\":\"off\"}}",
        ],
        answers: &[(
            53,
            "{\"jsonrpc\":\"2.0\",\"result\":{\"capabilities\":{}},\"id\":0}",
        )],
        status: 1,
    },
    Row {
        name: "shutdown before initialize",
        arguments: &[],
        sent: &[SHUTDOWN, EXIT],
        answers: &[(
            83,
            "{\"jsonrpc\":\"2.0\",\"error\":{\"code\":-32002,\"message\":\"Server not initialized\"},\"id\":2}",
        )],
        status: 1,
    },
    Row {
        name: "a request before initialize",
        arguments: &[],
        sent: &[
            "{\"jsonrpc\":\"2.0\",\"method\":\"codeAction/resolve\",\"params\":{\"title\":\"\"},\"id\":1}",
            INITIALIZE,
        ],
        answers: &[
            (
                83,
                "{\"jsonrpc\":\"2.0\",\"error\":{\"code\":-32002,\"message\":\"Server not initialized\"},\"id\":1}",
            ),
            (53, INITIALIZED),
        ],
        status: 1,
    },
    Row {
        name: "initialize twice",
        arguments: &[],
        sent: &[INITIALIZE, INITIALIZE],
        answers: &[
            (53, INITIALIZED),
            (
                76,
                "{\"jsonrpc\":\"2.0\",\"error\":{\"code\":-32600,\"message\":\"Invalid request\"},\"id\":1}",
            ),
        ],
        status: 1,
    },
    Row {
        name: "initialize without params, and with others",
        arguments: &[],
        sent: &[
            "{\"jsonrpc\":\"2.0\",\"method\":\"initialize\",\"id\":1}",
            "{\"jsonrpc\":\"2.0\",\"method\":\"initialize\",\"params\":{\"capabilities\":1},\"id\":2}",
        ],
        answers: &[
            (
                81,
                "{\"jsonrpc\":\"2.0\",\"error\":{\"code\":-32602,\"message\":\"Missing params field\"},\"id\":1}",
            ),
            (
                75,
                "{\"jsonrpc\":\"2.0\",\"error\":{\"code\":-32602,\"message\":\"Invalid params\"},\"id\":2}",
            ),
        ],
        status: 1,
    },
    Row {
        name: "nothing after exit",
        arguments: &[],
        sent: &[EXIT, INITIALIZE],
        answers: &[],
        status: 1,
    },
];

/// Calls of the sample: some wait, are cancelled or are refused.
pub(crate) const CALLS: &[Row] = &[
    Row {
        name: "a cancel is answered at once, and once",
        arguments: &[],
        sent: &[
            INITIALIZE,
            "{\"jsonrpc\":\"2.0\",\"method\":\"workspace/executeCommand\",\"params\":{\"command\":\"wait\",\"arguments\":[1000]},\"id\":3}",
            "{\"jsonrpc\":\"2.0\",\"method\":\"$/cancelRequest\",\"params\":{\"id\":3}}",
            "{\"jsonrpc\":\"2.0\",\"method\":\"$/cancelRequest\",\"params\":{\"id\":3}}",
        ],
        answers: &[
            (53, INITIALIZED),
            (
                69,
                "{\"jsonrpc\":\"2.0\",\"error\":{\"code\":-32800,\"message\":\"Canceled\"},\"id\":3}",
            ),
        ],
        status: 1,
    },
    Row {
        name: "one slot: a call waits in the queue",
        arguments: &["serve", "1", "1"],
        sent: &[
            INITIALIZE,
            "{\"jsonrpc\":\"2.0\",\"method\":\"workspace/executeCommand\",\"params\":{\"command\":\"wait\",\"arguments\":[2]},\"id\":2}",
            "{\"jsonrpc\":\"2.0\",\"method\":\"workspace/executeCommand\",\"params\":{\"command\":\"echo\",\"arguments\":[\"x\"]},\"id\":3}",
        ],
        answers: &[
            (53, INITIALIZED),
            (35, "{\"jsonrpc\":\"2.0\",\"result\":2,\"id\":2}"),
            (37, "{\"jsonrpc\":\"2.0\",\"result\":\"x\",\"id\":3}"),
        ],
        status: 1,
    },
    Row {
        name: "one slot: the wait is longer than the input",
        arguments: &["serve", "1", "1"],
        sent: &[
            INITIALIZE,
            "{\"jsonrpc\":\"2.0\",\"method\":\"workspace/executeCommand\",\"params\":{\"command\":\"wait\",\"arguments\":[3]},\"id\":2}",
            "{\"jsonrpc\":\"2.0\",\"method\":\"workspace/executeCommand\",\"params\":{\"command\":\"echo\",\"arguments\":[\"x\"]},\"id\":3}",
        ],
        answers: &[(53, INITIALIZED)],
        status: 1,
    },
    Row {
        name: "an id that is live is refused, and the first goes on",
        arguments: &[],
        sent: &[
            INITIALIZE,
            "{\"jsonrpc\":\"2.0\",\"method\":\"workspace/executeCommand\",\"params\":{\"command\":\"wait\",\"arguments\":[1000]},\"id\":7}",
            "{\"jsonrpc\":\"2.0\",\"method\":\"workspace/executeCommand\",\"params\":{},\"id\":7}",
        ],
        answers: &[
            (53, INITIALIZED),
            (
                76,
                "{\"jsonrpc\":\"2.0\",\"error\":{\"code\":-32600,\"message\":\"Invalid request\"},\"id\":7}",
            ),
        ],
        status: 1,
    },
    Row {
        name: "a cancel names no id past 32 bits",
        arguments: &[],
        sent: &[
            INITIALIZE,
            "{\"jsonrpc\":\"2.0\",\"method\":\"workspace/executeCommand\",\"params\":{\"command\":\"wait\",\"arguments\":[1000]},\"id\":5000000000}",
            "{\"jsonrpc\":\"2.0\",\"method\":\"$/cancelRequest\",\"params\":{\"id\":5000000000}}",
        ],
        answers: &[(53, INITIALIZED)],
        status: 1,
    },
    Row {
        name: "a greeting",
        arguments: &[],
        sent: &[
            INITIALIZE,
            "{\"jsonrpc\":\"2.0\",\"method\":\"initialized\",\"params\":{}}",
        ],
        answers: &[
            (53, INITIALIZED),
            (
                98,
                "{\"jsonrpc\":\"2.0\",\"method\":\"window/logMessage\",\"params\":{\"message\":\"server initialized!\",\"type\":3}}",
            ),
        ],
        status: 1,
    },
    Row {
        name: "exit answers each call that waits",
        arguments: &[],
        sent: &[
            INITIALIZE,
            "{\"jsonrpc\":\"2.0\",\"method\":\"workspace/executeCommand\",\"params\":{\"command\":\"wait\",\"arguments\":[1000]},\"id\":4}",
            "{\"jsonrpc\":\"2.0\",\"method\":\"workspace/executeCommand\",\"params\":{\"command\":\"wait\",\"arguments\":[1000]},\"id\":5}",
            EXIT,
        ],
        answers: &[
            (53, INITIALIZED),
            (
                69,
                "{\"jsonrpc\":\"2.0\",\"error\":{\"code\":-32800,\"message\":\"Canceled\"},\"id\":4}",
            ),
            (
                69,
                "{\"jsonrpc\":\"2.0\",\"error\":{\"code\":-32800,\"message\":\"Canceled\"},\"id\":5}",
            ),
        ],
        status: 1,
    },
    Row {
        name: "a method that the sample doesn't answer",
        arguments: &[],
        sent: &[
            INITIALIZE,
            "{\"jsonrpc\":\"2.0\",\"method\":\"textDocument/hover\",\"params\":{\"textDocument\":{\"uri\":\"file:///a\"},\"position\":{\"line\":0,\"character\":0}},\"id\":2}",
        ],
        answers: &[
            (53, INITIALIZED),
            (
                77,
                "{\"jsonrpc\":\"2.0\",\"error\":{\"code\":-32601,\"message\":\"Method not found\"},\"id\":2}",
            ),
        ],
        status: 1,
    },
    Row {
        name: "a notification that the sample takes no note of",
        arguments: &[],
        sent: &[
            INITIALIZE,
            "{\"jsonrpc\":\"2.0\",\"method\":\"textDocument/didClose\",\"params\":{\"textDocument\":{\"uri\":\"file:///a\"}}}",
        ],
        answers: &[(53, INITIALIZED)],
        status: 1,
    },
    Row {
        name: "commands with other arguments",
        arguments: &[],
        sent: &[
            INITIALIZE,
            "{\"jsonrpc\":\"2.0\",\"method\":\"workspace/executeCommand\",\"params\":{\"command\":\"echo\",\"arguments\":[]},\"id\":2}",
            "{\"jsonrpc\":\"2.0\",\"method\":\"workspace/executeCommand\",\"params\":{\"command\":\"echo\",\"arguments\":[1,2]},\"id\":3}",
            "{\"jsonrpc\":\"2.0\",\"method\":\"workspace/executeCommand\",\"params\":{\"command\":\"wait\",\"arguments\":[1001]},\"id\":4}",
            "{\"jsonrpc\":\"2.0\",\"method\":\"workspace/executeCommand\",\"params\":{\"command\":\"wait\",\"arguments\":[\"1\"]},\"id\":5}",
            "{\"jsonrpc\":\"2.0\",\"method\":\"workspace/executeCommand\",\"params\":{\"command\":\"ask\",\"arguments\":[1]},\"id\":6}",
            "{\"jsonrpc\":\"2.0\",\"method\":\"workspace/executeCommand\",\"params\":{\"command\":\"other\",\"arguments\":[]},\"id\":7}",
            "{\"jsonrpc\":\"2.0\",\"method\":\"workspace/executeCommand\",\"params\":{\"command\":\"echo\"},\"id\":8}",
        ],
        answers: &[
            (53, INITIALIZED),
            (
                75,
                "{\"jsonrpc\":\"2.0\",\"error\":{\"code\":-32602,\"message\":\"Invalid params\"},\"id\":2}",
            ),
            (
                75,
                "{\"jsonrpc\":\"2.0\",\"error\":{\"code\":-32602,\"message\":\"Invalid params\"},\"id\":3}",
            ),
            (
                75,
                "{\"jsonrpc\":\"2.0\",\"error\":{\"code\":-32602,\"message\":\"Invalid params\"},\"id\":4}",
            ),
            (
                75,
                "{\"jsonrpc\":\"2.0\",\"error\":{\"code\":-32602,\"message\":\"Invalid params\"},\"id\":5}",
            ),
            (
                75,
                "{\"jsonrpc\":\"2.0\",\"error\":{\"code\":-32602,\"message\":\"Invalid params\"},\"id\":6}",
            ),
            (
                75,
                "{\"jsonrpc\":\"2.0\",\"error\":{\"code\":-32602,\"message\":\"Invalid params\"},\"id\":7}",
            ),
            (
                75,
                "{\"jsonrpc\":\"2.0\",\"error\":{\"code\":-32602,\"message\":\"Invalid params\"},\"id\":8}",
            ),
        ],
        status: 1,
    },
    Row {
        name: "answers to nothing",
        arguments: &[],
        sent: &[
            INITIALIZE,
            "{\"jsonrpc\":\"2.0\",\"id\":0,\"result\":null}",
            "{\"jsonrpc\":\"2.0\",\"id\":1,\"result\":null}",
            "{\"jsonrpc\":\"2.0\",\"id\":499,\"result\":null}",
            "{\"jsonrpc\":\"2.0\",\"id\":null,\"result\":null}",
        ],
        answers: &[(53, INITIALIZED)],
        status: 1,
    },
    Row {
        name: "cancels of nothing",
        arguments: &[],
        sent: &[
            INITIALIZE,
            "{\"jsonrpc\":\"2.0\",\"method\":\"$/cancelRequest\",\"params\":{\"id\":1}}",
            "{\"jsonrpc\":\"2.0\",\"method\":\"$/cancelRequest\",\"params\":{\"id\":2}}",
            "{\"jsonrpc\":\"2.0\",\"method\":\"$/cancelRequest\",\"params\":{\"id\":500}}",
        ],
        answers: &[(53, INITIALIZED)],
        status: 1,
    },
];

/// The sample asks its editor.
pub(crate) const ASKS: &[Row] = &[
    Row {
        name: "the editor's folders",
        arguments: &[],
        sent: &[
            INITIALIZE,
            "{\"jsonrpc\":\"2.0\",\"method\":\"workspace/executeCommand\",\"params\":{\"command\":\"ask\",\"arguments\":[]},\"id\":2}",
            "{\"jsonrpc\":\"2.0\",\"id\":0,\"result\":[{\"uri\":\"file:///w\",\"name\":\"w\"}]}",
        ],
        answers: &[
            (53, INITIALIZED),
            (
                76,
                "{\"jsonrpc\":\"2.0\",\"method\":\"workspace/workspaceFolders\",\"params\":null,\"id\":0}",
            ),
            (
                66,
                "{\"jsonrpc\":\"2.0\",\"result\":[{\"name\":\"w\",\"uri\":\"file:///w\"}],\"id\":2}",
            ),
        ],
        status: 1,
    },
    Row {
        name: "no folders",
        arguments: &[],
        sent: &[
            INITIALIZE,
            "{\"jsonrpc\":\"2.0\",\"method\":\"workspace/executeCommand\",\"params\":{\"command\":\"ask\",\"arguments\":[]},\"id\":2}",
            "{\"jsonrpc\":\"2.0\",\"id\":0,\"result\":null}",
        ],
        answers: &[
            (53, INITIALIZED),
            (
                76,
                "{\"jsonrpc\":\"2.0\",\"method\":\"workspace/workspaceFolders\",\"params\":null,\"id\":0}",
            ),
            (38, "{\"jsonrpc\":\"2.0\",\"result\":null,\"id\":2}"),
        ],
        status: 1,
    },
    Row {
        name: "an answer that doesn't fit",
        arguments: &[],
        sent: &[
            INITIALIZE,
            "{\"jsonrpc\":\"2.0\",\"method\":\"workspace/executeCommand\",\"params\":{\"command\":\"ask\",\"arguments\":[]},\"id\":2}",
            "{\"jsonrpc\":\"2.0\",\"id\":0,\"result\":[{\"uri\":1}]}",
        ],
        answers: &[
            (53, INITIALIZED),
            (
                76,
                "{\"jsonrpc\":\"2.0\",\"method\":\"workspace/workspaceFolders\",\"params\":null,\"id\":0}",
            ),
            (
                72,
                "{\"jsonrpc\":\"2.0\",\"error\":{\"code\":-32700,\"message\":\"Parse error\"},\"id\":2}",
            ),
        ],
        status: 1,
    },
    Row {
        name: "the editor's own error",
        arguments: &[],
        sent: &[
            INITIALIZE,
            "{\"jsonrpc\":\"2.0\",\"method\":\"workspace/executeCommand\",\"params\":{\"command\":\"ask\",\"arguments\":[]},\"id\":2}",
            "{\"jsonrpc\":\"2.0\",\"id\":0,\"error\":{\"code\":5,\"message\":\"no\"}}",
        ],
        answers: &[
            (53, INITIALIZED),
            (
                76,
                "{\"jsonrpc\":\"2.0\",\"method\":\"workspace/workspaceFolders\",\"params\":null,\"id\":0}",
            ),
            (
                58,
                "{\"jsonrpc\":\"2.0\",\"error\":{\"code\":5,\"message\":\"no\"},\"id\":2}",
            ),
        ],
        status: 1,
    },
    Row {
        name: "an answer after a cancel changes nothing",
        arguments: &[],
        sent: &[
            INITIALIZE,
            "{\"jsonrpc\":\"2.0\",\"method\":\"workspace/executeCommand\",\"params\":{\"command\":\"ask\",\"arguments\":[]},\"id\":2}",
            "{\"jsonrpc\":\"2.0\",\"method\":\"$/cancelRequest\",\"params\":{\"id\":2}}",
            "{\"jsonrpc\":\"2.0\",\"id\":0,\"result\":[{\"uri\":\"file:///w\",\"name\":\"w\"}]}",
            "{\"jsonrpc\":\"2.0\",\"method\":\"workspace/executeCommand\",\"params\":{\"command\":\"ask\",\"arguments\":[]},\"id\":3}",
            "{\"jsonrpc\":\"2.0\",\"id\":1,\"result\":[{\"uri\":\"file:///w\",\"name\":\"w\"}]}",
        ],
        answers: &[
            (53, INITIALIZED),
            (
                76,
                "{\"jsonrpc\":\"2.0\",\"method\":\"workspace/workspaceFolders\",\"params\":null,\"id\":0}",
            ),
            (
                69,
                "{\"jsonrpc\":\"2.0\",\"error\":{\"code\":-32800,\"message\":\"Canceled\"},\"id\":2}",
            ),
            (
                76,
                "{\"jsonrpc\":\"2.0\",\"method\":\"workspace/workspaceFolders\",\"params\":null,\"id\":1}",
            ),
            (
                66,
                "{\"jsonrpc\":\"2.0\",\"result\":[{\"name\":\"w\",\"uri\":\"file:///w\"}],\"id\":3}",
            ),
        ],
        status: 1,
    },
    Row {
        name: "four asks without an answer don't hold back a cancel",
        arguments: &[],
        sent: &[
            INITIALIZE,
            "{\"jsonrpc\":\"2.0\",\"method\":\"workspace/executeCommand\",\"params\":{\"command\":\"ask\",\"arguments\":[]},\"id\":2}",
            "{\"jsonrpc\":\"2.0\",\"method\":\"workspace/executeCommand\",\"params\":{\"command\":\"ask\",\"arguments\":[]},\"id\":3}",
            "{\"jsonrpc\":\"2.0\",\"method\":\"workspace/executeCommand\",\"params\":{\"command\":\"ask\",\"arguments\":[]},\"id\":4}",
            "{\"jsonrpc\":\"2.0\",\"method\":\"workspace/executeCommand\",\"params\":{\"command\":\"ask\",\"arguments\":[]},\"id\":5}",
            "{\"jsonrpc\":\"2.0\",\"method\":\"workspace/executeCommand\",\"params\":{\"command\":\"echo\",\"arguments\":[\"x\"]},\"id\":6}",
            "{\"jsonrpc\":\"2.0\",\"method\":\"$/cancelRequest\",\"params\":{\"id\":3}}",
        ],
        answers: &[
            (53, INITIALIZED),
            (
                76,
                "{\"jsonrpc\":\"2.0\",\"method\":\"workspace/workspaceFolders\",\"params\":null,\"id\":0}",
            ),
            (
                76,
                "{\"jsonrpc\":\"2.0\",\"method\":\"workspace/workspaceFolders\",\"params\":null,\"id\":1}",
            ),
            (
                76,
                "{\"jsonrpc\":\"2.0\",\"method\":\"workspace/workspaceFolders\",\"params\":null,\"id\":2}",
            ),
            (
                76,
                "{\"jsonrpc\":\"2.0\",\"method\":\"workspace/workspaceFolders\",\"params\":null,\"id\":3}",
            ),
            (
                69,
                "{\"jsonrpc\":\"2.0\",\"error\":{\"code\":-32800,\"message\":\"Canceled\"},\"id\":3}",
            ),
            (37, "{\"jsonrpc\":\"2.0\",\"result\":\"x\",\"id\":6}"),
        ],
        status: 1,
    },
    Row {
        name: "each ask gets its own answer, and once",
        arguments: &[],
        sent: &[
            INITIALIZE,
            "{\"jsonrpc\":\"2.0\",\"method\":\"workspace/executeCommand\",\"params\":{\"command\":\"ask\",\"arguments\":[]},\"id\":2}",
            "{\"jsonrpc\":\"2.0\",\"method\":\"workspace/executeCommand\",\"params\":{\"command\":\"ask\",\"arguments\":[]},\"id\":3}",
            "{\"jsonrpc\":\"2.0\",\"method\":\"workspace/executeCommand\",\"params\":{\"command\":\"ask\",\"arguments\":[]},\"id\":4}",
            "{\"jsonrpc\":\"2.0\",\"id\":2,\"result\":null}",
            "{\"jsonrpc\":\"2.0\",\"id\":0,\"result\":[{\"uri\":\"file:///w\",\"name\":\"w\"}]}",
            "{\"jsonrpc\":\"2.0\",\"id\":2,\"result\":[{\"uri\":\"file:///w\",\"name\":\"w\"}]}",
            "{\"jsonrpc\":\"2.0\",\"id\":0,\"result\":null}",
            "{\"jsonrpc\":\"2.0\",\"id\":1,\"result\":[]}",
        ],
        answers: &[
            (53, INITIALIZED),
            (
                76,
                "{\"jsonrpc\":\"2.0\",\"method\":\"workspace/workspaceFolders\",\"params\":null,\"id\":0}",
            ),
            (
                76,
                "{\"jsonrpc\":\"2.0\",\"method\":\"workspace/workspaceFolders\",\"params\":null,\"id\":1}",
            ),
            (
                76,
                "{\"jsonrpc\":\"2.0\",\"method\":\"workspace/workspaceFolders\",\"params\":null,\"id\":2}",
            ),
            (38, "{\"jsonrpc\":\"2.0\",\"result\":null,\"id\":4}"),
            (
                66,
                "{\"jsonrpc\":\"2.0\",\"result\":[{\"name\":\"w\",\"uri\":\"file:///w\"}],\"id\":2}",
            ),
            (36, "{\"jsonrpc\":\"2.0\",\"result\":[],\"id\":3}"),
        ],
        status: 1,
    },
    Row {
        name: "an answer before the ask",
        arguments: &[],
        sent: &[
            INITIALIZE,
            "{\"jsonrpc\":\"2.0\",\"id\":0,\"result\":[{\"uri\":\"file:///w\",\"name\":\"w\"}]}",
            "{\"jsonrpc\":\"2.0\",\"method\":\"workspace/executeCommand\",\"params\":{\"command\":\"ask\",\"arguments\":[]},\"id\":2}",
        ],
        answers: &[
            (53, INITIALIZED),
            (
                76,
                "{\"jsonrpc\":\"2.0\",\"method\":\"workspace/workspaceFolders\",\"params\":null,\"id\":0}",
            ),
        ],
        status: 1,
    },
    Row {
        name: "exit answers an ask",
        arguments: &[],
        sent: &[
            INITIALIZE,
            "{\"jsonrpc\":\"2.0\",\"method\":\"workspace/executeCommand\",\"params\":{\"command\":\"ask\",\"arguments\":[]},\"id\":3}",
            SHUTDOWN,
            EXIT,
        ],
        answers: &[
            (53, INITIALIZED),
            (
                76,
                "{\"jsonrpc\":\"2.0\",\"method\":\"workspace/workspaceFolders\",\"params\":null,\"id\":0}",
            ),
            (38, SHUT_DOWN),
            (
                69,
                "{\"jsonrpc\":\"2.0\",\"error\":{\"code\":-32800,\"message\":\"Canceled\"},\"id\":3}",
            ),
        ],
        status: 0,
    },
];
