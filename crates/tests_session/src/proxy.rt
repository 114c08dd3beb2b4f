//! What a proxy sends, message by message.
use crate::table::{TableRow, try_table};
use lsp_proxy::Proxy;
use lsp_rows::{RowError, Trial};
use lsp_rpc::{Id, Message, NoMemory, Request, Response, read_message};
use serde_json::Value;
use std::alloc::{AllocError, Global};
use std::fmt::Debug;

// Whose a message is: an editor's, the server's, or the server's to all at once.
#[derive(Clone, Copy)]
enum Whose {
    Editor(u32),
    Server,
    Broadcast,
}

// A message that comes, of which the text is this, and what is sent for it.
struct Step {
    name: &'static str,
    whose: Whose,
    text: &'static str,
    sent: &'static str,
}

// How many editors there are, and the messages in turn.
struct Talk {
    editors: u32,
    steps: &'static [Step],
}

const X: &str = "{\"jsonrpc\":\"2.0\",\"method\":\"x\",\"id\":7}";

const EXIT: &str = "{\"jsonrpc\":\"2.0\",\"method\":\"exit\"}";

const NOTE: &str = "{\"jsonrpc\":\"2.0\",\"method\":\"n\"}";

const ANSWER_0: &str = "{\"jsonrpc\":\"2.0\",\"result\":\"a\",\"id\":0}";

const ANSWER_1: &str = "{\"jsonrpc\":\"2.0\",\"result\":\"b\",\"id\":1}";

const TWO_EDITORS_WITH_ONE_ID: Talk = Talk {
    editors: 2,
    steps: &[
        Step {
            name: "`x` of editor 0",
            whose: Whose::Editor(0),
            text: X,
            sent: "[(Server, Request(Request { method: \"x\", params: None, id: Some(Number(0)) }))]",
        },
        Step {
            name: "`x` of editor 1",
            whose: Whose::Editor(1),
            text: X,
            sent: "[(Server, Request(Request { method: \"x\", params: None, id: Some(Number(1)) }))]",
        },
        Step {
            name: "the answer to 1",
            whose: Whose::Server,
            text: ANSWER_1,
            sent: "[(Editor(1), Response(Response { id: Number(7), body: Ok(String(\"b\")) }))]",
        },
        Step {
            name: "the answer to 0",
            whose: Whose::Server,
            text: ANSWER_0,
            sent: "[(Editor(0), Response(Response { id: Number(7), body: Ok(String(\"a\")) }))]",
        },
    ],
};

const ONE_ID_TWICE_AND_AN_EDITOR_GONE: Talk = Talk {
    editors: 2,
    steps: &[
        Step {
            name: "`x` of editor 0",
            whose: Whose::Editor(0),
            text: X,
            sent: "[(Server, Request(Request { method: \"x\", params: None, id: Some(Number(0)) }))]",
        },
        Step {
            name: "`x` of editor 0 again",
            whose: Whose::Editor(0),
            text: X,
            sent: concat!(
                "[(Editor(0), Response(Response { id: Number(7), body: Err(Error { ",
                "code: InvalidRequest, message: \"Invalid request\", payload: None }) }))]"
            ),
        },
        Step {
            name: "`exit` of editor 0",
            whose: Whose::Editor(0),
            text: EXIT,
            sent: "[]",
        },
        Step {
            name: "the answer to 0",
            whose: Whose::Server,
            text: ANSWER_0,
            sent: "[]",
        },
    ],
};

const OPENED_ONCE_AND_SHUT_DOWN: Talk = Talk {
    editors: 1,
    steps: &[
        Step {
            name: "`initialize` of editor 0",
            whose: Whose::Editor(0),
            text: "{\"jsonrpc\":\"2.0\",\"method\":\"initialize\",\"id\":1}",
            sent: "[(Server, Request(Request { method: \"initialize\", params: None, id: Some(Number(0)) }))]",
        },
        Step {
            name: "the answer to 0",
            whose: Whose::Server,
            text: ANSWER_0,
            sent: "[(Editor(0), Response(Response { id: Number(1), body: Ok(String(\"a\")) }))]",
        },
        Step {
            name: "`r` of the server",
            whose: Whose::Server,
            text: "{\"jsonrpc\":\"2.0\",\"method\":\"r\",\"id\":5}",
            sent: "[(Editor(0), Request(Request { method: \"r\", params: None, id: Some(Number(1)) }))]",
        },
        Step {
            name: "`exit` of editor 0",
            whose: Whose::Editor(0),
            text: EXIT,
            sent: concat!(
                "[(Server, Response(Response { id: Number(5), body: Err(Error { ",
                "code: InternalError, message: \"Internal error\", payload: None }) })), ",
                "(Server, Request(Request { method: \"shutdown\", params: None, id: Some(Number(2)) }))]"
            ),
        },
        Step {
            name: "the answer to 2",
            whose: Whose::Server,
            text: "{\"jsonrpc\":\"2.0\",\"result\":\"\",\"id\":2}",
            sent: "[(Server, Request(Request { method: \"exit\", params: None, id: None }))]",
        },
    ],
};

const A_NOTIFICATION_TO_ALL: Talk = Talk {
    editors: 2,
    steps: &[
        Step {
            name: "to each",
            whose: Whose::Server,
            text: NOTE,
            sent: concat!(
                "[(Editor(0), Request(Request { method: \"n\", params: None, id: None })), ",
                "(Editor(1), Request(Request { method: \"n\", params: None, id: None }))]"
            ),
        },
        Step {
            name: "once",
            whose: Whose::Broadcast,
            text: NOTE,
            sent: "Broadcast([0, 1], Request { method: \"n\", params: None, id: None })",
        },
    ],
};

const TALKS: &[Talk] = &[
    TWO_EDITORS_WITH_ONE_ID,
    ONE_ID_TWICE_AND_AN_EDITOR_GONE,
    OPENED_ONCE_AND_SHUT_DOWN,
    A_NOTIFICATION_TO_ALL,
];

// The message of that text. What is none counts as want of memory, which no row expects.
fn message(alloc: Global, text: &str) -> Result<Message, NoMemory> {
    let Ok(value) = Value::from_str(alloc, text) else {
        return Err(NoMemory);
    };
    match read_message(alloc, value) {
        Ok(message) => Ok(message),
        Err(_) => Err(NoMemory),
    }
}

fn shown<T: Debug + Drop>(alloc: Global, sent: Result<T, NoMemory>) -> Result<String, NoMemory> {
    Ok(format!(in alloc; "{:?}", sent?)?)
}

// What is sent for it.
fn sent_for(alloc: Global, proxy: &mut Proxy, step: &Step) -> Result<String, NoMemory> {
    let message = message(alloc, step.text)?;
    match step.whose {
        Whose::Editor(editor) => shown(alloc, proxy.editor(editor, message)),
        Whose::Server => shown(alloc, proxy.server(message)),
        Whose::Broadcast => shown(alloc, proxy.server_outgoing(message)),
    }
}

impl TableRow for Talk {
    fn try_row(&self, trial: &mut Trial, alloc: Global) -> Result<(), NoMemory> {
        let mut proxy = Proxy::new(alloc, self.editors.max(1))?;
        for step in self.steps {
            trial.text(step.name, sent_for(alloc, &mut proxy, step), step.sent);
        }
        Ok(())
    }
}

#[test]
fn talks(rt: HostRuntime) -> Result<(), RowError> {
    try_table(rt.alloc(), TALKS)
}

fn asks(alloc: Global, id: i64) -> Result<Message, AllocError> {
    let builder = Request::build(String::from_str(alloc, "x")?);
    Ok(Message::Request(builder.id(Id::Number(id)).finish()))
}

// Whether the editor's request with this id is passed on to the server, and the server's answer, whose
// id counts from 0, to the editor.
fn is_passed(proxy: &mut Proxy, alloc: Global, id: i64) -> Result<bool, NoMemory> {
    let asked = proxy.editor(0, asks(alloc, id)?)?.len();
    let answer = Response::from_ok(Id::Number(id), Value::Null);
    let answered = proxy.server(Message::Response(answer))?.len();
    Ok(asked == 1 && answered == 1)
}

fn are_passed(alloc: Global) -> Result<bool, NoMemory> {
    let mut proxy = Proxy::new(alloc, 1)?;
    for id in 0..2_097_152 {
        if !is_passed(&mut proxy, alloc, id)? {
            return Ok(false);
        }
    }
    Ok(true)
}

// Each of so many requests of an editor is answered, where memory is ample: `NoMemory` would hide a
// limit that no clause names.
#[test]
fn requests_through_the_proxy(rt: HostRuntime) -> Result<(), RowError> {
    let mut trial = Trial::new(rt.alloc());
    trial.same("each is passed on", are_passed(rt.alloc()), Ok(true));
    trial.end()
}
