// Rows over a session with a small server, and single calls of what a session is made of.
ghost use Rattle.std.specs.Prelude.{◌≡◌, false, IfOk};
ghost use Rattle.lsp_desk.specs.Call.{call_has_float};
ghost use Rattle.lsp_desk.specs.Shown.{show_client_call};
ghost use Rattle.lsp_session.specs.Item.{show_item, item_has_float};

use crate::frames::sink_of;
use crate::sessions::{ANSWER_1, BARE_INITIALIZE};
use crate::small::{Small, make_server};
use crate::table::{TableRow, try_table};
use lsp_desk::{Caller, ClientCall, ClientReply, Desk, PlainDesk, ServerCall, ServerReply};
use lsp_rows::{RowError, Trial};
use lsp_rpc::{Id, Message, NoMemory, Request, Response, TextFault};
use lsp_server::{MemorySink, ServeError, Server};
use lsp_session::{InOrder, Item, Life, Pending, Pick, Poll, Rotate, Session, step};
use serde_json::Value;
use std::alloc::{AllocError, Global};

fn request(alloc: Global, text: &str) -> Result<Item, TextFault>
    ensures { IfOk result (λ i. item_has_float (show_item i) ≡ false) }
{
    Ok(Item::Message(Message::Request(Request::from_text(alloc, text)?)))
}

// Makes the step of an item, or says why not.
fn make_step(session: &mut Session<Small, PlainDesk>, item: Item, rounds: u64) -> &'static str
    requires { item_has_float (show_item item) ≡ false }
{
    if session.is_stopped() {
        return "stopped;";
    }
    if session.life() == Life::Exited {
        return "exited;";
    }
    match step(session, item, &mut InOrder, rounds) {
        Ok(()) => "",
        Err(_) => "failed;",
    }
}

// The same of the item of a text.
fn make_step_of(
    alloc: Global,
    session: &mut Session<Small, PlainDesk>,
    text: &str,
    rounds: u64,
) -> &'static str {
    if text == "tick" {
        return make_step(session, Item::Tick, rounds);
    }
    match request(alloc, text) {
        Ok(item) => make_step(session, item, rounds),
        Err(_) => "no request;",
    }
}

fn write_answer(alloc: Global, response: &Response, out: &mut String) -> Result<(), AllocError> {
    let id = response.id();
    let line = match response.error() {
        Some(error) => format!(in alloc; "{} {};", id, error.code)?,
        None => format!(in alloc; "{} ok;", id)?,
    };
    out.push_str(line.as_str())
}

// Writes who is answered, and how.
fn write_answers(alloc: Global, messages: &[Message], out: &mut String) -> Result<(), AllocError> {
    for message in messages {
        if let Message::Response(response) = message {
            write_answer(alloc, response, out)?;
        }
    }
    Ok(())
}

/// What comes, and what comes of it: who is answered, and how, and which ids are left.
struct Row {
    name: &'static str,
    max: usize,
    wait: usize,
    rounds: u64,
    items: &'static [&'static str],
    out: &'static str,
    left: &'static str,
}

const I: &str = "{\"jsonrpc\":\"2.0\",\"method\":\"initialize\",\"params\":0,\"id\":1}";

const SLOW: &str = "{\"jsonrpc\":\"2.0\",\"method\":\"initialize\",\"params\":1,\"id\":1}";

const FAILS: &str = "{\"jsonrpc\":\"2.0\",\"method\":\"initialize\",\"params\":-1,\"id\":1}";

const WAIT: &str = "{\"jsonrpc\":\"2.0\",\"method\":\"wait\",\"params\":1000,\"id\":2}";

const ECHO: &str = "{\"jsonrpc\":\"2.0\",\"method\":\"wait\",\"params\":0,\"id\":3}";

const EXIT: &str = "{\"jsonrpc\":\"2.0\",\"method\":\"exit\"}";

const ROWS: &[Row] = &[
    Row {
        name: "an unknown name that begins with `$/` is answered",
        max: 4,
        wait: 1024,
        rounds: 8,
        items: &["{\"jsonrpc\":\"2.0\",\"method\":\"$/foo\",\"id\":0}"],
        out: "0 -32601;",
        left: "Ok([])",
    },
    Row {
        name: "a second `initialize` while the first goes on",
        max: 4,
        wait: 1024,
        rounds: 1,
        items: &[
            SLOW,
            "{\"jsonrpc\":\"2.0\",\"method\":\"initialize\",\"params\":0,\"id\":2}",
            "tick",
        ],
        out: "2 -32600;1 ok;",
        left: "Ok([])",
    },
    Row {
        name: "an `initialize` that is cancelled, and another",
        max: 4,
        wait: 1024,
        rounds: 1,
        items: &[
            SLOW,
            "{\"jsonrpc\":\"2.0\",\"method\":\"$/cancelRequest\",\"params\":{\"id\":1}}",
            "{\"jsonrpc\":\"2.0\",\"method\":\"initialize\",\"params\":1,\"id\":3}",
            "tick",
        ],
        out: "1 -32800;3 ok;",
        left: "Ok([])",
    },
    Row {
        name: "an `initialize` that fails, and another",
        max: 4,
        wait: 1024,
        rounds: 8,
        items: &[
            FAILS,
            WAIT,
            "{\"jsonrpc\":\"2.0\",\"method\":\"initialize\",\"params\":0,\"id\":3}",
        ],
        out: "1 -32603;2 -32002;3 ok;",
        left: "Ok([])",
    },
    Row {
        name: "a request where as many wait as may",
        max: 1,
        wait: 1,
        rounds: 1,
        items: &[
            I,
            WAIT,
            ECHO,
            "{\"jsonrpc\":\"2.0\",\"method\":\"wait\",\"params\":0,\"id\":4}",
        ],
        out: "1 ok;4 -32803;",
        left: "Ok([Number(2), Number(3)])",
    },
    Row {
        name: "a notification where as many wait as may",
        max: 1,
        wait: 1,
        rounds: 1,
        items: &[
            I,
            WAIT,
            ECHO,
            "{\"jsonrpc\":\"2.0\",\"method\":\"initialized\",\"params\":{}}",
        ],
        out: "1 ok;",
        left: "Ok([Number(2), Number(3)])",
    },
    Row {
        name: "a call that waits is polled in the round that frees its slot",
        max: 1,
        wait: 1024,
        rounds: 1,
        items: &[
            I,
            "{\"jsonrpc\":\"2.0\",\"method\":\"wait\",\"params\":2,\"id\":2}",
            ECHO,
            "tick",
        ],
        out: "1 ok;2 ok;3 ok;",
        left: "Ok([])",
    },
    Row {
        name: "a live id, a cancel, and one that comes too late",
        max: 4,
        wait: 1024,
        rounds: 8,
        items: &[
            I,
            WAIT,
            WAIT,
            "{\"jsonrpc\":\"2.0\",\"method\":\"$/cancelRequest\",\"params\":{\"id\":2}}",
            "{\"jsonrpc\":\"2.0\",\"method\":\"$/cancelRequest\",\"params\":{\"id\":2}}",
        ],
        out: "1 ok;2 -32600;2 -32800;",
        left: "Ok([])",
    },
    Row {
        name: "an exit answers all in order",
        max: 1,
        wait: 1024,
        rounds: 2,
        items: &[
            I,
            WAIT,
            "{\"jsonrpc\":\"2.0\",\"method\":\"wait\",\"params\":1000,\"id\":5}",
            EXIT,
            EXIT,
        ],
        out: "1 ok;2 -32800;5 -32800;exited;",
        left: "Ok([])",
    },
];

// Makes the steps of the row's items, and writes who is answered, and how.
fn make_steps(
    alloc: Global,
    session: &mut Session<Small, PlainDesk>,
    row: &Row,
) -> Result<String, AllocError> {
    let mut out = String::new(alloc);
    for text in row.items {
        out.push_str(make_step_of(alloc, session, text, row.rounds))?;
        let messages = session.take_out();
        let written = write_answers(alloc, &messages, &mut out);
        drop(messages);
        written?;
    }
    Ok(out)
}

impl TableRow for Row {
    fn try_row(&self, trial: &mut Trial, alloc: Global) -> Result<(), NoMemory> {
        let small = make_server(alloc)?;
        let session = Session::new(alloc, small, PlainDesk::new(alloc), self.max.max(1));
        let mut session = session.waiting_limit(self.wait);
        trial.text(self.name, make_steps(alloc, &mut session, self), self.out);
        trial.shows(self.name, session.unanswered(), self.left);
        Ok(())
    }
}

#[test]
fn rows(rt: HostRuntime) -> Result<(), RowError> {
    try_table(rt.alloc(), ROWS)
}

// The step of an item in a session of its own.
fn first_step(
    alloc: Global,
    sink: &mut MemorySink,
    small: Small,
    item: Item,
) -> Result<(), ServeError>
    requires { item_has_float (show_item item) ≡ false }
{
    let mut session = Session::new(alloc, small, PlainDesk::new(alloc), 4);
    Server::<PlainDesk>::step(alloc, sink, &mut session, item, &mut InOrder, 1)
}

// A tick of a session that has begun nothing.
fn first_tick(alloc: Global, sink: &mut MemorySink, small: Small) -> Result<(), ServeError> {
    let mut session = Session::new(alloc, small, PlainDesk::new(alloc), 4);
    Server::<PlainDesk>::idle(alloc, sink, &mut session, &mut InOrder, 1)
}

fn try_step(trial: &mut Trial, alloc: Global, sink: &mut MemorySink, small: Small) {
    match request(alloc, BARE_INITIALIZE) {
        Ok(item) => trial.same("a step", first_step(alloc, sink, small, item), Ok(())),
        Err(_) => trial.is_true("a request", false),
    }
}

// The tick puts nothing out.
#[test]
fn one_step_and_a_tick(rt: HostRuntime) -> Result<(), RowError> {
    let alloc = rt.alloc();
    let mut trial = Trial::new(alloc);
    let mut sink = sink_of(alloc, 0)?;
    try_step(&mut trial, alloc, &mut sink, make_server(alloc)?);
    trial.same("its bytes", sink.bytes(), ANSWER_1);
    let ticked = first_tick(alloc, &mut sink, make_server(alloc)?);
    trial.same("a tick", ticked, Ok(()));
    trial.same("no more bytes", sink.bytes(), ANSWER_1);
    trial.end()
}

const ERRORS: &[(ServeError, &str)] = &[
    (ServeError::ReadFault, "read failed"),
    (ServeError::WriteFault, "write failed"),
    (ServeError::ReadsSpent, "reads spent"),
    (ServeError::DeskSpent(7), "desk spent"),
    (ServeError::DeskSpent(u64::MAX), "desk spent"),
    (ServeError::NoMemory, "out of memory"),
];

impl TableRow for (ServeError, &str) {
    fn try_row(&self, trial: &mut Trial, alloc: Global) -> Result<(), NoMemory> {
        trial.text(self.1, self.0.to_string(alloc), self.1);
        Ok(())
    }
}

#[test]
fn texts_of_errors(rt: HostRuntime) -> Result<(), RowError> {
    try_table(rt.alloc(), ERRORS)
}

// The first three numbers of a pick.
fn three<P: Pick + Drop>(mut pick: P) -> (u64, u64, u64) {
    (pick.next(4), pick.next(4), pick.next(4))
}

#[test]
fn picks_tables_and_ids(rt: HostRuntime) -> Result<(), RowError> {
    let alloc = rt.alloc();
    let mut trial = Trial::new(alloc);
    let rotated = three(Rotate::new(u64::MAX));
    trial.same("rotated", rotated, (u64::MAX, 0, 1));
    trial.same("in order", three(InOrder), (0, 0, 0));
    try_ids(&mut trial, Pending::new(alloc));
    try_methods(&mut trial, alloc, make_server(alloc)?);
    trial.end()
}

fn try_ids(trial: &mut Trial, mut live: Pending) {
    trial.same("a new id", live.execute(Id::Number(7)), Ok(true));
    trial.same("a live id", live.execute(Id::Number(7)), Ok(false));
    trial.same("another id", live.execute(Id::Null), Ok(true));
    trial.is_true("it is cancelled", live.cancel(&Id::Null));
    trial.is_true("it is live no more", !live.finish(&Id::Null));
    trial.same("cancelled then", live.cancel_all().len(), 1);
    trial.is_true("none is live", !live.is_live(&Id::Number(7)));
    drop(live);
}

fn try_methods(trial: &mut Trial, alloc: Global, small: Small) {
    let session = Session::new(alloc, small, PlainDesk::new(alloc), 1);
    trial.is_true("it is ready", session.poll_ready() == Poll::Ready(Ok(())));
    trial.is_true("it goes on", session.exited().is_none());
    let (small, desk) = session.into_parts();
    drop(desk);
    trial.is_true("`wait` is found", small.table.find("wait").is_some());
    trial.is_true("`foo` isn't", small.table.find("foo").is_none());
    drop(small);
}

const MANY: i64 = 400_000;

// Whether each of so many ids is new, or live.
fn are_executed(live: &mut Pending, is_new: bool) -> bool {
    for n in 1..=MANY {
        if live.execute(Id::Number(n)) != Ok(is_new) {
            return false;
        }
    }
    true
}

fn are_in_order(ids: &[Id]) -> bool {
    for (id, n) in ids.iter().zip(1..=MANY) {
        if *id != Id::Number(n) {
            return false;
        }
    }
    ids.len() == MANY as usize
}

// So many live ids and waiting calls take about as long each as a few: a walk over all that is held
// at each of them would not end within a test's time.
#[test]
fn many_live(rt: HostRuntime) -> Result<(), RowError> {
    let mut trial = Trial::new(rt.alloc());
    let mut live = Pending::new(rt.alloc());
    trial.is_true("each is new", are_executed(&mut live, true));
    trial.is_true("each is live", are_executed(&mut live, false));
    trial.is_true("all in order", are_in_order(&live.cancel_all()));
    trial.end()
}

fn asks(alloc: Global, id: i64) -> Result<ClientCall, AllocError>
    ensures { IfOk result (λ call. call_has_float (show_client_call call) ≡ false) }
{
    let method = String::from_str(alloc, "m")?;
    Ok(ClientCall::Raw(Request::build(method).id(Id::Number(id)).finish()))
}

fn gives_ticket(desk: &mut PlainDesk, call: Result<ClientCall, AllocError>) -> bool
    requires { IfOk call (λ call. call_has_float (show_client_call call) ≡ false) }
{
    let Ok(call) = call else {
        return false;
    };
    let reply = desk.client(call);
    let is_ticket = matches!(&reply, Ok(ClientReply::Ticket(_, _)));
    drop(reply);
    is_ticket
}

fn ignores_answer(desk: &mut PlainDesk, id: i64) -> bool {
    let answer = Response::from_ok(Id::Number(id), Value::Null);
    let reply = desk.server(ServerCall::Answer(answer));
    let is_ignored = matches!(&reply, Ok(ServerReply::Ignored));
    drop(reply);
    is_ignored
}

#[test]
fn many_waiting(rt: HostRuntime) -> Result<(), RowError> {
    let alloc = rt.alloc();
    let mut trial = Trial::new(alloc);
    let mut desk = PlainDesk::new(alloc);
    for n in 1..=MANY {
        trial.is_true(n, gives_ticket(&mut desk, asks(alloc, n)));
    }
    for n in 1..=MANY {
        trial.is_true(n, ignores_answer(&mut desk, n.wrapping_add(MANY)));
    }
    drop(desk);
    trial.end()
}
