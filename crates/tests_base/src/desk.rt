//! Examples, and each public call once with ample memory.
ghost use Rattle.std.specs.Prelude.{◌≡◌, false, IfOk};
ghost use Rattle.lsp_desk.specs.Call.{call_has_float};
ghost use Rattle.lsp_desk.specs.Shown.{show_client_call, show_server_call};

use lsp_desk::{
    Caller, ClientCall, ClientReply, ClientSocket, Desk, ExitedError, Life, Loopback, PlainDesk,
    ServerCall, ServerReply,
};
use lsp_rows::{RowError, Trial};
use lsp_rpc::{Id, NoMemory, Request, Response};
use serde_json::Value;
use std::alloc::Global;
use std::fmt::Debug;

const TOLD: &str = "{\"jsonrpc\":\"2.0\",\"method\":\"m\",\"params\":null}";

const ASKED: &str = "{\"jsonrpc\":\"2.0\",\"method\":\"m\",\"params\":null,\"id\":1}";

/// A call of a server.
#[derive(Clone, Copy)]
pub(crate) enum Asked {
    Ask,
    GatedAsk,
    Tell,
    GatedTell,
    Raw(Option<i64>),
    Poll(u64),
    NextId,
}

/// A call of the session.
#[derive(Clone, Copy)]
pub(crate) enum Served {
    Look,
    Rise(Life),
    Fall,
    /// The answer to id 1 that has this text.
    Answer(&'static str),
    /// The answer that an editor writes so.
    Written(&'static str),
    Next,
    Take,
    Close,
}

fn shown<T: Debug>(alloc: Global, value: &T) -> Result<String, NoMemory> {
    Ok(format!(in alloc; "{value:?}")?)
}

// What a desk replies to a call of a server.
fn ask<D: Caller>(alloc: Global, desk: &mut D, call: ClientCall) -> Result<String, NoMemory>
    requires { call_has_float (show_client_call call) ≡ false }
{
    let reply = desk.client(call);
    let text = match &reply {
        Ok(ClientReply::Answer(response)) => response.to_text(alloc),
        other => shown(alloc, other),
    };
    drop(reply);
    text
}

// What a desk replies to a call of the session.
fn serve<D: Desk>(alloc: Global, desk: &mut D, call: ServerCall) -> Result<String, NoMemory>
    requires { call_has_float (show_server_call call) ≡ false }
{
    let reply = desk.server(call);
    let text = match &reply {
        Ok(ServerReply::First(Some(request))) => request.to_text(alloc),
        Ok(ServerReply::Messages(requests)) => shown(alloc, &requests.len()),
        other => shown(alloc, other),
    };
    drop(reply);
    text
}

fn asks(alloc: Global, gated: bool) -> Result<ClientCall, NoMemory>
    ensures { IfOk result (λ call. call_has_float (show_client_call call) ≡ false) }
{
    let method = String::from_str(alloc, "m")?;
    Ok(ClientCall::Ask {
        method,
        params: Value::Null,
        gated,
    })
}

fn tells(alloc: Global, gated: bool) -> Result<ClientCall, NoMemory>
    ensures { IfOk result (λ call. call_has_float (show_client_call call) ≡ false) }
{
    let method = String::from_str(alloc, "m")?;
    Ok(ClientCall::Tell {
        method,
        params: Value::Null,
        gated,
    })
}

fn raw(alloc: Global, id: Option<i64>) -> Result<ClientCall, NoMemory>
    ensures { IfOk result (λ call. call_has_float (show_client_call call) ≡ false) }
{
    let id = match id {
        Some(number) => Id::Number(number),
        None => Id::Null,
    };
    let method = String::from_str(alloc, "m")?;
    Ok(ClientCall::Raw(Request::build(method).id(id).finish()))
}

fn answer(alloc: Global, text: &str) -> Result<ServerCall, NoMemory>
    ensures { IfOk result (λ call. call_has_float (show_server_call call) ≡ false) }
{
    let text = String::from_str(alloc, text)?;
    Ok(ServerCall::Answer(Response::from_ok(Id::Number(1), Value::String(text))))
}

fn serve_written<D: Desk>(alloc: Global, desk: &mut D, text: &str) -> Result<String, NoMemory> {
    match Response::from_text(alloc, text) {
        Ok(response) => serve(alloc, desk, ServerCall::Answer(response)),
        Err(fault) => Ok(format!(in alloc; "{fault:?}")?),
    }
}

/// What a desk replies to that call of a server.
pub(crate) fn reply_asked<D: Caller>(
    alloc: Global,
    desk: &mut D,
    call: Asked,
) -> Result<String, NoMemory> {
    match call {
        Asked::Ask => ask(alloc, desk, asks(alloc, false)?),
        Asked::GatedAsk => ask(alloc, desk, asks(alloc, true)?),
        Asked::Tell => ask(alloc, desk, tells(alloc, false)?),
        Asked::GatedTell => ask(alloc, desk, tells(alloc, true)?),
        Asked::Raw(id) => ask(alloc, desk, raw(alloc, id)?),
        Asked::Poll(ticket) => ask(alloc, desk, ClientCall::Poll(ticket)),
        Asked::NextId => ask(alloc, desk, ClientCall::NextId),
    }
}

/// What a desk replies to that call of the session.
pub(crate) fn reply_served<D: Desk>(
    alloc: Global,
    desk: &mut D,
    call: Served,
) -> Result<String, NoMemory> {
    match call {
        Served::Look => serve(alloc, desk, ServerCall::Look),
        Served::Rise(life) => serve(alloc, desk, ServerCall::Rise(life)),
        Served::Fall => serve(alloc, desk, ServerCall::Fall),
        Served::Answer(text) => serve(alloc, desk, answer(alloc, text)?),
        Served::Written(text) => serve_written(alloc, desk, text),
        Served::Next => serve(alloc, desk, ServerCall::Next),
        Served::Take => serve(alloc, desk, ServerCall::Take),
        Served::Close => serve(alloc, desk, ServerCall::Close),
    }
}

#[derive(Clone, Copy)]
enum Call {
    Asked(Asked),
    Served(Served),
}

// Makes the calls in turn, each of which has the reply beside it.
fn try_calls<D: Desk>(trial: &mut Trial, alloc: Global, desk: &mut D, rows: &[(Call, &str)]) {
    for (at, (call, expected)) in rows.iter().enumerate() {
        let reply = match *call {
            Call::Asked(call) => reply_asked(alloc, desk, call),
            Call::Served(call) => reply_served(alloc, desk, call),
        };
        trial.text(format_args!("row {at}"), reply, *expected);
    }
}

const ANSWERS_IN_ORDER: &[(Call, &str)] = &[
    (Call::Asked(Asked::Raw(Some(1))), "Ok(Ticket(0, Number(1)))"),
    (Call::Asked(Asked::Raw(Some(1))), "Ok(Ticket(1, Number(1)))"),
    (Call::Served(Served::Answer("bar")), "Ok(Given)"),
    (Call::Served(Served::Answer("foo")), "Ok(Given)"),
    (Call::Served(Served::Answer("x")), "Ok(Ignored)"),
    (
        Call::Asked(Asked::Poll(0)),
        "{\"jsonrpc\":\"2.0\",\"result\":\"bar\",\"id\":1}",
    ),
    (
        Call::Asked(Asked::Poll(1)),
        "{\"jsonrpc\":\"2.0\",\"result\":\"foo\",\"id\":1}",
    ),
    (Call::Asked(Asked::Poll(1)), "Ok(Gone)"),
];

#[test]
fn answers_in_order(rt: HostRuntime) -> Result<(), RowError> {
    let alloc = rt.alloc();
    let mut trial = Trial::new(alloc);
    let mut desk = PlainDesk::new(alloc);
    try_calls(&mut trial, alloc, &mut desk, ANSWERS_IN_ORDER);
    trial.end()
}

const ANSWERS_THAT_NOBODY_AWAITS: &[(Call, &str)] = &[
    (Call::Asked(Asked::Raw(None)), "Ok(Ticket(0, Null))"),
    (Call::Asked(Asked::Raw(Some(1))), "Ok(Ticket(1, Number(1)))"),
    (
        Call::Served(Served::Written(
            "{\"jsonrpc\":\"2.0\",\"error\":{\"code\":-32700,\"message\":\"x\"},\"id\":null}",
        )),
        "Ok(Ignored)",
    ),
    (
        Call::Served(Served::Written("{\"jsonrpc\":\"2.0\",\"result\":1,\"id\":null}")),
        "Ok(Ignored)",
    ),
    (
        Call::Served(Served::Written("{\"jsonrpc\":\"2.0\",\"result\":1,\"id\":\"1\"}")),
        "Ok(Ignored)",
    ),
    (
        Call::Served(Served::Written("{\"jsonrpc\":\"2.0\",\"result\":1,\"id\":0}")),
        "Ok(Ignored)",
    ),
    (
        Call::Served(Served::Written("{\"jsonrpc\":\"2.0\",\"result\":1,\"id\":1}")),
        "Ok(Given)",
    ),
    (Call::Asked(Asked::Poll(0)), "Ok(Awaited)"),
];

#[test]
fn answers_that_nobody_awaits(rt: HostRuntime) -> Result<(), RowError> {
    let alloc = rt.alloc();
    let mut trial = Trial::new(alloc);
    let mut desk = PlainDesk::new(alloc);
    try_calls(&mut trial, alloc, &mut desk, ANSWERS_THAT_NOBODY_AWAITS);
    trial.end()
}

const GATE_AND_LIVES: &[(Call, &str)] = &[
    (Call::Asked(Asked::GatedAsk), "Ok(NotInitialized)"),
    (Call::Asked(Asked::GatedTell), "Ok(Suppressed)"),
    (Call::Asked(Asked::Tell), "Ok(Sent)"),
    (Call::Served(Served::Rise(Life::Initializing)), "Ok(Done)"),
    (Call::Served(Served::Look), "Ok(Life(Initializing))"),
    (Call::Asked(Asked::GatedAsk), "Ok(NotInitialized)"),
    (Call::Served(Served::Fall), "Ok(Done)"),
    (Call::Served(Served::Look), "Ok(Life(Uninitialized))"),
    (Call::Asked(Asked::GatedAsk), "Ok(NotInitialized)"),
    (Call::Served(Served::Rise(Life::Initialized)), "Ok(Done)"),
    (Call::Served(Served::Look), "Ok(Life(Initialized))"),
    (Call::Asked(Asked::GatedAsk), "Ok(Ticket(0, Number(0)))"),
    (Call::Served(Served::Fall), "Ok(Done)"),
    (Call::Served(Served::Look), "Ok(Life(Initialized))"),
    (Call::Asked(Asked::GatedAsk), "Ok(Ticket(1, Number(1)))"),
];

#[test]
fn gate_and_lives(rt: HostRuntime) -> Result<(), RowError> {
    let alloc = rt.alloc();
    let mut trial = Trial::new(alloc);
    let mut desk = ClientSocket::new(PlainDesk::new(alloc)).into_desk();
    try_calls(&mut trial, alloc, &mut desk, GATE_AND_LIVES);
    trial.end()
}

const MESSAGES_AND_END: &[(Call, &str)] = &[
    (Call::Asked(Asked::Tell), "Ok(Sent)"),
    (Call::Asked(Asked::NextId), "Ok(Number(0))"),
    (Call::Asked(Asked::Ask), "Ok(Ticket(0, Number(1)))"),
    (Call::Asked(Asked::Poll(0)), "Ok(Awaited)"),
    (Call::Asked(Asked::Poll(7)), "Ok(Gone)"),
    (
        Call::Served(Served::Next),
        "{\"jsonrpc\":\"2.0\",\"method\":\"m\",\"params\":null}",
    ),
    (Call::Asked(Asked::Tell), "Ok(Sent)"),
    (
        Call::Served(Served::Next),
        "{\"jsonrpc\":\"2.0\",\"method\":\"m\",\"params\":null,\"id\":1}",
    ),
    (Call::Served(Served::Take), "1"),
    (Call::Served(Served::Next), "Ok(First(None))"),
    (Call::Asked(Asked::Tell), "Ok(Sent)"),
    (Call::Served(Served::Close), "1"),
    (Call::Asked(Asked::Ask), "Ok(Exited)"),
    (Call::Asked(Asked::GatedAsk), "Ok(NotInitialized)"),
    (Call::Asked(Asked::Raw(Some(1))), "Ok(Exited)"),
];

#[test]
fn messages_and_end(rt: HostRuntime) -> Result<(), RowError> {
    let alloc = rt.alloc();
    let mut trial = Trial::new(alloc);
    let mut desk = PlainDesk::new(alloc);
    try_calls(&mut trial, alloc, &mut desk, MESSAGES_AND_END);
    trial.text(
        "the error",
        format!(in alloc; "{ExitedError}"),
        "language server has exited",
    );
    trial.end()
}
