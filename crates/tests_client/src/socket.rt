//! The polls of a socket.
ghost use Rattle.std.specs.Prelude.{◌≡◌, false, IfOk};
ghost use Rattle.lsp_desk.specs.Socket.{show_next, next_has_float};

use crate::asked::told;
use lsp_client::Client;
use lsp_desk::{ClientSocket, Desk, DeskFault, Life, PlainDesk, Poll, ServerCall};
use lsp_kinds::MessageType;
use lsp_rows::{RowError, Trial};
use lsp_rpc::{Id, NoMemory, Request, Response};
use serde_json::Value;
use std::alloc::Global;

// The message that a poll gave.
fn next(alloc: Global, found: Result<Poll<Option<Request>>, DeskFault>) -> Result<String, NoMemory>
    requires { IfOk found (λ next. next_has_float (show_next next) ≡ false) }
{
    let text = next_text(alloc, &found);
    drop(found);
    text
}

fn next_text(
    alloc: Global,
    found: &Result<Poll<Option<Request>>, DeskFault>,
) -> Result<String, NoMemory>
    requires { IfOk found.now (λ next. next_has_float (show_next next) ≡ false) }
{
    match found {
        Ok(Poll::Ready(Some(request))) => request.to_text(alloc),
        other => Ok(format!(in alloc; "{other:?}")?),
    }
}

fn raised(alloc: Global, life: Life) -> PlainDesk {
    let mut desk = PlainDesk::new(alloc);
    let _ = desk.server(ServerCall::Rise(life));
    desk
}

const SHOWN: &str =
    "{\"jsonrpc\":\"2.0\",\"method\":\"window/showMessage\",\"params\":{\"message\":\"foo bar\",\"type\":4}}";

#[test]
fn messages_and_answers(rt: HostRuntime) -> Result<(), RowError> {
    let alloc = rt.alloc();
    let mut trial = Trial::new(alloc);
    let mut desk = raised(alloc, Life::Initialized);
    let sent = desk.show_message(alloc, MessageType::LOG, "foo bar");
    trial.text("a message", told(alloc, sent), "Sent");
    let mut socket = ClientSocket::new(desk);
    trial.text("the first poll", next(alloc, socket.poll_next()), SHOWN);
    trial.text(
        "the second poll",
        next(alloc, socket.poll_next()),
        "Ok(Pending)",
    );
    let answer = Response::from_ok(Id::Number(9), Value::Null);
    trial.shows("an answer", socket.start_send(answer), "Ok(Ignored)");
    trial.end()
}

#[test]
fn halves(rt: HostRuntime) -> Result<(), RowError> {
    let alloc = rt.alloc();
    let mut trial = Trial::new(alloc);
    let mut socket = ClientSocket::new(raised(alloc, Life::Exited));
    trial.text(
        "the end",
        next(alloc, socket.requests().poll_next()),
        "Ok(Ready(None))",
    );
    trial.shows(
        "after the end",
        socket.responses().poll_ready(),
        "Err(Exited(ExitedError))",
    );
    let answer = Response::from_ok(Id::Number(9), Value::Null);
    trial.shows(
        "an answer",
        socket.responses().start_send(answer),
        "Ok(Ignored)",
    );
    trial.end()
}
