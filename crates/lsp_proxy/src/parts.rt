//! The messages that a proxy makes, and what it reads of the ones that it is given.
ghost use Rattle.std.specs.Prelude.{◌≡◌, ◌<◌, [], ◌∷◌, Err, IfOk, IsOk, option_map};
ghost use Rattle.serde_json.specs.View.{view};
ghost use Rattle.lsp_rpc.specs.Message.{error_with_code};
ghost use Rattle.lsp_rpc.specs.Shown.{show_id, show_body, show_request, show_message};
ghost use Rattle.lsp_proxy.specs.Proxy.{response_to, bare, passed_as, shutdown_request, exit_note, cancel_note, drawn_of, cancel_passed, last_id, cancel_limit};
ghost use Rattle.lsp_proxy.specs.Sent.{all_sent};

use crate::side::Side;
use lsp_rpc::{Error, ErrorCode, Id, Message, NoMemory, Request, Response};
use serde_json::{Map, Value};
use std::alloc::Global;

/// Messages, each with the side that it goes to, in order.
pub type Sent = Vec<(Side, Message)>;

/// The first id that isn't drawn: the last integer that an id can be.
pub(crate) const LAST_ID: u64 = 9223372036854775807;

/// The first drawn id that a cancel can't name.
const CANCEL_LIMIT: u64 = 2147483648;

pub(crate) fn one(alloc: Global, side: Side, message: Message) -> Result<Sent, NoMemory>
    ensures { IfOk result (λ sent. all_sent sent.items ≡ (side, show_message message) ∷ []) }
{
    let mut sent = Vec::new(alloc);
    sent.push((side, message))?;
    Ok(sent)
}

pub(crate) fn response(id: Id, body: Result<Value, Error>) -> Message
    ensures { show_message result ≡ response_to (show_id id) (show_body body) }
{
    Message::Response(Response::from_parts(id, body))
}

/// The response that refuses the request of that id.
pub(crate) fn refusal(alloc: Global, id: Id, code: ErrorCode) -> Result<Message, NoMemory>
    ensures { IfOk result (λ m. show_message m ≡ response_to (show_id id) (Err (error_with_code code))) }
{
    Ok(response(id, Err(Error::new(alloc, code)?)))
}

/// The request without its id, and its id.
pub(crate) fn split(request: Request) -> (Request, Option<Id>)
    ensures request { show_request result.0 ≡ bare (show_request request) }
    ensures id { option_map show_id result.1 ≡ (show_request request).id }
{
    let (method, id, params) = request.into_parts();
    let builder = Request::build(method);
    let builder = match params {
        Some(params) => builder.params(params),
        None => builder,
    };
    (builder.finish(), id)
}

/// The request under a drawn id.
pub(crate) fn under_drawn(n: u64, request: Request) -> Message
    requires { n < last_id }
    ensures { show_message result ≡ passed_as n (show_request request) }
{
    let (method, _, params) = request.into_parts();
    let builder = Request::build(method).id(Id::Number(n as i64));
    let builder = match params {
        Some(params) => builder.params(params),
        None => builder,
    };
    Message::Request(builder.finish())
}

pub(crate) fn shutdown(alloc: Global, n: u64) -> Result<Message, NoMemory>
    requires { n < last_id }
    ensures { IfOk result (λ m. show_message m ≡ shutdown_request n) }
{
    let method = String::from_str(alloc, "shutdown")?;
    Ok(Message::Request(Request::build(method).id(Id::Number(n as i64)).finish()))
}

pub(crate) fn exit(alloc: Global) -> Result<Message, NoMemory>
    ensures { IfOk result (λ m. show_message m ≡ exit_note) }
{
    let method = String::from_str(alloc, "exit")?;
    Ok(Message::Request(Request::build(method).finish()))
}

fn cancel(alloc: Global, n: u64) -> Result<Message, NoMemory>
    ensures { IfOk result (λ m. show_message m ≡ cancel_note n) }
{
    let mut params = Map::new(alloc);
    params.insert(String::from_str(alloc, "id")?, Value::from(n))?;
    let method = String::from_str(alloc, "$/cancelRequest")?;
    let builder = Request::build(method).params(Value::Object(params));
    Ok(Message::Request(builder.finish()))
}

/// The cancel of the request that was passed on under this id, if there is one and a cancel can
/// name it.
pub(crate) fn cancels(alloc: Global, side: Side, place: Option<u64>) -> Result<Sent, NoMemory>
    ensures sent { IfOk result (λ sent. all_sent sent.items ≡ cancel_passed side place) }
    // A cancel that isn't sent takes no memory.
    ensures ready { cancel_passed side place ≡ [] → IsOk result }
{
    match place {
        Some(n) if n < CANCEL_LIMIT => one(alloc, side, cancel(alloc, n)?),
        _ => Ok(Vec::new(alloc)),
    }
}

/// The drawn id that a response answers.
pub(crate) fn answered_id(id: &Id) -> Option<u64>
    ensures { result ≡ drawn_of (show_id id.now) }
{
    match id {
        Id::Number(n) if *n >= 0 => Some(*n as u64),
        _ => None,
    }
}

/// An equal body of a response.
pub(crate) fn copy(
    alloc: Global,
    body: &Result<Value, Error>,
) -> Result<Result<Value, Error>, NoMemory>
    ensures { IfOk result (λ copy. show_body copy ≡ show_body body.now) }
{
    match body {
        Ok(value) => Ok(Ok(value.clone()?)),
        Err(error) => Ok(Err(error.clone(alloc)?)),
    }
}
