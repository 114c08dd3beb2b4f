//! From a JSON value to a message.
ghost use Rattle.std.specs.Prelude.{◌≡◌, ◌≢◌, ◌⊎◌, List, ℕ, option_map, option_and_then, string_bytes, codes, Some, None, false, IfOk, IsErrOf};
ghost use Rattle.serde_json.specs.Data.{object};
ghost use Rattle.serde_json.specs.Errors.{IsMemory};
ghost use Rattle.serde_json.specs.Find.{get_member, as_i64, as_number, as_str};
ghost use Rattle.serde_json.specs.Read.{read};
ghost use Rattle.serde_json.specs.View.{view};
ghost use Rattle.lsp_rpc.specs.Faults.{text_of_not_message, text_of_text_fault};
ghost use Rattle.lsp_rpc.specs.Message.{is_text, is_error_name, has_error_names, id_of, unless_null, error_of, body_with, method_of, has_version, request_id_of, request_with, plain_request, plain_response, response, request, message, clean_message, message_has_float};
ghost use Rattle.lsp_rpc.specs.Pieces.{members_shown, SameOthers};
ghost use Rattle.lsp_rpc.specs.Shown.{show_id, show_error, show_body, show_request, show_response, show_message};
ghost use Rattle.lsp_rpc.specs.declared.read.TextFault.TheVariants as TextFaults;

use crate::code::ErrorCode;
use crate::error::Error;
use crate::id::Id;
use crate::members::Members;
use crate::message::Message;
use crate::request::Request;
use crate::response::Response;
use crate::value::is_float_free;
use serde_json::{Map, Value};
use std::alloc::Global;
use std::fmt;

/// Why a value gives no message.
#[derive(Clone, Copy, Debug, PartialEq, Eq)]
pub enum NotMessage {
    /// It is not a message, or it holds a float.
    NotMessage,
    /// Out of memory.
    NoMemory,
}

/// Why a text gives no request or no response.
#[derive(Clone, Copy, Debug, PartialEq, Eq)]
pub enum TextFault {
    /// The text is not a JSON value.
    Json,
    /// The value isn't of that form, or it holds a float.
    Message,
    /// Out of memory.
    NoMemory,
}

fn is_error_name_text(name: &str) -> bool
    ensures { result ≡ is_error_name name.now }
{
    name == "code" || name == "message" || name == "data"
}

fn has_no_other(members: &Map<String, Value>) -> bool
    ensures { result ≡ has_error_names (members_shown members.now) }
{
    for (name, _) in members.iter() {
        if !is_error_name_text(name.as_str()) {
            return false;
        }
    }
    true
}

// Takes the member of that name out, and leaves the others.
fn take_member(members: &mut Map<String, Value>, name: &str) -> Option<Value>
    ensures value { option_map view result ≡ get_member name.now (members_shown members.old) }
    ensures others { SameOthers name.now members.old members.new }
{
    members.remove(name)
}

fn is_value_text(value: &Option<Value>, text: &str) -> bool
    ensures { result ≡ is_text text.now (option_map view value.now) }
{
    match value {
        Some(Value::String(found)) => found.as_str() == text,
        _ => false,
    }
}

/// The id that the value is: an integer of 64 bits, a string or null.
pub fn read_id(value: Value) -> Option<Id>
    ensures { option_map show_id result ≡ id_of (view value) }
{
    match value {
        Value::Null => Some(Id::Null),
        Value::Number(number) => number.as_i64().map(Id::Number),
        Value::String(text) => Some(Id::String(text)),
        _ => None,
    }
}

fn non_null(value: Option<Value>) -> Option<Value>
    ensures { option_map view result ≡ unless_null (option_map view value) }
{
    match value {
        Some(Value::Null) => None,
        _ => value,
    }
}

fn value_i64(value: &Option<Value>) -> Option<i64>
    ensures { result ≡ option_and_then as_i64
        (option_and_then as_number (option_map view value.now)) }
{
    match value {
        Some(found) => found.as_i64(),
        None => None,
    }
}

fn value_string(value: Option<Value>) -> Option<String>
    ensures { option_map string_bytes result ≡ option_and_then as_str (option_map view value) }
{
    match value {
        Some(Value::String(text)) => Some(text),
        _ => None,
    }
}

/// The error that the value is: an object with a code and a message, perhaps with data, and with
/// no other member.
pub fn read_error(value: Value) -> Option<Error>
    ensures { option_map show_error result ≡ error_of (view value) }
{
    let Value::Object(mut members) = value else {
        return None;
    };
    if !has_no_other(&members) {
        return None;
    }
    let code = value_i64(&take_member(&mut members, "code"))?;
    let message = value_string(take_member(&mut members, "message"))?;
    let payload = non_null(take_member(&mut members, "data"));
    Some(Error {
        code: ErrorCode::from(code),
        message,
        payload,
    })
}

// The result or the error of a response.
fn read_body(value: Option<Value>, error: Option<Value>) -> Option<Result<Value, Error>>
    ensures { option_map show_body result
        ≡ body_with (option_map view value) (option_map view error) }
{
    match (value, error) {
        (Some(value), _) => Some(Ok(value)),
        (None, Some(error)) => read_error(error).map(Err),
        (None, None) => None,
    }
}

// The method of a request; an absent one is the empty string.
fn read_method(alloc: Global, method: Option<Value>) -> Option<String>
    ensures { option_map string_bytes result ≡ method_of (option_map view method) }
{
    match method {
        None => Some(String::new(alloc)),
        Some(Value::String(text)) => Some(text),
        Some(_) => None,
    }
}

// The id of a request, if it is there; one of another kind is refused.
fn read_request_id(id: Option<Value>) -> Option<Option<Id>>
    ensures { option_map (option_map show_id) result ≡ request_id_of (option_map view id) }
{
    match id {
        None => Some(None),
        Some(value) => read_id(value).map(Some),
    }
}

// The request with that id.
fn request_with(
    alloc: Global,
    method: Option<Value>,
    params: Option<Value>,
    id: Option<Id>,
) -> Option<Request>
    ensures { option_map (λ r. request (show_request r)) result ≡ request_with
        (method_of (option_map view method)) (option_map view params)
        (Some (option_map show_id id)) }
{
    let method = read_method(alloc, method)?;
    Some(Request { method, params, id })
}

// The request that an object is.
fn request_in(alloc: Global, members: Map<String, Value>) -> Option<Request>
    ensures { option_map (λ r. request (show_request r)) result
        ≡ plain_request (object (members_shown members)) }
{
    let Members {
        jsonrpc,
        id,
        method,
        params,
        ..
    } = Members::of(members);
    if !is_value_text(&jsonrpc, "2.0") {
        return None;
    }
    let id = read_request_id(id)?;
    request_with(alloc, method, params, id)
}

// The response that an object is.
fn response_in(members: Map<String, Value>) -> Option<Response>
    ensures { option_map (λ r. response (show_response r)) result
        ≡ plain_response (object (members_shown members)) }
{
    let Members {
        jsonrpc,
        id,
        result: value,
        error,
        ..
    } = Members::of(members);
    if !is_value_text(&jsonrpc, "2.0") {
        return None;
    }
    let id = read_request_id(id)??;
    let body = read_body(value, error)?;
    Some(Response { id, body })
}

// The message that an object is.
fn message_in(alloc: Global, members: Map<String, Value>) -> Option<Message>
    ensures { option_map show_message result ≡ message (object (members_shown members)) }
{
    let Members {
        jsonrpc,
        id,
        method,
        params,
        result: value,
        error,
    } = Members::of(members);
    if !is_value_text(&jsonrpc, "2.0") {
        return None;
    }
    match read_request_id(id)? {
        None => request_with(alloc, method, params, None).map(Message::Request),
        Some(id) => match read_body(value, error) {
            Some(body) => Some(Message::Response(Response { id, body })),
            None => request_with(alloc, method, params, Some(id)).map(Message::Request),
        },
    }
}

fn value_message(alloc: Global, value: Value) -> Option<Message>
    ensures { option_map show_message result ≡ message (view value) }
{
    match value {
        Value::Object(members) => message_in(alloc, members),
        _ => None,
    }
}

// The request that the value is, tried as a request alone.
pub(crate) fn value_request(alloc: Global, value: Value) -> Option<Request>
    ensures { option_map (λ r. request (show_request r)) result ≡ plain_request (view value) }
{
    match value {
        Value::Object(members) => request_in(alloc, members),
        _ => None,
    }
}

// The response that the value is, tried as a response alone.
pub(crate) fn value_response(value: Value) -> Option<Response>
    ensures { option_map (λ r. response (show_response r)) result ≡ plain_response (view value) }
{
    match value {
        Value::Object(members) => response_in(members),
        _ => None,
    }
}

/// The message that the value is. It is first tried as a response, and then as a request (JSON-RPC
/// 2.0, sections 5 "Response object" and 4 "Request object"). A value that holds a float anywhere
/// is no message. It takes no memory.
pub fn read_message(alloc: Global, value: Value) -> Result<Message, NotMessage>
    ensures found { IfOk result (λ m. clean_message (view value) ≡ Some (show_message m)) }
    ensures none { IsErrOf result NotMessage.NotMessage → clean_message (view value) ≡ None }
    ensures refused { clean_message (view value) ≡ None → IsErrOf result NotMessage.NotMessage }
    ensures memory { ¬ IsErrOf result NotMessage.NoMemory }
    ensures clean { IfOk result (λ m. message_has_float (show_message m) ≡ false) }
{
    if !is_float_free(&value) {
        return Err(NotMessage::NotMessage);
    }
    match value_message(alloc, value) {
        Some(message) => Ok(message),
        None => Err(NotMessage::NotMessage),
    }
}

// The value that the text is.
pub(crate) fn parse_text(alloc: Global, text: &str) -> Result<Value, TextFault>
    ensures ok { IfOk result (λ v. read text.now ≡ Some (view v)) }
    ensures json { IsErrOf result TextFault.Json → read text.now ≡ None }
    ensures message { ¬ IsErrOf result TextFault.Message }
{
    Ok(Value::from_str(alloc, text)?)
}

impl fmt::Display for NotMessage {
    ghost output = { λ e. Some (text_of_not_message e) };

    fn fmt<W: fmt::Write>(&self, f: &mut fmt::Formatter<W>) -> fmt::Result {
        f.write_str(match self {
            NotMessage::NotMessage => "not a message",
            NotMessage::NoMemory => "out of memory",
        })
    }
}

impl std::error::Error for NotMessage {}

impl fmt::Display for TextFault {
    ghost output = { λ e. Some (text_of_text_fault e) };

    fn fmt<W: fmt::Write>(&self, f: &mut fmt::Formatter<W>) -> fmt::Result {
        f.write_str(match self {
            TextFault::Json => "not JSON",
            TextFault::Message => "not a message of this form",
            TextFault::NoMemory => "out of memory",
        })
    }
}

impl std::error::Error for TextFault {}

impl From<serde_json::Error> for TextFault {
    ghost from_gives = { λ e fault. ((fault ≡ TextFaults.NoMemory) × IsMemory e)
        ⊎ ((fault ≡ TextFaults.Json) × ¬ IsMemory e) };

    fn from(e: serde_json::Error) -> TextFault {
        if e.is_memory() {
            TextFault::NoMemory
        } else {
            TextFault::Json
        }
    }
}
