//! What comes as `proxy/in`, and what goes as `proxy/out`.
ghost use Rattle.std.specs.Prelude.{◌≡◌, ◌==◌, IfOk, option_map, option_and_then, codes};
ghost use Rattle.serde_json.specs.Events.{members_len};
ghost use Rattle.serde_json.specs.Find.{get_member};
ghost use Rattle.serde_json.specs.View.{view, members_view};
ghost use Rattle.lsp_rpc.specs.Message.{clean_message};
ghost use Rattle.lsp_rpc.specs.Shown.{show_request, show_message};
ghost use Rattle.lsp_relay.specs.Notes.{side_of, side_in, event_with, event_in_members, event_in, event_of_call, event_of_message, number_of_side, note_params, note_of};
ghost use Rattle.lsp_proxy.specs.Sent.{show_sent};

use crate::value::to_value;
use lsp_proxy::Side;
use lsp_rpc::{Message, NoMemory, Request, read_message};
use serde_json::{Map, Value, put};
use std::alloc::Global;

// The side of that number.
fn numbered(editors: u32, n: u64) -> Option<Side>
    ensures { result ≡ side_of editors n }
{
    if n == 0 {
        Some(Side::Server)
    } else if n - 1 < editors as u64 {
        Some(Side::Editor((n - 1) as u32))
    } else {
        None
    }
}

// The member of that name.
fn find<'m>(members: &'m Map<String, Value>, name: &str) -> Option<&'m Value>
    ensures { option_map (λ v. view v.now) result
        ≡ get_member name.now (members_view members.now.entries) }
{
    members.get(name)
}

fn side_value(editors: u32, value: &Value) -> Option<Side>
    ensures { result ≡ side_in editors (view value.now) }
{
    match value.as_u64() {
        Some(n) => numbered(editors, n),
        None => None,
    }
}

fn side_named(editors: u32, members: &Map<String, Value>) -> Option<Side>
    ensures { result ≡ option_and_then (side_in editors)
        (get_member (codes "side") (members_view members.now.entries)) }
{
    match find(members, "side") {
        Some(value) => side_value(editors, value),
        None => None,
    }
}

// Takes the member of that name out.
fn take(members: &mut Map<String, Value>, name: &str) -> Option<Value>
    ensures { option_map view result ≡ get_member name.now (members_view members.old.entries) }
{
    members.remove(name)
}

fn message_value(alloc: Global, value: Value) -> Option<Message>
    ensures { option_map show_message result ≡ clean_message (view value) }
{
    match read_message(alloc, value) {
        Ok(message) => Some(message),
        Err(_) => None,
    }
}

fn message_named(alloc: Global, mut members: Map<String, Value>) -> Option<Message>
    ensures { option_map show_message result ≡ option_and_then clean_message
        (get_member (codes "message") (members_view members.entries)) }
{
    match take(&mut members, "message") {
        Some(value) => message_value(alloc, value),
        None => None,
    }
}

fn are_two(members: &Map<String, Value>) -> bool
    ensures { result ≡ (members_len (members_view members.now.entries) == 2) }
{
    members.len() == 2
}

fn event_of_members(
    alloc: Global,
    editors: u32,
    members: Map<String, Value>,
) -> Option<(Side, Message)>
    ensures { option_map show_sent result
        ≡ event_in_members editors (members_view members.entries) }
{
    if !are_two(&members) {
        return None;
    }
    let side = side_named(editors, &members)?;
    let message = message_named(alloc, members)?;
    Some((side, message))
}

fn event_of_params(alloc: Global, editors: u32, params: Value) -> Option<(Side, Message)>
    ensures { option_map show_sent result ≡ event_in editors (view params) }
{
    match params {
        Value::Object(members) => event_of_members(alloc, editors, members),
        _ => None,
    }
}

fn event_of_request(alloc: Global, editors: u32, request: Request) -> Option<(Side, Message)>
    ensures { option_map show_sent result ≡ event_of_call editors (show_request request) }
{
    let (method, id, params) = request.into_parts();
    if method.as_str() != "proxy/in" || id.is_some() {
        return None;
    }
    event_of_params(alloc, editors, params?)
}

/// The message that a notification `proxy/in` tells, and the side that it comes from. Any other
/// message tells none.
pub(crate) fn event(alloc: Global, editors: u32, message: Message) -> Option<(Side, Message)>
    ensures { option_map show_sent result ≡ event_of_message editors (show_message message) }
{
    match message {
        Message::Request(request) => event_of_request(alloc, editors, request),
        Message::Response(_) => None,
    }
}

fn side_number(side: Side) -> u64
    ensures { result ≡ number_of_side side }
{
    match side {
        Side::Server => 0,
        Side::Editor(k) => k as u64 + 1,
    }
}

fn params_of(alloc: Global, side: Side, message: Message) -> Result<Value, NoMemory>
    ensures { IfOk result (λ v. view v ≡ note_params side (show_message message)) }
{
    let mut members = Map::new(alloc);
    put(&mut members, alloc, "side", Value::from(side_number(side)))?;
    let value = to_value(alloc, message)?;
    put(&mut members, alloc, "message", value)?;
    Ok(Value::Object(members))
}

/// The notification `proxy/out` of a message and the side that it goes to.
pub(crate) fn note(alloc: Global, side: Side, message: Message) -> Result<Message, NoMemory>
    ensures { IfOk result (λ n. show_message n ≡ note_of (side, show_message message)) }
{
    let params = params_of(alloc, side, message)?;
    let method = String::from_str(alloc, "proxy/out")?;
    Ok(Message::Request(Request::build(method).params(params).finish()))
}
