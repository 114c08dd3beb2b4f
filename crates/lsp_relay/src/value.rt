//! The JSON value of a message.
ghost use Rattle.std.specs.Prelude.{◌≡◌, IfOk, OnOk, option_map};
ghost use Rattle.serde_json.specs.Data.{put as with_member, string};
ghost use Rattle.serde_json.specs.View.{view, members_view};
ghost use Rattle.lsp_rpc.specs.Message.{response as response_data, request as request_data, id_data};
ghost use Rattle.lsp_rpc.specs.Shown.{show_id, show_error, show_body, show_request, show_response, show_message};
ghost use Rattle.lsp_relay.specs.Value.{version, put_body, put_some, error_value, message_value};

use lsp_rpc::{Error, Id, Message, NoMemory, Request, Response};
use serde_json::{Map, Value, put};
use std::alloc::Global;

type Members = Map<String, Value>;

fn put_text(alloc: Global, members: &mut Members, name: &str, text: &str) -> Result<(), NoMemory>
    ensures { OnOk result (members_view members.new.entries
        ≡ with_member name.now (string text.now) (members_view members.old.entries)) }
{
    let value = Value::String(String::from_str(alloc, text)?);
    put(members, alloc, name, value)?;
    Ok(())
}

fn put_value(
    alloc: Global,
    members: &mut Members,
    name: &str,
    value: Option<Value>,
) -> Result<(), NoMemory>
    ensures { OnOk result (members_view members.new.entries
        ≡ put_some name.now (option_map view value) (members_view members.old.entries)) }
{
    match value {
        Some(value) => Ok(put(members, alloc, name, value)?),
        None => Ok(()),
    }
}

fn id_value(id: Id) -> Value
    ensures { view result ≡ id_data (show_id id) }
{
    match id {
        Id::Number(n) => Value::from(n),
        Id::String(text) => Value::String(text),
        Id::Null => Value::Null,
    }
}

fn error_to_value(alloc: Global, error: Error) -> Result<Value, NoMemory>
    ensures { IfOk result (λ v. view v ≡ error_value (show_error error)) }
{
    let Error {
        code,
        message,
        payload,
    } = error;
    let mut members = Map::new(alloc);
    put_value(alloc, &mut members, "data", payload)?;
    put(&mut members, alloc, "message", Value::String(message))?;
    put(&mut members, alloc, "code", Value::from(code.code()))?;
    Ok(Value::Object(members))
}

fn put_outcome(
    alloc: Global,
    members: &mut Members,
    body: Result<Value, Error>,
) -> Result<(), NoMemory>
    ensures { OnOk result (members_view members.new.entries
        ≡ put_body (show_body body) (members_view members.old.entries)) }
{
    match body {
        Ok(value) => Ok(put(members, alloc, "result", value)?),
        Err(error) => {
            let value = error_to_value(alloc, error)?;
            Ok(put(members, alloc, "error", value)?)
        }
    }
}

// An object that says that it is JSON-RPC 2.0.
fn versioned(alloc: Global) -> Result<Members, NoMemory>
    ensures { IfOk result (λ members. members_view members.entries ≡ version) }
{
    let mut members = Map::new(alloc);
    put_text(alloc, &mut members, "jsonrpc", "2.0")?;
    Ok(members)
}

fn response_value(alloc: Global, response: Response) -> Result<Value, NoMemory>
    ensures { IfOk result (λ v. view v ≡ message_value (response_data (show_response response))) }
{
    let (id, body) = response.into_parts();
    let mut members = versioned(alloc)?;
    put(&mut members, alloc, "id", id_value(id))?;
    put_outcome(alloc, &mut members, body)?;
    Ok(Value::Object(members))
}

fn request_value(alloc: Global, request: Request) -> Result<Value, NoMemory>
    ensures { IfOk result (λ v. view v ≡ message_value (request_data (show_request request))) }
{
    let (method, id, params) = request.into_parts();
    let mut members = versioned(alloc)?;
    put(&mut members, alloc, "method", Value::String(method))?;
    put_value(alloc, &mut members, "id", id.map(id_value))?;
    put_value(alloc, &mut members, "params", params)?;
    Ok(Value::Object(members))
}

/// The JSON value of the message.
pub(crate) fn to_value(alloc: Global, message: Message) -> Result<Value, NoMemory>
    ensures { IfOk result (λ v. view v ≡ message_value (show_message message)) }
{
    match message {
        Message::Response(response) => response_value(alloc, response),
        Message::Request(request) => request_value(alloc, request),
    }
}
