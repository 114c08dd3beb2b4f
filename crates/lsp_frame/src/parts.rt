// The parts of a message, from the tokens of its text.
ghost use Rattle.std.specs.Prelude.{◌≡◌, Some, IfOk, OnOk, codes, false};
ghost use Rattle.serde_json.specs.Data.{Members as DataMembers, no_members, put, object};
ghost use Rattle.serde_json.specs.View.{view};
ghost use Rattle.serde_json.specs.Written.{has_float};
ghost use Rattle.lsp_rpc.specs.Message.{error_of, clean_message};
ghost use Rattle.lsp_rpc.specs.Shown.{show_error, show_message};
ghost use Rattle.lsp_text.specs.Floats.{read_by};
ghost use Rattle.lsp_frame.specs.Parts.{AreParts};

use json::{Reader, Scratch, Token};
use lsp_rpc::{Error, Id, Message, Request, Response, read_error, read_id};
use lsp_text::{Floats, Unread, read_value};
use serde_json::Value;
use std::alloc::Global;

// How deep the values of a message may nest, which is one level less than its text.
const DEPTH: usize = 126;

// What a message is made of.
#[derive(Drop)]
pub struct Parts {
    pub has_version: bool,
    pub id: Option<Id>,
    pub method: Option<String>,
    pub params: Option<Value>,
    pub outcome: Option<Value>,
    pub error: Option<Error>,
}

// The error that the value is.
fn error_in(value: Value) -> Result<Error, Unread>
    ensures { IfOk result (λ error. error_of (view value) ≡ Some (show_error error)) }
{
    match read_error(value) {
        Some(error) => Ok(error),
        None => Err(Unread),
    }
}

impl Parts {
    // Keeps the error that the value is. A call of its own: few messages have one, and its room is
    // paid for at each entry to the function that it stands in.
    #[inline(never)]
    fn keep_error(&mut self, value: Value) -> Result<(), Unread>
        requires { has_float (view value) ≡ false }
        ensures { OnOk result ((ms : DataMembers) → AreParts self.old ms
            → AreParts self.new (put (codes "error") (view value) ms)) }
    {
        self.error = Some(error_in(value)?);
        Ok(())
    }
}

// Reads the parts of the object that the text is. The last value of a name counts, and that of a
// name that no part has is dropped.
pub(crate) fn read_parts(
    alloc: Global,
    floats: Floats,
    text: &str,
    scratch: &mut Scratch,
    parts: &mut Parts,
) -> Result<(), Unread>
    requires { AreParts parts.old no_members }
    ensures { OnOk result ((ms : DataMembers)
        × (read_by floats text.now ≡ Some (object ms)) × AreParts parts.new ms) }
{
    let mut reader = Reader::new(text, scratch)?;
    let token = reader.next().ok_or(Unread)?;
    match token {
        Token::BeginObject => {}
        _ => return Err(Unread),
    }
    'members: while let Some(name) = reader.next_key()? {
        match name {
            "jsonrpc" => match reader.next() {
                Some(Token::String("2.0")) => parts.has_version = true,
                _ => return Err(Unread),
            },
            "method" => match reader.next() {
                Some(Token::String(text)) => parts.method = Some(String::from_str(alloc, text)?),
                _ => return Err(Unread),
            },
            _ => {
                let value = read_value(alloc, &mut reader, floats, DEPTH)?;
                match name {
                    "id" => parts.id = Some(read_id(value).ok_or(Unread)?),
                    "params" => parts.params = Some(value),
                    "result" => parts.outcome = Some(value),
                    "error" => parts.keep_error(value)?,
                    _ => drop(value),
                }
            }
        }
    }
    if reader.next().is_some() {
        return Err(Unread);
    }
    Ok(())
}

// The message that the parts make.
pub(crate) fn message_of(parts: Parts) -> Result<Message, Unread>
    ensures value { IfOk result (λ m. (ms : DataMembers) → AreParts parts ms
        → clean_message (object ms) ≡ Some (show_message m)) }
{
    let Parts {
        has_version,
        id,
        method,
        params,
        outcome,
        error,
    } = parts;
    if !has_version {
        return Err(Unread);
    }
    match outcome {
        Some(value) => match id {
            Some(id) => Ok(Message::Response(Response::from_parts(id, Ok(value)))),
            None => Err(Unread),
        },
        None => match error {
            Some(error) => match id {
                Some(id) => Ok(Message::Response(Response::from_parts(id, Err(error)))),
                None => Err(Unread),
            },
            None => match method {
                Some(method) => Ok(Message::Request(Request::from_parts(method, id, params))),
                None => Err(Unread),
            },
        },
    }
}
