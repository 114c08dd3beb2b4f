// What a body tells.
ghost use Rattle.std.specs.Prelude.{◌≡◌, Ok, IfErr, IfOk, IsErr, IsOk, OnErr, None, Some, option_map, true};
ghost use Rattle.std.specs.Str.{is_utf8};
ghost use Rattle.serde_json.specs.Errors.{IsMemory};
ghost use Rattle.serde_json.specs.Read.{read};
ghost use Rattle.serde_json.specs.View.{view};
ghost use Rattle.lsp_text.specs.Floats.{read_by};
ghost use Rattle.lsp_frame.specs.Transitions.{body_item_by, of_value};
ghost use Rattle.lsp_frame.specs.Shown.{show_found, IsFoundFloatFree};

use crate::message_reader::MessageReader;
use crate::parse_error::{BodyFault, ParseError};
use lsp_rpc::{Message, NotMessage, read_message};
use lsp_text::{Floats, Unread, read_whole};
use no_memory::NoMemory;
use serde_json::Value;
use std::alloc::Global;

// The value that was read, if the text was JSON.
fn unless_memory(answer: Result<Value, serde_json::Error>) -> Result<Option<Value>, NoMemory>
    ensures ok { IfOk answer (λ v. result ≡ Ok (Some v)) }
    ensures json { IfErr answer (λ e. ¬ IsMemory e → result ≡ Ok None) }
    ensures memory { IfErr answer (λ e. IsMemory e → IsErr result) }
{
    match answer {
        Ok(value) => Ok(Some(value)),
        Err(e) => if e.is_memory() {
            Err(NoMemory)
        } else {
            Ok(None)
        },
    }
}

// The value of a text, if it is JSON. A call of its own: the buffer of its reader is large, and is
// paid for at each entry to the function that it stands in.
#[inline(never)]
fn parsed(alloc: Global, text: &str) -> Result<Option<Value>, NoMemory>
    ensures { IfOk result (λ v. option_map view v ≡ read text.now) }
{
    unless_memory(Value::from_str(alloc, text))
}

// No value, where there is none. A text that wasn't read and is JSON wanted memory.
fn unless_json(found: Option<Value>) -> Result<Option<Value>, NoMemory>
    ensures none { found ≡ None → result ≡ Ok None }
    ensures ok { IfOk result (λ v. (v ≡ None) × (found ≡ None)) }
{
    match found {
        Some(_) => Err(NoMemory),
        None => Ok(None),
    }
}

// The value of a text, made free of floats, if it is JSON.
fn settled(alloc: Global, text: &str) -> Result<Option<Value>, NoMemory>
    ensures { IfOk result (λ v. option_map view v ≡ read_by Floats.Read text.now) }
{
    match read_whole(alloc, Floats::Read, text) {
        Ok(value) => Ok(Some(value)),
        Err(Unread) => unless_json(parsed(alloc, text)?),
    }
}

// The message that a text's value is, or why there is none. It takes no memory.
fn value_message(
    alloc: Global,
    found: Option<Value>,
) -> Result<Result<Message, ParseError>, NoMemory>
    ensures value { IfOk result (λ f. show_found f ≡ of_value (option_map view found)) }
    ensures floats { IfOk result (λ f. IsFoundFloatFree (Some f)) }
    ensures memory { IsOk result }
{
    let Some(value) = found else {
        return Ok(Err(ParseError::Body(BodyFault::Json)));
    };
    match read_message(alloc, value) {
        Ok(message) => Ok(Ok(message)),
        Err(NotMessage::NotMessage) => Ok(Err(ParseError::Body(BodyFault::Message))),
        Err(NotMessage::NoMemory) => Err(NoMemory),
    }
}

// The message of a text by way of its value, or why there is none.
pub(crate) fn text_message(
    alloc: Global,
    floats: Floats,
    text: &str,
) -> Result<Result<Message, ParseError>, NoMemory>
    ensures value { IfOk result (λ f. show_found f ≡ of_value (read_by floats text.now)) }
    ensures floats { IfOk result (λ f. IsFoundFloatFree (Some f)) }
{
    let found = match floats {
        Floats::Refused => parsed(alloc, text)?,
        Floats::Read => settled(alloc, text)?,
    };
    value_message(alloc, found)
}

// The message of a body, or why there is none. A call of its own, so that the transitions of heads
// aren't made to carry what it holds.
#[inline(never)]
pub(crate) fn body_message(
    alloc: Global,
    reader: &mut MessageReader,
    floats: Floats,
    body: &[u8],
) -> Result<Result<Message, ParseError>, NoMemory>
    ensures value { IfOk result (λ f. show_found f ≡ body_item_by floats body.now) }
    ensures floats { IfOk result (λ f. IsFoundFloatFree (Some f)) }
    // Memory is taken for a text alone.
    ensures utf8 { OnErr result (is_utf8 body.now ≡ true) }
{
    let Ok(text) = str::from_utf8(body) else {
        return Ok(Err(ParseError::Utf8));
    };
    match reader.read_by(alloc, floats, text) {
        Ok(message) => Ok(Ok(message)),
        Err(Unread) => text_message(alloc, floats, text),
    }
}
