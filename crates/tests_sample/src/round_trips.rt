// Messages of every kind, encoded and decoded.
ghost use Rattle.std.specs.Prelude.{◌≡◌, IfOk, false};
ghost use Rattle.lsp_frame.specs.Shown.{DecodedIsFloatFree};
ghost use Rattle.lsp_rpc.specs.Message.{message_has_float};
ghost use Rattle.lsp_rpc.specs.Shown.{show_message};

use crate::frames::nested;
use bytes::BytesMut;
use lsp_frame::{Decoded, LanguageServerCodec};
use lsp_rows::{RowError, Trial};
use lsp_rpc::{Message, read_message};
use no_memory::NoMemory;
use serde_json::Value;
use std::alloc::Global;

/// Texts of messages, as they are written.
const TEXTS: &[&str] = &[
    "{\"jsonrpc\":\"2.0\",\"method\":\"exit\"}",
    "{\"jsonrpc\":\"2.0\",\"method\":\"a\",\"id\":0}",
    "{\"jsonrpc\":\"2.0\",\"method\":\"a\",\"id\":-1}",
    "{\"jsonrpc\":\"2.0\",\"method\":\"a\",\"id\":9223372036854775807}",
    "{\"jsonrpc\":\"2.0\",\"method\":\"a\",\"id\":-9223372036854775808}",
    "{\"jsonrpc\":\"2.0\",\"method\":\"a\",\"id\":\"\"}",
    "{\"jsonrpc\":\"2.0\",\"method\":\"a\",\"id\":\"b\"}",
    "{\"jsonrpc\":\"2.0\",\"method\":\"a\",\"id\":\"é\"}",
    "{\"jsonrpc\":\"2.0\",\"method\":\"a\",\"id\":\"\\\"\\\\\"}",
    "{\"jsonrpc\":\"2.0\",\"method\":\"a\",\"id\":null}",
    "{\"jsonrpc\":\"2.0\",\"method\":\"\"}",
    "{\"jsonrpc\":\"2.0\",\"method\":\"é\"}",
    "{\"jsonrpc\":\"2.0\",\"method\":\"a\\nb\"}",
    "{\"jsonrpc\":\"2.0\",\"method\":\"a\",\"params\":null}",
    "{\"jsonrpc\":\"2.0\",\"method\":\"a\",\"params\":true}",
    "{\"jsonrpc\":\"2.0\",\"method\":\"a\",\"params\":false}",
    "{\"jsonrpc\":\"2.0\",\"method\":\"a\",\"params\":0}",
    "{\"jsonrpc\":\"2.0\",\"method\":\"a\",\"params\":18446744073709551615}",
    "{\"jsonrpc\":\"2.0\",\"method\":\"a\",\"params\":-9223372036854775808}",
    "{\"jsonrpc\":\"2.0\",\"method\":\"a\",\"params\":\"\"}",
    "{\"jsonrpc\":\"2.0\",\"method\":\"a\",\"params\":\"ü€😀\"}",
    "{\"jsonrpc\":\"2.0\",\"method\":\"a\",\"params\":\"\\\"\\\\\\b\\f\\n\\r\\t\\u0001/\"}",
    "{\"jsonrpc\":\"2.0\",\"method\":\"a\",\"params\":[]}",
    "{\"jsonrpc\":\"2.0\",\"method\":\"a\",\"params\":[1,[2,[]],{}]}",
    "{\"jsonrpc\":\"2.0\",\"method\":\"a\",\"params\":{}}",
    "{\"jsonrpc\":\"2.0\",\"method\":\"a\",\"params\":{\"a\":{\"b\":[null]},\"é\":\"x\"},\"id\":1}",
    "{\"jsonrpc\":\"2.0\",\"result\":null,\"id\":1}",
    "{\"jsonrpc\":\"2.0\",\"result\":true,\"id\":\"x\"}",
    "{\"jsonrpc\":\"2.0\",\"result\":0,\"id\":null}",
    "{\"jsonrpc\":\"2.0\",\"result\":-5,\"id\":-5}",
    "{\"jsonrpc\":\"2.0\",\"result\":\"text\",\"id\":2}",
    "{\"jsonrpc\":\"2.0\",\"result\":[],\"id\":3}",
    "{\"jsonrpc\":\"2.0\",\"result\":[{\"a\":1},null],\"id\":4}",
    "{\"jsonrpc\":\"2.0\",\"result\":{\"capabilities\":{}},\"id\":5}",
    "{\"jsonrpc\":\"2.0\",\"result\":\"\\u0000\",\"id\":6}",
    "{\"jsonrpc\":\"2.0\",\"error\":{\"code\":-32700,\"message\":\"Parse error\"},\"id\":null}",
    "{\"jsonrpc\":\"2.0\",\"error\":{\"code\":-32601,\"message\":\"Method not found\",\"data\":\"foo\"},\"id\":0}",
    "{\"jsonrpc\":\"2.0\",\"error\":{\"code\":-32002,\"message\":\"Server not initialized\"},\"id\":1}",
    "{\"jsonrpc\":\"2.0\",\"error\":{\"code\":0,\"message\":\"\",\"data\":false},\"id\":\"x\"}",
    "{\"jsonrpc\":\"2.0\",\"error\":{\"code\":9223372036854775807,\"message\":\"a\\\"b\",\"data\":[1,2]},\"id\":7}",
    "{\"jsonrpc\":\"2.0\",\"error\":{\"code\":-32800,\"message\":\"Canceled\",\"data\":{\"a\":null}},\"id\":3}",
];

// The message of that text. What is none counts as want of memory, which no row expects.
fn message(alloc: Global, text: &str) -> Result<Message, NoMemory>
    ensures { IfOk result (λ m. message_has_float (show_message m) ≡ false) }
{
    let Ok(value) = Value::from_str(alloc, text) else {
        return Err(NoMemory);
    };
    match read_message(alloc, value) {
        Ok(message) => Ok(message),
        Err(_) => Err(NoMemory),
    }
}

// The frame of the message of this text.
fn encoded(
    alloc: Global,
    codec: &mut LanguageServerCodec,
    text: &str,
) -> Result<BytesMut, NoMemory> {
    let message = message(alloc, text)?;
    let mut frame = BytesMut::new(alloc);
    let encoded = codec.encode(&message, &mut frame);
    drop(message);
    encoded?;
    Ok(frame)
}

fn text_of(alloc: Global, item: &Decoded) -> Result<String, NoMemory>
    requires { DecodedIsFloatFree item.now }
{
    match item {
        Decoded::Item(message) => message.to_text(alloc),
        Decoded::Fault(_) => Ok(String::from_str(alloc, "a fault")?),
        Decoded::More => Ok(String::from_str(alloc, "no more")?),
    }
}

// The text of the message that is decoded next.
fn decoded(alloc: Global, codec: &mut LanguageServerCodec) -> Result<String, NoMemory> {
    let item = codec.decode()?;
    let text = text_of(alloc, &item);
    drop(item);
    text
}

// The message of this text is encoded as the frame of the text, which decodes to the message alone.
fn try_text(trial: &mut Trial, alloc: Global, text: &str) -> Result<(), NoMemory> {
    let mut codec = LanguageServerCodec::default(alloc);
    let frame = encoded(alloc, &mut codec, text)?;
    let wanted = format!(in alloc; "Content-Length: {}\r\n\r\n{text}", text.len())?;
    trial.same(text, frame.as_slice(), wanted.as_bytes());
    codec.feed(frame.as_slice())?;
    trial.text(text, decoded(alloc, &mut codec), text);
    trial.text(text, decoded(alloc, &mut codec), "no more");
    Ok(())
}

#[test]
fn each_message_comes_back(rt: HostRuntime) -> Result<(), RowError> {
    let mut trial = Trial::new(rt.alloc());
    for text in TEXTS {
        try_text(&mut trial, rt.alloc(), text)?;
    }
    trial.end()
}

// One level more than 126 is no JSON to this reader.
#[test]
fn deep_messages_come_back(rt: HostRuntime) -> Result<(), RowError> {
    let alloc = rt.alloc();
    let mut trial = Trial::new(alloc);
    try_text(&mut trial, alloc, nested(alloc, 125)?.as_str())?;
    try_text(&mut trial, alloc, nested(alloc, 126)?.as_str())?;
    let text = nested(alloc, 127)?;
    let is_read = Value::from_str(alloc, text.as_str()).is_ok();
    trial.is_true("127 levels", !is_read);
    trial.end()
}
