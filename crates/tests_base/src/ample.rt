//! What is large, where memory is ample: `NoMemory` would hide a limit that no clause names, and a
//! walk over all that is held at each step would not end within a test's time.
ghost use Rattle.std.specs.Prelude.{◌≡◌, false, IfOk};
ghost use Rattle.lsp_desk.specs.Call.{call_has_float};
ghost use Rattle.lsp_desk.specs.Shown.{show_client_call};
ghost use Rattle.lsp_frame.specs.Items.{AreLimits};
ghost use Rattle.lsp_rpc.specs.Message.{message_has_float};
ghost use Rattle.lsp_rpc.specs.Shown.{show_message};

use bytes::BytesMut;
use lsp_desk::{Caller, ClientCall, ClientReply, Desk, PlainDesk, ServerCall, ServerReply};
use lsp_frame::{Decoded, LanguageServerCodec, Limits};
use lsp_rows::{RowError, Trial};
use lsp_rpc::{Id, Message, Request, Response};
use no_memory::NoMemory;
use serde_json::Value;
use std::alloc::Global;
use std::test::Fail;

const MANY: i64 = 100_000;

// The tickets of so many requests, counted from 0.
const TICKETS: u64 = 100_000;

const MIB: usize = 1_048_576;

// 64 letters.
const LETTERS: &str = "0123456789abcdefghijklmnopqrstuvwxyzABCDEFGHIJKLMNOPQRSTUVWXYZ-_";

// So many bytes of letters, a multiple of 64.
fn letters(alloc: Global, count: usize) -> Result<String, NoMemory> {
    let mut text = String::new(alloc);
    for _ in 0..count / 64 {
        text.push_str(LETTERS)?;
    }
    Ok(text)
}

// A message that asks under this id.
fn asks(alloc: Global, id: i64) -> Result<ClientCall, NoMemory>
    ensures { IfOk result (λ call. call_has_float (show_client_call call) ≡ false) }
{
    let method = String::from_str(alloc, "m")?;
    Ok(ClientCall::Raw(Request::build(method).id(Id::Number(id)).finish()))
}

fn gives_ticket(desk: &mut PlainDesk, call: Result<ClientCall, NoMemory>) -> bool
    requires { IfOk call (λ call. call_has_float (show_client_call call) ≡ false) }
{
    let Ok(call) = call else {
        return false;
    };
    let reply = desk.client(call);
    let is_ticket = matches!(&reply, Ok(ClientReply::Ticket(_, _)));
    drop(reply);
    is_ticket
}

fn takes_answer(desk: &mut PlainDesk, n: i64) -> bool {
    let answer = Response::from_ok(Id::Number(n), Value::Null);
    let reply = desk.server(ServerCall::Answer(answer));
    let is_given = matches!(&reply, Ok(ServerReply::Given));
    drop(reply);
    is_given
}

fn gives_answer(desk: &mut PlainDesk, ticket: u64) -> bool {
    let reply = desk.client(ClientCall::Poll(ticket));
    let is_answer = matches!(&reply, Ok(ClientReply::Answer(_)));
    drop(reply);
    is_answer
}

// The answers to so many requests are kept until they are asked for.
#[test]
fn kept_answers(rt: HostRuntime) -> Result<(), RowError> {
    let alloc = rt.alloc();
    let mut trial = Trial::new(alloc);
    let mut desk = PlainDesk::new(alloc);
    for n in 0..MANY {
        trial.is_true(n, gives_ticket(&mut desk, asks(alloc, n)));
    }
    for n in 0..MANY {
        trial.is_true(n, takes_answer(&mut desk, n));
    }
    // The tickets were drawn in order from 0.
    for ticket in 0..TICKETS {
        trial.is_true(ticket, gives_answer(&mut desk, ticket));
    }
    drop(desk);
    trial.end()
}

// The answer to id 1 with that text.
fn answer_of(text: String) -> Message
    ensures { message_has_float (show_message result) ≡ false }
{
    Message::Response(Response::from_ok(Id::Number(1), Value::String(text)))
}

fn tells_message(codec: &mut LanguageServerCodec) -> Result<bool, NoMemory> {
    let item = codec.decode()?;
    let is_message = matches!(&item, Decoded::Item(_));
    drop(item);
    Ok(is_message)
}

fn tells_more(codec: &mut LanguageServerCodec) -> Result<bool, NoMemory> {
    let item = codec.decode()?;
    let is_more = matches!(&item, Decoded::More);
    drop(item);
    Ok(is_more)
}

// A body of 32 MiB is written, and what was written is read.
#[test]
fn a_body_of_32_mib(rt: HostRuntime) -> Result<(), Fail> {
    let alloc = rt.alloc();
    let mut trial = Trial::new(alloc);
    let mut codec = LanguageServerCodec::default(alloc);
    let mut out = BytesMut::new(alloc);
    codec.encode(&answer_of(letters(alloc, 32 * MIB)?), &mut out)?;
    // Its head has 28 bytes, and what stands around the text in its body 36.
    trial.same("the frame", out.len(), 32 * MIB + 64);
    trial.same("a feed", codec.feed(out.as_slice()), Ok(()));
    drop(out);
    trial.same("the message", tells_message(&mut codec), Ok(true));
    trial.same("what is held", codec.held(), 0);
    drop(codec);
    Ok(trial.end()?)
}

// A request's text of 2 MiB is read and written.
fn long_text(alloc: Global) -> Result<String, NoMemory> {
    let long = letters(alloc, 2 * MIB)?;
    Ok(format!(in alloc;
        "{{\"jsonrpc\":\"2.0\",\"method\":\"{long}\",\"params\":[\"{long}\"],\"id\":1}}"
    )?)
}

fn again(alloc: Global, text: &str) -> Result<String, NoMemory> {
    match Request::from_text(alloc, text) {
        Ok(request) => {
            let text = request.to_text(alloc);
            drop(request);
            text
        }
        Err(fault) => Ok(format!(in alloc; "{fault:?}")?),
    }
}

#[test]
fn a_text_of_2_mib(rt: HostRuntime) -> Result<(), Fail> {
    let alloc = rt.alloc();
    let text = long_text(alloc)?;
    let mut trial = Trial::new(alloc);
    trial.text("the text", again(alloc, text.as_str()), text.as_str());
    drop(text);
    Ok(trial.end()?)
}

// How long a head is, and the limit of a head.
const HEADS: &[(usize, u64)] = &[(MIB, 2_097_152), (8 * MIB, 16_777_216)];

// A head of one long header comes in pieces of 16 bytes, and then the body. The codec looks at each
// byte once: one that began anew at each piece would look at 2 * 10^12 bytes of the second.
fn try_head(trial: &mut Trial, alloc: Global, count: usize, head: u64)
    requires { AreLimits (record { head = head; body = 64 }) }
{
    let mut codec = LanguageServerCodec::with_limits(alloc, Limits { head, body: 64 });
    let head = b"Content-Length: 33\r\nX: ";
    trial.same(count, codec.feed(head), Ok(()));
    for _ in 0..count / 16 {
        trial.same(count, codec.feed(b"0123456789abcdef"), Ok(()));
        trial.same(count, tells_more(&mut codec), Ok(true));
    }
    let rest = b"\r\n\r\n{\"jsonrpc\":\"2.0\",\"method\":\"exit\"}";
    trial.same(count, codec.feed(rest), Ok(()));
    trial.same(count, tells_message(&mut codec), Ok(true));
    trial.same(count, codec.held(), 0);
    drop(codec);
}

#[test]
fn long_heads_in_pieces(rt: HostRuntime) -> Result<(), RowError> {
    let mut trial = Trial::new(rt.alloc());
    for (count, head) in HEADS {
        if *head > 0 {
            try_head(&mut trial, rt.alloc(), *count, *head);
        }
    }
    trial.end()
}
