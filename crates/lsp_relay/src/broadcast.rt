//! A notification to several editors: its text is written once, and its bytes are copied.
ghost use Rattle.std.specs.Prelude.{◌≡◌, ◌++◌, false, IfOk, OnOk};
ghost use Rattle.lsp_frame.specs.Frames.{framed};
ghost use Rattle.lsp_rpc.specs.Message.{request, message_has_float};
ghost use Rattle.lsp_rpc.specs.Shown.{show_request};
ghost use Rattle.lsp_relay.specs.Broadcast.{text_before_side, text_to, sent_to};
ghost use Rattle.lsp_relay.specs.Floats.{AreFloatFree};
ghost use Rattle.lsp_relay.specs.Relay.{sent_frames};

use crate::value::to_value;
use bytes::BytesMut;
use lsp_rpc::{Message, NoMemory, Request};
use std::alloc::Global;

// The text of the notification `proxy/out` up to the number of its side: the same for each editor.
fn before_side(alloc: Global, note: Request) -> Result<Vec<u8>, NoMemory>
    requires { message_has_float (request (show_request note)) ≡ false }
    ensures { IfOk result (λ text. text.items ≡ text_before_side (request (show_request note))) }
{
    let value = to_value(alloc, Message::Request(note))?;
    let message = value.to_vec(alloc)?;
    let begin = b"{\"jsonrpc\":\"2.0\",\"method\":\"proxy/out\",\"params\":{\"message\":";
    let mut text = Vec::from_slice(alloc, begin)?;
    text.extend_from_slice(&message)?;
    text.extend_from_slice(b",\"side\":")?;
    Ok(text)
}

// Frames a copy of that text with the number of editor k's side.
fn push_copy(text: &[u8], k: u32, out: &mut BytesMut) -> Result<(), NoMemory>
    ensures { OnOk result (out.new.items ≡ out.old.items ++ framed (text_to text.now k)) }
{
    let mut side_buffer = itoa::Buffer::new();
    let side = side_buffer.format(k as u64 + 1);
    let length = text.len() + side.len() + b"}}".len();
    let mut length_buffer = itoa::Buffer::new();
    let digits = length_buffer.format(length);
    out.reserve(b"Content-Length: \r\n\r\n".len() + digits.len() + length)?;
    out.extend_reserved(b"Content-Length: ");
    out.extend_reserved(digits.as_bytes());
    out.extend_reserved(b"\r\n\r\n");
    out.extend_reserved(text);
    out.extend_reserved(side.as_bytes());
    out.extend_reserved(b"}}");
    Ok(())
}

/// Frames the notification to each of the editors.
pub(crate) fn push_broadcast(
    alloc: Global,
    editors: &[u32],
    note: Request,
    out: &mut BytesMut,
) -> Result<(), NoMemory>
    requires { AreFloatFree (sent_to (show_request note) editors.now) }
    ensures { OnOk result (out.new.items
        ≡ out.old.items ++ sent_frames (sent_to (show_request note) editors.now)) }
{
    if editors.is_empty() {
        return Ok(());
    }
    let text = before_side(alloc, note)?;
    for k in editors {
        push_copy(&text, *k, out)?;
    }
    Ok(())
}
