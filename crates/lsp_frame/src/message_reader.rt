// The short way from a text to a message.
ghost use Rattle.std.specs.Prelude.{◌≡◌, Some, IfOk, option_and_then, false};
ghost use Rattle.serde_json.specs.Read.{read};
ghost use Rattle.lsp_rpc.specs.Message.{clean_message, message_has_float};
ghost use Rattle.lsp_rpc.specs.Shown.{show_message};
ghost use Rattle.lsp_text.specs.Floats.{read_by};

use crate::parts::{Parts, message_of, read_parts};
use json::Scratch;
use lsp_rpc::Message;
use lsp_text::{Floats, Unread};
use std::alloc::Global;

// The room of a longer text isn't kept.
const KEPT: usize = 65_536;

/// Reads messages one after another, each straight from the tokens of its text, and keeps the room
/// that one took for the next.
#[derive(Drop)]
pub struct MessageReader {
    scratch: Option<Box<Scratch>>,
}

impl MessageReader {
    /// A reader that has read nothing, and takes no memory yet.
    pub fn new() -> MessageReader {
        MessageReader { scratch: None }
    }

    /// The message that the text is. `Unread` comes where it is none, and also for some that are: a
    /// request without a method, a response whose error isn't one, or where memory wasn't there.
    /// `read_message` of the text's value answers these.
    pub fn read(&mut self, alloc: Global, text: &str) -> Result<Message, Unread>
        ensures value { IfOk result
            (λ m. option_and_then clean_message (read text.now) ≡ Some (show_message m)) }
        ensures clean { IfOk result (λ m. message_has_float (show_message m) ≡ false) }
    {
        self.read_by(alloc, Floats::Refused, text)
    }

    /// The same, where floats are let in or aren't. It is `Unread` at one that isn't.
    pub fn read_by(&mut self, alloc: Global, floats: Floats, text: &str) -> Result<Message, Unread>
        ensures value { IfOk result (λ m. option_and_then clean_message
            (read_by floats text.now) ≡ Some (show_message m)) }
        ensures clean { IfOk result (λ m. message_has_float (show_message m) ≡ false) }
    {
        let mut scratch = match self.scratch.take() {
            Some(scratch) => scratch,
            None => Box::new(alloc, Scratch::new(alloc))?,
        };
        let mut parts = Parts {
            has_version: false,
            id: None,
            method: None,
            params: None,
            outcome: None,
            error: None,
        };
        let found = read_parts(alloc, floats, text, &mut scratch, &mut parts);
        if text.len() <= KEPT {
            self.scratch = Some(scratch);
        }
        found?;
        message_of(parts)
    }
}
