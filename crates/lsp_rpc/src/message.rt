//! A message is a response or a request.
ghost use Rattle.std.specs.Prelude.{◌≡◌, false, IfOk, string_bytes};
ghost use Rattle.lsp_rpc.specs.Back.{IsReadable, ReadsAs};
ghost use Rattle.lsp_rpc.specs.Message.{message_has_float, message_text};
ghost use Rattle.lsp_rpc.specs.Shown.{show_message};

use crate::request::Request;
use crate::response::Response;
use no_memory::NoMemory;
use std::alloc::Global;

/// What one side tells the other.
#[derive(Drop, Debug)]
pub enum Message {
    /// A response to a request.
    Response(Response),
    /// A request or a notification.
    Request(Request),
}

impl Message {
    /// The text of the message, in which objects inside are ordered by key. Its values hold no
    /// float.
    pub fn to_text(&self, alloc: Global) -> Result<String, NoMemory>
        requires { message_has_float (show_message self.now) ≡ false }
        ensures text { IfOk result (λ s. string_bytes s ≡ message_text (show_message self.now)) }
        ensures reads_back { IfOk result (λ s. IsReadable (show_message self.now)
            → ReadsAs (string_bytes s) (show_message self.now)) }
    {
        match self {
            Message::Response(response) => response.to_text(alloc),
            Message::Request(request) => request.to_text(alloc),
        }
    }
}
