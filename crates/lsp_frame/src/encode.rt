// The frame of a message.
ghost use Rattle.std.specs.Prelude.{◌≡◌, ◌++◌, [], ◌∷◌, false, OnOk, OnErr};
ghost use Rattle.lsp_rpc.specs.Back.{IsReadable};
ghost use Rattle.lsp_rpc.specs.Message.{message_has_float};
ghost use Rattle.lsp_rpc.specs.Shown.{show_message};
ghost use Rattle.lsp_frame.specs.Frames.{frame_text, IsWithin, IsReadBack};
ghost use Rattle.lsp_frame.specs.Items.{items};
ghost use Rattle.lsp_frame.specs.Transitions.{message as message_item};
ghost use Rattle.lsp_frame.specs.declared.limits.Limits.{Limits as AnyLimits};

use bytes::BytesMut;
use lsp_rpc::Message;
use no_memory::NoMemory;
use std::alloc::Global;

/// Appends the frame of the message, whose values hold no float: `LanguageServerCodec::encode`
/// without a codec.
pub fn push_message(alloc: Global, message: &Message, out: &mut BytesMut) -> Result<(), NoMemory>
    requires { message_has_float (show_message message.now) ≡ false }
    ensures ok { OnOk result (out.new.items
        ≡ out.old.items ++ frame_text (show_message message.now)) }
    ensures err { OnErr result (out.new.items ≡ out.old.items) }
    // The text is read back as the message, where the message can be read back.
    ensures read_back { OnOk result (IsReadable (show_message message.now)
        → IsReadBack (show_message message.now)) }
    ensures reads_back { OnOk result (IsReadable (show_message message.now)
        → (limits : AnyLimits) → IsWithin limits (show_message message.now)
        → items limits (frame_text (show_message message.now))
        ≡ message_item (show_message message.now) ∷ []) }
{
    let body = message.to_text(alloc)?;
    let body = body.as_str();
    let mut buffer = itoa::Buffer::new();
    let digits = buffer.format(body.len());
    // What may fail comes first.
    out.reserve(b"Content-Length: \r\n\r\n".len() + digits.len() + body.len())?;
    out.extend_reserved(b"Content-Length: ");
    out.extend_reserved(digits.as_bytes());
    out.extend_reserved(b"\r\n\r\n");
    out.extend_reserved(body.as_bytes());
    Ok(())
}
