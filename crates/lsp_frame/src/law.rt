// What holds of all blocks, transitions, inputs, lists of calls and texts: functions whose contract
// is a law.
ghost use Rattle.std.specs.Prelude.{◌≡◌, Some, IfSome, false};
ghost use Rattle.lsp_rpc.specs.Message.{message_has_float};
ghost use Rattle.lsp_rpc.specs.Shown.{show_message};
ghost use Rattle.lsp_rpc.specs.declared.message.Message.{Message as AnyMessage};
ghost use Rattle.lsp_frame.specs.Laws.{GoodBlocks, ByTransitions, TransitionsMove, OnePlace, ToldIsItems, ToldStays, GivesAll, FramesRead, SameMessages, MessagesRead, EncodedRead, ReadsBy};

use crate::body::text_message;
use crate::message_reader::MessageReader;
use lsp_rpc::Message;
use lsp_text::Floats;
use std::alloc::Global;

/// A block is good where it is, whole, a head of `httparse`'s grammar with at most two headers.
pub fn good_blocks()
    ensures { GoodBlocks }
{}

/// The items are those on the way from transition to transition, through the stop.
pub fn by_transitions()
    ensures { ByTransitions }
{}

/// Each transition moves forward or stops, save a search that finds its text where it begins, and
/// a body or a skip of no bytes.
pub fn transitions_move()
    ensures { TransitionsMove }
{}

/// From where a codec stands decoding comes to one next item, or none, and to one place.
pub fn one_place()
    ensures { OnePlace }
{}

/// What is told is the items without a `Rest` at their end.
pub fn told_is_items()
    ensures { ToldIsItems }
{}

/// What is told stays told, whatever bytes follow.
pub fn told_stays()
    ensures { ToldStays }
{}

/// Over any list of calls, also those that fail, the items given, followed by those that are left,
/// are those of all the bytes fed, however they were cut into pieces.
pub fn gives_all()
    ensures { GivesAll }
{}

/// A frame within the limits tells what its body is, and decoding goes on after it.
pub fn frames_read()
    ensures { FramesRead }
{}

/// A body that is a message where no float is let in is the same message where they are.
pub fn same_messages()
    ensures { SameMessages }
{}

/// Frames of messages whose texts are read back tell these messages.
pub fn messages_read()
    ensures { MessagesRead }
{}

/// The frames of the messages that a list of calls encoded tell these messages, if they can be read
/// back.
pub fn encoded_read()
    ensures { EncodedRead }
{}

// The message of the text, straight from its tokens.
fn from_tokens(
    alloc: Global,
    reader: &mut MessageReader,
    floats: Floats,
    text: &str,
) -> Option<Message>
    ensures read { IfSome result (λ m. ReadsBy floats text.now (show_message m)) }
    ensures floats { IfSome result (λ m. message_has_float (show_message m) ≡ false) }
{
    match reader.read_by(alloc, floats, text) {
        Ok(message) => Some(message),
        Err(_) => None,
    }
}

// The message of the text, by way of its value.
fn by_value(alloc: Global, floats: Floats, text: &str) -> Option<Message>
    ensures read { IfSome result (λ m. ReadsBy floats text.now (show_message m)) }
    ensures floats { IfSome result (λ m. message_has_float (show_message m) ≡ false) }
{
    match text_message(alloc, floats, text) {
        Ok(Ok(message)) => Some(message),
        _ => None,
    }
}

/// The message that the text is read as straight from its tokens, and the one by way of its value:
/// the two ways of a codec. Where both give a message it is the same.
pub fn read_both_ways(
    alloc: Global,
    reader: &mut MessageReader,
    floats: Floats,
    text: &str,
) -> (Option<Message>, Option<Message>)
    ensures read { IfSome result.0 (λ m. ReadsBy floats text.now (show_message m))
        × IfSome result.1 (λ m. ReadsBy floats text.now (show_message m)) }
    ensures floats { IfSome result.0 (λ m. message_has_float (show_message m) ≡ false)
        × IfSome result.1 (λ m. message_has_float (show_message m) ≡ false) }
    ensures agree { (a : AnyMessage) (b : AnyMessage) → result.0 ≡ Some a → result.1 ≡ Some b
        → show_message a ≡ show_message b }
{
    (
        from_tokens(alloc, reader, floats, text),
        by_value(alloc, floats, text),
    )
}
