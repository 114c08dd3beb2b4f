//! Messages in frames, by the base protocol of LSP 3.17.
//!
//! A frame is a head of at most two headers, as `httparse` reads them, an empty line and a body
//! of the length that the head gives. `Limits` bound both.
#![tactic(auto)]

mod block;
mod body;
mod codec;
mod decode_state;
mod encode;
mod head;
mod headers;
mod law;
mod limits;
mod message_reader;
mod next_item;
mod parse_error;
mod parts;
mod plain_head;
mod settings;
mod transition;

pub use codec::{Decoded, LanguageServerCodec};
pub use encode::push_message;
pub use law::{
    by_transitions, encoded_read, frames_read, gives_all, good_blocks, messages_read, one_place,
    read_both_ways, same_messages, told_is_items, told_stays, transitions_move,
};
pub use limits::Limits;
pub use lsp_text::Floats;
pub use message_reader::MessageReader;
pub use parse_error::{BodyFault, ParseError};
pub use settings::CodecSettings;
