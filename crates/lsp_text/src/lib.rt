//! JSON values from the tokens of a text, for a caller that reads the rest of the text itself.
#![tactic(auto)]

mod floats;
mod law;
mod number;
mod unread;
mod value;

pub use floats::Floats;
pub use law::{integers_come_back, only_floats_go};
pub use unread::Unread;
pub use value::{read_value, read_whole};
