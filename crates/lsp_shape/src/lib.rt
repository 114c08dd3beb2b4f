//! What JSON values a type is read from, and what is written for it.
#![tactic(auto)]

mod copies;
mod flatten;
mod law;
mod map;
mod member;
mod object;
mod reading;
mod std_types;
mod text;
mod tokens;
mod unfit;
mod why;
mod wire;

pub use copies::Copies;
pub use flatten::{as_form, attempt, flat, form, members_written, put_flat, put_tag, tag};
pub use law::{read_value, reads_back, trimmed, write_value};
pub use map::{Key, rest};
pub use member::{
    field, find, list_or_empty, optional, put, put_nullable, put_optional, put_unless_empty,
    put_unless_false, put_value, supported, truth_or_false,
};
pub use no_memory::NoMemory;
pub use object::{Reader, WideReader, Writer};
pub use reading::{Flat, Optional, Reads, Required, Supported, TruthOrFalse, read_object};
pub use text::{TextMisfit, read_text, write_text};
pub use tokens::TokenNumbers;
pub use unfit::{Step, Unfit, why_unfit};
pub use why::{MemberName, Misfit, Wanted, Why, told_item, told_member};
pub use wire::Wire;
