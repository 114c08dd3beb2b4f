//! What the programs share: how they read their arguments, and how they end.
#![tactic(auto)]

mod arguments;
mod numbers;
mod status;

pub use arguments::words;
pub use numbers::number;
pub use status::{Status, status_of};
