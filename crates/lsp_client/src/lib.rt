//! What a server asks of its client and tells it: the calls on a desk, typed.
#![tactic(auto)]

mod client;
mod desk;

pub use client::Client;
pub use lsp_ask::{Answered, Asked, Ticket, Told};
