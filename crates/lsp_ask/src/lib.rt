//! What a server asks of its client and tells it: one call on the desk, and what comes of it.
#![tactic(auto)]

mod answers;
mod desk;

pub use answers::{Answered, Asked, Ticket, Told};
pub use desk::{call, next_id, notify, poll, request, tell, text};
