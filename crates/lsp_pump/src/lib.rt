//! Serves a session while a thread of its own reads: what the desk holds goes out while input waits.
#![tactic(auto)]

mod job;
mod pieces;
mod pumping;
mod signal;
mod steps;

pub use pumping::pump;
