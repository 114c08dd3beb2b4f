//! A server of one's own over standard input and output.
#![tactic(auto)]

mod pumping;
mod status;
mod stdio;

pub use lsp_program::Status;
pub use pumping::{pump, pump_stdio};
pub use stdio::{serve, serve_stdio};
