//! Callers that talk on a shared desk beside a session of the sample.
#![tactic(auto)]

mod line;
mod session;
mod talk;

pub use line::write_line;
pub use lsp_callers::{Gate, Open};
pub use talk::talk_with;
