//! Carries the messages of several editors and one language server over one stream of bytes.
//!
//! Each message comes as a notification `proxy/in`, with the number of its side: 0 is the server,
//! and k + 1 editor k. A `lsp_proxy::Proxy` hears it, and what it sends goes out as notifications
//! `proxy/out` of the same form.
#![tactic(auto)]

mod broadcast;
mod carrier;
pub mod law;
mod notes;
mod reads;
mod run;
mod value;
mod write;

pub use lsp_program::Status;
pub use reads::{Relayed, relay, relay_over};
pub use run::run_proxy;
