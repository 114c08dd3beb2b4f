//! The records that gather those of several crates, and the methods of the protocol.
#![tactic(auto)]

mod client;
mod server;

pub use client::{ClientCapabilities, InitializeParams};
pub use server::{InitializeResult, ServerCapabilities};
