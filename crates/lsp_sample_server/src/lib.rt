//! A small language server without capabilities, and what exactly it does.
#![tactic(auto)]

mod command;
mod execute;
mod law;
mod plan;
mod sample;
mod service;
mod task;

pub use command::Command;
pub use law::sample_is_written_so;
pub use sample::Sample;
pub use service::sample_service;
pub use task::{Left, SampleTask};
