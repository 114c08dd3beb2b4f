//! Callers on threads of their own, who each log through a seat of a shared desk.
#![tactic(auto)]

mod caller;
mod gate;
mod tallied;
mod threads;

pub use caller::{Heard, Idle, Plan};
pub use gate::{Gate, Open};
pub use tallied::{RestedTally, Tallied};
pub use threads::{call_all, gather, idle_callers};
