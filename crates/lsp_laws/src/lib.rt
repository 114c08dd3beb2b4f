//! More of what every desk and every session keeps: functions whose contract is a law.
#![tactic(auto)]

mod desk;
mod session;

pub use desk::{answers_come_back, gated_calls_wait};
pub use session::{calls_begin, lives_follow};
