//! One desk that threads share: the session calls through the owner's seat, and other threads of a
//! server through seats of their own.
#![tactic(auto)]

mod call;
mod desk;
mod door;
mod rested;
mod role;
mod rule;
mod seat;
mod steps;
mod turn;
mod view;

pub use desk::{OwnerSeat, SharedDesk};
pub use no_memory::NoMemory;
pub use rested::Rested;
pub use role::{Client, Owner, Role};
pub use seat::{DeskOwner, DeskSeat, SharedClient};
