//! Two language servers: one that asks its editor, and one whose command a thread works on.
#![tactic(auto)]

mod asks;
mod beside;
mod counts;
mod params;
mod service;
mod unfit;
mod worker;

pub use beside::count_beside;
pub use service::serve_asks;
pub use unfit::unfit_line;
