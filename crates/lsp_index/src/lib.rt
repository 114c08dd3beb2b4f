//! Queries over an index of a program: an LSIF dump, one entry a line.
#![tactic(auto)]

mod entry;
mod graph;
mod law;
mod lines;
mod query;
mod run;
mod search;
mod table;
mod words;

pub use law::one_answer;
pub use query::Request;
pub use run::{answer, answer_each};
