//! Tries messages, frames, keyed lists and desks: the crates below a session.
//!
//! Only what no clause says: that no call is out of memory where it is ample, texts of `Debug` and
//! of errors, and rows that show that the definitions say what is meant.
#![tactic(auto)]

#[cfg(test)]
mod ample;
#[cfg(test)]
mod cuts;
#[cfg(test)]
mod desk;
#[cfg(test)]
mod floats;
#[cfg(test)]
mod frame;
#[cfg(test)]
mod keyed;
#[cfg(test)]
mod reader;
#[cfg(test)]
mod rpc;
#[cfg(test)]
mod shared;
