//! Lists in which an entry is found by its key, and taken out, without a walk over the others.
#![tactic(auto)]

mod keyed;

pub use keyed::Keyed;
