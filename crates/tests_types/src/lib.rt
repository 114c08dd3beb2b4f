//! Tries rows, URIs and kinds: what the types of the protocol stand on.
//!
//! Only what no clause says: that no call is out of memory where it is ample, the number of each
//! constant, and rows that show that the definitions say what is meant.
#![tactic(auto)]

#[cfg(test)]
mod kinds;
#[cfg(test)]
mod shape;
#[cfg(test)]
mod uri;
