//! Tries the markers of methods, and what a server asks of its client.
//!
//! Only what no clause says: that no call is out of memory where it is ample, that the markers are
//! those of the standard, and rows that show that the definitions say what is meant.
#![tactic(auto)]

#[cfg(test)]
mod asked;
#[cfg(test)]
mod client;
#[cfg(test)]
mod markers;
#[cfg(test)]
mod socket;
