//! Tries the program of two language servers, by whole runs and by sessions of the sample.
//!
//! Only what no clause says: that memory and threads which are ample are used, and rows that show
//! that the definitions say what is meant.
#![tactic(auto)]

#[cfg(test)]
mod documents;
#[cfg(test)]
mod frames;
#[cfg(test)]
mod limited;
#[cfg(test)]
mod round_trips;
#[cfg(test)]
mod runs;
#[cfg(test)]
mod sessions;
