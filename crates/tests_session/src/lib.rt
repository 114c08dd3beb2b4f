//! Tries sessions, the serving of them, and the proxy.
//!
//! Only what no clause says: that `NoMemory` isn't answered where memory is ample, that a reader or
//! a writer of std is called once a call, texts of errors, and rows that show that the definitions
//! say what is meant.
#![tactic(auto)]

#[cfg(test)]
mod frames;
#[cfg(test)]
mod lines;
#[cfg(test)]
mod proxy;
#[cfg(test)]
mod proxy_rows;
#[cfg(test)]
mod read_write;
#[cfg(test)]
mod reads;
#[cfg(test)]
mod relay;
#[cfg(test)]
mod serving;
#[cfg(test)]
mod session;
#[cfg(test)]
mod sessions;
#[cfg(test)]
mod small;
#[cfg(test)]
mod spending;
#[cfg(test)]
mod stops;
#[cfg(test)]
mod table;
#[cfg(test)]
mod turns;
