//! Tries sessions of services, by the bytes that they write, and threads beside them.
//!
//! Only what no clause says: that memory and threads which are ample are used, that threads beside a
//! session have their turns, that a client's message goes out while a read waits, and rows that show
//! that the definitions say what is meant.
#![tactic(auto)]

#[cfg(test)]
mod beside;
#[cfg(test)]
mod callers;
#[cfg(test)]
mod client;
#[cfg(test)]
mod counts;
#[cfg(test)]
mod idle;
#[cfg(test)]
mod made;
#[cfg(test)]
mod pump_rows;
#[cfg(test)]
mod served;
#[cfg(test)]
mod sessions;
#[cfg(test)]
mod silent;
#[cfg(test)]
mod strange;
#[cfg(test)]
mod turns;
