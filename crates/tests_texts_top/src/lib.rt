//! Tries the types of `initialize`, of registrations and of an index on texts.
//!
//! No clause compares a type with its declaration: a member that is paired with another field, in
//! the row, the reader and the writer alike, is proved. So each type is read from texts in which
//! every member has a value of its own, and what its derived `Debug` then shows, which names each
//! field, is compared. The other texts are those that editors and servers send.
#![tactic(auto)]

#[cfg(test)]
mod caps_text;
#[cfg(test)]
mod initialize;
#[cfg(test)]
mod lsif;
#[cfg(test)]
mod offer_work;
#[cfg(test)]
mod user;
