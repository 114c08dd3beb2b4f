//! Tries the types of the protocol on texts.
//!
//! No clause compares a type with its declaration: a member that is paired with another field, in
//! the row, the reader and the writer alike, is proved. So each type is read from texts in which
//! every member has a value of its own, and what its derived `Debug` then shows, which names each
//! field, is compared. The other texts are those that editors and servers send.
#![tactic(auto)]

#[cfg(test)]
mod base;
#[cfg(test)]
mod base_texts;
#[cfg(test)]
mod caps_work;
#[cfg(test)]
mod lang_goto;
#[cfg(test)]
mod lang_item;
#[cfg(test)]
mod names;
#[cfg(test)]
mod names_texts;
#[cfg(test)]
mod offer_lang;
#[cfg(test)]
mod offer_text;
#[cfg(test)]
mod report;
#[cfg(test)]
mod tokens;
#[cfg(test)]
mod tree;
#[cfg(test)]
mod work;
