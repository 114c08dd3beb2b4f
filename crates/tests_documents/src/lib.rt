//! Tries what finds a place of a document: the open documents of an editor, by rows with the text
//! that results and by a second, plain way to make changes; and queries over an index, by rows that
//! show that the definitions say what is meant and by plain walks over random dumps. And that
//! `NoMemory` isn't answered where memory is ample.
#![tactic(auto)]

#[cfg(test)]
mod changes;
#[cfg(test)]
mod dump;
#[cfg(test)]
mod events;
#[cfg(test)]
mod plain;
#[cfg(test)]
mod random_changes;
#[cfg(test)]
mod random_dumps;
#[cfg(test)]
mod rows;
#[cfg(test)]
mod standard;
#[cfg(test)]
mod store;
