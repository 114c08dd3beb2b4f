//! Whether a thing is there already.

/// A value that is there, or one that is yet to come.
#[derive(Debug, Drop, PartialEq, Eq)]
pub enum Poll<T> {
    /// The value is there.
    Ready(T),
    /// It is yet to come.
    Pending,
}
