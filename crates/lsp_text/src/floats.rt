//! What becomes of floats.

/// What a text with a float is read as.
#[derive(Clone, Copy, Debug, PartialEq, Eq)]
pub enum Floats {
    /// It isn't read.
    Refused,
    /// A float that is equal to an integer of 64 bits is that integer, and any other is null.
    Read,
}
