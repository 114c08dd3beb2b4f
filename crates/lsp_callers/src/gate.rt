//! What callers wait for before they begin.

/// Is asked once by each caller before its first call. No clause says so: `pass` leaves nothing
/// that one could name.
pub trait Gate {
    /// Returns when the caller of this number may begin. Callers count from 1.
    fn pass(&self, number: u64);
}

/// Lets each caller pass at once.
pub struct Open;

impl Gate for Open {
    fn pass(&self, _number: u64) {}
}
