//! The answer of a reader that leaves a text to another one.
ghost use Rattle.std.specs.Prelude.{Some, codes};

use json::Invalid;
use std::alloc::{AllocError, AllocFailed};
use std::convert::From;
use std::error::Error;
use std::fmt;

/// Nothing was read: the text isn't of the form that this reader takes, or memory wasn't there.
#[derive(Clone, Copy, Debug, PartialEq, Eq)]
pub struct Unread;

impl From<Invalid> for Unread {
    fn from(_: Invalid) -> Unread {
        Unread
    }
}

impl From<AllocError> for Unread {
    fn from(_: AllocError) -> Unread {
        Unread
    }
}

impl<T: Drop> From<AllocFailed<T>> for Unread {
    fn from(_: AllocFailed<T>) -> Unread {
        Unread
    }
}

impl fmt::Display for Unread {
    ghost output = { λ _. Some (codes "not read") };

    fn fmt<W: fmt::Write>(&self, f: &mut fmt::Formatter<W>) -> fmt::Result {
        f.write_str("not read")
    }
}

impl Error for Unread {}
