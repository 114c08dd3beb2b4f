// Why the editor's notifications are not accepted.
ghost use Rattle.std.specs.Prelude.{◌≡◌, Some};
ghost use Rattle.lsp_documents.specs.declared.error.ChangeError.TheVariants as change_errors;
ghost use Rattle.lsp_documents.specs.declared.error.OpenError.TheVariants as open_errors;

use std::alloc::{AllocError, AllocFailed};
use std::error::Error;
use std::fmt;

/// Why a document is not opened.
#[derive(Clone, Copy, Debug, PartialEq, Eq)]
pub enum OpenError {
    /// A document of this URI is open.
    AlreadyOpen,
    /// Out of memory.
    NoMemory,
}

impl From<AllocError> for OpenError {
    ghost from_gives = { λ _ e. e ≡ open_errors.NoMemory };

    fn from(_error: AllocError) -> OpenError {
        OpenError::NoMemory
    }
}

impl<T: Drop> From<AllocFailed<T>> for OpenError {
    ghost from_gives = { λ _ e. e ≡ open_errors.NoMemory };

    fn from(_error: AllocFailed<T>) -> OpenError {
        OpenError::NoMemory
    }
}

impl fmt::Display for OpenError {
    ghost use Rattle.lsp_documents.specs.Errors.{open_error_text};

    ghost output = { λ e. Some (open_error_text e) };

    fn fmt<W: fmt::Write>(&self, f: &mut fmt::Formatter<W>) -> fmt::Result {
        f.write_str(match self {
            OpenError::AlreadyOpen => "the document is open",
            OpenError::NoMemory => "out of memory",
        })
    }
}

impl Error for OpenError {}

/// Why a document is not changed.
#[derive(Clone, Copy, Debug, PartialEq, Eq)]
pub enum ChangeError {
    /// No document of this URI is open.
    NotOpen,
    /// A change has a range whose start is behind its end.
    StartBehindEnd,
    /// Out of memory.
    NoMemory,
}

impl From<AllocError> for ChangeError {
    ghost from_gives = { λ _ e. e ≡ change_errors.NoMemory };

    fn from(_error: AllocError) -> ChangeError {
        ChangeError::NoMemory
    }
}

impl fmt::Display for ChangeError {
    ghost use Rattle.lsp_documents.specs.Errors.{change_error_text};

    ghost output = { λ e. Some (change_error_text e) };

    fn fmt<W: fmt::Write>(&self, f: &mut fmt::Formatter<W>) -> fmt::Result {
        f.write_str(match self {
            ChangeError::NotOpen => "the document is not open",
            ChangeError::StartBehindEnd => "a range has its start behind its end",
            ChangeError::NoMemory => "out of memory",
        })
    }
}

impl Error for ChangeError {}
