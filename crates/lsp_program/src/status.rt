// How a program ends.
ghost use Rattle.std.specs.Prelude.{◌≡◌};
ghost use Rattle.lsp_program.specs.Status.{status_of as status_of_def};

use lsp_server::ServeError;

/// How a program ends: its exit status.
#[derive(Clone, Copy, Debug, PartialEq, Eq)]
pub enum Status {
    /// All was done. Of a server: `exit` came after `shutdown`.
    Done = 0,
    /// `exit` came without `shutdown`, or the input ended before it.
    Unfinished = 1,
    /// The arguments are none of the program's.
    Usage = 2,
    /// A read failed.
    ReadFault = 3,
    /// A write failed.
    WriteFault = 4,
    /// The most reads that can be counted were made.
    ReadsSpent = 5,
    /// Out of memory.
    NoMemory = 6,
    /// The desk had no turns left.
    DeskSpent = 7,
    /// The input isn't of the form that the program reads.
    BadInput = 8,
}

/// The exit status of a program whose serving or relaying ended with this error.
pub fn status_of(error: ServeError) -> u8
    ensures { result ≡ status_of_def error }
{
    match error {
        ServeError::ReadFault => Status::ReadFault as u8,
        ServeError::WriteFault => Status::WriteFault as u8,
        ServeError::ReadsSpent => Status::ReadsSpent as u8,
        ServeError::NoMemory => Status::NoMemory as u8,
        ServeError::DeskSpent(_) => Status::DeskSpent as u8,
    }
}
