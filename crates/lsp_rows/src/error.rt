// Why a table does not hold.
ghost use Rattle.std.specs.Prelude.{◌≡◌, OnOk};

use lsp_shape::NoMemory;
use std::alloc::{AllocError, Global};
use std::error::Error;
use std::fmt;

// How much is told of a line, and of each of the texts, so that a test's failure has room for all
// three.
const HEAD: usize = 80;

const PIECE: usize = 150;
// How much of what both texts have is told before the place where they part.
const BEFORE: usize = 30;

/// Why a table does not hold.
#[derive(Drop)]
pub enum RowError {
    /// A line is not true of the type.
    Untrue {
        /// How the line begins.
        line: String,
        /// What was expected, from shortly before the place where the two part.
        expected: String,
        /// What came in its place, from there.
        found: String,
    },
    /// Out of memory.
    NoMemory,
}

impl fmt::Display for RowError {
    fn fmt<W: fmt::Write>(&self, f: &mut fmt::Formatter<W>) -> fmt::Result {
        match self {
            RowError::Untrue {
                line,
                expected,
                found,
            } => write!(f, "`{line}`: expected {expected}, found {found}"),
            RowError::NoMemory => f.write_str("out of memory"),
        }
    }
}

// A test shows an error by its `Debug`.
impl fmt::Debug for RowError {
    fn fmt<W: fmt::Write>(&self, f: &mut fmt::Formatter<W>) -> fmt::Result {
        write!(f, "{self}")
    }
}

impl Error for RowError {}

impl From<NoMemory> for RowError {
    fn from(_error: NoMemory) -> RowError {
        RowError::NoMemory
    }
}

impl From<AllocError> for RowError {
    fn from(_error: AllocError) -> RowError {
        RowError::NoMemory
    }
}

fn cut(alloc: Global, text: &str, from: usize, most: usize) -> Result<String, AllocError> {
    text.chars().skip(from).take(most).collect(alloc)
}

/// The error of a line of which something else was expected than was found.
pub(crate) fn untrue(
    alloc: Global,
    line: &str,
    expected: &str,
    found: &str,
) -> Result<RowError, AllocError> {
    let same = expected
        .chars()
        .zip(found.chars())
        .take_while(|(a, b)| a == b)
        .count();
    let from = same.saturating_sub(BEFORE);
    Ok(RowError::Untrue {
        line: cut(alloc, line, 0, HEAD)?,
        expected: cut(alloc, expected, from, PIECE)?,
        found: cut(alloc, found, from, PIECE)?,
    })
}

pub(crate) fn compare(
    alloc: Global,
    line: &str,
    expected: &str,
    found: &str,
) -> Result<(), RowError>
    ensures { OnOk result (found.now ≡ expected.now) }
{
    if found == expected {
        return Ok(());
    }
    Err(untrue(alloc, line, expected, found)?)
}
