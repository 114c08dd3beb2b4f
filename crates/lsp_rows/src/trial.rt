// What a test tries in turn.
ghost use Rattle.std.specs.Prelude.{OnOk};

use crate::error::{RowError, compare, untrue};
use crate::question::Question;
use crate::told::Told;
use crate::{holds, text_of};
use lsp_shape::{Wire, attempt};
use std::alloc::{AllocError, Global};
use std::fmt::{Debug, Display};

// The two texts are the same. What stands between is the same for all types, and so is compiled
// once.
fn is_text(
    alloc: Global,
    line: Result<String, AllocError>,
    expected: &str,
    found: Result<String, AllocError>,
) -> Result<(), RowError> {
    compare(alloc, line?.as_str(), expected, found?.as_str())
}

// An error's line is what Debug shows of the value, since that has the type's name.
fn is_written<T: Wire + Debug>(alloc: Global, value: &T, text: &str) -> Result<(), RowError> {
    let found = text_of(alloc, value)?;
    is_text(alloc, format!(in alloc; "{value:?}"), text, Ok(found))
}

// The copy is written and shown as the value is.
fn is_copy<T: Wire + Debug>(alloc: Global, value: &T, copy: &T) -> Result<(), RowError> {
    is_written(alloc, copy, text_of(alloc, value)?.as_str())?;
    let shown = format!(in alloc; "{value:?}")?;
    is_text(
        alloc,
        Ok(text_of(alloc, copy)?),
        shown.as_str(),
        format!(in alloc; "{copy:?}"),
    )
}

fn clones<T: Wire + Clone + Debug>(alloc: Global, rows: &str) -> Result<(), RowError> {
    let first = Question::first(alloc, rows)?;
    match attempt::<T>(alloc, &first.value)? {
        Some(value) => is_copy(alloc, &value, &value.clone()?),
        None => first.compare(alloc, Told::Written(Ok(None))),
    }
}

// The error of a value that is another one than was expected, also where Debug shows both alike.
fn is_other(
    alloc: Global,
    what: Result<String, AllocError>,
    expected: Result<String, AllocError>,
    found: Result<String, AllocError>,
) -> Result<(), RowError>
    ensures { OnOk result ⊥ }
{
    let what = what?;
    let expected = expected?;
    let found = found?;
    Err(untrue(alloc, what.as_str(), expected.as_str(), found.as_str())?)
}

fn is_same<W: Display, T: PartialEq + Debug>(
    alloc: Global,
    what: &W,
    found: &T,
    expected: &T,
) -> Result<(), RowError> {
    if *found == *expected {
        return Ok(());
    }
    is_other(
        alloc,
        format!(in alloc; "{what}"),
        format!(in alloc; "{expected:?}"),
        format!(in alloc; "{found:?}"),
    )
}

/// Tables and values that are tried in turn. `end` tells the first that is not as it should be, and
/// after that one nothing more is tried. So a test has neither a `?` nor an `assert_eq!` a line:
/// the one costs the prover about a second, the other more than three, and both more the longer the
/// function is.
///
/// `what` says which value it is: a name, or a number.
#[derive(Drop)]
pub struct Trial {
    alloc: Global,
    found: Result<(), RowError>,
}

impl Trial {
    /// Nothing is tried yet.
    pub fn new(alloc: Global) -> Trial {
        Trial {
            alloc,
            found: Ok(()),
        }
    }

    // Notes what came of the next.
    fn note(&mut self, found: Result<(), RowError>) {
        self.found = found;
    }

    /// Each line of the table is true of the type.
    pub fn holds<T: Wire + Debug>(&mut self, rows: &str) {
        if self.found.is_ok() {
            self.note(holds::<T>(self.alloc, rows));
        }
    }

    /// A clone of what the first text of the table is read as is shown and written as that is.
    pub fn clones<T: Wire + Clone + Debug>(&mut self, rows: &str) {
        if self.found.is_ok() {
            self.note(clones::<T>(self.alloc, rows));
        }
    }

    /// The text is what is written for the value.
    pub fn is_written<T: Wire + Debug>(&mut self, value: T, text: &str) {
        if self.found.is_ok() {
            self.note(is_written(self.alloc, &value, text));
        }
    }

    /// The text is what is written for the type's default.
    pub fn default<T: Wire + Default + Debug>(&mut self, text: &str) {
        if self.found.is_ok() {
            self.note(is_written(self.alloc, &T::default(), text));
        }
    }

    /// The two values are equal.
    pub fn same<W: Display + Drop, T: PartialEq + Debug + Drop>(
        &mut self,
        what: W,
        found: T,
        expected: T,
    ) {
        if self.found.is_ok() {
            self.note(is_same(self.alloc, &what, &found, &expected));
        }
    }

    /// `Debug` shows the value so.
    pub fn shows<W: Display + Drop, T: Debug + Drop>(&mut self, what: W, value: T, shown: &str) {
        if self.found.is_ok() {
            let alloc = self.alloc;
            self.note(is_text(
                alloc,
                format!(in alloc; "{what}"),
                shown,
                format!(in alloc; "{value:?}"),
            ));
        }
    }

    /// The call gave that text, and no error.
    pub fn text<W: Display + Drop, E: Debug + Drop>(
        &mut self,
        what: W,
        found: Result<String, E>,
        expected: &str,
    ) {
        if self.found.is_ok() {
            let alloc = self.alloc;
            let found = match found {
                Ok(text) => Ok(text),
                Err(error) => format!(in alloc; "the error {error:?}"),
            };
            self.note(is_text(alloc, format!(in alloc; "{what}"), expected, found));
        }
    }

    /// It is so.
    pub fn is_true<W: Display + Drop>(&mut self, what: W, is_so: bool) {
        if self.found.is_ok() {
            self.note(is_same(self.alloc, &what, &is_so, &true));
        }
    }

    /// Why the first that was not as it should be wasn't.
    pub fn end(self) -> Result<(), RowError> {
        self.found
    }
}
