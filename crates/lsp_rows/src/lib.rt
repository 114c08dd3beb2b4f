//! What tests are written with: tables of texts that tell what a type of the protocol is read from
//! and what is written of it, and `Trial`, which tries tables and values in turn.
//!
//! A table has a line for each text:
//!
//!     TEXT            the text is read, and the same value is written
//!     TEXT => TEXT    the first is read, and the second is written
//!     TEXT :: SHOWN   the text is read and written, and Debug shows this of what it is read as
//!     ! TEXT :: WHY   the text does not fit, and `why_unfit` says that of it
//!     ? WORDS         what the first text is without each of its members in turn: it does not fit
//!                     without a MEMBER of the words, is written with VALUE as the member for
//!                     MEMBER=VALUE, and without it for any other
//!     # SOURCE        who sent the text of the next line
#![tactic(auto)]

mod error;
mod members;
mod question;
mod table;
mod told;
mod trial;

ghost use Rattle.std.specs.Prelude.{◌≡◌, false, IfOk, string_bytes};
ghost use Rattle.serde_json.specs.Written.{compact_text, has_float};
ghost use Rattle.lsp_shape.specs.Write.{write};

pub use error::RowError;
use lsp_shape::{NoMemory, Wire, write_text};
use std::alloc::Global;
use std::fmt;
use table::Table;
use told::tell;
pub use trial::Trial;

/// What is written for the value.
pub fn text_of<T: Wire>(alloc: Global, value: &T) -> Result<String, NoMemory>
    ensures { let written = write T.shape (T.shown value.now) in
        IfOk result (λ s. has_float written ≡ false → string_bytes s ≡ compact_text written) }
{
    write_text(alloc, value)
}

/// Tries each line of the table on the type. The error has the first that is not true of it.
///
/// It is compiled for each type that a test names, so what is the same for all of them stands in
/// functions of its own, and a failure is told at the end.
pub fn holds<T: Wire + fmt::Debug>(alloc: Global, rows: &str) -> Result<(), RowError> {
    let mut table = Table::new(alloc, rows);
    let told = tell::<T>(alloc, table.first());
    table.ask(rows, told);
    for number in 0..table.len() {
        let told = tell::<T>(alloc, table.question(number));
        table.compare(number, told);
    }
    table.end()
}
