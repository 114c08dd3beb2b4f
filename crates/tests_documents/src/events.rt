//! A document that is opened, and changed as tables say.
use lsp_base::{Position, Range, TextDocumentContentChangeEvent};
use lsp_documents::{ChangeError, Documents, OpenError};
use lsp_rows::Trial;
use std::alloc::{AllocError, Global};
use std::fmt::Display;

/// The document that is changed.
pub(crate) const URI: &str = "file:///a";

/// A change of the part from a line and a character to others, or of the whole text.
pub(crate) enum Change {
    Part(u32, u32, u32, u32, &'static str),
    Whole(&'static str),
}

/// Opens a document that has a text behind another.
pub(crate) fn open(
    alloc: Global,
    documents: &mut Documents,
    uri: &str,
    version: i32,
    before: &str,
    text: &str,
) -> Result<(), OpenError> {
    let mut whole = String::from_str(alloc, before)?;
    whole.push_str(text)?;
    documents.open(uri, version, whole)
}

// The position so many lines and characters further on.
fn further(by: Position, line: u32, character: u32) -> Position {
    Position::new(
        line.saturating_add(by.line),
        character.saturating_add(by.character),
    )
}

fn event(
    alloc: Global,
    by: Position,
    range_length: Option<u32>,
    change: &Change,
) -> Result<TextDocumentContentChangeEvent, AllocError> {
    let (range, text) = match change {
        Change::Whole(text) => (None, text),
        Change::Part(line, character, last, end, text) => {
            let start = further(by, *line, *character);
            (Some(Range::new(start, further(by, *last, *end))), text)
        }
    };
    Ok(TextDocumentContentChangeEvent {
        range,
        range_length,
        text: String::from_str(alloc, text)?,
    })
}

/// Makes the changes of the document, each so many lines and characters further on, with that
/// version and `rangeLength`.
pub(crate) fn make_changes(
    alloc: Global,
    documents: &mut Documents,
    version: i32,
    range_length: Option<u32>,
    by: Position,
    changes: &[Change],
) -> Result<(), ChangeError> {
    let mut events = Vec::new(alloc);
    for change in changes {
        let event = event(alloc, by, range_length, change)?;
        let Ok(()) = events.push(event) else {
            return Err(ChangeError::NoMemory);
        };
    }
    documents.change(URI, version, events.as_slice())
}

/// The document has a text behind another.
pub(crate) fn has_text<W: Display + Drop>(
    trial: &mut Trial,
    what: W,
    documents: &Documents,
    before: &str,
    text: &str,
) {
    let found = match documents.get(URI) {
        Some(document) => document.text().strip_prefix(before),
        None => None,
    };
    trial.same(what, found, Some(text));
}
