//! Which documents are open, and where positions are.
use crate::events::Change::{self, Part, Whole};
use crate::events::{URI, make_changes, open};
use lsp_base::Position;
use lsp_documents::{Document, Documents};
use lsp_rows::{RowError, Trial};
use std::alloc::Global;

// What the editor tells, or what is asked, of the document of a URI.
enum Call {
    Open(&'static str, i32, &'static str),
    // Of that of `URI`, with that `rangeLength`.
    Change(i32, Option<u32>, &'static [Change]),
    Close(&'static str),
    Get(&'static str),
}

// A name, a call, and what `Debug` shows of what it gives: of a document its version and its text.
struct Row(&'static str, Call, &'static str);

const CALLS: &[Row] = &[
    Row("one is opened", Call::Open("file:///a", 5, "ab"), "Ok(())"),
    Row(
        "it is open",
        Call::Open("file:///a", 6, "cd"),
        "Err(AlreadyOpen)",
    ),
    Row("the first stays", Call::Get("file:///a"), r#"(5, "ab")"#),
    Row(
        "another text of a URI",
        Call::Open("file:///A", 1, "ef"),
        "Ok(())",
    ),
    Row("a change", Call::Change(4, None, &[Whole("gh")]), "Ok(())"),
    Row(
        "its version went back",
        Call::Get("file:///a"),
        r#"(4, "gh")"#,
    ),
    Row("no change", Call::Change(7, None, &[]), "Ok(())"),
    Row("it has a version", Call::Get("file:///a"), r#"(7, "gh")"#),
    Row(
        "a bad range",
        Call::Change(8, None, &[Part(0, 2, 0, 1, "x")]),
        "Err(StartBehindEnd)",
    ),
    Row("nothing changed", Call::Get("file:///a"), r#"(7, "gh")"#),
    Row(
        "a length that lies",
        Call::Change(8, Some(99), &[Part(0, 0, 0, 1, "i")]),
        "Ok(())",
    ),
    Row("is ignored", Call::Get("file:///a"), r#"(8, "ih")"#),
    Row("the other stays", Call::Get("file:///A"), r#"(1, "ef")"#),
    Row("one is closed", Call::Close("file:///a"), r#"(8, "ih")"#),
    Row("it is not open", Call::Get("file:///a"), "None"),
    Row("nor is it closed again", Call::Close("file:///a"), "None"),
    Row(
        "nor changed",
        Call::Change(9, None, &[Whole("gh")]),
        "Err(NotOpen)",
    ),
    Row("opened again", Call::Open("file:///a", 1, TEXT), "Ok(())"),
];

// The text in which places are sought at the end.
const TEXT: &str = "aé😀b\r\ncd\n";

// Shows the version and the text.
fn shows(trial: &mut Trial, what: &str, document: Option<&Document>, shown: &str) {
    match document {
        Some(document) => trial.shows(what, (document.version(), document.text()), shown),
        None => trial.same(what, "None", shown),
    }
}

// A call gives what `Debug` shows so.
fn try_call(trial: &mut Trial, alloc: Global, documents: &mut Documents, row: &Row) {
    let Row(what, call, gives) = row;
    match call {
        Call::Open(uri, version, text) => {
            let opened = open(alloc, documents, uri, *version, "", text);
            trial.shows(*what, opened, gives);
        }
        Call::Change(version, range_length, changes) => {
            let start = Position::default();
            let made = make_changes(alloc, documents, *version, *range_length, start, changes);
            trial.shows(*what, made, gives);
        }
        Call::Close(uri) => {
            let closed = documents.close(uri);
            shows(trial, what, closed.as_ref(), gives);
        }
        Call::Get(uri) => shows(trial, what, documents.get(uri), gives),
    }
}

// Lines and characters, and the bytes at which they are.
struct Offset(&'static str, u32, u32, usize);

const OFFSETS: &[Offset] = &[
    Offset("behind two bytes", 0, 2, 3),
    Offset("in a pair", 0, 3, 3),
    Offset("behind a pair", 0, 4, 7),
    Offset("past the line", 0, 9, 8),
    Offset("the next line", 1, 1, 11),
    Offset("the last line", 2, 0, 13),
];

// Bytes, and what `Debug` shows of the position that begins there.
struct Place(&'static str, usize, &'static str);

const PLACES: &[Place] = &[
    Place(
        "the byte of a pair",
        3,
        "Some(Position { line: 0, character: 2 })",
    ),
    Place("in a character", 4, "None"),
    Place(
        "before CR LF",
        8,
        "Some(Position { line: 0, character: 5 })",
    ),
    Place(
        "between CR and LF",
        9,
        "Some(Position { line: 0, character: 6 })",
    ),
    Place(
        "behind CR LF",
        10,
        "Some(Position { line: 1, character: 0 })",
    ),
    Place("the end", 13, "Some(Position { line: 2, character: 0 })"),
    Place("past the end", 14, "None"),
];

fn try_places(trial: &mut Trial, document: &Document) {
    for Offset(what, line, character, offset) in OFFSETS {
        let found = document.offset(Position::new(*line, *character));
        trial.same(*what, found, *offset);
    }
    for Place(what, offset, shown) in PLACES {
        trial.shows(*what, document.position(*offset), shown);
    }
}

#[test]
fn documents_are_as_the_rows_say(rt: HostRuntime) -> Result<(), RowError> {
    let mut documents = Documents::new(rt.alloc());
    let mut trial = Trial::new(rt.alloc());
    for row in CALLS {
        try_call(&mut trial, rt.alloc(), &mut documents, row);
    }
    match documents.get(URI) {
        Some(document) => try_places(&mut trial, document),
        None => trial.is_true("it is open", false),
    }
    drop(documents);
    trial.end()
}
