//! What changes make of a text: each row by hand from LSP 3.17, "Position" and
//! "TextDocumentContentChangeEvent".
use crate::events::Change::{self, Part, Whole};
use crate::events::{URI, has_text, make_changes, open};
use lsp_base::Position;
use lsp_documents::Documents;
use lsp_rows::{RowError, Trial};
use std::alloc::{AllocError, Global};

// A name, a text, changes of it, and the text after them; none where they are refused.
struct Row(
    &'static str,
    &'static str,
    &'static [Change],
    Option<&'static str>,
);

const FAR: u32 = u32::MAX;

// Characters are UTF-16 units.
const UNITS: &[Row] = &[
    Row("a pair", "a😀b\n", &[Part(0, 1, 0, 3, "x")], Some("axb\n")),
    Row("half a pair", "a😀b", &[Part(0, 2, 0, 2, "x")], Some("ax😀b")),
    Row(
        "up to half a pair",
        "a😀b",
        &[Part(0, 0, 0, 2, "x")],
        Some("x😀b"),
    ),
    Row(
        "from half a pair",
        "a😀b",
        &[Part(0, 2, 0, 4, "x")],
        Some("ax"),
    ),
    Row(
        "half a pair behind its start",
        "a😀b",
        &[Part(0, 2, 0, 1, "x")],
        Some("ax😀b"),
    ),
    Row("two bytes", "aéb", &[Part(0, 2, 0, 2, "x")], Some("aéxb")),
    Row("three bytes", "a漢b", &[Part(0, 1, 0, 2, "x")], Some("axb")),
    Row(
        "the last of one unit",
        "\u{ffff}b",
        &[Part(0, 1, 0, 1, "x")],
        Some("\u{ffff}xb"),
    ),
    Row(
        "the first of two",
        "\u{10000}b",
        &[Part(0, 1, 0, 1, "x")],
        Some("x\u{10000}b"),
    ),
];

// Lines have three ends.
const ENDS: &[Row] = &[
    Row(
        "all three",
        "a\rb\nc\r\nd",
        &[Part(3, 0, 3, 0, "x")],
        Some("a\rb\nc\r\nxd"),
    ),
    Row(
        "LF CR are two",
        "a\n\rb",
        &[Part(2, 0, 2, 0, "x")],
        Some("a\n\rxb"),
    ),
    Row(
        "CR CR LF are two",
        "a\r\r\nb",
        &[Part(2, 0, 2, 0, "x")],
        Some("a\r\r\nxb"),
    ),
    Row(
        "no other end",
        "a\u{2028}b",
        &[Part(1, 0, 1, 0, "x")],
        Some("a\u{2028}bx"),
    ),
    Row(
        "behind CR LF",
        "a\r\nb",
        &[Part(0, 2, 0, 2, "x")],
        Some("ax\r\nb"),
    ),
    Row(
        "up to the end",
        "a\r\nb",
        &[Part(0, 9, 7, 0, "")],
        Some("a"),
    ),
    Row(
        "an end is taken out",
        "a\r\nb",
        &[Part(0, 1, 1, 0, "")],
        Some("ab"),
    ),
    Row(
        "an empty last line",
        "a\n",
        &[Part(1, 0, 1, 0, "x")],
        Some("a\nx"),
    ),
    Row(
        "CR and LF become one",
        "a\rb",
        &[Part(1, 0, 1, 0, "\n"), Part(1, 0, 1, 0, "x")],
        Some("a\r\nxb"),
    ),
    Row(
        "CR and LF set apart",
        "\r\nb",
        &[Part(0, 0, 1, 0, "\r \n"), Part(1, 0, 1, 1, "x")],
        Some("\rx\nb"),
    ),
];

// What is past the end is at the end.
const PAST: &[Row] = &[
    Row(
        "a character",
        "ab\ncd",
        &[Part(0, 9, 0, 9, "x")],
        Some("abx\ncd"),
    ),
    Row(
        "a line",
        "ab\ncd",
        &[Part(2, 0, 2, 0, "x")],
        Some("ab\ncdx"),
    ),
    Row(
        "both by far",
        "ab\ncd",
        &[Part(FAR, FAR, FAR, FAR, "x")],
        Some("ab\ncdx"),
    ),
    Row("all", "ab\ncd", &[Part(0, 0, FAR, FAR, "")], Some("")),
    Row("no text", "", &[Part(0, 0, 3, 3, "x")], Some("x")),
    Row(
        "ends at one place",
        "ab",
        &[Part(0, 9, 0, 7, "x")],
        Some("abx"),
    ),
    Row(
        "a line and a character",
        "ab",
        &[Part(1, 0, 0, 9, "x")],
        Some("abx"),
    ),
    Row("behind in the line", "abc", &[Part(0, 2, 0, 1, "x")], None),
    Row("behind by a line", "ab\ncd", &[Part(1, 0, 0, 2, "x")], None),
];

// Changes are made in order, or not at all.
const ORDER: &[Row] = &[
    Row("none", "ab", &[], Some("ab")),
    Row("an empty one", "ab", &[Part(0, 1, 0, 1, "")], Some("ab")),
    Row("the whole", "ab", &[Whole("c")], Some("c")),
    Row("the whole by nothing", "ab", &[Whole("")], Some("")),
    Row(
        "the second in what the first left",
        "ab",
        &[Part(0, 0, 0, 0, "x\n"), Part(1, 0, 1, 1, "y")],
        Some("x\nyb"),
    ),
    Row(
        "one of the whole, one of a range",
        "ab",
        &[Whole("hello"), Part(0, 0, 0, 1, "J")],
        Some("Jello"),
    ),
    Row(
        "a start that was behind its end before",
        "ab",
        &[Part(0, 0, 0, 1, ""), Part(0, 2, 0, 1, "x")],
        Some("bx"),
    ),
    Row(
        "the second is refused",
        "ab",
        &[Whole("hello"), Part(0, 2, 0, 1, "x")],
        None,
    ),
];

// A row that stands behind many pieces, each of which moves its ranges by so many lines and
// characters.
struct Edge {
    piece: &'static str,
    lines: u32,
    characters: u32,
    row: Row,
}

const EDGES: &[Edge] = &[
    Edge {
        piece: "x",
        lines: 0,
        characters: 0,
        row: Row(
            "behind CR LF",
            "\r\nb",
            &[Part(1, 0, 1, 0, "y")],
            Some("\r\nyb"),
        ),
    },
    Edge {
        piece: "x",
        lines: 0,
        characters: 1,
        row: Row("behind a pair", "😀b", &[Part(0, 2, 0, 2, "y")], Some("😀yb")),
    },
    Edge {
        piece: "x",
        lines: 0,
        characters: 1,
        row: Row(
            "a pair from its half",
            "😀b",
            &[Part(0, 1, 0, 2, "y")],
            Some("yb"),
        ),
    },
    Edge {
        piece: "\n",
        lines: 1,
        characters: 0,
        row: Row(
            "behind empty lines",
            "ab",
            &[Part(0, 1, 0, 1, "y")],
            Some("ayb"),
        ),
    },
];

// The changes, so many lines and characters further on, make that text behind another, or are
// refused and leave the one before.
fn try_row(trial: &mut Trial, alloc: Global, by: Position, before: &str, row: &Row) {
    let Row(what, text, changes, after) = row;
    let mut documents = Documents::new(alloc);
    let opened = open(alloc, &mut documents, URI, 1, before, text);
    trial.shows(*what, opened, "Ok(())");
    let (shown, left) = match after {
        Some(after) => ("Ok(())", after),
        None => ("Err(StartBehindEnd)", text),
    };
    let made = make_changes(alloc, &mut documents, 2, None, by, changes);
    trial.shows(*what, made, shown);
    has_text(trial, *what, &documents, before, left);
    drop(documents);
}

fn try_rows(trial: &mut Trial, alloc: Global, rows: &[Row]) {
    for row in rows {
        try_row(trial, alloc, Position::default(), "", row);
    }
}

// Lines and code units are counted in blocks: an end of a line and a pair on each side of their
// bounds and across them.
fn try_edge(trial: &mut Trial, alloc: Global, edge: &Edge) -> Result<(), AllocError> {
    for times in 234..246 {
        let before = edge.piece.repeat(alloc, times as usize)?;
        let by = Position::new(
            edge.lines.saturating_mul(times),
            edge.characters.saturating_mul(times),
        );
        try_row(trial, alloc, by, before.as_str(), &edge.row);
    }
    Ok(())
}

// A table of tables would cost the prover more than twice the time of all of them.
#[test]
fn changes_make_the_texts_of_the_rows(rt: HostRuntime) -> Result<(), RowError> {
    let mut trial = Trial::new(rt.alloc());
    try_rows(&mut trial, rt.alloc(), UNITS);
    try_rows(&mut trial, rt.alloc(), ENDS);
    try_rows(&mut trial, rt.alloc(), PAST);
    try_rows(&mut trial, rt.alloc(), ORDER);
    for edge in EDGES {
        let tried = try_edge(&mut trial, rt.alloc(), edge);
        trial.is_true("there is memory", tried.is_ok());
    }
    trial.end()
}
