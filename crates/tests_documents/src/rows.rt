//! Queries over a small dump, with the status and what is written.
ghost use Rattle.std.specs.Prelude.{◌<◌};

use crate::dump::put_text;
use lsp_index::answer;
use lsp_rows::{RowError, Trial};
use lsp_server::{MemorySink, MemorySource};
use std::alloc::{AllocError, Global};

// A document of two ranges, of which the second leads over an edge `next` to its definition, which
// is the first.
const DUMP: &str = r#"{"id":1,"type":"vertex","label":"document","uri":"file:///a","languageId":"x"}
{"id":2,"type":"vertex","label":"range","start":{"line":0,"character":0},"end":{"line":0,"character":3}}
{"id":3,"type":"vertex","label":"range","start":{"line":1,"character":0},"end":{"line":1,"character":3}}
{"id":4,"type":"vertex","label":"resultSet"}
{"id":5,"type":"edge","label":"next","outV":3,"inV":4}
{"id":6,"type":"vertex","label":"definitionResult"}
{"id":7,"type":"edge","label":"textDocument/definition","outV":4,"inV":6}
{"id":8,"type":"edge","label":"item","outV":6,"inVs":[2],"document":1}
{"id":9,"type":"edge","label":"contains","outV":1,"inVs":[2,3]}
"#;

// What follows `{"id":9` in the dump, which is all of its last line.
const LAST: &str = ",\"type\":\"edge\",\"label\":\"contains\",\"outV\":1,\"inVs\":[2,3]}\n";

// The words, what stands after the dump, and the status with what is written.
const ROWS: &[[&str; 3]] = &[
    [
        "definition file:///a 1 1",
        "",
        "0 [{\"range\":{\"end\":{\"character\":3,\"line\":0},\"start\":{\"character\":0,\"line\":0}},\"uri\":\"file:///a\"}]\n",
    ],
    // A position at the end of a range is outside.
    ["definition file:///a 1 3", "", "0 []\n"],
    ["hover file:///a 1 1", "", "0 null\n"],
    ["references file:///a 1 1", "", "0 []\n"],
    ["definition file:///b 1 1", "", "0 []\n"],
    ["definition file:///a 0 1", "", "0 []\n"],
    // A location that was given is left out later.
    [
        "definition file:///a 1 1",
        r#"{"id":10,"type":"edge","label":"item","outV":6,"inVs":[2,2],"document":1}"#,
        "0 [{\"range\":{\"end\":{\"character\":3,\"line\":0},\"start\":{\"character\":0,\"line\":0}},\"uri\":\"file:///a\"}]\n",
    ],
    // Of two vertices with one id the first counts; a number and a text are different ids.
    [
        "definition file:///a 1 1",
        "{\"id\":2,\"type\":\"vertex\",\"label\":\"resultSet\"}\n{\"id\":\"4\",\"type\":\"vertex\",\"label\":\"document\",\"uri\":\"file:///a\",\"languageId\":\"x\"}",
        "0 [{\"range\":{\"end\":{\"character\":3,\"line\":0},\"start\":{\"character\":0,\"line\":0}},\"uri\":\"file:///a\"}]\n",
    ],
    [
        "hover file:///a 1 1",
        "{\"id\":10,\"type\":\"vertex\",\"label\":\"hoverResult\",\"result\":{\"contents\":\"x\",\"more\":1.5}}\r\n\r\n{\"id\":11,\"type\":\"edge\",\"label\":\"textDocument/hover\",\"outV\":4,\"inV\":10}\r\n",
        "0 {\"contents\":\"x\"}\n",
    ],
    // Further results are gone through once, also in a circle, and those in them that are no places
    // are left out.
    [
        "references file:///a 1 1",
        r#"{"id":10,"type":"vertex","label":"referenceResult"}
{"id":11,"type":"vertex","label":"referenceResult"}
{"id":12,"type":"edge","label":"textDocument/references","outV":3,"inV":10}
{"id":13,"type":"edge","label":"item","outV":10,"inVs":[11,10],"document":1,"property":"referenceResults"}
{"id":14,"type":"edge","label":"item","outV":11,"inVs":[10,3,99],"document":1,"property":"references"}
{"id":15,"type":"edge","label":"item","outV":11,"inVs":[10],"document":1,"property":"referenceResults"}
{"id":16,"type":"edge","label":"item","outV":11,"inVs":[2],"document":1}
{"id":17,"type":"edge","label":"item","outV":11,"inVs":[2],"document":2,"property":"definitions"}"#,
        "0 [{\"range\":{\"end\":{\"character\":3,\"line\":1},\"start\":{\"character\":0,\"line\":1}},\"uri\":\"file:///a\"}]\n",
    ],
    // The range that starts last is chosen, and a circle of edges `next` leads nowhere.
    [
        "definition file:///a 1 1",
        r#"{"id":10,"type":"vertex","label":"range","start":{"line":1,"character":1},"end":{"line":2,"character":0}}
{"id":11,"type":"edge","label":"contains","outV":1,"inVs":[10]}
{"id":12,"type":"edge","label":"next","outV":10,"inV":11}
{"id":13,"type":"edge","label":"next","outV":11,"inV":10}"#,
        "0 []\n",
    ],
    // Edges that name vertices that aren't there: the walk goes over them, and what they lead to is
    // passed over.
    [
        "definition file:///a 0 1",
        r#"{"id":10,"type":"edge","label":"next","outV":2,"inV":77}
{"id":11,"type":"edge","label":"textDocument/definition","outV":77,"inV":88}
{"id":12,"type":"edge","label":"item","outV":88,"inVs":[99,3],"document":1}
{"id":13,"type":"edge","label":"contains","outV":99,"inVs":[99,2]}"#,
        "0 [{\"range\":{\"end\":{\"character\":3,\"line\":1},\"start\":{\"character\":0,\"line\":1}},\"uri\":\"file:///a\"}]\n",
    ],
    [
        "definition file:///a 0 1",
        r#"{"id":10,"type":"edge","label":"textDocument/definition","outV":2,"inV":88}
{"id":11,"type":"edge","label":"item","outV":88,"inVs":[3],"document":99}"#,
        "0 []\n",
    ],
    [
        "definition file:///a 0 1",
        r#"{"id":10,"type":"edge","label":"next","outV":2,"inV":77}"#,
        "0 []\n",
    ],
    [
        "references file:///a 0 1",
        r#"{"id":10,"type":"edge","label":"textDocument/references","outV":2,"inV":88}
{"id":11,"type":"edge","label":"item","outV":88,"inVs":[77,99],"document":99,"property":"referenceResults"}
{"id":12,"type":"edge","label":"item","outV":99,"inVs":[3],"document":1,"property":"references"}"#,
        "0 [{\"range\":{\"end\":{\"character\":3,\"line\":1},\"start\":{\"character\":0,\"line\":1}},\"uri\":\"file:///a\"}]\n",
    ],
    [
        "hover file:///a 0 1",
        r#"{"id":10,"type":"edge","label":"textDocument/hover","outV":2,"inV":99}"#,
        "0 null\n",
    ],
    // Nor is a set a hover, or a range that no edge `contains` names one of the document.
    [
        "hover file:///a 0 1",
        r#"{"id":10,"type":"edge","label":"textDocument/hover","outV":2,"inV":4}"#,
        "0 null\n",
    ],
    [
        "definition file:///a 5 1",
        r#"{"id":10,"type":"vertex","label":"range","start":{"line":5,"character":0},"end":{"line":5,"character":3}}
{"id":11,"type":"edge","label":"next","outV":10,"inV":4}
{"id":12,"type":"edge","label":"contains","outV":3,"inVs":[10]}"#,
        "0 []\n",
    ],
    // Circles of edges `next`: of one, of three, and one that is left by a result.
    [
        "definition file:///a 0 1",
        r#"{"id":10,"type":"edge","label":"next","outV":2,"inV":2}"#,
        "0 []\n",
    ],
    [
        "references file:///a 0 1",
        r#"{"id":10,"type":"edge","label":"next","outV":2,"inV":10}
{"id":11,"type":"edge","label":"next","outV":10,"inV":11}
{"id":12,"type":"edge","label":"next","outV":11,"inV":2}"#,
        "0 []\n",
    ],
    [
        "definition file:///a 0 1",
        r#"{"id":10,"type":"edge","label":"next","outV":2,"inV":10}
{"id":11,"type":"edge","label":"next","outV":10,"inV":2}
{"id":12,"type":"edge","label":"textDocument/definition","outV":10,"inV":6}"#,
        "0 [{\"range\":{\"end\":{\"character\":3,\"line\":0},\"start\":{\"character\":0,\"line\":0}},\"uri\":\"file:///a\"}]\n",
    ],
    // Words of another form.
    ["definition file:///a 1", "", "2 "],
    ["definition file:///a 1 1 1", "", "2 "],
    ["declaration file:///a 1 1", "", "2 "],
    ["definition file:///%a 1 1", "", "2 "],
    ["definition file:///a +1 1", "", "2 "],
    ["definition file:///a 1 4294967296", "", "2 "],
    ["hover file:///a 4294967295 04294967295", "", "0 null\n"],
    ["--help", "", "2 "],
    // Bad lines.
    ["definition file:///a 1 1", "{\"id\":9", "8 "],
    ["definition file:///a 1 1", "[]\n", "8 "],
    ["definition file:///a 1 1", "\r", "8 "],
    ["definition file:///a 1 1", " \n", "8 "],
    ["definition file:///a 1 1", "\u{feff}\n", "8 "],
    ["hover file:///a 1 1", "\n\r\n\n", "0 null\n"],
];

// What is asked of bytes that are no dump.
const FIRST: &str = "definition file:///a 0 1";

// The same over these bytes alone.
const INPUTS: &[[&str; 3]] = &[
    [FIRST, "", "0 []\n"],
    [FIRST, "\n", "0 []\n"],
    [FIRST, "\r\n", "0 []\n"],
    [
        FIRST,
        "{\"id\":1,\"type\":\"vertex\",\"label\":\"resultSet\"}",
        "0 []\n",
    ],
    // A byte order mark stands in no line.
    [
        FIRST,
        "\u{feff}{\"id\":1,\"type\":\"vertex\",\"label\":\"resultSet\"}\n",
        "8 ",
    ],
    [FIRST, "\u{feff}", "8 "],
    // A CR alone ends no line, and of two before an LF the first stays.
    [FIRST, "\r", "8 "],
    [FIRST, "\r\r\n", "8 "],
    [
        FIRST,
        "{\"id\":1,\"type\":\"vertex\",\"label\":\"resultSet\"}\r{\"id\":2,\"type\":\"vertex\",\"label\":\"resultSet\"}\n",
        "8 ",
    ],
    // Two entries in a line, and one over two lines.
    [
        FIRST,
        "{\"id\":1,\"type\":\"vertex\",\"label\":\"resultSet\"}{\"id\":2,\"type\":\"vertex\",\"label\":\"resultSet\"}\n",
        "8 ",
    ],
    [
        FIRST,
        "{\"id\":1,\"type\":\"vertex\",\n\"label\":\"resultSet\"}\n",
        "8 ",
    ],
    // No entries: of no id, of no kind, of a label that none has, and a list of entries.
    [
        FIRST,
        "{\"type\":\"vertex\",\"label\":\"resultSet\"}\n",
        "8 ",
    ],
    [FIRST, "{\"id\":1,\"label\":\"resultSet\"}\n", "8 "],
    [
        FIRST,
        "{\"id\":1,\"type\":\"vertex\",\"label\":\"x\"}\n",
        "8 ",
    ],
    [
        FIRST,
        "[{\"id\":1,\"type\":\"vertex\",\"label\":\"resultSet\"}]\n",
        "8 ",
    ],
    [FIRST, "\0", "8 "],
];

// Over the dump whose last line is cut.
const CUT: &[[&str; 3]] = &[["definition file:///a 1 1", "", "8 "]];

fn words_of(alloc: Global, text: &str) -> Result<Vec<String>, AllocError> {
    let mut words = Vec::new(alloc);
    for word in text.split(' ') {
        words.push(String::from_str(alloc, word)?)?;
    }
    Ok(words)
}

// Where neither a read nor a call of the sink fails.
pub(crate) const NONE_FAILS: [u32; 2] = [0, 0];

fn source_of(
    alloc: Global,
    dump: &[u8],
    piece: usize,
    failing: u32,
) -> Result<MemorySource, AllocError>
    requires { 0 < piece }
{
    let dump = Vec::from_slice(alloc, dump)?;
    Ok(MemorySource::new(dump, piece, vec![in alloc; u64::from(failing)]?))
}

// The status, and what is written, of the program with these words over the bytes, of which it reads
// so many at a time, where the read and the call of the sink of these numbers fail.
pub(crate) fn run(
    alloc: Global,
    words: &str,
    dump: &[u8],
    piece: usize,
    failing: [u32; 2],
) -> Result<String, AllocError>
    requires { 0 < piece }
{
    let [read, call] = failing;
    let mut source = source_of(alloc, dump, piece, read)?;
    let mut sink = MemorySink::new(alloc, vec![in alloc; u64::from(call)]?);
    let words = words_of(alloc, words)?;
    let status = answer(alloc, &words, &mut source, &mut sink);
    drop(words);
    drop(source);
    let written = String::from_utf8_lossy(alloc, sink.bytes())?;
    format!(in alloc; "{status} {written}")
}

// Two texts, so many bytes of pieces, and another text.
fn text_of(alloc: Global, ends: [&str; 3], piece: &str, length: usize) -> String {
    let mut text = String::new(alloc);
    put_text(&mut text, ends[0]);
    put_text(&mut text, ends[1]);
    for _ in 0..length / piece.len().max(1) {
        put_text(&mut text, piece);
    }
    put_text(&mut text, ends[2]);
    text
}

/// Tries the rows over a dump: each has the words, what stands after the dump, and the status with what
/// is written.
pub(crate) fn try_rows(
    trial: &mut Trial,
    alloc: Global,
    dump: &str,
    piece: usize,
    rows: &[[&str; 3]],
)
    requires { 0 < piece }
{
    for [words, more, expected] in rows {
        let bytes = text_of(alloc, [dump, more, ""], "", 0);
        let found = run(alloc, words, bytes.as_bytes(), piece, NONE_FAILS);
        trial.text(*more, found, expected);
    }
}

#[test]
fn queries(rt: HostRuntime) -> Result<(), RowError> {
    let alloc = rt.alloc();
    let mut trial = Trial::new(alloc);
    try_rows(&mut trial, alloc, DUMP, 7, ROWS);
    try_rows(&mut trial, alloc, "", 7, INPUTS);
    try_rows(&mut trial, alloc, DUMP.trim_end_matches(LAST), 7, CUT);
    let no_text = run(alloc, "definition file:///a 1 1", b"\xff\n", 7, NONE_FAILS);
    trial.text("no text", no_text, "8 ");
    trial.end()
}

// A read or a call of the sink fails, in turn those of these numbers: the status, and what is
// written.
struct Failing {
    is_read: bool,
    first: u32,
    last: u32,
    expected: &'static str,
}

// The dump comes in seven pieces of 100 bytes, and the eighth read tells its end. Each piece is
// followed by a flush, and the end by the write of the line and a flush.
const FAILING: &[Failing] = &[
    Failing {
        is_read: true,
        first: 1,
        last: 8,
        expected: "3 ",
    },
    Failing {
        is_read: true,
        first: 9,
        last: 9,
        expected: "0 [{\"range\":{\"end\":{\"character\":3,\"line\":0},\"start\":{\"character\":0,\"line\":0}},\"uri\":\"file:///a\"}]\n",
    },
    Failing {
        is_read: false,
        first: 1,
        last: 8,
        expected: "4 ",
    },
    Failing {
        is_read: false,
        first: 9,
        last: 9,
        expected: "4 [{\"range\":{\"end\":{\"character\":3,\"line\":0},\"start\":{\"character\":0,\"line\":0}},\"uri\":\"file:///a\"}]\n",
    },
    Failing {
        is_read: false,
        first: 10,
        last: 10,
        expected: "0 [{\"range\":{\"end\":{\"character\":3,\"line\":0},\"start\":{\"character\":0,\"line\":0}},\"uri\":\"file:///a\"}]\n",
    },
];

// Want of memory, status 6, is tried by `.ci/hostile`; no run reaches the last of all reads, status 5.
#[test]
fn each_read_write_and_flush_fails(rt: HostRuntime) -> Result<(), RowError> {
    let alloc = rt.alloc();
    let mut trial = Trial::new(alloc);
    for row in FAILING {
        for number in row.first..=row.last {
            let failing = if row.is_read {
                [number, 0]
            } else {
                [0, number]
            };
            let words = "definition file:///a 1 1";
            let found = run(alloc, words, DUMP.as_bytes(), 100, failing);
            trial.text(number, found, row.expected);
        }
    }
    trial.end()
}

// So long is a line. `.ci/hostile` has lines of 64 MiB.
const MIB: usize = 1_048_576;

// A long line after the dump, made of a piece again and again between two texts, and the status
// with what is written: with the pieces too, between two texts, or without.
struct Long {
    words: &'static str,
    piece: &'static str,
    line: [&'static str; 2],
    expected: [&'static str; 2],
    is_shown: bool,
}

const LONG: &[Long] = &[
    Long {
        words: "hover file:///a 1 1",
        piece: "0123456789abcdefghijklmnopqrstuvwxyzABCDEFGHIJKLMNOPQRSTUVWXYZ-_",
        line: [
            "{\"id\":11,\"type\":\"edge\",\"label\":\"textDocument/hover\",\"outV\":4,\"inV\":10}\n{\"id\":10,\"type\":\"vertex\",\"label\":\"hoverResult\",\"result\":{\"contents\":\"",
            "\"}}\n",
        ],
        expected: ["0 {\"contents\":\"", "\"}\n"],
        is_shown: true,
    },
    // With no end.
    Long {
        words: "definition file:///a 1 1",
        piece: "0123456789abcdefghijklmnopqrstuvwxyzABCDEFGHIJKLMNOPQRSTUVWXYZ-_",
        line: ["", ""],
        expected: ["8 ", ""],
        is_shown: false,
    },
    Long {
        words: "definition file:///a 1 1",
        piece: "\r\r\r\r\r\r\r\r",
        line: ["", ""],
        expected: ["8 ", ""],
        is_shown: false,
    },
];

fn try_long(trial: &mut Trial, alloc: Global, row: &Long) {
    let dump = text_of(alloc, [DUMP, row.line[0], row.line[1]], row.piece, MIB);
    let shown = if row.is_shown { MIB } else { 0 };
    let wanted = text_of(
        alloc,
        ["", row.expected[0], row.expected[1]],
        row.piece,
        shown,
    );
    let found = run(alloc, row.words, dump.as_bytes(), 4096, NONE_FAILS);
    trial.text(row.words, found, wanted.as_str());
}

#[test]
fn long_lines(rt: HostRuntime) -> Result<(), RowError> {
    let mut trial = Trial::new(rt.alloc());
    for row in LONG {
        try_long(&mut trial, rt.alloc(), row);
    }
    trial.end()
}
