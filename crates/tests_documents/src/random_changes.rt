//! Random changes of random texts, made by the store and by a plain walk over the characters.
use crate::events::{URI, has_text, open};
use lsp_base::{Position, Range, TextDocumentContentChangeEvent};
use lsp_documents::Documents;
use lsp_rows::{RowError, Trial};
use rand_core::utils::NextWord;
use rand_pcg::Pcg32;
use std::alloc::{AllocError, Global};
use std::slice::from_ref;

const PIECES: [&str; 12] = [
    "", "a", "bc", "é", "漢", "😀", "\r", "\n", "\r\n", "\u{ffff}", "𐀀\r", "x\ny",
];

// How many changes a run makes, by which numbers, and how large its texts and positions are.
struct Scale {
    changes: i32,
    seed: u64,
    // The pieces of a text are fewer.
    pieces: u32,
    lines: u32,
    characters: u32,
    // A text of more bytes is replaced as a whole.
    longest: usize,
}

// A number below `limit`.
fn below(random: &mut Pcg32, limit: u32) -> u32 {
    random.next_word() % limit.max(1)
}

// Half of the texts have no end of a line.
fn some_text(alloc: Global, random: &mut Pcg32, pieces: u32) -> Result<String, AllocError> {
    let kinds = if below(random, 2) == 0 { 6 } else { 12 };
    let mut text = String::new(alloc);
    for _ in 0..below(random, pieces) {
        text.push_str(PIECES[below(random, kinds) as usize % 12])?;
    }
    Ok(text)
}

fn some_position(random: &mut Pcg32, scale: &Scale) -> Position {
    let line = below(random, scale.lines);
    Position::new(line, below(random, scale.characters))
}

// What is changed of a text of that many bytes: mostly a part, and mostly one whose start is not
// behind its end.
fn some_range(random: &mut Pcg32, scale: &Scale, len: usize) -> Option<Range> {
    if len > scale.longest || below(random, 40) == 0 {
        return None;
    }
    let one = some_position(random, scale);
    let other = some_position(random, scale);
    if below(random, 8) > 0 && other < one {
        return Some(Range::new(other, one));
    }
    Some(Range::new(one, other))
}

// The byte at which a position is.
fn plain_place(text: &str, position: Position) -> usize {
    let mut lines = position.line;
    let mut units = position.character;
    let mut last = ' ';
    for (i, c) in text.char_indices() {
        if last == '\n' || last == '\r' && c != '\n' {
            lines = lines.saturating_sub(1);
        }
        last = c;
        if lines > 0 {
            continue;
        }
        let width = if c < '\u{10000}' { 1 } else { 2 };
        if c == '\n' || c == '\r' || units < width {
            return i;
        }
        units -= width;
    }
    text.len()
}

// Makes a change, and tells what the store is to answer.
fn plain_change(
    alloc: Global,
    text: &mut String,
    change: &TextDocumentContentChangeEvent,
) -> Result<&'static str, AllocError> {
    let old = text.as_str();
    let (start, end) = match change.range {
        None => (0, old.len()),
        Some(range) => (plain_place(old, range.start), plain_place(old, range.end)),
    };
    if end < start {
        return Ok("Err(StartBehindEnd)");
    }
    let before = old.get(..start).unwrap_or(old);
    let behind = old.get(end..).unwrap_or(old);
    *text = [before, change.text.as_str(), behind].concat(alloc)?;
    Ok("Ok(())")
}

// The documents, the text that the one is to have, and where the numbers come from.
#[derive(Drop)]
struct Both {
    documents: Documents,
    text: String,
    random: Pcg32,
}

// One change both ways.
fn step(
    trial: &mut Trial,
    alloc: Global,
    both: &mut Both,
    scale: &Scale,
    version: i32,
) -> Result<(), AllocError> {
    let range = some_range(&mut both.random, scale, both.text.len());
    let change = TextDocumentContentChangeEvent {
        range,
        range_length: None,
        text: some_text(alloc, &mut both.random, scale.pieces)?,
    };
    let shown = plain_change(alloc, &mut both.text, &change)?;
    let made = both.documents.change(URI, version, from_ref(&change));
    drop(change);
    trial.shows(version, made, shown);
    has_text(trial, version, &both.documents, "", both.text.as_str());
    Ok(())
}

// So many changes both ways.
fn run(alloc: Global, scale: &Scale) -> Result<(), RowError> {
    let mut trial = Trial::new(alloc);
    let mut both = Both {
        documents: Documents::new(alloc),
        text: String::new(alloc),
        random: Pcg32::new(scale.seed, 54),
    };
    trial.shows(
        "opened",
        open(alloc, &mut both.documents, URI, 0, "", ""),
        "Ok(())",
    );
    for version in 0..scale.changes {
        let made = step(&mut trial, alloc, &mut both, scale, version);
        trial.is_true(version, made.is_ok());
    }
    drop(both);
    trial.end()
}

const SHORT: &Scale = &Scale {
    changes: 100_000,
    seed: 20261128,
    pieces: 5,
    lines: 7,
    characters: 9,
    longest: 120,
};

// Texts and lines of some hundred bytes are searched in blocks.
const LONG: &Scale = &Scale {
    changes: 3_000,
    seed: 20261129,
    pieces: 800,
    lines: 300,
    characters: 1200,
    longest: 4000,
};

#[test]
fn a_plain_walk_makes_the_same(rt: HostRuntime) -> Result<(), RowError> {
    run(rt.alloc(), SHORT)?;
    run(rt.alloc(), LONG)
}
