//! However a stream is cut, the same items are told; and how deep values in one another are read.
ghost use Rattle.lsp_frame.specs.Shown.{DecodedIsFloatFree};

use crate::frame::{STREAMS, Stream, told as told_of_item};
use lsp_frame::{Decoded, LanguageServerCodec, Limits};
use lsp_rows::{RowError, Trial};
use no_memory::NoMemory;
use std::alloc::Global;

// The sizes of the pieces. One of 13 bytes completes fewer items than that.
const PIECES: &[usize] = &[1, 2, 3, 7, 13];

// Writes the items that are told now, but for their end.
fn push_items(
    alloc: Global,
    codec: &mut LanguageServerCodec,
    told: &mut String,
) -> Result<(), NoMemory> {
    for _ in 0..13 {
        match codec.decode()? {
            Decoded::More => return Ok(()),
            item => push_item(alloc, item, told)?,
        }
    }
    Ok(())
}

fn push_item(alloc: Global, item: Decoded, told: &mut String) -> Result<(), NoMemory>
    requires { DecodedIsFloatFree item }
{
    let text = told_of_item(alloc, item)?;
    told.push_str(text.as_str())?;
    told.push_str(";")?;
    Ok(())
}

fn feed_piece(
    alloc: Global,
    codec: &mut LanguageServerCodec,
    piece: &[u8],
    told: &mut String,
) -> Result<(), NoMemory> {
    codec.feed(piece)?;
    push_items(alloc, codec, told)
}

fn feed_parts(
    alloc: Global,
    codec: &mut LanguageServerCodec,
    parts: &[&[u8]],
    piece: usize,
    told: &mut String,
) -> Result<(), NoMemory> {
    let mut held = Vec::new(alloc);
    for part in parts {
        for byte in *part {
            held.push(*byte)?;
            if held.len() == piece {
                feed_piece(alloc, codec, held.as_slice(), told)?;
                held.clear();
            }
        }
    }
    feed_piece(alloc, codec, held.as_slice(), told)
}

// The items of these parts in a row, which come in pieces of so many bytes.
fn items_told(alloc: Global, parts: &[&[u8]], piece: usize) -> Result<String, NoMemory> {
    let mut codec = LanguageServerCodec::with_limits(alloc, Limits::default());
    let mut told = String::new(alloc);
    let fed = feed_parts(alloc, &mut codec, parts, piece, &mut told);
    drop(codec);
    fed?;
    Ok(told)
}

// The items of the row, but for their end.
fn items_wanted(alloc: Global, row: &Stream) -> Result<String, NoMemory> {
    let mut wanted = String::new(alloc);
    for item in row.items {
        if *item != "More" {
            wanted.push_str(item)?;
            wanted.push_str(";")?;
        }
    }
    Ok(wanted)
}

#[test]
fn streams_in_pieces(rt: HostRuntime) -> Result<(), RowError> {
    let alloc = rt.alloc();
    let mut trial = Trial::new(alloc);
    for row in STREAMS {
        let wanted = items_wanted(alloc, row)?;
        for piece in PIECES {
            let name = format_args!("{} in pieces of {piece}", row.name);
            trial.text(name, items_told(alloc, row.pieces, *piece), wanted.as_str());
        }
    }
    trial.end()
}

// A notification whose params are so many arrays in one another.
fn nested(alloc: Global, depth: usize) -> Result<String, NoMemory> {
    let mut text = String::from_str(alloc, "{\"jsonrpc\":\"2.0\",\"method\":\"m\",\"params\":")?;
    for _ in 0..depth {
        text.push_str("[")?;
    }
    for _ in 0..depth {
        text.push_str("]")?;
    }
    text.push_str("}")?;
    Ok(text)
}

// What is told of so many arrays in one another.
fn told_of(alloc: Global, depth: usize) -> Result<String, NoMemory> {
    let body = nested(alloc, depth)?;
    let head = format!(in alloc; "Content-Length: {}\r\n\r\n", body.len())?;
    items_told(alloc, &[head.as_bytes(), body.as_bytes()], 4096)
}

// With the message itself a text nests 127 deep at most.
#[test]
fn values_in_one_another(rt: HostRuntime) -> Result<(), RowError> {
    let alloc = rt.alloc();
    let mut trial = Trial::new(alloc);
    let deepest = nested(alloc, 126)?;
    let wanted = format!(in alloc; "{deepest};")?;
    drop(deepest);
    trial.text("126 arrays", told_of(alloc, 126), wanted.as_str());
    drop(wanted);
    trial.text("127 arrays", told_of(alloc, 127), "Body(Json);");
    trial.text("a million", told_of(alloc, 1_000_000), "Body(Json);");
    trial.end()
}
