//! Bytes that are sent and written, as rows tell them, and what gives and keeps them in memory.
use lsp_rows::Trial;
use lsp_server::{MemorySink, MemorySource};
use std::alloc::{AllocError, Global};

/// A part of what is sent or written.
#[derive(Clone, Copy)]
pub(crate) enum Part {
    /// These bytes.
    Bytes(&'static [u8]),
    /// The frame of each body.
    Frames(&'static [&'static str]),
    /// The same, of bodies of these lengths.
    Sized(&'static [(usize, &'static str)]),
    /// So many frames of one body.
    Times(u64, &'static str),
    /// So many frames, whose bodies are their numbers, from 0, between two texts.
    Numbered(u64, &'static str, &'static str),
    /// The frame of a notification whose params are so many lists, one inside the other.
    Nested(u64),
}

fn push_sized(
    alloc: Global,
    bytes: &mut Vec<u8>,
    length: usize,
    body: &str,
) -> Result<(), AllocError> {
    let head = format!(in alloc; "Content-Length: {length}\r\n\r\n")?;
    bytes.extend_from_slice(head.as_bytes())?;
    bytes.extend_from_slice(body.as_bytes())
}

fn push_frame(alloc: Global, bytes: &mut Vec<u8>, body: &str) -> Result<(), AllocError> {
    push_sized(alloc, bytes, body.len(), body)
}

fn push_numbered(
    alloc: Global,
    bytes: &mut Vec<u8>,
    number: u64,
    before: &str,
    after: &str,
) -> Result<(), AllocError> {
    let body = format!(in alloc; "{before}{number}{after}")?;
    push_frame(alloc, bytes, body.as_str())
}

/// A notification whose params are so many lists, one inside the other.
pub(crate) fn nested(alloc: Global, levels: u64) -> Result<String, AllocError> {
    let mut text = String::from_str(alloc, "{\"jsonrpc\":\"2.0\",\"method\":\"a\",\"params\":")?;
    for _ in 0..levels {
        text.push_str("[")?;
    }
    for _ in 0..levels {
        text.push_str("]")?;
    }
    text.push_str("}")?;
    Ok(text)
}

fn push_part(alloc: Global, bytes: &mut Vec<u8>, part: Part) -> Result<(), AllocError> {
    match part {
        Part::Bytes(piece) => bytes.extend_from_slice(piece)?,
        Part::Frames(bodies) => {
            for body in bodies {
                push_frame(alloc, bytes, body)?;
            }
        }
        Part::Sized(bodies) => {
            for (length, body) in bodies {
                push_sized(alloc, bytes, *length, body)?;
            }
        }
        Part::Times(count, body) => {
            for _ in 0..count {
                push_frame(alloc, bytes, body)?;
            }
        }
        Part::Numbered(count, before, after) => {
            for number in 0..count {
                push_numbered(alloc, bytes, number, before, after)?;
            }
        }
        Part::Nested(levels) => push_frame(alloc, bytes, nested(alloc, levels)?.as_str())?,
    }
    Ok(())
}

/// The bytes of these parts, one after the other.
pub(crate) fn bytes_of(alloc: Global, parts: &[Part]) -> Result<Vec<u8>, AllocError> {
    let mut bytes = Vec::new(alloc);
    for part in parts {
        push_part(alloc, &mut bytes, *part)?;
    }
    Ok(bytes)
}

/// Gives these parts by at most `piece` bytes a read. Reads are numbered from 1; the one of this
/// number fails.
pub(crate) fn source_of(
    alloc: Global,
    parts: &[Part],
    piece: usize,
    read: u64,
) -> Result<MemorySource, AllocError> {
    let failing = vec![in alloc; read.min(999)]?;
    Ok(MemorySource::new(bytes_of(alloc, parts)?, piece.max(1), failing))
}

/// Writes and flushes are numbered from 1; the one of this number fails.
pub(crate) fn sink_of(alloc: Global, call: u64) -> Result<MemorySink, AllocError> {
    Ok(MemorySink::new(alloc, vec![in alloc; call.min(999)]?))
}

/// The sink has taken these parts.
pub(crate) fn try_written(
    trial: &mut Trial,
    alloc: Global,
    name: &str,
    sink: &MemorySink,
    parts: &[Part],
) -> Result<(), AllocError> {
    let wanted = bytes_of(alloc, parts)?;
    trial.same(name, sink.bytes(), wanted.as_slice());
    Ok(())
}
