//! Bytes that are sent and written, as rows tell them, and what gives and keeps them in memory.
use lsp_rows::Trial;
use lsp_server::{MemorySink, MemorySource};
use std::alloc::{AllocError, Global};

/// A part of what is sent or written.
#[derive(Clone, Copy)]
pub(crate) enum Part {
    /// These bytes.
    Bytes(&'static [u8]),
    /// The frame of each body.
    Frames(&'static [&'static str]),
    /// So many frames of one body.
    Times(u64, &'static str),
    /// So many frames, whose bodies are their numbers, from 0, between two texts.
    Numbered(u64, &'static str, &'static str),
    /// The frame of a body that has a text so many times between two others.
    Long(&'static str, u64, &'static str, &'static str),
}

/// Appends the frame of a body.
pub(crate) fn push_frame(alloc: Global, bytes: &mut Vec<u8>, body: &str) -> Result<(), AllocError> {
    let head = format!(in alloc; "Content-Length: {}\r\n\r\n", body.len())?;
    bytes.extend_from_slice(head.as_bytes())?;
    bytes.extend_from_slice(body.as_bytes())
}

fn push_numbered(
    alloc: Global,
    bytes: &mut Vec<u8>,
    number: u64,
    before: &str,
    after: &str,
) -> Result<(), AllocError> {
    let body = format!(in alloc; "{before}{number}{after}")?;
    push_frame(alloc, bytes, body.as_str())
}

fn push_long(
    alloc: Global,
    bytes: &mut Vec<u8>,
    before: &str,
    count: u64,
    text: &str,
    after: &str,
) -> Result<(), AllocError> {
    let mut body = String::from_str(alloc, before)?;
    for _ in 0..count {
        body.push_str(text)?;
    }
    body.push_str(after)?;
    push_frame(alloc, bytes, body.as_str())
}

fn push_part(alloc: Global, bytes: &mut Vec<u8>, part: Part) -> Result<(), AllocError> {
    match part {
        Part::Bytes(piece) => bytes.extend_from_slice(piece)?,
        Part::Frames(bodies) => {
            for body in bodies {
                push_frame(alloc, bytes, body)?;
            }
        }
        Part::Times(count, body) => {
            for _ in 0..count {
                push_frame(alloc, bytes, body)?;
            }
        }
        Part::Numbered(count, before, after) => {
            for number in 0..count {
                push_numbered(alloc, bytes, number, before, after)?;
            }
        }
        Part::Long(before, count, text, after) => {
            push_long(alloc, bytes, before, count, text, after)?;
        }
    }
    Ok(())
}

/// The bytes of these parts, one after the other.
pub(crate) fn bytes_of(alloc: Global, parts: &[Part]) -> Result<Vec<u8>, AllocError> {
    let mut bytes = Vec::new(alloc);
    for part in parts {
        push_part(alloc, &mut bytes, *part)?;
    }
    Ok(bytes)
}

/// Gives these parts by at most `piece` bytes a read. Reads are numbered from 1; the one of this
/// number fails.
pub(crate) fn source_of(
    alloc: Global,
    parts: &[Part],
    piece: usize,
    read: u64,
) -> Result<MemorySource, AllocError> {
    let failing = vec![in alloc; read.min(999)]?;
    Ok(MemorySource::new(bytes_of(alloc, parts)?, piece.max(1), failing))
}

/// Writes and flushes are numbered from 1; the one of this number fails.
pub(crate) fn sink_of(alloc: Global, call: u64) -> Result<MemorySink, AllocError> {
    Ok(MemorySink::new(alloc, vec![in alloc; call.min(999)]?))
}

/// The sink has taken these parts.
pub(crate) fn try_written(
    trial: &mut Trial,
    alloc: Global,
    name: &str,
    sink: &MemorySink,
    parts: &[Part],
) -> Result<(), AllocError> {
    let wanted = bytes_of(alloc, parts)?;
    trial.same(name, sink.bytes(), wanted.as_slice());
    Ok(())
}
