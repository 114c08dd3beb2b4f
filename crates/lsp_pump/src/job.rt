// The reading job: what a thread of its own does with a source.
ghost use Rattle.std.specs.Prelude.{◌≡◌, ◌++◌, IfOk, IfErr};
ghost use Rattle.rtrb.specs.Ring.{sent, SameProducer};
ghost use Rattle.lsp_frame.specs.Codec.{more};
ghost use Rattle.lsp_pump.specs.Pieces.{piece_items, all_items, back_items, ItemsAreFloatFree};
ghost use Rattle.lsp_pump.specs.Reading.{TellsAll, ReadOnce, ReadEnds, IsUnbegun, IsReadingOf};

use crate::pieces::Sender;
use crate::signal::Signal;
use lsp_frame::LanguageServerCodec;
use lsp_rpc::{Message, NoMemory};
use lsp_server::{Failed, Source, next_item};
use lsp_session::Item;
use rtrb::PushError;
use std::alloc::Global;
use std::sync::Arc;
use std::thread;

// How many bytes are read at most at a time.
const READ_SIZE: usize = 4096;

// How often a full ring is tried for a piece.
const TRIES: u64 = 10_000_000;

/// A reading: what it reads with, and what it came to.
#[derive(Drop)]
pub(crate) struct Reading<I> {
    pub(crate) source: I,
    pub(crate) codec: LanguageServerCodec,
    pub(crate) sender: Sender,
    pub(crate) signal: Arc<Signal, Global>,
    /// The piece that the full ring did not take.
    pub(crate) back: Option<Vec<Item>>,
    /// How many reads were made.
    pub(crate) made: u64,
    pub(crate) ended: Ended,
}

/// How a reading ended.
#[derive(Drop)]
pub(crate) enum Ended {
    /// There may be more to read: a request was told whose method has the name `exit`, which may be
    /// no exit; all reads that were granted were made; the full ring did not take a piece; or
    /// nothing was read at all.
    Open,
    /// At the end of input.
    End,
    /// A read failed.
    Failed,
    /// Out of memory.
    NoMemory,
}

/// Reads the source, at most `reads` times, and puts the items that each read tells onto the ring,
/// as one piece; unless reading was over before it began.
pub(crate) fn read_job<I: Source>(alloc: Global, reading: Reading<I>, reads: u64) -> Reading<I>
    requires fresh { IsUnbegun reading }
    ensures { IsReadingOf I.left I.faults reading reads result result.ended }
{
    let mut reading = reading;
    if reading.signal.has_ended() {
        return reading;
    }
    reading.ended = read_all(alloc, &mut reading, reads);
    reading.signal.end();
    reading
}

fn read_all<I: Source>(alloc: Global, reading: &mut Reading<I>, reads: u64) -> Ended
    requires fresh { IsUnbegun reading.old }
    ensures { IsReadingOf I.left I.faults reading.old reads reading.new result }
{
    for _ in 0..reads {
        reading.made += 1;
        match read_piece(alloc, &mut reading.source, &mut reading.codec) {
            Ok(piece) => {
                let exits = names_exit(&piece);
                reading.back = send(&mut reading.sender, piece, &reading.signal);
                if exits || reading.back.is_some() {
                    return Ended::Open;
                }
            }
            Err(ended) => return ended,
        }
    }
    Ended::Open
}

// Reads once, and gives all items that are told by then, or how reading ended.
fn read_piece<I: Source>(
    alloc: Global,
    source: &mut I,
    codec: &mut LanguageServerCodec,
) -> Result<Vec<Item>, Ended>
    ensures told { IfOk result (λ piece. ReadOnce codec.old
        (I.left source.old) (I.left source.new) (I.faults source.old) (I.faults source.new)
        (piece_items piece) codec.new) }
    ensures ended { IfErr result (λ ended. ReadEnds codec.old
        (I.left source.old) (I.left source.new) (I.faults source.old) (I.faults source.new)
        ended codec.new) }
{
    let mut bytes = [0; READ_SIZE];
    let n = match source.read(&mut bytes) {
        Ok(n) => n,
        Err(Failed) => return Err(Ended::Failed),
    };
    if n == 0 {
        return Err(Ended::End);
    }
    match feed(alloc, codec, &bytes[..n]) {
        Ok(piece) => Ok(piece),
        Err(NoMemory) => Err(Ended::NoMemory),
    }
}

// Feeds the bytes to the codec, and gives all items that it tells.
fn feed(alloc: Global, codec: &mut LanguageServerCodec, bytes: &[u8]) -> Result<Vec<Item>, NoMemory>
    ensures told { IfOk result (λ piece. TellsAll (more codec.old bytes.now) (piece_items piece)
        codec.new) }
    ensures float_free { IfOk result (λ piece. ItemsAreFloatFree (piece_items piece)) }
{
    codec.feed(bytes)?;
    let mut piece = Vec::new(alloc);
    'items: while let Some(item) = next_item(codec)? {
        piece.push(item)?;
    }
    Ok(piece)
}

// Puts a piece of at least one item onto the ring, and gives back what a full ring doesn't take.
fn send(sender: &mut Sender, piece: Vec<Item>, signal: &Signal) -> Option<Vec<Item>>
    requires float_free { ItemsAreFloatFree (piece_items piece) }
    ensures sent { all_items (sent sender.new) ++ back_items result
        ≡ all_items (sent sender.old) ++ piece_items piece }
    ensures ring { SameProducer sender.old sender.new }
    ensures float_free { ItemsAreFloatFree (back_items result) }
{
    if piece.is_empty() {
        return None;
    }
    let mut piece = piece;
    for _ in 0..TRIES {
        match sender.push(piece) {
            Ok(()) => {
                signal.wake();
                return None;
            }
            Err(PushError::Full(back)) => piece = back,
        }
        thread::yield_now();
    }
    Some(piece)
}

// Whether a request with the method name `exit` is among the items: a hint, since only the session
// knows its exits.
fn names_exit(piece: &Vec<Item>) -> bool {
    for item in piece.iter() {
        match item {
            Item::Message(Message::Request(request)) if request.method() == "exit" => return true,
            _ => {}
        }
    }
    false
}
