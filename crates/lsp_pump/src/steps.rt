// The steps of a session beside a reading thread.
ghost use Rattle.std.specs.Prelude.{◌≡◌, ◌≤◌, ◌-◌, ◌++◌, [], ◌∷◌, List, false, IfOk};
ghost use Rattle.std.specs.Result.{result_err};
ghost use Rattle.rtrb.specs.Ring.{received, known_items, SameConsumer, IsPair};
ghost use Rattle.lsp_frame.specs.Codec.{told_at};
ghost use Rattle.lsp_session.specs.Item.{ItemData, show_item, item_has_float};
ghost use Rattle.lsp_session.specs.Run.{Picked, order_by};
ghost use Rattle.lsp_session.specs.State.{State};
ghost use Rattle.lsp_pump.specs.Pieces.{piece_items, all_items, back_items, ItemsAreFloatFree};
ghost use Rattle.lsp_pump.specs.Steps.{Way, MakesSteps, MayGoOn, StandsAfter};
ghost use Rattle.lsp_pump.specs.SeatWay.{seat_way, Names};
ghost use Rattle.lsp_pump.specs.Reading.{KeepsAllBytes};
ghost use Rattle.lsp_pump.specs.Onward.{ServedFrom, Finishes, PumpsAfter};

use crate::job::{Ended, Reading};
use crate::pieces::Pieces;
use crate::signal::Signal;
use bytes::BytesMut;
use lsp_desk::Desk;
use lsp_frame::LanguageServerCodec;
use lsp_server::{Ends, Failed, ServeError, Sink, Source, serve_from, serve_item};
use lsp_session::{Handlers, Item, Pick, Session};
use rtrb::PopError;
use std::alloc::Global;
use std::collections::VecDeque;
use std::sync::Wait;

/// What makes the steps of a session, one item at a time.
pub(crate) trait Steps {
    /// The states of its session, and the desks.
    ghost States: { Type 0 };

    ghost Desks: { Type 0 };

    /// What no call changes.
    ghost Tied: { Type 0 };

    ghost way: { Way Self States Desks Tied };

    /// Makes the step of an item, and says whether it was an exit.
    fn make_step(&mut self, item: Item, rounds: u64) -> Result<bool, ServeError>
        requires going { MayGoOn way self.old }
        requires float_free { item_has_float (show_item item) ≡ false }
        ensures { MakesSteps way rounds self.old (show_item item ∷ []) result self.new };

    /// Serves on from source and codec, to the end of input or the first exit.
    fn serve_on<I: Source>(
        &mut self,
        source: &mut I,
        codec: &mut LanguageServerCodec,
        reads: u64,
        rounds: u64,
    ) -> Result<(), ServeError>
        requires going { MayGoOn way self.old }
        requires told { told_at codec.old ≡ [] }
        ensures { ServedFrom way rounds reads codec.old (I.left source.old) (I.left source.new)
            (I.faults source.old) (I.faults source.new) self.old (result_err result) self.new };
}

/// A session with the room that the frames of its steps take.
#[derive(Drop)]
pub(crate) struct Held<S> {
    pub(crate) session: S,
    pub(crate) room: BytesMut,
}

/// A session with what it is served by.
#[derive(Drop)]
pub(crate) struct Seat<'a, 'b, 'c, O, S, P> {
    pub(crate) alloc: Global,
    pub(crate) sink: &'a mut O,
    pub(crate) held: &'b mut Held<S>,
    pub(crate) pick: &'c mut P,
}

impl<'a, 'b, 'c, O: Sink, D: Desk + Drop, H: Handlers<D>, P: Pick> Steps
    for Seat<'a, 'b, 'c, O, Session<H, D>, P> {
    ghost States = { Picked (State H H.semantics.Call H.semantics.Task) P.State };

    ghost Desks = { D };

    // Which sink, session and pick they are.
    ghost Tied = { Names };

    ghost way = { seat_way H.semantics D.meaning (order_by P.gives P.later) P.state
        O.taken O.flushed O.faults };

    fn make_step(&mut self, item: Item, rounds: u64) -> Result<bool, ServeError> {
        let held = &mut *self.held;
        match serve_item(
            self.alloc,
            &mut held.room,
            self.sink,
            &mut held.session,
            item,
            self.pick,
            rounds,
        ) {
            Ok(()) => Ok(held.session.exited().is_some()),
            Err(error) => Err(error),
        }
    }

    fn serve_on<I: Source>(
        &mut self,
        source: &mut I,
        codec: &mut LanguageServerCodec,
        reads: u64,
        rounds: u64,
    ) -> Result<(), ServeError> {
        let held = &mut *self.held;
        let mut ends = Ends {
            source,
            sink: self.sink,
        };
        serve_from(
            self.alloc,
            &mut ends,
            codec,
            &mut held.session,
            self.pick,
            reads,
            rounds,
        )
    }
}

// Makes the steps of the items of a piece, through the first exit, and says whether there was one.
fn serve_piece<S: Steps>(steps: &mut S, piece: Vec<Item>, rounds: u64) -> Result<bool, ServeError>
    requires going { MayGoOn S.way steps.old }
    requires float_free { ItemsAreFloatFree (piece_items piece) }
    ensures { MakesSteps S.way rounds steps.old (piece_items piece) result steps.new }
{
    let mut rest = VecDeque::from_vec(piece);
    'items: while let Some(item) = rest.pop_front() {
        if steps.make_step(item, rounds)? {
            return Ok(true);
        }
    }
    Ok(false)
}

// Makes the steps of the items of a piece that has come; or of a tick, and then waits for a piece, or
// a short time.
fn serve_next<R: Wait, S: Steps>(
    rt: &R,
    steps: &mut S,
    pieces: &mut Pieces,
    signal: &Signal,
    rounds: u64,
) -> Result<bool, ServeError>
    requires going { MayGoOn S.way steps.old }
    ensures makes { (items : List ItemData)
        × (all_items (received pieces.new) ≡ all_items (received pieces.old) ++ items)
        × MakesSteps S.way rounds steps.old items result steps.new }
    ensures ring { SameConsumer pieces.old pieces.new }
{
    match pieces.pop() {
        Ok(piece) => serve_piece(steps, piece, rounds),
        Err(PopError::Empty) => {
            let exits = steps.make_step(Item::Tick, rounds)?;
            signal.wait(rt);
            Ok(exits)
        }
    }
}

/// Makes the steps of the items of each piece that comes, and of a tick where none has, until
/// reading has ended or there was an exit. It says whether there was one. Pieces may be left on the
/// ring where reading has ended.
pub(crate) fn serve_waiting<R: Wait, S: Steps>(
    rt: &R,
    steps: &mut S,
    pieces: &mut Pieces,
    signal: &Signal,
    rounds: u64,
) -> Result<bool, ServeError>
    requires going { MayGoOn S.way steps.old }
    requires none { received pieces.old ≡ [] }
    ensures makes { MakesSteps S.way rounds steps.old (all_items (received pieces.new)) result
        steps.new }
    ensures ring { SameConsumer pieces.old pieces.new }
{
    for _ in rt.forever() {
        if serve_next(rt, steps, pieces, signal, rounds)? {
            return Ok(true);
        }
        if signal.has_ended() {
            return Ok(false);
        }
    }
    unreachable!()
}

/// Serves what comes after the pieces that were received: what a reading that has ended left on the
/// ring or kept back, through the first exit, and then on from where it ended.
pub(crate) fn serve_after<I: Source, S: Steps>(
    steps: &mut S,
    reading: &mut Reading<I>,
    pieces: &mut Pieces,
    served: Result<bool, ServeError>,
    reads: u64,
    rounds: u64,
) -> Result<(), ServeError>
    requires stands { IfOk served (StandsAfter S.way steps.old) }
    requires ring { IsPair reading.old.sender pieces.old }
    requires float_free { ItemsAreFloatFree (back_items reading.old.back) }
    requires told { KeepsAllBytes reading.old.ended → told_at reading.old.codec ≡ [] }
    requires most { reading.old.made ≤ reads }
    ensures { PumpsAfter S.way rounds I.left I.faults reads reading.old
        (all_items (received pieces.old)) served steps.old (result_err result)
        reading.new.source steps.new }
{
    pieces.slots_beside(&mut reading.sender);
    if served? {
        return Ok(());
    }
    let back = reading.back.take();
    if serve_rest(steps, pieces, back, rounds)? {
        return Ok(());
    }
    finish(steps, reading, reads, rounds)
}

// Makes the steps of the items of the pieces that are known to be on the ring, and then of one that
// the full ring did not take, through the first exit, and says whether there was one.
fn serve_rest<S: Steps>(
    steps: &mut S,
    pieces: &mut Pieces,
    back: Option<Vec<Item>>,
    rounds: u64,
) -> Result<bool, ServeError>
    requires going { MayGoOn S.way steps.old }
    requires float_free { ItemsAreFloatFree (back_items back) }
    ensures { MakesSteps S.way rounds steps.old
        (all_items (known_items pieces.old) ++ back_items back) result steps.new }
{
    'pieces: while pieces.cached_slots() > 0 {
        let piece = pieces.pop_known();
        if serve_piece(steps, piece, rounds)? {
            return Ok(true);
        }
    }
    match back {
        Some(piece) => serve_piece(steps, piece, rounds),
        None => Ok(false),
    }
}

/// The end of input.
#[derive(Drop)]
struct Nothing;

impl Source for Nothing {
    ghost use Rattle.std.specs.Prelude.{Some, []};

    ghost left = { λ _. Some [] };

    ghost faults = { λ _. 0 };

    fn read(&mut self, _piece: &mut [u8]) -> Result<usize, Failed> {
        Ok(0)
    }
}

// Serves what comes after all that a reading gave: on from source and codec, where there may be more
// to read; the end of input; or the error by which it ended.
fn finish<I: Source, S: Steps>(
    steps: &mut S,
    reading: &mut Reading<I>,
    reads: u64,
    rounds: u64,
) -> Result<(), ServeError>
    requires going { MayGoOn S.way steps.old }
    requires told { KeepsAllBytes reading.old.ended → told_at reading.old.codec ≡ [] }
    requires most { reading.old.made ≤ reads }
    ensures { Finishes S.way rounds reading.old.ended (reads - reading.old.made) reading.old.codec
        (I.left reading.old.source) (I.left reading.new.source)
        (I.faults reading.old.source) (I.faults reading.new.source)
        steps.old (result_err result) steps.new }
{
    let left = reads - reading.made;
    match reading.ended {
        Ended::Open => steps.serve_on(&mut reading.source, &mut reading.codec, left, rounds),
        Ended::End => steps.serve_on(&mut Nothing, &mut reading.codec, 1, rounds),
        Ended::Failed => Err(ServeError::ReadFault),
        Ended::NoMemory => Err(ServeError::NoMemory),
    }
}
