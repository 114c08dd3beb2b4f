// How a server serves the items of a source, read by read.
ghost use Rattle.std.specs.Prelude.{◌≡◌, ◌≢◌, [], ◌∷◌, ℕ, true, false, None, OnOk, OnErr, IfOk, IfErr, IfSome, option_map};
ghost use Rattle.std.specs.Result.{result_err};
ghost use Rattle.lsp_desk.specs.Meaning.{Grown};
ghost use Rattle.lsp_frame.specs.Codec.{AreLimits, items_at, told_at};
ghost use Rattle.lsp_frame.specs.Items.{IsOfBody};
ghost use Rattle.lsp_session.specs.Item.{show_item, item_has_float};
ghost use Rattle.lsp_session.specs.Run.{Step, order_by, served};
ghost use Rattle.lsp_session.specs.SessionView.{session_view, desk_of, life_of};
ghost use Rattle.lsp_server.specs.Items.{all_admitted, GivesNext};
ghost use Rattle.lsp_server.specs.Course.{course_from, picked};
ghost use Rattle.lsp_server.specs.Written.{Ran, RanPart};
ghost use Rattle.lsp_server.specs.Served.{call_bytes, ServesOver};
ghost use Rattle.lsp_server.specs.ServesOn.{ServesOn};
ghost use Rattle.lsp_server.specs.Reads.{moment};
ghost use Rattle.lsp_server.specs.Errors.{SaysSpent};
ghost use Rattle.lsp_server.specs.Leaves.{LeavesTransport, OnlyWrites, StepsFlushed};
ghost use Rattle.lsp_server.specs.ServerView.{standing, IsReady};
ghost use Rattle.lsp_server.specs.Steps.{LeavesServed, MadeSteps, MayServe, MayStep};

use crate::reads::over_reads;
use crate::step::{ServeError, flush_after, write_step};
use crate::{Consumer, Sink, Transport};
use bytes::BytesMut;
use lsp_desk::Desk;
use lsp_frame::{CodecSettings, Decoded, LanguageServerCodec};
use lsp_rpc::NoMemory;
use lsp_session::{Handlers, Item, Life, Pick, Session};
use std::alloc::Global;

/// A codec whose items a session takes, with the pick of its polls.
#[derive(Drop)]
struct Serving<'a, P> {
    alloc: Global,
    codec: &'a mut LanguageServerCodec,
    // Keeps the room that the frames of a step take for the next.
    room: &'a mut BytesMut,
    pick: &'a mut P,
    rounds: u64,
}

impl<'a, D: Desk + Drop, H: Handlers<D>, P: Pick> Consumer<Session<H, D>> for Serving<'a, P> {
    ghost use Rattle.lsp_server.specs.Consuming.{through};
    ghost use Rattle.lsp_server.specs.Serving.{serves};
    ghost use Rattle.lsp_server.specs.ServerView.{see_serving};

    ghost meaning = { through (see_serving H.semantics D.meaning P.state)
        (serves H.semantics D.meaning (order_by P.gives P.later)) };

    // Which codec and which pick they are.
    ghost Tied = { ℕ × ℕ };

    ghost tied = { λ s. (s.codec.ghost_name, s.pick.ghost_name) };

    // Makes the step of each item that is told, through the first exit, and says whether there was
    // one.
    fn take<O: Sink>(
        &mut self,
        session: &mut Session<H, D>,
        piece: &[u8],
        sink: &mut O,
    ) -> Result<bool, ServeError> {
        self.codec.feed(piece)?;
        'items: loop {
            let item = match self.codec.decode()? {
                Decoded::Item(message) => Item::Message(message),
                Decoded::Fault(fault) => Item::Fault(fault.code()),
                Decoded::More => return Ok(false),
            };
            write_step(
                self.alloc,
                self.room,
                sink,
                session,
                item,
                self.pick,
                self.rounds,
            )?;
            if session.exited().is_some() {
                return Ok(true);
            }
        }
    }

    fn end<O: Sink>(
        &mut self,
        session: &mut Session<H, D>,
        sink: &mut O,
    ) -> Result<(), ServeError> {
        serve_end(
            self.alloc,
            self.codec,
            self.room,
            sink,
            session,
            self.pick,
            self.rounds,
        )
    }
}

/// Serves a session over a transport, from where it stands to the end of input or the first `exit`:
/// what [`Server::serve`](crate::Server::serve) does with its two ends.
///
/// It reads pieces of at most 4,096 bytes, at most `reads` of them. Before each read it has made
/// the step of every item that is told, and written and flushed all that they put out.
pub fn serve_over<T: Transport, D: Desk + Drop, H: Handlers<D>, P: Pick>(
    alloc: Global,
    io: &mut T,
    session: &mut Session<H, D>,
    pick: &mut P,
    reads: u64,
    rounds: u64,
    settings: CodecSettings,
) -> Result<(), ServeError>
    requires limits { AreLimits settings.limits }
    requires may { MayServe H.semantics D.meaning session.old }

    // The steps of the items that the frame grammar finds in the transport's bytes were made, and
    // their frames were written: of all bytes at Ok, through the first exit or with a tick at the
    // end. Before each read all that was told is answered.
    ensures serves { IfSome (T.left io.old) (λ bytes. ServesOver
        (course_from H.semantics D.meaning (order_by P.gives P.later) rounds settings
        (session_view H.semantics D.meaning session.old) (P.state pick.old)) bytes
        (moment (T.left io.old) (T.taken io.old) (T.flushed io.old))
        (moment (T.left io.new) (T.taken io.new) (T.flushed io.new))
        (T.reads io.old) (T.reads io.new) 4096
        (picked (session_view H.semantics D.meaning session.new) (P.state pick.new))
        (desk_of session.new) (result_err result)) }

    // At Ok the session is between two steps, and is served on only where no exit was admitted; at
    // an error between two reads it stands where these items lead it, and may be served on.
    ensures session { LeavesServed H.semantics D.meaning session.old session.new result }

    // All is flushed, each failure is told and has its cause, and at most `reads` reads are made.
    ensures transport { LeavesTransport T.left T.taken T.flushed T.reads T.read_faults T.faults
        T.tied reads 4096 io.old io.new (result_err result) }
{
    let mut codec = LanguageServerCodec::with_settings(alloc, settings);
    let mut room = BytesMut::new(alloc);
    let mut serving = Serving {
        alloc,
        codec: &mut codec,
        room: &mut room,
        pick,
        rounds,
    };
    over_reads(io, &mut serving, session, reads)
}

/// Serves a session on over a transport, from where it and the codec stand, to the end of input or
/// the first `exit`: as [`serve_over`] does with a codec that was fed nothing.
pub fn serve_from<T: Transport, D: Desk + Drop, H: Handlers<D>, P: Pick>(
    alloc: Global,
    io: &mut T,
    codec: &mut LanguageServerCodec,
    session: &mut Session<H, D>,
    pick: &mut P,
    reads: u64,
    rounds: u64,
) -> Result<(), ServeError>
    requires told { told_at codec.old ≡ [] }
    requires may { MayServe H.semantics D.meaning session.old }

    // The steps of the items that come of what the codec holds and of the transport's bytes were
    // made, and their frames were written.
    ensures serves { IfSome (T.left io.old) (λ bytes. ServesOn
        (course_from H.semantics D.meaning (order_by P.gives P.later) rounds codec.old.settings
        (session_view H.semantics D.meaning session.old) (P.state pick.old)) codec.old
        (call_bytes bytes (T.left io.new) (T.taken io.old) (T.taken io.new))
        (picked (session_view H.semantics D.meaning session.new) (P.state pick.new))
        (desk_of session.new) (result_err result)) }
    ensures session { LeavesServed H.semantics D.meaning session.old session.new result }

    // All is flushed, each failure is told and has its cause, and at most `reads` reads are made.
    ensures transport { LeavesTransport T.left T.taken T.flushed T.reads T.read_faults T.faults
        T.tied reads 4096 io.old io.new (result_err result) }
{
    let mut room = BytesMut::new(alloc);
    let mut serving = Serving {
        alloc,
        codec,
        room: &mut room,
        pick,
        rounds,
    };
    over_reads(io, &mut serving, session, reads)
}

/// Makes the step of one item by way of the room, and flushes what was written, also where the step
/// fails.
pub fn serve_item<O: Sink, D: Desk + Drop, H: Handlers<D>, P: Pick>(
    alloc: Global,
    room: &mut BytesMut,
    sink: &mut O,
    session: &mut Session<H, D>,
    item: Item,
    pick: &mut P,
    rounds: u64,
) -> Result<(), ServeError>
    requires ready { IsReady H.semantics D.meaning session.old }
    requires alive { life_of D.meaning session.old ≢ Life.Exited }
    requires float_free { item_has_float (show_item item) ≡ false }
    ensures ok { OnOk result (Ran (Step H.semantics (order_by P.gives P.later) rounds) D.meaning
        (standing H.semantics D.meaning session.old (P.state pick.old) (O.taken sink.old))
        (show_item item ∷ [])
        (standing H.semantics D.meaning session.new (P.state pick.new) (O.taken sink.new))) }
    ensures ready { OnOk result (IsReady H.semantics D.meaning session.new) }
    ensures part { OnErr result (RanPart (Step H.semantics (order_by P.gives P.later) rounds)
        D.meaning
        (standing H.semantics D.meaning session.old (P.state pick.old) (O.taken sink.old))
        (show_item item ∷ []) (desk_of session.new) (O.taken sink.new)) }
    ensures grown { OnErr result (Grown D.meaning (desk_of session.old) (desk_of session.new)) }
    ensures sink { StepsFlushed O.taken O.flushed O.faults O.beside sink.old sink.new result }
    ensures spent { IfErr result (λ e. SaysSpent D.meaning (desk_of session.new) e) }
{
    match write_step(alloc, room, sink, session, item, pick, rounds) {
        Ok(()) => {
            sink.flush()?;
            Ok(())
        }
        Err(error) => Err(flush_after(sink, error)),
    }
}

/// The next item that the codec tells, as a session admits it.
pub fn next_item(codec: &mut LanguageServerCodec) -> Result<Option<Item>, NoMemory>
    ensures next { IfOk result (λ item. GivesNext codec.old (option_map show_item item) codec.new) }
    ensures waits { IfOk result (λ item. item ≡ None → told_at codec.new ≡ []) }
    ensures float_free { IfOk result (λ item. IfSome item (λ x. item_has_float (show_item x)
        ≡ false)) }
    ensures err { OnErr result (codec.new ≡ codec.old) }
    // Memory is taken for a body alone.
    ensures memory { OnErr result (IsOfBody (told_at codec.old)) }
{
    match codec.decode()? {
        Decoded::Item(message) => Ok(Some(Item::Message(message))),
        Decoded::Fault(fault) => Ok(Some(Item::Fault(fault.code()))),
        Decoded::More => Ok(None),
    }
}

// Makes the steps of the end of input: that of the fault of an input that ends inside a frame, and
// a tick.
fn serve_end<O: Sink, D: Desk + Drop, H: Handlers<D>, P: Pick>(
    alloc: Global,
    codec: &mut LanguageServerCodec,
    room: &mut BytesMut,
    sink: &mut O,
    session: &mut Session<H, D>,
    pick: &mut P,
    rounds: u64,
) -> Result<(), ServeError>
    requires may { MayStep H.semantics D.meaning session.old }
    requires told { told_at codec.old ≡ [] }
    ensures steps { MadeSteps H.semantics D.meaning (order_by P.gives P.later) rounds
        session.old (P.state pick.old) (O.taken sink.old)
        (served (H.semantics.find (session_view H.semantics D.meaning session.old).state.service)
        (all_admitted (items_at codec.old)))
        session.new (P.state pick.new) (O.taken sink.new) result }
    ensures sink { OnlyWrites O.flushed O.faults O.beside sink.old sink.new (result_err result) }
{
    match codec.finish()? {
        Some(fault) => {
            write_step(
                alloc,
                room,
                sink,
                session,
                Item::Fault(fault.code()),
                pick,
                rounds,
            )?;
            write_step(alloc, room, sink, session, Item::Tick, pick, rounds)
        }
        None => write_step(alloc, room, sink, session, Item::Tick, pick, rounds),
    }
}
