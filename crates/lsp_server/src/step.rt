// The step of an item, with what it writes.
ghost use Rattle.std.specs.Prelude.{◌≡◌, ◌≢◌, ◌≤◌, ◌⊎◌, [], ◌∷◌, false, OnOk, OnErr};
ghost use Rattle.std.specs.Result.{result_err};
ghost use Rattle.std.specs.Io.KnownBytes.{Keeps};
ghost use Rattle.lsp_session.specs.Item.{show_item, item_has_float};
ghost use Rattle.lsp_session.specs.Run.{order_by, is_exit};
ghost use Rattle.lsp_session.specs.SessionView.{session_view, has_stopped, life_of};
ghost use Rattle.lsp_server.specs.SourceSink.{CountRose, Flushes};
ghost use Rattle.lsp_server.specs.Course.{picked};
ghost use Rattle.lsp_server.specs.Steps.{MayStep, MadeSteps, StepPutsOut};
ghost use Rattle.lsp_server.specs.Leaves.{OnlyWrites};
ghost use Rattle.lsp_server.specs.Errors.{IsFlushedAt, ComesOfSink, LeavesSink, refused_error};
ghost use Rattle.lsp_server.specs.declared.step.ServeError.TheVariants.{NoMemory as no_memory};

use crate::{Refused, Sink, write_all};
use bytes::BytesMut;
use lsp_desk::Desk;
use lsp_frame::push_message;
use lsp_rpc::NoMemory;
use lsp_session::{Handlers, Item, Life, Pick, Session, SessionFault};
use std::alloc::Global;
use std::convert::From;
use thiserror::Error;

// A larger room isn't kept.
const KEPT: usize = 65_536;

/// Why a server stopped: between two reads, in a step, those of an `exit` and of the end of input
/// among them, or out of memory as it handed the session back.
#[derive(Clone, Copy, Debug, PartialEq, Eq, Error)]
pub enum ServeError {
    /// The source failed.
    #[error("read failed")]
    ReadFault,
    /// The sink failed.
    #[error("write failed")]
    WriteFault,
    /// All reads that were granted were made.
    #[error("reads spent")]
    ReadsSpent,
    /// The desk has no turns left; the number of the last turn, 2^64 - 1.
    #[error("desk spent")]
    DeskSpent(u64),
    /// Out of memory.
    #[error("out of memory")]
    NoMemory,
}

impl From<NoMemory> for ServeError {
    ghost from_gives = { λ _ e. e ≡ no_memory };

    fn from(_: NoMemory) -> ServeError {
        ServeError::NoMemory
    }
}

impl From<Refused> for ServeError {
    ghost from_gives = { λ refused e. e ≡ refused_error refused };

    fn from(refused: Refused) -> ServeError {
        match refused {
            Refused::Failed => ServeError::WriteFault,
            Refused::NoMemory => ServeError::NoMemory,
        }
    }
}

/// Makes the step of one item: it is admitted, so many rounds are made, and the frames of what was
/// put out are written by way of the room.
pub(crate) fn write_step<O: Sink, D: Desk + Drop, H: Handlers<D>, P: Pick>(
    alloc: Global,
    room: &mut BytesMut,
    sink: &mut O,
    session: &mut Session<H, D>,
    item: Item,
    pick: &mut P,
    rounds: u64,
) -> Result<(), ServeError>
    requires may { MayStep H.semantics D.meaning session.old }
    requires float_free { item_has_float (show_item item) ≡ false }
    ensures steps { MadeSteps H.semantics D.meaning (order_by P.gives P.later) rounds
        session.old (P.state pick.old) (O.taken sink.old) (show_item item ∷ [])
        session.new (P.state pick.new) (O.taken sink.new) result }
    ensures lives { OnOk result
        (is_exit (H.semantics.find (session_view H.semantics D.meaning session.old).state.service)
        (show_item item) ≡ false
        → life_of D.meaning session.new ≢ Life.Exited) }
    // An error that leaves the session running comes of what the step put out.
    ensures none { OnErr result (has_stopped session.new ≡ false → StepPutsOut H.semantics
        (order_by P.gives P.later) rounds
        (picked (session_view H.semantics D.meaning session.old) (P.state pick.old))
        (show_item item)
        (picked (session_view H.semantics D.meaning session.new) (P.state pick.new))) }
    ensures sink { OnlyWrites O.flushed O.faults O.beside sink.old sink.new (result_err result) }
{
    match lsp_session::step(session, item, pick, rounds) {
        Ok(()) => {}
        Err(SessionFault::DeskSpent(n)) => return Err(ServeError::DeskSpent(n)),
        Err(SessionFault::NoMemory) => return Err(ServeError::NoMemory),
        Err(SessionFault::Exited(_)) => unreachable!(),
    }
    let out = session.take_out();
    if out.is_empty() {
        return Ok(());
    }
    room.clear();
    for message in &out {
        match push_message(alloc, message, room) {
            Ok(()) => {}
            Err(NoMemory) => return Err(ServeError::NoMemory),
        }
    }
    let written = write_all(sink, room.as_slice());
    if room.capacity() > KEPT {
        *room = BytesMut::new(alloc);
    }
    written?;
    Ok(())
}

/// Sends what the sink took before an error on its way. The error stands, unless the flush fails
/// too; after a failed write nothing is flushed.
pub(crate) fn flush_after<O: Sink>(sink: &mut O, error: ServeError) -> ServeError
    ensures stands { (result ≡ error) ⊎ ComesOfSink result }
    ensures failed { error ≡ ServeError.WriteFault → result ≡ ServeError.WriteFault }
    ensures taken { Keeps (O.taken sink.old) (O.taken sink.new) }
    ensures flushes { IsFlushedAt result → Flushes (O.taken sink.old) (O.flushed sink.old)
        (O.flushed sink.new) }
    ensures beside { O.beside sink.new ≡ O.beside sink.old }
    ensures count { O.faults sink.old ≤ O.faults sink.new }
    ensures write { result ≡ ServeError.WriteFault → (error ≡ ServeError.WriteFault)
        ⊎ CountRose (O.faults sink.old) (O.faults sink.new) }
    ensures left { LeavesSink result → (O.faults sink.new ≡ O.faults sink.old) × LeavesSink error }
{
    if error == ServeError::WriteFault {
        return error;
    }
    match sink.flush() {
        Ok(()) => error,
        Err(refused) => ServeError::from(refused),
    }
}
