//! What every session keeps, whatever comes: functions whose contract is a law.
ghost use Rattle.lsp_session.specs.Laws.{InitializeComesFirst, InitializeComesOnce, NothingBeginsAfterShutdown, ExitEnds, LivesGoOn, FactsHold, AnsweredOnce, CancelledOnce, RoundsPollAll};
ghost use Rattle.lsp_session.specs.Run.{order_by};
ghost use Rattle.lsp_session.specs.Own.{OwnMessagesPass};
ghost use Rattle.lsp_session.specs.Begins.{BeginsWhereStarted};

use crate::{Handlers, Pick};
use lsp_desk::Caller;

/// `initialize` comes first: until it has ended well, a request of any other registered method,
/// `shutdown` too, is answered -32002 and changes nothing (LSP 3.17, "Initialize Request"). It says
/// nothing of `exit`, which ends a session at any time, of a cancel, or of an unregistered name.
pub fn initialize_comes_first<D: Caller, H: Handlers<D>>()
    ensures { InitializeComesFirst H.semantics }
{}

/// `initialize` comes once: a second one is answered -32600 and changes nothing.
pub fn initialize_comes_once<D: Caller, H: Handlers<D>>()
    ensures { InitializeComesOnce H.semantics }
{}

/// Nothing begins after `shutdown`, and a request of any registered method but `exit` is answered
/// -32600 and changes nothing (LSP 3.17, "Shutdown Request"): a second `shutdown`, an `initialize`
/// and a cancel that has an id too. It says nothing of an unregistered name.
pub fn nothing_begins_after_shutdown<D: Caller, H: Handlers<D>>()
    ensures { NothingBeginsAfterShutdown H.semantics }
{}

/// `exit` always ends a session: each request that was live is answered `RequestCancelled`, in order
/// of admission, and none is left (LSP 3.17, "Exit Notification").
pub fn exit_ends<D: Caller, H: Handlers<D>>()
    ensures { ExitEnds H.semantics }
{}

/// A life falls only from Initializing to Uninitialized.
pub fn lives_go_on<D: Caller, H: Handlers<D>>()
    ensures { LivesGoOn H.semantics }
{}

/// In every state that a run comes to, live ids differ, no call waits while a slot is free, the calls
/// fit the life, and where no item holds a float each call is sound.
pub fn facts_hold<D: Caller, H: Handlers<D>, P: Pick>()
    ensures { FactsHold H.semantics (order_by P.gives P.later) }
{}

/// Each owed request and each fault is answered once, but for the requests that are still live.
pub fn answered_once<D: Caller, H: Handlers<D>, P: Pick>()
    ensures { AnsweredOnce H.semantics (order_by P.gives P.later) }
{}

/// A live request that is cancelled is answered `RequestCancelled`, and after this answer it has no
/// other (LSP 3.17, "Cancellation Support").
pub fn cancelled_once<D: Caller, H: Handlers<D>, P: Pick>()
    ensures { CancelledOnce H.semantics (order_by P.gives P.later) }
{}

/// A round polls each call that has a slot or comes to one once, notifications too, polls no other,
/// and leaves none waiting while a slot is free.
pub fn rounds_poll_all<D: Caller, H: Handlers<D>, P: Pick>()
    ensures { RoundsPollAll H.semantics (order_by P.gives P.later) }
{}

/// A call begins only where admission started it, once for each start, and with what its own
/// request's params are read as.
pub fn begins_where_started<D: Caller, H: Handlers<D>, P: Pick>()
    ensures { BeginsWhereStarted H.semantics (order_by P.gives P.later) }
{}

/// The server's own messages are those that it put in the desk before any `exit`, once each and in
/// order, less those that the desk still holds; a desk that others don't use holds none.
pub fn own_messages_pass<D: Caller, H: Handlers<D>, P: Pick>()
    ensures { OwnMessagesPass H.semantics (order_by P.gives P.later) }
{}
