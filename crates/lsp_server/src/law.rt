//! What holds of every server: a function whose contract is a law.
ghost use Rattle.lsp_session.specs.Run.{order_by};
ghost use Rattle.lsp_server.specs.History.{RunsInHistory};
ghost use Rattle.lsp_server.specs.PartBegins.{PartBeginsRun};

use lsp_desk::Desk;
use lsp_session::{Handlers, Pick};

/// Over a desk that others use too, and that tells its history, the run of the headline of
/// [`Server::serve`](crate::Server::serve) is that history: its trace has each entry of the history
/// at its place, the session's own are those that were made through the desk handed back, and those
/// of others stand between them as calls of a server.
pub fn runs_in_history<D: Desk, H: Handlers<D>, P: Pick>()
    ensures { RunsInHistory H.semantics D.meaning (order_by P.gives P.later) }
{}

/// Over a desk that others don't use, and of handlers of which what is seen determines each poll,
/// there is one run over the bytes of a source: what [`Server::serve`](crate::Server::serve) has
/// written where it stopped begins what that run writes.
pub fn part_begins_run<D: Desk, H: Handlers<D>, P: Pick, X>()
    ensures { (show : H → X)
        → PartBeginsRun H.semantics D.meaning (order_by P.gives P.later) show }
{}
