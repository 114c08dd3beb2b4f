// A service and its socket.
ghost use Rattle.std.specs.Prelude.{◌≡◌, ◌≤◌, ◌∷◌, [], false, IfOk, IfErr};
ghost use Rattle.lsp_desk.specs.Call.{Look};
ghost use Rattle.lsp_desk.specs.Meaning.{IsOpening, PollsOn};
ghost use Rattle.lsp_desk.specs.Socket.{CutShort};
ghost use Rattle.lsp_session.specs.SessionView.{view_of, has_stopped};
ghost use Rattle.lsp_session.specs.State.{session_opening};
ghost use Rattle.lsp_service.specs.Ready.{IsReadiness};

use crate::server::LanguageServer;
use crate::service::LspService;
use lsp_desk::{ClientSocket, Desk, DeskFault, ExitedError, Loopback, Poll, SocketFault};
use lsp_session::Session;
use std::alloc::Global;

impl<S> LspService<S> {
    /// Whether the session goes on: it does until it has exited, which the socket's desk tells. It
    /// isn't said that a call would begin: after `shutdown` none does.
    pub fn poll_ready<D: Desk + Drop>(
        &self,
        socket: &mut ClientSocket<D>,
    ) -> Result<Poll<Result<(), ExitedError>>, DeskFault>
        ensures ready { IfOk result (λ ready.
            PollsOn D.meaning socket.old.desk socket.new.desk (IsReadiness ready)) }
        ensures failed { IfErr result (λ fault.
            CutShort D.meaning socket.old.desk socket.new.desk (Look ∷ []) fault) }
    {
        match socket.poll_ready() {
            Ok(()) => Ok(Poll::Ready(Ok(()))),
            Err(SocketFault::Exited(exited)) => Ok(Poll::Ready(Err(exited))),
            Err(SocketFault::Desk(fault)) => Err(fault),
        }
    }

    /// A session over the service and the socket's desk, as `Session::new` makes it.
    pub fn attach<D: Desk + Drop>(
        self,
        alloc: Global,
        socket: ClientSocket<D>,
        max: usize,
    ) -> Session<LspService<S>, D>
    where
        S: LanguageServer<D>,
        requires some { 1 ≤ max }
        requires opening { IsOpening D.meaning socket.desk }
        ensures view { view_of result
            ≡ record { desk = socket.desk; state = session_opening self max 1024; out = [] } }
        ensures running { has_stopped result ≡ false }
    {
        Session::new(alloc, self, socket.into_desk(), max)
    }
}
