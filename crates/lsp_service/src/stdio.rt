// A service as a program.
ghost use Rattle.std.specs.Prelude.{◌≢◌, ◌≤◌, IfSome};
ghost use Rattle.std.specs.Process.{exit_status};
ghost use Rattle.lsp_desk.specs.Meaning.{IsOpening};
ghost use Rattle.lsp_server.specs.Course.{course};
ghost use Rattle.lsp_server.specs.ServerView.{server_desk, setting};
ghost use Rattle.lsp_stdio.specs.Stdio.{in_order, EndsWithin};
ghost use Rattle.lsp_stdio.specs.Pumping.{PumpEndsWithin};

use crate::server::LanguageServer;
use crate::service::LspService;
use lsp_desk::Desk;
use lsp_server::Server;
use lsp_session::Handlers;
use std::alloc::Global;
use std::io::{Read, Write};
use std::process::ExitCode;
use std::sync::Wait;
use std::thread::Threads;

/// Serves the service from `input` to `output`, and answers what `main` returns, as
/// [`serve_stdio`](lsp_stdio::serve_stdio) does for any handlers.
///
/// Who names the handlers proves how their calls are dropped: this crate, so that an author's
/// needn't.
pub fn serve_stdio<R: Read + Drop, W: Write + Drop, D: Desk + Drop, S: LanguageServer<D>>(
    alloc: Global,
    input: R,
    output: W,
    service: LspService<S>,
    server: Server<D>,
) -> ExitCode
    requires opening { IsOpening D.meaning (server_desk server) }
    ensures known { (exit_status result ≤ 7) × (exit_status result ≢ 2) }
    ensures session { exit_status result ≢ 6 → IfSome (R.remaining input) (λ bytes. EndsWithin
        (course ⟦<LspService<S> as Handlers<D>>⟧.semantics D.meaning in_order
        (setting server service tt 8)) bytes (exit_status result)) }
{
    lsp_stdio::serve_stdio(alloc, input, output, service, server)
}

/// Serves the service from `input` to `output` while a thread of its own reads, and answers what
/// `main` returns, as [`pump_stdio`](lsp_stdio::pump_stdio) does for any handlers.
pub fn pump_stdio<
    T: Threads + Wait,
    R: Read + Send + Drop + 'static,
    W: Write + Drop,
    D: Desk + Drop,
    S: LanguageServer<D>,
>(rt: &T, alloc: Global, input: R, output: W, service: LspService<S>, server: Server<D>) -> ExitCode
    requires opening { IsOpening D.meaning (server_desk server) }
    ensures known { (exit_status result ≤ 7) × (exit_status result ≢ 2) }
    ensures session { exit_status result ≢ 6 → IfSome (R.remaining input) (λ bytes. PumpEndsWithin
        (course ⟦<LspService<S> as Handlers<D>>⟧.semantics D.meaning in_order
        (setting server service tt 8)) bytes (exit_status result)) }
{
    lsp_stdio::pump_stdio(rt, alloc, input, output, service, server)
}
