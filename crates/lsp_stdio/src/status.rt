// The exit status of a session that ended.
ghost use Rattle.std.specs.Prelude.{◌≡◌};
ghost use Rattle.lsp_stdio.specs.Status.{status_at as status_at_def};

use lsp_program::Status;
use lsp_session::Life;

// A server ends with status 0 where `shutdown` came before `exit` (LSP 3.17, "Exit Notification").
pub(crate) fn status_at(exited: Option<Life>) -> u8
    ensures { result ≡ status_at_def exited }
{
    match exited {
        Some(Life::ShutDown) => Status::Done as u8,
        _ => Status::Unfinished as u8,
    }
}
