// What is left of a command that goes on.
ghost use Rattle.std.specs.Prelude.{◌≡◌};
ghost use Rattle.lsp_work.specs.Workspace.{execute_command_params_row};
ghost use Rattle.lsp_sample_server.specs.Command.{command_in};
ghost use Rattle.lsp_sample_server.specs.Left.{command_left, show_left};

use lsp_client::Ticket;
use lsp_methods::request::WorkspaceFoldersRequest;
use lsp_work::ExecuteCommandParams;

/// What a command goes on with.
#[derive(Drop)]
pub enum Left {
    /// A `wait`, for `left` polls more, of `polls`.
    Waiting { left: u64, polls: u64 },
    /// An `ask`, until its answer has come.
    Asking(Ticket<WorkspaceFoldersRequest>),
}

/// A command that goes on.
#[derive(Drop)]
pub struct SampleTask {
    pub(crate) params: ExecuteCommandParams,
    pub(crate) left: Left,
    ghost tied: { command_left (show_left left)
        ≡ command_in (execute_command_params_row.shown params) },
}
