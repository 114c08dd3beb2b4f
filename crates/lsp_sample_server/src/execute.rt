// How a command goes on.
ghost use Rattle.std.specs.Prelude.{◌≡◌, true, IfOk, IfErr, OnErr};
ghost use Rattle.serde_json.specs.View.{view};
ghost use Rattle.lsp_shape.specs.Row.{maybe, list};
ghost use Rattle.lsp_base.specs.Document.{workspace_folder_row};
ghost use Rattle.lsp_work.specs.Workspace.{execute_command_params_row};
ghost use Rattle.lsp_desk.specs.Meaning.{PollsOn};
ghost use Rattle.lsp_session.specs.Fails.{PollFails};
ghost use Rattle.lsp_client.specs.Methods.{written_by_row};
ghost use Rattle.lsp_ask.specs.Shown.{ticket_number};
ghost use Rattle.lsp_sample_server.specs.Command.{command_in};
ghost use Rattle.lsp_sample_server.specs.Execute.{Asks, Executes, ResumesCommand, PollsAnswer, may_fail, waits as waits_def};
ghost use Rattle.lsp_sample_server.specs.Left.{command_left, show_left};
ghost use Rattle.lsp_sample_server.specs.Shown.{show_outcome, show_task};

use crate::command::{Command, echoed, read_command};
use crate::task::{Left, SampleTask};
use lsp_base::WorkspaceFolder;
use lsp_client::{Answered, Asked, Client, Ticket};
use lsp_desk::{Caller, DeskFault};
use lsp_methods::request::WorkspaceFoldersRequest;
use lsp_rpc::{Error, ErrorCode, NoMemory};
use lsp_shape::Wire;
use lsp_work::ExecuteCommandParams;
use serde_json::Value;
use std::alloc::Global;

// What a poll of a command comes to.
pub(crate) enum Outcome {
    Ended(Result<Option<Value>, Error>),
    Going(SampleTask),
}

/// Polls a command for the first time.
pub(crate) fn execute<D: Caller>(
    alloc: Global,
    params: ExecuteCommandParams,
    client: &mut D,
) -> Result<Outcome, DeskFault>
    requires { D.meaning.chief client.old ≡ true }
    ensures begun { IfOk result (λ outcome. PollsOn D.meaning client.old client.new
        (λ asked. Executes (execute_command_params_row.shown params)
        (command_in (execute_command_params_row.shown params)) asked (show_outcome outcome))) }
    ensures failed { IfErr result (λ fault. PollFails D.meaning client.old client.new fault) }
    ensures memory { OnErr result
        (may_fail (command_in (execute_command_params_row.shown params)) ≡ true) }
{
    match read_command(&params) {
        Command::Echo => Ok(Outcome::Ended(Ok(echoed(params)))),
        Command::Wait(polls) => Ok(waits(params, polls, polls)),
        Command::Ask => ask(alloc, params, client),
        Command::Unknown => Ok(Outcome::Ended(Err(Error::new(alloc, ErrorCode::InvalidParams)?))),
    }
}

/// Polls it again.
pub(crate) fn go_on<D: Caller>(
    alloc: Global,
    task: SampleTask,
    client: &mut D,
) -> Result<Outcome, DeskFault>
    requires { D.meaning.chief client.old ≡ true }
    ensures resumed { IfOk result (λ outcome. PollsOn D.meaning client.old client.new
        (λ asked. ResumesCommand (show_task task) asked (show_outcome outcome))) }
    ensures failed { IfErr result (λ fault. PollFails D.meaning client.old client.new fault) }
    ensures memory { OnErr result (command_left (show_left task.left) ≡ Command.Ask) }
{
    match task.left {
        Left::Waiting { left, polls } => Ok(waits(task.params, left, polls)),
        Left::Asking(ticket) => answer(alloc, task.params, ticket, client),
    }
}

// What a poll of a `wait` comes to, of which so many polls are left.
fn waits(params: ExecuteCommandParams, left: u64, polls: u64) -> Outcome
    requires { command_in (execute_command_params_row.shown params) ≡ Command.Wait polls }
    ensures { show_outcome result
        ≡ waits_def (execute_command_params_row.shown params) left polls }
{
    if left == 0 {
        return Outcome::Ended(Ok(Some(Value::from(polls))));
    }
    let left = Left::Waiting {
        left: left - 1,
        polls,
    };
    Outcome::Going(SampleTask { params, left })
}

// Asks for the folders.
fn ask<D: Caller>(
    alloc: Global,
    params: ExecuteCommandParams,
    client: &mut D,
) -> Result<Outcome, DeskFault>
    requires { command_in (execute_command_params_row.shown params) ≡ Command.Ask }
    ensures asked { IfOk result (λ outcome. PollsOn D.meaning client.old client.new
        (λ asked. Asks (execute_command_params_row.shown params) asked (show_outcome outcome))) }
    ensures failed { IfErr result (λ fault. PollFails D.meaning client.old client.new fault) }
{
    match client.workspace_folders(alloc)? {
        Asked::Ticket(ticket) => Ok(Outcome::Going(SampleTask {
            params,
            left: Left::Asking(ticket),
        })),
        Asked::Refused(error) => Ok(Outcome::Ended(Err(error))),
    }
}

// Looks whether the folders have come.
fn answer<D: Caller>(
    alloc: Global,
    params: ExecuteCommandParams,
    ticket: Ticket<WorkspaceFoldersRequest>,
    client: &mut D,
) -> Result<Outcome, DeskFault>
    requires { command_in (execute_command_params_row.shown params) ≡ Command.Ask }
    ensures answered { IfOk result (λ outcome. PollsOn D.meaning client.old client.new
        (λ asked. PollsAnswer (execute_command_params_row.shown params) (ticket_number ticket)
        asked (show_outcome outcome))) }
    ensures failed { IfErr result (λ fault. PollFails D.meaning client.old client.new fault) }
{
    match client.poll_answer(alloc, ticket)? {
        Answered::Value(folders) => {
            let value = folders_value(alloc, folders)?;
            Ok(Outcome::Ended(Ok(Some(value))))
        }
        Answered::Error(error) => Ok(Outcome::Ended(Err(error))),
        Answered::Pending(ticket) => Ok(Outcome::Going(SampleTask {
            params,
            left: Left::Asking(ticket),
        })),
    }
}

// What is given back of the folders.
fn folders_value(alloc: Global, folders: Option<Vec<WorkspaceFolder>>) -> Result<Value, NoMemory>
    ensures { IfOk result (λ value. view value
        ≡ written_by_row (maybe (list workspace_folder_row)) folders) }
{
    folders.to_value(alloc)
}
