// The server: it asks for the folders of the workspace, marks what is opened, and reports how far a
// command is.
use crate::params::{begun, ended, folders_line, greeting, initialize};
use lsp_client::{Answered, Asked, Client, Ticket};
use lsp_desk::{Caller, DeskFault};
use lsp_service::{
    Asking, Call, LifeCall, LifeReply, Reply, Started, SyncCall, WorkCall, WorkReply, let_go,
    not_found_for,
};
use lsp_types::notification::Progress;
use lsp_types::request::WorkspaceFoldersRequest;
use lsp_types::{ExecuteCommandParams, MessageType};
use serde_json::Value;
use std::alloc::Global;

#[derive(Drop)]
pub(crate) struct Asks;

/// What is left of a call that goes on.
#[derive(Drop)]
pub(crate) enum Task {
    /// `initialized`, until the folders of the workspace have come.
    Folders(Ticket<WorkspaceFoldersRequest>),
    /// `workspace/executeCommand`, until it is polled again.
    Command(Box<ExecuteCommandParams>),
}

impl<D: Caller> Asking<D> for Asks {
    ghost use Rattle.lsp_examples.specs.Task.{task_call};

    type Task = Task;

    ghost call_of = { task_call };

    fn call(
        &mut self,
        alloc: Global,
        call: Call,
        client: &mut D,
    ) -> Result<Started<Task>, DeskFault> {
        match call {
            Call::Life(LifeCall::Initialized(_)) => {
                let_go(call);
                client.log_message(alloc, MessageType::INFO, "Which folders are open?")?;
                match client.workspace_folders(alloc)? {
                    Asked::Ticket(ticket) => Ok(Started::Later(Task::Folders(ticket))),
                    Asked::Refused(error) => Ok(Started::Now(Reply::Error(error))),
                }
            }
            Call::Sync(SyncCall::DidOpen(params)) => {
                let document = Box::into_inner(params).text_document;
                let found = greeting(alloc, &document)?;
                client.publish_diagnostics(alloc, document.uri, found, Some(document.version))?;
                Ok(Started::Now(Reply::Noted))
            }
            Call::Work(WorkCall::ExecuteCommand(params)) => match begun(alloc, &params)? {
                Some(progress) => {
                    client.send_notification::<Progress>(alloc, progress)?;
                    Ok(Started::Later(Task::Command(params)))
                }
                None => Ok(Started::Later(Task::Command(params))),
            },
            Call::Life(LifeCall::Initialize(params)) => {
                let offered = initialize(alloc, params)?;
                Ok(Started::Now(Reply::Life(LifeReply::Initialize(Ok(offered)))))
            }
            Call::Life(LifeCall::Shutdown) => {
                Ok(Started::Now(Reply::Life(LifeReply::Shutdown(Ok(())))))
            }
            Call::Custom(_, params) => {
                let params = params.unwrap_or(Value::Null);
                Ok(Started::Now(Reply::Custom(Ok(params))))
            }
            other => Ok(Started::Now(not_found_for(alloc, other)?)),
        }
    }

    fn resume(
        &mut self,
        alloc: Global,
        task: Task,
        client: &mut D,
    ) -> Result<Started<Task>, DeskFault> {
        match task {
            Task::Folders(ticket) => match client.poll_answer(alloc, ticket)? {
                Answered::Value(folders) => {
                    let line = folders_line(alloc, folders)?;
                    client.log_message(alloc, MessageType::INFO, &line)?;
                    Ok(Started::Now(Reply::Noted))
                }
                Answered::Error(error) => Ok(Started::Now(Reply::Error(error))),
                Answered::Pending(ticket) => Ok(Started::Later(Task::Folders(ticket))),
            },
            Task::Command(params) => match ended(Box::into_inner(params)) {
                Some(progress) => {
                    client.send_notification::<Progress>(alloc, progress)?;
                    Ok(Started::Now(Reply::Work(WorkReply::ExecuteCommand(Ok(None)))))
                }
                None => Ok(Started::Now(Reply::Work(WorkReply::ExecuteCommand(Ok(None))))),
            },
        }
    }
}
