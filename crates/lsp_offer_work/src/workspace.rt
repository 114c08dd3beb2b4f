// The workspace.
ghost use Rattle.lsp_offer_work.specs.Workspace.{workspace_server_capabilities_row, workspace_folders_server_capabilities_row};

use crate::files::WorkspaceFileOperationsServerCapabilities;
use lsp_base::OneOf;
use lsp_shape::{Misfit, NoMemory, Optional, Wire, Writer, read_object};
use serde_json::Value;
use std::alloc::Global;

/// What a server supports for the workspace as a whole, as the capability `workspace` (LSP 3.17,
/// "Initialize Request").
#[derive(Debug, PartialEq, Eq, Default, Clone, Drop)]
pub struct WorkspaceServerCapabilities {
    /// Support for a workspace with several folders, since 3.6.
    pub workspace_folders: Option<WorkspaceFoldersServerCapabilities>,
    /// The messages on file operations that the server wants, since 3.16.
    pub file_operations: Option<WorkspaceFileOperationsServerCapabilities>,
}

#[tactic(auto, unfolding(crate::specs::Workspace::workspace_server_capabilities_row))]
impl Wire for WorkspaceServerCapabilities {
    ghost shape = { workspace_server_capabilities_row.shape };

    ghost shown = { workspace_server_capabilities_row.shown };

    fn from_value(alloc: Global, value: &Value) -> Result<WorkspaceServerCapabilities, Misfit> {
        let (workspace_folders, file_operations) = read_object(
            alloc,
            value,
            (Optional("workspaceFolders"), Optional("fileOperations")),
        )?;
        Ok(WorkspaceServerCapabilities {
            workspace_folders,
            file_operations,
        })
    }

    fn to_value(&self, alloc: Global) -> Result<Value, NoMemory> {
        let mut object = Writer::new(alloc);
        object.optional("workspaceFolders", &self.workspace_folders);
        object.optional("fileOperations", &self.file_operations);
        object.end()
    }
}

/// How a server supports a workspace with several folders, since 3.6 (LSP 3.17, "Workspace folders
/// request").
#[derive(Debug, PartialEq, Eq, Default, Clone, Drop)]
pub struct WorkspaceFoldersServerCapabilities {
    /// Whether it supports such a workspace.
    pub supported: Option<bool>,
    /// Whether the client is to send `workspace/didChangeWorkspaceFolders`. A string means that it
    /// is, and serves as the id for unregistering the notification later.
    pub change_notifications: Option<OneOf<bool, String>>,
}

#[tactic(auto, unfolding(crate::specs::Workspace::workspace_folders_server_capabilities_row))]
impl Wire for WorkspaceFoldersServerCapabilities {
    ghost shape = { workspace_folders_server_capabilities_row.shape };

    ghost shown = { workspace_folders_server_capabilities_row.shown };

    fn from_value(
        alloc: Global,
        value: &Value,
    ) -> Result<WorkspaceFoldersServerCapabilities, Misfit> {
        let (supported, change_notifications) = read_object(
            alloc,
            value,
            (Optional("supported"), Optional("changeNotifications")),
        )?;
        Ok(WorkspaceFoldersServerCapabilities {
            supported,
            change_notifications,
        })
    }

    fn to_value(&self, alloc: Global) -> Result<Value, NoMemory> {
        let mut object = Writer::new(alloc);
        object.optional("supported", &self.supported);
        object.optional("changeNotifications", &self.change_notifications);
        object.end()
    }
}
