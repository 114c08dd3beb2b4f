// The workspace: configuration, folders, watched files, commands and edits.
ghost use Rattle.std.specs.Prelude.{◌≡◌, [], string_bytes};
ghost use Rattle.lsp_work.specs.Workspace.{did_change_configuration_params_row, configuration_params_row, configuration_item_row, did_change_watched_files_params_row, file_event_row, did_change_workspace_folders_params_row, workspace_folders_change_event_row, execute_command_params_row, apply_workspace_edit_params_row, apply_workspace_edit_response_row};

use lsp_base::{WorkDoneProgressParams, WorkspaceEdit, WorkspaceFolder};
use lsp_kinds::FileChangeType;
use lsp_shape::{Misfit, NoMemory, Optional, Reader, Required, Wire, Writer, flat, read_object};
use lsp_uri::Uri;
use serde_json::Value;
use std::alloc::Global;

/// The parameters of `workspace/didChangeConfiguration`, which a client sends when its settings
/// have changed (LSP 3.17, "DidChangeConfiguration Notification").
#[derive(Debug, PartialEq, Clone, Drop)]
pub struct DidChangeConfigurationParams {
    /// The settings, in a form that client and server agree on.
    pub settings: Value,
}

#[tactic(auto, unfolding(crate::specs::Workspace::did_change_configuration_params_row))]
impl Wire for DidChangeConfigurationParams {
    ghost shape = { did_change_configuration_params_row.shape };

    ghost shown = { did_change_configuration_params_row.shown };

    fn from_value(alloc: Global, value: &Value) -> Result<DidChangeConfigurationParams, Misfit> {
        let settings = read_object(alloc, value, Required("settings"))?;
        Ok(DidChangeConfigurationParams { settings })
    }

    fn to_value(&self, alloc: Global) -> Result<Value, NoMemory> {
        let mut object = Writer::new(alloc);
        object.field("settings", &self.settings);
        object.end()
    }
}

/// The parameters of `workspace/configuration`, with which a server asks for settings of the
/// client. Since 3.6 (LSP 3.17, "Configuration Request").
#[derive(Debug, PartialEq, Eq, Clone, Drop)]
pub struct ConfigurationParams {
    /// The requested settings. The result is an array with one value for each, in the same order,
    /// and null where the client has none.
    pub items: Vec<ConfigurationItem>,
}

impl ConfigurationParams {
    /// The default value: empty strings and arrays, zero numbers, `false` booleans, and every
    /// optional field absent.
    pub fn default(alloc: Global) -> ConfigurationParams
        ensures items { result.items.items ≡ [] }
    {
        ConfigurationParams {
            items: Vec::new(alloc),
        }
    }
}

#[tactic(auto, unfolding(crate::specs::Workspace::configuration_params_row))]
impl Wire for ConfigurationParams {
    ghost shape = { configuration_params_row.shape };

    ghost shown = { configuration_params_row.shown };

    fn from_value(alloc: Global, value: &Value) -> Result<ConfigurationParams, Misfit> {
        let items = read_object(alloc, value, Required("items"))?;
        Ok(ConfigurationParams { items })
    }

    fn to_value(&self, alloc: Global) -> Result<Value, NoMemory> {
        let mut object = Writer::new(alloc);
        object.field("items", &self.items);
        object.end()
    }
}

/// A setting that a server asks for in `workspace/configuration`. Since 3.6 (LSP 3.17,
/// "Configuration Request").
#[derive(Debug, PartialEq, Eq, Default, Clone, Drop)]
pub struct ConfigurationItem {
    /// The document or folder that the setting is requested for. Absent: none in particular.
    pub scope_uri: Option<Uri>,
    /// The name of the setting or group of settings, such as `editor.formatOnSave`.
    pub section: Option<String>,
}

#[tactic(auto, unfolding(crate::specs::Workspace::configuration_item_row))]
impl Wire for ConfigurationItem {
    ghost shape = { configuration_item_row.shape };

    ghost shown = { configuration_item_row.shown };

    fn from_value(alloc: Global, value: &Value) -> Result<ConfigurationItem, Misfit> {
        let (scope_uri, section) = read_object(
            alloc,
            value,
            (Optional("scopeUri"), Optional("section")),
        )?;
        Ok(ConfigurationItem { scope_uri, section })
    }

    fn to_value(&self, alloc: Global) -> Result<Value, NoMemory> {
        let mut object = Writer::new(alloc);
        object.optional("scopeUri", &self.scope_uri);
        object.optional("section", &self.section);
        object.end()
    }
}

/// The parameters of `workspace/didChangeWatchedFiles`, which a client sends when files that the
/// server watches have changed (LSP 3.17, "DidChangeWatchedFiles Notification").
#[derive(Debug, PartialEq, Eq, Clone, Drop)]
pub struct DidChangeWatchedFilesParams {
    /// What happened, file by file.
    pub changes: Vec<FileEvent>,
}

#[tactic(auto, unfolding(crate::specs::Workspace::did_change_watched_files_params_row))]
impl Wire for DidChangeWatchedFilesParams {
    ghost shape = { did_change_watched_files_params_row.shape };

    ghost shown = { did_change_watched_files_params_row.shown };

    fn from_value(alloc: Global, value: &Value) -> Result<DidChangeWatchedFilesParams, Misfit> {
        let changes = read_object(alloc, value, Required("changes"))?;
        Ok(DidChangeWatchedFilesParams { changes })
    }

    fn to_value(&self, alloc: Global) -> Result<Value, NoMemory> {
        let mut object = Writer::new(alloc);
        object.field("changes", &self.changes);
        object.end()
    }
}

/// What happened to a watched file or folder (LSP 3.17, "DidChangeWatchedFiles Notification").
#[derive(Debug, PartialEq, Eq, Hash, Clone, Drop)]
pub struct FileEvent {
    /// The URI of the file or folder.
    pub uri: Uri,
    /// Whether it was created, changed or deleted. In JSON the name is `type`.
    pub typ: FileChangeType,
}

impl FileEvent {
    /// The event with these values.
    pub fn new(uri: Uri, typ: FileChangeType) -> FileEvent
        ensures { result ≡ record { uri = uri; typ = typ } }
    {
        FileEvent { uri, typ }
    }
}

#[tactic(auto, unfolding(crate::specs::Workspace::file_event_row))]
impl Wire for FileEvent {
    ghost shape = { file_event_row.shape };

    ghost shown = { file_event_row.shown };

    fn from_value(alloc: Global, value: &Value) -> Result<FileEvent, Misfit> {
        let (uri, typ) = read_object(alloc, value, (Required("uri"), Required("type")))?;
        Ok(FileEvent { uri, typ })
    }

    fn to_value(&self, alloc: Global) -> Result<Value, NoMemory> {
        let mut object = Writer::new(alloc);
        object.field("uri", &self.uri);
        object.field("type", &self.typ);
        object.end()
    }
}

/// The parameters of `workspace/didChangeWorkspaceFolders`, which a client sends when workspace
/// folders were added or removed. Since 3.6 (LSP 3.17, "DidChangeWorkspaceFolders Notification").
#[derive(Debug, PartialEq, Eq, Clone, Drop)]
pub struct DidChangeWorkspaceFoldersParams {
    /// The folders added and removed.
    pub event: WorkspaceFoldersChangeEvent,
}

impl DidChangeWorkspaceFoldersParams {
    /// No folders added or removed.
    pub fn default(alloc: Global) -> DidChangeWorkspaceFoldersParams
        ensures added { result.event.added.items ≡ [] }
        ensures removed { result.event.removed.items ≡ [] }
    {
        DidChangeWorkspaceFoldersParams {
            event: WorkspaceFoldersChangeEvent::default(alloc),
        }
    }
}

#[tactic(auto, unfolding(crate::specs::Workspace::did_change_workspace_folders_params_row))]
impl Wire for DidChangeWorkspaceFoldersParams {
    ghost shape = { did_change_workspace_folders_params_row.shape };

    ghost shown = { did_change_workspace_folders_params_row.shown };

    fn from_value(alloc: Global, value: &Value) -> Result<DidChangeWorkspaceFoldersParams, Misfit> {
        let event = read_object(alloc, value, Required("event"))?;
        Ok(DidChangeWorkspaceFoldersParams { event })
    }

    fn to_value(&self, alloc: Global) -> Result<Value, NoMemory> {
        let mut object = Writer::new(alloc);
        object.field("event", &self.event);
        object.end()
    }
}

/// The workspace folders that were added and removed. Since 3.6 (LSP 3.17,
/// "DidChangeWorkspaceFolders Notification").
#[derive(Debug, PartialEq, Eq, Clone, Drop)]
pub struct WorkspaceFoldersChangeEvent {
    /// The new folders.
    pub added: Vec<WorkspaceFolder>,
    /// The folders that no longer belong to the workspace.
    pub removed: Vec<WorkspaceFolder>,
}

impl WorkspaceFoldersChangeEvent {
    /// No folders added or removed.
    pub fn default(alloc: Global) -> WorkspaceFoldersChangeEvent
        ensures added { result.added.items ≡ [] }
        ensures removed { result.removed.items ≡ [] }
    {
        WorkspaceFoldersChangeEvent {
            added: Vec::new(alloc),
            removed: Vec::new(alloc),
        }
    }
}

#[tactic(auto, unfolding(crate::specs::Workspace::workspace_folders_change_event_row))]
impl Wire for WorkspaceFoldersChangeEvent {
    ghost shape = { workspace_folders_change_event_row.shape };

    ghost shown = { workspace_folders_change_event_row.shown };

    fn from_value(alloc: Global, value: &Value) -> Result<WorkspaceFoldersChangeEvent, Misfit> {
        let (added, removed) = read_object(alloc, value, (Required("added"), Required("removed")))?;
        Ok(WorkspaceFoldersChangeEvent { added, removed })
    }

    fn to_value(&self, alloc: Global) -> Result<Value, NoMemory> {
        let mut object = Writer::new(alloc);
        object.field("added", &self.added);
        object.field("removed", &self.removed);
        object.end()
    }
}

/// The parameters of `workspace/executeCommand`, with which a client asks the server to execute one
/// of its commands (LSP 3.17, "Execute a command").
#[derive(Debug, PartialEq, Clone, Drop)]
pub struct ExecuteCommandParams {
    /// The identifier of the command.
    pub command: String,
    /// The arguments of the command, in a form that the command defines. Empty if the client sends
    /// none.
    pub arguments: Vec<Value>,
    /// The token, chosen by the client, under which the server may report work done progress with
    /// `$/progress`. Absent: the client asks for none. Since 3.15.
    pub work_done_progress_params: WorkDoneProgressParams,
}

impl ExecuteCommandParams {
    /// The default value: empty strings and arrays, zero numbers, `false` booleans, and every
    /// optional field absent.
    pub fn default(alloc: Global) -> ExecuteCommandParams
        ensures command { string_bytes result.command ≡ [] }
        ensures arguments { result.arguments.items ≡ [] }
        ensures token { result.work_done_progress_params.work_done_token ≡ None }
    {
        ExecuteCommandParams {
            command: String::new(alloc),
            arguments: Vec::new(alloc),
            work_done_progress_params: WorkDoneProgressParams::default(),
        }
    }
}

#[tactic(auto, unfolding(crate::specs::Workspace::execute_command_params_row, lsp_base::specs::Progress::work_done_progress_params_row))]
impl Wire for ExecuteCommandParams {
    ghost shape = { execute_command_params_row.shape };

    ghost shown = { execute_command_params_row.shown };

    fn from_value(alloc: Global, value: &Value) -> Result<ExecuteCommandParams, Misfit> {
        let object = Reader::new(alloc, value)?;
        Ok(ExecuteCommandParams {
            command: object.field("command")?,
            arguments: object.list_or_empty("arguments")?,
            work_done_progress_params: flat(alloc, value)?,
        })
    }

    fn to_value(&self, alloc: Global) -> Result<Value, NoMemory> {
        let mut object = Writer::new(alloc);
        object.field("command", &self.command);
        object.field("arguments", &self.arguments);
        object.flat(&self.work_done_progress_params);
        object.end()
    }
}

/// The parameters of `workspace/applyEdit`, with which a server asks the client to change documents
/// or files (LSP 3.17, "Applies a WorkspaceEdit").
#[derive(Debug, Clone, Drop)]
pub struct ApplyWorkspaceEditParams {
    /// A name for the edit that the client shows to the user, for example to undo it.
    pub label: Option<String>,
    /// The changes to make.
    pub edit: WorkspaceEdit,
}

#[tactic(auto, unfolding(crate::specs::Workspace::apply_workspace_edit_params_row))]
impl Wire for ApplyWorkspaceEditParams {
    ghost shape = { apply_workspace_edit_params_row.shape };

    ghost shown = { apply_workspace_edit_params_row.shown };

    fn from_value(alloc: Global, value: &Value) -> Result<ApplyWorkspaceEditParams, Misfit> {
        let (label, edit) = read_object(alloc, value, (Optional("label"), Required("edit")))?;
        Ok(ApplyWorkspaceEditParams { label, edit })
    }

    fn to_value(&self, alloc: Global) -> Result<Value, NoMemory> {
        let mut object = Writer::new(alloc);
        object.optional("label", &self.label);
        object.field("edit", &self.edit);
        object.end()
    }
}

/// The result of `workspace/applyEdit`. LSP 3.17 calls this type `ApplyWorkspaceEditResult` (LSP
/// 3.17, "Applies a WorkspaceEdit").
#[derive(Debug, PartialEq, Eq, Clone, Drop)]
pub struct ApplyWorkspaceEditResponse {
    /// Whether the client made the changes.
    pub applied: bool,
    /// A text that says why the client didn't make the changes, for a log or an error message.
    pub failure_reason: Option<String>,
    /// The zero-based index of the failed change. Only from clients that state a failure handling
    /// strategy.
    pub failed_change: Option<u32>,
}

#[tactic(auto, unfolding(crate::specs::Workspace::apply_workspace_edit_response_row))]
impl Wire for ApplyWorkspaceEditResponse {
    ghost shape = { apply_workspace_edit_response_row.shape };

    ghost shown = { apply_workspace_edit_response_row.shown };

    fn from_value(alloc: Global, value: &Value) -> Result<ApplyWorkspaceEditResponse, Misfit> {
        let (applied, failure_reason, failed_change) = read_object(
            alloc,
            value,
            (
                Required("applied"),
                Optional("failureReason"),
                Optional("failedChange"),
            ),
        )?;
        Ok(ApplyWorkspaceEditResponse {
            applied,
            failure_reason,
            failed_change,
        })
    }

    fn to_value(&self, alloc: Global) -> Result<Value, NoMemory> {
        let mut object = Writer::new(alloc);
        object.field("applied", &self.applied);
        object.optional("failureReason", &self.failure_reason);
        object.optional("failedChange", &self.failed_change);
        object.end()
    }
}
