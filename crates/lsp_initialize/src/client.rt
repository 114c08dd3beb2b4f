// What a client sends in `initialize`.
ghost use Rattle.std.specs.Prelude.{◌≡◌, IfOk, is_some, option_map};
ghost use Rattle.serde_json.specs.View.{view};
ghost use Rattle.lsp_shape.specs.Read.{read};
ghost use Rattle.lsp_initialize.specs.Client.{client_capabilities_row, initialize_params_row};

use lsp_base::{WorkDoneProgressParams, WorkspaceFolder};
use lsp_caps_text::TextDocumentClientCapabilities;
use lsp_caps_work::{
    ClientInfo, GeneralClientCapabilities, NotebookDocumentClientCapabilities,
    WindowClientCapabilities, WorkspaceClientCapabilities,
};
use lsp_names::TraceValue;
use lsp_shape::{
    Copies, Flat, Misfit, NoMemory, Optional, Required, Wire, Writer, attempt, flat, read_object,
};
use lsp_uri::Uri;
use serde_json::Value;
use std::alloc::{AllocError, Global};

/// The features that a client supports, as part of `InitializeParams`. An absent field means that
/// it supports none of that group (LSP 3.17, "Initialize Request").
#[derive(Debug, PartialEq, Default, Drop)]
pub struct ClientCapabilities {
    /// Features of the workspace, such as edits, configuration and file operations.
    pub workspace: Option<WorkspaceClientCapabilities>,
    /// Features of text documents, from synchronization to completion and diagnostics.
    pub text_document: Option<TextDocumentClientCapabilities>,
    /// Features of notebooks, since 3.17.
    pub notebook_document: Option<NotebookDocumentClientCapabilities>,
    /// Features of the client's user interface: messages, shown documents and progress.
    pub window: Option<WindowClientCapabilities>,
    /// Features of the protocol itself, such as position encodings, since 3.16.
    pub general: Option<GeneralClientCapabilities>,
    /// Features that aren't part of the standard, in a form that client and server agree on.
    pub experimental: Option<Value>,
}

impl Clone for ClientCapabilities {
    ghost is_clone = { λ x y. ⟦<Option<WorkspaceClientCapabilities> as Clone>⟧.is_clone
        x.workspace y.workspace
        × ⟦<Option<TextDocumentClientCapabilities> as Clone>⟧.is_clone
        x.text_document y.text_document
        × ⟦<Option<NotebookDocumentClientCapabilities> as Clone>⟧.is_clone
        x.notebook_document y.notebook_document
        × ⟦<Option<WindowClientCapabilities> as Clone>⟧.is_clone x.window y.window
        × ⟦<Option<GeneralClientCapabilities> as Clone>⟧.is_clone x.general y.general
        × ⟦<Option<Value> as Clone>⟧.is_clone x.experimental y.experimental };

    fn clone(&self) -> Result<ClientCapabilities, AllocError> {
        let mut copies = Copies::new();
        let copy = ClientCapabilities {
            workspace: copies.optional(&self.workspace),
            text_document: copies.optional(&self.text_document),
            notebook_document: copies.optional(&self.notebook_document),
            window: copies.optional(&self.window),
            general: copies.optional(&self.general),
            experimental: copies.optional(&self.experimental),
        };
        copies.end(copy)
    }
}

#[tactic(auto, unfolding(crate::specs::Client::client_capabilities_row))]
impl Wire for ClientCapabilities {
    ghost shape = { client_capabilities_row.shape };

    ghost shown = { client_capabilities_row.shown };

    fn from_value(alloc: Global, value: &Value) -> Result<ClientCapabilities, Misfit> {
        let (notebook_document, window, experimental, general, workspace, text_document) =
            read_object(
                alloc,
                value,
                (
                    Optional("notebookDocument"),
                    Optional("window"),
                    Optional("experimental"),
                    Optional("general"),
                    Optional("workspace"),
                    Optional("textDocument"),
                ),
            )?;
        Ok(ClientCapabilities {
            notebook_document,
            window,
            experimental,
            general,
            workspace,
            text_document,
        })
    }

    fn to_value(&self, alloc: Global) -> Result<Value, NoMemory> {
        let mut object = Writer::new(alloc);
        object.optional("workspace", &self.workspace);
        object.optional("textDocument", &self.text_document);
        object.optional("notebookDocument", &self.notebook_document);
        object.optional("window", &self.window);
        object.optional("general", &self.general);
        object.optional("experimental", &self.experimental);
        object.end()
    }
}

/// Parameters of `initialize`, the first request of a session, sent by the client (LSP 3.17,
/// "Initialize Request").
#[derive(Debug, PartialEq, Default, Drop)]
pub struct InitializeParams {
    /// The id of the process that started the server. Once that process is gone, the server should
    /// exit. `None`, sent as `null`, if no process started it.
    pub process_id: Option<u32>,
    /// The path of the open folder. Absent or `null` if no folder is open. Deprecated: `root_uri`
    /// takes its place.
    pub root_path: Option<String>,
    /// The URI of the open folder, which takes precedence over `root_path`. `None`, sent as `null`,
    /// if no folder is open. Deprecated: `workspace_folders` takes its place.
    pub root_uri: Option<Uri>,
    /// Settings for the server, in a form that the server defines.
    pub initialization_options: Option<Value>,
    /// The features that the client supports.
    pub capabilities: ClientCapabilities,
    /// How much the server reports with `$/logTrace` until `$/setTrace` changes it. Absent:
    /// nothing, as `off`.
    pub trace: Option<TraceValue>,
    /// The folders of the workspace. `None` if the client sends `null`, since it has none open, or
    /// nothing, since it doesn't support workspace folders. Since 3.6.
    pub workspace_folders: Option<Vec<WorkspaceFolder>>,
    /// The name and version of the client, since 3.15.
    pub client_info: Option<ClientInfo>,
    /// The language of the client's user interface, as an IETF language tag such as `en-GB`. Since
    /// 3.16.
    pub locale: Option<String>,
    /// The token for reports on the progress of the initialization. Absent: the client wants none.
    pub work_done_progress_params: WorkDoneProgressParams,
}

impl Clone for InitializeParams {
    ghost is_clone = { λ x y. ⟦<Option<u32> as Clone>⟧.is_clone x.process_id y.process_id
        × ⟦<Option<String> as Clone>⟧.is_clone x.root_path y.root_path
        × ⟦<Option<Uri> as Clone>⟧.is_clone x.root_uri y.root_uri
        × ⟦<Option<Value> as Clone>⟧.is_clone x.initialization_options y.initialization_options
        × ⟦<ClientCapabilities as Clone>⟧.is_clone x.capabilities y.capabilities
        × ⟦<Option<TraceValue> as Clone>⟧.is_clone x.trace y.trace
        × ⟦<Option<Vec<WorkspaceFolder>> as Clone>⟧.is_clone x.workspace_folders y.workspace_folders
        × ⟦<Option<ClientInfo> as Clone>⟧.is_clone x.client_info y.client_info
        × ⟦<Option<String> as Clone>⟧.is_clone x.locale y.locale
        × ⟦<WorkDoneProgressParams as Clone>⟧.is_clone
        x.work_done_progress_params y.work_done_progress_params };

    fn clone(&self) -> Result<InitializeParams, AllocError> {
        let mut copies = Copies::new();
        let copy = InitializeParams {
            process_id: copies.optional(&self.process_id),
            root_path: copies.optional(&self.root_path),
            root_uri: copies.optional(&self.root_uri),
            initialization_options: copies.optional(&self.initialization_options),
            capabilities: self.capabilities.clone()?,
            trace: copies.optional(&self.trace),
            workspace_folders: copies.optional(&self.workspace_folders),
            client_info: copies.optional(&self.client_info),
            locale: copies.optional(&self.locale),
            work_done_progress_params: self.work_done_progress_params.clone()?,
        };
        copies.end(copy)
    }
}

#[tactic(auto, unfolding(crate::specs::Client::initialize_params_row, lsp_base::specs::Progress::work_done_progress_params_row))]
impl Wire for InitializeParams {
    ghost shape = { initialize_params_row.shape };

    ghost shown = { initialize_params_row.shown };

    fn from_value(alloc: Global, value: &Value) -> Result<InitializeParams, Misfit> {
        let (
            (process_id, root_path, root_uri, trace, workspace_folders),
            (locale, client_info, work_done_progress_params, initialization_options, capabilities),
        ) = read_object(
            alloc,
            value,
            (
                (
                    Optional("processId"),
                    Optional("rootPath"),
                    Optional("rootUri"),
                    Optional("trace"),
                    Optional("workspaceFolders"),
                ),
                (
                    Optional("locale"),
                    Optional("clientInfo"),
                    Flat,
                    Optional("initializationOptions"),
                    Required("capabilities"),
                ),
            ),
        )?;
        Ok(InitializeParams {
            process_id,
            root_path,
            root_uri,
            trace,
            workspace_folders,
            locale,
            client_info,
            work_done_progress_params,
            initialization_options,
            capabilities,
        })
    }

    fn to_value(&self, alloc: Global) -> Result<Value, NoMemory> {
        let mut object = Writer::new(alloc);
        object.nullable("processId", &self.process_id);
        object.optional("rootPath", &self.root_path);
        object.nullable("rootUri", &self.root_uri);
        object.optional("initializationOptions", &self.initialization_options);
        object.field("capabilities", &self.capabilities);
        object.optional("trace", &self.trace);
        object.optional("workspaceFolders", &self.workspace_folders);
        object.optional("clientInfo", &self.client_info);
        object.optional("locale", &self.locale);
        object.flat(&self.work_done_progress_params);
        object.end()
    }
}

// A crate that reads these by `attempt` itself has the drop of each type in them to prove.
impl InitializeParams {
    /// What the value is read as, or None where it does not fit. The one error is out of memory.
    pub fn read(alloc: Global, value: &Value) -> Result<Option<InitializeParams>, NoMemory>
        ensures { IfOk result (λ o. read initialize_params_row.shape (view value.now)
            ≡ option_map initialize_params_row.shown o) }
    {
        attempt(alloc, value)
    }

    /// Whether the value fits. The one error is out of memory.
    pub fn is_fitting(alloc: Global, value: &Value) -> Result<bool, NoMemory>
        ensures { IfOk result
            (λ fits. fits ≡ is_some (read initialize_params_row.shape (view value.now))) }
    {
        let read = InitializeParams::read(alloc, value)?;
        let fits = read.is_some();
        drop(read);
        Ok(fits)
    }
}
