// All features of the workspace.
ghost use Rattle.lsp_caps_work.specs.Workspace.{workspace_client_capabilities_row};

use crate::configuration::{
    DidChangeConfigurationClientCapabilities, DidChangeWatchedFilesClientCapabilities,
    ExecuteCommandClientCapabilities,
};
use crate::edit::WorkspaceEditClientCapabilities;
use crate::files::WorkspaceFileOperationsClientCapabilities;
use crate::refresh::{
    CodeLensWorkspaceClientCapabilities, DiagnosticWorkspaceClientCapabilities,
    InlayHintWorkspaceClientCapabilities, InlineValueWorkspaceClientCapabilities,
    SemanticTokensWorkspaceClientCapabilities,
};
use crate::symbols::WorkspaceSymbolClientCapabilities;
use lsp_shape::{Copies, Misfit, NoMemory, WideReader, Wire, Writer};
use serde_json::Value;
use std::alloc::{AllocError, Global};

/// What a client supports for each feature of the workspace, as `workspace` in its capabilities in
/// `initialize`. An absent field means that the feature isn't supported (LSP 3.17, "Initialize
/// Request").
#[derive(Debug, PartialEq, Eq, Default, Drop)]
pub struct WorkspaceClientCapabilities {
    /// Whether the server may send `workspace/applyEdit`.
    pub apply_edit: Option<bool>,
    /// What may be used in a `WorkspaceEdit`.
    pub workspace_edit: Option<WorkspaceEditClientCapabilities>,
    /// `workspace/didChangeConfiguration`.
    pub did_change_configuration: Option<DidChangeConfigurationClientCapabilities>,
    /// `workspace/didChangeWatchedFiles`.
    pub did_change_watched_files: Option<DidChangeWatchedFilesClientCapabilities>,
    /// `workspace/symbol`.
    pub symbol: Option<WorkspaceSymbolClientCapabilities>,
    /// `workspace/executeCommand`.
    pub execute_command: Option<ExecuteCommandClientCapabilities>,
    /// Whether the client can work with workspace folders, of which there may be several. Since
    /// 3.6.
    pub workspace_folders: Option<bool>,
    /// Whether the server may send `workspace/configuration`. Since 3.6.
    pub configuration: Option<bool>,
    /// `workspace/semanticTokens/refresh`. Since 3.16.
    pub semantic_tokens: Option<SemanticTokensWorkspaceClientCapabilities>,
    /// `workspace/codeLens/refresh`. Since 3.16.
    pub code_lens: Option<CodeLensWorkspaceClientCapabilities>,
    /// Requests and notifications about files and folders that are created, renamed or deleted from
    /// within the client. Since 3.16.
    pub file_operations: Option<WorkspaceFileOperationsClientCapabilities>,
    /// `workspace/inlineValue/refresh`. Since 3.17.
    pub inline_value: Option<InlineValueWorkspaceClientCapabilities>,
    /// `workspace/inlayHint/refresh`. Since 3.17.
    pub inlay_hint: Option<InlayHintWorkspaceClientCapabilities>,
    /// `workspace/diagnostic/refresh`. LSP 3.17 calls this member `diagnostics`, but it is read and
    /// written as `diagnostic` here: what a client sends as `diagnostics` is ignored. Since 3.17.
    pub diagnostic: Option<DiagnosticWorkspaceClientCapabilities>,
}

impl Clone for WorkspaceClientCapabilities {
    ghost is_clone = { λ x y. ⟦<Option<bool> as Clone>⟧.is_clone x.apply_edit y.apply_edit
        × ⟦<Option<WorkspaceEditClientCapabilities> as Clone>⟧.is_clone
        x.workspace_edit y.workspace_edit
        × ⟦<Option<DidChangeConfigurationClientCapabilities> as Clone>⟧.is_clone
        x.did_change_configuration y.did_change_configuration
        × ⟦<Option<DidChangeWatchedFilesClientCapabilities> as Clone>⟧.is_clone
        x.did_change_watched_files y.did_change_watched_files
        × ⟦<Option<WorkspaceSymbolClientCapabilities> as Clone>⟧.is_clone x.symbol y.symbol
        × ⟦<Option<ExecuteCommandClientCapabilities> as Clone>⟧.is_clone
        x.execute_command y.execute_command
        × ⟦<Option<bool> as Clone>⟧.is_clone x.workspace_folders y.workspace_folders
        × ⟦<Option<bool> as Clone>⟧.is_clone x.configuration y.configuration
        × ⟦<Option<SemanticTokensWorkspaceClientCapabilities> as Clone>⟧.is_clone
        x.semantic_tokens y.semantic_tokens
        × ⟦<Option<CodeLensWorkspaceClientCapabilities> as Clone>⟧.is_clone x.code_lens y.code_lens
        × ⟦<Option<WorkspaceFileOperationsClientCapabilities> as Clone>⟧.is_clone
        x.file_operations y.file_operations
        × ⟦<Option<InlineValueWorkspaceClientCapabilities> as Clone>⟧.is_clone
        x.inline_value y.inline_value
        × ⟦<Option<InlayHintWorkspaceClientCapabilities> as Clone>⟧.is_clone
        x.inlay_hint y.inlay_hint
        × ⟦<Option<DiagnosticWorkspaceClientCapabilities> as Clone>⟧.is_clone
        x.diagnostic y.diagnostic };

    fn clone(&self) -> Result<WorkspaceClientCapabilities, AllocError> {
        let mut copies = Copies::new();
        let copy = WorkspaceClientCapabilities {
            apply_edit: copies.optional(&self.apply_edit),
            workspace_edit: copies.optional(&self.workspace_edit),
            did_change_configuration: copies.optional(&self.did_change_configuration),
            did_change_watched_files: copies.optional(&self.did_change_watched_files),
            symbol: copies.optional(&self.symbol),
            execute_command: copies.optional(&self.execute_command),
            workspace_folders: copies.optional(&self.workspace_folders),
            configuration: copies.optional(&self.configuration),
            semantic_tokens: copies.optional(&self.semantic_tokens),
            code_lens: copies.optional(&self.code_lens),
            file_operations: copies.optional(&self.file_operations),
            inline_value: copies.optional(&self.inline_value),
            inlay_hint: copies.optional(&self.inlay_hint),
            diagnostic: copies.optional(&self.diagnostic),
        };
        copies.end(copy)
    }
}

#[tactic(auto, unfolding(crate::specs::Workspace::workspace_client_capabilities_row, crate::specs::Workspace::workspace_client_capabilities_fields))]
impl Wire for WorkspaceClientCapabilities {
    ghost shape = { workspace_client_capabilities_row.shape };

    ghost shown = { workspace_client_capabilities_row.shown };

    fn from_value(alloc: Global, value: &Value) -> Result<WorkspaceClientCapabilities, Misfit> {
        let mut object = WideReader::new(alloc, value)?;
        let read = WorkspaceClientCapabilities {
            apply_edit: object.optional("applyEdit"),
            workspace_edit: object.optional("workspaceEdit"),
            did_change_configuration: object.optional("didChangeConfiguration"),
            did_change_watched_files: object.optional("didChangeWatchedFiles"),
            symbol: object.optional("symbol"),
            execute_command: object.optional("executeCommand"),
            workspace_folders: object.optional("workspaceFolders"),
            configuration: object.optional("configuration"),
            semantic_tokens: object.optional("semanticTokens"),
            code_lens: object.optional("codeLens"),
            file_operations: object.optional("fileOperations"),
            inline_value: object.optional("inlineValue"),
            inlay_hint: object.optional("inlayHint"),
            diagnostic: object.optional("diagnostic"),
        };
        object.end(read)
    }

    fn to_value(&self, alloc: Global) -> Result<Value, NoMemory> {
        let mut object = Writer::new(alloc);
        object.optional("applyEdit", &self.apply_edit);
        object.optional("workspaceEdit", &self.workspace_edit);
        object.optional("didChangeConfiguration", &self.did_change_configuration);
        object.optional("didChangeWatchedFiles", &self.did_change_watched_files);
        object.optional("symbol", &self.symbol);
        object.optional("executeCommand", &self.execute_command);
        object.optional("workspaceFolders", &self.workspace_folders);
        object.optional("configuration", &self.configuration);
        object.optional("semanticTokens", &self.semantic_tokens);
        object.optional("codeLens", &self.code_lens);
        object.optional("fileOperations", &self.file_operations);
        object.optional("inlineValue", &self.inline_value);
        object.optional("inlayHint", &self.inlay_hint);
        object.optional("diagnostic", &self.diagnostic);
        object.end()
    }
}
