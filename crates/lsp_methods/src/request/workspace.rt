// The requests on a workspace.
ghost use Rattle.std.specs.Prelude.{codes};

use super::Request;
use lsp_base::{WorkspaceEdit, WorkspaceFolder};
use lsp_lang_goto::{WorkspaceSymbol, WorkspaceSymbolParams, WorkspaceSymbolResponse};
use lsp_report::{WorkspaceDiagnosticParams, WorkspaceDiagnosticReportResult};
use lsp_work::{
    ApplyWorkspaceEditParams, ApplyWorkspaceEditResponse, ConfigurationParams, CreateFilesParams,
    DeleteFilesParams, ExecuteCommandParams, RenameFilesParams,
};
use serde_json::Value;

/// `workspace/diagnostic` (LSP 3.17, "Workspace Diagnostics").
#[derive(Clone, Copy)]
pub enum WorkspaceDiagnosticRequest {}

impl Request for WorkspaceDiagnosticRequest {
    type Params = WorkspaceDiagnosticParams;

    type Result = WorkspaceDiagnosticReportResult;

    ghost name = { codes "workspace/diagnostic" };

    fn method() -> &'static str {
        "workspace/diagnostic"
    }
}

/// `workspace/symbol` (LSP 3.17, "Workspace Symbols Request").
#[derive(Clone, Copy)]
pub enum WorkspaceSymbolRequest {}

impl Request for WorkspaceSymbolRequest {
    type Params = WorkspaceSymbolParams;

    type Result = Option<WorkspaceSymbolResponse>;

    ghost name = { codes "workspace/symbol" };

    fn method() -> &'static str {
        "workspace/symbol"
    }
}

/// `workspaceSymbol/resolve` (LSP 3.17, "Workspace Symbol Resolve Request").
#[derive(Clone, Copy)]
pub enum WorkspaceSymbolResolve {}

impl Request for WorkspaceSymbolResolve {
    type Params = WorkspaceSymbol;

    type Result = WorkspaceSymbol;

    ghost name = { codes "workspaceSymbol/resolve" };

    fn method() -> &'static str {
        "workspaceSymbol/resolve"
    }
}

/// `workspace/willCreateFiles` (LSP 3.17, "WillCreateFiles Request").
#[derive(Clone, Copy)]
pub enum WillCreateFiles {}

impl Request for WillCreateFiles {
    type Params = CreateFilesParams;

    type Result = Option<WorkspaceEdit>;

    ghost name = { codes "workspace/willCreateFiles" };

    fn method() -> &'static str {
        "workspace/willCreateFiles"
    }
}

/// `workspace/willRenameFiles` (LSP 3.17, "WillRenameFiles Request").
#[derive(Clone, Copy)]
pub enum WillRenameFiles {}

impl Request for WillRenameFiles {
    type Params = RenameFilesParams;

    type Result = Option<WorkspaceEdit>;

    ghost name = { codes "workspace/willRenameFiles" };

    fn method() -> &'static str {
        "workspace/willRenameFiles"
    }
}

/// `workspace/willDeleteFiles` (LSP 3.17, "WillDeleteFiles Request").
#[derive(Clone, Copy)]
pub enum WillDeleteFiles {}

impl Request for WillDeleteFiles {
    type Params = DeleteFilesParams;

    type Result = Option<WorkspaceEdit>;

    ghost name = { codes "workspace/willDeleteFiles" };

    fn method() -> &'static str {
        "workspace/willDeleteFiles"
    }
}

/// `workspace/executeCommand` (LSP 3.17, "Execute a command").
#[derive(Clone, Copy)]
pub enum ExecuteCommand {}

impl Request for ExecuteCommand {
    type Params = ExecuteCommandParams;

    type Result = Option<Value>;

    ghost name = { codes "workspace/executeCommand" };

    fn method() -> &'static str {
        "workspace/executeCommand"
    }
}

/// `workspace/codeLens/refresh` (LSP 3.17, "Code Lens Refresh Request").
#[derive(Clone, Copy)]
pub enum CodeLensRefresh {}

impl Request for CodeLensRefresh {
    type Params = ();

    type Result = ();

    ghost name = { codes "workspace/codeLens/refresh" };

    fn method() -> &'static str {
        "workspace/codeLens/refresh"
    }
}

/// `workspace/semanticTokens/refresh` (LSP 3.17, "Semantic Tokens").
#[derive(Clone, Copy)]
pub enum SemanticTokensRefresh {}

impl Request for SemanticTokensRefresh {
    type Params = ();

    type Result = ();

    ghost name = { codes "workspace/semanticTokens/refresh" };

    fn method() -> &'static str {
        "workspace/semanticTokens/refresh"
    }
}

/// `workspace/inlineValue/refresh` (LSP 3.17, "Inline Value Refresh Request").
#[derive(Clone, Copy)]
pub enum InlineValueRefreshRequest {}

impl Request for InlineValueRefreshRequest {
    type Params = ();

    type Result = ();

    ghost name = { codes "workspace/inlineValue/refresh" };

    fn method() -> &'static str {
        "workspace/inlineValue/refresh"
    }
}

/// `workspace/inlayHint/refresh` (LSP 3.17, "Inlay Hint Refresh Request").
#[derive(Clone, Copy)]
pub enum InlayHintRefreshRequest {}

impl Request for InlayHintRefreshRequest {
    type Params = ();

    type Result = ();

    ghost name = { codes "workspace/inlayHint/refresh" };

    fn method() -> &'static str {
        "workspace/inlayHint/refresh"
    }
}

/// `workspace/diagnostic/refresh` (LSP 3.17, "Diagnostics Refresh").
#[derive(Clone, Copy)]
pub enum WorkspaceDiagnosticRefresh {}

impl Request for WorkspaceDiagnosticRefresh {
    type Params = ();

    type Result = ();

    ghost name = { codes "workspace/diagnostic/refresh" };

    fn method() -> &'static str {
        "workspace/diagnostic/refresh"
    }
}

/// `workspace/configuration` (LSP 3.17, "Configuration Request").
#[derive(Clone, Copy)]
pub enum WorkspaceConfiguration {}

impl Request for WorkspaceConfiguration {
    type Params = ConfigurationParams;

    type Result = Vec<Value>;

    ghost name = { codes "workspace/configuration" };

    fn method() -> &'static str {
        "workspace/configuration"
    }
}

/// `workspace/workspaceFolders` (LSP 3.17, "Workspace folders request").
#[derive(Clone, Copy)]
pub enum WorkspaceFoldersRequest {}

impl Request for WorkspaceFoldersRequest {
    type Params = ();

    type Result = Option<Vec<WorkspaceFolder>>;

    ghost name = { codes "workspace/workspaceFolders" };

    fn method() -> &'static str {
        "workspace/workspaceFolders"
    }
}

/// `workspace/applyEdit` (LSP 3.17, "Applies a WorkspaceEdit").
#[derive(Clone, Copy)]
pub enum ApplyWorkspaceEdit {}

impl Request for ApplyWorkspaceEdit {
    type Params = ApplyWorkspaceEditParams;

    type Result = ApplyWorkspaceEditResponse;

    ghost name = { codes "workspace/applyEdit" };

    fn method() -> &'static str {
        "workspace/applyEdit"
    }
}
