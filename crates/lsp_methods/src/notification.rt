//! The methods that aren't answered, each as a type: upstream's names of them, with their params.
ghost use Rattle.std.specs.Prelude.{◌≡◌, ℕ, List, codes};

use lsp_base::{CancelParams, LSPArray, LSPObject, OneOf};
use lsp_caps_work::InitializedParams;
use lsp_report::{
    DidChangeNotebookDocumentParams, DidCloseNotebookDocumentParams, DidOpenNotebookDocumentParams,
    DidSaveNotebookDocumentParams,
};
use lsp_work::{
    CreateFilesParams, DeleteFilesParams, DidChangeConfigurationParams,
    DidChangeTextDocumentParams, DidChangeWatchedFilesParams, DidChangeWorkspaceFoldersParams,
    DidCloseTextDocumentParams, DidOpenTextDocumentParams, DidSaveTextDocumentParams,
    LogMessageParams, LogTraceParams, ProgressParams, PublishDiagnosticsParams, RenameFilesParams,
    SetTraceParams, ShowMessageParams, WillSaveTextDocumentParams, WorkDoneProgressCancelParams,
};

/// A method that isn't answered, as a type that has no values.
pub trait Notification {
    /// The type of its params: `Wire`, which is asked for where they are read or written.
    type Params;

    /// Its name.
    ghost name: { List ℕ };

    /// Its name, as it stands in a message.
    fn method() -> &'static str
        ensures { result.now ≡ name };
}

/// `initialized` (LSP 3.17, "Initialized Notification").
#[derive(Clone, Copy)]
pub enum Initialized {}

impl Notification for Initialized {
    type Params = InitializedParams;

    ghost name = { codes "initialized" };

    fn method() -> &'static str {
        "initialized"
    }
}

/// `textDocument/didOpen` (LSP 3.17, "DidOpenTextDocument Notification").
#[derive(Clone, Copy)]
pub enum DidOpenTextDocument {}

impl Notification for DidOpenTextDocument {
    type Params = DidOpenTextDocumentParams;

    ghost name = { codes "textDocument/didOpen" };

    fn method() -> &'static str {
        "textDocument/didOpen"
    }
}

/// `textDocument/didChange` (LSP 3.17, "DidChangeTextDocument Notification").
#[derive(Clone, Copy)]
pub enum DidChangeTextDocument {}

impl Notification for DidChangeTextDocument {
    type Params = DidChangeTextDocumentParams;

    ghost name = { codes "textDocument/didChange" };

    fn method() -> &'static str {
        "textDocument/didChange"
    }
}

/// `textDocument/willSave` (LSP 3.17, "WillSaveTextDocument Notification").
#[derive(Clone, Copy)]
pub enum WillSaveTextDocument {}

impl Notification for WillSaveTextDocument {
    type Params = WillSaveTextDocumentParams;

    ghost name = { codes "textDocument/willSave" };

    fn method() -> &'static str {
        "textDocument/willSave"
    }
}

/// `textDocument/didSave` (LSP 3.17, "DidSaveTextDocument Notification").
#[derive(Clone, Copy)]
pub enum DidSaveTextDocument {}

impl Notification for DidSaveTextDocument {
    type Params = DidSaveTextDocumentParams;

    ghost name = { codes "textDocument/didSave" };

    fn method() -> &'static str {
        "textDocument/didSave"
    }
}

/// `textDocument/didClose` (LSP 3.17, "DidCloseTextDocument Notification").
#[derive(Clone, Copy)]
pub enum DidCloseTextDocument {}

impl Notification for DidCloseTextDocument {
    type Params = DidCloseTextDocumentParams;

    ghost name = { codes "textDocument/didClose" };

    fn method() -> &'static str {
        "textDocument/didClose"
    }
}

/// `workspace/didChangeConfiguration` (LSP 3.17, "DidChangeConfiguration Notification").
#[derive(Clone, Copy)]
pub enum DidChangeConfiguration {}

impl Notification for DidChangeConfiguration {
    type Params = DidChangeConfigurationParams;

    ghost name = { codes "workspace/didChangeConfiguration" };

    fn method() -> &'static str {
        "workspace/didChangeConfiguration"
    }
}

/// `workspace/didChangeWorkspaceFolders` (LSP 3.17, "DidChangeWorkspaceFolders Notification").
#[derive(Clone, Copy)]
pub enum DidChangeWorkspaceFolders {}

impl Notification for DidChangeWorkspaceFolders {
    type Params = DidChangeWorkspaceFoldersParams;

    ghost name = { codes "workspace/didChangeWorkspaceFolders" };

    fn method() -> &'static str {
        "workspace/didChangeWorkspaceFolders"
    }
}

/// `workspace/didCreateFiles` (LSP 3.17, "DidCreateFiles Notification").
#[derive(Clone, Copy)]
pub enum DidCreateFiles {}

impl Notification for DidCreateFiles {
    type Params = CreateFilesParams;

    ghost name = { codes "workspace/didCreateFiles" };

    fn method() -> &'static str {
        "workspace/didCreateFiles"
    }
}

/// `workspace/didRenameFiles` (LSP 3.17, "DidRenameFiles Notification").
#[derive(Clone, Copy)]
pub enum DidRenameFiles {}

impl Notification for DidRenameFiles {
    type Params = RenameFilesParams;

    ghost name = { codes "workspace/didRenameFiles" };

    fn method() -> &'static str {
        "workspace/didRenameFiles"
    }
}

/// `workspace/didDeleteFiles` (LSP 3.17, "DidDeleteFiles Notification").
#[derive(Clone, Copy)]
pub enum DidDeleteFiles {}

impl Notification for DidDeleteFiles {
    type Params = DeleteFilesParams;

    ghost name = { codes "workspace/didDeleteFiles" };

    fn method() -> &'static str {
        "workspace/didDeleteFiles"
    }
}

/// `workspace/didChangeWatchedFiles` (LSP 3.17, "DidChangeWatchedFiles Notification").
#[derive(Clone, Copy)]
pub enum DidChangeWatchedFiles {}

impl Notification for DidChangeWatchedFiles {
    type Params = DidChangeWatchedFilesParams;

    ghost name = { codes "workspace/didChangeWatchedFiles" };

    fn method() -> &'static str {
        "workspace/didChangeWatchedFiles"
    }
}

/// `window/showMessage` (LSP 3.17, "ShowMessage Notification").
#[derive(Clone, Copy)]
pub enum ShowMessage {}

impl Notification for ShowMessage {
    type Params = ShowMessageParams;

    ghost name = { codes "window/showMessage" };

    fn method() -> &'static str {
        "window/showMessage"
    }
}

/// `window/logMessage` (LSP 3.17, "LogMessage Notification").
#[derive(Clone, Copy)]
pub enum LogMessage {}

impl Notification for LogMessage {
    type Params = LogMessageParams;

    ghost name = { codes "window/logMessage" };

    fn method() -> &'static str {
        "window/logMessage"
    }
}

/// `telemetry/event` (LSP 3.17, "Telemetry Notification").
#[derive(Clone, Copy)]
pub enum TelemetryEvent {}

impl Notification for TelemetryEvent {
    type Params = OneOf<LSPObject, LSPArray>;

    ghost name = { codes "telemetry/event" };

    fn method() -> &'static str {
        "telemetry/event"
    }
}

/// `textDocument/publishDiagnostics` (LSP 3.17, "PublishDiagnostics Notification").
#[derive(Clone, Copy)]
pub enum PublishDiagnostics {}

impl Notification for PublishDiagnostics {
    type Params = PublishDiagnosticsParams;

    ghost name = { codes "textDocument/publishDiagnostics" };

    fn method() -> &'static str {
        "textDocument/publishDiagnostics"
    }
}

/// `$/setTrace` (LSP 3.17, "SetTrace").
#[derive(Clone, Copy)]
pub enum SetTrace {}

impl Notification for SetTrace {
    type Params = SetTraceParams;

    ghost name = { codes "$/setTrace" };

    fn method() -> &'static str {
        "$/setTrace"
    }
}

/// `$/logTrace` (LSP 3.17, "LogTrace").
#[derive(Clone, Copy)]
pub enum LogTrace {}

impl Notification for LogTrace {
    type Params = LogTraceParams;

    ghost name = { codes "$/logTrace" };

    fn method() -> &'static str {
        "$/logTrace"
    }
}

/// `$/progress` (LSP 3.17, "Progress Support").
#[derive(Clone, Copy)]
pub enum Progress {}

impl Notification for Progress {
    type Params = ProgressParams;

    ghost name = { codes "$/progress" };

    fn method() -> &'static str {
        "$/progress"
    }
}

/// `window/workDoneProgress/cancel` (LSP 3.17, "Canceling a Work Done Progress").
#[derive(Clone, Copy)]
pub enum WorkDoneProgressCancel {}

impl Notification for WorkDoneProgressCancel {
    type Params = WorkDoneProgressCancelParams;

    ghost name = { codes "window/workDoneProgress/cancel" };

    fn method() -> &'static str {
        "window/workDoneProgress/cancel"
    }
}

/// `notebookDocument/didOpen` (LSP 3.17, "DidOpenNotebookDocument Notification").
#[derive(Clone, Copy)]
pub enum DidOpenNotebookDocument {}

impl Notification for DidOpenNotebookDocument {
    type Params = DidOpenNotebookDocumentParams;

    ghost name = { codes "notebookDocument/didOpen" };

    fn method() -> &'static str {
        "notebookDocument/didOpen"
    }
}

/// `notebookDocument/didChange` (LSP 3.17, "DidChangeNotebookDocument Notification").
#[derive(Clone, Copy)]
pub enum DidChangeNotebookDocument {}

impl Notification for DidChangeNotebookDocument {
    type Params = DidChangeNotebookDocumentParams;

    ghost name = { codes "notebookDocument/didChange" };

    fn method() -> &'static str {
        "notebookDocument/didChange"
    }
}

/// `notebookDocument/didSave` (LSP 3.17, "DidSaveNotebookDocument Notification").
#[derive(Clone, Copy)]
pub enum DidSaveNotebookDocument {}

impl Notification for DidSaveNotebookDocument {
    type Params = DidSaveNotebookDocumentParams;

    ghost name = { codes "notebookDocument/didSave" };

    fn method() -> &'static str {
        "notebookDocument/didSave"
    }
}

/// `notebookDocument/didClose` (LSP 3.17, "DidCloseNotebookDocument Notification").
#[derive(Clone, Copy)]
pub enum DidCloseNotebookDocument {}

impl Notification for DidCloseNotebookDocument {
    type Params = DidCloseNotebookDocumentParams;

    ghost name = { codes "notebookDocument/didClose" };

    fn method() -> &'static str {
        "notebookDocument/didClose"
    }
}

/// `$/cancelRequest` (LSP 3.17, "Cancellation Support").
#[derive(Clone, Copy)]
pub enum Cancel {}

impl Notification for Cancel {
    type Params = CancelParams;

    ghost name = { codes "$/cancelRequest" };

    fn method() -> &'static str {
        "$/cancelRequest"
    }
}

/// `exit` (LSP 3.17, "Exit Notification").
#[derive(Clone, Copy)]
pub enum Exit {}

impl Notification for Exit {
    type Params = ();

    ghost name = { codes "exit" };

    fn method() -> &'static str {
        "exit"
    }
}
