//! The methods of LSP 3.17. Whether a marker's method is answered is told by the function that takes
//! it.
use lsp_methods::METHODS;
use lsp_methods::notification::{self, Notification};
use lsp_methods::request::{self, Request};
use lsp_rows::{RowError, Trial};
use lsp_session::Kind;

// The request has that name.
fn answered<R: Request>(trial: &mut Trial, name: &str) {
    trial.same(name, R::method(), name);
}

// The notification has that name.
fn unanswered<N: Notification>(trial: &mut Trial, name: &str) {
    trial.same(name, N::method(), name);
}

// The methods that a client calls on a server, in the order of their table. That each marker has the
// name of its method is proved in lsp_markers.
const SERVED: &[(&str, Kind)] = &[
    ("initialize", Kind::Request),
    ("initialized", Kind::Notification),
    ("shutdown", Kind::Request),
    ("textDocument/didOpen", Kind::Notification),
    ("textDocument/didChange", Kind::Notification),
    ("textDocument/willSave", Kind::Notification),
    ("textDocument/willSaveWaitUntil", Kind::Request),
    ("textDocument/didSave", Kind::Notification),
    ("textDocument/didClose", Kind::Notification),
    ("textDocument/declaration", Kind::Request),
    ("textDocument/definition", Kind::Request),
    ("textDocument/typeDefinition", Kind::Request),
    ("textDocument/implementation", Kind::Request),
    ("textDocument/references", Kind::Request),
    ("textDocument/documentHighlight", Kind::Request),
    ("textDocument/prepareCallHierarchy", Kind::Request),
    ("callHierarchy/incomingCalls", Kind::Request),
    ("callHierarchy/outgoingCalls", Kind::Request),
    ("textDocument/prepareTypeHierarchy", Kind::Request),
    ("typeHierarchy/supertypes", Kind::Request),
    ("typeHierarchy/subtypes", Kind::Request),
    ("textDocument/documentLink", Kind::Request),
    ("documentLink/resolve", Kind::Request),
    ("textDocument/hover", Kind::Request),
    ("textDocument/codeLens", Kind::Request),
    ("codeLens/resolve", Kind::Request),
    ("textDocument/foldingRange", Kind::Request),
    ("textDocument/selectionRange", Kind::Request),
    ("textDocument/documentSymbol", Kind::Request),
    ("textDocument/moniker", Kind::Request),
    ("textDocument/semanticTokens/full", Kind::Request),
    ("textDocument/semanticTokens/full/delta", Kind::Request),
    ("textDocument/semanticTokens/range", Kind::Request),
    ("textDocument/inlineValue", Kind::Request),
    ("textDocument/inlayHint", Kind::Request),
    ("inlayHint/resolve", Kind::Request),
    ("textDocument/completion", Kind::Request),
    ("completionItem/resolve", Kind::Request),
    ("textDocument/signatureHelp", Kind::Request),
    ("textDocument/codeAction", Kind::Request),
    ("codeAction/resolve", Kind::Request),
    ("textDocument/formatting", Kind::Request),
    ("textDocument/rangeFormatting", Kind::Request),
    ("textDocument/onTypeFormatting", Kind::Request),
    ("textDocument/rename", Kind::Request),
    ("textDocument/prepareRename", Kind::Request),
    ("textDocument/linkedEditingRange", Kind::Request),
    ("textDocument/diagnostic", Kind::Request),
    ("workspace/diagnostic", Kind::Request),
    ("workspace/symbol", Kind::Request),
    ("workspaceSymbol/resolve", Kind::Request),
    ("workspace/didChangeConfiguration", Kind::Notification),
    ("workspace/didChangeWorkspaceFolders", Kind::Notification),
    ("workspace/willCreateFiles", Kind::Request),
    ("workspace/didCreateFiles", Kind::Notification),
    ("workspace/willRenameFiles", Kind::Request),
    ("workspace/didRenameFiles", Kind::Notification),
    ("workspace/willDeleteFiles", Kind::Request),
    ("workspace/didDeleteFiles", Kind::Notification),
    ("workspace/didChangeWatchedFiles", Kind::Notification),
    ("workspace/executeCommand", Kind::Request),
];

#[test]
fn served(rt: HostRuntime) -> Result<(), RowError> {
    let mut trial = Trial::new(rt.alloc());
    trial.same("how many", METHODS.len(), SERVED.len());
    for (method, (name, kind)) in METHODS.iter().zip(SERVED) {
        trial.same(*name, method.name(), *name);
        trial.same(*name, method.kind(), *kind);
    }
    trial.end()
}

#[test]
fn asked_of_a_client(rt: HostRuntime) -> Result<(), RowError> {
    let mut trial = Trial::new(rt.alloc());
    answered::<request::RegisterCapability>(&mut trial, "client/registerCapability");
    answered::<request::UnregisterCapability>(&mut trial, "client/unregisterCapability");
    unanswered::<notification::ShowMessage>(&mut trial, "window/showMessage");
    unanswered::<notification::LogMessage>(&mut trial, "window/logMessage");
    answered::<request::ShowMessageRequest>(&mut trial, "window/showMessageRequest");
    answered::<request::ShowDocument>(&mut trial, "window/showDocument");
    unanswered::<notification::TelemetryEvent>(&mut trial, "telemetry/event");
    answered::<request::CodeLensRefresh>(&mut trial, "workspace/codeLens/refresh");
    answered::<request::SemanticTokensRefresh>(&mut trial, "workspace/semanticTokens/refresh");
    answered::<request::InlineValueRefreshRequest>(&mut trial, "workspace/inlineValue/refresh");
    answered::<request::InlayHintRefreshRequest>(&mut trial, "workspace/inlayHint/refresh");
    answered::<request::WorkspaceDiagnosticRefresh>(&mut trial, "workspace/diagnostic/refresh");
    unanswered::<notification::PublishDiagnostics>(&mut trial, "textDocument/publishDiagnostics");
    answered::<request::WorkspaceConfiguration>(&mut trial, "workspace/configuration");
    answered::<request::WorkspaceFoldersRequest>(&mut trial, "workspace/workspaceFolders");
    answered::<request::ApplyWorkspaceEdit>(&mut trial, "workspace/applyEdit");
    trial.end()
}

#[test]
fn traces_progress_and_notebooks(rt: HostRuntime) -> Result<(), RowError> {
    let mut trial = Trial::new(rt.alloc());
    unanswered::<notification::Cancel>(&mut trial, "$/cancelRequest");
    unanswered::<notification::Exit>(&mut trial, "exit");
    unanswered::<notification::SetTrace>(&mut trial, "$/setTrace");
    unanswered::<notification::LogTrace>(&mut trial, "$/logTrace");
    unanswered::<notification::Progress>(&mut trial, "$/progress");
    answered::<request::WorkDoneProgressCreate>(&mut trial, "window/workDoneProgress/create");
    unanswered::<notification::WorkDoneProgressCancel>(
        &mut trial,
        "window/workDoneProgress/cancel",
    );
    unanswered::<notification::DidOpenNotebookDocument>(&mut trial, "notebookDocument/didOpen");
    unanswered::<notification::DidChangeNotebookDocument>(&mut trial, "notebookDocument/didChange");
    unanswered::<notification::DidSaveNotebookDocument>(&mut trial, "notebookDocument/didSave");
    unanswered::<notification::DidCloseNotebookDocument>(&mut trial, "notebookDocument/didClose");
    trial.end()
}
