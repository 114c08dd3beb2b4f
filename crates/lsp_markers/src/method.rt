// The methods that stand in no method table: those of the client, and those that a session carries
// out itself.

/// What a server asks of its client.
#[derive(Clone, Copy)]
pub enum AskedMethod {
    /// `client/registerCapability`.
    RegisterCapability,
    /// `client/unregisterCapability`.
    UnregisterCapability,
    /// `window/showMessageRequest`.
    ShowMessage,
    /// `window/showDocument`.
    ShowDocument,
    /// `window/workDoneProgress/create`.
    CreateProgress,
    /// `workspace/codeLens/refresh`.
    RefreshCodeLenses,
    /// `workspace/semanticTokens/refresh`.
    RefreshSemanticTokens,
    /// `workspace/inlineValue/refresh`.
    RefreshInlineValues,
    /// `workspace/inlayHint/refresh`.
    RefreshInlayHints,
    /// `workspace/diagnostic/refresh`.
    RefreshDiagnostics,
    /// `workspace/configuration`.
    Configuration,
    /// `workspace/workspaceFolders`.
    WorkspaceFolders,
    /// `workspace/applyEdit`.
    ApplyEdit,
}

/// What isn't answered, and stands in no table.
#[derive(Clone, Copy)]
pub enum ToldMethod {
    /// `window/showMessage`.
    ShowMessage,
    /// `window/logMessage`.
    LogMessage,
    /// `telemetry/event`.
    Telemetry,
    /// `textDocument/publishDiagnostics`.
    PublishDiagnostics,
    /// `$/setTrace`.
    SetTrace,
    /// `$/logTrace`.
    LogTrace,
    /// `$/progress`.
    Progress,
    /// `window/workDoneProgress/cancel`.
    CancelProgress,
    /// `notebookDocument/didOpen`.
    OpenNotebook,
    /// `notebookDocument/didChange`.
    ChangeNotebook,
    /// `notebookDocument/didSave`.
    SaveNotebook,
    /// `notebookDocument/didClose`.
    CloseNotebook,
    /// `$/cancelRequest`.
    Cancel,
    /// `exit`.
    Exit,
}
