// The markers of the methods that stand in no method table. Nothing runs here.
ghost use Rattle.lsp_markers.specs.Marker.{IsAskedMarker, IsToldMarker};

use crate::method::{AskedMethod, ToldMethod};
use lsp_methods::notification::{
    Cancel, DidChangeNotebookDocument, DidCloseNotebookDocument, DidOpenNotebookDocument,
    DidSaveNotebookDocument, Exit, LogMessage, LogTrace, Notification, Progress,
    PublishDiagnostics, SetTrace, ShowMessage, TelemetryEvent, WorkDoneProgressCancel,
};
use lsp_methods::request::{
    ApplyWorkspaceEdit, CodeLensRefresh, InlayHintRefreshRequest, InlineValueRefreshRequest,
    RegisterCapability, Request, SemanticTokensRefresh, ShowDocument, ShowMessageRequest,
    UnregisterCapability, WorkDoneProgressCreate, WorkspaceConfiguration,
    WorkspaceDiagnosticRefresh, WorkspaceFoldersRequest,
};
use lsp_shape::Wire;

/// The markers of what a server asks of its client.
pub fn asked_markers()
    ensures register_capability { IsAskedMarker AskedMethod.RegisterCapability
        ⟦<RegisterCapability as Request>⟧.name
        ⟦<<RegisterCapability as Request>::Params as Wire>⟧.shape
        ⟦<<RegisterCapability as Request>::Result as Wire>⟧.shape }
    ensures unregister_capability { IsAskedMarker AskedMethod.UnregisterCapability
        ⟦<UnregisterCapability as Request>⟧.name
        ⟦<<UnregisterCapability as Request>::Params as Wire>⟧.shape
        ⟦<<UnregisterCapability as Request>::Result as Wire>⟧.shape }
    ensures show_message { IsAskedMarker AskedMethod.ShowMessage
        ⟦<ShowMessageRequest as Request>⟧.name
        ⟦<<ShowMessageRequest as Request>::Params as Wire>⟧.shape
        ⟦<<ShowMessageRequest as Request>::Result as Wire>⟧.shape }
    ensures show_document { IsAskedMarker AskedMethod.ShowDocument ⟦<ShowDocument as Request>⟧.name
        ⟦<<ShowDocument as Request>::Params as Wire>⟧.shape
        ⟦<<ShowDocument as Request>::Result as Wire>⟧.shape }
    ensures create_progress { IsAskedMarker AskedMethod.CreateProgress
        ⟦<WorkDoneProgressCreate as Request>⟧.name
        ⟦<<WorkDoneProgressCreate as Request>::Params as Wire>⟧.shape
        ⟦<<WorkDoneProgressCreate as Request>::Result as Wire>⟧.shape }
    ensures refresh_code_lenses { IsAskedMarker AskedMethod.RefreshCodeLenses
        ⟦<CodeLensRefresh as Request>⟧.name ⟦<<CodeLensRefresh as Request>::Params as Wire>⟧.shape
        ⟦<<CodeLensRefresh as Request>::Result as Wire>⟧.shape }
    ensures refresh_semantic_tokens { IsAskedMarker AskedMethod.RefreshSemanticTokens
        ⟦<SemanticTokensRefresh as Request>⟧.name
        ⟦<<SemanticTokensRefresh as Request>::Params as Wire>⟧.shape
        ⟦<<SemanticTokensRefresh as Request>::Result as Wire>⟧.shape }
    ensures refresh_inline_values { IsAskedMarker AskedMethod.RefreshInlineValues
        ⟦<InlineValueRefreshRequest as Request>⟧.name
        ⟦<<InlineValueRefreshRequest as Request>::Params as Wire>⟧.shape
        ⟦<<InlineValueRefreshRequest as Request>::Result as Wire>⟧.shape }
    ensures refresh_inlay_hints { IsAskedMarker AskedMethod.RefreshInlayHints
        ⟦<InlayHintRefreshRequest as Request>⟧.name
        ⟦<<InlayHintRefreshRequest as Request>::Params as Wire>⟧.shape
        ⟦<<InlayHintRefreshRequest as Request>::Result as Wire>⟧.shape }
    ensures refresh_diagnostics { IsAskedMarker AskedMethod.RefreshDiagnostics
        ⟦<WorkspaceDiagnosticRefresh as Request>⟧.name
        ⟦<<WorkspaceDiagnosticRefresh as Request>::Params as Wire>⟧.shape
        ⟦<<WorkspaceDiagnosticRefresh as Request>::Result as Wire>⟧.shape }
    ensures configuration { IsAskedMarker AskedMethod.Configuration
        ⟦<WorkspaceConfiguration as Request>⟧.name
        ⟦<<WorkspaceConfiguration as Request>::Params as Wire>⟧.shape
        ⟦<<WorkspaceConfiguration as Request>::Result as Wire>⟧.shape }
    ensures workspace_folders { IsAskedMarker AskedMethod.WorkspaceFolders
        ⟦<WorkspaceFoldersRequest as Request>⟧.name
        ⟦<<WorkspaceFoldersRequest as Request>::Params as Wire>⟧.shape
        ⟦<<WorkspaceFoldersRequest as Request>::Result as Wire>⟧.shape }
    ensures apply_edit { IsAskedMarker AskedMethod.ApplyEdit ⟦<ApplyWorkspaceEdit as Request>⟧.name
        ⟦<<ApplyWorkspaceEdit as Request>::Params as Wire>⟧.shape
        ⟦<<ApplyWorkspaceEdit as Request>::Result as Wire>⟧.shape }
{}

/// The markers of what isn't answered.
pub fn told_markers()
    ensures show_message { IsToldMarker ToldMethod.ShowMessage ⟦<ShowMessage as Notification>⟧.name
        ⟦<<ShowMessage as Notification>::Params as Wire>⟧.shape }
    ensures log_message { IsToldMarker ToldMethod.LogMessage ⟦<LogMessage as Notification>⟧.name
        ⟦<<LogMessage as Notification>::Params as Wire>⟧.shape }
    ensures telemetry { IsToldMarker ToldMethod.Telemetry ⟦<TelemetryEvent as Notification>⟧.name
        ⟦<<TelemetryEvent as Notification>::Params as Wire>⟧.shape }
    ensures publish_diagnostics { IsToldMarker ToldMethod.PublishDiagnostics
        ⟦<PublishDiagnostics as Notification>⟧.name
        ⟦<<PublishDiagnostics as Notification>::Params as Wire>⟧.shape }
    ensures set_trace { IsToldMarker ToldMethod.SetTrace ⟦<SetTrace as Notification>⟧.name
        ⟦<<SetTrace as Notification>::Params as Wire>⟧.shape }
    ensures log_trace { IsToldMarker ToldMethod.LogTrace ⟦<LogTrace as Notification>⟧.name
        ⟦<<LogTrace as Notification>::Params as Wire>⟧.shape }
    ensures progress { IsToldMarker ToldMethod.Progress ⟦<Progress as Notification>⟧.name
        ⟦<<Progress as Notification>::Params as Wire>⟧.shape }
    ensures cancel_progress { IsToldMarker ToldMethod.CancelProgress
        ⟦<WorkDoneProgressCancel as Notification>⟧.name
        ⟦<<WorkDoneProgressCancel as Notification>::Params as Wire>⟧.shape }
    ensures open_notebook { IsToldMarker ToldMethod.OpenNotebook
        ⟦<DidOpenNotebookDocument as Notification>⟧.name
        ⟦<<DidOpenNotebookDocument as Notification>::Params as Wire>⟧.shape }
    ensures change_notebook { IsToldMarker ToldMethod.ChangeNotebook
        ⟦<DidChangeNotebookDocument as Notification>⟧.name
        ⟦<<DidChangeNotebookDocument as Notification>::Params as Wire>⟧.shape }
    ensures save_notebook { IsToldMarker ToldMethod.SaveNotebook
        ⟦<DidSaveNotebookDocument as Notification>⟧.name
        ⟦<<DidSaveNotebookDocument as Notification>::Params as Wire>⟧.shape }
    ensures close_notebook { IsToldMarker ToldMethod.CloseNotebook
        ⟦<DidCloseNotebookDocument as Notification>⟧.name
        ⟦<<DidCloseNotebookDocument as Notification>::Params as Wire>⟧.shape }
    ensures cancel { IsToldMarker ToldMethod.Cancel ⟦<Cancel as Notification>⟧.name
        ⟦<<Cancel as Notification>::Params as Wire>⟧.shape }
    ensures exit { IsToldMarker ToldMethod.Exit ⟦<Exit as Notification>⟧.name
        ⟦<<Exit as Notification>::Params as Wire>⟧.shape }
{}
