// The markers of the methods that a client calls on a server. Nothing runs here.
ghost use Rattle.lsp_markers.specs.Marker.{IsAnsweredMarker, IsSymbolsMarker, IsNotedMarker};

use lsp_methods::notification::{
    DidChangeConfiguration, DidChangeTextDocument, DidChangeWatchedFiles,
    DidChangeWorkspaceFolders, DidCloseTextDocument, DidCreateFiles, DidDeleteFiles,
    DidOpenTextDocument, DidRenameFiles, DidSaveTextDocument, Initialized, Notification,
    WillSaveTextDocument,
};
use lsp_methods::request::{
    CallHierarchyIncomingCalls, CallHierarchyOutgoingCalls, CallHierarchyPrepare,
    CodeActionRequest, CodeActionResolveRequest, CodeLensRequest, CodeLensResolve, Completion,
    DocumentDiagnosticRequest, DocumentHighlightRequest, DocumentLinkRequest, DocumentLinkResolve,
    DocumentSymbolRequest, ExecuteCommand, FoldingRangeRequest, Formatting, GotoDeclaration,
    GotoDefinition, GotoImplementation, GotoTypeDefinition, HoverRequest, Initialize,
    InlayHintRequest, InlayHintResolveRequest, InlineValueRequest, LinkedEditingRange,
    MonikerRequest, OnTypeFormatting, PrepareRenameRequest, RangeFormatting, References, Rename,
    Request, ResolveCompletionItem, SelectionRangeRequest, SemanticTokensFullDeltaRequest,
    SemanticTokensFullRequest, SemanticTokensRangeRequest, Shutdown, SignatureHelpRequest,
    TypeHierarchyPrepare, TypeHierarchySubtypes, TypeHierarchySupertypes, WillCreateFiles,
    WillDeleteFiles, WillRenameFiles, WillSaveWaitUntil, WorkspaceDiagnosticRequest,
    WorkspaceSymbolRequest, WorkspaceSymbolResolve,
};
use lsp_methods::{
    EditMethod, GotoMethod, HierarchyMethod, LifeMethod, Method, ShowMethod, SyncMethod,
    TokenMethod, WorkMethod,
};
use lsp_shape::Wire;

/// The markers of the life of a session.
pub fn life_markers()
    ensures initialize { IsAnsweredMarker (Method.Life LifeMethod.Initialize)
        ⟦<Initialize as Request>⟧.name ⟦<<Initialize as Request>::Params as Wire>⟧.shape
        ⟦<<Initialize as Request>::Result as Wire>⟧.shape }
    ensures initialized { IsNotedMarker (Method.Life LifeMethod.Initialized)
        ⟦<Initialized as Notification>⟧.name
        ⟦<<Initialized as Notification>::Params as Wire>⟧.shape }
    ensures shutdown { IsAnsweredMarker (Method.Life LifeMethod.Shutdown)
        ⟦<Shutdown as Request>⟧.name ⟦<<Shutdown as Request>::Params as Wire>⟧.shape
        ⟦<<Shutdown as Request>::Result as Wire>⟧.shape }
{}

/// The markers of the synchronization of documents.
pub fn sync_markers()
    ensures did_open { IsNotedMarker (Method.Sync SyncMethod.DidOpen)
        ⟦<DidOpenTextDocument as Notification>⟧.name
        ⟦<<DidOpenTextDocument as Notification>::Params as Wire>⟧.shape }
    ensures did_change { IsNotedMarker (Method.Sync SyncMethod.DidChange)
        ⟦<DidChangeTextDocument as Notification>⟧.name
        ⟦<<DidChangeTextDocument as Notification>::Params as Wire>⟧.shape }
    ensures will_save { IsNotedMarker (Method.Sync SyncMethod.WillSave)
        ⟦<WillSaveTextDocument as Notification>⟧.name
        ⟦<<WillSaveTextDocument as Notification>::Params as Wire>⟧.shape }
    ensures will_save_wait_until { IsAnsweredMarker (Method.Sync SyncMethod.WillSaveWaitUntil)
        ⟦<WillSaveWaitUntil as Request>⟧.name
        ⟦<<WillSaveWaitUntil as Request>::Params as Wire>⟧.shape
        ⟦<<WillSaveWaitUntil as Request>::Result as Wire>⟧.shape }
    ensures did_save { IsNotedMarker (Method.Sync SyncMethod.DidSave)
        ⟦<DidSaveTextDocument as Notification>⟧.name
        ⟦<<DidSaveTextDocument as Notification>::Params as Wire>⟧.shape }
    ensures did_close { IsNotedMarker (Method.Sync SyncMethod.DidClose)
        ⟦<DidCloseTextDocument as Notification>⟧.name
        ⟦<<DidCloseTextDocument as Notification>::Params as Wire>⟧.shape }
{}

/// The markers of places to go to.
pub fn goto_markers()
    ensures goto_declaration { IsAnsweredMarker (Method.Goto GotoMethod.GotoDeclaration)
        ⟦<GotoDeclaration as Request>⟧.name ⟦<<GotoDeclaration as Request>::Params as Wire>⟧.shape
        ⟦<<GotoDeclaration as Request>::Result as Wire>⟧.shape }
    ensures goto_definition { IsAnsweredMarker (Method.Goto GotoMethod.GotoDefinition)
        ⟦<GotoDefinition as Request>⟧.name ⟦<<GotoDefinition as Request>::Params as Wire>⟧.shape
        ⟦<<GotoDefinition as Request>::Result as Wire>⟧.shape }
    ensures goto_type_definition { IsAnsweredMarker (Method.Goto GotoMethod.GotoTypeDefinition)
        ⟦<GotoTypeDefinition as Request>⟧.name
        ⟦<<GotoTypeDefinition as Request>::Params as Wire>⟧.shape
        ⟦<<GotoTypeDefinition as Request>::Result as Wire>⟧.shape }
    ensures goto_implementation { IsAnsweredMarker (Method.Goto GotoMethod.GotoImplementation)
        ⟦<GotoImplementation as Request>⟧.name
        ⟦<<GotoImplementation as Request>::Params as Wire>⟧.shape
        ⟦<<GotoImplementation as Request>::Result as Wire>⟧.shape }
    ensures references { IsAnsweredMarker (Method.Goto GotoMethod.References)
        ⟦<References as Request>⟧.name ⟦<<References as Request>::Params as Wire>⟧.shape
        ⟦<<References as Request>::Result as Wire>⟧.shape }
    ensures document_highlight { IsAnsweredMarker (Method.Goto GotoMethod.DocumentHighlight)
        ⟦<DocumentHighlightRequest as Request>⟧.name
        ⟦<<DocumentHighlightRequest as Request>::Params as Wire>⟧.shape
        ⟦<<DocumentHighlightRequest as Request>::Result as Wire>⟧.shape }
{}

/// The markers of hierarchies of calls and types.
pub fn hierarchy_markers()
    ensures prepare_call_hierarchy { IsAnsweredMarker
        (Method.Hierarchy HierarchyMethod.PrepareCallHierarchy)
        ⟦<CallHierarchyPrepare as Request>⟧.name
        ⟦<<CallHierarchyPrepare as Request>::Params as Wire>⟧.shape
        ⟦<<CallHierarchyPrepare as Request>::Result as Wire>⟧.shape }
    ensures incoming_calls { IsAnsweredMarker (Method.Hierarchy HierarchyMethod.IncomingCalls)
        ⟦<CallHierarchyIncomingCalls as Request>⟧.name
        ⟦<<CallHierarchyIncomingCalls as Request>::Params as Wire>⟧.shape
        ⟦<<CallHierarchyIncomingCalls as Request>::Result as Wire>⟧.shape }
    ensures outgoing_calls { IsAnsweredMarker (Method.Hierarchy HierarchyMethod.OutgoingCalls)
        ⟦<CallHierarchyOutgoingCalls as Request>⟧.name
        ⟦<<CallHierarchyOutgoingCalls as Request>::Params as Wire>⟧.shape
        ⟦<<CallHierarchyOutgoingCalls as Request>::Result as Wire>⟧.shape }
    ensures prepare_type_hierarchy { IsAnsweredMarker
        (Method.Hierarchy HierarchyMethod.PrepareTypeHierarchy)
        ⟦<TypeHierarchyPrepare as Request>⟧.name
        ⟦<<TypeHierarchyPrepare as Request>::Params as Wire>⟧.shape
        ⟦<<TypeHierarchyPrepare as Request>::Result as Wire>⟧.shape }
    ensures supertypes { IsAnsweredMarker (Method.Hierarchy HierarchyMethod.Supertypes)
        ⟦<TypeHierarchySupertypes as Request>⟧.name
        ⟦<<TypeHierarchySupertypes as Request>::Params as Wire>⟧.shape
        ⟦<<TypeHierarchySupertypes as Request>::Result as Wire>⟧.shape }
    ensures subtypes { IsAnsweredMarker (Method.Hierarchy HierarchyMethod.Subtypes)
        ⟦<TypeHierarchySubtypes as Request>⟧.name
        ⟦<<TypeHierarchySubtypes as Request>::Params as Wire>⟧.shape
        ⟦<<TypeHierarchySubtypes as Request>::Result as Wire>⟧.shape }
{}

/// The markers of what is shown in a document.
pub fn show_markers()
    ensures document_link { IsAnsweredMarker (Method.Show ShowMethod.DocumentLink)
        ⟦<DocumentLinkRequest as Request>⟧.name
        ⟦<<DocumentLinkRequest as Request>::Params as Wire>⟧.shape
        ⟦<<DocumentLinkRequest as Request>::Result as Wire>⟧.shape }
    ensures document_link_resolve { IsAnsweredMarker (Method.Show ShowMethod.DocumentLinkResolve)
        ⟦<DocumentLinkResolve as Request>⟧.name
        ⟦<<DocumentLinkResolve as Request>::Params as Wire>⟧.shape
        ⟦<<DocumentLinkResolve as Request>::Result as Wire>⟧.shape }
    ensures hover { IsAnsweredMarker (Method.Show ShowMethod.Hover) ⟦<HoverRequest as Request>⟧.name
        ⟦<<HoverRequest as Request>::Params as Wire>⟧.shape
        ⟦<<HoverRequest as Request>::Result as Wire>⟧.shape }
    ensures code_lens { IsAnsweredMarker (Method.Show ShowMethod.CodeLens)
        ⟦<CodeLensRequest as Request>⟧.name ⟦<<CodeLensRequest as Request>::Params as Wire>⟧.shape
        ⟦<<CodeLensRequest as Request>::Result as Wire>⟧.shape }
    ensures code_lens_resolve { IsAnsweredMarker (Method.Show ShowMethod.CodeLensResolve)
        ⟦<CodeLensResolve as Request>⟧.name ⟦<<CodeLensResolve as Request>::Params as Wire>⟧.shape
        ⟦<<CodeLensResolve as Request>::Result as Wire>⟧.shape }
    ensures folding_range { IsAnsweredMarker (Method.Show ShowMethod.FoldingRange)
        ⟦<FoldingRangeRequest as Request>⟧.name
        ⟦<<FoldingRangeRequest as Request>::Params as Wire>⟧.shape
        ⟦<<FoldingRangeRequest as Request>::Result as Wire>⟧.shape }
    ensures selection_range { IsAnsweredMarker (Method.Show ShowMethod.SelectionRange)
        ⟦<SelectionRangeRequest as Request>⟧.name
        ⟦<<SelectionRangeRequest as Request>::Params as Wire>⟧.shape
        ⟦<<SelectionRangeRequest as Request>::Result as Wire>⟧.shape }
    ensures document_symbol { IsAnsweredMarker (Method.Show ShowMethod.DocumentSymbol)
        ⟦<DocumentSymbolRequest as Request>⟧.name
        ⟦<<DocumentSymbolRequest as Request>::Params as Wire>⟧.shape
        ⟦<<DocumentSymbolRequest as Request>::Result as Wire>⟧.shape }
    ensures moniker { IsAnsweredMarker (Method.Show ShowMethod.Moniker)
        ⟦<MonikerRequest as Request>⟧.name ⟦<<MonikerRequest as Request>::Params as Wire>⟧.shape
        ⟦<<MonikerRequest as Request>::Result as Wire>⟧.shape }
{}

/// The markers of tokens, hints and values in a document.
pub fn token_markers()
    ensures semantic_tokens_full { IsAnsweredMarker (Method.Token TokenMethod.SemanticTokensFull)
        ⟦<SemanticTokensFullRequest as Request>⟧.name
        ⟦<<SemanticTokensFullRequest as Request>::Params as Wire>⟧.shape
        ⟦<<SemanticTokensFullRequest as Request>::Result as Wire>⟧.shape }
    ensures semantic_tokens_full_delta { IsAnsweredMarker
        (Method.Token TokenMethod.SemanticTokensFullDelta)
        ⟦<SemanticTokensFullDeltaRequest as Request>⟧.name
        ⟦<<SemanticTokensFullDeltaRequest as Request>::Params as Wire>⟧.shape
        ⟦<<SemanticTokensFullDeltaRequest as Request>::Result as Wire>⟧.shape }
    ensures semantic_tokens_range { IsAnsweredMarker (Method.Token TokenMethod.SemanticTokensRange)
        ⟦<SemanticTokensRangeRequest as Request>⟧.name
        ⟦<<SemanticTokensRangeRequest as Request>::Params as Wire>⟧.shape
        ⟦<<SemanticTokensRangeRequest as Request>::Result as Wire>⟧.shape }
    ensures inline_value { IsAnsweredMarker (Method.Token TokenMethod.InlineValue)
        ⟦<InlineValueRequest as Request>⟧.name
        ⟦<<InlineValueRequest as Request>::Params as Wire>⟧.shape
        ⟦<<InlineValueRequest as Request>::Result as Wire>⟧.shape }
    ensures inlay_hint { IsAnsweredMarker (Method.Token TokenMethod.InlayHint)
        ⟦<InlayHintRequest as Request>⟧.name ⟦<<InlayHintRequest as Request>::Params as Wire>⟧.shape
        ⟦<<InlayHintRequest as Request>::Result as Wire>⟧.shape }
    ensures inlay_hint_resolve { IsAnsweredMarker (Method.Token TokenMethod.InlayHintResolve)
        ⟦<InlayHintResolveRequest as Request>⟧.name
        ⟦<<InlayHintResolveRequest as Request>::Params as Wire>⟧.shape
        ⟦<<InlayHintResolveRequest as Request>::Result as Wire>⟧.shape }
{}

/// The markers of completion, edits and diagnostics.
pub fn edit_markers()
    ensures completion { IsAnsweredMarker (Method.Edit EditMethod.Completion)
        ⟦<Completion as Request>⟧.name ⟦<<Completion as Request>::Params as Wire>⟧.shape
        ⟦<<Completion as Request>::Result as Wire>⟧.shape }
    ensures completion_resolve { IsAnsweredMarker (Method.Edit EditMethod.CompletionResolve)
        ⟦<ResolveCompletionItem as Request>⟧.name
        ⟦<<ResolveCompletionItem as Request>::Params as Wire>⟧.shape
        ⟦<<ResolveCompletionItem as Request>::Result as Wire>⟧.shape }
    ensures signature_help { IsAnsweredMarker (Method.Edit EditMethod.SignatureHelp)
        ⟦<SignatureHelpRequest as Request>⟧.name
        ⟦<<SignatureHelpRequest as Request>::Params as Wire>⟧.shape
        ⟦<<SignatureHelpRequest as Request>::Result as Wire>⟧.shape }
    ensures code_action { IsAnsweredMarker (Method.Edit EditMethod.CodeAction)
        ⟦<CodeActionRequest as Request>⟧.name
        ⟦<<CodeActionRequest as Request>::Params as Wire>⟧.shape
        ⟦<<CodeActionRequest as Request>::Result as Wire>⟧.shape }
    ensures code_action_resolve { IsAnsweredMarker (Method.Edit EditMethod.CodeActionResolve)
        ⟦<CodeActionResolveRequest as Request>⟧.name
        ⟦<<CodeActionResolveRequest as Request>::Params as Wire>⟧.shape
        ⟦<<CodeActionResolveRequest as Request>::Result as Wire>⟧.shape }
    ensures formatting { IsAnsweredMarker (Method.Edit EditMethod.Formatting)
        ⟦<Formatting as Request>⟧.name ⟦<<Formatting as Request>::Params as Wire>⟧.shape
        ⟦<<Formatting as Request>::Result as Wire>⟧.shape }
    ensures range_formatting { IsAnsweredMarker (Method.Edit EditMethod.RangeFormatting)
        ⟦<RangeFormatting as Request>⟧.name ⟦<<RangeFormatting as Request>::Params as Wire>⟧.shape
        ⟦<<RangeFormatting as Request>::Result as Wire>⟧.shape }
    ensures on_type_formatting { IsAnsweredMarker (Method.Edit EditMethod.OnTypeFormatting)
        ⟦<OnTypeFormatting as Request>⟧.name ⟦<<OnTypeFormatting as Request>::Params as Wire>⟧.shape
        ⟦<<OnTypeFormatting as Request>::Result as Wire>⟧.shape }
    ensures rename { IsAnsweredMarker (Method.Edit EditMethod.Rename) ⟦<Rename as Request>⟧.name
        ⟦<<Rename as Request>::Params as Wire>⟧.shape
        ⟦<<Rename as Request>::Result as Wire>⟧.shape }
    ensures prepare_rename { IsAnsweredMarker (Method.Edit EditMethod.PrepareRename)
        ⟦<PrepareRenameRequest as Request>⟧.name
        ⟦<<PrepareRenameRequest as Request>::Params as Wire>⟧.shape
        ⟦<<PrepareRenameRequest as Request>::Result as Wire>⟧.shape }
    ensures linked_editing_range { IsAnsweredMarker (Method.Edit EditMethod.LinkedEditingRange)
        ⟦<LinkedEditingRange as Request>⟧.name
        ⟦<<LinkedEditingRange as Request>::Params as Wire>⟧.shape
        ⟦<<LinkedEditingRange as Request>::Result as Wire>⟧.shape }
    ensures diagnostic { IsAnsweredMarker (Method.Edit EditMethod.Diagnostic)
        ⟦<DocumentDiagnosticRequest as Request>⟧.name
        ⟦<<DocumentDiagnosticRequest as Request>::Params as Wire>⟧.shape
        ⟦<<DocumentDiagnosticRequest as Request>::Result as Wire>⟧.shape }
{}

/// The markers of the workspace.
pub fn work_markers()
    ensures workspace_diagnostic { IsAnsweredMarker (Method.Work WorkMethod.WorkspaceDiagnostic)
        ⟦<WorkspaceDiagnosticRequest as Request>⟧.name
        ⟦<<WorkspaceDiagnosticRequest as Request>::Params as Wire>⟧.shape
        ⟦<<WorkspaceDiagnosticRequest as Request>::Result as Wire>⟧.shape }
    ensures symbol { IsSymbolsMarker (Method.Work WorkMethod.Symbol)
        ⟦<WorkspaceSymbolRequest as Request>⟧.name
        ⟦<<WorkspaceSymbolRequest as Request>::Params as Wire>⟧.shape
        ⟦<<WorkspaceSymbolRequest as Request>::Result as Wire>⟧.shape }
    ensures symbol_resolve { IsAnsweredMarker (Method.Work WorkMethod.SymbolResolve)
        ⟦<WorkspaceSymbolResolve as Request>⟧.name
        ⟦<<WorkspaceSymbolResolve as Request>::Params as Wire>⟧.shape
        ⟦<<WorkspaceSymbolResolve as Request>::Result as Wire>⟧.shape }
    ensures did_change_configuration { IsNotedMarker (Method.Work WorkMethod.DidChangeConfiguration)
        ⟦<DidChangeConfiguration as Notification>⟧.name
        ⟦<<DidChangeConfiguration as Notification>::Params as Wire>⟧.shape }
    ensures did_change_workspace_folders { IsNotedMarker
        (Method.Work WorkMethod.DidChangeWorkspaceFolders)
        ⟦<DidChangeWorkspaceFolders as Notification>⟧.name
        ⟦<<DidChangeWorkspaceFolders as Notification>::Params as Wire>⟧.shape }
    ensures will_create_files { IsAnsweredMarker (Method.Work WorkMethod.WillCreateFiles)
        ⟦<WillCreateFiles as Request>⟧.name ⟦<<WillCreateFiles as Request>::Params as Wire>⟧.shape
        ⟦<<WillCreateFiles as Request>::Result as Wire>⟧.shape }
    ensures did_create_files { IsNotedMarker (Method.Work WorkMethod.DidCreateFiles)
        ⟦<DidCreateFiles as Notification>⟧.name
        ⟦<<DidCreateFiles as Notification>::Params as Wire>⟧.shape }
    ensures will_rename_files { IsAnsweredMarker (Method.Work WorkMethod.WillRenameFiles)
        ⟦<WillRenameFiles as Request>⟧.name ⟦<<WillRenameFiles as Request>::Params as Wire>⟧.shape
        ⟦<<WillRenameFiles as Request>::Result as Wire>⟧.shape }
    ensures did_rename_files { IsNotedMarker (Method.Work WorkMethod.DidRenameFiles)
        ⟦<DidRenameFiles as Notification>⟧.name
        ⟦<<DidRenameFiles as Notification>::Params as Wire>⟧.shape }
    ensures will_delete_files { IsAnsweredMarker (Method.Work WorkMethod.WillDeleteFiles)
        ⟦<WillDeleteFiles as Request>⟧.name ⟦<<WillDeleteFiles as Request>::Params as Wire>⟧.shape
        ⟦<<WillDeleteFiles as Request>::Result as Wire>⟧.shape }
    ensures did_delete_files { IsNotedMarker (Method.Work WorkMethod.DidDeleteFiles)
        ⟦<DidDeleteFiles as Notification>⟧.name
        ⟦<<DidDeleteFiles as Notification>::Params as Wire>⟧.shape }
    ensures did_change_watched_files { IsNotedMarker (Method.Work WorkMethod.DidChangeWatchedFiles)
        ⟦<DidChangeWatchedFiles as Notification>⟧.name
        ⟦<<DidChangeWatchedFiles as Notification>::Params as Wire>⟧.shape }
    ensures execute_command { IsAnsweredMarker (Method.Work WorkMethod.ExecuteCommand)
        ⟦<ExecuteCommand as Request>⟧.name ⟦<<ExecuteCommand as Request>::Params as Wire>⟧.shape
        ⟦<<ExecuteCommand as Request>::Result as Wire>⟧.shape }
{}
