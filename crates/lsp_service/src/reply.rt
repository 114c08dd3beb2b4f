// What a server answers.
use crate::initialize::InitializeReply;
use lsp_base::{Location, TextEdit, WorkspaceEdit};
use lsp_lang_goto::{
    CallHierarchyIncomingCall, CallHierarchyItem, CallHierarchyOutgoingCall, CodeLens,
    DocumentHighlight, DocumentLink, DocumentSymbolResponse, GotoDeclarationResponse,
    GotoDefinitionResponse, GotoImplementationResponse, GotoTypeDefinitionResponse, Hover,
    SymbolInformation, TypeHierarchyItem, WorkspaceSymbol,
};
use lsp_lang_item::{
    CodeAction, CodeActionResponse, CompletionItem, CompletionResponse, InlayHint, InlineValue,
    PrepareRenameResponse,
};
use lsp_report::{DocumentDiagnosticReportResult, WorkspaceDiagnosticReportResult};
use lsp_rpc::Error;
use lsp_tokens::{
    FoldingRange, LinkedEditingRanges, Moniker, SelectionRange, SemanticTokensFullDeltaResult,
    SemanticTokensRangeResult, SemanticTokensResult, SignatureHelp,
};
use serde_json::Value;

/// The answers to requests of the life of a session.
#[derive(Drop)]
pub enum LifeReply {
    /// To `initialize`.
    Initialize(Result<InitializeReply, Error>),
    /// To `shutdown`.
    Shutdown(Result<(), Error>),
}

/// The answers to requests of the synchronization of documents.
#[derive(Drop)]
pub enum SyncReply {
    /// To `textDocument/willSaveWaitUntil`.
    WillSaveWaitUntil(Result<Option<Vec<TextEdit>>, Error>),
}

/// The answers to requests of places to go to.
#[derive(Drop)]
pub enum GotoReply {
    /// To `textDocument/declaration`.
    GotoDeclaration(Result<Option<GotoDeclarationResponse>, Error>),
    /// To `textDocument/definition`.
    GotoDefinition(Result<Option<GotoDefinitionResponse>, Error>),
    /// To `textDocument/typeDefinition`.
    GotoTypeDefinition(Result<Option<GotoTypeDefinitionResponse>, Error>),
    /// To `textDocument/implementation`.
    GotoImplementation(Result<Option<GotoImplementationResponse>, Error>),
    /// To `textDocument/references`.
    References(Result<Option<Vec<Location>>, Error>),
    /// To `textDocument/documentHighlight`.
    DocumentHighlight(Result<Option<Vec<DocumentHighlight>>, Error>),
}

/// The answers to requests of hierarchies of calls and types.
#[derive(Drop)]
pub enum HierarchyReply {
    /// To `textDocument/prepareCallHierarchy`.
    PrepareCallHierarchy(Result<Option<Vec<CallHierarchyItem>>, Error>),
    /// To `callHierarchy/incomingCalls`.
    IncomingCalls(Result<Option<Vec<CallHierarchyIncomingCall>>, Error>),
    /// To `callHierarchy/outgoingCalls`.
    OutgoingCalls(Result<Option<Vec<CallHierarchyOutgoingCall>>, Error>),
    /// To `textDocument/prepareTypeHierarchy`.
    PrepareTypeHierarchy(Result<Option<Vec<TypeHierarchyItem>>, Error>),
    /// To `typeHierarchy/supertypes`.
    Supertypes(Result<Option<Vec<TypeHierarchyItem>>, Error>),
    /// To `typeHierarchy/subtypes`.
    Subtypes(Result<Option<Vec<TypeHierarchyItem>>, Error>),
}

/// The answers to requests of what is shown in a document.
#[derive(Drop)]
pub enum ShowReply {
    /// To `textDocument/documentLink`.
    DocumentLink(Result<Option<Vec<DocumentLink>>, Error>),
    /// To `documentLink/resolve`.
    DocumentLinkResolve(Result<DocumentLink, Error>),
    /// To `textDocument/hover`.
    Hover(Result<Option<Hover>, Error>),
    /// To `textDocument/codeLens`.
    CodeLens(Result<Option<Vec<CodeLens>>, Error>),
    /// To `codeLens/resolve`.
    CodeLensResolve(Result<CodeLens, Error>),
    /// To `textDocument/foldingRange`.
    FoldingRange(Result<Option<Vec<FoldingRange>>, Error>),
    /// To `textDocument/selectionRange`.
    SelectionRange(Result<Option<Vec<SelectionRange>>, Error>),
    /// To `textDocument/documentSymbol`.
    DocumentSymbol(Result<Option<DocumentSymbolResponse>, Error>),
    /// To `textDocument/moniker`.
    Moniker(Result<Option<Vec<Moniker>>, Error>),
}

/// The answers to requests of tokens, hints and values in a document.
#[derive(Drop)]
pub enum TokenReply {
    /// To `textDocument/semanticTokens/full`.
    SemanticTokensFull(Result<Option<SemanticTokensResult>, Error>),
    /// To `textDocument/semanticTokens/full/delta`.
    SemanticTokensFullDelta(Result<Option<SemanticTokensFullDeltaResult>, Error>),
    /// To `textDocument/semanticTokens/range`.
    SemanticTokensRange(Result<Option<SemanticTokensRangeResult>, Error>),
    /// To `textDocument/inlineValue`.
    InlineValue(Result<Option<Vec<InlineValue>>, Error>),
    /// To `textDocument/inlayHint`.
    InlayHint(Result<Option<Vec<InlayHint>>, Error>),
    /// To `inlayHint/resolve`.
    InlayHintResolve(Result<InlayHint, Error>),
}

/// The answers to requests of completion, edits and diagnostics.
#[derive(Drop)]
pub enum EditReply {
    /// To `textDocument/completion`.
    Completion(Result<Option<CompletionResponse>, Error>),
    /// To `completionItem/resolve`.
    CompletionResolve(Result<Box<CompletionItem>, Error>),
    /// To `textDocument/signatureHelp`.
    SignatureHelp(Result<Option<SignatureHelp>, Error>),
    /// To `textDocument/codeAction`.
    CodeAction(Result<Option<CodeActionResponse>, Error>),
    /// To `codeAction/resolve`.
    CodeActionResolve(Result<Box<CodeAction>, Error>),
    /// To `textDocument/formatting`.
    Formatting(Result<Option<Vec<TextEdit>>, Error>),
    /// To `textDocument/rangeFormatting`.
    RangeFormatting(Result<Option<Vec<TextEdit>>, Error>),
    /// To `textDocument/onTypeFormatting`.
    OnTypeFormatting(Result<Option<Vec<TextEdit>>, Error>),
    /// To `textDocument/rename`.
    Rename(Result<Option<WorkspaceEdit>, Error>),
    /// To `textDocument/prepareRename`.
    PrepareRename(Result<Option<PrepareRenameResponse>, Error>),
    /// To `textDocument/linkedEditingRange`.
    LinkedEditingRange(Result<Option<LinkedEditingRanges>, Error>),
    /// To `textDocument/diagnostic`.
    Diagnostic(Result<DocumentDiagnosticReportResult, Error>),
}

/// The answers to requests of the workspace.
#[derive(Drop)]
pub enum WorkReply {
    /// To `workspace/diagnostic`.
    WorkspaceDiagnostic(Result<WorkspaceDiagnosticReportResult, Error>),
    /// To `workspace/symbol`.
    Symbol(Result<Option<Vec<SymbolInformation>>, Error>),
    /// To `workspaceSymbol/resolve`.
    SymbolResolve(Result<WorkspaceSymbol, Error>),
    /// To `workspace/willCreateFiles`.
    WillCreateFiles(Result<Option<WorkspaceEdit>, Error>),
    /// To `workspace/willRenameFiles`.
    WillRenameFiles(Result<Option<WorkspaceEdit>, Error>),
    /// To `workspace/willDeleteFiles`.
    WillDeleteFiles(Result<Option<WorkspaceEdit>, Error>),
    /// To `workspace/executeCommand`.
    ExecuteCommand(Result<Option<Value>, Error>),
}

/// What a call of a client comes to.
#[derive(Drop)]
pub enum Reply {
    Life(LifeReply),
    Sync(SyncReply),
    Goto(GotoReply),
    Hierarchy(HierarchyReply),
    Show(ShowReply),
    Token(TokenReply),
    Edit(EditReply),
    Work(WorkReply),
    /// The answer to a custom request.
    Custom(Result<Value, Error>),
    /// An error, whatever was asked.
    Error(Error),
    /// A notification was taken note of.
    Noted,
}
