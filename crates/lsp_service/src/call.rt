// What a client asks of a server.
ghost use Rattle.std.specs.Prelude.{◌≡◌};
ghost use Rattle.lsp_service.specs.Calls.{show_call, target_of, life_method, sync_method, goto_method, hierarchy_method, show_method, token_method, edit_method, work_method};

use crate::initialize::InitializeCall;
use lsp_base::TextDocumentPositionParams;
use lsp_caps_work::InitializedParams;
use lsp_lang_goto::{
    CallHierarchyIncomingCallsParams, CallHierarchyOutgoingCallsParams, CallHierarchyPrepareParams,
    CodeLens, CodeLensParams, DocumentHighlightParams, DocumentLink, DocumentLinkParams,
    DocumentSymbolParams, GotoDeclarationParams, GotoDefinitionParams, GotoImplementationParams,
    GotoTypeDefinitionParams, HoverParams, ReferenceParams, TypeHierarchyPrepareParams,
    TypeHierarchySubtypesParams, TypeHierarchySupertypesParams, WorkspaceSymbol,
    WorkspaceSymbolParams,
};
use lsp_lang_item::{
    CodeAction, CodeActionParams, CompletionItem, CompletionParams, InlayHint, InlayHintParams,
    InlineValueParams, RenameParams,
};
use lsp_methods::{
    EditMethod, GotoMethod, HierarchyMethod, LifeMethod, Method, ShowMethod, SyncMethod,
    TokenMethod, WorkMethod,
};
use lsp_report::{DocumentDiagnosticParams, WorkspaceDiagnosticParams};
use lsp_session::Kind;
use lsp_tokens::{
    DocumentFormattingParams, DocumentOnTypeFormattingParams, DocumentRangeFormattingParams,
    FoldingRangeParams, LinkedEditingRangeParams, MonikerParams, SelectionRangeParams,
    SemanticTokensDeltaParams, SemanticTokensParams, SemanticTokensRangeParams,
    SignatureHelpParams,
};
use lsp_work::{
    CreateFilesParams, DeleteFilesParams, DidChangeConfigurationParams,
    DidChangeTextDocumentParams, DidChangeWatchedFilesParams, DidChangeWorkspaceFoldersParams,
    DidCloseTextDocumentParams, DidOpenTextDocumentParams, DidSaveTextDocumentParams,
    ExecuteCommandParams, RenameFilesParams, WillSaveTextDocumentParams,
};
use serde_json::Value;

/// The calls of the life of a session.
///
/// The params of `initialize` are held as they came, and read where they are wanted.
#[derive(Drop)]
pub enum LifeCall {
    /// `initialize`.
    Initialize(InitializeCall),
    /// `initialized`.
    Initialized(InitializedParams),
    /// `shutdown`.
    Shutdown,
}

/// The calls of the synchronization of documents.
#[derive(Drop)]
pub enum SyncCall {
    /// `textDocument/didOpen`.
    DidOpen(Box<DidOpenTextDocumentParams>),
    /// `textDocument/didChange`.
    DidChange(Box<DidChangeTextDocumentParams>),
    /// `textDocument/willSave`.
    WillSave(Box<WillSaveTextDocumentParams>),
    /// `textDocument/willSaveWaitUntil`.
    WillSaveWaitUntil(Box<WillSaveTextDocumentParams>),
    /// `textDocument/didSave`.
    DidSave(Box<DidSaveTextDocumentParams>),
    /// `textDocument/didClose`.
    DidClose(Box<DidCloseTextDocumentParams>),
}

/// The calls of places to go to.
#[derive(Drop)]
pub enum GotoCall {
    /// `textDocument/declaration`.
    GotoDeclaration(Box<GotoDeclarationParams>),
    /// `textDocument/definition`.
    GotoDefinition(Box<GotoDefinitionParams>),
    /// `textDocument/typeDefinition`.
    GotoTypeDefinition(Box<GotoTypeDefinitionParams>),
    /// `textDocument/implementation`.
    GotoImplementation(Box<GotoImplementationParams>),
    /// `textDocument/references`.
    References(Box<ReferenceParams>),
    /// `textDocument/documentHighlight`.
    DocumentHighlight(Box<DocumentHighlightParams>),
}

/// The calls of hierarchies of calls and types.
#[derive(Drop)]
pub enum HierarchyCall {
    /// `textDocument/prepareCallHierarchy`.
    PrepareCallHierarchy(Box<CallHierarchyPrepareParams>),
    /// `callHierarchy/incomingCalls`.
    IncomingCalls(Box<CallHierarchyIncomingCallsParams>),
    /// `callHierarchy/outgoingCalls`.
    OutgoingCalls(Box<CallHierarchyOutgoingCallsParams>),
    /// `textDocument/prepareTypeHierarchy`.
    PrepareTypeHierarchy(Box<TypeHierarchyPrepareParams>),
    /// `typeHierarchy/supertypes`.
    Supertypes(Box<TypeHierarchySupertypesParams>),
    /// `typeHierarchy/subtypes`.
    Subtypes(Box<TypeHierarchySubtypesParams>),
}

/// The calls of what is shown in a document.
#[derive(Drop)]
pub enum ShowCall {
    /// `textDocument/documentLink`.
    DocumentLink(Box<DocumentLinkParams>),
    /// `documentLink/resolve`.
    DocumentLinkResolve(Box<DocumentLink>),
    /// `textDocument/hover`.
    Hover(Box<HoverParams>),
    /// `textDocument/codeLens`.
    CodeLens(Box<CodeLensParams>),
    /// `codeLens/resolve`.
    CodeLensResolve(Box<CodeLens>),
    /// `textDocument/foldingRange`.
    FoldingRange(Box<FoldingRangeParams>),
    /// `textDocument/selectionRange`.
    SelectionRange(Box<SelectionRangeParams>),
    /// `textDocument/documentSymbol`.
    DocumentSymbol(Box<DocumentSymbolParams>),
    /// `textDocument/moniker`.
    Moniker(Box<MonikerParams>),
}

/// The calls of tokens, hints and values in a document.
#[derive(Drop)]
pub enum TokenCall {
    /// `textDocument/semanticTokens/full`.
    SemanticTokensFull(Box<SemanticTokensParams>),
    /// `textDocument/semanticTokens/full/delta`.
    SemanticTokensFullDelta(Box<SemanticTokensDeltaParams>),
    /// `textDocument/semanticTokens/range`.
    SemanticTokensRange(Box<SemanticTokensRangeParams>),
    /// `textDocument/inlineValue`.
    InlineValue(Box<InlineValueParams>),
    /// `textDocument/inlayHint`.
    InlayHint(Box<InlayHintParams>),
    /// `inlayHint/resolve`.
    InlayHintResolve(Box<InlayHint>),
}

/// The calls of completion, edits and diagnostics.
#[derive(Drop)]
pub enum EditCall {
    /// `textDocument/completion`.
    Completion(Box<CompletionParams>),
    /// `completionItem/resolve`.
    CompletionResolve(Box<CompletionItem>),
    /// `textDocument/signatureHelp`.
    SignatureHelp(Box<SignatureHelpParams>),
    /// `textDocument/codeAction`.
    CodeAction(Box<CodeActionParams>),
    /// `codeAction/resolve`.
    CodeActionResolve(Box<CodeAction>),
    /// `textDocument/formatting`.
    Formatting(Box<DocumentFormattingParams>),
    /// `textDocument/rangeFormatting`.
    RangeFormatting(Box<DocumentRangeFormattingParams>),
    /// `textDocument/onTypeFormatting`.
    OnTypeFormatting(Box<DocumentOnTypeFormattingParams>),
    /// `textDocument/rename`.
    Rename(Box<RenameParams>),
    /// `textDocument/prepareRename`.
    PrepareRename(Box<TextDocumentPositionParams>),
    /// `textDocument/linkedEditingRange`.
    LinkedEditingRange(Box<LinkedEditingRangeParams>),
    /// `textDocument/diagnostic`.
    Diagnostic(Box<DocumentDiagnosticParams>),
}

/// The calls of the workspace.
#[derive(Drop)]
pub enum WorkCall {
    /// `workspace/diagnostic`.
    WorkspaceDiagnostic(Box<WorkspaceDiagnosticParams>),
    /// `workspace/symbol`.
    Symbol(Box<WorkspaceSymbolParams>),
    /// `workspaceSymbol/resolve`.
    SymbolResolve(Box<WorkspaceSymbol>),
    /// `workspace/didChangeConfiguration`.
    DidChangeConfiguration(Box<DidChangeConfigurationParams>),
    /// `workspace/didChangeWorkspaceFolders`.
    DidChangeWorkspaceFolders(Box<DidChangeWorkspaceFoldersParams>),
    /// `workspace/willCreateFiles`.
    WillCreateFiles(Box<CreateFilesParams>),
    /// `workspace/didCreateFiles`.
    DidCreateFiles(Box<CreateFilesParams>),
    /// `workspace/willRenameFiles`.
    WillRenameFiles(Box<RenameFilesParams>),
    /// `workspace/didRenameFiles`.
    DidRenameFiles(Box<RenameFilesParams>),
    /// `workspace/willDeleteFiles`.
    WillDeleteFiles(Box<DeleteFilesParams>),
    /// `workspace/didDeleteFiles`.
    DidDeleteFiles(Box<DeleteFilesParams>),
    /// `workspace/didChangeWatchedFiles`.
    DidChangeWatchedFiles(Box<DidChangeWatchedFilesParams>),
    /// `workspace/executeCommand`.
    ExecuteCommand(Box<ExecuteCommandParams>),
}

/// A call of a client: a method with its params, which stand in a box.
#[derive(Drop)]
pub enum Call {
    Life(LifeCall),
    Sync(SyncCall),
    Goto(GotoCall),
    Hierarchy(HierarchyCall),
    Show(ShowCall),
    Token(TokenCall),
    Edit(EditCall),
    Work(WorkCall),
    /// A custom method, by its number, with its params.
    Custom(u64, Option<Value>),
}

/// What was called: a method of the protocol, or a custom one of this kind.
#[derive(Clone, Copy)]
pub enum Target {
    Typed(Method),
    Custom(Kind),
}

fn life_target(call: &LifeCall) -> LifeMethod
    ensures { result ≡ life_method call.now }
{
    match call {
        LifeCall::Initialize(_) => LifeMethod::Initialize,
        LifeCall::Initialized(_) => LifeMethod::Initialized,
        LifeCall::Shutdown => LifeMethod::Shutdown,
    }
}

fn sync_target(call: &SyncCall) -> SyncMethod
    ensures { result ≡ sync_method call.now }
{
    match call {
        SyncCall::DidOpen(_) => SyncMethod::DidOpen,
        SyncCall::DidChange(_) => SyncMethod::DidChange,
        SyncCall::WillSave(_) => SyncMethod::WillSave,
        SyncCall::WillSaveWaitUntil(_) => SyncMethod::WillSaveWaitUntil,
        SyncCall::DidSave(_) => SyncMethod::DidSave,
        SyncCall::DidClose(_) => SyncMethod::DidClose,
    }
}

fn goto_target(call: &GotoCall) -> GotoMethod
    ensures { result ≡ goto_method call.now }
{
    match call {
        GotoCall::GotoDeclaration(_) => GotoMethod::GotoDeclaration,
        GotoCall::GotoDefinition(_) => GotoMethod::GotoDefinition,
        GotoCall::GotoTypeDefinition(_) => GotoMethod::GotoTypeDefinition,
        GotoCall::GotoImplementation(_) => GotoMethod::GotoImplementation,
        GotoCall::References(_) => GotoMethod::References,
        GotoCall::DocumentHighlight(_) => GotoMethod::DocumentHighlight,
    }
}

fn hierarchy_target(call: &HierarchyCall) -> HierarchyMethod
    ensures { result ≡ hierarchy_method call.now }
{
    match call {
        HierarchyCall::PrepareCallHierarchy(_) => HierarchyMethod::PrepareCallHierarchy,
        HierarchyCall::IncomingCalls(_) => HierarchyMethod::IncomingCalls,
        HierarchyCall::OutgoingCalls(_) => HierarchyMethod::OutgoingCalls,
        HierarchyCall::PrepareTypeHierarchy(_) => HierarchyMethod::PrepareTypeHierarchy,
        HierarchyCall::Supertypes(_) => HierarchyMethod::Supertypes,
        HierarchyCall::Subtypes(_) => HierarchyMethod::Subtypes,
    }
}

fn show_target(call: &ShowCall) -> ShowMethod
    ensures { result ≡ show_method call.now }
{
    match call {
        ShowCall::DocumentLink(_) => ShowMethod::DocumentLink,
        ShowCall::DocumentLinkResolve(_) => ShowMethod::DocumentLinkResolve,
        ShowCall::Hover(_) => ShowMethod::Hover,
        ShowCall::CodeLens(_) => ShowMethod::CodeLens,
        ShowCall::CodeLensResolve(_) => ShowMethod::CodeLensResolve,
        ShowCall::FoldingRange(_) => ShowMethod::FoldingRange,
        ShowCall::SelectionRange(_) => ShowMethod::SelectionRange,
        ShowCall::DocumentSymbol(_) => ShowMethod::DocumentSymbol,
        ShowCall::Moniker(_) => ShowMethod::Moniker,
    }
}

fn token_target(call: &TokenCall) -> TokenMethod
    ensures { result ≡ token_method call.now }
{
    match call {
        TokenCall::SemanticTokensFull(_) => TokenMethod::SemanticTokensFull,
        TokenCall::SemanticTokensFullDelta(_) => TokenMethod::SemanticTokensFullDelta,
        TokenCall::SemanticTokensRange(_) => TokenMethod::SemanticTokensRange,
        TokenCall::InlineValue(_) => TokenMethod::InlineValue,
        TokenCall::InlayHint(_) => TokenMethod::InlayHint,
        TokenCall::InlayHintResolve(_) => TokenMethod::InlayHintResolve,
    }
}

fn edit_target(call: &EditCall) -> EditMethod
    ensures { result ≡ edit_method call.now }
{
    match call {
        EditCall::Completion(_) => EditMethod::Completion,
        EditCall::CompletionResolve(_) => EditMethod::CompletionResolve,
        EditCall::SignatureHelp(_) => EditMethod::SignatureHelp,
        EditCall::CodeAction(_) => EditMethod::CodeAction,
        EditCall::CodeActionResolve(_) => EditMethod::CodeActionResolve,
        EditCall::Formatting(_) => EditMethod::Formatting,
        EditCall::RangeFormatting(_) => EditMethod::RangeFormatting,
        EditCall::OnTypeFormatting(_) => EditMethod::OnTypeFormatting,
        EditCall::Rename(_) => EditMethod::Rename,
        EditCall::PrepareRename(_) => EditMethod::PrepareRename,
        EditCall::LinkedEditingRange(_) => EditMethod::LinkedEditingRange,
        EditCall::Diagnostic(_) => EditMethod::Diagnostic,
    }
}

fn work_target(call: &WorkCall) -> WorkMethod
    ensures { result ≡ work_method call.now }
{
    match call {
        WorkCall::WorkspaceDiagnostic(_) => WorkMethod::WorkspaceDiagnostic,
        WorkCall::Symbol(_) => WorkMethod::Symbol,
        WorkCall::SymbolResolve(_) => WorkMethod::SymbolResolve,
        WorkCall::DidChangeConfiguration(_) => WorkMethod::DidChangeConfiguration,
        WorkCall::DidChangeWorkspaceFolders(_) => WorkMethod::DidChangeWorkspaceFolders,
        WorkCall::WillCreateFiles(_) => WorkMethod::WillCreateFiles,
        WorkCall::DidCreateFiles(_) => WorkMethod::DidCreateFiles,
        WorkCall::WillRenameFiles(_) => WorkMethod::WillRenameFiles,
        WorkCall::DidRenameFiles(_) => WorkMethod::DidRenameFiles,
        WorkCall::WillDeleteFiles(_) => WorkMethod::WillDeleteFiles,
        WorkCall::DidDeleteFiles(_) => WorkMethod::DidDeleteFiles,
        WorkCall::DidChangeWatchedFiles(_) => WorkMethod::DidChangeWatchedFiles,
        WorkCall::ExecuteCommand(_) => WorkMethod::ExecuteCommand,
    }
}

impl Call {
    /// What was called, where its method was registered with this kind.
    pub fn target(&self, kind: Kind) -> Target
        ensures { result ≡ target_of (show_call self.now) kind }
    {
        match self {
            Call::Life(call) => Target::Typed(Method::Life(life_target(call))),
            Call::Sync(call) => Target::Typed(Method::Sync(sync_target(call))),
            Call::Goto(call) => Target::Typed(Method::Goto(goto_target(call))),
            Call::Hierarchy(call) => Target::Typed(Method::Hierarchy(hierarchy_target(call))),
            Call::Show(call) => Target::Typed(Method::Show(show_target(call))),
            Call::Token(call) => Target::Typed(Method::Token(token_target(call))),
            Call::Edit(call) => Target::Typed(Method::Edit(edit_target(call))),
            Call::Work(call) => Target::Typed(Method::Work(work_target(call))),
            Call::Custom(_, _) => Target::Custom(kind),
        }
    }
}
