// The methods of the protocol that a client calls on a server, in groups.
ghost use Rattle.std.specs.Prelude.{◌≡◌};
ghost use Rattle.std.specs.List.{slice_get};
ghost use Rattle.lsp_methods.specs.Methods.{life_row, life_place, sync_row, sync_place, goto_row, goto_place, hierarchy_row, hierarchy_place, show_row, show_place, token_row, token_place, edit_row, edit_place, work_row, work_place, method_row, place_of, method_at};

use lsp_session::{Kind, Layer};

/// The methods of the life of a session.
#[derive(Clone, Copy)]
pub enum LifeMethod {
    /// `initialize`.
    Initialize,
    /// `initialized`.
    Initialized,
    /// `shutdown`.
    Shutdown,
}

impl LifeMethod {
    fn name(self) -> &'static str
        ensures { result.now ≡ (life_row self).name }
    {
        match self {
            LifeMethod::Initialize => "initialize",
            LifeMethod::Initialized => "initialized",
            LifeMethod::Shutdown => "shutdown",
        }
    }

    fn kind(self) -> Kind
        ensures { result ≡ (life_row self).kind }
    {
        match self {
            LifeMethod::Initialize => Kind::Request,
            LifeMethod::Initialized => Kind::Notification,
            LifeMethod::Shutdown => Kind::Request,
        }
    }

    fn layer(self) -> Layer
        ensures { result ≡ (life_row self).layer }
    {
        match self {
            LifeMethod::Initialize => Layer::Initialize,
            LifeMethod::Initialized => Layer::Normal,
            LifeMethod::Shutdown => Layer::Shutdown,
        }
    }

    fn place(self) -> u64
        ensures { result ≡ life_place self }
    {
        match self {
            LifeMethod::Initialize => 0,
            LifeMethod::Initialized => 1,
            LifeMethod::Shutdown => 2,
        }
    }
}

/// The methods of the synchronization of documents.
#[derive(Clone, Copy)]
pub enum SyncMethod {
    /// `textDocument/didOpen`.
    DidOpen,
    /// `textDocument/didChange`.
    DidChange,
    /// `textDocument/willSave`.
    WillSave,
    /// `textDocument/willSaveWaitUntil`.
    WillSaveWaitUntil,
    /// `textDocument/didSave`.
    DidSave,
    /// `textDocument/didClose`.
    DidClose,
}

impl SyncMethod {
    fn name(self) -> &'static str
        ensures { result.now ≡ (sync_row self).name }
    {
        match self {
            SyncMethod::DidOpen => "textDocument/didOpen",
            SyncMethod::DidChange => "textDocument/didChange",
            SyncMethod::WillSave => "textDocument/willSave",
            SyncMethod::WillSaveWaitUntil => "textDocument/willSaveWaitUntil",
            SyncMethod::DidSave => "textDocument/didSave",
            SyncMethod::DidClose => "textDocument/didClose",
        }
    }

    fn kind(self) -> Kind
        ensures { result ≡ (sync_row self).kind }
    {
        match self {
            SyncMethod::DidOpen => Kind::Notification,
            SyncMethod::DidChange => Kind::Notification,
            SyncMethod::WillSave => Kind::Notification,
            SyncMethod::WillSaveWaitUntil => Kind::Request,
            SyncMethod::DidSave => Kind::Notification,
            SyncMethod::DidClose => Kind::Notification,
        }
    }

    fn place(self) -> u64
        ensures { result ≡ sync_place self }
    {
        match self {
            SyncMethod::DidOpen => 3,
            SyncMethod::DidChange => 4,
            SyncMethod::WillSave => 5,
            SyncMethod::WillSaveWaitUntil => 6,
            SyncMethod::DidSave => 7,
            SyncMethod::DidClose => 8,
        }
    }
}

/// The methods of places to go to.
#[derive(Clone, Copy)]
pub enum GotoMethod {
    /// `textDocument/declaration`.
    GotoDeclaration,
    /// `textDocument/definition`.
    GotoDefinition,
    /// `textDocument/typeDefinition`.
    GotoTypeDefinition,
    /// `textDocument/implementation`.
    GotoImplementation,
    /// `textDocument/references`.
    References,
    /// `textDocument/documentHighlight`.
    DocumentHighlight,
}

impl GotoMethod {
    fn name(self) -> &'static str
        ensures { result.now ≡ (goto_row self).name }
    {
        match self {
            GotoMethod::GotoDeclaration => "textDocument/declaration",
            GotoMethod::GotoDefinition => "textDocument/definition",
            GotoMethod::GotoTypeDefinition => "textDocument/typeDefinition",
            GotoMethod::GotoImplementation => "textDocument/implementation",
            GotoMethod::References => "textDocument/references",
            GotoMethod::DocumentHighlight => "textDocument/documentHighlight",
        }
    }

    fn kind(self) -> Kind
        ensures { result ≡ (goto_row self).kind }
    {
        match self {
            GotoMethod::GotoDeclaration => Kind::Request,
            GotoMethod::GotoDefinition => Kind::Request,
            GotoMethod::GotoTypeDefinition => Kind::Request,
            GotoMethod::GotoImplementation => Kind::Request,
            GotoMethod::References => Kind::Request,
            GotoMethod::DocumentHighlight => Kind::Request,
        }
    }

    fn place(self) -> u64
        ensures { result ≡ goto_place self }
    {
        match self {
            GotoMethod::GotoDeclaration => 9,
            GotoMethod::GotoDefinition => 10,
            GotoMethod::GotoTypeDefinition => 11,
            GotoMethod::GotoImplementation => 12,
            GotoMethod::References => 13,
            GotoMethod::DocumentHighlight => 14,
        }
    }
}

/// The methods of hierarchies of calls and types.
#[derive(Clone, Copy)]
pub enum HierarchyMethod {
    /// `textDocument/prepareCallHierarchy`.
    PrepareCallHierarchy,
    /// `callHierarchy/incomingCalls`.
    IncomingCalls,
    /// `callHierarchy/outgoingCalls`.
    OutgoingCalls,
    /// `textDocument/prepareTypeHierarchy`.
    PrepareTypeHierarchy,
    /// `typeHierarchy/supertypes`.
    Supertypes,
    /// `typeHierarchy/subtypes`.
    Subtypes,
}

impl HierarchyMethod {
    fn name(self) -> &'static str
        ensures { result.now ≡ (hierarchy_row self).name }
    {
        match self {
            HierarchyMethod::PrepareCallHierarchy => "textDocument/prepareCallHierarchy",
            HierarchyMethod::IncomingCalls => "callHierarchy/incomingCalls",
            HierarchyMethod::OutgoingCalls => "callHierarchy/outgoingCalls",
            HierarchyMethod::PrepareTypeHierarchy => "textDocument/prepareTypeHierarchy",
            HierarchyMethod::Supertypes => "typeHierarchy/supertypes",
            HierarchyMethod::Subtypes => "typeHierarchy/subtypes",
        }
    }

    fn kind(self) -> Kind
        ensures { result ≡ (hierarchy_row self).kind }
    {
        match self {
            HierarchyMethod::PrepareCallHierarchy => Kind::Request,
            HierarchyMethod::IncomingCalls => Kind::Request,
            HierarchyMethod::OutgoingCalls => Kind::Request,
            HierarchyMethod::PrepareTypeHierarchy => Kind::Request,
            HierarchyMethod::Supertypes => Kind::Request,
            HierarchyMethod::Subtypes => Kind::Request,
        }
    }

    fn place(self) -> u64
        ensures { result ≡ hierarchy_place self }
    {
        match self {
            HierarchyMethod::PrepareCallHierarchy => 15,
            HierarchyMethod::IncomingCalls => 16,
            HierarchyMethod::OutgoingCalls => 17,
            HierarchyMethod::PrepareTypeHierarchy => 18,
            HierarchyMethod::Supertypes => 19,
            HierarchyMethod::Subtypes => 20,
        }
    }
}

/// The methods of what is shown in a document.
#[derive(Clone, Copy)]
pub enum ShowMethod {
    /// `textDocument/documentLink`.
    DocumentLink,
    /// `documentLink/resolve`.
    DocumentLinkResolve,
    /// `textDocument/hover`.
    Hover,
    /// `textDocument/codeLens`.
    CodeLens,
    /// `codeLens/resolve`.
    CodeLensResolve,
    /// `textDocument/foldingRange`.
    FoldingRange,
    /// `textDocument/selectionRange`.
    SelectionRange,
    /// `textDocument/documentSymbol`.
    DocumentSymbol,
    /// `textDocument/moniker`.
    Moniker,
}

impl ShowMethod {
    fn name(self) -> &'static str
        ensures { result.now ≡ (show_row self).name }
    {
        match self {
            ShowMethod::DocumentLink => "textDocument/documentLink",
            ShowMethod::DocumentLinkResolve => "documentLink/resolve",
            ShowMethod::Hover => "textDocument/hover",
            ShowMethod::CodeLens => "textDocument/codeLens",
            ShowMethod::CodeLensResolve => "codeLens/resolve",
            ShowMethod::FoldingRange => "textDocument/foldingRange",
            ShowMethod::SelectionRange => "textDocument/selectionRange",
            ShowMethod::DocumentSymbol => "textDocument/documentSymbol",
            ShowMethod::Moniker => "textDocument/moniker",
        }
    }

    fn kind(self) -> Kind
        ensures { result ≡ (show_row self).kind }
    {
        match self {
            ShowMethod::DocumentLink => Kind::Request,
            ShowMethod::DocumentLinkResolve => Kind::Request,
            ShowMethod::Hover => Kind::Request,
            ShowMethod::CodeLens => Kind::Request,
            ShowMethod::CodeLensResolve => Kind::Request,
            ShowMethod::FoldingRange => Kind::Request,
            ShowMethod::SelectionRange => Kind::Request,
            ShowMethod::DocumentSymbol => Kind::Request,
            ShowMethod::Moniker => Kind::Request,
        }
    }

    fn place(self) -> u64
        ensures { result ≡ show_place self }
    {
        match self {
            ShowMethod::DocumentLink => 21,
            ShowMethod::DocumentLinkResolve => 22,
            ShowMethod::Hover => 23,
            ShowMethod::CodeLens => 24,
            ShowMethod::CodeLensResolve => 25,
            ShowMethod::FoldingRange => 26,
            ShowMethod::SelectionRange => 27,
            ShowMethod::DocumentSymbol => 28,
            ShowMethod::Moniker => 29,
        }
    }
}

/// The methods of tokens, hints and values in a document.
#[derive(Clone, Copy)]
pub enum TokenMethod {
    /// `textDocument/semanticTokens/full`.
    SemanticTokensFull,
    /// `textDocument/semanticTokens/full/delta`.
    SemanticTokensFullDelta,
    /// `textDocument/semanticTokens/range`.
    SemanticTokensRange,
    /// `textDocument/inlineValue`.
    InlineValue,
    /// `textDocument/inlayHint`.
    InlayHint,
    /// `inlayHint/resolve`.
    InlayHintResolve,
}

impl TokenMethod {
    fn name(self) -> &'static str
        ensures { result.now ≡ (token_row self).name }
    {
        match self {
            TokenMethod::SemanticTokensFull => "textDocument/semanticTokens/full",
            TokenMethod::SemanticTokensFullDelta => "textDocument/semanticTokens/full/delta",
            TokenMethod::SemanticTokensRange => "textDocument/semanticTokens/range",
            TokenMethod::InlineValue => "textDocument/inlineValue",
            TokenMethod::InlayHint => "textDocument/inlayHint",
            TokenMethod::InlayHintResolve => "inlayHint/resolve",
        }
    }

    fn kind(self) -> Kind
        ensures { result ≡ (token_row self).kind }
    {
        match self {
            TokenMethod::SemanticTokensFull => Kind::Request,
            TokenMethod::SemanticTokensFullDelta => Kind::Request,
            TokenMethod::SemanticTokensRange => Kind::Request,
            TokenMethod::InlineValue => Kind::Request,
            TokenMethod::InlayHint => Kind::Request,
            TokenMethod::InlayHintResolve => Kind::Request,
        }
    }

    fn place(self) -> u64
        ensures { result ≡ token_place self }
    {
        match self {
            TokenMethod::SemanticTokensFull => 30,
            TokenMethod::SemanticTokensFullDelta => 31,
            TokenMethod::SemanticTokensRange => 32,
            TokenMethod::InlineValue => 33,
            TokenMethod::InlayHint => 34,
            TokenMethod::InlayHintResolve => 35,
        }
    }
}

/// The methods of completion, edits and diagnostics.
#[derive(Clone, Copy)]
pub enum EditMethod {
    /// `textDocument/completion`.
    Completion,
    /// `completionItem/resolve`.
    CompletionResolve,
    /// `textDocument/signatureHelp`.
    SignatureHelp,
    /// `textDocument/codeAction`.
    CodeAction,
    /// `codeAction/resolve`.
    CodeActionResolve,
    /// `textDocument/formatting`.
    Formatting,
    /// `textDocument/rangeFormatting`.
    RangeFormatting,
    /// `textDocument/onTypeFormatting`.
    OnTypeFormatting,
    /// `textDocument/rename`.
    Rename,
    /// `textDocument/prepareRename`.
    PrepareRename,
    /// `textDocument/linkedEditingRange`.
    LinkedEditingRange,
    /// `textDocument/diagnostic`.
    Diagnostic,
}

impl EditMethod {
    fn name(self) -> &'static str
        ensures { result.now ≡ (edit_row self).name }
    {
        match self {
            EditMethod::Completion => "textDocument/completion",
            EditMethod::CompletionResolve => "completionItem/resolve",
            EditMethod::SignatureHelp => "textDocument/signatureHelp",
            EditMethod::CodeAction => "textDocument/codeAction",
            EditMethod::CodeActionResolve => "codeAction/resolve",
            EditMethod::Formatting => "textDocument/formatting",
            EditMethod::RangeFormatting => "textDocument/rangeFormatting",
            EditMethod::OnTypeFormatting => "textDocument/onTypeFormatting",
            EditMethod::Rename => "textDocument/rename",
            EditMethod::PrepareRename => "textDocument/prepareRename",
            EditMethod::LinkedEditingRange => "textDocument/linkedEditingRange",
            EditMethod::Diagnostic => "textDocument/diagnostic",
        }
    }

    fn kind(self) -> Kind
        ensures { result ≡ (edit_row self).kind }
    {
        match self {
            EditMethod::Completion => Kind::Request,
            EditMethod::CompletionResolve => Kind::Request,
            EditMethod::SignatureHelp => Kind::Request,
            EditMethod::CodeAction => Kind::Request,
            EditMethod::CodeActionResolve => Kind::Request,
            EditMethod::Formatting => Kind::Request,
            EditMethod::RangeFormatting => Kind::Request,
            EditMethod::OnTypeFormatting => Kind::Request,
            EditMethod::Rename => Kind::Request,
            EditMethod::PrepareRename => Kind::Request,
            EditMethod::LinkedEditingRange => Kind::Request,
            EditMethod::Diagnostic => Kind::Request,
        }
    }

    fn place(self) -> u64
        ensures { result ≡ edit_place self }
    {
        match self {
            EditMethod::Completion => 36,
            EditMethod::CompletionResolve => 37,
            EditMethod::SignatureHelp => 38,
            EditMethod::CodeAction => 39,
            EditMethod::CodeActionResolve => 40,
            EditMethod::Formatting => 41,
            EditMethod::RangeFormatting => 42,
            EditMethod::OnTypeFormatting => 43,
            EditMethod::Rename => 44,
            EditMethod::PrepareRename => 45,
            EditMethod::LinkedEditingRange => 46,
            EditMethod::Diagnostic => 47,
        }
    }
}

/// The methods of the workspace.
#[derive(Clone, Copy)]
pub enum WorkMethod {
    /// `workspace/diagnostic`.
    WorkspaceDiagnostic,
    /// `workspace/symbol`.
    Symbol,
    /// `workspaceSymbol/resolve`.
    SymbolResolve,
    /// `workspace/didChangeConfiguration`.
    DidChangeConfiguration,
    /// `workspace/didChangeWorkspaceFolders`.
    DidChangeWorkspaceFolders,
    /// `workspace/willCreateFiles`.
    WillCreateFiles,
    /// `workspace/didCreateFiles`.
    DidCreateFiles,
    /// `workspace/willRenameFiles`.
    WillRenameFiles,
    /// `workspace/didRenameFiles`.
    DidRenameFiles,
    /// `workspace/willDeleteFiles`.
    WillDeleteFiles,
    /// `workspace/didDeleteFiles`.
    DidDeleteFiles,
    /// `workspace/didChangeWatchedFiles`.
    DidChangeWatchedFiles,
    /// `workspace/executeCommand`.
    ExecuteCommand,
}

impl WorkMethod {
    fn name(self) -> &'static str
        ensures { result.now ≡ (work_row self).name }
    {
        match self {
            WorkMethod::WorkspaceDiagnostic => "workspace/diagnostic",
            WorkMethod::Symbol => "workspace/symbol",
            WorkMethod::SymbolResolve => "workspaceSymbol/resolve",
            WorkMethod::DidChangeConfiguration => "workspace/didChangeConfiguration",
            WorkMethod::DidChangeWorkspaceFolders => "workspace/didChangeWorkspaceFolders",
            WorkMethod::WillCreateFiles => "workspace/willCreateFiles",
            WorkMethod::DidCreateFiles => "workspace/didCreateFiles",
            WorkMethod::WillRenameFiles => "workspace/willRenameFiles",
            WorkMethod::DidRenameFiles => "workspace/didRenameFiles",
            WorkMethod::WillDeleteFiles => "workspace/willDeleteFiles",
            WorkMethod::DidDeleteFiles => "workspace/didDeleteFiles",
            WorkMethod::DidChangeWatchedFiles => "workspace/didChangeWatchedFiles",
            WorkMethod::ExecuteCommand => "workspace/executeCommand",
        }
    }

    fn kind(self) -> Kind
        ensures { result ≡ (work_row self).kind }
    {
        match self {
            WorkMethod::WorkspaceDiagnostic => Kind::Request,
            WorkMethod::Symbol => Kind::Request,
            WorkMethod::SymbolResolve => Kind::Request,
            WorkMethod::DidChangeConfiguration => Kind::Notification,
            WorkMethod::DidChangeWorkspaceFolders => Kind::Notification,
            WorkMethod::WillCreateFiles => Kind::Request,
            WorkMethod::DidCreateFiles => Kind::Notification,
            WorkMethod::WillRenameFiles => Kind::Request,
            WorkMethod::DidRenameFiles => Kind::Notification,
            WorkMethod::WillDeleteFiles => Kind::Request,
            WorkMethod::DidDeleteFiles => Kind::Notification,
            WorkMethod::DidChangeWatchedFiles => Kind::Notification,
            WorkMethod::ExecuteCommand => Kind::Request,
        }
    }

    fn place(self) -> u64
        ensures { result ≡ work_place self }
    {
        match self {
            WorkMethod::WorkspaceDiagnostic => 48,
            WorkMethod::Symbol => 49,
            WorkMethod::SymbolResolve => 50,
            WorkMethod::DidChangeConfiguration => 51,
            WorkMethod::DidChangeWorkspaceFolders => 52,
            WorkMethod::WillCreateFiles => 53,
            WorkMethod::DidCreateFiles => 54,
            WorkMethod::WillRenameFiles => 55,
            WorkMethod::DidRenameFiles => 56,
            WorkMethod::WillDeleteFiles => 57,
            WorkMethod::DidDeleteFiles => 58,
            WorkMethod::DidChangeWatchedFiles => 59,
            WorkMethod::ExecuteCommand => 60,
        }
    }
}

/// A method of the protocol.
#[derive(Clone, Copy)]
pub enum Method {
    Life(LifeMethod),
    Sync(SyncMethod),
    Goto(GotoMethod),
    Hierarchy(HierarchyMethod),
    Show(ShowMethod),
    Token(TokenMethod),
    Edit(EditMethod),
    Work(WorkMethod),
}

impl Method {
    /// Its name in messages.
    pub fn name(self) -> &'static str
        ensures { result.now ≡ (method_row self).name }
    {
        match self {
            Method::Life(method) => method.name(),
            Method::Sync(method) => method.name(),
            Method::Goto(method) => method.name(),
            Method::Hierarchy(method) => method.name(),
            Method::Show(method) => method.name(),
            Method::Token(method) => method.name(),
            Method::Edit(method) => method.name(),
            Method::Work(method) => method.name(),
        }
    }

    /// Whether it is answered.
    pub fn kind(self) -> Kind
        ensures { result ≡ (method_row self).kind }
    {
        match self {
            Method::Life(method) => method.kind(),
            Method::Sync(method) => method.kind(),
            Method::Goto(method) => method.kind(),
            Method::Hierarchy(method) => method.kind(),
            Method::Show(method) => method.kind(),
            Method::Token(method) => method.kind(),
            Method::Edit(method) => method.kind(),
            Method::Work(method) => method.kind(),
        }
    }

    /// What the life of a session lets it do.
    pub fn layer(self) -> Layer
        ensures { result ≡ (method_row self).layer }
    {
        match self {
            Method::Life(method) => method.layer(),
            Method::Sync(_) => Layer::Normal,
            Method::Goto(_) => Layer::Normal,
            Method::Hierarchy(_) => Layer::Normal,
            Method::Show(_) => Layer::Normal,
            Method::Token(_) => Layer::Normal,
            Method::Edit(_) => Layer::Normal,
            Method::Work(_) => Layer::Normal,
        }
    }

    /// Its place in the method table, from 0.
    pub fn place(self) -> u64
        ensures { result ≡ place_of self }
    {
        match self {
            Method::Life(method) => method.place(),
            Method::Sync(method) => method.place(),
            Method::Goto(method) => method.place(),
            Method::Hierarchy(method) => method.place(),
            Method::Show(method) => method.place(),
            Method::Token(method) => method.place(),
            Method::Edit(method) => method.place(),
            Method::Work(method) => method.place(),
        }
    }

    /// The method of that place.
    pub fn at(place: u64) -> Option<Method>
        ensures { result ≡ method_at place }
    {
        method_in(&METHODS, place)
    }
}

/// The methods, in the order of the table.
pub const METHODS: [Method; 61] = [
    Method::Life(LifeMethod::Initialize),
    Method::Life(LifeMethod::Initialized),
    Method::Life(LifeMethod::Shutdown),
    Method::Sync(SyncMethod::DidOpen),
    Method::Sync(SyncMethod::DidChange),
    Method::Sync(SyncMethod::WillSave),
    Method::Sync(SyncMethod::WillSaveWaitUntil),
    Method::Sync(SyncMethod::DidSave),
    Method::Sync(SyncMethod::DidClose),
    Method::Goto(GotoMethod::GotoDeclaration),
    Method::Goto(GotoMethod::GotoDefinition),
    Method::Goto(GotoMethod::GotoTypeDefinition),
    Method::Goto(GotoMethod::GotoImplementation),
    Method::Goto(GotoMethod::References),
    Method::Goto(GotoMethod::DocumentHighlight),
    Method::Hierarchy(HierarchyMethod::PrepareCallHierarchy),
    Method::Hierarchy(HierarchyMethod::IncomingCalls),
    Method::Hierarchy(HierarchyMethod::OutgoingCalls),
    Method::Hierarchy(HierarchyMethod::PrepareTypeHierarchy),
    Method::Hierarchy(HierarchyMethod::Supertypes),
    Method::Hierarchy(HierarchyMethod::Subtypes),
    Method::Show(ShowMethod::DocumentLink),
    Method::Show(ShowMethod::DocumentLinkResolve),
    Method::Show(ShowMethod::Hover),
    Method::Show(ShowMethod::CodeLens),
    Method::Show(ShowMethod::CodeLensResolve),
    Method::Show(ShowMethod::FoldingRange),
    Method::Show(ShowMethod::SelectionRange),
    Method::Show(ShowMethod::DocumentSymbol),
    Method::Show(ShowMethod::Moniker),
    Method::Token(TokenMethod::SemanticTokensFull),
    Method::Token(TokenMethod::SemanticTokensFullDelta),
    Method::Token(TokenMethod::SemanticTokensRange),
    Method::Token(TokenMethod::InlineValue),
    Method::Token(TokenMethod::InlayHint),
    Method::Token(TokenMethod::InlayHintResolve),
    Method::Edit(EditMethod::Completion),
    Method::Edit(EditMethod::CompletionResolve),
    Method::Edit(EditMethod::SignatureHelp),
    Method::Edit(EditMethod::CodeAction),
    Method::Edit(EditMethod::CodeActionResolve),
    Method::Edit(EditMethod::Formatting),
    Method::Edit(EditMethod::RangeFormatting),
    Method::Edit(EditMethod::OnTypeFormatting),
    Method::Edit(EditMethod::Rename),
    Method::Edit(EditMethod::PrepareRename),
    Method::Edit(EditMethod::LinkedEditingRange),
    Method::Edit(EditMethod::Diagnostic),
    Method::Work(WorkMethod::WorkspaceDiagnostic),
    Method::Work(WorkMethod::Symbol),
    Method::Work(WorkMethod::SymbolResolve),
    Method::Work(WorkMethod::DidChangeConfiguration),
    Method::Work(WorkMethod::DidChangeWorkspaceFolders),
    Method::Work(WorkMethod::WillCreateFiles),
    Method::Work(WorkMethod::DidCreateFiles),
    Method::Work(WorkMethod::WillRenameFiles),
    Method::Work(WorkMethod::DidRenameFiles),
    Method::Work(WorkMethod::WillDeleteFiles),
    Method::Work(WorkMethod::DidDeleteFiles),
    Method::Work(WorkMethod::DidChangeWatchedFiles),
    Method::Work(WorkMethod::ExecuteCommand),
];

// The method at that place of a list.
fn method_in(methods: &[Method], place: u64) -> Option<Method>
    ensures { result ≡ slice_get methods.now place }
{
    methods.get(place as usize).copied()
}

/// How many methods stand before the custom ones.
pub const STANDARD: u64 = 63;
