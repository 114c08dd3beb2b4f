//! The methods that are answered, each as a type: upstream's names of them, with their params and
//! their results.
ghost use Rattle.std.specs.Prelude.{◌≡◌, ℕ, List};

mod document;
mod edit;
mod general;
mod window;
mod workspace;

pub use document::{
    CallHierarchyIncomingCalls, CallHierarchyOutgoingCalls, CallHierarchyPrepare, CodeLensRequest,
    CodeLensResolve, DocumentHighlightRequest, DocumentLinkRequest, DocumentLinkResolve,
    DocumentSymbolRequest, FoldingRangeRequest, GotoDeclaration, GotoDefinition,
    GotoImplementation, GotoTypeDefinition, HoverRequest, MonikerRequest, References,
    SelectionRangeRequest, TypeHierarchyPrepare, TypeHierarchySubtypes, TypeHierarchySupertypes,
    WillSaveWaitUntil,
};
pub use edit::{
    CodeActionRequest, CodeActionResolveRequest, Completion, DocumentDiagnosticRequest, Formatting,
    InlayHintRequest, InlayHintResolveRequest, InlineValueRequest, LinkedEditingRange,
    OnTypeFormatting, PrepareRenameRequest, RangeFormatting, Rename, ResolveCompletionItem,
    SemanticTokensFullDeltaRequest, SemanticTokensFullRequest, SemanticTokensRangeRequest,
    SignatureHelpRequest,
};
pub use general::{Initialize, Shutdown};
pub use window::{
    RegisterCapability, ShowDocument, ShowMessageRequest, UnregisterCapability,
    WorkDoneProgressCreate,
};
pub use workspace::{
    ApplyWorkspaceEdit, CodeLensRefresh, ExecuteCommand, InlayHintRefreshRequest,
    InlineValueRefreshRequest, SemanticTokensRefresh, WillCreateFiles, WillDeleteFiles,
    WillRenameFiles, WorkspaceConfiguration, WorkspaceDiagnosticRefresh,
    WorkspaceDiagnosticRequest, WorkspaceFoldersRequest, WorkspaceSymbolRequest,
    WorkspaceSymbolResolve,
};

/// A method that is answered, as a type that has no values.
pub trait Request {
    /// The type of its params: `Wire`, which is asked for where they are read or written.
    type Params;

    /// The type of its result: `Wire`, as the params.
    type Result;

    /// Its name.
    ghost name: { List ℕ };

    /// Its name, as it stands in a message.
    fn method() -> &'static str
        ensures { result.now ≡ name };
}
