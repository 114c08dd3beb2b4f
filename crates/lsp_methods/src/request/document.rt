// The requests on a document, its symbols and what they stand for.
ghost use Rattle.std.specs.Prelude.{codes};

use super::Request;
use lsp_base::{Location, TextEdit};
use lsp_lang_goto::{
    CallHierarchyIncomingCall, CallHierarchyIncomingCallsParams, CallHierarchyItem,
    CallHierarchyOutgoingCall, CallHierarchyOutgoingCallsParams, CallHierarchyPrepareParams,
    CodeLens, CodeLensParams, DocumentHighlight, DocumentHighlightParams, DocumentLink,
    DocumentLinkParams, DocumentSymbolParams, DocumentSymbolResponse, GotoDeclarationParams,
    GotoDeclarationResponse, GotoDefinitionParams, GotoDefinitionResponse,
    GotoImplementationParams, GotoImplementationResponse, GotoTypeDefinitionParams,
    GotoTypeDefinitionResponse, Hover, HoverParams, ReferenceParams, TypeHierarchyItem,
    TypeHierarchyPrepareParams, TypeHierarchySubtypesParams, TypeHierarchySupertypesParams,
};
use lsp_tokens::{
    FoldingRange, FoldingRangeParams, Moniker, MonikerParams, SelectionRange, SelectionRangeParams,
};
use lsp_work::WillSaveTextDocumentParams;

/// `textDocument/willSaveWaitUntil` (LSP 3.17, "WillSaveWaitUntilTextDocument Request").
#[derive(Clone, Copy)]
pub enum WillSaveWaitUntil {}

impl Request for WillSaveWaitUntil {
    type Params = WillSaveTextDocumentParams;

    type Result = Option<Vec<TextEdit>>;

    ghost name = { codes "textDocument/willSaveWaitUntil" };

    fn method() -> &'static str {
        "textDocument/willSaveWaitUntil"
    }
}

/// `textDocument/declaration` (LSP 3.17, "Goto Declaration Request").
#[derive(Clone, Copy)]
pub enum GotoDeclaration {}

impl Request for GotoDeclaration {
    type Params = GotoDeclarationParams;

    type Result = Option<GotoDeclarationResponse>;

    ghost name = { codes "textDocument/declaration" };

    fn method() -> &'static str {
        "textDocument/declaration"
    }
}

/// `textDocument/definition` (LSP 3.17, "Goto Definition Request").
#[derive(Clone, Copy)]
pub enum GotoDefinition {}

impl Request for GotoDefinition {
    type Params = GotoDefinitionParams;

    type Result = Option<GotoDefinitionResponse>;

    ghost name = { codes "textDocument/definition" };

    fn method() -> &'static str {
        "textDocument/definition"
    }
}

/// `textDocument/typeDefinition` (LSP 3.17, "Goto Type Definition Request").
#[derive(Clone, Copy)]
pub enum GotoTypeDefinition {}

impl Request for GotoTypeDefinition {
    type Params = GotoTypeDefinitionParams;

    type Result = Option<GotoTypeDefinitionResponse>;

    ghost name = { codes "textDocument/typeDefinition" };

    fn method() -> &'static str {
        "textDocument/typeDefinition"
    }
}

/// `textDocument/implementation` (LSP 3.17, "Goto Implementation Request").
#[derive(Clone, Copy)]
pub enum GotoImplementation {}

impl Request for GotoImplementation {
    type Params = GotoImplementationParams;

    type Result = Option<GotoImplementationResponse>;

    ghost name = { codes "textDocument/implementation" };

    fn method() -> &'static str {
        "textDocument/implementation"
    }
}

/// `textDocument/references` (LSP 3.17, "Find References Request").
#[derive(Clone, Copy)]
pub enum References {}

impl Request for References {
    type Params = ReferenceParams;

    type Result = Option<Vec<Location>>;

    ghost name = { codes "textDocument/references" };

    fn method() -> &'static str {
        "textDocument/references"
    }
}

/// `textDocument/documentHighlight` (LSP 3.17, "Document Highlights Request").
#[derive(Clone, Copy)]
pub enum DocumentHighlightRequest {}

impl Request for DocumentHighlightRequest {
    type Params = DocumentHighlightParams;

    type Result = Option<Vec<DocumentHighlight>>;

    ghost name = { codes "textDocument/documentHighlight" };

    fn method() -> &'static str {
        "textDocument/documentHighlight"
    }
}

/// `textDocument/prepareCallHierarchy` (LSP 3.17, "Prepare Call Hierarchy Request").
#[derive(Clone, Copy)]
pub enum CallHierarchyPrepare {}

impl Request for CallHierarchyPrepare {
    type Params = CallHierarchyPrepareParams;

    type Result = Option<Vec<CallHierarchyItem>>;

    ghost name = { codes "textDocument/prepareCallHierarchy" };

    fn method() -> &'static str {
        "textDocument/prepareCallHierarchy"
    }
}

/// `callHierarchy/incomingCalls` (LSP 3.17, "Call Hierarchy Incoming Calls").
#[derive(Clone, Copy)]
pub enum CallHierarchyIncomingCalls {}

impl Request for CallHierarchyIncomingCalls {
    type Params = CallHierarchyIncomingCallsParams;

    type Result = Option<Vec<CallHierarchyIncomingCall>>;

    ghost name = { codes "callHierarchy/incomingCalls" };

    fn method() -> &'static str {
        "callHierarchy/incomingCalls"
    }
}

/// `callHierarchy/outgoingCalls` (LSP 3.17, "Call Hierarchy Outgoing Calls").
#[derive(Clone, Copy)]
pub enum CallHierarchyOutgoingCalls {}

impl Request for CallHierarchyOutgoingCalls {
    type Params = CallHierarchyOutgoingCallsParams;

    type Result = Option<Vec<CallHierarchyOutgoingCall>>;

    ghost name = { codes "callHierarchy/outgoingCalls" };

    fn method() -> &'static str {
        "callHierarchy/outgoingCalls"
    }
}

/// `textDocument/prepareTypeHierarchy` (LSP 3.17, "Prepare Type Hierarchy Request").
#[derive(Clone, Copy)]
pub enum TypeHierarchyPrepare {}

impl Request for TypeHierarchyPrepare {
    type Params = TypeHierarchyPrepareParams;

    type Result = Option<Vec<TypeHierarchyItem>>;

    ghost name = { codes "textDocument/prepareTypeHierarchy" };

    fn method() -> &'static str {
        "textDocument/prepareTypeHierarchy"
    }
}

/// `typeHierarchy/supertypes` (LSP 3.17, "Type Hierarchy Supertypes").
#[derive(Clone, Copy)]
pub enum TypeHierarchySupertypes {}

impl Request for TypeHierarchySupertypes {
    type Params = TypeHierarchySupertypesParams;

    type Result = Option<Vec<TypeHierarchyItem>>;

    ghost name = { codes "typeHierarchy/supertypes" };

    fn method() -> &'static str {
        "typeHierarchy/supertypes"
    }
}

/// `typeHierarchy/subtypes` (LSP 3.17, "Type Hierarchy Subtypes").
#[derive(Clone, Copy)]
pub enum TypeHierarchySubtypes {}

impl Request for TypeHierarchySubtypes {
    type Params = TypeHierarchySubtypesParams;

    type Result = Option<Vec<TypeHierarchyItem>>;

    ghost name = { codes "typeHierarchy/subtypes" };

    fn method() -> &'static str {
        "typeHierarchy/subtypes"
    }
}

/// `textDocument/documentLink` (LSP 3.17, "Document Link Request").
#[derive(Clone, Copy)]
pub enum DocumentLinkRequest {}

impl Request for DocumentLinkRequest {
    type Params = DocumentLinkParams;

    type Result = Option<Vec<DocumentLink>>;

    ghost name = { codes "textDocument/documentLink" };

    fn method() -> &'static str {
        "textDocument/documentLink"
    }
}

/// `documentLink/resolve` (LSP 3.17, "Document Link Resolve Request").
#[derive(Clone, Copy)]
pub enum DocumentLinkResolve {}

impl Request for DocumentLinkResolve {
    type Params = DocumentLink;

    type Result = DocumentLink;

    ghost name = { codes "documentLink/resolve" };

    fn method() -> &'static str {
        "documentLink/resolve"
    }
}

/// `textDocument/hover` (LSP 3.17, "Hover Request").
#[derive(Clone, Copy)]
pub enum HoverRequest {}

impl Request for HoverRequest {
    type Params = HoverParams;

    type Result = Option<Hover>;

    ghost name = { codes "textDocument/hover" };

    fn method() -> &'static str {
        "textDocument/hover"
    }
}

/// `textDocument/codeLens` (LSP 3.17, "Code Lens Request").
#[derive(Clone, Copy)]
pub enum CodeLensRequest {}

impl Request for CodeLensRequest {
    type Params = CodeLensParams;

    type Result = Option<Vec<CodeLens>>;

    ghost name = { codes "textDocument/codeLens" };

    fn method() -> &'static str {
        "textDocument/codeLens"
    }
}

/// `codeLens/resolve` (LSP 3.17, "Code Lens Resolve Request").
#[derive(Clone, Copy)]
pub enum CodeLensResolve {}

impl Request for CodeLensResolve {
    type Params = CodeLens;

    type Result = CodeLens;

    ghost name = { codes "codeLens/resolve" };

    fn method() -> &'static str {
        "codeLens/resolve"
    }
}

/// `textDocument/foldingRange` (LSP 3.17, "Folding Range Request").
#[derive(Clone, Copy)]
pub enum FoldingRangeRequest {}

impl Request for FoldingRangeRequest {
    type Params = FoldingRangeParams;

    type Result = Option<Vec<FoldingRange>>;

    ghost name = { codes "textDocument/foldingRange" };

    fn method() -> &'static str {
        "textDocument/foldingRange"
    }
}

/// `textDocument/selectionRange` (LSP 3.17, "Selection Range Request").
#[derive(Clone, Copy)]
pub enum SelectionRangeRequest {}

impl Request for SelectionRangeRequest {
    type Params = SelectionRangeParams;

    type Result = Option<Vec<SelectionRange>>;

    ghost name = { codes "textDocument/selectionRange" };

    fn method() -> &'static str {
        "textDocument/selectionRange"
    }
}

/// `textDocument/documentSymbol` (LSP 3.17, "Document Symbols Request").
#[derive(Clone, Copy)]
pub enum DocumentSymbolRequest {}

impl Request for DocumentSymbolRequest {
    type Params = DocumentSymbolParams;

    type Result = Option<DocumentSymbolResponse>;

    ghost name = { codes "textDocument/documentSymbol" };

    fn method() -> &'static str {
        "textDocument/documentSymbol"
    }
}

/// `textDocument/moniker` (LSP 3.17, "Monikers").
#[derive(Clone, Copy)]
pub enum MonikerRequest {}

impl Request for MonikerRequest {
    type Params = MonikerParams;

    type Result = Option<Vec<Moniker>>;

    ghost name = { codes "textDocument/moniker" };

    fn method() -> &'static str {
        "textDocument/moniker"
    }
}
