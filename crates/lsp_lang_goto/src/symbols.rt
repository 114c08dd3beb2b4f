// Symbols of a document and of the workspace.
ghost use Rattle.std.specs.Prelude.{◌≡◌, [], string_bytes};
ghost use Rattle.lsp_lang_goto.specs.Symbols.{document_symbol_params_row, document_symbol_response_row, symbol_information_row, workspace_symbol_params_row, workspace_symbol_response_row, workspace_symbol_row, workspace_location_row};
ghost use Rattle.lsp_lang_goto.specs.declared.symbols.DocumentSymbolResponse.TheVariants as document_symbol_response;

use crate::tree::DocumentSymbol;
use lsp_base::{
    LSPAny, Location, OneOf, PartialResultParams, TextDocumentIdentifier, WorkDoneProgressParams,
};
use lsp_kinds::{SymbolKind, SymbolTag};
use lsp_shape::{
    Copies, Flat, Misfit, NoMemory, Optional, Required, Wire, Writer, attempt, flat, form,
    read_object,
};
use lsp_uri::Uri;
use serde_json::Value;
use std::alloc::{AllocError, Global};

/// Parameters of `textDocument/documentSymbol`: the document whose symbols are wanted, for instance
/// for an outline (LSP 3.17, "Document Symbols Request").
#[derive(Debug, PartialEq, Eq, Clone, Drop)]
pub struct DocumentSymbolParams {
    /// The document to list the symbols of.
    pub text_document: TextDocumentIdentifier,
    /// The token for progress reports on this request, if the client sent one.
    pub work_done_progress_params: WorkDoneProgressParams,
    /// The token for sending the symbols in `$/progress` notifications, with an empty response
    /// after them, if the client sent one.
    pub partial_result_params: PartialResultParams,
}

#[tactic(auto, unfolding(crate::specs::Symbols::document_symbol_params_row, lsp_base::specs::Progress::work_done_progress_params_row, lsp_base::specs::Progress::partial_result_params_row))]
impl Wire for DocumentSymbolParams {
    ghost shape = { document_symbol_params_row.shape };

    ghost shown = { document_symbol_params_row.shown };

    fn from_value(alloc: Global, value: &Value) -> Result<DocumentSymbolParams, Misfit> {
        let (text_document, work_done_progress_params, partial_result_params) = read_object(
            alloc,
            value,
            (Required("textDocument"), Flat, Flat),
        )?;
        Ok(DocumentSymbolParams {
            text_document,
            work_done_progress_params,
            partial_result_params,
        })
    }

    fn to_value(&self, alloc: Global) -> Result<Value, NoMemory> {
        let mut object = Writer::new(alloc);
        object.field("textDocument", &self.text_document);
        object.flat(&self.work_done_progress_params);
        object.flat(&self.partial_result_params);
        object.end()
    }
}

/// Result of `textDocument/documentSymbol`: the symbols of a document, as a flat array or as a
/// tree. If there are none, the result may be null instead (LSP 3.17, "Document Symbols Request").
#[derive(Debug, PartialEq, Clone, Drop)]
pub enum DocumentSymbolResponse {
    /// An array without nesting, which any client accepts. An empty array is read as this variant.
    Flat(Vec<SymbolInformation>),
    /// A tree, in which each symbol holds its children. Only for clients with
    /// `textDocument.documentSymbol.hierarchicalDocumentSymbolSupport`, since 3.10.
    Nested(Vec<DocumentSymbol>),
}

#[tactic(auto, unfolding(crate::specs::Symbols::document_symbol_response_row))]
impl Wire for DocumentSymbolResponse {
    ghost shape = { document_symbol_response_row.shape };

    ghost shown = { document_symbol_response_row.shown };

    fn from_value(alloc: Global, value: &Value) -> Result<DocumentSymbolResponse, Misfit> {
        if let Some(flat) = attempt(alloc, value)? {
            return Ok(DocumentSymbolResponse::Flat(flat));
        }
        Ok(DocumentSymbolResponse::Nested(form(alloc, value)?))
    }

    fn to_value(&self, alloc: Global) -> Result<Value, NoMemory> {
        match self {
            DocumentSymbolResponse::Flat(flat) => flat.to_value(alloc),
            DocumentSymbolResponse::Nested(nested) => nested.to_value(alloc),
        }
    }
}

impl From<Vec<SymbolInformation>> for DocumentSymbolResponse {
    ghost from_gives = { λ given made. made ≡ document_symbol_response.Flat given };

    fn from(flat: Vec<SymbolInformation>) -> DocumentSymbolResponse {
        DocumentSymbolResponse::Flat(flat)
    }
}

impl From<Vec<DocumentSymbol>> for DocumentSymbolResponse {
    ghost from_gives = { λ given made. made ≡ document_symbol_response.Nested given };

    fn from(nested: Vec<DocumentSymbol>) -> DocumentSymbolResponse {
        DocumentSymbolResponse::Nested(nested)
    }
}

/// A symbol and its location, without children: an entry of a result of
/// `textDocument/documentSymbol` or `workspace/symbol` (LSP 3.17, "Document Symbols Request").
#[derive(Debug, PartialEq, Eq, Drop)]
pub struct SymbolInformation {
    /// What the client shows for the symbol, usually its identifier.
    pub name: String,
    /// What sort of symbol it is, such as a class or a function. Clients usually show it as an
    /// icon.
    pub kind: SymbolKind,
    /// Marks on the symbol, such as `SymbolTag::DEPRECATED`; since 3.16.
    pub tags: Option<Vec<SymbolTag>>,
    /// Whether the use of the symbol is discouraged. `tags` with `SymbolTag::DEPRECATED` replaces
    /// this field.
    pub deprecated: Option<bool>,
    /// The document of the symbol, and the range to show when the user picks it. The cursor goes to
    /// the start of the range.
    pub location: Location,
    /// The name of what encloses the symbol, such as its class. It is only displayed: clients don't
    /// derive a tree from it.
    pub container_name: Option<String>,
}

impl Clone for SymbolInformation {
    ghost is_clone = { λ x y. ⟦<String as Clone>⟧.is_clone x.name y.name
        × ⟦<SymbolKind as Clone>⟧.is_clone x.kind y.kind
        × ⟦<Option<Vec<SymbolTag>> as Clone>⟧.is_clone x.tags y.tags
        × ⟦<Option<bool> as Clone>⟧.is_clone x.deprecated y.deprecated
        × ⟦<Location as Clone>⟧.is_clone x.location y.location
        × ⟦<Option<String> as Clone>⟧.is_clone x.container_name y.container_name };

    fn clone(&self) -> Result<SymbolInformation, AllocError> {
        let mut copies = Copies::new();
        let copy = SymbolInformation {
            name: self.name.clone()?,
            kind: self.kind,
            tags: copies.optional(&self.tags),
            deprecated: copies.optional(&self.deprecated),
            location: self.location.clone()?,
            container_name: copies.optional(&self.container_name),
        };
        copies.end(copy)
    }
}

#[tactic(auto, unfolding(crate::specs::Symbols::symbol_information_row))]
impl Wire for SymbolInformation {
    ghost shape = { symbol_information_row.shape };

    ghost shown = { symbol_information_row.shown };

    fn from_value(alloc: Global, value: &Value) -> Result<SymbolInformation, Misfit> {
        let (name, kind, tags, deprecated, location, container_name) = read_object(
            alloc,
            value,
            (
                Required("name"),
                Required("kind"),
                Optional("tags"),
                Optional("deprecated"),
                Required("location"),
                Optional("containerName"),
            ),
        )?;
        Ok(SymbolInformation {
            name,
            kind,
            tags,
            deprecated,
            location,
            container_name,
        })
    }

    fn to_value(&self, alloc: Global) -> Result<Value, NoMemory> {
        let mut object = Writer::new(alloc);
        object.field("name", &self.name);
        object.field("kind", &self.kind);
        object.optional("tags", &self.tags);
        object.optional("deprecated", &self.deprecated);
        object.field("location", &self.location);
        object.optional("containerName", &self.container_name);
        object.end()
    }
}

/// Parameters of `workspace/symbol`: the text to search for among the symbols of the workspace (LSP
/// 3.17, "Workspace Symbols Request").
#[derive(Debug, PartialEq, Eq, Clone, Drop)]
pub struct WorkspaceSymbolParams {
    /// The token for sending the symbols in `$/progress` notifications, with an empty response
    /// after them, if the client sent one.
    pub partial_result_params: PartialResultParams,
    /// The token for progress reports on this request, if the client sent one.
    pub work_done_progress_params: WorkDoneProgressParams,
    /// The text to search for. An empty string asks for all symbols.
    pub query: String,
}

impl WorkspaceSymbolParams {
    /// An empty query without tokens.
    pub fn default(alloc: Global) -> WorkspaceSymbolParams
        ensures partial_token { result.partial_result_params.partial_result_token ≡ None }
        ensures token { result.work_done_progress_params.work_done_token ≡ None }
        ensures query { string_bytes result.query ≡ [] }
    {
        WorkspaceSymbolParams {
            partial_result_params: PartialResultParams::default(),
            work_done_progress_params: WorkDoneProgressParams::default(),
            query: String::new(alloc),
        }
    }
}

#[tactic(auto, unfolding(crate::specs::Symbols::workspace_symbol_params_row, lsp_base::specs::Progress::partial_result_params_row, lsp_base::specs::Progress::work_done_progress_params_row))]
impl Wire for WorkspaceSymbolParams {
    ghost shape = { workspace_symbol_params_row.shape };

    ghost shown = { workspace_symbol_params_row.shown };

    fn from_value(alloc: Global, value: &Value) -> Result<WorkspaceSymbolParams, Misfit> {
        let (partial_result_params, work_done_progress_params, query) = read_object(
            alloc,
            value,
            (Flat, Flat, Required("query")),
        )?;
        Ok(WorkspaceSymbolParams {
            partial_result_params,
            work_done_progress_params,
            query,
        })
    }

    fn to_value(&self, alloc: Global) -> Result<Value, NoMemory> {
        let mut object = Writer::new(alloc);
        object.flat(&self.partial_result_params);
        object.flat(&self.work_done_progress_params);
        object.field("query", &self.query);
        object.end()
    }
}

/// Result of `workspace/symbol`: the symbols found in the workspace. If there are none, the result
/// may be null instead (LSP 3.17, "Workspace Symbols Request").
#[derive(Debug, PartialEq, Clone, Drop)]
pub enum WorkspaceSymbolResponse {
    /// Symbols with complete locations. An array is read as this variant if it is empty or if each
    /// of its locations has a range.
    Flat(Vec<SymbolInformation>),
    /// Symbols that may be completed later by `workspaceSymbol/resolve`, since 3.17. In spite of
    /// the variant's name, this array is flat too.
    Nested(Vec<WorkspaceSymbol>),
}

#[tactic(auto, unfolding(crate::specs::Symbols::workspace_symbol_response_row))]
impl Wire for WorkspaceSymbolResponse {
    ghost shape = { workspace_symbol_response_row.shape };

    ghost shown = { workspace_symbol_response_row.shown };

    fn from_value(alloc: Global, value: &Value) -> Result<WorkspaceSymbolResponse, Misfit> {
        if let Some(flat) = attempt(alloc, value)? {
            return Ok(WorkspaceSymbolResponse::Flat(flat));
        }
        Ok(WorkspaceSymbolResponse::Nested(form(alloc, value)?))
    }

    fn to_value(&self, alloc: Global) -> Result<Value, NoMemory> {
        match self {
            WorkspaceSymbolResponse::Flat(flat) => flat.to_value(alloc),
            WorkspaceSymbolResponse::Nested(nested) => nested.to_value(alloc),
        }
    }
}

/// A symbol found by `workspace/symbol`. Its range may be left to a later
/// `workspaceSymbol/resolve`; since 3.17 (LSP 3.17, "Workspace Symbols Request").
#[derive(Debug, PartialEq, Drop)]
pub struct WorkspaceSymbol {
    /// What the client shows for the symbol, usually its identifier.
    pub name: String,
    /// What sort of symbol it is, such as a class or a function. Clients usually show it as an
    /// icon.
    pub kind: SymbolKind,
    /// Marks on the symbol, such as `SymbolTag::DEPRECATED`.
    pub tags: Option<Vec<SymbolTag>>,
    /// The name of what encloses the symbol, such as its class. It is only displayed: clients don't
    /// derive a tree from it.
    pub container_name: Option<String>,
    /// `OneOf::Left` is the document with the range to show. `OneOf::Right` is the document alone,
    /// for a client with `workspace.symbol.resolveSupport`, which asks for the range by
    /// `workspaceSymbol/resolve`.
    pub location: OneOf<Location, WorkspaceLocation>,
    /// Any value, sent as the member `data`. The client returns it unchanged in
    /// `workspaceSymbol/resolve`.
    pub payload: Option<LSPAny>,
}

impl Clone for WorkspaceSymbol {
    ghost is_clone = { λ x y. ⟦<String as Clone>⟧.is_clone x.name y.name
        × ⟦<SymbolKind as Clone>⟧.is_clone x.kind y.kind
        × ⟦<Option<Vec<SymbolTag>> as Clone>⟧.is_clone x.tags y.tags
        × ⟦<Option<String> as Clone>⟧.is_clone x.container_name y.container_name
        × ⟦<OneOf<Location, WorkspaceLocation> as Clone>⟧.is_clone x.location y.location
        × ⟦<Option<LSPAny> as Clone>⟧.is_clone x.payload y.payload };

    fn clone(&self) -> Result<WorkspaceSymbol, AllocError> {
        let mut copies = Copies::new();
        let copy = WorkspaceSymbol {
            name: self.name.clone()?,
            kind: self.kind,
            tags: copies.optional(&self.tags),
            container_name: copies.optional(&self.container_name),
            location: self.location.clone()?,
            payload: copies.optional(&self.payload),
        };
        copies.end(copy)
    }
}

#[tactic(auto, unfolding(crate::specs::Symbols::workspace_symbol_row))]
impl Wire for WorkspaceSymbol {
    ghost shape = { workspace_symbol_row.shape };

    ghost shown = { workspace_symbol_row.shown };

    fn from_value(alloc: Global, value: &Value) -> Result<WorkspaceSymbol, Misfit> {
        let (name, kind, tags, container_name, location, payload) = read_object(
            alloc,
            value,
            (
                Required("name"),
                Required("kind"),
                Optional("tags"),
                Optional("containerName"),
                Required("location"),
                Optional("data"),
            ),
        )?;
        Ok(WorkspaceSymbol {
            name,
            kind,
            tags,
            container_name,
            location,
            payload,
        })
    }

    fn to_value(&self, alloc: Global) -> Result<Value, NoMemory> {
        let mut object = Writer::new(alloc);
        object.field("name", &self.name);
        object.field("kind", &self.kind);
        object.optional("tags", &self.tags);
        object.optional("containerName", &self.container_name);
        object.field("location", &self.location);
        object.optional("data", &self.payload);
        object.end()
    }
}

/// The document of a symbol, without a range: the location of a `WorkspaceSymbol` that isn't
/// resolved yet, since 3.17 (LSP 3.17, "Workspace Symbols Request").
#[derive(Debug, PartialEq, Eq, Clone, Drop)]
pub struct WorkspaceLocation {
    /// The document that contains the symbol.
    pub uri: Uri,
}

#[tactic(auto, unfolding(crate::specs::Symbols::workspace_location_row))]
impl Wire for WorkspaceLocation {
    ghost shape = { workspace_location_row.shape };

    ghost shown = { workspace_location_row.shown };

    fn from_value(alloc: Global, value: &Value) -> Result<WorkspaceLocation, Misfit> {
        let uri = read_object(alloc, value, Required("uri"))?;
        Ok(WorkspaceLocation { uri })
    }

    fn to_value(&self, alloc: Global) -> Result<Value, NoMemory> {
        let mut object = Writer::new(alloc);
        object.field("uri", &self.uri);
        object.end()
    }
}
