// Hierarchies of types.
ghost use Rattle.lsp_lang_goto.specs.Types.{type_hierarchy_prepare_params_row, type_hierarchy_supertypes_params_row, type_hierarchy_subtypes_params_row, type_hierarchy_item_row};

use lsp_base::{
    LSPAny, PartialResultParams, Range, TextDocumentPositionParams, WorkDoneProgressParams,
};
use lsp_kinds::{SymbolKind, SymbolTag};
use lsp_shape::{
    Copies, Flat, Misfit, NoMemory, Optional, Required, Wire, Writer, flat, read_object,
};
use lsp_uri::Uri;
use serde_json::Value;
use std::alloc::{AllocError, Global};

/// Parameters of `textDocument/prepareTypeHierarchy`: the type whose supertypes or subtypes the
/// user wants to explore, since 3.17 (LSP 3.17, "Prepare Type Hierarchy Request").
#[derive(Debug, PartialEq, Eq, Clone, Drop)]
pub struct TypeHierarchyPrepareParams {
    /// The document and a position on the type, usually that of the cursor.
    pub text_document_position_params: TextDocumentPositionParams,
    /// The token for progress reports on this request, if the client sent one.
    pub work_done_progress_params: WorkDoneProgressParams,
}

#[tactic(auto, unfolding(crate::specs::Types::type_hierarchy_prepare_params_row, lsp_base::specs::Document::text_document_position_params_row, lsp_base::specs::Progress::work_done_progress_params_row))]
impl Wire for TypeHierarchyPrepareParams {
    ghost shape = { type_hierarchy_prepare_params_row.shape };

    ghost shown = { type_hierarchy_prepare_params_row.shown };

    fn from_value(alloc: Global, value: &Value) -> Result<TypeHierarchyPrepareParams, Misfit> {
        Ok(TypeHierarchyPrepareParams {
            text_document_position_params: flat(alloc, value)?,
            work_done_progress_params: flat(alloc, value)?,
        })
    }

    fn to_value(&self, alloc: Global) -> Result<Value, NoMemory> {
        let mut object = Writer::new(alloc);
        object.flat(&self.text_document_position_params);
        object.flat(&self.work_done_progress_params);
        object.end()
    }
}

/// Parameters of `typeHierarchy/supertypes`: the type whose supertypes are wanted, since 3.17 (LSP
/// 3.17, "Type Hierarchy Supertypes").
#[derive(Debug, PartialEq, Clone, Drop)]
pub struct TypeHierarchySupertypesParams {
    /// The type, as an item that the server returned earlier.
    pub item: TypeHierarchyItem,
    /// The token for progress reports on this request, if the client sent one.
    pub work_done_progress_params: WorkDoneProgressParams,
    /// The token for sending the supertypes in `$/progress` notifications, with an empty response
    /// after them, if the client sent one.
    pub partial_result_params: PartialResultParams,
}

#[tactic(auto, unfolding(crate::specs::Types::type_hierarchy_supertypes_params_row, lsp_base::specs::Progress::work_done_progress_params_row, lsp_base::specs::Progress::partial_result_params_row))]
impl Wire for TypeHierarchySupertypesParams {
    ghost shape = { type_hierarchy_supertypes_params_row.shape };

    ghost shown = { type_hierarchy_supertypes_params_row.shown };

    fn from_value(alloc: Global, value: &Value) -> Result<TypeHierarchySupertypesParams, Misfit> {
        let (item, work_done_progress_params, partial_result_params) = read_object(
            alloc,
            value,
            (Required("item"), Flat, Flat),
        )?;
        Ok(TypeHierarchySupertypesParams {
            item,
            work_done_progress_params,
            partial_result_params,
        })
    }

    fn to_value(&self, alloc: Global) -> Result<Value, NoMemory> {
        let mut object = Writer::new(alloc);
        object.field("item", &self.item);
        object.flat(&self.work_done_progress_params);
        object.flat(&self.partial_result_params);
        object.end()
    }
}

/// Parameters of `typeHierarchy/subtypes`: the type whose subtypes are wanted, since 3.17 (LSP
/// 3.17, "Type Hierarchy Subtypes").
#[derive(Debug, PartialEq, Clone, Drop)]
pub struct TypeHierarchySubtypesParams {
    /// The type, as an item that the server returned earlier.
    pub item: TypeHierarchyItem,
    /// The token for progress reports on this request, if the client sent one.
    pub work_done_progress_params: WorkDoneProgressParams,
    /// The token for sending the subtypes in `$/progress` notifications, with an empty response
    /// after them, if the client sent one.
    pub partial_result_params: PartialResultParams,
}

#[tactic(auto, unfolding(crate::specs::Types::type_hierarchy_subtypes_params_row, lsp_base::specs::Progress::work_done_progress_params_row, lsp_base::specs::Progress::partial_result_params_row))]
impl Wire for TypeHierarchySubtypesParams {
    ghost shape = { type_hierarchy_subtypes_params_row.shape };

    ghost shown = { type_hierarchy_subtypes_params_row.shown };

    fn from_value(alloc: Global, value: &Value) -> Result<TypeHierarchySubtypesParams, Misfit> {
        let (item, work_done_progress_params, partial_result_params) = read_object(
            alloc,
            value,
            (Required("item"), Flat, Flat),
        )?;
        Ok(TypeHierarchySubtypesParams {
            item,
            work_done_progress_params,
            partial_result_params,
        })
    }

    fn to_value(&self, alloc: Global) -> Result<Value, NoMemory> {
        let mut object = Writer::new(alloc);
        object.field("item", &self.item);
        object.flat(&self.work_done_progress_params);
        object.flat(&self.partial_result_params);
        object.end()
    }
}

/// A type in a hierarchy of types. The server returns it for `textDocument/prepareTypeHierarchy`,
/// and the client sends it back to ask for its supertypes or subtypes; since 3.17 (LSP 3.17,
/// "Prepare Type Hierarchy Request").
#[derive(Debug, PartialEq, Drop)]
pub struct TypeHierarchyItem {
    /// What the client shows for the type, usually its identifier.
    pub name: String,
    /// What sort of type it is, such as a class or an interface. Clients usually show it as an
    /// icon.
    pub kind: SymbolKind,
    /// Marks on the type, such as `SymbolTag::DEPRECATED`.
    pub tags: Option<Vec<SymbolTag>>,
    /// More text for the user, such as the type parameters.
    pub detail: Option<String>,
    /// The document that contains the type.
    pub uri: Uri,
    /// The whole type, including its body and its comments, but no whitespace around it.
    pub range: Range,
    /// What to select when the user goes to the type, usually its name. It must lie within `range`.
    pub selection_range: Range,
    /// Any value, sent as the member `data`. The client returns it unchanged in
    /// `typeHierarchy/supertypes` and `typeHierarchy/subtypes`.
    pub payload: Option<LSPAny>,
}

impl Clone for TypeHierarchyItem {
    ghost is_clone = { λ x y. ⟦<String as Clone>⟧.is_clone x.name y.name
        × ⟦<SymbolKind as Clone>⟧.is_clone x.kind y.kind
        × ⟦<Option<Vec<SymbolTag>> as Clone>⟧.is_clone x.tags y.tags
        × ⟦<Option<String> as Clone>⟧.is_clone x.detail y.detail
        × ⟦<Uri as Clone>⟧.is_clone x.uri y.uri
        × ⟦<Range as Clone>⟧.is_clone x.range y.range
        × ⟦<Range as Clone>⟧.is_clone x.selection_range y.selection_range
        × ⟦<Option<LSPAny> as Clone>⟧.is_clone x.payload y.payload };

    fn clone(&self) -> Result<TypeHierarchyItem, AllocError> {
        let mut copies = Copies::new();
        let copy = TypeHierarchyItem {
            name: self.name.clone()?,
            kind: self.kind,
            tags: copies.optional(&self.tags),
            detail: copies.optional(&self.detail),
            uri: self.uri.clone()?,
            range: self.range,
            selection_range: self.selection_range,
            payload: copies.optional(&self.payload),
        };
        copies.end(copy)
    }
}

#[tactic(auto, unfolding(crate::specs::Types::type_hierarchy_item_row))]
impl Wire for TypeHierarchyItem {
    ghost shape = { type_hierarchy_item_row.shape };

    ghost shown = { type_hierarchy_item_row.shown };

    fn from_value(alloc: Global, value: &Value) -> Result<TypeHierarchyItem, Misfit> {
        let ((name, kind, tags, detail), (uri, range, selection_range, payload)) = read_object(
            alloc,
            value,
            (
                (
                    Required("name"),
                    Required("kind"),
                    Optional("tags"),
                    Optional("detail"),
                ),
                (
                    Required("uri"),
                    Required("range"),
                    Required("selectionRange"),
                    Optional("data"),
                ),
            ),
        )?;
        Ok(TypeHierarchyItem {
            name,
            kind,
            tags,
            detail,
            uri,
            range,
            selection_range,
            payload,
        })
    }

    fn to_value(&self, alloc: Global) -> Result<Value, NoMemory> {
        let mut object = Writer::new(alloc);
        object.field("name", &self.name);
        object.field("kind", &self.kind);
        object.optional("tags", &self.tags);
        object.optional("detail", &self.detail);
        object.field("uri", &self.uri);
        object.field("range", &self.range);
        object.field("selectionRange", &self.selection_range);
        object.optional("data", &self.payload);
        object.end()
    }
}
