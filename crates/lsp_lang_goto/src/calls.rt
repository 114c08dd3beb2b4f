// Hierarchies of calls.
ghost use Rattle.lsp_lang_goto.specs.Calls.{call_hierarchy_prepare_params_row, call_hierarchy_item_row, call_hierarchy_incoming_calls_params_row, call_hierarchy_incoming_call_row, call_hierarchy_outgoing_calls_params_row, call_hierarchy_outgoing_call_row};

use lsp_base::{PartialResultParams, Range, TextDocumentPositionParams, WorkDoneProgressParams};
use lsp_kinds::{SymbolKind, SymbolTag};
use lsp_shape::{
    Copies, Flat, Misfit, NoMemory, Optional, Required, Wire, Writer, flat, read_object,
};
use lsp_uri::Uri;
use serde_json::Value;
use std::alloc::{AllocError, Global};

/// Parameters of `textDocument/prepareCallHierarchy`: the symbol whose callers or callees the user
/// wants to explore, since 3.16 (LSP 3.17, "Prepare Call Hierarchy Request").
#[derive(Debug, PartialEq, Eq, Clone, Drop)]
pub struct CallHierarchyPrepareParams {
    /// The document and a position on the symbol, usually that of the cursor.
    pub text_document_position_params: TextDocumentPositionParams,
    /// The token for progress reports on this request, if the client sent one.
    pub work_done_progress_params: WorkDoneProgressParams,
}

#[tactic(auto, unfolding(crate::specs::Calls::call_hierarchy_prepare_params_row, lsp_base::specs::Document::text_document_position_params_row, lsp_base::specs::Progress::work_done_progress_params_row))]
impl Wire for CallHierarchyPrepareParams {
    ghost shape = { call_hierarchy_prepare_params_row.shape };

    ghost shown = { call_hierarchy_prepare_params_row.shown };

    fn from_value(alloc: Global, value: &Value) -> Result<CallHierarchyPrepareParams, Misfit> {
        Ok(CallHierarchyPrepareParams {
            text_document_position_params: flat(alloc, value)?,
            work_done_progress_params: flat(alloc, value)?,
        })
    }

    fn to_value(&self, alloc: Global) -> Result<Value, NoMemory> {
        let mut object = Writer::new(alloc);
        object.flat(&self.text_document_position_params);
        object.flat(&self.work_done_progress_params);
        object.end()
    }
}

/// A function or another symbol in a hierarchy of calls. The server returns it for
/// `textDocument/prepareCallHierarchy`, and the client sends it back to ask for its callers or
/// callees; since 3.16 (LSP 3.17, "Prepare Call Hierarchy Request").
#[derive(Debug, PartialEq, Drop)]
pub struct CallHierarchyItem {
    /// What the client shows for the symbol, usually its identifier.
    pub name: String,
    /// What sort of symbol it is, such as a function or a method. Clients usually show it as an
    /// icon.
    pub kind: SymbolKind,
    /// Marks on the symbol, such as `SymbolTag::DEPRECATED`.
    pub tags: Option<Vec<SymbolTag>>,
    /// More text for the user, such as the parameters of a function.
    pub detail: Option<String>,
    /// The document that contains the symbol.
    pub uri: Uri,
    /// The whole symbol, including its body and its comments, but no whitespace around it.
    pub range: Range,
    /// What to select when the user goes to the symbol, usually its name. It must lie within
    /// `range`.
    pub selection_range: Range,
    /// Any value, sent as the member `data`. The client returns it unchanged in
    /// `callHierarchy/incomingCalls` and `callHierarchy/outgoingCalls`.
    pub payload: Option<Value>,
}

impl Clone for CallHierarchyItem {
    ghost is_clone = { λ x y. ⟦<String as Clone>⟧.is_clone x.name y.name
        × ⟦<SymbolKind as Clone>⟧.is_clone x.kind y.kind
        × ⟦<Option<Vec<SymbolTag>> as Clone>⟧.is_clone x.tags y.tags
        × ⟦<Option<String> as Clone>⟧.is_clone x.detail y.detail
        × ⟦<Uri as Clone>⟧.is_clone x.uri y.uri
        × ⟦<Range as Clone>⟧.is_clone x.range y.range
        × ⟦<Range as Clone>⟧.is_clone x.selection_range y.selection_range
        × ⟦<Option<Value> as Clone>⟧.is_clone x.payload y.payload };

    fn clone(&self) -> Result<CallHierarchyItem, AllocError> {
        let mut copies = Copies::new();
        let copy = CallHierarchyItem {
            name: self.name.clone()?,
            kind: self.kind,
            tags: copies.optional(&self.tags),
            detail: copies.optional(&self.detail),
            uri: self.uri.clone()?,
            range: self.range,
            selection_range: self.selection_range,
            payload: copies.optional(&self.payload),
        };
        copies.end(copy)
    }
}

#[tactic(auto, unfolding(crate::specs::Calls::call_hierarchy_item_row))]
impl Wire for CallHierarchyItem {
    ghost shape = { call_hierarchy_item_row.shape };

    ghost shown = { call_hierarchy_item_row.shown };

    fn from_value(alloc: Global, value: &Value) -> Result<CallHierarchyItem, Misfit> {
        let ((name, kind, tags, detail), (uri, range, selection_range, payload)) = read_object(
            alloc,
            value,
            (
                (
                    Required("name"),
                    Required("kind"),
                    Optional("tags"),
                    Optional("detail"),
                ),
                (
                    Required("uri"),
                    Required("range"),
                    Required("selectionRange"),
                    Optional("data"),
                ),
            ),
        )?;
        Ok(CallHierarchyItem {
            name,
            kind,
            tags,
            detail,
            uri,
            range,
            selection_range,
            payload,
        })
    }

    fn to_value(&self, alloc: Global) -> Result<Value, NoMemory> {
        let mut object = Writer::new(alloc);
        object.field("name", &self.name);
        object.field("kind", &self.kind);
        object.optional("tags", &self.tags);
        object.optional("detail", &self.detail);
        object.field("uri", &self.uri);
        object.field("range", &self.range);
        object.field("selectionRange", &self.selection_range);
        object.optional("data", &self.payload);
        object.end()
    }
}

/// Parameters of `callHierarchy/incomingCalls`: the symbol whose callers are wanted, since 3.16
/// (LSP 3.17, "Call Hierarchy Incoming Calls").
#[derive(Debug, PartialEq, Clone, Drop)]
pub struct CallHierarchyIncomingCallsParams {
    /// The called symbol, as an item that the server returned earlier.
    pub item: CallHierarchyItem,
    /// The token for progress reports on this request, if the client sent one.
    pub work_done_progress_params: WorkDoneProgressParams,
    /// The token for sending the callers in `$/progress` notifications, with an empty response
    /// after them, if the client sent one.
    pub partial_result_params: PartialResultParams,
}

#[tactic(auto, unfolding(crate::specs::Calls::call_hierarchy_incoming_calls_params_row, lsp_base::specs::Progress::work_done_progress_params_row, lsp_base::specs::Progress::partial_result_params_row))]
impl Wire for CallHierarchyIncomingCallsParams {
    ghost shape = { call_hierarchy_incoming_calls_params_row.shape };

    ghost shown = { call_hierarchy_incoming_calls_params_row.shown };

    fn from_value(
        alloc: Global,
        value: &Value,
    ) -> Result<CallHierarchyIncomingCallsParams, Misfit> {
        let (item, work_done_progress_params, partial_result_params) = read_object(
            alloc,
            value,
            (Required("item"), Flat, Flat),
        )?;
        Ok(CallHierarchyIncomingCallsParams {
            item,
            work_done_progress_params,
            partial_result_params,
        })
    }

    fn to_value(&self, alloc: Global) -> Result<Value, NoMemory> {
        let mut object = Writer::new(alloc);
        object.field("item", &self.item);
        object.flat(&self.work_done_progress_params);
        object.flat(&self.partial_result_params);
        object.end()
    }
}

/// A caller and the places where it makes the call: an entry of the result of
/// `callHierarchy/incomingCalls`, since 3.16 (LSP 3.17, "Call Hierarchy Incoming Calls").
#[derive(Debug, PartialEq, Clone, Drop)]
pub struct CallHierarchyIncomingCall {
    /// The calling symbol.
    pub from: CallHierarchyItem,
    /// Where the calls are, as ranges in the document of the caller, `from`.
    pub from_ranges: Vec<Range>,
}

#[tactic(auto, unfolding(crate::specs::Calls::call_hierarchy_incoming_call_row))]
impl Wire for CallHierarchyIncomingCall {
    ghost shape = { call_hierarchy_incoming_call_row.shape };

    ghost shown = { call_hierarchy_incoming_call_row.shown };

    fn from_value(alloc: Global, value: &Value) -> Result<CallHierarchyIncomingCall, Misfit> {
        let (from, from_ranges) = read_object(
            alloc,
            value,
            (Required("from"), Required("fromRanges")),
        )?;
        Ok(CallHierarchyIncomingCall { from, from_ranges })
    }

    fn to_value(&self, alloc: Global) -> Result<Value, NoMemory> {
        let mut object = Writer::new(alloc);
        object.field("from", &self.from);
        object.field("fromRanges", &self.from_ranges);
        object.end()
    }
}

/// Parameters of `callHierarchy/outgoingCalls`: the symbol whose callees are wanted, since 3.16
/// (LSP 3.17, "Call Hierarchy Outgoing Calls").
#[derive(Debug, PartialEq, Clone, Drop)]
pub struct CallHierarchyOutgoingCallsParams {
    /// The calling symbol, as an item that the server returned earlier.
    pub item: CallHierarchyItem,
    /// The token for progress reports on this request, if the client sent one.
    pub work_done_progress_params: WorkDoneProgressParams,
    /// The token for sending the callees in `$/progress` notifications, with an empty response
    /// after them, if the client sent one.
    pub partial_result_params: PartialResultParams,
}

#[tactic(auto, unfolding(crate::specs::Calls::call_hierarchy_outgoing_calls_params_row, lsp_base::specs::Progress::work_done_progress_params_row, lsp_base::specs::Progress::partial_result_params_row))]
impl Wire for CallHierarchyOutgoingCallsParams {
    ghost shape = { call_hierarchy_outgoing_calls_params_row.shape };

    ghost shown = { call_hierarchy_outgoing_calls_params_row.shown };

    fn from_value(
        alloc: Global,
        value: &Value,
    ) -> Result<CallHierarchyOutgoingCallsParams, Misfit> {
        let (item, work_done_progress_params, partial_result_params) = read_object(
            alloc,
            value,
            (Required("item"), Flat, Flat),
        )?;
        Ok(CallHierarchyOutgoingCallsParams {
            item,
            work_done_progress_params,
            partial_result_params,
        })
    }

    fn to_value(&self, alloc: Global) -> Result<Value, NoMemory> {
        let mut object = Writer::new(alloc);
        object.field("item", &self.item);
        object.flat(&self.work_done_progress_params);
        object.flat(&self.partial_result_params);
        object.end()
    }
}

/// A callee and the places where it is called: an entry of the result of
/// `callHierarchy/outgoingCalls`, since 3.16 (LSP 3.17, "Call Hierarchy Outgoing Calls").
#[derive(Debug, PartialEq, Clone, Drop)]
pub struct CallHierarchyOutgoingCall {
    /// The called symbol.
    pub to: CallHierarchyItem,
    /// Where the calls are, as ranges in the document of the caller, which is the item of the
    /// request, and not in that of `to`.
    pub from_ranges: Vec<Range>,
}

#[tactic(auto, unfolding(crate::specs::Calls::call_hierarchy_outgoing_call_row))]
impl Wire for CallHierarchyOutgoingCall {
    ghost shape = { call_hierarchy_outgoing_call_row.shape };

    ghost shown = { call_hierarchy_outgoing_call_row.shown };

    fn from_value(alloc: Global, value: &Value) -> Result<CallHierarchyOutgoingCall, Misfit> {
        let (to, from_ranges) = read_object(
            alloc,
            value,
            (Required("to"), Required("fromRanges")),
        )?;
        Ok(CallHierarchyOutgoingCall { to, from_ranges })
    }

    fn to_value(&self, alloc: Global) -> Result<Value, NoMemory> {
        let mut object = Writer::new(alloc);
        object.field("to", &self.to);
        object.field("fromRanges", &self.from_ranges);
        object.end()
    }
}
