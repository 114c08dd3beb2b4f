// Ranges that can be selected, and ranges that are edited together.
ghost use Rattle.lsp_tokens.specs.Selection.{selection_range_params_row, linked_editing_range_params_row, linked_editing_ranges_row};

use lsp_base::{
    PartialResultParams, Position, Range, TextDocumentIdentifier, TextDocumentPositionParams,
    WorkDoneProgressParams,
};
use lsp_shape::{Flat, Misfit, NoMemory, Optional, Required, Wire, Writer, flat, read_object};
use serde_json::Value;
use std::alloc::Global;

/// The parameters of a `textDocument/selectionRange` request, which asks how the selection can grow
/// from each of several positions. Since 3.15 (LSP 3.17, "Selection Range Request").
#[derive(Debug, PartialEq, Eq, Clone, Drop)]
pub struct SelectionRangeParams {
    /// The document to find selection ranges in.
    pub text_document: TextDocumentIdentifier,
    /// The zero-based positions, often those of several cursors. The result has a `SelectionRange`
    /// for each, in the same order; for a position without one, an empty range there.
    pub positions: Vec<Position>,
    /// The token, chosen by the client, under which the server may report work done progress with
    /// `$/progress`. Absent: the client asks for none. Since 3.15.
    pub work_done_progress_params: WorkDoneProgressParams,
    /// The token for sending the result in parts, as arrays of `SelectionRange` in `$/progress`
    /// notifications, with an empty response after them. Absent: the response has the whole result.
    pub partial_result_params: PartialResultParams,
}

#[tactic(auto, unfolding(crate::specs::Selection::selection_range_params_row, lsp_base::specs::Progress::work_done_progress_params_row, lsp_base::specs::Progress::partial_result_params_row))]
impl Wire for SelectionRangeParams {
    ghost shape = { selection_range_params_row.shape };

    ghost shown = { selection_range_params_row.shown };

    fn from_value(alloc: Global, value: &Value) -> Result<SelectionRangeParams, Misfit> {
        let (text_document, positions, work_done_progress_params, partial_result_params) =
            read_object(
                alloc,
                value,
                (Required("textDocument"), Required("positions"), Flat, Flat),
            )?;
        Ok(SelectionRangeParams {
            text_document,
            positions,
            work_done_progress_params,
            partial_result_params,
        })
    }

    fn to_value(&self, alloc: Global) -> Result<Value, NoMemory> {
        let mut object = Writer::new(alloc);
        object.field("textDocument", &self.text_document);
        object.field("positions", &self.positions);
        object.flat(&self.work_done_progress_params);
        object.flat(&self.partial_result_params);
        object.end()
    }
}

/// The parameters of a `textDocument/linkedEditingRange` request, which asks for the ranges that
/// change together with the text at a position. Since 3.16 (LSP 3.17, "Linked Editing Range").
#[derive(Debug, PartialEq, Eq, Clone, Drop)]
pub struct LinkedEditingRangeParams {
    /// The document, and the position of the text that the user may edit.
    pub text_document_position_params: TextDocumentPositionParams,
    /// The token, chosen by the client, under which the server may report work done progress with
    /// `$/progress`. Absent: the client asks for none. Since 3.15.
    pub work_done_progress_params: WorkDoneProgressParams,
}

#[tactic(auto, unfolding(crate::specs::Selection::linked_editing_range_params_row, lsp_base::specs::Document::text_document_position_params_row, lsp_base::specs::Progress::work_done_progress_params_row))]
impl Wire for LinkedEditingRangeParams {
    ghost shape = { linked_editing_range_params_row.shape };

    ghost shown = { linked_editing_range_params_row.shown };

    fn from_value(alloc: Global, value: &Value) -> Result<LinkedEditingRangeParams, Misfit> {
        Ok(LinkedEditingRangeParams {
            text_document_position_params: flat(alloc, value)?,
            work_done_progress_params: flat(alloc, value)?,
        })
    }

    fn to_value(&self, alloc: Global) -> Result<Value, NoMemory> {
        let mut object = Writer::new(alloc);
        object.flat(&self.text_document_position_params);
        object.flat(&self.work_done_progress_params);
        object.end()
    }
}

/// The result of a `textDocument/linkedEditingRange` request: ranges that the client edits as one,
/// such as the names in a start tag and its end tag. If there are none, the result is null instead.
/// Since 3.16 (LSP 3.17, "Linked Editing Range").
#[derive(Debug, PartialEq, Eq, Clone, Drop)]
pub struct LinkedEditingRanges {
    /// The ranges. All have the same length and the same text, and none overlaps another.
    pub ranges: Vec<Range>,
    /// A regular expression for what the ranges may contain. Absent: the client uses the word
    /// pattern of its configuration.
    pub word_pattern: Option<String>,
}

#[tactic(auto, unfolding(crate::specs::Selection::linked_editing_ranges_row))]
impl Wire for LinkedEditingRanges {
    ghost shape = { linked_editing_ranges_row.shape };

    ghost shown = { linked_editing_ranges_row.shown };

    fn from_value(alloc: Global, value: &Value) -> Result<LinkedEditingRanges, Misfit> {
        let (ranges, word_pattern) = read_object(
            alloc,
            value,
            (Required("ranges"), Optional("wordPattern")),
        )?;
        Ok(LinkedEditingRanges {
            ranges,
            word_pattern,
        })
    }

    fn to_value(&self, alloc: Global) -> Result<Value, NoMemory> {
        let mut object = Writer::new(alloc);
        object.field("ranges", &self.ranges);
        object.optional("wordPattern", &self.word_pattern);
        object.end()
    }
}
