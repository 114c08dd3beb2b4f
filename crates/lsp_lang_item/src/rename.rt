// Renaming.
ghost use Rattle.lsp_lang_item.specs.Rename.{rename_params_row, prepare_rename_response_range_with_placeholder_row, prepare_rename_response_default_behavior_row, prepare_rename_response_row};

use lsp_base::{Range, TextDocumentPositionParams, WorkDoneProgressParams};
use lsp_shape::{Flat, Misfit, NoMemory, Required, Wire, Writer, attempt, flat, form, read_object};
use serde_json::Value;
use std::alloc::Global;

/// Parameters of `textDocument/rename`: the symbol to rename in the whole workspace, and its new
/// name (LSP 3.17, "Rename Request").
#[derive(Debug, PartialEq, Eq, Clone, Drop)]
pub struct RenameParams {
    /// The document and a position on the symbol.
    pub text_document_position: TextDocumentPositionParams,
    /// What the symbol should be called. If that isn't a valid name, the server responds with an
    /// error.
    pub new_name: String,
    /// The token for progress reports on this request, if the client sent one.
    pub work_done_progress_params: WorkDoneProgressParams,
}

#[tactic(auto, unfolding(crate::specs::Rename::rename_params_row, lsp_base::specs::Document::text_document_position_params_row, lsp_base::specs::Progress::work_done_progress_params_row))]
impl Wire for RenameParams {
    ghost shape = { rename_params_row.shape };

    ghost shown = { rename_params_row.shown };

    fn from_value(alloc: Global, value: &Value) -> Result<RenameParams, Misfit> {
        let (text_document_position, new_name, work_done_progress_params) = read_object(
            alloc,
            value,
            (Flat, Required("newName"), Flat),
        )?;
        Ok(RenameParams {
            text_document_position,
            new_name,
            work_done_progress_params,
        })
    }

    fn to_value(&self, alloc: Global) -> Result<Value, NoMemory> {
        let mut object = Writer::new(alloc);
        object.flat(&self.text_document_position);
        object.field("newName", &self.new_name);
        object.flat(&self.work_done_progress_params);
        object.end()
    }
}

/// Result of `textDocument/prepareRename`: what would be renamed at the position of the request,
/// since 3.12. If nothing can be renamed there, the result is null instead (LSP 3.17, "Prepare
/// Rename Request").
#[derive(Debug, PartialEq, Eq, Clone, Drop)]
pub enum PrepareRenameResponse {
    /// The range of the name to replace. The user starts from the text in it.
    Range(Range),
    /// The range of the name to replace, with another text for the user to start from.
    RangeWithPlaceholder {
        /// The range of the name in the document.
        range: Range,
        /// The text that the user starts from.
        placeholder: String,
    },
    /// There is something to rename, and the client finds its range by itself. Only for clients
    /// with `textDocument.rename.prepareSupportDefaultBehavior`, since 3.16.
    DefaultBehavior {
        /// Normally true. LSP 3.17 gives false no meaning of its own.
        default_behavior: bool,
    },
}

// The fields of `PrepareRenameResponse::RangeWithPlaceholder`.
#[derive(Drop)]
struct PrepareRenameResponseRangeWithPlaceholder {
    range: Range,
    placeholder: String,
}

#[tactic(auto, unfolding(crate::specs::Rename::prepare_rename_response_range_with_placeholder_row))]
impl Wire for PrepareRenameResponseRangeWithPlaceholder {
    ghost shape = { prepare_rename_response_range_with_placeholder_row.shape };

    ghost shown = { prepare_rename_response_range_with_placeholder_row.shown };

    fn from_value(
        alloc: Global,
        value: &Value,
    ) -> Result<PrepareRenameResponseRangeWithPlaceholder, Misfit> {
        let (range, placeholder) = read_object(
            alloc,
            value,
            (Required("range"), Required("placeholder")),
        )?;
        Ok(PrepareRenameResponseRangeWithPlaceholder { range, placeholder })
    }

    fn to_value(&self, alloc: Global) -> Result<Value, NoMemory> {
        let mut object = Writer::new(alloc);
        object.field("range", &self.range);
        object.field("placeholder", &self.placeholder);
        object.end()
    }
}

// The fields of `PrepareRenameResponse::DefaultBehavior`.
#[derive(Drop)]
struct PrepareRenameResponseDefaultBehavior {
    default_behavior: bool,
}

#[tactic(auto, unfolding(crate::specs::Rename::prepare_rename_response_default_behavior_row))]
impl Wire for PrepareRenameResponseDefaultBehavior {
    ghost shape = { prepare_rename_response_default_behavior_row.shape };

    ghost shown = { prepare_rename_response_default_behavior_row.shown };

    fn from_value(
        alloc: Global,
        value: &Value,
    ) -> Result<PrepareRenameResponseDefaultBehavior, Misfit> {
        let default_behavior = read_object(alloc, value, Required("defaultBehavior"))?;
        Ok(PrepareRenameResponseDefaultBehavior { default_behavior })
    }

    fn to_value(&self, alloc: Global) -> Result<Value, NoMemory> {
        let mut object = Writer::new(alloc);
        object.field("defaultBehavior", &self.default_behavior);
        object.end()
    }
}

#[tactic(auto, unfolding(crate::specs::Rename::prepare_rename_response_row, crate::specs::Rename::prepare_rename_response_range_with_placeholder_row, crate::specs::Rename::prepare_rename_response_default_behavior_row))]
impl Wire for PrepareRenameResponse {
    ghost shape = { prepare_rename_response_row.shape };

    ghost shown = { prepare_rename_response_row.shown };

    fn from_value(alloc: Global, value: &Value) -> Result<PrepareRenameResponse, Misfit> {
        if let Some(range) = attempt(alloc, value)? {
            return Ok(PrepareRenameResponse::Range(range));
        }
        if let Some(x) = attempt::<PrepareRenameResponseRangeWithPlaceholder>(alloc, value)? {
            return Ok(PrepareRenameResponse::RangeWithPlaceholder {
                range: x.range,
                placeholder: x.placeholder,
            });
        }
        let behavior = form::<PrepareRenameResponseDefaultBehavior>(alloc, value)?;
        Ok(PrepareRenameResponse::DefaultBehavior {
            default_behavior: behavior.default_behavior,
        })
    }

    fn to_value(&self, alloc: Global) -> Result<Value, NoMemory> {
        match self {
            PrepareRenameResponse::Range(range) => range.to_value(alloc),
            PrepareRenameResponse::RangeWithPlaceholder { range, placeholder } => {
                let mut object = Writer::new(alloc);
                object.field("range", range);
                object.field("placeholder", placeholder);
                object.end()
            }
            PrepareRenameResponse::DefaultBehavior { default_behavior } => {
                let mut object = Writer::new(alloc);
                object.field("defaultBehavior", default_behavior);
                object.end()
            }
        }
    }
}
