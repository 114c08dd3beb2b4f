// Parameters of a request on a place.
ghost use Rattle.lsp_lang_goto.specs.Generic.{generic_params_row};

use lsp_base::{PartialResultParams, TextDocumentPositionParams, WorkDoneProgressParams};
use lsp_shape::{Misfit, NoMemory, Reader, Wire, Writer, flat};
use serde_json::Value;
use std::alloc::Global;

/// Parameters of a request on a position in a document, for methods beyond LSP 3.17. No method of
/// the standard is declared with this type.
#[derive(Debug, PartialEq, Eq, Clone, Drop)]
pub struct GenericParams {
    /// The document and the position in it.
    pub text_document_position_params: TextDocumentPositionParams,
    /// The token for progress reports on this request, if the client sent one.
    pub work_done_progress_params: WorkDoneProgressParams,
    /// The token for sending the result in parts in `$/progress` notifications, with an empty
    /// response after them, if the client sent one.
    pub partial_result_params: PartialResultParams,
}

#[tactic(auto, unfolding(crate::specs::Generic::generic_params_row, lsp_base::specs::Document::text_document_position_params_row, lsp_base::specs::Progress::work_done_progress_params_row, lsp_base::specs::Progress::partial_result_params_row))]
impl Wire for GenericParams {
    ghost shape = { generic_params_row.shape };

    ghost shown = { generic_params_row.shown };

    fn from_value(alloc: Global, value: &Value) -> Result<GenericParams, Misfit> {
        Ok(GenericParams {
            text_document_position_params: flat(alloc, value)?,
            work_done_progress_params: flat(alloc, value)?,
            partial_result_params: flat(alloc, value)?,
        })
    }

    fn to_value(&self, alloc: Global) -> Result<Value, NoMemory> {
        let mut object = Writer::new(alloc);
        object.flat(&self.text_document_position_params);
        object.flat(&self.work_done_progress_params);
        object.flat(&self.partial_result_params);
        object.end()
    }
}
