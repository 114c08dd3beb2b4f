// Colors.
ghost use Rattle.lsp_lang_goto.specs.Color.{document_color_params_row};

use lsp_base::{PartialResultParams, TextDocumentIdentifier, WorkDoneProgressParams};
use lsp_shape::{Flat, Misfit, NoMemory, Required, Wire, Writer, flat, read_object};
use serde_json::Value;
use std::alloc::Global;

/// Parameters of `textDocument/documentColor`: the document whose color values are wanted, since
/// 3.6 (LSP 3.17, "Document Color Request").
#[derive(Debug, PartialEq, Eq, Clone, Drop)]
pub struct DocumentColorParams {
    /// The document to find colors in.
    pub text_document: TextDocumentIdentifier,
    /// The token for progress reports on this request, if the client sent one.
    pub work_done_progress_params: WorkDoneProgressParams,
    /// The token for sending the colors in `$/progress` notifications, with an empty response after
    /// them, if the client sent one.
    pub partial_result_params: PartialResultParams,
}

#[tactic(auto, unfolding(crate::specs::Color::document_color_params_row, lsp_base::specs::Progress::work_done_progress_params_row, lsp_base::specs::Progress::partial_result_params_row))]
impl Wire for DocumentColorParams {
    ghost shape = { document_color_params_row.shape };

    ghost shown = { document_color_params_row.shown };

    fn from_value(alloc: Global, value: &Value) -> Result<DocumentColorParams, Misfit> {
        let (text_document, work_done_progress_params, partial_result_params) = read_object(
            alloc,
            value,
            (Required("textDocument"), Flat, Flat),
        )?;
        Ok(DocumentColorParams {
            text_document,
            work_done_progress_params,
            partial_result_params,
        })
    }

    fn to_value(&self, alloc: Global) -> Result<Value, NoMemory> {
        let mut object = Writer::new(alloc);
        object.field("textDocument", &self.text_document);
        object.flat(&self.work_done_progress_params);
        object.flat(&self.partial_result_params);
        object.end()
    }
}
