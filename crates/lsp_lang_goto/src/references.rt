// References and highlights.
ghost use Rattle.lsp_lang_goto.specs.References.{reference_params_row, reference_context_row, document_highlight_params_row, document_highlight_row};

use lsp_base::{PartialResultParams, Range, TextDocumentPositionParams, WorkDoneProgressParams};
use lsp_kinds::DocumentHighlightKind;
use lsp_shape::{Flat, Misfit, NoMemory, Optional, Required, Wire, Writer, flat, read_object};
use serde_json::Value;
use std::alloc::Global;

/// Parameters of `textDocument/references`: the symbol whose uses in the project are wanted (LSP
/// 3.17, "Find References Request").
#[derive(Debug, PartialEq, Eq, Clone, Drop)]
pub struct ReferenceParams {
    /// The document and a position on the symbol.
    pub text_document_position: TextDocumentPositionParams,
    /// The token for progress reports on this request, if the client sent one.
    pub work_done_progress_params: WorkDoneProgressParams,
    /// The token for sending the references in `$/progress` notifications, with an empty response
    /// after them, if the client sent one.
    pub partial_result_params: PartialResultParams,
    /// Which references the result should include.
    pub context: ReferenceContext,
}

#[tactic(auto, unfolding(crate::specs::References::reference_params_row, lsp_base::specs::Document::text_document_position_params_row, lsp_base::specs::Progress::work_done_progress_params_row, lsp_base::specs::Progress::partial_result_params_row))]
impl Wire for ReferenceParams {
    ghost shape = { reference_params_row.shape };

    ghost shown = { reference_params_row.shown };

    fn from_value(alloc: Global, value: &Value) -> Result<ReferenceParams, Misfit> {
        let (text_document_position, work_done_progress_params, partial_result_params, context) =
            read_object(alloc, value, (Flat, Flat, Flat, Required("context")))?;
        Ok(ReferenceParams {
            text_document_position,
            work_done_progress_params,
            partial_result_params,
            context,
        })
    }

    fn to_value(&self, alloc: Global) -> Result<Value, NoMemory> {
        let mut object = Writer::new(alloc);
        object.flat(&self.text_document_position);
        object.flat(&self.work_done_progress_params);
        object.flat(&self.partial_result_params);
        object.field("context", &self.context);
        object.end()
    }
}

/// What the result of `textDocument/references` should include besides the uses of the symbol (LSP
/// 3.17, "Find References Request").
#[derive(Debug, PartialEq, Eq, Clone, Copy)]
pub struct ReferenceContext {
    /// Whether the client wants the declaration of the symbol as well.
    pub include_declaration: bool,
}

#[tactic(auto, unfolding(crate::specs::References::reference_context_row))]
impl Wire for ReferenceContext {
    ghost shape = { reference_context_row.shape };

    ghost shown = { reference_context_row.shown };

    fn from_value(alloc: Global, value: &Value) -> Result<ReferenceContext, Misfit> {
        let include_declaration = read_object(alloc, value, Required("includeDeclaration"))?;
        Ok(ReferenceContext {
            include_declaration,
        })
    }

    fn to_value(&self, alloc: Global) -> Result<Value, NoMemory> {
        let mut object = Writer::new(alloc);
        object.field("includeDeclaration", &self.include_declaration);
        object.end()
    }
}

/// Parameters of `textDocument/documentHighlight`: the symbol whose occurrences in the same
/// document the client wants to mark (LSP 3.17, "Document Highlights Request").
#[derive(Debug, PartialEq, Eq, Clone, Drop)]
pub struct DocumentHighlightParams {
    /// The document and a position on the symbol, usually that of the cursor.
    pub text_document_position_params: TextDocumentPositionParams,
    /// The token for progress reports on this request, if the client sent one.
    pub work_done_progress_params: WorkDoneProgressParams,
    /// The token for sending the highlights in `$/progress` notifications, with an empty response
    /// after them, if the client sent one.
    pub partial_result_params: PartialResultParams,
}

#[tactic(auto, unfolding(crate::specs::References::document_highlight_params_row, lsp_base::specs::Document::text_document_position_params_row, lsp_base::specs::Progress::work_done_progress_params_row, lsp_base::specs::Progress::partial_result_params_row))]
impl Wire for DocumentHighlightParams {
    ghost shape = { document_highlight_params_row.shape };

    ghost shown = { document_highlight_params_row.shown };

    fn from_value(alloc: Global, value: &Value) -> Result<DocumentHighlightParams, Misfit> {
        Ok(DocumentHighlightParams {
            text_document_position_params: flat(alloc, value)?,
            work_done_progress_params: flat(alloc, value)?,
            partial_result_params: flat(alloc, value)?,
        })
    }

    fn to_value(&self, alloc: Global) -> Result<Value, NoMemory> {
        let mut object = Writer::new(alloc);
        object.flat(&self.text_document_position_params);
        object.flat(&self.work_done_progress_params);
        object.flat(&self.partial_result_params);
        object.end()
    }
}

/// An occurrence that the client marks, such as another use of the variable at the cursor: an entry
/// of the result of `textDocument/documentHighlight` (LSP 3.17, "Document Highlights Request").
#[derive(Debug, PartialEq, Eq, Clone, Drop)]
pub struct DocumentHighlight {
    /// The part of the document to mark.
    pub range: Range,
    /// How the symbol is used there. Absent: `DocumentHighlightKind::TEXT`.
    pub kind: Option<DocumentHighlightKind>,
}

#[tactic(auto, unfolding(crate::specs::References::document_highlight_row))]
impl Wire for DocumentHighlight {
    ghost shape = { document_highlight_row.shape };

    ghost shown = { document_highlight_row.shown };

    fn from_value(alloc: Global, value: &Value) -> Result<DocumentHighlight, Misfit> {
        let (range, kind) = read_object(alloc, value, (Required("range"), Optional("kind")))?;
        Ok(DocumentHighlight { range, kind })
    }

    fn to_value(&self, alloc: Global) -> Result<Value, NoMemory> {
        let mut object = Writer::new(alloc);
        object.field("range", &self.range);
        object.optional("kind", &self.kind);
        object.end()
    }
}
