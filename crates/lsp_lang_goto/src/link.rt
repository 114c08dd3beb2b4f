// Links in documents.
ghost use Rattle.lsp_lang_goto.specs.Link.{document_link_params_row, document_link_row};

use lsp_base::{PartialResultParams, Range, TextDocumentIdentifier, WorkDoneProgressParams};
use lsp_shape::{Flat, Misfit, NoMemory, Optional, Required, Wire, Writer, flat, read_object};
use lsp_uri::Uri;
use serde_json::Value;
use std::alloc::Global;

/// Parameters of `textDocument/documentLink`: the document whose links are wanted (LSP 3.17,
/// "Document Link Request").
#[derive(Debug, PartialEq, Eq, Clone, Drop)]
pub struct DocumentLinkParams {
    /// The document to find links in.
    pub text_document: TextDocumentIdentifier,
    /// The token for progress reports on this request, if the client sent one.
    pub work_done_progress_params: WorkDoneProgressParams,
    /// The token for sending the links in `$/progress` notifications, with an empty response after
    /// them, if the client sent one.
    pub partial_result_params: PartialResultParams,
}

#[tactic(auto, unfolding(crate::specs::Link::document_link_params_row, lsp_base::specs::Progress::work_done_progress_params_row, lsp_base::specs::Progress::partial_result_params_row))]
impl Wire for DocumentLinkParams {
    ghost shape = { document_link_params_row.shape };

    ghost shown = { document_link_params_row.shown };

    fn from_value(alloc: Global, value: &Value) -> Result<DocumentLinkParams, Misfit> {
        let (text_document, work_done_progress_params, partial_result_params) = read_object(
            alloc,
            value,
            (Required("textDocument"), Flat, Flat),
        )?;
        Ok(DocumentLinkParams {
            text_document,
            work_done_progress_params,
            partial_result_params,
        })
    }

    fn to_value(&self, alloc: Global) -> Result<Value, NoMemory> {
        let mut object = Writer::new(alloc);
        object.field("textDocument", &self.text_document);
        object.flat(&self.work_done_progress_params);
        object.flat(&self.partial_result_params);
        object.end()
    }
}

/// Text in a document that the user can follow to a file or a web page: an entry of the result of
/// `textDocument/documentLink` (LSP 3.17, "Document Link Request").
#[derive(Debug, PartialEq, Clone, Drop)]
pub struct DocumentLink {
    /// The text that acts as the link.
    pub range: Range,
    /// Where the link leads. Absent: the client asks for it by `documentLink/resolve`.
    pub target: Option<Uri>,
    /// A text shown when the user hovers over the link, since 3.15. The client may add how to
    /// follow the link. Only for clients with `textDocument.documentLink.tooltipSupport`.
    pub tooltip: Option<String>,
    /// Any value, sent as the member `data`. The client returns it unchanged in
    /// `documentLink/resolve`.
    pub payload: Option<Value>,
}

#[tactic(auto, unfolding(crate::specs::Link::document_link_row))]
impl Wire for DocumentLink {
    ghost shape = { document_link_row.shape };

    ghost shown = { document_link_row.shown };

    fn from_value(alloc: Global, value: &Value) -> Result<DocumentLink, Misfit> {
        let (range, target, tooltip, payload) = read_object(
            alloc,
            value,
            (
                Required("range"),
                Optional("target"),
                Optional("tooltip"),
                Optional("data"),
            ),
        )?;
        Ok(DocumentLink {
            range,
            target,
            tooltip,
            payload,
        })
    }

    fn to_value(&self, alloc: Global) -> Result<Value, NoMemory> {
        let mut object = Writer::new(alloc);
        object.field("range", &self.range);
        object.optional("target", &self.target);
        object.optional("tooltip", &self.tooltip);
        object.optional("data", &self.payload);
        object.end()
    }
}
