// Hovers.
ghost use Rattle.lsp_lang_goto.specs.Hover.{hover_params_row, hover_row, hover_contents_row};

use lsp_base::{Range, TextDocumentPositionParams, WorkDoneProgressParams};
use lsp_names::{MarkedString, MarkupContent};
use lsp_shape::{
    Misfit, NoMemory, Optional, Required, Wire, Writer, attempt, flat, form, read_object,
};
use serde_json::Value;
use std::alloc::Global;

/// Parameters of `textDocument/hover`: the position about which the client wants to show
/// information (LSP 3.17, "Hover Request").
#[derive(Debug, PartialEq, Eq, Clone, Drop)]
pub struct HoverParams {
    /// The document and the position in it, usually that of the mouse pointer.
    pub text_document_position_params: TextDocumentPositionParams,
    /// The token for progress reports on this request, if the client sent one.
    pub work_done_progress_params: WorkDoneProgressParams,
}

#[tactic(auto, unfolding(crate::specs::Hover::hover_params_row, lsp_base::specs::Document::text_document_position_params_row, lsp_base::specs::Progress::work_done_progress_params_row))]
impl Wire for HoverParams {
    ghost shape = { hover_params_row.shape };

    ghost shown = { hover_params_row.shown };

    fn from_value(alloc: Global, value: &Value) -> Result<HoverParams, Misfit> {
        Ok(HoverParams {
            text_document_position_params: flat(alloc, value)?,
            work_done_progress_params: flat(alloc, value)?,
        })
    }

    fn to_value(&self, alloc: Global) -> Result<Value, NoMemory> {
        let mut object = Writer::new(alloc);
        object.flat(&self.text_document_position_params);
        object.flat(&self.work_done_progress_params);
        object.end()
    }
}

/// Result of `textDocument/hover`: information on a place in a document, such as the type and the
/// documentation of a symbol. If there is nothing to show, the result may be null instead (LSP
/// 3.17, "Hover Request").
#[derive(Debug, PartialEq, Eq, Clone, Drop)]
pub struct Hover {
    /// The text to show.
    pub contents: HoverContents,
    /// The part of the document that the hover describes, which the client may highlight. Absent:
    /// it isn't stated.
    pub range: Option<Range>,
}

#[tactic(auto, unfolding(crate::specs::Hover::hover_row))]
impl Wire for Hover {
    ghost shape = { hover_row.shape };

    ghost shown = { hover_row.shown };

    fn from_value(alloc: Global, value: &Value) -> Result<Hover, Misfit> {
        let (contents, range) = read_object(
            alloc,
            value,
            (Required("contents"), Optional("range")),
        )?;
        Ok(Hover { contents, range })
    }

    fn to_value(&self, alloc: Global) -> Result<Value, NoMemory> {
        let mut object = Writer::new(alloc);
        object.field("contents", &self.contents);
        object.optional("range", &self.range);
        object.end()
    }
}

/// The text of a hover. Servers should use `Markup`, since LSP has deprecated the type
/// `MarkedString` of the other variants (LSP 3.17, "Hover Request").
#[derive(Debug, PartialEq, Eq, Clone, Drop)]
pub enum HoverContents {
    /// One Markdown text or one block of code.
    Scalar(MarkedString),
    /// Several Markdown texts or blocks of code, shown together.
    Array(Vec<MarkedString>),
    /// Plain text or Markdown, as its kind says. The client lists the kinds it can show in
    /// `textDocument.hover.contentFormat`.
    Markup(MarkupContent),
}

#[tactic(auto, unfolding(crate::specs::Hover::hover_contents_row))]
impl Wire for HoverContents {
    ghost shape = { hover_contents_row.shape };

    ghost shown = { hover_contents_row.shown };

    fn from_value(alloc: Global, value: &Value) -> Result<HoverContents, Misfit> {
        if let Some(scalar) = attempt(alloc, value)? {
            return Ok(HoverContents::Scalar(scalar));
        }
        if let Some(array) = attempt(alloc, value)? {
            return Ok(HoverContents::Array(array));
        }
        Ok(HoverContents::Markup(form(alloc, value)?))
    }

    fn to_value(&self, alloc: Global) -> Result<Value, NoMemory> {
        match self {
            HoverContents::Scalar(scalar) => scalar.to_value(alloc),
            HoverContents::Array(array) => array.to_value(alloc),
            HoverContents::Markup(markup) => markup.to_value(alloc),
        }
    }
}
