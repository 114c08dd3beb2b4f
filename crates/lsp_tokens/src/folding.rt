// Ranges that can be folded.
ghost use Rattle.lsp_tokens.specs.Folding.{folding_range_params_row, folding_range_row};

use lsp_base::{PartialResultParams, TextDocumentIdentifier, WorkDoneProgressParams};
use lsp_names::FoldingRangeKind;
use lsp_shape::{Flat, Misfit, NoMemory, Optional, Required, Wire, Writer, flat, read_object};
use serde_json::Value;
use std::alloc::Global;

/// The parameters of a `textDocument/foldingRange` request, which asks what can be folded in a
/// document. Since 3.10 (LSP 3.17, "Folding Range Request").
#[derive(Debug, PartialEq, Eq, Clone, Drop)]
pub struct FoldingRangeParams {
    /// The document to find folding ranges in.
    pub text_document: TextDocumentIdentifier,
    /// The token, chosen by the client, under which the server may report work done progress with
    /// `$/progress`. Absent: the client asks for none. Since 3.15.
    pub work_done_progress_params: WorkDoneProgressParams,
    /// The token for sending the result in parts, as arrays of `FoldingRange` in `$/progress`
    /// notifications, with an empty response after them. Absent: the response has the whole result.
    pub partial_result_params: PartialResultParams,
}

#[tactic(auto, unfolding(crate::specs::Folding::folding_range_params_row, lsp_base::specs::Progress::work_done_progress_params_row, lsp_base::specs::Progress::partial_result_params_row))]
impl Wire for FoldingRangeParams {
    ghost shape = { folding_range_params_row.shape };

    ghost shown = { folding_range_params_row.shown };

    fn from_value(alloc: Global, value: &Value) -> Result<FoldingRangeParams, Misfit> {
        let (text_document, work_done_progress_params, partial_result_params) = read_object(
            alloc,
            value,
            (Required("textDocument"), Flat, Flat),
        )?;
        Ok(FoldingRangeParams {
            text_document,
            work_done_progress_params,
            partial_result_params,
        })
    }

    fn to_value(&self, alloc: Global) -> Result<Value, NoMemory> {
        let mut object = Writer::new(alloc);
        object.field("textDocument", &self.text_document);
        object.flat(&self.work_done_progress_params);
        object.flat(&self.partial_result_params);
        object.end()
    }
}

/// A part of a document that the user can collapse, as the server reports it for
/// `textDocument/foldingRange`. Since 3.10 (LSP 3.17, "Folding Range Request").
#[derive(Debug, PartialEq, Eq, Default, Clone, Drop)]
pub struct FoldingRange {
    /// The zero-based line on which the folded text starts. It must lie within the document.
    pub start_line: u32,
    /// Where the folded text starts on its first line: a zero-based offset, in UTF-16 code units by
    /// default. Absent: the end of that line. Clients that fold whole lines only ignore it.
    pub start_character: Option<u32>,
    /// The zero-based line on which the folded text ends. It must lie within the document.
    pub end_line: u32,
    /// Where the folded text ends on its last line: a zero-based offset, in UTF-16 code units by
    /// default. Absent: the end of that line. Clients that fold whole lines only ignore it.
    pub end_character: Option<u32>,
    /// What is folded, such as a comment, for commands of the client like folding all comments. LSP
    /// allows any string; reading fails where the kind isn't one of `FoldingRangeKind`.
    pub kind: Option<FoldingRangeKind>,
    /// What the client shows in place of the folded text. Where it is absent or not supported, the
    /// client chooses a text. Since 3.17.
    pub collapsed_text: Option<String>,
}

#[tactic(auto, unfolding(crate::specs::Folding::folding_range_row))]
impl Wire for FoldingRange {
    ghost shape = { folding_range_row.shape };

    ghost shown = { folding_range_row.shown };

    fn from_value(alloc: Global, value: &Value) -> Result<FoldingRange, Misfit> {
        let (start_line, start_character, end_line, end_character, kind, collapsed_text) =
            read_object(
                alloc,
                value,
                (
                    Required("startLine"),
                    Optional("startCharacter"),
                    Required("endLine"),
                    Optional("endCharacter"),
                    Optional("kind"),
                    Optional("collapsedText"),
                ),
            )?;
        Ok(FoldingRange {
            start_line,
            start_character,
            end_line,
            end_character,
            kind,
            collapsed_text,
        })
    }

    fn to_value(&self, alloc: Global) -> Result<Value, NoMemory> {
        let mut object = Writer::new(alloc);
        object.field("startLine", &self.start_line);
        object.optional("startCharacter", &self.start_character);
        object.field("endLine", &self.end_line);
        object.optional("endCharacter", &self.end_character);
        object.optional("kind", &self.kind);
        object.optional("collapsedText", &self.collapsed_text);
        object.end()
    }
}
