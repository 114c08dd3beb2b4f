// Code lenses.
ghost use Rattle.lsp_lang_goto.specs.CodeLens.{code_lens_params_row, code_lens_row};

use lsp_base::{
    Command, PartialResultParams, Range, TextDocumentIdentifier, WorkDoneProgressParams,
};
use lsp_shape::{Flat, Misfit, NoMemory, Optional, Required, Wire, Writer, flat, read_object};
use serde_json::Value;
use std::alloc::Global;

/// Parameters of `textDocument/codeLens`: the document whose code lenses are wanted (LSP 3.17,
/// "Code Lens Request").
#[derive(Debug, PartialEq, Eq, Clone, Drop)]
pub struct CodeLensParams {
    /// The document to find code lenses in.
    pub text_document: TextDocumentIdentifier,
    /// The token for progress reports on this request, if the client sent one.
    pub work_done_progress_params: WorkDoneProgressParams,
    /// The token for sending the code lenses in `$/progress` notifications, with an empty response
    /// after them, if the client sent one.
    pub partial_result_params: PartialResultParams,
}

#[tactic(auto, unfolding(crate::specs::CodeLens::code_lens_params_row, lsp_base::specs::Progress::work_done_progress_params_row, lsp_base::specs::Progress::partial_result_params_row))]
impl Wire for CodeLensParams {
    ghost shape = { code_lens_params_row.shape };

    ghost shown = { code_lens_params_row.shown };

    fn from_value(alloc: Global, value: &Value) -> Result<CodeLensParams, Misfit> {
        let (text_document, work_done_progress_params, partial_result_params) = read_object(
            alloc,
            value,
            (Required("textDocument"), Flat, Flat),
        )?;
        Ok(CodeLensParams {
            text_document,
            work_done_progress_params,
            partial_result_params,
        })
    }

    fn to_value(&self, alloc: Global) -> Result<Value, NoMemory> {
        let mut object = Writer::new(alloc);
        object.field("textDocument", &self.text_document);
        object.flat(&self.work_done_progress_params);
        object.flat(&self.partial_result_params);
        object.end()
    }
}

/// A command that the client displays at a piece of code, such as `3 references` or `Run test`: an
/// entry of the result of `textDocument/codeLens` (LSP 3.17, "Code Lens Request").
#[derive(Debug, PartialEq, Clone, Drop)]
pub struct CodeLens {
    /// The code that the lens belongs to. It should stay on a single line.
    pub range: Range,
    /// What the lens displays and runs. Absent: the client asks for it by `codeLens/resolve`.
    pub command: Option<Command>,
    /// Any value, sent as the member `data`. The client returns it unchanged in `codeLens/resolve`.
    pub payload: Option<Value>,
}

#[tactic(auto, unfolding(crate::specs::CodeLens::code_lens_row))]
impl Wire for CodeLens {
    ghost shape = { code_lens_row.shape };

    ghost shown = { code_lens_row.shown };

    fn from_value(alloc: Global, value: &Value) -> Result<CodeLens, Misfit> {
        let (range, command, payload) = read_object(
            alloc,
            value,
            (Required("range"), Optional("command"), Optional("data")),
        )?;
        Ok(CodeLens {
            range,
            command,
            payload,
        })
    }

    fn to_value(&self, alloc: Global) -> Result<Value, NoMemory> {
        let mut object = Writer::new(alloc);
        object.field("range", &self.range);
        object.optional("command", &self.command);
        object.optional("data", &self.payload);
        object.end()
    }
}
