// What is asked of semantic tokens, and the results.
ghost use Rattle.std.specs.Prelude.{◌≡◌, None, []};
ghost use Rattle.lsp_tokens.specs.Results.{semantic_tokens_params_row, semantic_tokens_delta_params_row, semantic_tokens_range_params_row, semantic_tokens_result_row, semantic_tokens_full_delta_result_partial_tokens_delta_row, semantic_tokens_full_delta_result_row, semantic_tokens_delta_row, semantic_tokens_range_result_row};
ghost use Rattle.lsp_tokens.specs.declared.results.SemanticTokensFullDeltaResult.TheVariants as semantic_tokens_full_delta_result;
ghost use Rattle.lsp_tokens.specs.declared.results.SemanticTokensRangeResult.TheVariants as semantic_tokens_range_result;
ghost use Rattle.lsp_tokens.specs.declared.results.SemanticTokensResult.TheVariants as semantic_tokens_result;

use crate::tokens::{SemanticTokens, SemanticTokensEdit, SemanticTokensPartialResult};
use lsp_base::{PartialResultParams, Range, TextDocumentIdentifier, WorkDoneProgressParams};
use lsp_shape::{
    Flat, Misfit, NoMemory, Optional, Required, Wire, Writer, attempt, flat, form, read_object,
};
use serde_json::Value;
use std::alloc::Global;

/// The parameters of a `textDocument/semanticTokens/full` request, which asks for all tokens of a
/// document. Since 3.16 (LSP 3.17, "Semantic Tokens").
#[derive(Debug, PartialEq, Eq, Clone, Drop)]
pub struct SemanticTokensParams {
    /// The token, chosen by the client, under which the server may report work done progress with
    /// `$/progress`. Absent: the client asks for none. Since 3.15.
    pub work_done_progress_params: WorkDoneProgressParams,
    /// The token for sending the result in parts, as `SemanticTokensPartialResult` values in
    /// `$/progress` notifications, with an empty response after them. Absent: the response has the
    /// whole result.
    pub partial_result_params: PartialResultParams,
    /// The document to give tokens for.
    pub text_document: TextDocumentIdentifier,
}

#[tactic(auto, unfolding(crate::specs::Results::semantic_tokens_params_row, lsp_base::specs::Progress::work_done_progress_params_row, lsp_base::specs::Progress::partial_result_params_row))]
impl Wire for SemanticTokensParams {
    ghost shape = { semantic_tokens_params_row.shape };

    ghost shown = { semantic_tokens_params_row.shown };

    fn from_value(alloc: Global, value: &Value) -> Result<SemanticTokensParams, Misfit> {
        let (work_done_progress_params, partial_result_params, text_document) = read_object(
            alloc,
            value,
            (Flat, Flat, Required("textDocument")),
        )?;
        Ok(SemanticTokensParams {
            work_done_progress_params,
            partial_result_params,
            text_document,
        })
    }

    fn to_value(&self, alloc: Global) -> Result<Value, NoMemory> {
        let mut object = Writer::new(alloc);
        object.flat(&self.work_done_progress_params);
        object.flat(&self.partial_result_params);
        object.field("textDocument", &self.text_document);
        object.end()
    }
}

/// The parameters of a `textDocument/semanticTokens/full/delta` request, which asks what has
/// changed in the tokens of a document since an earlier result. Since 3.16 (LSP 3.17, "Semantic
/// Tokens").
#[derive(Debug, PartialEq, Eq, Clone, Drop)]
pub struct SemanticTokensDeltaParams {
    /// The token, chosen by the client, under which the server may report work done progress with
    /// `$/progress`. Absent: the client asks for none. Since 3.15.
    pub work_done_progress_params: WorkDoneProgressParams,
    /// The token for sending the result in parts, each with tokens or with edits, in `$/progress`
    /// notifications, with an empty response after them. Absent: the response has the whole result.
    pub partial_result_params: PartialResultParams,
    /// The document to give tokens for.
    pub text_document: TextDocumentIdentifier,
    /// The `result_id` of the result that the client received last, whether that was a full one or
    /// a delta.
    pub previous_result_id: String,
}

#[tactic(auto, unfolding(crate::specs::Results::semantic_tokens_delta_params_row, lsp_base::specs::Progress::work_done_progress_params_row, lsp_base::specs::Progress::partial_result_params_row))]
impl Wire for SemanticTokensDeltaParams {
    ghost shape = { semantic_tokens_delta_params_row.shape };

    ghost shown = { semantic_tokens_delta_params_row.shown };

    fn from_value(alloc: Global, value: &Value) -> Result<SemanticTokensDeltaParams, Misfit> {
        let (work_done_progress_params, partial_result_params, text_document, previous_result_id) =
            read_object(
                alloc,
                value,
                (
                    Flat,
                    Flat,
                    Required("textDocument"),
                    Required("previousResultId"),
                ),
            )?;
        Ok(SemanticTokensDeltaParams {
            work_done_progress_params,
            partial_result_params,
            text_document,
            previous_result_id,
        })
    }

    fn to_value(&self, alloc: Global) -> Result<Value, NoMemory> {
        let mut object = Writer::new(alloc);
        object.flat(&self.work_done_progress_params);
        object.flat(&self.partial_result_params);
        object.field("textDocument", &self.text_document);
        object.field("previousResultId", &self.previous_result_id);
        object.end()
    }
}

/// The parameters of a `textDocument/semanticTokens/range` request, which asks for the tokens in a
/// part of a document, such as the visible lines. Since 3.16 (LSP 3.17, "Semantic Tokens").
#[derive(Debug, PartialEq, Eq, Clone, Drop)]
pub struct SemanticTokensRangeParams {
    /// The token, chosen by the client, under which the server may report work done progress with
    /// `$/progress`. Absent: the client asks for none. Since 3.15.
    pub work_done_progress_params: WorkDoneProgressParams,
    /// The token for sending the result in parts, as `SemanticTokensPartialResult` values in
    /// `$/progress` notifications, with an empty response after them. Absent: the response has the
    /// whole result.
    pub partial_result_params: PartialResultParams,
    /// The document to give tokens for.
    pub text_document: TextDocumentIdentifier,
    /// The part of the document that the client needs tokens for.
    pub range: Range,
}

#[tactic(auto, unfolding(crate::specs::Results::semantic_tokens_range_params_row, lsp_base::specs::Progress::work_done_progress_params_row, lsp_base::specs::Progress::partial_result_params_row))]
impl Wire for SemanticTokensRangeParams {
    ghost shape = { semantic_tokens_range_params_row.shape };

    ghost shown = { semantic_tokens_range_params_row.shown };

    fn from_value(alloc: Global, value: &Value) -> Result<SemanticTokensRangeParams, Misfit> {
        let (work_done_progress_params, partial_result_params, text_document, range) = read_object(
            alloc,
            value,
            (Flat, Flat, Required("textDocument"), Required("range")),
        )?;
        Ok(SemanticTokensRangeParams {
            work_done_progress_params,
            partial_result_params,
            text_document,
            range,
        })
    }

    fn to_value(&self, alloc: Global) -> Result<Value, NoMemory> {
        let mut object = Writer::new(alloc);
        object.flat(&self.work_done_progress_params);
        object.flat(&self.partial_result_params);
        object.field("textDocument", &self.text_document);
        object.field("range", &self.range);
        object.end()
    }
}

/// The result of a `textDocument/semanticTokens/full` request, or a part of it. Since 3.16 (LSP
/// 3.17, "Semantic Tokens").
#[derive(Debug, PartialEq, Eq, Clone, Drop)]
pub enum SemanticTokensResult {
    /// All tokens of the document. A part has the same form without the result id, so it is read as
    /// this variant too.
    Tokens(SemanticTokens),
    /// Some of the tokens, to be sent in a `$/progress` notification before the response.
    Partial(SemanticTokensPartialResult),
}

#[tactic(auto, unfolding(crate::specs::Results::semantic_tokens_result_row))]
impl Wire for SemanticTokensResult {
    ghost shape = { semantic_tokens_result_row.shape };

    ghost shown = { semantic_tokens_result_row.shown };

    fn from_value(alloc: Global, value: &Value) -> Result<SemanticTokensResult, Misfit> {
        if let Some(tokens) = attempt(alloc, value)? {
            return Ok(SemanticTokensResult::Tokens(tokens));
        }
        Ok(SemanticTokensResult::Partial(form(alloc, value)?))
    }

    fn to_value(&self, alloc: Global) -> Result<Value, NoMemory> {
        match self {
            SemanticTokensResult::Tokens(tokens) => tokens.to_value(alloc),
            SemanticTokensResult::Partial(partial) => partial.to_value(alloc),
        }
    }
}

impl From<SemanticTokens> for SemanticTokensResult {
    ghost from_gives = { λ given made. made ≡ semantic_tokens_result.Tokens given };

    fn from(tokens: SemanticTokens) -> SemanticTokensResult {
        SemanticTokensResult::Tokens(tokens)
    }
}

impl From<SemanticTokensPartialResult> for SemanticTokensResult {
    ghost from_gives = { λ given made. made ≡ semantic_tokens_result.Partial given };

    fn from(partial: SemanticTokensPartialResult) -> SemanticTokensResult {
        SemanticTokensResult::Partial(partial)
    }
}

/// The result of a `textDocument/semanticTokens/full/delta` request, or a part of it. Since 3.16
/// (LSP 3.17, "Semantic Tokens").
#[derive(Debug, PartialEq, Eq, Clone, Drop)]
pub enum SemanticTokensFullDeltaResult {
    /// All tokens of the document, from a server that doesn't work out the difference.
    Tokens(SemanticTokens),
    /// The edits that turn the previous result into the new one. A part of them has the same form
    /// without the result id, so it is read as this variant too.
    TokensDelta(SemanticTokensDelta),
    /// Some of the edits, to be sent in a `$/progress` notification before the response.
    PartialTokensDelta {
        /// Edits of the previous result's array of integers.
        edits: Vec<SemanticTokensEdit>,
    },
}

// The fields of `SemanticTokensFullDeltaResult::PartialTokensDelta`.
#[derive(Drop)]
struct SemanticTokensFullDeltaResultPartialTokensDelta {
    edits: Vec<SemanticTokensEdit>,
}

#[tactic(auto, unfolding(crate::specs::Results::semantic_tokens_full_delta_result_partial_tokens_delta_row))]
impl Wire for SemanticTokensFullDeltaResultPartialTokensDelta {
    ghost shape = { semantic_tokens_full_delta_result_partial_tokens_delta_row.shape };

    ghost shown = { semantic_tokens_full_delta_result_partial_tokens_delta_row.shown };

    fn from_value(
        alloc: Global,
        value: &Value,
    ) -> Result<SemanticTokensFullDeltaResultPartialTokensDelta, Misfit> {
        let edits = read_object(alloc, value, Required("edits"))?;
        Ok(SemanticTokensFullDeltaResultPartialTokensDelta { edits })
    }

    fn to_value(&self, alloc: Global) -> Result<Value, NoMemory> {
        let mut object = Writer::new(alloc);
        object.field("edits", &self.edits);
        object.end()
    }
}

#[tactic(auto, unfolding(crate::specs::Results::semantic_tokens_full_delta_result_row, crate::specs::Results::semantic_tokens_full_delta_result_partial_tokens_delta_row))]
impl Wire for SemanticTokensFullDeltaResult {
    ghost shape = { semantic_tokens_full_delta_result_row.shape };

    ghost shown = { semantic_tokens_full_delta_result_row.shown };

    fn from_value(alloc: Global, value: &Value) -> Result<SemanticTokensFullDeltaResult, Misfit> {
        if let Some(tokens) = attempt(alloc, value)? {
            return Ok(SemanticTokensFullDeltaResult::Tokens(tokens));
        }
        if let Some(delta) = attempt(alloc, value)? {
            return Ok(SemanticTokensFullDeltaResult::TokensDelta(delta));
        }
        let x = form::<SemanticTokensFullDeltaResultPartialTokensDelta>(alloc, value)?;
        Ok(SemanticTokensFullDeltaResult::PartialTokensDelta { edits: x.edits })
    }

    fn to_value(&self, alloc: Global) -> Result<Value, NoMemory> {
        match self {
            SemanticTokensFullDeltaResult::Tokens(tokens) => tokens.to_value(alloc),
            SemanticTokensFullDeltaResult::TokensDelta(delta) => delta.to_value(alloc),
            SemanticTokensFullDeltaResult::PartialTokensDelta { edits } => {
                let mut object = Writer::new(alloc);
                object.field("edits", edits);
                object.end()
            }
        }
    }
}

impl From<SemanticTokens> for SemanticTokensFullDeltaResult {
    ghost from_gives = { λ given made. made ≡ semantic_tokens_full_delta_result.Tokens given };

    fn from(tokens: SemanticTokens) -> SemanticTokensFullDeltaResult {
        SemanticTokensFullDeltaResult::Tokens(tokens)
    }
}

impl From<SemanticTokensDelta> for SemanticTokensFullDeltaResult {
    ghost from_gives = { λ given made. made ≡ semantic_tokens_full_delta_result.TokensDelta given };

    fn from(delta: SemanticTokensDelta) -> SemanticTokensFullDeltaResult {
        SemanticTokensFullDeltaResult::TokensDelta(delta)
    }
}

/// What has changed in the tokens of a document since the result that the client named in its
/// `textDocument/semanticTokens/full/delta` request. Since 3.16 (LSP 3.17, "Semantic Tokens").
#[derive(Debug, PartialEq, Eq, Clone, Drop)]
pub struct SemanticTokensDelta {
    /// The id of the new result, which the client sends with its next delta request. Absent if the
    /// server offers no delta from this result.
    pub result_id: Option<String>,
    /// Edits of the previous result's array of integers. Each refers to the array as it was before
    /// all of them, and they need not be sorted.
    pub edits: Vec<SemanticTokensEdit>,
}

impl SemanticTokensDelta {
    /// No result id and no edits: the tokens are as before.
    pub fn default(alloc: Global) -> SemanticTokensDelta
        ensures result_id { result.result_id ≡ None }
        ensures edits { result.edits.items ≡ [] }
    {
        SemanticTokensDelta {
            result_id: None,
            edits: Vec::new(alloc),
        }
    }
}

#[tactic(auto, unfolding(crate::specs::Results::semantic_tokens_delta_row))]
impl Wire for SemanticTokensDelta {
    ghost shape = { semantic_tokens_delta_row.shape };

    ghost shown = { semantic_tokens_delta_row.shown };

    fn from_value(alloc: Global, value: &Value) -> Result<SemanticTokensDelta, Misfit> {
        let (result_id, edits) = read_object(
            alloc,
            value,
            (Optional("resultId"), Required("edits")),
        )?;
        Ok(SemanticTokensDelta { result_id, edits })
    }

    fn to_value(&self, alloc: Global) -> Result<Value, NoMemory> {
        let mut object = Writer::new(alloc);
        object.optional("resultId", &self.result_id);
        object.field("edits", &self.edits);
        object.end()
    }
}

/// The result of a `textDocument/semanticTokens/range` request, or a part of it. Since 3.16 (LSP
/// 3.17, "Semantic Tokens").
#[derive(Debug, PartialEq, Eq, Clone, Drop)]
pub enum SemanticTokensRangeResult {
    /// All tokens in the range. A part has the same form without the result id, so it is read as
    /// this variant too.
    Tokens(SemanticTokens),
    /// Some of the tokens, to be sent in a `$/progress` notification before the response.
    Partial(SemanticTokensPartialResult),
}

#[tactic(auto, unfolding(crate::specs::Results::semantic_tokens_range_result_row))]
impl Wire for SemanticTokensRangeResult {
    ghost shape = { semantic_tokens_range_result_row.shape };

    ghost shown = { semantic_tokens_range_result_row.shown };

    fn from_value(alloc: Global, value: &Value) -> Result<SemanticTokensRangeResult, Misfit> {
        if let Some(tokens) = attempt(alloc, value)? {
            return Ok(SemanticTokensRangeResult::Tokens(tokens));
        }
        Ok(SemanticTokensRangeResult::Partial(form(alloc, value)?))
    }

    fn to_value(&self, alloc: Global) -> Result<Value, NoMemory> {
        match self {
            SemanticTokensRangeResult::Tokens(tokens) => tokens.to_value(alloc),
            SemanticTokensRangeResult::Partial(partial) => partial.to_value(alloc),
        }
    }
}

impl From<SemanticTokens> for SemanticTokensRangeResult {
    ghost from_gives = { λ given made. made ≡ semantic_tokens_range_result.Tokens given };

    fn from(tokens: SemanticTokens) -> SemanticTokensRangeResult {
        SemanticTokensRangeResult::Tokens(tokens)
    }
}

impl From<SemanticTokensPartialResult> for SemanticTokensRangeResult {
    ghost from_gives = { λ given made. made ≡ semantic_tokens_range_result.Partial given };

    fn from(partial: SemanticTokensPartialResult) -> SemanticTokensRangeResult {
        SemanticTokensRangeResult::Partial(partial)
    }
}
