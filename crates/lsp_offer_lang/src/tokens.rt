// Semantic tokens.
ghost use Rattle.std.specs.Prelude.{◌≡◌, None, []};
ghost use Rattle.lsp_offer_lang.specs.Tokens.{semantic_tokens_server_capabilities_row, semantic_tokens_options_row, semantic_tokens_registration_options_row, semantic_tokens_legend_row};
ghost use Rattle.lsp_offer_lang.specs.declared.tokens.SemanticTokensServerCapabilities.TheVariants as semantic_tokens_server_capabilities;

use lsp_base::{StaticRegistrationOptions, TextDocumentRegistrationOptions};
use lsp_names::{
    SemanticTokenModifier, SemanticTokenType, SemanticTokensFullOptions, WorkDoneProgressOptions,
};
use lsp_shape::{
    Flat, Misfit, NoMemory, Optional, Required, Wire, Writer, attempt, flat, form, read_object,
};
use serde_json::Value;
use std::alloc::Global;

/// Which requests for semantic tokens a server supports, and how it numbers the token types and
/// modifiers, as the capability `semanticTokensProvider`. Since 3.16 (LSP 3.17, "Semantic Tokens").
#[derive(Debug, PartialEq, Eq, Clone, Drop)]
pub enum SemanticTokensServerCapabilities {
    /// The options, without a choice of documents.
    SemanticTokensOptions(SemanticTokensOptions),
    /// The options, for the selected documents. For sending only: such an object is read as
    /// `SemanticTokensOptions`.
    SemanticTokensRegistrationOptions(SemanticTokensRegistrationOptions),
}

#[tactic(auto, unfolding(crate::specs::Tokens::semantic_tokens_server_capabilities_row))]
impl Wire for SemanticTokensServerCapabilities {
    ghost shape = { semantic_tokens_server_capabilities_row.shape };

    ghost shown = { semantic_tokens_server_capabilities_row.shown };

    fn from_value(
        alloc: Global,
        value: &Value,
    ) -> Result<SemanticTokensServerCapabilities, Misfit> {
        if let Some(options) = attempt(alloc, value)? {
            return Ok(SemanticTokensServerCapabilities::SemanticTokensOptions(options));
        }
        Ok(SemanticTokensServerCapabilities::SemanticTokensRegistrationOptions(form(alloc, value)?))
    }

    fn to_value(&self, alloc: Global) -> Result<Value, NoMemory> {
        match self {
            SemanticTokensServerCapabilities::SemanticTokensOptions(options) => options.to_value(
                alloc,
            ),
            SemanticTokensServerCapabilities::SemanticTokensRegistrationOptions(options) =>
                options.to_value(alloc),
        }
    }
}

impl From<SemanticTokensOptions> for SemanticTokensServerCapabilities {
    ghost from_gives = { λ given made. made
        ≡ semantic_tokens_server_capabilities.SemanticTokensOptions given };

    fn from(options: SemanticTokensOptions) -> SemanticTokensServerCapabilities {
        SemanticTokensServerCapabilities::SemanticTokensOptions(options)
    }
}

impl From<SemanticTokensRegistrationOptions> for SemanticTokensServerCapabilities {
    ghost from_gives = { λ given made. made
        ≡ semantic_tokens_server_capabilities.SemanticTokensRegistrationOptions given };

    fn from(options: SemanticTokensRegistrationOptions) -> SemanticTokensServerCapabilities {
        SemanticTokensServerCapabilities::SemanticTokensRegistrationOptions(options)
    }
}

/// The legend of a server and the `textDocument/semanticTokens` requests that it supports, since
/// 3.16 (LSP 3.17, "Semantic Tokens").
#[derive(Debug, PartialEq, Eq, Clone, Drop)]
pub struct SemanticTokensOptions {
    /// Whether the server can report progress on these requests.
    pub work_done_progress_options: WorkDoneProgressOptions,
    /// The token types and modifiers that the numbers in a result stand for.
    pub legend: SemanticTokensLegend,
    /// Whether `textDocument/semanticTokens/range` is supported. Absent: it isn't.
    pub range: Option<bool>,
    /// Whether `textDocument/semanticTokens/full` is supported, and whether
    /// `textDocument/semanticTokens/full/delta` is too. Absent: neither.
    pub full: Option<SemanticTokensFullOptions>,
}

impl SemanticTokensOptions {
    /// An empty legend, and no supported request.
    pub fn default(alloc: Global) -> SemanticTokensOptions
        ensures progress { result.work_done_progress_options.work_done_progress ≡ None }
        ensures token_types { result.legend.token_types.items ≡ [] }
        ensures token_modifiers { result.legend.token_modifiers.items ≡ [] }
        ensures range { result.range ≡ None }
        ensures full { result.full ≡ None }
    {
        SemanticTokensOptions {
            work_done_progress_options: WorkDoneProgressOptions::default(),
            legend: SemanticTokensLegend::default(alloc),
            range: None,
            full: None,
        }
    }
}

#[tactic(auto, unfolding(crate::specs::Tokens::semantic_tokens_options_row, lsp_names::specs::Progress::work_done_progress_options_row))]
impl Wire for SemanticTokensOptions {
    ghost shape = { semantic_tokens_options_row.shape };

    ghost shown = { semantic_tokens_options_row.shown };

    fn from_value(alloc: Global, value: &Value) -> Result<SemanticTokensOptions, Misfit> {
        let (work_done_progress_options, legend, range, full) = read_object(
            alloc,
            value,
            (
                Flat,
                Required("legend"),
                Optional("range"),
                Optional("full"),
            ),
        )?;
        Ok(SemanticTokensOptions {
            work_done_progress_options,
            legend,
            range,
            full,
        })
    }

    fn to_value(&self, alloc: Global) -> Result<Value, NoMemory> {
        let mut object = Writer::new(alloc);
        object.flat(&self.work_done_progress_options);
        object.field("legend", &self.legend);
        object.optional("range", &self.range);
        object.optional("full", &self.full);
        object.end()
    }
}

/// Options for registering semantic tokens, in `ServerCapabilities` or while the server runs, with
/// the method `textDocument/semanticTokens`. Since 3.16 (LSP 3.17, "Semantic Tokens").
#[derive(Debug, PartialEq, Eq, Clone, Drop)]
pub struct SemanticTokensRegistrationOptions {
    /// The documents for which semantic tokens are offered.
    pub text_document_registration_options: TextDocumentRegistrationOptions,
    /// The legend, and the supported requests.
    pub semantic_tokens_options: SemanticTokensOptions,
    /// The id for unregistering what is registered in `ServerCapabilities`. A dynamic registration
    /// has its id in `Registration`.
    pub static_registration_options: StaticRegistrationOptions,
}

#[tactic(auto, unfolding(crate::specs::Tokens::semantic_tokens_registration_options_row, lsp_base::specs::Registration::text_document_registration_options_row, crate::specs::Tokens::semantic_tokens_options_row, lsp_names::specs::Progress::work_done_progress_options_row, lsp_base::specs::Registration::static_registration_options_row))]
impl Wire for SemanticTokensRegistrationOptions {
    ghost shape = { semantic_tokens_registration_options_row.shape };

    ghost shown = { semantic_tokens_registration_options_row.shown };

    fn from_value(
        alloc: Global,
        value: &Value,
    ) -> Result<SemanticTokensRegistrationOptions, Misfit> {
        Ok(SemanticTokensRegistrationOptions {
            text_document_registration_options: flat(alloc, value)?,
            semantic_tokens_options: flat(alloc, value)?,
            static_registration_options: flat(alloc, value)?,
        })
    }

    fn to_value(&self, alloc: Global) -> Result<Value, NoMemory> {
        let mut object = Writer::new(alloc);
        object.flat(&self.text_document_registration_options);
        object.flat(&self.semantic_tokens_options);
        object.flat(&self.static_registration_options);
        object.end()
    }
}

/// The numbering of token types and modifiers in the results of a server, since 3.16 (LSP 3.17,
/// "Semantic Tokens").
#[derive(Debug, PartialEq, Eq, Clone, Drop)]
pub struct SemanticTokensLegend {
    /// The token types. The type of a token is sent as a zero-based index into this array.
    pub token_types: Vec<SemanticTokenType>,
    /// The token modifiers. The modifiers of a token are sent as the bits of an integer: bit `n`,
    /// where the lowest bit is 0, stands for the item at the zero-based index `n`.
    pub token_modifiers: Vec<SemanticTokenModifier>,
}

impl SemanticTokensLegend {
    /// A legend with no token types and no modifiers.
    pub fn default(alloc: Global) -> SemanticTokensLegend
        ensures token_types { result.token_types.items ≡ [] }
        ensures token_modifiers { result.token_modifiers.items ≡ [] }
    {
        SemanticTokensLegend {
            token_types: Vec::new(alloc),
            token_modifiers: Vec::new(alloc),
        }
    }
}

#[tactic(auto, unfolding(crate::specs::Tokens::semantic_tokens_legend_row))]
impl Wire for SemanticTokensLegend {
    ghost shape = { semantic_tokens_legend_row.shape };

    ghost shown = { semantic_tokens_legend_row.shown };

    fn from_value(alloc: Global, value: &Value) -> Result<SemanticTokensLegend, Misfit> {
        let (token_types, token_modifiers) = read_object(
            alloc,
            value,
            (Required("tokenTypes"), Required("tokenModifiers")),
        )?;
        Ok(SemanticTokensLegend {
            token_types,
            token_modifiers,
        })
    }

    fn to_value(&self, alloc: Global) -> Result<Value, NoMemory> {
        let mut object = Writer::new(alloc);
        object.field("tokenTypes", &self.token_types);
        object.field("tokenModifiers", &self.token_modifiers);
        object.end()
    }
}
