// Semantic tokens.
ghost use Rattle.std.specs.Prelude.{◌≡◌, None, []};
ghost use Rattle.lsp_caps_text.specs.Tokens.{semantic_tokens_client_capabilities_row, semantic_tokens_client_capabilities_requests_row};

use lsp_names::{SemanticTokenModifier, SemanticTokenType, SemanticTokensFullOptions, TokenFormat};
use lsp_shape::{Copies, Misfit, NoMemory, Optional, Required, Wire, Writer, read_object};
use serde_json::Value;
use std::alloc::{AllocError, Global};

/// What a client supports for the `textDocument/semanticTokens` requests, as the capability
/// `textDocument.semanticTokens`. Since 3.16 (LSP 3.17, "Semantic Tokens").
#[derive(Debug, PartialEq, Eq, Drop)]
pub struct SemanticTokensClientCapabilities {
    /// Whether the server may register the feature after initialization, with
    /// `client/registerCapability`.
    pub dynamic_registration: Option<bool>,
    /// Which of the requests the client sends, if the server provides them.
    pub requests: SemanticTokensClientCapabilitiesRequests,
    /// The names of the token types that the client can show.
    pub token_types: Vec<SemanticTokenType>,
    /// The names of the token modifiers that the client can show.
    pub token_modifiers: Vec<SemanticTokenModifier>,
    /// The encodings of tokens that the client can read.
    pub formats: Vec<TokenFormat>,
    /// Whether tokens may overlap each other.
    pub overlapping_token_support: Option<bool>,
    /// Whether a token may extend over more than one line.
    pub multiline_token_support: Option<bool>,
    /// Whether the server may end a request with the error `ServerCancelled` (-32802). The client
    /// then has to send the request again. Since 3.17.
    pub server_cancel_support: Option<bool>,
    /// Whether the client colors with these tokens in addition to its own syntax tokens; if
    /// `false`, with these alone. Absent: unspecified. Since 3.17.
    pub augments_syntax_tokens: Option<bool>,
}

impl Clone for SemanticTokensClientCapabilities {
    ghost is_clone = { λ x y. ⟦<Option<bool> as Clone>⟧.is_clone
        x.dynamic_registration y.dynamic_registration
        × ⟦<SemanticTokensClientCapabilitiesRequests as Clone>⟧.is_clone x.requests y.requests
        × ⟦<Vec<SemanticTokenType> as Clone>⟧.is_clone x.token_types y.token_types
        × ⟦<Vec<SemanticTokenModifier> as Clone>⟧.is_clone x.token_modifiers y.token_modifiers
        × ⟦<Vec<TokenFormat> as Clone>⟧.is_clone x.formats y.formats
        × ⟦<Option<bool> as Clone>⟧.is_clone x.overlapping_token_support y.overlapping_token_support
        × ⟦<Option<bool> as Clone>⟧.is_clone x.multiline_token_support y.multiline_token_support
        × ⟦<Option<bool> as Clone>⟧.is_clone x.server_cancel_support y.server_cancel_support
        × ⟦<Option<bool> as Clone>⟧.is_clone x.augments_syntax_tokens y.augments_syntax_tokens };

    fn clone(&self) -> Result<SemanticTokensClientCapabilities, AllocError> {
        let mut copies = Copies::new();
        let copy = SemanticTokensClientCapabilities {
            dynamic_registration: copies.optional(&self.dynamic_registration),
            requests: self.requests.clone()?,
            token_types: self.token_types.clone()?,
            token_modifiers: self.token_modifiers.clone()?,
            formats: self.formats.clone()?,
            overlapping_token_support: copies.optional(&self.overlapping_token_support),
            multiline_token_support: copies.optional(&self.multiline_token_support),
            server_cancel_support: copies.optional(&self.server_cancel_support),
            augments_syntax_tokens: copies.optional(&self.augments_syntax_tokens),
        };
        copies.end(copy)
    }
}

impl SemanticTokensClientCapabilities {
    /// Sends no requests, and supports no token types, modifiers or formats.
    pub fn default(alloc: Global) -> SemanticTokensClientCapabilities
        ensures dynamic_registration { result.dynamic_registration ≡ None }
        ensures range { result.requests.range ≡ None }
        ensures full { result.requests.full ≡ None }
        ensures token_types { result.token_types.items ≡ [] }
        ensures token_modifiers { result.token_modifiers.items ≡ [] }
        ensures formats { result.formats.items ≡ [] }
        ensures overlapping_token_support { result.overlapping_token_support ≡ None }
        ensures multiline_token_support { result.multiline_token_support ≡ None }
        ensures server_cancel_support { result.server_cancel_support ≡ None }
        ensures augments_syntax_tokens { result.augments_syntax_tokens ≡ None }
    {
        SemanticTokensClientCapabilities {
            dynamic_registration: None,
            requests: SemanticTokensClientCapabilitiesRequests::default(),
            token_types: Vec::new(alloc),
            token_modifiers: Vec::new(alloc),
            formats: Vec::new(alloc),
            overlapping_token_support: None,
            multiline_token_support: None,
            server_cancel_support: None,
            augments_syntax_tokens: None,
        }
    }
}

#[tactic(auto, unfolding(crate::specs::Tokens::semantic_tokens_client_capabilities_row))]
impl Wire for SemanticTokensClientCapabilities {
    ghost shape = { semantic_tokens_client_capabilities_row.shape };

    ghost shown = { semantic_tokens_client_capabilities_row.shown };

    fn from_value(
        alloc: Global,
        value: &Value,
    ) -> Result<SemanticTokensClientCapabilities, Misfit> {
        let (
            (dynamic_registration, requests, token_types, token_modifiers, formats),
            (
                overlapping_token_support,
                multiline_token_support,
                server_cancel_support,
                augments_syntax_tokens,
            ),
        ) = read_object(
            alloc,
            value,
            (
                (
                    Optional("dynamicRegistration"),
                    Required("requests"),
                    Required("tokenTypes"),
                    Required("tokenModifiers"),
                    Required("formats"),
                ),
                (
                    Optional("overlappingTokenSupport"),
                    Optional("multilineTokenSupport"),
                    Optional("serverCancelSupport"),
                    Optional("augmentsSyntaxTokens"),
                ),
            ),
        )?;
        Ok(SemanticTokensClientCapabilities {
            dynamic_registration,
            requests,
            token_types,
            token_modifiers,
            formats,
            overlapping_token_support,
            multiline_token_support,
            server_cancel_support,
            augments_syntax_tokens,
        })
    }

    fn to_value(&self, alloc: Global) -> Result<Value, NoMemory> {
        let mut object = Writer::new(alloc);
        object.optional("dynamicRegistration", &self.dynamic_registration);
        object.field("requests", &self.requests);
        object.field("tokenTypes", &self.token_types);
        object.field("tokenModifiers", &self.token_modifiers);
        object.field("formats", &self.formats);
        object.optional("overlappingTokenSupport", &self.overlapping_token_support);
        object.optional("multilineTokenSupport", &self.multiline_token_support);
        object.optional("serverCancelSupport", &self.server_cancel_support);
        object.optional("augmentsSyntaxTokens", &self.augments_syntax_tokens);
        object.end()
    }
}

/// Which semantic token requests a client sends, if the server provides them. Since 3.16 (LSP 3.17,
/// "Semantic Tokens").
#[derive(Debug, PartialEq, Eq, Default, Clone, Drop)]
pub struct SemanticTokensClientCapabilitiesRequests {
    /// Whether the client sends `textDocument/semanticTokens/range`. LSP also allows an empty
    /// object here, for which reading fails.
    pub range: Option<bool>,
    /// Whether the client sends `textDocument/semanticTokens/full`, and whether it also sends
    /// `textDocument/semanticTokens/full/delta`.
    pub full: Option<SemanticTokensFullOptions>,
}

#[tactic(auto, unfolding(crate::specs::Tokens::semantic_tokens_client_capabilities_requests_row))]
impl Wire for SemanticTokensClientCapabilitiesRequests {
    ghost shape = { semantic_tokens_client_capabilities_requests_row.shape };

    ghost shown = { semantic_tokens_client_capabilities_requests_row.shown };

    fn from_value(
        alloc: Global,
        value: &Value,
    ) -> Result<SemanticTokensClientCapabilitiesRequests, Misfit> {
        let (range, full) = read_object(alloc, value, (Optional("range"), Optional("full")))?;
        Ok(SemanticTokensClientCapabilitiesRequests { range, full })
    }

    fn to_value(&self, alloc: Global) -> Result<Value, NoMemory> {
        let mut object = Writer::new(alloc);
        object.optional("range", &self.range);
        object.optional("full", &self.full);
        object.end()
    }
}
