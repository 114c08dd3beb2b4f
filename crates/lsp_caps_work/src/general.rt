// The protocol itself.
ghost use Rattle.std.specs.Prelude.{◌≡◌, None, [], false, string_bytes};
ghost use Rattle.lsp_caps_work.specs.General.{general_client_capabilities_row, stale_request_support_client_capabilities_row, regular_expressions_client_capabilities_row, markdown_client_capabilities_row};

use lsp_names::PositionEncodingKind;
use lsp_shape::{Copies, Misfit, NoMemory, Optional, Required, Wire, Writer, read_object};
use serde_json::Value;
use std::alloc::{AllocError, Global};

/// What a client supports in the protocol as a whole, as `general` in its capabilities in
/// `initialize`. Since 3.16 (LSP 3.17, "Initialize Request").
#[derive(Debug, PartialEq, Default, Drop)]
pub struct GeneralClientCapabilities {
    /// The client's regular expression engine. Since 3.16.
    pub regular_expressions: Option<RegularExpressionsClientCapabilities>,
    /// How the client parses Markdown. Since 3.16.
    pub markdown: Option<MarkdownClientCapabilities>,
    /// How the client treats requests whose result is out of date. Since 3.17.
    pub stale_request_support: Option<StaleRequestSupportClientCapabilities>,
    /// The encodings in which the client can count the characters of a position, the preferred one
    /// first. UTF-16 is always supported, even if it isn't named. Absent: only UTF-16. Since 3.17.
    pub position_encodings: Option<Vec<PositionEncodingKind>>,
}

impl Clone for GeneralClientCapabilities {
    ghost is_clone = { λ x y. ⟦<Option<RegularExpressionsClientCapabilities> as Clone>⟧.is_clone
        x.regular_expressions y.regular_expressions
        × ⟦<Option<MarkdownClientCapabilities> as Clone>⟧.is_clone x.markdown y.markdown
        × ⟦<Option<StaleRequestSupportClientCapabilities> as Clone>⟧.is_clone
        x.stale_request_support y.stale_request_support
        × ⟦<Option<Vec<PositionEncodingKind>> as Clone>⟧.is_clone
        x.position_encodings y.position_encodings };

    fn clone(&self) -> Result<GeneralClientCapabilities, AllocError> {
        let mut copies = Copies::new();
        let copy = GeneralClientCapabilities {
            regular_expressions: copies.optional(&self.regular_expressions),
            markdown: copies.optional(&self.markdown),
            stale_request_support: copies.optional(&self.stale_request_support),
            position_encodings: copies.optional(&self.position_encodings),
        };
        copies.end(copy)
    }
}

#[tactic(auto, unfolding(crate::specs::General::general_client_capabilities_row))]
impl Wire for GeneralClientCapabilities {
    ghost shape = { general_client_capabilities_row.shape };

    ghost shown = { general_client_capabilities_row.shown };

    fn from_value(alloc: Global, value: &Value) -> Result<GeneralClientCapabilities, Misfit> {
        let (regular_expressions, markdown, stale_request_support, position_encodings) =
            read_object(
                alloc,
                value,
                (
                    Optional("regularExpressions"),
                    Optional("markdown"),
                    Optional("staleRequestSupport"),
                    Optional("positionEncodings"),
                ),
            )?;
        Ok(GeneralClientCapabilities {
            regular_expressions,
            markdown,
            stale_request_support,
            position_encodings,
        })
    }

    fn to_value(&self, alloc: Global) -> Result<Value, NoMemory> {
        let mut object = Writer::new(alloc);
        object.optional("regularExpressions", &self.regular_expressions);
        object.optional("markdown", &self.markdown);
        object.optional("staleRequestSupport", &self.stale_request_support);
        object.optional("positionEncodings", &self.position_encodings);
        object.end()
    }
}

/// How a client treats requests whose result is out of date, as the capability
/// `general.staleRequestSupport`. Since 3.17 (LSP 3.17, "Initialize Request").
#[derive(Debug, PartialEq, Clone, Drop)]
pub struct StaleRequestSupportClientCapabilities {
    /// Whether the client cancels such a request.
    pub cancel: bool,
    /// The methods of the requests that the client sends again after a response with the error
    /// `ContentModified` (-32801).
    pub retry_on_content_modified: Vec<String>,
}

impl StaleRequestSupportClientCapabilities {
    /// The default value: empty strings and arrays, zero numbers, `false` booleans, and every
    /// optional field absent.
    pub fn default(alloc: Global) -> StaleRequestSupportClientCapabilities
        ensures cancel { result.cancel ≡ false }
        ensures retry_on_content_modified { result.retry_on_content_modified.items ≡ [] }
    {
        StaleRequestSupportClientCapabilities {
            cancel: false,
            retry_on_content_modified: Vec::new(alloc),
        }
    }
}

#[tactic(auto, unfolding(crate::specs::General::stale_request_support_client_capabilities_row))]
impl Wire for StaleRequestSupportClientCapabilities {
    ghost shape = { stale_request_support_client_capabilities_row.shape };

    ghost shown = { stale_request_support_client_capabilities_row.shown };

    fn from_value(
        alloc: Global,
        value: &Value,
    ) -> Result<StaleRequestSupportClientCapabilities, Misfit> {
        let (cancel, retry_on_content_modified) = read_object(
            alloc,
            value,
            (Required("cancel"), Required("retryOnContentModified")),
        )?;
        Ok(StaleRequestSupportClientCapabilities {
            cancel,
            retry_on_content_modified,
        })
    }

    fn to_value(&self, alloc: Global) -> Result<Value, NoMemory> {
        let mut object = Writer::new(alloc);
        object.field("cancel", &self.cancel);
        object.field("retryOnContentModified", &self.retry_on_content_modified);
        object.end()
    }
}

/// The regular expression engine of a client, as the capability `general.regularExpressions`. Since
/// 3.16 (LSP 3.17, "Regular Expressions").
#[derive(Debug, PartialEq, Clone, Drop)]
pub struct RegularExpressionsClientCapabilities {
    /// What the engine is called, such as `ECMAScript`.
    pub engine: String,
    /// The engine's version, if known.
    pub version: Option<String>,
}

impl RegularExpressionsClientCapabilities {
    /// The default value: empty strings and arrays, zero numbers, `false` booleans, and every
    /// optional field absent.
    pub fn default(alloc: Global) -> RegularExpressionsClientCapabilities
        ensures engine { string_bytes result.engine ≡ [] }
        ensures version { result.version ≡ None }
    {
        RegularExpressionsClientCapabilities {
            engine: String::new(alloc),
            version: None,
        }
    }
}

#[tactic(auto, unfolding(crate::specs::General::regular_expressions_client_capabilities_row))]
impl Wire for RegularExpressionsClientCapabilities {
    ghost shape = { regular_expressions_client_capabilities_row.shape };

    ghost shown = { regular_expressions_client_capabilities_row.shown };

    fn from_value(
        alloc: Global,
        value: &Value,
    ) -> Result<RegularExpressionsClientCapabilities, Misfit> {
        let (engine, version) = read_object(
            alloc,
            value,
            (Required("engine"), Optional("version")),
        )?;
        Ok(RegularExpressionsClientCapabilities { engine, version })
    }

    fn to_value(&self, alloc: Global) -> Result<Value, NoMemory> {
        let mut object = Writer::new(alloc);
        object.field("engine", &self.engine);
        object.optional("version", &self.version);
        object.end()
    }
}

/// The Markdown parser of a client, as the capability `general.markdown`. Since 3.16 (LSP 3.17,
/// "MarkupContent").
#[derive(Debug, PartialEq, Clone, Drop)]
pub struct MarkdownClientCapabilities {
    /// What the parser is called, such as `marked`.
    pub parser: String,
    /// The parser's version, if known.
    pub version: Option<String>,
    /// The names of the HTML tags that Markdown content may use. Since 3.17.
    pub allowed_tags: Option<Vec<String>>,
}

impl MarkdownClientCapabilities {
    /// The default value: empty strings and arrays, zero numbers, `false` booleans, and every
    /// optional field absent.
    pub fn default(alloc: Global) -> MarkdownClientCapabilities
        ensures parser { string_bytes result.parser ≡ [] }
        ensures version { result.version ≡ None }
        ensures allowed_tags { result.allowed_tags ≡ None }
    {
        MarkdownClientCapabilities {
            parser: String::new(alloc),
            version: None,
            allowed_tags: None,
        }
    }
}

#[tactic(auto, unfolding(crate::specs::General::markdown_client_capabilities_row))]
impl Wire for MarkdownClientCapabilities {
    ghost shape = { markdown_client_capabilities_row.shape };

    ghost shown = { markdown_client_capabilities_row.shown };

    fn from_value(alloc: Global, value: &Value) -> Result<MarkdownClientCapabilities, Misfit> {
        let (parser, version, allowed_tags) = read_object(
            alloc,
            value,
            (
                Required("parser"),
                Optional("version"),
                Optional("allowedTags"),
            ),
        )?;
        Ok(MarkdownClientCapabilities {
            parser,
            version,
            allowed_tags,
        })
    }

    fn to_value(&self, alloc: Global) -> Result<Value, NoMemory> {
        let mut object = Writer::new(alloc);
        object.field("parser", &self.parser);
        object.optional("version", &self.version);
        object.optional("allowedTags", &self.allowed_tags);
        object.end()
    }
}
