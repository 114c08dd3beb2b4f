// Colors and ranges that can be folded.
ghost use Rattle.std.specs.Prelude.{◌≡◌};
ghost use Rattle.lsp_offer_lang.specs.Color.{color_provider_capability_row, color_provider_options_row, static_text_document_color_provider_options_row, folding_range_provider_capability_row, folding_provider_options_row};
ghost use Rattle.lsp_offer_lang.specs.declared.color.ColorProviderCapability.TheVariants as color_provider_capability;
ghost use Rattle.lsp_offer_lang.specs.declared.color.FoldingRangeProviderCapability.TheVariants as folding_range_provider_capability;

use lsp_base::DocumentSelector;
use lsp_shape::{Misfit, NoMemory, Optional, Reader, Wire, Writer, attempt, form, read_object};
use serde_json::Value;
use std::alloc::Global;

/// Whether a server supports `textDocument/documentColor` and `textDocument/colorPresentation`, as
/// the capability `colorProvider`. Since 3.6 (LSP 3.17, "Document Color Request").
#[derive(Debug, PartialEq, Eq, Clone, Drop)]
pub enum ColorProviderCapability {
    /// `true` if the requests are supported.
    Simple(bool),
    /// The requests are supported, without a choice of documents. Every JSON object is read as this
    /// variant.
    ColorProvider(ColorProviderOptions),
    /// The requests are supported for the selected documents. For sending only: such an object is
    /// read as `ColorProvider`.
    Options(StaticTextDocumentColorProviderOptions),
}

#[tactic(auto, unfolding(crate::specs::Color::color_provider_capability_row))]
impl Wire for ColorProviderCapability {
    ghost shape = { color_provider_capability_row.shape };

    ghost shown = { color_provider_capability_row.shown };

    fn from_value(alloc: Global, value: &Value) -> Result<ColorProviderCapability, Misfit> {
        if let Some(simple) = attempt(alloc, value)? {
            return Ok(ColorProviderCapability::Simple(simple));
        }
        if let Some(provider) = attempt(alloc, value)? {
            return Ok(ColorProviderCapability::ColorProvider(provider));
        }
        Ok(ColorProviderCapability::Options(form(alloc, value)?))
    }

    fn to_value(&self, alloc: Global) -> Result<Value, NoMemory> {
        match self {
            ColorProviderCapability::Simple(simple) => simple.to_value(alloc),
            ColorProviderCapability::ColorProvider(provider) => provider.to_value(alloc),
            ColorProviderCapability::Options(options) => options.to_value(alloc),
        }
    }
}

impl From<ColorProviderOptions> for ColorProviderCapability {
    ghost from_gives = { λ given made. made ≡ color_provider_capability.ColorProvider given };

    fn from(provider: ColorProviderOptions) -> ColorProviderCapability {
        ColorProviderCapability::ColorProvider(provider)
    }
}

impl From<StaticTextDocumentColorProviderOptions> for ColorProviderCapability {
    ghost from_gives = { λ given made. made ≡ color_provider_capability.Options given };

    fn from(options: StaticTextDocumentColorProviderOptions) -> ColorProviderCapability {
        ColorProviderCapability::Options(options)
    }
}

impl From<bool> for ColorProviderCapability {
    ghost from_gives = { λ given made. made ≡ color_provider_capability.Simple given };

    fn from(simple: bool) -> ColorProviderCapability {
        ColorProviderCapability::Simple(simple)
    }
}

/// Says that colors are supported, without further options: an empty JSON object, since 3.6 (LSP
/// 3.17, "Document Color Request").
#[derive(Debug, PartialEq, Eq, Clone, Drop)]
pub struct ColorProviderOptions {}

#[tactic(auto, unfolding(crate::specs::Color::color_provider_options_row))]
impl Wire for ColorProviderOptions {
    ghost shape = { color_provider_options_row.shape };

    ghost shown = { color_provider_options_row.shown };

    fn from_value(alloc: Global, value: &Value) -> Result<ColorProviderOptions, Misfit> {
        Reader::new(alloc, value)?;
        Ok(ColorProviderOptions {})
    }

    fn to_value(&self, alloc: Global) -> Result<Value, NoMemory> {
        let object = Writer::new(alloc);
        object.end()
    }
}

/// The documents for which a server offers colors or folding ranges, and the id of that
/// registration (LSP 3.17, "Document Color Request").
#[derive(Debug, PartialEq, Eq, Clone, Drop)]
pub struct StaticTextDocumentColorProviderOptions {
    /// The documents that the registration applies to. `None`, sent as `null`: those that the
    /// client selects itself.
    pub document_selector: Option<DocumentSelector>,
    /// The id with which the server can unregister the feature later, using
    /// `client/unregisterCapability`. Absent: it can't.
    pub id: Option<String>,
}

#[tactic(auto, unfolding(crate::specs::Color::static_text_document_color_provider_options_row))]
impl Wire for StaticTextDocumentColorProviderOptions {
    ghost shape = { static_text_document_color_provider_options_row.shape };

    ghost shown = { static_text_document_color_provider_options_row.shown };

    fn from_value(
        alloc: Global,
        value: &Value,
    ) -> Result<StaticTextDocumentColorProviderOptions, Misfit> {
        let (document_selector, id) = read_object(
            alloc,
            value,
            (Optional("documentSelector"), Optional("id")),
        )?;
        Ok(StaticTextDocumentColorProviderOptions {
            document_selector,
            id,
        })
    }

    fn to_value(&self, alloc: Global) -> Result<Value, NoMemory> {
        let mut object = Writer::new(alloc);
        object.nullable("documentSelector", &self.document_selector);
        object.optional("id", &self.id);
        object.end()
    }
}

/// Whether a server supports `textDocument/foldingRange`, as the capability `foldingRangeProvider`.
/// Since 3.10 (LSP 3.17, "Folding Range Request").
#[derive(Debug, PartialEq, Eq, Clone, Drop)]
pub enum FoldingRangeProviderCapability {
    /// `true` if the request is supported.
    Simple(bool),
    /// The request is supported, without a choice of documents. Every JSON object is read as this
    /// variant.
    FoldingProvider(FoldingProviderOptions),
    /// The request is supported for the selected documents. For sending only: such an object is
    /// read as `FoldingProvider`.
    Options(StaticTextDocumentColorProviderOptions),
}

#[tactic(auto, unfolding(crate::specs::Color::folding_range_provider_capability_row))]
impl Wire for FoldingRangeProviderCapability {
    ghost shape = { folding_range_provider_capability_row.shape };

    ghost shown = { folding_range_provider_capability_row.shown };

    fn from_value(alloc: Global, value: &Value) -> Result<FoldingRangeProviderCapability, Misfit> {
        if let Some(simple) = attempt(alloc, value)? {
            return Ok(FoldingRangeProviderCapability::Simple(simple));
        }
        if let Some(provider) = attempt(alloc, value)? {
            return Ok(FoldingRangeProviderCapability::FoldingProvider(provider));
        }
        Ok(FoldingRangeProviderCapability::Options(form(alloc, value)?))
    }

    fn to_value(&self, alloc: Global) -> Result<Value, NoMemory> {
        match self {
            FoldingRangeProviderCapability::Simple(simple) => simple.to_value(alloc),
            FoldingRangeProviderCapability::FoldingProvider(provider) => provider.to_value(alloc),
            FoldingRangeProviderCapability::Options(options) => options.to_value(alloc),
        }
    }
}

impl From<StaticTextDocumentColorProviderOptions> for FoldingRangeProviderCapability {
    ghost from_gives = { λ given made. made ≡ folding_range_provider_capability.Options given };

    fn from(options: StaticTextDocumentColorProviderOptions) -> FoldingRangeProviderCapability {
        FoldingRangeProviderCapability::Options(options)
    }
}

impl From<FoldingProviderOptions> for FoldingRangeProviderCapability {
    ghost from_gives = { λ given made. made
        ≡ folding_range_provider_capability.FoldingProvider given };

    fn from(provider: FoldingProviderOptions) -> FoldingRangeProviderCapability {
        FoldingRangeProviderCapability::FoldingProvider(provider)
    }
}

impl From<bool> for FoldingRangeProviderCapability {
    ghost from_gives = { λ given made. made ≡ folding_range_provider_capability.Simple given };

    fn from(simple: bool) -> FoldingRangeProviderCapability {
        FoldingRangeProviderCapability::Simple(simple)
    }
}

/// Says that folding ranges are supported, without further options: an empty JSON object, since
/// 3.10 (LSP 3.17, "Folding Range Request").
#[derive(Debug, PartialEq, Eq, Clone, Drop)]
pub struct FoldingProviderOptions {}

#[tactic(auto, unfolding(crate::specs::Color::folding_provider_options_row))]
impl Wire for FoldingProviderOptions {
    ghost shape = { folding_provider_options_row.shape };

    ghost shown = { folding_provider_options_row.shown };

    fn from_value(alloc: Global, value: &Value) -> Result<FoldingProviderOptions, Misfit> {
        Reader::new(alloc, value)?;
        Ok(FoldingProviderOptions {})
    }

    fn to_value(&self, alloc: Global) -> Result<Value, NoMemory> {
        let object = Writer::new(alloc);
        object.end()
    }
}
