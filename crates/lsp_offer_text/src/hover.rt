// Hovers.
ghost use Rattle.std.specs.Prelude.{◌≡◌};
ghost use Rattle.lsp_offer_text.specs.Hover.{hover_provider_capability_row, hover_options_row, hover_registration_options_row};
ghost use Rattle.lsp_offer_text.specs.declared.hover.HoverProviderCapability.TheVariants as hover_provider_capability;

use lsp_base::TextDocumentRegistrationOptions;
use lsp_names::WorkDoneProgressOptions;
use lsp_shape::{Misfit, NoMemory, Reader, Wire, Writer, attempt, flat, form};
use serde_json::Value;
use std::alloc::Global;

/// Whether a server supports `textDocument/hover`, as the capability `hoverProvider` (LSP 3.17,
/// "Hover Request").
#[derive(Debug, PartialEq, Eq, Clone, Drop)]
pub enum HoverProviderCapability {
    /// `true` if the request is supported.
    Simple(bool),
    /// The request is supported, with these options.
    Options(HoverOptions),
}

#[tactic(auto, unfolding(crate::specs::Hover::hover_provider_capability_row))]
impl Wire for HoverProviderCapability {
    ghost shape = { hover_provider_capability_row.shape };

    ghost shown = { hover_provider_capability_row.shown };

    fn from_value(alloc: Global, value: &Value) -> Result<HoverProviderCapability, Misfit> {
        if let Some(simple) = attempt(alloc, value)? {
            return Ok(HoverProviderCapability::Simple(simple));
        }
        Ok(HoverProviderCapability::Options(form(alloc, value)?))
    }

    fn to_value(&self, alloc: Global) -> Result<Value, NoMemory> {
        match self {
            HoverProviderCapability::Simple(simple) => simple.to_value(alloc),
            HoverProviderCapability::Options(options) => options.to_value(alloc),
        }
    }
}

impl From<HoverOptions> for HoverProviderCapability {
    ghost from_gives = { λ given made. made ≡ hover_provider_capability.Options given };

    fn from(options: HoverOptions) -> HoverProviderCapability {
        HoverProviderCapability::Options(options)
    }
}

impl From<bool> for HoverProviderCapability {
    ghost from_gives = { λ given made. made ≡ hover_provider_capability.Simple given };

    fn from(simple: bool) -> HoverProviderCapability {
        HoverProviderCapability::Simple(simple)
    }
}

/// What a server offers for `textDocument/hover` (LSP 3.17, "Hover Request").
#[derive(Debug, PartialEq, Eq, Default, Clone, Drop)]
pub struct HoverOptions {
    /// Whether the server reports work done progress for these requests where the client sends a
    /// token. Since 3.15.
    pub work_done_progress_options: WorkDoneProgressOptions,
}

#[tactic(auto, unfolding(crate::specs::Hover::hover_options_row, lsp_names::specs::Progress::work_done_progress_options_row))]
impl Wire for HoverOptions {
    ghost shape = { hover_options_row.shape };

    ghost shown = { hover_options_row.shown };

    fn from_value(alloc: Global, value: &Value) -> Result<HoverOptions, Misfit> {
        Ok(HoverOptions {
            work_done_progress_options: flat(alloc, value)?,
        })
    }

    fn to_value(&self, alloc: Global) -> Result<Value, NoMemory> {
        let mut object = Writer::new(alloc);
        object.flat(&self.work_done_progress_options);
        object.end()
    }
}

/// The options with which a server registers `textDocument/hover` (LSP 3.17, "Hover Request").
#[derive(Debug, PartialEq, Eq, Default, Clone, Drop)]
pub struct HoverRegistrationOptions {
    /// The documents that the registration applies to.
    pub text_document_registration_options: TextDocumentRegistrationOptions,
    /// What the server offers for the documents of the registration.
    pub hover_options: HoverOptions,
}

#[tactic(auto, unfolding(crate::specs::Hover::hover_registration_options_row, lsp_base::specs::Registration::text_document_registration_options_row, crate::specs::Hover::hover_options_row, lsp_names::specs::Progress::work_done_progress_options_row))]
impl Wire for HoverRegistrationOptions {
    ghost shape = { hover_registration_options_row.shape };

    ghost shown = { hover_registration_options_row.shown };

    fn from_value(alloc: Global, value: &Value) -> Result<HoverRegistrationOptions, Misfit> {
        Ok(HoverRegistrationOptions {
            text_document_registration_options: flat(alloc, value)?,
            hover_options: flat(alloc, value)?,
        })
    }

    fn to_value(&self, alloc: Global) -> Result<Value, NoMemory> {
        let mut object = Writer::new(alloc);
        object.flat(&self.text_document_registration_options);
        object.flat(&self.hover_options);
        object.end()
    }
}
