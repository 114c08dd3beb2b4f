// Inlay hints and inline values.
ghost use Rattle.std.specs.Prelude.{◌≡◌, []};
ghost use Rattle.lsp_caps_text.specs.Inline.{inlay_hint_client_capabilities_row, inlay_hint_resolve_client_capabilities_row};

use lsp_base::DynamicRegistrationClientCapabilities;
use lsp_shape::{Misfit, NoMemory, Optional, Required, Wire, Writer, read_object};
use serde_json::Value;
use std::alloc::Global;

/// What a client supports for `textDocument/inlayHint`, as the capability `textDocument.inlayHint`.
/// Since 3.17 (LSP 3.17, "Inlay Hint Request").
#[derive(Debug, PartialEq, Eq, Default, Clone, Drop)]
pub struct InlayHintClientCapabilities {
    /// Whether the server may register the feature after initialization, with
    /// `client/registerCapability`.
    pub dynamic_registration: Option<bool>,
    /// The fields that the client can fetch later with `inlayHint/resolve`. Absent: none.
    pub resolve_support: Option<InlayHintResolveClientCapabilities>,
}

#[tactic(auto, unfolding(crate::specs::Inline::inlay_hint_client_capabilities_row))]
impl Wire for InlayHintClientCapabilities {
    ghost shape = { inlay_hint_client_capabilities_row.shape };

    ghost shown = { inlay_hint_client_capabilities_row.shown };

    fn from_value(alloc: Global, value: &Value) -> Result<InlayHintClientCapabilities, Misfit> {
        let (dynamic_registration, resolve_support) = read_object(
            alloc,
            value,
            (Optional("dynamicRegistration"), Optional("resolveSupport")),
        )?;
        Ok(InlayHintClientCapabilities {
            dynamic_registration,
            resolve_support,
        })
    }

    fn to_value(&self, alloc: Global) -> Result<Value, NoMemory> {
        let mut object = Writer::new(alloc);
        object.optional("dynamicRegistration", &self.dynamic_registration);
        object.optional("resolveSupport", &self.resolve_support);
        object.end()
    }
}

/// The fields of an inlay hint that a client can fetch later, with `inlayHint/resolve`. Since 3.17
/// (LSP 3.17, "Inlay Hint Request").
#[derive(Debug, PartialEq, Eq, Clone, Drop)]
pub struct InlayHintResolveClientCapabilities {
    /// The names of the fields, such as `tooltip`.
    pub properties: Vec<String>,
}

impl InlayHintResolveClientCapabilities {
    /// No fields.
    pub fn default(alloc: Global) -> InlayHintResolveClientCapabilities
        ensures properties { result.properties.items ≡ [] }
    {
        InlayHintResolveClientCapabilities {
            properties: Vec::new(alloc),
        }
    }
}

#[tactic(auto, unfolding(crate::specs::Inline::inlay_hint_resolve_client_capabilities_row))]
impl Wire for InlayHintResolveClientCapabilities {
    ghost shape = { inlay_hint_resolve_client_capabilities_row.shape };

    ghost shown = { inlay_hint_resolve_client_capabilities_row.shown };

    fn from_value(
        alloc: Global,
        value: &Value,
    ) -> Result<InlayHintResolveClientCapabilities, Misfit> {
        let properties = read_object(alloc, value, Required("properties"))?;
        Ok(InlayHintResolveClientCapabilities { properties })
    }

    fn to_value(&self, alloc: Global) -> Result<Value, NoMemory> {
        let mut object = Writer::new(alloc);
        object.field("properties", &self.properties);
        object.end()
    }
}

/// What a client supports for `textDocument/inlineValue`, as the capability
/// `textDocument.inlineValue`. Since 3.17 (LSP 3.17, "Inline Value Request").
pub type InlineValueClientCapabilities = DynamicRegistrationClientCapabilities;
