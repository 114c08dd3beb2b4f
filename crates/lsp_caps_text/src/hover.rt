// Hovers.
ghost use Rattle.lsp_caps_text.specs.Hover.{hover_client_capabilities_row};

use lsp_names::MarkupKind;
use lsp_shape::{Misfit, NoMemory, Optional, Wire, Writer, read_object};
use serde_json::Value;
use std::alloc::Global;

/// What a client supports for `textDocument/hover`, as the capability `textDocument.hover` (LSP
/// 3.17, "Hover Request").
#[derive(Debug, PartialEq, Eq, Default, Clone, Drop)]
pub struct HoverClientCapabilities {
    /// Whether the server may register the feature after initialization, with
    /// `client/registerCapability`.
    pub dynamic_registration: Option<bool>,
    /// The markup kinds accepted in the contents of a hover, the preferred one first. Since 3.3.
    pub content_format: Option<Vec<MarkupKind>>,
}

#[tactic(auto, unfolding(crate::specs::Hover::hover_client_capabilities_row))]
impl Wire for HoverClientCapabilities {
    ghost shape = { hover_client_capabilities_row.shape };

    ghost shown = { hover_client_capabilities_row.shown };

    fn from_value(alloc: Global, value: &Value) -> Result<HoverClientCapabilities, Misfit> {
        let (dynamic_registration, content_format) = read_object(
            alloc,
            value,
            (Optional("dynamicRegistration"), Optional("contentFormat")),
        )?;
        Ok(HoverClientCapabilities {
            dynamic_registration,
            content_format,
        })
    }

    fn to_value(&self, alloc: Global) -> Result<Value, NoMemory> {
        let mut object = Writer::new(alloc);
        object.optional("dynamicRegistration", &self.dynamic_registration);
        object.optional("contentFormat", &self.content_format);
        object.end()
    }
}
