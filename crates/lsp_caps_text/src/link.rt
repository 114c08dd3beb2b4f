// Links in documents.
ghost use Rattle.lsp_caps_text.specs.Link.{document_link_client_capabilities_row};

use lsp_shape::{Misfit, NoMemory, Optional, Wire, Writer, read_object};
use serde_json::Value;
use std::alloc::Global;

/// What a client supports for `textDocument/documentLink`, as the capability
/// `textDocument.documentLink` (LSP 3.17, "Document Link Request").
#[derive(Debug, PartialEq, Eq, Clone, Drop)]
pub struct DocumentLinkClientCapabilities {
    /// Whether the server may register the feature after initialization, with
    /// `client/registerCapability`.
    pub dynamic_registration: Option<bool>,
    /// Whether the client shows the `tooltip` of a link. Since 3.15.
    pub tooltip_support: Option<bool>,
}

#[tactic(auto, unfolding(crate::specs::Link::document_link_client_capabilities_row))]
impl Wire for DocumentLinkClientCapabilities {
    ghost shape = { document_link_client_capabilities_row.shape };

    ghost shown = { document_link_client_capabilities_row.shown };

    fn from_value(alloc: Global, value: &Value) -> Result<DocumentLinkClientCapabilities, Misfit> {
        let (dynamic_registration, tooltip_support) = read_object(
            alloc,
            value,
            (Optional("dynamicRegistration"), Optional("tooltipSupport")),
        )?;
        Ok(DocumentLinkClientCapabilities {
            dynamic_registration,
            tooltip_support,
        })
    }

    fn to_value(&self, alloc: Global) -> Result<Value, NoMemory> {
        let mut object = Writer::new(alloc);
        object.optional("dynamicRegistration", &self.dynamic_registration);
        object.optional("tooltipSupport", &self.tooltip_support);
        object.end()
    }
}
