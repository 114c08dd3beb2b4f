// Ranges that can be selected, and ranges that are edited together.
ghost use Rattle.lsp_caps_text.specs.Selection.{selection_range_client_capabilities_row};

use lsp_base::DynamicRegistrationClientCapabilities;
use lsp_shape::{Misfit, NoMemory, Optional, Wire, Writer, read_object};
use serde_json::Value;
use std::alloc::Global;

/// What a client supports for `textDocument/selectionRange`, as the capability
/// `textDocument.selectionRange`. Since 3.15 (LSP 3.17, "Selection Range Request").
#[derive(Debug, PartialEq, Eq, Default, Clone, Drop)]
pub struct SelectionRangeClientCapabilities {
    /// Whether the server may register the feature after initialization, with
    /// `client/registerCapability`.
    pub dynamic_registration: Option<bool>,
}

#[tactic(auto, unfolding(crate::specs::Selection::selection_range_client_capabilities_row))]
impl Wire for SelectionRangeClientCapabilities {
    ghost shape = { selection_range_client_capabilities_row.shape };

    ghost shown = { selection_range_client_capabilities_row.shown };

    fn from_value(
        alloc: Global,
        value: &Value,
    ) -> Result<SelectionRangeClientCapabilities, Misfit> {
        let dynamic_registration = read_object(alloc, value, Optional("dynamicRegistration"))?;
        Ok(SelectionRangeClientCapabilities {
            dynamic_registration,
        })
    }

    fn to_value(&self, alloc: Global) -> Result<Value, NoMemory> {
        let mut object = Writer::new(alloc);
        object.optional("dynamicRegistration", &self.dynamic_registration);
        object.end()
    }
}

/// What a client supports for `textDocument/linkedEditingRange`, as the capability
/// `textDocument.linkedEditingRange`. Since 3.16 (LSP 3.17, "Linked Editing Range").
pub type LinkedEditingRangeClientCapabilities = DynamicRegistrationClientCapabilities;
