// Renaming.
ghost use Rattle.lsp_caps_text.specs.Rename.{rename_client_capabilities_row};

use lsp_kinds::PrepareSupportDefaultBehavior;
use lsp_shape::{Misfit, NoMemory, Optional, Wire, Writer, read_object};
use serde_json::Value;
use std::alloc::Global;

/// What a client supports for `textDocument/rename`, as the capability `textDocument.rename` (LSP
/// 3.17, "Rename Request").
#[derive(Debug, PartialEq, Eq, Default, Clone, Drop)]
pub struct RenameClientCapabilities {
    /// Whether the server may register the feature after initialization, with
    /// `client/registerCapability`.
    pub dynamic_registration: Option<bool>,
    /// Whether the client sends `textDocument/prepareRename` to check that a rename is possible.
    /// Since 3.12.
    pub prepare_support: Option<bool>,
    /// How the client finds the text to rename when the response to `textDocument/prepareRename`
    /// says `defaultBehavior`. Absent: it must not say so. Since 3.16.
    pub prepare_support_default_behavior: Option<PrepareSupportDefaultBehavior>,
    /// Whether the client takes account of change annotations in the edit of a rename, for example
    /// by asking the user to confirm. Since 3.16.
    pub honors_change_annotations: Option<bool>,
}

#[tactic(auto, unfolding(crate::specs::Rename::rename_client_capabilities_row))]
impl Wire for RenameClientCapabilities {
    ghost shape = { rename_client_capabilities_row.shape };

    ghost shown = { rename_client_capabilities_row.shown };

    fn from_value(alloc: Global, value: &Value) -> Result<RenameClientCapabilities, Misfit> {
        let (
            dynamic_registration,
            prepare_support,
            prepare_support_default_behavior,
            honors_change_annotations,
        ) = read_object(
            alloc,
            value,
            (
                Optional("dynamicRegistration"),
                Optional("prepareSupport"),
                Optional("prepareSupportDefaultBehavior"),
                Optional("honorsChangeAnnotations"),
            ),
        )?;
        Ok(RenameClientCapabilities {
            dynamic_registration,
            prepare_support,
            prepare_support_default_behavior,
            honors_change_annotations,
        })
    }

    fn to_value(&self, alloc: Global) -> Result<Value, NoMemory> {
        let mut object = Writer::new(alloc);
        object.optional("dynamicRegistration", &self.dynamic_registration);
        object.optional("prepareSupport", &self.prepare_support);
        object.optional(
            "prepareSupportDefaultBehavior",
            &self.prepare_support_default_behavior,
        );
        object.optional("honorsChangeAnnotations", &self.honors_change_annotations);
        object.end()
    }
}
