// Help on signatures.
ghost use Rattle.lsp_caps_text.specs.SignatureHelp.{signature_help_client_capabilities_row, signature_information_settings_row, parameter_information_settings_row};

use lsp_names::MarkupKind;
use lsp_shape::{Misfit, NoMemory, Optional, Wire, Writer, read_object};
use serde_json::Value;
use std::alloc::Global;

/// What a client supports for `textDocument/signatureHelp`, as the capability
/// `textDocument.signatureHelp` (LSP 3.17, "Signature Help Request").
#[derive(Debug, PartialEq, Eq, Default, Clone, Drop)]
pub struct SignatureHelpClientCapabilities {
    /// Whether the server may register the feature after initialization, with
    /// `client/registerCapability`.
    pub dynamic_registration: Option<bool>,
    /// What the client supports in a single signature.
    pub signature_information: Option<SignatureInformationSettings>,
    /// Whether the client says in the request how signature help was triggered. If so, it also
    /// honors the server's retrigger characters. Since 3.15.
    pub context_support: Option<bool>,
}

#[tactic(auto, unfolding(crate::specs::SignatureHelp::signature_help_client_capabilities_row))]
impl Wire for SignatureHelpClientCapabilities {
    ghost shape = { signature_help_client_capabilities_row.shape };

    ghost shown = { signature_help_client_capabilities_row.shown };

    fn from_value(alloc: Global, value: &Value) -> Result<SignatureHelpClientCapabilities, Misfit> {
        let (dynamic_registration, signature_information, context_support) = read_object(
            alloc,
            value,
            (
                Optional("dynamicRegistration"),
                Optional("signatureInformation"),
                Optional("contextSupport"),
            ),
        )?;
        Ok(SignatureHelpClientCapabilities {
            dynamic_registration,
            signature_information,
            context_support,
        })
    }

    fn to_value(&self, alloc: Global) -> Result<Value, NoMemory> {
        let mut object = Writer::new(alloc);
        object.optional("dynamicRegistration", &self.dynamic_registration);
        object.optional("signatureInformation", &self.signature_information);
        object.optional("contextSupport", &self.context_support);
        object.end()
    }
}

/// What a client supports in a signature, as the capability
/// `textDocument.signatureHelp.signatureInformation` (LSP 3.17, "Signature Help Request").
#[derive(Debug, PartialEq, Eq, Default, Clone, Drop)]
pub struct SignatureInformationSettings {
    /// The markup kinds accepted in the documentation of signatures, the preferred one first. Since
    /// 3.3.
    pub documentation_format: Option<Vec<MarkupKind>>,
    /// What the client supports in a parameter of a signature.
    pub parameter_information: Option<ParameterInformationSettings>,
    /// Whether each signature may have its own `activeParameter`. Since 3.16.
    pub active_parameter_support: Option<bool>,
}

#[tactic(auto, unfolding(crate::specs::SignatureHelp::signature_information_settings_row))]
impl Wire for SignatureInformationSettings {
    ghost shape = { signature_information_settings_row.shape };

    ghost shown = { signature_information_settings_row.shown };

    fn from_value(alloc: Global, value: &Value) -> Result<SignatureInformationSettings, Misfit> {
        let (documentation_format, parameter_information, active_parameter_support) = read_object(
            alloc,
            value,
            (
                Optional("documentationFormat"),
                Optional("parameterInformation"),
                Optional("activeParameterSupport"),
            ),
        )?;
        Ok(SignatureInformationSettings {
            documentation_format,
            parameter_information,
            active_parameter_support,
        })
    }

    fn to_value(&self, alloc: Global) -> Result<Value, NoMemory> {
        let mut object = Writer::new(alloc);
        object.optional("documentationFormat", &self.documentation_format);
        object.optional("parameterInformation", &self.parameter_information);
        object.optional("activeParameterSupport", &self.active_parameter_support);
        object.end()
    }
}

/// What a client supports in a parameter of a signature, as the capability
/// `textDocument.signatureHelp.signatureInformation.parameterInformation` (LSP 3.17, "Signature
/// Help Request").
#[derive(Debug, PartialEq, Eq, Default, Clone, Drop)]
pub struct ParameterInformationSettings {
    /// Whether a parameter's label may be a pair of offsets, in UTF-16 code units, into the label
    /// of its signature, in place of a string. Since 3.14.
    pub label_offset_support: Option<bool>,
}

#[tactic(auto, unfolding(crate::specs::SignatureHelp::parameter_information_settings_row))]
impl Wire for ParameterInformationSettings {
    ghost shape = { parameter_information_settings_row.shape };

    ghost shown = { parameter_information_settings_row.shown };

    fn from_value(alloc: Global, value: &Value) -> Result<ParameterInformationSettings, Misfit> {
        let label_offset_support = read_object(alloc, value, Optional("labelOffsetSupport"))?;
        Ok(ParameterInformationSettings {
            label_offset_support,
        })
    }

    fn to_value(&self, alloc: Global) -> Result<Value, NoMemory> {
        let mut object = Writer::new(alloc);
        object.optional("labelOffsetSupport", &self.label_offset_support);
        object.end()
    }
}
