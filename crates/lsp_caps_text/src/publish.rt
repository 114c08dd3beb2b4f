// Diagnostics that a server publishes, and those that the client asks for.
ghost use Rattle.lsp_caps_text.specs.Publish.{publish_diagnostics_client_capabilities_row, diagnostic_client_capabilities_row};

use lsp_base::TagSupport;
use lsp_kinds::DiagnosticTag;
use lsp_shape::{Misfit, NoMemory, Optional, Supported, Wire, Writer, read_object};
use serde_json::Value;
use std::alloc::Global;

/// What a client supports for `textDocument/publishDiagnostics`, as the capability
/// `textDocument.publishDiagnostics` (LSP 3.17, "PublishDiagnostics Notification").
#[derive(Debug, PartialEq, Eq, Default, Clone, Drop)]
pub struct PublishDiagnosticsClientCapabilities {
    /// Whether a diagnostic may point to related locations. Since 3.7.
    pub related_information: Option<bool>,
    /// The diagnostic tags that the client supports. It also copes with other tags. Since 3.15.
    pub tag_support: Option<TagSupport<DiagnosticTag>>,
    /// Whether the client evaluates the document version in the notification. Since 3.15.
    pub version_support: Option<bool>,
    /// Whether the client evaluates `codeDescription`, a link to an explanation of the code. Since
    /// 3.16.
    pub code_description_support: Option<bool>,
    /// Whether the client keeps the `data` of a diagnostic and returns it in
    /// `textDocument/codeAction`. Since 3.16.
    pub data_support: Option<bool>,
}

#[tactic(auto, unfolding(crate::specs::Publish::publish_diagnostics_client_capabilities_row))]
impl Wire for PublishDiagnosticsClientCapabilities {
    ghost shape = { publish_diagnostics_client_capabilities_row.shape };

    ghost shown = { publish_diagnostics_client_capabilities_row.shown };

    fn from_value(
        alloc: Global,
        value: &Value,
    ) -> Result<PublishDiagnosticsClientCapabilities, Misfit> {
        let (
            related_information,
            tag_support,
            version_support,
            code_description_support,
            data_support,
        ) = read_object(
            alloc,
            value,
            (
                Optional("relatedInformation"),
                Supported("tagSupport"),
                Optional("versionSupport"),
                Optional("codeDescriptionSupport"),
                Optional("dataSupport"),
            ),
        )?;
        Ok(PublishDiagnosticsClientCapabilities {
            related_information,
            tag_support,
            version_support,
            code_description_support,
            data_support,
        })
    }

    fn to_value(&self, alloc: Global) -> Result<Value, NoMemory> {
        let mut object = Writer::new(alloc);
        object.optional("relatedInformation", &self.related_information);
        object.optional("tagSupport", &self.tag_support);
        object.optional("versionSupport", &self.version_support);
        object.optional("codeDescriptionSupport", &self.code_description_support);
        object.optional("dataSupport", &self.data_support);
        object.end()
    }
}

/// What a client supports for `textDocument/diagnostic`, by which it asks for diagnostics, as the
/// capability `textDocument.diagnostic`. Since 3.17 (LSP 3.17, "Pull Diagnostics").
#[derive(Debug, PartialEq, Eq, Default, Clone, Drop)]
pub struct DiagnosticClientCapabilities {
    /// Whether the server may register the feature after initialization, with
    /// `client/registerCapability`.
    pub dynamic_registration: Option<bool>,
    /// Whether the report on a document may also hold reports on related documents.
    pub related_document_support: Option<bool>,
}

#[tactic(auto, unfolding(crate::specs::Publish::diagnostic_client_capabilities_row))]
impl Wire for DiagnosticClientCapabilities {
    ghost shape = { diagnostic_client_capabilities_row.shape };

    ghost shown = { diagnostic_client_capabilities_row.shown };

    fn from_value(alloc: Global, value: &Value) -> Result<DiagnosticClientCapabilities, Misfit> {
        let (dynamic_registration, related_document_support) = read_object(
            alloc,
            value,
            (
                Optional("dynamicRegistration"),
                Optional("relatedDocumentSupport"),
            ),
        )?;
        Ok(DiagnosticClientCapabilities {
            dynamic_registration,
            related_document_support,
        })
    }

    fn to_value(&self, alloc: Global) -> Result<Value, NoMemory> {
        let mut object = Writer::new(alloc);
        object.optional("dynamicRegistration", &self.dynamic_registration);
        object.optional("relatedDocumentSupport", &self.related_document_support);
        object.end()
    }
}
