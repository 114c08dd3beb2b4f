// Documents that are opened, changed, saved and closed.
ghost use Rattle.lsp_caps_text.specs.Sync.{text_document_sync_client_capabilities_row};

use lsp_shape::{Misfit, NoMemory, Optional, Wire, Writer, read_object};
use serde_json::Value;
use std::alloc::Global;

/// Which notifications and requests around saving a client sends, as the capability
/// `textDocument.synchronization` (LSP 3.17, "Text Document Synchronization").
#[derive(Debug, PartialEq, Eq, Default, Clone, Drop)]
pub struct TextDocumentSyncClientCapabilities {
    /// Whether the server may register the feature after initialization, with
    /// `client/registerCapability`.
    pub dynamic_registration: Option<bool>,
    /// Whether the client sends `textDocument/willSave` before it saves a document.
    pub will_save: Option<bool>,
    /// Whether the client sends `textDocument/willSaveWaitUntil` before it saves a document, and
    /// applies the text edits of the response first.
    pub will_save_wait_until: Option<bool>,
    /// Whether the client sends `textDocument/didSave` after it has saved a document.
    pub did_save: Option<bool>,
}

#[tactic(auto, unfolding(crate::specs::Sync::text_document_sync_client_capabilities_row))]
impl Wire for TextDocumentSyncClientCapabilities {
    ghost shape = { text_document_sync_client_capabilities_row.shape };

    ghost shown = { text_document_sync_client_capabilities_row.shown };

    fn from_value(
        alloc: Global,
        value: &Value,
    ) -> Result<TextDocumentSyncClientCapabilities, Misfit> {
        let (dynamic_registration, will_save, will_save_wait_until, did_save) = read_object(
            alloc,
            value,
            (
                Optional("dynamicRegistration"),
                Optional("willSave"),
                Optional("willSaveWaitUntil"),
                Optional("didSave"),
            ),
        )?;
        Ok(TextDocumentSyncClientCapabilities {
            dynamic_registration,
            will_save,
            will_save_wait_until,
            did_save,
        })
    }

    fn to_value(&self, alloc: Global) -> Result<Value, NoMemory> {
        let mut object = Writer::new(alloc);
        object.optional("dynamicRegistration", &self.dynamic_registration);
        object.optional("willSave", &self.will_save);
        object.optional("willSaveWaitUntil", &self.will_save_wait_until);
        object.optional("didSave", &self.did_save);
        object.end()
    }
}
