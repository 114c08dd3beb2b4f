// Documents that are opened, changed, saved and closed.
ghost use Rattle.std.specs.Prelude.{◌≡◌};
ghost use Rattle.lsp_offer_text.specs.Sync.{text_document_sync_capability_row, text_document_sync_options_row, text_document_sync_save_options_row, save_options_row, text_document_change_registration_options_row, text_document_save_registration_options_row};
ghost use Rattle.lsp_offer_text.specs.declared.sync.TextDocumentSyncCapability.TheVariants as text_document_sync_capability;
ghost use Rattle.lsp_offer_text.specs.declared.sync.TextDocumentSyncSaveOptions.TheVariants as text_document_sync_save_options;

use lsp_base::{DocumentSelector, TextDocumentRegistrationOptions};
use lsp_kinds::TextDocumentSyncKind;
use lsp_shape::{
    Flat, Misfit, NoMemory, Optional, Required, Wire, Writer, attempt, flat, form, read_object,
};
use serde_json::Value;
use std::alloc::Global;

/// Which notifications about text documents a server asks for, as the capability
/// `textDocumentSync`. Absent: none (LSP 3.17, "Text Document Synchronization").
#[derive(Debug, PartialEq, Eq, Clone, Drop)]
pub enum TextDocumentSyncCapability {
    /// How changes are sent, and no further detail. Versions of the protocol before 3.0 have only
    /// this form.
    Kind(TextDocumentSyncKind),
    /// Which notifications the server asks for, one by one.
    Options(TextDocumentSyncOptions),
}

#[tactic(auto, unfolding(crate::specs::Sync::text_document_sync_capability_row))]
impl Wire for TextDocumentSyncCapability {
    ghost shape = { text_document_sync_capability_row.shape };

    ghost shown = { text_document_sync_capability_row.shown };

    fn from_value(alloc: Global, value: &Value) -> Result<TextDocumentSyncCapability, Misfit> {
        if let Some(kind) = attempt(alloc, value)? {
            return Ok(TextDocumentSyncCapability::Kind(kind));
        }
        Ok(TextDocumentSyncCapability::Options(form(alloc, value)?))
    }

    fn to_value(&self, alloc: Global) -> Result<Value, NoMemory> {
        match self {
            TextDocumentSyncCapability::Kind(kind) => kind.to_value(alloc),
            TextDocumentSyncCapability::Options(options) => options.to_value(alloc),
        }
    }
}

impl From<TextDocumentSyncOptions> for TextDocumentSyncCapability {
    ghost from_gives = { λ given made. made ≡ text_document_sync_capability.Options given };

    fn from(options: TextDocumentSyncOptions) -> TextDocumentSyncCapability {
        TextDocumentSyncCapability::Options(options)
    }
}

impl From<TextDocumentSyncKind> for TextDocumentSyncCapability {
    ghost from_gives = { λ given made. made ≡ text_document_sync_capability.Kind given };

    fn from(kind: TextDocumentSyncKind) -> TextDocumentSyncCapability {
        TextDocumentSyncCapability::Kind(kind)
    }
}

/// Which notifications and requests about text documents a server asks for, one by one. An absent
/// field means that the server doesn't ask for them (LSP 3.17, "Text Document Synchronization").
#[derive(Debug, PartialEq, Eq, Default, Clone, Drop)]
pub struct TextDocumentSyncOptions {
    /// Whether to send `textDocument/didOpen` and `textDocument/didClose`.
    pub open_close: Option<bool>,
    /// How to send changes with `textDocument/didChange`. Absent: as `NONE`, changes are not sent.
    pub change: Option<TextDocumentSyncKind>,
    /// Whether to send `textDocument/willSave`.
    pub will_save: Option<bool>,
    /// Whether to send the request `textDocument/willSaveWaitUntil`.
    pub will_save_wait_until: Option<bool>,
    /// Whether to send `textDocument/didSave`, and what it holds.
    pub save: Option<TextDocumentSyncSaveOptions>,
}

#[tactic(auto, unfolding(crate::specs::Sync::text_document_sync_options_row))]
impl Wire for TextDocumentSyncOptions {
    ghost shape = { text_document_sync_options_row.shape };

    ghost shown = { text_document_sync_options_row.shown };

    fn from_value(alloc: Global, value: &Value) -> Result<TextDocumentSyncOptions, Misfit> {
        let (open_close, change, will_save, will_save_wait_until, save) = read_object(
            alloc,
            value,
            (
                Optional("openClose"),
                Optional("change"),
                Optional("willSave"),
                Optional("willSaveWaitUntil"),
                Optional("save"),
            ),
        )?;
        Ok(TextDocumentSyncOptions {
            open_close,
            change,
            will_save,
            will_save_wait_until,
            save,
        })
    }

    fn to_value(&self, alloc: Global) -> Result<Value, NoMemory> {
        let mut object = Writer::new(alloc);
        object.optional("openClose", &self.open_close);
        object.optional("change", &self.change);
        object.optional("willSave", &self.will_save);
        object.optional("willSaveWaitUntil", &self.will_save_wait_until);
        object.optional("save", &self.save);
        object.end()
    }
}

/// Whether a server asks for `textDocument/didSave`, as `textDocumentSync.save` in its capabilities
/// (LSP 3.17, "DidSaveTextDocument Notification").
#[derive(Debug, PartialEq, Eq, Clone, Drop)]
pub enum TextDocumentSyncSaveOptions {
    /// `true` if the server asks for the notification.
    Supported(bool),
    /// The server asks for the notification, with these options.
    SaveOptions(SaveOptions),
}

#[tactic(auto, unfolding(crate::specs::Sync::text_document_sync_save_options_row))]
impl Wire for TextDocumentSyncSaveOptions {
    ghost shape = { text_document_sync_save_options_row.shape };

    ghost shown = { text_document_sync_save_options_row.shown };

    fn from_value(alloc: Global, value: &Value) -> Result<TextDocumentSyncSaveOptions, Misfit> {
        if let Some(supported) = attempt(alloc, value)? {
            return Ok(TextDocumentSyncSaveOptions::Supported(supported));
        }
        Ok(TextDocumentSyncSaveOptions::SaveOptions(form(alloc, value)?))
    }

    fn to_value(&self, alloc: Global) -> Result<Value, NoMemory> {
        match self {
            TextDocumentSyncSaveOptions::Supported(supported) => supported.to_value(alloc),
            TextDocumentSyncSaveOptions::SaveOptions(options) => options.to_value(alloc),
        }
    }
}

impl From<SaveOptions> for TextDocumentSyncSaveOptions {
    ghost from_gives = { λ given made. made ≡ text_document_sync_save_options.SaveOptions given };

    fn from(options: SaveOptions) -> TextDocumentSyncSaveOptions {
        TextDocumentSyncSaveOptions::SaveOptions(options)
    }
}

impl From<bool> for TextDocumentSyncSaveOptions {
    ghost from_gives = { λ given made. made ≡ text_document_sync_save_options.Supported given };

    fn from(supported: bool) -> TextDocumentSyncSaveOptions {
        TextDocumentSyncSaveOptions::Supported(supported)
    }
}

/// What a server asks for in `textDocument/didSave` (LSP 3.17, "DidSaveTextDocument Notification").
#[derive(Debug, PartialEq, Eq, Default, Clone, Drop)]
pub struct SaveOptions {
    /// Whether the notification is to hold the whole text of the document.
    pub include_text: Option<bool>,
}

#[tactic(auto, unfolding(crate::specs::Sync::save_options_row))]
impl Wire for SaveOptions {
    ghost shape = { save_options_row.shape };

    ghost shown = { save_options_row.shown };

    fn from_value(alloc: Global, value: &Value) -> Result<SaveOptions, Misfit> {
        let include_text = read_object(alloc, value, Optional("includeText"))?;
        Ok(SaveOptions { include_text })
    }

    fn to_value(&self, alloc: Global) -> Result<Value, NoMemory> {
        let mut object = Writer::new(alloc);
        object.optional("includeText", &self.include_text);
        object.end()
    }
}

/// The options with which a server registers `textDocument/didChange` (LSP 3.17,
/// "DidChangeTextDocument Notification").
#[derive(Debug, PartialEq, Eq, Clone, Drop)]
pub struct TextDocumentChangeRegistrationOptions {
    /// The documents that the registration applies to. `None`, sent as `null`: those that the
    /// client selects itself.
    pub document_selector: Option<DocumentSelector>,
    /// Whether changes are sent as the whole text, with `FULL`, or as the parts that changed, with
    /// `INCREMENTAL`.
    pub sync_kind: TextDocumentSyncKind,
}

#[tactic(auto, unfolding(crate::specs::Sync::text_document_change_registration_options_row))]
impl Wire for TextDocumentChangeRegistrationOptions {
    ghost shape = { text_document_change_registration_options_row.shape };

    ghost shown = { text_document_change_registration_options_row.shown };

    fn from_value(
        alloc: Global,
        value: &Value,
    ) -> Result<TextDocumentChangeRegistrationOptions, Misfit> {
        let (document_selector, sync_kind) = read_object(
            alloc,
            value,
            (Optional("documentSelector"), Required("syncKind")),
        )?;
        Ok(TextDocumentChangeRegistrationOptions {
            document_selector,
            sync_kind,
        })
    }

    fn to_value(&self, alloc: Global) -> Result<Value, NoMemory> {
        let mut object = Writer::new(alloc);
        object.nullable("documentSelector", &self.document_selector);
        object.field("syncKind", &self.sync_kind);
        object.end()
    }
}

/// The options with which a server registers `textDocument/didSave` (LSP 3.17, "DidSaveTextDocument
/// Notification").
#[derive(Debug, PartialEq, Eq, Clone, Drop)]
pub struct TextDocumentSaveRegistrationOptions {
    /// Whether the notification is to hold the whole text of the document.
    pub include_text: Option<bool>,
    /// The documents that the registration applies to.
    pub text_document_registration_options: TextDocumentRegistrationOptions,
}

#[tactic(auto, unfolding(crate::specs::Sync::text_document_save_registration_options_row, lsp_base::specs::Registration::text_document_registration_options_row))]
impl Wire for TextDocumentSaveRegistrationOptions {
    ghost shape = { text_document_save_registration_options_row.shape };

    ghost shown = { text_document_save_registration_options_row.shown };

    fn from_value(
        alloc: Global,
        value: &Value,
    ) -> Result<TextDocumentSaveRegistrationOptions, Misfit> {
        let (include_text, text_document_registration_options) = read_object(
            alloc,
            value,
            (Optional("includeText"), Flat),
        )?;
        Ok(TextDocumentSaveRegistrationOptions {
            include_text,
            text_document_registration_options,
        })
    }

    fn to_value(&self, alloc: Global) -> Result<Value, NoMemory> {
        let mut object = Writer::new(alloc);
        object.optional("includeText", &self.include_text);
        object.flat(&self.text_document_registration_options);
        object.end()
    }
}
