// Documents that are opened, changed, saved and closed.
ghost use Rattle.std.specs.Prelude.{◌≡◌};
ghost use Rattle.lsp_work.specs.Document.{did_open_text_document_params_row, did_change_text_document_params_row, will_save_text_document_params_row, did_save_text_document_params_row, did_close_text_document_params_row, publish_diagnostics_params_row};

use lsp_base::{
    Diagnostic, TextDocumentContentChangeEvent, TextDocumentIdentifier, TextDocumentItem,
    VersionedTextDocumentIdentifier,
};
use lsp_kinds::TextDocumentSaveReason;
use lsp_shape::{Misfit, NoMemory, Optional, Required, Wire, Writer, read_object};
use lsp_uri::Uri;
use serde_json::Value;
use std::alloc::Global;

/// The parameters of `textDocument/didOpen`, which a client sends when a document is opened (LSP
/// 3.17, "DidOpenTextDocument Notification").
#[derive(Debug, PartialEq, Eq, Clone, Drop)]
pub struct DidOpenTextDocumentParams {
    /// The opened document, with its text.
    pub text_document: TextDocumentItem,
}

#[tactic(auto, unfolding(crate::specs::Document::did_open_text_document_params_row))]
impl Wire for DidOpenTextDocumentParams {
    ghost shape = { did_open_text_document_params_row.shape };

    ghost shown = { did_open_text_document_params_row.shown };

    fn from_value(alloc: Global, value: &Value) -> Result<DidOpenTextDocumentParams, Misfit> {
        let text_document = read_object(alloc, value, Required("textDocument"))?;
        Ok(DidOpenTextDocumentParams { text_document })
    }

    fn to_value(&self, alloc: Global) -> Result<Value, NoMemory> {
        let mut object = Writer::new(alloc);
        object.field("textDocument", &self.text_document);
        object.end()
    }
}

/// The parameters of `textDocument/didChange`, which a client sends when an open document has
/// changed (LSP 3.17, "DidChangeTextDocument Notification").
#[derive(Debug, PartialEq, Eq, Clone, Drop)]
pub struct DidChangeTextDocumentParams {
    /// The changed document, with its version after all changes.
    pub text_document: VersionedTextDocumentIdentifier,
    /// The changes, to be applied in order. Each refers to the text as the ones before it left it.
    pub content_changes: Vec<TextDocumentContentChangeEvent>,
}

#[tactic(auto, unfolding(crate::specs::Document::did_change_text_document_params_row))]
impl Wire for DidChangeTextDocumentParams {
    ghost shape = { did_change_text_document_params_row.shape };

    ghost shown = { did_change_text_document_params_row.shown };

    fn from_value(alloc: Global, value: &Value) -> Result<DidChangeTextDocumentParams, Misfit> {
        let (text_document, content_changes) = read_object(
            alloc,
            value,
            (Required("textDocument"), Required("contentChanges")),
        )?;
        Ok(DidChangeTextDocumentParams {
            text_document,
            content_changes,
        })
    }

    fn to_value(&self, alloc: Global) -> Result<Value, NoMemory> {
        let mut object = Writer::new(alloc);
        object.field("textDocument", &self.text_document);
        object.field("contentChanges", &self.content_changes);
        object.end()
    }
}

/// The parameters of the notification `textDocument/willSave` and of the request
/// `textDocument/willSaveWaitUntil`, which a client sends before it saves a document (LSP 3.17,
/// "WillSaveTextDocument Notification").
#[derive(Debug, PartialEq, Eq, Clone, Drop)]
pub struct WillSaveTextDocumentParams {
    /// The document that is about to be saved.
    pub text_document: TextDocumentIdentifier,
    /// Why the document is saved, for example after a delay.
    pub reason: TextDocumentSaveReason,
}

#[tactic(auto, unfolding(crate::specs::Document::will_save_text_document_params_row))]
impl Wire for WillSaveTextDocumentParams {
    ghost shape = { will_save_text_document_params_row.shape };

    ghost shown = { will_save_text_document_params_row.shown };

    fn from_value(alloc: Global, value: &Value) -> Result<WillSaveTextDocumentParams, Misfit> {
        let (text_document, reason) = read_object(
            alloc,
            value,
            (Required("textDocument"), Required("reason")),
        )?;
        Ok(WillSaveTextDocumentParams {
            text_document,
            reason,
        })
    }

    fn to_value(&self, alloc: Global) -> Result<Value, NoMemory> {
        let mut object = Writer::new(alloc);
        object.field("textDocument", &self.text_document);
        object.field("reason", &self.reason);
        object.end()
    }
}

/// The parameters of `textDocument/didSave`, which a client sends when a document has been saved
/// (LSP 3.17, "DidSaveTextDocument Notification").
#[derive(Debug, PartialEq, Eq, Clone, Drop)]
pub struct DidSaveTextDocumentParams {
    /// The saved document.
    pub text_document: TextDocumentIdentifier,
    /// The saved text. Absent: the server didn't ask for it with `includeText`.
    pub text: Option<String>,
}

#[tactic(auto, unfolding(crate::specs::Document::did_save_text_document_params_row))]
impl Wire for DidSaveTextDocumentParams {
    ghost shape = { did_save_text_document_params_row.shape };

    ghost shown = { did_save_text_document_params_row.shown };

    fn from_value(alloc: Global, value: &Value) -> Result<DidSaveTextDocumentParams, Misfit> {
        let (text_document, text) = read_object(
            alloc,
            value,
            (Required("textDocument"), Optional("text")),
        )?;
        Ok(DidSaveTextDocumentParams {
            text_document,
            text,
        })
    }

    fn to_value(&self, alloc: Global) -> Result<Value, NoMemory> {
        let mut object = Writer::new(alloc);
        object.field("textDocument", &self.text_document);
        object.optional("text", &self.text);
        object.end()
    }
}

/// The parameters of `textDocument/didClose`, which a client sends when a document is closed (LSP
/// 3.17, "DidCloseTextDocument Notification").
#[derive(Debug, PartialEq, Eq, Clone, Drop)]
pub struct DidCloseTextDocumentParams {
    /// The closed document.
    pub text_document: TextDocumentIdentifier,
}

#[tactic(auto, unfolding(crate::specs::Document::did_close_text_document_params_row))]
impl Wire for DidCloseTextDocumentParams {
    ghost shape = { did_close_text_document_params_row.shape };

    ghost shown = { did_close_text_document_params_row.shown };

    fn from_value(alloc: Global, value: &Value) -> Result<DidCloseTextDocumentParams, Misfit> {
        let text_document = read_object(alloc, value, Required("textDocument"))?;
        Ok(DidCloseTextDocumentParams { text_document })
    }

    fn to_value(&self, alloc: Global) -> Result<Value, NoMemory> {
        let mut object = Writer::new(alloc);
        object.field("textDocument", &self.text_document);
        object.end()
    }
}

/// The parameters of `textDocument/publishDiagnostics`, with which a server replaces all its
/// earlier diagnostics of a document (LSP 3.17, "PublishDiagnostics Notification").
#[derive(Debug, PartialEq, Clone, Drop)]
pub struct PublishDiagnosticsParams {
    /// The URI of the document.
    pub uri: Uri,
    /// All diagnostics of the document. An empty array removes the earlier ones.
    pub diagnostics: Vec<Diagnostic>,
    /// The version of the document that the diagnostics belong to. Absent: not stated. Since 3.15.
    pub version: Option<i32>,
}

impl PublishDiagnosticsParams {
    /// The parameters with these values.
    pub fn new(
        uri: Uri,
        diagnostics: Vec<Diagnostic>,
        version: Option<i32>,
    ) -> PublishDiagnosticsParams
        ensures { result ≡ record { uri = uri; diagnostics = diagnostics; version = version } }
    {
        PublishDiagnosticsParams {
            uri,
            diagnostics,
            version,
        }
    }
}

#[tactic(auto, unfolding(crate::specs::Document::publish_diagnostics_params_row))]
impl Wire for PublishDiagnosticsParams {
    ghost shape = { publish_diagnostics_params_row.shape };

    ghost shown = { publish_diagnostics_params_row.shown };

    fn from_value(alloc: Global, value: &Value) -> Result<PublishDiagnosticsParams, Misfit> {
        let (uri, diagnostics, version) = read_object(
            alloc,
            value,
            (
                Required("uri"),
                Required("diagnostics"),
                Optional("version"),
            ),
        )?;
        Ok(PublishDiagnosticsParams {
            uri,
            diagnostics,
            version,
        })
    }

    fn to_value(&self, alloc: Global) -> Result<Value, NoMemory> {
        let mut object = Writer::new(alloc);
        object.field("uri", &self.uri);
        object.field("diagnostics", &self.diagnostics);
        object.optional("version", &self.version);
        object.end()
    }
}
