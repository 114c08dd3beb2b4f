ghost use Rattle.std.specs.Prelude.{◌≡◌, ◌≢◌, ◌↔◌, [], Some, None, Err, IsSome, OnOk, OnErr, IsTrue, length, map, option_map, string_bytes, true};
ghost use Rattle.std.specs.Str.{chars};
ghost use Rattle.std.specs.FinMap as fin;
ghost use Rattle.lsp_documents.specs.OpenDocument.{document_of};
ghost use Rattle.lsp_documents.specs.Documents.{after_open, after_changes, after_close, change_of};

use crate::document::Document;
use crate::error::{ChangeError, OpenError};
use lsp_base::TextDocumentContentChangeEvent;
use std::alloc::{AllocError, Global};
use std::collections::HashMap;
use std::marker::Model;

/// The open documents of an editor. URIs are compared by their texts.
#[derive(Drop)]
pub struct Documents {
    alloc: Global,
    documents: HashMap<String, Document>,
}

impl Model for Documents {
    ghost use Rattle.lsp_documents.specs.Documents.{DocumentMap};
    ghost use Rattle.lsp_documents.specs.Views.{documents_of, document_map_code};

    ghost Value = { DocumentMap };

    ghost coded = { document_map_code };

    ghost view = { λ s. documents_of s.documents };
}

impl Documents {
    /// No document is open.
    pub fn new(alloc: Global) -> Documents
        ensures { result ≡ fin.empty }
    {
        Documents {
            alloc,
            documents: HashMap::new(alloc),
        }
    }

    /// The open document of a URI.
    pub fn get(&self, uri: &str) -> Option<&Document>
        ensures { option_map (λ d. d.now) result ≡ fin.get self.now uri.now }
    {
        self.documents.get(uri)
    }

    /// Opens a document, where none of its URI is open; else it is `AlreadyOpen`. After an error
    /// all documents are as before.
    pub fn open(&mut self, uri: &str, version: i32, text: String) -> Result<(), OpenError>
        ensures ok { OnOk result (after_open uri.now
            (document_of version (chars (string_bytes text))) self.old ≡ Some self.new) }
        ensures already { (result ≡ Err OpenError.AlreadyOpen)
            ↔ (fin.contains_key self.old uri.now ≡ true) }
        ensures err { OnErr result (self.new ≡ self.old) }
    {
        if self.documents.contains_key(uri) {
            return Err(OpenError::AlreadyOpen);
        }
        match self.insert(uri, version, text) {
            Ok(()) => Ok(()),
            Err(_) => Err(OpenError::NoMemory),
        }
    }

    fn insert(&mut self, uri: &str, version: i32, text: String) -> Result<(), AllocError>
        ensures ok { OnOk result (self.new
            ≡ fin.insert self.old uri.now (document_of version (chars (string_bytes text)))) }
        ensures err { OnErr result (self.new ≡ self.old) }
    {
        let key = String::from_str(self.alloc, uri)?;
        self.documents.insert(key, Document::new(version, text))?;
        Ok(())
    }

    /// Makes changes of an open document in order, each of the text that the one before leaves, or
    /// none of them: `NotOpen` where no document of that URI is open, `StartBehindEnd` only where the
    /// place of a range's start is behind that of its end, and always where that is the one change.
    /// No changes take no memory. After an error all documents are as before.
    pub fn change(
        &mut self,
        uri: &str,
        version: i32,
        changes: &[TextDocumentContentChangeEvent],
    ) -> Result<(), ChangeError>
        ensures ok { OnOk result (after_changes uri.now version (map change_of changes.now)
            self.old ≡ Some self.new) }
        ensures not_open { (result ≡ Err ChangeError.NotOpen) ↔ (fin.get self.old uri.now ≡ None) }
        ensures behind { result ≡ Err ChangeError.StartBehindEnd
            → after_changes uri.now version (map change_of changes.now) self.old ≡ None }
        ensures memory { length changes.now ≡ 1 → result ≡ Err ChangeError.NoMemory
            → IsSome (after_changes uri.now version (map change_of changes.now) self.old) }
        ensures none { changes.now ≡ [] → result ≢ Err ChangeError.NoMemory }
        ensures err { OnErr result (self.new ≡ self.old) }
    {
        let Some(document) = self.documents.get_mut(uri) else {
            return Err(ChangeError::NotOpen);
        };
        document.change(version, changes)
    }

    /// Closes the open document of a URI, and hands it out. It takes no memory.
    pub fn close(&mut self, uri: &str) -> Option<Document>
        ensures document { result ≡ fin.get self.old uri.now }
        ensures others { self.new ≡ fin.remove self.old uri.now }
    {
        self.documents.remove(uri)
    }
}
