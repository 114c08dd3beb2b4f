// Documents, and what names them.
ghost use Rattle.std.specs.Prelude.{◌≡◌};
ghost use Rattle.std.proofs.Common.{rules};
ghost use Rattle.std.specs.Cmp.{partial_order_from_own_ties};
ghost use Rattle.std.specs.Cmp.Rules.{comparing};
ghost use Rattle.std.specs.Ordering.{on, then_cmp, as_partial_cmp};
ghost use Rattle.lsp_base.specs.Document.{text_document_identifier_row, text_document_item_row, versioned_text_document_identifier_row, optional_versioned_text_document_identifier_row, text_document_position_params_row, document_filter_row, text_document_content_change_event_row, workspace_folder_row};

use crate::position::{Position, Range};
use lsp_shape::{Misfit, NoMemory, Optional, Required, Wire, Writer, read_object};
use lsp_uri::Uri;
use serde_json::Value;
use std::alloc::Global;
use std::cmp::Ordering;

/// Names a document by its URI (LSP 3.17, "TextDocumentIdentifier").
#[derive(Debug, PartialEq, Eq, Clone, Drop)]
pub struct TextDocumentIdentifier {
    /// The URI of the document.
    pub uri: Uri,
}

impl TextDocumentIdentifier {
    /// The document of that URI.
    pub fn new(uri: Uri) -> TextDocumentIdentifier
        ensures { result ≡ record { uri = uri } }
    {
        TextDocumentIdentifier { uri }
    }
}

#[tactic(auto, unfolding(crate::specs::Document::text_document_identifier_row))]
impl Wire for TextDocumentIdentifier {
    ghost shape = { text_document_identifier_row.shape };

    ghost shown = { text_document_identifier_row.shown };

    fn from_value(alloc: Global, value: &Value) -> Result<TextDocumentIdentifier, Misfit> {
        let uri = read_object(alloc, value, Required("uri"))?;
        Ok(TextDocumentIdentifier { uri })
    }

    fn to_value(&self, alloc: Global) -> Result<Value, NoMemory> {
        let mut object = Writer::new(alloc);
        object.field("uri", &self.uri);
        object.end()
    }
}

/// A document with its text, as a client sends it when it opens it (LSP 3.17, "TextDocumentItem").
#[derive(Debug, PartialEq, Eq, Clone, Drop)]
pub struct TextDocumentItem {
    /// The URI of the document.
    pub uri: Uri,
    /// The language that the document is in, such as `rust`.
    pub language_id: String,
    /// The version. It increases with every change, including undo and redo, but not always by 1.
    pub version: i32,
    /// The whole text.
    pub text: String,
}

impl TextDocumentItem {
    /// That version of the document, with its text.
    pub fn new(uri: Uri, language_id: String, version: i32, text: String) -> TextDocumentItem
        ensures { result
            ≡ record { uri = uri; language_id = language_id; version = version; text = text } }
    {
        TextDocumentItem {
            uri,
            language_id,
            version,
            text,
        }
    }
}

#[tactic(auto, unfolding(crate::specs::Document::text_document_item_row))]
impl Wire for TextDocumentItem {
    ghost shape = { text_document_item_row.shape };

    ghost shown = { text_document_item_row.shown };

    fn from_value(alloc: Global, value: &Value) -> Result<TextDocumentItem, Misfit> {
        let (uri, language_id, version, text) = read_object(
            alloc,
            value,
            (
                Required("uri"),
                Required("languageId"),
                Required("version"),
                Required("text"),
            ),
        )?;
        Ok(TextDocumentItem {
            uri,
            language_id,
            version,
            text,
        })
    }

    fn to_value(&self, alloc: Global) -> Result<Value, NoMemory> {
        let mut object = Writer::new(alloc);
        object.field("uri", &self.uri);
        object.field("languageId", &self.language_id);
        object.field("version", &self.version);
        object.field("text", &self.text);
        object.end()
    }
}

/// A version of a document (LSP 3.17, "VersionedTextDocumentIdentifier").
#[derive(Debug, PartialEq, Eq, Clone, Drop)]
pub struct VersionedTextDocumentIdentifier {
    /// The URI of the document.
    pub uri: Uri,
    /// The version. It increases with every change, including undo and redo, but not always by 1.
    pub version: i32,
}

impl VersionedTextDocumentIdentifier {
    /// That version of the document.
    pub fn new(uri: Uri, version: i32) -> VersionedTextDocumentIdentifier
        ensures { result ≡ record { uri = uri; version = version } }
    {
        VersionedTextDocumentIdentifier { uri, version }
    }
}

#[tactic(auto, unfolding(crate::specs::Document::versioned_text_document_identifier_row))]
impl Wire for VersionedTextDocumentIdentifier {
    ghost shape = { versioned_text_document_identifier_row.shape };

    ghost shown = { versioned_text_document_identifier_row.shown };

    fn from_value(alloc: Global, value: &Value) -> Result<VersionedTextDocumentIdentifier, Misfit> {
        let (uri, version) = read_object(alloc, value, (Required("uri"), Required("version")))?;
        Ok(VersionedTextDocumentIdentifier { uri, version })
    }

    fn to_value(&self, alloc: Global) -> Result<Value, NoMemory> {
        let mut object = Writer::new(alloc);
        object.field("uri", &self.uri);
        object.field("version", &self.version);
        object.end()
    }
}

/// A document, and its version where it is open (LSP 3.17, "VersionedTextDocumentIdentifier").
#[derive(Debug, PartialEq, Eq, Clone, Drop)]
pub struct OptionalVersionedTextDocumentIdentifier {
    /// The URI of the document.
    pub uri: Uri,
    /// The version. `None`, sent as `null`: the document isn't open in the client, and its content
    /// is that on disk.
    pub version: Option<i32>,
}

impl OptionalVersionedTextDocumentIdentifier {
    /// That version of the document.
    pub fn new(uri: Uri, version: i32) -> OptionalVersionedTextDocumentIdentifier
        ensures { result ≡ record { uri = uri; version = Some version } }
    {
        OptionalVersionedTextDocumentIdentifier {
            uri,
            version: Some(version),
        }
    }
}

#[tactic(auto, unfolding(crate::specs::Document::optional_versioned_text_document_identifier_row))]
impl Wire for OptionalVersionedTextDocumentIdentifier {
    ghost shape = { optional_versioned_text_document_identifier_row.shape };

    ghost shown = { optional_versioned_text_document_identifier_row.shown };

    fn from_value(
        alloc: Global,
        value: &Value,
    ) -> Result<OptionalVersionedTextDocumentIdentifier, Misfit> {
        let (uri, version) = read_object(alloc, value, (Required("uri"), Optional("version")))?;
        Ok(OptionalVersionedTextDocumentIdentifier { uri, version })
    }

    fn to_value(&self, alloc: Global) -> Result<Value, NoMemory> {
        let mut object = Writer::new(alloc);
        object.field("uri", &self.uri);
        object.nullable("version", &self.version);
        object.end()
    }
}

/// A position in a document, as most requests on a document send it (LSP 3.17,
/// "TextDocumentPositionParams").
#[derive(Debug, PartialEq, Eq, Clone, Drop)]
pub struct TextDocumentPositionParams {
    /// The document.
    pub text_document: TextDocumentIdentifier,
    /// The position in it.
    pub position: Position,
}

impl TextDocumentPositionParams {
    /// That position in the document.
    pub fn new(
        text_document: TextDocumentIdentifier,
        position: Position,
    ) -> TextDocumentPositionParams
        ensures { result ≡ record { text_document = text_document; position = position } }
    {
        TextDocumentPositionParams {
            text_document,
            position,
        }
    }
}

#[tactic(auto, unfolding(crate::specs::Document::text_document_position_params_row))]
impl Wire for TextDocumentPositionParams {
    ghost shape = { text_document_position_params_row.shape };

    ghost shown = { text_document_position_params_row.shown };

    fn from_value(alloc: Global, value: &Value) -> Result<TextDocumentPositionParams, Misfit> {
        let (text_document, position) = read_object(
            alloc,
            value,
            (Required("textDocument"), Required("position")),
        )?;
        Ok(TextDocumentPositionParams {
            text_document,
            position,
        })
    }

    fn to_value(&self, alloc: Global) -> Result<Value, NoMemory> {
        let mut object = Writer::new(alloc);
        object.field("textDocument", &self.text_document);
        object.field("position", &self.position);
        object.end()
    }
}

/// Selects documents: those to which all members that are present apply. At least one should be
/// present (LSP 3.17, "DocumentFilter").
#[derive(Debug, PartialEq, Eq, Clone, Drop)]
pub struct DocumentFilter {
    /// The language of the document, such as `rust`.
    pub language: Option<String>,
    /// The scheme of its URI, such as `file`.
    pub scheme: Option<String>,
    /// A glob pattern that its path matches, such as `**/*.rs`.
    pub pattern: Option<String>,
}

#[tactic(auto, unfolding(crate::specs::Document::document_filter_row))]
impl Wire for DocumentFilter {
    ghost shape = { document_filter_row.shape };

    ghost shown = { document_filter_row.shown };

    fn from_value(alloc: Global, value: &Value) -> Result<DocumentFilter, Misfit> {
        let (language, scheme, pattern) = read_object(
            alloc,
            value,
            (
                Optional("language"),
                Optional("scheme"),
                Optional("pattern"),
            ),
        )?;
        Ok(DocumentFilter {
            language,
            scheme,
            pattern,
        })
    }

    fn to_value(&self, alloc: Global) -> Result<Value, NoMemory> {
        let mut object = Writer::new(alloc);
        object.optional("language", &self.language);
        object.optional("scheme", &self.scheme);
        object.optional("pattern", &self.pattern);
        object.end()
    }
}

/// Selects documents: those that pass one of the filters (LSP 3.17, "DocumentFilter").
pub type DocumentSelector = Vec<DocumentFilter>;

/// A change of the text of a document (LSP 3.17, "DidChangeTextDocument Notification").
#[derive(Debug, PartialEq, Eq, Clone, Drop)]
pub struct TextDocumentContentChangeEvent {
    /// The range to replace. Absent: the whole text.
    pub range: Option<Range>,
    /// How much is replaced, in no stated unit. LSP has deprecated it: the range says the same.
    pub range_length: Option<u32>,
    /// The new text.
    pub text: String,
}

#[tactic(auto, unfolding(crate::specs::Document::text_document_content_change_event_row))]
impl Wire for TextDocumentContentChangeEvent {
    ghost shape = { text_document_content_change_event_row.shape };

    ghost shown = { text_document_content_change_event_row.shown };

    fn from_value(alloc: Global, value: &Value) -> Result<TextDocumentContentChangeEvent, Misfit> {
        let (range, range_length, text) = read_object(
            alloc,
            value,
            (Optional("range"), Optional("rangeLength"), Required("text")),
        )?;
        Ok(TextDocumentContentChangeEvent {
            range,
            range_length,
            text,
        })
    }

    fn to_value(&self, alloc: Global) -> Result<Value, NoMemory> {
        let mut object = Writer::new(alloc);
        object.optional("range", &self.range);
        object.optional("rangeLength", &self.range_length);
        object.field("text", &self.text);
        object.end()
    }
}

/// A folder of the client's workspace. Since 3.6. Ordered by URI, then by name (LSP 3.17,
/// "Workspace folders request").
#[derive(Debug, PartialEq, Eq, Clone, Drop)]
pub struct WorkspaceFolder {
    /// The URI of the folder.
    pub uri: Uri,
    /// The name by which the client shows it.
    pub name: String,
}

impl PartialOrd for WorkspaceFolder {
    ghost partial_cmp = { as_partial_cmp
        (then_cmp (on (λ f. f.uri) ⟦<Uri as Ord>⟧.cmp) (on (λ f. f.name) ⟦<String as Ord>⟧.cmp)) };

    ghost laws = { partial_order_from_own_ties (Prim.search (comparing, rules))
        (Prim.search (comparing, rules)) };

    fn partial_cmp(&self, other: &WorkspaceFolder) -> Option<Ordering> {
        Some(self.cmp(other))
    }
}

impl Ord for WorkspaceFolder {
    ghost cmp = { then_cmp
        (on (λ f. f.uri) ⟦<Uri as Ord>⟧.cmp) (on (λ f. f.name) ⟦<String as Ord>⟧.cmp) };

    ghost total = { Prim.search (comparing, rules) };

    ghost matches_partial_cmp = { Prim.search (comparing, rules) };

    ghost matches_eq = { Prim.search (comparing, rules) };

    fn cmp(&self, other: &WorkspaceFolder) -> Ordering {
        self.uri.cmp(&other.uri).then(self.name.cmp(&other.name))
    }
}

#[tactic(auto, unfolding(crate::specs::Document::workspace_folder_row))]
impl Wire for WorkspaceFolder {
    ghost shape = { workspace_folder_row.shape };

    ghost shown = { workspace_folder_row.shown };

    fn from_value(alloc: Global, value: &Value) -> Result<WorkspaceFolder, Misfit> {
        let (uri, name) = read_object(alloc, value, (Required("uri"), Required("name")))?;
        Ok(WorkspaceFolder { uri, name })
    }

    fn to_value(&self, alloc: Global) -> Result<Value, NoMemory> {
        let mut object = Writer::new(alloc);
        object.field("uri", &self.uri);
        object.field("name", &self.name);
        object.end()
    }
}
