// Notebooks, and the notifications on them.
ghost use Rattle.lsp_report.specs.Notebook.{notebook_document_row, notebook_cell_row, execution_summary_row, did_open_notebook_document_params_row, did_change_notebook_document_params_row, versioned_notebook_document_identifier_row, notebook_document_change_event_row, notebook_document_cell_change_row, notebook_document_change_text_content_row, notebook_document_cell_change_structure_row, notebook_cell_array_change_row, did_save_notebook_document_params_row, notebook_document_identifier_row, did_close_notebook_document_params_row};

use crate::cell_kind::NotebookCellKind;
use lsp_base::{
    LSPObject, TextDocumentContentChangeEvent, TextDocumentIdentifier, TextDocumentItem,
    VersionedTextDocumentIdentifier,
};
use lsp_shape::{Copies, Misfit, NoMemory, Optional, Required, Wire, Writer, read_object};
use lsp_uri::Uri;
use serde_json::Value;
use std::alloc::{AllocError, Global};

/// A notebook, as the server receives it in `notebookDocument/didOpen`. Since 3.17 (LSP 3.17,
/// "Notebook Document Synchronization").
#[derive(Debug, PartialEq, Clone, Drop)]
pub struct NotebookDocument {
    /// The URI of the notebook.
    pub uri: Uri,
    /// The sort of notebook, such as `jupyter-notebook`.
    pub notebook_type: String,
    /// The version of the notebook, which increases with every change, including undo and redo.
    pub version: i32,
    /// Further data that the client stores with the notebook.
    pub metadata: Option<LSPObject>,
    /// The cells, in order. Their text is in separate text documents.
    pub cells: Vec<NotebookCell>,
}

#[tactic(auto, unfolding(crate::specs::Notebook::notebook_document_row))]
impl Wire for NotebookDocument {
    ghost shape = { notebook_document_row.shape };

    ghost shown = { notebook_document_row.shown };

    fn from_value(alloc: Global, value: &Value) -> Result<NotebookDocument, Misfit> {
        let (uri, notebook_type, version, metadata, cells) = read_object(
            alloc,
            value,
            (
                Required("uri"),
                Required("notebookType"),
                Required("version"),
                Optional("metadata"),
                Required("cells"),
            ),
        )?;
        Ok(NotebookDocument {
            uri,
            notebook_type,
            version,
            metadata,
            cells,
        })
    }

    fn to_value(&self, alloc: Global) -> Result<Value, NoMemory> {
        let mut object = Writer::new(alloc);
        object.field("uri", &self.uri);
        object.field("notebookType", &self.notebook_type);
        object.field("version", &self.version);
        object.optional("metadata", &self.metadata);
        object.field("cells", &self.cells);
        object.end()
    }
}

/// A cell of a notebook. Since 3.17 (LSP 3.17, "Notebook Document Synchronization").
#[derive(Debug, PartialEq, Drop)]
pub struct NotebookCell {
    /// Whether the cell is markup or code.
    pub kind: NotebookCellKind,
    /// The URI of the text document with the cell's text. It identifies the cell, since no two
    /// cells share one.
    pub document: Uri,
    /// Further data that the client stores with the cell.
    pub metadata: Option<LSPObject>,
    /// How the cell was last executed. Only from clients with the capability
    /// `executionSummaryReport`. Absent: it isn't stated.
    pub execution_summary: Option<ExecutionSummary>,
}

impl Clone for NotebookCell {
    ghost is_clone = { λ x y. ⟦<NotebookCellKind as Clone>⟧.is_clone x.kind y.kind
        × ⟦<Uri as Clone>⟧.is_clone x.document y.document
        × ⟦<Option<LSPObject> as Clone>⟧.is_clone x.metadata y.metadata
        × ⟦<Option<ExecutionSummary> as Clone>⟧.is_clone x.execution_summary y.execution_summary };

    fn clone(&self) -> Result<NotebookCell, AllocError> {
        let mut copies = Copies::new();
        let copy = NotebookCell {
            kind: self.kind.clone()?,
            document: self.document.clone()?,
            metadata: copies.optional(&self.metadata),
            execution_summary: copies.optional(&self.execution_summary),
        };
        copies.end(copy)
    }
}

#[tactic(auto, unfolding(crate::specs::Notebook::notebook_cell_row))]
impl Wire for NotebookCell {
    ghost shape = { notebook_cell_row.shape };

    ghost shown = { notebook_cell_row.shown };

    fn from_value(alloc: Global, value: &Value) -> Result<NotebookCell, Misfit> {
        let (kind, document, metadata, execution_summary) = read_object(
            alloc,
            value,
            (
                Required("kind"),
                Required("document"),
                Optional("metadata"),
                Optional("executionSummary"),
            ),
        )?;
        Ok(NotebookCell {
            kind,
            document,
            metadata,
            execution_summary,
        })
    }

    fn to_value(&self, alloc: Global) -> Result<Value, NoMemory> {
        let mut object = Writer::new(alloc);
        object.field("kind", &self.kind);
        object.field("document", &self.document);
        object.optional("metadata", &self.metadata);
        object.optional("executionSummary", &self.execution_summary);
        object.end()
    }
}

/// How a cell of a notebook was last executed. Since 3.17 (LSP 3.17, "Notebook Document
/// Synchronization").
#[derive(Debug, PartialEq, Eq, Clone, Drop)]
pub struct ExecutionSummary {
    /// A number that increases with each execution in the notebook, and so gives the order of
    /// executions.
    pub execution_order: u32,
    /// Whether the execution succeeded. Absent: the client doesn't know.
    pub success: Option<bool>,
}

#[tactic(auto, unfolding(crate::specs::Notebook::execution_summary_row))]
impl Wire for ExecutionSummary {
    ghost shape = { execution_summary_row.shape };

    ghost shown = { execution_summary_row.shown };

    fn from_value(alloc: Global, value: &Value) -> Result<ExecutionSummary, Misfit> {
        let (execution_order, success) = read_object(
            alloc,
            value,
            (Required("executionOrder"), Optional("success")),
        )?;
        Ok(ExecutionSummary {
            execution_order,
            success,
        })
    }

    fn to_value(&self, alloc: Global) -> Result<Value, NoMemory> {
        let mut object = Writer::new(alloc);
        object.field("executionOrder", &self.execution_order);
        object.optional("success", &self.success);
        object.end()
    }
}

/// The parameters of `notebookDocument/didOpen`, which a client sends when a notebook is opened.
/// Since 3.17 (LSP 3.17, "Notebook Document Synchronization").
#[derive(Debug, PartialEq, Clone, Drop)]
pub struct DidOpenNotebookDocumentParams {
    /// The opened notebook.
    pub notebook_document: NotebookDocument,
    /// The text documents of the notebook's cells, with their text.
    pub cell_text_documents: Vec<TextDocumentItem>,
}

#[tactic(auto, unfolding(crate::specs::Notebook::did_open_notebook_document_params_row))]
impl Wire for DidOpenNotebookDocumentParams {
    ghost shape = { did_open_notebook_document_params_row.shape };

    ghost shown = { did_open_notebook_document_params_row.shown };

    fn from_value(alloc: Global, value: &Value) -> Result<DidOpenNotebookDocumentParams, Misfit> {
        let (notebook_document, cell_text_documents) = read_object(
            alloc,
            value,
            (Required("notebookDocument"), Required("cellTextDocuments")),
        )?;
        Ok(DidOpenNotebookDocumentParams {
            notebook_document,
            cell_text_documents,
        })
    }

    fn to_value(&self, alloc: Global) -> Result<Value, NoMemory> {
        let mut object = Writer::new(alloc);
        object.field("notebookDocument", &self.notebook_document);
        object.field("cellTextDocuments", &self.cell_text_documents);
        object.end()
    }
}

/// The parameters of `notebookDocument/didChange`, which a client sends when a notebook or the text
/// of its cells has changed. Since 3.17 (LSP 3.17, "Notebook Document Synchronization").
#[derive(Debug, PartialEq, Clone, Drop)]
pub struct DidChangeNotebookDocumentParams {
    /// The changed notebook, with its version after the changes.
    pub notebook_document: VersionedNotebookDocumentIdentifier,
    /// What has changed, compared with the notebook's previous state.
    pub change: NotebookDocumentChangeEvent,
}

#[tactic(auto, unfolding(crate::specs::Notebook::did_change_notebook_document_params_row))]
impl Wire for DidChangeNotebookDocumentParams {
    ghost shape = { did_change_notebook_document_params_row.shape };

    ghost shown = { did_change_notebook_document_params_row.shown };

    fn from_value(alloc: Global, value: &Value) -> Result<DidChangeNotebookDocumentParams, Misfit> {
        let (notebook_document, change) = read_object(
            alloc,
            value,
            (Required("notebookDocument"), Required("change")),
        )?;
        Ok(DidChangeNotebookDocumentParams {
            notebook_document,
            change,
        })
    }

    fn to_value(&self, alloc: Global) -> Result<Value, NoMemory> {
        let mut object = Writer::new(alloc);
        object.field("notebookDocument", &self.notebook_document);
        object.field("change", &self.change);
        object.end()
    }
}

/// The URI of a notebook together with a version. Since 3.17 (LSP 3.17, "Notebook Document
/// Synchronization").
#[derive(Debug, PartialEq, Eq, Clone, Drop)]
pub struct VersionedNotebookDocumentIdentifier {
    /// The version of the notebook.
    pub version: i32,
    /// The URI of the notebook.
    pub uri: Uri,
}

#[tactic(auto, unfolding(crate::specs::Notebook::versioned_notebook_document_identifier_row))]
impl Wire for VersionedNotebookDocumentIdentifier {
    ghost shape = { versioned_notebook_document_identifier_row.shape };

    ghost shown = { versioned_notebook_document_identifier_row.shown };

    fn from_value(
        alloc: Global,
        value: &Value,
    ) -> Result<VersionedNotebookDocumentIdentifier, Misfit> {
        let (version, uri) = read_object(alloc, value, (Required("version"), Required("uri")))?;
        Ok(VersionedNotebookDocumentIdentifier { version, uri })
    }

    fn to_value(&self, alloc: Global) -> Result<Value, NoMemory> {
        let mut object = Writer::new(alloc);
        object.field("version", &self.version);
        object.field("uri", &self.uri);
        object.end()
    }
}

/// What has changed in a notebook. Since 3.17 (LSP 3.17, "Notebook Document Synchronization").
#[derive(Debug, PartialEq, Clone, Drop)]
pub struct NotebookDocumentChangeEvent {
    /// The new metadata of the notebook. Absent: unchanged.
    pub metadata: Option<LSPObject>,
    /// The changes to cells. Absent: none.
    pub cells: Option<NotebookDocumentCellChange>,
}

#[tactic(auto, unfolding(crate::specs::Notebook::notebook_document_change_event_row))]
impl Wire for NotebookDocumentChangeEvent {
    ghost shape = { notebook_document_change_event_row.shape };

    ghost shown = { notebook_document_change_event_row.shown };

    fn from_value(alloc: Global, value: &Value) -> Result<NotebookDocumentChangeEvent, Misfit> {
        let (metadata, cells) = read_object(
            alloc,
            value,
            (Optional("metadata"), Optional("cells")),
        )?;
        Ok(NotebookDocumentChangeEvent { metadata, cells })
    }

    fn to_value(&self, alloc: Global) -> Result<Value, NoMemory> {
        let mut object = Writer::new(alloc);
        object.optional("metadata", &self.metadata);
        object.optional("cells", &self.cells);
        object.end()
    }
}

/// What has changed in the cells of a notebook. Since 3.17 (LSP 3.17, "Notebook Document
/// Synchronization").
#[derive(Debug, PartialEq, Clone, Drop)]
pub struct NotebookDocumentCellChange {
    /// Cells that were added or removed. Absent: none.
    pub structure: Option<NotebookDocumentCellChangeStructure>,
    /// Cells with new properties, such as their kind, metadata or execution summary. Absent: none.
    /// In JSON the name is `data`.
    pub payload: Option<Vec<NotebookCell>>,
    /// Changes to the text of cells. Absent: none.
    pub text_content: Option<Vec<NotebookDocumentChangeTextContent>>,
}

#[tactic(auto, unfolding(crate::specs::Notebook::notebook_document_cell_change_row))]
impl Wire for NotebookDocumentCellChange {
    ghost shape = { notebook_document_cell_change_row.shape };

    ghost shown = { notebook_document_cell_change_row.shown };

    fn from_value(alloc: Global, value: &Value) -> Result<NotebookDocumentCellChange, Misfit> {
        let (structure, payload, text_content) = read_object(
            alloc,
            value,
            (
                Optional("structure"),
                Optional("data"),
                Optional("textContent"),
            ),
        )?;
        Ok(NotebookDocumentCellChange {
            structure,
            payload,
            text_content,
        })
    }

    fn to_value(&self, alloc: Global) -> Result<Value, NoMemory> {
        let mut object = Writer::new(alloc);
        object.optional("structure", &self.structure);
        object.optional("data", &self.payload);
        object.optional("textContent", &self.text_content);
        object.end()
    }
}

/// The changes to the text of one cell of a notebook. Since 3.17 (LSP 3.17, "Notebook Document
/// Synchronization").
#[derive(Debug, PartialEq, Eq, Clone, Drop)]
pub struct NotebookDocumentChangeTextContent {
    /// The text document of the cell, with its version after the changes.
    pub document: VersionedTextDocumentIdentifier,
    /// The changes, in the order in which they are to be applied.
    pub changes: Vec<TextDocumentContentChangeEvent>,
}

#[tactic(auto, unfolding(crate::specs::Notebook::notebook_document_change_text_content_row))]
impl Wire for NotebookDocumentChangeTextContent {
    ghost shape = { notebook_document_change_text_content_row.shape };

    ghost shown = { notebook_document_change_text_content_row.shown };

    fn from_value(
        alloc: Global,
        value: &Value,
    ) -> Result<NotebookDocumentChangeTextContent, Misfit> {
        let (document, changes) = read_object(
            alloc,
            value,
            (Required("document"), Required("changes")),
        )?;
        Ok(NotebookDocumentChangeTextContent { document, changes })
    }

    fn to_value(&self, alloc: Global) -> Result<Value, NoMemory> {
        let mut object = Writer::new(alloc);
        object.field("document", &self.document);
        object.field("changes", &self.changes);
        object.end()
    }
}

/// The cells that were added to or removed from a notebook. Since 3.17 (LSP 3.17, "Notebook
/// Document Synchronization").
#[derive(Debug, PartialEq, Clone, Drop)]
pub struct NotebookDocumentCellChangeStructure {
    /// The change to the array of cells.
    pub array: NotebookCellArrayChange,
    /// The text documents of added cells, with their text. Absent: none.
    pub did_open: Option<Vec<TextDocumentItem>>,
    /// The text documents of removed cells. Absent: none.
    pub did_close: Option<Vec<TextDocumentIdentifier>>,
}

#[tactic(auto, unfolding(crate::specs::Notebook::notebook_document_cell_change_structure_row))]
impl Wire for NotebookDocumentCellChangeStructure {
    ghost shape = { notebook_document_cell_change_structure_row.shape };

    ghost shown = { notebook_document_cell_change_structure_row.shown };

    fn from_value(
        alloc: Global,
        value: &Value,
    ) -> Result<NotebookDocumentCellChangeStructure, Misfit> {
        let (array, did_open, did_close) = read_object(
            alloc,
            value,
            (Required("array"), Optional("didOpen"), Optional("didClose")),
        )?;
        Ok(NotebookDocumentCellChangeStructure {
            array,
            did_open,
            did_close,
        })
    }

    fn to_value(&self, alloc: Global) -> Result<Value, NoMemory> {
        let mut object = Writer::new(alloc);
        object.field("array", &self.array);
        object.optional("didOpen", &self.did_open);
        object.optional("didClose", &self.did_close);
        object.end()
    }
}

/// A change to the array of cells of a notebook: some are removed, and others put in their place.
/// Since 3.17 (LSP 3.17, "Notebook Document Synchronization").
#[derive(Debug, PartialEq, Clone, Drop)]
pub struct NotebookCellArrayChange {
    /// The zero-based index of the first cell that is removed, or where cells are inserted.
    pub start: u32,
    /// The number of cells removed from there.
    pub delete_count: u32,
    /// The cells inserted there. Absent: none.
    pub cells: Option<Vec<NotebookCell>>,
}

#[tactic(auto, unfolding(crate::specs::Notebook::notebook_cell_array_change_row))]
impl Wire for NotebookCellArrayChange {
    ghost shape = { notebook_cell_array_change_row.shape };

    ghost shown = { notebook_cell_array_change_row.shown };

    fn from_value(alloc: Global, value: &Value) -> Result<NotebookCellArrayChange, Misfit> {
        let (start, delete_count, cells) = read_object(
            alloc,
            value,
            (
                Required("start"),
                Required("deleteCount"),
                Optional("cells"),
            ),
        )?;
        Ok(NotebookCellArrayChange {
            start,
            delete_count,
            cells,
        })
    }

    fn to_value(&self, alloc: Global) -> Result<Value, NoMemory> {
        let mut object = Writer::new(alloc);
        object.field("start", &self.start);
        object.field("deleteCount", &self.delete_count);
        object.optional("cells", &self.cells);
        object.end()
    }
}

/// The parameters of `notebookDocument/didSave`, which a client sends when a notebook has been
/// saved. Since 3.17 (LSP 3.17, "Notebook Document Synchronization").
#[derive(Debug, PartialEq, Eq, Clone, Drop)]
pub struct DidSaveNotebookDocumentParams {
    /// The saved notebook.
    pub notebook_document: NotebookDocumentIdentifier,
}

#[tactic(auto, unfolding(crate::specs::Notebook::did_save_notebook_document_params_row))]
impl Wire for DidSaveNotebookDocumentParams {
    ghost shape = { did_save_notebook_document_params_row.shape };

    ghost shown = { did_save_notebook_document_params_row.shown };

    fn from_value(alloc: Global, value: &Value) -> Result<DidSaveNotebookDocumentParams, Misfit> {
        let notebook_document = read_object(alloc, value, Required("notebookDocument"))?;
        Ok(DidSaveNotebookDocumentParams { notebook_document })
    }

    fn to_value(&self, alloc: Global) -> Result<Value, NoMemory> {
        let mut object = Writer::new(alloc);
        object.field("notebookDocument", &self.notebook_document);
        object.end()
    }
}

/// A reference to a notebook. Since 3.17 (LSP 3.17, "Notebook Document Synchronization").
#[derive(Debug, PartialEq, Eq, Clone, Drop)]
pub struct NotebookDocumentIdentifier {
    /// The URI of the notebook.
    pub uri: Uri,
}

#[tactic(auto, unfolding(crate::specs::Notebook::notebook_document_identifier_row))]
impl Wire for NotebookDocumentIdentifier {
    ghost shape = { notebook_document_identifier_row.shape };

    ghost shown = { notebook_document_identifier_row.shown };

    fn from_value(alloc: Global, value: &Value) -> Result<NotebookDocumentIdentifier, Misfit> {
        let uri = read_object(alloc, value, Required("uri"))?;
        Ok(NotebookDocumentIdentifier { uri })
    }

    fn to_value(&self, alloc: Global) -> Result<Value, NoMemory> {
        let mut object = Writer::new(alloc);
        object.field("uri", &self.uri);
        object.end()
    }
}

/// The parameters of `notebookDocument/didClose`, which a client sends when a notebook is closed.
/// Since 3.17 (LSP 3.17, "Notebook Document Synchronization").
#[derive(Debug, PartialEq, Eq, Clone, Drop)]
pub struct DidCloseNotebookDocumentParams {
    /// The closed notebook.
    pub notebook_document: NotebookDocumentIdentifier,
    /// The text documents of the notebook's cells, which are closed with it.
    pub cell_text_documents: Vec<TextDocumentIdentifier>,
}

#[tactic(auto, unfolding(crate::specs::Notebook::did_close_notebook_document_params_row))]
impl Wire for DidCloseNotebookDocumentParams {
    ghost shape = { did_close_notebook_document_params_row.shape };

    ghost shown = { did_close_notebook_document_params_row.shown };

    fn from_value(alloc: Global, value: &Value) -> Result<DidCloseNotebookDocumentParams, Misfit> {
        let (notebook_document, cell_text_documents) = read_object(
            alloc,
            value,
            (Required("notebookDocument"), Required("cellTextDocuments")),
        )?;
        Ok(DidCloseNotebookDocumentParams {
            notebook_document,
            cell_text_documents,
        })
    }

    fn to_value(&self, alloc: Global) -> Result<Value, NoMemory> {
        let mut object = Writer::new(alloc);
        object.field("notebookDocument", &self.notebook_document);
        object.field("cellTextDocuments", &self.cell_text_documents);
        object.end()
    }
}
