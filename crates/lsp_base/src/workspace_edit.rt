// Edits of a workspace.
ghost use Rattle.std.specs.Prelude.{◌≡◌, Some, None};
ghost use Rattle.lsp_base.specs.WorkspaceEdit.{workspace_edit_row, document_changes_row, document_change_operation_row};

use crate::edit::{ChangeAnnotation, ChangeAnnotationIdentifier, TextDocumentEdit, TextEdit};
use crate::resource::ResourceOp;
use lsp_shape::{Misfit, NoMemory, Optional, Wire, Writer, attempt, form, read_object};
use lsp_uri::Uri;
use serde_json::Value;
use std::alloc::Global;
use std::collections::HashMap;

/// Changes of any number of documents and files. It has `changes` or `document_changes`. If both, a
/// client that supports `document_changes` applies these (LSP 3.17, "WorkspaceEdit").
#[derive(Debug, Clone, Default, Drop)]
pub struct WorkspaceEdit {
    /// The edits of each document.
    pub changes: Option<HashMap<Uri, Vec<TextEdit>>>,
    /// Edits of versions of documents, and changes of files. Only for clients with
    /// `documentChanges` or `resourceOperations`.
    pub document_changes: Option<DocumentChanges>,
    /// The annotations that the changes name, by their identifiers. Since 3.16.
    pub change_annotations: Option<HashMap<ChangeAnnotationIdentifier, ChangeAnnotation>>,
}

impl WorkspaceEdit {
    /// Those edits of each document.
    pub fn new(changes: HashMap<Uri, Vec<TextEdit>>) -> WorkspaceEdit
        ensures { result
            ≡ record {
              changes = Some changes;
              document_changes = None;
              change_annotations = None;
            } }
    {
        WorkspaceEdit {
            changes: Some(changes),
            ..Default::default()
        }
    }
}

#[tactic(auto, unfolding(crate::specs::WorkspaceEdit::workspace_edit_row))]
impl Wire for WorkspaceEdit {
    ghost shape = { workspace_edit_row.shape };

    ghost shown = { workspace_edit_row.shown };

    fn from_value(alloc: Global, value: &Value) -> Result<WorkspaceEdit, Misfit> {
        let (changes, document_changes, change_annotations) = read_object(
            alloc,
            value,
            (
                Optional("changes"),
                Optional("documentChanges"),
                Optional("changeAnnotations"),
            ),
        )?;
        Ok(WorkspaceEdit {
            changes,
            document_changes,
            change_annotations,
        })
    }

    fn to_value(&self, alloc: Global) -> Result<Value, NoMemory> {
        let mut object = Writer::new(alloc);
        object.optional("changes", &self.changes);
        object.optional("documentChanges", &self.document_changes);
        object.optional("changeAnnotations", &self.change_annotations);
        object.end()
    }
}

/// Edits of documents alone, or with changes of files among them (LSP 3.17, "WorkspaceEdit").
#[derive(Debug, PartialEq, Eq, Clone, Drop)]
pub enum DocumentChanges {
    /// Edits of documents alone. An array of these only, even an empty one, is read as this
    /// variant.
    Edits(Vec<TextDocumentEdit>),
    /// Edits of documents and changes of files, made in their order.
    Operations(Vec<DocumentChangeOperation>),
}

#[tactic(auto, unfolding(crate::specs::WorkspaceEdit::document_changes_row))]
impl Wire for DocumentChanges {
    ghost shape = { document_changes_row.shape };

    ghost shown = { document_changes_row.shown };

    fn from_value(alloc: Global, value: &Value) -> Result<DocumentChanges, Misfit> {
        if let Some(edits) = attempt(alloc, value)? {
            return Ok(DocumentChanges::Edits(edits));
        }
        Ok(DocumentChanges::Operations(form(alloc, value)?))
    }

    fn to_value(&self, alloc: Global) -> Result<Value, NoMemory> {
        match self {
            DocumentChanges::Edits(edits) => edits.to_value(alloc),
            DocumentChanges::Operations(operations) => operations.to_value(alloc),
        }
    }
}

/// A change of a file or folder, or edits of a document (LSP 3.17, "WorkspaceEdit").
#[derive(Debug, PartialEq, Eq, Clone, Drop)]
pub enum DocumentChangeOperation {
    /// A change of a file or folder.
    Op(ResourceOp),
    /// Edits of a document.
    Edit(TextDocumentEdit),
}

#[tactic(auto, unfolding(crate::specs::WorkspaceEdit::document_change_operation_row))]
impl Wire for DocumentChangeOperation {
    ghost shape = { document_change_operation_row.shape };

    ghost shown = { document_change_operation_row.shown };

    fn from_value(alloc: Global, value: &Value) -> Result<DocumentChangeOperation, Misfit> {
        if let Some(change) = attempt(alloc, value)? {
            return Ok(DocumentChangeOperation::Op(change));
        }
        Ok(DocumentChangeOperation::Edit(form(alloc, value)?))
    }

    fn to_value(&self, alloc: Global) -> Result<Value, NoMemory> {
        match self {
            DocumentChangeOperation::Op(change) => change.to_value(alloc),
            DocumentChangeOperation::Edit(edit) => edit.to_value(alloc),
        }
    }
}
