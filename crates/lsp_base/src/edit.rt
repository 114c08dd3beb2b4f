// Edits of a document.
ghost use Rattle.std.specs.Prelude.{◌≡◌, [], string_bytes};
ghost use Rattle.lsp_shape.specs.Row.{row_of};
ghost use Rattle.lsp_base.specs.Edit.{one_of_row, text_edit_row, annotated_text_edit_row, text_document_edit_row, change_annotation_row};
ghost use Rattle.lsp_base.specs.Position.{first_range};

use crate::document::OptionalVersionedTextDocumentIdentifier;
use crate::position::{Position, Range};
use lsp_shape::{
    Flat, Misfit, NoMemory, Optional, Required, Wire, Writer, attempt, flat, form, read_object,
};
use serde_json::Value;
use std::alloc::Global;

/// A value of one of two types, where LSP 3.17 has `A | B`. One that fits both is read as the
/// first.
#[derive(Debug, PartialEq, Eq, PartialOrd, Ord, Clone, Drop)]
pub enum OneOf<A, B> {
    /// A value of the first type.
    Left(A),
    /// A value of the second type. What is read is one only where it does not fit the first; what
    /// is written as a value that fits the first is read back as that.
    Right(B),
}

impl<A: Wire, B: Wire> Wire for OneOf<A, B> {
    ghost shape = { (one_of_row (row_of A.shape A.shown) (row_of B.shape B.shown)).shape };

    ghost shown = { (one_of_row (row_of A.shape A.shown) (row_of B.shape B.shown)).shown };

    fn from_value(alloc: Global, value: &Value) -> Result<OneOf<A, B>, Misfit> {
        if let Some(left) = attempt(alloc, value)? {
            return Ok(OneOf::Left(left));
        }
        Ok(OneOf::Right(form(alloc, value)?))
    }

    fn to_value(&self, alloc: Global) -> Result<Value, NoMemory> {
        match self {
            OneOf::Left(left) => left.to_value(alloc),
            OneOf::Right(right) => right.to_value(alloc),
        }
    }
}

/// A range of a document and its new text. All edits of one change refer to the document before it,
/// and their ranges must not overlap (LSP 3.17, "TextEdit & AnnotatedTextEdit").
#[derive(Debug, PartialEq, Eq, Clone, Drop)]
pub struct TextEdit {
    /// The range to replace. An empty range inserts.
    pub range: Range,
    /// The new text. An empty string deletes the range.
    pub new_text: String,
}

impl TextEdit {
    /// That text in place of the range.
    pub fn new(range: Range, new_text: String) -> TextEdit
        ensures { result ≡ record { range = range; new_text = new_text } }
    {
        TextEdit { range, new_text }
    }

    /// An empty string in place of an empty range, at the start of the document.
    pub fn default(alloc: Global) -> TextEdit
        ensures range { result.range ≡ first_range }
        ensures new_text { string_bytes result.new_text ≡ [] }
    {
        TextEdit {
            range: Range::default(),
            new_text: String::new(alloc),
        }
    }
}

#[tactic(auto, unfolding(crate::specs::Edit::text_edit_row))]
impl Wire for TextEdit {
    ghost shape = { text_edit_row.shape };

    ghost shown = { text_edit_row.shown };

    fn from_value(alloc: Global, value: &Value) -> Result<TextEdit, Misfit> {
        let (range, new_text) = read_object(
            alloc,
            value,
            (Required("range"), Required("newText")),
        )?;
        Ok(TextEdit { range, new_text })
    }

    fn to_value(&self, alloc: Global) -> Result<Value, NoMemory> {
        let mut object = Writer::new(alloc);
        object.field("range", &self.range);
        object.field("newText", &self.new_text);
        object.end()
    }
}

/// The identifier of a change annotation. Since 3.16 (LSP 3.17, "TextEdit & AnnotatedTextEdit").
pub type ChangeAnnotationIdentifier = String;

/// An edit with an annotation. Since 3.16. Only for clients with `changeAnnotationSupport` (LSP
/// 3.17, "TextEdit & AnnotatedTextEdit").
#[derive(Debug, PartialEq, Eq, Clone, Drop)]
pub struct AnnotatedTextEdit {
    /// The edit. Its members stand among those of this type.
    pub text_edit: TextEdit,
    /// The annotation that says what the edit is for.
    pub annotation_id: ChangeAnnotationIdentifier,
}

#[tactic(auto, unfolding(crate::specs::Edit::annotated_text_edit_row, crate::specs::Edit::text_edit_row))]
impl Wire for AnnotatedTextEdit {
    ghost shape = { annotated_text_edit_row.shape };

    ghost shown = { annotated_text_edit_row.shown };

    fn from_value(alloc: Global, value: &Value) -> Result<AnnotatedTextEdit, Misfit> {
        let (text_edit, annotation_id) = read_object(
            alloc,
            value,
            (Flat, Required("annotationId")),
        )?;
        Ok(AnnotatedTextEdit {
            text_edit,
            annotation_id,
        })
    }

    fn to_value(&self, alloc: Global) -> Result<Value, NoMemory> {
        let mut object = Writer::new(alloc);
        object.flat(&self.text_edit);
        object.field("annotationId", &self.annotation_id);
        object.end()
    }
}

/// Edits of one version of a document (LSP 3.17, "TextDocumentEdit").
#[derive(Debug, PartialEq, Eq, Clone, Drop)]
pub struct TextDocumentEdit {
    /// The document, and the version that the edits speak of.
    pub text_document: OptionalVersionedTextDocumentIdentifier,
    /// The edits. One with an annotation is read without it, since it fits an edit.
    pub edits: Vec<OneOf<TextEdit, AnnotatedTextEdit>>,
}

#[tactic(auto, unfolding(crate::specs::Edit::text_document_edit_row))]
impl Wire for TextDocumentEdit {
    ghost shape = { text_document_edit_row.shape };

    ghost shown = { text_document_edit_row.shown };

    fn from_value(alloc: Global, value: &Value) -> Result<TextDocumentEdit, Misfit> {
        let (text_document, edits) = read_object(
            alloc,
            value,
            (Required("textDocument"), Required("edits")),
        )?;
        Ok(TextDocumentEdit {
            text_document,
            edits,
        })
    }

    fn to_value(&self, alloc: Global) -> Result<Value, NoMemory> {
        let mut object = Writer::new(alloc);
        object.field("textDocument", &self.text_document);
        object.field("edits", &self.edits);
        object.end()
    }
}

/// What a change is for, as the user is told. Since 3.16 (LSP 3.17, "TextEdit &
/// AnnotatedTextEdit").
#[derive(Debug, PartialEq, Eq, Clone, Drop)]
pub struct ChangeAnnotation {
    /// What the user sees first.
    pub label: String,
    /// Whether the user has to agree before the change is made.
    pub needs_confirmation: Option<bool>,
    /// What the user sees below the label.
    pub description: Option<String>,
}

#[tactic(auto, unfolding(crate::specs::Edit::change_annotation_row))]
impl Wire for ChangeAnnotation {
    ghost shape = { change_annotation_row.shape };

    ghost shown = { change_annotation_row.shown };

    fn from_value(alloc: Global, value: &Value) -> Result<ChangeAnnotation, Misfit> {
        let (label, needs_confirmation, description) = read_object(
            alloc,
            value,
            (
                Required("label"),
                Optional("needsConfirmation"),
                Optional("description"),
            ),
        )?;
        Ok(ChangeAnnotation {
            label,
            needs_confirmation,
            description,
        })
    }

    fn to_value(&self, alloc: Global) -> Result<Value, NoMemory> {
        let mut object = Writer::new(alloc);
        object.field("label", &self.label);
        object.optional("needsConfirmation", &self.needs_confirmation);
        object.optional("description", &self.description);
        object.end()
    }
}
