//! The types that most others of LSP 3.17 are made of: positions, documents, edits and diagnostics.
#![tactic(auto)]

mod capability;
mod command;
mod diagnostic;
mod document;
mod edit;
pub mod error_codes;
mod position;
mod progress;
mod registration;
mod resource;
mod workspace_edit;

pub use capability::SymbolKindCapability;
pub use command::Command;
pub use diagnostic::{CodeDescription, Diagnostic, DiagnosticRelatedInformation};
pub use document::{
    DocumentFilter, DocumentSelector, OptionalVersionedTextDocumentIdentifier,
    TextDocumentContentChangeEvent, TextDocumentIdentifier, TextDocumentItem,
    TextDocumentPositionParams, VersionedTextDocumentIdentifier, WorkspaceFolder,
};
pub use edit::{
    AnnotatedTextEdit, ChangeAnnotation, ChangeAnnotationIdentifier, OneOf, TextDocumentEdit,
    TextEdit,
};
pub use position::{
    CancelParams, LSPAny, LSPArray, LSPObject, Location, LocationLink, NumberOrString, Position,
    Range,
};
pub use progress::{PartialResultParams, ProgressToken, WorkDoneProgressParams};
pub use registration::{
    DynamicRegistrationClientCapabilities, GotoCapability, StaticRegistrationOptions, TagSupport,
    TextDocumentRegistrationOptions,
};
pub use resource::{
    CreateFile, CreateFileOptions, DeleteFile, DeleteFileOptions, RenameFile, RenameFileOptions,
    ResourceOp,
};
pub use workspace_edit::{DocumentChangeOperation, DocumentChanges, WorkspaceEdit};
