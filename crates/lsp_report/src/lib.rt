//! Reports of diagnostics that the client asks for, and notebooks.
#![tactic(auto)]

mod cancellation;
mod cell_kind;
mod document;
mod notebook;
mod workspace;

pub use cancellation::DiagnosticServerCancellationData;
pub use cell_kind::NotebookCellKind;
pub use document::{
    DocumentDiagnosticParams, DocumentDiagnosticReport, DocumentDiagnosticReportKind,
    DocumentDiagnosticReportPartialResult, DocumentDiagnosticReportResult,
    FullDocumentDiagnosticReport, RelatedFullDocumentDiagnosticReport,
    RelatedUnchangedDocumentDiagnosticReport, UnchangedDocumentDiagnosticReport,
};
pub use notebook::{
    DidChangeNotebookDocumentParams, DidCloseNotebookDocumentParams, DidOpenNotebookDocumentParams,
    DidSaveNotebookDocumentParams, ExecutionSummary, NotebookCell, NotebookCellArrayChange,
    NotebookDocument, NotebookDocumentCellChange, NotebookDocumentCellChangeStructure,
    NotebookDocumentChangeEvent, NotebookDocumentChangeTextContent, NotebookDocumentIdentifier,
    VersionedNotebookDocumentIdentifier,
};
pub use workspace::{
    PreviousResultId, WorkspaceDiagnosticParams, WorkspaceDiagnosticReport,
    WorkspaceDiagnosticReportPartialResult, WorkspaceDiagnosticReportResult,
    WorkspaceDocumentDiagnosticReport, WorkspaceFullDocumentDiagnosticReport,
    WorkspaceUnchangedDocumentDiagnosticReport,
};
