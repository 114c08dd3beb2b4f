//! What a server offers for the workspace, and the options of its registrations.
#![tactic(auto)]
#![allow(non_upper_case_globals)]

mod command;
mod files;
mod notebook;
mod registration;
mod server;
mod watch;
mod watch_kind;
mod workspace;

pub use command::{ExecuteCommandOptions, ExecuteCommandRegistrationOptions};
pub use files::{
    FileOperationFilter, FileOperationPattern, FileOperationPatternKind,
    FileOperationPatternOptions, FileOperationRegistrationOptions,
    WorkspaceFileOperationsServerCapabilities,
};
pub use notebook::{
    Notebook, NotebookCellSelector, NotebookCellTextDocumentFilter, NotebookDocumentFilter,
    NotebookDocumentSyncOptions, NotebookDocumentSyncRegistrationOptions, NotebookSelector,
};
pub use registration::{Registration, RegistrationParams, Unregistration, UnregistrationParams};
pub use server::{InitializeError, ServerInfo};
pub use watch::{
    DidChangeWatchedFilesRegistrationOptions, FileSystemWatcher, GlobPattern, Pattern,
    RelativePattern,
};
pub use watch_kind::WatchKind;
pub use workspace::{WorkspaceFoldersServerCapabilities, WorkspaceServerCapabilities};
