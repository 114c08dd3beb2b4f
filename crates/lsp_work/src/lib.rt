//! What the notifications and requests on documents, files, the workspace and windows tell.
#![tactic(auto)]

mod document;
mod files;
mod progress;
mod window;
mod workspace;

pub use document::{
    DidChangeTextDocumentParams, DidCloseTextDocumentParams, DidOpenTextDocumentParams,
    DidSaveTextDocumentParams, PublishDiagnosticsParams, WillSaveTextDocumentParams,
};
pub use files::{
    CreateFilesParams, DeleteFilesParams, FileCreate, FileDelete, FileRename, RenameFilesParams,
};
pub use progress::{
    ProgressParams, ProgressParamsValue, WorkDoneProgress, WorkDoneProgressBegin,
    WorkDoneProgressCancelParams, WorkDoneProgressCreateParams, WorkDoneProgressEnd,
    WorkDoneProgressReport,
};
pub use window::{
    LogMessageParams, LogTraceParams, MessageActionItem, MessageActionItemProperty, SetTraceParams,
    ShowDocumentParams, ShowDocumentResult, ShowMessageParams, ShowMessageRequestParams,
};
pub use workspace::{
    ApplyWorkspaceEditParams, ApplyWorkspaceEditResponse, ConfigurationItem, ConfigurationParams,
    DidChangeConfigurationParams, DidChangeWatchedFilesParams, DidChangeWorkspaceFoldersParams,
    ExecuteCommandParams, FileEvent, WorkspaceFoldersChangeEvent,
};
