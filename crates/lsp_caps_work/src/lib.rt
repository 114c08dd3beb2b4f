//! What a client supports of the workspace, of its windows and of the protocol itself, as it tells
//! when a session begins.
#![tactic(auto)]

mod client;
mod configuration;
mod edit;
mod files;
mod general;
mod notebook;
mod refresh;
mod symbols;
mod window;
mod workspace;

pub use client::{ClientInfo, InitializedParams};
pub use configuration::{
    DidChangeConfigurationClientCapabilities, DidChangeWatchedFilesClientCapabilities,
    ExecuteCommandClientCapabilities,
};
pub use edit::{
    ChangeAnnotationWorkspaceEditClientCapabilities, FailureHandlingKind, ResourceOperationKind,
    WorkspaceEditClientCapabilities,
};
pub use files::WorkspaceFileOperationsClientCapabilities;
pub use general::{
    GeneralClientCapabilities, MarkdownClientCapabilities, RegularExpressionsClientCapabilities,
    StaleRequestSupportClientCapabilities,
};
pub use notebook::{NotebookDocumentClientCapabilities, NotebookDocumentSyncClientCapabilities};
pub use refresh::{
    CodeLensWorkspaceClientCapabilities, DiagnosticWorkspaceClientCapabilities,
    InlayHintWorkspaceClientCapabilities, InlineValueWorkspaceClientCapabilities,
    SemanticTokensWorkspaceClientCapabilities,
};
pub use symbols::{WorkspaceSymbolClientCapabilities, WorkspaceSymbolResolveSupportCapability};
pub use window::{
    MessageActionItemCapabilities, ShowDocumentClientCapabilities,
    ShowMessageRequestClientCapabilities, WindowClientCapabilities,
};
pub use workspace::WorkspaceClientCapabilities;
