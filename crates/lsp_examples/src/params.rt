// What the server sends.
use lsp_service::{InitializeCall, InitializeReply, NoMemory};
use lsp_types::{
    Diagnostic, ExecuteCommandParams, ProgressParams, ProgressParamsValue, Range,
    ServerCapabilities, TextDocumentItem, TextDocumentSyncKind, WorkDoneProgress,
    WorkDoneProgressBegin, WorkDoneProgressEnd, WorkspaceFolder,
};
use std::alloc::Global;

/// What the server is able to do.
pub(crate) fn initialize(
    alloc: Global,
    _params: InitializeCall,
) -> Result<InitializeReply, NoMemory> {
    let mut capabilities = ServerCapabilities::default();
    capabilities.text_document_sync = Some(TextDocumentSyncKind::FULL.into());
    InitializeReply::offering(alloc, capabilities)
}

/// A line on the folders of a workspace.
pub(crate) fn folders_line(
    alloc: Global,
    folders: Option<Vec<WorkspaceFolder>>,
) -> Result<String, NoMemory> {
    match folders {
        Some(folders) => Ok(format!(in alloc; "folders: {}", folders.len())?),
        None => Ok(String::from_str(alloc, "no folder")?),
    }
}

/// What is found in a document.
pub(crate) fn greeting(
    alloc: Global,
    document: &TextDocumentItem,
) -> Result<Vec<Diagnostic>, NoMemory> {
    let message = format!(in alloc; "Hello, {}", document.language_id.as_str())?;
    Ok(vec![in alloc; Diagnostic::new_simple(Range::default(), message)]?)
}

/// The beginning of a command, where the client wants to hear of it.
pub(crate) fn begun(
    alloc: Global,
    params: &ExecuteCommandParams,
) -> Result<Option<ProgressParams>, NoMemory> {
    match &params.work_done_progress_params.work_done_token {
        Some(token) => {
            let mut begin = WorkDoneProgressBegin::default(alloc);
            begin.title = params.command.clone()?;
            Ok(Some(ProgressParams {
                token: token.clone()?,
                value: ProgressParamsValue::WorkDone(WorkDoneProgress::Begin(begin)),
            }))
        }
        None => Ok(None),
    }
}

/// Its end.
pub(crate) fn ended(params: ExecuteCommandParams) -> Option<ProgressParams> {
    let token = params.work_done_progress_params.work_done_token;
    match token {
        Some(token) => Some(ProgressParams {
            token,
            value: ProgressParamsValue::WorkDone(WorkDoneProgress::End(
                WorkDoneProgressEnd::default(),
            )),
        }),
        None => None,
    }
}
