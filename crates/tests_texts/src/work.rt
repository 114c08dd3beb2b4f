// The rows of lsp_work.
use lsp_rows::{RowError, Trial};
use lsp_work::{
    ApplyWorkspaceEditParams, ApplyWorkspaceEditResponse, ConfigurationItem, ConfigurationParams,
    CreateFilesParams, DeleteFilesParams, DidChangeConfigurationParams,
    DidChangeTextDocumentParams, DidChangeWatchedFilesParams, DidChangeWorkspaceFoldersParams,
    DidCloseTextDocumentParams, DidOpenTextDocumentParams, DidSaveTextDocumentParams,
    ExecuteCommandParams, FileCreate, FileDelete, FileEvent, FileRename, LogMessageParams,
    LogTraceParams, MessageActionItem, MessageActionItemProperty, ProgressParams,
    ProgressParamsValue, PublishDiagnosticsParams, RenameFilesParams, SetTraceParams,
    ShowDocumentParams, ShowDocumentResult, ShowMessageParams, ShowMessageRequestParams,
    WillSaveTextDocumentParams, WorkDoneProgress, WorkDoneProgressBegin,
    WorkDoneProgressCancelParams, WorkDoneProgressCreateParams, WorkDoneProgressEnd,
    WorkDoneProgressReport, WorkspaceFoldersChangeEvent,
};

const DID_OPEN_TEXT_DOCUMENT_PARAMS: &str = r#"
{"textDocument":{"languageId":"languageId","text":"text","uri":"file:///uri","version":79}} :: DidOpenTextDocumentParams { text_document: TextDocumentItem { uri: Uri { text: "file:///uri" }, language_id: "languageId", version: 79, text: "text" } }
? textDocument
! {} :: textDocument: is missing
# Visual Studio Code
{"textDocument":{"languageId":"rust","text":"fn main() {}\n","uri":"file:///w/a.rs","version":1}}
"#;

const DID_CHANGE_TEXT_DOCUMENT_PARAMS: &str = r#"
{"contentChanges":[{"range":{"end":{"character":29,"line":85},"start":{"character":29,"line":85}},"text":"text"}],"textDocument":{"uri":"file:///uri","version":79}} :: DidChangeTextDocumentParams { text_document: VersionedTextDocumentIdentifier { uri: Uri { text: "file:///uri" }, version: 79 }, content_changes: [TextDocumentContentChangeEvent { range: Some(Range { start: Position { line: 85, character: 29 }, end: Position { line: 85, character: 29 } }), range_length: None, text: "text" }] }
? textDocument contentChanges
! {"contentChanges":[{"range":{"end":{"character":29,"line":85},"start":{"character":29,"line":85}},"text":"text"}]} :: textDocument: is missing
# Visual Studio Code
{"contentChanges":[{"range":{"end":{"character":3,"line":0},"start":{"character":3,"line":0}},"rangeLength":0,"text":"x"}],"textDocument":{"uri":"file:///w/a.rs","version":2}}
"#;

const WILL_SAVE_TEXT_DOCUMENT_PARAMS: &str = r#"
{"reason":104,"textDocument":{"uri":"file:///uri"}} :: WillSaveTextDocumentParams { text_document: TextDocumentIdentifier { uri: Uri { text: "file:///uri" } }, reason: TextDocumentSaveReason(104) }
? textDocument reason
! {"reason":104} :: textDocument: is missing
"#;

const DID_SAVE_TEXT_DOCUMENT_PARAMS: &str = r#"
{"text":"text","textDocument":{"uri":"file:///uri"}} :: DidSaveTextDocumentParams { text_document: TextDocumentIdentifier { uri: Uri { text: "file:///uri" } }, text: Some("text") }
? textDocument
! {} :: textDocument: is missing
"#;

const DID_CLOSE_TEXT_DOCUMENT_PARAMS: &str = r#"
{"textDocument":{"uri":"file:///uri"}} :: DidCloseTextDocumentParams { text_document: TextDocumentIdentifier { uri: Uri { text: "file:///uri" } } }
? textDocument
! {} :: textDocument: is missing
"#;

const PUBLISH_DIAGNOSTICS_PARAMS: &str = r#"
{"diagnostics":[{"message":"message","range":{"end":{"character":29,"line":85},"start":{"character":29,"line":85}}}],"uri":"file:///uri","version":79} :: PublishDiagnosticsParams { uri: Uri { text: "file:///uri" }, diagnostics: [Diagnostic { range: Range { start: Position { line: 85, character: 29 }, end: Position { line: 85, character: 29 } }, severity: None, code: None, code_description: None, source: None, message: "message", related_information: None, tags: None, payload: None }], version: Some(79) }
? uri diagnostics
! {"diagnostics":[{"message":"message","range":{"end":{"character":29,"line":85},"start":{"character":29,"line":85}}}]} :: uri: is missing
# clangd 14.0.6
{"diagnostics":[{"code":"undeclared_var_use","codeActions":[],"message":"Use of undeclared identifier 'retrun'","range":{"end":{"character":8,"line":14},"start":{"character":2,"line":14}},"relatedInformation":[],"severity":1,"source":"clang"}],"uri":"file:///tmp/td_rec/src/main.cpp","version":1} => {"diagnostics":[{"code":"undeclared_var_use","message":"Use of undeclared identifier 'retrun'","range":{"end":{"character":8,"line":14},"start":{"character":2,"line":14}},"relatedInformation":[],"severity":1,"source":"clang"}],"uri":"file:///tmp/td_rec/src/main.cpp","version":1}
# pylsp 1.7.1
{"diagnostics":[{"message":"'os' imported but unused","range":{"end":{"character":10,"line":1},"start":{"character":0,"line":1}},"severity":2,"source":"pyflakes"},{"message":"undefined name 'undefined_name'","range":{"end":{"character":15,"line":30},"start":{"character":0,"line":30}},"severity":1,"source":"pyflakes"}],"uri":"file:///tmp/td_rec/src/shapes.py"}
"#;

const DID_CHANGE_CONFIGURATION_PARAMS: &str = r#"
{"settings":78} :: DidChangeConfigurationParams { settings: Number(78) }
? settings
! [] :: an object is wanted
"#;

const CONFIGURATION_PARAMS: &str = r#"
{"items":[{"scopeUri":"file:///scopeUri"}]} :: ConfigurationParams { items: [ConfigurationItem { scope_uri: Some(Uri { text: "file:///scopeUri" }), section: None }] }
? items
! {} :: items: is missing
# gopls
{"items":[{"scopeUri":"file:///w","section":"gopls"}]}
"#;

const CONFIGURATION_ITEM: &str = r#"
{"scopeUri":"file:///scopeUri","section":"section"} :: ConfigurationItem { scope_uri: Some(Uri { text: "file:///scopeUri" }), section: Some("section") }
?
! {"scopeUri":1} :: scopeUri: a URI is wanted
"#;

const DID_CHANGE_WATCHED_FILES_PARAMS: &str = r#"
{"changes":[{"type":134,"uri":"file:///uri"}]} :: DidChangeWatchedFilesParams { changes: [FileEvent { uri: Uri { text: "file:///uri" }, typ: FileChangeType(134) }] }
? changes
! {} :: changes: is missing
# Visual Studio Code
{"changes":[{"type":2,"uri":"file:///w/Cargo.toml"}]}
"#;

const FILE_EVENT: &str = r#"
{"type":134,"uri":"file:///uri"} :: FileEvent { uri: Uri { text: "file:///uri" }, typ: FileChangeType(134) }
? uri type
! {"type":134} :: uri: is missing
"#;

const DID_CHANGE_WORKSPACE_FOLDERS_PARAMS: &str = r#"
{"event":{"added":[{"name":"name","uri":"file:///uri"}],"removed":[{"name":"name","uri":"file:///uri"}]}} :: DidChangeWorkspaceFoldersParams { event: WorkspaceFoldersChangeEvent { added: [WorkspaceFolder { uri: Uri { text: "file:///uri" }, name: "name" }], removed: [WorkspaceFolder { uri: Uri { text: "file:///uri" }, name: "name" }] } }
? event
! {} :: event: is missing
# Visual Studio Code
{"event":{"added":[{"name":"v","uri":"file:///v"}],"removed":[{"name":"w","uri":"file:///w"}]}}
"#;

const WORKSPACE_FOLDERS_CHANGE_EVENT: &str = r#"
{"added":[{"name":"name","uri":"file:///uri"}],"removed":[{"name":"name","uri":"file:///uri1"}]} :: WorkspaceFoldersChangeEvent { added: [WorkspaceFolder { uri: Uri { text: "file:///uri" }, name: "name" }], removed: [WorkspaceFolder { uri: Uri { text: "file:///uri1" }, name: "name" }] }
? added removed
! {"removed":[{"name":"name","uri":"file:///uri"}]} :: added: is missing
"#;

const EXECUTE_COMMAND_PARAMS: &str = r#"
{"arguments":[42],"command":"command","workDoneToken":71} :: ExecuteCommandParams { command: "command", arguments: [Number(42)], work_done_progress_params: WorkDoneProgressParams { work_done_token: Some(Number(71)) } }
? command arguments=[]
! {"arguments":[],"workDoneToken":71} :: command: is missing
"#;

const APPLY_WORKSPACE_EDIT_PARAMS: &str = r#"
{"edit":{"changes":{"file:///changes":[{"newText":"newText","range":{"end":{"character":29,"line":85},"start":{"character":29,"line":85}}}]}},"label":"label"} :: ApplyWorkspaceEditParams { label: Some("label"), edit: WorkspaceEdit { changes: Some({Uri { text: "file:///changes" }: [TextEdit { range: Range { start: Position { line: 85, character: 29 }, end: Position { line: 85, character: 29 } }, new_text: "newText" }]}), document_changes: None, change_annotations: None } }
? edit
! {"label":"label"} :: edit: is missing
# gopls
{"edit":{"documentChanges":[{"edits":[{"newText":"x","range":{"end":{"character":1,"line":1},"start":{"character":0,"line":1}}}],"textDocument":{"uri":"file:///w/main.go","version":1}}]}}
"#;

const APPLY_WORKSPACE_EDIT_RESPONSE: &str = r#"
{"applied":true,"failedChange":10,"failureReason":"failureReason"} :: ApplyWorkspaceEditResponse { applied: true, failure_reason: Some("failureReason"), failed_change: Some(10) }
? applied
! {} :: applied: is missing
"#;

const CREATE_FILES_PARAMS: &str = r#"
{"files":[{"uri":"uri"}]} :: CreateFilesParams { files: [FileCreate { uri: "uri" }] }
? files
! {} :: files: is missing
"#;

const FILE_CREATE: &str = r#"
{"uri":"uri"} :: FileCreate { uri: "uri" }
? uri
! {} :: uri: is missing
"#;

const RENAME_FILES_PARAMS: &str = r#"
{"files":[{"newUri":"newUri","oldUri":"oldUri"}]} :: RenameFilesParams { files: [FileRename { old_uri: "oldUri", new_uri: "newUri" }] }
? files
! {} :: files: is missing
"#;

const FILE_RENAME: &str = r#"
{"newUri":"newUri","oldUri":"oldUri"} :: FileRename { old_uri: "oldUri", new_uri: "newUri" }
? oldUri newUri
! {"newUri":"newUri"} :: oldUri: is missing
"#;

const DELETE_FILES_PARAMS: &str = r#"
{"files":[{"uri":"uri"}]} :: DeleteFilesParams { files: [FileDelete { uri: "uri" }] }
? files
! {} :: files: is missing
"#;

const FILE_DELETE: &str = r#"
{"uri":"uri"} :: FileDelete { uri: "uri" }
? uri
! {} :: uri: is missing
"#;

const SHOW_MESSAGE_PARAMS: &str = r#"
{"message":"message","type":134} :: ShowMessageParams { typ: MessageType(134), message: "message" }
? type message
! {"message":"message"} :: type: is missing
# gopls
{"message":"Error loading workspace: no go.mod file","type":1}
"#;

const SHOW_MESSAGE_REQUEST_PARAMS: &str = r#"
{"actions":[{"title":"title"}],"message":"message","type":134} :: ShowMessageRequestParams { typ: MessageType(134), message: "message", actions: Some([MessageActionItem { title: "title", properties: {} }]) }
? type message
! {"message":"message"} :: type: is missing
"#;

const MESSAGE_ACTION_ITEM: &str = r#"
{"properties":"properties","title":"title"} :: MessageActionItem { title: "title", properties: {"properties": String("properties")} }
? title
! {} :: title: is missing
{"id":7,"isCloseAffordance":true,"title":"Retry","why":"slow"}
"#;

const MESSAGE_ACTION_ITEM_PROPERTY: &str = r#"
"message_action_item_property" :: String("message_action_item_property")
true :: Boolean(true)
9 :: Integer(9)
9 :: Integer(9)
"#;

const LOG_MESSAGE_PARAMS: &str = r#"
{"message":"message","type":134} :: LogMessageParams { typ: MessageType(134), message: "message" }
? type message
! {"message":"message"} :: type: is missing
"#;

const SHOW_DOCUMENT_PARAMS: &str = r#"
{"external":true,"selection":{"end":{"character":29,"line":85},"start":{"character":29,"line":85}},"takeFocus":false,"uri":"file:///uri"} :: ShowDocumentParams { uri: Uri { text: "file:///uri" }, external: Some(true), take_focus: Some(false), selection: Some(Range { start: Position { line: 85, character: 29 }, end: Position { line: 85, character: 29 } }) }
? uri
! {} :: uri: is missing
"#;

const SHOW_DOCUMENT_RESULT: &str = r#"
{"success":true} :: ShowDocumentResult { success: true }
? success
! {} :: success: is missing
"#;

const SET_TRACE_PARAMS: &str = r#"
{"value":"off"} :: SetTraceParams { value: Off }
? value
! {} :: value: is missing
"#;

const LOG_TRACE_PARAMS: &str = r#"
{"message":"message","verbose":"verbose"} :: LogTraceParams { message: "message", verbose: Some("verbose") }
? message
! {} :: message: is missing
"#;

const PROGRESS_PARAMS: &str = r#"
{"token":64,"value":{"kind":"begin","title":"title"}} :: ProgressParams { token: Number(64), value: WorkDone(Begin(WorkDoneProgressBegin { title: "title", cancellable: None, message: None, percentage: None })) }
? token value
! {"value":{"kind":"begin","title":"title"}} :: token: is missing
# pylsp 1.7.1
{"token":"aae6d673-2388-4265-8f80-9beb243a0bac","value":{"kind":"begin","title":"lint: pyflakes"}}
# pylsp 1.7.1
{"token":"aae6d673-2388-4265-8f80-9beb243a0bac","value":{"kind":"end"}}
# pylsp 1.7.1
{"token":"aab98123-4d79-44cf-8afa-a23d0966c34b","value":{"kind":"report","message":"refactoring"}}
# rust-analyzer
{"token":"rustAnalyzer/Indexing","value":{"cancellable":false,"kind":"begin","percentage":0,"title":"Indexing"}}
# rust-analyzer
{"token":"rustAnalyzer/Indexing","value":{"cancellable":false,"kind":"report","message":"3/7 (core)","percentage":42}}
# rust-analyzer
{"token":"rustAnalyzer/Indexing","value":{"kind":"end"}}
"#;

const PROGRESS_PARAMS_VALUE: &str = r#"
{"kind":"begin","title":"title"} :: WorkDone(Begin(WorkDoneProgressBegin { title: "title", cancellable: None, message: None, percentage: None }))
! false :: one of its forms is wanted
"#;

const WORK_DONE_PROGRESS: &str = r#"
{"kind":"begin","title":"title"} :: Begin(WorkDoneProgressBegin { title: "title", cancellable: None, message: None, percentage: None })
{"cancellable":true,"kind":"report"} :: Report(WorkDoneProgressReport { cancellable: Some(true), message: None, percentage: None })
{"kind":"end","message":"message"} :: End(WorkDoneProgressEnd { message: Some("message") })
! {"kind":"no"} :: one of its forms is wanted
"#;

const WORK_DONE_PROGRESS_BEGIN: &str = r#"
{"cancellable":true,"message":"message","percentage":22,"title":"title"} :: WorkDoneProgressBegin { title: "title", cancellable: Some(true), message: Some("message"), percentage: Some(22) }
? title
! {} :: title: is missing
"#;

const WORK_DONE_PROGRESS_REPORT: &str = r#"
{"cancellable":true,"message":"message","percentage":22} :: WorkDoneProgressReport { cancellable: Some(true), message: Some("message"), percentage: Some(22) }
?
! {"cancellable":"no"} :: cancellable: true or false is wanted
"#;

const WORK_DONE_PROGRESS_END: &str = r#"
{"message":"message"} :: WorkDoneProgressEnd { message: Some("message") }
?
! {"message":1} :: message: a text is wanted
"#;

const WORK_DONE_PROGRESS_CREATE_PARAMS: &str = r#"
{"token":64} :: WorkDoneProgressCreateParams { token: Number(64) }
? token
! {} :: token: is missing
# rust-analyzer
{"token":"rustAnalyzer/Indexing"}
"#;

const WORK_DONE_PROGRESS_CANCEL_PARAMS: &str = r#"
{"token":64} :: WorkDoneProgressCancelParams { token: Number(64) }
? token
! {} :: token: is missing
"#;

#[test]
fn rows_1(rt: HostRuntime) -> Result<(), RowError> {
    let mut trial = Trial::new(rt.alloc());
    trial.holds::<DidOpenTextDocumentParams>(DID_OPEN_TEXT_DOCUMENT_PARAMS);
    trial.holds::<DidChangeTextDocumentParams>(DID_CHANGE_TEXT_DOCUMENT_PARAMS);
    trial.holds::<WillSaveTextDocumentParams>(WILL_SAVE_TEXT_DOCUMENT_PARAMS);
    trial.holds::<DidSaveTextDocumentParams>(DID_SAVE_TEXT_DOCUMENT_PARAMS);
    trial.holds::<DidCloseTextDocumentParams>(DID_CLOSE_TEXT_DOCUMENT_PARAMS);
    trial.holds::<PublishDiagnosticsParams>(PUBLISH_DIAGNOSTICS_PARAMS);
    trial.holds::<DidChangeConfigurationParams>(DID_CHANGE_CONFIGURATION_PARAMS);
    trial.holds::<ConfigurationParams>(CONFIGURATION_PARAMS);
    trial.holds::<ConfigurationItem>(CONFIGURATION_ITEM);
    trial.holds::<DidChangeWatchedFilesParams>(DID_CHANGE_WATCHED_FILES_PARAMS);
    trial.holds::<FileEvent>(FILE_EVENT);
    trial.holds::<DidChangeWorkspaceFoldersParams>(DID_CHANGE_WORKSPACE_FOLDERS_PARAMS);
    trial.end()
}

#[test]
fn rows_2(rt: HostRuntime) -> Result<(), RowError> {
    let mut trial = Trial::new(rt.alloc());
    trial.holds::<WorkspaceFoldersChangeEvent>(WORKSPACE_FOLDERS_CHANGE_EVENT);
    trial.holds::<ExecuteCommandParams>(EXECUTE_COMMAND_PARAMS);
    trial.holds::<ApplyWorkspaceEditParams>(APPLY_WORKSPACE_EDIT_PARAMS);
    trial.holds::<ApplyWorkspaceEditResponse>(APPLY_WORKSPACE_EDIT_RESPONSE);
    trial.holds::<CreateFilesParams>(CREATE_FILES_PARAMS);
    trial.holds::<FileCreate>(FILE_CREATE);
    trial.holds::<RenameFilesParams>(RENAME_FILES_PARAMS);
    trial.holds::<FileRename>(FILE_RENAME);
    trial.holds::<DeleteFilesParams>(DELETE_FILES_PARAMS);
    trial.holds::<FileDelete>(FILE_DELETE);
    trial.holds::<ShowMessageParams>(SHOW_MESSAGE_PARAMS);
    trial.holds::<ShowMessageRequestParams>(SHOW_MESSAGE_REQUEST_PARAMS);
    trial.end()
}

#[test]
fn rows_3(rt: HostRuntime) -> Result<(), RowError> {
    let mut trial = Trial::new(rt.alloc());
    trial.holds::<MessageActionItem>(MESSAGE_ACTION_ITEM);
    trial.holds::<MessageActionItemProperty>(MESSAGE_ACTION_ITEM_PROPERTY);
    trial.holds::<LogMessageParams>(LOG_MESSAGE_PARAMS);
    trial.holds::<ShowDocumentParams>(SHOW_DOCUMENT_PARAMS);
    trial.holds::<ShowDocumentResult>(SHOW_DOCUMENT_RESULT);
    trial.holds::<SetTraceParams>(SET_TRACE_PARAMS);
    trial.holds::<LogTraceParams>(LOG_TRACE_PARAMS);
    trial.holds::<ProgressParams>(PROGRESS_PARAMS);
    trial.holds::<ProgressParamsValue>(PROGRESS_PARAMS_VALUE);
    trial.holds::<WorkDoneProgress>(WORK_DONE_PROGRESS);
    trial.holds::<WorkDoneProgressBegin>(WORK_DONE_PROGRESS_BEGIN);
    trial.holds::<WorkDoneProgressReport>(WORK_DONE_PROGRESS_REPORT);
    trial.end()
}

#[test]
fn rows_4(rt: HostRuntime) -> Result<(), RowError> {
    let mut trial = Trial::new(rt.alloc());
    trial.holds::<WorkDoneProgressEnd>(WORK_DONE_PROGRESS_END);
    trial.holds::<WorkDoneProgressCreateParams>(WORK_DONE_PROGRESS_CREATE_PARAMS);
    trial.holds::<WorkDoneProgressCancelParams>(WORK_DONE_PROGRESS_CANCEL_PARAMS);
    trial.end()
}

#[test]
fn defaults(rt: HostRuntime) -> Result<(), RowError> {
    let alloc = rt.alloc();
    let mut trial = Trial::new(alloc);
    trial.is_written(ConfigurationParams::default(alloc), r#"{"items":[]}"#);
    trial.default::<ConfigurationItem>(r#"{}"#);
    trial.is_written(
        DidChangeWorkspaceFoldersParams::default(alloc),
        r#"{"event":{"added":[],"removed":[]}}"#,
    );
    trial.is_written(
        WorkspaceFoldersChangeEvent::default(alloc),
        r#"{"added":[],"removed":[]}"#,
    );
    trial.is_written(
        ExecuteCommandParams::default(alloc),
        r#"{"arguments":[],"command":""}"#,
    );
    trial.is_written(CreateFilesParams::default(alloc), r#"{"files":[]}"#);
    trial.is_written(FileCreate::default(alloc), r#"{"uri":""}"#);
    trial.is_written(RenameFilesParams::default(alloc), r#"{"files":[]}"#);
    trial.is_written(FileRename::default(alloc), r#"{"newUri":"","oldUri":""}"#);
    trial.is_written(DeleteFilesParams::default(alloc), r#"{"files":[]}"#);
    trial.is_written(FileDelete::default(alloc), r#"{"uri":""}"#);
    trial.is_written(WorkDoneProgressBegin::default(alloc), r#"{"title":""}"#);
    trial.default::<WorkDoneProgressReport>(r#"{}"#);
    trial.default::<WorkDoneProgressEnd>(r#"{}"#);
    trial.end()
}
