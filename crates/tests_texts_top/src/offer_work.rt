// The rows of lsp_offer_work.
use lsp_offer_work::{
    DidChangeWatchedFilesRegistrationOptions, ExecuteCommandOptions,
    ExecuteCommandRegistrationOptions, FileOperationFilter, FileOperationPattern,
    FileOperationPatternKind, FileOperationPatternOptions, FileOperationRegistrationOptions,
    FileSystemWatcher, GlobPattern, InitializeError, Notebook, NotebookCellSelector,
    NotebookCellTextDocumentFilter, NotebookDocumentFilter, NotebookDocumentSyncOptions,
    NotebookDocumentSyncRegistrationOptions, NotebookSelector, Registration, RegistrationParams,
    RelativePattern, ServerInfo, Unregistration, UnregistrationParams, WatchKind,
    WorkspaceFileOperationsServerCapabilities, WorkspaceFoldersServerCapabilities,
    WorkspaceServerCapabilities,
};
use lsp_rows::{RowError, Trial};
use lsp_shape::read_text;
use std::alloc::Global;

const REGISTRATION: &str = r#"
{"id":"id","method":"method","registerOptions":15} :: Registration { id: "id", method: "method", register_options: Some(Number(15)) }
? id method
! {"method":"method"} :: id: is missing
"#;

const REGISTRATION_PARAMS: &str = r#"
{"registrations":[{"id":"id","method":"method"}]} :: RegistrationParams { registrations: [Registration { id: "id", method: "method", register_options: None }] }
? registrations
! {} :: registrations: is missing
# rust-analyzer, by its public sources
{"registrations":[{"id":"textDocument/didSave","method":"textDocument/didSave","registerOptions":{"includeText":false,"documentSelector":[{"pattern":"**/*.rs"},{"pattern":"**/Cargo.toml"},{"pattern":"**/Cargo.lock"}]}}]}
{"registrations":[{"id":"workspace/didChangeWatchedFiles","method":"workspace/didChangeWatchedFiles","registerOptions":{"watchers":[{"globPattern":"/home/me/project/**/*.rs"}]}}]}
"#;

const UNREGISTRATION: &str = r#"
{"id":"id","method":"method"} :: Unregistration { id: "id", method: "method" }
? id method
! {"method":"method"} :: id: is missing
"#;

const UNREGISTRATION_PARAMS: &str = r#"
{"unregisterations":[{"id":"id","method":"method"}]} :: UnregistrationParams { unregisterations: [Unregistration { id: "id", method: "method" }] }
? unregisterations
! {} :: unregisterations: is missing
! {"unregistrations":[]} :: unregisterations: is missing
"#;

const EXECUTE_COMMAND_OPTIONS: &str = r#"
{"commands":["commands"],"workDoneProgress":true} :: ExecuteCommandOptions { commands: ["commands"], work_done_progress_options: WorkDoneProgressOptions { work_done_progress: Some(true) } }
? commands
! {"workDoneProgress":true} :: commands: is missing
# clangd 14.0.6
{"commands":["clangd.applyFix","clangd.applyTweak"]}
# pylsp 1.7.1
{"commands":[]}
"#;

const EXECUTE_COMMAND_REGISTRATION_OPTIONS: &str = r#"
{"commands":["commands"],"workDoneProgress":true} :: ExecuteCommandRegistrationOptions { commands: ["commands"], work_done_progress_options: WorkDoneProgressOptions { work_done_progress: Some(true) } }
? commands
! {"workDoneProgress":true} :: commands: is missing
{"commands":["a"]}
"#;

const DID_CHANGE_WATCHED_FILES_REGISTRATION_OPTIONS: &str = r#"
{"watchers":[{"globPattern":"globPattern"}]} :: DidChangeWatchedFilesRegistrationOptions { watchers: [FileSystemWatcher { glob_pattern: String("globPattern"), kind: None }] }
? watchers
! {} :: watchers: is missing
"#;

const FILE_SYSTEM_WATCHER: &str = r#"
{"globPattern":"globPattern","kind":1} :: FileSystemWatcher { glob_pattern: String("globPattern"), kind: Some(WatchKind(1)) }
? globPattern
! {} :: globPattern: is missing
{"globPattern":"**/*.go","kind":7} :: FileSystemWatcher { glob_pattern: String("**/*.go"), kind: Some(WatchKind(7)) }
! {"globPattern":"**/*.go","kind":8} :: kind: an unsigned integer is wanted
"#;

const GLOB_PATTERN: &str = r#"
"glob_pattern" :: String("glob_pattern")
{"baseUri":{"name":"name","uri":"file:///uri"},"pattern":"pattern"} :: Relative(RelativePattern { base_uri: Left(WorkspaceFolder { uri: Uri { text: "file:///uri" }, name: "name" }), pattern: "pattern" })
! false :: one of its forms is wanted
"#;

const RELATIVE_PATTERN: &str = r#"
{"baseUri":{"name":"name","uri":"file:///uri"},"pattern":"pattern"} :: RelativePattern { base_uri: Left(WorkspaceFolder { uri: Uri { text: "file:///uri" }, name: "name" }), pattern: "pattern" }
? baseUri pattern
! {"pattern":"pattern"} :: baseUri: is missing
{"baseUri":"file:///home/me/project","pattern":"**/*.ts"} :: RelativePattern { base_uri: Right(Uri { text: "file:///home/me/project" }), pattern: "**/*.ts" }
"#;

const WATCH_KIND: &str = r#"
1 :: WatchKind(1)
2 :: WatchKind(2)
3 :: WatchKind(3)
4 :: WatchKind(4)
7 :: WatchKind(7)
0 :: WatchKind(0)
! 8 :: an unsigned integer is wanted
! 256 :: an unsigned integer is wanted
! -1 :: an unsigned integer is wanted
! "1" :: an unsigned integer is wanted
"#;

const WORKSPACE_FILE_OPERATIONS_SERVER_CAPABILITIES: &str = r#"
{"didCreate":{"filters":[{"pattern":{"glob":"glob"},"scheme":"scheme"}]},"didDelete":{"filters":[{"pattern":{"glob":"glob"},"scheme":"scheme1"}]},"didRename":{"filters":[{"pattern":{"glob":"glob"},"scheme":"scheme"}]},"willCreate":{"filters":[{"pattern":{"glob":"glob"},"scheme":"scheme"}]},"willDelete":{"filters":[{"pattern":{"glob":"glob"},"scheme":"scheme1"}]},"willRename":{"filters":[{"pattern":{"glob":"glob"},"scheme":"scheme"}]}} :: WorkspaceFileOperationsServerCapabilities { did_create: Some(FileOperationRegistrationOptions { filters: [FileOperationFilter { scheme: Some("scheme"), pattern: FileOperationPattern { glob: "glob", matches: None, options: None } }] }), will_create: Some(FileOperationRegistrationOptions { filters: [FileOperationFilter { scheme: Some("scheme"), pattern: FileOperationPattern { glob: "glob", matches: None, options: None } }] }), did_rename: Some(FileOperationRegistrationOptions { filters: [FileOperationFilter { scheme: Some("scheme"), pattern: FileOperationPattern { glob: "glob", matches: None, options: None } }] }), will_rename: Some(FileOperationRegistrationOptions { filters: [FileOperationFilter { scheme: Some("scheme"), pattern: FileOperationPattern { glob: "glob", matches: None, options: None } }] }), did_delete: Some(FileOperationRegistrationOptions { filters: [FileOperationFilter { scheme: Some("scheme1"), pattern: FileOperationPattern { glob: "glob", matches: None, options: None } }] }), will_delete: Some(FileOperationRegistrationOptions { filters: [FileOperationFilter { scheme: Some("scheme1"), pattern: FileOperationPattern { glob: "glob", matches: None, options: None } }] }) }
?
{"didCreate":{"filters":[{"pattern":{"glob":"glob"},"scheme":"scheme"}]},"didDelete":{"filters":[{"pattern":{"glob":"glob"},"scheme":"scheme"}]},"didRename":{"filters":[{"pattern":{"glob":"glob"},"scheme":"scheme2"}]},"willCreate":{"filters":[{"pattern":{"glob":"glob"},"scheme":"scheme1"}]},"willDelete":{"filters":[{"pattern":{"glob":"glob"},"scheme":"scheme1"}]}} :: WorkspaceFileOperationsServerCapabilities { did_create: Some(FileOperationRegistrationOptions { filters: [FileOperationFilter { scheme: Some("scheme"), pattern: FileOperationPattern { glob: "glob", matches: None, options: None } }] }), will_create: Some(FileOperationRegistrationOptions { filters: [FileOperationFilter { scheme: Some("scheme1"), pattern: FileOperationPattern { glob: "glob", matches: None, options: None } }] }), did_rename: Some(FileOperationRegistrationOptions { filters: [FileOperationFilter { scheme: Some("scheme2"), pattern: FileOperationPattern { glob: "glob", matches: None, options: None } }] }), will_rename: None, did_delete: Some(FileOperationRegistrationOptions { filters: [FileOperationFilter { scheme: Some("scheme"), pattern: FileOperationPattern { glob: "glob", matches: None, options: None } }] }), will_delete: Some(FileOperationRegistrationOptions { filters: [FileOperationFilter { scheme: Some("scheme1"), pattern: FileOperationPattern { glob: "glob", matches: None, options: None } }] }) }
! {"didCreate":"no"} :: didCreate: an object is wanted
# gopls of Debian 12 (its version is shortened here)
{}
"#;

const FILE_OPERATION_REGISTRATION_OPTIONS: &str = r#"
{"filters":[{"pattern":{"glob":"glob"},"scheme":"scheme"}]} :: FileOperationRegistrationOptions { filters: [FileOperationFilter { scheme: Some("scheme"), pattern: FileOperationPattern { glob: "glob", matches: None, options: None } }] }
? filters
! {} :: filters: is missing
# The TypeScript server's, by its public form
{"filters":[{"pattern":{"glob":"**/*.{ts,js,jsx,tsx,mjs,mts,cjs,cts}","matches":"file"},"scheme":"file"},{"pattern":{"glob":"**","matches":"folder"},"scheme":"file"}]}
"#;

const FILE_OPERATION_FILTER: &str = r#"
{"pattern":{"glob":"glob"},"scheme":"scheme"} :: FileOperationFilter { scheme: Some("scheme"), pattern: FileOperationPattern { glob: "glob", matches: None, options: None } }
? pattern scheme=null
! {"scheme":"scheme"} :: pattern: is missing
"#;

const FILE_OPERATION_PATTERN_KIND: &str = r#"
"file" :: File
"folder" :: Folder
! "no" :: one of its texts is wanted
"#;

const FILE_OPERATION_PATTERN_OPTIONS: &str = r#"
{"ignoreCase":true} :: FileOperationPatternOptions { ignore_case: Some(true) }
?
! {"ignoreCase":"no"} :: ignoreCase: true or false is wanted
"#;

const FILE_OPERATION_PATTERN: &str = r#"
{"glob":"glob","matches":"file","options":{"ignoreCase":true}} :: FileOperationPattern { glob: "glob", matches: Some(File), options: Some(FileOperationPatternOptions { ignore_case: Some(true) }) }
? glob
! {} :: glob: is missing
"#;

const WORKSPACE_SERVER_CAPABILITIES: &str = r#"
{"fileOperations":{"didCreate":{"filters":[{"pattern":{"glob":"glob"},"scheme":"scheme"}]}},"workspaceFolders":{"supported":true}} :: WorkspaceServerCapabilities { workspace_folders: Some(WorkspaceFoldersServerCapabilities { supported: Some(true), change_notifications: None }), file_operations: Some(WorkspaceFileOperationsServerCapabilities { did_create: Some(FileOperationRegistrationOptions { filters: [FileOperationFilter { scheme: Some("scheme"), pattern: FileOperationPattern { glob: "glob", matches: None, options: None } }] }), will_create: None, did_rename: None, will_rename: None, did_delete: None, will_delete: None }) }
?
! {"workspaceFolders":"no"} :: workspaceFolders: an object is wanted
# pylsp 1.7.1
{"workspaceFolders":{"changeNotifications":true,"supported":true}}
# gopls of Debian 12 (its version is shortened here)
{"fileOperations":{},"workspaceFolders":{"changeNotifications":"workspace/didChangeWorkspaceFolders","supported":true}}
"#;

const WORKSPACE_FOLDERS_SERVER_CAPABILITIES: &str = r#"
{"changeNotifications":true,"supported":true} :: WorkspaceFoldersServerCapabilities { supported: Some(true), change_notifications: Some(Left(true)) }
?
! {"supported":"no"} :: supported: true or false is wanted
# pylsp 1.7.1
{"changeNotifications":true,"supported":true}
# gopls of Debian 12 (its version is shortened here)
{"changeNotifications":"workspace/didChangeWorkspaceFolders","supported":true}
# Members of other types that read alike
{"changeNotifications":true} :: WorkspaceFoldersServerCapabilities { supported: None, change_notifications: Some(Left(true)) }
"#;

const NOTEBOOK_DOCUMENT_SYNC_OPTIONS: &str = r#"
{"notebookSelector":[{"notebook":"notebook"}],"save":true} :: NotebookDocumentSyncOptions { notebook_selector: [ByNotebook { notebook: String("notebook"), cells: None }], save: Some(true) }
? notebookSelector
! {} :: notebookSelector: is missing
"#;

const NOTEBOOK_DOCUMENT_SYNC_REGISTRATION_OPTIONS: &str = r#"
{"id":"id","notebookSelector":[{"notebook":"notebook"}],"save":true} :: NotebookDocumentSyncRegistrationOptions { notebook_selector: [ByNotebook { notebook: String("notebook"), cells: None }], save: Some(true), id: Some("id") }
? notebookSelector
! {} :: notebookSelector: is missing
"#;

const NOTEBOOK_CELL_TEXT_DOCUMENT_FILTER: &str = r#"
{"language":"language","notebook":"notebook"} :: NotebookCellTextDocumentFilter { notebook: String("notebook"), language: Some("language") }
? notebook
! {} :: notebook: is missing
"#;

const NOTEBOOK_SELECTOR: &str = r#"
{"notebook":"notebook"} :: ByNotebook { notebook: String("notebook"), cells: None }
{"cells":[{"language":"language"}]} :: ByCells { notebook: None, cells: [NotebookCellSelector { language: "language" }] }
! false :: one of its forms is wanted
# What LSP 3.17 allows: a selector with both is read by its notebook, and `*` matches every language
{"cells":[{"language":"python"}],"notebook":{"notebookType":"jupyter-notebook","scheme":"file"}} :: ByNotebook { notebook: NotebookDocumentFilter(ByType { notebook_type: "jupyter-notebook", scheme: Some("file"), pattern: None }), cells: Some([NotebookCellSelector { language: "python" }]) }
{"cells":[{"language":"*"}]}
"#;

const NOTEBOOK_CELL_SELECTOR: &str = r#"
{"language":"language"} :: NotebookCellSelector { language: "language" }
? language
! {} :: language: is missing
"#;

const NOTEBOOK: &str = r#"
"notebook" :: String("notebook")
{"notebookType":"notebookType"} :: NotebookDocumentFilter(ByType { notebook_type: "notebookType", scheme: None, pattern: None })
! false :: one of its forms is wanted
"#;

const NOTEBOOK_DOCUMENT_FILTER: &str = r#"
{"notebookType":"notebookType"} :: ByType { notebook_type: "notebookType", scheme: None, pattern: None }
{"scheme":"scheme"} :: ByScheme { notebook_type: None, scheme: "scheme", pattern: None }
{"pattern":"pattern"} :: ByPattern { notebook_type: None, scheme: None, pattern: "pattern" }
! false :: one of its forms is wanted
{"notebookType":"x"} :: ByType { notebook_type: "x", scheme: None, pattern: None }
! {"notebook_type":"x"} :: one of its forms is wanted
"#;

const SERVER_INFO: &str = r#"
{"name":"name","version":"version"} :: ServerInfo { name: "name", version: Some("version") }
? name
! {} :: name: is missing
# clangd 14.0.6
{"name":"clangd","version":"Debian clangd version 14.0.6 linux+grpc x86_64-pc-linux-gnu"}
# pylsp 1.7.1
{"name":"pylsp","version":"1.7.1"}
"#;

const INITIALIZE_ERROR: &str = r#"
{"retry":true} :: InitializeError { retry: true }
? retry
! {} :: retry: is missing
"#;

#[test]
fn rows_1(rt: HostRuntime) -> Result<(), RowError> {
    let mut trial = Trial::new(rt.alloc());
    trial.holds::<Registration>(REGISTRATION);
    trial.holds::<RegistrationParams>(REGISTRATION_PARAMS);
    trial.holds::<Unregistration>(UNREGISTRATION);
    trial.holds::<UnregistrationParams>(UNREGISTRATION_PARAMS);
    trial.holds::<ExecuteCommandOptions>(EXECUTE_COMMAND_OPTIONS);
    trial.holds::<ExecuteCommandRegistrationOptions>(EXECUTE_COMMAND_REGISTRATION_OPTIONS);
    trial.holds::<DidChangeWatchedFilesRegistrationOptions>(
        DID_CHANGE_WATCHED_FILES_REGISTRATION_OPTIONS,
    );
    trial.holds::<FileSystemWatcher>(FILE_SYSTEM_WATCHER);
    trial.holds::<GlobPattern>(GLOB_PATTERN);
    trial.holds::<RelativePattern>(RELATIVE_PATTERN);
    trial.holds::<WatchKind>(WATCH_KIND);
    trial.holds::<WorkspaceFileOperationsServerCapabilities>(
        WORKSPACE_FILE_OPERATIONS_SERVER_CAPABILITIES,
    );
    trial.clones::<WorkspaceFileOperationsServerCapabilities>(
        WORKSPACE_FILE_OPERATIONS_SERVER_CAPABILITIES,
    );
    trial.end()
}

#[test]
fn rows_2(rt: HostRuntime) -> Result<(), RowError> {
    let mut trial = Trial::new(rt.alloc());
    trial.holds::<FileOperationRegistrationOptions>(FILE_OPERATION_REGISTRATION_OPTIONS);
    trial.holds::<FileOperationFilter>(FILE_OPERATION_FILTER);
    trial.holds::<FileOperationPatternKind>(FILE_OPERATION_PATTERN_KIND);
    trial.holds::<FileOperationPatternOptions>(FILE_OPERATION_PATTERN_OPTIONS);
    trial.holds::<FileOperationPattern>(FILE_OPERATION_PATTERN);
    trial.holds::<WorkspaceServerCapabilities>(WORKSPACE_SERVER_CAPABILITIES);
    trial.holds::<WorkspaceFoldersServerCapabilities>(WORKSPACE_FOLDERS_SERVER_CAPABILITIES);
    trial.holds::<NotebookDocumentSyncOptions>(NOTEBOOK_DOCUMENT_SYNC_OPTIONS);
    trial.holds::<NotebookDocumentSyncRegistrationOptions>(
        NOTEBOOK_DOCUMENT_SYNC_REGISTRATION_OPTIONS,
    );
    trial.holds::<NotebookCellTextDocumentFilter>(NOTEBOOK_CELL_TEXT_DOCUMENT_FILTER);
    trial.holds::<NotebookSelector>(NOTEBOOK_SELECTOR);
    trial.holds::<NotebookCellSelector>(NOTEBOOK_CELL_SELECTOR);
    trial.end()
}

#[test]
fn rows_3(rt: HostRuntime) -> Result<(), RowError> {
    let mut trial = Trial::new(rt.alloc());
    trial.holds::<Notebook>(NOTEBOOK);
    trial.holds::<NotebookDocumentFilter>(NOTEBOOK_DOCUMENT_FILTER);
    trial.holds::<ServerInfo>(SERVER_INFO);
    trial.holds::<InitializeError>(INITIALIZE_ERROR);
    trial.end()
}

#[test]
fn defaults(rt: HostRuntime) -> Result<(), RowError> {
    let alloc = rt.alloc();
    let mut trial = Trial::new(alloc);
    trial.is_written(ExecuteCommandOptions::default(alloc), r#"{"commands":[]}"#);
    trial.default::<WorkspaceFileOperationsServerCapabilities>(r#"{}"#);
    trial.is_written(
        FileOperationRegistrationOptions::default(alloc),
        r#"{"filters":[]}"#,
    );
    trial.is_written(
        FileOperationFilter::default(alloc),
        r#"{"pattern":{"glob":""},"scheme":null}"#,
    );
    trial.default::<FileOperationPatternOptions>(r#"{}"#);
    trial.is_written(FileOperationPattern::default(alloc), r#"{"glob":""}"#);
    trial.default::<WorkspaceServerCapabilities>(r#"{}"#);
    trial.default::<WorkspaceFoldersServerCapabilities>(r#"{}"#);
    trial.is_written(ServerInfo::default(alloc), r#"{"name":""}"#);
    trial.default::<InitializeError>(r#"{"retry":false}"#);
    trial.end()
}

fn pattern(alloc: Global, text: &str) -> Option<RelativePattern> {
    read_text(alloc, text).ok()
}

// A relative pattern is ordered by its base first.
#[test]
fn order_of_patterns(rt: HostRuntime) -> Result<(), RowError> {
    let alloc = rt.alloc();
    let mut trial = Trial::new(alloc);
    for (greater, what) in [
        (r#"{"baseUri":"file:///b","pattern":"a"}"#, "by base"),
        (r#"{"baseUri":"file:///a","pattern":"c"}"#, "by pattern"),
    ] {
        let first = pattern(alloc, r#"{"baseUri":"file:///a","pattern":"b"}"#);
        trial.is_true(what, is_below(first, pattern(alloc, greater)));
    }
    trial.end()
}

// Whether both are there, and the first is below the second.
fn is_below(a: Option<RelativePattern>, b: Option<RelativePattern>) -> bool {
    match (a, b) {
        (Some(a), Some(b)) => a < b,
        _ => false,
    }
}
