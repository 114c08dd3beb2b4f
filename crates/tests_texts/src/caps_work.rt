// The rows of lsp_caps_work.
use lsp_caps_work::{
    ChangeAnnotationWorkspaceEditClientCapabilities, ClientInfo,
    CodeLensWorkspaceClientCapabilities, DiagnosticWorkspaceClientCapabilities,
    DidChangeWatchedFilesClientCapabilities, FailureHandlingKind, GeneralClientCapabilities,
    InitializedParams, InlayHintWorkspaceClientCapabilities,
    InlineValueWorkspaceClientCapabilities, MarkdownClientCapabilities,
    MessageActionItemCapabilities, NotebookDocumentClientCapabilities,
    NotebookDocumentSyncClientCapabilities, RegularExpressionsClientCapabilities,
    ResourceOperationKind, SemanticTokensWorkspaceClientCapabilities,
    ShowDocumentClientCapabilities, ShowMessageRequestClientCapabilities,
    StaleRequestSupportClientCapabilities, WindowClientCapabilities, WorkspaceClientCapabilities,
    WorkspaceEditClientCapabilities, WorkspaceFileOperationsClientCapabilities,
    WorkspaceSymbolClientCapabilities, WorkspaceSymbolResolveSupportCapability,
};
use lsp_rows::{RowError, Trial};

const WORKSPACE_EDIT_CLIENT_CAPABILITIES: &str = r#"
{"changeAnnotationSupport":{"groupsOnLabel":true},"documentChanges":true,"failureHandling":"abort","normalizesLineEndings":false,"resourceOperations":["create"]} :: WorkspaceEditClientCapabilities { document_changes: Some(true), resource_operations: Some([Create]), failure_handling: Some(Abort), normalizes_line_endings: Some(false), change_annotation_support: Some(ChangeAnnotationWorkspaceEditClientCapabilities { groups_on_label: Some(true) }) }
?
! {"documentChanges":"no"} :: documentChanges: true or false is wanted
# Visual Studio Code 1.78, by its public form
{"changeAnnotationSupport":{"groupsOnLabel":true},"documentChanges":true,"failureHandling":"textOnlyTransactional","normalizesLineEndings":true,"resourceOperations":["create","rename","delete"]}
# Emacs 28.2 with lsp-mode 8.0.0
{"documentChanges":true,"resourceOperations":["create","rename","delete"]}
"#;

const CHANGE_ANNOTATION_WORKSPACE_EDIT_CLIENT_CAPABILITIES: &str = r#"
{"groupsOnLabel":true} :: ChangeAnnotationWorkspaceEditClientCapabilities { groups_on_label: Some(true) }
?
! {"groupsOnLabel":"no"} :: groupsOnLabel: true or false is wanted
# Visual Studio Code 1.78, by its public form
{"groupsOnLabel":true}
"#;

const RESOURCE_OPERATION_KIND: &str = r#"
"create" :: Create
"rename" :: Rename
"delete" :: Delete
! "no" :: one of its texts is wanted
"#;

const FAILURE_HANDLING_KIND: &str = r#"
"abort" :: Abort
"transactional" :: Transactional
"textOnlyTransactional" :: TextOnlyTransactional
"undo" :: Undo
! "no" :: one of its texts is wanted
"#;

const DID_CHANGE_WATCHED_FILES_CLIENT_CAPABILITIES: &str = r#"
{"dynamicRegistration":true,"relativePatternSupport":false} :: DidChangeWatchedFilesClientCapabilities { dynamic_registration: Some(true), relative_pattern_support: Some(false) }
?
! {"dynamicRegistration":"no"} :: dynamicRegistration: true or false is wanted
# Visual Studio Code 1.78, by its public form
{"dynamicRegistration":true,"relativePatternSupport":true}
# Emacs 28.2 with eglot 1.9
{"dynamicRegistration":true}
"#;

const WORKSPACE_FILE_OPERATIONS_CLIENT_CAPABILITIES: &str = r#"
{"didCreate":true,"didDelete":false,"didRename":false,"dynamicRegistration":true,"willCreate":true,"willRename":false} :: WorkspaceFileOperationsClientCapabilities { dynamic_registration: Some(true), did_create: Some(true), will_create: Some(true), did_rename: Some(false), will_rename: Some(false), did_delete: Some(false), will_delete: None }
?
{"didCreate":false,"didRename":true,"dynamicRegistration":true,"willDelete":true,"willRename":false} :: WorkspaceFileOperationsClientCapabilities { dynamic_registration: Some(true), did_create: Some(false), will_create: None, did_rename: Some(true), will_rename: Some(false), did_delete: None, will_delete: Some(true) }
! {"dynamicRegistration":"no"} :: dynamicRegistration: true or false is wanted
# Visual Studio Code 1.78, by its public form
{"didCreate":true,"didDelete":true,"didRename":true,"dynamicRegistration":true,"willCreate":true,"willDelete":true,"willRename":true}
# Emacs 28.2 with lsp-mode 8.0.0
{"didCreate":false,"didDelete":false,"didRename":false,"willCreate":false,"willDelete":false,"willRename":false}
"#;

const WORKSPACE_SYMBOL_CLIENT_CAPABILITIES: &str = r#"
{"dynamicRegistration":true,"resolveSupport":{"properties":["properties"]},"symbolKind":{"valueSet":[109]},"tagSupport":{"valueSet":[105]}} :: WorkspaceSymbolClientCapabilities { dynamic_registration: Some(true), symbol_kind: Some(SymbolKindCapability { value_set: Some([SymbolKind(109)]) }), tag_support: Some(TagSupport { value_set: [SymbolTag(105)] }), resolve_support: Some(WorkspaceSymbolResolveSupportCapability { properties: ["properties"] }) }
?
! {"dynamicRegistration":"no"} :: dynamicRegistration: true or false is wanted
# Visual Studio Code 1.78, by its public form
{"dynamicRegistration":true,"resolveSupport":{"properties":["location.range"]},"symbolKind":{"valueSet":[1,2,3,4,5,6,7,8,9,10,11,12,13,14,15,16,17,18,19,20,21,22,23,24,25,26]},"tagSupport":{"valueSet":[1]}}
# Neovim 0.7.2
{"dynamicRegistration":false,"hierarchicalWorkspaceSymbolSupport":true,"symbolKind":{"valueSet":[1,2,3,4,5,6,7,8,9,10,11,12,13,14,15,16,17,18,19,20,21,22,23,24,25,26]}} => {"dynamicRegistration":false,"symbolKind":{"valueSet":[1,2,3,4,5,6,7,8,9,10,11,12,13,14,15,16,17,18,19,20,21,22,23,24,25,26]}}
"#;

const WORKSPACE_SYMBOL_RESOLVE_SUPPORT_CAPABILITY: &str = r#"
{"properties":["properties"]} :: WorkspaceSymbolResolveSupportCapability { properties: ["properties"] }
? properties
! {} :: properties: is missing
# Visual Studio Code 1.78, by its public form
{"properties":["location.range"]}
"#;

const CODE_LENS_WORKSPACE_CLIENT_CAPABILITIES: &str = r#"
{"refreshSupport":true} :: CodeLensWorkspaceClientCapabilities { refresh_support: Some(true) }
?
! {"refreshSupport":"no"} :: refreshSupport: true or false is wanted
# Visual Studio Code 1.78, by its public form
{"refreshSupport":true}
"#;

const SEMANTIC_TOKENS_WORKSPACE_CLIENT_CAPABILITIES: &str = r#"
{"refreshSupport":true} :: SemanticTokensWorkspaceClientCapabilities { refresh_support: Some(true) }
? refreshSupport=null
! {"refreshSupport":"no"} :: refreshSupport: true or false is wanted
# Visual Studio Code 1.78, by its public form
{"refreshSupport":true}
"#;

const INLAY_HINT_WORKSPACE_CLIENT_CAPABILITIES: &str = r#"
{"refreshSupport":true} :: InlayHintWorkspaceClientCapabilities { refresh_support: Some(true) }
?
! {"refreshSupport":"no"} :: refreshSupport: true or false is wanted
# Visual Studio Code 1.78, by its public form
{"refreshSupport":true}
"#;

const INLINE_VALUE_WORKSPACE_CLIENT_CAPABILITIES: &str = r#"
{"refreshSupport":true} :: InlineValueWorkspaceClientCapabilities { refresh_support: Some(true) }
?
! {"refreshSupport":"no"} :: refreshSupport: true or false is wanted
# Visual Studio Code 1.78, by its public form
{"refreshSupport":true}
"#;

const DIAGNOSTIC_WORKSPACE_CLIENT_CAPABILITIES: &str = r#"
{"refreshSupport":true} :: DiagnosticWorkspaceClientCapabilities { refresh_support: Some(true) }
?
! {"refreshSupport":"no"} :: refreshSupport: true or false is wanted
"#;

const WORKSPACE_CLIENT_CAPABILITIES: &str = r#"
{"applyEdit":true,"codeLens":{"refreshSupport":true},"configuration":true,"diagnostic":{"refreshSupport":true},"didChangeConfiguration":{"dynamicRegistration":true},"didChangeWatchedFiles":{"dynamicRegistration":true},"executeCommand":{"dynamicRegistration":true},"fileOperations":{"dynamicRegistration":true},"inlayHint":{"refreshSupport":true},"inlineValue":{"refreshSupport":true},"semanticTokens":{"refreshSupport":true},"symbol":{"dynamicRegistration":true},"workspaceEdit":{"documentChanges":true},"workspaceFolders":true} :: WorkspaceClientCapabilities { apply_edit: Some(true), workspace_edit: Some(WorkspaceEditClientCapabilities { document_changes: Some(true), resource_operations: None, failure_handling: None, normalizes_line_endings: None, change_annotation_support: None }), did_change_configuration: Some(DynamicRegistrationClientCapabilities { dynamic_registration: Some(true) }), did_change_watched_files: Some(DidChangeWatchedFilesClientCapabilities { dynamic_registration: Some(true), relative_pattern_support: None }), symbol: Some(WorkspaceSymbolClientCapabilities { dynamic_registration: Some(true), symbol_kind: None, tag_support: None, resolve_support: None }), execute_command: Some(DynamicRegistrationClientCapabilities { dynamic_registration: Some(true) }), workspace_folders: Some(true), configuration: Some(true), semantic_tokens: Some(SemanticTokensWorkspaceClientCapabilities { refresh_support: Some(true) }), code_lens: Some(CodeLensWorkspaceClientCapabilities { refresh_support: Some(true) }), file_operations: Some(WorkspaceFileOperationsClientCapabilities { dynamic_registration: Some(true), did_create: None, will_create: None, did_rename: None, will_rename: None, did_delete: None, will_delete: None }), inline_value: Some(InlineValueWorkspaceClientCapabilities { refresh_support: Some(true) }), inlay_hint: Some(InlayHintWorkspaceClientCapabilities { refresh_support: Some(true) }), diagnostic: Some(DiagnosticWorkspaceClientCapabilities { refresh_support: Some(true) }) }
?
{"applyEdit":true,"codeLens":{"refreshSupport":true},"diagnostic":{"refreshSupport":true},"didChangeConfiguration":{"dynamicRegistration":true},"didChangeWatchedFiles":{"dynamicRegistration":true},"executeCommand":{"dynamicRegistration":true},"fileOperations":{"dynamicRegistration":true},"inlayHint":{"refreshSupport":true},"inlineValue":{"refreshSupport":true},"semanticTokens":{"refreshSupport":true},"symbol":{"dynamicRegistration":true},"workspaceEdit":{"documentChanges":true},"workspaceFolders":false} :: WorkspaceClientCapabilities { apply_edit: Some(true), workspace_edit: Some(WorkspaceEditClientCapabilities { document_changes: Some(true), resource_operations: None, failure_handling: None, normalizes_line_endings: None, change_annotation_support: None }), did_change_configuration: Some(DynamicRegistrationClientCapabilities { dynamic_registration: Some(true) }), did_change_watched_files: Some(DidChangeWatchedFilesClientCapabilities { dynamic_registration: Some(true), relative_pattern_support: None }), symbol: Some(WorkspaceSymbolClientCapabilities { dynamic_registration: Some(true), symbol_kind: None, tag_support: None, resolve_support: None }), execute_command: Some(DynamicRegistrationClientCapabilities { dynamic_registration: Some(true) }), workspace_folders: Some(false), configuration: None, semantic_tokens: Some(SemanticTokensWorkspaceClientCapabilities { refresh_support: Some(true) }), code_lens: Some(CodeLensWorkspaceClientCapabilities { refresh_support: Some(true) }), file_operations: Some(WorkspaceFileOperationsClientCapabilities { dynamic_registration: Some(true), did_create: None, will_create: None, did_rename: None, will_rename: None, did_delete: None, will_delete: None }), inline_value: Some(InlineValueWorkspaceClientCapabilities { refresh_support: Some(true) }), inlay_hint: Some(InlayHintWorkspaceClientCapabilities { refresh_support: Some(true) }), diagnostic: Some(DiagnosticWorkspaceClientCapabilities { refresh_support: Some(true) }) }
! {"applyEdit":"no"} :: applyEdit: true or false is wanted
# Emacs 28.2 with lsp-mode 8.0.0
{"applyEdit":true,"configuration":true,"didChangeWatchedFiles":{"dynamicRegistration":true},"executeCommand":{"dynamicRegistration":false},"fileOperations":{"didCreate":false,"didDelete":false,"didRename":false,"willCreate":false,"willDelete":false,"willRename":false},"symbol":{"symbolKind":{"valueSet":[1,2,3,4,5,6,7,8,9,10,11,12,13,14,15,16,17,18,19,20,21,22,23,24,25,26]}},"workspaceEdit":{"documentChanges":true,"resourceOperations":["create","rename","delete"]},"workspaceFolders":true}
# Neovim 0.7.2
{"applyEdit":true,"symbol":{"dynamicRegistration":false,"hierarchicalWorkspaceSymbolSupport":true,"symbolKind":{"valueSet":[1,2,3,4,5,6,7,8,9,10,11,12,13,14,15,16,17,18,19,20,21,22,23,24,25,26]}},"workspaceEdit":{"resourceOperations":["rename","create","delete"]},"workspaceFolders":true} => {"applyEdit":true,"symbol":{"dynamicRegistration":false,"symbolKind":{"valueSet":[1,2,3,4,5,6,7,8,9,10,11,12,13,14,15,16,17,18,19,20,21,22,23,24,25,26]}},"workspaceEdit":{"resourceOperations":["rename","create","delete"]},"workspaceFolders":true}
# Members of other types that read alike
{"applyEdit":true,"didChangeConfiguration":{"dynamicRegistration":true},"fileOperations":{"dynamicRegistration":true},"inlayHint":{"refreshSupport":true},"semanticTokens":{"refreshSupport":true},"symbol":{"dynamicRegistration":true},"workspaceFolders":true} :: WorkspaceClientCapabilities { apply_edit: Some(true), workspace_edit: None, did_change_configuration: Some(DynamicRegistrationClientCapabilities { dynamic_registration: Some(true) }), did_change_watched_files: None, symbol: Some(WorkspaceSymbolClientCapabilities { dynamic_registration: Some(true), symbol_kind: None, tag_support: None, resolve_support: None }), execute_command: None, workspace_folders: Some(true), configuration: None, semantic_tokens: Some(SemanticTokensWorkspaceClientCapabilities { refresh_support: Some(true) }), code_lens: None, file_operations: Some(WorkspaceFileOperationsClientCapabilities { dynamic_registration: Some(true), did_create: None, will_create: None, did_rename: None, will_rename: None, did_delete: None, will_delete: None }), inline_value: None, inlay_hint: Some(InlayHintWorkspaceClientCapabilities { refresh_support: Some(true) }), diagnostic: None }
{"codeLens":{"refreshSupport":true},"diagnostic":{"refreshSupport":true},"didChangeConfiguration":{"dynamicRegistration":true},"executeCommand":{"dynamicRegistration":true},"fileOperations":{"dynamicRegistration":true},"workspaceEdit":{"documentChanges":true},"workspaceFolders":true} :: WorkspaceClientCapabilities { apply_edit: None, workspace_edit: Some(WorkspaceEditClientCapabilities { document_changes: Some(true), resource_operations: None, failure_handling: None, normalizes_line_endings: None, change_annotation_support: None }), did_change_configuration: Some(DynamicRegistrationClientCapabilities { dynamic_registration: Some(true) }), did_change_watched_files: None, symbol: None, execute_command: Some(DynamicRegistrationClientCapabilities { dynamic_registration: Some(true) }), workspace_folders: Some(true), configuration: None, semantic_tokens: None, code_lens: Some(CodeLensWorkspaceClientCapabilities { refresh_support: Some(true) }), file_operations: Some(WorkspaceFileOperationsClientCapabilities { dynamic_registration: Some(true), did_create: None, will_create: None, did_rename: None, will_rename: None, did_delete: None, will_delete: None }), inline_value: None, inlay_hint: None, diagnostic: Some(DiagnosticWorkspaceClientCapabilities { refresh_support: Some(true) }) }
{"diagnostic":{"refreshSupport":true},"didChangeWatchedFiles":{"dynamicRegistration":true},"executeCommand":{"dynamicRegistration":true},"inlayHint":{"refreshSupport":true},"inlineValue":{"refreshSupport":true},"symbol":{"dynamicRegistration":true},"workspaceFolders":true} :: WorkspaceClientCapabilities { apply_edit: None, workspace_edit: None, did_change_configuration: None, did_change_watched_files: Some(DidChangeWatchedFilesClientCapabilities { dynamic_registration: Some(true), relative_pattern_support: None }), symbol: Some(WorkspaceSymbolClientCapabilities { dynamic_registration: Some(true), symbol_kind: None, tag_support: None, resolve_support: None }), execute_command: Some(DynamicRegistrationClientCapabilities { dynamic_registration: Some(true) }), workspace_folders: Some(true), configuration: None, semantic_tokens: None, code_lens: None, file_operations: None, inline_value: Some(InlineValueWorkspaceClientCapabilities { refresh_support: Some(true) }), inlay_hint: Some(InlayHintWorkspaceClientCapabilities { refresh_support: Some(true) }), diagnostic: Some(DiagnosticWorkspaceClientCapabilities { refresh_support: Some(true) }) }
{"codeLens":{"refreshSupport":true},"configuration":true,"diagnostic":{"refreshSupport":true},"fileOperations":{"dynamicRegistration":true},"inlayHint":{"refreshSupport":true},"inlineValue":{"refreshSupport":true},"semanticTokens":{"refreshSupport":true}} :: WorkspaceClientCapabilities { apply_edit: None, workspace_edit: None, did_change_configuration: None, did_change_watched_files: None, symbol: None, execute_command: None, workspace_folders: None, configuration: Some(true), semantic_tokens: Some(SemanticTokensWorkspaceClientCapabilities { refresh_support: Some(true) }), code_lens: Some(CodeLensWorkspaceClientCapabilities { refresh_support: Some(true) }), file_operations: Some(WorkspaceFileOperationsClientCapabilities { dynamic_registration: Some(true), did_create: None, will_create: None, did_rename: None, will_rename: None, did_delete: None, will_delete: None }), inline_value: Some(InlineValueWorkspaceClientCapabilities { refresh_support: Some(true) }), inlay_hint: Some(InlayHintWorkspaceClientCapabilities { refresh_support: Some(true) }), diagnostic: Some(DiagnosticWorkspaceClientCapabilities { refresh_support: Some(true) }) }
"#;

const WINDOW_CLIENT_CAPABILITIES: &str = r#"
{"showDocument":{"support":true},"showMessage":{"messageActionItem":{"additionalPropertiesSupport":true}},"workDoneProgress":true} :: WindowClientCapabilities { work_done_progress: Some(true), show_message: Some(ShowMessageRequestClientCapabilities { message_action_item: Some(MessageActionItemCapabilities { additional_properties_support: Some(true) }) }), show_document: Some(ShowDocumentClientCapabilities { support: true }) }
?
! {"workDoneProgress":"no"} :: workDoneProgress: true or false is wanted
# Neovim 0.7.2
{"showDocument":{"support":false},"showMessage":{"messageActionItem":{"additionalPropertiesSupport":false}},"workDoneProgress":true}
# Visual Studio Code 1.78, by its public form
{"showDocument":{"support":true},"showMessage":{"messageActionItem":{"additionalPropertiesSupport":true}},"workDoneProgress":true}
"#;

const SHOW_MESSAGE_REQUEST_CLIENT_CAPABILITIES: &str = r#"
{"messageActionItem":{"additionalPropertiesSupport":true}} :: ShowMessageRequestClientCapabilities { message_action_item: Some(MessageActionItemCapabilities { additional_properties_support: Some(true) }) }
?
! {"messageActionItem":"no"} :: messageActionItem: an object is wanted
# Neovim 0.7.2
{"messageActionItem":{"additionalPropertiesSupport":false}}
# Visual Studio Code 1.78, by its public form
{"messageActionItem":{"additionalPropertiesSupport":true}}
"#;

const MESSAGE_ACTION_ITEM_CAPABILITIES: &str = r#"
{"additionalPropertiesSupport":true} :: MessageActionItemCapabilities { additional_properties_support: Some(true) }
?
! {"additionalPropertiesSupport":"no"} :: additionalPropertiesSupport: true or false is wanted
# Neovim 0.7.2
{"additionalPropertiesSupport":false}
# Visual Studio Code 1.78, by its public form
{"additionalPropertiesSupport":true}
"#;

const SHOW_DOCUMENT_CLIENT_CAPABILITIES: &str = r#"
{"support":true} :: ShowDocumentClientCapabilities { support: true }
? support
! {} :: support: is missing
# Neovim 0.7.2
{"support":false}
# Visual Studio Code 1.78, by its public form
{"support":true}
"#;

const GENERAL_CLIENT_CAPABILITIES: &str = r#"
{"markdown":{"parser":"parser"},"positionEncodings":["positionEncodings"],"regularExpressions":{"engine":"engine"},"staleRequestSupport":{"cancel":true,"retryOnContentModified":["retryOnContentModified"]}} :: GeneralClientCapabilities { regular_expressions: Some(RegularExpressionsClientCapabilities { engine: "engine", version: None }), markdown: Some(MarkdownClientCapabilities { parser: "parser", version: None, allowed_tags: None }), stale_request_support: Some(StaleRequestSupportClientCapabilities { cancel: true, retry_on_content_modified: ["retryOnContentModified"] }), position_encodings: Some([PositionEncodingKind("positionEncodings")]) }
?
! {"regularExpressions":"no"} :: regularExpressions: an object is wanted
# Visual Studio Code 1.78, by its public form
{"markdown":{"parser":"marked","version":"1.1.0"},"positionEncodings":["utf-16"],"regularExpressions":{"engine":"ECMAScript","version":"ES2020"},"staleRequestSupport":{"cancel":true,"retryOnContentModified":["textDocument/semanticTokens/full","textDocument/semanticTokens/range","textDocument/semanticTokens/full/delta"]}}
"#;

const STALE_REQUEST_SUPPORT_CLIENT_CAPABILITIES: &str = r#"
{"cancel":true,"retryOnContentModified":["retryOnContentModified"]} :: StaleRequestSupportClientCapabilities { cancel: true, retry_on_content_modified: ["retryOnContentModified"] }
? cancel retryOnContentModified
! {"retryOnContentModified":["retryOnContentModified"]} :: cancel: is missing
# Visual Studio Code 1.78, by its public form
{"cancel":true,"retryOnContentModified":["textDocument/semanticTokens/full","textDocument/semanticTokens/range","textDocument/semanticTokens/full/delta"]}
"#;

const REGULAR_EXPRESSIONS_CLIENT_CAPABILITIES: &str = r#"
{"engine":"engine","version":"version"} :: RegularExpressionsClientCapabilities { engine: "engine", version: Some("version") }
? engine
! {} :: engine: is missing
# Visual Studio Code 1.78, by its public form
{"engine":"ECMAScript","version":"ES2020"}
"#;

const MARKDOWN_CLIENT_CAPABILITIES: &str = r#"
{"allowedTags":["allowedTags"],"parser":"parser","version":"version"} :: MarkdownClientCapabilities { parser: "parser", version: Some("version"), allowed_tags: Some(["allowedTags"]) }
? parser
! {} :: parser: is missing
# Visual Studio Code 1.78, by its public form
{"parser":"marked","version":"1.1.0"}
"#;

const NOTEBOOK_DOCUMENT_CLIENT_CAPABILITIES: &str = r#"
{"synchronization":{"dynamicRegistration":true}} :: NotebookDocumentClientCapabilities { synchronization: NotebookDocumentSyncClientCapabilities { dynamic_registration: Some(true), execution_summary_report: None } }
? synchronization
! {} :: synchronization: is missing
# Visual Studio Code 1.78, by its public form
{"synchronization":{"dynamicRegistration":true,"executionSummarySupport":true}} => {"synchronization":{"dynamicRegistration":true}}
"#;

const NOTEBOOK_DOCUMENT_SYNC_CLIENT_CAPABILITIES: &str = r#"
{"dynamicRegistration":true,"executionSummaryReport":false} :: NotebookDocumentSyncClientCapabilities { dynamic_registration: Some(true), execution_summary_report: Some(false) }
?
! {"dynamicRegistration":"no"} :: dynamicRegistration: true or false is wanted
# Visual Studio Code 1.78, by its public form
{"dynamicRegistration":true,"executionSummarySupport":true} => {"dynamicRegistration":true}
"#;

const CLIENT_INFO: &str = r#"
{"name":"name","version":"version"} :: ClientInfo { name: "name", version: Some("version") }
? name
! {} :: name: is missing
# Emacs 28.2 with lsp-mode 8.0.0
{"name":"emacs","version":"GNU Emacs 28.2 (build 2, x86_64-pc-linux-gnu)\n of 2025-02-27, modified by Debian"}
# Visual Studio Code 1.78, by its public form
{"name":"Visual Studio Code","version":"1.78.2"}
"#;

const INITIALIZED_PARAMS: &str = r#"
{} :: InitializedParams
! [] :: an object is wanted
"#;

#[test]
fn rows_1(rt: HostRuntime) -> Result<(), RowError> {
    let mut trial = Trial::new(rt.alloc());
    trial.holds::<WorkspaceEditClientCapabilities>(WORKSPACE_EDIT_CLIENT_CAPABILITIES);
    trial.holds::<ChangeAnnotationWorkspaceEditClientCapabilities>(
        CHANGE_ANNOTATION_WORKSPACE_EDIT_CLIENT_CAPABILITIES,
    );
    trial.holds::<ResourceOperationKind>(RESOURCE_OPERATION_KIND);
    trial.holds::<FailureHandlingKind>(FAILURE_HANDLING_KIND);
    trial.holds::<DidChangeWatchedFilesClientCapabilities>(
        DID_CHANGE_WATCHED_FILES_CLIENT_CAPABILITIES,
    );
    trial.holds::<WorkspaceFileOperationsClientCapabilities>(
        WORKSPACE_FILE_OPERATIONS_CLIENT_CAPABILITIES,
    );
    trial.holds::<WorkspaceSymbolClientCapabilities>(WORKSPACE_SYMBOL_CLIENT_CAPABILITIES);
    trial.holds::<WorkspaceSymbolResolveSupportCapability>(
        WORKSPACE_SYMBOL_RESOLVE_SUPPORT_CAPABILITY,
    );
    trial.holds::<CodeLensWorkspaceClientCapabilities>(CODE_LENS_WORKSPACE_CLIENT_CAPABILITIES);
    trial.holds::<SemanticTokensWorkspaceClientCapabilities>(
        SEMANTIC_TOKENS_WORKSPACE_CLIENT_CAPABILITIES,
    );
    trial.holds::<InlayHintWorkspaceClientCapabilities>(INLAY_HINT_WORKSPACE_CLIENT_CAPABILITIES);
    trial.holds::<InlineValueWorkspaceClientCapabilities>(
        INLINE_VALUE_WORKSPACE_CLIENT_CAPABILITIES,
    );
    trial.end()
}

#[test]
fn rows_2(rt: HostRuntime) -> Result<(), RowError> {
    let mut trial = Trial::new(rt.alloc());
    trial.holds::<DiagnosticWorkspaceClientCapabilities>(DIAGNOSTIC_WORKSPACE_CLIENT_CAPABILITIES);
    trial.holds::<WorkspaceClientCapabilities>(WORKSPACE_CLIENT_CAPABILITIES);
    trial.clones::<WorkspaceClientCapabilities>(WORKSPACE_CLIENT_CAPABILITIES);
    trial.holds::<WindowClientCapabilities>(WINDOW_CLIENT_CAPABILITIES);
    trial.holds::<ShowMessageRequestClientCapabilities>(SHOW_MESSAGE_REQUEST_CLIENT_CAPABILITIES);
    trial.holds::<MessageActionItemCapabilities>(MESSAGE_ACTION_ITEM_CAPABILITIES);
    trial.holds::<ShowDocumentClientCapabilities>(SHOW_DOCUMENT_CLIENT_CAPABILITIES);
    trial.holds::<GeneralClientCapabilities>(GENERAL_CLIENT_CAPABILITIES);
    trial.clones::<GeneralClientCapabilities>(GENERAL_CLIENT_CAPABILITIES);
    trial.holds::<StaleRequestSupportClientCapabilities>(STALE_REQUEST_SUPPORT_CLIENT_CAPABILITIES);
    trial.holds::<RegularExpressionsClientCapabilities>(REGULAR_EXPRESSIONS_CLIENT_CAPABILITIES);
    trial.holds::<MarkdownClientCapabilities>(MARKDOWN_CLIENT_CAPABILITIES);
    trial.holds::<NotebookDocumentClientCapabilities>(NOTEBOOK_DOCUMENT_CLIENT_CAPABILITIES);
    trial.holds::<NotebookDocumentSyncClientCapabilities>(
        NOTEBOOK_DOCUMENT_SYNC_CLIENT_CAPABILITIES,
    );
    trial.end()
}

#[test]
fn rows_3(rt: HostRuntime) -> Result<(), RowError> {
    let mut trial = Trial::new(rt.alloc());
    trial.holds::<ClientInfo>(CLIENT_INFO);
    trial.holds::<InitializedParams>(INITIALIZED_PARAMS);
    trial.end()
}

#[test]
fn defaults(rt: HostRuntime) -> Result<(), RowError> {
    let alloc = rt.alloc();
    let mut trial = Trial::new(alloc);
    trial.default::<WorkspaceEditClientCapabilities>(r#"{}"#);
    trial.default::<ChangeAnnotationWorkspaceEditClientCapabilities>(r#"{}"#);
    trial.default::<DidChangeWatchedFilesClientCapabilities>(r#"{}"#);
    trial.default::<WorkspaceFileOperationsClientCapabilities>(r#"{}"#);
    trial.default::<WorkspaceSymbolClientCapabilities>(r#"{}"#);
    trial.is_written(
        WorkspaceSymbolResolveSupportCapability::default(alloc),
        r#"{"properties":[]}"#,
    );
    trial.default::<InlayHintWorkspaceClientCapabilities>(r#"{}"#);
    trial.default::<InlineValueWorkspaceClientCapabilities>(r#"{}"#);
    trial.default::<DiagnosticWorkspaceClientCapabilities>(r#"{}"#);
    trial.default::<WorkspaceClientCapabilities>(r#"{}"#);
    trial.default::<WindowClientCapabilities>(r#"{}"#);
    trial.default::<ShowMessageRequestClientCapabilities>(r#"{}"#);
    trial.default::<MessageActionItemCapabilities>(r#"{}"#);
    trial.default::<ShowDocumentClientCapabilities>(r#"{"support":false}"#);
    trial.default::<GeneralClientCapabilities>(r#"{}"#);
    trial.is_written(
        StaleRequestSupportClientCapabilities::default(alloc),
        r#"{"cancel":false,"retryOnContentModified":[]}"#,
    );
    trial.is_written(
        RegularExpressionsClientCapabilities::default(alloc),
        r#"{"engine":""}"#,
    );
    trial.is_written(
        MarkdownClientCapabilities::default(alloc),
        r#"{"parser":""}"#,
    );
    trial.default::<NotebookDocumentClientCapabilities>(r#"{"synchronization":{}}"#);
    trial.default::<NotebookDocumentSyncClientCapabilities>(r#"{}"#);
    trial.end()
}
