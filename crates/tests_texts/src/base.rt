// The rows of lsp_base.
use lsp_base::{
    AnnotatedTextEdit, CancelParams, ChangeAnnotation, CodeDescription, Command, CreateFile,
    CreateFileOptions, DeleteFile, DeleteFileOptions, Diagnostic, DiagnosticRelatedInformation,
    DocumentChangeOperation, DocumentChanges, DocumentFilter,
    DynamicRegistrationClientCapabilities, GotoCapability, Location, LocationLink, NumberOrString,
    OptionalVersionedTextDocumentIdentifier, PartialResultParams, Position, Range, RenameFile,
    RenameFileOptions, ResourceOp, StaticRegistrationOptions, SymbolKindCapability,
    TextDocumentContentChangeEvent, TextDocumentEdit, TextDocumentIdentifier, TextDocumentItem,
    TextDocumentPositionParams, TextDocumentRegistrationOptions, TextEdit,
    VersionedTextDocumentIdentifier, WorkDoneProgressParams, WorkspaceEdit, WorkspaceFolder,
};
use lsp_rows::{RowError, Trial};

const NUMBER_OR_STRING: &str = r#"
44 :: Number(44)
"number_or_string" :: String("number_or_string")
! false :: one of its forms is wanted
"#;

const CANCEL_PARAMS: &str = r#"
{"id":17} :: CancelParams { id: Number(17) }
? id
! {} :: id: is missing
"#;

const POSITION: &str = r#"
{"character":29,"line":85} :: Position { line: 85, character: 29 }
? line character
! {"character":29} :: line: is missing
"#;

const RANGE: &str = r#"
{"end":{"character":29,"line":86},"start":{"character":29,"line":85}} :: Range { start: Position { line: 85, character: 29 }, end: Position { line: 86, character: 29 } }
? start end
! {"end":{"character":29,"line":85}} :: start: is missing
"#;

const LOCATION: &str = r#"
{"range":{"end":{"character":29,"line":85},"start":{"character":29,"line":85}},"uri":"file:///uri"} :: Location { uri: Uri { text: "file:///uri" }, range: Range { start: Position { line: 85, character: 29 }, end: Position { line: 85, character: 29 } } }
? uri range
! {"range":{"end":{"character":29,"line":85},"start":{"character":29,"line":85}}} :: uri: is missing
"#;

const LOCATION_LINK: &str = r#"
{"originSelectionRange":{"end":{"character":29,"line":85},"start":{"character":29,"line":85}},"targetRange":{"end":{"character":29,"line":85},"start":{"character":29,"line":85}},"targetSelectionRange":{"end":{"character":29,"line":85},"start":{"character":29,"line":86}},"targetUri":"file:///targetUri"} :: LocationLink { origin_selection_range: Some(Range { start: Position { line: 85, character: 29 }, end: Position { line: 85, character: 29 } }), target_uri: Uri { text: "file:///targetUri" }, target_range: Range { start: Position { line: 85, character: 29 }, end: Position { line: 85, character: 29 } }, target_selection_range: Range { start: Position { line: 86, character: 29 }, end: Position { line: 85, character: 29 } } }
? targetUri targetRange targetSelectionRange
! {"originSelectionRange":{"end":{"character":29,"line":85},"start":{"character":29,"line":85}},"targetRange":{"end":{"character":29,"line":85},"start":{"character":29,"line":85}},"targetSelectionRange":{"end":{"character":29,"line":85},"start":{"character":29,"line":85}}} :: targetUri: is missing
"#;

const COMMAND: &str = r#"
{"arguments":[42],"command":"command","title":"title"} :: Command { title: "title", command: "command", arguments: Some([Number(42)]) }
? title command
! {"command":"command"} :: title: is missing
"#;

const CODE_DESCRIPTION: &str = r#"
{"href":"file:///href"} :: CodeDescription { href: Uri { text: "file:///href" } }
? href
! {} :: href: is missing
"#;

const DIAGNOSTIC_RELATED_INFORMATION: &str = r#"
{"location":{"range":{"end":{"character":29,"line":85},"start":{"character":29,"line":85}},"uri":"file:///uri"},"message":"message"} :: DiagnosticRelatedInformation { location: Location { uri: Uri { text: "file:///uri" }, range: Range { start: Position { line: 85, character: 29 }, end: Position { line: 85, character: 29 } } }, message: "message" }
? location message
! {"message":"message"} :: location: is missing
"#;

const DIAGNOSTIC: &str = r#"
{"code":58,"codeDescription":{"href":"file:///href"},"data":63,"message":"message","range":{"end":{"character":29,"line":85},"start":{"character":29,"line":85}},"relatedInformation":[{"location":{"range":{"end":{"character":29,"line":85},"start":{"character":29,"line":85}},"uri":"file:///uri"},"message":"message"}],"severity":131,"source":"source","tags":[115]} :: Diagnostic { range: Range { start: Position { line: 85, character: 29 }, end: Position { line: 85, character: 29 } }, severity: Some(DiagnosticSeverity(131)), code: Some(Number(58)), code_description: Some(CodeDescription { href: Uri { text: "file:///href" } }), source: Some("source"), message: "message", related_information: Some([DiagnosticRelatedInformation { location: Location { uri: Uri { text: "file:///uri" }, range: Range { start: Position { line: 85, character: 29 }, end: Position { line: 85, character: 29 } } }, message: "message" }]), tags: Some([DiagnosticTag(115)]), payload: Some(Number(63)) }
? range message
! {"message":"message"} :: range: is missing
"#;

const TEXT_EDIT: &str = r#"
{"newText":"newText","range":{"end":{"character":29,"line":85},"start":{"character":29,"line":85}}} :: TextEdit { range: Range { start: Position { line: 85, character: 29 }, end: Position { line: 85, character: 29 } }, new_text: "newText" }
? range newText
! {"newText":"newText"} :: range: is missing
"#;

const ANNOTATED_TEXT_EDIT: &str = r#"
{"annotationId":"annotationId","newText":"newText","range":{"end":{"character":29,"line":85},"start":{"character":29,"line":85}}} :: AnnotatedTextEdit { text_edit: TextEdit { range: Range { start: Position { line: 85, character: 29 }, end: Position { line: 85, character: 29 } }, new_text: "newText" }, annotation_id: "annotationId" }
? range newText annotationId
! {"newText":"newText","range":{"end":{"character":29,"line":85},"start":{"character":29,"line":85}}} :: annotationId: is missing
"#;

const TEXT_DOCUMENT_EDIT: &str = r#"
{"edits":[{"newText":"newText","range":{"end":{"character":29,"line":85},"start":{"character":29,"line":85}}}],"textDocument":{"uri":"file:///uri","version":null}} :: TextDocumentEdit { text_document: OptionalVersionedTextDocumentIdentifier { uri: Uri { text: "file:///uri" }, version: None }, edits: [Left(TextEdit { range: Range { start: Position { line: 85, character: 29 }, end: Position { line: 85, character: 29 } }, new_text: "newText" })] }
? textDocument edits
! {"edits":[{"newText":"newText","range":{"end":{"character":29,"line":85},"start":{"character":29,"line":85}}}]} :: textDocument: is missing
"#;

const CHANGE_ANNOTATION: &str = r#"
{"description":"description","label":"label","needsConfirmation":true} :: ChangeAnnotation { label: "label", needs_confirmation: Some(true), description: Some("description") }
? label
! {} :: label: is missing
"#;

const CREATE_FILE_OPTIONS: &str = r#"
{"ignoreIfExists":false,"overwrite":true} :: CreateFileOptions { overwrite: Some(true), ignore_if_exists: Some(false) }
?
! {"overwrite":"no"} :: overwrite: true or false is wanted
"#;

const CREATE_FILE: &str = r#"
{"annotationId":"annotationId","options":{"overwrite":true},"uri":"file:///uri"} :: CreateFile { uri: Uri { text: "file:///uri" }, options: Some(CreateFileOptions { overwrite: Some(true), ignore_if_exists: None }), annotation_id: Some("annotationId") }
! {} :: uri: is missing
"#;

const RENAME_FILE_OPTIONS: &str = r#"
{"ignoreIfExists":false,"overwrite":true} :: RenameFileOptions { overwrite: Some(true), ignore_if_exists: Some(false) }
?
! {"overwrite":"no"} :: overwrite: true or false is wanted
"#;

const RENAME_FILE: &str = r#"
{"annotationId":"annotationId","newUri":"file:///newUri","oldUri":"file:///oldUri","options":{"overwrite":true}} :: RenameFile { old_uri: Uri { text: "file:///oldUri" }, new_uri: Uri { text: "file:///newUri" }, options: Some(RenameFileOptions { overwrite: Some(true), ignore_if_exists: None }), annotation_id: Some("annotationId") }
? oldUri newUri
! {"newUri":"file:///newUri"} :: oldUri: is missing
"#;

const DELETE_FILE_OPTIONS: &str = r#"
{"annotationId":"annotationId","ignoreIfNotExists":false,"recursive":true} :: DeleteFileOptions { recursive: Some(true), ignore_if_not_exists: Some(false), annotation_id: Some("annotationId") }
?
! {"recursive":"no"} :: recursive: true or false is wanted
"#;

const DELETE_FILE: &str = r#"
{"options":{"recursive":true},"uri":"file:///uri"} :: DeleteFile { uri: Uri { text: "file:///uri" }, options: Some(DeleteFileOptions { recursive: Some(true), ignore_if_not_exists: None, annotation_id: None }) }
? uri
! {} :: uri: is missing
"#;

const RESOURCE_OP: &str = r#"
{"kind":"create","uri":"file:///uri"} :: Create(CreateFile { uri: Uri { text: "file:///uri" }, options: None, annotation_id: None })
{"kind":"rename","newUri":"file:///newUri","oldUri":"file:///oldUri"} :: Rename(RenameFile { old_uri: Uri { text: "file:///oldUri" }, new_uri: Uri { text: "file:///newUri" }, options: None, annotation_id: None })
{"kind":"delete","uri":"file:///uri"} :: Delete(DeleteFile { uri: Uri { text: "file:///uri" }, options: None })
! {"kind":"no"} :: one of its forms is wanted
"#;

const WORKSPACE_EDIT: &str = r#"
{"changeAnnotations":{"changeAnnotations":{"label":"label"}},"changes":{"file:///changes":[{"newText":"newText","range":{"end":{"character":29,"line":85},"start":{"character":29,"line":85}}}]},"documentChanges":[{"edits":[{"newText":"newText","range":{"end":{"character":29,"line":85},"start":{"character":29,"line":85}}}],"textDocument":{"uri":"file:///uri","version":null}}]} :: WorkspaceEdit { changes: Some({Uri { text: "file:///changes" }: [TextEdit { range: Range { start: Position { line: 85, character: 29 }, end: Position { line: 85, character: 29 } }, new_text: "newText" }]}), document_changes: Some(Edits([TextDocumentEdit { text_document: OptionalVersionedTextDocumentIdentifier { uri: Uri { text: "file:///uri" }, version: None }, edits: [Left(TextEdit { range: Range { start: Position { line: 85, character: 29 }, end: Position { line: 85, character: 29 } }, new_text: "newText" })] }])), change_annotations: Some({"changeAnnotations": ChangeAnnotation { label: "label", needs_confirmation: None, description: None }}) }
?
! {"changes":"no"} :: changes: an object is wanted
"#;

const DOCUMENT_CHANGES: &str = r#"
[{"edits":[{"newText":"newText","range":{"end":{"character":29,"line":85},"start":{"character":29,"line":85}}}],"textDocument":{"uri":"file:///uri","version":null}}] :: Edits([TextDocumentEdit { text_document: OptionalVersionedTextDocumentIdentifier { uri: Uri { text: "file:///uri" }, version: None }, edits: [Left(TextEdit { range: Range { start: Position { line: 85, character: 29 }, end: Position { line: 85, character: 29 } }, new_text: "newText" })] }])
[{"kind":"create","uri":"file:///uri"}] :: Operations([Op(Create(CreateFile { uri: Uri { text: "file:///uri" }, options: None, annotation_id: None }))])
! false :: one of its forms is wanted
"#;

const DOCUMENT_CHANGE_OPERATION: &str = r#"
{"kind":"create","uri":"file:///uri"} :: Op(Create(CreateFile { uri: Uri { text: "file:///uri" }, options: None, annotation_id: None }))
{"edits":[{"newText":"newText","range":{"end":{"character":29,"line":85},"start":{"character":29,"line":85}}}],"textDocument":{"uri":"file:///uri","version":null}} :: Edit(TextDocumentEdit { text_document: OptionalVersionedTextDocumentIdentifier { uri: Uri { text: "file:///uri" }, version: None }, edits: [Left(TextEdit { range: Range { start: Position { line: 85, character: 29 }, end: Position { line: 85, character: 29 } }, new_text: "newText" })] })
! false :: one of its forms is wanted
"#;

const TEXT_DOCUMENT_IDENTIFIER: &str = r#"
{"uri":"file:///uri"} :: TextDocumentIdentifier { uri: Uri { text: "file:///uri" } }
? uri
! {} :: uri: is missing
"#;

const TEXT_DOCUMENT_ITEM: &str = r#"
{"languageId":"languageId","text":"text","uri":"file:///uri","version":79} :: TextDocumentItem { uri: Uri { text: "file:///uri" }, language_id: "languageId", version: 79, text: "text" }
? uri languageId version text
! {"languageId":"languageId","text":"text","version":79} :: uri: is missing
"#;

const VERSIONED_TEXT_DOCUMENT_IDENTIFIER: &str = r#"
{"uri":"file:///uri","version":79} :: VersionedTextDocumentIdentifier { uri: Uri { text: "file:///uri" }, version: 79 }
? uri version
! {"version":79} :: uri: is missing
"#;

const OPTIONAL_VERSIONED_TEXT_DOCUMENT_IDENTIFIER: &str = r#"
{"uri":"file:///uri","version":79} :: OptionalVersionedTextDocumentIdentifier { uri: Uri { text: "file:///uri" }, version: Some(79) }
? uri version=null
! {"version":null} :: uri: is missing
"#;

const TEXT_DOCUMENT_POSITION_PARAMS: &str = r#"
{"position":{"character":29,"line":85},"textDocument":{"uri":"file:///uri"}} :: TextDocumentPositionParams { text_document: TextDocumentIdentifier { uri: Uri { text: "file:///uri" } }, position: Position { line: 85, character: 29 } }
? textDocument position
! {"position":{"character":29,"line":85}} :: textDocument: is missing
"#;

const DOCUMENT_FILTER: &str = r#"
{"language":"language","pattern":"pattern","scheme":"scheme"} :: DocumentFilter { language: Some("language"), scheme: Some("scheme"), pattern: Some("pattern") }
?
! {"language":1} :: language: a text is wanted
"#;

const TEXT_DOCUMENT_CONTENT_CHANGE_EVENT: &str = r#"
{"range":{"end":{"character":29,"line":85},"start":{"character":29,"line":85}},"rangeLength":42,"text":"text"} :: TextDocumentContentChangeEvent { range: Some(Range { start: Position { line: 85, character: 29 }, end: Position { line: 85, character: 29 } }), range_length: Some(42), text: "text" }
? text
! {"range":{"end":{"character":29,"line":85},"start":{"character":29,"line":85}}} :: text: is missing
"#;

const PARTIAL_RESULT_PARAMS: &str = r#"
{"partialResultToken":89} :: PartialResultParams { partial_result_token: Some(Number(89)) }
?
! {"partialResultToken":true} :: partialResultToken: one of its forms is wanted
"#;

const WORK_DONE_PROGRESS_PARAMS: &str = r#"
{"workDoneToken":71} :: WorkDoneProgressParams { work_done_token: Some(Number(71)) }
?
! {"workDoneToken":true} :: workDoneToken: one of its forms is wanted
"#;

const WORKSPACE_FOLDER: &str = r#"
{"name":"name","uri":"file:///uri"} :: WorkspaceFolder { uri: Uri { text: "file:///uri" }, name: "name" }
? uri name
! {"name":"name"} :: uri: is missing
"#;

const DYNAMIC_REGISTRATION_CLIENT_CAPABILITIES: &str = r#"
{"dynamicRegistration":true} :: DynamicRegistrationClientCapabilities { dynamic_registration: Some(true) }
?
! {"dynamicRegistration":"no"} :: dynamicRegistration: true or false is wanted
"#;

const GOTO_CAPABILITY: &str = r#"
{"dynamicRegistration":true,"linkSupport":false} :: GotoCapability { dynamic_registration: Some(true), link_support: Some(false) }
?
! {"dynamicRegistration":"no"} :: dynamicRegistration: true or false is wanted
"#;

const TEXT_DOCUMENT_REGISTRATION_OPTIONS: &str = r#"
{"documentSelector":[{"language":"language"}]} :: TextDocumentRegistrationOptions { document_selector: Some([DocumentFilter { language: Some("language"), scheme: None, pattern: None }]) }
? documentSelector=null
! {"documentSelector":"no"} :: documentSelector: a list is wanted
"#;

const STATIC_REGISTRATION_OPTIONS: &str = r#"
{"id":"id"} :: StaticRegistrationOptions { id: Some("id") }
?
! {"id":1} :: id: a text is wanted
"#;

const SYMBOL_KIND_CAPABILITY: &str = r#"
{"valueSet":[109]} :: SymbolKindCapability { value_set: Some([SymbolKind(109)]) }
? valueSet=null
! {"valueSet":"no"} :: valueSet: a list is wanted
# Neovim 0.7.2
{"valueSet":[1,2,3,4,5,6,7,8,9,10,11,12,13,14,15,16,17,18,19,20,21,22,23,24,25,26]}
"#;

#[test]
fn rows_1(rt: HostRuntime) -> Result<(), RowError> {
    let mut trial = Trial::new(rt.alloc());
    trial.holds::<NumberOrString>(NUMBER_OR_STRING);
    trial.holds::<CancelParams>(CANCEL_PARAMS);
    trial.holds::<Position>(POSITION);
    trial.holds::<Range>(RANGE);
    trial.holds::<Location>(LOCATION);
    trial.holds::<LocationLink>(LOCATION_LINK);
    trial.holds::<Command>(COMMAND);
    trial.holds::<CodeDescription>(CODE_DESCRIPTION);
    trial.holds::<DiagnosticRelatedInformation>(DIAGNOSTIC_RELATED_INFORMATION);
    trial.holds::<Diagnostic>(DIAGNOSTIC);
    trial.clones::<Diagnostic>(DIAGNOSTIC);
    trial.holds::<TextEdit>(TEXT_EDIT);
    trial.holds::<AnnotatedTextEdit>(ANNOTATED_TEXT_EDIT);
    trial.end()
}

#[test]
fn rows_2(rt: HostRuntime) -> Result<(), RowError> {
    let mut trial = Trial::new(rt.alloc());
    trial.holds::<TextDocumentEdit>(TEXT_DOCUMENT_EDIT);
    trial.holds::<ChangeAnnotation>(CHANGE_ANNOTATION);
    trial.holds::<CreateFileOptions>(CREATE_FILE_OPTIONS);
    trial.holds::<CreateFile>(CREATE_FILE);
    trial.holds::<RenameFileOptions>(RENAME_FILE_OPTIONS);
    trial.holds::<RenameFile>(RENAME_FILE);
    trial.clones::<RenameFile>(RENAME_FILE);
    trial.holds::<DeleteFileOptions>(DELETE_FILE_OPTIONS);
    trial.holds::<DeleteFile>(DELETE_FILE);
    trial.holds::<ResourceOp>(RESOURCE_OP);
    trial.holds::<WorkspaceEdit>(WORKSPACE_EDIT);
    trial.holds::<DocumentChanges>(DOCUMENT_CHANGES);
    trial.holds::<DocumentChangeOperation>(DOCUMENT_CHANGE_OPERATION);
    trial.end()
}

#[test]
fn rows_3(rt: HostRuntime) -> Result<(), RowError> {
    let mut trial = Trial::new(rt.alloc());
    trial.holds::<TextDocumentIdentifier>(TEXT_DOCUMENT_IDENTIFIER);
    trial.holds::<TextDocumentItem>(TEXT_DOCUMENT_ITEM);
    trial.holds::<VersionedTextDocumentIdentifier>(VERSIONED_TEXT_DOCUMENT_IDENTIFIER);
    trial.holds::<OptionalVersionedTextDocumentIdentifier>(
        OPTIONAL_VERSIONED_TEXT_DOCUMENT_IDENTIFIER,
    );
    trial.holds::<TextDocumentPositionParams>(TEXT_DOCUMENT_POSITION_PARAMS);
    trial.holds::<DocumentFilter>(DOCUMENT_FILTER);
    trial.holds::<TextDocumentContentChangeEvent>(TEXT_DOCUMENT_CONTENT_CHANGE_EVENT);
    trial.holds::<PartialResultParams>(PARTIAL_RESULT_PARAMS);
    trial.holds::<WorkDoneProgressParams>(WORK_DONE_PROGRESS_PARAMS);
    trial.holds::<WorkspaceFolder>(WORKSPACE_FOLDER);
    trial.holds::<DynamicRegistrationClientCapabilities>(DYNAMIC_REGISTRATION_CLIENT_CAPABILITIES);
    trial.holds::<GotoCapability>(GOTO_CAPABILITY);
    trial.end()
}

#[test]
fn rows_4(rt: HostRuntime) -> Result<(), RowError> {
    let mut trial = Trial::new(rt.alloc());
    trial.holds::<TextDocumentRegistrationOptions>(TEXT_DOCUMENT_REGISTRATION_OPTIONS);
    trial.holds::<StaticRegistrationOptions>(STATIC_REGISTRATION_OPTIONS);
    trial.holds::<SymbolKindCapability>(SYMBOL_KIND_CAPABILITY);
    trial.end()
}

#[test]
fn defaults(rt: HostRuntime) -> Result<(), RowError> {
    let alloc = rt.alloc();
    let mut trial = Trial::new(alloc);
    trial.default::<Position>(r#"{"character":0,"line":0}"#);
    trial.default::<Range>(r#"{"end":{"character":0,"line":0},"start":{"character":0,"line":0}}"#);
    trial.is_written(Command::default(alloc), r#"{"command":"","title":""}"#);
    trial.is_written(
        Diagnostic::default(alloc),
        r#"{"message":"","range":{"end":{"character":0,"line":0},"start":{"character":0,"line":0}}}"#,
    );
    trial.is_written(
        TextEdit::default(alloc),
        r#"{"newText":"","range":{"end":{"character":0,"line":0},"start":{"character":0,"line":0}}}"#,
    );
    trial.default::<WorkspaceEdit>(r#"{}"#);
    trial.default::<PartialResultParams>(r#"{}"#);
    trial.default::<WorkDoneProgressParams>(r#"{}"#);
    trial.default::<DynamicRegistrationClientCapabilities>(r#"{}"#);
    trial.default::<GotoCapability>(r#"{}"#);
    trial.default::<TextDocumentRegistrationOptions>(r#"{"documentSelector":null}"#);
    trial.default::<StaticRegistrationOptions>(r#"{}"#);
    trial.default::<SymbolKindCapability>(r#"{"valueSet":null}"#);
    trial.end()
}
