// What no clause says: that the rows are those of the protocol, on texts that Neovim, clangd and
// pylsp sent, where they send the type, and on others written after LSP 3.17, some of them its
// examples; and that reading and writing succeed.
use lsp_base::{
    AnnotatedTextEdit, CancelParams, ChangeAnnotation, CodeDescription, Command, CreateFile,
    CreateFileOptions, DeleteFile, DeleteFileOptions, Diagnostic, DiagnosticRelatedInformation,
    DocumentChangeOperation, DocumentChanges, DocumentFilter,
    DynamicRegistrationClientCapabilities, GotoCapability, Location, LocationLink, NumberOrString,
    OneOf, OptionalVersionedTextDocumentIdentifier, PartialResultParams, Position, Range,
    RenameFile, RenameFileOptions, ResourceOp, StaticRegistrationOptions, TagSupport,
    TextDocumentContentChangeEvent, TextDocumentEdit, TextDocumentIdentifier, TextDocumentItem,
    TextDocumentPositionParams, TextDocumentRegistrationOptions, TextEdit,
    VersionedTextDocumentIdentifier, WorkDoneProgressParams, WorkspaceEdit, WorkspaceFolder,
    error_codes,
};
use lsp_kinds::DiagnosticTag;
use lsp_rows::{RowError, Trial, text_of};
use lsp_rpc::Id;
use lsp_shape::{Misfit, NoMemory, Wire, reads_back};
use lsp_uri::Uri;
use serde_json::Value;
use std::alloc::Global;
use std::collections::HashMap;
use std::test::Fail;

const NUMBER_OR_STRING: &str = r#"
# pylsp 1.7.1
"e2e50f16-7f3f-476c-a468-dd9e1ea0c549"
7
"E0308"
! 2147483648 :: one of its forms is wanted
! null :: one of its forms is wanted
"#;

const CANCEL_PARAMS: &str = r#"
# Neovim 0.7.2
{"id":2}
{"id":3}
{"id":"a","reason":"late"} => {"id":"a"}
! {"id":null} :: id: one of its forms is wanted
! [3] :: an object is wanted
"#;

const POSITION: &str = r#"
# Neovim 0.7.2
{"line":0,"character":3} => {"character":3,"line":0}
{"line":3,"character":12} => {"character":12,"line":3}
{"line":4294967295,"character":0,"offset":1} => {"character":0,"line":4294967295}
! {"line":3} :: character: is missing
! {"line":-1,"character":0} :: line: an unsigned integer is wanted
! {"line":4294967296,"character":0} :: line: an unsigned integer is wanted
"#;

// The example of section "Range".
const RANGE: &str = r#"
# Neovim 0.7.2
{"end":{"line":0,"character":5},"start":{"line":0,"character":0}} => {"end":{"character":5,"line":0},"start":{"character":0,"line":0}}
{"start":{"line":5,"character":23},"end":{"line":6,"character":0}} => {"end":{"character":0,"line":6},"start":{"character":23,"line":5}}
! {"start":{"line":5,"character":23},"end":{"line":6}} :: end.character: is missing
"#;

const LOCATION: &str = r#"
# clangd 14
{"range":{"end":{"character":19,"line":0},"start":{"character":11,"line":0}},"uri":"file:///tmp/rec/c/a.c"}
{"uri":"file:///a.rs","range":{"start":{"line":0,"character":3},"end":{"line":0,"character":7}}} => {"range":{"end":{"character":7,"line":0},"start":{"character":3,"line":0}},"uri":"file:///a.rs"}
! {"uri":"file:///a b","range":{"start":{"line":0,"character":3},"end":{"line":0,"character":7}}} :: uri: a URI is wanted
"#;

const LOCATION_LINK: &str = r#"
{"originSelectionRange":null,"targetUri":"file:///a","targetRange":{"start":{"line":1,"character":0},"end":{"line":9,"character":1}},"targetSelectionRange":{"start":{"line":1,"character":3},"end":{"line":1,"character":7}}} => {"targetRange":{"end":{"character":1,"line":9},"start":{"character":0,"line":1}},"targetSelectionRange":{"end":{"character":7,"line":1},"start":{"character":3,"line":1}},"targetUri":"file:///a"}
{"originSelectionRange":{"start":{"line":2,"character":0},"end":{"line":2,"character":4}},"targetUri":"","targetRange":{"start":{"line":1,"character":0},"end":{"line":9,"character":1}},"targetSelectionRange":{"start":{"line":1,"character":3},"end":{"line":1,"character":7}}} => {"originSelectionRange":{"end":{"character":4,"line":2},"start":{"character":0,"line":2}},"targetRange":{"end":{"character":1,"line":9},"start":{"character":0,"line":1}},"targetSelectionRange":{"end":{"character":7,"line":1},"start":{"character":3,"line":1}},"targetUri":""}
! {"targetUri":"file:///a","targetRange":{"start":{"line":1,"character":0},"end":{"line":9,"character":1}}} :: targetSelectionRange: is missing
"#;

#[test]
fn ids_and_places(rt: HostRuntime) -> Result<(), RowError> {
    let alloc = rt.alloc();
    let text = String::from_str(alloc, "a")?;
    let same = Id::String(String::from_str(alloc, "a")?);
    let mut trial = Trial::new(alloc);
    trial.holds::<NumberOrString>(NUMBER_OR_STRING);
    trial.holds::<CancelParams>(CANCEL_PARAMS);
    trial.holds::<Position>(POSITION);
    trial.holds::<Range>(RANGE);
    trial.holds::<Location>(LOCATION);
    trial.holds::<LocationLink>(LOCATION_LINK);
    trial.same("a text", Id::from(NumberOrString::String(text)), same);
    trial.same(
        "a number",
        Id::from(NumberOrString::Number(-3)),
        Id::Number(-3),
    );
    trial.is_true("by lines", Position::new(1, 9) < Position::new(2, 0));
    trial.is_true("by characters", Position::new(2, 0) < Position::new(2, 1));
    trial.end()
}

const TEXT_DOCUMENT_IDENTIFIER: &str = r#"
# Neovim 0.7.2
{"uri":"file:///tmp/rec/w/a.txt"}
{"uri":"untitled:Untitled-1"}
! {"uri":1} :: uri: a URI is wanted
"#;

const TEXT_DOCUMENT_ITEM: &str = r#"
# Neovim 0.7.2
{"version":0,"text":"hello world\nsecond\n","uri":"file:///tmp/rec/w/a.txt","languageId":"text"} => {"languageId":"text","text":"hello world\nsecond\n","uri":"file:///tmp/rec/w/a.txt","version":0}
{"uri":"file:///w/main.rs","languageId":"rust","version":1,"text":"fn main() {}\n"} => {"languageId":"rust","text":"fn main() {}\n","uri":"file:///w/main.rs","version":1}
! {"uri":"file:///w/main.rs","language_id":"rust","version":1,"text":""} :: languageId: is missing
"#;

const VERSIONED: &str = r#"
# Neovim 0.7.2
{"uri":"file:///tmp/rec/w/a.txt","version":5}
{"uri":"file:///a","version":-4}
! {"uri":"file:///a","version":null} :: version: an integer is wanted
"#;

const OPTIONAL_VERSIONED: &str = r#"
# clangd 19
{"uri":"file:///tmp/rec/c/g.c","version":1}
{"uri":""} => {"uri":"","version":null}
{"uri":"file:///a","version":null}
{"uri":"file:///a","version":7}
! {"uri":"file:///a","version":"7"} :: version: an integer is wanted
"#;

const TEXT_DOCUMENT_POSITION: &str = r#"
# Neovim 0.7.2
{"textDocument":{"uri":"file:///tmp/rec/w/a.txt"},"position":{"line":0,"character":3}} => {"position":{"character":3,"line":0},"textDocument":{"uri":"file:///tmp/rec/w/a.txt"}}
{"textDocument":{"uri":"file:///a"},"position":{"line":3,"character":12}} => {"position":{"character":12,"line":3},"textDocument":{"uri":"file:///a"}}
! {"textDocument":"file:///a","position":{"line":3,"character":12}} :: textDocument: an object is wanted
"#;

// The examples of section "DocumentFilter".
const DOCUMENT_FILTER: &str = r#"
{"language":"typescript","scheme":"file"}
{"language":"json","pattern":"**/package.json"}
{"scheme":null} => {}
! {"pattern":["*"]} :: pattern: a text is wanted
"#;

const CONTENT_CHANGE: &str = r#"
# Neovim 0.7.2
{"rangeLength":5,"text":"HOWDY","range":{"end":{"line":0,"character":5},"start":{"line":0,"character":0}}} => {"range":{"end":{"character":5,"line":0},"start":{"character":0,"line":0}},"rangeLength":5,"text":"HOWDY"}
{"text":"all"}
{"range":{"start":{"line":0,"character":0},"end":{"line":0,"character":1}},"rangeLength":1,"text":""} => {"range":{"end":{"character":1,"line":0},"start":{"character":0,"line":0}},"rangeLength":1,"text":""}
! {"rangeLength":-1,"text":""} :: rangeLength: an unsigned integer is wanted
"#;

const WORKSPACE_FOLDER: &str = r#"
# Neovim 0.7.2
{"uri":"file:///tmp/rec/w","name":"/tmp/rec/w"} => {"name":"/tmp/rec/w","uri":"file:///tmp/rec/w"}
{"uri":"file:///home/me/project","name":"project"} => {"name":"project","uri":"file:///home/me/project"}
! {"uri":"file:///home/me/project"} :: name: is missing
"#;

#[test]
fn documents(rt: HostRuntime) -> Result<(), RowError> {
    let mut trial = Trial::new(rt.alloc());
    trial.holds::<TextDocumentIdentifier>(TEXT_DOCUMENT_IDENTIFIER);
    trial.holds::<TextDocumentItem>(TEXT_DOCUMENT_ITEM);
    trial.holds::<VersionedTextDocumentIdentifier>(VERSIONED);
    trial.holds::<OptionalVersionedTextDocumentIdentifier>(OPTIONAL_VERSIONED);
    trial.holds::<TextDocumentPositionParams>(TEXT_DOCUMENT_POSITION);
    trial.holds::<DocumentFilter>(DOCUMENT_FILTER);
    trial.holds::<TextDocumentContentChangeEvent>(CONTENT_CHANGE);
    trial.holds::<WorkspaceFolder>(WORKSPACE_FOLDER);
    trial.end()
}

// After those of clangd: one with each member, and one with few.
const DIAGNOSTIC: &str = r#"
# clangd 19
{"code":"redefinition_different_type","message":"Redefinition of 'a' with a different type: 'float' vs 'int'","range":{"end":{"character":7,"line":3},"start":{"character":6,"line":3}},"relatedInformation":[{"location":{"range":{"end":{"character":5,"line":2},"start":{"character":4,"line":2}},"uri":"file:///tmp/rec/c/g.c"},"message":"Previous definition is here"}],"severity":1,"source":"clang"}
# clangd 19
{"code":"unused-includes","codeDescription":{"href":"https://clangd.llvm.org/guides/include-cleaner"},"message":"Included header stdio.h is not used directly (fixes available)","range":{"end":{"character":18,"line":0},"start":{"character":0,"line":0}},"relatedInformation":[],"severity":2,"source":"clangd","tags":[1]}
# clangd 14
{"code":"expected_semi_declaration","message":"Expected ';' at end of declaration (fix available)","range":{"end":{"character":51,"line":1},"start":{"character":45,"line":1}},"relatedInformation":[],"severity":1,"source":"clang"}
{"range":{"start":{"line":2,"character":8},"end":{"line":2,"character":9}},"severity":2,"code":"unused_variables","codeDescription":{"href":"https://doc.rust-lang.org/rustc/lints/listing/warn-by-default.html#unused-variables"},"source":"rustc","message":"unused variable: `x`","relatedInformation":[{"location":{"uri":"file:///w/main.rs","range":{"start":{"line":2,"character":8},"end":{"line":2,"character":9}}},"message":"here"}],"tags":[1],"data":{"rendered":null}} => {"code":"unused_variables","codeDescription":{"href":"https://doc.rust-lang.org/rustc/lints/listing/warn-by-default.html#unused-variables"},"data":{"rendered":null},"message":"unused variable: `x`","range":{"end":{"character":9,"line":2},"start":{"character":8,"line":2}},"relatedInformation":[{"location":{"range":{"end":{"character":9,"line":2},"start":{"character":8,"line":2}},"uri":"file:///w/main.rs"},"message":"here"}],"severity":2,"source":"rustc","tags":[1]}
{"code":-7,"message":"expected ';'","range":{"start":{"line":0,"character":0},"end":{"line":0,"character":0}},"severity":99,"data":null} => {"code":-7,"message":"expected ';'","range":{"end":{"character":0,"line":0},"start":{"character":0,"line":0}},"severity":99}
! {"message":"no range"} :: range: is missing
! {"range":{"start":{"line":0,"character":0},"end":{"line":0,"character":0}},"message":"","severity":"Error"} :: severity: an integer is wanted
! {"range":{"start":{"line":0,"character":0},"end":{"line":0,"character":0}},"message":"","tags":1} :: tags: a list is wanted
"#;

const CODE_DESCRIPTION: &str = r#"
# clangd 19
{"href":"https://clangd.llvm.org/guides/include-cleaner"}
{"href":"https://eslint.org/docs/rules/eqeqeq"}
! {} :: href: is missing
"#;

const RELATED_INFORMATION: &str = r#"
# clangd 19
{"location":{"range":{"end":{"character":5,"line":2},"start":{"character":4,"line":2}},"uri":"file:///tmp/rec/c/g.c"},"message":"Previous definition is here"}
! {"message":"here"} :: location: is missing
"#;

const COMMAND: &str = r#"
# clangd 19
{"arguments":[{"file":"file:///tmp/rec/c/d.c","selection":{"end":{"character":15,"line":2},"start":{"character":10,"line":2}},"tweakID":"ExtractVariable"}],"command":"clangd.applyTweak","title":"Extract subexpression to variable"}
{"title":"Save","command":"save"} => {"command":"save","title":"Save"}
{"title":"Run","command":"run","arguments":[1,null,{"a":[]}]} => {"arguments":[1,null,{"a":[]}],"command":"run","title":"Run"}
! {"title":"Run","command":"run","arguments":{}} :: arguments: a list is wanted
! {"title":"Run"} :: command: is missing
"#;

const PARTIAL_RESULT: &str = r#"
{"partialResultToken":"5f6f349e-4f81-4a3b-afff-ee04bff96804"}
{"partial_result_token":1} => {}
! {"partialResultToken":true} :: partialResultToken: one of its forms is wanted
"#;

// The token of the example of section "Client Initiated Progress".
const WORK_DONE: &str = r#"
{"workDoneToken":"1d546990-40a3-4b77-b134-46622995f6ae"}
{"workDoneToken":null} => {}
! {"workDoneToken":[]} :: workDoneToken: one of its forms is wanted
"#;

#[test]
fn diagnostics_and_commands(rt: HostRuntime) -> Result<(), RowError> {
    let alloc = rt.alloc();
    let mut trial = Trial::new(alloc);
    trial.holds::<Diagnostic>(DIAGNOSTIC);
    trial.holds::<CodeDescription>(CODE_DESCRIPTION);
    trial.holds::<DiagnosticRelatedInformation>(RELATED_INFORMATION);
    trial.holds::<Command>(COMMAND);
    trial.holds::<PartialResultParams>(PARTIAL_RESULT);
    trial.holds::<WorkDoneProgressParams>(WORK_DONE);
    trial.is_written(
        Diagnostic::default(alloc),
        r#"{"message":"","range":{"end":{"character":0,"line":0},"start":{"character":0,"line":0}}}"#,
    );
    trial.end()
}

const TAG_SUPPORT: &str = r#"
# Neovim 0.7.2
{"valueSet":[1,2]}
? valueSet
{"valueSet":[]}
! true :: an object is wanted
"#;

const DYNAMIC_REGISTRATION: &str = r#"
# Neovim 0.7.2
{"dynamicRegistration":false}
{"dynamicRegistration":true}
{"dynamicRegistration":null} => {}
! {"dynamicRegistration":0} :: dynamicRegistration: true or false is wanted
"#;

const GOTO_CAPABILITY: &str = r#"
# Neovim 0.7.2
{"linkSupport":true}
{"dynamicRegistration":false,"linkSupport":true}
{}
! {"linkSupport":"yes"} :: linkSupport: true or false is wanted
"#;

const TEXT_DOCUMENT_REGISTRATION: &str = r#"
{"documentSelector":[{"language":"javascript"}]}
{"documentSelector":null}
{} => {"documentSelector":null}
! {"documentSelector":["javascript"]} :: documentSelector[0]: an object is wanted
"#;

// The id of the example of section "Register Capability".
const STATIC_REGISTRATION: &str = r#"
{"id":"79eee87c-c409-4664-8102-e03263673f6f"}
{"id":null} => {}
! {"id":79} :: id: a text is wanted
"#;

const ERROR_CODES: &[(&str, i64, i64)] = &[
    (
        "SERVER_NOT_INITIALIZED",
        error_codes::SERVER_NOT_INITIALIZED,
        -32002,
    ),
    (
        "UNKNOWN_ERROR_CODE",
        error_codes::UNKNOWN_ERROR_CODE,
        -32001,
    ),
    (
        "LSP_RESERVED_ERROR_RANGE_START",
        error_codes::LSP_RESERVED_ERROR_RANGE_START,
        -32899,
    ),
    ("REQUEST_FAILED", error_codes::REQUEST_FAILED, -32803),
    ("SERVER_CANCELLED", error_codes::SERVER_CANCELLED, -32802),
    ("CONTENT_MODIFIED", error_codes::CONTENT_MODIFIED, -32801),
    ("REQUEST_CANCELLED", error_codes::REQUEST_CANCELLED, -32800),
    (
        "LSP_RESERVED_ERROR_RANGE_END",
        error_codes::LSP_RESERVED_ERROR_RANGE_END,
        -32800,
    ),
];

#[test]
fn registrations(rt: HostRuntime) -> Result<(), RowError> {
    let mut trial = Trial::new(rt.alloc());
    trial.holds::<TagSupport<DiagnosticTag>>(TAG_SUPPORT);
    trial.holds::<DynamicRegistrationClientCapabilities>(DYNAMIC_REGISTRATION);
    trial.holds::<GotoCapability>(GOTO_CAPABILITY);
    trial.holds::<TextDocumentRegistrationOptions>(TEXT_DOCUMENT_REGISTRATION);
    trial.holds::<StaticRegistrationOptions>(STATIC_REGISTRATION);
    for (name, code, expected) in ERROR_CODES {
        trial.same(*name, *code, *expected);
    }
    trial.end()
}

const TEXT_EDIT: &str = r#"
# clangd 14
{"newText":"new_name","range":{"end":{"character":19,"line":0},"start":{"character":11,"line":0}}}
{"range":{"start":{"line":0,"character":0},"end":{"line":0,"character":0}},"newText":"use a;\n"} => {"newText":"use a;\n","range":{"end":{"character":0,"line":0},"start":{"character":0,"line":0}}}
! {"range":{"start":{"line":0,"character":0},"end":{"line":0,"character":0}},"new_text":""} :: newText: is missing
"#;

const ANNOTATED_TEXT_EDIT: &str = r#"
{"range":{"start":{"line":0,"character":0},"end":{"line":0,"character":0}},"newText":"","annotationId":"rename"} => {"annotationId":"rename","newText":"","range":{"end":{"character":0,"line":0},"start":{"character":0,"line":0}}}
! {"range":{"start":{"line":0,"character":0},"end":{"line":0,"character":0}},"newText":""} :: annotationId: is missing
"#;

// An annotated edit fits a plain one, which comes first.
const TEXT_DOCUMENT_EDIT: &str = r#"
# pylsp 1.7.1
{"textDocument":{"uri":"file:\/\/\/tmp\/rec\/c\/e.py","version":1},"edits":[{"range":{"start":{"line":0,"character":0},"end":{"line":3,"character":0}},"newText":"def new():\n    return 1\nx = new()\n"}]} => {"edits":[{"newText":"def new():\n    return 1\nx = new()\n","range":{"end":{"character":0,"line":3},"start":{"character":0,"line":0}}}],"textDocument":{"uri":"file:///tmp/rec/c/e.py","version":1}}
{"textDocument":{"uri":"file:///a","version":3},"edits":[{"range":{"start":{"line":0,"character":0},"end":{"line":0,"character":0}},"newText":"b","annotationId":"c"}]} => {"edits":[{"newText":"b","range":{"end":{"character":0,"line":0},"start":{"character":0,"line":0}}}],"textDocument":{"uri":"file:///a","version":3}}
! {"textDocument":{"uri":"file:///a"},"edits":[{"newText":"b"}]} :: edits[0]: one of its forms is wanted
"#;

const CHANGE_ANNOTATION: &str = r#"
{"label":"Rename to 'a'","needsConfirmation":true,"description":"in 2 files"} => {"description":"in 2 files","label":"Rename to 'a'","needsConfirmation":true}
{"label":"","description":null} => {"label":""}
! {"needsConfirmation":true} :: label: is missing
"#;

const TRUTH_OR_NOTHING: &str = r#"
true
null
! 1 :: one of its forms is wanted
"#;

#[test]
fn edits(rt: HostRuntime) -> Result<(), RowError> {
    let alloc = rt.alloc();
    let mut trial = Trial::new(alloc);
    trial.holds::<TextEdit>(TEXT_EDIT);
    trial.holds::<AnnotatedTextEdit>(ANNOTATED_TEXT_EDIT);
    trial.holds::<TextDocumentEdit>(TEXT_DOCUMENT_EDIT);
    trial.holds::<ChangeAnnotation>(CHANGE_ANNOTATION);
    trial.holds::<OneOf<bool, ()>>(TRUTH_OR_NOTHING);
    let truth = OneOf::<bool, ()>::from_value(alloc, &Value::Bool(true));
    trial.same("truth", truth, Ok(OneOf::Left(true)));
    let nothing = OneOf::<bool, ()>::from_value(alloc, &Value::Null);
    trial.same("nothing", nothing, Ok(OneOf::Right(())));
    trial.end()
}

const CREATE_FILE: &str = r#"
{"kind":"create","uri":"file:///a","options":{"overwrite":true},"annotationId":"b"} => {"annotationId":"b","options":{"overwrite":true},"uri":"file:///a"}
? uri
! {"uri":null} :: uri: a URI is wanted
"#;

const CREATE_FILE_OPTIONS: &str = r#"
{"overwrite":false,"ignoreIfExists":true} => {"ignoreIfExists":true,"overwrite":false}
! {"overwrite":"no"} :: overwrite: true or false is wanted
"#;

const RENAME_FILE: &str = r#"
{"oldUri":"file:///a","newUri":"file:///b","options":{"ignoreIfExists":true}} => {"newUri":"file:///b","oldUri":"file:///a","options":{"ignoreIfExists":true}}
! {"old_uri":"file:///a","new_uri":"file:///b"} :: oldUri: is missing
"#;

const RENAME_FILE_OPTIONS: &str = r#"
{"overwrite":null} => {}
! 1 :: an object is wanted
"#;

const DELETE_FILE: &str = r#"
{"uri":"file:///a","options":{"recursive":true,"ignoreIfNotExists":true,"annotationId":"c"}} => {"options":{"annotationId":"c","ignoreIfNotExists":true,"recursive":true},"uri":"file:///a"}
! {} :: uri: is missing
"#;

const DELETE_FILE_OPTIONS: &str = r#"
{"ignoreIfExists":true} => {}
! {"recursive":1} :: recursive: true or false is wanted
"#;

const RESOURCE_OP: &str = r#"
{"kind":"create","uri":"file:///a"}
{"kind":"rename","oldUri":"file:///a","newUri":"file:///b"} => {"kind":"rename","newUri":"file:///b","oldUri":"file:///a"}
{"kind":"delete","uri":"file:///a"}
! {"kind":"move","uri":"file:///a"} :: one of its forms is wanted
! {"uri":"file:///a"} :: one of its forms is wanted
"#;

const DOCUMENT_CHANGE_OPERATION: &str = r#"
{"kind":"delete","uri":"file:///a"}
{"textDocument":{"uri":"file:///a","version":null},"edits":[]} => {"edits":[],"textDocument":{"uri":"file:///a","version":null}}
! {"edits":[]} :: one of its forms is wanted
"#;

const DOCUMENT_CHANGES: &str = r#"
# clangd 19
[{"edits":[{"newText":"","range":{"end":{"character":0,"line":1},"start":{"character":0,"line":0}}},{"newText":"","range":{"end":{"character":0,"line":2},"start":{"character":0,"line":1}}}],"textDocument":{"uri":"file:///tmp/rec/c/g.c","version":1}}]
[]
[{"kind":"create","uri":"file:///a"},{"textDocument":{"uri":"file:///a"},"edits":[]}] => [{"kind":"create","uri":"file:///a"},{"edits":[],"textDocument":{"uri":"file:///a","version":null}}]
! {} :: one of its forms is wanted
"#;

const WORKSPACE_EDIT: &str = r#"
# clangd 19
{"documentChanges":[{"edits":[{"newText":"","range":{"end":{"character":0,"line":1},"start":{"character":0,"line":0}}},{"newText":"","range":{"end":{"character":0,"line":2},"start":{"character":0,"line":1}}}],"textDocument":{"uri":"file:///tmp/rec/c/g.c","version":1}}]}
# clangd 14
{"changes":{"file:///tmp/rec/c/a.c":[{"newText":"new_name","range":{"end":{"character":19,"line":0},"start":{"character":11,"line":0}}},{"newText":"new_name","range":{"end":{"character":41,"line":1},"start":{"character":33,"line":1}}}]}}
{}
{"changes":{"file://test":[]}}
{"documentChanges":[],"changeAnnotations":{"c":{"label":"d"},"a":{"label":"b"}}} => {"changeAnnotations":{"a":{"label":"b"},"c":{"label":"d"}},"documentChanges":[]}
! {"changes":{"not a URI":[]}} :: changes: other names of its members are wanted
! {"changes":[]} :: changes: an object is wanted
"#;

#[test]
fn changes_of_a_workspace(rt: HostRuntime) -> Result<(), RowError> {
    let mut trial = Trial::new(rt.alloc());
    trial.holds::<CreateFileOptions>(CREATE_FILE_OPTIONS);
    trial.holds::<CreateFile>(CREATE_FILE);
    trial.holds::<RenameFileOptions>(RENAME_FILE_OPTIONS);
    trial.holds::<RenameFile>(RENAME_FILE);
    trial.holds::<DeleteFileOptions>(DELETE_FILE_OPTIONS);
    trial.holds::<DeleteFile>(DELETE_FILE);
    trial.holds::<ResourceOp>(RESOURCE_OP);
    trial.holds::<DocumentChangeOperation>(DOCUMENT_CHANGE_OPERATION);
    trial.holds::<DocumentChanges>(DOCUMENT_CHANGES);
    trial.holds::<WorkspaceEdit>(WORKSPACE_EDIT);
    trial.end()
}

fn edited(alloc: Global) -> Result<WorkspaceEdit, Fail> {
    let uri = Uri::parse(alloc, "file://test")?;
    let mut changes: HashMap<Uri, Vec<TextEdit>> = HashMap::new(alloc);
    drop(changes.insert(uri, Vec::new(alloc))?);
    Ok(WorkspaceEdit::new(changes))
}

fn written_again(alloc: Global, edit: &WorkspaceEdit) -> Result<String, Misfit> {
    let again = reads_back(alloc, edit)?;
    let text = text_of(alloc, &again);
    drop(again);
    Ok(text?)
}

fn written_copy(alloc: Global, edit: &WorkspaceEdit) -> Result<String, NoMemory> {
    let copy = edit.clone()?;
    let text = text_of(alloc, &copy);
    drop(copy);
    text
}

#[test]
fn edit_of_one_document(rt: HostRuntime) -> Result<(), Fail> {
    let alloc = rt.alloc();
    let edit = edited(alloc)?;
    let text = r#"{"changes":{"file://test":[]}}"#;
    let mut trial = Trial::new(alloc);
    trial.text("the edit", text_of(alloc, &edit), text);
    trial.text("read back", written_again(alloc, &edit), text);
    trial.text("a copy", written_copy(alloc, &edit), text);
    drop(edit);
    Ok(trial.end()?)
}

fn folder(alloc: Global, uri: &str, name: &str) -> Result<WorkspaceFolder, Fail> {
    Ok(WorkspaceFolder {
        uri: Uri::parse(alloc, uri)?,
        name: String::from_str(alloc, name)?,
    })
}

// Workspace folders are ordered by their fields: the URI first.
#[test]
fn order_of_workspace_folders(rt: HostRuntime) -> Result<(), Fail> {
    let alloc = rt.alloc();
    let first = folder(alloc, "file:///a", "b")?;
    let other_uri = folder(alloc, "file:///b", "a")?;
    let other_name = folder(alloc, "file:///a", "c")?;
    let same = folder(alloc, "file:///a", "b")?;
    let mut trial = Trial::new(alloc);
    trial.is_true("by URI", first < other_uri);
    trial.is_true("by name", first < other_name);
    trial.same("both the same", first, same);
    Ok(trial.end()?)
}
