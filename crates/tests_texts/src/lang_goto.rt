// The rows of lsp_lang_goto.
use lsp_lang_goto::{
    CallHierarchyIncomingCall, CallHierarchyIncomingCallsParams, CallHierarchyItem,
    CallHierarchyOutgoingCall, CallHierarchyOutgoingCallsParams, CallHierarchyPrepareParams,
    CodeLens, CodeLensParams, DocumentColorParams, DocumentHighlight, DocumentHighlightParams,
    DocumentLink, DocumentLinkParams, DocumentSymbol, DocumentSymbolParams, DocumentSymbolResponse,
    GenericParams, GotoDefinitionParams, GotoDefinitionResponse, Hover, HoverContents, HoverParams,
    ReferenceContext, ReferenceParams, SymbolInformation, TypeHierarchyItem,
    TypeHierarchyPrepareParams, TypeHierarchySubtypesParams, TypeHierarchySupertypesParams,
    WorkspaceLocation, WorkspaceSymbol, WorkspaceSymbolParams, WorkspaceSymbolResponse,
};
use lsp_rows::{RowError, Trial};

const GOTO_DEFINITION_PARAMS: &str = r#"
{"partialResultToken":89,"position":{"character":29,"line":85},"textDocument":{"uri":"file:///uri"},"workDoneToken":71} :: GotoDefinitionParams { text_document_position_params: TextDocumentPositionParams { text_document: TextDocumentIdentifier { uri: Uri { text: "file:///uri" } }, position: Position { line: 85, character: 29 } }, work_done_progress_params: WorkDoneProgressParams { work_done_token: Some(Number(71)) }, partial_result_params: PartialResultParams { partial_result_token: Some(Number(89)) } }
? textDocument position
! [] :: an object is wanted
"#;

const GOTO_DEFINITION_RESPONSE: &str = r#"
{"range":{"end":{"character":29,"line":85},"start":{"character":29,"line":85}},"uri":"file:///uri"} :: Scalar(Location { uri: Uri { text: "file:///uri" }, range: Range { start: Position { line: 85, character: 29 }, end: Position { line: 85, character: 29 } } })
[{"range":{"end":{"character":29,"line":85},"start":{"character":29,"line":85}},"uri":"file:///uri"}] :: Array([Location { uri: Uri { text: "file:///uri" }, range: Range { start: Position { line: 85, character: 29 }, end: Position { line: 85, character: 29 } } }])
[{"originSelectionRange":{"end":{"character":29,"line":85},"start":{"character":29,"line":85}},"targetRange":{"end":{"character":29,"line":85},"start":{"character":29,"line":85}},"targetSelectionRange":{"end":{"character":29,"line":85},"start":{"character":29,"line":85}},"targetUri":"file:///targetUri"}] :: Link([LocationLink { origin_selection_range: Some(Range { start: Position { line: 85, character: 29 }, end: Position { line: 85, character: 29 } }), target_uri: Uri { text: "file:///targetUri" }, target_range: Range { start: Position { line: 85, character: 29 }, end: Position { line: 85, character: 29 } }, target_selection_range: Range { start: Position { line: 85, character: 29 }, end: Position { line: 85, character: 29 } } }])
! false :: one of its forms is wanted
[] :: Array([])
# clangd 14.0.6
[{"range":{"end":{"character":12,"line":6},"start":{"character":7,"line":6}},"uri":"file:///tmp/td_rec/src/main.cpp"}]
# clangd 14.0.6
[{"range":{"end":{"character":12,"line":16},"start":{"character":7,"line":16}},"uri":"file:///tmp/td_rec/src/shape.h"}]
# clangd 14.0.6
[{"range":{"end":{"character":13,"line":12},"start":{"character":9,"line":12}},"uri":"file:///tmp/td_rec/src/shape.h"}]
# clangd 14.0.6
[{"range":{"end":{"character":12,"line":9},"start":{"character":6,"line":9}},"uri":"file:///tmp/td_rec/src/shape.h"}]
# pylsp 1.7.1
[{"range":{"end":{"character":9,"line":20},"start":{"character":4,"line":20}},"uri":"file:///tmp/td_rec/src/shapes.py"}]
# rust-analyzer
[{"originSelectionRange":{"end":{"character":7,"line":2},"start":{"character":4,"line":2}},"targetRange":{"end":{"character":1,"line":12},"start":{"character":0,"line":9}},"targetSelectionRange":{"end":{"character":10,"line":9},"start":{"character":7,"line":9}},"targetUri":"file:///w/src/lib.rs"}]
"#;

const REFERENCE_PARAMS: &str = r#"
{"context":{"includeDeclaration":true},"partialResultToken":89,"position":{"character":29,"line":85},"textDocument":{"uri":"file:///uri"},"workDoneToken":71} :: ReferenceParams { text_document_position: TextDocumentPositionParams { text_document: TextDocumentIdentifier { uri: Uri { text: "file:///uri" } }, position: Position { line: 85, character: 29 } }, work_done_progress_params: WorkDoneProgressParams { work_done_token: Some(Number(71)) }, partial_result_params: PartialResultParams { partial_result_token: Some(Number(89)) }, context: ReferenceContext { include_declaration: true } }
? textDocument position context
! {"partialResultToken":89,"position":{"character":29,"line":85},"textDocument":{"uri":"file:///uri"},"workDoneToken":71} :: context: is missing
"#;

const REFERENCE_CONTEXT: &str = r#"
{"includeDeclaration":true} :: ReferenceContext { include_declaration: true }
? includeDeclaration
! {} :: includeDeclaration: is missing
"#;

const DOCUMENT_HIGHLIGHT_PARAMS: &str = r#"
{"partialResultToken":89,"position":{"character":29,"line":85},"textDocument":{"uri":"file:///uri"},"workDoneToken":71} :: DocumentHighlightParams { text_document_position_params: TextDocumentPositionParams { text_document: TextDocumentIdentifier { uri: Uri { text: "file:///uri" } }, position: Position { line: 85, character: 29 } }, work_done_progress_params: WorkDoneProgressParams { work_done_token: Some(Number(71)) }, partial_result_params: PartialResultParams { partial_result_token: Some(Number(89)) } }
? textDocument position
! [] :: an object is wanted
"#;

const DOCUMENT_HIGHLIGHT: &str = r#"
{"kind":130,"range":{"end":{"character":29,"line":85},"start":{"character":29,"line":85}}} :: DocumentHighlight { range: Range { start: Position { line: 85, character: 29 }, end: Position { line: 85, character: 29 } }, kind: Some(DocumentHighlightKind(130)) }
? range
! {} :: range: is missing
# clangd 14.0.6
{"kind":1,"range":{"end":{"character":12,"line":6},"start":{"character":7,"line":6}}}
# pylsp 1.7.1
{"kind":2,"range":{"end":{"character":11,"line":29},"start":{"character":6,"line":29}}}
"#;

const CALL_HIERARCHY_PREPARE_PARAMS: &str = r#"
{"position":{"character":29,"line":85},"textDocument":{"uri":"file:///uri"},"workDoneToken":71} :: CallHierarchyPrepareParams { text_document_position_params: TextDocumentPositionParams { text_document: TextDocumentIdentifier { uri: Uri { text: "file:///uri" } }, position: Position { line: 85, character: 29 } }, work_done_progress_params: WorkDoneProgressParams { work_done_token: Some(Number(71)) } }
? textDocument position
! [] :: an object is wanted
"#;

const CALL_HIERARCHY_ITEM: &str = r#"
{"data":63,"detail":"detail","kind":130,"name":"name","range":{"end":{"character":29,"line":85},"start":{"character":29,"line":85}},"selectionRange":{"end":{"character":29,"line":85},"start":{"character":29,"line":86}},"tags":[115],"uri":"file:///uri"} :: CallHierarchyItem { name: "name", kind: SymbolKind(130), tags: Some([SymbolTag(115)]), detail: Some("detail"), uri: Uri { text: "file:///uri" }, range: Range { start: Position { line: 85, character: 29 }, end: Position { line: 85, character: 29 } }, selection_range: Range { start: Position { line: 86, character: 29 }, end: Position { line: 85, character: 29 } }, payload: Some(Number(63)) }
? name kind uri range selectionRange
! {"kind":130,"range":{"end":{"character":29,"line":85},"start":{"character":29,"line":85}},"selectionRange":{"end":{"character":29,"line":85},"start":{"character":29,"line":85}},"uri":"file:///uri"} :: name: is missing
# clangd 14.0.6
{"data":"C09C5776AD06DFF1","kind":12,"name":"total","range":{"end":{"character":1,"line":8},"start":{"character":0,"line":6}},"selectionRange":{"end":{"character":12,"line":6},"start":{"character":7,"line":6}},"uri":"file:///tmp/td_rec/src/main.cpp"}
"#;

const CALL_HIERARCHY_INCOMING_CALLS_PARAMS: &str = r#"
{"item":{"kind":130,"name":"name","range":{"end":{"character":29,"line":85},"start":{"character":29,"line":85}},"selectionRange":{"end":{"character":29,"line":85},"start":{"character":29,"line":85}},"uri":"file:///uri"},"partialResultToken":89,"workDoneToken":71} :: CallHierarchyIncomingCallsParams { item: CallHierarchyItem { name: "name", kind: SymbolKind(130), tags: None, detail: None, uri: Uri { text: "file:///uri" }, range: Range { start: Position { line: 85, character: 29 }, end: Position { line: 85, character: 29 } }, selection_range: Range { start: Position { line: 85, character: 29 }, end: Position { line: 85, character: 29 } }, payload: None }, work_done_progress_params: WorkDoneProgressParams { work_done_token: Some(Number(71)) }, partial_result_params: PartialResultParams { partial_result_token: Some(Number(89)) } }
? item
! {"partialResultToken":89,"workDoneToken":71} :: item: is missing
"#;

const CALL_HIERARCHY_INCOMING_CALL: &str = r#"
{"from":{"kind":130,"name":"name","range":{"end":{"character":29,"line":85},"start":{"character":29,"line":85}},"selectionRange":{"end":{"character":29,"line":85},"start":{"character":29,"line":85}},"uri":"file:///uri"},"fromRanges":[{"end":{"character":29,"line":85},"start":{"character":29,"line":85}}]} :: CallHierarchyIncomingCall { from: CallHierarchyItem { name: "name", kind: SymbolKind(130), tags: None, detail: None, uri: Uri { text: "file:///uri" }, range: Range { start: Position { line: 85, character: 29 }, end: Position { line: 85, character: 29 } }, selection_range: Range { start: Position { line: 85, character: 29 }, end: Position { line: 85, character: 29 } }, payload: None }, from_ranges: [Range { start: Position { line: 85, character: 29 }, end: Position { line: 85, character: 29 } }] }
? from fromRanges
! {"fromRanges":[{"end":{"character":29,"line":85},"start":{"character":29,"line":85}}]} :: from: is missing
# clangd 14.0.6
{"from":{"data":"3017D418E3EE7259","kind":12,"name":"main","range":{"end":{"character":8,"line":9},"start":{"character":4,"line":9}},"selectionRange":{"end":{"character":8,"line":9},"start":{"character":4,"line":9}},"uri":"file:///tmp/td_rec/src/main.cpp"},"fromRanges":[{"end":{"character":18,"line":12},"start":{"character":13,"line":12}}]}
"#;

const CALL_HIERARCHY_OUTGOING_CALLS_PARAMS: &str = r#"
{"item":{"kind":130,"name":"name","range":{"end":{"character":29,"line":85},"start":{"character":29,"line":85}},"selectionRange":{"end":{"character":29,"line":85},"start":{"character":29,"line":85}},"uri":"file:///uri"},"partialResultToken":89,"workDoneToken":71} :: CallHierarchyOutgoingCallsParams { item: CallHierarchyItem { name: "name", kind: SymbolKind(130), tags: None, detail: None, uri: Uri { text: "file:///uri" }, range: Range { start: Position { line: 85, character: 29 }, end: Position { line: 85, character: 29 } }, selection_range: Range { start: Position { line: 85, character: 29 }, end: Position { line: 85, character: 29 } }, payload: None }, work_done_progress_params: WorkDoneProgressParams { work_done_token: Some(Number(71)) }, partial_result_params: PartialResultParams { partial_result_token: Some(Number(89)) } }
? item
! {"partialResultToken":89,"workDoneToken":71} :: item: is missing
"#;

const CALL_HIERARCHY_OUTGOING_CALL: &str = r#"
{"fromRanges":[{"end":{"character":29,"line":85},"start":{"character":29,"line":85}}],"to":{"kind":130,"name":"name","range":{"end":{"character":29,"line":85},"start":{"character":29,"line":85}},"selectionRange":{"end":{"character":29,"line":85},"start":{"character":29,"line":85}},"uri":"file:///uri"}} :: CallHierarchyOutgoingCall { to: CallHierarchyItem { name: "name", kind: SymbolKind(130), tags: None, detail: None, uri: Uri { text: "file:///uri" }, range: Range { start: Position { line: 85, character: 29 }, end: Position { line: 85, character: 29 } }, selection_range: Range { start: Position { line: 85, character: 29 }, end: Position { line: 85, character: 29 } }, payload: None }, from_ranges: [Range { start: Position { line: 85, character: 29 }, end: Position { line: 85, character: 29 } }] }
? to fromRanges
! {"fromRanges":[{"end":{"character":29,"line":85},"start":{"character":29,"line":85}}]} :: to: is missing
# rust-analyzer
{"fromRanges":[{"end":{"character":10,"line":2},"start":{"character":4,"line":2}}],"to":{"kind":12,"name":"callee","range":{"end":{"character":1,"line":12},"start":{"character":0,"line":9}},"selectionRange":{"end":{"character":13,"line":9},"start":{"character":7,"line":9}},"uri":"file:///w/src/lib.rs"}}
"#;

const TYPE_HIERARCHY_PREPARE_PARAMS: &str = r#"
{"position":{"character":29,"line":85},"textDocument":{"uri":"file:///uri"},"workDoneToken":71} :: TypeHierarchyPrepareParams { text_document_position_params: TextDocumentPositionParams { text_document: TextDocumentIdentifier { uri: Uri { text: "file:///uri" } }, position: Position { line: 85, character: 29 } }, work_done_progress_params: WorkDoneProgressParams { work_done_token: Some(Number(71)) } }
? textDocument position
! [] :: an object is wanted
"#;

const TYPE_HIERARCHY_SUPERTYPES_PARAMS: &str = r#"
{"item":{"kind":130,"name":"name","range":{"end":{"character":29,"line":85},"start":{"character":29,"line":85}},"selectionRange":{"end":{"character":29,"line":85},"start":{"character":29,"line":85}},"uri":"file:///uri"},"partialResultToken":89,"workDoneToken":71} :: TypeHierarchySupertypesParams { item: TypeHierarchyItem { name: "name", kind: SymbolKind(130), tags: None, detail: None, uri: Uri { text: "file:///uri" }, range: Range { start: Position { line: 85, character: 29 }, end: Position { line: 85, character: 29 } }, selection_range: Range { start: Position { line: 85, character: 29 }, end: Position { line: 85, character: 29 } }, payload: None }, work_done_progress_params: WorkDoneProgressParams { work_done_token: Some(Number(71)) }, partial_result_params: PartialResultParams { partial_result_token: Some(Number(89)) } }
? item
! {"partialResultToken":89,"workDoneToken":71} :: item: is missing
"#;

const TYPE_HIERARCHY_SUBTYPES_PARAMS: &str = r#"
{"item":{"kind":130,"name":"name","range":{"end":{"character":29,"line":85},"start":{"character":29,"line":85}},"selectionRange":{"end":{"character":29,"line":85},"start":{"character":29,"line":85}},"uri":"file:///uri"},"partialResultToken":89,"workDoneToken":71} :: TypeHierarchySubtypesParams { item: TypeHierarchyItem { name: "name", kind: SymbolKind(130), tags: None, detail: None, uri: Uri { text: "file:///uri" }, range: Range { start: Position { line: 85, character: 29 }, end: Position { line: 85, character: 29 } }, selection_range: Range { start: Position { line: 85, character: 29 }, end: Position { line: 85, character: 29 } }, payload: None }, work_done_progress_params: WorkDoneProgressParams { work_done_token: Some(Number(71)) }, partial_result_params: PartialResultParams { partial_result_token: Some(Number(89)) } }
? item
! {"partialResultToken":89,"workDoneToken":71} :: item: is missing
"#;

const TYPE_HIERARCHY_ITEM: &str = r#"
{"data":63,"detail":"detail","kind":130,"name":"name","range":{"end":{"character":29,"line":85},"start":{"character":29,"line":85}},"selectionRange":{"end":{"character":29,"line":85},"start":{"character":29,"line":86}},"tags":[115],"uri":"file:///uri"} :: TypeHierarchyItem { name: "name", kind: SymbolKind(130), tags: Some([SymbolTag(115)]), detail: Some("detail"), uri: Uri { text: "file:///uri" }, range: Range { start: Position { line: 85, character: 29 }, end: Position { line: 85, character: 29 } }, selection_range: Range { start: Position { line: 86, character: 29 }, end: Position { line: 85, character: 29 } }, payload: Some(Number(63)) }
? name kind uri range selectionRange
! {"kind":130,"range":{"end":{"character":29,"line":85},"start":{"character":29,"line":85}},"selectionRange":{"end":{"character":29,"line":85},"start":{"character":29,"line":85}},"uri":"file:///uri"} :: name: is missing
{"kind":5,"name":"C","range":{"end":{"character":1,"line":8},"start":{"character":0,"line":3}},"selectionRange":{"end":{"character":11,"line":3},"start":{"character":6,"line":3}},"tags":[1],"uri":"file:///c"} :: TypeHierarchyItem { name: "C", kind: Class, tags: Some([Deprecated]), detail: None, uri: Uri { text: "file:///c" }, range: Range { start: Position { line: 3, character: 0 }, end: Position { line: 8, character: 1 } }, selection_range: Range { start: Position { line: 3, character: 6 }, end: Position { line: 3, character: 11 } }, payload: None }
! {"kind":5,"name":"C","range":{"end":{"character":1,"line":8},"start":{"character":0,"line":3}},"selectionRange":{"end":{"character":11,"line":3},"start":{"character":6,"line":3}},"tags":1,"uri":"file:///c"} :: tags: a list is wanted
# clangd 14.0.6
{"children":[],"data":"EED5CC8668044E01","kind":5,"name":"Circle","parents":[{"data":"4769D2967A9F68AE","kind":5,"name":"Shape","parents":[],"range":{"end":{"character":1,"line":8},"start":{"character":0,"line":3}},"selectionRange":{"end":{"character":11,"line":3},"start":{"character":6,"line":3}},"uri":"file:///tmp/td_rec/src/shape.h"}],"range":{"end":{"character":1,"line":15},"start":{"character":0,"line":9}},"selectionRange":{"end":{"character":12,"line":9},"start":{"character":6,"line":9}},"uri":"file:///tmp/td_rec/src/shape.h"} => {"data":"EED5CC8668044E01","kind":5,"name":"Circle","range":{"end":{"character":1,"line":15},"start":{"character":0,"line":9}},"selectionRange":{"end":{"character":12,"line":9},"start":{"character":6,"line":9}},"uri":"file:///tmp/td_rec/src/shape.h"}
"#;

const DOCUMENT_SYMBOL_PARAMS: &str = r#"
{"partialResultToken":89,"textDocument":{"uri":"file:///uri"},"workDoneToken":71} :: DocumentSymbolParams { text_document: TextDocumentIdentifier { uri: Uri { text: "file:///uri" } }, work_done_progress_params: WorkDoneProgressParams { work_done_token: Some(Number(71)) }, partial_result_params: PartialResultParams { partial_result_token: Some(Number(89)) } }
? textDocument
! {"partialResultToken":89,"workDoneToken":71} :: textDocument: is missing
"#;

const DOCUMENT_SYMBOL_RESPONSE: &str = r#"
[{"kind":130,"location":{"range":{"end":{"character":29,"line":85},"start":{"character":29,"line":85}},"uri":"file:///uri"},"name":"name"}] :: Flat([SymbolInformation { name: "name", kind: SymbolKind(130), tags: None, deprecated: None, location: Location { uri: Uri { text: "file:///uri" }, range: Range { start: Position { line: 85, character: 29 }, end: Position { line: 85, character: 29 } } }, container_name: None }])
[{"kind":130,"name":"name","range":{"end":{"character":29,"line":85},"start":{"character":29,"line":85}},"selectionRange":{"end":{"character":29,"line":85},"start":{"character":29,"line":85}}}] :: Nested([DocumentSymbol { name: "name", detail: None, kind: SymbolKind(130), tags: None, deprecated: None, range: Range { start: Position { line: 85, character: 29 }, end: Position { line: 85, character: 29 } }, selection_range: Range { start: Position { line: 85, character: 29 }, end: Position { line: 85, character: 29 } }, children: None }])
! false :: one of its forms is wanted
# clangd 14.0.6
[{"detail":"(double)","kind":9,"name":"Circle::Circle","range":{"end":{"character":50,"line":1},"start":{"character":0,"line":1}},"selectionRange":{"end":{"character":14,"line":1},"start":{"character":8,"line":1}}},{"detail":"double () const","kind":6,"name":"Circle::area","range":{"end":{"character":1,"line":5},"start":{"character":0,"line":2}},"selectionRange":{"end":{"character":19,"line":2},"start":{"character":15,"line":2}}}]
# pylsp 1.7.1
[{"containerName":null,"kind":5,"location":{"range":{"end":{"character":0,"line":10},"start":{"character":0,"line":4}},"uri":"file:///tmp/td_rec/src/shapes.py"},"name":"Shape"},{"containerName":"Shape","kind":6,"location":{"range":{"end":{"character":0,"line":10},"start":{"character":4,"line":7}},"uri":"file:///tmp/td_rec/src/shapes.py"},"name":"area"}] => [{"kind":5,"location":{"range":{"end":{"character":0,"line":10},"start":{"character":0,"line":4}},"uri":"file:///tmp/td_rec/src/shapes.py"},"name":"Shape"},{"containerName":"Shape","kind":6,"location":{"range":{"end":{"character":0,"line":10},"start":{"character":4,"line":7}},"uri":"file:///tmp/td_rec/src/shapes.py"},"name":"area"}]
"#;

const SYMBOL_INFORMATION: &str = r#"
{"containerName":"containerName","deprecated":true,"kind":130,"location":{"range":{"end":{"character":29,"line":85},"start":{"character":29,"line":85}},"uri":"file:///uri"},"name":"name","tags":[115]} :: SymbolInformation { name: "name", kind: SymbolKind(130), tags: Some([SymbolTag(115)]), deprecated: Some(true), location: Location { uri: Uri { text: "file:///uri" }, range: Range { start: Position { line: 85, character: 29 }, end: Position { line: 85, character: 29 } } }, container_name: Some("containerName") }
? name kind location
! {"kind":130,"location":{"range":{"end":{"character":29,"line":85},"start":{"character":29,"line":85}},"uri":"file:///uri"}} :: name: is missing
"#;

const WORKSPACE_SYMBOL_PARAMS: &str = r#"
{"partialResultToken":89,"query":"query","workDoneToken":71} :: WorkspaceSymbolParams { partial_result_params: PartialResultParams { partial_result_token: Some(Number(89)) }, work_done_progress_params: WorkDoneProgressParams { work_done_token: Some(Number(71)) }, query: "query" }
? query
! {"partialResultToken":89,"workDoneToken":71} :: query: is missing
"#;

const WORKSPACE_SYMBOL_RESPONSE: &str = r#"
[{"kind":130,"location":{"range":{"end":{"character":29,"line":85},"start":{"character":29,"line":85}},"uri":"file:///uri"},"name":"name"}] :: Flat([SymbolInformation { name: "name", kind: SymbolKind(130), tags: None, deprecated: None, location: Location { uri: Uri { text: "file:///uri" }, range: Range { start: Position { line: 85, character: 29 }, end: Position { line: 85, character: 29 } } }, container_name: None }])
[{"kind":130,"location":{"range":{"end":{"character":29,"line":85},"start":{"character":29,"line":85}},"uri":"file:///uri"},"name":"name"}] :: Flat([SymbolInformation { name: "name", kind: SymbolKind(130), tags: None, deprecated: None, location: Location { uri: Uri { text: "file:///uri" }, range: Range { start: Position { line: 85, character: 29 }, end: Position { line: 85, character: 29 } } }, container_name: None }])
! false :: one of its forms is wanted
# clangd 14.0.6
[{"containerName":"","kind":12,"location":{"range":{"end":{"character":12,"line":6},"start":{"character":7,"line":6}},"uri":"file:///tmp/td_rec/src/main.cpp"},"name":"total","score":1.100000023841858}] => [{"containerName":"","kind":12,"location":{"range":{"end":{"character":12,"line":6},"start":{"character":7,"line":6}},"uri":"file:///tmp/td_rec/src/main.cpp"},"name":"total"}]
# gopls
[{"containerName":"example.com/w","kind":12,"location":{"range":{"end":{"character":9,"line":5},"start":{"character":5,"line":5}},"uri":"file:///w/main.go"},"name":"main.main"}]
"#;

const WORKSPACE_SYMBOL: &str = r#"
{"containerName":"containerName","data":63,"kind":130,"location":{"range":{"end":{"character":29,"line":85},"start":{"character":29,"line":85}},"uri":"file:///uri"},"name":"name","tags":[115]} :: WorkspaceSymbol { name: "name", kind: SymbolKind(130), tags: Some([SymbolTag(115)]), container_name: Some("containerName"), location: Left(Location { uri: Uri { text: "file:///uri" }, range: Range { start: Position { line: 85, character: 29 }, end: Position { line: 85, character: 29 } } }), payload: Some(Number(63)) }
? name kind location
! {"kind":130,"location":{"range":{"end":{"character":29,"line":85},"start":{"character":29,"line":85}},"uri":"file:///uri"}} :: name: is missing
"#;

const WORKSPACE_LOCATION: &str = r#"
{"uri":"file:///uri"} :: WorkspaceLocation { uri: Uri { text: "file:///uri" } }
? uri
! {} :: uri: is missing
"#;

const DOCUMENT_SYMBOL: &str = r#"
{"children":[{"kind":7,"name":"child","range":{"end":{"character":5,"line":4},"start":{"character":3,"line":2}},"selectionRange":{"end":{"character":6,"line":2},"start":{"character":4,"line":2}}}],"deprecated":true,"detail":"detail","kind":6,"name":"name","range":{"end":{"character":8,"line":9},"start":{"character":2,"line":1}},"selectionRange":{"end":{"character":7,"line":1},"start":{"character":4,"line":1}},"tags":[1]} :: DocumentSymbol { name: "name", detail: Some("detail"), kind: Method, tags: Some([Deprecated]), deprecated: Some(true), range: Range { start: Position { line: 1, character: 2 }, end: Position { line: 9, character: 8 } }, selection_range: Range { start: Position { line: 1, character: 4 }, end: Position { line: 1, character: 7 } }, children: Some([DocumentSymbol { name: "child", detail: None, kind: Property, tags: None, deprecated: None, range: Range { start: Position { line: 2, character: 3 }, end: Position { line: 4, character: 5 } }, selection_range: Range { start: Position { line: 2, character: 4 }, end: Position { line: 2, character: 6 } }, children: None }]) }
? name kind range selectionRange
{"children":null,"kind":6,"name":"name","range":{"end":{"character":8,"line":9},"start":{"character":2,"line":1}},"selectionRange":{"end":{"character":7,"line":1},"start":{"character":4,"line":1}}} => {"kind":6,"name":"name","range":{"end":{"character":8,"line":9},"start":{"character":2,"line":1}},"selectionRange":{"end":{"character":7,"line":1},"start":{"character":4,"line":1}}}
! {"children":[{"kind":7,"range":{"end":{"character":5,"line":4},"start":{"character":3,"line":2}},"selectionRange":{"end":{"character":6,"line":2},"start":{"character":4,"line":2}}}],"kind":6,"name":"name","range":{"end":{"character":8,"line":9},"start":{"character":2,"line":1}},"selectionRange":{"end":{"character":7,"line":1},"start":{"character":4,"line":1}}} :: children[0].name: is missing
! {"children":{},"kind":6,"name":"name","range":{"end":{"character":8,"line":9},"start":{"character":2,"line":1}},"selectionRange":{"end":{"character":7,"line":1},"start":{"character":4,"line":1}}} :: children: a list is wanted
# clangd 14.0.6
{"detail":"double () const","kind":6,"name":"Circle::area","range":{"end":{"character":1,"line":5},"start":{"character":0,"line":2}},"selectionRange":{"end":{"character":19,"line":2},"start":{"character":15,"line":2}}}
"#;

const DOCUMENT_LINK_PARAMS: &str = r#"
{"partialResultToken":89,"textDocument":{"uri":"file:///uri"},"workDoneToken":71} :: DocumentLinkParams { text_document: TextDocumentIdentifier { uri: Uri { text: "file:///uri" } }, work_done_progress_params: WorkDoneProgressParams { work_done_token: Some(Number(71)) }, partial_result_params: PartialResultParams { partial_result_token: Some(Number(89)) } }
? textDocument
! {"partialResultToken":89,"workDoneToken":71} :: textDocument: is missing
"#;

const DOCUMENT_LINK: &str = r#"
{"data":63,"range":{"end":{"character":29,"line":85},"start":{"character":29,"line":85}},"target":"file:///target","tooltip":"tooltip"} :: DocumentLink { range: Range { start: Position { line: 85, character: 29 }, end: Position { line: 85, character: 29 } }, target: Some(Uri { text: "file:///target" }), tooltip: Some("tooltip"), payload: Some(Number(63)) }
? range
! {} :: range: is missing
# clangd 14.0.6
{"range":{"end":{"character":18,"line":0},"start":{"character":9,"line":0}},"target":"file:///tmp/td_rec/src/shape.h"}
# gopls
{"range":{"end":{"character":5,"line":3},"start":{"character":2,"line":3}},"target":"https://pkg.go.dev/fmt"}
"#;

const HOVER_PARAMS: &str = r#"
{"position":{"character":29,"line":85},"textDocument":{"uri":"file:///uri"},"workDoneToken":71} :: HoverParams { text_document_position_params: TextDocumentPositionParams { text_document: TextDocumentIdentifier { uri: Uri { text: "file:///uri" } }, position: Position { line: 85, character: 29 } }, work_done_progress_params: WorkDoneProgressParams { work_done_token: Some(Number(71)) } }
? textDocument position
! [] :: an object is wanted
"#;

const HOVER: &str = r####"
{"contents":"contents","range":{"end":{"character":29,"line":85},"start":{"character":29,"line":85}}} :: Hover { contents: Scalar(String("contents")), range: Some(Range { start: Position { line: 85, character: 29 }, end: Position { line: 85, character: 29 } }) }
? contents
! {} :: contents: is missing
# clangd 14.0.6
{"contents":{"kind":"markdown","value":"### function `total`  \n\n---\n→ `double`  \nParameters:  \n- `const Shape & a`\n- `const Shape & b`\n- `int times = 1`\n\n---\n```cpp\ndouble total(const Shape &a, const Shape &b, int times = 1)\n```"},"range":{"end":{"character":18,"line":12},"start":{"character":13,"line":12}}}
# clangd 14.0.6
{"contents":{"kind":"markdown","value":"### field `radius_`  \n\n---\nType: `double`  \n\n---\n```cpp\n// In Circle\nprivate: double radius_\n```"},"range":{"end":{"character":21,"line":4},"start":{"character":14,"line":4}}}
# pylsp 1.7.1
{"contents":{"kind":"markdown","value":"```python\ntotal(shapes, times=1)\n```\n\n\nThe sum of areas.\n\nArgs:\n    shapes: the shapes"}}
# gopls
{"contents":{"kind":"markdown","value":"```go\nfunc Println(a ...any) (n int, err error)\n```\n\nPrintln formats using the default formats.\n\n[`fmt.Println` on pkg.go.dev](https://pkg.go.dev/fmt#Println)"},"range":{"end":{"character":12,"line":5},"start":{"character":1,"line":5}}}
"####;

const HOVER_CONTENTS: &str = r#"
"hover_contents" :: Scalar(String("hover_contents"))
["hover_contents"] :: Array([String("hover_contents")])
{"kind":"plaintext","value":"value"} :: Markup(MarkupContent { kind: PlainText, value: "value" })
! false :: one of its forms is wanted
"#;

const CODE_LENS_PARAMS: &str = r#"
{"partialResultToken":89,"textDocument":{"uri":"file:///uri"},"workDoneToken":71} :: CodeLensParams { text_document: TextDocumentIdentifier { uri: Uri { text: "file:///uri" } }, work_done_progress_params: WorkDoneProgressParams { work_done_token: Some(Number(71)) }, partial_result_params: PartialResultParams { partial_result_token: Some(Number(89)) } }
? textDocument
! {"partialResultToken":89,"workDoneToken":71} :: textDocument: is missing
"#;

const CODE_LENS: &str = r#"
{"command":{"command":"command","title":"title"},"data":63,"range":{"end":{"character":29,"line":85},"start":{"character":29,"line":85}}} :: CodeLens { range: Range { start: Position { line: 85, character: 29 }, end: Position { line: 85, character: 29 } }, command: Some(Command { title: "title", command: "command", arguments: None }), payload: Some(Number(63)) }
? range
! {} :: range: is missing
# gopls
{"command":{"arguments":[{"Benchmarks":null,"Tests":["TestA"],"URI":"file:///w/main_test.go"}],"command":"gopls.run_tests","title":"run test"},"range":{"end":{"character":24,"line":7},"start":{"character":0,"line":7}}}
"#;

const DOCUMENT_COLOR_PARAMS: &str = r#"
{"partialResultToken":89,"textDocument":{"uri":"file:///uri"},"workDoneToken":71} :: DocumentColorParams { text_document: TextDocumentIdentifier { uri: Uri { text: "file:///uri" } }, work_done_progress_params: WorkDoneProgressParams { work_done_token: Some(Number(71)) }, partial_result_params: PartialResultParams { partial_result_token: Some(Number(89)) } }
? textDocument
! {"partialResultToken":89,"workDoneToken":71} :: textDocument: is missing
"#;

const GENERIC_PARAMS: &str = r#"
{"partialResultToken":89,"position":{"character":29,"line":85},"textDocument":{"uri":"file:///uri"},"workDoneToken":71} :: GenericParams { text_document_position_params: TextDocumentPositionParams { text_document: TextDocumentIdentifier { uri: Uri { text: "file:///uri" } }, position: Position { line: 85, character: 29 } }, work_done_progress_params: WorkDoneProgressParams { work_done_token: Some(Number(71)) }, partial_result_params: PartialResultParams { partial_result_token: Some(Number(89)) } }
? textDocument position
! [] :: an object is wanted
"#;

#[test]
fn rows_1(rt: HostRuntime) -> Result<(), RowError> {
    let mut trial = Trial::new(rt.alloc());
    trial.holds::<GotoDefinitionParams>(GOTO_DEFINITION_PARAMS);
    trial.holds::<GotoDefinitionResponse>(GOTO_DEFINITION_RESPONSE);
    trial.holds::<ReferenceParams>(REFERENCE_PARAMS);
    trial.holds::<ReferenceContext>(REFERENCE_CONTEXT);
    trial.holds::<DocumentHighlightParams>(DOCUMENT_HIGHLIGHT_PARAMS);
    trial.holds::<DocumentHighlight>(DOCUMENT_HIGHLIGHT);
    trial.holds::<CallHierarchyPrepareParams>(CALL_HIERARCHY_PREPARE_PARAMS);
    trial.holds::<CallHierarchyItem>(CALL_HIERARCHY_ITEM);
    trial.clones::<CallHierarchyItem>(CALL_HIERARCHY_ITEM);
    trial.holds::<CallHierarchyIncomingCallsParams>(CALL_HIERARCHY_INCOMING_CALLS_PARAMS);
    trial.holds::<CallHierarchyIncomingCall>(CALL_HIERARCHY_INCOMING_CALL);
    trial.holds::<CallHierarchyOutgoingCallsParams>(CALL_HIERARCHY_OUTGOING_CALLS_PARAMS);
    trial.holds::<CallHierarchyOutgoingCall>(CALL_HIERARCHY_OUTGOING_CALL);
    trial.end()
}

#[test]
fn rows_2(rt: HostRuntime) -> Result<(), RowError> {
    let mut trial = Trial::new(rt.alloc());
    trial.holds::<TypeHierarchyPrepareParams>(TYPE_HIERARCHY_PREPARE_PARAMS);
    trial.holds::<TypeHierarchySupertypesParams>(TYPE_HIERARCHY_SUPERTYPES_PARAMS);
    trial.holds::<TypeHierarchySubtypesParams>(TYPE_HIERARCHY_SUBTYPES_PARAMS);
    trial.holds::<TypeHierarchyItem>(TYPE_HIERARCHY_ITEM);
    trial.clones::<TypeHierarchyItem>(TYPE_HIERARCHY_ITEM);
    trial.holds::<DocumentSymbolParams>(DOCUMENT_SYMBOL_PARAMS);
    trial.holds::<DocumentSymbolResponse>(DOCUMENT_SYMBOL_RESPONSE);
    trial.holds::<SymbolInformation>(SYMBOL_INFORMATION);
    trial.clones::<SymbolInformation>(SYMBOL_INFORMATION);
    trial.holds::<WorkspaceSymbolParams>(WORKSPACE_SYMBOL_PARAMS);
    trial.holds::<WorkspaceSymbolResponse>(WORKSPACE_SYMBOL_RESPONSE);
    trial.holds::<WorkspaceSymbol>(WORKSPACE_SYMBOL);
    trial.clones::<WorkspaceSymbol>(WORKSPACE_SYMBOL);
    trial.holds::<WorkspaceLocation>(WORKSPACE_LOCATION);
    trial.holds::<DocumentSymbol>(DOCUMENT_SYMBOL);
    trial.clones::<DocumentSymbol>(DOCUMENT_SYMBOL);
    trial.end()
}

#[test]
fn rows_3(rt: HostRuntime) -> Result<(), RowError> {
    let mut trial = Trial::new(rt.alloc());
    trial.holds::<DocumentLinkParams>(DOCUMENT_LINK_PARAMS);
    trial.holds::<DocumentLink>(DOCUMENT_LINK);
    trial.holds::<HoverParams>(HOVER_PARAMS);
    trial.holds::<Hover>(HOVER);
    trial.holds::<HoverContents>(HOVER_CONTENTS);
    trial.holds::<CodeLensParams>(CODE_LENS_PARAMS);
    trial.holds::<CodeLens>(CODE_LENS);
    trial.holds::<DocumentColorParams>(DOCUMENT_COLOR_PARAMS);
    trial.holds::<GenericParams>(GENERIC_PARAMS);
    trial.end()
}

#[test]
fn defaults(rt: HostRuntime) -> Result<(), RowError> {
    let alloc = rt.alloc();
    let mut trial = Trial::new(alloc);
    trial.is_written(WorkspaceSymbolParams::default(alloc), r#"{"query":""}"#);
    trial.end()
}
