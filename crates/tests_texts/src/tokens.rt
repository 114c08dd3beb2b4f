// The rows of lsp_tokens.
use lsp_rows::{RowError, Trial};
use lsp_tokens::{
    DocumentFormattingParams, DocumentOnTypeFormattingParams, DocumentRangeFormattingParams,
    FoldingRange, FoldingRangeParams, FormattingOptions, FormattingProperty,
    LinkedEditingRangeParams, LinkedEditingRanges, Moniker, MonikerKind, MonikerParams,
    ParameterInformation, ParameterLabel, SelectionRange, SelectionRangeParams, SemanticTokens,
    SemanticTokensDelta, SemanticTokensDeltaParams, SemanticTokensEdit,
    SemanticTokensFullDeltaResult, SemanticTokensParams, SemanticTokensPartialResult,
    SemanticTokensRangeParams, SemanticTokensRangeResult, SemanticTokensResult, SignatureHelp,
    SignatureHelpContext, SignatureHelpParams, SignatureInformation, UniquenessLevel,
};

const SEMANTIC_TOKENS: &str = r#"
{"data":[1,0,3,2,0]} :: SemanticTokens { result_id: None, payload: [SemanticToken { delta_line: 1, delta_start: 0, length: 3, token_type: 2, token_modifiers_bitset: 0 }] }
? data
{"data":[2,5,3,0,3,0,5,4,1,0],"resultId":"id"} :: SemanticTokens { result_id: Some("id"), payload: [SemanticToken { delta_line: 2, delta_start: 5, length: 3, token_type: 0, token_modifiers_bitset: 3 }, SemanticToken { delta_line: 0, delta_start: 5, length: 4, token_type: 1, token_modifiers_bitset: 0 }] }
{"data":[]} :: SemanticTokens { result_id: None, payload: [] }
! {"data":[2,5,3,0]} :: data: a list of another length is wanted
! {"data":[2,5,3,0,3,0]} :: data: a list of another length is wanted
! {"data":[2,5,3,0,4294967296]} :: data[4]: an unsigned integer is wanted
! {"data":[2,5,3,0,-1]} :: data[4]: an unsigned integer is wanted
! {"data":null} :: data: a list is wanted
! {"resultId":"id"} :: data: is missing
# clangd 14.0.6
{"data":[1,0,6,8,8192,0,8,6,8,2049,0,14,6,2,1025,0,10,7,6,2048,0,8,6,2,1024],"resultId":"1"}
"#;

const SEMANTIC_TOKENS_PARTIAL_RESULT: &str = r#"
{"data":[4,5,6,7,8]} :: SemanticTokensPartialResult { payload: [SemanticToken { delta_line: 4, delta_start: 5, length: 6, token_type: 7, token_modifiers_bitset: 8 }] }
? data
! {"data":[4,5,6,7]} :: data: a list of another length is wanted
! {} :: data: is missing
"#;

const SEMANTIC_TOKENS_EDIT: &str = r#"
{"data":[4,5,6,7,8],"deleteCount":2,"start":3} :: SemanticTokensEdit { start: 3, delete_count: 2, payload: Some([SemanticToken { delta_line: 4, delta_start: 5, length: 6, token_type: 7, token_modifiers_bitset: 8 }]) }
? start deleteCount
{"data":[],"deleteCount":5,"start":10} :: SemanticTokensEdit { start: 10, delete_count: 5, payload: Some([]) }
{"deleteCount":5,"start":10} :: SemanticTokensEdit { start: 10, delete_count: 5, payload: None }
{"data":null,"deleteCount":5,"start":10} => {"deleteCount":5,"start":10} :: SemanticTokensEdit { start: 10, delete_count: 5, payload: None }
! {"data":[1],"deleteCount":5,"start":10} :: data: a list of another length is wanted
! {"deleteCount":5} :: start: is missing
"#;

const SEMANTIC_TOKENS_PARAMS: &str = r#"
{"partialResultToken":89,"textDocument":{"uri":"file:///uri"},"workDoneToken":71} :: SemanticTokensParams { work_done_progress_params: WorkDoneProgressParams { work_done_token: Some(Number(71)) }, partial_result_params: PartialResultParams { partial_result_token: Some(Number(89)) }, text_document: TextDocumentIdentifier { uri: Uri { text: "file:///uri" } } }
? textDocument
! {"partialResultToken":89,"workDoneToken":71} :: textDocument: is missing
"#;

const SEMANTIC_TOKENS_DELTA_PARAMS: &str = r#"
{"partialResultToken":89,"previousResultId":"previousResultId","textDocument":{"uri":"file:///uri"},"workDoneToken":71} :: SemanticTokensDeltaParams { work_done_progress_params: WorkDoneProgressParams { work_done_token: Some(Number(71)) }, partial_result_params: PartialResultParams { partial_result_token: Some(Number(89)) }, text_document: TextDocumentIdentifier { uri: Uri { text: "file:///uri" } }, previous_result_id: "previousResultId" }
? textDocument previousResultId
! {"partialResultToken":89,"previousResultId":"previousResultId","workDoneToken":71} :: textDocument: is missing
"#;

const SEMANTIC_TOKENS_RANGE_PARAMS: &str = r#"
{"partialResultToken":89,"range":{"end":{"character":29,"line":85},"start":{"character":29,"line":85}},"textDocument":{"uri":"file:///uri"},"workDoneToken":71} :: SemanticTokensRangeParams { work_done_progress_params: WorkDoneProgressParams { work_done_token: Some(Number(71)) }, partial_result_params: PartialResultParams { partial_result_token: Some(Number(89)) }, text_document: TextDocumentIdentifier { uri: Uri { text: "file:///uri" } }, range: Range { start: Position { line: 85, character: 29 }, end: Position { line: 85, character: 29 } } }
? textDocument range
! {"partialResultToken":89,"range":{"end":{"character":29,"line":85},"start":{"character":29,"line":85}},"workDoneToken":71} :: textDocument: is missing
"#;

const SEMANTIC_TOKENS_RESULT: &str = r#"
{"data":[63,64,65,66,67],"resultId":"resultId"} :: Tokens(SemanticTokens { result_id: Some("resultId"), payload: [SemanticToken { delta_line: 63, delta_start: 64, length: 65, token_type: 66, token_modifiers_bitset: 67 }] })
{"data":[63,64,65,66,67]} :: Tokens(SemanticTokens { result_id: None, payload: [SemanticToken { delta_line: 63, delta_start: 64, length: 65, token_type: 66, token_modifiers_bitset: 67 }] })
! false :: one of its forms is wanted
# clangd 14.0.6
{"data":[1,0,6,8,8192,0,8,6,8,2049,0,14,6,2,1025,0,10,7,6,2048,0,8,6,2,1024],"resultId":"1"}
"#;

const SEMANTIC_TOKENS_FULL_DELTA_RESULT: &str = r#"
{"data":[63,64,65,66,67],"resultId":"resultId"} :: Tokens(SemanticTokens { result_id: Some("resultId"), payload: [SemanticToken { delta_line: 63, delta_start: 64, length: 65, token_type: 66, token_modifiers_bitset: 67 }] })
{"edits":[{"deleteCount":21,"start":28}],"resultId":"resultId"} :: TokensDelta(SemanticTokensDelta { result_id: Some("resultId"), edits: [SemanticTokensEdit { start: 28, delete_count: 21, payload: None }] })
{"edits":[{"deleteCount":21,"start":28}]} :: TokensDelta(SemanticTokensDelta { result_id: None, edits: [SemanticTokensEdit { start: 28, delete_count: 21, payload: None }] })
! false :: one of its forms is wanted
# clangd 14.0.6
{"edits":[{"data":[1,7,6,1,1025],"deleteCount":5,"start":160}],"resultId":"2"}
# rust-analyzer
{"edits":[{"data":[0,4,1,8,0],"deleteCount":5,"start":5},{"data":[],"deleteCount":10,"start":20}],"resultId":"2"} :: TokensDelta(SemanticTokensDelta { result_id: Some("2"), edits: [SemanticTokensEdit { start: 5, delete_count: 5, payload: Some([SemanticToken { delta_line: 0, delta_start: 4, length: 1, token_type: 8, token_modifiers_bitset: 0 }]) }, SemanticTokensEdit { start: 20, delete_count: 10, payload: Some([]) }] })
"#;

const SEMANTIC_TOKENS_DELTA: &str = r#"
{"edits":[{"deleteCount":21,"start":28}],"resultId":"resultId"} :: SemanticTokensDelta { result_id: Some("resultId"), edits: [SemanticTokensEdit { start: 28, delete_count: 21, payload: None }] }
? edits
! {"resultId":"resultId"} :: edits: is missing
"#;

const SEMANTIC_TOKENS_RANGE_RESULT: &str = r#"
{"data":[63,64,65,66,67],"resultId":"resultId"} :: Tokens(SemanticTokens { result_id: Some("resultId"), payload: [SemanticToken { delta_line: 63, delta_start: 64, length: 65, token_type: 66, token_modifiers_bitset: 67 }] })
{"data":[63,64,65,66,67]} :: Tokens(SemanticTokens { result_id: None, payload: [SemanticToken { delta_line: 63, delta_start: 64, length: 65, token_type: 66, token_modifiers_bitset: 67 }] })
! false :: one of its forms is wanted
"#;

const FOLDING_RANGE_PARAMS: &str = r#"
{"partialResultToken":89,"textDocument":{"uri":"file:///uri"},"workDoneToken":71} :: FoldingRangeParams { text_document: TextDocumentIdentifier { uri: Uri { text: "file:///uri" } }, work_done_progress_params: WorkDoneProgressParams { work_done_token: Some(Number(71)) }, partial_result_params: PartialResultParams { partial_result_token: Some(Number(89)) } }
? textDocument
! {"partialResultToken":89,"workDoneToken":71} :: textDocument: is missing
"#;

const FOLDING_RANGE: &str = r#"
{"collapsedText":"collapsedText","endCharacter":47,"endLine":7,"kind":"comment","startCharacter":8,"startLine":98} :: FoldingRange { start_line: 98, start_character: Some(8), end_line: 7, end_character: Some(47), kind: Some(Comment), collapsed_text: Some("collapsedText") }
? startLine endLine
! {"endLine":7} :: startLine: is missing
# pylsp 1.7.1
{"endLine":9,"startLine":4}
# gopls
{"endCharacter":0,"endLine":4,"kind":"imports","startCharacter":8,"startLine":2}
# rust-analyzer
{"collapsedText":"fn main()","endCharacter":1,"endLine":5,"kind":"region","startCharacter":3,"startLine":0}
{"endLine":5,"startLine":0}
"#;

const SELECTION_RANGE_PARAMS: &str = r#"
{"partialResultToken":89,"positions":[{"character":29,"line":85}],"textDocument":{"uri":"file:///uri"},"workDoneToken":71} :: SelectionRangeParams { text_document: TextDocumentIdentifier { uri: Uri { text: "file:///uri" } }, positions: [Position { line: 85, character: 29 }], work_done_progress_params: WorkDoneProgressParams { work_done_token: Some(Number(71)) }, partial_result_params: PartialResultParams { partial_result_token: Some(Number(89)) } }
? textDocument positions
! {"partialResultToken":89,"positions":[{"character":29,"line":85}],"workDoneToken":71} :: textDocument: is missing
"#;

const LINKED_EDITING_RANGE_PARAMS: &str = r#"
{"position":{"character":29,"line":85},"textDocument":{"uri":"file:///uri"},"workDoneToken":71} :: LinkedEditingRangeParams { text_document_position_params: TextDocumentPositionParams { text_document: TextDocumentIdentifier { uri: Uri { text: "file:///uri" } }, position: Position { line: 85, character: 29 } }, work_done_progress_params: WorkDoneProgressParams { work_done_token: Some(Number(71)) } }
? textDocument position
! [] :: an object is wanted
"#;

const LINKED_EDITING_RANGES: &str = r#"
{"ranges":[{"end":{"character":29,"line":85},"start":{"character":29,"line":85}}],"wordPattern":"wordPattern"} :: LinkedEditingRanges { ranges: [Range { start: Position { line: 85, character: 29 }, end: Position { line: 85, character: 29 } }], word_pattern: Some("wordPattern") }
? ranges
! {} :: ranges: is missing
"#;

const SELECTION_RANGE: &str = r#"
{"parent":{"parent":{"range":{"end":{"character":1,"line":9},"start":{"character":0,"line":0}}},"range":{"end":{"character":3,"line":8},"start":{"character":2,"line":1}}},"range":{"end":{"character":7,"line":6},"start":{"character":5,"line":4}}} :: SelectionRange { range: Range { start: Position { line: 4, character: 5 }, end: Position { line: 6, character: 7 } }, parent: Some(SelectionRange { range: Range { start: Position { line: 1, character: 2 }, end: Position { line: 8, character: 3 } }, parent: Some(SelectionRange { range: Range { start: Position { line: 0, character: 0 }, end: Position { line: 9, character: 1 } }, parent: None }) }) }
? range
{"parent":null,"range":{"end":{"character":7,"line":6},"start":{"character":5,"line":4}}} => {"range":{"end":{"character":7,"line":6},"start":{"character":5,"line":4}}} :: SelectionRange { range: Range { start: Position { line: 4, character: 5 }, end: Position { line: 6, character: 7 } }, parent: None }
! {"parent":{"parent":{}},"range":{"end":{"character":7,"line":6},"start":{"character":5,"line":4}}} :: parent.range: is missing
! {"parent":[],"range":{"end":{"character":7,"line":6},"start":{"character":5,"line":4}}} :: parent: an object is wanted
! {} :: range: is missing
# clangd 14.0.6
{"parent":{"parent":{"parent":{"parent":{"range":{"end":{"character":38,"line":7},"start":{"character":9,"line":7}}},"range":{"end":{"character":30,"line":7},"start":{"character":9,"line":7}}},"range":{"end":{"character":29,"line":7},"start":{"character":10,"line":7}}},"range":{"end":{"character":18,"line":7},"start":{"character":10,"line":7}}},"range":{"end":{"character":16,"line":7},"start":{"character":10,"line":7}}}
"#;

const SIGNATURE_HELP_PARAMS: &str = r#"
{"context":{"isRetrigger":true,"triggerKind":145},"position":{"character":29,"line":85},"textDocument":{"uri":"file:///uri"},"workDoneToken":71} :: SignatureHelpParams { context: Some(SignatureHelpContext { trigger_kind: SignatureHelpTriggerKind(145), trigger_character: None, is_retrigger: true, active_signature_help: None }), text_document_position_params: TextDocumentPositionParams { text_document: TextDocumentIdentifier { uri: Uri { text: "file:///uri" } }, position: Position { line: 85, character: 29 } }, work_done_progress_params: WorkDoneProgressParams { work_done_token: Some(Number(71)) } }
? textDocument position
! {"context":"no"} :: context: an object is wanted
"#;

const SIGNATURE_HELP_CONTEXT: &str = r#"
{"activeSignatureHelp":{"signatures":[{"label":"label"}]},"isRetrigger":true,"triggerCharacter":"triggerCharacter","triggerKind":145} :: SignatureHelpContext { trigger_kind: SignatureHelpTriggerKind(145), trigger_character: Some("triggerCharacter"), is_retrigger: true, active_signature_help: Some(SignatureHelp { signatures: [SignatureInformation { label: "label", documentation: None, parameters: None, active_parameter: None }], active_signature: None, active_parameter: None }) }
? triggerKind isRetrigger
! {"isRetrigger":true} :: triggerKind: is missing
"#;

const SIGNATURE_HELP: &str = r#"
{"activeParameter":27,"activeSignature":94,"signatures":[{"label":"label"}]} :: SignatureHelp { signatures: [SignatureInformation { label: "label", documentation: None, parameters: None, active_parameter: None }], active_signature: Some(94), active_parameter: Some(27) }
? signatures
! {} :: signatures: is missing
# clangd 14.0.6
{"activeParameter":1,"activeSignature":0,"signatures":[{"label":"total(const Shape &a, const Shape &b, int times = 1) -> double","parameters":[{"label":[6,20]},{"label":[22,36]},{"label":[38,51]}]}]}
# pylsp 1.7.1
{"activeParameter":0,"activeSignature":0,"signatures":[{"documentation":{"kind":"markdown","value":"The sum of areas.\n\nArgs:\n    shapes: the shapes"},"label":"total(shapes, times=1)","parameters":[{"documentation":{"kind":"markdown","value":"the shapes"},"label":"shapes"},{"documentation":{"kind":"markdown","value":""},"label":"times"}]}]}
# gopls
{"activeParameter":0,"activeSignature":0,"signatures":[{"documentation":{"kind":"markdown","value":"Println formats."},"label":"Println(a ...any) (n int, err error)","parameters":[{"label":"a ...any"}]}]}
# rust-analyzer
{"activeParameter":1,"activeSignature":0,"signatures":[{"activeParameter":1,"documentation":{"kind":"markdown","value":"Appends."},"label":"fn push(&mut self, value: T)","parameters":[{"label":[8,17]},{"label":[19,27]}]}]}
"#;

const SIGNATURE_INFORMATION: &str = r#"
{"activeParameter":27,"documentation":"documentation","label":"label","parameters":[{"label":"label"}]} :: SignatureInformation { label: "label", documentation: Some(String("documentation")), parameters: Some([ParameterInformation { label: Simple("label"), documentation: None }]), active_parameter: Some(27) }
? label
! {} :: label: is missing
"#;

const PARAMETER_INFORMATION: &str = r#"
{"documentation":"documentation","label":"label"} :: ParameterInformation { label: Simple("label"), documentation: Some(String("documentation")) }
? label
! {} :: label: is missing
"#;

const PARAMETER_LABEL: &str = r#"
"parameter_label" :: Simple("parameter_label")
[30,7] :: LabelOffsets([30, 7])
! false :: one of its forms is wanted
"#;

const MONIKER_PARAMS: &str = r#"
{"partialResultToken":89,"position":{"character":29,"line":85},"textDocument":{"uri":"file:///uri"},"workDoneToken":71} :: MonikerParams { text_document_position_params: TextDocumentPositionParams { text_document: TextDocumentIdentifier { uri: Uri { text: "file:///uri" } }, position: Position { line: 85, character: 29 } }, work_done_progress_params: WorkDoneProgressParams { work_done_token: Some(Number(71)) }, partial_result_params: PartialResultParams { partial_result_token: Some(Number(89)) } }
? textDocument position
! [] :: an object is wanted
"#;

const MONIKER: &str = r#"
{"identifier":"identifier","kind":"import","scheme":"scheme","unique":"document"} :: Moniker { scheme: "scheme", identifier: "identifier", unique: Document, kind: Some(Import) }
? scheme identifier unique
! {"identifier":"identifier","unique":"document"} :: scheme: is missing
# tsserver
{"identifier":"typescript:foo:Bar","kind":"import","scheme":"tsc","unique":"scheme"}
"#;

const UNIQUENESS_LEVEL: &str = r#"
"document" :: Document
"project" :: Project
"group" :: Group
"scheme" :: Scheme
"global" :: Global
! "no" :: one of its texts is wanted
"#;

const MONIKER_KIND: &str = r#"
"import" :: Import
"export" :: Export
"local" :: Local
! "no" :: one of its texts is wanted
"#;

const DOCUMENT_FORMATTING_PARAMS: &str = r#"
{"options":{"insertSpaces":true,"tabSize":90},"textDocument":{"uri":"file:///uri"},"workDoneToken":71} :: DocumentFormattingParams { text_document: TextDocumentIdentifier { uri: Uri { text: "file:///uri" } }, options: FormattingOptions { tab_size: 90, insert_spaces: true, properties: {}, trim_trailing_whitespace: None, insert_final_newline: None, trim_final_newlines: None }, work_done_progress_params: WorkDoneProgressParams { work_done_token: Some(Number(71)) } }
? textDocument options
! {"options":{"insertSpaces":true,"tabSize":90},"workDoneToken":71} :: textDocument: is missing
"#;

const FORMATTING_OPTIONS: &str = r#"
{"insertFinalNewline":true,"insertSpaces":true,"properties":true,"tabSize":90,"trimFinalNewlines":true,"trimTrailingWhitespace":true} :: FormattingOptions { tab_size: 90, insert_spaces: true, properties: {"properties": Bool(true)}, trim_trailing_whitespace: Some(true), insert_final_newline: Some(true), trim_final_newlines: Some(true) }
? tabSize insertSpaces
{"insertFinalNewline":false,"insertSpaces":true,"properties":true,"tabSize":90,"trimTrailingWhitespace":true} :: FormattingOptions { tab_size: 90, insert_spaces: true, properties: {"properties": Bool(true)}, trim_trailing_whitespace: Some(true), insert_final_newline: Some(false), trim_final_newlines: None }
! {"insertSpaces":true} :: tabSize: is missing
# Visual Studio Code
{"insertFinalNewline":true,"insertSpaces":true,"tabSize":4,"trimFinalNewlines":true,"trimTrailingWhitespace":true}
{"deep":true,"insertSpaces":false,"style":"gnu","tabSize":2,"width":80}
! {"insertSpaces":false,"tabSize":2,"width":null} :: width: one of its forms is wanted
! {"insertSpaces":false,"tabSize":2,"width":[80]} :: width: one of its forms is wanted
! {"insertSpaces":false,"tabSize":"2"} :: tabSize: an unsigned integer is wanted
"#;

const FORMATTING_PROPERTY: &str = r#"
true :: Bool(true)
52 :: Number(52)
"formatting_property" :: String("formatting_property")
! [1] :: one of its forms is wanted
"#;

const DOCUMENT_RANGE_FORMATTING_PARAMS: &str = r#"
{"options":{"insertSpaces":true,"tabSize":90},"range":{"end":{"character":29,"line":85},"start":{"character":29,"line":85}},"textDocument":{"uri":"file:///uri"},"workDoneToken":71} :: DocumentRangeFormattingParams { text_document: TextDocumentIdentifier { uri: Uri { text: "file:///uri" } }, range: Range { start: Position { line: 85, character: 29 }, end: Position { line: 85, character: 29 } }, options: FormattingOptions { tab_size: 90, insert_spaces: true, properties: {}, trim_trailing_whitespace: None, insert_final_newline: None, trim_final_newlines: None }, work_done_progress_params: WorkDoneProgressParams { work_done_token: Some(Number(71)) } }
? textDocument range options
! {"options":{"insertSpaces":true,"tabSize":90},"range":{"end":{"character":29,"line":85},"start":{"character":29,"line":85}},"workDoneToken":71} :: textDocument: is missing
"#;

const DOCUMENT_ON_TYPE_FORMATTING_PARAMS: &str = r#"
{"ch":"ch","options":{"insertSpaces":true,"tabSize":90},"position":{"character":29,"line":85},"textDocument":{"uri":"file:///uri"}} :: DocumentOnTypeFormattingParams { text_document_position: TextDocumentPositionParams { text_document: TextDocumentIdentifier { uri: Uri { text: "file:///uri" } }, position: Position { line: 85, character: 29 } }, ch: "ch", options: FormattingOptions { tab_size: 90, insert_spaces: true, properties: {}, trim_trailing_whitespace: None, insert_final_newline: None, trim_final_newlines: None } }
? textDocument position ch options
! {"options":{"insertSpaces":true,"tabSize":90},"position":{"character":29,"line":85},"textDocument":{"uri":"file:///uri"}} :: ch: is missing
"#;

#[test]
fn rows_1(rt: HostRuntime) -> Result<(), RowError> {
    let mut trial = Trial::new(rt.alloc());
    trial.holds::<SemanticTokens>(SEMANTIC_TOKENS);
    trial.holds::<SemanticTokensPartialResult>(SEMANTIC_TOKENS_PARTIAL_RESULT);
    trial.holds::<SemanticTokensEdit>(SEMANTIC_TOKENS_EDIT);
    trial.holds::<SemanticTokensParams>(SEMANTIC_TOKENS_PARAMS);
    trial.holds::<SemanticTokensDeltaParams>(SEMANTIC_TOKENS_DELTA_PARAMS);
    trial.holds::<SemanticTokensRangeParams>(SEMANTIC_TOKENS_RANGE_PARAMS);
    trial.holds::<SemanticTokensResult>(SEMANTIC_TOKENS_RESULT);
    trial.holds::<SemanticTokensFullDeltaResult>(SEMANTIC_TOKENS_FULL_DELTA_RESULT);
    trial.holds::<SemanticTokensDelta>(SEMANTIC_TOKENS_DELTA);
    trial.holds::<SemanticTokensRangeResult>(SEMANTIC_TOKENS_RANGE_RESULT);
    trial.holds::<FoldingRangeParams>(FOLDING_RANGE_PARAMS);
    trial.holds::<FoldingRange>(FOLDING_RANGE);
    trial.end()
}

#[test]
fn rows_2(rt: HostRuntime) -> Result<(), RowError> {
    let mut trial = Trial::new(rt.alloc());
    trial.holds::<SelectionRangeParams>(SELECTION_RANGE_PARAMS);
    trial.holds::<LinkedEditingRangeParams>(LINKED_EDITING_RANGE_PARAMS);
    trial.holds::<LinkedEditingRanges>(LINKED_EDITING_RANGES);
    trial.holds::<SelectionRange>(SELECTION_RANGE);
    trial.clones::<SelectionRange>(SELECTION_RANGE);
    trial.holds::<SignatureHelpParams>(SIGNATURE_HELP_PARAMS);
    trial.holds::<SignatureHelpContext>(SIGNATURE_HELP_CONTEXT);
    trial.holds::<SignatureHelp>(SIGNATURE_HELP);
    trial.holds::<SignatureInformation>(SIGNATURE_INFORMATION);
    trial.holds::<ParameterInformation>(PARAMETER_INFORMATION);
    trial.holds::<ParameterLabel>(PARAMETER_LABEL);
    trial.holds::<MonikerParams>(MONIKER_PARAMS);
    trial.holds::<Moniker>(MONIKER);
    trial.end()
}

#[test]
fn rows_3(rt: HostRuntime) -> Result<(), RowError> {
    let mut trial = Trial::new(rt.alloc());
    trial.holds::<UniquenessLevel>(UNIQUENESS_LEVEL);
    trial.holds::<MonikerKind>(MONIKER_KIND);
    trial.holds::<DocumentFormattingParams>(DOCUMENT_FORMATTING_PARAMS);
    trial.holds::<FormattingOptions>(FORMATTING_OPTIONS);
    trial.holds::<FormattingProperty>(FORMATTING_PROPERTY);
    trial.holds::<DocumentRangeFormattingParams>(DOCUMENT_RANGE_FORMATTING_PARAMS);
    trial.holds::<DocumentOnTypeFormattingParams>(DOCUMENT_ON_TYPE_FORMATTING_PARAMS);
    trial.end()
}

#[test]
fn defaults(rt: HostRuntime) -> Result<(), RowError> {
    let alloc = rt.alloc();
    let mut trial = Trial::new(alloc);
    trial.is_written(SemanticTokens::default(alloc), r#"{"data":[]}"#);
    trial.is_written(
        SemanticTokensPartialResult::default(alloc),
        r#"{"data":[]}"#,
    );
    trial.default::<SemanticTokensEdit>(r#"{"deleteCount":0,"start":0}"#);
    trial.is_written(SemanticTokensDelta::default(alloc), r#"{"edits":[]}"#);
    trial.default::<FoldingRange>(r#"{"endLine":0,"startLine":0}"#);
    trial.default::<SelectionRange>(
        r#"{"range":{"end":{"character":0,"line":0},"start":{"character":0,"line":0}}}"#,
    );
    trial.is_written(
        FormattingOptions::default(alloc),
        r#"{"insertSpaces":false,"tabSize":0}"#,
    );
    trial.end()
}
