// The rows of lsp_lang_item.
use lsp_lang_item::{
    CodeAction, CodeActionContext, CodeActionDisabled, CodeActionOrCommand, CodeActionParams,
    CompletionContext, CompletionItem, CompletionItemLabelDetails, CompletionList,
    CompletionParams, CompletionResponse, CompletionTextEdit, InlayHint, InlayHintLabel,
    InlayHintLabelPart, InlayHintLabelPartTooltip, InlayHintParams, InlayHintTooltip, InlineValue,
    InlineValueContext, InlineValueEvaluatableExpression, InlineValueParams, InlineValueText,
    InlineValueVariableLookup, InsertReplaceEdit, PrepareRenameResponse, RenameParams,
};
use lsp_rows::{RowError, Trial};

const COMPLETION_PARAMS: &str = r#"
{"context":{"triggerKind":145},"partialResultToken":89,"position":{"character":29,"line":85},"textDocument":{"uri":"file:///uri"},"workDoneToken":71} :: CompletionParams { text_document_position: TextDocumentPositionParams { text_document: TextDocumentIdentifier { uri: Uri { text: "file:///uri" } }, position: Position { line: 85, character: 29 } }, work_done_progress_params: WorkDoneProgressParams { work_done_token: Some(Number(71)) }, partial_result_params: PartialResultParams { partial_result_token: Some(Number(89)) }, context: Some(CompletionContext { trigger_kind: CompletionTriggerKind(145), trigger_character: None }) }
? textDocument position
! {"context":"no"} :: textDocument: is missing
# Visual Studio Code
{"context":{"triggerCharacter":".","triggerKind":2},"position":{"character":6,"line":3},"textDocument":{"uri":"file:///w/a.rs"}}
"#;

const COMPLETION_CONTEXT: &str = r#"
{"triggerCharacter":"triggerCharacter","triggerKind":145} :: CompletionContext { trigger_kind: CompletionTriggerKind(145), trigger_character: Some("triggerCharacter") }
? triggerKind
! {} :: triggerKind: is missing
"#;

const COMPLETION_RESPONSE: &str = r#"
[{"label":"label"}] :: Array([CompletionItem { label: "label", label_details: None, kind: None, detail: None, documentation: None, deprecated: None, preselect: None, sort_text: None, filter_text: None, insert_text: None, insert_text_format: None, insert_text_mode: None, text_edit: None, additional_text_edits: None, command: None, commit_characters: None, payload: None, tags: None }])
{"isIncomplete":true,"items":[{"label":"label"}]} :: List(CompletionList { is_incomplete: true, items: [CompletionItem { label: "label", label_details: None, kind: None, detail: None, documentation: None, deprecated: None, preselect: None, sort_text: None, filter_text: None, insert_text: None, insert_text_format: None, insert_text_mode: None, text_edit: None, additional_text_edits: None, command: None, commit_characters: None, payload: None, tags: None }] })
! false :: one of its forms is wanted
# clangd 14.0.6
{"isIncomplete":false,"items":[{"detail":"double","filterText":"area","insertText":"area()","insertTextFormat":2,"kind":2,"label":" area() const","score":1.3846288919448853,"sortText":"404ec47barea","textEdit":{"newText":"area()","range":{"end":{"character":14,"line":7},"start":{"character":12,"line":7}}}}]} => {"isIncomplete":false,"items":[{"detail":"double","filterText":"area","insertText":"area()","insertTextFormat":2,"kind":2,"label":" area() const","sortText":"404ec47barea","textEdit":{"newText":"area()","range":{"end":{"character":14,"line":7},"start":{"character":12,"line":7}}}}]}
# pylsp 1.7.1
{"isIncomplete":false,"items":[{"data":{"doc_uri":"file:///tmp/td_rec/src/shapes.py"},"insertText":"area","kind":3,"label":"area()","sortText":"aarea"}]}
"#;

const COMPLETION_LIST: &str = r#"
{"isIncomplete":true,"items":[{"label":"label"}]} :: CompletionList { is_incomplete: true, items: [CompletionItem { label: "label", label_details: None, kind: None, detail: None, documentation: None, deprecated: None, preselect: None, sort_text: None, filter_text: None, insert_text: None, insert_text_format: None, insert_text_mode: None, text_edit: None, additional_text_edits: None, command: None, commit_characters: None, payload: None, tags: None }] }
? isIncomplete items
! {"items":[{"label":"label"}]} :: isIncomplete: is missing
# gopls
{"isIncomplete":true,"items":[{"detail":"func(a ...any) (n int, err error)","documentation":{"kind":"markdown","value":"Println formats using the default formats."},"filterText":"Println","insertTextFormat":2,"kind":3,"label":"Println","preselect":true,"sortText":"00000","textEdit":{"newText":"Println(${1:})","range":{"end":{"character":7,"line":5},"start":{"character":5,"line":5}}}}]}
"#;

const COMPLETION_ITEM: &str = r#"
{"additionalTextEdits":[{"newText":"newText","range":{"end":{"character":29,"line":85},"start":{"character":29,"line":85}}}],"command":{"command":"command","title":"title"},"commitCharacters":["commitCharacters"],"data":63,"deprecated":true,"detail":"detail","documentation":"documentation","filterText":"filterText","insertText":"insertText","insertTextFormat":144,"insertTextMode":108,"kind":130,"label":"label","labelDetails":{"detail":"detail"},"preselect":false,"sortText":"sortText","tags":[115],"textEdit":{"newText":"newText","range":{"end":{"character":29,"line":85},"start":{"character":29,"line":85}}}} :: CompletionItem { label: "label", label_details: Some(CompletionItemLabelDetails { detail: Some("detail"), description: None }), kind: Some(CompletionItemKind(130)), detail: Some("detail"), documentation: Some(String("documentation")), deprecated: Some(true), preselect: Some(false), sort_text: Some("sortText"), filter_text: Some("filterText"), insert_text: Some("insertText"), insert_text_format: Some(InsertTextFormat(144)), insert_text_mode: Some(InsertTextMode(108)), text_edit: Some(Edit(TextEdit { range: Range { start: Position { line: 85, character: 29 }, end: Position { line: 85, character: 29 } }, new_text: "newText" })), additional_text_edits: Some([TextEdit { range: Range { start: Position { line: 85, character: 29 }, end: Position { line: 85, character: 29 } }, new_text: "newText" }]), command: Some(Command { title: "title", command: "command", arguments: None }), commit_characters: Some(["commitCharacters"]), payload: Some(Number(63)), tags: Some([CompletionItemTag(115)]) }
? label
! {} :: label: is missing
# pylsp 1.7.1
{"data":{"doc_uri":"file:///tmp/td_rec/src/shapes.py"},"detail":"shapes.Circle","documentation":{"kind":"markdown","value":"```python\narea()\n```\n\n\n"},"insertText":"area","kind":3,"label":"area()","sortText":"aarea"}
# rust-analyzer
{"additionalTextEdits":[],"data":{"imports":[],"position":{"position":{"character":6,"line":3},"textDocument":{"uri":"file:///w/src/main.rs"}}},"detail":"pub fn push(&mut self, value: T)","documentation":{"kind":"markdown","value":"Appends an element."},"filterText":"push","insertTextFormat":2,"kind":2,"label":"push(…)","preselect":true,"sortText":"7ffffff2","textEdit":{"insert":{"end":{"character":7,"line":3},"start":{"character":6,"line":3}},"newText":"push(${1:value})$0","replace":{"end":{"character":9,"line":3},"start":{"character":6,"line":3}}}}
# rust-analyzer
{"command":{"command":"editor.action.triggerParameterHints","title":"triggerParameterHints"},"commitCharacters":["("],"deprecated":false,"kind":22,"label":"HashMap","labelDetails":{"detail":"(use std::collections::HashMap)"},"tags":[1]}
"#;

const COMPLETION_ITEM_LABEL_DETAILS: &str = r#"
{"description":"description","detail":"detail"} :: CompletionItemLabelDetails { detail: Some("detail"), description: Some("description") }
?
! {"detail":1} :: detail: a text is wanted
"#;

const COMPLETION_TEXT_EDIT: &str = r#"
{"newText":"newText","range":{"end":{"character":29,"line":85},"start":{"character":29,"line":85}}} :: Edit(TextEdit { range: Range { start: Position { line: 85, character: 29 }, end: Position { line: 85, character: 29 } }, new_text: "newText" })
{"insert":{"end":{"character":29,"line":85},"start":{"character":29,"line":85}},"newText":"newText","replace":{"end":{"character":29,"line":85},"start":{"character":29,"line":85}}} :: InsertAndReplace(InsertReplaceEdit { new_text: "newText", insert: Range { start: Position { line: 85, character: 29 }, end: Position { line: 85, character: 29 } }, replace: Range { start: Position { line: 85, character: 29 }, end: Position { line: 85, character: 29 } } })
! false :: one of its forms is wanted
"#;

const INSERT_REPLACE_EDIT: &str = r#"
{"insert":{"end":{"character":29,"line":85},"start":{"character":29,"line":85}},"newText":"newText","replace":{"end":{"character":29,"line":85},"start":{"character":29,"line":86}}} :: InsertReplaceEdit { new_text: "newText", insert: Range { start: Position { line: 85, character: 29 }, end: Position { line: 85, character: 29 } }, replace: Range { start: Position { line: 86, character: 29 }, end: Position { line: 85, character: 29 } } }
? newText insert replace
! {"insert":{"end":{"character":29,"line":85},"start":{"character":29,"line":85}},"replace":{"end":{"character":29,"line":85},"start":{"character":29,"line":85}}} :: newText: is missing
"#;

const CODE_ACTION_PARAMS: &str = r#"
{"context":{"diagnostics":[{"message":"message","range":{"end":{"character":29,"line":85},"start":{"character":29,"line":85}}}]},"partialResultToken":89,"range":{"end":{"character":29,"line":85},"start":{"character":29,"line":85}},"textDocument":{"uri":"file:///uri"},"workDoneToken":71} :: CodeActionParams { text_document: TextDocumentIdentifier { uri: Uri { text: "file:///uri" } }, range: Range { start: Position { line: 85, character: 29 }, end: Position { line: 85, character: 29 } }, context: CodeActionContext { diagnostics: [Diagnostic { range: Range { start: Position { line: 85, character: 29 }, end: Position { line: 85, character: 29 } }, severity: None, code: None, code_description: None, source: None, message: "message", related_information: None, tags: None, payload: None }], only: None, trigger_kind: None }, work_done_progress_params: WorkDoneProgressParams { work_done_token: Some(Number(71)) }, partial_result_params: PartialResultParams { partial_result_token: Some(Number(89)) } }
? textDocument range context
! {"context":{"diagnostics":[{"message":"message","range":{"end":{"character":29,"line":85},"start":{"character":29,"line":85}}}]},"partialResultToken":89,"range":{"end":{"character":29,"line":85},"start":{"character":29,"line":85}},"workDoneToken":71} :: textDocument: is missing
# Visual Studio Code
{"context":{"diagnostics":[],"only":["quickfix"],"triggerKind":1},"range":{"end":{"character":4,"line":3},"start":{"character":2,"line":1}},"textDocument":{"uri":"file:///w/a.rs"}}
"#;

const CODE_ACTION_CONTEXT: &str = r#"
{"diagnostics":[{"message":"message","range":{"end":{"character":29,"line":85},"start":{"character":29,"line":85}}}],"only":["only"],"triggerKind":145} :: CodeActionContext { diagnostics: [Diagnostic { range: Range { start: Position { line: 85, character: 29 }, end: Position { line: 85, character: 29 } }, severity: None, code: None, code_description: None, source: None, message: "message", related_information: None, tags: None, payload: None }], only: Some([CodeActionKind("only")]), trigger_kind: Some(CodeActionTriggerKind(145)) }
? diagnostics
! {} :: diagnostics: is missing
"#;

const CODE_ACTION_OR_COMMAND: &str = r#"
{"command":"command","title":"title"} :: Command(Command { title: "title", command: "command", arguments: None })
{"title":"title"} :: CodeAction(CodeAction { title: "title", kind: None, diagnostics: None, edit: None, command: None, is_preferred: None, disabled: None, payload: None })
! false :: one of its forms is wanted
# clangd 14.0.6
{"command":{"arguments":[{"file":"file:///tmp/td_rec/src/main.cpp","selection":{"end":{"character":6,"line":12},"start":{"character":2,"line":12}},"tweakID":"ExpandAutoType"}],"command":"clangd.applyTweak","title":"Expand auto type"},"kind":"refactor","title":"Expand auto type"}
"#;

const CODE_ACTION: &str = r#"
{"command":{"command":"command","title":"title"},"data":63,"diagnostics":[{"message":"message","range":{"end":{"character":29,"line":85},"start":{"character":29,"line":85}}}],"disabled":{"reason":"reason"},"edit":{"changes":{"file:///changes":[{"newText":"newText","range":{"end":{"character":29,"line":85},"start":{"character":29,"line":85}}}]}},"isPreferred":true,"kind":"kind","title":"title"} :: CodeAction { title: "title", kind: Some(CodeActionKind("kind")), diagnostics: Some([Diagnostic { range: Range { start: Position { line: 85, character: 29 }, end: Position { line: 85, character: 29 } }, severity: None, code: None, code_description: None, source: None, message: "message", related_information: None, tags: None, payload: None }]), edit: Some(WorkspaceEdit { changes: Some({Uri { text: "file:///changes" }: [TextEdit { range: Range { start: Position { line: 85, character: 29 }, end: Position { line: 85, character: 29 } }, new_text: "newText" }]}), document_changes: None, change_annotations: None }), command: Some(Command { title: "title", command: "command", arguments: None }), is_preferred: Some(true), disabled: Some(CodeActionDisabled { reason: "reason" }), payload: Some(Number(63)) }
? title
! {} :: title: is missing
# gopls
{"edit":{"documentChanges":[{"edits":[{"newText":"","range":{"end":{"character":0,"line":4},"start":{"character":0,"line":3}}}],"textDocument":{"uri":"file:///w/main.go","version":2}}]},"kind":"source.organizeImports","title":"Organize Imports"}
# rust-analyzer
{"data":{"codeActionParams":{"context":{"diagnostics":[]}},"id":"add_missing_impl_members:QuickFix:0"},"group":"None","kind":"quickfix","title":"Implement missing members"} => {"data":{"codeActionParams":{"context":{"diagnostics":[]}},"id":"add_missing_impl_members:QuickFix:0"},"kind":"quickfix","title":"Implement missing members"}
"#;

const CODE_ACTION_DISABLED: &str = r#"
{"reason":"reason"} :: CodeActionDisabled { reason: "reason" }
? reason
! {} :: reason: is missing
"#;

const INLAY_HINT_PARAMS: &str = r#"
{"range":{"end":{"character":29,"line":85},"start":{"character":29,"line":85}},"textDocument":{"uri":"file:///uri"},"workDoneToken":71} :: InlayHintParams { work_done_progress_params: WorkDoneProgressParams { work_done_token: Some(Number(71)) }, text_document: TextDocumentIdentifier { uri: Uri { text: "file:///uri" } }, range: Range { start: Position { line: 85, character: 29 }, end: Position { line: 85, character: 29 } } }
? textDocument range
! {"range":{"end":{"character":29,"line":85},"start":{"character":29,"line":85}},"workDoneToken":71} :: textDocument: is missing
"#;

const INLAY_HINT: &str = r#"
{"data":63,"kind":130,"label":"label","paddingLeft":true,"paddingRight":false,"position":{"character":29,"line":85},"textEdits":[{"newText":"newText","range":{"end":{"character":29,"line":85},"start":{"character":29,"line":85}}}],"tooltip":"tooltip"} :: InlayHint { position: Position { line: 85, character: 29 }, label: String("label"), kind: Some(InlayHintKind(130)), text_edits: Some([TextEdit { range: Range { start: Position { line: 85, character: 29 }, end: Position { line: 85, character: 29 } }, new_text: "newText" }]), tooltip: Some(String("tooltip")), padding_left: Some(true), padding_right: Some(false), payload: Some(Number(63)) }
? position label
! {"label":"label"} :: position: is missing
# gopls
{"kind":2,"label":[{"value":"a:"}],"paddingRight":true,"position":{"character":9,"line":6}}
# rust-analyzer
{"data":{"file_id":0,"hash":"7","resolve_range":{"end":{"character":9,"line":1},"start":{"character":8,"line":1}},"version":1},"kind":1,"label":[{"value":": "},{"location":{"range":{"end":{"character":1,"line":9},"start":{"character":0,"line":4}},"uri":"file:///w/vec.rs"},"value":"Vec"},{"value":"<i32>"}],"paddingLeft":false,"paddingRight":false,"position":{"character":9,"line":1}}
"#;

const INLAY_HINT_LABEL: &str = r#"
"inlay_hint_label" :: String("inlay_hint_label")
[{"value":"value"}] :: LabelParts([InlayHintLabelPart { value: "value", tooltip: None, location: None, command: None }])
! false :: one of its forms is wanted
"#;

const INLAY_HINT_TOOLTIP: &str = r#"
"inlay_hint_tooltip" :: String("inlay_hint_tooltip")
{"kind":"plaintext","value":"value"} :: MarkupContent(MarkupContent { kind: PlainText, value: "value" })
! false :: one of its forms is wanted
"#;

const INLAY_HINT_LABEL_PART: &str = r#"
{"command":{"command":"command","title":"title"},"location":{"range":{"end":{"character":29,"line":85},"start":{"character":29,"line":85}},"uri":"file:///uri"},"tooltip":"tooltip","value":"value"} :: InlayHintLabelPart { value: "value", tooltip: Some(String("tooltip")), location: Some(Location { uri: Uri { text: "file:///uri" }, range: Range { start: Position { line: 85, character: 29 }, end: Position { line: 85, character: 29 } } }), command: Some(Command { title: "title", command: "command", arguments: None }) }
? value
! {} :: value: is missing
"#;

const INLAY_HINT_LABEL_PART_TOOLTIP: &str = r#"
"inlay_hint_label_part_tooltip" :: String("inlay_hint_label_part_tooltip")
{"kind":"plaintext","value":"value"} :: MarkupContent(MarkupContent { kind: PlainText, value: "value" })
! false :: one of its forms is wanted
"#;

const INLINE_VALUE_PARAMS: &str = r#"
{"context":{"frameId":84,"stoppedLocation":{"end":{"character":29,"line":85},"start":{"character":29,"line":85}}},"range":{"end":{"character":29,"line":85},"start":{"character":29,"line":85}},"textDocument":{"uri":"file:///uri"},"workDoneToken":71} :: InlineValueParams { work_done_progress_params: WorkDoneProgressParams { work_done_token: Some(Number(71)) }, text_document: TextDocumentIdentifier { uri: Uri { text: "file:///uri" } }, range: Range { start: Position { line: 85, character: 29 }, end: Position { line: 85, character: 29 } }, context: InlineValueContext { frame_id: 84, stopped_location: Range { start: Position { line: 85, character: 29 }, end: Position { line: 85, character: 29 } } } }
? textDocument range context
! {"context":{"frameId":84,"stoppedLocation":{"end":{"character":29,"line":85},"start":{"character":29,"line":85}}},"range":{"end":{"character":29,"line":85},"start":{"character":29,"line":85}},"workDoneToken":71} :: textDocument: is missing
"#;

const INLINE_VALUE_CONTEXT: &str = r#"
{"frameId":84,"stoppedLocation":{"end":{"character":29,"line":85},"start":{"character":29,"line":85}}} :: InlineValueContext { frame_id: 84, stopped_location: Range { start: Position { line: 85, character: 29 }, end: Position { line: 85, character: 29 } } }
? frameId stoppedLocation
! {"stoppedLocation":{"end":{"character":29,"line":85},"start":{"character":29,"line":85}}} :: frameId: is missing
"#;

const INLINE_VALUE: &str = r#"
{"range":{"end":{"character":29,"line":85},"start":{"character":29,"line":85}},"text":"text"} :: Text(InlineValueText { range: Range { start: Position { line: 85, character: 29 }, end: Position { line: 85, character: 29 } }, text: "text" })
{"caseSensitiveLookup":true,"range":{"end":{"character":29,"line":85},"start":{"character":29,"line":85}}} :: VariableLookup(InlineValueVariableLookup { range: Range { start: Position { line: 85, character: 29 }, end: Position { line: 85, character: 29 } }, variable_name: None, case_sensitive_lookup: true })
{"range":{"end":{"character":29,"line":85},"start":{"character":29,"line":85}}} :: EvaluatableExpression(InlineValueEvaluatableExpression { range: Range { start: Position { line: 85, character: 29 }, end: Position { line: 85, character: 29 } }, expression: None })
! false :: one of its forms is wanted
"#;

const INLINE_VALUE_TEXT: &str = r#"
{"range":{"end":{"character":29,"line":85},"start":{"character":29,"line":85}},"text":"text"} :: InlineValueText { range: Range { start: Position { line: 85, character: 29 }, end: Position { line: 85, character: 29 } }, text: "text" }
? range text
! {"text":"text"} :: range: is missing
"#;

const INLINE_VALUE_VARIABLE_LOOKUP: &str = r#"
{"caseSensitiveLookup":true,"range":{"end":{"character":29,"line":85},"start":{"character":29,"line":85}},"variableName":"variableName"} :: InlineValueVariableLookup { range: Range { start: Position { line: 85, character: 29 }, end: Position { line: 85, character: 29 } }, variable_name: Some("variableName"), case_sensitive_lookup: true }
? range caseSensitiveLookup
! {"caseSensitiveLookup":true} :: range: is missing
"#;

const INLINE_VALUE_EVALUATABLE_EXPRESSION: &str = r#"
{"expression":"expression","range":{"end":{"character":29,"line":85},"start":{"character":29,"line":85}}} :: InlineValueEvaluatableExpression { range: Range { start: Position { line: 85, character: 29 }, end: Position { line: 85, character: 29 } }, expression: Some("expression") }
? range
! {} :: range: is missing
"#;

const RENAME_PARAMS: &str = r#"
{"newName":"newName","position":{"character":29,"line":85},"textDocument":{"uri":"file:///uri"},"workDoneToken":71} :: RenameParams { text_document_position: TextDocumentPositionParams { text_document: TextDocumentIdentifier { uri: Uri { text: "file:///uri" } }, position: Position { line: 85, character: 29 } }, new_name: "newName", work_done_progress_params: WorkDoneProgressParams { work_done_token: Some(Number(71)) } }
? textDocument position newName
! {"position":{"character":29,"line":85},"textDocument":{"uri":"file:///uri"},"workDoneToken":71} :: newName: is missing
"#;

const PREPARE_RENAME_RESPONSE: &str = r#"
{"end":{"character":29,"line":85},"start":{"character":29,"line":85}} :: Range(Range { start: Position { line: 85, character: 29 }, end: Position { line: 85, character: 29 } })
{"placeholder":"placeholder","range":{"end":{"character":29,"line":85},"start":{"character":29,"line":85}}} :: RangeWithPlaceholder { range: Range { start: Position { line: 85, character: 29 }, end: Position { line: 85, character: 29 } }, placeholder: "placeholder" }
{"defaultBehavior":true} :: DefaultBehavior { default_behavior: true }
! false :: one of its forms is wanted
# clangd 14.0.6
{"end":{"character":18,"line":12},"start":{"character":13,"line":12}}
# gopls
{"placeholder":"main","range":{"end":{"character":9,"line":5},"start":{"character":5,"line":5}}}
"#;

#[test]
fn rows_1(rt: HostRuntime) -> Result<(), RowError> {
    let mut trial = Trial::new(rt.alloc());
    trial.holds::<CompletionParams>(COMPLETION_PARAMS);
    trial.holds::<CompletionContext>(COMPLETION_CONTEXT);
    trial.holds::<CompletionResponse>(COMPLETION_RESPONSE);
    trial.holds::<CompletionList>(COMPLETION_LIST);
    trial.holds::<CompletionItem>(COMPLETION_ITEM);
    trial.clones::<CompletionItem>(COMPLETION_ITEM);
    trial.holds::<CompletionItemLabelDetails>(COMPLETION_ITEM_LABEL_DETAILS);
    trial.holds::<CompletionTextEdit>(COMPLETION_TEXT_EDIT);
    trial.holds::<InsertReplaceEdit>(INSERT_REPLACE_EDIT);
    trial.holds::<CodeActionParams>(CODE_ACTION_PARAMS);
    trial.holds::<CodeActionContext>(CODE_ACTION_CONTEXT);
    trial.holds::<CodeActionOrCommand>(CODE_ACTION_OR_COMMAND);
    trial.holds::<CodeAction>(CODE_ACTION);
    trial.clones::<CodeAction>(CODE_ACTION);
    trial.end()
}

#[test]
fn rows_2(rt: HostRuntime) -> Result<(), RowError> {
    let mut trial = Trial::new(rt.alloc());
    trial.holds::<CodeActionDisabled>(CODE_ACTION_DISABLED);
    trial.holds::<InlayHintParams>(INLAY_HINT_PARAMS);
    trial.holds::<InlayHint>(INLAY_HINT);
    trial.clones::<InlayHint>(INLAY_HINT);
    trial.holds::<InlayHintLabel>(INLAY_HINT_LABEL);
    trial.holds::<InlayHintTooltip>(INLAY_HINT_TOOLTIP);
    trial.holds::<InlayHintLabelPart>(INLAY_HINT_LABEL_PART);
    trial.clones::<InlayHintLabelPart>(INLAY_HINT_LABEL_PART);
    trial.holds::<InlayHintLabelPartTooltip>(INLAY_HINT_LABEL_PART_TOOLTIP);
    trial.holds::<InlineValueParams>(INLINE_VALUE_PARAMS);
    trial.holds::<InlineValueContext>(INLINE_VALUE_CONTEXT);
    trial.holds::<InlineValue>(INLINE_VALUE);
    trial.holds::<InlineValueText>(INLINE_VALUE_TEXT);
    trial.holds::<InlineValueVariableLookup>(INLINE_VALUE_VARIABLE_LOOKUP);
    trial.end()
}

#[test]
fn rows_3(rt: HostRuntime) -> Result<(), RowError> {
    let mut trial = Trial::new(rt.alloc());
    trial.holds::<InlineValueEvaluatableExpression>(INLINE_VALUE_EVALUATABLE_EXPRESSION);
    trial.holds::<RenameParams>(RENAME_PARAMS);
    trial.holds::<PrepareRenameResponse>(PREPARE_RENAME_RESPONSE);
    trial.end()
}

#[test]
fn defaults(rt: HostRuntime) -> Result<(), RowError> {
    let alloc = rt.alloc();
    let mut trial = Trial::new(alloc);
    trial.is_written(
        CompletionList::default(alloc),
        r#"{"isIncomplete":false,"items":[]}"#,
    );
    trial.is_written(CompletionItem::default(alloc), r#"{"label":""}"#);
    trial.default::<CompletionItemLabelDetails>(r#"{}"#);
    trial.is_written(
        InsertReplaceEdit::default(alloc),
        r#"{"insert":{"end":{"character":0,"line":0},"start":{"character":0,"line":0}},"newText":"","replace":{"end":{"character":0,"line":0},"start":{"character":0,"line":0}}}"#,
    );
    trial.is_written(CodeActionContext::default(alloc), r#"{"diagnostics":[]}"#);
    trial.is_written(CodeAction::default(alloc), r#"{"title":""}"#);
    trial.is_written(CodeActionDisabled::default(alloc), r#"{"reason":""}"#);
    trial.is_written(InlayHintLabelPart::default(alloc), r#"{"value":""}"#);
    trial.default::<InlineValueContext>(
        r#"{"frameId":0,"stoppedLocation":{"end":{"character":0,"line":0},"start":{"character":0,"line":0}}}"#,
    );
    trial.is_written(
        InlineValueText::default(alloc),
        r#"{"range":{"end":{"character":0,"line":0},"start":{"character":0,"line":0}},"text":""}"#,
    );
    trial.default::<InlineValueVariableLookup>(
        r#"{"caseSensitiveLookup":false,"range":{"end":{"character":0,"line":0},"start":{"character":0,"line":0}}}"#,
    );
    trial.default::<InlineValueEvaluatableExpression>(
        r#"{"range":{"end":{"character":0,"line":0},"start":{"character":0,"line":0}}}"#,
    );
    trial.end()
}
