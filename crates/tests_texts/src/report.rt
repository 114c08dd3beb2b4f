// The rows of lsp_report.
use lsp_report::{
    DiagnosticServerCancellationData, DidChangeNotebookDocumentParams,
    DidCloseNotebookDocumentParams, DidOpenNotebookDocumentParams, DidSaveNotebookDocumentParams,
    DocumentDiagnosticParams, DocumentDiagnosticReport, DocumentDiagnosticReportKind,
    DocumentDiagnosticReportPartialResult, DocumentDiagnosticReportResult, ExecutionSummary,
    FullDocumentDiagnosticReport, NotebookCell, NotebookCellArrayChange, NotebookDocument,
    NotebookDocumentCellChange, NotebookDocumentCellChangeStructure, NotebookDocumentChangeEvent,
    NotebookDocumentChangeTextContent, NotebookDocumentIdentifier, PreviousResultId,
    RelatedFullDocumentDiagnosticReport, RelatedUnchangedDocumentDiagnosticReport,
    UnchangedDocumentDiagnosticReport, VersionedNotebookDocumentIdentifier,
    WorkspaceDiagnosticParams, WorkspaceDiagnosticReport, WorkspaceDiagnosticReportPartialResult,
    WorkspaceDiagnosticReportResult, WorkspaceDocumentDiagnosticReport,
    WorkspaceFullDocumentDiagnosticReport, WorkspaceUnchangedDocumentDiagnosticReport,
};
use lsp_rows::{RowError, Trial};

const DOCUMENT_DIAGNOSTIC_PARAMS: &str = r#"
{"identifier":"identifier","partialResultToken":89,"previousResultId":"previousResultId","textDocument":{"uri":"file:///uri"},"workDoneToken":71} :: DocumentDiagnosticParams { text_document: TextDocumentIdentifier { uri: Uri { text: "file:///uri" } }, identifier: Some("identifier"), previous_result_id: Some("previousResultId"), work_done_progress_params: WorkDoneProgressParams { work_done_token: Some(Number(71)) }, partial_result_params: PartialResultParams { partial_result_token: Some(Number(89)) } }
? textDocument identifier=null previousResultId=null
! {"identifier":null,"partialResultToken":89,"previousResultId":null,"workDoneToken":71} :: textDocument: is missing
"#;

const DOCUMENT_DIAGNOSTIC_REPORT_RESULT: &str = r#"
{"items":[{"message":"message","range":{"end":{"character":29,"line":85},"start":{"character":29,"line":85}}}],"kind":"full","relatedDocuments":{"file:///relatedDocuments":{"items":[{"message":"message","range":{"end":{"character":29,"line":85},"start":{"character":29,"line":85}}}],"kind":"full","resultId":"resultId"}},"resultId":"resultId"} :: Report(Full(RelatedFullDocumentDiagnosticReport { related_documents: Some({Uri { text: "file:///relatedDocuments" }: Full(FullDocumentDiagnosticReport { result_id: Some("resultId"), items: [Diagnostic { range: Range { start: Position { line: 85, character: 29 }, end: Position { line: 85, character: 29 } }, severity: None, code: None, code_description: None, source: None, message: "message", related_information: None, tags: None, payload: None }] })}), full_document_diagnostic_report: FullDocumentDiagnosticReport { result_id: Some("resultId"), items: [Diagnostic { range: Range { start: Position { line: 85, character: 29 }, end: Position { line: 85, character: 29 } }, severity: None, code: None, code_description: None, source: None, message: "message", related_information: None, tags: None, payload: None }] } }))
{"relatedDocuments":{"file:///relatedDocuments":{"items":[{"message":"message","range":{"end":{"character":29,"line":85},"start":{"character":29,"line":85}}}],"kind":"full","resultId":"resultId"}}} :: Partial(DocumentDiagnosticReportPartialResult { related_documents: Some({Uri { text: "file:///relatedDocuments" }: Full(FullDocumentDiagnosticReport { result_id: Some("resultId"), items: [Diagnostic { range: Range { start: Position { line: 85, character: 29 }, end: Position { line: 85, character: 29 } }, severity: None, code: None, code_description: None, source: None, message: "message", related_information: None, tags: None, payload: None }] })}) })
! false :: one of its forms is wanted
# rust-analyzer
{"items":[],"kind":"full","resultId":"rust-analyzer"}
"#;

const DOCUMENT_DIAGNOSTIC_REPORT: &str = r#"
{"items":[{"message":"message","range":{"end":{"character":29,"line":85},"start":{"character":29,"line":85}}}],"kind":"full","relatedDocuments":{"file:///relatedDocuments":{"items":[{"message":"message","range":{"end":{"character":29,"line":85},"start":{"character":29,"line":85}}}],"kind":"full","resultId":"resultId"}},"resultId":"resultId"} :: Full(RelatedFullDocumentDiagnosticReport { related_documents: Some({Uri { text: "file:///relatedDocuments" }: Full(FullDocumentDiagnosticReport { result_id: Some("resultId"), items: [Diagnostic { range: Range { start: Position { line: 85, character: 29 }, end: Position { line: 85, character: 29 } }, severity: None, code: None, code_description: None, source: None, message: "message", related_information: None, tags: None, payload: None }] })}), full_document_diagnostic_report: FullDocumentDiagnosticReport { result_id: Some("resultId"), items: [Diagnostic { range: Range { start: Position { line: 85, character: 29 }, end: Position { line: 85, character: 29 } }, severity: None, code: None, code_description: None, source: None, message: "message", related_information: None, tags: None, payload: None }] } })
{"kind":"unchanged","relatedDocuments":{"file:///relatedDocuments":{"items":[{"message":"message","range":{"end":{"character":29,"line":85},"start":{"character":29,"line":85}}}],"kind":"full","resultId":"resultId"}},"resultId":"resultId"} :: Unchanged(RelatedUnchangedDocumentDiagnosticReport { related_documents: Some({Uri { text: "file:///relatedDocuments" }: Full(FullDocumentDiagnosticReport { result_id: Some("resultId"), items: [Diagnostic { range: Range { start: Position { line: 85, character: 29 }, end: Position { line: 85, character: 29 } }, severity: None, code: None, code_description: None, source: None, message: "message", related_information: None, tags: None, payload: None }] })}), unchanged_document_diagnostic_report: UnchangedDocumentDiagnosticReport { result_id: "resultId" } })
! {"kind":"no"} :: one of its forms is wanted
"#;

const DOCUMENT_DIAGNOSTIC_REPORT_KIND: &str = r#"
{"items":[{"message":"message","range":{"end":{"character":29,"line":85},"start":{"character":29,"line":85}}}],"kind":"full","resultId":"resultId"} :: Full(FullDocumentDiagnosticReport { result_id: Some("resultId"), items: [Diagnostic { range: Range { start: Position { line: 85, character: 29 }, end: Position { line: 85, character: 29 } }, severity: None, code: None, code_description: None, source: None, message: "message", related_information: None, tags: None, payload: None }] })
{"kind":"unchanged","resultId":"resultId"} :: Unchanged(UnchangedDocumentDiagnosticReport { result_id: "resultId" })
! {"kind":"no"} :: one of its forms is wanted
"#;

const RELATED_FULL_DOCUMENT_DIAGNOSTIC_REPORT: &str = r#"
{"items":[{"message":"message","range":{"end":{"character":29,"line":85},"start":{"character":29,"line":85}}}],"relatedDocuments":{"file:///relatedDocuments":{"items":[{"message":"message","range":{"end":{"character":29,"line":85},"start":{"character":29,"line":85}}}],"kind":"full","resultId":"resultId"}},"resultId":"resultId"} :: RelatedFullDocumentDiagnosticReport { related_documents: Some({Uri { text: "file:///relatedDocuments" }: Full(FullDocumentDiagnosticReport { result_id: Some("resultId"), items: [Diagnostic { range: Range { start: Position { line: 85, character: 29 }, end: Position { line: 85, character: 29 } }, severity: None, code: None, code_description: None, source: None, message: "message", related_information: None, tags: None, payload: None }] })}), full_document_diagnostic_report: FullDocumentDiagnosticReport { result_id: Some("resultId"), items: [Diagnostic { range: Range { start: Position { line: 85, character: 29 }, end: Position { line: 85, character: 29 } }, severity: None, code: None, code_description: None, source: None, message: "message", related_information: None, tags: None, payload: None }] } }
? items
! {"relatedDocuments":"no"} :: relatedDocuments: an object is wanted
"#;

const RELATED_UNCHANGED_DOCUMENT_DIAGNOSTIC_REPORT: &str = r#"
{"relatedDocuments":{"file:///relatedDocuments":{"items":[{"message":"message","range":{"end":{"character":29,"line":85},"start":{"character":29,"line":85}}}],"kind":"full","resultId":"resultId"}},"resultId":"resultId"} :: RelatedUnchangedDocumentDiagnosticReport { related_documents: Some({Uri { text: "file:///relatedDocuments" }: Full(FullDocumentDiagnosticReport { result_id: Some("resultId"), items: [Diagnostic { range: Range { start: Position { line: 85, character: 29 }, end: Position { line: 85, character: 29 } }, severity: None, code: None, code_description: None, source: None, message: "message", related_information: None, tags: None, payload: None }] })}), unchanged_document_diagnostic_report: UnchangedDocumentDiagnosticReport { result_id: "resultId" } }
? resultId
! {"relatedDocuments":"no"} :: relatedDocuments: an object is wanted
"#;

const FULL_DOCUMENT_DIAGNOSTIC_REPORT: &str = r#"
{"items":[{"message":"message","range":{"end":{"character":29,"line":85},"start":{"character":29,"line":85}}}],"resultId":"resultId"} :: FullDocumentDiagnosticReport { result_id: Some("resultId"), items: [Diagnostic { range: Range { start: Position { line: 85, character: 29 }, end: Position { line: 85, character: 29 } }, severity: None, code: None, code_description: None, source: None, message: "message", related_information: None, tags: None, payload: None }] }
? items
! {"resultId":"resultId"} :: items: is missing
"#;

const UNCHANGED_DOCUMENT_DIAGNOSTIC_REPORT: &str = r#"
{"resultId":"resultId"} :: UnchangedDocumentDiagnosticReport { result_id: "resultId" }
? resultId
! {} :: resultId: is missing
"#;

const DOCUMENT_DIAGNOSTIC_REPORT_PARTIAL_RESULT: &str = r#"
{"relatedDocuments":{"file:///relatedDocuments":{"items":[{"message":"message","range":{"end":{"character":29,"line":85},"start":{"character":29,"line":85}}}],"kind":"full","resultId":"resultId"}}} :: DocumentDiagnosticReportPartialResult { related_documents: Some({Uri { text: "file:///relatedDocuments" }: Full(FullDocumentDiagnosticReport { result_id: Some("resultId"), items: [Diagnostic { range: Range { start: Position { line: 85, character: 29 }, end: Position { line: 85, character: 29 } }, severity: None, code: None, code_description: None, source: None, message: "message", related_information: None, tags: None, payload: None }] })}) }
?
! {"relatedDocuments":"no"} :: relatedDocuments: an object is wanted
"#;

const WORKSPACE_DIAGNOSTIC_PARAMS: &str = r#"
{"identifier":"identifier","partialResultToken":89,"previousResultIds":[{"uri":"file:///uri","value":"value"}],"workDoneToken":71} :: WorkspaceDiagnosticParams { identifier: Some("identifier"), previous_result_ids: [PreviousResultId { uri: Uri { text: "file:///uri" }, value: "value" }], work_done_progress_params: WorkDoneProgressParams { work_done_token: Some(Number(71)) }, partial_result_params: PartialResultParams { partial_result_token: Some(Number(89)) } }
? previousResultIds identifier=null
! {"identifier":"identifier","partialResultToken":89,"workDoneToken":71} :: previousResultIds: is missing
"#;

const PREVIOUS_RESULT_ID: &str = r#"
{"uri":"file:///uri","value":"value"} :: PreviousResultId { uri: Uri { text: "file:///uri" }, value: "value" }
? uri value
! {"value":"value"} :: uri: is missing
"#;

const WORKSPACE_DIAGNOSTIC_REPORT_RESULT: &str = r#"
{"items":[{"items":[{"message":"message","range":{"end":{"character":29,"line":85},"start":{"character":29,"line":85}}}],"kind":"full","resultId":"resultId","uri":"file:///uri","version":null}]} :: Report(WorkspaceDiagnosticReport { items: [Full(WorkspaceFullDocumentDiagnosticReport { uri: Uri { text: "file:///uri" }, version: None, full_document_diagnostic_report: FullDocumentDiagnosticReport { result_id: Some("resultId"), items: [Diagnostic { range: Range { start: Position { line: 85, character: 29 }, end: Position { line: 85, character: 29 } }, severity: None, code: None, code_description: None, source: None, message: "message", related_information: None, tags: None, payload: None }] } })] })
{"items":[{"items":[{"message":"message","range":{"end":{"character":29,"line":85},"start":{"character":29,"line":85}}}],"kind":"full","resultId":"resultId","uri":"file:///uri","version":null}]} :: Report(WorkspaceDiagnosticReport { items: [Full(WorkspaceFullDocumentDiagnosticReport { uri: Uri { text: "file:///uri" }, version: None, full_document_diagnostic_report: FullDocumentDiagnosticReport { result_id: Some("resultId"), items: [Diagnostic { range: Range { start: Position { line: 85, character: 29 }, end: Position { line: 85, character: 29 } }, severity: None, code: None, code_description: None, source: None, message: "message", related_information: None, tags: None, payload: None }] } })] })
! false :: one of its forms is wanted
"#;

const WORKSPACE_DIAGNOSTIC_REPORT: &str = r#"
{"items":[{"items":[{"message":"message","range":{"end":{"character":29,"line":85},"start":{"character":29,"line":85}}}],"kind":"full","resultId":"resultId","uri":"file:///uri","version":null}]} :: WorkspaceDiagnosticReport { items: [Full(WorkspaceFullDocumentDiagnosticReport { uri: Uri { text: "file:///uri" }, version: None, full_document_diagnostic_report: FullDocumentDiagnosticReport { result_id: Some("resultId"), items: [Diagnostic { range: Range { start: Position { line: 85, character: 29 }, end: Position { line: 85, character: 29 } }, severity: None, code: None, code_description: None, source: None, message: "message", related_information: None, tags: None, payload: None }] } })] }
? items
! {} :: items: is missing
"#;

const WORKSPACE_DOCUMENT_DIAGNOSTIC_REPORT: &str = r#"
{"items":[{"message":"message","range":{"end":{"character":29,"line":85},"start":{"character":29,"line":85}}}],"kind":"full","resultId":"resultId","uri":"file:///uri","version":null} :: Full(WorkspaceFullDocumentDiagnosticReport { uri: Uri { text: "file:///uri" }, version: None, full_document_diagnostic_report: FullDocumentDiagnosticReport { result_id: Some("resultId"), items: [Diagnostic { range: Range { start: Position { line: 85, character: 29 }, end: Position { line: 85, character: 29 } }, severity: None, code: None, code_description: None, source: None, message: "message", related_information: None, tags: None, payload: None }] } })
{"kind":"unchanged","resultId":"resultId","uri":"file:///uri","version":null} :: Unchanged(WorkspaceUnchangedDocumentDiagnosticReport { uri: Uri { text: "file:///uri" }, version: None, unchanged_document_diagnostic_report: UnchangedDocumentDiagnosticReport { result_id: "resultId" } })
! {"kind":"no"} :: one of its forms is wanted
"#;

const WORKSPACE_FULL_DOCUMENT_DIAGNOSTIC_REPORT: &str = r#"
{"items":[{"message":"message","range":{"end":{"character":29,"line":85},"start":{"character":29,"line":85}}}],"resultId":"resultId","uri":"file:///uri","version":79} :: WorkspaceFullDocumentDiagnosticReport { uri: Uri { text: "file:///uri" }, version: Some(79), full_document_diagnostic_report: FullDocumentDiagnosticReport { result_id: Some("resultId"), items: [Diagnostic { range: Range { start: Position { line: 85, character: 29 }, end: Position { line: 85, character: 29 } }, severity: None, code: None, code_description: None, source: None, message: "message", related_information: None, tags: None, payload: None }] } }
? uri items version=null
! {"items":[{"message":"message","range":{"end":{"character":29,"line":85},"start":{"character":29,"line":85}}}],"resultId":"resultId","version":null} :: uri: is missing
"#;

const WORKSPACE_UNCHANGED_DOCUMENT_DIAGNOSTIC_REPORT: &str = r#"
{"resultId":"resultId","uri":"file:///uri","version":79} :: WorkspaceUnchangedDocumentDiagnosticReport { uri: Uri { text: "file:///uri" }, version: Some(79), unchanged_document_diagnostic_report: UnchangedDocumentDiagnosticReport { result_id: "resultId" } }
? uri resultId version=null
! {"resultId":"resultId","version":null} :: uri: is missing
"#;

const WORKSPACE_DIAGNOSTIC_REPORT_PARTIAL_RESULT: &str = r#"
{"items":[{"items":[{"message":"message","range":{"end":{"character":29,"line":85},"start":{"character":29,"line":85}}}],"kind":"full","resultId":"resultId","uri":"file:///uri","version":null}]} :: WorkspaceDiagnosticReportPartialResult { items: [Full(WorkspaceFullDocumentDiagnosticReport { uri: Uri { text: "file:///uri" }, version: None, full_document_diagnostic_report: FullDocumentDiagnosticReport { result_id: Some("resultId"), items: [Diagnostic { range: Range { start: Position { line: 85, character: 29 }, end: Position { line: 85, character: 29 } }, severity: None, code: None, code_description: None, source: None, message: "message", related_information: None, tags: None, payload: None }] } })] }
? items
! {} :: items: is missing
"#;

const DIAGNOSTIC_SERVER_CANCELLATION_DATA: &str = r#"
{"retriggerRequest":true} :: DiagnosticServerCancellationData { retrigger_request: true }
? retriggerRequest
! {} :: retriggerRequest: is missing
"#;

const NOTEBOOK_DOCUMENT: &str = r#"
{"cells":[{"document":"file:///document","kind":1}],"metadata":{"metadata":34},"notebookType":"notebookType","uri":"file:///uri","version":79} :: NotebookDocument { uri: Uri { text: "file:///uri" }, notebook_type: "notebookType", version: 79, metadata: Some({"metadata": Number(34)}), cells: [NotebookCell { kind: Markup, document: Uri { text: "file:///document" }, metadata: None, execution_summary: None }] }
? uri notebookType version cells
! {"cells":[{"document":"file:///document","kind":1}],"notebookType":"notebookType","version":79} :: uri: is missing
"#;

const NOTEBOOK_CELL: &str = r#"
{"document":"file:///document","executionSummary":{"executionOrder":32},"kind":1,"metadata":{"metadata":34}} :: NotebookCell { kind: Markup, document: Uri { text: "file:///document" }, metadata: Some({"metadata": Number(34)}), execution_summary: Some(ExecutionSummary { execution_order: 32, success: None }) }
? kind document
! {"document":"file:///document"} :: kind: is missing
"#;

const EXECUTION_SUMMARY: &str = r#"
{"executionOrder":32,"success":true} :: ExecutionSummary { execution_order: 32, success: Some(true) }
? executionOrder
! {} :: executionOrder: is missing
"#;

const DID_OPEN_NOTEBOOK_DOCUMENT_PARAMS: &str = r#"
{"cellTextDocuments":[{"languageId":"languageId","text":"text","uri":"file:///uri","version":79}],"notebookDocument":{"cells":[{"document":"file:///document","kind":1}],"notebookType":"notebookType","uri":"file:///uri","version":79}} :: DidOpenNotebookDocumentParams { notebook_document: NotebookDocument { uri: Uri { text: "file:///uri" }, notebook_type: "notebookType", version: 79, metadata: None, cells: [NotebookCell { kind: Markup, document: Uri { text: "file:///document" }, metadata: None, execution_summary: None }] }, cell_text_documents: [TextDocumentItem { uri: Uri { text: "file:///uri" }, language_id: "languageId", version: 79, text: "text" }] }
? notebookDocument cellTextDocuments
! {"cellTextDocuments":[{"languageId":"languageId","text":"text","uri":"file:///uri","version":79}]} :: notebookDocument: is missing
# Visual Studio Code
{"cellTextDocuments":[{"languageId":"python","text":"1+1","uri":"vscode-notebook-cell:/w/n.ipynb#c1","version":1}],"notebookDocument":{"cells":[{"document":"vscode-notebook-cell:/w/n.ipynb#c1","kind":2}],"notebookType":"jupyter-notebook","uri":"file:///w/n.ipynb","version":1}}
"#;

const DID_CHANGE_NOTEBOOK_DOCUMENT_PARAMS: &str = r#"
{"change":{"metadata":{"metadata":34}},"notebookDocument":{"uri":"file:///uri","version":79}} :: DidChangeNotebookDocumentParams { notebook_document: VersionedNotebookDocumentIdentifier { version: 79, uri: Uri { text: "file:///uri" } }, change: NotebookDocumentChangeEvent { metadata: Some({"metadata": Number(34)}), cells: None } }
? notebookDocument change
! {"change":{"metadata":{"metadata":34}}} :: notebookDocument: is missing
"#;

const VERSIONED_NOTEBOOK_DOCUMENT_IDENTIFIER: &str = r#"
{"uri":"file:///uri","version":79} :: VersionedNotebookDocumentIdentifier { version: 79, uri: Uri { text: "file:///uri" } }
? version uri
! {"uri":"file:///uri"} :: version: is missing
"#;

const NOTEBOOK_DOCUMENT_CHANGE_EVENT: &str = r#"
{"cells":{"structure":{"array":{"deleteCount":21,"start":28}}},"metadata":{"metadata":34}} :: NotebookDocumentChangeEvent { metadata: Some({"metadata": Number(34)}), cells: Some(NotebookDocumentCellChange { structure: Some(NotebookDocumentCellChangeStructure { array: NotebookCellArrayChange { start: 28, delete_count: 21, cells: None }, did_open: None, did_close: None }), payload: None, text_content: None }) }
?
! {"metadata":true} :: metadata: an object is wanted
"#;

const NOTEBOOK_DOCUMENT_CELL_CHANGE: &str = r#"
{"data":[{"document":"file:///document","kind":1}],"structure":{"array":{"deleteCount":21,"start":28}},"textContent":[{"changes":[{"range":{"end":{"character":29,"line":85},"start":{"character":29,"line":85}},"text":"text"}],"document":{"uri":"file:///uri","version":79}}]} :: NotebookDocumentCellChange { structure: Some(NotebookDocumentCellChangeStructure { array: NotebookCellArrayChange { start: 28, delete_count: 21, cells: None }, did_open: None, did_close: None }), payload: Some([NotebookCell { kind: Markup, document: Uri { text: "file:///document" }, metadata: None, execution_summary: None }]), text_content: Some([NotebookDocumentChangeTextContent { document: VersionedTextDocumentIdentifier { uri: Uri { text: "file:///uri" }, version: 79 }, changes: [TextDocumentContentChangeEvent { range: Some(Range { start: Position { line: 85, character: 29 }, end: Position { line: 85, character: 29 } }), range_length: None, text: "text" }] }]) }
?
! {"structure":"no"} :: structure: an object is wanted
"#;

const NOTEBOOK_DOCUMENT_CHANGE_TEXT_CONTENT: &str = r#"
{"changes":[{"range":{"end":{"character":29,"line":85},"start":{"character":29,"line":85}},"text":"text"}],"document":{"uri":"file:///uri","version":79}} :: NotebookDocumentChangeTextContent { document: VersionedTextDocumentIdentifier { uri: Uri { text: "file:///uri" }, version: 79 }, changes: [TextDocumentContentChangeEvent { range: Some(Range { start: Position { line: 85, character: 29 }, end: Position { line: 85, character: 29 } }), range_length: None, text: "text" }] }
? document changes
! {"changes":[{"range":{"end":{"character":29,"line":85},"start":{"character":29,"line":85}},"text":"text"}]} :: document: is missing
"#;

const NOTEBOOK_DOCUMENT_CELL_CHANGE_STRUCTURE: &str = r#"
{"array":{"deleteCount":21,"start":28},"didClose":[{"uri":"file:///uri"}],"didOpen":[{"languageId":"languageId","text":"text","uri":"file:///uri","version":79}]} :: NotebookDocumentCellChangeStructure { array: NotebookCellArrayChange { start: 28, delete_count: 21, cells: None }, did_open: Some([TextDocumentItem { uri: Uri { text: "file:///uri" }, language_id: "languageId", version: 79, text: "text" }]), did_close: Some([TextDocumentIdentifier { uri: Uri { text: "file:///uri" } }]) }
? array
! {} :: array: is missing
"#;

const NOTEBOOK_CELL_ARRAY_CHANGE: &str = r#"
{"cells":[{"document":"file:///document","kind":1}],"deleteCount":21,"start":28} :: NotebookCellArrayChange { start: 28, delete_count: 21, cells: Some([NotebookCell { kind: Markup, document: Uri { text: "file:///document" }, metadata: None, execution_summary: None }]) }
? start deleteCount
! {"deleteCount":21} :: start: is missing
"#;

const DID_SAVE_NOTEBOOK_DOCUMENT_PARAMS: &str = r#"
{"notebookDocument":{"uri":"file:///uri"}} :: DidSaveNotebookDocumentParams { notebook_document: NotebookDocumentIdentifier { uri: Uri { text: "file:///uri" } } }
? notebookDocument
! {} :: notebookDocument: is missing
"#;

const NOTEBOOK_DOCUMENT_IDENTIFIER: &str = r#"
{"uri":"file:///uri"} :: NotebookDocumentIdentifier { uri: Uri { text: "file:///uri" } }
? uri
! {} :: uri: is missing
"#;

const DID_CLOSE_NOTEBOOK_DOCUMENT_PARAMS: &str = r#"
{"cellTextDocuments":[{"uri":"file:///uri"}],"notebookDocument":{"uri":"file:///uri"}} :: DidCloseNotebookDocumentParams { notebook_document: NotebookDocumentIdentifier { uri: Uri { text: "file:///uri" } }, cell_text_documents: [TextDocumentIdentifier { uri: Uri { text: "file:///uri" } }] }
? notebookDocument cellTextDocuments
! {"cellTextDocuments":[{"uri":"file:///uri"}]} :: notebookDocument: is missing
"#;

#[test]
fn rows_1(rt: HostRuntime) -> Result<(), RowError> {
    let mut trial = Trial::new(rt.alloc());
    trial.holds::<DocumentDiagnosticParams>(DOCUMENT_DIAGNOSTIC_PARAMS);
    trial.clones::<DocumentDiagnosticParams>(DOCUMENT_DIAGNOSTIC_PARAMS);
    trial.holds::<DocumentDiagnosticReportResult>(DOCUMENT_DIAGNOSTIC_REPORT_RESULT);
    trial.holds::<DocumentDiagnosticReport>(DOCUMENT_DIAGNOSTIC_REPORT);
    trial.holds::<DocumentDiagnosticReportKind>(DOCUMENT_DIAGNOSTIC_REPORT_KIND);
    trial.holds::<RelatedFullDocumentDiagnosticReport>(RELATED_FULL_DOCUMENT_DIAGNOSTIC_REPORT);
    trial.holds::<RelatedUnchangedDocumentDiagnosticReport>(
        RELATED_UNCHANGED_DOCUMENT_DIAGNOSTIC_REPORT,
    );
    trial.holds::<FullDocumentDiagnosticReport>(FULL_DOCUMENT_DIAGNOSTIC_REPORT);
    trial.holds::<UnchangedDocumentDiagnosticReport>(UNCHANGED_DOCUMENT_DIAGNOSTIC_REPORT);
    trial.holds::<DocumentDiagnosticReportPartialResult>(DOCUMENT_DIAGNOSTIC_REPORT_PARTIAL_RESULT);
    trial.holds::<WorkspaceDiagnosticParams>(WORKSPACE_DIAGNOSTIC_PARAMS);
    trial.holds::<PreviousResultId>(PREVIOUS_RESULT_ID);
    trial.holds::<WorkspaceDiagnosticReportResult>(WORKSPACE_DIAGNOSTIC_REPORT_RESULT);
    trial.end()
}

#[test]
fn rows_2(rt: HostRuntime) -> Result<(), RowError> {
    let mut trial = Trial::new(rt.alloc());
    trial.holds::<WorkspaceDiagnosticReport>(WORKSPACE_DIAGNOSTIC_REPORT);
    trial.holds::<WorkspaceDocumentDiagnosticReport>(WORKSPACE_DOCUMENT_DIAGNOSTIC_REPORT);
    trial.holds::<WorkspaceFullDocumentDiagnosticReport>(WORKSPACE_FULL_DOCUMENT_DIAGNOSTIC_REPORT);
    trial.holds::<WorkspaceUnchangedDocumentDiagnosticReport>(
        WORKSPACE_UNCHANGED_DOCUMENT_DIAGNOSTIC_REPORT,
    );
    trial.holds::<WorkspaceDiagnosticReportPartialResult>(
        WORKSPACE_DIAGNOSTIC_REPORT_PARTIAL_RESULT,
    );
    trial.holds::<DiagnosticServerCancellationData>(DIAGNOSTIC_SERVER_CANCELLATION_DATA);
    trial.holds::<NotebookDocument>(NOTEBOOK_DOCUMENT);
    trial.holds::<NotebookCell>(NOTEBOOK_CELL);
    trial.clones::<NotebookCell>(NOTEBOOK_CELL);
    trial.holds::<ExecutionSummary>(EXECUTION_SUMMARY);
    trial.holds::<DidOpenNotebookDocumentParams>(DID_OPEN_NOTEBOOK_DOCUMENT_PARAMS);
    trial.holds::<DidChangeNotebookDocumentParams>(DID_CHANGE_NOTEBOOK_DOCUMENT_PARAMS);
    trial.holds::<VersionedNotebookDocumentIdentifier>(VERSIONED_NOTEBOOK_DOCUMENT_IDENTIFIER);
    trial.end()
}

#[test]
fn rows_3(rt: HostRuntime) -> Result<(), RowError> {
    let mut trial = Trial::new(rt.alloc());
    trial.holds::<NotebookDocumentChangeEvent>(NOTEBOOK_DOCUMENT_CHANGE_EVENT);
    trial.holds::<NotebookDocumentCellChange>(NOTEBOOK_DOCUMENT_CELL_CHANGE);
    trial.holds::<NotebookDocumentChangeTextContent>(NOTEBOOK_DOCUMENT_CHANGE_TEXT_CONTENT);
    trial.holds::<NotebookDocumentCellChangeStructure>(NOTEBOOK_DOCUMENT_CELL_CHANGE_STRUCTURE);
    trial.holds::<NotebookCellArrayChange>(NOTEBOOK_CELL_ARRAY_CHANGE);
    trial.holds::<DidSaveNotebookDocumentParams>(DID_SAVE_NOTEBOOK_DOCUMENT_PARAMS);
    trial.holds::<NotebookDocumentIdentifier>(NOTEBOOK_DOCUMENT_IDENTIFIER);
    trial.holds::<DidCloseNotebookDocumentParams>(DID_CLOSE_NOTEBOOK_DOCUMENT_PARAMS);
    trial.end()
}

#[test]
fn defaults(rt: HostRuntime) -> Result<(), RowError> {
    let alloc = rt.alloc();
    let mut trial = Trial::new(alloc);
    trial.is_written(
        RelatedFullDocumentDiagnosticReport::default(alloc),
        r#"{"items":[]}"#,
    );
    trial.is_written(
        FullDocumentDiagnosticReport::default(alloc),
        r#"{"items":[]}"#,
    );
    trial.default::<DocumentDiagnosticReportPartialResult>(r#"{}"#);
    trial.is_written(WorkspaceDiagnosticReport::default(alloc), r#"{"items":[]}"#);
    trial.is_written(
        WorkspaceDiagnosticReportPartialResult::default(alloc),
        r#"{"items":[]}"#,
    );
    trial.end()
}
