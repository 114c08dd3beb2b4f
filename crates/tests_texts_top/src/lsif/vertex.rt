// The rows of vertices.
use lsp_lsif::{
    Document, DocumentSymbolOrRangeBasedVec, Encoding, Event, EventKind, EventScope, MetaData,
    PackageInformation, Project, Repository, ResultSet, ToolInfo, Vertex,
};
use lsp_rows::{RowError, Trial};

const VERTEX: &str = r#"
{"label":"metaData","positionEncoding":"utf-16","projectRoot":"file:///projectRoot","version":"version"} :: MetaData(MetaData { version: "version", project_root: Uri { text: "file:///projectRoot" }, position_encoding: Utf16, tool_info: None })
{"kind":"kind","label":"project","resource":"file:///resource"} :: Project(Project { resource: Some(Uri { text: "file:///resource" }), content: None, kind: "kind" })
{"label":"document","languageId":"languageId","uri":"file:///uri"} :: Document(Document { uri: Uri { text: "file:///uri" }, language_id: "languageId" })
{"end":{"character":4,"line":3},"label":"range","start":{"character":2,"line":1}} :: Range { range: Range { start: Position { line: 1, character: 2 }, end: Position { line: 3, character: 4 } }, tag: None }
{"end":{"character":4,"line":3},"label":"range","start":{"character":2,"line":1},"tag":{"text":"text","type":"reference"}} :: Range { range: Range { start: Position { line: 1, character: 2 }, end: Position { line: 3, character: 4 } }, tag: Some(Reference(ReferenceTag { text: "text" })) }
{"end":{"character":4,"line":3},"label":"range","start":{"character":2,"line":1},"tag":null} => {"end":{"character":4,"line":3},"label":"range","start":{"character":2,"line":1}} :: Range { range: Range { start: Position { line: 1, character: 2 }, end: Position { line: 3, character: 4 } }, tag: None }
{"key":"key","label":"resultSet"} :: ResultSet(ResultSet { key: Some("key") })
{"label":"resultSet"} :: ResultSet(ResultSet { key: None })
{"identifier":"identifier","kind":"local","label":"moniker","scheme":"scheme","unique":"document"} :: Moniker(Moniker { scheme: "scheme", identifier: "identifier", unique: Document, kind: Some(Local) })
{"label":"packageInformation","manager":"manager","name":"name"} :: PackageInformation(PackageInformation { name: "name", manager: "manager", uri: None, content: None, repository: None, version: None })
{"data":63,"kind":"begin","label":"$event","scope":"document"} :: Event(Event { kind: Begin, scope: Document, payload: Number(63) })
{"label":"definitionResult"} :: DefinitionResult
{"label":"declarationResult"} :: DeclarationResult
{"label":"typeDefinitionResult"} :: TypeDefinitionResult
{"label":"referenceResult"} :: ReferenceResult
{"label":"implementationResult"} :: ImplementationResult
{"label":"foldingRangeResult","result":[{"endLine":7,"startLine":98}]} :: FoldingRangeResult { result: [FoldingRange { start_line: 98, start_character: None, end_line: 7, end_character: None, kind: None, collapsed_text: None }] }
{"label":"foldingRangeResult","result":[]} :: FoldingRangeResult { result: [] }
{"label":"hoverResult","result":{"contents":"contents"}} :: HoverResult { result: Hover { contents: Scalar(String("contents")), range: None } }
{"label":"documentSymbolResult","result":[{"kind":130,"name":"name","range":{"end":{"character":8,"line":7},"start":{"character":6,"line":5}},"selectionRange":{"end":{"character":4,"line":3},"start":{"character":2,"line":1}}}]} :: DocumentSymbolResult { result: DocumentSymbol([DocumentSymbol { name: "name", detail: None, kind: SymbolKind(130), tags: None, deprecated: None, range: Range { start: Position { line: 5, character: 6 }, end: Position { line: 7, character: 8 } }, selection_range: Range { start: Position { line: 1, character: 2 }, end: Position { line: 3, character: 4 } }, children: None }]) }
{"label":"documentSymbolResult","result":[{"id":17}]} :: DocumentSymbolResult { result: RangeBased([RangeBasedDocumentSymbol { id: Number(17), children: [] }]) }
{"label":"documentLinkResult","result":[{"range":{"end":{"character":4,"line":3},"start":{"character":2,"line":1}},"target":"file:///target"}]} :: DocumentLinkResult { result: [DocumentLink { range: Range { start: Position { line: 1, character: 2 }, end: Position { line: 3, character: 4 } }, target: Some(Uri { text: "file:///target" }), tooltip: None, payload: None }] }
{"label":"diagnosticResult","result":[{"message":"message","range":{"end":{"character":4,"line":3},"start":{"character":2,"line":1}}}]} :: DiagnosticResult { result: [Diagnostic { range: Range { start: Position { line: 1, character: 2 }, end: Position { line: 3, character: 4 } }, severity: None, code: None, code_description: None, source: None, message: "message", related_information: None, tags: None, payload: None }] }
# A result without what it holds is read, and what it does not have is dropped
{"label":"definitionResult","result":[1,2]} => {"label":"definitionResult"} :: DefinitionResult
! {"end":{"character":4,"line":3},"label":"range"} :: one of its forms is wanted
! {"end":{"character":4,"line":3},"label":"range","start":{"character":2,"line":1},"tag":{"text":"text"}} :: one of its forms is wanted
! {"label":"foldingRangeResult"} :: one of its forms is wanted
! {"label":"foldingRangeResult","result":null} :: one of its forms is wanted
! {"label":"hoverResult"} :: one of its forms is wanted
! {"label":"hoverResult","result":[]} :: one of its forms is wanted
! {"label":"documentSymbolResult"} :: one of its forms is wanted
! {"label":"documentLinkResult","result":{}} :: one of its forms is wanted
! {"label":"diagnosticResult","result":[{}]} :: one of its forms is wanted
! {"label":"event"} :: one of its forms is wanted
! {"label":"DefinitionResult"} :: one of its forms is wanted
! {"label":"no"} :: one of its forms is wanted
! {"key":"key"} :: one of its forms is wanted
! "definitionResult" :: one of its forms is wanted
# LSIF 0.6, Request: textDocument/documentSymbol
{"label":"range","start":{"line":0,"character":6},"end":{"line":0,"character":16},"tag":{"type":"definition","text":"Controller","kind":5,"fullRange":{"start":{"line":0,"character":0},"end":{"line":4,"character":1}}}} :: Range { range: Range { start: Position { line: 0, character: 6 }, end: Position { line: 0, character: 16 } }, tag: Some(Definition(DefinitionTag { text: "Controller", kind: Class, deprecated: false, full_range: Range { start: Position { line: 0, character: 0 }, end: Position { line: 4, character: 1 } }, detail: None })) }
{"label":"documentSymbolResult","result":[{"id":7,"children":[{"id":9},{"id":10}]},{"id":12}]} :: DocumentSymbolResult { result: RangeBased([RangeBasedDocumentSymbol { id: Number(7), children: [RangeBasedDocumentSymbol { id: Number(9), children: [] }, RangeBasedDocumentSymbol { id: Number(10), children: [] }] }, RangeBasedDocumentSymbol { id: Number(12), children: [] }]) }
# LSIF 0.6, Request: textDocument/foldingRange
{"label":"foldingRangeResult","result":[{"startLine":0,"startCharacter":16,"endLine":2,"endCharacter":1},{"startLine":4,"startCharacter":16,"endLine":6,"endCharacter":1}]}
# LSIF 0.6, Request: textDocument/diagnostic
{"label":"diagnosticResult","result":[{"severity":1,"code":2322,"message":"Type '\"string\"' is not assignable to type 'number'.","range":{"start":{"line":0,"character":4},"end":{"line":0,"character":5}}}]}
# LSIF 0.6, Exporting and importing monikers
{"label":"moniker","kind":"export","scheme":"tsc","identifier":"lib/index:func","unique":"project"} :: Moniker(Moniker { scheme: "tsc", identifier: "lib/index:func", unique: Project, kind: Some(Export) })
{"label":"moniker","kind":"import","scheme":"npm","identifier":"mobx::observable","unique":"scheme"} :: Moniker(Moniker { scheme: "npm", identifier: "mobx::observable", unique: Scheme, kind: Some(Import) })
{"label":"packageInformation","name":"mobx","manager":"npm","version":"5.6.0","repository":{"type":"git","url":"git+https://github.com/mobxjs/mobx.git"}} :: PackageInformation(PackageInformation { name: "mobx", manager: "npm", uri: None, content: None, repository: Some(Repository { typ: "git", url: "git+https://github.com/mobxjs/mobx.git", commit_id: None }), version: Some("5.6.0") })
"#;

const META_DATA: &str = r#"
{"positionEncoding":"utf-16","projectRoot":"file:///projectRoot","toolInfo":{"name":"name"},"version":"version"} :: MetaData { version: "version", project_root: Uri { text: "file:///projectRoot" }, position_encoding: Utf16, tool_info: Some(ToolInfo { name: "name", args: [], version: None }) }
? version projectRoot positionEncoding
{"positionEncoding":"utf-16","projectRoot":"file:///projectRoot","toolInfo":null,"version":"version"} => {"positionEncoding":"utf-16","projectRoot":"file:///projectRoot","version":"version"} :: MetaData { version: "version", project_root: Uri { text: "file:///projectRoot" }, position_encoding: Utf16, tool_info: None }
! {"positionEncoding":"utf-16","projectRoot":"file:///projectRoot"} :: version: is missing
! {"positionEncoding":"utf-16","version":"version"} :: projectRoot: is missing
! {"projectRoot":"file:///projectRoot","version":"version"} :: positionEncoding: is missing
! {"positionEncoding":"utf-32","projectRoot":"file:///projectRoot","version":"version"} :: positionEncoding: one of its texts is wanted
! {"positionEncoding":"utf-16","projectRoot":"a b","version":"version"} :: projectRoot: a URI is wanted
! {"positionEncoding":"utf-16","projectRoot":"file:///projectRoot","toolInfo":"name","version":"version"} :: toolInfo: an object is wanted
# LSIF 0.6, Meta Data Vertex
{"version":"0.6.0","projectRoot":"file:///lsif-node/samples/typescript","positionEncoding":"utf-16","toolInfo":{"name":"lsif-tsc","args":["-p","tsconfig.json"],"version":"0.6.0"}} :: MetaData { version: "0.6.0", project_root: Uri { text: "file:///lsif-node/samples/typescript" }, position_encoding: Utf16, tool_info: Some(ToolInfo { name: "lsif-tsc", args: ["-p", "tsconfig.json"], version: Some("0.6.0") }) }
"#;

const ENCODING: &str = r#"
"utf-16" :: Utf16
! "utf-8" :: one of its texts is wanted
! "UTF-16" :: one of its texts is wanted
! 16 :: one of its texts is wanted
"#;

const TOOL_INFO: &str = r#"
{"args":["args"],"name":"name","version":"version"} :: ToolInfo { name: "name", args: ["args"], version: Some("version") }
? name
{"name":"name"} :: ToolInfo { name: "name", args: [], version: None }
{"args":[],"name":"name"} => {"name":"name"} :: ToolInfo { name: "name", args: [], version: None }
! {"args":null,"name":"name"} :: args: a list is wanted
! {"args":"args","name":"name"} :: args: a list is wanted
! {"args":["args"],"version":"version"} :: name: is missing
"#;

const PROJECT: &str = r#"
{"content":"content","kind":"kind","resource":"file:///resource"} :: Project { resource: Some(Uri { text: "file:///resource" }), content: Some("content"), kind: "kind" }
? kind
{"kind":"kind"} :: Project { resource: None, content: None, kind: "kind" }
! {"content":"content","resource":"file:///resource"} :: kind: is missing
! {"content":1,"kind":"kind"} :: content: a text is wanted
# LSIF 0.6, The Project vertex
{"kind":"typescript","resource":"file:///Users/dirkb/tsconfig.json"} :: Project { resource: Some(Uri { text: "file:///Users/dirkb/tsconfig.json" }), content: None, kind: "typescript" }
"#;

const REPOSITORY: &str = r#"
{"commitId":"commitId","type":"type","url":"url"} :: Repository { typ: "type", url: "url", commit_id: Some("commitId") }
? type url
{"type":"type","url":"url"} :: Repository { typ: "type", url: "url", commit_id: None }
! {"url":"url"} :: type: is missing
! {"typ":"type","url":"url"} :: type: is missing
! {"type":"type"} :: url: is missing
"#;

const DOCUMENT: &str = r#"
{"languageId":"languageId","uri":"file:///uri"} :: Document { uri: Uri { text: "file:///uri" }, language_id: "languageId" }
? uri languageId
! {"languageId":"languageId"} :: uri: is missing
! {"uri":"file:///uri"} :: languageId: is missing
"#;

const RESULT_SET: &str = r#"
{"key":"key"} :: ResultSet { key: Some("key") }
?
{} :: ResultSet { key: None }
{"key":null} => {} :: ResultSet { key: None }
! {"key":1} :: key: a text is wanted
! "key" :: an object is wanted
"#;

const PACKAGE_INFORMATION: &str = r#"
{"content":"content","manager":"manager","name":"name","repository":{"type":"type","url":"url"},"uri":"file:///uri","version":"version"} :: PackageInformation { name: "name", manager: "manager", uri: Some(Uri { text: "file:///uri" }), content: Some("content"), repository: Some(Repository { typ: "type", url: "url", commit_id: None }), version: Some("version") }
? name manager
{"manager":"manager","name":"name"} :: PackageInformation { name: "name", manager: "manager", uri: None, content: None, repository: None, version: None }
! {"manager":"manager"} :: name: is missing
! {"name":"name"} :: manager: is missing
! {"manager":"manager","name":"name","repository":"url"} :: repository: an object is wanted
"#;

const EVENT: &str = r#"
{"data":63,"kind":"begin","scope":"document"} :: Event { kind: Begin, scope: Document, payload: Number(63) }
? kind scope data
{"data":"data","kind":"end","scope":"project"} :: Event { kind: End, scope: Project, payload: String("data") }
{"data":63,"kind":"begin","scope":"project"} :: Event { kind: Begin, scope: Project, payload: Number(63) }
! {"data":63,"scope":"document"} :: kind: is missing
! {"data":63,"kind":"begin"} :: scope: is missing
! {"kind":"begin","scope":"document"} :: data: is missing
! {"data":63,"kind":"document","scope":"begin"} :: kind: one of its texts is wanted
"#;

const EVENT_KIND: &str = r#"
"begin" :: Begin
"end" :: End
! "Begin" :: one of its texts is wanted
! "no" :: one of its texts is wanted
"#;

const EVENT_SCOPE: &str = r#"
"document" :: Document
"project" :: Project
! "no" :: one of its texts is wanted
"#;

const DOCUMENT_SYMBOL_OR_RANGE_BASED_VEC: &str = r#"
[{"kind":130,"name":"name","range":{"end":{"character":8,"line":7},"start":{"character":6,"line":5}},"selectionRange":{"end":{"character":4,"line":3},"start":{"character":2,"line":1}}}] :: DocumentSymbol([DocumentSymbol { name: "name", detail: None, kind: SymbolKind(130), tags: None, deprecated: None, range: Range { start: Position { line: 5, character: 6 }, end: Position { line: 7, character: 8 } }, selection_range: Range { start: Position { line: 1, character: 2 }, end: Position { line: 3, character: 4 } }, children: None }])
[{"id":17}] :: RangeBased([RangeBasedDocumentSymbol { id: Number(17), children: [] }])
[{"children":[{"id":3}],"id":"id"},{"id":1}] :: RangeBased([RangeBasedDocumentSymbol { id: String("id"), children: [RangeBasedDocumentSymbol { id: Number(3), children: [] }] }, RangeBasedDocumentSymbol { id: Number(1), children: [] }])
[] :: DocumentSymbol([])
# The two forms in one list
! [{"id":1},{"kind":5,"name":"name","range":{"end":{"character":8,"line":7},"start":{"character":6,"line":5}},"selectionRange":{"end":{"character":4,"line":3},"start":{"character":2,"line":1}}}] :: one of its forms is wanted
! {"id":1} :: one of its forms is wanted
! false :: one of its forms is wanted
"#;

#[test]
fn rows_1(rt: HostRuntime) -> Result<(), RowError> {
    let mut trial = Trial::new(rt.alloc());
    trial.holds::<Vertex>(VERTEX);
    trial.holds::<MetaData>(META_DATA);
    trial.holds::<Encoding>(ENCODING);
    trial.holds::<ToolInfo>(TOOL_INFO);
    trial.holds::<Project>(PROJECT);
    trial.holds::<Repository>(REPOSITORY);
    trial.holds::<Document>(DOCUMENT);
    trial.end()
}

#[test]
fn rows_2(rt: HostRuntime) -> Result<(), RowError> {
    let mut trial = Trial::new(rt.alloc());
    trial.holds::<ResultSet>(RESULT_SET);
    trial.holds::<PackageInformation>(PACKAGE_INFORMATION);
    trial.holds::<Event>(EVENT);
    trial.holds::<EventKind>(EVENT_KIND);
    trial.holds::<EventScope>(EVENT_SCOPE);
    trial.holds::<DocumentSymbolOrRangeBasedVec>(DOCUMENT_SYMBOL_OR_RANGE_BASED_VEC);
    trial.end()
}
