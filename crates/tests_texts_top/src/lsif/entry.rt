// The rows of an entry of a dump.
use lsp_lsif::{Element, Entry};
use lsp_rows::{RowError, Trial};

const ENTRY: &str = r#"
{"id":17,"label":"metaData","positionEncoding":"utf-16","projectRoot":"file:///projectRoot","type":"vertex","version":"version"} :: Entry { id: Number(17), payload: Vertex(MetaData(MetaData { version: "version", project_root: Uri { text: "file:///projectRoot" }, position_encoding: Utf16, tool_info: None })) }
? id type label version projectRoot positionEncoding
{"id":"id","inV":4,"label":"next","outV":70,"type":"edge"} :: Entry { id: String("id"), payload: Edge(Next(EdgeData { in_v: Number(4), out_v: Number(70) })) }
{"id":1,"type":"vertex","label":"metaData","version":"0.4.3","projectRoot":"file:///w","positionEncoding":"utf-16"} :: Entry { id: Number(1), payload: Vertex(MetaData(MetaData { version: "0.4.3", project_root: Uri { text: "file:///w" }, position_encoding: Utf16, tool_info: None })) }
! {"id":1,"type":"vertex","label":"metaData","version":"0.4.3","projectRoot":"file:///w","positionEncoding":"utf-8"} :: one of its forms is wanted
{"id":4,"type":"edge","label":"contains","inVs":[2,3],"outV":1} :: Entry { id: Number(4), payload: Edge(Contains(EdgeDataMultiIn { in_vs: [Number(2), Number(3)], out_v: Number(1) })) }
# An id is an integer of 32 bits, or a string
{"id":2147483647,"label":"definitionResult","type":"vertex"} :: Entry { id: Number(2147483647), payload: Vertex(DefinitionResult) }
! {"id":2147483648,"label":"definitionResult","type":"vertex"} :: id: one of its forms is wanted
! {"id":1.5,"label":"definitionResult","type":"vertex"} :: id: one of its forms is wanted
! {"id":null,"label":"definitionResult","type":"vertex"} :: id: one of its forms is wanted
! {"label":"definitionResult","type":"vertex"} :: id: is missing
! {"id":1,"label":"definitionResult"} :: one of its forms is wanted
! {"id":1,"type":"vertex"} :: one of its forms is wanted
# The label of a vertex at an edge, and the other way round
! {"id":1,"label":"definitionResult","type":"edge"} :: one of its forms is wanted
! {"id":1,"inV":2,"label":"next","outV":3,"type":"vertex"} :: one of its forms is wanted
# Members that the type does not have
{"id":2,"kind":"typescript","label":"project","name":"app","type":"vertex"} => {"id":2,"kind":"typescript","label":"project","type":"vertex"} :: Entry { id: Number(2), payload: Vertex(Project(Project { resource: None, content: None, kind: "typescript" })) }
# LSIF 0.6, Ranges
{"id":4,"type":"vertex","label":"document","uri":"file:///Users/dirkb/sample.ts","languageId":"typescript"}
{"id":9,"type":"vertex","label":"range","start":{"line":0,"character":9},"end":{"line":0,"character":12}}
{"id":5,"type":"edge","label":"contains","outV":4,"inVs":[9]}
# LSIF 0.6, Result Set
{"id":6,"type":"vertex","label":"resultSet"}
{"id":10,"type":"edge","label":"next","outV":9,"inV":6}
# LSIF 0.6, Request: textDocument/hover
{"id":7,"type":"vertex","label":"hoverResult","result":{"contents":[{"language":"typescript","value":"function bar(): void"}]}}
{"id":8,"type":"edge","label":"textDocument/hover","outV":6,"inV":7}
# LSIF 0.6, Request: textDocument/definition
{"id":22,"type":"vertex","label":"definitionResult"}
{"id":23,"type":"edge","label":"textDocument/definition","outV":6,"inV":22}
# LSIF 0.6, Request: textDocument/references
{"id":25,"type":"vertex","label":"referenceResult"}
{"id":26,"type":"edge","label":"textDocument/references","outV":6,"inV":25}
# LSIF 0.6, Events
{"id":11,"type":"vertex","label":"$event","kind":"begin","scope":"document","data":4}
{"id":53,"type":"vertex","label":"$event","kind":"end","scope":"document","data":4}
{"id":54,"type":"vertex","label":"$event","kind":"end","scope":"project","data":2}
# An item, with the document where LSIF 0.6 has a shard
{"id":27,"type":"edge","label":"item","outV":25,"inVs":[9],"document":4,"property":"definitions"}
! {"id":27,"type":"edge","label":"item","outV":25,"inVs":[9],"shard":4,"property":"definitions"} :: one of its forms is wanted
# Labels that are not here
! {"id":1,"type":"vertex","label":"source","workspaceRoot":"file:///w"} :: one of its forms is wanted
! {"id":1,"type":"vertex","label":"capabilities","hoverProvider":true} :: one of its forms is wanted
! {"id":1,"inV":2,"label":"attach","outV":3,"type":"edge"} :: one of its forms is wanted
"#;

const ELEMENT: &str = r#"
{"label":"metaData","positionEncoding":"utf-16","projectRoot":"file:///projectRoot","type":"vertex","version":"version"} :: Vertex(MetaData(MetaData { version: "version", project_root: Uri { text: "file:///projectRoot" }, position_encoding: Utf16, tool_info: None }))
{"inVs":[76],"label":"contains","outV":70,"type":"edge"} :: Edge(Contains(EdgeDataMultiIn { in_vs: [Number(76)], out_v: Number(70) }))
{"inV":4,"label":"moniker","outV":70,"type":"edge"} :: Edge(Moniker(EdgeData { in_v: Number(4), out_v: Number(70) }))
{"identifier":"identifier","label":"moniker","scheme":"scheme","type":"vertex","unique":"document"} :: Vertex(Moniker(Moniker { scheme: "scheme", identifier: "identifier", unique: Document, kind: None }))
! {"label":"definitionResult","type":"no"} :: one of its forms is wanted
! {"label":"definitionResult","type":"Vertex"} :: one of its forms is wanted
! {"label":"definitionResult","type":1} :: one of its forms is wanted
! {"label":"definitionResult"} :: one of its forms is wanted
! "vertex" :: one of its forms is wanted
"#;

#[test]
fn rows(rt: HostRuntime) -> Result<(), RowError> {
    let mut trial = Trial::new(rt.alloc());
    trial.holds::<Entry>(ENTRY);
    trial.holds::<Element>(ELEMENT);
    trial.end()
}
