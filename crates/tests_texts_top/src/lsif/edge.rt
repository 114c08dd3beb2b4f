// The rows of edges.
use lsp_lsif::{
    DefinitionResultType, Edge, EdgeData, EdgeDataMultiIn, Item, ItemKind, LocationOrRangeId,
};
use lsp_rows::{RowError, Trial};

const EDGE: &str = r#"
{"inVs":[76],"label":"contains","outV":70} :: Contains(EdgeDataMultiIn { in_vs: [Number(76)], out_v: Number(70) })
{"inV":4,"label":"moniker","outV":70} :: Moniker(EdgeData { in_v: Number(4), out_v: Number(70) })
{"inV":4,"label":"nextMoniker","outV":70} :: NextMoniker(EdgeData { in_v: Number(4), out_v: Number(70) })
{"inV":4,"label":"next","outV":70} :: Next(EdgeData { in_v: Number(4), out_v: Number(70) })
{"inV":4,"label":"packageInformation","outV":70} :: PackageInformation(EdgeData { in_v: Number(4), out_v: Number(70) })
{"document":59,"inVs":[76],"label":"item","outV":70} :: Item(Item { document: Number(59), property: None, edge_data: EdgeDataMultiIn { in_vs: [Number(76)], out_v: Number(70) } })
{"document":59,"inVs":[76],"label":"item","outV":70,"property":"references"} :: Item(Item { document: Number(59), property: Some(References), edge_data: EdgeDataMultiIn { in_vs: [Number(76)], out_v: Number(70) } })
{"inV":4,"label":"textDocument/definition","outV":70} :: Definition(EdgeData { in_v: Number(4), out_v: Number(70) })
{"inV":4,"label":"textDocument/declaration","outV":70} :: Declaration(EdgeData { in_v: Number(4), out_v: Number(70) })
{"inV":4,"label":"textDocument/hover","outV":70} :: Hover(EdgeData { in_v: Number(4), out_v: Number(70) })
{"inV":4,"label":"textDocument/references","outV":70} :: References(EdgeData { in_v: Number(4), out_v: Number(70) })
{"inV":4,"label":"textDocument/implementation","outV":70} :: Implementation(EdgeData { in_v: Number(4), out_v: Number(70) })
{"inV":4,"label":"textDocument/typeDefinition","outV":70} :: TypeDefinition(EdgeData { in_v: Number(4), out_v: Number(70) })
{"inV":4,"label":"textDocument/foldingRange","outV":70} :: FoldingRange(EdgeData { in_v: Number(4), out_v: Number(70) })
{"inV":4,"label":"textDocument/documentLink","outV":70} :: DocumentLink(EdgeData { in_v: Number(4), out_v: Number(70) })
{"inV":4,"label":"textDocument/documentSymbol","outV":70} :: DocumentSymbol(EdgeData { in_v: Number(4), out_v: Number(70) })
{"inV":4,"label":"textDocument/diagnostic","outV":70} :: Diagnostic(EdgeData { in_v: Number(4), out_v: Number(70) })
# One vertex where several are wanted, and the other way round
! {"inV":76,"label":"contains","outV":70} :: one of its forms is wanted
! {"inVs":[4],"label":"next","outV":70} :: one of its forms is wanted
! {"inVs":[76],"label":"item","outV":70} :: one of its forms is wanted
! {"inV":4,"label":"textDocument/completion","outV":70} :: one of its forms is wanted
! {"inV":4,"label":"definition","outV":70} :: one of its forms is wanted
! {"inV":4,"label":"no","outV":70} :: one of its forms is wanted
! {"inV":4,"outV":70} :: one of its forms is wanted
# Both, of which one is dropped
{"inV":4,"inVs":[76],"label":"next","outV":70} => {"inV":4,"label":"next","outV":70} :: Next(EdgeData { in_v: Number(4), out_v: Number(70) })
"#;

const EDGE_DATA: &str = r#"
{"inV":4,"outV":70} :: EdgeData { in_v: Number(4), out_v: Number(70) }
? inV outV
{"inV":"inV","outV":"outV"} :: EdgeData { in_v: String("inV"), out_v: String("outV") }
! {"outV":70} :: inV: is missing
! {"inV":4} :: outV: is missing
! {"inV":[4],"outV":70} :: inV: one of its forms is wanted
"#;

const EDGE_DATA_MULTI_IN: &str = r#"
{"inVs":[76],"outV":70} :: EdgeDataMultiIn { in_vs: [Number(76)], out_v: Number(70) }
? inVs outV
{"inVs":[3,"inVs",1],"outV":"outV"} :: EdgeDataMultiIn { in_vs: [Number(3), String("inVs"), Number(1)], out_v: String("outV") }
{"inVs":[],"outV":70} :: EdgeDataMultiIn { in_vs: [], out_v: Number(70) }
! {"outV":70} :: inVs: is missing
! {"inVs":[76]} :: outV: is missing
! {"inVs":76,"outV":70} :: inVs: a list is wanted
! {"inVs":[null],"outV":70} :: inVs[0]: one of its forms is wanted
"#;

const ITEM: &str = r#"
{"document":59,"inVs":[76],"outV":70,"property":"declarations"} :: Item { document: Number(59), property: Some(Declarations), edge_data: EdgeDataMultiIn { in_vs: [Number(76)], out_v: Number(70) } }
? document inVs outV
{"document":"document","inVs":[76,77],"outV":70} :: Item { document: String("document"), property: None, edge_data: EdgeDataMultiIn { in_vs: [Number(76), Number(77)], out_v: Number(70) } }
{"document":59,"inVs":[76],"outV":70,"property":null} => {"document":59,"inVs":[76],"outV":70} :: Item { document: Number(59), property: None, edge_data: EdgeDataMultiIn { in_vs: [Number(76)], out_v: Number(70) } }
! {"inVs":[76],"outV":70} :: document: is missing
! {"document":59,"outV":70} :: inVs: is missing
! {"document":59,"inVs":[76]} :: outV: is missing
! {"document":59,"inVs":[76],"outV":70,"property":"no"} :: property: one of its texts is wanted
# LSIF 0.6, Request: textDocument/references
{"outV":25,"inVs":[9],"document":4,"property":"definitions"}
{"outV":25,"inVs":[20],"document":4,"property":"references"}
{"outV":25,"inVs":[51],"document":4,"property":"referenceResults"}
"#;

const ITEM_KIND: &str = r#"
"declarations" :: Declarations
"definitions" :: Definitions
"references" :: References
"referenceResults" :: ReferenceResults
"implementationResults" :: ImplementationResults
! "definition" :: one of its texts is wanted
! "no" :: one of its texts is wanted
"#;

const DEFINITION_RESULT_TYPE: &str = r#"
{"range":{"end":{"character":4,"line":3},"start":{"character":2,"line":1}},"uri":"file:///uri"} :: Scalar(Location(Location { uri: Uri { text: "file:///uri" }, range: Range { start: Position { line: 1, character: 2 }, end: Position { line: 3, character: 4 } } }))
76 :: Scalar(RangeId(Number(76)))
"id" :: Scalar(RangeId(String("id")))
! [76] :: one of its forms is wanted
! {} :: one of its forms is wanted
! null :: one of its forms is wanted
"#;

const LOCATION_OR_RANGE_ID: &str = r#"
{"range":{"end":{"character":4,"line":3},"start":{"character":2,"line":1}},"uri":"file:///uri"} :: Location(Location { uri: Uri { text: "file:///uri" }, range: Range { start: Position { line: 1, character: 2 }, end: Position { line: 3, character: 4 } } })
76 :: RangeId(Number(76))
"id" :: RangeId(String("id"))
! {"uri":"file:///uri"} :: one of its forms is wanted
! false :: one of its forms is wanted
"#;

#[test]
fn rows(rt: HostRuntime) -> Result<(), RowError> {
    let mut trial = Trial::new(rt.alloc());
    trial.holds::<Edge>(EDGE);
    trial.holds::<EdgeData>(EDGE_DATA);
    trial.holds::<EdgeDataMultiIn>(EDGE_DATA_MULTI_IN);
    trial.holds::<Item>(ITEM);
    trial.holds::<ItemKind>(ITEM_KIND);
    trial.holds::<DefinitionResultType>(DEFINITION_RESULT_TYPE);
    trial.holds::<LocationOrRangeId>(LOCATION_OR_RANGE_ID);
    trial.end()
}
