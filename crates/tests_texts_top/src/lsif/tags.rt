// The rows of the tags of ranges, whose fields are private: a tag is told by its text, and by what
// Debug shows.
use lsp_lsif::{DeclarationTag, DefinitionTag, RangeTag, ReferenceTag, UnknownTag};
use lsp_rows::{RowError, Trial};

const RANGE_TAG: &str = r#"
{"fullRange":{"end":{"character":4,"line":3},"start":{"character":2,"line":1}},"kind":130,"text":"text","type":"definition"} :: Definition(DefinitionTag { text: "text", kind: SymbolKind(130), deprecated: false, full_range: Range { start: Position { line: 1, character: 2 }, end: Position { line: 3, character: 4 } }, detail: None })
{"deprecated":false,"fullRange":{"end":{"character":4,"line":3},"start":{"character":2,"line":1}},"kind":130,"text":"text","type":"declaration"} :: Declaration(DeclarationTag { text: "text", kind: SymbolKind(130), deprecated: false, full_range: Range { start: Position { line: 1, character: 2 }, end: Position { line: 3, character: 4 } }, detail: None })
{"text":"text","type":"reference"} :: Reference(ReferenceTag { text: "text" })
{"text":"text","type":"unknown"} :: Unknown(UnknownTag { text: "text" })
! {"text":"text","type":"definition"} :: one of its forms is wanted
! {"text":"text","type":"declaration"} :: one of its forms is wanted
! {"text":"text","type":"no"} :: one of its forms is wanted
! {"text":"text"} :: one of its forms is wanted
! {"type":"reference"} :: one of its forms is wanted
! {"type":"unknown"} :: one of its forms is wanted
! "unknown" :: one of its forms is wanted
# LSIF 0.6, Request: textDocument/documentSymbol
{"type":"definition","text":"hello","kind":6,"fullRange":{"start":{"line":1,"character":2},"end":{"line":3,"character":3}},"detail":"(): void"}
{"type":"reference","text":"bar"}
"#;

const DEFINITION_TAG: &str = r#"
{"deprecated":true,"detail":"detail","fullRange":{"end":{"character":4,"line":3},"start":{"character":2,"line":1}},"kind":130,"text":"text"} :: DefinitionTag { text: "text", kind: SymbolKind(130), deprecated: true, full_range: Range { start: Position { line: 1, character: 2 }, end: Position { line: 3, character: 4 } }, detail: Some("detail") }
? text kind fullRange
{"fullRange":{"end":{"character":4,"line":3},"start":{"character":2,"line":1}},"kind":130,"text":"text"} :: DefinitionTag { text: "text", kind: SymbolKind(130), deprecated: false, full_range: Range { start: Position { line: 1, character: 2 }, end: Position { line: 3, character: 4 } }, detail: None }
{"deprecated":false,"detail":null,"fullRange":{"end":{"character":4,"line":3},"start":{"character":2,"line":1}},"kind":130,"text":"text"} => {"fullRange":{"end":{"character":4,"line":3},"start":{"character":2,"line":1}},"kind":130,"text":"text"} :: DefinitionTag { text: "text", kind: SymbolKind(130), deprecated: false, full_range: Range { start: Position { line: 1, character: 2 }, end: Position { line: 3, character: 4 } }, detail: None }
! {"fullRange":{"end":{"character":4,"line":3},"start":{"character":2,"line":1}},"kind":130} :: text: is missing
! {"fullRange":{"end":{"character":4,"line":3},"start":{"character":2,"line":1}},"text":"text"} :: kind: is missing
! {"kind":130,"text":"text"} :: fullRange: is missing
! {"deprecated":null,"fullRange":{"end":{"character":4,"line":3},"start":{"character":2,"line":1}},"kind":130,"text":"text"} :: deprecated: true or false is wanted
! {"deprecated":1,"fullRange":{"end":{"character":4,"line":3},"start":{"character":2,"line":1}},"kind":130,"text":"text"} :: deprecated: true or false is wanted
"#;

const DECLARATION_TAG: &str = r#"
{"deprecated":true,"detail":"detail","fullRange":{"end":{"character":4,"line":3},"start":{"character":2,"line":1}},"kind":130,"text":"text"} :: DeclarationTag { text: "text", kind: SymbolKind(130), deprecated: true, full_range: Range { start: Position { line: 1, character: 2 }, end: Position { line: 3, character: 4 } }, detail: Some("detail") }
? text kind fullRange deprecated=false
{"deprecated":false,"fullRange":{"end":{"character":4,"line":3},"start":{"character":2,"line":1}},"kind":130,"text":"text"} :: DeclarationTag { text: "text", kind: SymbolKind(130), deprecated: false, full_range: Range { start: Position { line: 1, character: 2 }, end: Position { line: 3, character: 4 } }, detail: None }
{"fullRange":{"end":{"character":4,"line":3},"start":{"character":2,"line":1}},"kind":130,"text":"text"} => {"deprecated":false,"fullRange":{"end":{"character":4,"line":3},"start":{"character":2,"line":1}},"kind":130,"text":"text"} :: DeclarationTag { text: "text", kind: SymbolKind(130), deprecated: false, full_range: Range { start: Position { line: 1, character: 2 }, end: Position { line: 3, character: 4 } }, detail: None }
! {"deprecated":false,"fullRange":{"end":{"character":4,"line":3},"start":{"character":2,"line":1}},"kind":130} :: text: is missing
! {"deprecated":false,"fullRange":{"end":{"character":4,"line":3},"start":{"character":2,"line":1}},"text":"text"} :: kind: is missing
! {"deprecated":false,"kind":130,"text":"text"} :: fullRange: is missing
! {"deprecated":null,"fullRange":{"end":{"character":4,"line":3},"start":{"character":2,"line":1}},"kind":130,"text":"text"} :: deprecated: true or false is wanted
"#;

const REFERENCE_TAG: &str = r#"
{"text":"text"} :: ReferenceTag { text: "text" }
? text
{"kind":130,"text":"text"} => {"text":"text"} :: ReferenceTag { text: "text" }
! {"text":1} :: text: a text is wanted
! {} :: text: is missing
"#;

const UNKNOWN_TAG: &str = r#"
{"text":"text"} :: UnknownTag { text: "text" }
? text
! {"text":null} :: text: a text is wanted
! {} :: text: is missing
"#;

#[test]
fn rows(rt: HostRuntime) -> Result<(), RowError> {
    let mut trial = Trial::new(rt.alloc());
    trial.holds::<RangeTag>(RANGE_TAG);
    trial.holds::<DefinitionTag>(DEFINITION_TAG);
    trial.holds::<DeclarationTag>(DECLARATION_TAG);
    trial.holds::<ReferenceTag>(REFERENCE_TAG);
    trial.holds::<UnknownTag>(UNKNOWN_TAG);
    trial.end()
}
