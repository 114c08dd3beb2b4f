//! Queries over a dump in the form of the examples of LSIF 0.6: that of the lines of tests_texts_top
//! with one document.
use crate::rows::try_rows;
use lsp_rows::{RowError, Trial};

const DUMP: &str =
    r#"{"id":1,"label":"metaData","positionEncoding":"utf-16","projectRoot":"file:///w","toolInfo":{"args":["-p","tsconfig.json"],"name":"lsif-tsc","version":"0.6.0"},"type":"vertex","version":"0.6.0"}
{"id":2,"kind":"typescript","label":"project","resource":"file:///w/tsconfig.json","type":"vertex"}
{"data":2,"id":3,"kind":"begin","label":"$event","scope":"project","type":"vertex"}
{"id":4,"label":"document","languageId":"typescript","type":"vertex","uri":"file:///w/src/file4.ts"}
{"data":4,"id":5,"kind":"begin","label":"$event","scope":"document","type":"vertex"}
{"id":6,"label":"resultSet","type":"vertex"}
{"end":{"character":12,"line":7},"id":7,"label":"range","start":{"character":9,"line":7},"tag":{"detail":"(): void","fullRange":{"end":{"character":1,"line":9},"start":{"character":0,"line":7}},"kind":12,"text":"bar","type":"definition"},"type":"vertex"}
{"id":8,"inV":6,"label":"next","outV":7,"type":"edge"}
{"end":{"character":5,"line":12},"id":9,"label":"range","start":{"character":2,"line":12},"tag":{"text":"bar","type":"reference"},"type":"vertex"}
{"id":10,"inV":6,"label":"next","outV":9,"type":"edge"}
{"id":11,"label":"hoverResult","result":{"contents":[{"language":"typescript","value":"function bar4(): void"},"Says \"bar\".\n"]},"type":"vertex"}
{"id":12,"inV":11,"label":"textDocument/hover","outV":6,"type":"edge"}
{"id":13,"label":"definitionResult","type":"vertex"}
{"id":14,"inV":13,"label":"textDocument/definition","outV":6,"type":"edge"}
{"document":4,"id":15,"inVs":[7],"label":"item","outV":13,"type":"edge"}
{"id":16,"label":"referenceResult","type":"vertex"}
{"id":17,"inV":16,"label":"textDocument/references","outV":6,"type":"edge"}
{"document":4,"id":18,"inVs":[7],"label":"item","outV":16,"property":"definitions","type":"edge"}
{"document":4,"id":19,"inVs":[9],"label":"item","outV":16,"property":"references","type":"edge"}
{"id":20,"identifier":"src/file4:bar","kind":"export","label":"moniker","scheme":"tsc","type":"vertex","unique":"project"}
{"id":21,"inV":20,"label":"moniker","outV":6,"type":"edge"}
{"id":22,"identifier":"w::file4:bar","kind":"export","label":"moniker","scheme":"npm","type":"vertex","unique":"scheme"}
{"id":23,"inV":22,"label":"nextMoniker","outV":20,"type":"edge"}
{"id":24,"label":"packageInformation","manager":"npm","name":"w4","repository":{"type":"git","url":"git+https://example.org/w.git"},"type":"vertex","uri":"file:///w/package.json","version":"1.0.0"}
{"id":25,"inV":24,"label":"packageInformation","outV":22,"type":"edge"}
{"end":{"character":12,"line":11},"id":26,"label":"range","start":{"character":9,"line":11},"tag":{"deprecated":true,"fullRange":{"end":{"character":1,"line":13},"start":{"character":0,"line":11}},"kind":12,"text":"foo","type":"declaration"},"type":"vertex"}
{"id":27,"key":"foo4","label":"resultSet","type":"vertex"}
{"id":28,"inV":27,"label":"next","outV":26,"type":"edge"}
{"id":29,"label":"declarationResult","type":"vertex"}
{"id":30,"inV":29,"label":"textDocument/declaration","outV":27,"type":"edge"}
{"document":4,"id":31,"inVs":[26],"label":"item","outV":29,"type":"edge"}
{"id":32,"label":"typeDefinitionResult","type":"vertex"}
{"id":33,"inV":32,"label":"textDocument/typeDefinition","outV":27,"type":"edge"}
{"document":4,"id":34,"inVs":[7],"label":"item","outV":32,"type":"edge"}
{"id":35,"label":"implementationResult","type":"vertex"}
{"id":36,"inV":35,"label":"textDocument/implementation","outV":27,"type":"edge"}
{"document":4,"id":37,"inVs":[7],"label":"item","outV":35,"type":"edge"}
{"id":38,"label":"referenceResult","type":"vertex"}
{"id":39,"inV":38,"label":"textDocument/references","outV":27,"type":"edge"}
{"document":4,"id":40,"inVs":[26],"label":"item","outV":38,"property":"declarations","type":"edge"}
{"document":4,"id":41,"inVs":[16],"label":"item","outV":38,"property":"referenceResults","type":"edge"}
{"end":{"character":6,"line":16},"id":42,"label":"range","start":{"character":0,"line":16},"type":"vertex"}
{"end":{"character":6,"line":18},"id":43,"label":"range","start":{"character":0,"line":18},"tag":{"text":"module","type":"unknown"},"type":"vertex"}
{"id":44,"label":"foldingRangeResult","result":[{"endCharacter":1,"endLine":9,"startCharacter":16,"startLine":7},{"endLine":13,"kind":"region","startLine":11}],"type":"vertex"}
{"id":45,"inV":44,"label":"textDocument/foldingRange","outV":4,"type":"edge"}
{"id":46,"label":"documentSymbolResult","result":[{"children":[{"id":26}],"id":7},{"id":43}],"type":"vertex"}
{"id":47,"inV":46,"label":"textDocument/documentSymbol","outV":4,"type":"edge"}
{"id":48,"label":"documentLinkResult","result":[{"range":{"end":{"character":30,"line":5},"start":{"character":10,"line":5}},"target":"https://example.org/docs/4"}],"type":"vertex"}
{"id":49,"inV":48,"label":"textDocument/documentLink","outV":4,"type":"edge"}
{"id":50,"label":"diagnosticResult","result":[{"code":2322,"message":"Type 'string' is not assignable to type 'number'.","range":{"end":{"character":5,"line":20},"start":{"character":4,"line":20}},"severity":1,"source":"tsc"}],"type":"vertex"}
{"id":51,"inV":50,"label":"textDocument/diagnostic","outV":4,"type":"edge"}
{"id":52,"inVs":[7,9,26,42,43],"label":"contains","outV":4,"type":"edge"}
{"data":4,"id":53,"kind":"end","label":"$event","scope":"document","type":"vertex"}
{"id":54,"inVs":[4],"label":"contains","outV":2,"type":"edge"}
{"data":2,"id":55,"kind":"end","label":"$event","scope":"project","type":"vertex"}
"#;

// The words, nothing more after the dump, and the status with the line of the answer, typed from the
// entries named.
const ROWS: &[[&str; 3]] = &[
    // 9 is where `bar` is used: over 10 and 14 its definition is 7.
    [
        "definition file:///w/src/file4.ts 12 2",
        "",
        r#"0 [{"range":{"end":{"character":12,"line":7},"start":{"character":9,"line":7}},"uri":"file:///w/src/file4.ts"}]
"#,
    ],
    // 7 itself, by its first and its last character.
    [
        "definition file:///w/src/file4.ts 7 9",
        "",
        r#"0 [{"range":{"end":{"character":12,"line":7},"start":{"character":9,"line":7}},"uri":"file:///w/src/file4.ts"}]
"#,
    ],
    [
        "definition file:///w/src/file4.ts 7 11",
        "",
        r#"0 [{"range":{"end":{"character":12,"line":7},"start":{"character":9,"line":7}},"uri":"file:///w/src/file4.ts"}]
"#,
    ],
    ["definition file:///w/src/file4.ts 7 12", "", "0 []\n"],
    // 26, `foo`, has a declaration and no definition; 42 has no edge, and nothing stands at 30.
    ["definition file:///w/src/file4.ts 11 9", "", "0 []\n"],
    ["definition file:///w/src/file4.ts 16 0", "", "0 []\n"],
    ["definition file:///w/src/file4.ts 30 0", "", "0 []\n"],
    // The items 18 and 19.
    [
        "references file:///w/src/file4.ts 12 4",
        "",
        r#"0 [{"range":{"end":{"character":12,"line":7},"start":{"character":9,"line":7}},"uri":"file:///w/src/file4.ts"},{"range":{"end":{"character":5,"line":12},"start":{"character":2,"line":12}},"uri":"file:///w/src/file4.ts"}]
"#,
    ],
    // The item 40, and those of 16, to which 41 leads.
    [
        "references file:///w/src/file4.ts 11 10",
        "",
        r#"0 [{"range":{"end":{"character":12,"line":11},"start":{"character":9,"line":11}},"uri":"file:///w/src/file4.ts"},{"range":{"end":{"character":12,"line":7},"start":{"character":9,"line":7}},"uri":"file:///w/src/file4.ts"},{"range":{"end":{"character":5,"line":12},"start":{"character":2,"line":12}},"uri":"file:///w/src/file4.ts"}]
"#,
    ],
    ["references file:///w/src/file4.ts 18 3", "", "0 []\n"],
    // 11, over 12.
    [
        "hover file:///w/src/file4.ts 12 2",
        "",
        r#"0 {"contents":[{"language":"typescript","value":"function bar4(): void"},"Says \"bar\".\n"]}
"#,
    ],
    ["hover file:///w/src/file4.ts 11 9", "", "0 null\n"],
    // Of no document: the project's file, the package's, and one that isn't there.
    ["definition file:///w/tsconfig.json 7 9", "", "0 []\n"],
    ["references file:///w/package.json 7 9", "", "0 []\n"],
    ["hover file:///w/src/file5.ts 7 9", "", "0 null\n"],
];

#[test]
fn a_dump_in_the_form_of_the_examples(rt: HostRuntime) -> Result<(), RowError> {
    let mut trial = Trial::new(rt.alloc());
    try_rows(&mut trial, rt.alloc(), DUMP, 50, ROWS);
    trial.end()
}
