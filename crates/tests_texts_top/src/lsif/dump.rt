// A dump of a hundred thousand lines, in the form of the examples of LSIF 0.6: each line is read,
// and written the same.
use lsp_lsif::{Element, Entry};
use lsp_rows::{Trial, text_of};
use lsp_shape::Wire;
use serde_json::Value;
use std::alloc::Global;
use std::test::Fail;

// How many documents the dump has, each of 50 lines.
const DOCUMENTS: u32 = 2_000;

// The lines before those of the documents. `@3@` stands for the third id after the first one of the
// part.
const HEAD: &str = r#"
{"id":@0@,"label":"metaData","positionEncoding":"utf-16","projectRoot":"file:///w","toolInfo":{"args":["-p","tsconfig.json"],"name":"lsif-tsc","version":"0.6.0"},"type":"vertex","version":"0.6.0"}
{"id":@1@,"kind":"typescript","label":"project","resource":"file:///w/tsconfig.json","type":"vertex"}
{"data":@1@,"id":@2@,"kind":"begin","label":"$event","scope":"project","type":"vertex"}
"#;

// The lines of a document.
const DOCUMENT: &str = r#"
{"id":@0@,"label":"document","languageId":"typescript","type":"vertex","uri":"file:///w/src/file@0@.ts"}
{"data":@0@,"id":@1@,"kind":"begin","label":"$event","scope":"document","type":"vertex"}
{"id":@2@,"label":"resultSet","type":"vertex"}
{"end":{"character":12,"line":@3@},"id":@3@,"label":"range","start":{"character":9,"line":@3@},"tag":{"detail":"(): void","fullRange":{"end":{"character":1,"line":@5@},"start":{"character":0,"line":@3@}},"kind":12,"text":"bar","type":"definition"},"type":"vertex"}
{"id":@4@,"inV":@2@,"label":"next","outV":@3@,"type":"edge"}
{"end":{"character":5,"line":@8@},"id":@5@,"label":"range","start":{"character":2,"line":@8@},"tag":{"text":"bar","type":"reference"},"type":"vertex"}
{"id":@6@,"inV":@2@,"label":"next","outV":@5@,"type":"edge"}
{"id":@7@,"label":"hoverResult","result":{"contents":[{"language":"typescript","value":"function bar@0@(): void"},"Says \"bar\".\n"]},"type":"vertex"}
{"id":@8@,"inV":@7@,"label":"textDocument/hover","outV":@2@,"type":"edge"}
{"id":@9@,"label":"definitionResult","type":"vertex"}
{"id":@10@,"inV":@9@,"label":"textDocument/definition","outV":@2@,"type":"edge"}
{"document":@0@,"id":@11@,"inVs":[@3@],"label":"item","outV":@9@,"type":"edge"}
{"id":@12@,"label":"referenceResult","type":"vertex"}
{"id":@13@,"inV":@12@,"label":"textDocument/references","outV":@2@,"type":"edge"}
{"document":@0@,"id":@14@,"inVs":[@3@],"label":"item","outV":@12@,"property":"definitions","type":"edge"}
{"document":@0@,"id":@15@,"inVs":[@5@],"label":"item","outV":@12@,"property":"references","type":"edge"}
{"id":@16@,"identifier":"src/file@0@:bar","kind":"export","label":"moniker","scheme":"tsc","type":"vertex","unique":"project"}
{"id":@17@,"inV":@16@,"label":"moniker","outV":@2@,"type":"edge"}
{"id":@18@,"identifier":"w::file@0@:bar","kind":"export","label":"moniker","scheme":"npm","type":"vertex","unique":"scheme"}
{"id":@19@,"inV":@18@,"label":"nextMoniker","outV":@16@,"type":"edge"}
{"id":@20@,"label":"packageInformation","manager":"npm","name":"w@0@","repository":{"type":"git","url":"git+https://example.org/w.git"},"type":"vertex","uri":"file:///w/package.json","version":"1.0.0"}
{"id":@21@,"inV":@20@,"label":"packageInformation","outV":@18@,"type":"edge"}
{"end":{"character":12,"line":@7@},"id":@22@,"label":"range","start":{"character":9,"line":@7@},"tag":{"deprecated":true,"fullRange":{"end":{"character":1,"line":@9@},"start":{"character":0,"line":@7@}},"kind":12,"text":"foo","type":"declaration"},"type":"vertex"}
{"id":@23@,"key":"foo@0@","label":"resultSet","type":"vertex"}
{"id":@24@,"inV":@23@,"label":"next","outV":@22@,"type":"edge"}
{"id":@25@,"label":"declarationResult","type":"vertex"}
{"id":@26@,"inV":@25@,"label":"textDocument/declaration","outV":@23@,"type":"edge"}
{"document":@0@,"id":@27@,"inVs":[@22@],"label":"item","outV":@25@,"type":"edge"}
{"id":@28@,"label":"typeDefinitionResult","type":"vertex"}
{"id":@29@,"inV":@28@,"label":"textDocument/typeDefinition","outV":@23@,"type":"edge"}
{"document":@0@,"id":@30@,"inVs":[@3@],"label":"item","outV":@28@,"type":"edge"}
{"id":@31@,"label":"implementationResult","type":"vertex"}
{"id":@32@,"inV":@31@,"label":"textDocument/implementation","outV":@23@,"type":"edge"}
{"document":@0@,"id":@33@,"inVs":[@3@],"label":"item","outV":@31@,"type":"edge"}
{"id":@34@,"label":"referenceResult","type":"vertex"}
{"id":@35@,"inV":@34@,"label":"textDocument/references","outV":@23@,"type":"edge"}
{"document":@0@,"id":@36@,"inVs":[@22@],"label":"item","outV":@34@,"property":"declarations","type":"edge"}
{"document":@0@,"id":@37@,"inVs":[@12@],"label":"item","outV":@34@,"property":"referenceResults","type":"edge"}
{"end":{"character":6,"line":@12@},"id":@38@,"label":"range","start":{"character":0,"line":@12@},"type":"vertex"}
{"end":{"character":6,"line":@14@},"id":@39@,"label":"range","start":{"character":0,"line":@14@},"tag":{"text":"module","type":"unknown"},"type":"vertex"}
{"id":@40@,"label":"foldingRangeResult","result":[{"endCharacter":1,"endLine":@5@,"startCharacter":16,"startLine":@3@},{"endLine":@9@,"kind":"region","startLine":@7@}],"type":"vertex"}
{"id":@41@,"inV":@40@,"label":"textDocument/foldingRange","outV":@0@,"type":"edge"}
{"id":@42@,"label":"documentSymbolResult","result":[{"children":[{"id":@22@}],"id":@3@},{"id":@39@}],"type":"vertex"}
{"id":@43@,"inV":@42@,"label":"textDocument/documentSymbol","outV":@0@,"type":"edge"}
{"id":@44@,"label":"documentLinkResult","result":[{"range":{"end":{"character":30,"line":@1@},"start":{"character":10,"line":@1@}},"target":"https://example.org/docs/@0@"}],"type":"vertex"}
{"id":@45@,"inV":@44@,"label":"textDocument/documentLink","outV":@0@,"type":"edge"}
{"id":@46@,"label":"diagnosticResult","result":[{"code":2322,"message":"Type 'string' is not assignable to type 'number'.","range":{"end":{"character":5,"line":@16@},"start":{"character":4,"line":@16@}},"severity":1,"source":"tsc"}],"type":"vertex"}
{"id":@47@,"inV":@46@,"label":"textDocument/diagnostic","outV":@0@,"type":"edge"}
{"id":@48@,"inVs":[@3@,@5@,@22@,@38@,@39@],"label":"contains","outV":@0@,"type":"edge"}
{"data":@0@,"id":@49@,"kind":"end","label":"$event","scope":"document","type":"vertex"}
"#;

// What has been read so far.
#[derive(Drop)]
struct Seen {
    vertices: u32,
    edges: u32,
}

// The lines of a part, whose first id is given.
fn part(alloc: Global, lines: &str, first: u32) -> Result<String, Fail> {
    let mut text = String::new(alloc);
    let mut is_offset = false;
    for piece in lines.split('@') {
        if is_offset {
            let offset: u32 = piece.parse()?;
            write!(text, "{}", first.saturating_add(offset))?;
        } else {
            text.push_str(piece)?;
        }
        is_offset = !is_offset;
    }
    Ok(text)
}

// The lines after those of the documents, of which the project is the second entry of the dump.
fn tail(alloc: Global, first: u32) -> Result<String, Fail> {
    let mut documents = String::new(alloc);
    for k in 0..DOCUMENTS {
        let comma = if k == 0 { "" } else { "," };
        write!(documents, "{comma}{}", first_id(k))?;
    }
    let last = first.saturating_add(1);
    Ok(format!(in alloc;
        r#"{{"id":{first},"inVs":[{documents}],"label":"contains","outV":2,"type":"edge"}}
{{"data":2,"id":{last},"kind":"end","label":"$event","scope":"project","type":"vertex"}}"#
    )?)
}

// The id of the document of that number, after three lines before the first.
fn first_id(document: u32) -> u32 {
    document.saturating_mul(50).saturating_add(4)
}

// Whether the line is a vertex. It is read, and written the same.
fn is_vertex(trial: &mut Trial, alloc: Global, line: &str) -> Result<bool, Fail> {
    let value = Value::from_str(alloc, line)?;
    let entry = Entry::from_value(alloc, &value);
    drop(value);
    let entry = entry?;
    trial.text(line, text_of(alloc, &entry), line);
    let is_vertex = matches!(&entry.payload, Element::Vertex(_));
    drop(entry);
    Ok(is_vertex)
}

// The lines of the text are read, and written the same.
fn try_lines(trial: &mut Trial, alloc: Global, text: &str, seen: &mut Seen) -> Result<(), Fail> {
    for line in text.lines().filter(|line| !line.is_empty()) {
        if is_vertex(trial, alloc, line)? {
            seen.vertices = seen.vertices.saturating_add(1);
        } else {
            seen.edges = seen.edges.saturating_add(1);
        }
    }
    Ok(())
}

#[test]
fn dump(rt: HostRuntime) -> Result<(), Fail> {
    let alloc = rt.alloc();
    let mut trial = Trial::new(alloc);
    let mut seen = Seen {
        vertices: 0,
        edges: 0,
    };
    try_lines(&mut trial, alloc, part(alloc, HEAD, 1)?.as_str(), &mut seen)?;
    for k in 0..DOCUMENTS {
        let lines = part(alloc, DOCUMENT, first_id(k))?;
        try_lines(&mut trial, alloc, lines.as_str(), &mut seen)?;
    }
    let end = tail(alloc, first_id(DOCUMENTS))?;
    try_lines(&mut trial, alloc, end.as_str(), &mut seen)?;
    // Of a document 24 are vertices.
    let vertices = DOCUMENTS.saturating_mul(24).saturating_add(4);
    let edges = DOCUMENTS.saturating_mul(26).saturating_add(1);
    trial.same("vertices", seen.vertices, vertices);
    trial.same("edges", seen.edges, edges);
    Ok(trial.end()?)
}
