// The rows of symbols by the ids of their ranges, and trees of them as deep as a JSON text may be.
use lsp_lsif::RangeBasedDocumentSymbol;
use lsp_rows::{RowError, Trial};
use serde_json::Value;
use std::alloc::{AllocError, Global};

const RANGE_BASED_DOCUMENT_SYMBOL: &str = r#"
{"id":17} :: RangeBasedDocumentSymbol { id: Number(17), children: [] }
? id
{"children":[{"children":[{"id":3}],"id":"id"},{"id":2}],"id":1} :: RangeBasedDocumentSymbol { id: Number(1), children: [RangeBasedDocumentSymbol { id: String("id"), children: [RangeBasedDocumentSymbol { id: Number(3), children: [] }] }, RangeBasedDocumentSymbol { id: Number(2), children: [] }] }
{"children":[],"id":1} => {"id":1} :: RangeBasedDocumentSymbol { id: Number(1), children: [] }
! {"children":[{"id":3}]} :: id: is missing
! {"children":null,"id":1} :: children: a list is wanted
! {"children":{"id":3},"id":1} :: children: a list is wanted
! {"children":[{}],"id":1} :: children[0].id: is missing
! {"children":[{"children":[3],"id":2}],"id":1} :: children[0].children[0]: an object is wanted
! {"id":true} :: id: one of its forms is wanted
! 17 :: an object is wanted
# LSIF 0.6, Request: textDocument/documentSymbol
{"id":7,"children":[{"id":9},{"id":10,"children":[{"id":11}]}]}
"#;

// A tree of that many levels below its root, whose texts have two levels each.
fn nested(alloc: Global, depth: usize) -> Result<String, AllocError> {
    let mut text = String::new(alloc);
    for _ in 0..depth {
        text.push_str(r#"{"children":["#)?;
    }
    text.push_str(r#"{"id":1}"#)?;
    for _ in 0..depth {
        text.push_str(r#"],"id":1}"#)?;
    }
    Ok(text)
}

#[test]
fn rows(rt: HostRuntime) -> Result<(), RowError> {
    let mut trial = Trial::new(rt.alloc());
    trial.holds::<RangeBasedDocumentSymbol>(RANGE_BASED_DOCUMENT_SYMBOL);
    trial.end()
}

// A text nests 127 deep at most.
#[test]
fn depth(rt: HostRuntime) -> Result<(), RowError> {
    let alloc = rt.alloc();
    let text = nested(alloc, 63)?;
    let deeper = nested(alloc, 64)?;
    let mut trial = Trial::new(alloc);
    trial.holds::<RangeBasedDocumentSymbol>(text.as_str());
    let error = Value::from_str(alloc, deeper.as_str()).is_err();
    trial.is_true("deeper is no JSON", error);
    trial.end()
}
