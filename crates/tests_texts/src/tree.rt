// Trees as deep as a JSON text may be.
use lsp_lang_goto::DocumentSymbol;
use lsp_rows::Trial;
use lsp_tokens::SelectionRange;
use serde_json::Value;
use std::alloc::{AllocError, Global};
use std::test::Fail;

// A text of that many levels, the innermost of which is the middle.
fn nested(
    alloc: Global,
    depth: usize,
    open: &str,
    middle: &str,
    close: &str,
) -> Result<String, AllocError> {
    let mut text = String::new(alloc);
    for _ in 0..depth {
        text.push_str(open)?;
    }
    text.push_str(middle)?;
    for _ in 0..depth {
        text.push_str(close)?;
    }
    Ok(text)
}

// A text nests 127 deep at most, and a range has two levels.
#[test]
fn selection_ranges(rt: HostRuntime) -> Result<(), Fail> {
    let alloc = rt.alloc();
    let range = r#""range":{"end":{"character":2,"line":1},"start":{"character":1,"line":1}}}"#;
    let open = r#"{"parent":"#;
    let close = format!(in alloc; ",{range}")?;
    let middle = format!(in alloc; "{{{range}")?;
    let text = nested(alloc, 124, open, middle.as_str(), close.as_str())?;
    let deeper = nested(alloc, 125, open, middle.as_str(), close.as_str())?;
    let mut trial = Trial::new(alloc);
    trial.holds::<SelectionRange>(text.as_str());
    let error = Value::from_str(alloc, deeper.as_str()).is_err();
    trial.is_true("deeper is no JSON", error);
    Ok(trial.end()?)
}

#[test]
fn symbols(rt: HostRuntime) -> Result<(), Fail> {
    let alloc = rt.alloc();
    let range = r#"{"end":{"character":2,"line":1},"start":{"character":1,"line":1}}"#;
    let rest = format!(in alloc;
        r#""kind":5,"name":"n","range":{range},"selectionRange":{range}}}"#
    )?;
    let open = r#"{"children":["#;
    let close = format!(in alloc; "],{rest}")?;
    let middle = format!(in alloc; "{{{rest}")?;
    let text = nested(alloc, 62, open, middle.as_str(), close.as_str())?;
    let deeper = nested(alloc, 63, open, middle.as_str(), close.as_str())?;
    let mut trial = Trial::new(alloc);
    trial.holds::<DocumentSymbol>(text.as_str());
    let error = Value::from_str(alloc, deeper.as_str()).is_err();
    trial.is_true("deeper is no JSON", error);
    Ok(trial.end()?)
}
