// What a server writes that stands on lsp_types alone.
use lsp_rows::{RowError, Trial};
use lsp_types::{
    ClientInfo, CompletionItem, CompletionItemKind, CompletionList, InitializeParams, NoMemory,
    Wire, read_text, write_text,
};
use std::alloc::Global;
use std::fmt::Debug;

// An editor that tells as little as it may, and one that gives its name.
const SHY: &str = r#"{"capabilities":{},"processId":null,"rootUri":null}"#;

const NAMED: &str =
    r#"{"capabilities":{},"clientInfo":{"name":"Neovim"},"processId":7,"rootUri":null}"#;

// The first is there, and isn't the second.
fn are_two<T: PartialEq + Drop>(a: Result<T, NoMemory>, b: T) -> bool {
    match a {
        Ok(a) => a != b,
        Err(NoMemory) => false,
    }
}

fn named(alloc: Global) -> Result<InitializeParams, NoMemory> {
    let name = String::from_str(alloc, "Neovim")?;
    Ok(InitializeParams {
        process_id: Some(7),
        client_info: Some(ClientInfo {
            name,
            version: None,
        }),
        ..InitializeParams::default()
    })
}

// The text is what is written for the value, and is read as it.
fn try_made<T: Wire + PartialEq + Debug>(
    trial: &mut Trial,
    alloc: Global,
    made: Result<T, NoMemory>,
    text: &str,
) {
    match made {
        Ok(made) => {
            trial.text("written", write_text(alloc, &made), text);
            trial.same("read", read_text(alloc, text), Ok(made));
        }
        Err(NoMemory) => trial.is_true("made", false),
    }
}

#[test]
fn two_editors(rt: HostRuntime) -> Result<(), RowError> {
    let alloc = rt.alloc();
    let mut trial = Trial::new(alloc);
    try_made(&mut trial, alloc, named(alloc), NAMED);
    try_made(&mut trial, alloc, Ok(InitializeParams::default()), SHY);
    trial.is_true("two", are_two(named(alloc), InitializeParams::default()));
    trial.end()
}

const LIST: &str =
    r#"{"isIncomplete":true,"items":[{"detail":"fn area(&self) -> f64","kind":2,"label":"area"},{"detail":"f64","label":"radius"}]}"#;

fn method(alloc: Global, label: &str, detail: &str) -> Result<CompletionItem, NoMemory> {
    let label = String::from_str(alloc, label)?;
    let detail = String::from_str(alloc, detail)?;
    Ok(CompletionItem {
        label,
        kind: Some(CompletionItemKind::METHOD),
        detail: Some(detail),
        ..CompletionItem::default(alloc)
    })
}

fn simple(alloc: Global, label: &str, detail: &str) -> Result<CompletionItem, NoMemory> {
    let label = String::from_str(alloc, label)?;
    Ok(CompletionItem::new_simple(label, String::from_str(alloc, detail)?))
}

fn list(alloc: Global) -> Result<CompletionList, NoMemory> {
    let mut list = CompletionList {
        is_incomplete: true,
        ..CompletionList::default(alloc)
    };
    list.items
        .push(method(alloc, "area", "fn area(&self) -> f64")?)?;
    list.items.push(simple(alloc, "radius", "f64")?)?;
    Ok(list)
}

#[test]
fn completion_list(rt: HostRuntime) -> Result<(), RowError> {
    let alloc = rt.alloc();
    let mut trial = Trial::new(alloc);
    try_made(&mut trial, alloc, list(alloc), LIST);
    trial.is_true("two", are_two(list(alloc), CompletionList::default(alloc)));
    trial.end()
}
