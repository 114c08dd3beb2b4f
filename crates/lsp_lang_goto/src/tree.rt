// The symbols of a document as a tree, which hold themselves.
ghost use Rattle.std.specs.Prelude.{◌≡◌, true, codes, map, IfOk, OnOk, Some, None};
ghost use Rattle.serde_json.specs.Data.{array, object as object_of};
ghost use Rattle.serde_json.specs.Find.{get_member};
ghost use Rattle.serde_json.specs.View.{view, items_view, members_view};
ghost use Rattle.lsp_shape.specs.Plain.{parts_of};
ghost use Rattle.lsp_shape.specs.Read.{read, read_items, read_maybe, read_member};
ghost use Rattle.lsp_shape.specs.Shape.{Shape, list, maybe, omitted};
ghost use Rattle.lsp_shape.specs.Shown.{show_list, show_option};
ghost use Rattle.lsp_shape.specs.Values.{is_of, is_maybe};
ghost use Rattle.lsp_shape.specs.Why.{Refuses, IfUnfit, fields_of, named_field};
ghost use Rattle.lsp_shape.specs.Write.{write, put_present};
ghost use Rattle.lsp_lang_goto.specs.Tree.{document_symbol_shape, document_symbol_level, show_document_symbol};

use lsp_base::Range;
use lsp_kinds::{SymbolKind, SymbolTag};
use lsp_shape::{
    Misfit, NoMemory, Wanted, Wire, field, find, optional, put, put_optional, put_value, told_item,
    told_member,
};
use serde_json::{Map, Value};
use std::alloc::Global;

/// A symbol and the symbols inside it: an entry of the result of `textDocument/documentSymbol`,
/// since 3.10 (LSP 3.17, "Document Symbols Request").
#[derive(Debug, PartialEq, Eq, Clone, Drop)]
pub struct DocumentSymbol {
    /// What the client shows for the symbol, usually its identifier. It must not be empty or only
    /// whitespace.
    pub name: String,
    /// More text for the user, such as the parameters of a function.
    pub detail: Option<String>,
    /// What sort of symbol it is, such as a class or a function. Clients usually show it as an
    /// icon.
    pub kind: SymbolKind,
    /// Marks on the symbol, such as `SymbolTag::DEPRECATED`; since 3.16.
    pub tags: Option<Vec<SymbolTag>>,
    /// Whether the use of the symbol is discouraged. `tags` with `SymbolTag::DEPRECATED` replaces
    /// this field.
    pub deprecated: Option<bool>,
    /// The whole symbol, including its body and its comments, but no whitespace around it. Clients
    /// use it to find the symbol that the cursor is in.
    pub range: Range,
    /// What to select when the user goes to the symbol, usually its name. It must lie within
    /// `range`.
    pub selection_range: Range,
    /// The symbols inside this one, such as the methods of a class. Absent: there are none.
    pub children: Option<Vec<DocumentSymbol>>,
}

impl Wire for DocumentSymbol {
    ghost shape = { document_symbol_shape };

    ghost shown = { show_document_symbol };

    fn from_value(alloc: Global, value: &Value) -> Result<DocumentSymbol, Misfit> {
        read_symbol(alloc, value)
    }

    fn to_value(&self, alloc: Global) -> Result<Value, NoMemory> {
        write_symbol(alloc, self)
    }
}

// By the row of one level.
#[cycle(reading)]
fn read_symbol(alloc: Global, value: &Value) -> Result<DocumentSymbol, Misfit>
    ensures read { IfOk result
        (λ x. read document_symbol_level.shape (view value.now) ≡ Some (show_document_symbol x)) }
    ensures unfit { IfUnfit result
        (λ why. Refuses document_symbol_level.shape (view value.now) why) }
{
    match value.as_object() {
        Some(object) => read_members(alloc, object),
        None => Err(Misfit::wanted(Wanted::Object)),
    }
}

#[cycle(reading)]
#[tactic(auto, unfolding(crate::specs::Tree::document_symbol_level, crate::specs::Tree::show_document_symbol))]
fn read_members(alloc: Global, object: &Map<String, Value>) -> Result<DocumentSymbol, Misfit>
    ensures read { IfOk result
        (λ x. read document_symbol_level.shape (object_of (members_view object.now.entries))
        ≡ Some (show_document_symbol x)) }
    ensures unfit { IfUnfit result
        (λ why. Refuses document_symbol_level.shape
        (object_of (members_view object.now.entries)) why) }
{
    Ok(DocumentSymbol {
        name: field(alloc, object, "name")?,
        detail: optional(alloc, object, "detail")?,
        kind: field(alloc, object, "kind")?,
        tags: optional(alloc, object, "tags")?,
        deprecated: optional(alloc, object, "deprecated")?,
        range: field(alloc, object, "range")?,
        selection_range: field(alloc, object, "selectionRange")?,
        children: read_children(alloc, object)?,
    })
}

#[cycle(reading)]
#[tactic(auto, using(crate::proofs::Unrolled::reading_lemmas))]
fn read_children(
    alloc: Global,
    object: &Map<String, Value>,
) -> Result<Option<Vec<DocumentSymbol>>, Misfit>
    ensures read { IfOk result
        (λ o. read_member omitted (read (list document_symbol_shape))
        (get_member (codes "children") (members_view object.now.entries))
        ≡ Some (show_option (show_list show_document_symbol) o)) }
    ensures unfit { IfUnfit result
        (λ why. (t : Shape) → named_field (codes "children") (fields_of t)
        ≡ Some (omitted, list document_symbol_shape)
        → Refuses t (object_of (members_view object.now.entries)) why) }
{
    match find(object, "children") {
        Some(value) => told_member(object, "children", read_list_or_null(alloc, value)),
        None => Ok(None),
    }
}

#[cycle(reading)]
#[tactic(auto, using(crate::proofs::Unrolled::reading_lemmas))]
fn read_list_or_null(alloc: Global, value: &Value) -> Result<Option<Vec<DocumentSymbol>>, Misfit>
    ensures read { IfOk result
        (λ o. read_maybe (read (list document_symbol_shape)) (view value.now)
        ≡ Some (show_option (show_list show_document_symbol) o)) }
    ensures unfit { IfUnfit result
        (λ why. Refuses (maybe (list document_symbol_shape)) (view value.now) why) }
{
    if value.is_null() {
        Ok(None)
    } else {
        Ok(Some(read_list(alloc, value)?))
    }
}

#[cycle(reading)]
fn read_list(alloc: Global, value: &Value) -> Result<Vec<DocumentSymbol>, Misfit>
    ensures read { IfOk result
        (λ v. read (list document_symbol_shape) (view value.now)
        ≡ Some (show_list show_document_symbol v)) }
    ensures unfit { IfUnfit result
        (λ why. Refuses (list document_symbol_shape) (view value.now) why) }
{
    match value.as_array() {
        Some(items) => read_all(alloc, items),
        None => Err(Misfit::wanted(Wanted::List)),
    }
}

#[cycle(reading)]
#[tactic(auto, using(crate::proofs::Unrolled::reading_lemmas))]
fn read_all(alloc: Global, items: &Vec<Value>) -> Result<Vec<DocumentSymbol>, Misfit>
    ensures read { IfOk result
        (λ v. read_items (read document_symbol_shape) (items_view items.now.items)
        ≡ Some (parts_of (map show_document_symbol v.items))) }
    ensures unfit { IfUnfit result
        (λ why. Refuses (list document_symbol_shape) (array (items_view items.now.items)) why) }
{
    let mut all = Vec::with_capacity(alloc, items.len())?;
    for item in items {
        all.push(told_item(all.len(), read_symbol(alloc, item))?)?;
    }
    Ok(all)
}

// By the row of one level.
#[cycle(writing)]
#[tactic(auto, unfolding(crate::specs::Tree::document_symbol_level, crate::specs::Tree::show_document_symbol))]
fn write_symbol(alloc: Global, symbol: &DocumentSymbol) -> Result<Value, NoMemory>
    ensures written { IfOk result
        (λ v. view v ≡ write document_symbol_level.shape (show_document_symbol symbol.now)) }
    ensures of_shape { OnOk result
        (is_of document_symbol_level.shape (show_document_symbol symbol.now) ≡ true) }
{
    let mut object = Map::new(alloc);
    put(alloc, &mut object, "name", &symbol.name)?;
    put_optional(alloc, &mut object, "detail", &symbol.detail)?;
    put(alloc, &mut object, "kind", &symbol.kind)?;
    put_optional(alloc, &mut object, "tags", &symbol.tags)?;
    put_optional(alloc, &mut object, "deprecated", &symbol.deprecated)?;
    put(alloc, &mut object, "range", &symbol.range)?;
    put(
        alloc,
        &mut object,
        "selectionRange",
        &symbol.selection_range,
    )?;
    put_children(alloc, &mut object, &symbol.children)?;
    Ok(Value::Object(object))
}

#[cycle(writing)]
#[tactic(auto, using(crate::proofs::Unrolled::writing_lemmas))]
fn put_children(
    alloc: Global,
    object: &mut Map<String, Value>,
    children: &Option<Vec<DocumentSymbol>>,
) -> Result<(), NoMemory>
    ensures put { OnOk result
        (members_view object.new.entries
        ≡ put_present (codes "children") (write (list document_symbol_shape))
        (show_option (show_list show_document_symbol) children.now)
        (members_view object.old.entries)) }
    ensures of_shape { OnOk result
        (is_maybe (is_of (list document_symbol_shape))
        (show_option (show_list show_document_symbol) children.now) ≡ true) }
{
    match children {
        Some(symbols) => {
            let value = write_all(alloc, symbols)?;
            put_value(alloc, object, "children", value)
        }
        None => Ok(()),
    }
}

#[cycle(writing)]
#[tactic(auto, using(crate::proofs::Unrolled::writing_lemmas))]
fn write_all(alloc: Global, symbols: &Vec<DocumentSymbol>) -> Result<Value, NoMemory>
    ensures written { IfOk result
        (λ v. view v
        ≡ write (list document_symbol_shape) (show_list show_document_symbol symbols.now)) }
    ensures of_shape { OnOk result
        (is_of (list document_symbol_shape) (show_list show_document_symbol symbols.now) ≡ true) }
{
    let mut items = Vec::with_capacity(alloc, symbols.len())?;
    for symbol in symbols {
        items.push(write_symbol(alloc, symbol)?)?;
    }
    Ok(Value::Array(items))
}
