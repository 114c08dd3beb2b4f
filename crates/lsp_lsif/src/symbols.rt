// The symbols of a document by the ids of their ranges, which hold themselves.
ghost use Rattle.std.specs.Prelude.{◌≡◌, true, codes, map, IfOk, OnOk, Some, None};
ghost use Rattle.serde_json.specs.Data.{array, object as object_of};
ghost use Rattle.serde_json.specs.Find.{get_member};
ghost use Rattle.serde_json.specs.View.{view, items_view, members_view};
ghost use Rattle.lsp_shape.specs.Plain.{parts_of};
ghost use Rattle.lsp_shape.specs.Read.{read, read_items, read_member};
ghost use Rattle.lsp_shape.specs.Shape.{Shape, list, or_empty, unless_empty};
ghost use Rattle.lsp_shape.specs.Shown.{show_list};
ghost use Rattle.lsp_shape.specs.Values.{is_of};
ghost use Rattle.lsp_shape.specs.Why.{Refuses, IfUnfit, fields_of, named_field};
ghost use Rattle.lsp_shape.specs.Write.{write, write_member};
ghost use Rattle.lsp_lsif.specs.Symbols.{range_based_document_symbol_shape, range_based_document_symbol_level, show_range_based_document_symbol};

use crate::entry::Id;
use lsp_shape::{
    Misfit, NoMemory, Wanted, Wire, field, find, put, put_value, told_item, told_member,
};
use serde_json::{Map, Value};
use std::alloc::Global;

/// A symbol of a document and the symbols inside it, by the ids of their ranges: an entry of the
/// result of a `documentSymbolResult` vertex (LSIF 0.6).
#[derive(Debug, PartialEq, Drop)]
pub struct RangeBasedDocumentSymbol {
    /// The id of the vertex of the range, whose tag describes the symbol, as a definition or a
    /// declaration.
    pub id: Id,
    /// The symbols inside this one. Absent: there are none. An empty array isn't written.
    pub children: Vec<RangeBasedDocumentSymbol>,
}

impl Wire for RangeBasedDocumentSymbol {
    ghost shape = { range_based_document_symbol_shape };

    ghost shown = { show_range_based_document_symbol };

    fn from_value(alloc: Global, value: &Value) -> Result<RangeBasedDocumentSymbol, Misfit> {
        read_symbol(alloc, value)
    }

    fn to_value(&self, alloc: Global) -> Result<Value, NoMemory> {
        write_symbol(alloc, self)
    }
}

// By the row of one level.
#[cycle(reading)]
fn read_symbol(alloc: Global, value: &Value) -> Result<RangeBasedDocumentSymbol, Misfit>
    ensures read { IfOk result
        (λ x. read range_based_document_symbol_level.shape (view value.now)
        ≡ Some (show_range_based_document_symbol x)) }
    ensures unfit { IfUnfit result
        (λ why. Refuses range_based_document_symbol_level.shape (view value.now) why) }
{
    match value.as_object() {
        Some(object) => read_members(alloc, object),
        None => Err(Misfit::wanted(Wanted::Object)),
    }
}

#[cycle(reading)]
#[tactic(auto, unfolding(crate::specs::Symbols::range_based_document_symbol_level, crate::specs::Symbols::show_range_based_document_symbol))]
fn read_members(
    alloc: Global,
    object: &Map<String, Value>,
) -> Result<RangeBasedDocumentSymbol, Misfit>
    ensures read { IfOk result
        (λ x. read range_based_document_symbol_level.shape
        (object_of (members_view object.now.entries))
        ≡ Some (show_range_based_document_symbol x)) }
    ensures unfit { IfUnfit result
        (λ why. Refuses range_based_document_symbol_level.shape
        (object_of (members_view object.now.entries)) why) }
{
    Ok(RangeBasedDocumentSymbol {
        id: field(alloc, object, "id")?,
        children: read_children(alloc, object)?,
    })
}

#[cycle(reading)]
#[tactic(auto, using(crate::proofs::Unrolled::reading_lemmas))]
fn read_children(
    alloc: Global,
    object: &Map<String, Value>,
) -> Result<Vec<RangeBasedDocumentSymbol>, Misfit>
    ensures read { IfOk result
        (λ v. read_member unless_empty (read (list range_based_document_symbol_shape))
        (get_member (codes "children") (members_view object.now.entries))
        ≡ Some (show_list show_range_based_document_symbol v)) }
    ensures unfit { IfUnfit result
        (λ why. (t : Shape) → named_field (codes "children") (fields_of t)
        ≡ Some (or_empty, list range_based_document_symbol_shape)
        → Refuses t (object_of (members_view object.now.entries)) why) }
{
    match find(object, "children") {
        Some(value) => told_member(object, "children", read_list(alloc, value)),
        None => Ok(Vec::new(alloc)),
    }
}

#[cycle(reading)]
#[tactic(auto, using(crate::proofs::Unrolled::reading_lemmas))]
fn read_list(alloc: Global, value: &Value) -> Result<Vec<RangeBasedDocumentSymbol>, Misfit>
    ensures read { IfOk result
        (λ v. read (list range_based_document_symbol_shape) (view value.now)
        ≡ Some (show_list show_range_based_document_symbol v)) }
    ensures unfit { IfUnfit result
        (λ why. Refuses (list range_based_document_symbol_shape) (view value.now) why) }
{
    match value.as_array() {
        Some(items) => read_all(alloc, items),
        None => Err(Misfit::wanted(Wanted::List)),
    }
}

#[cycle(reading)]
#[tactic(auto, using(crate::proofs::Unrolled::reading_lemmas))]
fn read_all(alloc: Global, items: &Vec<Value>) -> Result<Vec<RangeBasedDocumentSymbol>, Misfit>
    ensures read { IfOk result
        (λ v. read_items (read range_based_document_symbol_shape) (items_view items.now.items)
        ≡ Some (parts_of (map show_range_based_document_symbol v.items))) }
    ensures unfit { IfUnfit result
        (λ why. Refuses (list range_based_document_symbol_shape)
        (array (items_view items.now.items)) why) }
{
    let mut all = Vec::with_capacity(alloc, items.len())?;
    for item in items {
        all.push(told_item(all.len(), read_symbol(alloc, item))?)?;
    }
    Ok(all)
}

// By the row of one level.
#[cycle(writing)]
#[tactic(auto, unfolding(crate::specs::Symbols::range_based_document_symbol_level, crate::specs::Symbols::show_range_based_document_symbol))]
fn write_symbol(alloc: Global, symbol: &RangeBasedDocumentSymbol) -> Result<Value, NoMemory>
    ensures written { IfOk result
        (λ v. view v
        ≡ write range_based_document_symbol_level.shape
        (show_range_based_document_symbol symbol.now)) }
    ensures of_shape { OnOk result
        (is_of range_based_document_symbol_level.shape (show_range_based_document_symbol symbol.now)
        ≡ true) }
{
    let mut object = Map::new(alloc);
    put(alloc, &mut object, "id", &symbol.id)?;
    put_children(alloc, &mut object, &symbol.children)?;
    Ok(Value::Object(object))
}

#[cycle(writing)]
#[tactic(auto, using(crate::proofs::Unrolled::writing_lemmas))]
fn put_children(
    alloc: Global,
    object: &mut Map<String, Value>,
    children: &Vec<RangeBasedDocumentSymbol>,
) -> Result<(), NoMemory>
    ensures put { OnOk result
        (members_view object.new.entries
        ≡ write_member (codes "children") unless_empty
        (write (list range_based_document_symbol_shape))
        (show_list show_range_based_document_symbol children.now)
        (members_view object.old.entries)) }
    ensures of_shape { OnOk result
        (is_of (list range_based_document_symbol_shape)
        (show_list show_range_based_document_symbol children.now) ≡ true) }
{
    if children.is_empty() {
        return Ok(());
    }
    let value = write_all(alloc, children)?;
    put_value(alloc, object, "children", value)
}

#[cycle(writing)]
#[tactic(auto, using(crate::proofs::Unrolled::writing_lemmas))]
fn write_all(alloc: Global, symbols: &Vec<RangeBasedDocumentSymbol>) -> Result<Value, NoMemory>
    ensures written { IfOk result
        (λ v. view v
        ≡ write (list range_based_document_symbol_shape)
        (show_list show_range_based_document_symbol symbols.now)) }
    ensures of_shape { OnOk result
        (is_of (list range_based_document_symbol_shape)
        (show_list show_range_based_document_symbol symbols.now) ≡ true) }
{
    let mut items = Vec::with_capacity(alloc, symbols.len())?;
    for symbol in symbols {
        items.push(write_symbol(alloc, symbol)?)?;
    }
    Ok(Value::Array(items))
}
