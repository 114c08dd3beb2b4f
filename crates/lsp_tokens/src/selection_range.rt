// A range that can be selected, in one that can be selected.
ghost use Rattle.std.specs.Prelude.{◌≡◌, true, codes, IfOk, OnOk, Some, None};
ghost use Rattle.serde_json.specs.Data.{object as object_of};
ghost use Rattle.serde_json.specs.Find.{get_member};
ghost use Rattle.serde_json.specs.View.{view, members_view};
ghost use Rattle.lsp_shape.specs.Read.{read, read_maybe, read_member};
ghost use Rattle.lsp_shape.specs.Shape.{Shape, maybe, omitted};
ghost use Rattle.lsp_shape.specs.Shown.{show_option};
ghost use Rattle.lsp_shape.specs.Values.{is_of, is_maybe};
ghost use Rattle.lsp_shape.specs.Why.{Refuses, IfUnfit, fields_of, named_field};
ghost use Rattle.lsp_shape.specs.Write.{write, put_present};
ghost use Rattle.lsp_tokens.specs.declared.selection_range.SelectionRange.{out-SelectionRange};
ghost use Rattle.lsp_tokens.specs.SelectionRange.{selection_range_shape, selection_range_level, show_selection_range, show_parent};

use lsp_base::Range;
use lsp_shape::{Misfit, NoMemory, Wanted, Wire, field, find, put, put_value, told_member};
use serde_json::{Map, Value};
use std::alloc::Global;

/// A range that the user may want to select, and the ranges around it: an entry of the result of
/// `textDocument/selectionRange`. Since 3.15 (LSP 3.17, "Selection Range Request").
#[derive(Debug, PartialEq, Eq, Clone, Drop)]
pub struct SelectionRange {
    /// What is selected.
    pub range: Range,
    /// What is selected when the selection grows from here. Its range must contain `range`. Absent:
    /// it grows no further.
    pub parent: Option<Box<SelectionRange>>,
}

/// An empty range at the start of the document, which grows no further.
impl Default for SelectionRange {
    ghost is_default = { λ made.
        ((out-SelectionRange made).range.start ≡ record { line = 0; character = 0 })
        × ((out-SelectionRange made).range.end ≡ record { line = 0; character = 0 })
        × ((out-SelectionRange made).parent ≡ None) };

    fn default() -> SelectionRange {
        SelectionRange {
            range: Range::default(),
            parent: None,
        }
    }
}

impl Wire for SelectionRange {
    ghost shape = { selection_range_shape };

    ghost shown = { show_selection_range };

    fn from_value(alloc: Global, value: &Value) -> Result<SelectionRange, Misfit> {
        read_selection(alloc, value)
    }

    fn to_value(&self, alloc: Global) -> Result<Value, NoMemory> {
        write_selection(alloc, self)
    }
}

// By the row of one level.
#[cycle(reading)]
fn read_selection(alloc: Global, value: &Value) -> Result<SelectionRange, Misfit>
    ensures read { IfOk result
        (λ x. read selection_range_level.shape (view value.now) ≡ Some (show_selection_range x)) }
    ensures unfit { IfUnfit result
        (λ why. Refuses selection_range_level.shape (view value.now) why) }
{
    match value.as_object() {
        Some(object) => read_members(alloc, object),
        None => Err(Misfit::wanted(Wanted::Object)),
    }
}

#[cycle(reading)]
#[tactic(auto, unfolding(crate::specs::SelectionRange::selection_range_level, crate::specs::SelectionRange::show_selection_range))]
fn read_members(alloc: Global, object: &Map<String, Value>) -> Result<SelectionRange, Misfit>
    ensures read { IfOk result
        (λ x. read selection_range_level.shape (object_of (members_view object.now.entries))
        ≡ Some (show_selection_range x)) }
    ensures unfit { IfUnfit result
        (λ why. Refuses selection_range_level.shape
        (object_of (members_view object.now.entries)) why) }
{
    Ok(SelectionRange {
        range: field(alloc, object, "range")?,
        parent: read_parent(alloc, object)?,
    })
}

#[cycle(reading)]
#[tactic(auto, using(crate::proofs::Unrolled::reading_lemmas))]
fn read_parent(
    alloc: Global,
    object: &Map<String, Value>,
) -> Result<Option<Box<SelectionRange>>, Misfit>
    ensures read { IfOk result
        (λ o. read_member omitted (read selection_range_shape)
        (get_member (codes "parent") (members_view object.now.entries))
        ≡ Some (show_option show_parent o)) }
    ensures unfit { IfUnfit result
        (λ why. (t : Shape) → named_field (codes "parent") (fields_of t)
        ≡ Some (omitted, selection_range_shape)
        → Refuses t (object_of (members_view object.now.entries)) why) }
{
    match find(object, "parent") {
        Some(value) => told_member(object, "parent", read_outer(alloc, value)),
        None => Ok(None),
    }
}

#[cycle(reading)]
#[tactic(auto, using(crate::proofs::Unrolled::reading_lemmas))]
fn read_outer(alloc: Global, value: &Value) -> Result<Option<Box<SelectionRange>>, Misfit>
    ensures read { IfOk result
        (λ o. read_maybe (read selection_range_shape) (view value.now)
        ≡ Some (show_option show_parent o)) }
    ensures unfit { IfUnfit result
        (λ why. Refuses (maybe selection_range_shape) (view value.now) why) }
{
    if value.is_null() {
        return Ok(None);
    }
    let outer = read_selection(alloc, value)?;
    Ok(Some(Box::new(alloc, outer)?))
}

// By the row of one level.
#[cycle(writing)]
#[tactic(auto, unfolding(crate::specs::SelectionRange::selection_range_level, crate::specs::SelectionRange::show_selection_range))]
fn write_selection(alloc: Global, selection: &SelectionRange) -> Result<Value, NoMemory>
    ensures written { IfOk result
        (λ v. view v ≡ write selection_range_level.shape (show_selection_range selection.now)) }
    ensures of_shape { OnOk result
        (is_of selection_range_level.shape (show_selection_range selection.now) ≡ true) }
{
    let mut object = Map::new(alloc);
    put(alloc, &mut object, "range", &selection.range)?;
    put_parent(alloc, &mut object, &selection.parent)?;
    Ok(Value::Object(object))
}

#[cycle(writing)]
#[tactic(auto, using(crate::proofs::Unrolled::writing_lemmas))]
fn put_parent(
    alloc: Global,
    object: &mut Map<String, Value>,
    parent: &Option<Box<SelectionRange>>,
) -> Result<(), NoMemory>
    ensures put { OnOk result
        (members_view object.new.entries
        ≡ put_present (codes "parent") (write selection_range_shape)
        (show_option show_parent parent.now) (members_view object.old.entries)) }
    ensures of_shape { OnOk result
        (is_maybe (is_of selection_range_shape) (show_option show_parent parent.now) ≡ true) }
{
    match parent {
        Some(outer) => {
            let value = write_selection(alloc, outer)?;
            put_value(alloc, object, "parent", value)
        }
        None => Ok(()),
    }
}
