//! JSON values: floats inside, and copies.
ghost use Rattle.std.specs.Prelude.{◌≡◌, IfOk, not, option_map};
ghost use Rattle.serde_json.specs.Written.{has_float, items_have_float, members_have_float};
ghost use Rattle.serde_json.specs.View.{view, items_view, members_view};

use serde_json::{Map, Value};
use std::alloc::AllocError;

/// Whether no number in the value is a float.
#[cycle(float)]
pub fn is_float_free(value: &Value) -> bool
    ensures { result ≡ not (has_float (view value.now)) }
{
    match value {
        Value::Null => true,
        Value::Bool(_) => true,
        Value::Number(n) => !n.is_f64(),
        Value::String(_) => true,
        Value::Array(items) => are_items_float_free(items),
        Value::Object(members) => are_members_float_free(members),
    }
}

#[cycle(float)]
fn are_items_float_free(items: &Vec<Value>) -> bool
    ensures { result ≡ not (items_have_float (items_view items.now.items)) }
{
    for item in items {
        if !is_float_free(item) {
            return false;
        }
    }
    true
}

#[cycle(float)]
fn are_members_float_free(members: &Map<String, Value>) -> bool
    ensures { result ≡ not (members_have_float (members_view members.now.entries)) }
{
    for (_, member) in members.iter() {
        if !is_float_free(member) {
            return false;
        }
    }
    true
}

pub(crate) fn copy_value(value: &Option<Value>) -> Result<Option<Value>, AllocError>
    ensures { IfOk result (λ copy. option_map view copy ≡ option_map view value.now) }
{
    match value {
        Some(value) => Ok(Some(value.clone()?)),
        None => Ok(None),
    }
}
