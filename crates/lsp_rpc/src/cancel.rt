//! What a cancel names.
ghost use Rattle.std.specs.Prelude.{◌≡◌, codes, option_map};
ghost use Rattle.serde_json.specs.Find.{get_member};
ghost use Rattle.serde_json.specs.View.{view};
ghost use Rattle.lsp_rpc.specs.Cancel.{cancelled_id as cancelled_id_def, cancel_target as cancel_target_def, small_number as small_number_def};
ghost use Rattle.lsp_rpc.specs.Pieces.{members_shown};
ghost use Rattle.lsp_rpc.specs.Shown.{show_id};

use crate::Id;
use serde_json::{Map, Value};

/// The id that the params of a `$/cancelRequest` name, if they name one: an integer of 32 bits or a
/// string (LSP 3.17, "Cancellation Support").
pub fn cancelled_id(params: Option<Value>) -> Option<Id>
    ensures { option_map show_id result ≡ cancelled_id_def (option_map view params) }
{
    match params {
        Some(Value::Object(mut members)) => match take_id(&mut members) {
            Some(value) => cancel_target(value),
            None => None,
        },
        _ => None,
    }
}

fn take_id(members: &mut Map<String, Value>) -> Option<Value>
    ensures { option_map view result ≡ get_member (codes "id") (members_shown members.old) }
{
    members.remove("id")
}

// An id that a cancel may name.
fn cancel_target(value: Value) -> Option<Id>
    ensures { option_map show_id result ≡ cancel_target_def (view value) }
{
    match value {
        Value::Number(number) => small_number(number.as_i64()),
        Value::String(text) => Some(Id::String(text)),
        _ => None,
    }
}

// An id that is a number is an i32 where a cancel names it.
fn small_number(number: Option<i64>) -> Option<Id>
    ensures { option_map show_id result ≡ small_number_def number }
{
    match number {
        Some(n) if -2147483648 <= n && n < 2147483648 => Some(Id::Number(n)),
        _ => None,
    }
}
