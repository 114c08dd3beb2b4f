//! Numbers from their texts, without a float.
ghost use Rattle.std.specs.Prelude.{◌≡◌, true, false, Some, option_map, IfSome};
ghost use Rattle.fast_float.specs.Text.{scan};
ghost use Rattle.serde_json.specs.Read.{number_of, float_of};
ghost use Rattle.serde_json.specs.View.{view};
ghost use Rattle.serde_json.specs.Written.{has_float};
ghost use Rattle.lsp_text.specs.Floats.{integer_or_null as integer_or_null_def, number_by};

use crate::floats::Floats;
use fast_float::Numeral;
use serde_json::Value;
use std::num::{
    nearest_i64_to_f64, nearest_u64_to_f64, saturating_f64_to_i64, saturating_f64_to_u64,
};

// The integer that the float is equal to, or null.
fn integer_or_null(x: f64) -> Value
    ensures value { view result ≡ integer_or_null_def x }
    ensures clean { has_float (view result) ≡ false }
{
    let n = saturating_f64_to_u64(x);
    if n < u64::MAX && nearest_u64_to_f64(n) == x {
        return Value::from(n);
    }
    let n = saturating_f64_to_i64(x);
    if nearest_i64_to_f64(n) == x {
        return Value::from(n);
    }
    Value::Null
}

// What stands for the float that the digits are after this sign. They are scanned again, so that a
// numeral that is no float needs no place in memory.
#[inline(never)]
fn float_in(floats: Floats, negative: bool, digits: &[u8]) -> Option<Value>
    ensures value { IfSome result (λ v. option_map (number_by floats)
        (float_of negative (scan digits.now)) ≡ Some (view v)) }
    ensures clean { IfSome result (λ v. has_float (view v) ≡ false) }
{
    match floats {
        Floats::Refused => None,
        Floats::Read => {
            let x = Numeral::scan(digits).to_float::<f64>(negative);
            if x.is_finite() {
                Some(integer_or_null(x))
            } else {
                None
            }
        }
    }
}

// The number that the text is, without a float. A zero after a minus is one.
#[tactic(auto, unfolding(serde_json::specs::Read::number_of))]
pub(crate) fn number(floats: Floats, text: &str) -> Option<Value>
    ensures value { IfSome result
        (λ v. option_map (number_by floats) (number_of text.now) ≡ Some (view v)) }
    ensures clean { IfSome result (λ v. has_float (view v) ≡ false) }
{
    let bytes = text.as_bytes();
    if !bytes.is_empty() && bytes[0] == b'-' {
        let digits = &bytes[1..];
        let numeral = Numeral::scan(digits);
        match numeral.to_i64(true) {
            Some(n) if n < 0 => Some(Value::from(n)),
            _ => float_in(floats, true, digits),
        }
    } else {
        let numeral = Numeral::scan(bytes);
        match numeral.to_u64() {
            Some(n) => Some(Value::from(n)),
            None => float_in(floats, false, bytes),
        }
    }
}
