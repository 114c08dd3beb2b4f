// A text that is read as a value of a type, and one that is written for it.
ghost use Rattle.std.specs.Prelude.{◌≡◌, ◌⊎◌, ◌≤◌, IfOk, OnOk, IsErrOf, Some, None, true, false, string_bytes};
ghost use Rattle.serde_json.specs.Data.{Data, depth};
ghost use Rattle.serde_json.specs.Errors.{IsMemory};
ghost use Rattle.serde_json.specs.Read as json_text;
ghost use Rattle.serde_json.specs.View.{view};
ghost use Rattle.serde_json.specs.Written.{compact_text, has_float};
ghost use Rattle.lsp_shape.specs.Read.{read};
ghost use Rattle.lsp_shape.specs.Write.{write};
ghost use Rattle.lsp_shape.specs.Values.{is_of};
ghost use Rattle.lsp_shape.specs.declared.text.TextMisfit.TheVariants as misfits;

use crate::why::Misfit;
use crate::wire::Wire;
use no_memory::NoMemory;
use serde_json::Value;
use std::alloc::Global;

/// Why a text is not read.
#[derive(Clone, Copy, Debug, PartialEq, Eq)]
pub enum TextMisfit {
    /// The text is no JSON value that is read: none, or one that nests deeper than 127, or that has
    /// a number too large for a float.
    Json,
    /// The value does not fit the shape of the type.
    Unfit,
    /// Out of memory.
    NoMemory,
}

impl From<serde_json::Error> for TextMisfit {
    ghost from_gives = { λ e misfit. ((misfit ≡ misfits.NoMemory) × IsMemory e)
        ⊎ ((misfit ≡ misfits.Json) × ¬ IsMemory e) };

    fn from(e: serde_json::Error) -> TextMisfit {
        if e.is_memory() {
            TextMisfit::NoMemory
        } else {
            TextMisfit::Json
        }
    }
}

// The value that the text is.
fn parse(alloc: Global, text: &str) -> Result<Value, TextMisfit>
    ensures ok { IfOk result (λ v. json_text.read text.now ≡ Some (view v)) }
    ensures json { IsErrOf result TextMisfit.Json → json_text.read text.now ≡ None }
    ensures unfit { ¬ IsErrOf result TextMisfit.Unfit }
{
    Ok(Value::from_str(alloc, text)?)
}

/// The value that the text is read as. `Json` comes only where the text is no JSON value that
/// is read, and `Unfit` only where it is one that does not fit.
pub fn read_text<T: Wire>(alloc: Global, text: &str) -> Result<T, TextMisfit>
    ensures read { IfOk result
        (λ x. (d : Data) × (json_text.read text.now ≡ Some d)
        × (read T.shape d ≡ Some (T.shown x))) }
    ensures json { IsErrOf result TextMisfit.Json → json_text.read text.now ≡ None }
    ensures unfit { IsErrOf result TextMisfit.Unfit
        → ((d : Data) × (json_text.read text.now ≡ Some d) × (read T.shape d ≡ None)) }
{
    let value = parse(alloc, text)?;
    match T::from_value(alloc, &value) {
        Ok(read) => Ok(read),
        Err(Misfit::Unfit(_)) => Err(TextMisfit::Unfit),
        Err(Misfit::NoMemory) => Err(TextMisfit::NoMemory),
    }
}

/// The compact text of what is written for the value. The one error is out of memory.
pub fn write_text<T: Wire>(alloc: Global, value: &T) -> Result<String, NoMemory>
    ensures text { let written = write T.shape (T.shown value.now) in
        IfOk result (λ s. has_float written ≡ false → string_bytes s ≡ compact_text written) }
    ensures reads_back { let written = write T.shape (T.shown value.now) in
        IfOk result (λ s. depth written ≤ json_text.max_depth
        → json_text.read (string_bytes s) ≡ Some written) }
    ensures of_shape { OnOk result (is_of T.shape (T.shown value.now) ≡ true) }
{
    Ok(value.to_value(alloc)?.to_string(alloc)?)
}
