// What holds of every type that is read and written by a shape.
ghost use Rattle.std.specs.Prelude.{◌≡◌, true, false, IfOk, OnOk, Some, None};
ghost use Rattle.serde_json.specs.View.{view};
ghost use Rattle.serde_json.specs.Written.{has_float};
ghost use Rattle.lsp_shape.specs.Plain.{plain_has_float};
ghost use Rattle.lsp_shape.specs.Read.{read};
ghost use Rattle.lsp_shape.specs.Write.{write, trim};
ghost use Rattle.lsp_shape.specs.Values.{is_of, clear};
ghost use Rattle.lsp_shape.specs.Laws.{ReadsBack, TrimsAgain};
ghost use Rattle.lsp_shape.specs.Why.{IfUnfit, IsUnfit, Refuses};

use crate::why::Misfit;
use crate::wire::Wire;
use no_memory::NoMemory;
use serde_json::Value;
use std::alloc::Global;

/// Reads a value. What is read of a value with no float has none.
pub fn read_value<T: Wire>(alloc: Global, value: &Value) -> Result<T, Misfit>
    ensures read { IfOk result (λ x. read T.shape (view value.now) ≡ Some (T.shown x)) }
    ensures unfit { IsUnfit result → read T.shape (view value.now) ≡ None }
    ensures why { IfUnfit result (λ why. Refuses T.shape (view value.now) why) }
    ensures floatless { has_float (view value.now) ≡ false
        → IfOk result (λ x. plain_has_float (T.shown x) ≡ false) }
{
    T::from_value(alloc, value)
}

/// What is written for the value. With no float in it, there is none in what is written.
pub fn write_value<T: Wire>(alloc: Global, value: &T) -> Result<Value, NoMemory>
    ensures written { IfOk result (λ v. view v ≡ write T.shape (T.shown value.now)) }
    ensures of_shape { OnOk result (is_of T.shape (T.shown value.now) ≡ true) }
    ensures floatless { plain_has_float (T.shown value.now) ≡ false
        → IfOk result (λ v. has_float (view v) ≡ false) }
{
    value.to_value(alloc)
}

/// What is written of what is read of the value.
pub fn trimmed<T: Wire>(alloc: Global, value: &Value) -> Result<Value, Misfit>
    ensures trims { IfOk result (λ v. trim T.shape (view value.now) ≡ Some (view v)) }
    ensures unfit { IsUnfit result → trim T.shape (view value.now) ≡ None }
    ensures again { IfOk result (λ v. TrimsAgain T.shape (view value.now) (view v)) }
{
    let read = T::from_value(alloc, value)?;
    Ok(read.to_value(alloc)?)
}

/// Writes the value, and reads that back: the same value, where its plain data is clear.
pub fn reads_back<T: Wire>(alloc: Global, value: &T) -> Result<T, Misfit>
    ensures same { IfOk result
        (λ x. clear T.shape (T.shown value.now) ≡ true → T.shown x ≡ T.shown value.now) }
    ensures fits { IsUnfit result → clear T.shape (T.shown value.now) ≡ false }
    ensures always { ReadsBack T.shape }
{
    let written = value.to_value(alloc)?;
    T::from_value(alloc, &written)
}
