ghost use Rattle.std.specs.Prelude.{◌≡◌, IfOk, OnOk, true, false, Some};
ghost use Rattle.serde_json.specs.Data.{Data};
ghost use Rattle.serde_json.specs.View.{view};
ghost use Rattle.serde_json.specs.Written.{has_float};
ghost use Rattle.lsp_shape.specs.Plain.{Plain, plain_has_float};
ghost use Rattle.lsp_shape.specs.Shape.{Shape};
ghost use Rattle.lsp_shape.specs.Read.{read};
ghost use Rattle.lsp_shape.specs.Write.{write};
ghost use Rattle.lsp_shape.specs.Values.{is_of};
ghost use Rattle.lsp_shape.specs.Why.{Refuses, IfUnfit};
ghost use Rattle.lsp_shape.specs.FloatsRead.{read_floatless};
ghost use Rattle.lsp_shape.specs.FloatsWritten.{write_floatless};

use crate::why::Misfit;
use no_memory::NoMemory;
use serde_json::Value;
use std::alloc::Global;

/// A type that is read from a JSON value, and written as one.
///
/// A shape says which values fit the type, what they are read as, and what is written. Plain data
/// says what a value of the type is, so that one definition of reading serves every type.
pub trait Wire: Drop {
    /// What a value must be to be read.
    ghost shape: { Shape };

    /// What a value of the type is, as plain data.
    ghost shown: { Self → Plain };

    /// The value that the JSON value is read as. `Unfit` comes only where it does not fit, and says
    /// why.
    fn from_value(alloc: Global, value: &Value) -> Result<Self, Misfit>
        ensures read { IfOk result (λ x. read shape (view value.now) ≡ Some (shown x)) }
        ensures unfit { IfUnfit result (λ why. Refuses shape (view value.now) why) };

    /// What is written for the value: its plain data, by the shape. The one error is out of memory.
    fn to_value(&self, alloc: Global) -> Result<Value, NoMemory>
        ensures written { IfOk result (λ v. view v ≡ write shape (shown self.now)) }
        ensures of_shape { OnOk result (is_of shape (shown self.now) ≡ true) };

    /// What is read of a value with no float holds none.
    ghost reads_no_float: { (d : Data) (p : Plain) → has_float d ≡ false → read shape d ≡ Some p
        → plain_has_float p ≡ false } = { read_floatless shape };

    /// What is written of a value that holds no float has none.
    ghost writes_no_float: { (p : Plain) → plain_has_float p ≡ false
        → has_float (write shape p) ≡ false } = { write_floatless shape };
}
