// Why a value of the editor's does not fit.
ghost use Rattle.std.specs.Prelude.{◌≡◌, IfOk, IsSome, IsNone, None, is_some, true};
ghost use Rattle.serde_json.specs.View.{view};
ghost use Rattle.lsp_shape.specs.Read.{read};

use lsp_types::{NoMemory, Wire, why_unfit};
use serde_json::Value;
use std::alloc::Global;

/// What to log of a value that does not fit a type, or None where it fits.
pub fn unfit_line<T: Wire>(alloc: Global, value: &Value) -> Result<Option<String>, NoMemory>
    ensures unfit { IfOk result (λ line. IsSome line → read T.shape (view value.now) ≡ None) }
    ensures fits { IfOk result (λ line. IsNone line
        → is_some (read T.shape (view value.now)) ≡ true) }
{
    match why_unfit::<T>(alloc, value)? {
        Some(why) => Ok(Some(format!(in alloc; "A value that does not fit: {why}")?)),
        None => Ok(None),
    }
}
