// Params of a method, read by its shape.
ghost use Rattle.std.specs.Prelude.{◌≡◌, true, IfOk, OnOk, IfErr, IfSome, IsErrOf, Some, None, is_some, option_map};
ghost use Rattle.serde_json.specs.View.{view};
ghost use Rattle.lsp_session.specs.Semantics.{call as call_read};
ghost use Rattle.lsp_methods.specs.Shapes.{params_shape};
ghost use Rattle.lsp_initialize.specs.Client.{initialize_params_row};
ghost use Rattle.lsp_service.specs.Calls.{show_initialize};
ghost use Rattle.lsp_service.specs.Data.{fits, typed};
ghost use Rattle.lsp_service.specs.Reads.{reading, Refuses};

use crate::initialize::InitializeCall;
use lsp_initialize::InitializeParams;
use lsp_methods::{LifeMethod, Method};
use lsp_session::CallMisfit;
use lsp_shape::{NoMemory, Wire, attempt};
use serde_json::Value;
use std::alloc::Global;

/// The params of a method that has some.
pub(crate) fn params_of<T: Wire>(
    alloc: Global,
    method: Method,
    params: Option<&Value>,
) -> Result<T, CallMisfit>
    requires { params_shape method ≡ Some T.shape }
    ensures ok { IfOk result (λ x. reading method (option_map (λ v. view v.now) params.entry)
        ≡ call_read (typed method (Some (T.shown x)))) }
    ensures err { IfErr result (λ e. Refuses method
        (option_map (λ v. view v.now) params.entry) e) }
{
    match params {
        None => Err(CallMisfit::Missing),
        Some(value) => match attempt(alloc, value) {
            Ok(Some(read)) => Ok(read),
            Ok(None) => Err(CallMisfit::Unfit),
            Err(NoMemory) => Err(CallMisfit::NoMemory),
        },
    }
}

/// The call of `initialize` with these params.
pub(crate) fn initialize_call(
    alloc: Global,
    params: Option<&Value>,
) -> Result<InitializeCall, CallMisfit>
    ensures ok { IfOk result (λ c. reading (Method.Life LifeMethod.Initialize)
        (option_map (λ v. view v.now) params.entry)
        ≡ call_read (typed (Method.Life LifeMethod.Initialize) (Some (show_initialize c)))) }
    ensures err { IfErr result (λ e. Refuses (Method.Life LifeMethod.Initialize)
        (option_map (λ v. view v.now) params.entry) e) }
{
    match params {
        None => Err(CallMisfit::Missing),
        Some(value) => match fitting(alloc, value) {
            Ok(Some(params)) => Ok(InitializeCall { params }),
            Ok(None) => Err(CallMisfit::Unfit),
            Err(NoMemory) => Err(CallMisfit::NoMemory),
        },
    }
}

// A copy of params that fit, and none of others.
fn fitting(alloc: Global, value: &Value) -> Result<Option<Value>, NoMemory>
    ensures same { IfOk result (λ o. IfSome o (λ copy. view copy ≡ view value.now)) }
    ensures fits { IfOk result
        (λ o. is_some o ≡ fits initialize_params_row.shape (view value.now)) }
{
    if !InitializeParams::is_fitting(alloc, value)? {
        return Ok(None);
    }
    Ok(Some(value.clone()?))
}

/// A method without params has none.
pub(crate) fn no_params(method: Method, params: Option<&Value>) -> Result<(), CallMisfit>
    requires { params_shape method ≡ None }
    ensures ok { OnOk result (reading method (option_map (λ v. view v.now) params.entry)
        ≡ call_read (typed method None)) }
    ensures err { IfErr result (λ e. Refuses method
        (option_map (λ v. view v.now) params.entry) e) }
    ensures memory { ¬ IsErrOf result CallMisfit.NoMemory }
{
    match params {
        None => Ok(()),
        Some(_) => Err(CallMisfit::Unexpected),
    }
}
