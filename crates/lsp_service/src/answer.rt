// What a reply of a server comes to.
ghost use Rattle.std.specs.Prelude.{◌≡◌, true, IfOk, OnErr, IsOk};
ghost use Rattle.lsp_rpc.specs.Message.{body_has_float};
ghost use Rattle.lsp_rpc.specs.Shown.{show_body};
ghost use Rattle.lsp_methods.specs.Shapes.{result_shape};
ghost use Rattle.lsp_service.specs.Data.{answer, written as written_def, custom_answer as custom_answer_of, noted as noted_def, outcome_by, result_shown, write_body, mismatch as mismatch_def, kind_of, unless_float as unless_float_def};
ghost use Rattle.lsp_service.specs.Replies.{show_offered};

use crate::call::Target;
use crate::initialize::InitializeReply;
use lsp_methods::{LifeMethod, Method};
use lsp_rpc::{Error, NoMemory, is_float_free};
use lsp_session::Kind;
use lsp_shape::Wire;
use serde_json::Value;
use std::alloc::Global;

// The reply is none of the call's.
fn mismatch(alloc: Global) -> Result<Result<Value, Error>, NoMemory>
    ensures { IfOk result (λ body. show_body body ≡ mismatch_def) }
{
    Ok(Err(Error::internal_error(alloc)?))
}

/// What the answer to a request of `method` comes to, where `target` was called.
pub(crate) fn answered<T: Wire>(
    alloc: Global,
    target: Target,
    method: Method,
    body: Result<T, Error>,
) -> Result<Result<Value, Error>, NoMemory>
    requires { result_shape method ≡ T.shape }
    ensures { IfOk result (λ sent. show_body sent
        ≡ outcome_by target (answer method (result_shown T.shown body))) }
{
    match target {
        Target::Typed(called) if called.place() == method.place() => {
            let written = written(alloc, method, body)?;
            unless_float(alloc, written)
        }
        _ => mismatch(alloc),
    }
}

fn written<T: Wire>(
    alloc: Global,
    method: Method,
    body: Result<T, Error>,
) -> Result<Result<Value, Error>, NoMemory>
    requires { result_shape method ≡ T.shape }
    ensures { IfOk result (λ written. show_body written
        ≡ write_body (result_shape method) (result_shown T.shown body)) }
{
    match body {
        Ok(value) => Ok(Ok(value.to_value(alloc)?)),
        Err(error) => Ok(Err(error)),
    }
}

// What an answer to a request of `method` that was written before comes to.
fn written_answered(
    alloc: Global,
    target: Target,
    method: Method,
    body: Result<Value, Error>,
) -> Result<Result<Value, Error>, NoMemory>
    ensures { IfOk result (λ sent. show_body sent
        ≡ outcome_by target (written_def method (show_body body))) }
{
    match target {
        Target::Typed(called) if called.place() == method.place() => unless_float(alloc, body),
        _ => mismatch(alloc),
    }
}

/// What the answer to `initialize` comes to, where `target` was called.
pub(crate) fn initialize_answered(
    alloc: Global,
    target: Target,
    body: Result<InitializeReply, Error>,
) -> Result<Result<Value, Error>, NoMemory>
    ensures { IfOk result (λ sent. show_body sent
        ≡ outcome_by target (written_def (Method.Life LifeMethod.Initialize) (show_offered body))) }
{
    let method = Method::Life(LifeMethod::Initialize);
    match body {
        Ok(reply) => written_answered(alloc, target, method, Ok(reply.result)),
        Err(error) => written_answered(alloc, target, method, Err(error)),
    }
}

/// What the answer to a custom request comes to.
pub(crate) fn custom_answered(
    alloc: Global,
    target: Target,
    body: Result<Value, Error>,
) -> Result<Result<Value, Error>, NoMemory>
    ensures { IfOk result (λ sent. show_body sent
        ≡ outcome_by target (custom_answer_of (show_body body))) }
{
    match target {
        Target::Typed(_) => mismatch(alloc),
        Target::Custom(_) => unless_float(alloc, body),
    }
}

/// No answer: what a notification is owed.
pub(crate) fn noted(alloc: Global, target: Target) -> Result<Result<Value, Error>, NoMemory>
    ensures noted { IfOk result (λ sent. show_body sent ≡ outcome_by target noted_def) }
    ensures notification { kind_of target ≡ Kind.Notification → IsOk result }
{
    let kind = match target {
        Target::Typed(method) => method.kind(),
        Target::Custom(kind) => kind,
    };
    match kind {
        Kind::Notification => Ok(Ok(Value::Null)),
        Kind::Request => mismatch(alloc),
    }
}

/// What is written, unless it holds a float.
pub(crate) fn unless_float(
    alloc: Global,
    body: Result<Value, Error>,
) -> Result<Result<Value, Error>, NoMemory>
    ensures sent { IfOk result (λ sent. show_body sent ≡ unless_float_def (show_body body)) }
    ensures memory { OnErr result (body_has_float (show_body body) ≡ true) }
{
    let clean = match &body {
        Ok(value) => is_float_free(value),
        Err(error) => match &error.payload {
            Some(payload) => is_float_free(payload),
            None => true,
        },
    };
    if clean { Ok(body) } else { mismatch(alloc) }
}
