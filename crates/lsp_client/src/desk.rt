// What is sent of each method, and of telemetry.
ghost use Rattle.std.specs.Prelude.{◌≡◌, IfOk, IfErr, OnErr};
ghost use Rattle.serde_json.specs.View.{view};
ghost use Rattle.lsp_desk.specs.Call.{Ask, Tell};
ghost use Rattle.lsp_desk.specs.Meaning.{PollsOn};
ghost use Rattle.lsp_session.specs.Fails.{PollFails};
ghost use Rattle.lsp_shape.specs.Write.{write};
ghost use Rattle.lsp_ask.specs.Client.{Continues, IsAsked, IsTold, IsUnreplied, SendsNone};
ghost use Rattle.lsp_ask.specs.Shown.{show_asked};
ghost use Rattle.lsp_client.specs.Methods.{in_array, telemetry_params as telemetry_data};

use lsp_ask::{Asked, Told};
use lsp_desk::{Caller, DeskFault};
use lsp_methods::notification::Notification;
use lsp_methods::request::Request;
use lsp_rpc::NoMemory;
use lsp_shape::Wire;
use serde_json::Value;
use std::alloc::Global;

// The params of a telemetry event: null, an array or an object is sent as it is, anything else as
// the one item of an array.
pub(crate) fn telemetry_params(alloc: Global, event: Value) -> Result<Value, NoMemory>
    ensures data { IfOk result (λ params. view params ≡ telemetry_data (view event)) }
    ensures memory { OnErr result (telemetry_data (view event) ≡ in_array (view event)) }
{
    match event {
        Value::Null | Value::Array(_) | Value::Object(_) => Ok(event),
        _ => {
            let mut items = Vec::with_capacity(alloc, 1)?;
            items.push(event)?;
            Ok(Value::Array(items))
        }
    }
}

// Sends a notification of this method.
pub(crate) fn notify<D: Caller, N: Notification>(
    alloc: Global,
    client: &mut D,
    params: &N::Params,
    gated: bool,
) -> Result<Told, DeskFault>
where
    N::Params: Wire,
    ensures told { IfOk result (λ told. PollsOn D.meaning client.old client.new
        (IsTold (Tell N.name (write N.Params.shape (N.Params.shown params.now)) gated) told)) }
    ensures failed { IfErr result (λ fault. PollFails D.meaning client.old client.new fault) }
    ensures continues { Continues D.meaning client.old client.new }
    ensures unsent { OnErr result (PollsOn D.meaning client.old client.new
        (IsUnreplied (Tell N.name (write N.Params.shape (N.Params.shown params.now)) gated))) }
{
    lsp_ask::notify(alloc, client, N::method(), params, gated)
}

// Sends a request of this method.
pub(crate) fn request<D: Caller, R: Request>(
    alloc: Global,
    client: &mut D,
    params: &R::Params,
    gated: bool,
) -> Result<Asked<R>, DeskFault>
where
    R::Params: Wire,
    ensures asked { IfOk result (λ asked. PollsOn D.meaning client.old client.new
        (IsAsked (Ask R.name (write R.Params.shape (R.Params.shown params.now)) gated)
        (show_asked asked))) }
    ensures failed { IfErr result (λ fault. PollFails D.meaning client.old client.new fault) }
    ensures continues { Continues D.meaning client.old client.new }
    ensures unsent { OnErr result (PollsOn D.meaning client.old client.new
        (SendsNone (Ask R.name (write R.Params.shape (R.Params.shown params.now)) gated))) }
{
    lsp_ask::request(alloc, client, R::method(), params, gated)
}
