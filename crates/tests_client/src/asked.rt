// What becomes of what is asked and told, as texts.
ghost use Rattle.std.specs.Prelude.{◌≡◌, false, IfOk};
ghost use Rattle.lsp_desk.specs.Call.{call_has_float};
ghost use Rattle.lsp_desk.specs.Reply.{reply_has_float};
ghost use Rattle.lsp_desk.specs.Shown.{show_server_call, show_server_reply};

use lsp_client::{Answered, Asked, Told};
use lsp_desk::{Desk, DeskFault, ServerCall, ServerReply};
use lsp_rows::text_of;
use lsp_rpc::Response;
use lsp_shape::{Misfit, Wanted, Wire};
use serde_json::Value;
use std::alloc::Global;

/// What became of a notification.
pub(crate) fn told(alloc: Global, told: Result<Told, DeskFault>) -> Result<String, Misfit> {
    match told {
        Ok(told) => Ok(format!(in alloc; "{told:?}")?),
        Err(fault) => Ok(format!(in alloc; "{fault:?}")?),
    }
}

/// What became of a request.
pub(crate) fn asked<R>(
    alloc: Global,
    asked: Result<Asked<R>, DeskFault>,
) -> Result<String, Misfit> {
    let text = asked_text(alloc, &asked);
    drop(asked);
    text
}

fn asked_text<R>(alloc: Global, asked: &Result<Asked<R>, DeskFault>) -> Result<String, Misfit> {
    match asked {
        Ok(Asked::Ticket(_)) => Ok(String::from_str(alloc, "Ticket")?),
        Ok(Asked::Refused(error)) => Ok(format!(in alloc; "Refused({})", error.code.code())?),
        Err(fault) => Ok(format!(in alloc; "{fault:?}")?),
    }
}

/// What came of a request.
pub(crate) fn answered<R, A: Wire>(
    alloc: Global,
    answered: Result<Answered<R, A>, DeskFault>,
) -> Result<String, Misfit> {
    let text = answer_text(alloc, &answered);
    drop(answered);
    text
}

fn answer_text<R, A: Wire>(
    alloc: Global,
    answered: &Result<Answered<R, A>, DeskFault>,
) -> Result<String, Misfit> {
    match answered {
        Ok(Answered::Value(value)) => Ok(text_of(alloc, value)?),
        Ok(Answered::Error(error)) => Ok(format!(in alloc; "Error({})", error.code.code())?),
        Ok(Answered::Pending(_)) => Ok(String::from_str(alloc, "Pending")?),
        Err(fault) => Ok(format!(in alloc; "{fault:?}")?),
    }
}

/// The value that a text is read as.
pub(crate) fn read<T: Wire>(alloc: Global, text: &str) -> Result<T, Misfit> {
    match Value::from_str(alloc, text) {
        Ok(value) => T::from_value(alloc, &value),
        Err(_) => Err(Misfit::wanted(Wanted::Form)),
    }
}

/// What a desk replies to a call of the session.
pub(crate) fn serve<D: Desk>(
    alloc: Global,
    desk: &mut D,
    call: ServerCall,
) -> Result<String, Misfit>
    requires { call_has_float (show_server_call call) ≡ false }
{
    let reply = desk.server(call);
    let text = reply_text(alloc, &reply);
    drop(reply);
    text
}

fn reply_text(alloc: Global, reply: &Result<ServerReply, DeskFault>) -> Result<String, Misfit>
    requires { IfOk reply.now (λ reply. reply_has_float (show_server_reply reply) ≡ false) }
{
    match reply {
        Ok(ServerReply::First(Some(request))) => Ok(request.to_text(alloc)?),
        Ok(ServerReply::Messages(_)) => Ok(String::from_str(alloc, "Messages")?),
        Ok(reply) => Ok(format!(in alloc; "{reply:?}")?),
        Err(fault) => Ok(format!(in alloc; "{fault:?}")?),
    }
}

/// What a desk replies to an answer of the client.
pub(crate) fn answer<D: Desk>(alloc: Global, desk: &mut D, text: &str) -> Result<String, Misfit> {
    match Response::from_text(alloc, text) {
        Ok(response) => serve(alloc, desk, ServerCall::Answer(response)),
        Err(_) => Err(Misfit::wanted(Wanted::Form)),
    }
}
