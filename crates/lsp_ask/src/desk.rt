// The calls on the desk, each with what it comes to.
ghost use Rattle.std.specs.Prelude.{◌≡◌, true, false, Err, IsOk, IfOk, IfErr, OnErr, ◌∷◌, [], string_bytes};
ghost use Rattle.serde_json.specs.View.{view};
ghost use Rattle.serde_json.specs.Written.{has_float};
ghost use Rattle.lsp_rpc.specs.Message.{may_have_float};
ghost use Rattle.lsp_rpc.specs.Shown.{show_id, show_request};
ghost use Rattle.lsp_desk.specs.Call.{Ask, Tell, Raw, NextId, call_has_float};
ghost use Rattle.lsp_desk.specs.Meaning.{Adds, Calls, PollsOn};
ghost use Rattle.lsp_desk.specs.Reply.{reply_has_float};
ghost use Rattle.lsp_desk.specs.Shown.{show_client_call, show_client_reply};
ghost use Rattle.lsp_session.specs.Fails.{PollFails};
ghost use Rattle.lsp_session.specs.Run.{replied};
ghost use Rattle.lsp_shape.specs.Write.{write};
ghost use Rattle.lsp_ask.specs.Answers.{answered_has_float};
ghost use Rattle.lsp_ask.specs.Client.{AsksClean, Continues, IsAsked, IsDrawn, IsPollCut, IsPolled, IsTold, IsUnreplied, SendsNone, TellsClean};
ghost use Rattle.lsp_ask.specs.Shown.{show_answered, show_asked, ticket_number};

use crate::answers::{Answered, Asked, Ticket, Told, answered_by, asked_by};
use lsp_desk::{Caller, ClientCall, ClientReply, DeskFault};
use lsp_rpc::{Error, Id, NoMemory, Request, is_float_free};
use lsp_shape::Wire;
use serde_json::Value;
use std::alloc::Global;

/// A text of one's own.
pub fn text(alloc: Global, text: &str) -> Result<String, NoMemory>
    ensures { IfOk result (λ copy. string_bytes copy ≡ text.now) }
{
    Ok(String::from_str(alloc, text)?)
}

// Makes a call on the desk.
fn make_call<D: Caller>(client: &mut D, call: ClientCall) -> Result<ClientReply, DeskFault>
    requires { call_has_float (show_client_call call) ≡ false }
    ensures calls { Calls D.meaning show_client_reply client.old (show_client_call call) result
        client.new }
    ensures failed { IfErr result (λ fault. PollFails D.meaning client.old client.new fault) }
    ensures continues { Continues D.meaning client.old client.new }
    ensures float_free { IfOk result (λ reply. reply_has_float (show_client_reply reply)
        ≡ false) }
{
    client.client(call)
}

// ---- what isn't answered

// Sends a notification that holds no float.
fn tell_clean<D: Caller>(
    client: &mut D,
    method: String,
    params: Value,
    gated: bool,
) -> Result<Told, DeskFault>
    requires { has_float (view params) ≡ false }
    ensures told { IfOk result (λ told. PollsOn D.meaning client.old client.new
        (TellsClean (Tell (string_bytes method) (view params) gated) told)) }
    ensures failed { IfErr result (λ fault. PollFails D.meaning client.old client.new fault) }
    ensures continues { Continues D.meaning client.old client.new }
    ensures unsent { OnErr result (PollsOn D.meaning client.old client.new
        (IsUnreplied (Tell (string_bytes method) (view params) gated))) }
{
    let call = ClientCall::Tell {
        method,
        params,
        gated,
    };
    match make_call(client, call) {
        Ok(reply) => match reply {
            ClientReply::Sent => Ok(Told::Sent),
            ClientReply::Suppressed => Ok(Told::Suppressed),
            ClientReply::Exited => Ok(Told::Exited),
            _ => unreachable!(),
        },
        Err(fault) => Err(fault),
    }
}

/// Sends a notification, unless it holds a float. One that is gated waits for `initialize`.
pub fn tell<D: Caller>(
    client: &mut D,
    method: String,
    params: Value,
    gated: bool,
) -> Result<Told, DeskFault>
    ensures told { IfOk result (λ told. PollsOn D.meaning client.old client.new
        (IsTold (Tell (string_bytes method) (view params) gated) told)) }
    ensures failed { IfErr result (λ fault. PollFails D.meaning client.old client.new fault) }
    ensures continues { Continues D.meaning client.old client.new }
    ensures unsent { OnErr result (PollsOn D.meaning client.old client.new
        (IsUnreplied (Tell (string_bytes method) (view params) gated))) }
    ensures suppressed { has_float (view params) ≡ true → IsOk result }
{
    if is_float_free(&params) {
        tell_clean(client, method, params, gated)
    } else {
        Ok(Told::Suppressed)
    }
}

/// The same, of params of a type.
pub fn notify<D: Caller, P: Wire>(
    alloc: Global,
    client: &mut D,
    method: &str,
    params: &P,
    gated: bool,
) -> Result<Told, DeskFault>
    ensures told { IfOk result (λ told. PollsOn D.meaning client.old client.new
        (IsTold (Tell method.now (write P.shape (P.shown params.now)) gated) told)) }
    ensures failed { IfErr result (λ fault. PollFails D.meaning client.old client.new fault) }
    ensures continues { Continues D.meaning client.old client.new }
    ensures unsent { OnErr result (PollsOn D.meaning client.old client.new
        (IsUnreplied (Tell method.now (write P.shape (P.shown params.now)) gated))) }
{
    let method = text(alloc, method)?;
    let params = params.to_value(alloc)?;
    tell(client, method, params, gated)
}

// ---- what is answered

// Sends a request that holds no float.
fn ask_clean<D: Caller, R>(
    alloc: Global,
    client: &mut D,
    method: String,
    params: Value,
    gated: bool,
) -> Result<Asked<R>, DeskFault>
    requires { has_float (view params) ≡ false }
    ensures asked { IfOk result (λ asked. PollsOn D.meaning client.old client.new
        (AsksClean (Ask (string_bytes method) (view params) gated) (show_asked asked))) }
    ensures failed { IfErr result (λ fault. PollFails D.meaning client.old client.new fault) }
    ensures continues { Continues D.meaning client.old client.new }
    ensures unsent { OnErr result (PollsOn D.meaning client.old client.new
        (SendsNone (Ask (string_bytes method) (view params) gated))) }
{
    let call = ClientCall::Ask {
        method,
        params,
        gated,
    };
    match make_call(client, call) {
        Ok(reply) => Ok(asked_by(alloc, reply)?),
        Err(fault) => Err(fault),
    }
}

// Sends a request, unless it holds a float.
fn ask<D: Caller, R>(
    alloc: Global,
    client: &mut D,
    method: String,
    params: Value,
    gated: bool,
) -> Result<Asked<R>, DeskFault>
    ensures asked { IfOk result (λ asked. PollsOn D.meaning client.old client.new
        (IsAsked (Ask (string_bytes method) (view params) gated) (show_asked asked))) }
    ensures failed { IfErr result (λ fault. PollFails D.meaning client.old client.new fault) }
    ensures continues { Continues D.meaning client.old client.new }
    ensures unsent { OnErr result (PollsOn D.meaning client.old client.new
        (SendsNone (Ask (string_bytes method) (view params) gated))) }
{
    if is_float_free(&params) {
        ask_clean(alloc, client, method, params, gated)
    } else {
        Ok(Asked::Refused(Error::internal_error(alloc)?))
    }
}

/// Sends a request with params of a type, unless it holds a float. One that is gated waits for
/// `initialize`. `R` is the request, as its ticket has it.
pub fn request<D: Caller, R, P: Wire>(
    alloc: Global,
    client: &mut D,
    method: &str,
    params: &P,
    gated: bool,
) -> Result<Asked<R>, DeskFault>
    ensures asked { IfOk result (λ asked. PollsOn D.meaning client.old client.new
        (IsAsked (Ask method.now (write P.shape (P.shown params.now)) gated)
        (show_asked asked))) }
    ensures failed { IfErr result (λ fault. PollFails D.meaning client.old client.new fault) }
    ensures continues { Continues D.meaning client.old client.new }
    ensures unsent { OnErr result (PollsOn D.meaning client.old client.new
        (SendsNone (Ask method.now (write P.shape (P.shown params.now)) gated))) }
{
    let method = text(alloc, method)?;
    let params = params.to_value(alloc)?;
    ask(alloc, client, method, params, gated)
}

/// What has come of a request by now, its result as a value of a type. The ticket comes back while
/// its answer is awaited.
pub fn poll<D: Caller, R, A: Wire>(
    alloc: Global,
    client: &mut D,
    ticket: Ticket<R>,
) -> Result<Answered<R, A>, DeskFault>
    ensures answered { IfOk result (λ answered. PollsOn D.meaning client.old client.new
        (IsPolled A.shape (ticket_number ticket) (show_answered A.shown answered))) }
    ensures float_free { IfOk result (λ answered.
        answered_has_float (show_answered A.shown answered) ≡ false) }
    ensures failed { IfErr result (λ fault. PollFails D.meaning client.old client.new fault) }
    ensures continues { Continues D.meaning client.old client.new }
    ensures once { IfErr result (λ fault. PollsOn D.meaning client.old client.new
        (IsPollCut (ticket_number ticket) fault)) }
{
    let number = ticket.number;
    match make_call(client, ClientCall::Poll(number)) {
        Ok(reply) => Ok(answered_by(alloc, number, reply)?),
        Err(fault) => Err(fault),
    }
}

// ---- ids, and messages as they are

/// Draws an id.
pub fn next_id<D: Caller>(client: &mut D) -> Result<Id, DeskFault>
    ensures drawn { IfOk result (λ id. PollsOn D.meaning client.old client.new
        (IsDrawn (show_id id))) }
    ensures failed { IfErr result (λ fault. PollFails D.meaning client.old client.new fault) }
    ensures continues { Continues D.meaning client.old client.new }
    ensures once { IfErr result (λ fault. PollsOn D.meaning client.old client.new
        (Adds show_client_reply NextId (Err fault))) }
{
    match make_call(client, ClientCall::NextId) {
        Ok(reply) => match reply {
            ClientReply::Number(number) => Ok(Id::Number(number as i64)),
            _ => unreachable!(),
        },
        Err(fault) => Err(fault),
    }
}

/// Sends a message as it is, whatever the life, until the session has exited.
pub fn call<D: Caller>(client: &mut D, request: Request) -> Result<ClientReply, DeskFault>
    requires { may_have_float (show_request request).params ≡ false }
    ensures replied { IfOk result (λ reply. PollsOn D.meaning client.old client.new
        (λ own. own ≡ replied (Raw (show_request request)) (show_client_reply reply) ∷ [])) }
    ensures float_free { IfOk result (λ reply. reply_has_float (show_client_reply reply)
        ≡ false) }
    ensures failed { IfErr result (λ fault. PollFails D.meaning client.old client.new fault) }
    ensures continues { Continues D.meaning client.old client.new }
    ensures unsent { IfErr result (λ fault. PollsOn D.meaning client.old client.new
        (Adds show_client_reply (Raw (show_request request)) (Err fault))) }
{
    match make_call(client, ClientCall::Raw(request)) {
        Ok(reply) => Ok(reply),
        Err(fault) => Err(fault),
    }
}
