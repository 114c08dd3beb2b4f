// What becomes of what a server sends and asks.
ghost use Rattle.std.specs.Prelude.{◌≡◌, true, false, is_ok, IfOk, OnErr, IsSome, Some};
ghost use Rattle.serde_json.specs.View.{view};
ghost use Rattle.serde_json.specs.Written.{has_float};
ghost use Rattle.lsp_rpc.specs.Message.{body_has_float};
ghost use Rattle.lsp_rpc.specs.Shown.{show_response};
ghost use Rattle.lsp_desk.specs.Flow.{is_sent};
ghost use Rattle.lsp_desk.specs.Reply.{reply_has_float};
ghost use Rattle.lsp_desk.specs.Shown.{show_client_reply};
ghost use Rattle.lsp_shape.specs.Read.{read};
ghost use Rattle.lsp_ask.specs.Answers.{answer_in, asked_of, answered_of, answered_has_float, may_lack, read_result};
ghost use Rattle.lsp_ask.specs.Shown.{show_asked, show_answered};

use lsp_desk::ClientReply;
use lsp_rpc::{Error, NoMemory, Response};
use lsp_shape::{Wire, attempt};
use serde_json::Value;
use std::alloc::Global;
use std::marker::PhantomData;

/// What becomes of a notification.
#[derive(Clone, Copy, Debug, PartialEq, Eq)]
pub enum Told {
    /// It is sent.
    Sent,
    /// It came before `initialize` was answered, or after `exit`, or holds a float, and isn't sent.
    Suppressed,
    /// The session has ended.
    Exited,
}

/// A request that was sent, and whose answer is asked for by this. There is one for each request,
/// since it can't be copied.
#[derive(Drop)]
pub struct Ticket<R> {
    pub(crate) number: u64,
    request: PhantomData<R>,
}

impl<R> Ticket<R> {
    fn new(number: u64) -> Ticket<R>
        ensures { result.number ≡ number }
    {
        Ticket {
            number,
            request: PhantomData,
        }
    }
}

/// What becomes of a request.
#[derive(Drop)]
pub enum Asked<R> {
    /// It is sent.
    Ticket(Ticket<R>),
    /// It isn't sent: -32603 where it holds a float; else -32002 where a call that waits for
    /// `initialize` comes before its answer or after `exit`, -32603 where any other comes after
    /// `exit`.
    Refused(Error),
}

/// What has come of a request by now.
#[derive(Drop)]
pub enum Answered<R, A> {
    /// Its result.
    Value(A),
    /// The client's error; -32700 where the result is none of the method's; -32603 where no answer
    /// is awaited.
    Error(Error),
    /// No answer has come.
    Pending(Ticket<R>),
}

// What a reply of the desk to a request comes to.
pub(crate) fn asked_by<R>(alloc: Global, reply: ClientReply) -> Result<Asked<R>, NoMemory>
    requires { IsSome (asked_of (show_client_reply reply)) }
    ensures asked { IfOk result (λ asked.
        asked_of (show_client_reply reply) ≡ Some (show_asked asked)) }
    ensures unsent { OnErr result (is_sent (show_client_reply reply) ≡ false) }
{
    match reply {
        ClientReply::Ticket(number, _) => Ok(Asked::Ticket(Ticket::new(number))),
        ClientReply::NotInitialized => Ok(Asked::Refused(Error::not_initialized(alloc)?)),
        ClientReply::Exited => Ok(Asked::Refused(Error::internal_error(alloc)?)),
        _ => unreachable!(),
    }
}

// What a reply of the desk to a poll comes to.
pub(crate) fn answered_by<R, A: Wire>(
    alloc: Global,
    number: u64,
    reply: ClientReply,
) -> Result<Answered<R, A>, NoMemory>
    requires polled { IsSome (answered_of A.shape number (show_client_reply reply)) }
    requires float_free { reply_has_float (show_client_reply reply) ≡ false }
    ensures answered { IfOk result (λ answered.
        answered_of A.shape number (show_client_reply reply)
        ≡ Some (show_answered A.shown answered)) }
    ensures float_free { IfOk result (λ answered.
        answered_has_float (show_answered A.shown answered) ≡ false) }
    ensures memory { OnErr result (may_lack (show_client_reply reply) ≡ true) }
{
    match reply {
        ClientReply::Answer(response) => answer_in_response(alloc, response),
        ClientReply::Awaited => Ok(Answered::Pending(Ticket::new(number))),
        ClientReply::Gone => Ok(Answered::Error(Error::internal_error(alloc)?)),
        _ => unreachable!(),
    }
}

fn answer_in_response<R, A: Wire>(
    alloc: Global,
    response: Response,
) -> Result<Answered<R, A>, NoMemory>
    requires { body_has_float (show_response response).body ≡ false }
    ensures answered { IfOk result (λ answered. show_answered A.shown answered
        ≡ answer_in A.shape (show_response response).body) }
    ensures float_free { IfOk result (λ answered.
        answered_has_float (show_answered A.shown answered) ≡ false) }
    ensures memory { OnErr result (is_ok (show_response response).body ≡ true) }
{
    let (_, body) = response.into_parts();
    match body {
        Ok(value) => answer_in_result(alloc, &value),
        Err(error) => Ok(Answered::Error(error)),
    }
}

fn answer_in_result<R, A: Wire>(alloc: Global, value: &Value) -> Result<Answered<R, A>, NoMemory>
    requires { has_float (view value.now) ≡ false }
    ensures answered { IfOk result (λ answered. show_answered A.shown answered
        ≡ read_result (read A.shape (view value.now))) }
    ensures float_free { IfOk result (λ answered.
        answered_has_float (show_answered A.shown answered) ≡ false) }
{
    match attempt(alloc, value)? {
        Some(read) => Ok(Answered::Value(read)),
        None => Ok(Answered::Error(Error::parse_error(alloc)?)),
    }
}
