// What a service asks of a language server.
ghost use Rattle.std.specs.Prelude.{◌≡◌, IfOk, IfErr, true, false};
ghost use Rattle.lsp_desk.specs.Meaning.{PollsOn};
ghost use Rattle.lsp_session.specs.Fails.{PollFails};
ghost use Rattle.lsp_service.specs.Data.{params_have_float};
ghost use Rattle.lsp_service.specs.Calls.{show_call};
ghost use Rattle.lsp_service.specs.Server.{ServerSemantics, IsLawfulServer};
ghost use Rattle.lsp_service.specs.Started.{show_started};

use crate::call::Call;
use crate::reply::Reply;
use lsp_desk::{Caller, DeskFault};
use std::alloc::Global;

/// What a poll of a call comes to.
#[derive(Drop)]
pub enum Started<T> {
    /// The call has a reply.
    Now(Reply),
    /// The call goes on: the task is polled again.
    Later(T),
}

/// The task of a server whose calls all have their replies at once: it makes none, and one that is
/// polled goes on.
#[derive(Clone, Copy)]
pub struct NoTask {}

/// A language server: its calls are polled over a desk, on which it asks its client.
pub trait LanguageServer<D: Caller>: Drop {
    /// What is left of a call that goes on. It keeps its call.
    type Task: Drop;

    /// What the server's values and tasks mean.
    ghost semantics: { ServerSemantics Self Self.Task };

    /// Polls a call for the first time.
    fn call(
        &mut self,
        alloc: Global,
        call: Call,
        client: &mut D,
    ) -> Result<Started<Self::Task>, DeskFault>
        requires float_free { params_have_float (show_call call) ≡ false }
        requires chief { D.meaning.chief client.old ≡ true }
        ensures called { IfOk result (λ started. PollsOn D.meaning client.old client.new
            (λ asked. semantics.begins self.old (show_call call) asked self.new
            (show_started semantics started))) }
        ensures failed { IfErr result (λ fault. PollFails D.meaning client.old client.new fault) };

    /// Polls a task again.
    fn resume(
        &mut self,
        alloc: Global,
        task: Self::Task,
        client: &mut D,
    ) -> Result<Started<Self::Task>, DeskFault>
        requires float_free { params_have_float (semantics.call_of (semantics.show_task task))
            ≡ false }
        requires chief { D.meaning.chief client.old ≡ true }
        ensures resumed { IfOk result (λ started. PollsOn D.meaning client.old client.new
            (λ asked. semantics.resumes self.old (semantics.show_task task) asked self.new
            (show_started semantics started))) }
        ensures failed { IfErr result (λ fault. PollFails D.meaning client.old client.new fault) };

    /// What holds of every language server.
    ghost laws: { IsLawfulServer semantics };
}
