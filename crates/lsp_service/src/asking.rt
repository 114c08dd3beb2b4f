// Servers that wait and ask, and promise nothing of their replies.
ghost use Rattle.std.specs.Prelude.{◌≡◌, IfOk, IfErr, true, false};
ghost use Rattle.lsp_desk.specs.Meaning.{PollsOn, Spends};
ghost use Rattle.lsp_session.specs.Semantics.{AreClient};
ghost use Rattle.lsp_service.specs.Asking.{KeepsCall};
ghost use Rattle.lsp_service.specs.Calls.{show_call};
ghost use Rattle.lsp_service.specs.Data.{MethodCall, params_have_float};

use crate::call::Call;
use crate::server::{LanguageServer, Started};
use lsp_desk::{Caller, DeskFault};
use std::alloc::Global;

/// A server whose calls may go on as tasks, and which may ask its client.
///
/// It promises nothing of its replies. A call on the desk leads from what was asked before it to
/// what was asked after it, so a poll may make any number of them.
pub trait Asking<D: Caller>: Drop {
    /// What is left of a call that goes on.
    type Task: Drop;

    /// The call that a task goes on with.
    ghost call_of: { Self.Task → MethodCall };

    /// Polls a call for the first time.
    fn call(
        &mut self,
        alloc: Global,
        call: Call,
        client: &mut D,
    ) -> Result<Started<Self::Task>, DeskFault>
        requires float_free { params_have_float (show_call call) ≡ false }
        requires chief { D.meaning.chief client.old ≡ true }
        requires unasked { PollsOn D.meaning client.old client.old AreClient }
        ensures asks { PollsOn D.meaning client.old client.new AreClient }
        ensures keeps { IfOk result (KeepsCall call_of (show_call call)) }
        ensures spends { IfErr result (Spends D.meaning client.new) };

    /// Polls a task again.
    fn resume(
        &mut self,
        alloc: Global,
        task: Self::Task,
        client: &mut D,
    ) -> Result<Started<Self::Task>, DeskFault>
        requires float_free { params_have_float (call_of task) ≡ false }
        requires chief { D.meaning.chief client.old ≡ true }
        requires unasked { PollsOn D.meaning client.old client.old AreClient }
        ensures asks { PollsOn D.meaning client.old client.new AreClient }
        ensures keeps { IfOk result (KeepsCall call_of (call_of task)) }
        ensures spends { IfErr result (Spends D.meaning client.new) };
}

/// Such a server as a language server.
#[derive(Drop)]
pub struct InTime<S> {
    pub server: S,
}

impl<D: Caller, S: Asking<D>> LanguageServer<D> for InTime<S> {
    ghost use Rattle.lsp_service.specs.Open.{open_semantics, open_laws};

    type Task = S::Task;

    ghost semantics = { open_semantics S.call_of };

    ghost laws = { open_laws S.call_of };

    fn call(
        &mut self,
        alloc: Global,
        call: Call,
        client: &mut D,
    ) -> Result<Started<S::Task>, DeskFault> {
        self.server.call(alloc, call, client)
    }

    fn resume(
        &mut self,
        alloc: Global,
        task: S::Task,
        client: &mut D,
    ) -> Result<Started<S::Task>, DeskFault> {
        self.server.resume(alloc, task, client)
    }
}
