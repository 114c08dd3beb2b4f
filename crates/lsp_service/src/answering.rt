// Servers that answer at once.
ghost use Rattle.std.specs.Prelude.{IfOk};
ghost use Rattle.lsp_service.specs.Calls.{show_call};
ghost use Rattle.lsp_service.specs.Replies.{show_reply};
ghost use Rattle.lsp_service.specs.Data.{MethodCall, MethodReply};

use crate::call::Call;
use crate::reply::Reply;
use crate::server::{LanguageServer, NoTask, Started};
use lsp_desk::{Caller, DeskFault};
use lsp_rpc::NoMemory;
use std::alloc::Global;

/// A server that answers each call at once, and asks its client for nothing.
pub trait Answering: Drop {
    /// Which replies it may give: from the first value to the second. Any, where it says nothing.
    ghost gives: { Self → MethodCall → Self → MethodReply → Type 0 } = { λ _ _ _ _. Unit {0} };

    /// The reply to a call.
    fn answer(&mut self, alloc: Global, call: Call) -> Result<Reply, NoMemory>
        ensures { IfOk result (λ reply. gives self.old (show_call call) self.new
            (show_reply reply)) };
}

/// Such a server as a language server.
#[derive(Drop)]
pub struct AtOnce<S> {
    pub server: S,
}

impl<D: Caller, S: Answering> LanguageServer<D> for AtOnce<S> {
    ghost use Rattle.lsp_service.specs.Answering.{answering_semantics, answering_laws};

    type Task = NoTask;

    ghost semantics = { answering_semantics (λ s c s2 r. S.gives s.server c s2.server r) };

    ghost laws = { answering_laws (λ s c s2 r. S.gives s.server c s2.server r) };

    fn call(
        &mut self,
        alloc: Global,
        call: Call,
        _client: &mut D,
    ) -> Result<Started<NoTask>, DeskFault> {
        Ok(Started::Now(self.server.answer(alloc, call)?))
    }

    fn resume(
        &mut self,
        _alloc: Global,
        task: NoTask,
        _client: &mut D,
    ) -> Result<Started<NoTask>, DeskFault> {
        Ok(Started::Later(task))
    }
}
