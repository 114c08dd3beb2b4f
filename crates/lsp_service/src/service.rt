// A service: a language server behind a method table.
ghost use Rattle.std.specs.Prelude.{◌≡◌, IfOk, IfErr, IsErrOf, IsSome, None, true, not, option_map};
ghost use Rattle.serde_json.specs.View.{view};
ghost use Rattle.lsp_session.specs.Semantics.{call as call_read};
ghost use Rattle.lsp_methods.specs.Methods.{method_at};
ghost use Rattle.lsp_service.specs.Calls.{target_of};
ghost use Rattle.lsp_service.specs.Data.{custom};
ghost use Rattle.lsp_service.specs.Incoming.{show_incoming};
ghost use Rattle.lsp_service.specs.Reads.{reading_custom, IsMisfitOf};

use crate::call::{Call, Target};
use crate::incoming::Incoming;
use crate::read::read_call;
use crate::server::{LanguageServer, Started};
use crate::write::outcome;
use lsp_desk::{Caller, DeskFault};
use lsp_methods::{Method, STANDARD, ServiceTable};
use lsp_session::{CallMisfit, Entry, Handlers, Kind, Progress};
use serde_json::Value;
use std::alloc::Global;
use std::marker::PhantomData;

/// A language server as the handlers of a session: it has the methods of the protocol, and custom
/// ones behind them.
#[derive(Drop)]
pub struct LspService<S> {
    pub(crate) server: S,
    pub(crate) table: ServiceTable,
}

/// A task of a service: one of its server's, with what was called.
#[derive(Drop)]
pub struct Held<D: Caller, S: LanguageServer<D>> {
    task: S::Task,
    target: Target,
    kind: Kind,
    desk: PhantomData<D>,
    ghost kept: { target_of (S.semantics.call_of (S.semantics.show_task task)) kind ≡ target },
}

impl<S> LspService<S> {
    /// The server.
    pub fn inner(&self) -> &S
        ensures { result.now ≡ self.now.server }
    {
        &self.server
    }
}

impl<D: Caller, S: LanguageServer<D>> Handlers<D> for LspService<S> {
    ghost use Rattle.lsp_service.specs.Service.{service_semantics};
    ghost use Rattle.lsp_service.specs.ServiceLaws.{service_laws};

    type Call = Incoming;

    type Task = Held<D, S>;

    ghost semantics = { service_semantics S.semantics (λ held. held.task) (λ held. held.kind) };

    ghost laws = { service_laws S.semantics (λ held. held.task) (λ held. held.kind) S.laws };

    fn find(&self, name: &str) -> Option<Entry> {
        self.table.find(name)
    }

    fn read(
        &self,
        alloc: Global,
        entry: Entry,
        params: Option<&Value>,
    ) -> Result<Incoming, CallMisfit> {
        let kind = entry.kind;
        match Method::at(entry.place) {
            Some(method) => match read_call(alloc, method, params) {
                Ok(call) => Ok(Incoming { call, kind }),
                Err(misfit) => Err(misfit),
            },
            None => match read_custom(entry.place, params) {
                Ok((number, params)) => Ok(Incoming {
                    call: Call::Custom(number, params),
                    kind,
                }),
                Err(misfit) => Err(misfit),
            },
        }
    }

    fn begin(
        &mut self,
        alloc: Global,
        incoming: Incoming,
        desk: &mut D,
    ) -> Result<Progress<Held<D, S>>, DeskFault> {
        let kind = incoming.kind;
        let target = incoming.call.target(kind);
        match self.server.call(alloc, incoming.call, desk)? {
            Started::Now(reply) => Ok(Progress::Done(outcome(alloc, target, reply)?)),
            Started::Later(task) => Ok(Progress::Pending(Held {
                task,
                target,
                kind,
                desk: PhantomData,
            })),
        }
    }

    fn resume(
        &mut self,
        alloc: Global,
        held: Held<D, S>,
        desk: &mut D,
    ) -> Result<Progress<Held<D, S>>, DeskFault> {
        let kind = held.kind;
        let target = held.target;
        match self.server.resume(alloc, held.task, desk)? {
            Started::Now(reply) => Ok(Progress::Done(outcome(alloc, target, reply)?)),
            Started::Later(task) => Ok(Progress::Pending(Held {
                task,
                target,
                kind,
                desk: PhantomData,
            })),
        }
    }
}

// Behind the standard methods stand the custom ones, which take any params or none. The answer is
// the method's number and its params.
fn read_custom(place: u64, params: Option<&Value>) -> Result<(u64, Option<Value>), CallMisfit>
    ensures ok { IfOk result (λ c. reading_custom place (option_map (λ v. view v.now) params.entry)
        ≡ call_read (custom c.0 (option_map view c.1))) }
    ensures err { IfErr result (λ e. IsMisfitOf (option_map (λ v. view v.now) params.entry)
        (reading_custom place (option_map (λ v. view v.now) params.entry)) e) }
    ensures memory { IsErrOf result CallMisfit.NoMemory → IsSome params.entry }
{
    if place < STANDARD {
        return Err(CallMisfit::Unfit);
    }
    match params {
        None => Ok((place - STANDARD, None)),
        Some(value) => match value.clone() {
            Ok(copy) => Ok((place - STANDARD, Some(copy))),
            Err(_) => Err(CallMisfit::NoMemory),
        },
    }
}
