// What holds of each poll and each session of the server: functions whose contracts are laws.
ghost use Rattle.lsp_session.specs.declared.table.Kind.{Kind};
ghost use Rattle.lsp_session.specs.Run.{order_by};
ghost use Rattle.lsp_service.specs.declared.server.NoTask.{NoTask};
ghost use Rattle.lsp_service.specs.Service.{service_semantics};
ghost use Rattle.lsp_docs.specs.Determined.{PollsAreAFunction, SessionsAreAFunction};
ghost use Rattle.lsp_docs.specs.Docs.{docs_semantics};
ghost use Rattle.lsp_docs.specs.Notices.{AnswersTexts, HoldsDocuments};

use lsp_desk::Caller;
use lsp_session::Pick;

/// After a run the documents are those that the notifications leave which were begun in it, in
/// order of admission. The run is of the handlers that a service of this server is, whatever its
/// tasks are kept in.
pub fn documents_are_those_told<T, P: Pick>()
    ensures { (task : T → NoTask) → (kind : T → Kind) → HoldsDocuments
        (service_semantics docs_semantics task kind) (λ c. c.call) (order_by P.gives P.later) }
{}

/// After a run a `docs/text` is answered in the step that begins it, as the documents give it that
/// the notifications leave which were begun before it, in order of admission. The run is of the
/// handlers that a service of this server is, whatever its tasks are kept in.
pub fn texts_are_those_told<T, P: Pick>()
    ensures { (task : T → NoTask) → (kind : T → Kind) → AnswersTexts
        (service_semantics docs_semantics task kind) (λ c. c.call) (order_by P.gives P.later) }
{}

/// A poll of a call has one reply, leaves one table of documents, and makes the same calls on the
/// desk, whatever it replies.
pub fn docs_polls_are_a_function()
    ensures { PollsAreAFunction }
{}

/// What a session over a desk of its own has written at its end, and the documents then, are a
/// function of its setting and of the bytes of its source. The session is of the handlers that a
/// service of this server is, whatever its tasks are kept in.
pub fn docs_sessions_are_a_function<T, D: Caller, P: Pick>()
    ensures { (task : T → NoTask) → (kind : T → Kind) → SessionsAreAFunction
        (service_semantics docs_semantics task kind) D.meaning (order_by P.gives P.later) }
{}
