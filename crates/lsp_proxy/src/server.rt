//! What the server sends, row by row.
ghost use Rattle.std.specs.Prelude.{◌≡◌, ◌<◌, ◌^◌, [], ◌∷◌, length, Some, None, false, IfOk, IsOk, option_map, unwrap_or, map, if◌then◌else◌};
ghost use Rattle.lsp_rpc.specs.Message.{request};
ghost use Rattle.lsp_rpc.specs.Shown.{show_id, show_body, show_request, show_response};
ghost use Rattle.std.specs.List.{filter};
ghost use Rattle.lsp_proxy.specs.Proxy.{waiting_sent, opening_after, initialize_answered, answer_heard, server_response, pass_to, server_request, first_requested, cancel_entry, server_cancel, broadcast, lowest, last_id, response_to, internal, server_called, here_from, is_here_in, answered_to, drawn_of};
ghost use Rattle.lsp_proxy.specs.Outgoing.{GivesOutgoing, GivesOrKeeps};
ghost use Rattle.lsp_proxy.specs.Sent.{all_sent};
ghost use Rattle.lsp_proxy.specs.Tables.{show_asker};
ghost use Rattle.lsp_proxy.specs.Shown.{show_opening, show_proxy, MakesSent, MakesOrKeeps};

use crate::outgoing::{Outgoing, here};
use crate::parts::{
    LAST_ID, Sent, answered_id, cancels, copy, exit, one, refusal, response, split, under_drawn,
};
use crate::presence::{lowest_of, presence_of};
use crate::proxy::{Opening, Proxy};
use crate::side::{Presence, Side};
use crate::table::Asker;
use lsp_rpc::{Error, ErrorCode, Id, Message, NoMemory, Request, Response, cancelled_id};
use serde_json::Value;
use std::alloc::Global;

// The response for each of the askers that is still here.
fn answers(
    alloc: Global,
    editors: &[Presence],
    askers: &[Asker],
    body: &Result<Value, Error>,
) -> Result<Sent, NoMemory>
    ensures sent { IfOk result (λ sent. all_sent sent.items
        ≡ map (answered_to (show_body body.now)) (filter (is_here_in editors.now)
        (map show_asker askers.now))) }
    ensures ready { map (answered_to (show_body body.now)) (filter (is_here_in editors.now)
        (map show_asker askers.now)) ≡ [] → IsOk result }
{
    let mut sent = Vec::new(alloc);
    for asker in askers {
        if !presence_of(editors, asker.editor).is_gone() {
            let message = response(asker.id.clone(alloc)?, copy(alloc, body)?);
            sent.push((Side::Editor(asker.editor), message))?;
        }
    }
    Ok(sent)
}

fn answer_if_here(
    alloc: Global,
    editors: &[Presence],
    asker: &Asker,
    body: Result<Value, Error>,
) -> Result<Sent, NoMemory>
    ensures sent { IfOk result (λ sent. all_sent sent.items
        ≡ (if is_here_in editors.now (show_asker asker.now)
        then answered_to (show_body body) (show_asker asker.now) ∷ [] else [])) }
    ensures ready { is_here_in editors.now (show_asker asker.now) ≡ false → IsOk result }
{
    if presence_of(editors, asker.editor).is_gone() {
        return Ok(Vec::new(alloc));
    }
    let id = asker.id.clone(alloc)?;
    one(alloc, Side::Editor(asker.editor), response(id, body))
}

fn opening_of(body: Result<Value, Error>) -> Opening
    ensures { show_opening result ≡ opening_after (show_body body) }
{
    match body {
        Ok(value) => Opening::Opened(value),
        Err(_) => Opening::Unopened,
    }
}

impl Proxy {
    // The responses to all that wait for `initialize` under this id.
    fn waiting_sent(&self, n: u64, body: &Result<Value, Error>) -> Result<Option<Sent>, NoMemory>
        ensures sent { IfOk result (λ o. option_map (λ sent. all_sent sent.items) o
            ≡ waiting_sent (show_proxy self.now).opening n (show_body body.now)
            (show_proxy self.now).editors) }
        ensures ready { unwrap_or (waiting_sent (show_proxy self.now).opening n
            (show_body body.now) (show_proxy self.now).editors) [] ≡ [] → IsOk result }
    {
        match &self.opening {
            Opening::Awaited(m, askers) => {
                if n == *m {
                    Ok(Some(answers(self.alloc, &self.editors, askers, body)?))
                } else {
                    Ok(None)
                }
            }
            _ => Ok(None),
        }
    }

    // The response to `initialize`, or to an editor's request.
    #[tactic(auto, unfolding(crate::specs::Proxy::initialize_answered), using(crate::proofs::ReadyLemmas::none_to_waiting))]
    fn initialize_answered(&mut self, n: u64, body: Result<Value, Error>) -> Result<Sent, NoMemory>
        ensures { MakesOrKeeps self.old self.new (initialize_answered n (show_body body)) result }
    {
        match self.waiting_sent(n, &body)? {
            Some(sent) => {
                self.opening = opening_of(body);
                Ok(sent)
            }
            None => self.answered(n, body),
        }
    }

    // The response to an editor's request goes to that editor, under its own id.
    #[tactic(auto, unfolding(crate::specs::Proxy::answer_heard))]
    fn answered(&mut self, n: u64, body: Result<Value, Error>) -> Result<Sent, NoMemory>
        ensures makes { MakesOrKeeps self.old self.new (answer_heard n (show_body body)) result }
        // A response that isn't passed on takes no memory.
        ensures ready { (answer_heard n (show_body body) (show_proxy self.old)).1 ≡ []
            → IsOk result }
    {
        let Some(asker) = self.asked.asker(n) else {
            return Ok(Vec::new(self.alloc));
        };
        let sent = answer_if_here(self.alloc, &self.editors, asker, body)?;
        self.asked.remove(n);
        Ok(sent)
    }

    #[tactic(auto, unfolding(crate::specs::Proxy::server_response))]
    pub(crate) fn server_response(&mut self, reply: Response) -> Result<Sent, NoMemory>
        ensures makes { MakesOrKeeps self.old self.new
            (server_response (show_response reply)) result }
        // One under an id that is never drawn takes no memory.
        ensures unasked { drawn_of (show_response reply).id ≡ None → IsOk result }
    {
        let (id, body) = reply.into_parts();
        let Some(n) = answered_id(&id) else {
            return Ok(Vec::new(self.alloc));
        };
        if self.closing == Some(n) {
            let sent = one(self.alloc, Side::Server, exit(self.alloc)?)?;
            self.closing = None;
            return Ok(sent);
        }
        self.initialize_answered(n, body)
    }

    // A request of the server goes to editor k, the lowest that is still here.
    #[tactic(auto, unfolding(crate::specs::Proxy::pass_to))]
    fn pass_to(&mut self, k: u32, request: Request, id: Id) -> Result<Sent, NoMemory>
        requires lowest { lowest (show_proxy self.old).editors ≡ Some k }
        requires left { (show_proxy self.old).next < last_id }
        ensures { MakesOrKeeps self.old self.new
            (pass_to k (show_request request) (show_id id)) result }
    {
        let n = self.next;
        let sent = one(self.alloc, Side::Editor(k), under_drawn(n, request))?;
        self.requested.push(n, Asker { editor: k, id })?;
        self.next += 1;
        Ok(sent)
    }

    fn refuse_server(&self, id: Id) -> Result<Sent, NoMemory>
        ensures { IfOk result (λ sent. all_sent sent.items
            ≡ (Side.Server, response_to (show_id id) internal) ∷ []) }
    {
        let refused = refusal(self.alloc, id, ErrorCode::InternalError)?;
        one(self.alloc, Side::Server, refused)
    }

    #[tactic(auto, unfolding(crate::specs::Proxy::server_request))]
    fn server_request(&mut self, request: Request, id: Id) -> Result<Sent, NoMemory>
        ensures { MakesOrKeeps self.old self.new
            (server_request (show_request request) (show_id id)) result }
    {
        match lowest_of(&self.editors) {
            Some(k) => {
                if self.next < LAST_ID {
                    self.pass_to(k, request, id)
                } else {
                    self.refuse_server(id)
                }
            }
            None => self.refuse_server(id),
        }
    }

    // The cancel of the server's first request of that id. All of its requests are of the lowest
    // editor.
    fn cancels_of(&self, id: Id) -> Result<Sent, NoMemory>
        ensures sent { IfOk result (λ sent. all_sent sent.items
            ≡ cancel_entry (first_requested (show_id id) (show_proxy self.now).requested)) }
        ensures ready { cancel_entry (first_requested (show_id id) (show_proxy self.now).requested)
            ≡ [] → IsOk result }
    {
        match lowest_of(&self.editors) {
            Some(k) => {
                let place = self.requested.place(&Asker { editor: k, id });
                cancels(self.alloc, Side::Editor(k), place)
            }
            None => Ok(Vec::new(self.alloc)),
        }
    }

    #[tactic(auto, unfolding(crate::specs::Proxy::server_cancel))]
    fn server_cancel(&self, request: Request) -> Result<Sent, NoMemory>
        ensures sent { IfOk result (MakesSent self.now self.now
            (server_cancel (show_request request))) }
        ensures ready { (server_cancel (show_request request) (show_proxy self.now)).1 ≡ []
            → IsOk result }
    {
        let (_, _, params) = request.into_parts();
        match cancelled_id(params) {
            Some(id) => self.cancels_of(id),
            None => Ok(Vec::new(self.alloc)),
        }
    }

    #[tactic(auto, unfolding(crate::specs::Proxy::broadcast))]
    fn broadcast(&self, note: Request) -> Result<Outgoing, NoMemory>
        ensures sent { IfOk result (GivesOutgoing self.now self.now
            (broadcast (show_request note))) }
        ensures ready { (broadcast (show_request note) (show_proxy self.now)).1 ≡ []
            → IsOk result }
    {
        let editors = here(self.alloc, &self.editors)?;
        Ok(Outgoing::Broadcast(editors, note))
    }

    pub(crate) fn server_called(&mut self, request: Request) -> Result<Outgoing, NoMemory>
        ensures { GivesOrKeeps self.old self.new
            (server_called (show_request request) (show_request request).id) result }
    {
        let (request, id) = split(request);
        match id {
            Some(id) => Ok(Outgoing::Each(self.server_request(request, id)?)),
            None => {
                if request.method() == "$/cancelRequest" {
                    Ok(Outgoing::Each(self.server_cancel(request)?))
                } else {
                    self.broadcast(request)
                }
            }
        }
    }
}
