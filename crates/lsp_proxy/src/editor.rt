//! What editors send, row by row.
ghost use Rattle.std.specs.Prelude.{◌≡◌, ◌<◌, ◌+◌, ◌^◌, [], length, Some, not, true, IfOk, OnOk, OnErr, IsOk};
ghost use Rattle.std.specs.List.{filter};
ghost use Rattle.lsp_rpc.specs.Shown.{show_id, show_message, show_request, show_response};
ghost use Rattle.lsp_proxy.specs.Proxy.{begin_initialize, initialize, initialized_heard, shut_down, pass_request, ask, leave, cancel_heard, note, request_heard, notification_heard, call_heard, reply_heard, with_waiting, answers_internal, last_message, last_id, closing_drawn, left, is_asked_by, lowest, AreOf, IsPresent};
ghost use Rattle.lsp_proxy.specs.Sent.{all_sent};
ghost use Rattle.lsp_proxy.specs.Tables.{show_asker};
ghost use Rattle.lsp_proxy.specs.Shown.{show_proxy, show_opening, MakesSent, MakesOrKeeps};

use crate::parts::{
    LAST_ID, Sent, answered_id, cancels, exit, one, refusal, response, shutdown, split, under_drawn,
};
use crate::presence::{are_others_gone, is_lowest, presence_of};
use crate::proxy::{Opening, Proxy};
use crate::side::{Presence, Side};
use crate::table::{Asker, Table};
use lsp_rpc::{ErrorCode, Id, Message, NoMemory, Request, Response, cancelled_id};
use serde_json::Value;

// Another asker waits for the response to `initialize`.
fn add_waiting(opening: &mut Opening, asker: Asker) -> Result<(), NoMemory>
    ensures ok { OnOk result (show_opening opening.new
        ≡ with_waiting (show_asker asker) (show_opening opening.old)) }
    ensures err { OnErr result (show_opening opening.new ≡ show_opening opening.old) }
{
    match opening {
        Opening::Awaited(_, askers) => {
            askers.push(asker)?;
            Ok(())
        }
        _ => Ok(()),
    }
}

// The server's requests of an editor that leaves are forgotten: where it is the lowest, all are
// its.
fn drop_requests(editors: &[Presence], requested: &mut Table, k: u32)
    requires few { length editors.now < 2 ^ 32 }
    requires of_lowest { AreOf (lowest editors.now) requested.old }
    ensures { requested.new ≡ filter (λ e. not (is_asked_by k e)) requested.old }
{
    if is_lowest(editors, k) {
        requested.clear();
        return;
    }
}

impl Proxy {
    // Passes the first `initialize` on.
    #[tactic(auto, unfolding(crate::specs::Proxy::begin_initialize))]
    fn begin_initialize(&mut self, k: u32, request: Request, id: Id) -> Result<Sent, NoMemory>
        ensures { MakesOrKeeps self.old self.new
            (begin_initialize k (show_request request) (show_id id)) result }
    {
        if self.next >= LAST_ID {
            let refused = refusal(self.alloc, id, ErrorCode::InternalError)?;
            return one(self.alloc, Side::Editor(k), refused);
        }
        let n = self.next;
        let mut askers = Vec::new(self.alloc);
        askers.push(Asker { editor: k, id })?;
        let sent = one(self.alloc, Side::Server, under_drawn(n, request))?;
        self.opening = Opening::Awaited(n, askers);
        self.next += 1;
        Ok(sent)
    }

    #[tactic(auto, unfolding(crate::specs::Proxy::initialize), using(crate::proofs::ReadyLemmas::one_more_waits))]
    fn initialize(&mut self, k: u32, request: Request, id: Id) -> Result<Sent, NoMemory>
        ensures { MakesOrKeeps self.old self.new
            (initialize k (show_request request) (show_id id)) result }
    {
        match &self.opening {
            Opening::Unopened => self.begin_initialize(k, request, id),
            Opening::Awaited(_, _) => {
                add_waiting(&mut self.opening, Asker { editor: k, id })?;
                Ok(Vec::new(self.alloc))
            }
            Opening::Opened(value) => {
                let value = value.clone()?;
                one(self.alloc, Side::Editor(k), response(id, Ok(value)))
            }
        }
    }

    // The first `initialized` is passed on.
    #[tactic(auto, unfolding(crate::specs::Proxy::initialized_heard))]
    fn initialized(&mut self, request: Request) -> Result<Sent, NoMemory>
        ensures makes { MakesOrKeeps self.old self.new
            (initialized_heard (show_request request)) result }
        ensures ready { (show_proxy self.old).announced ≡ true → IsOk result }
    {
        if self.announced {
            return Ok(Vec::new(self.alloc));
        }
        let sent = one(self.alloc, Side::Server, Message::Request(request))?;
        self.announced = true;
        Ok(sent)
    }

    #[tactic(auto, unfolding(crate::specs::Proxy::shut_down))]
    fn shut_down(&mut self, k: u32, id: Id) -> Result<Sent, NoMemory>
        requires { IsPresent k (show_proxy self.old) }
        ensures { MakesOrKeeps self.old self.new (shut_down k (show_id id)) result }
    {
        let sent = one(self.alloc, Side::Editor(k), response(id, Ok(Value::Null)))?;
        self.editors[k as usize] = Presence::Down;
        Ok(sent)
    }

    // Passes a request on under a drawn id.
    #[tactic(auto, unfolding(crate::specs::Proxy::pass_request))]
    fn pass_request(&mut self, k: u32, request: Request, id: Id) -> Result<Sent, NoMemory>
        ensures { MakesOrKeeps self.old self.new
            (pass_request k (show_request request) (show_id id)) result }
    {
        if self.next >= LAST_ID {
            let refused = refusal(self.alloc, id, ErrorCode::InternalError)?;
            return one(self.alloc, Side::Editor(k), refused);
        }
        let n = self.next;
        let passed = under_drawn(n, request);
        let sent = one(self.alloc, Side::Server, passed)?;
        self.asked.push(n, Asker { editor: k, id })?;
        self.next += 1;
        Ok(sent)
    }

    #[tactic(auto, unfolding(crate::specs::Proxy::ask))]
    fn ask(&mut self, k: u32, request: Request, id: Id) -> Result<Sent, NoMemory>
        ensures { MakesOrKeeps self.old self.new
            (ask k (show_request request) (show_id id)) result }
    {
        let asker = Asker { editor: k, id };
        match presence_of(&self.editors, k) {
            Presence::Here => match self.asked.place(&asker) {
                None => self.pass_request(k, request, asker.id),
                Some(_) => {
                    let refused = refusal(self.alloc, asker.id, ErrorCode::InvalidRequest)?;
                    one(self.alloc, Side::Editor(k), refused)
                }
            },
            Presence::Down => {
                let refused = refusal(self.alloc, asker.id, ErrorCode::InvalidRequest)?;
                one(self.alloc, Side::Editor(k), refused)
            }
            Presence::Gone => Ok(Vec::new(self.alloc)),
        }
    }

    // The responses to the server's requests of an editor that leaves.
    fn answers_internal(&self, k: u32) -> Result<Sent, NoMemory>
        ensures sent { IfOk result (λ sent. all_sent sent.items
            ≡ answers_internal k (show_proxy self.now).requested) }
        ensures ready { answers_internal k (show_proxy self.now).requested ≡ [] → IsOk result }
    {
        if is_lowest(&self.editors, k) {
            self.requested.answers(self.alloc)
        } else {
            Ok(Vec::new(self.alloc))
        }
    }

    // What the server is told once the last editor is gone.
    fn last_message(&self) -> Result<Message, NoMemory>
        ensures { IfOk result (λ m. show_message m ≡ last_message (show_proxy self.now).next) }
    {
        if self.next < LAST_ID {
            shutdown(self.alloc, self.next)
        } else {
            exit(self.alloc)
        }
    }

    fn await_shutdown(&mut self)
        requires { (show_proxy self.old).next < last_id }
        ensures { show_proxy self.new ≡ record (show_proxy self.old) {
          next = (show_proxy self.old).next + 1;
          closing = Some (show_proxy self.old).next;
        } }
    {
        self.closing = Some(self.next);
        self.next += 1;
    }

    #[tactic(auto, unfolding(crate::specs::Proxy::closing_drawn))]
    fn close(&mut self)
        ensures { show_proxy self.new ≡ closing_drawn (show_proxy self.old) }
    {
        if self.next < LAST_ID {
            self.await_shutdown();
        }
    }

    fn mark_gone(&mut self, k: u32)
        requires known { k < length (show_proxy self.old).editors }
        ensures { show_proxy self.new ≡ left k (show_proxy self.old) }
    {
        drop_requests(&self.editors, &mut self.requested, k);
        self.editors[k as usize] = Presence::Gone;
    }

    #[tactic(auto, unfolding(crate::specs::Proxy::leave))]
    fn leave(&mut self, k: u32) -> Result<Sent, NoMemory>
        requires known { k < length (show_proxy self.old).editors }
        ensures { MakesOrKeeps self.old self.new (leave k) result }
    {
        let mut sent = self.answers_internal(k)?;
        if are_others_gone(&self.editors, k) {
            sent.push((Side::Server, self.last_message()?))?;
            self.mark_gone(k);
            self.close();
            return Ok(sent);
        }
        self.mark_gone(k);
        Ok(sent)
    }

    #[tactic(auto, unfolding(crate::specs::Proxy::cancel_heard))]
    fn cancel(&self, k: u32, request: Request) -> Result<Sent, NoMemory>
        ensures sent { IfOk result (MakesSent self.now self.now
            (cancel_heard k (show_request request))) }
        ensures ready { (cancel_heard k (show_request request) (show_proxy self.now)).1 ≡ []
            → IsOk result }
    {
        let (_, _, params) = request.into_parts();
        let place = match cancelled_id(params) {
            Some(id) => self.asked.place(&Asker { editor: k, id }),
            None => None,
        };
        cancels(self.alloc, Side::Server, place)
    }

    #[tactic(auto, unfolding(crate::specs::Proxy::note))]
    fn note(&self, k: u32, request: Request) -> Result<Sent, NoMemory>
        ensures sent { IfOk result (MakesSent self.now self.now (note k (show_request request))) }
        ensures ready { (note k (show_request request) (show_proxy self.now)).1 ≡ []
            → IsOk result }
    {
        match presence_of(&self.editors, k) {
            Presence::Here => {
                if request.method() == "$/cancelRequest" {
                    self.cancel(k, request)
                } else {
                    one(self.alloc, Side::Server, Message::Request(request))
                }
            }
            _ => Ok(Vec::new(self.alloc)),
        }
    }

    fn with_id(&mut self, k: u32, request: Request, id: Id) -> Result<Sent, NoMemory>
        requires { IsPresent k (show_proxy self.old) }
        ensures { MakesOrKeeps self.old self.new
            (request_heard k (show_request request) (show_id id)) result }
    {
        match request.method() {
            "initialize" => self.initialize(k, request, id),
            "shutdown" => self.shut_down(k, id),
            _ => self.ask(k, request, id),
        }
    }

    fn without_id(&mut self, k: u32, request: Request) -> Result<Sent, NoMemory>
        requires { IsPresent k (show_proxy self.old) }
        ensures { MakesOrKeeps self.old self.new
            (notification_heard k (show_request request)) result }
    {
        match request.method() {
            "initialize" => Ok(Vec::new(self.alloc)),
            "initialized" => self.initialized(request),
            "shutdown" => Ok(Vec::new(self.alloc)),
            "exit" => self.leave(k),
            _ => self.note(k, request),
        }
    }

    pub(crate) fn called(&mut self, k: u32, request: Request) -> Result<Sent, NoMemory>
        requires { IsPresent k (show_proxy self.old) }
        ensures { MakesOrKeeps self.old self.new
            (call_heard k (show_request request) (show_request request).id) result }
    {
        let (request, id) = split(request);
        match id {
            Some(id) => self.with_id(k, request, id),
            None => self.without_id(k, request),
        }
    }

    // Passes the response to a request of the server on, under the server's id.
    #[tactic(auto, unfolding(crate::specs::Proxy::reply_heard))]
    pub(crate) fn replied(&mut self, k: u32, reply: Response) -> Result<Sent, NoMemory>
        ensures makes { MakesOrKeeps self.old self.new
            (reply_heard k (show_response reply)) result }
        // A response that isn't passed on takes no memory.
        ensures ready { (reply_heard k (show_response reply) (show_proxy self.old)).1 ≡ []
            → IsOk result }
    {
        let (id, body) = reply.into_parts();
        let Some(n) = answered_id(&id) else {
            return Ok(Vec::new(self.alloc));
        };
        match self.requested.asker(n) {
            Some(asker) if asker.editor == k => {
                let id = asker.id.clone(self.alloc)?;
                let sent = one(self.alloc, Side::Server, response(id, body))?;
                self.requested.remove(n);
                Ok(sent)
            }
            _ => Ok(Vec::new(self.alloc)),
        }
    }
}
