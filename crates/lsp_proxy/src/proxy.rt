//! The proxy, and what it makes of each message.
ghost use Rattle.std.specs.Prelude.{IsTrue, ◌≡◌, ◌<◌, ◌≤◌, ◌^◌, length, replicate, true, IfOk, IsOk};
ghost use Rattle.lsp_proxy.specs.Entries.{are_below};
ghost use Rattle.lsp_proxy.specs.Proxy.{opening_state, last_id, lowest, are_of};

use crate::outgoing::{Outgoing, to_each};
use crate::parts::Sent;
use crate::presence::presence_of;
use crate::side::Presence;
use crate::table::{Asker, Table};
use lsp_rpc::{Message, NoMemory};
use serde_json::Value;
use std::alloc::Global;

/// What became of `initialize`.
#[derive(Drop)]
pub(crate) enum Opening {
    /// It wasn't passed on, or it failed.
    Unopened,
    /// Its response is awaited under this id, by these askers.
    Awaited(u64, Vec<Asker>),
    /// It was answered with this result.
    Opened(Value),
}

/// A proxy between editors and one language server. It passes on their messages, and keeps apart
/// the ids of their requests.
#[derive(Drop)]
pub struct Proxy {
    pub(crate) alloc: Global,
    // the next id to be drawn
    pub(crate) next: u64,
    pub(crate) asked: Table,
    pub(crate) requested: Table,
    pub(crate) opening: Opening,
    pub(crate) closing: Option<u64>,
    pub(crate) announced: bool,
    pub(crate) editors: Vec<Presence>,
    ghost bounded: { next ≤ last_id },
    ghost few: { length editors.items < 2 ^ 32 },
    ghost asked_below: { IsTrue (are_below next asked) },
    ghost requested_below: { IsTrue (are_below next requested) },
    ghost of_lowest: { IsTrue (are_of (lowest editors.items) requested) },
}

fn all_here(alloc: Global, n: u32) -> Result<Vec<Presence>, NoMemory>
    ensures { IfOk result (λ v. v.items ≡ replicate n Presence.Here) }
{
    let mut here = Vec::new(alloc);
    for _ in 0..n {
        here.push(Presence::Here)?;
    }
    Ok(here)
}

impl Proxy {
    ghost use Rattle.lsp_rpc.specs.Shown.{show_message};
    ghost use Rattle.lsp_proxy.specs.Outgoing.{GivesOrKeeps};
    ghost use Rattle.lsp_proxy.specs.Proxy.{from_editor, from_server, presence, is_gone};
    ghost use Rattle.lsp_proxy.specs.Shown.{show_proxy, MakesOrKeeps};

    /// A proxy for that many editors, at least one. They are numbered from 0.
    pub fn new(alloc: Global, editors: u32) -> Result<Proxy, NoMemory>
        requires { 0 < editors }
        ensures { IfOk result (λ p. show_proxy p ≡ opening_state editors) }
    {
        let editors = all_here(alloc, editors)?;
        let asked = Table::new(alloc);
        let requested = Table::new(alloc);
        Ok(Proxy {
            alloc,
            next: 0,
            asked,
            requested,
            opening: Opening::Unopened,
            closing: None,
            announced: false,
            editors,
        })
    }

    /// Takes a message of editor k, and gives what is to be sent for it. An editor that isn't below
    /// the number of editors is as one that is gone. Out of memory changes nothing.
    #[tactic(auto, unfolding(crate::specs::Proxy::from_editor))]
    pub fn editor(&mut self, k: u32, message: Message) -> Result<Sent, NoMemory>
        ensures makes { MakesOrKeeps self.old self.new
            (from_editor k (show_message message)) result }
        // An editor that is gone takes no memory.
        ensures gone { is_gone (presence k (show_proxy self.old)) ≡ true → IsOk result }
    {
        if presence_of(&self.editors, k).is_gone() {
            return Ok(Vec::new(self.alloc));
        }
        match message {
            Message::Response(response) => self.replied(k, response),
            Message::Request(request) => self.called(k, request),
        }
    }

    /// Takes a message of the server, and gives what is to be sent for it. Out of memory changes
    /// nothing.
    pub fn server(&mut self, message: Message) -> Result<Sent, NoMemory>
        ensures { MakesOrKeeps self.old self.new (from_server (show_message message)) result }
    {
        match self.server_outgoing(message)? {
            Outgoing::Each(sent) => Ok(sent),
            Outgoing::Broadcast(editors, note) => to_each(self.alloc, &editors, note),
        }
    }

    /// As [`Proxy::server`], but what it gives stands for the list of what is to be sent: a
    /// notification that goes to several editors is there once, with these editors.
    #[tactic(auto, unfolding(crate::specs::Proxy::from_server))]
    pub fn server_outgoing(&mut self, message: Message) -> Result<Outgoing, NoMemory>
        ensures { GivesOrKeeps self.old self.new (from_server (show_message message)) result }
    {
        match message {
            Message::Response(response) => Ok(Outgoing::Each(self.server_response(response)?)),
            Message::Request(request) => self.server_called(request),
        }
    }
}
