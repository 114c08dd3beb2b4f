//! The requests whose answers are awaited.
ghost use Rattle.std.specs.Prelude.{◌≡◌, ◌++◌, [], ◌∷◌, OnOk, OnErr, option_map};
ghost use Rattle.std.specs.List.{find, list_any, before_first, after_first};
ghost use Rattle.lsp_rpc.specs.Shown.{show_id};
ghost use Rattle.lsp_desk.specs.Desk.{has_id, is_awaited_by};

use lsp_keyed::Keyed;
use lsp_rpc::{Id, NoMemory};
use std::alloc::Global;

/// The requests whose answers are awaited, in the order in which they were sent, which is that of
/// their tickets.
#[derive(Drop)]
pub(crate) struct Waiting {
    alloc: Global,
    // the ids by the tickets
    awaited: Keyed<Id, ()>,
}

impl Waiting {
    ghost use Rattle.lsp_desk.specs.Waits.{show_waiting};

    pub(crate) fn new(alloc: Global) -> Waiting
        ensures { show_waiting result ≡ [] }
    {
        Waiting {
            alloc,
            awaited: Keyed::new(alloc),
        }
    }

    /// Awaits an answer after the others. After 2^64 tickets the numbers begin again; there is no
    /// place for one while an answer of a greater one is awaited.
    pub(crate) fn push(&mut self, ticket: u64, id: &Id) -> Result<(), NoMemory>
        ensures ok { OnOk result (show_waiting self.new
            ≡ show_waiting self.old ++ record { ticket = ticket; id = show_id id.now } ∷ []) }
        ensures err { OnErr result (show_waiting self.new ≡ show_waiting self.old) }
    {
        if !self.awaited.is_above(ticket) {
            return Err(NoMemory);
        }
        let key = id.clone(self.alloc)?;
        let same = id.clone(self.alloc)?;
        self.awaited.push(ticket, key, same, ())
    }

    /// The ticket of the oldest request of an id.
    pub(crate) fn oldest(&self, id: &Id) -> Option<u64>
        ensures { result
            ≡ option_map (λ a. a.ticket) (find (has_id (show_id id.now)) (show_waiting self.now)) }
    {
        self.awaited.oldest(id)
    }

    /// Takes the oldest request of an id out. It takes no memory.
    pub(crate) fn remove_oldest(&mut self, id: &Id)
        ensures { show_waiting self.new
            ≡ before_first (has_id (show_id id.now)) (show_waiting self.old)
            ++ after_first (has_id (show_id id.now)) (show_waiting self.old) }
    {
        let _ = self.awaited.take(id);
    }

    /// Whether an answer of the ticket is awaited.
    pub(crate) fn has_ticket(&self, ticket: u64) -> bool
        ensures { result ≡ list_any (is_awaited_by ticket) (show_waiting self.now) }
    {
        self.awaited.has_number(ticket)
    }
}
