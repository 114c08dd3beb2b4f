//! The requests that wait for a response, found by their drawn ids and by who asked.
ghost use Rattle.std.specs.Prelude.{◌≡◌, ◌++◌, [], ◌∷◌, map, IfOk, IsOk, OnOk, OnErr, option_map};
ghost use Rattle.std.specs.Cmp.{on_equiv, on_per, partial_equiv_from_equiv};
ghost use Rattle.lsp_proxy.specs.Entries.{asker_at, place_of, without_entry, AreBelow, same_asker_equiv, asker_writes, asker_writes_alike};
ghost use Rattle.lsp_proxy.specs.Proxy.{refused};
ghost use Rattle.lsp_proxy.specs.Sent.{all_sent};
ghost use Rattle.lsp_proxy.specs.Tables.{show_asker, same_shown, table_entries};

use crate::parts::{Sent, refusal};
use crate::side::Side;
use lsp_keyed::Keyed;
use lsp_rpc::{ErrorCode, Id, NoMemory};
use std::alloc::Global;
use std::cmp::{Eq, PartialEq};
use std::collections::BTreeMap;
use std::hash::{Hash, Hasher};
use std::marker::Model;

/// An editor, and the id of a request between it and the server.
#[derive(Drop, Debug)]
pub(crate) struct Asker {
    pub(crate) editor: u32,
    pub(crate) id: Id,
}

impl Asker {
    /// An equal one.
    pub(crate) fn clone(&self, alloc: Global) -> Result<Asker, NoMemory>
        ensures { IfOk result (λ copy. show_asker copy ≡ show_asker self.now) }
    {
        Ok(Asker {
            editor: self.editor,
            id: self.id.clone(alloc)?,
        })
    }
}

impl PartialEq for Asker {
    ghost eq = { same_shown };

    ghost laws = { on_per show_asker (partial_equiv_from_equiv same_asker_equiv) };

    fn eq(&self, other: &Asker) -> bool {
        self.editor == other.editor && self.id == other.id
    }
}

impl Eq for Asker {
    ghost laws = { on_equiv show_asker same_asker_equiv };
}

impl Hash for Asker {
    ghost hash_input = { λ a. asker_writes (show_asker a) };

    ghost respects_eq = { λ a b same. asker_writes_alike (show_asker a) (show_asker b) same };

    fn hash<H: Hasher>(&self, state: &mut H) {
        self.editor.hash(state);
        self.id.hash(state);
    }
}

/// The requests that wait for a response, in the order of their drawn ids, found by these and by
/// who asked. Several may have one asker.
#[derive(Drop)]
pub(crate) struct Table {
    alloc: Global,
    keyed: Keyed<Asker, ()>,
}

impl Model for Table {
    ghost use Rattle.std.specs.Prelude.{List};
    ghost use Rattle.lsp_proxy.specs.Entries.{Entry};
    ghost use Rattle.lsp_proxy.specs.Tables.{table_entries};

    ghost Value = { List Entry };

    ghost view = { λ t. table_entries t.keyed };
}

impl Table {
    /// No requests.
    pub(crate) fn new(alloc: Global) -> Table
        ensures { result ≡ [] }
    {
        Table {
            alloc,
            keyed: Keyed::new(alloc),
        }
    }

    /// Who asked under the drawn id.
    pub(crate) fn asker(&self, n: u64) -> Option<&Asker>
        ensures { option_map (λ a. show_asker a.now) result ≡ asker_at n self.now }
    {
        match self.keyed.get(n) {
            Some((asker, ())) => Some(asker),
            None => None,
        }
    }

    /// The drawn id of the asker's first entry.
    pub(crate) fn place(&self, asker: &Asker) -> Option<u64>
        ensures { result ≡ place_of (show_asker asker.now) self.now }
    {
        self.keyed.oldest(asker)
    }

    /// Adds an entry at the end.
    pub(crate) fn push(&mut self, n: u64, asker: Asker) -> Result<(), NoMemory>
        requires { AreBelow n self.old }
        ensures ok { OnOk result (self.new
            ≡ self.old ++ record { n = n; asker = show_asker asker } ∷ []) }
        ensures err { OnErr result (self.new ≡ self.old) }
    {
        let same = asker.clone(self.alloc)?;
        self.keyed.push(n, asker, same, ())
    }

    /// Takes the entry under the drawn id out.
    pub(crate) fn remove(&mut self, n: u64)
        ensures { self.new ≡ without_entry n self.old }
    {
        drop(self.keyed.remove(n));
    }

    /// The responses that refuse each of the requests, in order.
    pub(crate) fn answers(&self, alloc: Global) -> Result<Sent, NoMemory>
        ensures sent { IfOk result (λ sent. all_sent sent.items ≡ map refused self.now) }
        ensures ready { map refused self.now ≡ [] → IsOk result }
    {
        answers_to(alloc, self.keyed.entries())
    }

    /// Takes every entry out.
    pub(crate) fn clear(&mut self)
        ensures { self.new ≡ [] }
    {
        self.keyed.clear();
    }
}

fn answers_to(alloc: Global, entries: &BTreeMap<u64, (Asker, ())>) -> Result<Sent, NoMemory>
    ensures sent { IfOk result
        (λ sent. all_sent sent.items ≡ map refused (table_entries entries.now.entries)) }
    ensures ready { map refused (table_entries entries.now.entries) ≡ [] → IsOk result }
{
    let mut sent = Vec::new(alloc);
    for (_, (asker, ())) in entries.iter() {
        let id = asker.id.clone(alloc)?;
        sent.push((Side::Server, refusal(alloc, id, ErrorCode::InternalError)?))?;
    }
    Ok(sent)
}
