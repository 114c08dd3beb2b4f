//! A list whose entries are found by their keys.
ghost use Rattle.std.specs.Prelude.{◌≡◌, ◌↔◌, ◌^◌, ◌-◌, ◌+◌, ◌<◌, ◌≤◌, ◌++◌, [], ◌∷◌, true, None, IsTrue, IfSome, SomeIff, OnOk, OnErr, length, map, option_map, if◌then◌else◌};
ghost use Rattle.std.specs.List.{find, list_any, before_first, after_first};
ghost use Rattle.std.specs.HashMap.{get};
ghost use Rattle.std.specs.Vec.{vec_len, vec_capacity};
ghost use Rattle.lsp_keyed.specs.Items.{has_key, has_number as has_number_def, without, IsAbove, next_number};
ghost use Rattle.lsp_keyed.specs.Index.{listed, first, rest, without_number, AreLess, IsIndexed};

use no_memory::NoMemory;
use std::alloc::Global;
use std::cmp::Eq;
use std::collections::{BTreeMap, BTreeSet, HashMap};
use std::hash::Hash;
use std::marker::Model;
use std::mem;

/// The numbers of the entries of one key.
#[derive(Drop)]
struct Numbers {
    oldest: u64,
    later: BTreeSet<u64>,
}

/// Entries in the order of their numbers, each with a key and a value. Several may have one key. To
/// put one in, to find it by its number or the oldest of a key, and to take it out costs no walk
/// over the others.
#[derive(Drop)]
pub struct Keyed<K: Eq + Hash + Drop, V: Drop> {
    alloc: Global,
    entries: BTreeMap<u64, (K, V)>,
    numbers: HashMap<K, Numbers>,
}

impl<K: Eq + Hash + Drop, V: Drop> Model for Keyed<K, V> {
    ghost use Rattle.std.specs.Prelude.{ℕ, List};
    ghost use Rattle.lsp_keyed.specs.Index.{IsIndexed};

    ghost Value = { List (ℕ × (K × V)) };

    ghost view = { λ t. t.entries.entries };

    ghost invariant = { λ t. IsIndexed K.eq t.entries.entries t.numbers };
}

impl<K: Eq + Hash + Drop, V: Drop> Keyed<K, V> {
    /// No entries.
    pub fn new(alloc: Global) -> Keyed<K, V>
        ensures { result ≡ [] }
    {
        Keyed {
            alloc,
            entries: BTreeMap::new(alloc),
            numbers: HashMap::new(alloc),
        }
    }

    /// How many entries there are.
    pub fn len(&self) -> usize
        ensures { result ≡ length self.now }
    {
        self.entries.len()
    }

    /// The entries.
    pub fn entries(&self) -> &BTreeMap<u64, (K, V)>
        ensures { result.now.entries ≡ self.now }
    {
        &self.entries
    }

    /// Whether an entry has the key.
    pub fn contains(&self, key: &K) -> bool
        ensures { result ≡ list_any (has_key K.eq key.now) self.now }
    {
        self.numbers.contains_key(key)
    }

    /// The number of the oldest entry of the key.
    pub fn oldest(&self, key: &K) -> Option<u64>
        ensures { result ≡ option_map (λ e. e.0) (find (has_key K.eq key.now) self.now) }
    {
        self.numbers.get(key).map(|numbers| numbers.oldest)
    }

    /// The key and the value of the entry of the number.
    pub fn get(&self, number: u64) -> Option<&(K, V)>
        ensures { option_map (λ e. e.now) result
            ≡ option_map (λ e. e.1) (find (has_number_def number) self.now) }
    {
        self.entries.get(&number)
    }

    /// Whether an entry has the number.
    pub fn has_number(&self, number: u64) -> bool
        ensures { result ≡ list_any (has_number_def number) self.now }
    {
        self.entries.contains_key(&number)
    }

    /// Whether the number is above those of all entries.
    pub fn is_above(&self, number: u64) -> bool
        ensures { IsTrue result ↔ IsAbove number self.now }
    {
        match self.entries.last_key_value() {
            Some((last, _)) => *last < number,
            None => true,
        }
    }

    /// The number after that of the last entry, which is above those of all, and 0 where there is no
    /// entry. There is none where an entry has the last number.
    pub fn next(&self) -> Option<u64>
        ensures follows { SomeIff result (next_number self.now < 2 ^ 64) (next_number self.now) }
        ensures above { IfSome result (λ n. IsAbove n self.now) }
        ensures none { result ≡ None → list_any (has_number_def (2 ^ 64 - 1)) self.now ≡ true }
    {
        match self.entries.last_key_value() {
            Some((last, _)) => last.checked_add(1),
            None => Some(0),
        }
    }

    /// Puts an entry after the others, unless there is no memory for it or to find it by its key.
    /// `same` is equal to its key.
    pub fn push(&mut self, number: u64, key: K, same: K, value: V) -> Result<(), NoMemory>
        requires above { IsAbove number self.old }
        requires same { K.eq same key ≡ true }
        ensures ok { OnOk result (self.new ≡ self.old ++ (number, (key, value)) ∷ []) }
        ensures err { OnErr result (self.new ≡ self.old) }
    {
        self.entries.insert(number, (key, value))?;
        match self.numbers.get_mut(&same) {
            Some(known) => {
                if push_number(&mut known.later, number).is_ok() {
                    return Ok(());
                }
            }
            None => {
                let numbers = Numbers {
                    oldest: number,
                    later: BTreeSet::new(self.alloc),
                };
                if self.numbers.insert(same, numbers).is_ok() {
                    return Ok(());
                }
            }
        }
        drop(self.entries.remove(&number));
        Err(NoMemory)
    }

    /// Takes the oldest entry of the key out. It takes no memory.
    pub fn take(&mut self, key: &K) -> Option<V>
        ensures value { result ≡ option_map (λ e. e.1.1) (find (has_key K.eq key.now) self.old) }
        ensures rest { self.new ≡ before_first (has_key K.eq key.now) self.old
            ++ after_first (has_key K.eq key.now) self.old }
    {
        let number = self.numbers.get(key)?.oldest;
        self.remove(number).map(|(_, value)| value)
    }

    /// Takes the entry of the number out. It takes no memory.
    pub fn remove(&mut self, number: u64) -> Option<(K, V)>
        ensures entry { result ≡ option_map (λ e. e.1) (find (has_number_def number) self.old) }
        ensures rest { self.new ≡ without number self.old }
    {
        let entry = self.entries.remove(&number)?;
        if let Some(known) = self.numbers.get_mut(&entry.0) {
            if number != known.oldest {
                remove_number(&mut known.later, number);
            } else if let Some(next) = known.later.pop_first() {
                known.oldest = next;
            } else {
                drop(self.numbers.remove(&entry.0));
            }
        }
        Some(entry)
    }

    /// Takes all entries out. It takes no memory.
    pub fn clear(&mut self)
        ensures { self.new ≡ [] }
    {
        *self = Keyed::new(self.alloc);
    }

    /// Takes all entries out, and puts their keys after those of the list, which has room for them.
    /// It takes no memory.
    pub fn clear_into(&mut self, keys: &mut Vec<K>)
        requires room { vec_len keys.old + length self.old ≤ vec_capacity keys.old }
        ensures keys { keys.new.items ≡ keys.old.items ++ map (λ e. e.1.0) self.old }
        ensures none { self.new ≡ [] }
    {
        let entries = mem::replace(&mut self.entries, BTreeMap::new(self.alloc));
        self.numbers = HashMap::new(self.alloc);
        move_keys(entries, keys);
    }
}

// Puts a number after the others.
fn push_number(numbers: &mut BTreeSet<u64>, number: u64) -> Result<(), NoMemory>
    requires { AreLess number numbers.old.keys }
    ensures ok { OnOk result (numbers.new.keys ≡ numbers.old.keys ++ number ∷ []) }
    ensures err { OnErr result (numbers.new.keys ≡ numbers.old.keys) }
{
    numbers.insert(number)?;
    Ok(())
}

// Takes the number out.
fn remove_number(numbers: &mut BTreeSet<u64>, number: u64)
    ensures { numbers.new.keys ≡ without_number number numbers.old.keys }
{
    numbers.remove(&number);
}

// Puts the keys after those of the list.
fn move_keys<K: Eq + Hash + Drop, V: Drop>(mut entries: BTreeMap<u64, (K, V)>, keys: &mut Vec<K>)
    requires { vec_len keys.old + length entries.entries ≤ vec_capacity keys.old }
    ensures { keys.new.items ≡ keys.old.items ++ map (λ e. e.1.0) entries.entries }
{
    while let Some((_, (key, _))) = entries.pop_first() {
        match keys.push(key) {
            Ok(()) => {}
            Err(_) => unreachable!(),
        }
    }
}
