// Maps: objects of any members, and maps from keys that are texts.
ghost use Rattle.std.specs.Prelude.{◌≡◌, ◌↔◌, map, ℕ, List, Bool, bytes_eq, true, false, IfOk, OnOk, Some, string_bytes};
ghost use Rattle.std.proofs.Common.{rules};
ghost use Rattle.std.specs.List.{list_any};
ghost use Rattle.serde_json.specs.Data.{object as object_of};
ghost use Rattle.serde_json.specs.View.{members_view};
ghost use Rattle.lsp_shape.specs.Plain.{entries_of};
ghost use Rattle.lsp_shape.specs.Shape.{map_of, object_shape, every_text};
ghost use Rattle.lsp_shape.specs.Shown.{show_map, show_object};
ghost use Rattle.lsp_shape.specs.Read.{read, read_entries, read_map};
ghost use Rattle.lsp_shape.specs.Why.{Fails, IfUnfit, IsUnfit, IsWhole};

use crate::member::put;
use crate::why::{Misfit, Wanted, told_member};
use crate::wire::Wire;
use no_memory::NoMemory;
use serde_json::{Map, Value};
use std::alloc::Global;
use std::collections::HashMap;
use std::hash::Hash;

#[tactic(auto, using(crate::proofs::Entries::object_lemmas))]
impl Wire for Map<String, Value> {
    ghost shape = { object_shape };

    ghost shown = { show_object };

    fn from_value(_alloc: Global, value: &Value) -> Result<Map<String, Value>, Misfit> {
        match value.as_object() {
            Some(members) => Ok(members.clone()?),
            None => Err(Misfit::wanted(Wanted::Object)),
        }
    }

    fn to_value(&self, _alloc: Global) -> Result<Value, NoMemory> {
        Ok(Value::Object(self.clone()?))
    }
}

/// A type whose values are told by their texts.
pub trait Key: Eq + Hash + Drop {
    /// The text of a key.
    ghost key_text: { Self → List ℕ };

    /// The texts that keys have.
    ghost is_key: { List ℕ → Bool };

    /// `Unfit` comes exactly where the text is that of no key, also where memory is short.
    fn from_text(alloc: Global, text: &str) -> Result<Self, Misfit>
        ensures read { IfOk result (λ k. key_text k ≡ text.now) }
        ensures fits { OnOk result (is_key text.now ≡ true) }
        ensures unfit { IsUnfit result ↔ (is_key text.now ≡ false) };

    fn as_text(&self) -> &str
        ensures shown { result.now ≡ key_text self.now }
        ensures fits { is_key (key_text self.now) ≡ true };

    /// Keys are equal exactly where their texts are.
    ghost told_by_text: { (a b : Self) → Self.eq a b ≡ bytes_eq (key_text a) (key_text b) };
}

impl Key for String {
    ghost key_text = { string_bytes };

    ghost is_key = { every_text };

    ghost told_by_text = { Prim.search rules };

    fn from_text(alloc: Global, text: &str) -> Result<String, Misfit> {
        Ok(String::from_str(alloc, text)?)
    }

    fn as_text(&self) -> &str {
        self.as_str()
    }
}

impl<K: Key, T: Wire> Wire for HashMap<K, T> {
    ghost shape = { map_of K.is_key T.shape };

    ghost shown = { show_map K.key_text T.shown };

    fn from_value(alloc: Global, value: &Value) -> Result<HashMap<K, T>, Misfit> {
        match value.as_object() {
            Some(members) => rest(alloc, members, &[]),
            None => Err(Misfit::wanted(Wanted::Object)),
        }
    }

    fn to_value(&self, alloc: Global) -> Result<Value, NoMemory> {
        let mut object = Map::new(alloc);
        for (key, value) in self.iter() {
            put(alloc, &mut object, key.as_text(), value)?;
        }
        Ok(Value::Object(object))
    }
}

/// The members that are not named, as a map.
pub fn rest<K: Key, T: Wire>(
    alloc: Global,
    members: &Map<String, Value>,
    names: &[&str],
) -> Result<HashMap<K, T>, Misfit>
    ensures read { IfOk result
        (λ m. read_entries (map (λ n. n.now) names.now) K.is_key (read T.shape)
        (members_view members.now.entries) ≡ Some (entries_of K.key_text T.shown m.entries)) }
    ensures unfit { IfUnfit result
        (λ why. Fails
        (read_map (read_entries (map (λ n. n.now) names.now) K.is_key (read T.shape)))
        (object_of (members_view members.now.entries)) why) }
{
    let mut entries = HashMap::new(alloc);
    for (name, member) in members.iter() {
        if is_named(names, name.as_str()) {
            continue;
        }
        let key = key_of(alloc, name.as_str())?;
        let value = told_member(members, name.as_str(), T::from_value(alloc, member))?;
        drop(entries.insert(key, value)?);
    }
    Ok(entries)
}

// The key of that text. Where it is none, the map has a member of another name than is wanted.
fn key_of<K: Key>(alloc: Global, text: &str) -> Result<K, Misfit>
    ensures read { IfOk result (λ k. K.key_text k ≡ text.now) }
    ensures fits { OnOk result (K.is_key text.now ≡ true) }
    ensures unfit { IfUnfit result (λ why. K.is_key text.now ≡ false) }
    ensures whole { IfUnfit result (λ why. IsWhole Wanted.Keys why) }
{
    match K::from_text(alloc, text) {
        Ok(key) => Ok(key),
        Err(misfit) => Err(misfit.whole(Wanted::Keys)),
    }
}

fn is_named(names: &[&str], name: &str) -> bool
    ensures { result ≡ list_any (λ n. bytes_eq name.now n.now) names.now }
{
    names.iter().any(|n| name == *n)
}
