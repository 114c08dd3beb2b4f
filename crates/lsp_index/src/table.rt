// Tables in which ids are found without a walk.
ghost use Rattle.std.specs.Prelude.{◌≡◌, ◌++◌, [], ◌∷◌, OnOk, is_some, if◌then◌else◌};
ghost use Rattle.std.specs.HashMap.{get as get_at};
ghost use Rattle.std.specs.Map.{lookup};
ghost use Rattle.lsp_index.specs.Kept.{same_key, listed_items};

use crate::graph::Item;
use indexmap::IndexMap;
use lsp_rpc::{Id, NoMemory};
use std::alloc::Global;
use std::collections::HashMap;

/// Puts a value under an id, unless one stands there.
pub(crate) fn put_first<V: Drop>(
    table: &mut IndexMap<Id, V>,
    id: Id,
    value: V,
) -> Result<(), NoMemory>
    ensures { OnOk result (table.new.entries ≡ (if is_some (lookup (same_key id) table.old.entries)
        then table.old.entries else table.old.entries ++ (id, value) ∷ [])) }
{
    if !table.contains_key(&id) {
        table.insert(id, value)?;
    }
    Ok(())
}

/// Puts an item after the others of an id.
pub(crate) fn put_item(
    alloc: Global,
    table: &mut HashMap<Id, Vec<Item>>,
    id: Id,
    item: Item,
) -> Result<(), NoMemory>
    ensures { OnOk result ((q : Id) → listed_items (get_at same_key table.new q)
        ≡ (if same_key id q then listed_items (get_at same_key table.old id) ++ item ∷ []
        else listed_items (get_at same_key table.old q))) }
{
    match table.get_mut(&id) {
        Some(items) => {
            items.push(item)?;
            Ok(())
        }
        None => {
            let mut items = Vec::new(alloc);
            items.push(item)?;
            table.insert(id, items)?;
            Ok(())
        }
    }
}
