// What a query answers of an index.
ghost use Rattle.std.specs.Prelude.{◌≡◌, ◌++◌, [], map, slice_get, IfOk, OnOk, Option, Some, None, option_map, option_and_then, fold, string_bytes, if◌then◌else◌};
ghost use Rattle.std.specs.List.{list_any};
ghost use Rattle.serde_json.specs.Written.{compact_text};
ghost use Rattle.lsp_rpc.specs.Ids.{same_id};
ghost use Rattle.lsp_rpc.specs.Message.{IdData};
ghost use Rattle.lsp_rpc.specs.Shown.{show_id};
ghost use Rattle.lsp_uri.specs.Uri.{uri_text};
ghost use Rattle.lsp_shape.specs.Read.{text_is};
ghost use Rattle.lsp_index.specs.Entries.{entry_ids};
ghost use Rattle.lsp_index.specs.Graph.{Graph, at_id};
ghost use Rattle.lsp_index.specs.Kept.{IsKept};
ghost use Rattle.lsp_index.specs.Shown.{show_ids, show_item_edge, show_location, show_named, show_link, show_outgoing, show_vertex_of};
ghost use Rattle.lsp_index.specs.Queries.{is_before, holds_position, is_closer, closest_of, range_holding, candidate_in, with_candidate, chosen_at, with_new_id, with_contained, named_in, document_at, IsReachedFrom, with_range, with_ranges, with_item_ranges, with_linked, with_place, location_value, locations_text, IsListed, IsHover, IsAnswerFrom};

use crate::Request;
use crate::entry::key_of;
use crate::graph::{Index, Item, Outgoing, Role};
use indexmap::{IndexMap, IndexSet};
use lsp_base::{Location, NumberOrString, Position, Range};
use lsp_rpc::{Id, NoMemory};
use lsp_shape::write_text;
use lsp_uri::Uri;
use std::alloc::Global;

// By line, then by character.
fn is_before(a: Position, b: Position) -> bool
    ensures { result ≡ is_before a b }
{
    a.line < b.line || (a.line == b.line && a.character < b.character)
}

// A position at the end of a range is outside.
fn holds_position(range: Range, position: Position) -> bool
    ensures { result ≡ holds_position range position }
{
    !is_before(position, range.start) && is_before(position, range.end)
}

// Whether a range starts later than another, or there too and ends earlier.
fn is_closer(range: Range, other: Range) -> bool
    ensures { result ≡ is_closer range other }
{
    is_before(other.start, range.start)
        || (!is_before(range.start, other.start) && is_before(range.end, other.end))
}

// Puts the location of a range, if there is one, after those that were found, where it is new.
fn add_range(
    uri: &Uri,
    range: Option<Range>,
    found: &mut IndexSet<Location>,
) -> Result<(), NoMemory>
    ensures { OnOk result (map show_location found.new.keys
        ≡ with_range (uri_text uri.now) (map show_location found.old.keys) range) }
{
    match range {
        Some(range) => {
            let uri = uri.clone()?;
            found.insert(Location::new(uri, range))?;
            Ok(())
        }
        None => Ok(()),
    }
}

// Puts ids after those of the set, where they are new.
fn add_ids(alloc: Global, ids: &Vec<NumberOrString>, set: &mut IndexSet<Id>) -> Result<(), NoMemory>
    ensures { OnOk result (show_ids set.new.keys
        ≡ fold with_new_id (show_ids set.old.keys) (entry_ids ids.now.items)) }
{
    for id in ids {
        set.insert(key_of(alloc, id)?)?;
    }
    Ok(())
}

// Puts the text of a location behind others.
fn put_location(
    alloc: Global,
    comma: &str,
    location: &Location,
    text: &mut String,
) -> Result<(), NoMemory>
    ensures { OnOk result (string_bytes text.new ≡ string_bytes text.old
        ++ (comma.now ++ compact_text (location_value (show_location location.now)))) }
{
    text.push_str(comma)?;
    text.push_str(write_text(alloc, location)?.as_str())?;
    Ok(())
}

// Puts the text of a list of locations into an empty text. Each is written by itself: as one value
// they would take some 4 KB each.
fn put_locations(
    alloc: Global,
    found: &IndexSet<Location>,
    text: &mut String,
) -> Result<(), NoMemory>
    requires { string_bytes text.old ≡ [] }
    ensures { OnOk result (string_bytes text.new
        ≡ locations_text (map show_location found.now.keys)) }
{
    text.push_str("[")?;
    let mut comma = "";
    for location in found.as_slice() {
        put_location(alloc, comma, location, text)?;
        comma = ",";
    }
    text.push_str("]")?;
    Ok(())
}

impl Index {
    // Whether an id is that of the document.
    fn is_document(&self, id: &Id, uri: &Uri) -> bool
        ensures { (g : Graph) → IsKept g self.now
            → result ≡ text_is (uri_text uri.now) (document_at g (show_id id.now)) }
    {
        match self.document(id) {
            Some(text) => *text == *uri,
            None => false,
        }
    }

    // Puts the ids that an edge `contains` names after those of the set, if it comes from the
    // document.
    fn add_contained(
        &self,
        uri: &Uri,
        outgoing: &Outgoing,
        named: &mut IndexSet<Id>,
    ) -> Result<(), NoMemory>
        ensures { OnOk result ((g : Graph) → IsKept g self.now → show_ids named.new.keys
            ≡ with_contained g (uri_text uri.now) (show_ids named.old.keys)
            (show_outgoing outgoing.now)) }
    {
        if self.is_document(&outgoing.from, uri) {
            add_ids(self.alloc, &outgoing.targets, named)
        } else {
            Ok(())
        }
    }

    // The ids that edges `contains` from the document name.
    fn named(&self, uri: &Uri) -> Result<IndexSet<Id>, NoMemory>
        ensures { IfOk result (λ named. (g : Graph) → IsKept g self.now
            → show_ids named.keys ≡ named_in g (uri_text uri.now)) }
    {
        let mut named = IndexSet::new(self.alloc);
        for outgoing in &self.contained {
            self.add_contained(uri, outgoing, &mut named)?;
        }
        Ok(named)
    }

    // A vertex by its place, if it is one of the ranges named and holds the position.
    fn candidate<'a>(
        &'a self,
        at: usize,
        named: &IndexSet<Id>,
        position: Position,
    ) -> Option<(&'a Id, Range)>
        ensures { option_map show_named result
            ≡ option_and_then (λ e. candidate_in (show_ids named.now.keys) position (show_vertex_of e))
            (slice_get self.now.vertices.entries at) }
    {
        match self.vertices.get_index(at) {
            Some((id, node)) => named_range(id, node.range(), named, position),
            None => None,
        }
    }

    // The closest of the ranges named that hold the position.
    fn closest<'a>(&'a self, named: &IndexSet<Id>, position: Position) -> Option<&'a Id>
        ensures { option_map (λ id. show_id id.now) result ≡ option_map (λ c. c.0)
            (fold (with_candidate (show_ids named.now.keys) position) None
            (map show_vertex_of self.now.vertices.entries)) }
    {
        let mut closest: Option<(&Id, Range)> = None;
        for i in 0..self.vertices.len() {
            closest = closer(closest, self.candidate(i, named, position));
        }
        match closest {
            Some((id, _)) => Some(id),
            None => None,
        }
    }

    // The result that a range leads to, if there is one: its own, or that of the vertex that its edge
    // `next` leads to. A walk that comes to a vertex again goes round: one is kept to compare with, and
    // then a later one, after as many edges as it took to come there.
    fn walk<'a>(&'a self, from: Option<&'a Id>) -> Option<&'a Id>
        ensures { (g : Graph) → IsKept g self.now → (chosen : Option (IdData × Range))
            → option_map (λ id. show_id id.now) from.entry ≡ option_map (λ c. c.0) chosen
            → IsReachedFrom g chosen (option_map (λ id. show_id id.now) result) }
    {
        let Some(mut vertex) = from else {
            return None;
        };
        let mut before = vertex;
        for i in 0..self.nexts.len() {
            match target(&self.results, vertex) {
                Some(result) => return Some(result),
                None => {}
            }
            match target(&self.nexts, vertex) {
                Some(next) => vertex = next,
                None => return None,
            }
            if *vertex == *before {
                return None;
            }
            if i & (i + 1) == 0 {
                before = vertex;
            }
        }
        target(&self.results, vertex)
    }

    // Puts the locations of ranges after those that were found, where they are new.
    fn add_ranges(
        &self,
        uri: &Uri,
        ids: &Vec<NumberOrString>,
        found: &mut IndexSet<Location>,
    ) -> Result<(), NoMemory>
        ensures { OnOk result ((g : Graph) → IsKept g self.now → map show_location found.new.keys
            ≡ with_ranges g (entry_ids ids.now.items) (map show_location found.old.keys)
            (Some (uri_text uri.now))) }
    {
        for id in ids {
            let key = key_of(self.alloc, id)?;
            add_range(uri, self.range(&key), found)?;
        }
        Ok(())
    }

    // Puts the locations of an item after those that were found, where they are new.
    fn add_item(&self, item: &Item, found: &mut IndexSet<Location>) -> Result<(), NoMemory>
        ensures { OnOk result ((g : Graph) → IsKept g self.now → map show_location found.new.keys
            ≡ with_item_ranges g (map show_location found.old.keys) (show_item_edge item.now)) }
    {
        match self.document(&item.document) {
            Some(uri) => self.add_ranges(uri, &item.targets, found),
            None => Ok(()),
        }
    }

    // Puts the places of an item after those that were found, or the further results that it leads
    // to after those of the set, where they are new.
    fn follow(
        &self,
        item: &Item,
        found: &mut IndexSet<Location>,
        results: &mut IndexSet<Id>,
    ) -> Result<(), NoMemory>
        ensures places { OnOk result ((g : Graph) → IsKept g self.now → map show_location found.new.keys
            ≡ with_place g (map show_location found.old.keys) item.now.role (show_item_edge item.now)) }
        ensures linked { OnOk result (show_ids results.new.keys
            ≡ with_linked (show_ids results.old.keys) item.now.role (entry_ids item.now.targets.items)) }
    {
        match item.role {
            Role::Place => self.add_item(item, found),
            Role::Linked => add_ids(self.alloc, &item.targets, results),
            Role::Neither => Ok(()),
        }
    }

    // The same of each of the items.
    fn follow_all(
        &self,
        items: &[Item],
        found: &mut IndexSet<Location>,
        results: &mut IndexSet<Id>,
    ) -> Result<(), NoMemory>
        ensures places { OnOk result ((g : Graph) → IsKept g self.now → map show_location found.new.keys
            ≡ fold (λ ls i. with_place g ls i.role i) (map show_location found.old.keys)
            (map show_item_edge items.now)) }
        ensures linked { OnOk result (show_ids results.new.keys
            ≡ fold (λ rs i. with_linked rs i.role i.targets) (show_ids results.old.keys)
            (map show_item_edge items.now)) }
    {
        for item in items {
            self.follow(item, found, results)?;
        }
        Ok(())
    }

    // Puts the places of a result, and of all that it includes, into an empty set, and the results
    // into another.
    fn add_reached(
        &self,
        reached: Option<&Id>,
        found: &mut IndexSet<Location>,
        results: &mut IndexSet<Id>,
    ) -> Result<(), NoMemory>
        requires found { found.old.keys ≡ [] }
        requires results { results.old.keys ≡ [] }
        ensures { OnOk result ((g : Graph) → IsKept g self.now → IsListed g
            (option_map (λ id. show_id id.now) reached.entry)
            (locations_text (map show_location found.new.keys))) }
    {
        let Some(from) = reached else {
            return Ok(());
        };
        results.insert(from.clone(self.alloc)?)?;
        for i in 0..usize::MAX {
            match results.get_index(i) {
                Some(member) => self.follow_all(self.items_of(member), found, results)?,
                None => return Ok(()),
            }
        }
        Err(NoMemory)
    }

    /// What is reached from the range at the position.
    pub(crate) fn reached_at(&self, uri: &Uri, position: Position) -> Result<Option<&Id>, NoMemory>
        ensures { IfOk result (λ o. (g : Graph) → IsKept g self.now → IsReachedFrom g
            (chosen_at g (uri_text uri.now) position)
            (option_map (λ id. show_id id.now) o)) }
    {
        let named = self.named(uri)?;
        Ok(self.walk(self.closest(&named, position)))
    }

    // Puts the places of a result, and of all that it includes, into an empty set, the results into
    // another, and the text of the places into an empty text.
    fn put_places(
        &self,
        reached: Option<&Id>,
        found: &mut IndexSet<Location>,
        results: &mut IndexSet<Id>,
        text: &mut String,
    ) -> Result<(), NoMemory>
        requires found { found.old.keys ≡ [] }
        requires results { results.old.keys ≡ [] }
        requires text { string_bytes text.old ≡ [] }
        ensures { OnOk result ((g : Graph) → IsKept g self.now → IsListed g
            (option_map (λ id. show_id id.now) reached.entry) (string_bytes text.new)) }
    {
        self.add_reached(reached, found, results)?;
        put_locations(self.alloc, found, text)
    }

    // Puts the text of the places of a result, and of all that it includes, into an empty text.
    fn put_reached(&self, reached: Option<&Id>, text: &mut String) -> Result<(), NoMemory>
        requires { string_bytes text.old ≡ [] }
        ensures { OnOk result ((g : Graph) → IsKept g self.now → IsListed g
            (option_map (λ id. show_id id.now) reached.entry) (string_bytes text.new)) }
    {
        let mut found = IndexSet::new(self.alloc);
        let mut results = IndexSet::new(self.alloc);
        let put = self.put_places(reached, &mut found, &mut results, text);
        drop(found);
        drop(results);
        put
    }

    // The text of the hover of a result.
    fn hover_text(&self, reached: Option<&Id>) -> &str
        ensures { (g : Graph) → IsKept g self.now
            → IsHover g (option_map (λ id. show_id id.now) reached.entry) result.now }
    {
        let Some(from) = reached else {
            return "null";
        };
        match self.hover(from) {
            Some(text) => text.as_str(),
            None => "null",
        }
    }

    /// Puts the text of the answer from what is reached into an empty text.
    pub(crate) fn put_text(
        &self,
        request: Request,
        reached: Option<&Id>,
        text: &mut String,
    ) -> Result<(), NoMemory>
        requires { string_bytes text.old ≡ [] }
        ensures { OnOk result ((g : Graph) → IsKept g self.now
            → IsAnswerFrom request g (option_map (λ id. show_id id.now) reached.entry)
            (string_bytes text.new)) }
    {
        match request {
            Request::Definition => self.put_reached(reached, text),
            Request::References => self.put_reached(reached, text),
            Request::Hover => {
                text.push_str(self.hover_text(reached))?;
                Ok(())
            }
        }
    }
}

// A range with its id, if it holds the position and is one of those named.
fn named_range<'a>(
    id: &'a Id,
    range: Option<Range>,
    named: &IndexSet<Id>,
    position: Position,
) -> Option<(&'a Id, Range)>
    ensures { option_map show_named result
        ≡ (if list_any (same_id (show_id id.now)) (show_ids named.now.keys)
        then range_holding (show_id id.now) position range else None) }
{
    match range {
        Some(range) => {
            if !holds_position(range, position) {
                None
            } else if named.contains(id) {
                Some((id, range))
            } else {
                None
            }
        }
        None => None,
    }
}

// The closer of two ranges, and the first where neither is.
fn closer<'a>(
    closest: Option<(&'a Id, Range)>,
    other: Option<(&'a Id, Range)>,
) -> Option<(&'a Id, Range)>
    ensures { option_map show_named result
        ≡ closest_of (option_map show_named closest.entry) (option_map show_named other.entry) }
{
    match (closest, other) {
        (Some(closest), Some(other)) => {
            if is_closer(other.1, closest.1) {
                Some(other)
            } else {
                Some(closest)
            }
        }
        (Some(closest), None) => Some(closest),
        (None, Some(other)) => Some(other),
        (None, None) => None,
    }
}

// Where the edge from a vertex leads.
fn target<'a>(links: &'a IndexMap<Id, Id>, from: &Id) -> Option<&'a Id>
    ensures { option_map (λ id. show_id id.now) result
        ≡ at_id (map show_link links.now.entries) (show_id from.now) }
{
    links.get(from)
}
