// An entry of a dump.
ghost use Rattle.std.specs.Prelude.{◌≡◌, IfOk, IsErrOf, Some, None};
ghost use Rattle.serde_json.specs.Data.{Data};
ghost use Rattle.serde_json.specs.Read as json_text;
ghost use Rattle.lsp_shape.specs.Read.{read};
ghost use Rattle.lsp_lsif.specs.Entry.{entry_row, element_row};

use crate::edge::Edge;
use crate::vertex::Vertex;
use lsp_base::NumberOrString;
use lsp_shape::{
    Flat, Misfit, NoMemory, Required, TextMisfit, Wanted, Wire, Writer, flat, form, put_tag,
    read_object, read_text, tag,
};
use serde_json::Value;
use std::alloc::Global;

/// The id of a vertex or an edge, an integer or a string, by which other entries of the same dump
/// refer to it (LSIF 0.6).
pub type Id = NumberOrString;

/// One vertex or edge of an index dump, as a JSON object. A dump is a sequence of them, and each
/// vertex stands before the edges that refer to it (LSIF 0.6).
#[derive(Debug, PartialEq, Drop)]
pub struct Entry {
    /// The id of the vertex or edge, unique in the dump.
    pub id: Id,
    /// The vertex or edge. Its members are those of the same JSON object as the id.
    pub payload: Element,
}

#[tactic(auto, unfolding(crate::specs::Entry::entry_row))]
impl Wire for Entry {
    ghost shape = { entry_row.shape };

    ghost shown = { entry_row.shown };

    fn from_value(alloc: Global, value: &Value) -> Result<Entry, Misfit> {
        let (id, payload) = read_object(alloc, value, (Required("id"), Flat))?;
        Ok(Entry { id, payload })
    }

    fn to_value(&self, alloc: Global) -> Result<Value, NoMemory> {
        let mut object = Writer::new(alloc);
        object.field("id", &self.id);
        object.flat(&self.payload);
        object.end()
    }
}

/// The entry that the text is read as. `Json` comes only where the text is no JSON value that is
/// read, and `Unfit` only where it is one that does not fit.
///
/// It is `read_text`, proved once for this type: a crate that calls it has no drop of it to prove.
pub fn read_entry(alloc: Global, text: &str) -> Result<Entry, TextMisfit>
    ensures read { IfOk result
        (λ entry. (d : Data) × (json_text.read text.now ≡ Some d)
        × (read entry_row.shape d ≡ Some (entry_row.shown entry))) }
    ensures json { IsErrOf result TextMisfit.Json → json_text.read text.now ≡ None }
    ensures unfit { IsErrOf result TextMisfit.Unfit
        → ((d : Data) × (json_text.read text.now ≡ Some d) × (read entry_row.shape d ≡ None)) }
{
    read_text(alloc, text)
}

/// A vertex or an edge of the graph that a dump describes. In JSON, the member `type` distinguishes
/// them (LSIF 0.6).
#[derive(Debug, PartialEq, Drop)]
pub enum Element {
    /// A node, such as a document, a range or the result of a request. Its `type` is `vertex`.
    Vertex(Vertex),
    /// A directed link between vertices. Its `type` is `edge`.
    Edge(Edge),
}

#[tactic(auto, using(crate::proofs::Room::room_in_element), unfolding(crate::specs::Entry::element_row))]
impl Wire for Element {
    ghost shape = { element_row.shape };

    ghost shown = { element_row.shown };

    fn from_value(alloc: Global, value: &Value) -> Result<Element, Misfit> {
        match tag(value, "type") {
            Some("vertex") => form(alloc, value).map(Element::Vertex),
            Some("edge") => form(alloc, value).map(Element::Edge),
            _ => Err(Misfit::wanted(Wanted::Form)),
        }
    }

    fn to_value(&self, alloc: Global) -> Result<Value, NoMemory> {
        match self {
            Element::Vertex(vertex) => put_tag(alloc, "type", "vertex", vertex),
            Element::Edge(edge) => put_tag(alloc, "type", "edge", edge),
        }
    }
}
