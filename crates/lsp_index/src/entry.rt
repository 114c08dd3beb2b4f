// The entries of a dump, as far as a query looks at them.
ghost use Rattle.std.specs.Prelude.{◌≡◌, true, IfOk, OnErr, IfSome, is_some, if◌then◌else◌};
ghost use Rattle.std.specs.Str.{is_utf8};
ghost use Rattle.lsp_rpc.specs.Ids.{IsString};
ghost use Rattle.lsp_rpc.specs.Shown.{show_id};
ghost use Rattle.lsp_base.specs.Position.{id_of};
ghost use Rattle.lsp_index.specs.Entries.{vertex_data, role_of as role_of_def, hover_data};
ghost use Rattle.lsp_index.specs.Graph.{other_vertex};
ghost use Rattle.lsp_index.specs.Shown.{show_node};

use crate::Request;
use crate::graph::{Node, Role};
use lsp_base::NumberOrString;
use lsp_lang_goto::Hover;
use lsp_lsif::{ItemKind, Vertex};
use lsp_rpc::{Id, NoMemory};
use lsp_shape::Wire;
use std::alloc::Global;
use std::str;

/// The bytes as a text, where they are one.
pub(crate) fn text_of(bytes: &[u8]) -> Option<&str>
    ensures text { IfSome result (λ s. s.now ≡ bytes.now) }
    ensures test { is_some result ≡ is_utf8 bytes.now }
{
    match str::from_utf8(bytes) {
        Ok(text) => Some(text),
        Err(_) => None,
    }
}

/// What a query that asks for this sees of a vertex.
pub(crate) fn node(alloc: Global, request: Request, vertex: &Vertex) -> Result<Node, NoMemory>
    ensures { IfOk result (λ n. show_node n ≡ vertex_data request vertex.now) }
{
    match vertex {
        Vertex::Document(document) => Ok(Node::Document(document.uri.clone()?)),
        Vertex::Range { range, .. } => Ok(Node::Range(*range)),
        Vertex::HoverResult { result } => hover_node(alloc, request.is_hover(), result),
        _ => Ok(Node::Other),
    }
}

// By `write_text` the crate would have the drop of a hover to prove.
fn hover_node(alloc: Global, is_asked: bool, hover: &Hover) -> Result<Node, NoMemory>
    ensures node { IfOk result (λ n. show_node n
        ≡ (if is_asked then hover_data hover.now else other_vertex)) }
    ensures memory { OnErr result (is_asked ≡ true) }
{
    if is_asked {
        let value = hover.to_value(alloc)?;
        Ok(Node::Hover(value.to_string(alloc)?))
    } else {
        Ok(Node::Other)
    }
}

/// What the vertices that an edge `item` of this property leads to are to the result. For a definition
/// all are places.
pub(crate) fn role_of(is_definition: bool, property: Option<ItemKind>) -> Role
    ensures { result ≡ role_of_def is_definition property }
{
    if is_definition {
        return Role::Place;
    }
    match property {
        Some(ItemKind::Declarations) => Role::Place,
        Some(ItemKind::Definitions) => Role::Place,
        Some(ItemKind::References) => Role::Place,
        Some(ItemKind::ReferenceResults) => Role::Linked,
        Some(ItemKind::ImplementationResults) => Role::Neither,
        None => Role::Neither,
    }
}

/// The id that an entry names, as a key of the tables. Only the copy of a string takes memory.
pub(crate) fn key_of(alloc: Global, id: &NumberOrString) -> Result<Id, NoMemory>
    ensures key { IfOk result (λ key. show_id key ≡ id_of id.now) }
    ensures memory { OnErr result (IsString (id_of id.now)) }
{
    match id {
        NumberOrString::Number(number) => Ok(Id::Number(i64::from(*number))),
        NumberOrString::String(text) => Ok(Id::String(String::from_str(alloc, text.as_str())?)),
    }
}
