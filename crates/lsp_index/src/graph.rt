// A dump as a graph, as far as a query looks at it.
ghost use Rattle.std.specs.Prelude.{◌≡◌, true, IsOk, OnOk, OnErr, [], map, option_map, string_bytes};
ghost use Rattle.lsp_base.specs.Position.{id_of};
ghost use Rattle.lsp_rpc.specs.Shown.{show_id};
ghost use Rattle.lsp_uri.specs.Uri.{uri_text};
ghost use Rattle.lsp_index.specs.Entries.{entry_data, entry_ids, vertex_data, edge_data, result_data, item_data};
ghost use Rattle.lsp_index.specs.Graph.{Graph, graph_of, vertex_entry, contains_edge, next_edge, unseen_edge};
ghost use Rattle.lsp_index.specs.Kept.{IsKept, with_entry};
ghost use Rattle.lsp_index.specs.Queries.{document_in, range_in, hover_in, document_at, range_at, hover_at, items_from};
ghost use Rattle.lsp_index.specs.Shown.{show_node, show_item_edge};

use crate::Request;
use crate::entry::{node, role_of};
use crate::table::{put_first, put_item};
use indexmap::IndexMap;
use lsp_base::{NumberOrString, Range};
use lsp_lsif::{Edge, EdgeData, EdgeDataMultiIn, Element, Entry, Vertex};
use lsp_rpc::{Id, NoMemory};
use lsp_uri::Uri;
use std::alloc::Global;
use std::collections::HashMap;

/// A vertex.
#[derive(Drop)]
pub(crate) enum Node {
    Document(Uri),
    Range(Range),
    /// The text of what a hover answers.
    Hover(String),
    /// One of a label that no query looks at. Its id is taken all the same.
    Other,
}

impl Node {
    pub(crate) fn document(&self) -> Option<&Uri>
        ensures { option_map (λ u. uri_text u.now) result ≡ document_in (show_node self.now) }
    {
        match self {
            Node::Document(uri) => Some(uri),
            Node::Range(_) => None,
            Node::Hover(_) => None,
            Node::Other => None,
        }
    }

    pub(crate) fn range(&self) -> Option<Range>
        ensures { result ≡ range_in (show_node self.now) }
    {
        match self {
            Node::Document(_) => None,
            Node::Range(range) => Some(*range),
            Node::Hover(_) => None,
            Node::Other => None,
        }
    }

    pub(crate) fn hover(&self) -> Option<&String>
        ensures { option_map (λ s. string_bytes s.now) result ≡ hover_in (show_node self.now) }
    {
        match self {
            Node::Document(_) => None,
            Node::Range(_) => None,
            Node::Hover(text) => Some(text),
            Node::Other => None,
        }
    }
}

/// What the vertices that an edge `item` leads to are to the result.
#[derive(Clone, Copy)]
pub(crate) enum Role {
    /// Where the symbol is defined, or also declared or used.
    Place,
    /// Further results that it includes.
    Linked,
    /// Nothing that is asked for.
    Neither,
}

/// An edge `item`, from its result on.
#[derive(Drop)]
pub(crate) struct Item {
    pub(crate) targets: Vec<NumberOrString>,
    pub(crate) document: Id,
    pub(crate) role: Role,
}

/// An edge `contains`.
#[derive(Drop)]
pub(crate) struct Outgoing {
    pub(crate) from: Id,
    pub(crate) targets: Vec<NumberOrString>,
}

/// What is kept of a dump.
#[derive(Drop)]
pub(crate) struct Index {
    pub(crate) alloc: Global,
    /// The first vertex of each id.
    pub(crate) vertices: IndexMap<Id, Node>,
    pub(crate) contained: Vec<Outgoing>,
    /// Where the first edge `next` from each vertex leads.
    pub(crate) nexts: IndexMap<Id, Id>,
    /// The same for the label that is asked for.
    pub(crate) results: IndexMap<Id, Id>,
    /// The items of each result.
    pub(crate) items: HashMap<Id, Vec<Item>>,
}

impl Index {
    /// An index of no entries.
    pub(crate) fn new(alloc: Global) -> Index
        ensures { IsKept (graph_of []) result }
    {
        Index {
            alloc,
            vertices: IndexMap::new(alloc),
            contained: Vec::new(alloc),
            nexts: IndexMap::new(alloc),
            results: IndexMap::new(alloc),
            items: HashMap::new(alloc),
        }
    }

    /// The URI of the document under an id.
    pub(crate) fn document(&self, id: &Id) -> Option<&Uri>
        ensures { (g : Graph) → IsKept g self.now
            → option_map (λ u. uri_text u.now) result ≡ document_at g (show_id id.now) }
    {
        match self.vertices.get(id) {
            Some(node) => node.document(),
            None => None,
        }
    }

    /// The range under an id.
    pub(crate) fn range(&self, id: &Id) -> Option<Range>
        ensures { (g : Graph) → IsKept g self.now → result ≡ range_at g (show_id id.now) }
    {
        match self.vertices.get(id) {
            Some(node) => node.range(),
            None => None,
        }
    }

    /// The text of the hover under an id.
    pub(crate) fn hover(&self, id: &Id) -> Option<&String>
        ensures { (g : Graph) → IsKept g self.now
            → option_map (λ s. string_bytes s.now) result ≡ hover_at g (show_id id.now) }
    {
        match self.vertices.get(id) {
            Some(node) => node.hover(),
            None => None,
        }
    }

    /// The items of a result, in the order of the dump.
    pub(crate) fn items_of(&self, id: &Id) -> &[Item]
        ensures { (g : Graph) → IsKept g self.now
            → map show_item_edge result.now ≡ items_from g (show_id id.now) }
    {
        match self.items.get(id) {
            Some(items) => items.as_slice(),
            None => &[],
        }
    }

    /// Keeps one more entry, as far as a query that asks for this looks at it.
    pub(crate) fn keep(&mut self, request: Request, entry: Entry) -> Result<(), NoMemory>
        ensures { OnOk result ((g : Graph) → IsKept g self.old
            → IsKept (with_entry g (entry_data request entry)) self.new) }
    {
        let Entry { id, payload } = entry;
        match payload {
            Element::Vertex(vertex) => self.keep_vertex(request, id, vertex),
            Element::Edge(edge) => self.keep_edge(request, edge),
        }
    }

    fn keep_vertex(
        &mut self,
        request: Request,
        id: NumberOrString,
        vertex: Vertex,
    ) -> Result<(), NoMemory>
        ensures { OnOk result ((g : Graph) → IsKept g self.old → IsKept
            (with_entry g (vertex_entry (id_of id) (vertex_data request vertex))) self.new) }
    {
        let seen = node(self.alloc, request, &vertex);
        vertex.let_go();
        match seen {
            Ok(node) => put_first(&mut self.vertices, Id::from(id), node),
            Err(error) => Err(error),
        }
    }

    fn keep_edge(&mut self, request: Request, edge: Edge) -> Result<(), NoMemory>
        ensures kept { OnOk result ((g : Graph) → IsKept g self.old
            → IsKept (with_entry g (edge_data request edge)) self.new) }
        ensures unseen { edge_data request edge ≡ unseen_edge → IsOk result }
    {
        match edge {
            Edge::Contains(edge) => self.keep_contained(edge),
            Edge::Next(edge) => self.keep_next(edge),
            Edge::Definition(edge) => self.keep_result(request.is_definition(), edge),
            Edge::References(edge) => self.keep_result(request.is_references(), edge),
            Edge::Hover(edge) => self.keep_result(request.is_hover(), edge),
            Edge::Item(item) => match request {
                Request::Definition => self.keep_item(true, item),
                Request::References => self.keep_item(false, item),
                Request::Hover => Ok(()),
            },
            other => {
                other.let_go();
                Ok(())
            }
        }
    }

    fn keep_contained(&mut self, edge: EdgeDataMultiIn) -> Result<(), NoMemory>
        ensures { OnOk result ((g : Graph) → IsKept g self.old → IsKept
            (with_entry g (contains_edge (id_of edge.out_v) (entry_ids edge.in_vs.items))) self.new) }
    {
        let EdgeDataMultiIn { in_vs, out_v } = edge;
        self.contained.push(Outgoing {
            from: Id::from(out_v),
            targets: in_vs,
        })?;
        Ok(())
    }

    fn keep_next(&mut self, edge: EdgeData) -> Result<(), NoMemory>
        ensures { OnOk result ((g : Graph) → IsKept g self.old
            → IsKept (with_entry g (next_edge (id_of edge.out_v) (id_of edge.in_v))) self.new) }
    {
        put_first(&mut self.nexts, Id::from(edge.out_v), Id::from(edge.in_v))
    }

    // Keeps an edge to a result, if its label is the one that is asked for.
    fn keep_result(&mut self, is_asked: bool, edge: EdgeData) -> Result<(), NoMemory>
        ensures kept { OnOk result ((g : Graph) → IsKept g self.old
            → IsKept (with_entry g (result_data is_asked edge)) self.new) }
        ensures memory { OnErr result (is_asked ≡ true) }
    {
        if is_asked {
            put_first(&mut self.results, Id::from(edge.out_v), Id::from(edge.in_v))
        } else {
            Ok(())
        }
    }

    fn keep_item(&mut self, is_definition: bool, item: lsp_lsif::Item) -> Result<(), NoMemory>
        ensures { OnOk result ((g : Graph) → IsKept g self.old
            → IsKept (with_entry g (item_data is_definition item)) self.new) }
    {
        let lsp_lsif::Item {
            document,
            property,
            edge_data,
        } = item;
        let EdgeDataMultiIn { in_vs, out_v } = edge_data;
        let kept = Item {
            targets: in_vs,
            document: Id::from(document),
            role: role_of(is_definition, property),
        };
        put_item(self.alloc, &mut self.items, Id::from(out_v), kept)
    }
}
