//! What a query answers of a dump, by plain walks over its entries.
use crate::dump::{Dump, Entry, NONE, NOTHING, Name, Role, put, put_text};
use lsp_base::{Position, Range};
use lsp_index::Request;

/// What is asked, its word, and the label of the edges to its results; and for which position of
/// which document.
#[derive(Clone, Copy)]
pub(crate) struct Query {
    pub(crate) request: Request,
    pub(crate) word: &'static str,
    pub(crate) label: &'static str,
    pub(crate) uri: &'static str,
    pub(crate) position: Position,
}

// The closer of two ranges, if the other holds the position: it starts later, or ends earlier, or
// stands earlier in the dump.
fn closer<'a>(best: &'a Entry, other: &'a Entry, position: Position) -> &'a Entry {
    let (one, two) = (other.range, best.range);
    let is_inside = position >= one.start && position < one.end;
    let is_closer = one.start > two.start
        || (one.start == two.start && one.end < two.end)
        || (one == two && other.at < best.at);
    if is_inside && is_closer { other } else { best }
}

// The range at the position.
fn chosen<'a>(dump: &'a Dump, query: &Query) -> &'a Entry {
    let mut best = &NOTHING;
    for edge in &dump.edges {
        if let Role::Contains = edge.form.role {
            if dump.vertex(edge.out_v, "document").uri == query.uri {
                for id in &edge.in_vs {
                    best = closer(best, dump.vertex(*id, "range"), query.position);
                }
            }
        }
    }
    best
}

// Where the first edge of the label leads from a vertex.
fn link(edges: &[Entry], label: &str, from: Name) -> Name {
    for edge in edges {
        if edge.out_v == from && edge.form.label == label {
            return edge.in_vs[0];
        }
    }
    NONE
}

// The result of that label that a vertex leads to. A walk over more vertices than there are ids goes
// round.
fn reached(dump: &Dump, label: &str, from: Name) -> Name {
    let mut vertex = from;
    for _ in 0..=dump.vertices.len() {
        let result = link(&dump.edges, label, vertex);
        if result != NONE || vertex == NONE {
            return result;
        }
        vertex = link(&dump.edges, "next", vertex);
    }
    NONE
}

/// The status of an answer, which is 0, with its line; and what that is made of.
#[derive(Drop)]
pub(crate) struct Answer {
    pub(crate) line: String,
    /// The ranges, with their URIs.
    pub(crate) places: Vec<(Range, &'static str)>,
    pub(crate) results: Vec<Name>,
}

const PLACE: &str =
    r#"{"range":{"end":{"character":$3,"line":$2},"start":{"character":$1,"line":$0}},"uri":"$u"}"#;

impl Answer {
    // Puts a place into the line, where it is new.
    fn put_place(&mut self, place: &Entry) {
        let located = (place.range, place.uri);
        if !self.places.contains(&located) {
            if !self.places.is_empty() {
                put_text(&mut self.line, ",");
            }
            put(&mut self.line, PLACE, place);
            let _ = self.places.push(located);
        }
    }

    // Puts the places of an item.
    fn put_places(&mut self, dump: &Dump, item: &Entry) {
        let uri = dump.vertex(item.document, "document").uri;
        for id in &item.in_vs {
            let range = *dump.vertex(*id, "range");
            if !uri.is_empty() && range.at != NOTHING.at {
                self.put_place(&Entry { uri, ..range });
            }
        }
    }

    // Puts results, where they are new.
    fn put_results(&mut self, ids: &[Name]) {
        for id in ids {
            if !self.results.contains(id) {
                let _ = self.results.push(*id);
            }
        }
    }

    // Goes through the items of a result. For a definition each leads to places.
    fn put_items(&mut self, dump: &Dump, is_definition: bool, from: Name) {
        for item in &dump.edges {
            if item.out_v == from {
                match item.form.role {
                    Role::Places => self.put_places(dump, item),
                    Role::Results | Role::Item if is_definition => self.put_places(dump, item),
                    Role::Results => self.put_results(&item.in_vs),
                    _ => {}
                }
            }
        }
    }

    // Goes through a result, and all that it includes.
    fn put_all(&mut self, dump: &Dump, is_definition: bool, from: Name) {
        self.put_results(&[from]);
        for i in 0..usize::MAX {
            let from = match self.results.get(i) {
                Some(from) => *from,
                None => return,
            };
            self.put_items(dump, is_definition, from);
        }
    }

    /// Becomes that to a query.
    pub(crate) fn fill(&mut self, dump: &Dump, query: &Query) {
        self.line.clear();
        self.places.clear();
        self.results.clear();
        let range = chosen(dump, query);
        let result = reached(dump, query.label, range.id);
        let is_definition = match query.request {
            Request::Definition => true,
            Request::References => false,
            Request::Hover => {
                let hover = dump.vertex(result, "hoverResult");
                let form = if hover.at == NOTHING.at {
                    "0 null\n"
                } else {
                    "0 {\"contents\":\"h$h\"}\n"
                };
                return put(&mut self.line, form, hover);
            }
        };
        put_text(&mut self.line, "0 [");
        self.put_all(dump, is_definition, result);
        put_text(&mut self.line, "]\n");
    }
}
