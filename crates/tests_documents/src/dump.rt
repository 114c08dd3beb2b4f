//! Random dumps: their texts, and their entries as lists.
use lsp_base::{Position, Range};
use rand_core::utils::NextWord;
use rand_pcg::Pcg32;

/// How many entries a dump has, how many ids there are of each kind, how many lines a document has,
/// how many such dumps there are, and how many queries of each: one by one, and in rounds, each of
/// which asks the same at so many positions. Of these queries so many find something, or more.
pub(crate) struct Size {
    pub(crate) entries: u32,
    pub(crate) ids: u32,
    pub(crate) lines: u32,
    pub(crate) dumps: u32,
    pub(crate) queries: u32,
    pub(crate) rounds: u32,
    pub(crate) positions: u32,
    pub(crate) least: u32,
}

/// An id. A number and a text are different ids.
#[derive(Clone, Copy, PartialEq)]
pub(crate) struct Name {
    number: u32,
    is_text: bool,
}

/// The id of no entry.
pub(crate) const NONE: Name = Name {
    number: u32::MAX,
    is_text: false,
};

/// An entry, with members that aren't in its text too, since no walk looks at them.
#[derive(Clone, Copy)]
pub(crate) struct Entry {
    pub(crate) form: &'static Form,
    /// Its place in the dump.
    pub(crate) at: u32,
    pub(crate) id: Name,
    pub(crate) uri: &'static str,
    pub(crate) range: Range,
    /// What a hover shows.
    pub(crate) shown: u32,
    pub(crate) out_v: Name,
    pub(crate) in_vs: [Name; 5],
    pub(crate) document: Name,
}

/// In place of an entry that isn't there. Each range is closer to a position than this one.
pub(crate) static NOTHING: Entry = Entry {
    form: &VERTEX,
    at: u32::MAX,
    id: NONE,
    uri: "",
    range: Range {
        start: Position {
            line: 0,
            character: 0,
        },
        end: Position {
            line: u32::MAX,
            character: u32::MAX,
        },
    },
    shown: 0,
    out_v: NONE,
    in_vs: [NONE; 5],
    document: NONE,
};

/// What a query looks at in an entry.
#[derive(Clone, Copy)]
pub(crate) enum Role {
    Vertex,
    Contains,
    /// An edge to one vertex.
    Link,
    /// An edge `item` to places, by its property.
    Places,
    /// An edge `item` to further results.
    Results,
    /// An edge `item` of another property, or of none.
    Item,
}

// Which ids are taken, but for one of ten, which is of any kind: the number of the first kind, and
// how many kinds.
type Kind = [u32; 2];

const DOCUMENT: Kind = [0, 1];

const RANGE: Kind = [1, 1];

const SET: Kind = [2, 1];

const RANGE_OR_SET: Kind = [1, 2];

const RESULT: Kind = [3, 1];

const ANY: Kind = [0, 4];

/// What an entry may be, so many times of 360.
pub(crate) struct Form {
    times: u32,
    pub(crate) role: Role,
    pub(crate) label: &'static str,
    id: Kind,
    out_v: Kind,
    in_vs: Kind,
    // As `put` has it.
    text: &'static str,
}

const VERTEX: Form = Form {
    times: 10,
    role: Role::Vertex,
    label: "",
    id: RESULT,
    out_v: SET,
    in_vs: SET,
    text: r#"{"id":$i,"type":"vertex","label":"$t"}"#,
};

const LINK: Form = Form {
    times: 18,
    role: Role::Link,
    out_v: RANGE_OR_SET,
    in_vs: RESULT,
    text: r#"{"id":$a,"type":"edge","label":"$t","outV":$o,"inV":$v}"#,
    ..VERTEX
};

const ITEM: Form = Form {
    times: 9,
    role: Role::Item,
    label: "item",
    out_v: RESULT,
    in_vs: RANGE,
    text: r#"{"id":$a,"type":"edge","label":"item","outV":$o,"inVs":[$v],"document":$d}"#,
    ..VERTEX
};

const FORMS: &[Form] = &[
    Form {
        times: 30,
        label: "document",
        id: DOCUMENT,
        text: r#"{"id":$i,"type":"vertex","label":"document","languageId":"x","uri":"$u"}"#,
        ..VERTEX
    },
    Form {
        times: 90,
        label: "range",
        id: RANGE,
        text: r#"{"id":$i,"type":"vertex","label":"range","start":{"line":$0,"character":$1},"end":{"line":$2,"character":$3}}"#,
        ..VERTEX
    },
    Form {
        times: 30,
        label: "resultSet",
        id: SET,
        ..VERTEX
    },
    Form {
        label: "definitionResult",
        ..VERTEX
    },
    Form {
        label: "referenceResult",
        ..VERTEX
    },
    Form {
        label: "hoverResult",
        text: r#"{"id":$i,"type":"vertex","label":"hoverResult","result":{"contents":"h$h"}}"#,
        ..VERTEX
    },
    Form {
        times: 36,
        role: Role::Contains,
        label: "contains",
        out_v: DOCUMENT,
        in_vs: RANGE,
        text: r#"{"id":$a,"type":"edge","label":"contains","outV":$o,"inVs":[$v]}"#,
        ..VERTEX
    },
    Form {
        label: "next",
        in_vs: SET,
        ..LINK
    },
    Form {
        label: "textDocument/definition",
        ..LINK
    },
    Form {
        label: "textDocument/references",
        ..LINK
    },
    Form {
        times: 9,
        label: "textDocument/hover",
        ..LINK
    },
    Form {
        times: 9,
        label: "moniker",
        in_vs: SET,
        ..LINK
    },
    ITEM,
    Form {
        text: r#"{"id":$a,"type":"edge","label":"item","outV":$o,"inVs":[$v],"document":$d,"property":"implementationResults"}"#,
        ..ITEM
    },
    Form {
        role: Role::Places,
        text: r#"{"id":$a,"type":"edge","label":"item","outV":$o,"inVs":[$v],"document":$d,"property":"declarations"}"#,
        ..ITEM
    },
    Form {
        role: Role::Places,
        text: r#"{"id":$a,"type":"edge","label":"item","outV":$o,"inVs":[$v],"document":$d,"property":"definitions"}"#,
        ..ITEM
    },
    Form {
        times: 18,
        role: Role::Places,
        text: r#"{"id":$a,"type":"edge","label":"item","outV":$o,"inVs":[$v],"document":$d,"property":"references"}"#,
        ..ITEM
    },
    Form {
        times: 18,
        role: Role::Results,
        in_vs: RESULT,
        text: r#"{"id":$a,"type":"edge","label":"item","outV":$o,"inVs":[$v],"document":$d,"property":"referenceResults"}"#,
        ..ITEM
    },
];

const URIS: [&str; 4] = ["file:///b", "file:///a", "file:///a", "file:///a"];

const ENDS: [&str; 8] = ["\r\n", "\n\r\n\n", "\n", "\n", "\n", "\n", "\n", "\n"];

/// A number below `limit`.
pub(crate) fn below(random: &mut Pcg32, limit: u32) -> u32 {
    random.next_word() % limit.max(1)
}

fn some_form(random: &mut Pcg32) -> &'static Form {
    let mut left = below(random, 360);
    for form in FORMS {
        if left < form.times {
            return form;
        }
        left = left.saturating_sub(form.times);
    }
    &VERTEX
}

fn some_id(random: &mut Pcg32, size: &Size, kind: Kind) -> Name {
    let is_any = below(random, 10) == 0;
    let [first, kinds] = if is_any { ANY } else { kind };
    let kind = first.saturating_add(below(random, kinds));
    let number = below(random, size.ids).saturating_mul(4);
    Name {
        number: number.saturating_add(kind),
        is_text: below(random, 10) == 0,
    }
}

fn some_ids(random: &mut Pcg32, size: &Size, form: &Form) -> [Name; 5] {
    let count = match form.role {
        Role::Link => 1,
        _ => below(random, 6),
    };
    let mut ids = [NONE; 5];
    for i in 0..5 {
        if i < count as usize {
            ids[i] = some_id(random, size, form.in_vs);
        }
    }
    ids
}

pub(crate) fn some_uri(random: &mut Pcg32) -> &'static str {
    URIS[(random.next_word() % 4) as usize]
}

pub(crate) fn some_position(random: &mut Pcg32, size: &Size) -> Position {
    let line = below(random, size.lines);
    Position::new(line, below(random, 6))
}

// The end may stand before the start.
fn some_range(random: &mut Pcg32, size: &Size) -> Range {
    let start = some_position(random, size);
    let line = start.line.saturating_add(below(random, 2));
    Range::new(start, Position::new(line, below(random, 6)))
}

fn some_entry(random: &mut Pcg32, size: &Size, at: u32) -> Entry {
    let form = some_form(random);
    Entry {
        form,
        at,
        id: some_id(random, size, form.id),
        uri: some_uri(random),
        range: some_range(random, size),
        shown: below(random, 1000),
        out_v: some_id(random, size, form.out_v),
        in_vs: some_ids(random, size, form),
        document: some_id(random, size, DOCUMENT),
    }
}

// Those that there are, with commas between them.
fn put_ids(text: &mut String, ids: &[Name]) {
    let mut comma = "";
    for Name { number, is_text } in ids {
        if *number < u32::MAX {
            let quote = if *is_text { "\"" } else { "" };
            let _ = write!(text, "{comma}{quote}{number}{quote}");
            comma = ",";
        }
    }
}

fn member(entry: &Entry, letter: char) -> Name {
    let Range { start, end } = entry.range;
    let number = match letter {
        'i' => return entry.id,
        'o' => return entry.out_v,
        'd' => return entry.document,
        'a' => entry.at,
        'h' => entry.shown,
        '0' => start.line,
        '1' => start.character,
        '2' => end.line,
        _ => end.character,
    };
    Name {
        number,
        is_text: false,
    }
}

/// Puts a text behind what is there, in which a `$` with a letter stands for a member of the entry.
/// What isn't put for want of memory is missed later.
pub(crate) fn put(text: &mut String, form: &str, entry: &Entry) {
    let mut is_member = false;
    for letter in form.chars() {
        if !is_member {
            is_member = letter == '$';
            if !is_member {
                let _ = text.push(letter);
            }
            continue;
        }
        is_member = false;
        match letter {
            't' => put_text(text, entry.form.label),
            'u' => put_text(text, entry.uri),
            'v' => put_ids(text, &entry.in_vs),
            _ => put_ids(text, &[member(entry, letter)]),
        }
    }
}

pub(crate) fn put_text(text: &mut String, piece: &str) {
    let _ = text.push_str(piece);
}

/// The text of a dump, and two tables of its entries.
#[derive(Drop)]
pub(crate) struct Dump {
    pub(crate) text: String,
    /// The first vertex of each id, and `NOTHING` for each id that no vertex has.
    pub(crate) vertices: Vec<Entry>,
    pub(crate) edges: Vec<Entry>,
}

// The place of an id in the table of vertices.
fn slot(id: Name) -> usize {
    let slot = (id.number as usize).saturating_mul(2);
    slot.saturating_add(id.is_text as usize)
}

impl Dump {
    fn add_vertex(&mut self, entry: Entry) {
        if let Some(first) = self.vertices.get_mut(slot(entry.id)) {
            if first.at == NOTHING.at {
                *first = entry;
            }
        }
    }

    /// Becomes another, whose lines end in all ways.
    pub(crate) fn fill(&mut self, random: &mut Pcg32, size: &Size) {
        self.text.clear();
        self.edges.clear();
        self.vertices.clear();
        let slots = (size.ids as usize).saturating_mul(8);
        let _ = self.vertices.resize(slots, NOTHING);
        for at in 0..size.entries {
            let entry = some_entry(random, size, at);
            put(&mut self.text, entry.form.text, &entry);
            put_text(&mut self.text, ENDS[(random.next_word() % 8) as usize]);
            match entry.form.role {
                Role::Vertex => self.add_vertex(entry),
                _ => {
                    let _ = self.edges.push(entry);
                }
            }
        }
    }

    /// The first vertex of an id, if it has the label.
    pub(crate) fn vertex(&self, id: Name, label: &str) -> &Entry {
        match self.vertices.get(slot(id)) {
            Some(vertex) if vertex.form.label == label => vertex,
            _ => &NOTHING,
        }
    }
}
