// Ids, positions and ranges.
ghost use Rattle.std.specs.Prelude.{◌≡◌, ◌==◌};
ghost use Rattle.std.specs.Cmp.{partial_order_from_own_ties};
ghost use Rattle.std.specs.Cmp.Rules.{comparing};
ghost use Rattle.std.specs.Ordering.{nat_cmp, on, then_cmp, as_partial_cmp, eq_of_both};
ghost use Rattle.std.proofs.Common.{rules};
ghost use Rattle.lsp_rpc.specs.Shown.{show_id};
ghost use Rattle.lsp_base.specs.Position.{id_of, number_or_string_row, cancel_params_row, position_row, range_row, location_row, location_link_row};

use lsp_rpc::Id;
use lsp_shape::{Misfit, NoMemory, Optional, Required, Wire, Writer, attempt, form, read_object};
use lsp_uri::Uri;
use serde_json::{Map, Value};
use std::alloc::Global;
use std::cmp::Ordering;
use std::hash::Hash;

/// An integer or a string, as a request id, a progress token or a diagnostic's code (LSP 3.17,
/// "Cancellation Support", "Diagnostic").
#[derive(Debug, PartialEq, Eq, Hash, Clone, Drop)]
pub enum NumberOrString {
    /// An integer of 32 bits.
    Number(i32),
    /// A string.
    String(String),
}

#[tactic(auto, unfolding(crate::specs::Position::number_or_string_row))]
impl Wire for NumberOrString {
    ghost shape = { number_or_string_row.shape };

    ghost shown = { number_or_string_row.shown };

    fn from_value(alloc: Global, value: &Value) -> Result<NumberOrString, Misfit> {
        if let Some(number) = attempt(alloc, value)? {
            return Ok(NumberOrString::Number(number));
        }
        Ok(NumberOrString::String(form(alloc, value)?))
    }

    fn to_value(&self, alloc: Global) -> Result<Value, NoMemory> {
        match self {
            NumberOrString::Number(number) => number.to_value(alloc),
            NumberOrString::String(text) => text.to_value(alloc),
        }
    }
}

impl From<NumberOrString> for Id {
    ghost from_gives = { λ given id. show_id id ≡ id_of given };

    fn from(given: NumberOrString) -> Id {
        match given {
            NumberOrString::Number(number) => Id::Number(i64::from(number)),
            NumberOrString::String(text) => Id::String(text),
        }
    }
}

/// The parameters of `$/cancelRequest`: which request to cancel (LSP 3.17, "Cancellation Support").
#[derive(Debug, PartialEq, Eq, Clone, Drop)]
pub struct CancelParams {
    /// The id of the request.
    pub id: NumberOrString,
}

#[tactic(auto, unfolding(crate::specs::Position::cancel_params_row))]
impl Wire for CancelParams {
    ghost shape = { cancel_params_row.shape };

    ghost shown = { cancel_params_row.shown };

    fn from_value(alloc: Global, value: &Value) -> Result<CancelParams, Misfit> {
        let id = read_object(alloc, value, Required("id"))?;
        Ok(CancelParams { id })
    }

    fn to_value(&self, alloc: Global) -> Result<Value, NoMemory> {
        let mut object = Writer::new(alloc);
        object.field("id", &self.id);
        object.end()
    }
}

/// Any JSON value. Since 3.17 (LSP 3.17, "Base Types").
pub type LSPAny = Value;

/// A JSON object with any members. Since 3.17 (LSP 3.17, "Base Types").
pub type LSPObject = Map<String, Value>;

/// An array of any JSON values. Since 3.17 (LSP 3.17, "Base Types").
pub type LSPArray = Vec<Value>;

/// A zero-based line and offset, between two characters of a document. Ordered by line, then by
/// character (LSP 3.17, "Position").
#[derive(Debug, Clone, Copy, Hash, Default)]
pub struct Position {
    /// The zero-based line.
    pub line: u32,
    /// The zero-based offset in the line: in UTF-16 code units, unless client and server agreed on
    /// another encoding. Past the end of the line it means that end.
    pub character: u32,
}

impl Position {
    /// The position before the code unit `character` of the line `line`, both zero-based.
    pub fn new(line: u32, character: u32) -> Position
        ensures { result ≡ record { line = line; character = character } }
    {
        Position { line, character }
    }
}

impl PartialEq for Position {
    ghost eq = { eq_of_both (on (λ p. p.line) (◌==◌)) (on (λ p. p.character) (◌==◌)) };

    ghost laws = { Prim.search (comparing, rules) };

    fn eq(&self, other: &Position) -> bool {
        self.line == other.line && self.character == other.character
    }
}

impl Eq for Position {
    ghost laws = { Prim.search (comparing, rules) };
}

impl PartialOrd for Position {
    ghost partial_cmp = { as_partial_cmp
        (then_cmp (on (λ p. p.line) nat_cmp) (on (λ p. p.character) nat_cmp)) };

    ghost laws = { partial_order_from_own_ties (Prim.search (comparing, rules))
        (Prim.search (comparing, rules)) };

    fn partial_cmp(&self, other: &Position) -> Option<Ordering> {
        Some(self.cmp(other))
    }
}

impl Ord for Position {
    ghost cmp = { then_cmp (on (λ p. p.line) nat_cmp) (on (λ p. p.character) nat_cmp) };

    ghost total = { Prim.search (comparing, rules) };

    ghost matches_partial_cmp = { Prim.search (comparing, rules) };

    ghost matches_eq = { Prim.search (comparing, rules) };

    fn cmp(&self, other: &Position) -> Ordering {
        self.line
            .cmp(&other.line)
            .then(self.character.cmp(&other.character))
    }
}

#[tactic(auto, unfolding(crate::specs::Position::position_row))]
impl Wire for Position {
    ghost shape = { position_row.shape };

    ghost shown = { position_row.shown };

    fn from_value(alloc: Global, value: &Value) -> Result<Position, Misfit> {
        let (line, character) = read_object(
            alloc,
            value,
            (Required("line"), Required("character")),
        )?;
        Ok(Position { line, character })
    }

    fn to_value(&self, alloc: Global) -> Result<Value, NoMemory> {
        let mut object = Writer::new(alloc);
        object.field("line", &self.line);
        object.field("character", &self.character);
        object.end()
    }
}

/// The range of a document from one position to another (LSP 3.17, "Range").
#[derive(Debug, Clone, Copy, PartialEq, Eq, Hash, Default)]
pub struct Range {
    /// Where it begins.
    pub start: Position,
    /// Where it ends, exclusive: what comes after this position is outside.
    pub end: Position,
}

impl Range {
    /// The range from `start` to `end`.
    pub fn new(start: Position, end: Position) -> Range
        ensures { result ≡ record { start = start; end = end } }
    {
        Range { start, end }
    }
}

#[tactic(auto, unfolding(crate::specs::Position::range_row))]
impl Wire for Range {
    ghost shape = { range_row.shape };

    ghost shown = { range_row.shown };

    fn from_value(alloc: Global, value: &Value) -> Result<Range, Misfit> {
        let (start, end) = read_object(alloc, value, (Required("start"), Required("end")))?;
        Ok(Range { start, end })
    }

    fn to_value(&self, alloc: Global) -> Result<Value, NoMemory> {
        let mut object = Writer::new(alloc);
        object.field("start", &self.start);
        object.field("end", &self.end);
        object.end()
    }
}

/// A range of a document (LSP 3.17, "Location").
#[derive(Debug, PartialEq, Eq, Hash, Clone, Drop)]
pub struct Location {
    /// The document.
    pub uri: Uri,
    /// The range in the document.
    pub range: Range,
}

impl Location {
    /// That range of the document.
    pub fn new(uri: Uri, range: Range) -> Location
        ensures { result ≡ record { uri = uri; range = range } }
    {
        Location { uri, range }
    }
}

#[tactic(auto, unfolding(crate::specs::Position::location_row))]
impl Wire for Location {
    ghost shape = { location_row.shape };

    ghost shown = { location_row.shown };

    fn from_value(alloc: Global, value: &Value) -> Result<Location, Misfit> {
        let (uri, range) = read_object(alloc, value, (Required("uri"), Required("range")))?;
        Ok(Location { uri, range })
    }

    fn to_value(&self, alloc: Global) -> Result<Value, NoMemory> {
        let mut object = Writer::new(alloc);
        object.field("uri", &self.uri);
        object.field("range", &self.range);
        object.end()
    }
}

/// A link from a range of one document to a range of another. Since 3.14 (LSP 3.17,
/// "LocationLink").
#[derive(Debug, PartialEq, Eq, Clone, Drop)]
pub struct LocationLink {
    /// What the client underlines as the link. Absent: the word at the position of the request.
    pub origin_selection_range: Option<Range>,
    /// The document that the link leads to.
    pub target_uri: Uri,
    /// The whole of what the link leads to, with comments and the like.
    pub target_range: Range,
    /// What is selected when the link is followed, such as the name of a function. It lies within
    /// `target_range`.
    pub target_selection_range: Range,
}

#[tactic(auto, unfolding(crate::specs::Position::location_link_row))]
impl Wire for LocationLink {
    ghost shape = { location_link_row.shape };

    ghost shown = { location_link_row.shown };

    fn from_value(alloc: Global, value: &Value) -> Result<LocationLink, Misfit> {
        let (origin_selection_range, target_uri, target_range, target_selection_range) =
            read_object(
                alloc,
                value,
                (
                    Optional("originSelectionRange"),
                    Required("targetUri"),
                    Required("targetRange"),
                    Required("targetSelectionRange"),
                ),
            )?;
        Ok(LocationLink {
            origin_selection_range,
            target_uri,
            target_range,
            target_selection_range,
        })
    }

    fn to_value(&self, alloc: Global) -> Result<Value, NoMemory> {
        let mut object = Writer::new(alloc);
        object.optional("originSelectionRange", &self.origin_selection_range);
        object.field("targetUri", &self.target_uri);
        object.field("targetRange", &self.target_range);
        object.field("targetSelectionRange", &self.target_selection_range);
        object.end()
    }
}
