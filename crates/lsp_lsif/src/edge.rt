// Edges.
ghost use Rattle.std.specs.Prelude.{◌≡◌};
ghost use Rattle.lsp_shape.specs.Plain.{choice};
ghost use Rattle.lsp_lsif.specs.Edge.{edge_row, edge_data_row, edge_data_multi_in_row, item_row, item_kind_row, definition_result_type_row, location_or_range_id_row};
ghost use Rattle.lsp_lsif.specs.Labels.{single_place};

use crate::entry::Id;
use crate::labels::{EdgeLabel, SingleLabel};
use lsp_base::Location;
use lsp_shape::{
    Flat, Misfit, NoMemory, Optional, Required, Wanted, Wire, Writer, attempt, flat, form, put_tag,
    read_object,
};
use serde_json::Value;
use std::alloc::Global;

/// A directed link of the graph that a dump describes, from one vertex to one or more others. In
/// JSON, the member `label` gives the variant (LSIF 0.6).
#[derive(Debug, PartialEq, Drop)]
pub enum Edge {
    /// From a project to its documents, or from a document to its ranges.
    Contains(EdgeDataMultiIn),
    /// From a range or a result set to the moniker of its symbol.
    Moniker(EdgeData),
    /// From a moniker to another one of the same symbol, such as one that a package manager's
    /// scheme defines. LSIF 0.6 has the edge `attach` in its place.
    NextMoniker(EdgeData),
    /// From a range or a result set to the result set in which to look for results that it doesn't
    /// have itself.
    Next(EdgeData),
    /// From a moniker to the package of its symbol.
    PackageInformation(EdgeData),
    /// From a result, such as a `definitionResult`, to the ranges or the further results that it
    /// consists of.
    Item(Item),
    /// From a range or a result set to its `definitionResult`.
    Definition(EdgeData),
    /// From a range or a result set to its `declarationResult`.
    Declaration(EdgeData),
    /// From a range or a result set to its `hoverResult`.
    Hover(EdgeData),
    /// From a range or a result set to its `referenceResult`.
    References(EdgeData),
    /// From a range or a result set to its `implementationResult`.
    Implementation(EdgeData),
    /// From a range or a result set to its `typeDefinitionResult`.
    TypeDefinition(EdgeData),
    /// From a document to its `foldingRangeResult`.
    FoldingRange(EdgeData),
    /// From a document to its `documentLinkResult`.
    DocumentLink(EdgeData),
    /// From a document to its `documentSymbolResult`.
    DocumentSymbol(EdgeData),
    /// From a document to its `diagnosticResult`.
    Diagnostic(EdgeData),
}

#[tactic(auto, unfolding(crate::specs::Edge::edge_row, crate::specs::Edge::edge_data_multi_in_row, crate::specs::Edge::edge_data_row, crate::specs::Edge::item_row))]
impl Wire for Edge {
    ghost shape = { edge_row.shape };

    ghost shown = { edge_row.shown };

    fn from_value(alloc: Global, value: &Value) -> Result<Edge, Misfit> {
        let Some(label) = EdgeLabel::of(value) else {
            return Err(Misfit::wanted(Wanted::Form));
        };
        match label {
            EdgeLabel::Contains => Ok(Edge::Contains(form(alloc, value)?)),
            EdgeLabel::Item => Ok(Edge::Item(form(alloc, value)?)),
            EdgeLabel::Single(label) => Ok(single(label, form(alloc, value)?)),
        }
    }

    fn to_value(&self, alloc: Global) -> Result<Value, NoMemory> {
        match self {
            Edge::Contains(contains) => put_tag(alloc, "label", "contains", contains),
            Edge::Moniker(moniker) => put_tag(alloc, "label", "moniker", moniker),
            Edge::NextMoniker(moniker) => put_tag(alloc, "label", "nextMoniker", moniker),
            Edge::Next(next) => put_tag(alloc, "label", "next", next),
            Edge::PackageInformation(information) => put_tag(
                alloc,
                "label",
                "packageInformation",
                information,
            ),
            Edge::Item(item) => put_tag(alloc, "label", "item", item),
            Edge::Definition(definition) => put_tag(
                alloc,
                "label",
                "textDocument/definition",
                definition,
            ),
            Edge::Declaration(declaration) => put_tag(
                alloc,
                "label",
                "textDocument/declaration",
                declaration,
            ),
            Edge::Hover(hover) => put_tag(alloc, "label", "textDocument/hover", hover),
            Edge::References(references) => put_tag(
                alloc,
                "label",
                "textDocument/references",
                references,
            ),
            Edge::Implementation(implementation) => put_tag(
                alloc,
                "label",
                "textDocument/implementation",
                implementation,
            ),
            Edge::TypeDefinition(definition) => put_tag(
                alloc,
                "label",
                "textDocument/typeDefinition",
                definition,
            ),
            Edge::FoldingRange(range) => put_tag(
                alloc,
                "label",
                "textDocument/foldingRange",
                range,
            ),
            Edge::DocumentLink(link) => put_tag(alloc, "label", "textDocument/documentLink", link),
            Edge::DocumentSymbol(symbol) => put_tag(
                alloc,
                "label",
                "textDocument/documentSymbol",
                symbol,
            ),
            Edge::Diagnostic(diagnostic) => put_tag(
                alloc,
                "label",
                "textDocument/diagnostic",
                diagnostic,
            ),
        }
    }
}

impl Edge {
    /// Lets the edge go, as `drop` does: a crate that calls this has no drop of it to prove.
    pub fn let_go(self) {
        drop(self);
    }
}

/// The edge of that label, with its ends.
#[tactic(auto, unfolding(crate::specs::Edge::edge_row))]
fn single(label: SingleLabel, ends: EdgeData) -> Edge
    ensures { edge_row.shown result ≡ choice (single_place label) (edge_data_row.shown ends) }
{
    match label {
        SingleLabel::Moniker => Edge::Moniker(ends),
        SingleLabel::NextMoniker => Edge::NextMoniker(ends),
        SingleLabel::Next => Edge::Next(ends),
        SingleLabel::PackageInformation => Edge::PackageInformation(ends),
        SingleLabel::Definition => Edge::Definition(ends),
        SingleLabel::Declaration => Edge::Declaration(ends),
        SingleLabel::Hover => Edge::Hover(ends),
        SingleLabel::References => Edge::References(ends),
        SingleLabel::Implementation => Edge::Implementation(ends),
        SingleLabel::TypeDefinition => Edge::TypeDefinition(ends),
        SingleLabel::FoldingRange => Edge::FoldingRange(ends),
        SingleLabel::DocumentLink => Edge::DocumentLink(ends),
        SingleLabel::DocumentSymbol => Edge::DocumentSymbol(ends),
        SingleLabel::Diagnostic => Edge::Diagnostic(ends),
    }
}

/// The ends of an edge that leads to one vertex (LSIF 0.6).
#[derive(Debug, PartialEq, Drop)]
pub struct EdgeData {
    /// The id of the vertex that the edge leads to.
    pub in_v: Id,
    /// The id of the vertex that the edge starts from.
    pub out_v: Id,
}

#[tactic(auto, unfolding(crate::specs::Edge::edge_data_row))]
impl Wire for EdgeData {
    ghost shape = { edge_data_row.shape };

    ghost shown = { edge_data_row.shown };

    fn from_value(alloc: Global, value: &Value) -> Result<EdgeData, Misfit> {
        let (in_v, out_v) = read_object(alloc, value, (Required("inV"), Required("outV")))?;
        Ok(EdgeData { in_v, out_v })
    }

    fn to_value(&self, alloc: Global) -> Result<Value, NoMemory> {
        let mut object = Writer::new(alloc);
        object.field("inV", &self.in_v);
        object.field("outV", &self.out_v);
        object.end()
    }
}

/// The ends of an edge that leads to several vertices at once (LSIF 0.6).
#[derive(Debug, PartialEq, Drop)]
pub struct EdgeDataMultiIn {
    /// The ids of the vertices that the edge leads to.
    pub in_vs: Vec<Id>,
    /// The id of the vertex that the edge starts from.
    pub out_v: Id,
}

#[tactic(auto, unfolding(crate::specs::Edge::edge_data_multi_in_row))]
impl Wire for EdgeDataMultiIn {
    ghost shape = { edge_data_multi_in_row.shape };

    ghost shown = { edge_data_multi_in_row.shown };

    fn from_value(alloc: Global, value: &Value) -> Result<EdgeDataMultiIn, Misfit> {
        let (in_vs, out_v) = read_object(alloc, value, (Required("inVs"), Required("outV")))?;
        Ok(EdgeDataMultiIn { in_vs, out_v })
    }

    fn to_value(&self, alloc: Global) -> Result<Value, NoMemory> {
        let mut object = Writer::new(alloc);
        object.field("inVs", &self.in_vs);
        object.field("outV", &self.out_v);
        object.end()
    }
}

/// The edge `item`, from a result to the ranges or further results that it consists of (LSIF 0.6).
#[derive(Debug, PartialEq, Drop)]
pub struct Item {
    /// The id of the document that the vertices in `in_vs` belong to. LSIF 0.6 names the member
    /// `shard`.
    pub document: Id,
    /// What the vertices in `in_vs` are to the result. Absent if the result has items of one kind
    /// only, as a `definitionResult` does.
    pub property: Option<ItemKind>,
    /// The result, and the vertices that are part of it.
    pub edge_data: EdgeDataMultiIn,
}

#[tactic(auto, unfolding(crate::specs::Edge::item_row, crate::specs::Edge::edge_data_multi_in_row))]
impl Wire for Item {
    ghost shape = { item_row.shape };

    ghost shown = { item_row.shown };

    fn from_value(alloc: Global, value: &Value) -> Result<Item, Misfit> {
        let (document, property, edge_data) = read_object(
            alloc,
            value,
            (Required("document"), Optional("property"), Flat),
        )?;
        Ok(Item {
            document,
            property,
            edge_data,
        })
    }

    fn to_value(&self, alloc: Global) -> Result<Value, NoMemory> {
        let mut object = Writer::new(alloc);
        object.field("document", &self.document);
        object.optional("property", &self.property);
        object.flat(&self.edge_data);
        object.end()
    }
}

/// What the vertices that an `item` edge leads to are to the result that it starts from (LSIF 0.6).
#[derive(Debug, PartialEq, Drop)]
pub enum ItemKind {
    /// The ranges in which the symbol is declared.
    Declarations,
    /// The ranges in which the symbol is defined.
    Definitions,
    /// The ranges in which the symbol is used.
    References,
    /// Other `referenceResult` vertices, whose items belong to this result too.
    ReferenceResults,
    /// Other `implementationResult` vertices, whose items belong to this result too.
    ImplementationResults,
}

#[tactic(auto, unfolding(crate::specs::Edge::item_kind_row))]
impl Wire for ItemKind {
    ghost shape = { item_kind_row.shape };

    ghost shown = { item_kind_row.shown };

    fn from_value(_alloc: Global, value: &Value) -> Result<ItemKind, Misfit> {
        match value.as_str() {
            Some("declarations") => Ok(ItemKind::Declarations),
            Some("definitions") => Ok(ItemKind::Definitions),
            Some("references") => Ok(ItemKind::References),
            Some("referenceResults") => Ok(ItemKind::ReferenceResults),
            Some("implementationResults") => Ok(ItemKind::ImplementationResults),
            _ => Err(Misfit::wanted(Wanted::Name)),
        }
    }

    fn to_value(&self, alloc: Global) -> Result<Value, NoMemory> {
        let name = match self {
            ItemKind::Declarations => "declarations",
            ItemKind::Definitions => "definitions",
            ItemKind::References => "references",
            ItemKind::ReferenceResults => "referenceResults",
            ItemKind::ImplementationResults => "implementationResults",
        };
        Ok(Value::try_from_str(alloc, name)?)
    }
}

/// The place of a definition. No vertex here holds one: `item` edges lead from a `definitionResult`
/// to its ranges (LSIF 0.6).
#[derive(Debug, PartialEq, Drop)]
pub enum DefinitionResultType {
    /// One place.
    Scalar(LocationOrRangeId),
    /// Also one place, in the same form, so it is read as `Scalar`.
    Array(LocationOrRangeId),
}

#[tactic(auto, unfolding(crate::specs::Edge::definition_result_type_row))]
impl Wire for DefinitionResultType {
    ghost shape = { definition_result_type_row.shape };

    ghost shown = { definition_result_type_row.shown };

    fn from_value(alloc: Global, value: &Value) -> Result<DefinitionResultType, Misfit> {
        if let Some(scalar) = attempt(alloc, value)? {
            return Ok(DefinitionResultType::Scalar(scalar));
        }
        Ok(DefinitionResultType::Array(form(alloc, value)?))
    }

    fn to_value(&self, alloc: Global) -> Result<Value, NoMemory> {
        match self {
            DefinitionResultType::Scalar(scalar) => scalar.to_value(alloc),
            DefinitionResultType::Array(array) => array.to_value(alloc),
        }
    }
}

/// A place in a document, as a location or as the id of a `range` vertex (LSIF 0.6).
#[derive(Debug, PartialEq, Drop)]
pub enum LocationOrRangeId {
    /// The URI of the document, and the range in it.
    Location(Location),
    /// The id of a `range` vertex.
    RangeId(Id),
}

#[tactic(auto, unfolding(crate::specs::Edge::location_or_range_id_row))]
impl Wire for LocationOrRangeId {
    ghost shape = { location_or_range_id_row.shape };

    ghost shown = { location_or_range_id_row.shown };

    fn from_value(alloc: Global, value: &Value) -> Result<LocationOrRangeId, Misfit> {
        if let Some(location) = attempt(alloc, value)? {
            return Ok(LocationOrRangeId::Location(location));
        }
        Ok(LocationOrRangeId::RangeId(form(alloc, value)?))
    }

    fn to_value(&self, alloc: Global) -> Result<Value, NoMemory> {
        match self {
            LocationOrRangeId::Location(location) => location.to_value(alloc),
            LocationOrRangeId::RangeId(id) => id.to_value(alloc),
        }
    }
}
