// The labels of vertices and edges, by which their variants are told.
ghost use Rattle.std.specs.Prelude.{◌≡◌, option_and_then};
ghost use Rattle.serde_json.specs.View.{view};
ghost use Rattle.lsp_shape.specs.Read.{read};
ghost use Rattle.lsp_lsif.specs.Edge.{edge_row};
ghost use Rattle.lsp_lsif.specs.Vertex.{vertex_row};
ghost use Rattle.lsp_lsif.specs.Labels.{IsVertexLabel, read_vertex_as, IsEdgeLabel, read_edge_as};

use lsp_shape::tag;
use serde_json::Value;

/// The label of a vertex (LSIF 0.6).
#[derive(Clone, Copy)]
pub enum VertexLabel {
    /// `metaData`.
    MetaData,
    /// `project`.
    Project,
    /// `document`.
    Document,
    /// `range`.
    Range,
    /// `resultSet`.
    ResultSet,
    /// `moniker`.
    Moniker,
    /// `packageInformation`.
    PackageInformation,
    /// `$event`.
    Event,
    /// `definitionResult`.
    DefinitionResult,
    /// `declarationResult`.
    DeclarationResult,
    /// `typeDefinitionResult`.
    TypeDefinitionResult,
    /// `referenceResult`.
    ReferenceResult,
    /// `implementationResult`.
    ImplementationResult,
    /// `foldingRangeResult`.
    FoldingRangeResult,
    /// `hoverResult`.
    HoverResult,
    /// `documentSymbolResult`.
    DocumentSymbolResult,
    /// `documentLinkResult`.
    DocumentLinkResult,
    /// `diagnosticResult`.
    DiagnosticResult,
}

impl VertexLabel {
    /// The label of that text.
    fn named(text: &str) -> Option<VertexLabel>
        ensures { IsVertexLabel text.now result }
    {
        match text {
            "metaData" => Some(VertexLabel::MetaData),
            "project" => Some(VertexLabel::Project),
            "document" => Some(VertexLabel::Document),
            "range" => Some(VertexLabel::Range),
            "resultSet" => Some(VertexLabel::ResultSet),
            "moniker" => Some(VertexLabel::Moniker),
            "packageInformation" => Some(VertexLabel::PackageInformation),
            "$event" => Some(VertexLabel::Event),
            "definitionResult" => Some(VertexLabel::DefinitionResult),
            "declarationResult" => Some(VertexLabel::DeclarationResult),
            "typeDefinitionResult" => Some(VertexLabel::TypeDefinitionResult),
            "referenceResult" => Some(VertexLabel::ReferenceResult),
            "implementationResult" => Some(VertexLabel::ImplementationResult),
            "foldingRangeResult" => Some(VertexLabel::FoldingRangeResult),
            "hoverResult" => Some(VertexLabel::HoverResult),
            "documentSymbolResult" => Some(VertexLabel::DocumentSymbolResult),
            "documentLinkResult" => Some(VertexLabel::DocumentLinkResult),
            "diagnosticResult" => Some(VertexLabel::DiagnosticResult),
            _ => None,
        }
    }

    /// The label of the vertex that the value is to be read as.
    pub fn of(value: &Value) -> Option<VertexLabel>
        ensures { read vertex_row.shape (view value.now)
            ≡ option_and_then (λ label. read_vertex_as label (view value.now)) result }
    {
        VertexLabel::named(tag(value, "label")?)
    }
}

/// The label of an edge (LSIF 0.6).
#[derive(Clone, Copy)]
pub enum EdgeLabel {
    /// `contains`.
    Contains,
    /// `item`.
    Item,
    /// That of an edge which leads to one vertex.
    Single(SingleLabel),
}

/// The label of an edge that leads to one vertex (LSIF 0.6).
#[derive(Clone, Copy)]
pub enum SingleLabel {
    /// `moniker`.
    Moniker,
    /// `nextMoniker`.
    NextMoniker,
    /// `next`.
    Next,
    /// `packageInformation`.
    PackageInformation,
    /// `textDocument/definition`.
    Definition,
    /// `textDocument/declaration`.
    Declaration,
    /// `textDocument/hover`.
    Hover,
    /// `textDocument/references`.
    References,
    /// `textDocument/implementation`.
    Implementation,
    /// `textDocument/typeDefinition`.
    TypeDefinition,
    /// `textDocument/foldingRange`.
    FoldingRange,
    /// `textDocument/documentLink`.
    DocumentLink,
    /// `textDocument/documentSymbol`.
    DocumentSymbol,
    /// `textDocument/diagnostic`.
    Diagnostic,
}

impl EdgeLabel {
    /// The label of that text.
    fn named(text: &str) -> Option<EdgeLabel>
        ensures { IsEdgeLabel text.now result }
    {
        match text {
            "contains" => Some(EdgeLabel::Contains),
            "moniker" => Some(EdgeLabel::Single(SingleLabel::Moniker)),
            "nextMoniker" => Some(EdgeLabel::Single(SingleLabel::NextMoniker)),
            "next" => Some(EdgeLabel::Single(SingleLabel::Next)),
            "packageInformation" => Some(EdgeLabel::Single(SingleLabel::PackageInformation)),
            "item" => Some(EdgeLabel::Item),
            "textDocument/definition" => Some(EdgeLabel::Single(SingleLabel::Definition)),
            "textDocument/declaration" => Some(EdgeLabel::Single(SingleLabel::Declaration)),
            "textDocument/hover" => Some(EdgeLabel::Single(SingleLabel::Hover)),
            "textDocument/references" => Some(EdgeLabel::Single(SingleLabel::References)),
            "textDocument/implementation" => Some(EdgeLabel::Single(SingleLabel::Implementation)),
            "textDocument/typeDefinition" => Some(EdgeLabel::Single(SingleLabel::TypeDefinition)),
            "textDocument/foldingRange" => Some(EdgeLabel::Single(SingleLabel::FoldingRange)),
            "textDocument/documentLink" => Some(EdgeLabel::Single(SingleLabel::DocumentLink)),
            "textDocument/documentSymbol" => Some(EdgeLabel::Single(SingleLabel::DocumentSymbol)),
            "textDocument/diagnostic" => Some(EdgeLabel::Single(SingleLabel::Diagnostic)),
            _ => None,
        }
    }

    /// The label of the edge that the value is to be read as.
    pub fn of(value: &Value) -> Option<EdgeLabel>
        ensures { read edge_row.shape (view value.now)
            ≡ option_and_then (λ label. read_edge_as label (view value.now)) result }
    {
        EdgeLabel::named(tag(value, "label")?)
    }
}
