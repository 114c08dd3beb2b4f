// Vertices.
ghost use Rattle.std.specs.Prelude.{◌≡◌, IfOk, OnOk, Some, None, option_map, true, codes};
ghost use Rattle.serde_json.specs.Data.{Data, object as object_of, put as with_member, string, no_members};
ghost use Rattle.serde_json.specs.View.{view};
ghost use Rattle.lsp_shape.specs.Plain.{choice, parts, part, no_parts};
ghost use Rattle.lsp_shape.specs.Read.{read};
ghost use Rattle.lsp_shape.specs.Shape.{Shape};
ghost use Rattle.lsp_shape.specs.Why.{IfUnfit, Lacks, Refuses};
ghost use Rattle.lsp_shape.specs.Write.{write};
ghost use Rattle.lsp_shape.specs.Values.{is_of};
ghost use Rattle.lsp_lsif.specs.Vertex.{vertex_row, meta_data_row, encoding_row, tool_info_row, project_row, repository_row, document_row, result_set_row, package_information_row, event_row, event_kind_row, event_scope_row, document_symbol_or_range_based_vec_row, result_alone, vertex_range_row};

use crate::entry::Id;
use crate::labels::VertexLabel;
use crate::symbols::RangeBasedDocumentSymbol;
use crate::tags::RangeTag;
use lsp_base::{Diagnostic, Range};
use lsp_lang_goto::{DocumentLink, DocumentSymbol, Hover};
use lsp_shape::{
    Misfit, NoMemory, Optional, Reader, Required, Wanted, Wire, Writer, as_form, attempt, flat,
    form, put_tag, read_object,
};
use lsp_tokens::{FoldingRange, Moniker};
use lsp_uri::Uri;
use serde_json::Value;
use std::alloc::Global;

/// A node of the graph that a dump describes. In JSON, the member `label` gives the variant (LSIF
/// 0.6).
#[derive(Debug, PartialEq, Drop)]
pub enum Vertex {
    /// What holds for the whole dump, such as the version of the format.
    MetaData(MetaData),
    /// A project, which contains documents.
    Project(Project),
    /// A document, which contains ranges.
    Document(Document),
    /// A range in a document, from which edges lead to the results of requests at its positions
    /// (LSIF 0.6, "Ranges").
    Range {
        /// The start and the end of the range. Ranges of one document may be nested, but may not
        /// overlap otherwise.
        range: Range,
        /// What the text in the range is, such as a definition.
        tag: Option<RangeTag>,
    },
    /// What several ranges have in common, so that the results for them are stored once.
    ResultSet(ResultSet),
    /// A name for a symbol, by which dumps of different projects can be linked.
    Moniker(Moniker),
    /// The package that the symbol of a moniker comes from or belongs to.
    PackageInformation(PackageInformation),
    /// Marks where the data of a project or a document begins or ends in the dump.
    Event(Event),
    /// The result of `textDocument/definition`. `item` edges lead from it to the ranges of the
    /// definitions.
    DefinitionResult,
    /// The result of `textDocument/declaration`. `item` edges lead from it to the ranges of the
    /// declarations.
    DeclarationResult,
    /// The result of `textDocument/typeDefinition`. `item` edges lead from it to the ranges of the
    /// definitions of the type.
    TypeDefinitionResult,
    /// The result of `textDocument/references`. `item` edges lead from it to ranges, or to other
    /// results that it includes.
    ReferenceResult,
    /// The result of `textDocument/implementation`. `item` edges lead from it to the ranges of the
    /// implementations.
    ImplementationResult,
    /// The result of `textDocument/foldingRange` for a document.
    FoldingRangeResult {
        /// The folding ranges of the document.
        result: Vec<FoldingRange>,
    },
    /// The result of `textDocument/hover` for one range or several.
    HoverResult {
        /// The hover, as the server would give it.
        result: Hover,
    },
    /// The result of `textDocument/documentSymbol` for a document.
    DocumentSymbolResult {
        /// The symbols of the document, in full or by the ids of their ranges.
        result: DocumentSymbolOrRangeBasedVec,
    },
    /// The result of `textDocument/documentLink` for a document.
    DocumentLinkResult {
        /// The links in the document.
        result: Vec<DocumentLink>,
    },
    /// The diagnostics of a document, as they were when the dump was made.
    DiagnosticResult {
        /// The diagnostics.
        result: Vec<Diagnostic>,
    },
}

#[tactic(auto, unfolding(crate::specs::Vertex::vertex_row))]
impl Wire for Vertex {
    ghost shape = { vertex_row.shape };

    ghost shown = { vertex_row.shown };

    fn from_value(alloc: Global, value: &Value) -> Result<Vertex, Misfit> {
        let Some(label) = VertexLabel::of(value) else {
            return Err(Misfit::wanted(Wanted::Form));
        };
        match label {
            VertexLabel::MetaData => form(alloc, value).map(Vertex::MetaData),
            VertexLabel::Project => form(alloc, value).map(Vertex::Project),
            VertexLabel::Document => form(alloc, value).map(Vertex::Document),
            VertexLabel::Range => as_form(range_of(alloc, value)),
            VertexLabel::ResultSet => form(alloc, value).map(Vertex::ResultSet),
            VertexLabel::Moniker => form(alloc, value).map(Vertex::Moniker),
            VertexLabel::PackageInformation => form(alloc, value).map(Vertex::PackageInformation),
            VertexLabel::Event => form(alloc, value).map(Vertex::Event),
            VertexLabel::DefinitionResult => Ok(Vertex::DefinitionResult),
            VertexLabel::DeclarationResult => Ok(Vertex::DeclarationResult),
            VertexLabel::TypeDefinitionResult => Ok(Vertex::TypeDefinitionResult),
            VertexLabel::ReferenceResult => Ok(Vertex::ReferenceResult),
            VertexLabel::ImplementationResult => Ok(Vertex::ImplementationResult),
            VertexLabel::FoldingRangeResult => Ok(Vertex::FoldingRangeResult {
                result: result_of(alloc, value)?,
            }),
            VertexLabel::HoverResult => Ok(Vertex::HoverResult {
                result: result_of(alloc, value)?,
            }),
            VertexLabel::DocumentSymbolResult => Ok(Vertex::DocumentSymbolResult {
                result: result_of(alloc, value)?,
            }),
            VertexLabel::DocumentLinkResult => Ok(Vertex::DocumentLinkResult {
                result: result_of(alloc, value)?,
            }),
            VertexLabel::DiagnosticResult => Ok(Vertex::DiagnosticResult {
                result: result_of(alloc, value)?,
            }),
        }
    }

    #[tactic(auto, unfolding(crate::specs::Vertex::vertex_row, crate::specs::Vertex::vertex_shape, crate::specs::Vertex::meta_data_row, crate::specs::Vertex::project_row, crate::specs::Vertex::document_row, crate::specs::Vertex::result_set_row, lsp_tokens::specs::Moniker::moniker_row, crate::specs::Vertex::package_information_row, crate::specs::Vertex::event_row, lsp_base::specs::Position::range_row))]
    fn to_value(&self, alloc: Global) -> Result<Value, NoMemory> {
        match self {
            Vertex::MetaData(data) => put_tag(alloc, "label", "metaData", data),
            Vertex::Project(project) => put_tag(alloc, "label", "project", project),
            Vertex::Document(document) => put_tag(alloc, "label", "document", document),
            Vertex::Range { range, tag } => {
                let mut object = Writer::new(alloc);
                object.flat(range);
                object.optional("tag", tag);
                object.tag("label", "range");
                object.end()
            }
            Vertex::ResultSet(set) => put_tag(alloc, "label", "resultSet", set),
            Vertex::Moniker(moniker) => put_tag(alloc, "label", "moniker", moniker),
            Vertex::PackageInformation(information) => put_tag(
                alloc,
                "label",
                "packageInformation",
                information,
            ),
            Vertex::Event(event) => put_tag(alloc, "label", "$event", event),
            Vertex::DefinitionResult => put_label(alloc, "definitionResult"),
            Vertex::DeclarationResult => put_label(alloc, "declarationResult"),
            Vertex::TypeDefinitionResult => put_label(alloc, "typeDefinitionResult"),
            Vertex::ReferenceResult => put_label(alloc, "referenceResult"),
            Vertex::ImplementationResult => put_label(alloc, "implementationResult"),
            Vertex::FoldingRangeResult { result } => put_result(
                alloc,
                "foldingRangeResult",
                result,
            ),
            Vertex::HoverResult { result } => put_result(alloc, "hoverResult", result),
            Vertex::DocumentSymbolResult { result } => put_result(
                alloc,
                "documentSymbolResult",
                result,
            ),
            Vertex::DocumentLinkResult { result } => put_result(
                alloc,
                "documentLinkResult",
                result,
            ),
            Vertex::DiagnosticResult { result } => put_result(alloc, "diagnosticResult", result),
        }
    }
}

impl Vertex {
    /// Lets the vertex go, as `drop` does: a crate that calls this has no drop of it to prove.
    pub fn let_go(self) {
        drop(self);
    }
}

/// The member `result`, which is all that some vertices have.
fn result_of<T: Wire>(alloc: Global, value: &Value) -> Result<T, Misfit>
    ensures read { IfOk result (λ x. read (result_alone T.shape) (view value.now)
        ≡ Some (parts (part (T.shown x) no_parts))) }
    ensures unfit { IfUnfit result (λ _. read (result_alone T.shape) (view value.now) ≡ None) }
    ensures refuses { IfUnfit result
        (λ why. (s : Shape) (d : Data) → Lacks s d Wanted.Form → Refuses s d why) }
{
    as_form(result_in(alloc, value))
}

/// The same, told by the place where something else is wanted.
fn result_in<T: Wire>(alloc: Global, value: &Value) -> Result<T, Misfit>
    ensures read { IfOk result (λ x. read (result_alone T.shape) (view value.now)
        ≡ Some (parts (part (T.shown x) no_parts))) }
    ensures unfit { IfUnfit result (λ why. Refuses (result_alone T.shape) (view value.now) why) }
{
    let object = Reader::new(alloc, value)?;
    object.field("result")
}

/// The members of the vertex `range`.
#[tactic(auto, unfolding(crate::specs::Vertex::vertex_row))]
fn range_of(alloc: Global, value: &Value) -> Result<Vertex, Misfit>
    ensures read { IfOk result (λ x. option_map (choice 3)
        (read vertex_range_row.shape (view value.now)) ≡ Some (vertex_row.shown x)) }
    ensures unfit { IfUnfit result (λ why. Refuses vertex_range_row.shape (view value.now) why) }
{
    let object = Reader::new(alloc, value)?;
    Ok(Vertex::Range {
        range: flat(alloc, value)?,
        tag: object.optional("tag")?,
    })
}

/// What is written for a vertex that has the member `result` alone.
fn put_result<T: Wire>(alloc: Global, label: &str, held: &T) -> Result<Value, NoMemory>
    ensures written { IfOk result (λ v. view v
        ≡ object_of (with_member (codes "label") (string label.now)
        (with_member (codes "result") (write T.shape (T.shown held.now)) no_members))) }
    ensures of_shape { OnOk result (is_of T.shape (T.shown held.now) ≡ true) }
{
    let mut object = Writer::new(alloc);
    object.field("result", held);
    object.tag("label", label);
    object.end()
}

/// What is written for a vertex without members.
fn put_label(alloc: Global, label: &str) -> Result<Value, NoMemory>
    ensures { IfOk result (λ v. view v
        ≡ object_of (with_member (codes "label") (string label.now) no_members)) }
{
    let mut object = Writer::new(alloc);
    object.tag("label", label);
    object.end()
}

/// The vertex `metaData`, which describes the dump as a whole (LSIF 0.6).
#[derive(Debug, PartialEq, Drop)]
pub struct MetaData {
    /// The version of LSIF that the dump follows, such as `0.6.0`. Before 1.0, each new version may
    /// break readers of the last.
    pub version: String,
    /// The URI of the root of the project that the dump was made for.
    pub project_root: Uri,
    /// The encoding in whose code units the zero-based characters of all positions are counted.
    pub position_encoding: Encoding,
    /// The tool that made the dump.
    pub tool_info: Option<ToolInfo>,
}

#[tactic(auto, unfolding(crate::specs::Vertex::meta_data_row))]
impl Wire for MetaData {
    ghost shape = { meta_data_row.shape };

    ghost shown = { meta_data_row.shown };

    fn from_value(alloc: Global, value: &Value) -> Result<MetaData, Misfit> {
        let (version, project_root, position_encoding, tool_info) = read_object(
            alloc,
            value,
            (
                Required("version"),
                Required("projectRoot"),
                Required("positionEncoding"),
                Optional("toolInfo"),
            ),
        )?;
        Ok(MetaData {
            version,
            project_root,
            position_encoding,
            tool_info,
        })
    }

    fn to_value(&self, alloc: Global) -> Result<Value, NoMemory> {
        let mut object = Writer::new(alloc);
        object.field("version", &self.version);
        object.field("projectRoot", &self.project_root);
        object.field("positionEncoding", &self.position_encoding);
        object.optional("toolInfo", &self.tool_info);
        object.end()
    }
}

/// The encoding in whose code units the positions of a dump are counted (LSIF 0.6).
#[derive(Debug, PartialEq, Clone, Copy)]
pub enum Encoding {
    /// UTF-16, the only encoding that dumps may use.
    Utf16,
}

#[tactic(auto, unfolding(crate::specs::Vertex::encoding_row))]
impl Wire for Encoding {
    ghost shape = { encoding_row.shape };

    ghost shown = { encoding_row.shown };

    fn from_value(_alloc: Global, value: &Value) -> Result<Encoding, Misfit> {
        match value.as_str() {
            Some("utf-16") => Ok(Encoding::Utf16),
            _ => Err(Misfit::wanted(Wanted::Name)),
        }
    }

    fn to_value(&self, alloc: Global) -> Result<Value, NoMemory> {
        let name = match self {
            Encoding::Utf16 => "utf-16",
        };
        Ok(Value::try_from_str(alloc, name)?)
    }
}

/// The tool that made a dump, as named in `MetaData` (LSIF 0.6).
#[derive(Debug, PartialEq, Drop)]
pub struct ToolInfo {
    /// The name of the tool.
    pub name: String,
    /// The arguments that the tool was run with. Absent: there are none. An empty array isn't
    /// written.
    pub args: Vec<String>,
    /// The version of the tool.
    pub version: Option<String>,
}

#[tactic(auto, unfolding(crate::specs::Vertex::tool_info_row))]
impl Wire for ToolInfo {
    ghost shape = { tool_info_row.shape };

    ghost shown = { tool_info_row.shown };

    fn from_value(alloc: Global, value: &Value) -> Result<ToolInfo, Misfit> {
        let object = Reader::new(alloc, value)?;
        Ok(ToolInfo {
            name: object.field("name")?,
            args: object.list_or_empty("args")?,
            version: object.optional("version")?,
        })
    }

    fn to_value(&self, alloc: Global) -> Result<Value, NoMemory> {
        let mut object = Writer::new(alloc);
        object.field("name", &self.name);
        object.unless_empty("args", &self.args);
        object.optional("version", &self.version);
        object.end()
    }
}

/// The vertex `project`: a project that the documents of the dump belong to, linked to them by
/// `contains` edges (LSIF 0.6, "The Project vertex").
#[derive(Debug, PartialEq, Drop)]
pub struct Project {
    /// The URI of the project file, such as a `tsconfig.json`.
    pub resource: Option<Uri>,
    /// The content of the project file, encoded in base64. LSIF 0.6 names the member `contents`.
    pub content: Option<String>,
    /// What kind of project it is, usually the language, such as `typescript`.
    pub kind: String,
}

#[tactic(auto, unfolding(crate::specs::Vertex::project_row))]
impl Wire for Project {
    ghost shape = { project_row.shape };

    ghost shown = { project_row.shown };

    fn from_value(alloc: Global, value: &Value) -> Result<Project, Misfit> {
        let (resource, content, kind) = read_object(
            alloc,
            value,
            (Optional("resource"), Optional("content"), Required("kind")),
        )?;
        Ok(Project {
            resource,
            content,
            kind,
        })
    }

    fn to_value(&self, alloc: Global) -> Result<Value, NoMemory> {
        let mut object = Writer::new(alloc);
        object.optional("resource", &self.resource);
        object.optional("content", &self.content);
        object.field("kind", &self.kind);
        object.end()
    }
}

/// Where the source code of a package is kept, as named in `PackageInformation` (LSIF 0.6).
#[derive(Debug, PartialEq, Drop)]
pub struct Repository {
    /// The kind of repository, such as `git`; `type` in JSON.
    pub typ: String,
    /// The address of the repository.
    pub url: String,
    /// The commit that the package was made from.
    pub commit_id: Option<String>,
}

#[tactic(auto, unfolding(crate::specs::Vertex::repository_row))]
impl Wire for Repository {
    ghost shape = { repository_row.shape };

    ghost shown = { repository_row.shown };

    fn from_value(alloc: Global, value: &Value) -> Result<Repository, Misfit> {
        let (typ, url, commit_id) = read_object(
            alloc,
            value,
            (Required("type"), Required("url"), Optional("commitId")),
        )?;
        Ok(Repository {
            typ,
            url,
            commit_id,
        })
    }

    fn to_value(&self, alloc: Global) -> Result<Value, NoMemory> {
        let mut object = Writer::new(alloc);
        object.field("type", &self.typ);
        object.field("url", &self.url);
        object.optional("commitId", &self.commit_id);
        object.end()
    }
}

/// The vertex `document`: a document that the dump describes, linked to its ranges by `contains`
/// edges (LSIF 0.6).
#[derive(Debug, PartialEq, Drop)]
pub struct Document {
    /// The URI of the document.
    pub uri: Uri,
    /// The language of the document, by the identifiers of LSP, such as `typescript`.
    pub language_id: String,
}

#[tactic(auto, unfolding(crate::specs::Vertex::document_row))]
impl Wire for Document {
    ghost shape = { document_row.shape };

    ghost shown = { document_row.shown };

    fn from_value(alloc: Global, value: &Value) -> Result<Document, Misfit> {
        let (uri, language_id) = read_object(
            alloc,
            value,
            (Required("uri"), Required("languageId")),
        )?;
        Ok(Document { uri, language_id })
    }

    fn to_value(&self, alloc: Global) -> Result<Value, NoMemory> {
        let mut object = Writer::new(alloc);
        object.field("uri", &self.uri);
        object.field("languageId", &self.language_id);
        object.end()
    }
}

/// The vertex `resultSet`, which holds the results that several ranges share. `next` edges lead
/// from the ranges to it, and from it to the next set (LSIF 0.6, "Result Set").
#[derive(Debug, PartialEq, Drop)]
pub struct ResultSet {
    /// A key that the tool gave the set.
    pub key: Option<String>,
}

#[tactic(auto, unfolding(crate::specs::Vertex::result_set_row))]
impl Wire for ResultSet {
    ghost shape = { result_set_row.shape };

    ghost shown = { result_set_row.shown };

    fn from_value(alloc: Global, value: &Value) -> Result<ResultSet, Misfit> {
        let key = read_object(alloc, value, Optional("key"))?;
        Ok(ResultSet { key })
    }

    fn to_value(&self, alloc: Global) -> Result<Value, NoMemory> {
        let mut object = Writer::new(alloc);
        object.optional("key", &self.key);
        object.end()
    }
}

/// The vertex `packageInformation`: a package of a package manager. `packageInformation` edges lead
/// to it from the monikers of its symbols (LSIF 0.6).
#[derive(Debug, PartialEq, Drop)]
pub struct PackageInformation {
    /// The name of the package.
    pub name: String,
    /// The package manager, such as `npm`.
    pub manager: String,
    /// The URI of the file that describes the package, such as a `package.json`.
    pub uri: Option<Uri>,
    /// The content of that file. LSIF 0.6 names the member `contents`.
    pub content: Option<String>,
    /// Where the source code of the package is kept.
    pub repository: Option<Repository>,
    /// The version of the package.
    pub version: Option<String>,
}

#[tactic(auto, unfolding(crate::specs::Vertex::package_information_row))]
impl Wire for PackageInformation {
    ghost shape = { package_information_row.shape };

    ghost shown = { package_information_row.shown };

    fn from_value(alloc: Global, value: &Value) -> Result<PackageInformation, Misfit> {
        let (name, manager, uri, content, repository, version) = read_object(
            alloc,
            value,
            (
                Required("name"),
                Required("manager"),
                Optional("uri"),
                Optional("content"),
                Optional("repository"),
                Optional("version"),
            ),
        )?;
        Ok(PackageInformation {
            name,
            manager,
            uri,
            content,
            repository,
            version,
        })
    }

    fn to_value(&self, alloc: Global) -> Result<Value, NoMemory> {
        let mut object = Writer::new(alloc);
        object.field("name", &self.name);
        object.field("manager", &self.manager);
        object.optional("uri", &self.uri);
        object.optional("content", &self.content);
        object.optional("repository", &self.repository);
        object.optional("version", &self.version);
        object.end()
    }
}

/// The vertex `$event`, which marks where the data of a project or a document begins or ends in the
/// dump (LSIF 0.6).
#[derive(Debug, PartialEq, Drop)]
pub struct Event {
    /// Whether the data begins or ends.
    pub kind: EventKind,
    /// Whether it is the data of a project or of a document.
    pub scope: EventScope,
    /// The id of the vertex of that project or document; `data` in JSON.
    pub payload: Id,
}

#[tactic(auto, unfolding(crate::specs::Vertex::event_row))]
impl Wire for Event {
    ghost shape = { event_row.shape };

    ghost shown = { event_row.shown };

    fn from_value(alloc: Global, value: &Value) -> Result<Event, Misfit> {
        let (kind, scope, payload) = read_object(
            alloc,
            value,
            (Required("kind"), Required("scope"), Required("data")),
        )?;
        Ok(Event {
            kind,
            scope,
            payload,
        })
    }

    fn to_value(&self, alloc: Global) -> Result<Value, NoMemory> {
        let mut object = Writer::new(alloc);
        object.field("kind", &self.kind);
        object.field("scope", &self.scope);
        object.field("data", &self.payload);
        object.end()
    }
}

/// Whether an `Event` marks a begin or an end (LSIF 0.6).
#[derive(Debug, PartialEq, Drop)]
pub enum EventKind {
    /// The data of the project or document begins.
    Begin,
    /// The data of the project or document is complete, and the dump has no more of it.
    End,
}

#[tactic(auto, unfolding(crate::specs::Vertex::event_kind_row))]
impl Wire for EventKind {
    ghost shape = { event_kind_row.shape };

    ghost shown = { event_kind_row.shown };

    fn from_value(_alloc: Global, value: &Value) -> Result<EventKind, Misfit> {
        match value.as_str() {
            Some("begin") => Ok(EventKind::Begin),
            Some("end") => Ok(EventKind::End),
            _ => Err(Misfit::wanted(Wanted::Name)),
        }
    }

    fn to_value(&self, alloc: Global) -> Result<Value, NoMemory> {
        let name = match self {
            EventKind::Begin => "begin",
            EventKind::End => "end",
        };
        Ok(Value::try_from_str(alloc, name)?)
    }
}

/// Whether an `Event` is about a project or a document (LSIF 0.6).
#[derive(Debug, PartialEq, Drop)]
pub enum EventScope {
    /// It is about a document.
    Document,
    /// It is about a project.
    Project,
}

#[tactic(auto, unfolding(crate::specs::Vertex::event_scope_row))]
impl Wire for EventScope {
    ghost shape = { event_scope_row.shape };

    ghost shown = { event_scope_row.shown };

    fn from_value(_alloc: Global, value: &Value) -> Result<EventScope, Misfit> {
        match value.as_str() {
            Some("document") => Ok(EventScope::Document),
            Some("project") => Ok(EventScope::Project),
            _ => Err(Misfit::wanted(Wanted::Name)),
        }
    }

    fn to_value(&self, alloc: Global) -> Result<Value, NoMemory> {
        let name = match self {
            EventScope::Document => "document",
            EventScope::Project => "project",
        };
        Ok(Value::try_from_str(alloc, name)?)
    }
}

/// The symbols of a document in a `documentSymbolResult` vertex, in one of two forms (LSIF 0.6).
#[derive(Debug, PartialEq, Drop)]
pub enum DocumentSymbolOrRangeBasedVec {
    /// Complete symbols, as in the result of `textDocument/documentSymbol`. An empty array is read
    /// as this variant.
    DocumentSymbol(Vec<DocumentSymbol>),
    /// The ids of ranges, whose tags describe the symbols.
    RangeBased(Vec<RangeBasedDocumentSymbol>),
}

#[tactic(auto, unfolding(crate::specs::Vertex::document_symbol_or_range_based_vec_row))]
impl Wire for DocumentSymbolOrRangeBasedVec {
    ghost shape = { document_symbol_or_range_based_vec_row.shape };

    ghost shown = { document_symbol_or_range_based_vec_row.shown };

    fn from_value(alloc: Global, value: &Value) -> Result<DocumentSymbolOrRangeBasedVec, Misfit> {
        if let Some(symbol) = attempt(alloc, value)? {
            return Ok(DocumentSymbolOrRangeBasedVec::DocumentSymbol(symbol));
        }
        Ok(DocumentSymbolOrRangeBasedVec::RangeBased(form(alloc, value)?))
    }

    fn to_value(&self, alloc: Global) -> Result<Value, NoMemory> {
        match self {
            DocumentSymbolOrRangeBasedVec::DocumentSymbol(symbol) => symbol.to_value(alloc),
            DocumentSymbolOrRangeBasedVec::RangeBased(based) => based.to_value(alloc),
        }
    }
}
