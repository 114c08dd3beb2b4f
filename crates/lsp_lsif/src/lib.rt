//! Entries of an index of a program: the Language Server Index Format.
#![tactic(auto)]

mod edge;
mod entry;
mod labels;
mod symbols;
mod tags;
mod vertex;

pub use edge::{
    DefinitionResultType, Edge, EdgeData, EdgeDataMultiIn, Item, ItemKind, LocationOrRangeId,
};
pub use entry::{Element, Entry, Id, read_entry};
pub use symbols::RangeBasedDocumentSymbol;
pub use tags::{DeclarationTag, DefinitionTag, RangeTag, ReferenceTag, UnknownTag};
pub use vertex::{
    Document, DocumentSymbolOrRangeBasedVec, Encoding, Event, EventKind, EventScope, MetaData,
    PackageInformation, Project, Repository, ResultSet, ToolInfo, Vertex,
};
