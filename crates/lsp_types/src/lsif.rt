//! Entries of an index of a program: the Language Server Index Format.

pub use lsp_lsif::{
    DeclarationTag, DefinitionResultType, DefinitionTag, Document, DocumentSymbolOrRangeBasedVec,
    Edge, EdgeData, EdgeDataMultiIn, Element, Encoding, Entry, Event, EventKind, EventScope, Id,
    Item, ItemKind, LocationOrRangeId, MetaData, PackageInformation, Project,
    RangeBasedDocumentSymbol, RangeTag, ReferenceTag, Repository, ResultSet, ToolInfo, UnknownTag,
    Vertex,
};
