//! What the requests on places and symbols of a program ask for, and their results.
#![tactic(auto)]

mod calls;
mod code_lens;
mod color;
mod generic;
mod goto;
mod hover;
mod link;
mod references;
mod symbols;
mod tree;
mod types;

pub use calls::{
    CallHierarchyIncomingCall, CallHierarchyIncomingCallsParams, CallHierarchyItem,
    CallHierarchyOutgoingCall, CallHierarchyOutgoingCallsParams, CallHierarchyPrepareParams,
};
pub use code_lens::{CodeLens, CodeLensParams};
pub use color::DocumentColorParams;
pub use generic::GenericParams;
pub use goto::{
    GotoDeclarationParams, GotoDeclarationResponse, GotoDefinitionParams, GotoDefinitionResponse,
    GotoImplementationParams, GotoImplementationResponse, GotoTypeDefinitionParams,
    GotoTypeDefinitionResponse,
};
pub use hover::{Hover, HoverContents, HoverParams};
pub use link::{DocumentLink, DocumentLinkParams};
pub use references::{
    DocumentHighlight, DocumentHighlightParams, ReferenceContext, ReferenceParams,
};
pub use symbols::{
    DocumentSymbolParams, DocumentSymbolResponse, SymbolInformation, WorkspaceLocation,
    WorkspaceSymbol, WorkspaceSymbolParams, WorkspaceSymbolResponse,
};
pub use tree::DocumentSymbol;
pub use types::{
    TypeHierarchyItem, TypeHierarchyPrepareParams, TypeHierarchySubtypesParams,
    TypeHierarchySupertypesParams,
};
