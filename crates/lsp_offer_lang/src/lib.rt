//! What a server offers for text documents, and the options of its registrations: from hierarchies
//! to diagnostics.
#![tactic(auto)]

mod color;
mod diagnostic;
mod hierarchy;
mod inline;
mod linked_editing;
mod moniker;
mod tokens;

pub use color::{
    ColorProviderCapability, ColorProviderOptions, FoldingProviderOptions,
    FoldingRangeProviderCapability, StaticTextDocumentColorProviderOptions,
};
pub use diagnostic::{
    DiagnosticOptions, DiagnosticRegistrationOptions, DiagnosticServerCapabilities,
};
pub use hierarchy::{
    CallHierarchyOptions, CallHierarchyServerCapability, TypeHierarchyOptions,
    TypeHierarchyRegistrationOptions,
};
pub use inline::{
    InlayHintOptions, InlayHintRegistrationOptions, InlayHintServerCapabilities,
    InlineValueOptions, InlineValueRegistrationOptions, InlineValueServerCapabilities,
};
pub use linked_editing::{
    LinkedEditingRangeOptions, LinkedEditingRangeRegistrationOptions,
    LinkedEditingRangeServerCapabilities,
};
pub use moniker::{MonikerOptions, MonikerRegistrationOptions, MonikerServerCapabilities};
pub use tokens::{
    SemanticTokensLegend, SemanticTokensOptions, SemanticTokensRegistrationOptions,
    SemanticTokensServerCapabilities,
};
