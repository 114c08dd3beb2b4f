//! What a client supports of each feature of a text document, as it tells when a session begins.
#![tactic(auto)]

mod code_action;
mod code_lens;
mod color;
mod completion;
mod folding;
mod formatting;
mod hierarchy;
mod highlight;
mod hover;
mod inline;
mod link;
mod moniker;
mod publish;
mod rename;
mod selection;
mod signature_help;
mod symbols;
mod sync;
mod text_document;
mod tokens;

pub use code_action::{
    CodeActionCapabilityResolveSupport, CodeActionClientCapabilities, CodeActionKindLiteralSupport,
    CodeActionLiteralSupport,
};
pub use code_lens::CodeLensClientCapabilities;
pub use color::DocumentColorClientCapabilities;
pub use completion::{
    CompletionClientCapabilities, CompletionItemCapability, CompletionItemCapabilityResolveSupport,
    CompletionItemKindCapability, CompletionListCapability, InsertTextModeSupport,
};
pub use folding::{
    FoldingRangeCapability, FoldingRangeClientCapabilities, FoldingRangeKindCapability,
};
pub use formatting::{
    DocumentFormattingClientCapabilities, DocumentOnTypeFormattingClientCapabilities,
    DocumentRangeFormattingClientCapabilities,
};
pub use hierarchy::{CallHierarchyClientCapabilities, TypeHierarchyClientCapabilities};
pub use highlight::{DocumentHighlightClientCapabilities, ReferenceClientCapabilities};
pub use hover::HoverClientCapabilities;
pub use inline::{
    InlayHintClientCapabilities, InlayHintResolveClientCapabilities, InlineValueClientCapabilities,
};
pub use link::DocumentLinkClientCapabilities;
pub use moniker::MonikerClientCapabilities;
pub use publish::{DiagnosticClientCapabilities, PublishDiagnosticsClientCapabilities};
pub use rename::RenameClientCapabilities;
pub use selection::{LinkedEditingRangeClientCapabilities, SelectionRangeClientCapabilities};
pub use signature_help::{
    ParameterInformationSettings, SignatureHelpClientCapabilities, SignatureInformationSettings,
};
pub use symbols::DocumentSymbolClientCapabilities;
pub use sync::TextDocumentSyncClientCapabilities;
pub use text_document::TextDocumentClientCapabilities;
pub use tokens::{SemanticTokensClientCapabilities, SemanticTokensClientCapabilitiesRequests};
