//! What a server offers for text documents, and the options of its registrations: from opening to
//! renaming.
#![tactic(auto)]

mod code_action;
mod completion;
mod formatting;
mod goto;
mod hover;
mod selection;
mod signature_help;
mod symbols;
mod sync;

pub use code_action::{
    CodeActionOptions, CodeActionProviderCapability, CodeLensOptions, DocumentLinkOptions,
};
pub use completion::{
    CompletionOptions, CompletionOptionsCompletionItem, CompletionRegistrationOptions,
};
pub use formatting::{
    DocumentFormattingOptions, DocumentOnTypeFormattingOptions,
    DocumentOnTypeFormattingRegistrationOptions, DocumentRangeFormattingOptions, RenameOptions,
};
pub use goto::{
    DeclarationCapability, DeclarationOptions, DeclarationRegistrationOptions, DefinitionOptions,
    DocumentHighlightOptions, GenericOptions, GenericRegistrationOptions,
    ImplementationProviderCapability, ReferencesOptions, StaticTextDocumentRegistrationOptions,
    TypeDefinitionProviderCapability,
};
pub use hover::{HoverOptions, HoverProviderCapability, HoverRegistrationOptions};
pub use selection::{
    SelectionRangeOptions, SelectionRangeProviderCapability, SelectionRangeRegistrationOptions,
};
pub use signature_help::{SignatureHelpOptions, SignatureHelpRegistrationOptions};
pub use symbols::{DocumentSymbolOptions, WorkspaceSymbolOptions};
pub use sync::{
    SaveOptions, TextDocumentChangeRegistrationOptions, TextDocumentSaveRegistrationOptions,
    TextDocumentSyncCapability, TextDocumentSyncOptions, TextDocumentSyncSaveOptions,
};
