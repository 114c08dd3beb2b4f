//! The kinds of LSP 3.17 that are numbers: any number is read, and some have a name.
#![tactic(auto)]

mod completion;
mod diagnostics;
mod language;
mod named;
mod symbols;
mod sync;
mod workspace;

pub use completion::{
    CompletionItemKind, CompletionItemTag, CompletionTriggerKind, InsertTextFormat, InsertTextMode,
};
pub use diagnostics::{DiagnosticSeverity, DiagnosticTag};
pub use language::{
    CodeActionTriggerKind, DocumentHighlightKind, InlayHintKind, PrepareSupportDefaultBehavior,
    SignatureHelpTriggerKind,
};
pub use symbols::{SymbolKind, SymbolTag};
pub use sync::{TextDocumentSaveReason, TextDocumentSyncKind};
pub use workspace::{FileChangeType, MessageType};
