//! The kinds of LSP 3.17 that are texts, and small types that stand in many others: texts for
//! people, a trace's level, and what is folded, told and offered.
#![tactic(auto)]
#![allow(non_snake_case)]

mod code_action;
mod folding;
mod kind_text;
mod markup;
mod position_encoding;
mod progress;
mod semantic_tokens;
mod trace;

pub use code_action::CodeActionKind;
pub use folding::FoldingRangeKind;
pub use markup::{Documentation, LanguageString, MarkedString, MarkupContent, MarkupKind};
pub use no_memory::NoMemory;
pub use position_encoding::PositionEncodingKind;
pub use progress::WorkDoneProgressOptions;
pub use semantic_tokens::{
    SemanticTokenModifier, SemanticTokenType, SemanticTokensFullOptions, TokenFormat,
};
pub use trace::TraceValue;
