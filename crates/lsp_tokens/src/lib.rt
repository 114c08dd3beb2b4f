//! Semantic tokens, ranges that are folded and selected, signatures, monikers and formatting.
#![tactic(auto)]

mod folding;
mod formatting;
mod moniker;
mod results;
mod selection;
mod selection_range;
mod signature_help;
mod tokens;

pub use folding::{FoldingRange, FoldingRangeParams};
pub use formatting::{
    DocumentFormattingParams, DocumentOnTypeFormattingParams, DocumentRangeFormattingParams,
    FormattingOptions, FormattingProperty,
};
pub use moniker::{Moniker, MonikerKind, MonikerParams, UniquenessLevel};
pub use results::{
    SemanticTokensDelta, SemanticTokensDeltaParams, SemanticTokensFullDeltaResult,
    SemanticTokensParams, SemanticTokensRangeParams, SemanticTokensRangeResult,
    SemanticTokensResult,
};
pub use selection::{LinkedEditingRangeParams, LinkedEditingRanges, SelectionRangeParams};
pub use selection_range::SelectionRange;
pub use signature_help::{
    ParameterInformation, ParameterLabel, SignatureHelp, SignatureHelpContext, SignatureHelpParams,
    SignatureInformation,
};
pub use tokens::{
    SemanticToken, SemanticTokens, SemanticTokensEdit, SemanticTokensPartialResult, numbers_of,
    tokens_of,
};
