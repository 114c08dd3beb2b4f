//! What the requests for items to pick from ask for, and their results: completion, code actions,
//! hints.
#![tactic(auto)]

mod code_action;
mod completion;
mod inlay_hint;
mod inline_value;
mod rename;

pub use code_action::{
    CodeAction, CodeActionContext, CodeActionDisabled, CodeActionOrCommand, CodeActionParams,
    CodeActionResponse,
};
pub use completion::{
    CompletionContext, CompletionItem, CompletionItemLabelDetails, CompletionList,
    CompletionParams, CompletionResponse, CompletionTextEdit, InsertReplaceEdit,
};
pub use inlay_hint::{
    InlayHint, InlayHintLabel, InlayHintLabelPart, InlayHintLabelPartTooltip, InlayHintParams,
    InlayHintTooltip,
};
pub use inline_value::{
    InlineValue, InlineValueContext, InlineValueEvaluatableExpression, InlineValueParams,
    InlineValueText, InlineValueVariableLookup,
};
pub use rename::{PrepareRenameResponse, RenameParams};
