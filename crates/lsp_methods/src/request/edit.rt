// The requests whose results are edited, completed or coloured with.
ghost use Rattle.std.specs.Prelude.{codes};

use super::Request;
use lsp_base::{TextDocumentPositionParams, TextEdit, WorkspaceEdit};
use lsp_lang_item::{
    CodeAction, CodeActionParams, CodeActionResponse, CompletionItem, CompletionParams,
    CompletionResponse, InlayHint, InlayHintParams, InlineValue, InlineValueParams,
    PrepareRenameResponse, RenameParams,
};
use lsp_report::{DocumentDiagnosticParams, DocumentDiagnosticReportResult};
use lsp_tokens::{
    DocumentFormattingParams, DocumentOnTypeFormattingParams, DocumentRangeFormattingParams,
    LinkedEditingRangeParams, LinkedEditingRanges, SemanticTokensDeltaParams,
    SemanticTokensFullDeltaResult, SemanticTokensParams, SemanticTokensRangeParams,
    SemanticTokensRangeResult, SemanticTokensResult, SignatureHelp, SignatureHelpParams,
};

/// `textDocument/semanticTokens/full` (LSP 3.17, "Semantic Tokens").
#[derive(Clone, Copy)]
pub enum SemanticTokensFullRequest {}

impl Request for SemanticTokensFullRequest {
    type Params = SemanticTokensParams;

    type Result = Option<SemanticTokensResult>;

    ghost name = { codes "textDocument/semanticTokens/full" };

    fn method() -> &'static str {
        "textDocument/semanticTokens/full"
    }
}

/// `textDocument/semanticTokens/full/delta` (LSP 3.17, "Semantic Tokens").
#[derive(Clone, Copy)]
pub enum SemanticTokensFullDeltaRequest {}

impl Request for SemanticTokensFullDeltaRequest {
    type Params = SemanticTokensDeltaParams;

    type Result = Option<SemanticTokensFullDeltaResult>;

    ghost name = { codes "textDocument/semanticTokens/full/delta" };

    fn method() -> &'static str {
        "textDocument/semanticTokens/full/delta"
    }
}

/// `textDocument/semanticTokens/range` (LSP 3.17, "Semantic Tokens").
#[derive(Clone, Copy)]
pub enum SemanticTokensRangeRequest {}

impl Request for SemanticTokensRangeRequest {
    type Params = SemanticTokensRangeParams;

    type Result = Option<SemanticTokensRangeResult>;

    ghost name = { codes "textDocument/semanticTokens/range" };

    fn method() -> &'static str {
        "textDocument/semanticTokens/range"
    }
}

/// `textDocument/inlineValue` (LSP 3.17, "Inline Value Request").
#[derive(Clone, Copy)]
pub enum InlineValueRequest {}

impl Request for InlineValueRequest {
    type Params = InlineValueParams;

    type Result = Option<Vec<InlineValue>>;

    ghost name = { codes "textDocument/inlineValue" };

    fn method() -> &'static str {
        "textDocument/inlineValue"
    }
}

/// `textDocument/inlayHint` (LSP 3.17, "Inlay Hint Request").
#[derive(Clone, Copy)]
pub enum InlayHintRequest {}

impl Request for InlayHintRequest {
    type Params = InlayHintParams;

    type Result = Option<Vec<InlayHint>>;

    ghost name = { codes "textDocument/inlayHint" };

    fn method() -> &'static str {
        "textDocument/inlayHint"
    }
}

/// `inlayHint/resolve` (LSP 3.17, "Inlay Hint Resolve Request").
#[derive(Clone, Copy)]
pub enum InlayHintResolveRequest {}

impl Request for InlayHintResolveRequest {
    type Params = InlayHint;

    type Result = InlayHint;

    ghost name = { codes "inlayHint/resolve" };

    fn method() -> &'static str {
        "inlayHint/resolve"
    }
}

/// `textDocument/completion` (LSP 3.17, "Completion Request").
#[derive(Clone, Copy)]
pub enum Completion {}

impl Request for Completion {
    type Params = CompletionParams;

    type Result = Option<CompletionResponse>;

    ghost name = { codes "textDocument/completion" };

    fn method() -> &'static str {
        "textDocument/completion"
    }
}

/// `completionItem/resolve` (LSP 3.17, "Completion Item Resolve Request").
#[derive(Clone, Copy)]
pub enum ResolveCompletionItem {}

impl Request for ResolveCompletionItem {
    type Params = CompletionItem;

    type Result = CompletionItem;

    ghost name = { codes "completionItem/resolve" };

    fn method() -> &'static str {
        "completionItem/resolve"
    }
}

/// `textDocument/signatureHelp` (LSP 3.17, "Signature Help Request").
#[derive(Clone, Copy)]
pub enum SignatureHelpRequest {}

impl Request for SignatureHelpRequest {
    type Params = SignatureHelpParams;

    type Result = Option<SignatureHelp>;

    ghost name = { codes "textDocument/signatureHelp" };

    fn method() -> &'static str {
        "textDocument/signatureHelp"
    }
}

/// `textDocument/codeAction` (LSP 3.17, "Code Action Request").
#[derive(Clone, Copy)]
pub enum CodeActionRequest {}

impl Request for CodeActionRequest {
    type Params = CodeActionParams;

    type Result = Option<CodeActionResponse>;

    ghost name = { codes "textDocument/codeAction" };

    fn method() -> &'static str {
        "textDocument/codeAction"
    }
}

/// `codeAction/resolve` (LSP 3.17, "Code Action Resolve Request").
#[derive(Clone, Copy)]
pub enum CodeActionResolveRequest {}

impl Request for CodeActionResolveRequest {
    type Params = CodeAction;

    type Result = CodeAction;

    ghost name = { codes "codeAction/resolve" };

    fn method() -> &'static str {
        "codeAction/resolve"
    }
}

/// `textDocument/formatting` (LSP 3.17, "Document Formatting Request").
#[derive(Clone, Copy)]
pub enum Formatting {}

impl Request for Formatting {
    type Params = DocumentFormattingParams;

    type Result = Option<Vec<TextEdit>>;

    ghost name = { codes "textDocument/formatting" };

    fn method() -> &'static str {
        "textDocument/formatting"
    }
}

/// `textDocument/rangeFormatting` (LSP 3.17, "Document Range Formatting Request").
#[derive(Clone, Copy)]
pub enum RangeFormatting {}

impl Request for RangeFormatting {
    type Params = DocumentRangeFormattingParams;

    type Result = Option<Vec<TextEdit>>;

    ghost name = { codes "textDocument/rangeFormatting" };

    fn method() -> &'static str {
        "textDocument/rangeFormatting"
    }
}

/// `textDocument/onTypeFormatting` (LSP 3.17, "Document on Type Formatting Request").
#[derive(Clone, Copy)]
pub enum OnTypeFormatting {}

impl Request for OnTypeFormatting {
    type Params = DocumentOnTypeFormattingParams;

    type Result = Option<Vec<TextEdit>>;

    ghost name = { codes "textDocument/onTypeFormatting" };

    fn method() -> &'static str {
        "textDocument/onTypeFormatting"
    }
}

/// `textDocument/rename` (LSP 3.17, "Rename Request").
#[derive(Clone, Copy)]
pub enum Rename {}

impl Request for Rename {
    type Params = RenameParams;

    type Result = Option<WorkspaceEdit>;

    ghost name = { codes "textDocument/rename" };

    fn method() -> &'static str {
        "textDocument/rename"
    }
}

/// `textDocument/prepareRename` (LSP 3.17, "Prepare Rename Request").
#[derive(Clone, Copy)]
pub enum PrepareRenameRequest {}

impl Request for PrepareRenameRequest {
    type Params = TextDocumentPositionParams;

    type Result = Option<PrepareRenameResponse>;

    ghost name = { codes "textDocument/prepareRename" };

    fn method() -> &'static str {
        "textDocument/prepareRename"
    }
}

/// `textDocument/linkedEditingRange` (LSP 3.17, "Linked Editing Range").
#[derive(Clone, Copy)]
pub enum LinkedEditingRange {}

impl Request for LinkedEditingRange {
    type Params = LinkedEditingRangeParams;

    type Result = Option<LinkedEditingRanges>;

    ghost name = { codes "textDocument/linkedEditingRange" };

    fn method() -> &'static str {
        "textDocument/linkedEditingRange"
    }
}

/// `textDocument/diagnostic` (LSP 3.17, "Document Diagnostics").
#[derive(Clone, Copy)]
pub enum DocumentDiagnosticRequest {}

impl Request for DocumentDiagnosticRequest {
    type Params = DocumentDiagnosticParams;

    type Result = DocumentDiagnosticReportResult;

    ghost name = { codes "textDocument/diagnostic" };

    fn method() -> &'static str {
        "textDocument/diagnostic"
    }
}
