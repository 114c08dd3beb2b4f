// All features of a text document.
ghost use Rattle.lsp_caps_text.specs.TextDocument.{text_document_client_capabilities_row};

use crate::code_action::CodeActionClientCapabilities;
use crate::code_lens::CodeLensClientCapabilities;
use crate::color::DocumentColorClientCapabilities;
use crate::completion::CompletionClientCapabilities;
use crate::folding::FoldingRangeClientCapabilities;
use crate::formatting::{
    DocumentFormattingClientCapabilities, DocumentOnTypeFormattingClientCapabilities,
    DocumentRangeFormattingClientCapabilities,
};
use crate::hierarchy::{CallHierarchyClientCapabilities, TypeHierarchyClientCapabilities};
use crate::highlight::{DocumentHighlightClientCapabilities, ReferenceClientCapabilities};
use crate::hover::HoverClientCapabilities;
use crate::inline::{InlayHintClientCapabilities, InlineValueClientCapabilities};
use crate::link::DocumentLinkClientCapabilities;
use crate::moniker::MonikerClientCapabilities;
use crate::publish::{DiagnosticClientCapabilities, PublishDiagnosticsClientCapabilities};
use crate::rename::RenameClientCapabilities;
use crate::selection::{LinkedEditingRangeClientCapabilities, SelectionRangeClientCapabilities};
use crate::signature_help::SignatureHelpClientCapabilities;
use crate::symbols::DocumentSymbolClientCapabilities;
use crate::sync::TextDocumentSyncClientCapabilities;
use crate::tokens::SemanticTokensClientCapabilities;
use lsp_base::GotoCapability;
use lsp_shape::{Copies, Misfit, NoMemory, WideReader, Wire, Writer};
use serde_json::Value;
use std::alloc::{AllocError, Global};

/// What a client supports for each feature of text documents, as `textDocument` in its capabilities
/// in `initialize`. An absent field means that the feature isn't supported (LSP 3.17, "Initialize
/// Request").
#[derive(Debug, PartialEq, Eq, Default, Drop)]
pub struct TextDocumentClientCapabilities {
    /// Notifications and requests around saving, such as `textDocument/didSave`. Every client sends
    /// those of opening, changing and closing.
    pub synchronization: Option<TextDocumentSyncClientCapabilities>,
    /// `textDocument/completion`.
    pub completion: Option<CompletionClientCapabilities>,
    /// `textDocument/hover`.
    pub hover: Option<HoverClientCapabilities>,
    /// `textDocument/signatureHelp`.
    pub signature_help: Option<SignatureHelpClientCapabilities>,
    /// `textDocument/references`.
    pub references: Option<ReferenceClientCapabilities>,
    /// `textDocument/documentHighlight`.
    pub document_highlight: Option<DocumentHighlightClientCapabilities>,
    /// `textDocument/documentSymbol`.
    pub document_symbol: Option<DocumentSymbolClientCapabilities>,
    /// `textDocument/formatting`.
    pub formatting: Option<DocumentFormattingClientCapabilities>,
    /// `textDocument/rangeFormatting`.
    pub range_formatting: Option<DocumentRangeFormattingClientCapabilities>,
    /// `textDocument/onTypeFormatting`.
    pub on_type_formatting: Option<DocumentOnTypeFormattingClientCapabilities>,
    /// `textDocument/declaration`. Since 3.14.
    pub declaration: Option<GotoCapability>,
    /// `textDocument/definition`.
    pub definition: Option<GotoCapability>,
    /// `textDocument/typeDefinition`. Since 3.6.
    pub type_definition: Option<GotoCapability>,
    /// `textDocument/implementation`. Since 3.6.
    pub implementation: Option<GotoCapability>,
    /// `textDocument/codeAction`.
    pub code_action: Option<CodeActionClientCapabilities>,
    /// `textDocument/codeLens`.
    pub code_lens: Option<CodeLensClientCapabilities>,
    /// `textDocument/documentLink`.
    pub document_link: Option<DocumentLinkClientCapabilities>,
    /// `textDocument/documentColor` and `textDocument/colorPresentation`. Since 3.6.
    pub color_provider: Option<DocumentColorClientCapabilities>,
    /// `textDocument/rename`.
    pub rename: Option<RenameClientCapabilities>,
    /// `textDocument/publishDiagnostics`, by which the server sends diagnostics unasked.
    pub publish_diagnostics: Option<PublishDiagnosticsClientCapabilities>,
    /// `textDocument/foldingRange`. Since 3.10.
    pub folding_range: Option<FoldingRangeClientCapabilities>,
    /// `textDocument/selectionRange`. Since 3.15.
    pub selection_range: Option<SelectionRangeClientCapabilities>,
    /// `textDocument/linkedEditingRange`. Since 3.16.
    pub linked_editing_range: Option<LinkedEditingRangeClientCapabilities>,
    /// `textDocument/prepareCallHierarchy` and the requests that follow it. Since 3.16.
    pub call_hierarchy: Option<CallHierarchyClientCapabilities>,
    /// The `textDocument/semanticTokens` requests. Since 3.16.
    pub semantic_tokens: Option<SemanticTokensClientCapabilities>,
    /// `textDocument/moniker`. Since 3.16.
    pub moniker: Option<MonikerClientCapabilities>,
    /// `textDocument/prepareTypeHierarchy` and the requests that follow it. Since 3.17.
    pub type_hierarchy: Option<TypeHierarchyClientCapabilities>,
    /// `textDocument/inlineValue`. Since 3.17.
    pub inline_value: Option<InlineValueClientCapabilities>,
    /// `textDocument/inlayHint`. Since 3.17.
    pub inlay_hint: Option<InlayHintClientCapabilities>,
    /// `textDocument/diagnostic`, by which the client asks for diagnostics. Since 3.17.
    pub diagnostic: Option<DiagnosticClientCapabilities>,
}

impl Clone for TextDocumentClientCapabilities {
    ghost is_clone = { λ x y. ⟦<Option<TextDocumentSyncClientCapabilities> as Clone>⟧.is_clone
        x.synchronization y.synchronization
        × ⟦<Option<CompletionClientCapabilities> as Clone>⟧.is_clone x.completion y.completion
        × ⟦<Option<HoverClientCapabilities> as Clone>⟧.is_clone x.hover y.hover
        × ⟦<Option<SignatureHelpClientCapabilities> as Clone>⟧.is_clone
        x.signature_help y.signature_help
        × ⟦<Option<ReferenceClientCapabilities> as Clone>⟧.is_clone x.references y.references
        × ⟦<Option<DocumentHighlightClientCapabilities> as Clone>⟧.is_clone
        x.document_highlight y.document_highlight
        × ⟦<Option<DocumentSymbolClientCapabilities> as Clone>⟧.is_clone
        x.document_symbol y.document_symbol
        × ⟦<Option<DocumentFormattingClientCapabilities> as Clone>⟧.is_clone
        x.formatting y.formatting
        × ⟦<Option<DocumentRangeFormattingClientCapabilities> as Clone>⟧.is_clone
        x.range_formatting y.range_formatting
        × ⟦<Option<DocumentOnTypeFormattingClientCapabilities> as Clone>⟧.is_clone
        x.on_type_formatting y.on_type_formatting
        × ⟦<Option<GotoCapability> as Clone>⟧.is_clone x.declaration y.declaration
        × ⟦<Option<GotoCapability> as Clone>⟧.is_clone x.definition y.definition
        × ⟦<Option<GotoCapability> as Clone>⟧.is_clone x.type_definition y.type_definition
        × ⟦<Option<GotoCapability> as Clone>⟧.is_clone x.implementation y.implementation
        × ⟦<Option<CodeActionClientCapabilities> as Clone>⟧.is_clone x.code_action y.code_action
        × ⟦<Option<CodeLensClientCapabilities> as Clone>⟧.is_clone x.code_lens y.code_lens
        × ⟦<Option<DocumentLinkClientCapabilities> as Clone>⟧.is_clone
        x.document_link y.document_link
        × ⟦<Option<DocumentColorClientCapabilities> as Clone>⟧.is_clone
        x.color_provider y.color_provider
        × ⟦<Option<RenameClientCapabilities> as Clone>⟧.is_clone x.rename y.rename
        × ⟦<Option<PublishDiagnosticsClientCapabilities> as Clone>⟧.is_clone
        x.publish_diagnostics y.publish_diagnostics
        × ⟦<Option<FoldingRangeClientCapabilities> as Clone>⟧.is_clone
        x.folding_range y.folding_range
        × ⟦<Option<SelectionRangeClientCapabilities> as Clone>⟧.is_clone
        x.selection_range y.selection_range
        × ⟦<Option<LinkedEditingRangeClientCapabilities> as Clone>⟧.is_clone
        x.linked_editing_range y.linked_editing_range
        × ⟦<Option<CallHierarchyClientCapabilities> as Clone>⟧.is_clone
        x.call_hierarchy y.call_hierarchy
        × ⟦<Option<SemanticTokensClientCapabilities> as Clone>⟧.is_clone
        x.semantic_tokens y.semantic_tokens
        × ⟦<Option<MonikerClientCapabilities> as Clone>⟧.is_clone x.moniker y.moniker
        × ⟦<Option<TypeHierarchyClientCapabilities> as Clone>⟧.is_clone
        x.type_hierarchy y.type_hierarchy
        × ⟦<Option<InlineValueClientCapabilities> as Clone>⟧.is_clone x.inline_value y.inline_value
        × ⟦<Option<InlayHintClientCapabilities> as Clone>⟧.is_clone x.inlay_hint y.inlay_hint
        × ⟦<Option<DiagnosticClientCapabilities> as Clone>⟧.is_clone x.diagnostic y.diagnostic };

    fn clone(&self) -> Result<TextDocumentClientCapabilities, AllocError> {
        let mut copies = Copies::new();
        let copy = TextDocumentClientCapabilities {
            synchronization: copies.optional(&self.synchronization),
            completion: copies.optional(&self.completion),
            hover: copies.optional(&self.hover),
            signature_help: copies.optional(&self.signature_help),
            references: copies.optional(&self.references),
            document_highlight: copies.optional(&self.document_highlight),
            document_symbol: copies.optional(&self.document_symbol),
            formatting: copies.optional(&self.formatting),
            range_formatting: copies.optional(&self.range_formatting),
            on_type_formatting: copies.optional(&self.on_type_formatting),
            declaration: copies.optional(&self.declaration),
            definition: copies.optional(&self.definition),
            type_definition: copies.optional(&self.type_definition),
            implementation: copies.optional(&self.implementation),
            code_action: copies.optional(&self.code_action),
            code_lens: copies.optional(&self.code_lens),
            document_link: copies.optional(&self.document_link),
            color_provider: copies.optional(&self.color_provider),
            rename: copies.optional(&self.rename),
            publish_diagnostics: copies.optional(&self.publish_diagnostics),
            folding_range: copies.optional(&self.folding_range),
            selection_range: copies.optional(&self.selection_range),
            linked_editing_range: copies.optional(&self.linked_editing_range),
            call_hierarchy: copies.optional(&self.call_hierarchy),
            semantic_tokens: copies.optional(&self.semantic_tokens),
            moniker: copies.optional(&self.moniker),
            type_hierarchy: copies.optional(&self.type_hierarchy),
            inline_value: copies.optional(&self.inline_value),
            inlay_hint: copies.optional(&self.inlay_hint),
            diagnostic: copies.optional(&self.diagnostic),
        };
        copies.end(copy)
    }
}

#[tactic(auto, unfolding(crate::specs::TextDocument::text_document_client_capabilities_row, crate::specs::TextDocument::text_document_client_capabilities_fields))]
impl Wire for TextDocumentClientCapabilities {
    ghost shape = { text_document_client_capabilities_row.shape };

    ghost shown = { text_document_client_capabilities_row.shown };

    fn from_value(alloc: Global, value: &Value) -> Result<TextDocumentClientCapabilities, Misfit> {
        let mut object = WideReader::new(alloc, value)?;
        let read = TextDocumentClientCapabilities {
            synchronization: object.optional("synchronization"),
            completion: object.optional("completion"),
            hover: object.optional("hover"),
            signature_help: object.optional("signatureHelp"),
            references: object.optional("references"),
            document_highlight: object.optional("documentHighlight"),
            document_symbol: object.optional("documentSymbol"),
            formatting: object.optional("formatting"),
            range_formatting: object.optional("rangeFormatting"),
            on_type_formatting: object.optional("onTypeFormatting"),
            declaration: object.optional("declaration"),
            definition: object.optional("definition"),
            type_definition: object.optional("typeDefinition"),
            implementation: object.optional("implementation"),
            code_action: object.optional("codeAction"),
            code_lens: object.optional("codeLens"),
            document_link: object.optional("documentLink"),
            color_provider: object.optional("colorProvider"),
            rename: object.optional("rename"),
            publish_diagnostics: object.optional("publishDiagnostics"),
            folding_range: object.optional("foldingRange"),
            selection_range: object.optional("selectionRange"),
            linked_editing_range: object.optional("linkedEditingRange"),
            call_hierarchy: object.optional("callHierarchy"),
            semantic_tokens: object.optional("semanticTokens"),
            moniker: object.optional("moniker"),
            type_hierarchy: object.optional("typeHierarchy"),
            inline_value: object.optional("inlineValue"),
            inlay_hint: object.optional("inlayHint"),
            diagnostic: object.optional("diagnostic"),
        };
        object.end(read)
    }

    fn to_value(&self, alloc: Global) -> Result<Value, NoMemory> {
        let mut object = Writer::new(alloc);
        object.optional("synchronization", &self.synchronization);
        object.optional("completion", &self.completion);
        object.optional("hover", &self.hover);
        object.optional("signatureHelp", &self.signature_help);
        object.optional("references", &self.references);
        object.optional("documentHighlight", &self.document_highlight);
        object.optional("documentSymbol", &self.document_symbol);
        object.optional("formatting", &self.formatting);
        object.optional("rangeFormatting", &self.range_formatting);
        object.optional("onTypeFormatting", &self.on_type_formatting);
        object.optional("declaration", &self.declaration);
        object.optional("definition", &self.definition);
        object.optional("typeDefinition", &self.type_definition);
        object.optional("implementation", &self.implementation);
        object.optional("codeAction", &self.code_action);
        object.optional("codeLens", &self.code_lens);
        object.optional("documentLink", &self.document_link);
        object.optional("colorProvider", &self.color_provider);
        object.optional("rename", &self.rename);
        object.optional("publishDiagnostics", &self.publish_diagnostics);
        object.optional("foldingRange", &self.folding_range);
        object.optional("selectionRange", &self.selection_range);
        object.optional("linkedEditingRange", &self.linked_editing_range);
        object.optional("callHierarchy", &self.call_hierarchy);
        object.optional("semanticTokens", &self.semantic_tokens);
        object.optional("moniker", &self.moniker);
        object.optional("typeHierarchy", &self.type_hierarchy);
        object.optional("inlineValue", &self.inline_value);
        object.optional("inlayHint", &self.inlay_hint);
        object.optional("diagnostic", &self.diagnostic);
        object.end()
    }
}
