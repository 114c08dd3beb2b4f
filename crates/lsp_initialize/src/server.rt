// What a server sends in response to `initialize`.
ghost use Rattle.std.specs.Prelude.{◌≡◌, IfOk};
ghost use Rattle.serde_json.specs.View.{view};
ghost use Rattle.lsp_shape.specs.Write.{write};
ghost use Rattle.lsp_initialize.specs.Server.{server_capabilities_row, initialize_result_row};

use lsp_base::OneOf;
use lsp_names::PositionEncodingKind;
use lsp_offer_lang::{
    CallHierarchyServerCapability, ColorProviderCapability, DiagnosticServerCapabilities,
    FoldingRangeProviderCapability, InlayHintServerCapabilities, InlineValueServerCapabilities,
    LinkedEditingRangeServerCapabilities, MonikerServerCapabilities,
    SemanticTokensServerCapabilities,
};
use lsp_offer_text::{
    CodeActionProviderCapability, CodeLensOptions, CompletionOptions, DeclarationCapability,
    DefinitionOptions, DocumentFormattingOptions, DocumentHighlightOptions, DocumentLinkOptions,
    DocumentOnTypeFormattingOptions, DocumentRangeFormattingOptions, DocumentSymbolOptions,
    HoverProviderCapability, ImplementationProviderCapability, ReferencesOptions, RenameOptions,
    SelectionRangeProviderCapability, SignatureHelpOptions, TextDocumentSyncCapability,
    TypeDefinitionProviderCapability, WorkspaceSymbolOptions,
};
use lsp_offer_work::{
    ExecuteCommandOptions, NotebookDocumentSyncOptions, NotebookDocumentSyncRegistrationOptions,
    ServerInfo, WorkspaceServerCapabilities,
};
use lsp_shape::{
    Copies, Misfit, NoMemory, Optional, Required, WideReader, Wire, Writer, read_object,
};
use serde_json::Value;
use std::alloc::{AllocError, Global};

/// The features that a server offers from the start, as part of `InitializeResult`. An absent field
/// means that it doesn't offer that feature. It can register others later with
/// `client/registerCapability`, where the client has `dynamic_registration` for them. Type
/// hierarchies have no field here, so they can only be registered later (LSP 3.17, "Initialize
/// Request").
#[derive(Debug, PartialEq, Default, Drop)]
pub struct ServerCapabilities {
    /// The unit of `character` in positions, one of those that the client offers as
    /// `general.positionEncodings`, since 3.17. Absent: UTF-16 code units.
    pub position_encoding: Option<PositionEncodingKind>,
    /// The messages that the server wants when text documents are opened, changed, saved and
    /// closed. Absent: none.
    pub text_document_sync: Option<TextDocumentSyncCapability>,
    /// The notebooks on which the server wants notifications, since 3.17.
    pub notebook_document_sync: Option<
        OneOf<NotebookDocumentSyncOptions, NotebookDocumentSyncRegistrationOptions>,
    >,
    /// Support for `textDocument/selectionRange`, since 3.15.
    pub selection_range_provider: Option<SelectionRangeProviderCapability>,
    /// Support for `textDocument/hover`.
    pub hover_provider: Option<HoverProviderCapability>,
    /// Support for `textDocument/completion`, and optionally for `completionItem/resolve`.
    pub completion_provider: Option<CompletionOptions>,
    /// Support for `textDocument/signatureHelp`.
    pub signature_help_provider: Option<SignatureHelpOptions>,
    /// Support for `textDocument/definition`.
    pub definition_provider: Option<OneOf<bool, DefinitionOptions>>,
    /// Support for `textDocument/typeDefinition`, since 3.6.
    pub type_definition_provider: Option<TypeDefinitionProviderCapability>,
    /// Support for `textDocument/implementation`, since 3.6.
    pub implementation_provider: Option<ImplementationProviderCapability>,
    /// Support for `textDocument/references`.
    pub references_provider: Option<OneOf<bool, ReferencesOptions>>,
    /// Support for `textDocument/documentHighlight`.
    pub document_highlight_provider: Option<OneOf<bool, DocumentHighlightOptions>>,
    /// Support for `textDocument/documentSymbol`.
    pub document_symbol_provider: Option<OneOf<bool, DocumentSymbolOptions>>,
    /// Support for `workspace/symbol`, and optionally for `workspaceSymbol/resolve`.
    pub workspace_symbol_provider: Option<OneOf<bool, WorkspaceSymbolOptions>>,
    /// Support for `textDocument/codeAction`, and optionally for `codeAction/resolve`.
    pub code_action_provider: Option<CodeActionProviderCapability>,
    /// Support for `textDocument/codeLens`, and optionally for `codeLens/resolve`.
    pub code_lens_provider: Option<CodeLensOptions>,
    /// Support for `textDocument/formatting`.
    pub document_formatting_provider: Option<OneOf<bool, DocumentFormattingOptions>>,
    /// Support for `textDocument/rangeFormatting`.
    pub document_range_formatting_provider: Option<OneOf<bool, DocumentRangeFormattingOptions>>,
    /// Support for `textDocument/onTypeFormatting`, and the characters that trigger it.
    pub document_on_type_formatting_provider: Option<DocumentOnTypeFormattingOptions>,
    /// Support for `textDocument/rename`, and optionally for `textDocument/prepareRename`.
    pub rename_provider: Option<OneOf<bool, RenameOptions>>,
    /// Support for `textDocument/documentLink`, and optionally for `documentLink/resolve`.
    pub document_link_provider: Option<DocumentLinkOptions>,
    /// Support for `textDocument/documentColor` and `textDocument/colorPresentation`, since 3.6.
    pub color_provider: Option<ColorProviderCapability>,
    /// Support for `textDocument/foldingRange`, since 3.10.
    pub folding_range_provider: Option<FoldingRangeProviderCapability>,
    /// Support for `textDocument/declaration`, since 3.14.
    pub declaration_provider: Option<DeclarationCapability>,
    /// Support for `workspace/executeCommand`, and the commands that the server executes.
    pub execute_command_provider: Option<ExecuteCommandOptions>,
    /// Support for workspace folders and file operations.
    pub workspace: Option<WorkspaceServerCapabilities>,
    /// Support for `textDocument/prepareCallHierarchy`, `callHierarchy/incomingCalls` and
    /// `callHierarchy/outgoingCalls`, since 3.16.
    pub call_hierarchy_provider: Option<CallHierarchyServerCapability>,
    /// Support for semantic tokens: the requests `textDocument/semanticTokens/full`, `/full/delta`
    /// and `/range`, since 3.16.
    pub semantic_tokens_provider: Option<SemanticTokensServerCapabilities>,
    /// Support for `textDocument/moniker`, since 3.16.
    pub moniker_provider: Option<OneOf<bool, MonikerServerCapabilities>>,
    /// Support for `textDocument/linkedEditingRange`, since 3.16.
    pub linked_editing_range_provider: Option<LinkedEditingRangeServerCapabilities>,
    /// Support for `textDocument/inlineValue`, since 3.17.
    pub inline_value_provider: Option<OneOf<bool, InlineValueServerCapabilities>>,
    /// Support for `textDocument/inlayHint`, and optionally for `inlayHint/resolve`, since 3.17.
    pub inlay_hint_provider: Option<OneOf<bool, InlayHintServerCapabilities>>,
    /// Support for `textDocument/diagnostic`, and optionally for `workspace/diagnostic`, since
    /// 3.17.
    pub diagnostic_provider: Option<DiagnosticServerCapabilities>,
    /// Features that aren't part of the standard, in a form that client and server agree on.
    pub experimental: Option<Value>,
}

impl Clone for ServerCapabilities {
    ghost is_clone = { λ x y. ⟦<Option<PositionEncodingKind> as Clone>⟧.is_clone
        x.position_encoding y.position_encoding
        × ⟦<Option<TextDocumentSyncCapability> as Clone>⟧.is_clone
        x.text_document_sync y.text_document_sync
        × ⟦<Option<OneOf<NotebookDocumentSyncOptions, NotebookDocumentSyncRegistrationOptions>> as Clone>⟧.is_clone
        x.notebook_document_sync y.notebook_document_sync
        × ⟦<Option<SelectionRangeProviderCapability> as Clone>⟧.is_clone
        x.selection_range_provider y.selection_range_provider
        × ⟦<Option<HoverProviderCapability> as Clone>⟧.is_clone x.hover_provider y.hover_provider
        × ⟦<Option<CompletionOptions> as Clone>⟧.is_clone
        x.completion_provider y.completion_provider
        × ⟦<Option<SignatureHelpOptions> as Clone>⟧.is_clone
        x.signature_help_provider y.signature_help_provider
        × ⟦<Option<OneOf<bool, DefinitionOptions>> as Clone>⟧.is_clone
        x.definition_provider y.definition_provider
        × ⟦<Option<TypeDefinitionProviderCapability> as Clone>⟧.is_clone
        x.type_definition_provider y.type_definition_provider
        × ⟦<Option<ImplementationProviderCapability> as Clone>⟧.is_clone
        x.implementation_provider y.implementation_provider
        × ⟦<Option<OneOf<bool, ReferencesOptions>> as Clone>⟧.is_clone
        x.references_provider y.references_provider
        × ⟦<Option<OneOf<bool, DocumentHighlightOptions>> as Clone>⟧.is_clone
        x.document_highlight_provider y.document_highlight_provider
        × ⟦<Option<OneOf<bool, DocumentSymbolOptions>> as Clone>⟧.is_clone
        x.document_symbol_provider y.document_symbol_provider
        × ⟦<Option<OneOf<bool, WorkspaceSymbolOptions>> as Clone>⟧.is_clone
        x.workspace_symbol_provider y.workspace_symbol_provider
        × ⟦<Option<CodeActionProviderCapability> as Clone>⟧.is_clone
        x.code_action_provider y.code_action_provider
        × ⟦<Option<CodeLensOptions> as Clone>⟧.is_clone x.code_lens_provider y.code_lens_provider
        × ⟦<Option<OneOf<bool, DocumentFormattingOptions>> as Clone>⟧.is_clone
        x.document_formatting_provider y.document_formatting_provider
        × ⟦<Option<OneOf<bool, DocumentRangeFormattingOptions>> as Clone>⟧.is_clone
        x.document_range_formatting_provider y.document_range_formatting_provider
        × ⟦<Option<DocumentOnTypeFormattingOptions> as Clone>⟧.is_clone
        x.document_on_type_formatting_provider y.document_on_type_formatting_provider
        × ⟦<Option<OneOf<bool, RenameOptions>> as Clone>⟧.is_clone
        x.rename_provider y.rename_provider
        × ⟦<Option<DocumentLinkOptions> as Clone>⟧.is_clone
        x.document_link_provider y.document_link_provider
        × ⟦<Option<ColorProviderCapability> as Clone>⟧.is_clone x.color_provider y.color_provider
        × ⟦<Option<FoldingRangeProviderCapability> as Clone>⟧.is_clone
        x.folding_range_provider y.folding_range_provider
        × ⟦<Option<DeclarationCapability> as Clone>⟧.is_clone
        x.declaration_provider y.declaration_provider
        × ⟦<Option<ExecuteCommandOptions> as Clone>⟧.is_clone
        x.execute_command_provider y.execute_command_provider
        × ⟦<Option<WorkspaceServerCapabilities> as Clone>⟧.is_clone x.workspace y.workspace
        × ⟦<Option<CallHierarchyServerCapability> as Clone>⟧.is_clone
        x.call_hierarchy_provider y.call_hierarchy_provider
        × ⟦<Option<SemanticTokensServerCapabilities> as Clone>⟧.is_clone
        x.semantic_tokens_provider y.semantic_tokens_provider
        × ⟦<Option<OneOf<bool, MonikerServerCapabilities>> as Clone>⟧.is_clone
        x.moniker_provider y.moniker_provider
        × ⟦<Option<LinkedEditingRangeServerCapabilities> as Clone>⟧.is_clone
        x.linked_editing_range_provider y.linked_editing_range_provider
        × ⟦<Option<OneOf<bool, InlineValueServerCapabilities>> as Clone>⟧.is_clone
        x.inline_value_provider y.inline_value_provider
        × ⟦<Option<OneOf<bool, InlayHintServerCapabilities>> as Clone>⟧.is_clone
        x.inlay_hint_provider y.inlay_hint_provider
        × ⟦<Option<DiagnosticServerCapabilities> as Clone>⟧.is_clone
        x.diagnostic_provider y.diagnostic_provider
        × ⟦<Option<Value> as Clone>⟧.is_clone x.experimental y.experimental };

    fn clone(&self) -> Result<ServerCapabilities, AllocError> {
        let mut copies = Copies::new();
        let copy = ServerCapabilities {
            position_encoding: copies.optional(&self.position_encoding),
            text_document_sync: copies.optional(&self.text_document_sync),
            notebook_document_sync: copies.optional(&self.notebook_document_sync),
            selection_range_provider: copies.optional(&self.selection_range_provider),
            hover_provider: copies.optional(&self.hover_provider),
            completion_provider: copies.optional(&self.completion_provider),
            signature_help_provider: copies.optional(&self.signature_help_provider),
            definition_provider: copies.optional(&self.definition_provider),
            type_definition_provider: copies.optional(&self.type_definition_provider),
            implementation_provider: copies.optional(&self.implementation_provider),
            references_provider: copies.optional(&self.references_provider),
            document_highlight_provider: copies.optional(&self.document_highlight_provider),
            document_symbol_provider: copies.optional(&self.document_symbol_provider),
            workspace_symbol_provider: copies.optional(&self.workspace_symbol_provider),
            code_action_provider: copies.optional(&self.code_action_provider),
            code_lens_provider: copies.optional(&self.code_lens_provider),
            document_formatting_provider: copies.optional(&self.document_formatting_provider),
            document_range_formatting_provider: copies.optional(
                &self.document_range_formatting_provider,
            ),
            document_on_type_formatting_provider: copies.optional(
                &self.document_on_type_formatting_provider,
            ),
            rename_provider: copies.optional(&self.rename_provider),
            document_link_provider: copies.optional(&self.document_link_provider),
            color_provider: copies.optional(&self.color_provider),
            folding_range_provider: copies.optional(&self.folding_range_provider),
            declaration_provider: copies.optional(&self.declaration_provider),
            execute_command_provider: copies.optional(&self.execute_command_provider),
            workspace: copies.optional(&self.workspace),
            call_hierarchy_provider: copies.optional(&self.call_hierarchy_provider),
            semantic_tokens_provider: copies.optional(&self.semantic_tokens_provider),
            moniker_provider: copies.optional(&self.moniker_provider),
            linked_editing_range_provider: copies.optional(&self.linked_editing_range_provider),
            inline_value_provider: copies.optional(&self.inline_value_provider),
            inlay_hint_provider: copies.optional(&self.inlay_hint_provider),
            diagnostic_provider: copies.optional(&self.diagnostic_provider),
            experimental: copies.optional(&self.experimental),
        };
        copies.end(copy)
    }
}

#[tactic(auto, unfolding(crate::specs::Server::server_capabilities_row, crate::specs::Server::server_capabilities_fields))]
impl Wire for ServerCapabilities {
    ghost shape = { server_capabilities_row.shape };

    ghost shown = { server_capabilities_row.shown };

    fn from_value(alloc: Global, value: &Value) -> Result<ServerCapabilities, Misfit> {
        let mut object = WideReader::new(alloc, value)?;
        let read = ServerCapabilities {
            position_encoding: object.optional("positionEncoding"),
            text_document_sync: object.optional("textDocumentSync"),
            notebook_document_sync: object.optional("notebookDocumentSync"),
            selection_range_provider: object.optional("selectionRangeProvider"),
            hover_provider: object.optional("hoverProvider"),
            completion_provider: object.optional("completionProvider"),
            signature_help_provider: object.optional("signatureHelpProvider"),
            definition_provider: object.optional("definitionProvider"),
            type_definition_provider: object.optional("typeDefinitionProvider"),
            implementation_provider: object.optional("implementationProvider"),
            references_provider: object.optional("referencesProvider"),
            document_highlight_provider: object.optional("documentHighlightProvider"),
            document_symbol_provider: object.optional("documentSymbolProvider"),
            workspace_symbol_provider: object.optional("workspaceSymbolProvider"),
            code_action_provider: object.optional("codeActionProvider"),
            code_lens_provider: object.optional("codeLensProvider"),
            document_formatting_provider: object.optional("documentFormattingProvider"),
            document_range_formatting_provider: object.optional("documentRangeFormattingProvider"),
            document_on_type_formatting_provider: object.optional(
                "documentOnTypeFormattingProvider",
            ),
            rename_provider: object.optional("renameProvider"),
            document_link_provider: object.optional("documentLinkProvider"),
            color_provider: object.optional("colorProvider"),
            folding_range_provider: object.optional("foldingRangeProvider"),
            declaration_provider: object.optional("declarationProvider"),
            execute_command_provider: object.optional("executeCommandProvider"),
            workspace: object.optional("workspace"),
            call_hierarchy_provider: object.optional("callHierarchyProvider"),
            semantic_tokens_provider: object.optional("semanticTokensProvider"),
            moniker_provider: object.optional("monikerProvider"),
            linked_editing_range_provider: object.optional("linkedEditingRangeProvider"),
            inline_value_provider: object.optional("inlineValueProvider"),
            inlay_hint_provider: object.optional("inlayHintProvider"),
            diagnostic_provider: object.optional("diagnosticProvider"),
            experimental: object.optional("experimental"),
        };
        object.end(read)
    }

    fn to_value(&self, alloc: Global) -> Result<Value, NoMemory> {
        let mut object = Writer::new(alloc);
        object.optional("positionEncoding", &self.position_encoding);
        object.optional("textDocumentSync", &self.text_document_sync);
        object.optional("notebookDocumentSync", &self.notebook_document_sync);
        object.optional("selectionRangeProvider", &self.selection_range_provider);
        object.optional("hoverProvider", &self.hover_provider);
        object.optional("completionProvider", &self.completion_provider);
        object.optional("signatureHelpProvider", &self.signature_help_provider);
        object.optional("definitionProvider", &self.definition_provider);
        object.optional("typeDefinitionProvider", &self.type_definition_provider);
        object.optional("implementationProvider", &self.implementation_provider);
        object.optional("referencesProvider", &self.references_provider);
        object.optional(
            "documentHighlightProvider",
            &self.document_highlight_provider,
        );
        object.optional("documentSymbolProvider", &self.document_symbol_provider);
        object.optional("workspaceSymbolProvider", &self.workspace_symbol_provider);
        object.optional("codeActionProvider", &self.code_action_provider);
        object.optional("codeLensProvider", &self.code_lens_provider);
        object.optional(
            "documentFormattingProvider",
            &self.document_formatting_provider,
        );
        object.optional(
            "documentRangeFormattingProvider",
            &self.document_range_formatting_provider,
        );
        object.optional(
            "documentOnTypeFormattingProvider",
            &self.document_on_type_formatting_provider,
        );
        object.optional("renameProvider", &self.rename_provider);
        object.optional("documentLinkProvider", &self.document_link_provider);
        object.optional("colorProvider", &self.color_provider);
        object.optional("foldingRangeProvider", &self.folding_range_provider);
        object.optional("declarationProvider", &self.declaration_provider);
        object.optional("executeCommandProvider", &self.execute_command_provider);
        object.optional("workspace", &self.workspace);
        object.optional("callHierarchyProvider", &self.call_hierarchy_provider);
        object.optional("semanticTokensProvider", &self.semantic_tokens_provider);
        object.optional("monikerProvider", &self.moniker_provider);
        object.optional(
            "linkedEditingRangeProvider",
            &self.linked_editing_range_provider,
        );
        object.optional("inlineValueProvider", &self.inline_value_provider);
        object.optional("inlayHintProvider", &self.inlay_hint_provider);
        object.optional("diagnosticProvider", &self.diagnostic_provider);
        object.optional("experimental", &self.experimental);
        object.end()
    }
}

/// Result of the request `initialize`, sent by the server (LSP 3.17, "Initialize Request").
#[derive(Debug, PartialEq, Default, Clone, Drop)]
pub struct InitializeResult {
    /// The features that the server offers from the start.
    pub capabilities: ServerCapabilities,
    /// The name and version of the server, since 3.15.
    pub server_info: Option<ServerInfo>,
}

#[tactic(auto, unfolding(crate::specs::Server::initialize_result_row))]
impl Wire for InitializeResult {
    ghost shape = { initialize_result_row.shape };

    ghost shown = { initialize_result_row.shown };

    fn from_value(alloc: Global, value: &Value) -> Result<InitializeResult, Misfit> {
        let (server_info, capabilities) = read_object(
            alloc,
            value,
            (Optional("serverInfo"), Required("capabilities")),
        )?;
        Ok(InitializeResult {
            server_info,
            capabilities,
        })
    }

    fn to_value(&self, alloc: Global) -> Result<Value, NoMemory> {
        let mut object = Writer::new(alloc);
        object.field("capabilities", &self.capabilities);
        object.optional("serverInfo", &self.server_info);
        object.end()
    }
}

impl InitializeResult {
    /// What is written of it; it is let go. The one error is out of memory.
    pub fn into_value(self, alloc: Global) -> Result<Value, NoMemory>
        ensures { IfOk result (λ value. view value
            ≡ write initialize_result_row.shape (initialize_result_row.shown self)) }
    {
        let value = self.to_value(alloc);
        drop(self);
        value
    }
}
