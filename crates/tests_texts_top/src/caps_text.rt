// The rows of lsp_caps_text.
use lsp_caps_text::{
    CodeActionCapabilityResolveSupport, CodeActionClientCapabilities, CodeActionKindLiteralSupport,
    CodeActionLiteralSupport, CompletionClientCapabilities, CompletionItemCapability,
    CompletionItemCapabilityResolveSupport, CompletionItemKindCapability, CompletionListCapability,
    DiagnosticClientCapabilities, DocumentLinkClientCapabilities, DocumentSymbolClientCapabilities,
    FoldingRangeCapability, FoldingRangeClientCapabilities, FoldingRangeKindCapability,
    HoverClientCapabilities, InlayHintClientCapabilities, InlayHintResolveClientCapabilities,
    InsertTextModeSupport, ParameterInformationSettings, PublishDiagnosticsClientCapabilities,
    RenameClientCapabilities, SelectionRangeClientCapabilities, SemanticTokensClientCapabilities,
    SemanticTokensClientCapabilitiesRequests, SignatureHelpClientCapabilities,
    SignatureInformationSettings, TextDocumentClientCapabilities,
    TextDocumentSyncClientCapabilities,
};
use lsp_rows::{RowError, Trial};

const TEXT_DOCUMENT_SYNC_CLIENT_CAPABILITIES: &str = r#"
{"didSave":false,"dynamicRegistration":true,"willSave":true,"willSaveWaitUntil":true} :: TextDocumentSyncClientCapabilities { dynamic_registration: Some(true), will_save: Some(true), will_save_wait_until: Some(true), did_save: Some(false) }
?
{"didSave":true,"dynamicRegistration":true,"willSave":false} :: TextDocumentSyncClientCapabilities { dynamic_registration: Some(true), will_save: Some(false), will_save_wait_until: None, did_save: Some(true) }
! {"dynamicRegistration":"no"} :: dynamicRegistration: true or false is wanted
# Visual Studio Code 1.78, by its public form
{"didSave":true,"dynamicRegistration":true,"willSave":true,"willSaveWaitUntil":true}
# Neovim 0.7.2
{"didSave":true,"dynamicRegistration":false,"willSave":false,"willSaveWaitUntil":false}
"#;

const COMPLETION_CLIENT_CAPABILITIES: &str = r#"
{"completionItem":{"snippetSupport":true},"completionItemKind":{"valueSet":[109]},"completionList":{"itemDefaults":["itemDefaults"]},"contextSupport":false,"dynamicRegistration":true,"insertTextMode":108} :: CompletionClientCapabilities { dynamic_registration: Some(true), completion_item: Some(CompletionItemCapability { snippet_support: Some(true), commit_characters_support: None, documentation_format: None, deprecated_support: None, preselect_support: None, tag_support: None, insert_replace_support: None, resolve_support: None, insert_text_mode_support: None, label_details_support: None }), completion_item_kind: Some(CompletionItemKindCapability { value_set: Some([CompletionItemKind(109)]) }), context_support: Some(false), insert_text_mode: Some(InsertTextMode(108)), completion_list: Some(CompletionListCapability { item_defaults: Some(["itemDefaults"]) }) }
?
! {"dynamicRegistration":"no"} :: dynamicRegistration: true or false is wanted
# Visual Studio Code 1.78, by its public form
{"completionItem":{"commitCharactersSupport":true,"deprecatedSupport":true,"documentationFormat":["markdown","plaintext"],"insertReplaceSupport":true,"insertTextModeSupport":{"valueSet":[1,2]},"labelDetailsSupport":true,"preselectSupport":true,"resolveSupport":{"properties":["documentation","detail","additionalTextEdits"]},"snippetSupport":true,"tagSupport":{"valueSet":[1]}},"completionItemKind":{"valueSet":[1,2,3,4,5,6,7,8,9,10,11,12,13,14,15,16,17,18,19,20,21,22,23,24,25]},"completionList":{"itemDefaults":["commitCharacters","editRange","insertTextFormat","insertTextMode"]},"contextSupport":true,"dynamicRegistration":true,"insertTextMode":2}
# Neovim 0.7.2
{"completionItem":{"commitCharactersSupport":false,"deprecatedSupport":false,"documentationFormat":["markdown","plaintext"],"preselectSupport":false,"snippetSupport":false},"completionItemKind":{"valueSet":[1,2,3,4,5,6,7,8,9,10,11,12,13,14,15,16,17,18,19,20,21,22,23,24,25]},"contextSupport":false,"dynamicRegistration":false}
"#;

const COMPLETION_ITEM_CAPABILITY: &str = r#"
{"commitCharactersSupport":true,"deprecatedSupport":true,"documentationFormat":["plaintext"],"insertReplaceSupport":false,"insertTextModeSupport":{"valueSet":[109]},"labelDetailsSupport":false,"preselectSupport":false,"resolveSupport":{"properties":["properties"]},"snippetSupport":true,"tagSupport":{"valueSet":[105]}} :: CompletionItemCapability { snippet_support: Some(true), commit_characters_support: Some(true), documentation_format: Some([PlainText]), deprecated_support: Some(true), preselect_support: Some(false), tag_support: Some(TagSupport { value_set: [CompletionItemTag(105)] }), insert_replace_support: Some(false), resolve_support: Some(CompletionItemCapabilityResolveSupport { properties: ["properties"] }), insert_text_mode_support: Some(InsertTextModeSupport { value_set: [InsertTextMode(109)] }), label_details_support: Some(false) }
?
{"commitCharactersSupport":false,"documentationFormat":["plaintext"],"insertReplaceSupport":false,"insertTextModeSupport":{"valueSet":[109]},"preselectSupport":true,"resolveSupport":{"properties":["properties"]},"snippetSupport":true,"tagSupport":{"valueSet":[105]}} :: CompletionItemCapability { snippet_support: Some(true), commit_characters_support: Some(false), documentation_format: Some([PlainText]), deprecated_support: None, preselect_support: Some(true), tag_support: Some(TagSupport { value_set: [CompletionItemTag(105)] }), insert_replace_support: Some(false), resolve_support: Some(CompletionItemCapabilityResolveSupport { properties: ["properties"] }), insert_text_mode_support: Some(InsertTextModeSupport { value_set: [InsertTextMode(109)] }), label_details_support: None }
! {"snippetSupport":"no"} :: snippetSupport: true or false is wanted
# Visual Studio Code 1.78, by its public form
{"commitCharactersSupport":true,"deprecatedSupport":true,"documentationFormat":["markdown","plaintext"],"insertReplaceSupport":true,"insertTextModeSupport":{"valueSet":[1,2]},"labelDetailsSupport":true,"preselectSupport":true,"resolveSupport":{"properties":["documentation","detail","additionalTextEdits"]},"snippetSupport":true,"tagSupport":{"valueSet":[1]}}
# Neovim 0.7.2
{"commitCharactersSupport":false,"deprecatedSupport":false,"documentationFormat":["markdown","plaintext"],"preselectSupport":false,"snippetSupport":false}
{"tagSupport":{"valueSet":[1]}} :: CompletionItemCapability { snippet_support: None, commit_characters_support: None, documentation_format: None, deprecated_support: None, preselect_support: None, tag_support: Some(TagSupport { value_set: [Deprecated] }), insert_replace_support: None, resolve_support: None, insert_text_mode_support: None, label_details_support: None }
{"tagSupport":false} => {}
{"tagSupport":true} => {"tagSupport":{"valueSet":[]}}
"#;

const COMPLETION_ITEM_CAPABILITY_RESOLVE_SUPPORT: &str = r#"
{"properties":["properties"]} :: CompletionItemCapabilityResolveSupport { properties: ["properties"] }
? properties
! {} :: properties: is missing
# Visual Studio Code 1.78, by its public form
{"properties":["documentation","detail","additionalTextEdits"]}
"#;

const INSERT_TEXT_MODE_SUPPORT: &str = r#"
{"valueSet":[109]} :: InsertTextModeSupport { value_set: [InsertTextMode(109)] }
? valueSet
! {} :: valueSet: is missing
# Visual Studio Code 1.78, by its public form
{"valueSet":[1,2]}
"#;

const COMPLETION_ITEM_KIND_CAPABILITY: &str = r#"
{"valueSet":[109]} :: CompletionItemKindCapability { value_set: Some([CompletionItemKind(109)]) }
?
! {"valueSet":"no"} :: valueSet: a list is wanted
# Visual Studio Code 1.78, by its public form
{"valueSet":[1,2,3,4,5,6,7,8,9,10,11,12,13,14,15,16,17,18,19,20,21,22,23,24,25]}
"#;

const COMPLETION_LIST_CAPABILITY: &str = r#"
{"itemDefaults":["itemDefaults"]} :: CompletionListCapability { item_defaults: Some(["itemDefaults"]) }
?
! {"itemDefaults":"no"} :: itemDefaults: a list is wanted
# Visual Studio Code 1.78, by its public form
{"itemDefaults":["commitCharacters","editRange","insertTextFormat","insertTextMode"]}
"#;

const HOVER_CLIENT_CAPABILITIES: &str = r#"
{"contentFormat":["plaintext"],"dynamicRegistration":true} :: HoverClientCapabilities { dynamic_registration: Some(true), content_format: Some([PlainText]) }
?
! {"dynamicRegistration":"no"} :: dynamicRegistration: true or false is wanted
# Visual Studio Code 1.78, by its public form
{"contentFormat":["markdown","plaintext"],"dynamicRegistration":true}
# Neovim 0.7.2
{"contentFormat":["markdown","plaintext"],"dynamicRegistration":false}
"#;

const SIGNATURE_HELP_CLIENT_CAPABILITIES: &str = r#"
{"contextSupport":false,"dynamicRegistration":true,"signatureInformation":{"documentationFormat":["plaintext"]}} :: SignatureHelpClientCapabilities { dynamic_registration: Some(true), signature_information: Some(SignatureInformationSettings { documentation_format: Some([PlainText]), parameter_information: None, active_parameter_support: None }), context_support: Some(false) }
?
! {"dynamicRegistration":"no"} :: dynamicRegistration: true or false is wanted
# Visual Studio Code 1.78, by its public form
{"contextSupport":true,"dynamicRegistration":true,"signatureInformation":{"activeParameterSupport":true,"documentationFormat":["markdown","plaintext"],"parameterInformation":{"labelOffsetSupport":true}}}
# Neovim 0.7.2
{"dynamicRegistration":false,"signatureInformation":{"activeParameterSupport":true,"documentationFormat":["markdown","plaintext"],"parameterInformation":{"labelOffsetSupport":true}}}
"#;

const SIGNATURE_INFORMATION_SETTINGS: &str = r#"
{"activeParameterSupport":true,"documentationFormat":["plaintext"],"parameterInformation":{"labelOffsetSupport":true}} :: SignatureInformationSettings { documentation_format: Some([PlainText]), parameter_information: Some(ParameterInformationSettings { label_offset_support: Some(true) }), active_parameter_support: Some(true) }
?
! {"documentationFormat":"no"} :: documentationFormat: a list is wanted
# Visual Studio Code 1.78, by its public form
{"activeParameterSupport":true,"documentationFormat":["markdown","plaintext"],"parameterInformation":{"labelOffsetSupport":true}}
# Emacs 28.2 with eglot 1.9
{"activeParameterSupport":true,"parameterInformation":{"labelOffsetSupport":true}}
"#;

const PARAMETER_INFORMATION_SETTINGS: &str = r#"
{"labelOffsetSupport":true} :: ParameterInformationSettings { label_offset_support: Some(true) }
?
! {"labelOffsetSupport":"no"} :: labelOffsetSupport: true or false is wanted
# Visual Studio Code 1.78, by its public form
{"labelOffsetSupport":true}
"#;

const DOCUMENT_SYMBOL_CLIENT_CAPABILITIES: &str = r#"
{"dynamicRegistration":true,"hierarchicalDocumentSymbolSupport":false,"symbolKind":{"valueSet":[109]},"tagSupport":{"valueSet":[105]}} :: DocumentSymbolClientCapabilities { dynamic_registration: Some(true), symbol_kind: Some(SymbolKindCapability { value_set: Some([SymbolKind(109)]) }), hierarchical_document_symbol_support: Some(false), tag_support: Some(TagSupport { value_set: [SymbolTag(105)] }) }
?
! {"dynamicRegistration":"no"} :: dynamicRegistration: true or false is wanted
# Visual Studio Code 1.78, by its public form
{"dynamicRegistration":true,"hierarchicalDocumentSymbolSupport":true,"labelSupport":true,"symbolKind":{"valueSet":[1,2,3,4,5,6,7,8,9,10,11,12,13,14,15,16,17,18,19,20,21,22,23,24,25,26]},"tagSupport":{"valueSet":[1]}} => {"dynamicRegistration":true,"hierarchicalDocumentSymbolSupport":true,"symbolKind":{"valueSet":[1,2,3,4,5,6,7,8,9,10,11,12,13,14,15,16,17,18,19,20,21,22,23,24,25,26]},"tagSupport":{"valueSet":[1]}}
# Neovim 0.7.2
{"dynamicRegistration":false,"hierarchicalDocumentSymbolSupport":true,"symbolKind":{"valueSet":[1,2,3,4,5,6,7,8,9,10,11,12,13,14,15,16,17,18,19,20,21,22,23,24,25,26]}}
"#;

const CODE_ACTION_CLIENT_CAPABILITIES: &str = r#"
{"codeActionLiteralSupport":{"codeActionKind":{"valueSet":["valueSet"]}},"dataSupport":false,"disabledSupport":true,"dynamicRegistration":true,"honorsChangeAnnotations":false,"isPreferredSupport":true,"resolveSupport":{"properties":["properties"]}} :: CodeActionClientCapabilities { dynamic_registration: Some(true), code_action_literal_support: Some(CodeActionLiteralSupport { code_action_kind: CodeActionKindLiteralSupport { value_set: ["valueSet"] } }), is_preferred_support: Some(true), disabled_support: Some(true), data_support: Some(false), resolve_support: Some(CodeActionCapabilityResolveSupport { properties: ["properties"] }), honors_change_annotations: Some(false) }
?
{"codeActionLiteralSupport":{"codeActionKind":{"valueSet":["valueSet"]}},"dataSupport":true,"dynamicRegistration":true,"honorsChangeAnnotations":false,"isPreferredSupport":false,"resolveSupport":{"properties":["properties"]}} :: CodeActionClientCapabilities { dynamic_registration: Some(true), code_action_literal_support: Some(CodeActionLiteralSupport { code_action_kind: CodeActionKindLiteralSupport { value_set: ["valueSet"] } }), is_preferred_support: Some(false), disabled_support: None, data_support: Some(true), resolve_support: Some(CodeActionCapabilityResolveSupport { properties: ["properties"] }), honors_change_annotations: Some(false) }
! {"dynamicRegistration":"no"} :: dynamicRegistration: true or false is wanted
# Visual Studio Code 1.78, by its public form
{"codeActionLiteralSupport":{"codeActionKind":{"valueSet":["","quickfix","refactor","refactor.extract","refactor.inline","refactor.rewrite","source","source.organizeImports"]}},"dataSupport":true,"disabledSupport":true,"dynamicRegistration":true,"honorsChangeAnnotations":false,"isPreferredSupport":true,"resolveSupport":{"properties":["edit"]}}
# Neovim 0.7.2
{"codeActionLiteralSupport":{"codeActionKind":{"valueSet":["","Empty","QuickFix","Refactor","RefactorExtract","RefactorInline","RefactorRewrite","Source","SourceOrganizeImports","quickfix","refactor","refactor.extract","refactor.inline","refactor.rewrite","source","source.organizeImports"]}},"dataSupport":true,"dynamicRegistration":false,"resolveSupport":{"properties":["edit"]}}
"#;

const CODE_ACTION_CAPABILITY_RESOLVE_SUPPORT: &str = r#"
{"properties":["properties"]} :: CodeActionCapabilityResolveSupport { properties: ["properties"] }
? properties
! {} :: properties: is missing
# Visual Studio Code 1.78, by its public form
{"properties":["edit"]}
"#;

const CODE_ACTION_LITERAL_SUPPORT: &str = r#"
{"codeActionKind":{"valueSet":["valueSet"]}} :: CodeActionLiteralSupport { code_action_kind: CodeActionKindLiteralSupport { value_set: ["valueSet"] } }
? codeActionKind
! {} :: codeActionKind: is missing
# Visual Studio Code 1.78, by its public form
{"codeActionKind":{"valueSet":["","quickfix","refactor","refactor.extract","refactor.inline","refactor.rewrite","source","source.organizeImports"]}}
# Neovim 0.7.2
{"codeActionKind":{"valueSet":["","Empty","QuickFix","Refactor","RefactorExtract","RefactorInline","RefactorRewrite","Source","SourceOrganizeImports","quickfix","refactor","refactor.extract","refactor.inline","refactor.rewrite","source","source.organizeImports"]}}
"#;

const CODE_ACTION_KIND_LITERAL_SUPPORT: &str = r#"
{"valueSet":["valueSet"]} :: CodeActionKindLiteralSupport { value_set: ["valueSet"] }
? valueSet
! {} :: valueSet: is missing
# Visual Studio Code 1.78, by its public form
{"valueSet":["","quickfix","refactor","refactor.extract","refactor.inline","refactor.rewrite","source","source.organizeImports"]}
# Neovim 0.7.2
{"valueSet":["","Empty","QuickFix","Refactor","RefactorExtract","RefactorInline","RefactorRewrite","Source","SourceOrganizeImports","quickfix","refactor","refactor.extract","refactor.inline","refactor.rewrite","source","source.organizeImports"]}
"#;

const DOCUMENT_LINK_CLIENT_CAPABILITIES: &str = r#"
{"dynamicRegistration":true,"tooltipSupport":false} :: DocumentLinkClientCapabilities { dynamic_registration: Some(true), tooltip_support: Some(false) }
?
! {"dynamicRegistration":"no"} :: dynamicRegistration: true or false is wanted
# Visual Studio Code 1.78, by its public form
{"dynamicRegistration":true,"tooltipSupport":true}
"#;

const RENAME_CLIENT_CAPABILITIES: &str = r#"
{"dynamicRegistration":true,"honorsChangeAnnotations":true,"prepareSupport":true,"prepareSupportDefaultBehavior":129} :: RenameClientCapabilities { dynamic_registration: Some(true), prepare_support: Some(true), prepare_support_default_behavior: Some(PrepareSupportDefaultBehavior(129)), honors_change_annotations: Some(true) }
?
{"dynamicRegistration":true,"prepareSupport":false,"prepareSupportDefaultBehavior":129} :: RenameClientCapabilities { dynamic_registration: Some(true), prepare_support: Some(false), prepare_support_default_behavior: Some(PrepareSupportDefaultBehavior(129)), honors_change_annotations: None }
! {"dynamicRegistration":"no"} :: dynamicRegistration: true or false is wanted
# Visual Studio Code 1.78, by its public form
{"dynamicRegistration":true,"honorsChangeAnnotations":true,"prepareSupport":true,"prepareSupportDefaultBehavior":1}
# Neovim 0.7.2
{"dynamicRegistration":false,"prepareSupport":true}
"#;

const PUBLISH_DIAGNOSTICS_CLIENT_CAPABILITIES: &str = r#"
{"codeDescriptionSupport":true,"dataSupport":false,"relatedInformation":true,"tagSupport":{"valueSet":[105]},"versionSupport":true} :: PublishDiagnosticsClientCapabilities { related_information: Some(true), tag_support: Some(TagSupport { value_set: [DiagnosticTag(105)] }), version_support: Some(true), code_description_support: Some(true), data_support: Some(false) }
?
{"dataSupport":true,"relatedInformation":true,"tagSupport":{"valueSet":[105]},"versionSupport":false} :: PublishDiagnosticsClientCapabilities { related_information: Some(true), tag_support: Some(TagSupport { value_set: [DiagnosticTag(105)] }), version_support: Some(false), code_description_support: None, data_support: Some(true) }
! {"relatedInformation":"no"} :: relatedInformation: true or false is wanted
# Visual Studio Code 1.78, by its public form
{"codeDescriptionSupport":true,"dataSupport":true,"relatedInformation":true,"tagSupport":{"valueSet":[1,2]},"versionSupport":false}
# Neovim 0.7.2
{"relatedInformation":true,"tagSupport":{"valueSet":[1,2]}}
"#;

const DIAGNOSTIC_CLIENT_CAPABILITIES: &str = r#"
{"dynamicRegistration":true,"relatedDocumentSupport":false} :: DiagnosticClientCapabilities { dynamic_registration: Some(true), related_document_support: Some(false) }
?
! {"dynamicRegistration":"no"} :: dynamicRegistration: true or false is wanted
# Visual Studio Code 1.78, by its public form
{"dynamicRegistration":true,"relatedDocumentSupport":false}
"#;

const FOLDING_RANGE_CLIENT_CAPABILITIES: &str = r#"
{"dynamicRegistration":true,"foldingRange":{"collapsedText":true},"foldingRangeKind":{"valueSet":["comment"]},"lineFoldingOnly":false,"rangeLimit":3} :: FoldingRangeClientCapabilities { dynamic_registration: Some(true), range_limit: Some(3), line_folding_only: Some(false), folding_range_kind: Some(FoldingRangeKindCapability { value_set: Some([Comment]) }), folding_range: Some(FoldingRangeCapability { collapsed_text: Some(true) }) }
?
! {"dynamicRegistration":"no"} :: dynamicRegistration: true or false is wanted
# Visual Studio Code 1.78, by its public form
{"dynamicRegistration":true,"foldingRange":{"collapsedText":false},"foldingRangeKind":{"valueSet":["comment","imports","region"]},"lineFoldingOnly":true,"rangeLimit":5000}
"#;

const FOLDING_RANGE_KIND_CAPABILITY: &str = r#"
{"valueSet":["comment"]} :: FoldingRangeKindCapability { value_set: Some([Comment]) }
?
! {"valueSet":"no"} :: valueSet: a list is wanted
# Visual Studio Code 1.78, by its public form
{"valueSet":["comment","imports","region"]}
# LSP 3.17 allows this, lsp-types doesn't read it
! {"valueSet":["function"]} :: valueSet[0]: one of its texts is wanted
"#;

const FOLDING_RANGE_CAPABILITY: &str = r#"
{"collapsedText":true} :: FoldingRangeCapability { collapsed_text: Some(true) }
?
! {"collapsedText":"no"} :: collapsedText: true or false is wanted
# Visual Studio Code 1.78, by its public form
{"collapsedText":false}
"#;

const SELECTION_RANGE_CLIENT_CAPABILITIES: &str = r#"
{"dynamicRegistration":true} :: SelectionRangeClientCapabilities { dynamic_registration: Some(true) }
?
! {"dynamicRegistration":"no"} :: dynamicRegistration: true or false is wanted
# Visual Studio Code 1.78, by its public form
{"dynamicRegistration":true}
"#;

const SEMANTIC_TOKENS_CLIENT_CAPABILITIES: &str = r#"
{"augmentsSyntaxTokens":false,"dynamicRegistration":true,"formats":["formats"],"multilineTokenSupport":true,"overlappingTokenSupport":true,"requests":{"range":true},"serverCancelSupport":false,"tokenModifiers":["tokenModifiers"],"tokenTypes":["tokenTypes"]} :: SemanticTokensClientCapabilities { dynamic_registration: Some(true), requests: SemanticTokensClientCapabilitiesRequests { range: Some(true), full: None }, token_types: [SemanticTokenType("tokenTypes")], token_modifiers: [SemanticTokenModifier("tokenModifiers")], formats: [TokenFormat("formats")], overlapping_token_support: Some(true), multiline_token_support: Some(true), server_cancel_support: Some(false), augments_syntax_tokens: Some(false) }
? requests tokenTypes tokenModifiers formats
{"augmentsSyntaxTokens":false,"dynamicRegistration":true,"formats":["formats"],"overlappingTokenSupport":false,"requests":{"range":true},"serverCancelSupport":true,"tokenModifiers":["tokenModifiers"],"tokenTypes":["tokenTypes"]} :: SemanticTokensClientCapabilities { dynamic_registration: Some(true), requests: SemanticTokensClientCapabilitiesRequests { range: Some(true), full: None }, token_types: [SemanticTokenType("tokenTypes")], token_modifiers: [SemanticTokenModifier("tokenModifiers")], formats: [TokenFormat("formats")], overlapping_token_support: Some(false), multiline_token_support: None, server_cancel_support: Some(true), augments_syntax_tokens: Some(false) }
! {"dynamicRegistration":true,"formats":["formats"],"tokenModifiers":["tokenModifiers"],"tokenTypes":["tokenTypes"]} :: requests: is missing
# Visual Studio Code 1.78, by its public form
{"augmentsSyntaxTokens":true,"dynamicRegistration":true,"formats":["relative"],"multilineTokenSupport":false,"overlappingTokenSupport":false,"requests":{"full":{"delta":true},"range":true},"serverCancelSupport":true,"tokenModifiers":["declaration","definition","readonly","static","deprecated","abstract","async","modification","documentation","defaultLibrary"],"tokenTypes":["namespace","type","class","enum","interface","struct","typeParameter","parameter","variable","property","enumMember","event","function","method","macro","keyword","modifier","comment","string","number","regexp","operator","decorator"]}
"#;

const SEMANTIC_TOKENS_CLIENT_CAPABILITIES_REQUESTS: &str = r#"
{"full":true,"range":true} :: SemanticTokensClientCapabilitiesRequests { range: Some(true), full: Some(Bool(true)) }
?
! {"range":"no"} :: range: true or false is wanted
# Visual Studio Code 1.78, by its public form
{"full":{"delta":true},"range":true}
# LSP 3.17 allows this, lsp-types doesn't read it
! {"range":{}} :: range: true or false is wanted
# Members of other types that read alike
{"full":true} :: SemanticTokensClientCapabilitiesRequests { range: None, full: Some(Bool(true)) }
"#;

const INLAY_HINT_CLIENT_CAPABILITIES: &str = r#"
{"dynamicRegistration":true,"resolveSupport":{"properties":["properties"]}} :: InlayHintClientCapabilities { dynamic_registration: Some(true), resolve_support: Some(InlayHintResolveClientCapabilities { properties: ["properties"] }) }
?
! {"dynamicRegistration":"no"} :: dynamicRegistration: true or false is wanted
# Visual Studio Code 1.78, by its public form
{"dynamicRegistration":true,"resolveSupport":{"properties":["tooltip","textEdits","label.tooltip","label.location","label.command"]}}
"#;

const INLAY_HINT_RESOLVE_CLIENT_CAPABILITIES: &str = r#"
{"properties":["properties"]} :: InlayHintResolveClientCapabilities { properties: ["properties"] }
? properties
! {} :: properties: is missing
# Visual Studio Code 1.78, by its public form
{"properties":["tooltip","textEdits","label.tooltip","label.location","label.command"]}
"#;

const TEXT_DOCUMENT_CLIENT_CAPABILITIES: &str = r#"
{"callHierarchy":{"dynamicRegistration":true},"codeAction":{"dynamicRegistration":true},"codeLens":{"dynamicRegistration":true},"colorProvider":{"dynamicRegistration":true},"completion":{"dynamicRegistration":true},"declaration":{"dynamicRegistration":true},"definition":{"dynamicRegistration":false},"diagnostic":{"dynamicRegistration":true},"documentHighlight":{"dynamicRegistration":true},"documentLink":{"dynamicRegistration":true},"documentSymbol":{"dynamicRegistration":true},"foldingRange":{"dynamicRegistration":true},"formatting":{"dynamicRegistration":true},"hover":{"dynamicRegistration":true},"implementation":{"linkSupport":true},"inlayHint":{"dynamicRegistration":true},"inlineValue":{"dynamicRegistration":true},"linkedEditingRange":{"dynamicRegistration":true},"moniker":{"dynamicRegistration":true},"onTypeFormatting":{"dynamicRegistration":true},"publishDiagnostics":{"relatedInformation":true},"rangeFormatting":{"dynamicRegistration":true},"references":{"dynamicRegistration":true},"rename":{"dynamicRegistration":true},"selectionRange":{"dynamicRegistration":true},"semanticTokens":{"dynamicRegistration":true,"formats":["formats"],"requests":{"range":true},"tokenModifiers":["tokenModifiers"],"tokenTypes":["tokenTypes"]},"signatureHelp":{"dynamicRegistration":true},"synchronization":{"dynamicRegistration":true},"typeDefinition":{},"typeHierarchy":{"dynamicRegistration":true}} :: TextDocumentClientCapabilities { synchronization: Some(TextDocumentSyncClientCapabilities { dynamic_registration: Some(true), will_save: None, will_save_wait_until: None, did_save: None }), completion: Some(CompletionClientCapabilities { dynamic_registration: Some(true), completion_item: None, completion_item_kind: None, context_support: None, insert_text_mode: None, completion_list: None }), hover: Some(HoverClientCapabilities { dynamic_registration: Some(true), content_format: None }), signature_help: Some(SignatureHelpClientCapabilities { dynamic_registration: Some(true), signature_information: None, context_support: None }), references: Some(DynamicRegistrationClientCapabilities { dynamic_registration: Some(true) }), document_highlight: Some(DynamicRegistrationClientCapabilities { dynamic_registration: Some(true) }), document_symbol: Some(DocumentSymbolClientCapabilities { dynamic_registration: Some(true), symbol_kind: None, hierarchical_document_symbol_support: None, tag_support: None }), formatting: Some(DynamicRegistrationClientCapabilities { dynamic_registration: Some(true) }), range_formatting: Some(DynamicRegistrationClientCapabilities { dynamic_registration: Some(true) }), on_type_formatting: Some(DynamicRegistrationClientCapabilities { dynamic_registration: Some(true) }), declaration: Some(GotoCapability { dynamic_registration: Some(true), link_support: None }), definition: Some(GotoCapability { dynamic_registration: Some(false), link_support: None }), type_definition: Some(GotoCapability { dynamic_registration: None, link_support: None }), implementation: Some(GotoCapability { dynamic_registration: None, link_support: Some(true) }), code_action: Some(CodeActionClientCapabilities { dynamic_registration: Some(true), code_action_literal_support: None, is_preferred_support: None, disabled_support: None, data_support: None, resolve_support: None, honors_change_annotations: None }), code_lens: Some(DynamicRegistrationClientCapabilities { dynamic_registration: Some(true) }), document_link: Some(DocumentLinkClientCapabilities { dynamic_registration: Some(true), tooltip_support: None }), color_provider: Some(DynamicRegistrationClientCapabilities { dynamic_registration: Some(true) }), rename: Some(RenameClientCapabilities { dynamic_registration: Some(true), prepare_support: None, prepare_support_default_behavior: None, honors_change_annotations: None }), publish_diagnostics: Some(PublishDiagnosticsClientCapabilities { related_information: Some(true), tag_support: None, version_support: None, code_description_support: None, data_support: None }), folding_range: Some(FoldingRangeClientCapabilities { dynamic_registration: Some(true), range_limit: None, line_folding_only: None, folding_range_kind: None, folding_range: None }), selection_range: Some(SelectionRangeClientCapabilities { dynamic_registration: Some(true) }), linked_editing_range: Some(DynamicRegistrationClientCapabilities { dynamic_registration: Some(true) }), call_hierarchy: Some(DynamicRegistrationClientCapabilities { dynamic_registration: Some(true) }), semantic_tokens: Some(SemanticTokensClientCapabilities { dynamic_registration: Some(true), requests: SemanticTokensClientCapabilitiesRequests { range: Some(true), full: None }, token_types: [SemanticTokenType("tokenTypes")], token_modifiers: [SemanticTokenModifier("tokenModifiers")], formats: [TokenFormat("formats")], overlapping_token_support: None, multiline_token_support: None, server_cancel_support: None, augments_syntax_tokens: None }), moniker: Some(DynamicRegistrationClientCapabilities { dynamic_registration: Some(true) }), type_hierarchy: Some(DynamicRegistrationClientCapabilities { dynamic_registration: Some(true) }), inline_value: Some(DynamicRegistrationClientCapabilities { dynamic_registration: Some(true) }), inlay_hint: Some(InlayHintClientCapabilities { dynamic_registration: Some(true), resolve_support: None }), diagnostic: Some(DiagnosticClientCapabilities { dynamic_registration: Some(true), related_document_support: None }) }
?
! {"synchronization":"no"} :: synchronization: an object is wanted
# Visual Studio Code 1.78, by its public form
{"callHierarchy":{"dynamicRegistration":true},"codeAction":{"codeActionLiteralSupport":{"codeActionKind":{"valueSet":["","quickfix","refactor","refactor.extract","refactor.inline","refactor.rewrite","source","source.organizeImports"]}},"dataSupport":true,"disabledSupport":true,"dynamicRegistration":true,"honorsChangeAnnotations":false,"isPreferredSupport":true,"resolveSupport":{"properties":["edit"]}},"codeLens":{"dynamicRegistration":true},"colorProvider":{"dynamicRegistration":true},"completion":{"completionItem":{"commitCharactersSupport":true,"deprecatedSupport":true,"documentationFormat":["markdown","plaintext"],"insertReplaceSupport":true,"insertTextModeSupport":{"valueSet":[1,2]},"labelDetailsSupport":true,"preselectSupport":true,"resolveSupport":{"properties":["documentation","detail","additionalTextEdits"]},"snippetSupport":true,"tagSupport":{"valueSet":[1]}},"completionItemKind":{"valueSet":[1,2,3,4,5,6,7,8,9,10,11,12,13,14,15,16,17,18,19,20,21,22,23,24,25]},"completionList":{"itemDefaults":["commitCharacters","editRange","insertTextFormat","insertTextMode"]},"contextSupport":true,"dynamicRegistration":true,"insertTextMode":2},"declaration":{"dynamicRegistration":true,"linkSupport":true},"definition":{"dynamicRegistration":true,"linkSupport":true},"diagnostic":{"dynamicRegistration":true,"relatedDocumentSupport":false},"documentHighlight":{"dynamicRegistration":true},"documentLink":{"dynamicRegistration":true,"tooltipSupport":true},"documentSymbol":{"dynamicRegistration":true,"hierarchicalDocumentSymbolSupport":true,"labelSupport":true,"symbolKind":{"valueSet":[1,2,3,4,5,6,7,8,9,10,11,12,13,14,15,16,17,18,19,20,21,22,23,24,25,26]},"tagSupport":{"valueSet":[1]}},"foldingRange":{"dynamicRegistration":true,"foldingRange":{"collapsedText":false},"foldingRangeKind":{"valueSet":["comment","imports","region"]},"lineFoldingOnly":true,"rangeLimit":5000},"formatting":{"dynamicRegistration":true},"hover":{"contentFormat":["markdown","plaintext"],"dynamicRegistration":true},"implementation":{"dynamicRegistration":true,"linkSupport":true},"inlayHint":{"dynamicRegistration":true,"resolveSupport":{"properties":["tooltip","textEdits","label.tooltip","label.location","label.command"]}},"inlineValue":{"dynamicRegistration":true},"linkedEditingRange":{"dynamicRegistration":true},"onTypeFormatting":{"dynamicRegistration":true},"publishDiagnostics":{"codeDescriptionSupport":true,"dataSupport":true,"relatedInformation":true,"tagSupport":{"valueSet":[1,2]},"versionSupport":false},"rangeFormatting":{"dynamicRegistration":true},"references":{"dynamicRegistration":true},"rename":{"dynamicRegistration":true,"honorsChangeAnnotations":true,"prepareSupport":true,"prepareSupportDefaultBehavior":1},"selectionRange":{"dynamicRegistration":true},"semanticTokens":{"augmentsSyntaxTokens":true,"dynamicRegistration":true,"formats":["relative"],"multilineTokenSupport":false,"overlappingTokenSupport":false,"requests":{"full":{"delta":true},"range":true},"serverCancelSupport":true,"tokenModifiers":["declaration","definition","readonly","static","deprecated","abstract","async","modification","documentation","defaultLibrary"],"tokenTypes":["namespace","type","class","enum","interface","struct","typeParameter","parameter","variable","property","enumMember","event","function","method","macro","keyword","modifier","comment","string","number","regexp","operator","decorator"]},"signatureHelp":{"contextSupport":true,"dynamicRegistration":true,"signatureInformation":{"activeParameterSupport":true,"documentationFormat":["markdown","plaintext"],"parameterInformation":{"labelOffsetSupport":true}}},"synchronization":{"didSave":true,"dynamicRegistration":true,"willSave":true,"willSaveWaitUntil":true},"typeDefinition":{"dynamicRegistration":true,"linkSupport":true},"typeHierarchy":{"dynamicRegistration":true}} => {"callHierarchy":{"dynamicRegistration":true},"codeAction":{"codeActionLiteralSupport":{"codeActionKind":{"valueSet":["","quickfix","refactor","refactor.extract","refactor.inline","refactor.rewrite","source","source.organizeImports"]}},"dataSupport":true,"disabledSupport":true,"dynamicRegistration":true,"honorsChangeAnnotations":false,"isPreferredSupport":true,"resolveSupport":{"properties":["edit"]}},"codeLens":{"dynamicRegistration":true},"colorProvider":{"dynamicRegistration":true},"completion":{"completionItem":{"commitCharactersSupport":true,"deprecatedSupport":true,"documentationFormat":["markdown","plaintext"],"insertReplaceSupport":true,"insertTextModeSupport":{"valueSet":[1,2]},"labelDetailsSupport":true,"preselectSupport":true,"resolveSupport":{"properties":["documentation","detail","additionalTextEdits"]},"snippetSupport":true,"tagSupport":{"valueSet":[1]}},"completionItemKind":{"valueSet":[1,2,3,4,5,6,7,8,9,10,11,12,13,14,15,16,17,18,19,20,21,22,23,24,25]},"completionList":{"itemDefaults":["commitCharacters","editRange","insertTextFormat","insertTextMode"]},"contextSupport":true,"dynamicRegistration":true,"insertTextMode":2},"declaration":{"dynamicRegistration":true,"linkSupport":true},"definition":{"dynamicRegistration":true,"linkSupport":true},"diagnostic":{"dynamicRegistration":true,"relatedDocumentSupport":false},"documentHighlight":{"dynamicRegistration":true},"documentLink":{"dynamicRegistration":true,"tooltipSupport":true},"documentSymbol":{"dynamicRegistration":true,"hierarchicalDocumentSymbolSupport":true,"symbolKind":{"valueSet":[1,2,3,4,5,6,7,8,9,10,11,12,13,14,15,16,17,18,19,20,21,22,23,24,25,26]},"tagSupport":{"valueSet":[1]}},"foldingRange":{"dynamicRegistration":true,"foldingRange":{"collapsedText":false},"foldingRangeKind":{"valueSet":["comment","imports","region"]},"lineFoldingOnly":true,"rangeLimit":5000},"formatting":{"dynamicRegistration":true},"hover":{"contentFormat":["markdown","plaintext"],"dynamicRegistration":true},"implementation":{"dynamicRegistration":true,"linkSupport":true},"inlayHint":{"dynamicRegistration":true,"resolveSupport":{"properties":["tooltip","textEdits","label.tooltip","label.location","label.command"]}},"inlineValue":{"dynamicRegistration":true},"linkedEditingRange":{"dynamicRegistration":true},"onTypeFormatting":{"dynamicRegistration":true},"publishDiagnostics":{"codeDescriptionSupport":true,"dataSupport":true,"relatedInformation":true,"tagSupport":{"valueSet":[1,2]},"versionSupport":false},"rangeFormatting":{"dynamicRegistration":true},"references":{"dynamicRegistration":true},"rename":{"dynamicRegistration":true,"honorsChangeAnnotations":true,"prepareSupport":true,"prepareSupportDefaultBehavior":1},"selectionRange":{"dynamicRegistration":true},"semanticTokens":{"augmentsSyntaxTokens":true,"dynamicRegistration":true,"formats":["relative"],"multilineTokenSupport":false,"overlappingTokenSupport":false,"requests":{"full":{"delta":true},"range":true},"serverCancelSupport":true,"tokenModifiers":["declaration","definition","readonly","static","deprecated","abstract","async","modification","documentation","defaultLibrary"],"tokenTypes":["namespace","type","class","enum","interface","struct","typeParameter","parameter","variable","property","enumMember","event","function","method","macro","keyword","modifier","comment","string","number","regexp","operator","decorator"]},"signatureHelp":{"contextSupport":true,"dynamicRegistration":true,"signatureInformation":{"activeParameterSupport":true,"documentationFormat":["markdown","plaintext"],"parameterInformation":{"labelOffsetSupport":true}}},"synchronization":{"didSave":true,"dynamicRegistration":true,"willSave":true,"willSaveWaitUntil":true},"typeDefinition":{"dynamicRegistration":true,"linkSupport":true},"typeHierarchy":{"dynamicRegistration":true}}
# Neovim 0.7.2
{"codeAction":{"codeActionLiteralSupport":{"codeActionKind":{"valueSet":["","Empty","QuickFix","Refactor","RefactorExtract","RefactorInline","RefactorRewrite","Source","SourceOrganizeImports","quickfix","refactor","refactor.extract","refactor.inline","refactor.rewrite","source","source.organizeImports"]}},"dataSupport":true,"dynamicRegistration":false,"resolveSupport":{"properties":["edit"]}},"completion":{"completionItem":{"commitCharactersSupport":false,"deprecatedSupport":false,"documentationFormat":["markdown","plaintext"],"preselectSupport":false,"snippetSupport":false},"completionItemKind":{"valueSet":[1,2,3,4,5,6,7,8,9,10,11,12,13,14,15,16,17,18,19,20,21,22,23,24,25]},"contextSupport":false,"dynamicRegistration":false},"declaration":{"linkSupport":true},"definition":{"linkSupport":true},"documentHighlight":{"dynamicRegistration":false},"documentSymbol":{"dynamicRegistration":false,"hierarchicalDocumentSymbolSupport":true,"symbolKind":{"valueSet":[1,2,3,4,5,6,7,8,9,10,11,12,13,14,15,16,17,18,19,20,21,22,23,24,25,26]}},"hover":{"contentFormat":["markdown","plaintext"],"dynamicRegistration":false},"implementation":{"linkSupport":true},"publishDiagnostics":{"relatedInformation":true,"tagSupport":{"valueSet":[1,2]}},"references":{"dynamicRegistration":false},"rename":{"dynamicRegistration":false,"prepareSupport":true},"signatureHelp":{"dynamicRegistration":false,"signatureInformation":{"activeParameterSupport":true,"documentationFormat":["markdown","plaintext"],"parameterInformation":{"labelOffsetSupport":true}}},"synchronization":{"didSave":true,"dynamicRegistration":false,"willSave":false,"willSaveWaitUntil":false},"typeDefinition":{"linkSupport":true}}
# Members of other types that read alike
{"codeAction":{"dynamicRegistration":true},"declaration":{"dynamicRegistration":true},"documentLink":{"dynamicRegistration":true},"documentSymbol":{"dynamicRegistration":true},"foldingRange":{"dynamicRegistration":true},"hover":{"dynamicRegistration":true},"inlayHint":{"dynamicRegistration":true},"linkedEditingRange":{"dynamicRegistration":true},"rangeFormatting":{"dynamicRegistration":true},"references":{"dynamicRegistration":true},"rename":{"dynamicRegistration":true},"semanticTokens":{"dynamicRegistration":true,"formats":["formats"],"requests":{"range":true},"tokenModifiers":["tokenModifiers"],"tokenTypes":["tokenTypes"]},"synchronization":{"dynamicRegistration":true},"typeDefinition":{"dynamicRegistration":true},"typeHierarchy":{"dynamicRegistration":true}} :: TextDocumentClientCapabilities { synchronization: Some(TextDocumentSyncClientCapabilities { dynamic_registration: Some(true), will_save: None, will_save_wait_until: None, did_save: None }), completion: None, hover: Some(HoverClientCapabilities { dynamic_registration: Some(true), content_format: None }), signature_help: None, references: Some(DynamicRegistrationClientCapabilities { dynamic_registration: Some(true) }), document_highlight: None, document_symbol: Some(DocumentSymbolClientCapabilities { dynamic_registration: Some(true), symbol_kind: None, hierarchical_document_symbol_support: None, tag_support: None }), formatting: None, range_formatting: Some(DynamicRegistrationClientCapabilities { dynamic_registration: Some(true) }), on_type_formatting: None, declaration: Some(GotoCapability { dynamic_registration: Some(true), link_support: None }), definition: None, type_definition: Some(GotoCapability { dynamic_registration: Some(true), link_support: None }), implementation: None, code_action: Some(CodeActionClientCapabilities { dynamic_registration: Some(true), code_action_literal_support: None, is_preferred_support: None, disabled_support: None, data_support: None, resolve_support: None, honors_change_annotations: None }), code_lens: None, document_link: Some(DocumentLinkClientCapabilities { dynamic_registration: Some(true), tooltip_support: None }), color_provider: None, rename: Some(RenameClientCapabilities { dynamic_registration: Some(true), prepare_support: None, prepare_support_default_behavior: None, honors_change_annotations: None }), publish_diagnostics: None, folding_range: Some(FoldingRangeClientCapabilities { dynamic_registration: Some(true), range_limit: None, line_folding_only: None, folding_range_kind: None, folding_range: None }), selection_range: None, linked_editing_range: Some(DynamicRegistrationClientCapabilities { dynamic_registration: Some(true) }), call_hierarchy: None, semantic_tokens: Some(SemanticTokensClientCapabilities { dynamic_registration: Some(true), requests: SemanticTokensClientCapabilitiesRequests { range: Some(true), full: None }, token_types: [SemanticTokenType("tokenTypes")], token_modifiers: [SemanticTokenModifier("tokenModifiers")], formats: [TokenFormat("formats")], overlapping_token_support: None, multiline_token_support: None, server_cancel_support: None, augments_syntax_tokens: None }), moniker: None, type_hierarchy: Some(DynamicRegistrationClientCapabilities { dynamic_registration: Some(true) }), inline_value: None, inlay_hint: Some(InlayHintClientCapabilities { dynamic_registration: Some(true), resolve_support: None }), diagnostic: None }
{"codeAction":{"dynamicRegistration":true},"colorProvider":{"dynamicRegistration":true},"completion":{"dynamicRegistration":true},"declaration":{"dynamicRegistration":true},"diagnostic":{"dynamicRegistration":true},"documentHighlight":{"dynamicRegistration":true},"documentSymbol":{"dynamicRegistration":true},"hover":{"dynamicRegistration":true},"implementation":{"dynamicRegistration":true},"linkedEditingRange":{"dynamicRegistration":true},"moniker":{"dynamicRegistration":true},"onTypeFormatting":{"dynamicRegistration":true},"rename":{"dynamicRegistration":true},"selectionRange":{"dynamicRegistration":true},"typeHierarchy":{"dynamicRegistration":true}} :: TextDocumentClientCapabilities { synchronization: None, completion: Some(CompletionClientCapabilities { dynamic_registration: Some(true), completion_item: None, completion_item_kind: None, context_support: None, insert_text_mode: None, completion_list: None }), hover: Some(HoverClientCapabilities { dynamic_registration: Some(true), content_format: None }), signature_help: None, references: None, document_highlight: Some(DynamicRegistrationClientCapabilities { dynamic_registration: Some(true) }), document_symbol: Some(DocumentSymbolClientCapabilities { dynamic_registration: Some(true), symbol_kind: None, hierarchical_document_symbol_support: None, tag_support: None }), formatting: None, range_formatting: None, on_type_formatting: Some(DynamicRegistrationClientCapabilities { dynamic_registration: Some(true) }), declaration: Some(GotoCapability { dynamic_registration: Some(true), link_support: None }), definition: None, type_definition: None, implementation: Some(GotoCapability { dynamic_registration: Some(true), link_support: None }), code_action: Some(CodeActionClientCapabilities { dynamic_registration: Some(true), code_action_literal_support: None, is_preferred_support: None, disabled_support: None, data_support: None, resolve_support: None, honors_change_annotations: None }), code_lens: None, document_link: None, color_provider: Some(DynamicRegistrationClientCapabilities { dynamic_registration: Some(true) }), rename: Some(RenameClientCapabilities { dynamic_registration: Some(true), prepare_support: None, prepare_support_default_behavior: None, honors_change_annotations: None }), publish_diagnostics: None, folding_range: None, selection_range: Some(SelectionRangeClientCapabilities { dynamic_registration: Some(true) }), linked_editing_range: Some(DynamicRegistrationClientCapabilities { dynamic_registration: Some(true) }), call_hierarchy: None, semantic_tokens: None, moniker: Some(DynamicRegistrationClientCapabilities { dynamic_registration: Some(true) }), type_hierarchy: Some(DynamicRegistrationClientCapabilities { dynamic_registration: Some(true) }), inline_value: None, inlay_hint: None, diagnostic: Some(DiagnosticClientCapabilities { dynamic_registration: Some(true), related_document_support: None }) }
{"codeAction":{"dynamicRegistration":true},"definition":{"dynamicRegistration":true},"diagnostic":{"dynamicRegistration":true},"documentHighlight":{"dynamicRegistration":true},"documentSymbol":{"dynamicRegistration":true},"foldingRange":{"dynamicRegistration":true},"implementation":{"dynamicRegistration":true},"inlayHint":{"dynamicRegistration":true},"inlineValue":{"dynamicRegistration":true},"linkedEditingRange":{"dynamicRegistration":true},"publishDiagnostics":{"relatedInformation":true},"references":{"dynamicRegistration":true},"selectionRange":{"dynamicRegistration":true},"signatureHelp":{"dynamicRegistration":true},"typeDefinition":{"dynamicRegistration":true}} :: TextDocumentClientCapabilities { synchronization: None, completion: None, hover: None, signature_help: Some(SignatureHelpClientCapabilities { dynamic_registration: Some(true), signature_information: None, context_support: None }), references: Some(DynamicRegistrationClientCapabilities { dynamic_registration: Some(true) }), document_highlight: Some(DynamicRegistrationClientCapabilities { dynamic_registration: Some(true) }), document_symbol: Some(DocumentSymbolClientCapabilities { dynamic_registration: Some(true), symbol_kind: None, hierarchical_document_symbol_support: None, tag_support: None }), formatting: None, range_formatting: None, on_type_formatting: None, declaration: None, definition: Some(GotoCapability { dynamic_registration: Some(true), link_support: None }), type_definition: Some(GotoCapability { dynamic_registration: Some(true), link_support: None }), implementation: Some(GotoCapability { dynamic_registration: Some(true), link_support: None }), code_action: Some(CodeActionClientCapabilities { dynamic_registration: Some(true), code_action_literal_support: None, is_preferred_support: None, disabled_support: None, data_support: None, resolve_support: None, honors_change_annotations: None }), code_lens: None, document_link: None, color_provider: None, rename: None, publish_diagnostics: Some(PublishDiagnosticsClientCapabilities { related_information: Some(true), tag_support: None, version_support: None, code_description_support: None, data_support: None }), folding_range: Some(FoldingRangeClientCapabilities { dynamic_registration: Some(true), range_limit: None, line_folding_only: None, folding_range_kind: None, folding_range: None }), selection_range: Some(SelectionRangeClientCapabilities { dynamic_registration: Some(true) }), linked_editing_range: Some(DynamicRegistrationClientCapabilities { dynamic_registration: Some(true) }), call_hierarchy: None, semantic_tokens: None, moniker: None, type_hierarchy: None, inline_value: Some(DynamicRegistrationClientCapabilities { dynamic_registration: Some(true) }), inlay_hint: Some(InlayHintClientCapabilities { dynamic_registration: Some(true), resolve_support: None }), diagnostic: Some(DiagnosticClientCapabilities { dynamic_registration: Some(true), related_document_support: None }) }
{"callHierarchy":{"dynamicRegistration":true},"codeAction":{"dynamicRegistration":true},"declaration":{"dynamicRegistration":true},"definition":{"dynamicRegistration":true},"diagnostic":{"dynamicRegistration":true},"formatting":{"dynamicRegistration":true},"implementation":{"dynamicRegistration":true},"inlayHint":{"dynamicRegistration":true},"inlineValue":{"dynamicRegistration":true},"moniker":{"dynamicRegistration":true},"onTypeFormatting":{"dynamicRegistration":true},"rangeFormatting":{"dynamicRegistration":true},"semanticTokens":{"dynamicRegistration":true,"formats":["formats"],"requests":{"range":true},"tokenModifiers":["tokenModifiers"],"tokenTypes":["tokenTypes"]},"typeDefinition":{"dynamicRegistration":true},"typeHierarchy":{"dynamicRegistration":true}} :: TextDocumentClientCapabilities { synchronization: None, completion: None, hover: None, signature_help: None, references: None, document_highlight: None, document_symbol: None, formatting: Some(DynamicRegistrationClientCapabilities { dynamic_registration: Some(true) }), range_formatting: Some(DynamicRegistrationClientCapabilities { dynamic_registration: Some(true) }), on_type_formatting: Some(DynamicRegistrationClientCapabilities { dynamic_registration: Some(true) }), declaration: Some(GotoCapability { dynamic_registration: Some(true), link_support: None }), definition: Some(GotoCapability { dynamic_registration: Some(true), link_support: None }), type_definition: Some(GotoCapability { dynamic_registration: Some(true), link_support: None }), implementation: Some(GotoCapability { dynamic_registration: Some(true), link_support: None }), code_action: Some(CodeActionClientCapabilities { dynamic_registration: Some(true), code_action_literal_support: None, is_preferred_support: None, disabled_support: None, data_support: None, resolve_support: None, honors_change_annotations: None }), code_lens: None, document_link: None, color_provider: None, rename: None, publish_diagnostics: None, folding_range: None, selection_range: None, linked_editing_range: None, call_hierarchy: Some(DynamicRegistrationClientCapabilities { dynamic_registration: Some(true) }), semantic_tokens: Some(SemanticTokensClientCapabilities { dynamic_registration: Some(true), requests: SemanticTokensClientCapabilitiesRequests { range: Some(true), full: None }, token_types: [SemanticTokenType("tokenTypes")], token_modifiers: [SemanticTokenModifier("tokenModifiers")], formats: [TokenFormat("formats")], overlapping_token_support: None, multiline_token_support: None, server_cancel_support: None, augments_syntax_tokens: None }), moniker: Some(DynamicRegistrationClientCapabilities { dynamic_registration: Some(true) }), type_hierarchy: Some(DynamicRegistrationClientCapabilities { dynamic_registration: Some(true) }), inline_value: Some(DynamicRegistrationClientCapabilities { dynamic_registration: Some(true) }), inlay_hint: Some(InlayHintClientCapabilities { dynamic_registration: Some(true), resolve_support: None }), diagnostic: Some(DiagnosticClientCapabilities { dynamic_registration: Some(true), related_document_support: None }) }
{"callHierarchy":{"dynamicRegistration":true},"codeLens":{"dynamicRegistration":true},"colorProvider":{"dynamicRegistration":true},"diagnostic":{"dynamicRegistration":true},"documentLink":{"dynamicRegistration":true},"foldingRange":{"dynamicRegistration":true},"inlayHint":{"dynamicRegistration":true},"inlineValue":{"dynamicRegistration":true},"linkedEditingRange":{"dynamicRegistration":true},"moniker":{"dynamicRegistration":true},"publishDiagnostics":{"relatedInformation":true},"rename":{"dynamicRegistration":true},"selectionRange":{"dynamicRegistration":true},"semanticTokens":{"dynamicRegistration":true,"formats":["formats"],"requests":{"range":true},"tokenModifiers":["tokenModifiers"],"tokenTypes":["tokenTypes"]},"typeHierarchy":{"dynamicRegistration":true}} :: TextDocumentClientCapabilities { synchronization: None, completion: None, hover: None, signature_help: None, references: None, document_highlight: None, document_symbol: None, formatting: None, range_formatting: None, on_type_formatting: None, declaration: None, definition: None, type_definition: None, implementation: None, code_action: None, code_lens: Some(DynamicRegistrationClientCapabilities { dynamic_registration: Some(true) }), document_link: Some(DocumentLinkClientCapabilities { dynamic_registration: Some(true), tooltip_support: None }), color_provider: Some(DynamicRegistrationClientCapabilities { dynamic_registration: Some(true) }), rename: Some(RenameClientCapabilities { dynamic_registration: Some(true), prepare_support: None, prepare_support_default_behavior: None, honors_change_annotations: None }), publish_diagnostics: Some(PublishDiagnosticsClientCapabilities { related_information: Some(true), tag_support: None, version_support: None, code_description_support: None, data_support: None }), folding_range: Some(FoldingRangeClientCapabilities { dynamic_registration: Some(true), range_limit: None, line_folding_only: None, folding_range_kind: None, folding_range: None }), selection_range: Some(SelectionRangeClientCapabilities { dynamic_registration: Some(true) }), linked_editing_range: Some(DynamicRegistrationClientCapabilities { dynamic_registration: Some(true) }), call_hierarchy: Some(DynamicRegistrationClientCapabilities { dynamic_registration: Some(true) }), semantic_tokens: Some(SemanticTokensClientCapabilities { dynamic_registration: Some(true), requests: SemanticTokensClientCapabilitiesRequests { range: Some(true), full: None }, token_types: [SemanticTokenType("tokenTypes")], token_modifiers: [SemanticTokenModifier("tokenModifiers")], formats: [TokenFormat("formats")], overlapping_token_support: None, multiline_token_support: None, server_cancel_support: None, augments_syntax_tokens: None }), moniker: Some(DynamicRegistrationClientCapabilities { dynamic_registration: Some(true) }), type_hierarchy: Some(DynamicRegistrationClientCapabilities { dynamic_registration: Some(true) }), inline_value: Some(DynamicRegistrationClientCapabilities { dynamic_registration: Some(true) }), inlay_hint: Some(InlayHintClientCapabilities { dynamic_registration: Some(true), resolve_support: None }), diagnostic: Some(DiagnosticClientCapabilities { dynamic_registration: Some(true), related_document_support: None }) }
"#;

#[test]
fn rows_1(rt: HostRuntime) -> Result<(), RowError> {
    let mut trial = Trial::new(rt.alloc());
    trial.holds::<TextDocumentSyncClientCapabilities>(TEXT_DOCUMENT_SYNC_CLIENT_CAPABILITIES);
    trial.holds::<CompletionClientCapabilities>(COMPLETION_CLIENT_CAPABILITIES);
    trial.holds::<CompletionItemCapability>(COMPLETION_ITEM_CAPABILITY);
    trial.clones::<CompletionItemCapability>(COMPLETION_ITEM_CAPABILITY);
    trial.holds::<CompletionItemCapabilityResolveSupport>(
        COMPLETION_ITEM_CAPABILITY_RESOLVE_SUPPORT,
    );
    trial.holds::<InsertTextModeSupport>(INSERT_TEXT_MODE_SUPPORT);
    trial.holds::<CompletionItemKindCapability>(COMPLETION_ITEM_KIND_CAPABILITY);
    trial.holds::<CompletionListCapability>(COMPLETION_LIST_CAPABILITY);
    trial.holds::<HoverClientCapabilities>(HOVER_CLIENT_CAPABILITIES);
    trial.holds::<SignatureHelpClientCapabilities>(SIGNATURE_HELP_CLIENT_CAPABILITIES);
    trial.holds::<SignatureInformationSettings>(SIGNATURE_INFORMATION_SETTINGS);
    trial.holds::<ParameterInformationSettings>(PARAMETER_INFORMATION_SETTINGS);
    trial.holds::<DocumentSymbolClientCapabilities>(DOCUMENT_SYMBOL_CLIENT_CAPABILITIES);
    trial.end()
}

#[test]
fn rows_2(rt: HostRuntime) -> Result<(), RowError> {
    let mut trial = Trial::new(rt.alloc());
    trial.holds::<CodeActionClientCapabilities>(CODE_ACTION_CLIENT_CAPABILITIES);
    trial.holds::<CodeActionCapabilityResolveSupport>(CODE_ACTION_CAPABILITY_RESOLVE_SUPPORT);
    trial.holds::<CodeActionLiteralSupport>(CODE_ACTION_LITERAL_SUPPORT);
    trial.holds::<CodeActionKindLiteralSupport>(CODE_ACTION_KIND_LITERAL_SUPPORT);
    trial.holds::<DocumentLinkClientCapabilities>(DOCUMENT_LINK_CLIENT_CAPABILITIES);
    trial.holds::<RenameClientCapabilities>(RENAME_CLIENT_CAPABILITIES);
    trial.holds::<PublishDiagnosticsClientCapabilities>(PUBLISH_DIAGNOSTICS_CLIENT_CAPABILITIES);
    trial.holds::<DiagnosticClientCapabilities>(DIAGNOSTIC_CLIENT_CAPABILITIES);
    trial.holds::<FoldingRangeClientCapabilities>(FOLDING_RANGE_CLIENT_CAPABILITIES);
    trial.holds::<FoldingRangeKindCapability>(FOLDING_RANGE_KIND_CAPABILITY);
    trial.holds::<FoldingRangeCapability>(FOLDING_RANGE_CAPABILITY);
    trial.holds::<SelectionRangeClientCapabilities>(SELECTION_RANGE_CLIENT_CAPABILITIES);
    trial.end()
}

#[test]
fn rows_3(rt: HostRuntime) -> Result<(), RowError> {
    let mut trial = Trial::new(rt.alloc());
    trial.holds::<SemanticTokensClientCapabilities>(SEMANTIC_TOKENS_CLIENT_CAPABILITIES);
    trial.clones::<SemanticTokensClientCapabilities>(SEMANTIC_TOKENS_CLIENT_CAPABILITIES);
    trial.holds::<SemanticTokensClientCapabilitiesRequests>(
        SEMANTIC_TOKENS_CLIENT_CAPABILITIES_REQUESTS,
    );
    trial.holds::<InlayHintClientCapabilities>(INLAY_HINT_CLIENT_CAPABILITIES);
    trial.holds::<InlayHintResolveClientCapabilities>(INLAY_HINT_RESOLVE_CLIENT_CAPABILITIES);
    trial.holds::<TextDocumentClientCapabilities>(TEXT_DOCUMENT_CLIENT_CAPABILITIES);
    trial.clones::<TextDocumentClientCapabilities>(TEXT_DOCUMENT_CLIENT_CAPABILITIES);
    trial.end()
}

#[test]
fn defaults_without_members_1(rt: HostRuntime) -> Result<(), RowError> {
    let mut trial = Trial::new(rt.alloc());
    trial.default::<TextDocumentSyncClientCapabilities>("{}");
    trial.default::<CompletionClientCapabilities>("{}");
    trial.default::<CompletionItemCapability>("{}");
    trial.default::<CompletionItemKindCapability>("{}");
    trial.default::<CompletionListCapability>("{}");
    trial.default::<HoverClientCapabilities>("{}");
    trial.default::<SignatureHelpClientCapabilities>("{}");
    trial.default::<SignatureInformationSettings>("{}");
    trial.default::<ParameterInformationSettings>("{}");
    trial.default::<DocumentSymbolClientCapabilities>("{}");
    trial.default::<CodeActionClientCapabilities>("{}");
    trial.end()
}

#[test]
fn defaults_without_members_2(rt: HostRuntime) -> Result<(), RowError> {
    let mut trial = Trial::new(rt.alloc());
    trial.default::<RenameClientCapabilities>("{}");
    trial.default::<PublishDiagnosticsClientCapabilities>("{}");
    trial.default::<DiagnosticClientCapabilities>("{}");
    trial.default::<FoldingRangeClientCapabilities>("{}");
    trial.default::<FoldingRangeKindCapability>("{}");
    trial.default::<FoldingRangeCapability>("{}");
    trial.default::<SelectionRangeClientCapabilities>("{}");
    trial.default::<SemanticTokensClientCapabilitiesRequests>("{}");
    trial.default::<InlayHintClientCapabilities>("{}");
    trial.default::<TextDocumentClientCapabilities>("{}");
    trial.end()
}

#[test]
fn defaults(rt: HostRuntime) -> Result<(), RowError> {
    let alloc = rt.alloc();
    let mut trial = Trial::new(alloc);
    trial.is_written(
        CompletionItemCapabilityResolveSupport::default(alloc),
        r#"{"properties":[]}"#,
    );
    trial.is_written(InsertTextModeSupport::default(alloc), r#"{"valueSet":[]}"#);
    trial.is_written(
        CodeActionCapabilityResolveSupport::default(alloc),
        r#"{"properties":[]}"#,
    );
    trial.is_written(
        CodeActionLiteralSupport::default(alloc),
        r#"{"codeActionKind":{"valueSet":[]}}"#,
    );
    trial.is_written(
        CodeActionKindLiteralSupport::default(alloc),
        r#"{"valueSet":[]}"#,
    );
    trial.is_written(
        SemanticTokensClientCapabilities::default(alloc),
        r#"{"formats":[],"requests":{},"tokenModifiers":[],"tokenTypes":[]}"#,
    );
    trial.is_written(
        InlayHintResolveClientCapabilities::default(alloc),
        r#"{"properties":[]}"#,
    );
    trial.end()
}
