// The rows of lsp_offer_lang.
use lsp_offer_lang::{
    CallHierarchyOptions, CallHierarchyServerCapability, ColorProviderCapability,
    ColorProviderOptions, DiagnosticOptions, DiagnosticRegistrationOptions,
    DiagnosticServerCapabilities, FoldingProviderOptions, FoldingRangeProviderCapability,
    InlayHintOptions, InlayHintRegistrationOptions, InlayHintServerCapabilities,
    InlineValueOptions, InlineValueRegistrationOptions, InlineValueServerCapabilities,
    LinkedEditingRangeOptions, LinkedEditingRangeRegistrationOptions,
    LinkedEditingRangeServerCapabilities, MonikerOptions, MonikerRegistrationOptions,
    MonikerServerCapabilities, SemanticTokensLegend, SemanticTokensOptions,
    SemanticTokensRegistrationOptions, SemanticTokensServerCapabilities,
    StaticTextDocumentColorProviderOptions, TypeHierarchyOptions, TypeHierarchyRegistrationOptions,
};
use lsp_rows::{RowError, Trial};

const CALL_HIERARCHY_SERVER_CAPABILITY: &str = r#"
true :: Simple(true)
{"workDoneProgress":true} :: Options(CallHierarchyOptions { work_done_progress_options: WorkDoneProgressOptions { work_done_progress: Some(true) } })
! [1] :: one of its forms is wanted
# clangd 14.0.6
true
"#;

const CALL_HIERARCHY_OPTIONS: &str = r#"
{"workDoneProgress":true} :: CallHierarchyOptions { work_done_progress_options: WorkDoneProgressOptions { work_done_progress: Some(true) } }
?
! [] :: an object is wanted
"#;

const TYPE_HIERARCHY_OPTIONS: &str = r#"
{"workDoneProgress":true} :: TypeHierarchyOptions { work_done_progress_options: WorkDoneProgressOptions { work_done_progress: Some(true) } }
?
! [] :: an object is wanted
"#;

const TYPE_HIERARCHY_REGISTRATION_OPTIONS: &str = r#"
{"documentSelector":[{"language":"language"}],"id":"id","workDoneProgress":true} :: TypeHierarchyRegistrationOptions { text_document_registration_options: TextDocumentRegistrationOptions { document_selector: Some([DocumentFilter { language: Some("language"), scheme: None, pattern: None }]) }, type_hierarchy_options: TypeHierarchyOptions { work_done_progress_options: WorkDoneProgressOptions { work_done_progress: Some(true) } }, static_registration_options: StaticRegistrationOptions { id: Some("id") } }
? documentSelector=null
! [] :: an object is wanted
"#;

const COLOR_PROVIDER_CAPABILITY: &str = r#"
true :: Simple(true)
{} :: ColorProvider(ColorProviderOptions)
{"documentSelector":[{"language":"language"}]} => {} :: ColorProvider(ColorProviderOptions)
! [1] :: one of its forms is wanted
"#;

const COLOR_PROVIDER_OPTIONS: &str = r#"
{} :: ColorProviderOptions
! [] :: an object is wanted
"#;

const STATIC_TEXT_DOCUMENT_COLOR_PROVIDER_OPTIONS: &str = r#"
{"documentSelector":[{"language":"language"}],"id":"id"} :: StaticTextDocumentColorProviderOptions { document_selector: Some([DocumentFilter { language: Some("language"), scheme: None, pattern: None }]), id: Some("id") }
? documentSelector=null
! {"documentSelector":"no"} :: documentSelector: a list is wanted
"#;

const FOLDING_RANGE_PROVIDER_CAPABILITY: &str = r#"
true :: Simple(true)
{} :: FoldingProvider(FoldingProviderOptions)
{"documentSelector":[{"language":"language"}]} => {} :: FoldingProvider(FoldingProviderOptions)
! [1] :: one of its forms is wanted
# pylsp 1.7.1
true
"#;

const FOLDING_PROVIDER_OPTIONS: &str = r#"
{} :: FoldingProviderOptions
! [] :: an object is wanted
"#;

const LINKED_EDITING_RANGE_SERVER_CAPABILITIES: &str = r#"
true :: Simple(true)
{"workDoneProgress":true} :: Options(LinkedEditingRangeOptions { work_done_progress_options: WorkDoneProgressOptions { work_done_progress: Some(true) } })
{"documentSelector":[{"language":"language"}],"id":"id","workDoneProgress":true} => {"workDoneProgress":true} :: Options(LinkedEditingRangeOptions { work_done_progress_options: WorkDoneProgressOptions { work_done_progress: Some(true) } })
! [1] :: one of its forms is wanted
"#;

const LINKED_EDITING_RANGE_OPTIONS: &str = r#"
{"workDoneProgress":true} :: LinkedEditingRangeOptions { work_done_progress_options: WorkDoneProgressOptions { work_done_progress: Some(true) } }
?
! [] :: an object is wanted
"#;

const LINKED_EDITING_RANGE_REGISTRATION_OPTIONS: &str = r#"
{"documentSelector":[{"language":"language"}],"id":"id","workDoneProgress":true} :: LinkedEditingRangeRegistrationOptions { text_document_registration_options: TextDocumentRegistrationOptions { document_selector: Some([DocumentFilter { language: Some("language"), scheme: None, pattern: None }]) }, linked_editing_range_options: LinkedEditingRangeOptions { work_done_progress_options: WorkDoneProgressOptions { work_done_progress: Some(true) } }, static_registration_options: StaticRegistrationOptions { id: Some("id") } }
? documentSelector=null
! [] :: an object is wanted
"#;

const SEMANTIC_TOKENS_SERVER_CAPABILITIES: &str = r#"
{"legend":{"tokenModifiers":["tokenModifiers"],"tokenTypes":["tokenTypes"]},"workDoneProgress":true} :: SemanticTokensOptions(SemanticTokensOptions { work_done_progress_options: WorkDoneProgressOptions { work_done_progress: Some(true) }, legend: SemanticTokensLegend { token_types: [SemanticTokenType("tokenTypes")], token_modifiers: [SemanticTokenModifier("tokenModifiers")] }, range: None, full: None })
{"documentSelector":[{"language":"language"}],"id":"id","legend":{"tokenModifiers":["tokenModifiers"],"tokenTypes":["tokenTypes"]},"workDoneProgress":true} => {"legend":{"tokenModifiers":["tokenModifiers"],"tokenTypes":["tokenTypes"]},"workDoneProgress":true} :: SemanticTokensOptions(SemanticTokensOptions { work_done_progress_options: WorkDoneProgressOptions { work_done_progress: Some(true) }, legend: SemanticTokensLegend { token_types: [SemanticTokenType("tokenTypes")], token_modifiers: [SemanticTokenModifier("tokenModifiers")] }, range: None, full: None })
! false :: one of its forms is wanted
# clangd 14.0.6
{"full":{"delta":true},"legend":{"tokenModifiers":["declaration","deprecated","deduced","readonly","static","abstract","virtual","dependentName","defaultLibrary","usedAsMutableReference","functionScope","classScope","fileScope","globalScope"],"tokenTypes":["variable","variable","parameter","function","method","function","property","variable","class","interface","enum","enumMember","type","type","unknown","namespace","typeParameter","concept","type","macro","comment"]},"range":false}
"#;

const SEMANTIC_TOKENS_OPTIONS: &str = r#"
{"full":true,"legend":{"tokenModifiers":["tokenModifiers"],"tokenTypes":["tokenTypes"]},"range":true,"workDoneProgress":true} :: SemanticTokensOptions { work_done_progress_options: WorkDoneProgressOptions { work_done_progress: Some(true) }, legend: SemanticTokensLegend { token_types: [SemanticTokenType("tokenTypes")], token_modifiers: [SemanticTokenModifier("tokenModifiers")] }, range: Some(true), full: Some(Bool(true)) }
? legend
! {"workDoneProgress":true} :: legend: is missing
# clangd 14.0.6
{"full":{"delta":true},"legend":{"tokenModifiers":["declaration","deprecated","deduced","readonly","static","abstract","virtual","dependentName","defaultLibrary","usedAsMutableReference","functionScope","classScope","fileScope","globalScope"],"tokenTypes":["variable","variable","parameter","function","method","function","property","variable","class","interface","enum","enumMember","type","type","unknown","namespace","typeParameter","concept","type","macro","comment"]},"range":false}
# Members of other types that read alike
{"full":true,"legend":{"tokenModifiers":["tokenModifiers"],"tokenTypes":["tokenTypes"]},"workDoneProgress":true} :: SemanticTokensOptions { work_done_progress_options: WorkDoneProgressOptions { work_done_progress: Some(true) }, legend: SemanticTokensLegend { token_types: [SemanticTokenType("tokenTypes")], token_modifiers: [SemanticTokenModifier("tokenModifiers")] }, range: None, full: Some(Bool(true)) }
"#;

const SEMANTIC_TOKENS_REGISTRATION_OPTIONS: &str = r#"
{"documentSelector":[{"language":"language"}],"id":"id","legend":{"tokenModifiers":["tokenModifiers"],"tokenTypes":["tokenTypes"]},"workDoneProgress":true} :: SemanticTokensRegistrationOptions { text_document_registration_options: TextDocumentRegistrationOptions { document_selector: Some([DocumentFilter { language: Some("language"), scheme: None, pattern: None }]) }, semantic_tokens_options: SemanticTokensOptions { work_done_progress_options: WorkDoneProgressOptions { work_done_progress: Some(true) }, legend: SemanticTokensLegend { token_types: [SemanticTokenType("tokenTypes")], token_modifiers: [SemanticTokenModifier("tokenModifiers")] }, range: None, full: None }, static_registration_options: StaticRegistrationOptions { id: Some("id") } }
? legend documentSelector=null
! [] :: an object is wanted
{"documentSelector":[{"language":"rust"}],"full":{"delta":true},"legend":{"tokenModifiers":["static"],"tokenTypes":["property","type","class"]},"range":true}
! {"documentSelector":[],"full":{"delta":true},"legend":{"tokenModifiers":[],"tokenTypes":[]},"range":{}} :: range: true or false is wanted
"#;

const SEMANTIC_TOKENS_LEGEND: &str = r#"
{"tokenModifiers":["tokenModifiers"],"tokenTypes":["tokenTypes"]} :: SemanticTokensLegend { token_types: [SemanticTokenType("tokenTypes")], token_modifiers: [SemanticTokenModifier("tokenModifiers")] }
? tokenTypes tokenModifiers
! {"tokenModifiers":["tokenModifiers"]} :: tokenTypes: is missing
# clangd 14.0.6
{"tokenModifiers":["declaration","deprecated","deduced","readonly","static","abstract","virtual","dependentName","defaultLibrary","usedAsMutableReference","functionScope","classScope","fileScope","globalScope"],"tokenTypes":["variable","variable","parameter","function","method","function","property","variable","class","interface","enum","enumMember","type","type","unknown","namespace","typeParameter","concept","type","macro","comment"]}
"#;

const MONIKER_SERVER_CAPABILITIES: &str = r#"
{"workDoneProgress":true} :: Options(MonikerOptions { work_done_progress_options: WorkDoneProgressOptions { work_done_progress: Some(true) } })
{"documentSelector":[{"language":"language"}],"workDoneProgress":true} => {"workDoneProgress":true} :: Options(MonikerOptions { work_done_progress_options: WorkDoneProgressOptions { work_done_progress: Some(true) } })
! false :: one of its forms is wanted
"#;

const MONIKER_OPTIONS: &str = r#"
{"workDoneProgress":true} :: MonikerOptions { work_done_progress_options: WorkDoneProgressOptions { work_done_progress: Some(true) } }
?
! [] :: an object is wanted
"#;

const MONIKER_REGISTRATION_OPTIONS: &str = r#"
{"documentSelector":[{"language":"language"}],"workDoneProgress":true} :: MonikerRegistrationOptions { text_document_registration_options: TextDocumentRegistrationOptions { document_selector: Some([DocumentFilter { language: Some("language"), scheme: None, pattern: None }]) }, moniker_options: MonikerOptions { work_done_progress_options: WorkDoneProgressOptions { work_done_progress: Some(true) } } }
? documentSelector=null
! [] :: an object is wanted
"#;

const INLAY_HINT_SERVER_CAPABILITIES: &str = r#"
{"workDoneProgress":true} :: Options(InlayHintOptions { work_done_progress_options: WorkDoneProgressOptions { work_done_progress: Some(true) }, resolve_provider: None })
{"documentSelector":[{"language":"language"}],"id":"id","workDoneProgress":true} => {"workDoneProgress":true} :: Options(InlayHintOptions { work_done_progress_options: WorkDoneProgressOptions { work_done_progress: Some(true) }, resolve_provider: None })
! false :: one of its forms is wanted
# rust-analyzer 1.96
{"resolveProvider":true}
"#;

const INLAY_HINT_OPTIONS: &str = r#"
{"resolveProvider":true,"workDoneProgress":true} :: InlayHintOptions { work_done_progress_options: WorkDoneProgressOptions { work_done_progress: Some(true) }, resolve_provider: Some(true) }
?
! {"resolveProvider":"no"} :: resolveProvider: true or false is wanted
# rust-analyzer 1.96
{"resolveProvider":true}
"#;

const INLAY_HINT_REGISTRATION_OPTIONS: &str = r#"
{"documentSelector":[{"language":"language"}],"id":"id","workDoneProgress":true} :: InlayHintRegistrationOptions { inlay_hint_options: InlayHintOptions { work_done_progress_options: WorkDoneProgressOptions { work_done_progress: Some(true) }, resolve_provider: None }, text_document_registration_options: TextDocumentRegistrationOptions { document_selector: Some([DocumentFilter { language: Some("language"), scheme: None, pattern: None }]) }, static_registration_options: StaticRegistrationOptions { id: Some("id") } }
? documentSelector=null
! [] :: an object is wanted
"#;

const INLINE_VALUE_SERVER_CAPABILITIES: &str = r#"
{"workDoneProgress":true} :: Options(InlineValueOptions { work_done_progress_options: WorkDoneProgressOptions { work_done_progress: Some(true) } })
{"documentSelector":[{"language":"language"}],"id":"id","workDoneProgress":true} => {"workDoneProgress":true} :: Options(InlineValueOptions { work_done_progress_options: WorkDoneProgressOptions { work_done_progress: Some(true) } })
! false :: one of its forms is wanted
"#;

const INLINE_VALUE_OPTIONS: &str = r#"
{"workDoneProgress":true} :: InlineValueOptions { work_done_progress_options: WorkDoneProgressOptions { work_done_progress: Some(true) } }
?
! [] :: an object is wanted
"#;

const INLINE_VALUE_REGISTRATION_OPTIONS: &str = r#"
{"documentSelector":[{"language":"language"}],"id":"id","workDoneProgress":true} :: InlineValueRegistrationOptions { inline_value_options: InlineValueOptions { work_done_progress_options: WorkDoneProgressOptions { work_done_progress: Some(true) } }, text_document_registration_options: TextDocumentRegistrationOptions { document_selector: Some([DocumentFilter { language: Some("language"), scheme: None, pattern: None }]) }, static_registration_options: StaticRegistrationOptions { id: Some("id") } }
? documentSelector=null
! [] :: an object is wanted
"#;

const DIAGNOSTIC_SERVER_CAPABILITIES: &str = r#"
{"identifier":"identifier","interFileDependencies":true,"workDoneProgress":true,"workspaceDiagnostics":true} :: Options(DiagnosticOptions { identifier: Some("identifier"), inter_file_dependencies: true, workspace_diagnostics: true, work_done_progress_options: WorkDoneProgressOptions { work_done_progress: Some(true) } })
{"documentSelector":[{"language":"language"}],"id":"id","identifier":"identifier","interFileDependencies":true,"workDoneProgress":true,"workspaceDiagnostics":true} => {"identifier":"identifier","interFileDependencies":true,"workDoneProgress":true,"workspaceDiagnostics":true} :: Options(DiagnosticOptions { identifier: Some("identifier"), inter_file_dependencies: true, workspace_diagnostics: true, work_done_progress_options: WorkDoneProgressOptions { work_done_progress: Some(true) } })
! false :: one of its forms is wanted
# rust-analyzer 1.96
{"identifier":"rust-analyzer","interFileDependencies":true,"workspaceDiagnostics":false}
"#;

const DIAGNOSTIC_OPTIONS: &str = r#"
{"identifier":"identifier","interFileDependencies":true,"workDoneProgress":true,"workspaceDiagnostics":false} :: DiagnosticOptions { identifier: Some("identifier"), inter_file_dependencies: true, workspace_diagnostics: false, work_done_progress_options: WorkDoneProgressOptions { work_done_progress: Some(true) } }
? interFileDependencies workspaceDiagnostics
! {"identifier":"identifier","workDoneProgress":true,"workspaceDiagnostics":true} :: interFileDependencies: is missing
# rust-analyzer 1.96
{"identifier":"rust-analyzer","interFileDependencies":true,"workspaceDiagnostics":false}
"#;

const DIAGNOSTIC_REGISTRATION_OPTIONS: &str = r#"
{"documentSelector":[{"language":"language"}],"id":"id","identifier":"identifier","interFileDependencies":true,"workDoneProgress":true,"workspaceDiagnostics":true} :: DiagnosticRegistrationOptions { text_document_registration_options: TextDocumentRegistrationOptions { document_selector: Some([DocumentFilter { language: Some("language"), scheme: None, pattern: None }]) }, diagnostic_options: DiagnosticOptions { identifier: Some("identifier"), inter_file_dependencies: true, workspace_diagnostics: true, work_done_progress_options: WorkDoneProgressOptions { work_done_progress: Some(true) } }, static_registration_options: StaticRegistrationOptions { id: Some("id") } }
? interFileDependencies workspaceDiagnostics documentSelector=null
! [] :: an object is wanted
{"documentSelector":[{"language":"css"}],"identifier":"css","interFileDependencies":false,"workspaceDiagnostics":false}
"#;

#[test]
fn rows_1(rt: HostRuntime) -> Result<(), RowError> {
    let mut trial = Trial::new(rt.alloc());
    trial.holds::<CallHierarchyServerCapability>(CALL_HIERARCHY_SERVER_CAPABILITY);
    trial.holds::<CallHierarchyOptions>(CALL_HIERARCHY_OPTIONS);
    trial.holds::<TypeHierarchyOptions>(TYPE_HIERARCHY_OPTIONS);
    trial.holds::<TypeHierarchyRegistrationOptions>(TYPE_HIERARCHY_REGISTRATION_OPTIONS);
    trial.holds::<ColorProviderCapability>(COLOR_PROVIDER_CAPABILITY);
    trial.holds::<ColorProviderOptions>(COLOR_PROVIDER_OPTIONS);
    trial.holds::<StaticTextDocumentColorProviderOptions>(
        STATIC_TEXT_DOCUMENT_COLOR_PROVIDER_OPTIONS,
    );
    trial.holds::<FoldingRangeProviderCapability>(FOLDING_RANGE_PROVIDER_CAPABILITY);
    trial.holds::<FoldingProviderOptions>(FOLDING_PROVIDER_OPTIONS);
    trial.holds::<LinkedEditingRangeServerCapabilities>(LINKED_EDITING_RANGE_SERVER_CAPABILITIES);
    trial.holds::<LinkedEditingRangeOptions>(LINKED_EDITING_RANGE_OPTIONS);
    trial.holds::<LinkedEditingRangeRegistrationOptions>(LINKED_EDITING_RANGE_REGISTRATION_OPTIONS);
    trial.end()
}

#[test]
fn rows_2(rt: HostRuntime) -> Result<(), RowError> {
    let mut trial = Trial::new(rt.alloc());
    trial.holds::<SemanticTokensServerCapabilities>(SEMANTIC_TOKENS_SERVER_CAPABILITIES);
    trial.holds::<SemanticTokensOptions>(SEMANTIC_TOKENS_OPTIONS);
    trial.holds::<SemanticTokensRegistrationOptions>(SEMANTIC_TOKENS_REGISTRATION_OPTIONS);
    trial.holds::<SemanticTokensLegend>(SEMANTIC_TOKENS_LEGEND);
    trial.holds::<MonikerServerCapabilities>(MONIKER_SERVER_CAPABILITIES);
    trial.holds::<MonikerOptions>(MONIKER_OPTIONS);
    trial.holds::<MonikerRegistrationOptions>(MONIKER_REGISTRATION_OPTIONS);
    trial.holds::<InlayHintServerCapabilities>(INLAY_HINT_SERVER_CAPABILITIES);
    trial.holds::<InlayHintOptions>(INLAY_HINT_OPTIONS);
    trial.holds::<InlayHintRegistrationOptions>(INLAY_HINT_REGISTRATION_OPTIONS);
    trial.holds::<InlineValueServerCapabilities>(INLINE_VALUE_SERVER_CAPABILITIES);
    trial.holds::<InlineValueOptions>(INLINE_VALUE_OPTIONS);
    trial.end()
}

#[test]
fn rows_3(rt: HostRuntime) -> Result<(), RowError> {
    let mut trial = Trial::new(rt.alloc());
    trial.holds::<InlineValueRegistrationOptions>(INLINE_VALUE_REGISTRATION_OPTIONS);
    trial.holds::<DiagnosticServerCapabilities>(DIAGNOSTIC_SERVER_CAPABILITIES);
    trial.holds::<DiagnosticOptions>(DIAGNOSTIC_OPTIONS);
    trial.holds::<DiagnosticRegistrationOptions>(DIAGNOSTIC_REGISTRATION_OPTIONS);
    trial.end()
}

#[test]
fn defaults(rt: HostRuntime) -> Result<(), RowError> {
    let alloc = rt.alloc();
    let mut trial = Trial::new(alloc);
    trial.default::<CallHierarchyOptions>(r#"{}"#);
    trial.default::<TypeHierarchyOptions>(r#"{}"#);
    trial.default::<TypeHierarchyRegistrationOptions>(r#"{"documentSelector":null}"#);
    trial.default::<LinkedEditingRangeOptions>(r#"{}"#);
    trial.is_written(
        SemanticTokensOptions::default(alloc),
        r#"{"legend":{"tokenModifiers":[],"tokenTypes":[]}}"#,
    );
    trial.is_written(
        SemanticTokensLegend::default(alloc),
        r#"{"tokenModifiers":[],"tokenTypes":[]}"#,
    );
    trial.default::<InlayHintOptions>(r#"{}"#);
    trial.default::<InlayHintRegistrationOptions>(r#"{"documentSelector":null}"#);
    trial.default::<InlineValueOptions>(r#"{}"#);
    trial.default::<InlineValueRegistrationOptions>(r#"{"documentSelector":null}"#);
    trial.default::<DiagnosticOptions>(
        r#"{"interFileDependencies":false,"workspaceDiagnostics":false}"#,
    );
    trial.default::<DiagnosticRegistrationOptions>(
        r#"{"documentSelector":null,"interFileDependencies":false,"workspaceDiagnostics":false}"#,
    );
    trial.end()
}
