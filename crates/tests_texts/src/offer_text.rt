// The rows of lsp_offer_text.
use lsp_offer_text::{
    CodeActionOptions, CodeActionProviderCapability, CodeLensOptions, CompletionOptions,
    CompletionOptionsCompletionItem, CompletionRegistrationOptions, DeclarationCapability,
    DeclarationOptions, DeclarationRegistrationOptions, DefinitionOptions,
    DocumentFormattingOptions, DocumentHighlightOptions, DocumentLinkOptions,
    DocumentOnTypeFormattingOptions, DocumentOnTypeFormattingRegistrationOptions,
    DocumentRangeFormattingOptions, DocumentSymbolOptions, GenericOptions,
    GenericRegistrationOptions, HoverOptions, HoverProviderCapability, HoverRegistrationOptions,
    ImplementationProviderCapability, ReferencesOptions, RenameOptions, SaveOptions,
    SelectionRangeOptions, SelectionRangeProviderCapability, SelectionRangeRegistrationOptions,
    SignatureHelpOptions, SignatureHelpRegistrationOptions, StaticTextDocumentRegistrationOptions,
    TextDocumentChangeRegistrationOptions, TextDocumentSaveRegistrationOptions,
    TextDocumentSyncCapability, TextDocumentSyncOptions, TextDocumentSyncSaveOptions,
    TypeDefinitionProviderCapability, WorkspaceSymbolOptions,
};
use lsp_rows::{RowError, Trial, text_of};

const TEXT_DOCUMENT_SYNC_CAPABILITY: &str = r#"
142 :: Kind(TextDocumentSyncKind(142))
{"openClose":true} :: Options(TextDocumentSyncOptions { open_close: Some(true), change: None, will_save: None, will_save_wait_until: None, save: None })
! false :: one of its forms is wanted
# ccls 0.20220729
{"change":2,"openClose":true,"save":{"includeText":false},"willSave":false,"willSaveWaitUntil":false}
# pylsp 1.7.1
{"change":2,"openClose":true,"save":{"includeText":true}}
"#;

const TEXT_DOCUMENT_SYNC_OPTIONS: &str = r#"
{"change":128,"openClose":true,"save":true,"willSave":true,"willSaveWaitUntil":true} :: TextDocumentSyncOptions { open_close: Some(true), change: Some(TextDocumentSyncKind(128)), will_save: Some(true), will_save_wait_until: Some(true), save: Some(Supported(true)) }
?
{"change":128,"openClose":true,"save":true,"willSave":false} :: TextDocumentSyncOptions { open_close: Some(true), change: Some(TextDocumentSyncKind(128)), will_save: Some(false), will_save_wait_until: None, save: Some(Supported(true)) }
! {"openClose":"no"} :: openClose: true or false is wanted
# ccls 0.20220729
{"change":2,"openClose":true,"save":{"includeText":false},"willSave":false,"willSaveWaitUntil":false}
# pylsp 1.7.1
{"change":2,"openClose":true,"save":{"includeText":true}}
# Members of other types that read alike
{"save":true,"willSaveWaitUntil":true} :: TextDocumentSyncOptions { open_close: None, change: None, will_save: None, will_save_wait_until: Some(true), save: Some(Supported(true)) }
"#;

const TEXT_DOCUMENT_SYNC_SAVE_OPTIONS: &str = r#"
true :: Supported(true)
{"includeText":true} :: SaveOptions(SaveOptions { include_text: Some(true) })
! [1] :: one of its forms is wanted
# ccls 0.20220729
{"includeText":false}
# pylsp 1.7.1
{"includeText":true}
"#;

const SAVE_OPTIONS: &str = r#"
{"includeText":true} :: SaveOptions { include_text: Some(true) }
?
! {"includeText":"no"} :: includeText: true or false is wanted
# ccls 0.20220729
{"includeText":false}
# pylsp 1.7.1
{"includeText":true}
"#;

const TEXT_DOCUMENT_CHANGE_REGISTRATION_OPTIONS: &str = r#"
{"documentSelector":[{"language":"language"}],"syncKind":122} :: TextDocumentChangeRegistrationOptions { document_selector: Some([DocumentFilter { language: Some("language"), scheme: None, pattern: None }]), sync_kind: TextDocumentSyncKind(122) }
? syncKind documentSelector=null
! {"documentSelector":[{"language":"language"}]} :: syncKind: is missing
{"documentSelector":[{"language":"javascript"}],"syncKind":2}
# No documents of its own: those that the client selects
{"documentSelector":null,"syncKind":1}
"#;

const TEXT_DOCUMENT_SAVE_REGISTRATION_OPTIONS: &str = r#"
{"documentSelector":[{"language":"language"}],"includeText":true} :: TextDocumentSaveRegistrationOptions { include_text: Some(true), text_document_registration_options: TextDocumentRegistrationOptions { document_selector: Some([DocumentFilter { language: Some("language"), scheme: None, pattern: None }]) } }
? documentSelector=null
! {"includeText":"no"} :: includeText: true or false is wanted
# rust-analyzer 1.96
{"documentSelector":[{"pattern":"**/*.rs"},{"pattern":"**/Cargo.toml"},{"pattern":"**/Cargo.lock"}],"includeText":false}
"#;

const COMPLETION_OPTIONS: &str = r##"
{"allCommitCharacters":["allCommitCharacters"],"completionItem":{"labelDetailsSupport":true},"resolveProvider":true,"triggerCharacters":["triggerCharacters"],"workDoneProgress":true} :: CompletionOptions { resolve_provider: Some(true), trigger_characters: Some(["triggerCharacters"]), all_commit_characters: Some(["allCommitCharacters"]), work_done_progress_options: WorkDoneProgressOptions { work_done_progress: Some(true) }, completion_item: Some(CompletionOptionsCompletionItem { label_details_support: Some(true) }) }
?
! {"resolveProvider":"no"} :: resolveProvider: true or false is wanted
# clangd 14.0.6
{"allCommitCharacters":[" ","\t","(",")","[","]","{","}","<",">",":",";",",","+","-","/","*","%","^","&","#","?",".","=","\"","'","|"],"resolveProvider":false,"triggerCharacters":[".","<",">",":","\"","/","*"]}
# rust-analyzer 1.96
{"completionItem":{"labelDetailsSupport":true},"resolveProvider":true,"triggerCharacters":[":",".","'","("]}
"##;

const COMPLETION_OPTIONS_COMPLETION_ITEM: &str = r#"
{"labelDetailsSupport":true} :: CompletionOptionsCompletionItem { label_details_support: Some(true) }
?
! {"labelDetailsSupport":"no"} :: labelDetailsSupport: true or false is wanted
# rust-analyzer 1.96
{"labelDetailsSupport":true}
"#;

const COMPLETION_REGISTRATION_OPTIONS: &str = r#"
{"documentSelector":[{"language":"language"}],"resolveProvider":true,"workDoneProgress":true} :: CompletionRegistrationOptions { text_document_registration_options: TextDocumentRegistrationOptions { document_selector: Some([DocumentFilter { language: Some("language"), scheme: None, pattern: None }]) }, completion_options: CompletionOptions { resolve_provider: Some(true), trigger_characters: None, all_commit_characters: None, work_done_progress_options: WorkDoneProgressOptions { work_done_progress: Some(true) }, completion_item: None } }
? documentSelector=null
! [] :: an object is wanted
{"documentSelector":[{"language":"json","scheme":"file"}],"resolveProvider":true,"triggerCharacters":["\"",":"]}
"#;

const HOVER_PROVIDER_CAPABILITY: &str = r#"
true :: Simple(true)
{"workDoneProgress":true} :: Options(HoverOptions { work_done_progress_options: WorkDoneProgressOptions { work_done_progress: Some(true) } })
! [1] :: one of its forms is wanted
# clangd 14.0.6
true
"#;

const HOVER_OPTIONS: &str = r#"
{"workDoneProgress":true} :: HoverOptions { work_done_progress_options: WorkDoneProgressOptions { work_done_progress: Some(true) } }
?
! [] :: an object is wanted
"#;

const HOVER_REGISTRATION_OPTIONS: &str = r#"
{"documentSelector":[{"language":"language"}],"workDoneProgress":true} :: HoverRegistrationOptions { text_document_registration_options: TextDocumentRegistrationOptions { document_selector: Some([DocumentFilter { language: Some("language"), scheme: None, pattern: None }]) }, hover_options: HoverOptions { work_done_progress_options: WorkDoneProgressOptions { work_done_progress: Some(true) } } }
? documentSelector=null
! [] :: an object is wanted
"#;

const SIGNATURE_HELP_OPTIONS: &str = r#"
{"retriggerCharacters":["retriggerCharacters"],"triggerCharacters":["triggerCharacters"],"workDoneProgress":true} :: SignatureHelpOptions { trigger_characters: Some(["triggerCharacters"]), retrigger_characters: Some(["retriggerCharacters"]), work_done_progress_options: WorkDoneProgressOptions { work_done_progress: Some(true) } }
?
! {"triggerCharacters":"no"} :: triggerCharacters: a list is wanted
# clangd 14.0.6
{"triggerCharacters":["(",")","{","}","<",">",","]}
# pylsp 1.7.1
{"triggerCharacters":["(",",","="]}
"#;

const SIGNATURE_HELP_REGISTRATION_OPTIONS: &str = r#"
{"documentSelector":[{"language":"language"}]} :: SignatureHelpRegistrationOptions { text_document_registration_options: TextDocumentRegistrationOptions { document_selector: Some([DocumentFilter { language: Some("language"), scheme: None, pattern: None }]) } }
? documentSelector=null
! [] :: an object is wanted
"#;

const STATIC_TEXT_DOCUMENT_REGISTRATION_OPTIONS: &str = r#"
{"documentSelector":[{"language":"language"}],"id":"id"} :: StaticTextDocumentRegistrationOptions { document_selector: Some([DocumentFilter { language: Some("language"), scheme: None, pattern: None }]), id: Some("id") }
? documentSelector=null
! {"documentSelector":"no"} :: documentSelector: a list is wanted
"#;

const IMPLEMENTATION_PROVIDER_CAPABILITY: &str = r#"
true :: Simple(true)
{"documentSelector":[{"language":"language"}]} :: Options(StaticTextDocumentRegistrationOptions { document_selector: Some([DocumentFilter { language: Some("language"), scheme: None, pattern: None }]), id: None })
! [1] :: one of its forms is wanted
# clangd 14.0.6
true
"#;

const TYPE_DEFINITION_PROVIDER_CAPABILITY: &str = r#"
true :: Simple(true)
{"documentSelector":[{"language":"language"}]} :: Options(StaticTextDocumentRegistrationOptions { document_selector: Some([DocumentFilter { language: Some("language"), scheme: None, pattern: None }]), id: None })
! [1] :: one of its forms is wanted
# clangd 14.0.6
true
"#;

const DECLARATION_CAPABILITY: &str = r#"
true :: Simple(true)
{"documentSelector":[{"language":"language"}],"id":"id","workDoneProgress":true} :: RegistrationOptions(DeclarationRegistrationOptions { declaration_options: DeclarationOptions { work_done_progress_options: WorkDoneProgressOptions { work_done_progress: Some(true) } }, text_document_registration_options: TextDocumentRegistrationOptions { document_selector: Some([DocumentFilter { language: Some("language"), scheme: None, pattern: None }]) }, static_registration_options: StaticRegistrationOptions { id: Some("id") } })
{"workDoneProgress":true} => {"documentSelector":null,"workDoneProgress":true} :: RegistrationOptions(DeclarationRegistrationOptions { declaration_options: DeclarationOptions { work_done_progress_options: WorkDoneProgressOptions { work_done_progress: Some(true) } }, text_document_registration_options: TextDocumentRegistrationOptions { document_selector: None }, static_registration_options: StaticRegistrationOptions { id: None } })
! [1] :: one of its forms is wanted
# clangd 14.0.6
true
"#;

const DECLARATION_REGISTRATION_OPTIONS: &str = r#"
{"documentSelector":[{"language":"language"}],"id":"id","workDoneProgress":true} :: DeclarationRegistrationOptions { declaration_options: DeclarationOptions { work_done_progress_options: WorkDoneProgressOptions { work_done_progress: Some(true) } }, text_document_registration_options: TextDocumentRegistrationOptions { document_selector: Some([DocumentFilter { language: Some("language"), scheme: None, pattern: None }]) }, static_registration_options: StaticRegistrationOptions { id: Some("id") } }
? documentSelector=null
! [] :: an object is wanted
"#;

const DECLARATION_OPTIONS: &str = r#"
{"workDoneProgress":true} :: DeclarationOptions { work_done_progress_options: WorkDoneProgressOptions { work_done_progress: Some(true) } }
?
! [] :: an object is wanted
"#;

const DEFINITION_OPTIONS: &str = r#"
{"workDoneProgress":true} :: DefinitionOptions { work_done_progress_options: WorkDoneProgressOptions { work_done_progress: Some(true) } }
?
! [] :: an object is wanted
"#;

const REFERENCES_OPTIONS: &str = r#"
{"workDoneProgress":true} :: ReferencesOptions { work_done_progress_options: WorkDoneProgressOptions { work_done_progress: Some(true) } }
?
! [] :: an object is wanted
"#;

const DOCUMENT_HIGHLIGHT_OPTIONS: &str = r#"
{"workDoneProgress":true} :: DocumentHighlightOptions { work_done_progress_options: WorkDoneProgressOptions { work_done_progress: Some(true) } }
?
! [] :: an object is wanted
"#;

const GENERIC_REGISTRATION_OPTIONS: &str = r#"
{"documentSelector":[{"language":"language"}],"id":"id","workDoneProgress":true} :: GenericRegistrationOptions { text_document_registration_options: TextDocumentRegistrationOptions { document_selector: Some([DocumentFilter { language: Some("language"), scheme: None, pattern: None }]) }, options: GenericOptions { work_done_progress_options: WorkDoneProgressOptions { work_done_progress: Some(true) } }, static_registration_options: StaticRegistrationOptions { id: Some("id") } }
? documentSelector=null
! [] :: an object is wanted
"#;

const GENERIC_OPTIONS: &str = r#"
{"workDoneProgress":true} :: GenericOptions { work_done_progress_options: WorkDoneProgressOptions { work_done_progress: Some(true) } }
?
! [] :: an object is wanted
"#;

const DOCUMENT_SYMBOL_OPTIONS: &str = r#"
{"label":"label","workDoneProgress":true} :: DocumentSymbolOptions { label: Some("label"), work_done_progress_options: WorkDoneProgressOptions { work_done_progress: Some(true) } }
?
! {"label":1} :: label: a text is wanted
"#;

const WORKSPACE_SYMBOL_OPTIONS: &str = r#"
{"resolveProvider":true,"workDoneProgress":true} :: WorkspaceSymbolOptions { work_done_progress_options: WorkDoneProgressOptions { work_done_progress: Some(true) }, resolve_provider: Some(true) }
?
! {"resolveProvider":"no"} :: resolveProvider: true or false is wanted
"#;

const CODE_ACTION_PROVIDER_CAPABILITY: &str = r#"
true :: Simple(true)
{"codeActionKinds":["codeActionKinds"],"workDoneProgress":true} :: Options(CodeActionOptions { code_action_kinds: Some([CodeActionKind("codeActionKinds")]), work_done_progress_options: WorkDoneProgressOptions { work_done_progress: Some(true) }, resolve_provider: None })
! [1] :: one of its forms is wanted
# rust-analyzer 1.96
{"codeActionKinds":["","quickfix","refactor","refactor.extract","refactor.inline","refactor.rewrite"],"resolveProvider":true}
# gopls of Debian 12
{"codeActionKinds":["quickfix","refactor.extract","refactor.rewrite","source.fixAll","source.organizeImports"]}
"#;

const CODE_ACTION_OPTIONS: &str = r#"
{"codeActionKinds":["codeActionKinds"],"resolveProvider":true,"workDoneProgress":true} :: CodeActionOptions { code_action_kinds: Some([CodeActionKind("codeActionKinds")]), work_done_progress_options: WorkDoneProgressOptions { work_done_progress: Some(true) }, resolve_provider: Some(true) }
?
! {"codeActionKinds":"no"} :: codeActionKinds: a list is wanted
# rust-analyzer 1.96
{"codeActionKinds":["","quickfix","refactor","refactor.extract","refactor.inline","refactor.rewrite"],"resolveProvider":true}
# gopls of Debian 12
{"codeActionKinds":["quickfix","refactor.extract","refactor.rewrite","source.fixAll","source.organizeImports"]}
"#;

const CODE_LENS_OPTIONS: &str = r#"
{"resolveProvider":true} :: CodeLensOptions { resolve_provider: Some(true) }
?
! {"resolveProvider":"no"} :: resolveProvider: true or false is wanted
# pylsp 1.7.1
{"resolveProvider":false}
# rust-analyzer 1.96
{"resolveProvider":true}
"#;

const DOCUMENT_LINK_OPTIONS: &str = r#"
{"resolveProvider":true,"workDoneProgress":true} :: DocumentLinkOptions { resolve_provider: Some(true), work_done_progress_options: WorkDoneProgressOptions { work_done_progress: Some(true) } }
?
! {"resolveProvider":"no"} :: resolveProvider: true or false is wanted
# clangd 14.0.6
{"resolveProvider":false}
# ccls 0.20220729
{"resolveProvider":true}
"#;

const SELECTION_RANGE_PROVIDER_CAPABILITY: &str = r#"
true :: Simple(true)
{"workDoneProgress":true} :: Options(SelectionRangeOptions { work_done_progress_options: WorkDoneProgressOptions { work_done_progress: Some(true) } })
{"documentSelector":[{"language":"language"}],"workDoneProgress":true} => {"workDoneProgress":true} :: Options(SelectionRangeOptions { work_done_progress_options: WorkDoneProgressOptions { work_done_progress: Some(true) } })
! [1] :: one of its forms is wanted
# gopls of Debian 12
{"documentSelector":null} => {}
# clangd 14.0.6
true
"#;

const SELECTION_RANGE_OPTIONS: &str = r#"
{"workDoneProgress":true} :: SelectionRangeOptions { work_done_progress_options: WorkDoneProgressOptions { work_done_progress: Some(true) } }
?
! [] :: an object is wanted
# gopls of Debian 12
{"documentSelector":null} => {}
"#;

const SELECTION_RANGE_REGISTRATION_OPTIONS: &str = r#"
{"documentSelector":[{"language":"language"}],"workDoneProgress":true} :: SelectionRangeRegistrationOptions { selection_range_options: SelectionRangeOptions { work_done_progress_options: WorkDoneProgressOptions { work_done_progress: Some(true) } }, registration_options: StaticTextDocumentRegistrationOptions { document_selector: Some([DocumentFilter { language: Some("language"), scheme: None, pattern: None }]), id: None } }
? documentSelector=null
! [] :: an object is wanted
"#;

const DOCUMENT_FORMATTING_OPTIONS: &str = r#"
{"workDoneProgress":true} :: DocumentFormattingOptions { work_done_progress_options: WorkDoneProgressOptions { work_done_progress: Some(true) } }
?
! [] :: an object is wanted
"#;

const DOCUMENT_RANGE_FORMATTING_OPTIONS: &str = r#"
{"workDoneProgress":true} :: DocumentRangeFormattingOptions { work_done_progress_options: WorkDoneProgressOptions { work_done_progress: Some(true) } }
?
! [] :: an object is wanted
"#;

const DOCUMENT_ON_TYPE_FORMATTING_OPTIONS: &str = r#"
{"firstTriggerCharacter":"firstTriggerCharacter","moreTriggerCharacter":["moreTriggerCharacter"]} :: DocumentOnTypeFormattingOptions { first_trigger_character: "firstTriggerCharacter", more_trigger_character: Some(["moreTriggerCharacter"]) }
? firstTriggerCharacter
! {} :: firstTriggerCharacter: is missing
# rust-analyzer 1.96
{"firstTriggerCharacter":".","moreTriggerCharacter":["=","<",">","{","(","|","+"]}
# clangd 14.0.6
{"firstTriggerCharacter":"\n","moreTriggerCharacter":[]}
"#;

const DOCUMENT_ON_TYPE_FORMATTING_REGISTRATION_OPTIONS: &str = r#"
{"documentSelector":[{"language":"language"}],"firstTriggerCharacter":"firstTriggerCharacter","moreTriggerCharacter":["moreTriggerCharacter"]} :: DocumentOnTypeFormattingRegistrationOptions { document_selector: Some([DocumentFilter { language: Some("language"), scheme: None, pattern: None }]), first_trigger_character: "firstTriggerCharacter", more_trigger_character: Some(["moreTriggerCharacter"]) }
? firstTriggerCharacter documentSelector=null
! {"documentSelector":[{"language":"language"}]} :: firstTriggerCharacter: is missing
{"documentSelector":[{"pattern":"**/*.rs"}],"firstTriggerCharacter":"=","moreTriggerCharacter":[".",">","{"]}
"#;

const RENAME_OPTIONS: &str = r#"
{"prepareProvider":true,"workDoneProgress":true} :: RenameOptions { prepare_provider: Some(true), work_done_progress_options: WorkDoneProgressOptions { work_done_progress: Some(true) } }
?
! {"prepareProvider":"no"} :: prepareProvider: true or false is wanted
# clangd 14.0.6
{"prepareProvider":true}
"#;

#[test]
fn rows_1(rt: HostRuntime) -> Result<(), RowError> {
    let mut trial = Trial::new(rt.alloc());
    trial.holds::<TextDocumentSyncCapability>(TEXT_DOCUMENT_SYNC_CAPABILITY);
    trial.holds::<TextDocumentSyncOptions>(TEXT_DOCUMENT_SYNC_OPTIONS);
    trial.holds::<TextDocumentSyncSaveOptions>(TEXT_DOCUMENT_SYNC_SAVE_OPTIONS);
    trial.holds::<SaveOptions>(SAVE_OPTIONS);
    trial.holds::<TextDocumentChangeRegistrationOptions>(TEXT_DOCUMENT_CHANGE_REGISTRATION_OPTIONS);
    trial.holds::<TextDocumentSaveRegistrationOptions>(TEXT_DOCUMENT_SAVE_REGISTRATION_OPTIONS);
    trial.holds::<CompletionOptions>(COMPLETION_OPTIONS);
    trial.holds::<CompletionOptionsCompletionItem>(COMPLETION_OPTIONS_COMPLETION_ITEM);
    trial.holds::<CompletionRegistrationOptions>(COMPLETION_REGISTRATION_OPTIONS);
    trial.holds::<HoverProviderCapability>(HOVER_PROVIDER_CAPABILITY);
    trial.holds::<HoverOptions>(HOVER_OPTIONS);
    trial.holds::<HoverRegistrationOptions>(HOVER_REGISTRATION_OPTIONS);
    trial.end()
}

#[test]
fn rows_2(rt: HostRuntime) -> Result<(), RowError> {
    let mut trial = Trial::new(rt.alloc());
    trial.holds::<SignatureHelpOptions>(SIGNATURE_HELP_OPTIONS);
    trial.holds::<SignatureHelpRegistrationOptions>(SIGNATURE_HELP_REGISTRATION_OPTIONS);
    trial.holds::<StaticTextDocumentRegistrationOptions>(STATIC_TEXT_DOCUMENT_REGISTRATION_OPTIONS);
    trial.holds::<ImplementationProviderCapability>(IMPLEMENTATION_PROVIDER_CAPABILITY);
    trial.holds::<TypeDefinitionProviderCapability>(TYPE_DEFINITION_PROVIDER_CAPABILITY);
    trial.holds::<DeclarationCapability>(DECLARATION_CAPABILITY);
    trial.holds::<DeclarationRegistrationOptions>(DECLARATION_REGISTRATION_OPTIONS);
    trial.holds::<DeclarationOptions>(DECLARATION_OPTIONS);
    trial.holds::<DefinitionOptions>(DEFINITION_OPTIONS);
    trial.holds::<ReferencesOptions>(REFERENCES_OPTIONS);
    trial.holds::<DocumentHighlightOptions>(DOCUMENT_HIGHLIGHT_OPTIONS);
    trial.holds::<GenericRegistrationOptions>(GENERIC_REGISTRATION_OPTIONS);
    trial.end()
}

#[test]
fn rows_3(rt: HostRuntime) -> Result<(), RowError> {
    let mut trial = Trial::new(rt.alloc());
    trial.holds::<GenericOptions>(GENERIC_OPTIONS);
    trial.holds::<DocumentSymbolOptions>(DOCUMENT_SYMBOL_OPTIONS);
    trial.holds::<WorkspaceSymbolOptions>(WORKSPACE_SYMBOL_OPTIONS);
    trial.holds::<CodeActionProviderCapability>(CODE_ACTION_PROVIDER_CAPABILITY);
    trial.holds::<CodeActionOptions>(CODE_ACTION_OPTIONS);
    trial.holds::<CodeLensOptions>(CODE_LENS_OPTIONS);
    trial.holds::<DocumentLinkOptions>(DOCUMENT_LINK_OPTIONS);
    trial.holds::<SelectionRangeProviderCapability>(SELECTION_RANGE_PROVIDER_CAPABILITY);
    trial.holds::<SelectionRangeOptions>(SELECTION_RANGE_OPTIONS);
    trial.holds::<SelectionRangeRegistrationOptions>(SELECTION_RANGE_REGISTRATION_OPTIONS);
    trial.holds::<DocumentFormattingOptions>(DOCUMENT_FORMATTING_OPTIONS);
    trial.holds::<DocumentRangeFormattingOptions>(DOCUMENT_RANGE_FORMATTING_OPTIONS);
    trial.end()
}

#[test]
fn rows_4(rt: HostRuntime) -> Result<(), RowError> {
    let mut trial = Trial::new(rt.alloc());
    trial.holds::<DocumentOnTypeFormattingOptions>(DOCUMENT_ON_TYPE_FORMATTING_OPTIONS);
    trial.holds::<DocumentOnTypeFormattingRegistrationOptions>(
        DOCUMENT_ON_TYPE_FORMATTING_REGISTRATION_OPTIONS,
    );
    trial.holds::<RenameOptions>(RENAME_OPTIONS);
    trial.end()
}

#[test]
fn defaults(rt: HostRuntime) -> Result<(), RowError> {
    let alloc = rt.alloc();
    let mut trial = Trial::new(alloc);
    // Lent, since the prover makes no plan for a call that takes it.
    trial.text(
        "TextDocumentSyncOptions",
        text_of(alloc, &TextDocumentSyncOptions::default()),
        r#"{}"#,
    );
    trial.default::<SaveOptions>(r#"{}"#);
    trial.default::<CompletionOptions>(r#"{}"#);
    trial.default::<CompletionOptionsCompletionItem>(r#"{}"#);
    trial.default::<HoverOptions>(r#"{}"#);
    trial.default::<HoverRegistrationOptions>(r#"{"documentSelector":null}"#);
    trial.default::<SignatureHelpOptions>(r#"{}"#);
    trial.default::<CodeActionOptions>(r#"{}"#);
    trial.default::<SelectionRangeOptions>(r#"{}"#);
    trial.default::<DocumentFormattingOptions>(r#"{}"#);
    trial.is_written(
        DocumentOnTypeFormattingOptions::default(alloc),
        r#"{"firstTriggerCharacter":""}"#,
    );
    trial.is_written(
        DocumentOnTypeFormattingRegistrationOptions::default(alloc),
        r#"{"documentSelector":null,"firstTriggerCharacter":""}"#,
    );
    trial.end()
}
