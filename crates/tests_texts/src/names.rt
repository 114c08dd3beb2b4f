// The rows of lsp_names.
use lsp_names::{
    Documentation, LanguageString, MarkedString, MarkupContent, SemanticTokensFullOptions,
    WorkDoneProgressOptions,
};
use lsp_rows::{RowError, Trial};

const MARKUP_CONTENT: &str = r#"
{"kind":"plaintext","value":"value"} :: MarkupContent { kind: PlainText, value: "value" }
? kind value
! {"value":"value"} :: kind: is missing
"#;

const LANGUAGE_STRING: &str = r#"
{"language":"language","value":"value"} :: LanguageString { language: "language", value: "value" }
? language value
! {"value":"value"} :: language: is missing
"#;

const MARKED_STRING: &str = r#"
"marked_string" :: String("marked_string")
{"language":"language","value":"value"} :: LanguageString(LanguageString { language: "language", value: "value" })
! false :: one of its forms is wanted
"#;

const DOCUMENTATION: &str = r#"
"documentation" :: String("documentation")
{"kind":"plaintext","value":"value"} :: MarkupContent(MarkupContent { kind: PlainText, value: "value" })
! false :: one of its forms is wanted
"#;

const WORK_DONE_PROGRESS_OPTIONS: &str = r#"
{"workDoneProgress":true} :: WorkDoneProgressOptions { work_done_progress: Some(true) }
?
! {"workDoneProgress":"no"} :: workDoneProgress: true or false is wanted
"#;

const SEMANTIC_TOKENS_FULL_OPTIONS: &str = r#"
true :: Bool(true)
{"delta":true} :: Delta { delta: Some(true) }
! [1] :: one of its forms is wanted
"#;

#[test]
fn rows_1(rt: HostRuntime) -> Result<(), RowError> {
    let mut trial = Trial::new(rt.alloc());
    trial.holds::<MarkupContent>(MARKUP_CONTENT);
    trial.holds::<LanguageString>(LANGUAGE_STRING);
    trial.holds::<MarkedString>(MARKED_STRING);
    trial.holds::<Documentation>(DOCUMENTATION);
    trial.holds::<WorkDoneProgressOptions>(WORK_DONE_PROGRESS_OPTIONS);
    trial.holds::<SemanticTokensFullOptions>(SEMANTIC_TOKENS_FULL_OPTIONS);
    trial.end()
}

#[test]
fn defaults(rt: HostRuntime) -> Result<(), RowError> {
    let mut trial = Trial::new(rt.alloc());
    trial.default::<WorkDoneProgressOptions>(r#"{}"#);
    trial.end()
}
