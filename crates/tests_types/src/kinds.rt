// What no clause says: that the calls succeed. And each constant by its number and name, typed again.
use lsp_kinds::{
    CodeActionTriggerKind, CompletionItemKind, CompletionItemTag, CompletionTriggerKind,
    DiagnosticSeverity, DiagnosticTag, DocumentHighlightKind, FileChangeType, InlayHintKind,
    InsertTextFormat, InsertTextMode, MessageType, PrepareSupportDefaultBehavior,
    SignatureHelpTriggerKind, SymbolKind, SymbolTag, TextDocumentSaveReason, TextDocumentSyncKind,
};
use lsp_rows::{RowError, Trial};
use lsp_shape::{Wire, read_text};
use std::alloc::Global;
use std::fmt::Debug;

const DIAGNOSTIC_SEVERITIES: &str = "\
1 :: Error
2 :: Warning
3 :: Information
4 :: Hint";

const DIAGNOSTIC_TAGS: &str = "\
1 :: Unnecessary
2 :: Deprecated";

const SYMBOL_KINDS: &str = "\
1 :: File
2 :: Module
3 :: Namespace
4 :: Package
5 :: Class
6 :: Method
7 :: Property
8 :: Field
9 :: Constructor
10 :: Enum
11 :: Interface
12 :: Function
13 :: Variable
14 :: Constant
15 :: String
16 :: Number
17 :: Boolean
18 :: Array
19 :: Object
20 :: Key
21 :: Null
22 :: EnumMember
23 :: Struct
24 :: Event
25 :: Operator
26 :: TypeParameter";

const SYMBOL_TAGS: &str = "\
1 :: Deprecated";

const COMPLETION_ITEM_KINDS: &str = "\
1 :: Text
2 :: Method
3 :: Function
4 :: Constructor
5 :: Field
6 :: Variable
7 :: Class
8 :: Interface
9 :: Module
10 :: Property
11 :: Unit
12 :: Value
13 :: Enum
14 :: Keyword
15 :: Snippet
16 :: Color
17 :: File
18 :: Reference
19 :: Folder
20 :: EnumMember
21 :: Constant
22 :: Struct
23 :: Event
24 :: Operator
25 :: TypeParameter";

const COMPLETION_ITEM_TAGS: &str = "\
1 :: Deprecated";

const COMPLETION_TRIGGER_KINDS: &str = "\
1 :: Invoked
2 :: TriggerCharacter
3 :: TriggerForIncompleteCompletions";

const INSERT_TEXT_FORMATS: &str = "\
1 :: PlainText
2 :: Snippet";

const INSERT_TEXT_MODES: &str = "\
1 :: AsIs
2 :: AdjustIndentation";

const TEXT_DOCUMENT_SYNC_KINDS: &str = "\
0 :: None
1 :: Full
2 :: Incremental";

const TEXT_DOCUMENT_SAVE_REASONS: &str = "\
1 :: Manual
2 :: AfterDelay
3 :: FocusOut";

const FILE_CHANGE_TYPES: &str = "\
1 :: Created
2 :: Changed
3 :: Deleted";

const MESSAGE_TYPES: &str = "\
1 :: Error
2 :: Warning
3 :: Info
4 :: Log";

const CODE_ACTION_TRIGGER_KINDS: &str = "\
1 :: Invoked
2 :: Automatic";

const DOCUMENT_HIGHLIGHT_KINDS: &str = "\
1 :: Text
2 :: Read
3 :: Write";

const INLAY_HINT_KINDS: &str = "\
1 :: Type
2 :: Parameter";

const PREPARE_SUPPORT_DEFAULT_BEHAVIORS: &str = "\
1 :: Identifier";

const SIGNATURE_HELP_TRIGGER_KINDS: &str = "\
1 :: Invoked
2 :: TriggerCharacter
3 :: ContentChange";

// Each kind is read from its number and from its name, and written and shown as those.
fn try_named<K>(trial: &mut Trial, alloc: Global, kinds: &[K], rows: &'static str)
where
    K: Wire + Copy + Debug + PartialEq + TryFrom<&'static str, Error = &'static str>,
{
    trial.holds::<K>(rows);
    trial.same(rows, rows.lines().count(), kinds.len());
    for (kind, row) in kinds.iter().zip(rows.lines()) {
        let (number, name) = row.split_once(" :: ").unwrap_or((row, row));
        trial.same(row, read_text(alloc, number), Ok(*kind));
        trial.same(row, K::try_from(name), Ok(*kind));
    }
}

#[test]
fn kinds_of_diagnostics(rt: HostRuntime) -> Result<(), RowError> {
    let alloc = rt.alloc();
    let mut trial = Trial::new(alloc);
    try_named(
        &mut trial,
        alloc,
        &DiagnosticSeverity::constants(),
        DIAGNOSTIC_SEVERITIES,
    );
    try_named(
        &mut trial,
        alloc,
        &DiagnosticTag::constants(),
        DIAGNOSTIC_TAGS,
    );
    trial.end()
}

#[test]
fn kinds_of_symbols(rt: HostRuntime) -> Result<(), RowError> {
    let alloc = rt.alloc();
    let mut trial = Trial::new(alloc);
    try_named(&mut trial, alloc, &SymbolKind::constants(), SYMBOL_KINDS);
    try_named(&mut trial, alloc, &SymbolTag::constants(), SYMBOL_TAGS);
    trial.end()
}

#[test]
fn kinds_of_completions(rt: HostRuntime) -> Result<(), RowError> {
    let alloc = rt.alloc();
    let mut trial = Trial::new(alloc);
    try_named(
        &mut trial,
        alloc,
        &CompletionItemKind::constants(),
        COMPLETION_ITEM_KINDS,
    );
    try_named(
        &mut trial,
        alloc,
        &CompletionItemTag::constants(),
        COMPLETION_ITEM_TAGS,
    );
    try_named(
        &mut trial,
        alloc,
        &CompletionTriggerKind::constants(),
        COMPLETION_TRIGGER_KINDS,
    );
    try_named(
        &mut trial,
        alloc,
        &InsertTextFormat::constants(),
        INSERT_TEXT_FORMATS,
    );
    try_named(
        &mut trial,
        alloc,
        &InsertTextMode::constants(),
        INSERT_TEXT_MODES,
    );
    trial.end()
}

#[test]
fn kinds_of_synchronization(rt: HostRuntime) -> Result<(), RowError> {
    let alloc = rt.alloc();
    let mut trial = Trial::new(alloc);
    try_named(
        &mut trial,
        alloc,
        &TextDocumentSyncKind::constants(),
        TEXT_DOCUMENT_SYNC_KINDS,
    );
    try_named(
        &mut trial,
        alloc,
        &TextDocumentSaveReason::constants(),
        TEXT_DOCUMENT_SAVE_REASONS,
    );
    trial.end()
}

#[test]
fn kinds_of_the_workspace(rt: HostRuntime) -> Result<(), RowError> {
    let alloc = rt.alloc();
    let mut trial = Trial::new(alloc);
    try_named(
        &mut trial,
        alloc,
        &FileChangeType::constants(),
        FILE_CHANGE_TYPES,
    );
    try_named(&mut trial, alloc, &MessageType::constants(), MESSAGE_TYPES);
    trial.end()
}

#[test]
fn kinds_of_language_features(rt: HostRuntime) -> Result<(), RowError> {
    let alloc = rt.alloc();
    let mut trial = Trial::new(alloc);
    try_named(
        &mut trial,
        alloc,
        &CodeActionTriggerKind::constants(),
        CODE_ACTION_TRIGGER_KINDS,
    );
    try_named(
        &mut trial,
        alloc,
        &DocumentHighlightKind::constants(),
        DOCUMENT_HIGHLIGHT_KINDS,
    );
    try_named(
        &mut trial,
        alloc,
        &InlayHintKind::constants(),
        INLAY_HINT_KINDS,
    );
    try_named(
        &mut trial,
        alloc,
        &PrepareSupportDefaultBehavior::constants(),
        PREPARE_SUPPORT_DEFAULT_BEHAVIORS,
    );
    try_named(
        &mut trial,
        alloc,
        &SignatureHelpTriggerKind::constants(),
        SIGNATURE_HELP_TRIGGER_KINDS,
    );
    trial.end()
}

const UNKNOWN: &str = "unknown enum variant";

// No constant has the name, nor the number.
#[test]
fn names_and_numbers_of_no_constant(rt: HostRuntime) -> Result<(), RowError> {
    let mut trial = Trial::new(rt.alloc());
    trial.same("x", CompletionItemKind::try_from("x").err(), Some(UNKNOWN));
    trial.holds::<CompletionItemKind>("99 :: CompletionItemKind(99)");
    let error = DiagnosticTag::try_from("deprecated").err();
    trial.same("deprecated", error, Some(UNKNOWN));
    trial.holds::<DiagnosticTag>("-1 :: DiagnosticTag(-1)");
    let error = MessageType::try_from("Information").err();
    trial.same("Information", error, Some(UNKNOWN));
    trial.holds::<MessageType>("-2147483648 :: MessageType(-2147483648)");
    trial.end()
}

const NO_KINDS: &str = r#"
! "Error" :: an integer is wanted
! 1.0 :: an integer is wanted
! 1e0 :: an integer is wanted
! 2147483648 :: an integer is wanted
! -2147483649 :: an integer is wanted
! null :: an integer is wanted
! true :: an integer is wanted
! [1] :: an integer is wanted
! {} :: an integer is wanted
"#;

#[test]
fn what_is_not_a_number_of_32_bits(rt: HostRuntime) -> Result<(), RowError> {
    let mut trial = Trial::new(rt.alloc());
    trial.holds::<MessageType>(NO_KINDS);
    trial.end()
}

#[test]
fn severities_in_order(rt: HostRuntime) -> Result<(), RowError> {
    let severities = DiagnosticSeverity::constants();
    let mut trial = Trial::new(rt.alloc());
    trial.same("severities", severities.len(), 4);
    for pair in severities.windows(2) {
        trial.is_true(format_args!("{pair:?}"), pair[0] < pair[1]);
    }
    trial.same("HINT", DiagnosticSeverity::HINT.name(), Some("Hint"));
    trial.end()
}
