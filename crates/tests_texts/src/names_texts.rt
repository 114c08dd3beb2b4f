// What no clause says: each known name by its text in LSP 3.17, what Debug shows, and that texts of
// editors, of clangd and of the standard are read.
ghost use Rattle.std.specs.Prelude.{◌≡◌, Some, bytes_eq};
ghost use Rattle.std.specs.Cmp.Lexicographic.{slice_cmp};
ghost use Rattle.std.specs.Ordering.{nat_cmp};

use lsp_names::{
    CodeActionKind, Documentation, FoldingRangeKind, LanguageString, MarkedString, MarkupContent,
    MarkupKind, PositionEncodingKind, SemanticTokenModifier, SemanticTokenType,
    SemanticTokensFullOptions, TokenFormat, TraceValue, WorkDoneProgressOptions,
};
use lsp_rows::{RowError, Trial};
use lsp_shape::{Misfit, NoMemory, Wire, read_text};
use std::alloc::{AllocError, Global};
use std::cmp::Ordering;
use std::fmt::Debug;
use std::hash::{DefaultHasher, Hash, Hasher};

fn hash_of<K: Hash>(kind: &K) -> u64 {
    let mut state = DefaultHasher::new();
    kind.hash(&mut state);
    state.finish()
}

// The kind and that of an owned text are equal, in order and hash too.
fn is_as_owned<K>(alloc: Global, kind: &K, text: &'static str) -> Result<bool, NoMemory>
where
    K: Wire + Hash + PartialOrd + From<String>,
{
    let owned = K::from(String::from_str(alloc, text)?);
    Ok(
        owned == *kind
            && owned.partial_cmp(kind) == Some(Ordering::Equal)
            && hash_of(&owned) == hash_of(kind),
    )
}

// What is written of the kind is the text, and is read as the kind.
fn is_read<K: Wire + PartialEq>(
    alloc: Global,
    kind: &K,
    text: &'static str,
) -> Result<bool, Misfit> {
    let value = kind.to_value(alloc)?;
    Ok(value.as_str() == Some(text) && K::from_value(alloc, &value)? == *kind)
}

fn is_copied<K: Wire + Clone + PartialEq>(kind: &K) -> Result<bool, NoMemory> {
    Ok(kind.clone()? == *kind)
}

// The kind is that of the text, known or owned.
fn try_known<K>(trial: &mut Trial, alloc: Global, kind: K, text: &'static str)
where
    K: Wire + Clone + Debug + Hash + PartialOrd + From<String> + From<&'static str>,
{
    trial.same(text, is_as_owned(alloc, &kind, text), Ok(true));
    trial.same(text, is_read(alloc, &kind, text), Ok(true));
    trial.same(text, is_copied(&kind), Ok(true));
    trial.same(text, K::from(text), kind);
}

#[test]
fn known_names(rt: HostRuntime) -> Result<(), RowError> {
    let alloc = rt.alloc();
    let mut trial = Trial::new(alloc);
    try_known(&mut trial, alloc, PositionEncodingKind::UTF8(), "utf-8");
    try_known(&mut trial, alloc, PositionEncodingKind::UTF16(), "utf-16");
    try_known(&mut trial, alloc, PositionEncodingKind::UTF32(), "utf-32");
    try_known(&mut trial, alloc, CodeActionKind::EMPTY(), "");
    try_known(&mut trial, alloc, CodeActionKind::QUICKFIX(), "quickfix");
    try_known(&mut trial, alloc, CodeActionKind::REFACTOR(), "refactor");
    try_known(
        &mut trial,
        alloc,
        CodeActionKind::REFACTOR_EXTRACT(),
        "refactor.extract",
    );
    try_known(
        &mut trial,
        alloc,
        CodeActionKind::REFACTOR_INLINE(),
        "refactor.inline",
    );
    try_known(
        &mut trial,
        alloc,
        CodeActionKind::REFACTOR_REWRITE(),
        "refactor.rewrite",
    );
    try_known(&mut trial, alloc, CodeActionKind::SOURCE(), "source");
    try_known(
        &mut trial,
        alloc,
        CodeActionKind::SOURCE_ORGANIZE_IMPORTS(),
        "source.organizeImports",
    );
    try_known(
        &mut trial,
        alloc,
        CodeActionKind::SOURCE_FIX_ALL(),
        "source.fixAll",
    );
    try_known(&mut trial, alloc, TokenFormat::RELATIVE(), "relative");
    trial.end()
}

#[test]
fn known_names_of_tokens(rt: HostRuntime) -> Result<(), RowError> {
    let alloc = rt.alloc();
    let mut trial = Trial::new(alloc);
    try_known(
        &mut trial,
        alloc,
        SemanticTokenType::NAMESPACE(),
        "namespace",
    );
    try_known(&mut trial, alloc, SemanticTokenType::TYPE(), "type");
    try_known(&mut trial, alloc, SemanticTokenType::CLASS(), "class");
    try_known(&mut trial, alloc, SemanticTokenType::ENUM(), "enum");
    try_known(
        &mut trial,
        alloc,
        SemanticTokenType::INTERFACE(),
        "interface",
    );
    try_known(&mut trial, alloc, SemanticTokenType::STRUCT(), "struct");
    try_known(
        &mut trial,
        alloc,
        SemanticTokenType::TYPE_PARAMETER(),
        "typeParameter",
    );
    try_known(
        &mut trial,
        alloc,
        SemanticTokenType::PARAMETER(),
        "parameter",
    );
    try_known(&mut trial, alloc, SemanticTokenType::VARIABLE(), "variable");
    try_known(&mut trial, alloc, SemanticTokenType::PROPERTY(), "property");
    try_known(
        &mut trial,
        alloc,
        SemanticTokenType::ENUM_MEMBER(),
        "enumMember",
    );
    try_known(&mut trial, alloc, SemanticTokenType::EVENT(), "event");
    try_known(&mut trial, alloc, SemanticTokenType::FUNCTION(), "function");
    try_known(&mut trial, alloc, SemanticTokenType::METHOD(), "method");
    try_known(&mut trial, alloc, SemanticTokenType::MACRO(), "macro");
    try_known(&mut trial, alloc, SemanticTokenType::KEYWORD(), "keyword");
    try_known(&mut trial, alloc, SemanticTokenType::MODIFIER(), "modifier");
    try_known(&mut trial, alloc, SemanticTokenType::COMMENT(), "comment");
    try_known(&mut trial, alloc, SemanticTokenType::STRING(), "string");
    try_known(&mut trial, alloc, SemanticTokenType::NUMBER(), "number");
    try_known(&mut trial, alloc, SemanticTokenType::REGEXP(), "regexp");
    try_known(&mut trial, alloc, SemanticTokenType::OPERATOR(), "operator");
    try_known(
        &mut trial,
        alloc,
        SemanticTokenType::DECORATOR(),
        "decorator",
    );
    try_known(
        &mut trial,
        alloc,
        SemanticTokenModifier::DECLARATION(),
        "declaration",
    );
    try_known(
        &mut trial,
        alloc,
        SemanticTokenModifier::DEFINITION(),
        "definition",
    );
    try_known(
        &mut trial,
        alloc,
        SemanticTokenModifier::READONLY(),
        "readonly",
    );
    try_known(&mut trial, alloc, SemanticTokenModifier::STATIC(), "static");
    try_known(
        &mut trial,
        alloc,
        SemanticTokenModifier::DEPRECATED(),
        "deprecated",
    );
    try_known(
        &mut trial,
        alloc,
        SemanticTokenModifier::ABSTRACT(),
        "abstract",
    );
    try_known(&mut trial, alloc, SemanticTokenModifier::ASYNC(), "async");
    try_known(
        &mut trial,
        alloc,
        SemanticTokenModifier::MODIFICATION(),
        "modification",
    );
    try_known(
        &mut trial,
        alloc,
        SemanticTokenModifier::DOCUMENTATION(),
        "documentation",
    );
    try_known(
        &mut trial,
        alloc,
        SemanticTokenModifier::DEFAULT_LIBRARY(),
        "defaultLibrary",
    );
    trial.end()
}

#[test]
fn texts_of_known_names(rt: HostRuntime) -> Result<(), RowError> {
    let mut trial = Trial::new(rt.alloc());
    trial.same(
        "an encoding",
        PositionEncodingKind::UTF8().as_str(),
        "utf-8",
    );
    trial.same(
        "an action",
        CodeActionKind::SOURCE_FIX_ALL().as_str(),
        "source.fixAll",
    );
    trial.same("a format", TokenFormat::RELATIVE().as_str(), "relative");
    trial.same(
        "a token",
        SemanticTokenType::TYPE_PARAMETER().as_str(),
        "typeParameter",
    );
    trial.same(
        "a modifier",
        SemanticTokenModifier::READONLY().as_str(),
        "readonly",
    );
    trial.end()
}

// What `==`, `<` and the rest say, by the texts.

fn is_same(a: &CodeActionKind, b: &CodeActionKind) -> bool
    ensures { result ≡ bytes_eq a.now b.now }
{
    a == b
}

fn order(a: &CodeActionKind, b: &CodeActionKind) -> Option<Ordering>
    ensures { result ≡ Some (slice_cmp nat_cmp a.now b.now) }
{
    a.partial_cmp(b)
}

// Two texts, and how the first stands to the second.
const IN_ORDER: &[(&str, &str, Ordering)] = &[
    ("", "quickfix", Ordering::Less),
    ("refactor", "refactor.extract", Ordering::Less),
    ("source", "refactor.rewrite", Ordering::Greater),
    ("source.fixAll", "source.organizeImports", Ordering::Less),
    ("Source", "source", Ordering::Less),
    ("notebook.source", "notebook.source", Ordering::Equal),
];

#[test]
fn by_their_texts(rt: HostRuntime) -> Result<(), RowError> {
    let alloc = rt.alloc();
    let mut trial = Trial::new(alloc);
    for (first, second, wanted) in IN_ORDER {
        let known = CodeActionKind::from(*first);
        let owned = CodeActionKind::new(alloc, *second)?;
        let is_equal = *wanted == Ordering::Equal;
        trial.same(*second, owned.as_str(), *second);
        trial.same(
            format_args!("{first} before {second}"),
            order(&known, &owned),
            Some(*wanted),
        );
        trial.same(
            format_args!("{first} is {second}"),
            is_same(&known, &owned),
            is_equal,
        );
    }
    trial.end()
}

// Whether the first is there and is the second.
fn is_kind<K: PartialEq + Drop>(made: Result<K, NoMemory>, known: K) -> Result<bool, NoMemory> {
    match made {
        Ok(made) => Ok(made == known),
        Err(NoMemory) => Err(NoMemory),
    }
}

#[test]
fn names_of_other_kinds(rt: HostRuntime) -> Result<(), RowError> {
    let alloc = rt.alloc();
    let mut trial = Trial::new(alloc);
    let lifetime = SemanticTokenType::new(alloc, "lifetime");
    trial.same(
        "lifetime",
        is_kind(lifetime, SemanticTokenType::TYPE()),
        Ok(false),
    );
    let fixed = SemanticTokenModifier::new(alloc, "static");
    trial.same(
        "static",
        is_kind(fixed, SemanticTokenModifier::STATIC()),
        Ok(true),
    );
    let utf16 = PositionEncodingKind::new(alloc, "utf-16");
    trial.same(
        "utf-16",
        is_kind(utf16, PositionEncodingKind::UTF16()),
        Ok(true),
    );
    let absolute = TokenFormat::new(alloc, "absolute");
    trial.same(
        "absolute",
        is_kind(absolute, TokenFormat::RELATIVE()),
        Ok(false),
    );
    let known = CodeActionKind::SOURCE_FIX_ALL();
    trial.shows("source.fixAll", known, "CodeActionKind(\"source.fixAll\")");
    let ebcdic = PositionEncodingKind::new(alloc, "ebcdic");
    trial.shows("ebcdic", ebcdic, "Ok(PositionEncodingKind(\"ebcdic\"))");
    trial.end()
}

// What Neovim 0.7.2 says of itself in `initialize`, the known names, and a kind of a server's own.
const CODE_ACTION_KINDS: &str = r#"
["","Empty","QuickFix","Refactor","RefactorExtract","RefactorInline","RefactorRewrite","Source","SourceOrganizeImports","quickfix","refactor","refactor.extract","refactor.inline","refactor.rewrite","source","source.organizeImports"]
["","quickfix","refactor","refactor.extract","refactor.inline","refactor.rewrite","source","source.organizeImports"]
["source.fixAll.eslint"]
"#;

const POSITION_ENCODINGS: &str = r#"
["utf-8","utf-16","utf-32"]
"#;

const FULL_OPTIONS: &str = r#"
{"delta":true}
{"delta":null} => {}
{"range":true} => {}
true
false
! null :: one of its forms is wanted
! "true" :: one of its forms is wanted
! {"delta":1} :: one of its forms is wanted
"#;

const FOLDING_RANGE_KINDS: &str = r#"
["comment","imports","region"]
"#;

const TRACE_VALUES: &str = r#"
"off"
"messages"
"verbose"
! "compact" :: one of its texts is wanted
! "Off" :: one of its texts is wanted
! false :: one of its texts is wanted
"#;

const MARKUP_KINDS: &str = r#"
["markdown","plaintext"]
"#;

// The example of section "MarkupContent".
const MARKUP_CONTENTS: &str = r##"
{"kind":"markdown","value":"# Header\nSome text\n```typescript\nsomeCode();\n```"}
{"value":"a","kind":"plaintext","language":"c"} => {"kind":"plaintext","value":"a"}
# clangd 14
{"kind":"plaintext","value":"function old_name\n\n→ int\nParameters:\n- int n\n\nstatic int old_name(int n)"}
! {"value":"a"} :: kind: is missing
! {"kind":"markdown"} :: value: is missing
! "a" :: an object is wanted
"##;

const MARKED_STRINGS: &str = r#"
{"language":"typescript","value":"const a: 1"}
"**a**"
! {"kind":"markdown","value":"a"} :: one of its forms is wanted
! null :: one of its forms is wanted
"#;

const DOCUMENTATIONS: &str = r#"
"Detailed information"
{"kind":"markdown","value":"`a`"}
! {"language":"c","value":"a"} :: one of its forms is wanted
! [] :: one of its forms is wanted
"#;

// Of the section "Work Done Progress".
const PROGRESS_OPTIONS: &str = r#"
{"workDoneProgress":true}
{"workDoneProgress":null} => {}
{}
! {"workDoneProgress":1} :: workDoneProgress: true or false is wanted
! true :: an object is wanted
"#;

const NO_CODE_ACTION_KINDS: &str = r#"
! null :: a text is wanted
! 1 :: a text is wanted
! [""] :: a text is wanted
! {} :: a text is wanted
"#;

const NO_FOLDING_RANGE_KINDS: &str = r#"
! "Comment" :: one of its texts is wanted
! "import" :: one of its texts is wanted
! null :: one of its texts is wanted
"#;

const NO_MARKUP_KINDS: &str = r#"
! "plainText" :: one of its texts is wanted
! "html" :: one of its texts is wanted
! 1 :: one of its texts is wanted
"#;

const NO_LANGUAGE_STRINGS: &str = r#"
! {"language":"c"} :: value: is missing
! {"value":"a"} :: language: is missing
"#;

#[test]
fn texts_of_editors(rt: HostRuntime) -> Result<(), RowError> {
    let mut trial = Trial::new(rt.alloc());
    trial.holds::<Vec<CodeActionKind>>(CODE_ACTION_KINDS);
    trial.holds::<Vec<PositionEncodingKind>>(POSITION_ENCODINGS);
    trial.holds::<SemanticTokensFullOptions>(FULL_OPTIONS);
    trial.holds::<Vec<FoldingRangeKind>>(FOLDING_RANGE_KINDS);
    trial.holds::<TraceValue>(TRACE_VALUES);
    trial.holds::<Vec<MarkupKind>>(MARKUP_KINDS);
    trial.holds::<MarkupContent>(MARKUP_CONTENTS);
    trial.holds::<MarkedString>(MARKED_STRINGS);
    trial.holds::<Documentation>(DOCUMENTATIONS);
    trial.holds::<WorkDoneProgressOptions>(PROGRESS_OPTIONS);
    trial.holds::<CodeActionKind>(NO_CODE_ACTION_KINDS);
    trial.holds::<FoldingRangeKind>(NO_FOLDING_RANGE_KINDS);
    trial.holds::<MarkupKind>(NO_MARKUP_KINDS);
    trial.holds::<LanguageString>(NO_LANGUAGE_STRINGS);
    trial.end()
}

const CODE: &str = r#"{"language":"rust","value":"fn a() {}"}"#;

fn code(alloc: Global) -> Result<MarkedString, NoMemory> {
    let language = String::from_str(alloc, "rust")?;
    let value = String::from_str(alloc, "fn a() {}")?;
    Ok(MarkedString::from_language_code(language, value))
}

fn code_copied(alloc: Global) -> Result<MarkedString, NoMemory> {
    let code = code(alloc)?;
    let copy: Result<MarkedString, AllocError> = code.clone();
    drop(code);
    Ok(copy?)
}

fn markdown(alloc: Global) -> Result<MarkedString, NoMemory> {
    Ok(MarkedString::from_markdown(String::from_str(alloc, "*a*")?))
}

// Whether both are there, and differ.
fn are_two<T: PartialEq + Drop>(a: Result<T, NoMemory>, b: Result<T, NoMemory>) -> bool {
    match (a, b) {
        (Ok(a), Ok(b)) => a != b,
        _ => false,
    }
}

#[test]
fn values_by_their_parts(rt: HostRuntime) -> Result<(), RowError> {
    let alloc = rt.alloc();
    let mut trial = Trial::new(alloc);
    trial.same("read", read_text(alloc, CODE).ok(), code(alloc).ok());
    trial.same("a copy", code_copied(alloc), code(alloc));
    trial.is_true("no code", are_two(markdown(alloc), code(alloc)));
    trial.shows("markdown", markdown(alloc), "Ok(String(\"*a*\"))");
    trial.end()
}

fn documentation(alloc: Global) -> Result<Documentation, NoMemory> {
    Ok(Documentation::MarkupContent(MarkupContent {
        kind: MarkupKind::PlainText,
        value: String::from_str(alloc, "a")?,
    }))
}

#[test]
fn values_by_their_variants(rt: HostRuntime) -> Result<(), RowError> {
    let alloc = rt.alloc();
    let mut trial = Trial::new(alloc);
    let text = r#"{"kind":"plaintext","value":"a"}"#;
    trial.same(
        "a documentation",
        read_text(alloc, text).ok(),
        documentation(alloc).ok(),
    );
    trial.same("the trace", TraceValue::default(), TraceValue::Off);
    let progress = WorkDoneProgressOptions::default();
    trial.same("the progress", progress.work_done_progress, None);
    trial.same(
        "all tokens",
        read_text(alloc, "{}").ok(),
        Some(SemanticTokensFullOptions::Delta { delta: None }),
    );
    trial.end()
}
