// The kinds and the options of section "Semantic Tokens".
ghost use Rattle.std.specs.Prelude.{◌≡◌, codes, string_bytes, IfOk};
ghost use Rattle.lsp_names.specs.KindText.{text_kind_row};
ghost use Rattle.lsp_names.specs.SemanticTokens.{semantic_tokens_full_options_delta_row, semantic_tokens_full_options_row};

use crate::kind_text::KindText;
use lsp_shape::{Misfit, Optional, Wire, Writer, attempt, form, read_object};
use no_memory::NoMemory;
use serde_json::Value;
use std::alloc::Global;
use std::marker::Model;

/// What a token of code is, by a name. Any other name is kept as it is. Since 3.16 (LSP 3.17,
/// "Semantic Tokens").
#[derive(Clone, Debug, PartialEq, Eq, PartialOrd, Ord, Hash, Drop)]
pub struct SemanticTokenType(KindText);

impl Model for SemanticTokenType {
    ghost use Rattle.std.specs.Prelude.{ℕ, List};

    ghost Value = { List ℕ };

    ghost view = { λ k. k.0 };

    ghost inverse = { λ s. record { 0 = s } };
}

impl SemanticTokenType {
    /// A namespace, a module or a package.
    pub fn NAMESPACE() -> SemanticTokenType
        ensures { result ≡ codes "namespace" }
    {
        SemanticTokenType(KindText::known("namespace"))
    }

    /// A type for which no other name fits.
    pub fn TYPE() -> SemanticTokenType
        ensures { result ≡ codes "type" }
    {
        SemanticTokenType(KindText::known("type"))
    }

    /// A class.
    pub fn CLASS() -> SemanticTokenType
        ensures { result ≡ codes "class" }
    {
        SemanticTokenType(KindText::known("class"))
    }

    /// A type that lists its values.
    pub fn ENUM() -> SemanticTokenType
        ensures { result ≡ codes "enum" }
    {
        SemanticTokenType(KindText::known("enum"))
    }

    /// An interface, or a trait.
    pub fn INTERFACE() -> SemanticTokenType
        ensures { result ≡ codes "interface" }
    {
        SemanticTokenType(KindText::known("interface"))
    }

    /// A record type.
    pub fn STRUCT() -> SemanticTokenType
        ensures { result ≡ codes "struct" }
    {
        SemanticTokenType(KindText::known("struct"))
    }

    /// A type that an item takes as a parameter.
    pub fn TYPE_PARAMETER() -> SemanticTokenType
        ensures { result ≡ codes "typeParameter" }
    {
        SemanticTokenType(KindText::known("typeParameter"))
    }

    /// A parameter of a function.
    pub fn PARAMETER() -> SemanticTokenType
        ensures { result ≡ codes "parameter" }
    {
        SemanticTokenType(KindText::known("parameter"))
    }

    /// A variable, also one that is never written again.
    pub fn VARIABLE() -> SemanticTokenType
        ensures { result ≡ codes "variable" }
    {
        SemanticTokenType(KindText::known("variable"))
    }

    /// A field or a property.
    pub fn PROPERTY() -> SemanticTokenType
        ensures { result ≡ codes "property" }
    {
        SemanticTokenType(KindText::known("property"))
    }

    /// One of the values of an enum.
    pub fn ENUM_MEMBER() -> SemanticTokenType
        ensures { result ≡ codes "enumMember" }
    {
        SemanticTokenType(KindText::known("enumMember"))
    }

    /// An event, as languages with event handlers have them.
    pub fn EVENT() -> SemanticTokenType
        ensures { result ≡ codes "event" }
    {
        SemanticTokenType(KindText::known("event"))
    }

    /// A function that belongs to no type.
    pub fn FUNCTION() -> SemanticTokenType
        ensures { result ≡ codes "function" }
    {
        SemanticTokenType(KindText::known("function"))
    }

    /// A function that belongs to a type.
    pub fn METHOD() -> SemanticTokenType
        ensures { result ≡ codes "method" }
    {
        SemanticTokenType(KindText::known("method"))
    }

    /// A macro.
    pub fn MACRO() -> SemanticTokenType
        ensures { result ≡ codes "macro" }
    {
        SemanticTokenType(KindText::known("macro"))
    }

    /// A word of the language itself.
    pub fn KEYWORD() -> SemanticTokenType
        ensures { result ≡ codes "keyword" }
    {
        SemanticTokenType(KindText::known("keyword"))
    }

    /// A word that changes a declaration, as `static`.
    pub fn MODIFIER() -> SemanticTokenType
        ensures { result ≡ codes "modifier" }
    {
        SemanticTokenType(KindText::known("modifier"))
    }

    /// A comment.
    pub fn COMMENT() -> SemanticTokenType
        ensures { result ≡ codes "comment" }
    {
        SemanticTokenType(KindText::known("comment"))
    }

    /// A literal text.
    pub fn STRING() -> SemanticTokenType
        ensures { result ≡ codes "string" }
    {
        SemanticTokenType(KindText::known("string"))
    }

    /// A literal number.
    pub fn NUMBER() -> SemanticTokenType
        ensures { result ≡ codes "number" }
    {
        SemanticTokenType(KindText::known("number"))
    }

    /// A literal regular expression.
    pub fn REGEXP() -> SemanticTokenType
        ensures { result ≡ codes "regexp" }
    {
        SemanticTokenType(KindText::known("regexp"))
    }

    /// An operator.
    pub fn OPERATOR() -> SemanticTokenType
        ensures { result ≡ codes "operator" }
    {
        SemanticTokenType(KindText::known("operator"))
    }

    /// A decorator or an annotation. New in LSP 3.17.
    pub fn DECORATOR() -> SemanticTokenType
        ensures { result ≡ codes "decorator" }
    {
        SemanticTokenType(KindText::known("decorator"))
    }

    /// The kind of that text, known or not.
    pub fn new(alloc: Global, text: &str) -> Result<SemanticTokenType, NoMemory>
        ensures { IfOk result (λ k. k ≡ text.now) }
    {
        Ok(SemanticTokenType(KindText::new(alloc, text)?))
    }

    /// The text, as it stands in a message.
    pub fn as_str(&self) -> &str
        ensures { result.now ≡ self.now }
    {
        self.0.as_str()
    }
}

impl From<String> for SemanticTokenType {
    ghost from_gives = { λ text k. k ≡ string_bytes text };

    fn from(text: String) -> SemanticTokenType {
        SemanticTokenType(KindText::from(text))
    }
}

impl From<&'static str> for SemanticTokenType {
    ghost from_gives = { λ text k. k ≡ text.now };

    fn from(text: &'static str) -> SemanticTokenType {
        SemanticTokenType(KindText::known(text))
    }
}

#[tactic(auto, unfolding(crate::specs::KindText::text_kind_row))]
impl Wire for SemanticTokenType {
    ghost shape = { text_kind_row.shape };

    ghost shown = { text_kind_row.shown };

    fn from_value(alloc: Global, value: &Value) -> Result<SemanticTokenType, Misfit> {
        Ok(SemanticTokenType::from(String::from_value(alloc, value)?))
    }

    fn to_value(&self, alloc: Global) -> Result<Value, NoMemory> {
        Ok(Value::try_from_str(alloc, self.as_str())?)
    }
}

/// What else is to be said of a token of code, by a name. Any other name is kept as it is. Since
/// 3.16 (LSP 3.17, "Semantic Tokens").
#[derive(Clone, Debug, PartialEq, Eq, PartialOrd, Ord, Hash, Drop)]
pub struct SemanticTokenModifier(KindText);

impl Model for SemanticTokenModifier {
    ghost use Rattle.std.specs.Prelude.{ℕ, List};

    ghost Value = { List ℕ };

    ghost view = { λ k. k.0 };

    ghost inverse = { λ s. record { 0 = s } };
}

impl SemanticTokenModifier {
    /// Declares its name.
    pub fn DECLARATION() -> SemanticTokenModifier
        ensures { result ≡ codes "declaration" }
    {
        SemanticTokenModifier(KindText::known("declaration"))
    }

    /// Defines its name.
    pub fn DEFINITION() -> SemanticTokenModifier
        ensures { result ≡ codes "definition" }
    {
        SemanticTokenModifier(KindText::known("definition"))
    }

    /// Never written again.
    pub fn READONLY() -> SemanticTokenModifier
        ensures { result ≡ codes "readonly" }
    {
        SemanticTokenModifier(KindText::known("readonly"))
    }

    /// Belongs to the type, and not to a value of it.
    pub fn STATIC() -> SemanticTokenModifier
        ensures { result ≡ codes "static" }
    {
        SemanticTokenModifier(KindText::known("static"))
    }

    /// Deprecated: its use is discouraged.
    pub fn DEPRECATED() -> SemanticTokenModifier
        ensures { result ≡ codes "deprecated" }
    {
        SemanticTokenModifier(KindText::known("deprecated"))
    }

    /// A type or a method with no body of its own.
    pub fn ABSTRACT() -> SemanticTokenModifier
        ensures { result ≡ codes "abstract" }
    {
        SemanticTokenModifier(KindText::known("abstract"))
    }

    /// Asynchronous.
    pub fn ASYNC() -> SemanticTokenModifier
        ensures { result ≡ codes "async" }
    {
        SemanticTokenModifier(KindText::known("async"))
    }

    /// A variable where it is written.
    pub fn MODIFICATION() -> SemanticTokenModifier
        ensures { result ≡ codes "modification" }
    {
        SemanticTokenModifier(KindText::known("modification"))
    }

    /// Stands in documentation.
    pub fn DOCUMENTATION() -> SemanticTokenModifier
        ensures { result ≡ codes "documentation" }
    {
        SemanticTokenModifier(KindText::known("documentation"))
    }

    /// Of the language's standard library.
    pub fn DEFAULT_LIBRARY() -> SemanticTokenModifier
        ensures { result ≡ codes "defaultLibrary" }
    {
        SemanticTokenModifier(KindText::known("defaultLibrary"))
    }

    /// The kind of that text, known or not.
    pub fn new(alloc: Global, text: &str) -> Result<SemanticTokenModifier, NoMemory>
        ensures { IfOk result (λ k. k ≡ text.now) }
    {
        Ok(SemanticTokenModifier(KindText::new(alloc, text)?))
    }

    /// The text, as it stands in a message.
    pub fn as_str(&self) -> &str
        ensures { result.now ≡ self.now }
    {
        self.0.as_str()
    }
}

impl From<String> for SemanticTokenModifier {
    ghost from_gives = { λ text k. k ≡ string_bytes text };

    fn from(text: String) -> SemanticTokenModifier {
        SemanticTokenModifier(KindText::from(text))
    }
}

impl From<&'static str> for SemanticTokenModifier {
    ghost from_gives = { λ text k. k ≡ text.now };

    fn from(text: &'static str) -> SemanticTokenModifier {
        SemanticTokenModifier(KindText::known(text))
    }
}

#[tactic(auto, unfolding(crate::specs::KindText::text_kind_row))]
impl Wire for SemanticTokenModifier {
    ghost shape = { text_kind_row.shape };

    ghost shown = { text_kind_row.shown };

    fn from_value(alloc: Global, value: &Value) -> Result<SemanticTokenModifier, Misfit> {
        Ok(SemanticTokenModifier::from(String::from_value(alloc, value)?))
    }

    fn to_value(&self, alloc: Global) -> Result<Value, NoMemory> {
        Ok(Value::try_from_str(alloc, self.as_str())?)
    }
}

/// How the numbers of tokens are meant, by a name. Any other name is kept as it is. Since 3.16 (LSP
/// 3.17, "Semantic Tokens").
#[derive(Clone, Debug, PartialEq, Eq, PartialOrd, Ord, Hash, Drop)]
pub struct TokenFormat(KindText);

impl Model for TokenFormat {
    ghost use Rattle.std.specs.Prelude.{ℕ, List};

    ghost Value = { List ℕ };

    ghost view = { λ k. k.0 };

    ghost inverse = { λ s. record { 0 = s } };
}

impl TokenFormat {
    /// The position of each token is relative to the token before it.
    pub fn RELATIVE() -> TokenFormat
        ensures { result ≡ codes "relative" }
    {
        TokenFormat(KindText::known("relative"))
    }

    /// The kind of that text, known or not.
    pub fn new(alloc: Global, text: &str) -> Result<TokenFormat, NoMemory>
        ensures { IfOk result (λ k. k ≡ text.now) }
    {
        Ok(TokenFormat(KindText::new(alloc, text)?))
    }

    /// The text, as it stands in a message.
    pub fn as_str(&self) -> &str
        ensures { result.now ≡ self.now }
    {
        self.0.as_str()
    }
}

impl From<String> for TokenFormat {
    ghost from_gives = { λ text k. k ≡ string_bytes text };

    fn from(text: String) -> TokenFormat {
        TokenFormat(KindText::from(text))
    }
}

impl From<&'static str> for TokenFormat {
    ghost from_gives = { λ text k. k ≡ text.now };

    fn from(text: &'static str) -> TokenFormat {
        TokenFormat(KindText::known(text))
    }
}

#[tactic(auto, unfolding(crate::specs::KindText::text_kind_row))]
impl Wire for TokenFormat {
    ghost shape = { text_kind_row.shape };

    ghost shown = { text_kind_row.shown };

    fn from_value(alloc: Global, value: &Value) -> Result<TokenFormat, Misfit> {
        Ok(TokenFormat::from(String::from_value(alloc, value)?))
    }

    fn to_value(&self, alloc: Global) -> Result<Value, NoMemory> {
        Ok(Value::try_from_str(alloc, self.as_str())?)
    }
}

/// Whether tokens of a whole document are supported, and whether also as edits. Since 3.16 (LSP
/// 3.17, "Semantic Tokens").
#[derive(Clone, Debug, PartialEq, Eq, Drop)]
pub enum SemanticTokensFullOptions {
    /// Whether they are, without edits.
    Bool(bool),
    /// They are, and `delta` says whether also as edits of an earlier result.
    Delta { delta: Option<bool> },
}

// The fields of `SemanticTokensFullOptions::Delta`.
#[derive(Drop)]
struct SemanticTokensFullOptionsDelta {
    delta: Option<bool>,
}

#[tactic(auto, unfolding(crate::specs::SemanticTokens::semantic_tokens_full_options_delta_row))]
impl Wire for SemanticTokensFullOptionsDelta {
    ghost shape = { semantic_tokens_full_options_delta_row.shape };

    ghost shown = { semantic_tokens_full_options_delta_row.shown };

    fn from_value(alloc: Global, value: &Value) -> Result<SemanticTokensFullOptionsDelta, Misfit> {
        let delta = read_object(alloc, value, Optional("delta"))?;
        Ok(SemanticTokensFullOptionsDelta { delta })
    }

    fn to_value(&self, alloc: Global) -> Result<Value, NoMemory> {
        let mut object = Writer::new(alloc);
        object.optional("delta", &self.delta);
        object.end()
    }
}

#[tactic(auto, unfolding(crate::specs::SemanticTokens::semantic_tokens_full_options_row, crate::specs::SemanticTokens::semantic_tokens_full_options_delta_row))]
impl Wire for SemanticTokensFullOptions {
    ghost shape = { semantic_tokens_full_options_row.shape };

    ghost shown = { semantic_tokens_full_options_row.shown };

    fn from_value(alloc: Global, value: &Value) -> Result<SemanticTokensFullOptions, Misfit> {
        if let Some(whole) = attempt(alloc, value)? {
            return Ok(SemanticTokensFullOptions::Bool(whole));
        }
        let x = form::<SemanticTokensFullOptionsDelta>(alloc, value)?;
        Ok(SemanticTokensFullOptions::Delta { delta: x.delta })
    }

    fn to_value(&self, alloc: Global) -> Result<Value, NoMemory> {
        match self {
            SemanticTokensFullOptions::Bool(whole) => whole.to_value(alloc),
            SemanticTokensFullOptions::Delta { delta } => {
                let mut object = Writer::new(alloc);
                object.optional("delta", delta);
                object.end()
            }
        }
    }
}
