// Texts for people, of sections "MarkupContent" and "Hover Request".
ghost use Rattle.std.specs.Prelude.{◌≡◌};
ghost use Rattle.lsp_names.specs.Markup.{markup_kind_row, markup_content_row, language_string_row, marked_string_row, documentation_row};

use lsp_shape::{Misfit, Required, Wanted, Wire, Writer, attempt, form, read_object};
use no_memory::NoMemory;
use serde_json::Value;
use std::alloc::Global;

/// How a text for people is written (LSP 3.17, "MarkupContent").
#[derive(Clone, Debug, PartialEq, Eq, Drop)]
pub enum MarkupKind {
    /// As it stands.
    PlainText,
    /// In GitHub's form of Markdown.
    Markdown,
}

#[tactic(auto, unfolding(crate::specs::Markup::markup_kind_row))]
impl Wire for MarkupKind {
    ghost shape = { markup_kind_row.shape };

    ghost shown = { markup_kind_row.shown };

    fn from_value(_alloc: Global, value: &Value) -> Result<MarkupKind, Misfit> {
        match value.as_str() {
            Some("plaintext") => Ok(MarkupKind::PlainText),
            Some("markdown") => Ok(MarkupKind::Markdown),
            _ => Err(Misfit::wanted(Wanted::Name)),
        }
    }

    fn to_value(&self, alloc: Global) -> Result<Value, NoMemory> {
        let name = match self {
            MarkupKind::PlainText => "plaintext",
            MarkupKind::Markdown => "markdown",
        };
        Ok(Value::try_from_str(alloc, name)?)
    }
}

/// A text for people, with the form that it is written in. Since 3.3 (LSP 3.17, "MarkupContent").
#[derive(Clone, Debug, PartialEq, Eq, Drop)]
pub struct MarkupContent {
    /// The form.
    pub kind: MarkupKind,
    /// The text.
    pub value: String,
}

#[tactic(auto, unfolding(crate::specs::Markup::markup_content_row))]
impl Wire for MarkupContent {
    ghost shape = { markup_content_row.shape };

    ghost shown = { markup_content_row.shown };

    fn from_value(alloc: Global, value: &Value) -> Result<MarkupContent, Misfit> {
        let (kind, value) = read_object(alloc, value, (Required("kind"), Required("value")))?;
        Ok(MarkupContent { kind, value })
    }

    fn to_value(&self, alloc: Global) -> Result<Value, NoMemory> {
        let mut object = Writer::new(alloc);
        object.field("kind", &self.kind);
        object.field("value", &self.value);
        object.end()
    }
}

/// Code, with the language that it is in (LSP 3.17, "Hover Request").
#[derive(Clone, Debug, PartialEq, Eq, Drop)]
pub struct LanguageString {
    /// The language, by its name in documents, such as `rust`.
    pub language: String,
    /// The code.
    pub value: String,
}

#[tactic(auto, unfolding(crate::specs::Markup::language_string_row))]
impl Wire for LanguageString {
    ghost shape = { language_string_row.shape };

    ghost shown = { language_string_row.shown };

    fn from_value(alloc: Global, value: &Value) -> Result<LanguageString, Misfit> {
        let (language, value) = read_object(
            alloc,
            value,
            (Required("language"), Required("value")),
        )?;
        Ok(LanguageString { language, value })
    }

    fn to_value(&self, alloc: Global) -> Result<Value, NoMemory> {
        let mut object = Writer::new(alloc);
        object.field("language", &self.language);
        object.field("value", &self.value);
        object.end()
    }
}

/// A text for people, Markdown or code. LSP has deprecated it: use `MarkupContent` (LSP 3.17,
/// "Hover Request").
#[derive(Clone, Debug, PartialEq, Eq, Drop)]
pub enum MarkedString {
    /// Markdown.
    String(String),
    /// Code.
    LanguageString(LanguageString),
}

impl MarkedString {
    /// Markdown.
    pub fn from_markdown(markdown: String) -> MarkedString
        ensures { result ≡ MarkedString.String markdown }
    {
        MarkedString::String(markdown)
    }

    /// Code in that language.
    pub fn from_language_code(language: String, code_block: String) -> MarkedString
        ensures { result
            ≡ MarkedString.LanguageString (record { language = language; value = code_block }) }
    {
        MarkedString::LanguageString(LanguageString {
            language,
            value: code_block,
        })
    }
}

#[tactic(auto, unfolding(crate::specs::Markup::marked_string_row))]
impl Wire for MarkedString {
    ghost shape = { marked_string_row.shape };

    ghost shown = { marked_string_row.shown };

    fn from_value(alloc: Global, value: &Value) -> Result<MarkedString, Misfit> {
        if let Some(markdown) = attempt(alloc, value)? {
            return Ok(MarkedString::String(markdown));
        }
        Ok(MarkedString::LanguageString(form(alloc, value)?))
    }

    fn to_value(&self, alloc: Global) -> Result<Value, NoMemory> {
        match self {
            MarkedString::String(markdown) => markdown.to_value(alloc),
            MarkedString::LanguageString(code) => code.to_value(alloc),
        }
    }
}

/// What documents an item, such as a completion or a parameter (LSP 3.17, "Completion Request",
/// "Signature Help Request").
#[derive(Clone, Debug, PartialEq, Eq, Drop)]
pub enum Documentation {
    /// A string that is shown as it stands.
    String(String),
    /// A text with its form.
    MarkupContent(MarkupContent),
}

#[tactic(auto, unfolding(crate::specs::Markup::documentation_row))]
impl Wire for Documentation {
    ghost shape = { documentation_row.shape };

    ghost shown = { documentation_row.shown };

    fn from_value(alloc: Global, value: &Value) -> Result<Documentation, Misfit> {
        if let Some(text) = attempt(alloc, value)? {
            return Ok(Documentation::String(text));
        }
        Ok(Documentation::MarkupContent(form(alloc, value)?))
    }

    fn to_value(&self, alloc: Global) -> Result<Value, NoMemory> {
        match self {
            Documentation::String(text) => text.to_value(alloc),
            Documentation::MarkupContent(content) => content.to_value(alloc),
        }
    }
}
