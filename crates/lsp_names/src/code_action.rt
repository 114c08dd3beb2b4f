// The kind of section "Code Action Request".
ghost use Rattle.std.specs.Prelude.{◌≡◌, codes, string_bytes, IfOk};
ghost use Rattle.lsp_names.specs.KindText.{text_kind_row};

use crate::kind_text::KindText;
use lsp_shape::{Misfit, Wire};
use no_memory::NoMemory;
use serde_json::Value;
use std::alloc::Global;
use std::marker::Model;

/// What a code action does, by names with dots between them, from the general to the special. Any
/// other string is kept as it is (LSP 3.17, "Code Action Request").
#[derive(Clone, Debug, PartialEq, Eq, PartialOrd, Ord, Hash, Drop)]
pub struct CodeActionKind(KindText);

impl Model for CodeActionKind {
    ghost use Rattle.std.specs.Prelude.{ℕ, List};

    ghost Value = { List ℕ };

    ghost view = { λ k. k.0 };

    ghost inverse = { λ s. record { 0 = s } };
}

impl CodeActionKind {
    /// No kind in particular.
    pub fn EMPTY() -> CodeActionKind
        ensures { result ≡ codes "" }
    {
        CodeActionKind(KindText::known(""))
    }

    /// Fixes a problem, such as one that a diagnostic reports.
    pub fn QUICKFIX() -> CodeActionKind
        ensures { result ≡ codes "quickfix" }
    {
        CodeActionKind(KindText::known("quickfix"))
    }

    /// Changes how code is written, and not what it does.
    pub fn REFACTOR() -> CodeActionKind
        ensures { result ≡ codes "refactor" }
    {
        CodeActionKind(KindText::known("refactor"))
    }

    /// Makes a part of the code an item of its own, such as a function or a variable.
    pub fn REFACTOR_EXTRACT() -> CodeActionKind
        ensures { result ≡ codes "refactor.extract" }
    {
        CodeActionKind(KindText::known("refactor.extract"))
    }

    /// Puts what a name stands for in its place.
    pub fn REFACTOR_INLINE() -> CodeActionKind
        ensures { result ≡ codes "refactor.inline" }
    {
        CodeActionKind(KindText::known("refactor.inline"))
    }

    /// Writes the code in another form, such as with one more parameter.
    pub fn REFACTOR_REWRITE() -> CodeActionKind
        ensures { result ≡ codes "refactor.rewrite" }
    {
        CodeActionKind(KindText::known("refactor.rewrite"))
    }

    /// Works on the whole file.
    pub fn SOURCE() -> CodeActionKind
        ensures { result ≡ codes "source" }
    {
        CodeActionKind(KindText::known("source"))
    }

    /// Tidies the imports of the file.
    pub fn SOURCE_ORGANIZE_IMPORTS() -> CodeActionKind
        ensures { result ≡ codes "source.organizeImports" }
    {
        CodeActionKind(KindText::known("source.organizeImports"))
    }

    /// Fixes all that has a clear fix which needs no choice by the user. Since 3.17.
    pub fn SOURCE_FIX_ALL() -> CodeActionKind
        ensures { result ≡ codes "source.fixAll" }
    {
        CodeActionKind(KindText::known("source.fixAll"))
    }

    /// The kind of that string, known or not.
    pub fn new(alloc: Global, text: &str) -> Result<CodeActionKind, NoMemory>
        ensures { IfOk result (λ k. k ≡ text.now) }
    {
        Ok(CodeActionKind(KindText::new(alloc, text)?))
    }

    /// The string, as it stands in a message.
    pub fn as_str(&self) -> &str
        ensures { result.now ≡ self.now }
    {
        self.0.as_str()
    }
}

impl From<String> for CodeActionKind {
    ghost from_gives = { λ text k. k ≡ string_bytes text };

    fn from(text: String) -> CodeActionKind {
        CodeActionKind(KindText::from(text))
    }
}

impl From<&'static str> for CodeActionKind {
    ghost from_gives = { λ text k. k ≡ text.now };

    fn from(text: &'static str) -> CodeActionKind {
        CodeActionKind(KindText::known(text))
    }
}

#[tactic(auto, unfolding(crate::specs::KindText::text_kind_row))]
impl Wire for CodeActionKind {
    ghost shape = { text_kind_row.shape };

    ghost shown = { text_kind_row.shown };

    fn from_value(alloc: Global, value: &Value) -> Result<CodeActionKind, Misfit> {
        Ok(CodeActionKind::from(String::from_value(alloc, value)?))
    }

    fn to_value(&self, alloc: Global) -> Result<Value, NoMemory> {
        Ok(Value::try_from_str(alloc, self.as_str())?)
    }
}
