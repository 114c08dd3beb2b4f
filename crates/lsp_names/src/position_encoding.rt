// The kind of section "Position".
ghost use Rattle.std.specs.Prelude.{◌≡◌, codes, string_bytes, IfOk};
ghost use Rattle.lsp_names.specs.KindText.{text_kind_row};

use crate::kind_text::KindText;
use lsp_shape::{Misfit, Wire};
use no_memory::NoMemory;
use serde_json::Value;
use std::alloc::Global;
use std::marker::Model;

/// The encoding in whose code units a position's `character` is counted. Any other name is kept as
/// it is. Since 3.17 (LSP 3.17, "Position").
#[derive(Clone, Debug, PartialEq, Eq, PartialOrd, Ord, Hash, Drop)]
pub struct PositionEncodingKind(KindText);

impl Model for PositionEncodingKind {
    ghost use Rattle.std.specs.Prelude.{ℕ, List};

    ghost Value = { List ℕ };

    ghost view = { λ k. k.0 };

    ghost inverse = { λ s. record { 0 = s } };
}

impl PositionEncodingKind {
    /// Code units of UTF-8, which are bytes.
    pub fn UTF8() -> PositionEncodingKind
        ensures { result ≡ codes "utf-8" }
    {
        PositionEncodingKind(KindText::known("utf-8"))
    }

    /// Code units of UTF-16, which each server has to support, and the default.
    pub fn UTF16() -> PositionEncodingKind
        ensures { result ≡ codes "utf-16" }
    {
        PositionEncodingKind(KindText::known("utf-16"))
    }

    /// Code units of UTF-32, which are Unicode's code points.
    pub fn UTF32() -> PositionEncodingKind
        ensures { result ≡ codes "utf-32" }
    {
        PositionEncodingKind(KindText::known("utf-32"))
    }

    /// The kind of that text, known or not.
    pub fn new(alloc: Global, text: &str) -> Result<PositionEncodingKind, NoMemory>
        ensures { IfOk result (λ k. k ≡ text.now) }
    {
        Ok(PositionEncodingKind(KindText::new(alloc, text)?))
    }

    /// The text, as it stands in a message.
    pub fn as_str(&self) -> &str
        ensures { result.now ≡ self.now }
    {
        self.0.as_str()
    }
}

impl From<String> for PositionEncodingKind {
    ghost from_gives = { λ text k. k ≡ string_bytes text };

    fn from(text: String) -> PositionEncodingKind {
        PositionEncodingKind(KindText::from(text))
    }
}

impl From<&'static str> for PositionEncodingKind {
    ghost from_gives = { λ text k. k ≡ text.now };

    fn from(text: &'static str) -> PositionEncodingKind {
        PositionEncodingKind(KindText::known(text))
    }
}

#[tactic(auto, unfolding(crate::specs::KindText::text_kind_row))]
impl Wire for PositionEncodingKind {
    ghost shape = { text_kind_row.shape };

    ghost shown = { text_kind_row.shown };

    fn from_value(alloc: Global, value: &Value) -> Result<PositionEncodingKind, Misfit> {
        Ok(PositionEncodingKind::from(String::from_value(alloc, value)?))
    }

    fn to_value(&self, alloc: Global) -> Result<Value, NoMemory> {
        Ok(Value::try_from_str(alloc, self.as_str())?)
    }
}
