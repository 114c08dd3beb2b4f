// Kinds of section "Diagnostic".
ghost use Rattle.std.specs.Prelude.{◌≡◌, codes, option_map, Some, ℤ};
ghost use Rattle.lsp_shape.specs.Shape.{i32_shape};
ghost use Rattle.lsp_shape.specs.Shown.{show_signed};
ghost use Rattle.lsp_kinds.specs.Named.{IsReadBy, kind_text, name_in, numbers_of};
ghost use Rattle.lsp_kinds.specs.Tables.{diagnostic_severities, diagnostic_tags};

use crate::named::{UNKNOWN, name_of, number_of, write_kind};
use lsp_shape::{Misfit, NoMemory, Wire};
use serde_json::Value;
use std::alloc::Global;
use std::fmt;
use std::marker::Model;

/// How severe a diagnostic is (LSP 3.17, "Diagnostic").
///
/// The smaller number is the more severe.
#[derive(Clone, Copy, PartialEq, Eq, PartialOrd, Ord)]
pub struct DiagnosticSeverity(i32);

impl Model for DiagnosticSeverity {
    ghost Value = { ℤ };

    ghost view = { λ k. k.0 };

    ghost inverse = { λ n. record { 0 = n } };
}

#[tactic(auto, unfolding(crate::specs::Tables::diagnostic_severities))]
impl DiagnosticSeverity {
    /// An error.
    pub const ERROR: DiagnosticSeverity = DiagnosticSeverity(1);
    /// A warning.
    pub const WARNING: DiagnosticSeverity = DiagnosticSeverity(2);
    /// Something to know.
    pub const INFORMATION: DiagnosticSeverity = DiagnosticSeverity(3);
    /// A hint, which a client may show less than the others.
    pub const HINT: DiagnosticSeverity = DiagnosticSeverity(4);

    const NAMES: [(&'static str, i32); 4] = [
        ("Error", Self::ERROR.0),
        ("Warning", Self::WARNING.0),
        ("Information", Self::INFORMATION.0),
        ("Hint", Self::HINT.0),
    ];

    /// Each constant, in the order of LSP 3.17: what `try_from` gives for the names in that order.
    pub fn constants() -> [DiagnosticSeverity; 4]
        ensures { result ≡ numbers_of diagnostic_severities }
    {
        [Self::ERROR, Self::WARNING, Self::INFORMATION, Self::HINT]
    }

    /// The name of the number, where it has one.
    pub fn name(&self) -> Option<&'static str>
        ensures { option_map (λ s. s.now) result ≡ name_in diagnostic_severities self.now }
    {
        name_of(&Self::NAMES, self.0)
    }
}

// The numbers of LSP 3.17.
const _: () = prove!(DiagnosticSeverity::ERROR.0 == 1);

const _: () = prove!(DiagnosticSeverity::WARNING.0 == 2);

const _: () = prove!(DiagnosticSeverity::INFORMATION.0 == 3);

const _: () = prove!(DiagnosticSeverity::HINT.0 == 4);

#[tactic(auto, unfolding(crate::specs::Tables::diagnostic_severities))]
impl TryFrom<&str> for DiagnosticSeverity {
    type Error = &'static str;

    ghost try_from_gives = { λ name r. IsReadBy diagnostic_severities name.now (λ e. e.now) r };

    fn try_from(name: &str) -> Result<DiagnosticSeverity, &'static str> {
        match number_of(&Self::NAMES, name) {
            Some(number) => Ok(DiagnosticSeverity(number)),
            None => Err(UNKNOWN),
        }
    }
}

impl fmt::Debug for DiagnosticSeverity {
    ghost debug_output = { λ k. Some
        (kind_text diagnostic_severities (codes "DiagnosticSeverity") k) };

    fn fmt<W: fmt::Write>(&self, f: &mut fmt::Formatter<W>) -> fmt::Result {
        write_kind(f, "DiagnosticSeverity", self.name(), self.0)
    }
}

impl Wire for DiagnosticSeverity {
    ghost shape = { i32_shape };

    ghost shown = { show_signed };

    fn from_value(alloc: Global, value: &Value) -> Result<DiagnosticSeverity, Misfit> {
        Ok(DiagnosticSeverity(i32::from_value(alloc, value)?))
    }

    fn to_value(&self, alloc: Global) -> Result<Value, NoMemory> {
        self.0.to_value(alloc)
    }
}

/// A mark on a diagnostic. Since 3.15 (LSP 3.17, "Diagnostic").
#[derive(Clone, Copy, PartialEq, Eq)]
pub struct DiagnosticTag(i32);

impl Model for DiagnosticTag {
    ghost Value = { ℤ };

    ghost view = { λ k. k.0 };

    ghost inverse = { λ n. record { 0 = n } };
}

#[tactic(auto, unfolding(crate::specs::Tables::diagnostic_tags))]
impl DiagnosticTag {
    /// The code is unused or unnecessary. A client may fade it out rather than underline it.
    pub const UNNECESSARY: DiagnosticTag = DiagnosticTag(1);
    /// The code is deprecated. A client may strike it through.
    pub const DEPRECATED: DiagnosticTag = DiagnosticTag(2);

    const NAMES: [(&'static str, i32); 2] = [
        ("Unnecessary", Self::UNNECESSARY.0),
        ("Deprecated", Self::DEPRECATED.0),
    ];

    /// Each constant, in the order of LSP 3.17: what `try_from` gives for the names in that order.
    pub fn constants() -> [DiagnosticTag; 2]
        ensures { result ≡ numbers_of diagnostic_tags }
    {
        [Self::UNNECESSARY, Self::DEPRECATED]
    }

    /// The name of the number, where it has one.
    pub fn name(&self) -> Option<&'static str>
        ensures { option_map (λ s. s.now) result ≡ name_in diagnostic_tags self.now }
    {
        name_of(&Self::NAMES, self.0)
    }
}

// The numbers of LSP 3.17.
const _: () = prove!(DiagnosticTag::UNNECESSARY.0 == 1);

const _: () = prove!(DiagnosticTag::DEPRECATED.0 == 2);

#[tactic(auto, unfolding(crate::specs::Tables::diagnostic_tags))]
impl TryFrom<&str> for DiagnosticTag {
    type Error = &'static str;

    ghost try_from_gives = { λ name r. IsReadBy diagnostic_tags name.now (λ e. e.now) r };

    fn try_from(name: &str) -> Result<DiagnosticTag, &'static str> {
        match number_of(&Self::NAMES, name) {
            Some(number) => Ok(DiagnosticTag(number)),
            None => Err(UNKNOWN),
        }
    }
}

impl fmt::Debug for DiagnosticTag {
    ghost debug_output = { λ k. Some (kind_text diagnostic_tags (codes "DiagnosticTag") k) };

    fn fmt<W: fmt::Write>(&self, f: &mut fmt::Formatter<W>) -> fmt::Result {
        write_kind(f, "DiagnosticTag", self.name(), self.0)
    }
}

impl Wire for DiagnosticTag {
    ghost shape = { i32_shape };

    ghost shown = { show_signed };

    fn from_value(alloc: Global, value: &Value) -> Result<DiagnosticTag, Misfit> {
        Ok(DiagnosticTag(i32::from_value(alloc, value)?))
    }

    fn to_value(&self, alloc: Global) -> Result<Value, NoMemory> {
        self.0.to_value(alloc)
    }
}
