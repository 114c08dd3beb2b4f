// Kinds of section "Text Document Synchronization".
ghost use Rattle.std.specs.Prelude.{◌≡◌, codes, option_map, Some, ℤ};
ghost use Rattle.lsp_shape.specs.Shape.{i32_shape};
ghost use Rattle.lsp_shape.specs.Shown.{show_signed};
ghost use Rattle.lsp_kinds.specs.Named.{IsReadBy, kind_text, name_in, numbers_of};
ghost use Rattle.lsp_kinds.specs.Tables.{text_document_sync_kinds, text_document_save_reasons};

use crate::named::{UNKNOWN, name_of, number_of, write_kind};
use lsp_shape::{Misfit, NoMemory, Wire};
use serde_json::Value;
use std::alloc::Global;
use std::fmt;
use std::marker::Model;

/// How a client sends the changes of a document (LSP 3.17, "Text Document Synchronization").
#[derive(Clone, Copy, PartialEq, Eq)]
pub struct TextDocumentSyncKind(i32);

impl Model for TextDocumentSyncKind {
    ghost Value = { ℤ };

    ghost view = { λ k. k.0 };

    ghost inverse = { λ n. record { 0 = n } };
}

#[tactic(auto, unfolding(crate::specs::Tables::text_document_sync_kinds))]
impl TextDocumentSyncKind {
    /// Not at all.
    pub const NONE: TextDocumentSyncKind = TextDocumentSyncKind(0);
    /// The whole document each time.
    pub const FULL: TextDocumentSyncKind = TextDocumentSyncKind(1);
    /// The whole document when it is opened, and then only what changed.
    pub const INCREMENTAL: TextDocumentSyncKind = TextDocumentSyncKind(2);

    const NAMES: [(&'static str, i32); 3] = [
        ("None", Self::NONE.0),
        ("Full", Self::FULL.0),
        ("Incremental", Self::INCREMENTAL.0),
    ];

    /// Each constant, in the order of LSP 3.17: what `try_from` gives for the names in that order.
    pub fn constants() -> [TextDocumentSyncKind; 3]
        ensures { result ≡ numbers_of text_document_sync_kinds }
    {
        [Self::NONE, Self::FULL, Self::INCREMENTAL]
    }

    /// The name of the number, where it has one.
    pub fn name(&self) -> Option<&'static str>
        ensures { option_map (λ s. s.now) result ≡ name_in text_document_sync_kinds self.now }
    {
        name_of(&Self::NAMES, self.0)
    }
}

// The numbers of LSP 3.17.
const _: () = prove!(TextDocumentSyncKind::NONE.0 == 0);

const _: () = prove!(TextDocumentSyncKind::FULL.0 == 1);

const _: () = prove!(TextDocumentSyncKind::INCREMENTAL.0 == 2);

#[tactic(auto, unfolding(crate::specs::Tables::text_document_sync_kinds))]
impl TryFrom<&str> for TextDocumentSyncKind {
    type Error = &'static str;

    ghost try_from_gives = { λ name r. IsReadBy text_document_sync_kinds name.now (λ e. e.now) r };

    fn try_from(name: &str) -> Result<TextDocumentSyncKind, &'static str> {
        match number_of(&Self::NAMES, name) {
            Some(number) => Ok(TextDocumentSyncKind(number)),
            None => Err(UNKNOWN),
        }
    }
}

impl fmt::Debug for TextDocumentSyncKind {
    ghost debug_output = { λ k. Some
        (kind_text text_document_sync_kinds (codes "TextDocumentSyncKind") k) };

    fn fmt<W: fmt::Write>(&self, f: &mut fmt::Formatter<W>) -> fmt::Result {
        write_kind(f, "TextDocumentSyncKind", self.name(), self.0)
    }
}

impl Wire for TextDocumentSyncKind {
    ghost shape = { i32_shape };

    ghost shown = { show_signed };

    fn from_value(alloc: Global, value: &Value) -> Result<TextDocumentSyncKind, Misfit> {
        Ok(TextDocumentSyncKind(i32::from_value(alloc, value)?))
    }

    fn to_value(&self, alloc: Global) -> Result<Value, NoMemory> {
        self.0.to_value(alloc)
    }
}

/// Why a document is saved (LSP 3.17, "WillSaveTextDocument Notification").
#[derive(Clone, Copy, PartialEq, Eq)]
pub struct TextDocumentSaveReason(i32);

impl Model for TextDocumentSaveReason {
    ghost Value = { ℤ };

    ghost view = { λ k. k.0 };

    ghost inverse = { λ n. record { 0 = n } };
}

#[tactic(auto, unfolding(crate::specs::Tables::text_document_save_reasons))]
impl TextDocumentSaveReason {
    /// The user saved it, or started a debugger, or a call of an API did.
    pub const MANUAL: TextDocumentSaveReason = TextDocumentSaveReason(1);
    /// Some time after it was changed.
    pub const AFTER_DELAY: TextDocumentSaveReason = TextDocumentSaveReason(2);
    /// The client lost the input focus.
    pub const FOCUS_OUT: TextDocumentSaveReason = TextDocumentSaveReason(3);

    const NAMES: [(&'static str, i32); 3] = [
        ("Manual", Self::MANUAL.0),
        ("AfterDelay", Self::AFTER_DELAY.0),
        ("FocusOut", Self::FOCUS_OUT.0),
    ];

    /// Each constant, in the order of LSP 3.17: what `try_from` gives for the names in that order.
    pub fn constants() -> [TextDocumentSaveReason; 3]
        ensures { result ≡ numbers_of text_document_save_reasons }
    {
        [Self::MANUAL, Self::AFTER_DELAY, Self::FOCUS_OUT]
    }

    /// The name of the number, where it has one.
    pub fn name(&self) -> Option<&'static str>
        ensures { option_map (λ s. s.now) result ≡ name_in text_document_save_reasons self.now }
    {
        name_of(&Self::NAMES, self.0)
    }
}

// The numbers of LSP 3.17.
const _: () = prove!(TextDocumentSaveReason::MANUAL.0 == 1);

const _: () = prove!(TextDocumentSaveReason::AFTER_DELAY.0 == 2);

const _: () = prove!(TextDocumentSaveReason::FOCUS_OUT.0 == 3);

#[tactic(auto, unfolding(crate::specs::Tables::text_document_save_reasons))]
impl TryFrom<&str> for TextDocumentSaveReason {
    type Error = &'static str;

    ghost try_from_gives = { λ name r. IsReadBy text_document_save_reasons name.now
        (λ e. e.now) r };

    fn try_from(name: &str) -> Result<TextDocumentSaveReason, &'static str> {
        match number_of(&Self::NAMES, name) {
            Some(number) => Ok(TextDocumentSaveReason(number)),
            None => Err(UNKNOWN),
        }
    }
}

impl fmt::Debug for TextDocumentSaveReason {
    ghost debug_output = { λ k. Some
        (kind_text text_document_save_reasons (codes "TextDocumentSaveReason") k) };

    fn fmt<W: fmt::Write>(&self, f: &mut fmt::Formatter<W>) -> fmt::Result {
        write_kind(f, "TextDocumentSaveReason", self.name(), self.0)
    }
}

impl Wire for TextDocumentSaveReason {
    ghost shape = { i32_shape };

    ghost shown = { show_signed };

    fn from_value(alloc: Global, value: &Value) -> Result<TextDocumentSaveReason, Misfit> {
        Ok(TextDocumentSaveReason(i32::from_value(alloc, value)?))
    }

    fn to_value(&self, alloc: Global) -> Result<Value, NoMemory> {
        self.0.to_value(alloc)
    }
}
