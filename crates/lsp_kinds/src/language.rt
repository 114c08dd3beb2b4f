// Kinds of the language features: why or how something is asked for or shown.
ghost use Rattle.std.specs.Prelude.{◌≡◌, codes, option_map, Some, ℤ};
ghost use Rattle.lsp_shape.specs.Shape.{i32_shape};
ghost use Rattle.lsp_shape.specs.Shown.{show_signed};
ghost use Rattle.lsp_kinds.specs.Named.{IsReadBy, kind_text, name_in, numbers_of};
ghost use Rattle.lsp_kinds.specs.Tables.{code_action_trigger_kinds, document_highlight_kinds, inlay_hint_kinds, prepare_support_default_behaviors, signature_help_trigger_kinds};

use crate::named::{UNKNOWN, name_of, number_of, write_kind};
use lsp_shape::{Misfit, NoMemory, Wire};
use serde_json::Value;
use std::alloc::Global;
use std::fmt;
use std::marker::Model;

/// Why code actions are asked for. Since 3.17 (LSP 3.17, "Code Action Request").
#[derive(Clone, Copy, PartialEq, Eq)]
pub struct CodeActionTriggerKind(i32);

impl Model for CodeActionTriggerKind {
    ghost Value = { ℤ };

    ghost view = { λ k. k.0 };

    ghost inverse = { λ n. record { 0 = n } };
}

#[tactic(auto, unfolding(crate::specs::Tables::code_action_trigger_kinds))]
impl CodeActionTriggerKind {
    /// The user asked for them, or an extension did.
    pub const INVOKED: CodeActionTriggerKind = CodeActionTriggerKind(1);
    /// The client asked by itself, for example since the selection changed.
    pub const AUTOMATIC: CodeActionTriggerKind = CodeActionTriggerKind(2);

    const NAMES: [(&'static str, i32); 2] = [
        ("Invoked", Self::INVOKED.0),
        ("Automatic", Self::AUTOMATIC.0),
    ];

    /// Each constant, in the order of LSP 3.17: what `try_from` gives for the names in that order.
    pub fn constants() -> [CodeActionTriggerKind; 2]
        ensures { result ≡ numbers_of code_action_trigger_kinds }
    {
        [Self::INVOKED, Self::AUTOMATIC]
    }

    /// The name of the number, where it has one.
    pub fn name(&self) -> Option<&'static str>
        ensures { option_map (λ s. s.now) result ≡ name_in code_action_trigger_kinds self.now }
    {
        name_of(&Self::NAMES, self.0)
    }
}

// The numbers of LSP 3.17.
const _: () = prove!(CodeActionTriggerKind::INVOKED.0 == 1);

const _: () = prove!(CodeActionTriggerKind::AUTOMATIC.0 == 2);

#[tactic(auto, unfolding(crate::specs::Tables::code_action_trigger_kinds))]
impl TryFrom<&str> for CodeActionTriggerKind {
    type Error = &'static str;

    ghost try_from_gives = { λ name r. IsReadBy code_action_trigger_kinds name.now (λ e. e.now) r };

    fn try_from(name: &str) -> Result<CodeActionTriggerKind, &'static str> {
        match number_of(&Self::NAMES, name) {
            Some(number) => Ok(CodeActionTriggerKind(number)),
            None => Err(UNKNOWN),
        }
    }
}

impl fmt::Debug for CodeActionTriggerKind {
    ghost debug_output = { λ k. Some
        (kind_text code_action_trigger_kinds (codes "CodeActionTriggerKind") k) };

    fn fmt<W: fmt::Write>(&self, f: &mut fmt::Formatter<W>) -> fmt::Result {
        write_kind(f, "CodeActionTriggerKind", self.name(), self.0)
    }
}

impl Wire for CodeActionTriggerKind {
    ghost shape = { i32_shape };

    ghost shown = { show_signed };

    fn from_value(alloc: Global, value: &Value) -> Result<CodeActionTriggerKind, Misfit> {
        Ok(CodeActionTriggerKind(i32::from_value(alloc, value)?))
    }

    fn to_value(&self, alloc: Global) -> Result<Value, NoMemory> {
        self.0.to_value(alloc)
    }
}

/// How a place that is highlighted uses the symbol (LSP 3.17, "Document Highlights Request").
#[derive(Clone, Copy, PartialEq, Eq)]
pub struct DocumentHighlightKind(i32);

impl Model for DocumentHighlightKind {
    ghost Value = { ℤ };

    ghost view = { λ k. k.0 };

    ghost inverse = { λ n. record { 0 = n } };
}

#[tactic(auto, unfolding(crate::specs::Tables::document_highlight_kinds))]
impl DocumentHighlightKind {
    /// The same text stands there.
    pub const TEXT: DocumentHighlightKind = DocumentHighlightKind(1);
    /// The symbol is read.
    pub const READ: DocumentHighlightKind = DocumentHighlightKind(2);
    /// The symbol is written.
    pub const WRITE: DocumentHighlightKind = DocumentHighlightKind(3);

    const NAMES: [(&'static str, i32); 3] = [
        ("Text", Self::TEXT.0),
        ("Read", Self::READ.0),
        ("Write", Self::WRITE.0),
    ];

    /// Each constant, in the order of LSP 3.17: what `try_from` gives for the names in that order.
    pub fn constants() -> [DocumentHighlightKind; 3]
        ensures { result ≡ numbers_of document_highlight_kinds }
    {
        [Self::TEXT, Self::READ, Self::WRITE]
    }

    /// The name of the number, where it has one.
    pub fn name(&self) -> Option<&'static str>
        ensures { option_map (λ s. s.now) result ≡ name_in document_highlight_kinds self.now }
    {
        name_of(&Self::NAMES, self.0)
    }
}

// The numbers of LSP 3.17.
const _: () = prove!(DocumentHighlightKind::TEXT.0 == 1);

const _: () = prove!(DocumentHighlightKind::READ.0 == 2);

const _: () = prove!(DocumentHighlightKind::WRITE.0 == 3);

#[tactic(auto, unfolding(crate::specs::Tables::document_highlight_kinds))]
impl TryFrom<&str> for DocumentHighlightKind {
    type Error = &'static str;

    ghost try_from_gives = { λ name r. IsReadBy document_highlight_kinds name.now (λ e. e.now) r };

    fn try_from(name: &str) -> Result<DocumentHighlightKind, &'static str> {
        match number_of(&Self::NAMES, name) {
            Some(number) => Ok(DocumentHighlightKind(number)),
            None => Err(UNKNOWN),
        }
    }
}

impl fmt::Debug for DocumentHighlightKind {
    ghost debug_output = { λ k. Some
        (kind_text document_highlight_kinds (codes "DocumentHighlightKind") k) };

    fn fmt<W: fmt::Write>(&self, f: &mut fmt::Formatter<W>) -> fmt::Result {
        write_kind(f, "DocumentHighlightKind", self.name(), self.0)
    }
}

impl Wire for DocumentHighlightKind {
    ghost shape = { i32_shape };

    ghost shown = { show_signed };

    fn from_value(alloc: Global, value: &Value) -> Result<DocumentHighlightKind, Misfit> {
        Ok(DocumentHighlightKind(i32::from_value(alloc, value)?))
    }

    fn to_value(&self, alloc: Global) -> Result<Value, NoMemory> {
        self.0.to_value(alloc)
    }
}

/// What an inlay hint shows. Since 3.17 (LSP 3.17, "Inlay Hint Request").
#[derive(Clone, Copy, PartialEq, Eq)]
pub struct InlayHintKind(i32);

impl Model for InlayHintKind {
    ghost Value = { ℤ };

    ghost view = { λ k. k.0 };

    ghost inverse = { λ n. record { 0 = n } };
}

#[tactic(auto, unfolding(crate::specs::Tables::inlay_hint_kinds))]
impl InlayHintKind {
    /// A type.
    pub const TYPE: InlayHintKind = InlayHintKind(1);
    /// The name of a parameter.
    pub const PARAMETER: InlayHintKind = InlayHintKind(2);

    const NAMES: [(&'static str, i32); 2] = [
        ("Type", Self::TYPE.0),
        ("Parameter", Self::PARAMETER.0),
    ];

    /// Each constant, in the order of LSP 3.17: what `try_from` gives for the names in that order.
    pub fn constants() -> [InlayHintKind; 2]
        ensures { result ≡ numbers_of inlay_hint_kinds }
    {
        [Self::TYPE, Self::PARAMETER]
    }

    /// The name of the number, where it has one.
    pub fn name(&self) -> Option<&'static str>
        ensures { option_map (λ s. s.now) result ≡ name_in inlay_hint_kinds self.now }
    {
        name_of(&Self::NAMES, self.0)
    }
}

// The numbers of LSP 3.17.
const _: () = prove!(InlayHintKind::TYPE.0 == 1);

const _: () = prove!(InlayHintKind::PARAMETER.0 == 2);

#[tactic(auto, unfolding(crate::specs::Tables::inlay_hint_kinds))]
impl TryFrom<&str> for InlayHintKind {
    type Error = &'static str;

    ghost try_from_gives = { λ name r. IsReadBy inlay_hint_kinds name.now (λ e. e.now) r };

    fn try_from(name: &str) -> Result<InlayHintKind, &'static str> {
        match number_of(&Self::NAMES, name) {
            Some(number) => Ok(InlayHintKind(number)),
            None => Err(UNKNOWN),
        }
    }
}

impl fmt::Debug for InlayHintKind {
    ghost debug_output = { λ k. Some (kind_text inlay_hint_kinds (codes "InlayHintKind") k) };

    fn fmt<W: fmt::Write>(&self, f: &mut fmt::Formatter<W>) -> fmt::Result {
        write_kind(f, "InlayHintKind", self.name(), self.0)
    }
}

impl Wire for InlayHintKind {
    ghost shape = { i32_shape };

    ghost shown = { show_signed };

    fn from_value(alloc: Global, value: &Value) -> Result<InlayHintKind, Misfit> {
        Ok(InlayHintKind(i32::from_value(alloc, value)?))
    }

    fn to_value(&self, alloc: Global) -> Result<Value, NoMemory> {
        self.0.to_value(alloc)
    }
}

/// What a client does where a server has no range to rename. Since 3.16 (LSP 3.17, "Rename
/// Request").
#[derive(Clone, Copy, PartialEq, Eq)]
pub struct PrepareSupportDefaultBehavior(i32);

impl Model for PrepareSupportDefaultBehavior {
    ghost Value = { ℤ };

    ghost view = { λ k. k.0 };

    ghost inverse = { λ n. record { 0 = n } };
}

#[tactic(auto, unfolding(crate::specs::Tables::prepare_support_default_behaviors))]
impl PrepareSupportDefaultBehavior {
    /// The identifier there, by the syntax of the language.
    pub const IDENTIFIER: PrepareSupportDefaultBehavior = PrepareSupportDefaultBehavior(1);

    const NAMES: [(&'static str, i32); 1] = [("Identifier", Self::IDENTIFIER.0)];

    /// Each constant, in the order of LSP 3.17: what `try_from` gives for the names in that order.
    pub fn constants() -> [PrepareSupportDefaultBehavior; 1]
        ensures { result ≡ numbers_of prepare_support_default_behaviors }
    {
        [Self::IDENTIFIER]
    }

    /// The name of the number, where it has one.
    pub fn name(&self) -> Option<&'static str>
        ensures { option_map (λ s. s.now) result
            ≡ name_in prepare_support_default_behaviors self.now }
    {
        name_of(&Self::NAMES, self.0)
    }
}

// The numbers of LSP 3.17.
const _: () = prove!(PrepareSupportDefaultBehavior::IDENTIFIER.0 == 1);

#[tactic(auto, unfolding(crate::specs::Tables::prepare_support_default_behaviors))]
impl TryFrom<&str> for PrepareSupportDefaultBehavior {
    type Error = &'static str;

    ghost try_from_gives = { λ name r. IsReadBy prepare_support_default_behaviors name.now
        (λ e. e.now) r };

    fn try_from(name: &str) -> Result<PrepareSupportDefaultBehavior, &'static str> {
        match number_of(&Self::NAMES, name) {
            Some(number) => Ok(PrepareSupportDefaultBehavior(number)),
            None => Err(UNKNOWN),
        }
    }
}

impl fmt::Debug for PrepareSupportDefaultBehavior {
    ghost debug_output = { λ k. Some
        (kind_text prepare_support_default_behaviors (codes "PrepareSupportDefaultBehavior") k) };

    fn fmt<W: fmt::Write>(&self, f: &mut fmt::Formatter<W>) -> fmt::Result {
        write_kind(f, "PrepareSupportDefaultBehavior", self.name(), self.0)
    }
}

impl Wire for PrepareSupportDefaultBehavior {
    ghost shape = { i32_shape };

    ghost shown = { show_signed };

    fn from_value(alloc: Global, value: &Value) -> Result<PrepareSupportDefaultBehavior, Misfit> {
        Ok(PrepareSupportDefaultBehavior(i32::from_value(alloc, value)?))
    }

    fn to_value(&self, alloc: Global) -> Result<Value, NoMemory> {
        self.0.to_value(alloc)
    }
}

/// How signature help was triggered. Since 3.15 (LSP 3.17, "Signature Help Request").
#[derive(Clone, Copy, PartialEq, Eq)]
pub struct SignatureHelpTriggerKind(i32);

impl Model for SignatureHelpTriggerKind {
    ghost Value = { ℤ };

    ghost view = { λ k. k.0 };

    ghost inverse = { λ n. record { 0 = n } };
}

#[tactic(auto, unfolding(crate::specs::Tables::signature_help_trigger_kinds))]
impl SignatureHelpTriggerKind {
    /// The user asked for it, or a command did.
    pub const INVOKED: SignatureHelpTriggerKind = SignatureHelpTriggerKind(1);
    /// The user typed one of the server's trigger characters.
    pub const TRIGGER_CHARACTER: SignatureHelpTriggerKind = SignatureHelpTriggerKind(2);
    /// The cursor moved, or the text changed.
    pub const CONTENT_CHANGE: SignatureHelpTriggerKind = SignatureHelpTriggerKind(3);

    const NAMES: [(&'static str, i32); 3] = [
        ("Invoked", Self::INVOKED.0),
        ("TriggerCharacter", Self::TRIGGER_CHARACTER.0),
        ("ContentChange", Self::CONTENT_CHANGE.0),
    ];

    /// Each constant, in the order of LSP 3.17: what `try_from` gives for the names in that order.
    pub fn constants() -> [SignatureHelpTriggerKind; 3]
        ensures { result ≡ numbers_of signature_help_trigger_kinds }
    {
        [Self::INVOKED, Self::TRIGGER_CHARACTER, Self::CONTENT_CHANGE]
    }

    /// The name of the number, where it has one.
    pub fn name(&self) -> Option<&'static str>
        ensures { option_map (λ s. s.now) result ≡ name_in signature_help_trigger_kinds self.now }
    {
        name_of(&Self::NAMES, self.0)
    }
}

// The numbers of LSP 3.17.
const _: () = prove!(SignatureHelpTriggerKind::INVOKED.0 == 1);

const _: () = prove!(SignatureHelpTriggerKind::TRIGGER_CHARACTER.0 == 2);

const _: () = prove!(SignatureHelpTriggerKind::CONTENT_CHANGE.0 == 3);

#[tactic(auto, unfolding(crate::specs::Tables::signature_help_trigger_kinds))]
impl TryFrom<&str> for SignatureHelpTriggerKind {
    type Error = &'static str;

    ghost try_from_gives = { λ name r. IsReadBy signature_help_trigger_kinds name.now
        (λ e. e.now) r };

    fn try_from(name: &str) -> Result<SignatureHelpTriggerKind, &'static str> {
        match number_of(&Self::NAMES, name) {
            Some(number) => Ok(SignatureHelpTriggerKind(number)),
            None => Err(UNKNOWN),
        }
    }
}

impl fmt::Debug for SignatureHelpTriggerKind {
    ghost debug_output = { λ k. Some
        (kind_text signature_help_trigger_kinds (codes "SignatureHelpTriggerKind") k) };

    fn fmt<W: fmt::Write>(&self, f: &mut fmt::Formatter<W>) -> fmt::Result {
        write_kind(f, "SignatureHelpTriggerKind", self.name(), self.0)
    }
}

impl Wire for SignatureHelpTriggerKind {
    ghost shape = { i32_shape };

    ghost shown = { show_signed };

    fn from_value(alloc: Global, value: &Value) -> Result<SignatureHelpTriggerKind, Misfit> {
        Ok(SignatureHelpTriggerKind(i32::from_value(alloc, value)?))
    }

    fn to_value(&self, alloc: Global) -> Result<Value, NoMemory> {
        self.0.to_value(alloc)
    }
}
