// Kinds of section "Completion Request".
ghost use Rattle.std.specs.Prelude.{◌≡◌, codes, option_map, Some, ℤ};
ghost use Rattle.lsp_shape.specs.Shape.{i32_shape};
ghost use Rattle.lsp_shape.specs.Shown.{show_signed};
ghost use Rattle.lsp_kinds.specs.Named.{IsReadBy, kind_text, name_in, numbers_of};
ghost use Rattle.lsp_kinds.specs.Tables.{insert_text_formats, insert_text_modes, completion_item_kinds, completion_item_tags, completion_trigger_kinds};

use crate::named::{UNKNOWN, name_of, number_of, write_kind};
use lsp_shape::{Misfit, NoMemory, Wire};
use serde_json::Value;
use std::alloc::Global;
use std::fmt;
use std::marker::Model;

/// How the text that a completion inserts is read (LSP 3.17, "Completion Request").
#[derive(Clone, Copy, PartialEq, Eq)]
pub struct InsertTextFormat(i32);

impl Model for InsertTextFormat {
    ghost Value = { ℤ };

    ghost view = { λ k. k.0 };

    ghost inverse = { λ n. record { 0 = n } };
}

#[tactic(auto, unfolding(crate::specs::Tables::insert_text_formats))]
impl InsertTextFormat {
    /// As plain text.
    pub const PLAIN_TEXT: InsertTextFormat = InsertTextFormat(1);
    /// As a snippet, with tab stops and placeholders such as `$1` and `${2:name}`.
    pub const SNIPPET: InsertTextFormat = InsertTextFormat(2);

    const NAMES: [(&'static str, i32); 2] = [
        ("PlainText", Self::PLAIN_TEXT.0),
        ("Snippet", Self::SNIPPET.0),
    ];

    /// Each constant, in the order of LSP 3.17: what `try_from` gives for the names in that order.
    pub fn constants() -> [InsertTextFormat; 2]
        ensures { result ≡ numbers_of insert_text_formats }
    {
        [Self::PLAIN_TEXT, Self::SNIPPET]
    }

    /// The name of the number, where it has one.
    pub fn name(&self) -> Option<&'static str>
        ensures { option_map (λ s. s.now) result ≡ name_in insert_text_formats self.now }
    {
        name_of(&Self::NAMES, self.0)
    }
}

// The numbers of LSP 3.17.
const _: () = prove!(InsertTextFormat::PLAIN_TEXT.0 == 1);

const _: () = prove!(InsertTextFormat::SNIPPET.0 == 2);

#[tactic(auto, unfolding(crate::specs::Tables::insert_text_formats))]
impl TryFrom<&str> for InsertTextFormat {
    type Error = &'static str;

    ghost try_from_gives = { λ name r. IsReadBy insert_text_formats name.now (λ e. e.now) r };

    fn try_from(name: &str) -> Result<InsertTextFormat, &'static str> {
        match number_of(&Self::NAMES, name) {
            Some(number) => Ok(InsertTextFormat(number)),
            None => Err(UNKNOWN),
        }
    }
}

impl fmt::Debug for InsertTextFormat {
    ghost debug_output = { λ k. Some (kind_text insert_text_formats (codes "InsertTextFormat") k) };

    fn fmt<W: fmt::Write>(&self, f: &mut fmt::Formatter<W>) -> fmt::Result {
        write_kind(f, "InsertTextFormat", self.name(), self.0)
    }
}

impl Wire for InsertTextFormat {
    ghost shape = { i32_shape };

    ghost shown = { show_signed };

    fn from_value(alloc: Global, value: &Value) -> Result<InsertTextFormat, Misfit> {
        Ok(InsertTextFormat(i32::from_value(alloc, value)?))
    }

    fn to_value(&self, alloc: Global) -> Result<Value, NoMemory> {
        self.0.to_value(alloc)
    }
}

/// What a client does with whitespace in the text that it inserts. Since 3.16 (LSP 3.17,
/// "Completion Request").
#[derive(Clone, Copy, PartialEq, Eq)]
pub struct InsertTextMode(i32);

impl Model for InsertTextMode {
    ghost Value = { ℤ };

    ghost view = { λ k. k.0 };

    ghost inverse = { λ n. record { 0 = n } };
}

#[tactic(auto, unfolding(crate::specs::Tables::insert_text_modes))]
impl InsertTextMode {
    /// The text is inserted as it is.
    pub const AS_IS: InsertTextMode = InsertTextMode(1);
    /// Each further line is indented as the line of the cursor is up to the cursor.
    pub const ADJUST_INDENTATION: InsertTextMode = InsertTextMode(2);

    const NAMES: [(&'static str, i32); 2] = [
        ("AsIs", Self::AS_IS.0),
        ("AdjustIndentation", Self::ADJUST_INDENTATION.0),
    ];

    /// Each constant, in the order of LSP 3.17: what `try_from` gives for the names in that order.
    pub fn constants() -> [InsertTextMode; 2]
        ensures { result ≡ numbers_of insert_text_modes }
    {
        [Self::AS_IS, Self::ADJUST_INDENTATION]
    }

    /// The name of the number, where it has one.
    pub fn name(&self) -> Option<&'static str>
        ensures { option_map (λ s. s.now) result ≡ name_in insert_text_modes self.now }
    {
        name_of(&Self::NAMES, self.0)
    }
}

// The numbers of LSP 3.17.
const _: () = prove!(InsertTextMode::AS_IS.0 == 1);

const _: () = prove!(InsertTextMode::ADJUST_INDENTATION.0 == 2);

#[tactic(auto, unfolding(crate::specs::Tables::insert_text_modes))]
impl TryFrom<&str> for InsertTextMode {
    type Error = &'static str;

    ghost try_from_gives = { λ name r. IsReadBy insert_text_modes name.now (λ e. e.now) r };

    fn try_from(name: &str) -> Result<InsertTextMode, &'static str> {
        match number_of(&Self::NAMES, name) {
            Some(number) => Ok(InsertTextMode(number)),
            None => Err(UNKNOWN),
        }
    }
}

impl fmt::Debug for InsertTextMode {
    ghost debug_output = { λ k. Some (kind_text insert_text_modes (codes "InsertTextMode") k) };

    fn fmt<W: fmt::Write>(&self, f: &mut fmt::Formatter<W>) -> fmt::Result {
        write_kind(f, "InsertTextMode", self.name(), self.0)
    }
}

impl Wire for InsertTextMode {
    ghost shape = { i32_shape };

    ghost shown = { show_signed };

    fn from_value(alloc: Global, value: &Value) -> Result<InsertTextMode, Misfit> {
        Ok(InsertTextMode(i32::from_value(alloc, value)?))
    }

    fn to_value(&self, alloc: Global) -> Result<Value, NoMemory> {
        self.0.to_value(alloc)
    }
}

/// What a completion item is. Those after `REFERENCE` since 3.4: clients that don't name their
/// kinds know only `TEXT` to `REFERENCE` (LSP 3.17, "Completion Request").
#[derive(Clone, Copy, PartialEq, Eq)]
pub struct CompletionItemKind(i32);

impl Model for CompletionItemKind {
    ghost Value = { ℤ };

    ghost view = { λ k. k.0 };

    ghost inverse = { λ n. record { 0 = n } };
}

#[tactic(auto, unfolding(crate::specs::Tables::completion_item_kinds))]
impl CompletionItemKind {
    /// A text.
    pub const TEXT: CompletionItemKind = CompletionItemKind(1);
    /// A method.
    pub const METHOD: CompletionItemKind = CompletionItemKind(2);
    /// A function.
    pub const FUNCTION: CompletionItemKind = CompletionItemKind(3);
    /// A constructor.
    pub const CONSTRUCTOR: CompletionItemKind = CompletionItemKind(4);
    /// A field.
    pub const FIELD: CompletionItemKind = CompletionItemKind(5);
    /// A variable.
    pub const VARIABLE: CompletionItemKind = CompletionItemKind(6);
    /// A class.
    pub const CLASS: CompletionItemKind = CompletionItemKind(7);
    /// An interface.
    pub const INTERFACE: CompletionItemKind = CompletionItemKind(8);
    /// A module.
    pub const MODULE: CompletionItemKind = CompletionItemKind(9);
    /// A property.
    pub const PROPERTY: CompletionItemKind = CompletionItemKind(10);
    /// A unit.
    pub const UNIT: CompletionItemKind = CompletionItemKind(11);
    /// A value.
    pub const VALUE: CompletionItemKind = CompletionItemKind(12);
    /// An enum.
    pub const ENUM: CompletionItemKind = CompletionItemKind(13);
    /// A keyword.
    pub const KEYWORD: CompletionItemKind = CompletionItemKind(14);
    /// A snippet.
    pub const SNIPPET: CompletionItemKind = CompletionItemKind(15);
    /// A color.
    pub const COLOR: CompletionItemKind = CompletionItemKind(16);
    /// A file.
    pub const FILE: CompletionItemKind = CompletionItemKind(17);
    /// A reference.
    pub const REFERENCE: CompletionItemKind = CompletionItemKind(18);
    /// A folder.
    pub const FOLDER: CompletionItemKind = CompletionItemKind(19);
    /// A member of an enum.
    pub const ENUM_MEMBER: CompletionItemKind = CompletionItemKind(20);
    /// A constant.
    pub const CONSTANT: CompletionItemKind = CompletionItemKind(21);
    /// A struct.
    pub const STRUCT: CompletionItemKind = CompletionItemKind(22);
    /// An event.
    pub const EVENT: CompletionItemKind = CompletionItemKind(23);
    /// An operator.
    pub const OPERATOR: CompletionItemKind = CompletionItemKind(24);
    /// A parameter that stands for a type.
    pub const TYPE_PARAMETER: CompletionItemKind = CompletionItemKind(25);

    const NAMES: [(&'static str, i32); 25] = [
        ("Text", Self::TEXT.0),
        ("Method", Self::METHOD.0),
        ("Function", Self::FUNCTION.0),
        ("Constructor", Self::CONSTRUCTOR.0),
        ("Field", Self::FIELD.0),
        ("Variable", Self::VARIABLE.0),
        ("Class", Self::CLASS.0),
        ("Interface", Self::INTERFACE.0),
        ("Module", Self::MODULE.0),
        ("Property", Self::PROPERTY.0),
        ("Unit", Self::UNIT.0),
        ("Value", Self::VALUE.0),
        ("Enum", Self::ENUM.0),
        ("Keyword", Self::KEYWORD.0),
        ("Snippet", Self::SNIPPET.0),
        ("Color", Self::COLOR.0),
        ("File", Self::FILE.0),
        ("Reference", Self::REFERENCE.0),
        ("Folder", Self::FOLDER.0),
        ("EnumMember", Self::ENUM_MEMBER.0),
        ("Constant", Self::CONSTANT.0),
        ("Struct", Self::STRUCT.0),
        ("Event", Self::EVENT.0),
        ("Operator", Self::OPERATOR.0),
        ("TypeParameter", Self::TYPE_PARAMETER.0),
    ];

    /// Each constant, in the order of LSP 3.17: what `try_from` gives for the names in that order.
    pub fn constants() -> [CompletionItemKind; 25]
        ensures { result ≡ numbers_of completion_item_kinds }
    {
        [
            Self::TEXT,
            Self::METHOD,
            Self::FUNCTION,
            Self::CONSTRUCTOR,
            Self::FIELD,
            Self::VARIABLE,
            Self::CLASS,
            Self::INTERFACE,
            Self::MODULE,
            Self::PROPERTY,
            Self::UNIT,
            Self::VALUE,
            Self::ENUM,
            Self::KEYWORD,
            Self::SNIPPET,
            Self::COLOR,
            Self::FILE,
            Self::REFERENCE,
            Self::FOLDER,
            Self::ENUM_MEMBER,
            Self::CONSTANT,
            Self::STRUCT,
            Self::EVENT,
            Self::OPERATOR,
            Self::TYPE_PARAMETER,
        ]
    }

    /// The name of the number, where it has one.
    pub fn name(&self) -> Option<&'static str>
        ensures { option_map (λ s. s.now) result ≡ name_in completion_item_kinds self.now }
    {
        name_of(&Self::NAMES, self.0)
    }
}

// The numbers of LSP 3.17.
const _: () = prove!(CompletionItemKind::TEXT.0 == 1);

const _: () = prove!(CompletionItemKind::METHOD.0 == 2);

const _: () = prove!(CompletionItemKind::FUNCTION.0 == 3);

const _: () = prove!(CompletionItemKind::CONSTRUCTOR.0 == 4);

const _: () = prove!(CompletionItemKind::FIELD.0 == 5);

const _: () = prove!(CompletionItemKind::VARIABLE.0 == 6);

const _: () = prove!(CompletionItemKind::CLASS.0 == 7);

const _: () = prove!(CompletionItemKind::INTERFACE.0 == 8);

const _: () = prove!(CompletionItemKind::MODULE.0 == 9);

const _: () = prove!(CompletionItemKind::PROPERTY.0 == 10);

const _: () = prove!(CompletionItemKind::UNIT.0 == 11);

const _: () = prove!(CompletionItemKind::VALUE.0 == 12);

const _: () = prove!(CompletionItemKind::ENUM.0 == 13);

const _: () = prove!(CompletionItemKind::KEYWORD.0 == 14);

const _: () = prove!(CompletionItemKind::SNIPPET.0 == 15);

const _: () = prove!(CompletionItemKind::COLOR.0 == 16);

const _: () = prove!(CompletionItemKind::FILE.0 == 17);

const _: () = prove!(CompletionItemKind::REFERENCE.0 == 18);

const _: () = prove!(CompletionItemKind::FOLDER.0 == 19);

const _: () = prove!(CompletionItemKind::ENUM_MEMBER.0 == 20);

const _: () = prove!(CompletionItemKind::CONSTANT.0 == 21);

const _: () = prove!(CompletionItemKind::STRUCT.0 == 22);

const _: () = prove!(CompletionItemKind::EVENT.0 == 23);

const _: () = prove!(CompletionItemKind::OPERATOR.0 == 24);

const _: () = prove!(CompletionItemKind::TYPE_PARAMETER.0 == 25);

#[tactic(auto, unfolding(crate::specs::Tables::completion_item_kinds))]
impl TryFrom<&str> for CompletionItemKind {
    type Error = &'static str;

    ghost try_from_gives = { λ name r. IsReadBy completion_item_kinds name.now (λ e. e.now) r };

    fn try_from(name: &str) -> Result<CompletionItemKind, &'static str> {
        match number_of(&Self::NAMES, name) {
            Some(number) => Ok(CompletionItemKind(number)),
            None => Err(UNKNOWN),
        }
    }
}

impl fmt::Debug for CompletionItemKind {
    ghost debug_output = { λ k. Some
        (kind_text completion_item_kinds (codes "CompletionItemKind") k) };

    fn fmt<W: fmt::Write>(&self, f: &mut fmt::Formatter<W>) -> fmt::Result {
        write_kind(f, "CompletionItemKind", self.name(), self.0)
    }
}

impl Wire for CompletionItemKind {
    ghost shape = { i32_shape };

    ghost shown = { show_signed };

    fn from_value(alloc: Global, value: &Value) -> Result<CompletionItemKind, Misfit> {
        Ok(CompletionItemKind(i32::from_value(alloc, value)?))
    }

    fn to_value(&self, alloc: Global) -> Result<Value, NoMemory> {
        self.0.to_value(alloc)
    }
}

/// A mark on a completion item. Since 3.15 (LSP 3.17, "Completion Request").
#[derive(Clone, Copy, PartialEq, Eq)]
pub struct CompletionItemTag(i32);

impl Model for CompletionItemTag {
    ghost Value = { ℤ };

    ghost view = { λ k. k.0 };

    ghost inverse = { λ n. record { 0 = n } };
}

#[tactic(auto, unfolding(crate::specs::Tables::completion_item_tags))]
impl CompletionItemTag {
    /// What it stands for is deprecated. A client may strike it through.
    pub const DEPRECATED: CompletionItemTag = CompletionItemTag(1);

    const NAMES: [(&'static str, i32); 1] = [("Deprecated", Self::DEPRECATED.0)];

    /// Each constant, in the order of LSP 3.17: what `try_from` gives for the names in that order.
    pub fn constants() -> [CompletionItemTag; 1]
        ensures { result ≡ numbers_of completion_item_tags }
    {
        [Self::DEPRECATED]
    }

    /// The name of the number, where it has one.
    pub fn name(&self) -> Option<&'static str>
        ensures { option_map (λ s. s.now) result ≡ name_in completion_item_tags self.now }
    {
        name_of(&Self::NAMES, self.0)
    }
}

// The numbers of LSP 3.17.
const _: () = prove!(CompletionItemTag::DEPRECATED.0 == 1);

#[tactic(auto, unfolding(crate::specs::Tables::completion_item_tags))]
impl TryFrom<&str> for CompletionItemTag {
    type Error = &'static str;

    ghost try_from_gives = { λ name r. IsReadBy completion_item_tags name.now (λ e. e.now) r };

    fn try_from(name: &str) -> Result<CompletionItemTag, &'static str> {
        match number_of(&Self::NAMES, name) {
            Some(number) => Ok(CompletionItemTag(number)),
            None => Err(UNKNOWN),
        }
    }
}

impl fmt::Debug for CompletionItemTag {
    ghost debug_output = { λ k. Some
        (kind_text completion_item_tags (codes "CompletionItemTag") k) };

    fn fmt<W: fmt::Write>(&self, f: &mut fmt::Formatter<W>) -> fmt::Result {
        write_kind(f, "CompletionItemTag", self.name(), self.0)
    }
}

impl Wire for CompletionItemTag {
    ghost shape = { i32_shape };

    ghost shown = { show_signed };

    fn from_value(alloc: Global, value: &Value) -> Result<CompletionItemTag, Misfit> {
        Ok(CompletionItemTag(i32::from_value(alloc, value)?))
    }

    fn to_value(&self, alloc: Global) -> Result<Value, NoMemory> {
        self.0.to_value(alloc)
    }
}

/// How a completion was triggered. Since 3.3 (LSP 3.17, "Completion Request").
#[derive(Clone, Copy, PartialEq, Eq)]
pub struct CompletionTriggerKind(i32);

impl Model for CompletionTriggerKind {
    ghost Value = { ℤ };

    ghost view = { λ k. k.0 };

    ghost inverse = { λ n. record { 0 = n } };
}

#[tactic(auto, unfolding(crate::specs::Tables::completion_trigger_kinds))]
impl CompletionTriggerKind {
    /// The user typed an identifier or asked for completion, or an extension did.
    pub const INVOKED: CompletionTriggerKind = CompletionTriggerKind(1);
    /// The user typed one of the server's trigger characters.
    pub const TRIGGER_CHARACTER: CompletionTriggerKind = CompletionTriggerKind(2);
    /// The items shown were marked as incomplete. Since 3.6.
    pub const TRIGGER_FOR_INCOMPLETE_COMPLETIONS: CompletionTriggerKind = CompletionTriggerKind(3);

    const NAMES: [(&'static str, i32); 3] = [
        ("Invoked", Self::INVOKED.0),
        ("TriggerCharacter", Self::TRIGGER_CHARACTER.0),
        (
            "TriggerForIncompleteCompletions",
            Self::TRIGGER_FOR_INCOMPLETE_COMPLETIONS.0,
        ),
    ];

    /// Each constant, in the order of LSP 3.17: what `try_from` gives for the names in that order.
    pub fn constants() -> [CompletionTriggerKind; 3]
        ensures { result ≡ numbers_of completion_trigger_kinds }
    {
        [
            Self::INVOKED,
            Self::TRIGGER_CHARACTER,
            Self::TRIGGER_FOR_INCOMPLETE_COMPLETIONS,
        ]
    }

    /// The name of the number, where it has one.
    pub fn name(&self) -> Option<&'static str>
        ensures { option_map (λ s. s.now) result ≡ name_in completion_trigger_kinds self.now }
    {
        name_of(&Self::NAMES, self.0)
    }
}

// The numbers of LSP 3.17.
const _: () = prove!(CompletionTriggerKind::INVOKED.0 == 1);

const _: () = prove!(CompletionTriggerKind::TRIGGER_CHARACTER.0 == 2);

const _: () = prove!(CompletionTriggerKind::TRIGGER_FOR_INCOMPLETE_COMPLETIONS.0 == 3);

#[tactic(auto, unfolding(crate::specs::Tables::completion_trigger_kinds))]
impl TryFrom<&str> for CompletionTriggerKind {
    type Error = &'static str;

    ghost try_from_gives = { λ name r. IsReadBy completion_trigger_kinds name.now (λ e. e.now) r };

    fn try_from(name: &str) -> Result<CompletionTriggerKind, &'static str> {
        match number_of(&Self::NAMES, name) {
            Some(number) => Ok(CompletionTriggerKind(number)),
            None => Err(UNKNOWN),
        }
    }
}

impl fmt::Debug for CompletionTriggerKind {
    ghost debug_output = { λ k. Some
        (kind_text completion_trigger_kinds (codes "CompletionTriggerKind") k) };

    fn fmt<W: fmt::Write>(&self, f: &mut fmt::Formatter<W>) -> fmt::Result {
        write_kind(f, "CompletionTriggerKind", self.name(), self.0)
    }
}

impl Wire for CompletionTriggerKind {
    ghost shape = { i32_shape };

    ghost shown = { show_signed };

    fn from_value(alloc: Global, value: &Value) -> Result<CompletionTriggerKind, Misfit> {
        Ok(CompletionTriggerKind(i32::from_value(alloc, value)?))
    }

    fn to_value(&self, alloc: Global) -> Result<Value, NoMemory> {
        self.0.to_value(alloc)
    }
}
