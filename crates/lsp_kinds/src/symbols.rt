// Kinds of section "Document Symbols Request".
ghost use Rattle.std.specs.Prelude.{◌≡◌, codes, option_map, Some, ℤ};
ghost use Rattle.lsp_shape.specs.Shape.{i32_shape};
ghost use Rattle.lsp_shape.specs.Shown.{show_signed};
ghost use Rattle.lsp_kinds.specs.Named.{IsReadBy, kind_text, name_in, numbers_of};
ghost use Rattle.lsp_kinds.specs.Tables.{symbol_kinds, symbol_tags};

use crate::named::{UNKNOWN, name_of, number_of, write_kind};
use lsp_shape::{Misfit, NoMemory, Wire};
use serde_json::Value;
use std::alloc::Global;
use std::fmt;
use std::marker::Model;

/// What a symbol is. Those after `ARRAY` since 3.4: clients that don't name their kinds know only
/// `FILE` to `ARRAY` (LSP 3.17, "Document Symbols Request").
#[derive(Clone, Copy, PartialEq, Eq)]
pub struct SymbolKind(i32);

impl Model for SymbolKind {
    ghost Value = { ℤ };

    ghost view = { λ k. k.0 };

    ghost inverse = { λ n. record { 0 = n } };
}

#[tactic(auto, unfolding(crate::specs::Tables::symbol_kinds))]
impl SymbolKind {
    /// A file.
    pub const FILE: SymbolKind = SymbolKind(1);
    /// A module.
    pub const MODULE: SymbolKind = SymbolKind(2);
    /// A namespace.
    pub const NAMESPACE: SymbolKind = SymbolKind(3);
    /// A package.
    pub const PACKAGE: SymbolKind = SymbolKind(4);
    /// A class.
    pub const CLASS: SymbolKind = SymbolKind(5);
    /// A method.
    pub const METHOD: SymbolKind = SymbolKind(6);
    /// A property.
    pub const PROPERTY: SymbolKind = SymbolKind(7);
    /// A field.
    pub const FIELD: SymbolKind = SymbolKind(8);
    /// A constructor.
    pub const CONSTRUCTOR: SymbolKind = SymbolKind(9);
    /// An enum.
    pub const ENUM: SymbolKind = SymbolKind(10);
    /// An interface.
    pub const INTERFACE: SymbolKind = SymbolKind(11);
    /// A function.
    pub const FUNCTION: SymbolKind = SymbolKind(12);
    /// A variable.
    pub const VARIABLE: SymbolKind = SymbolKind(13);
    /// A constant.
    pub const CONSTANT: SymbolKind = SymbolKind(14);
    /// A string.
    pub const STRING: SymbolKind = SymbolKind(15);
    /// A number.
    pub const NUMBER: SymbolKind = SymbolKind(16);
    /// A boolean.
    pub const BOOLEAN: SymbolKind = SymbolKind(17);
    /// An array.
    pub const ARRAY: SymbolKind = SymbolKind(18);
    /// An object.
    pub const OBJECT: SymbolKind = SymbolKind(19);
    /// A key of an object.
    pub const KEY: SymbolKind = SymbolKind(20);
    /// Null.
    pub const NULL: SymbolKind = SymbolKind(21);
    /// A member of an enum.
    pub const ENUM_MEMBER: SymbolKind = SymbolKind(22);
    /// A struct.
    pub const STRUCT: SymbolKind = SymbolKind(23);
    /// An event.
    pub const EVENT: SymbolKind = SymbolKind(24);
    /// An operator.
    pub const OPERATOR: SymbolKind = SymbolKind(25);
    /// A parameter that stands for a type.
    pub const TYPE_PARAMETER: SymbolKind = SymbolKind(26);

    const NAMES: [(&'static str, i32); 26] = [
        ("File", Self::FILE.0),
        ("Module", Self::MODULE.0),
        ("Namespace", Self::NAMESPACE.0),
        ("Package", Self::PACKAGE.0),
        ("Class", Self::CLASS.0),
        ("Method", Self::METHOD.0),
        ("Property", Self::PROPERTY.0),
        ("Field", Self::FIELD.0),
        ("Constructor", Self::CONSTRUCTOR.0),
        ("Enum", Self::ENUM.0),
        ("Interface", Self::INTERFACE.0),
        ("Function", Self::FUNCTION.0),
        ("Variable", Self::VARIABLE.0),
        ("Constant", Self::CONSTANT.0),
        ("String", Self::STRING.0),
        ("Number", Self::NUMBER.0),
        ("Boolean", Self::BOOLEAN.0),
        ("Array", Self::ARRAY.0),
        ("Object", Self::OBJECT.0),
        ("Key", Self::KEY.0),
        ("Null", Self::NULL.0),
        ("EnumMember", Self::ENUM_MEMBER.0),
        ("Struct", Self::STRUCT.0),
        ("Event", Self::EVENT.0),
        ("Operator", Self::OPERATOR.0),
        ("TypeParameter", Self::TYPE_PARAMETER.0),
    ];

    /// Each constant, in the order of LSP 3.17: what `try_from` gives for the names in that order.
    pub fn constants() -> [SymbolKind; 26]
        ensures { result ≡ numbers_of symbol_kinds }
    {
        [
            Self::FILE,
            Self::MODULE,
            Self::NAMESPACE,
            Self::PACKAGE,
            Self::CLASS,
            Self::METHOD,
            Self::PROPERTY,
            Self::FIELD,
            Self::CONSTRUCTOR,
            Self::ENUM,
            Self::INTERFACE,
            Self::FUNCTION,
            Self::VARIABLE,
            Self::CONSTANT,
            Self::STRING,
            Self::NUMBER,
            Self::BOOLEAN,
            Self::ARRAY,
            Self::OBJECT,
            Self::KEY,
            Self::NULL,
            Self::ENUM_MEMBER,
            Self::STRUCT,
            Self::EVENT,
            Self::OPERATOR,
            Self::TYPE_PARAMETER,
        ]
    }

    /// The name of the number, where it has one.
    pub fn name(&self) -> Option<&'static str>
        ensures { option_map (λ s. s.now) result ≡ name_in symbol_kinds self.now }
    {
        name_of(&Self::NAMES, self.0)
    }
}

// The numbers of LSP 3.17.
const _: () = prove!(SymbolKind::FILE.0 == 1);

const _: () = prove!(SymbolKind::MODULE.0 == 2);

const _: () = prove!(SymbolKind::NAMESPACE.0 == 3);

const _: () = prove!(SymbolKind::PACKAGE.0 == 4);

const _: () = prove!(SymbolKind::CLASS.0 == 5);

const _: () = prove!(SymbolKind::METHOD.0 == 6);

const _: () = prove!(SymbolKind::PROPERTY.0 == 7);

const _: () = prove!(SymbolKind::FIELD.0 == 8);

const _: () = prove!(SymbolKind::CONSTRUCTOR.0 == 9);

const _: () = prove!(SymbolKind::ENUM.0 == 10);

const _: () = prove!(SymbolKind::INTERFACE.0 == 11);

const _: () = prove!(SymbolKind::FUNCTION.0 == 12);

const _: () = prove!(SymbolKind::VARIABLE.0 == 13);

const _: () = prove!(SymbolKind::CONSTANT.0 == 14);

const _: () = prove!(SymbolKind::STRING.0 == 15);

const _: () = prove!(SymbolKind::NUMBER.0 == 16);

const _: () = prove!(SymbolKind::BOOLEAN.0 == 17);

const _: () = prove!(SymbolKind::ARRAY.0 == 18);

const _: () = prove!(SymbolKind::OBJECT.0 == 19);

const _: () = prove!(SymbolKind::KEY.0 == 20);

const _: () = prove!(SymbolKind::NULL.0 == 21);

const _: () = prove!(SymbolKind::ENUM_MEMBER.0 == 22);

const _: () = prove!(SymbolKind::STRUCT.0 == 23);

const _: () = prove!(SymbolKind::EVENT.0 == 24);

const _: () = prove!(SymbolKind::OPERATOR.0 == 25);

const _: () = prove!(SymbolKind::TYPE_PARAMETER.0 == 26);

#[tactic(auto, unfolding(crate::specs::Tables::symbol_kinds))]
impl TryFrom<&str> for SymbolKind {
    type Error = &'static str;

    ghost try_from_gives = { λ name r. IsReadBy symbol_kinds name.now (λ e. e.now) r };

    fn try_from(name: &str) -> Result<SymbolKind, &'static str> {
        match number_of(&Self::NAMES, name) {
            Some(number) => Ok(SymbolKind(number)),
            None => Err(UNKNOWN),
        }
    }
}

impl fmt::Debug for SymbolKind {
    ghost debug_output = { λ k. Some (kind_text symbol_kinds (codes "SymbolKind") k) };

    fn fmt<W: fmt::Write>(&self, f: &mut fmt::Formatter<W>) -> fmt::Result {
        write_kind(f, "SymbolKind", self.name(), self.0)
    }
}

impl Wire for SymbolKind {
    ghost shape = { i32_shape };

    ghost shown = { show_signed };

    fn from_value(alloc: Global, value: &Value) -> Result<SymbolKind, Misfit> {
        Ok(SymbolKind(i32::from_value(alloc, value)?))
    }

    fn to_value(&self, alloc: Global) -> Result<Value, NoMemory> {
        self.0.to_value(alloc)
    }
}

/// A mark on a symbol. Since 3.16 (LSP 3.17, "Document Symbols Request").
#[derive(Clone, Copy, PartialEq, Eq)]
pub struct SymbolTag(i32);

impl Model for SymbolTag {
    ghost Value = { ℤ };

    ghost view = { λ k. k.0 };

    ghost inverse = { λ n. record { 0 = n } };
}

#[tactic(auto, unfolding(crate::specs::Tables::symbol_tags))]
impl SymbolTag {
    /// The symbol is deprecated. A client may strike it through.
    pub const DEPRECATED: SymbolTag = SymbolTag(1);

    const NAMES: [(&'static str, i32); 1] = [("Deprecated", Self::DEPRECATED.0)];

    /// Each constant, in the order of LSP 3.17: what `try_from` gives for the names in that order.
    pub fn constants() -> [SymbolTag; 1]
        ensures { result ≡ numbers_of symbol_tags }
    {
        [Self::DEPRECATED]
    }

    /// The name of the number, where it has one.
    pub fn name(&self) -> Option<&'static str>
        ensures { option_map (λ s. s.now) result ≡ name_in symbol_tags self.now }
    {
        name_of(&Self::NAMES, self.0)
    }
}

// The numbers of LSP 3.17.
const _: () = prove!(SymbolTag::DEPRECATED.0 == 1);

#[tactic(auto, unfolding(crate::specs::Tables::symbol_tags))]
impl TryFrom<&str> for SymbolTag {
    type Error = &'static str;

    ghost try_from_gives = { λ name r. IsReadBy symbol_tags name.now (λ e. e.now) r };

    fn try_from(name: &str) -> Result<SymbolTag, &'static str> {
        match number_of(&Self::NAMES, name) {
            Some(number) => Ok(SymbolTag(number)),
            None => Err(UNKNOWN),
        }
    }
}

impl fmt::Debug for SymbolTag {
    ghost debug_output = { λ k. Some (kind_text symbol_tags (codes "SymbolTag") k) };

    fn fmt<W: fmt::Write>(&self, f: &mut fmt::Formatter<W>) -> fmt::Result {
        write_kind(f, "SymbolTag", self.name(), self.0)
    }
}

impl Wire for SymbolTag {
    ghost shape = { i32_shape };

    ghost shown = { show_signed };

    fn from_value(alloc: Global, value: &Value) -> Result<SymbolTag, Misfit> {
        Ok(SymbolTag(i32::from_value(alloc, value)?))
    }

    fn to_value(&self, alloc: Global) -> Result<Value, NoMemory> {
        self.0.to_value(alloc)
    }
}
