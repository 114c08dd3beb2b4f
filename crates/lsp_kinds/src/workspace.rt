// Kinds of the workspace and the window.
ghost use Rattle.std.specs.Prelude.{◌≡◌, codes, option_map, Some, ℤ};
ghost use Rattle.lsp_shape.specs.Shape.{i32_shape};
ghost use Rattle.lsp_shape.specs.Shown.{show_signed};
ghost use Rattle.lsp_kinds.specs.Named.{IsReadBy, kind_text, name_in, numbers_of};
ghost use Rattle.lsp_kinds.specs.Tables.{file_change_types, message_types};

use crate::named::{UNKNOWN, name_of, number_of, write_kind};
use lsp_shape::{Misfit, NoMemory, Wire};
use serde_json::Value;
use std::alloc::Global;
use std::fmt;
use std::marker::Model;

/// What happened to a file (LSP 3.17, "DidChangeWatchedFiles Notification").
#[derive(Clone, Copy, PartialEq, Eq, Hash)]
pub struct FileChangeType(i32);

impl Model for FileChangeType {
    ghost Value = { ℤ };

    ghost view = { λ k. k.0 };

    ghost inverse = { λ n. record { 0 = n } };
}

#[tactic(auto, unfolding(crate::specs::Tables::file_change_types))]
impl FileChangeType {
    /// It was created.
    pub const CREATED: FileChangeType = FileChangeType(1);
    /// It was changed.
    pub const CHANGED: FileChangeType = FileChangeType(2);
    /// It was deleted.
    pub const DELETED: FileChangeType = FileChangeType(3);

    const NAMES: [(&'static str, i32); 3] = [
        ("Created", Self::CREATED.0),
        ("Changed", Self::CHANGED.0),
        ("Deleted", Self::DELETED.0),
    ];

    /// Each constant, in the order of LSP 3.17: what `try_from` gives for the names in that order.
    pub fn constants() -> [FileChangeType; 3]
        ensures { result ≡ numbers_of file_change_types }
    {
        [Self::CREATED, Self::CHANGED, Self::DELETED]
    }

    /// The name of the number, where it has one.
    pub fn name(&self) -> Option<&'static str>
        ensures { option_map (λ s. s.now) result ≡ name_in file_change_types self.now }
    {
        name_of(&Self::NAMES, self.0)
    }
}

// The numbers of LSP 3.17.
const _: () = prove!(FileChangeType::CREATED.0 == 1);

const _: () = prove!(FileChangeType::CHANGED.0 == 2);

const _: () = prove!(FileChangeType::DELETED.0 == 3);

#[tactic(auto, unfolding(crate::specs::Tables::file_change_types))]
impl TryFrom<&str> for FileChangeType {
    type Error = &'static str;

    ghost try_from_gives = { λ name r. IsReadBy file_change_types name.now (λ e. e.now) r };

    fn try_from(name: &str) -> Result<FileChangeType, &'static str> {
        match number_of(&Self::NAMES, name) {
            Some(number) => Ok(FileChangeType(number)),
            None => Err(UNKNOWN),
        }
    }
}

impl fmt::Debug for FileChangeType {
    ghost debug_output = { λ k. Some (kind_text file_change_types (codes "FileChangeType") k) };

    fn fmt<W: fmt::Write>(&self, f: &mut fmt::Formatter<W>) -> fmt::Result {
        write_kind(f, "FileChangeType", self.name(), self.0)
    }
}

impl Wire for FileChangeType {
    ghost shape = { i32_shape };

    ghost shown = { show_signed };

    fn from_value(alloc: Global, value: &Value) -> Result<FileChangeType, Misfit> {
        Ok(FileChangeType(i32::from_value(alloc, value)?))
    }

    fn to_value(&self, alloc: Global) -> Result<Value, NoMemory> {
        self.0.to_value(alloc)
    }
}

/// What a message to the user is (LSP 3.17, "ShowMessage Notification").
#[derive(Clone, Copy, PartialEq, Eq)]
pub struct MessageType(i32);

impl Model for MessageType {
    ghost Value = { ℤ };

    ghost view = { λ k. k.0 };

    ghost inverse = { λ n. record { 0 = n } };
}

#[tactic(auto, unfolding(crate::specs::Tables::message_types))]
impl MessageType {
    /// An error.
    pub const ERROR: MessageType = MessageType(1);
    /// A warning.
    pub const WARNING: MessageType = MessageType(2);
    /// Something to know.
    pub const INFO: MessageType = MessageType(3);
    /// An entry of a log.
    pub const LOG: MessageType = MessageType(4);

    const NAMES: [(&'static str, i32); 4] = [
        ("Error", Self::ERROR.0),
        ("Warning", Self::WARNING.0),
        ("Info", Self::INFO.0),
        ("Log", Self::LOG.0),
    ];

    /// Each constant, in the order of LSP 3.17: what `try_from` gives for the names in that order.
    pub fn constants() -> [MessageType; 4]
        ensures { result ≡ numbers_of message_types }
    {
        [Self::ERROR, Self::WARNING, Self::INFO, Self::LOG]
    }

    /// The name of the number, where it has one.
    pub fn name(&self) -> Option<&'static str>
        ensures { option_map (λ s. s.now) result ≡ name_in message_types self.now }
    {
        name_of(&Self::NAMES, self.0)
    }
}

// The numbers of LSP 3.17.
const _: () = prove!(MessageType::ERROR.0 == 1);

const _: () = prove!(MessageType::WARNING.0 == 2);

const _: () = prove!(MessageType::INFO.0 == 3);

const _: () = prove!(MessageType::LOG.0 == 4);

#[tactic(auto, unfolding(crate::specs::Tables::message_types))]
impl TryFrom<&str> for MessageType {
    type Error = &'static str;

    ghost try_from_gives = { λ name r. IsReadBy message_types name.now (λ e. e.now) r };

    fn try_from(name: &str) -> Result<MessageType, &'static str> {
        match number_of(&Self::NAMES, name) {
            Some(number) => Ok(MessageType(number)),
            None => Err(UNKNOWN),
        }
    }
}

impl fmt::Debug for MessageType {
    ghost debug_output = { λ k. Some (kind_text message_types (codes "MessageType") k) };

    fn fmt<W: fmt::Write>(&self, f: &mut fmt::Formatter<W>) -> fmt::Result {
        write_kind(f, "MessageType", self.name(), self.0)
    }
}

impl Wire for MessageType {
    ghost shape = { i32_shape };

    ghost shown = { show_signed };

    fn from_value(alloc: Global, value: &Value) -> Result<MessageType, Misfit> {
        Ok(MessageType(i32::from_value(alloc, value)?))
    }

    fn to_value(&self, alloc: Global) -> Result<Value, NoMemory> {
        self.0.to_value(alloc)
    }
}
