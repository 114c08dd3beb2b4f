//! The id of a request.
ghost use Rattle.std.specs.Prelude.{◌≡◌, IfOk, OnErr, string_bytes};
ghost use Rattle.lsp_rpc.specs.Message.{number_id, text_id, null_id, id_line};
ghost use Rattle.std.specs.Cmp.{on_equiv, on_per, partial_equiv_from_equiv};
ghost use Rattle.lsp_rpc.specs.Ids.{IsString, same_id, same_id_equiv, id_writes, id_writes_alike};
ghost use Rattle.lsp_rpc.specs.Shown.{show_id};

use no_memory::NoMemory;
use std::alloc::Global;
use std::cmp::{Eq, PartialEq};
use std::convert::From;
use std::default::Default;
use std::fmt;
use std::hash::{Hash, Hasher};

/// What ties a response to its request (JSON-RPC 2.0, section 4 "Request object").
#[derive(Drop, Debug)]
pub enum Id {
    /// An integer.
    Number(i64),
    /// A string.
    String(String),
    /// No request: the response to what couldn't be read.
    Null,
}

impl Id {
    /// An equal id. Only the copy of a string takes memory.
    pub fn clone(&self, alloc: Global) -> Result<Id, NoMemory>
        ensures equal { IfOk result (λ copy. show_id copy ≡ show_id self.now) }
        ensures memory { OnErr result (IsString (show_id self.now)) }
    {
        match self {
            Id::Number(n) => Ok(Id::Number(*n)),
            Id::String(text) => Ok(Id::String(String::from_str(alloc, text.as_str())?)),
            Id::Null => Ok(Id::Null),
        }
    }
}

impl Default for Id {
    ghost is_default = { λ id. show_id id ≡ null_id };

    fn default() -> Id {
        Id::Null
    }
}

impl From<i64> for Id {
    ghost from_gives = { λ n id. show_id id ≡ number_id n };

    fn from(n: i64) -> Id {
        Id::Number(n)
    }
}

impl From<String> for Id {
    ghost from_gives = { λ text id. show_id id ≡ text_id (string_bytes text) };

    fn from(text: String) -> Id {
        Id::String(text)
    }
}

impl PartialEq for Id {
    ghost eq = { λ a b. same_id (show_id a) (show_id b) };

    ghost laws = { on_per show_id (partial_equiv_from_equiv same_id_equiv) };

    fn eq(&self, other: &Id) -> bool {
        match (self, other) {
            (Id::Number(a), Id::Number(b)) => *a == *b,
            (Id::String(a), Id::String(b)) => a.as_str() == b.as_str(),
            (Id::Null, Id::Null) => true,
            _ => false,
        }
    }
}

impl Eq for Id {
    ghost laws = { on_equiv show_id same_id_equiv };
}

impl Hash for Id {
    ghost hash_input = { λ id. id_writes (show_id id) };

    ghost respects_eq = { λ a b same. id_writes_alike (show_id a) (show_id b) same };

    fn hash<H: Hasher>(&self, state: &mut H) {
        match self {
            Id::Number(n) => {
                0u8.hash(state);
                n.hash(state);
            }
            Id::String(text) => {
                1u8.hash(state);
                text.as_str().hash(state);
            }
            Id::Null => 2u8.hash(state),
        }
    }
}

impl fmt::Display for Id {
    ghost output = { λ id. id_line (show_id id) };

    fn fmt<W: fmt::Write>(&self, f: &mut fmt::Formatter<W>) -> fmt::Result {
        match self {
            Id::Number(n) => fmt::Display::fmt(n, f),
            Id::String(text) => fmt::Debug::fmt(&text.as_str(), f),
            Id::Null => f.write_str("null"),
        }
    }
}
