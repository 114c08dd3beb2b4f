// What is watched of a file.
ghost use Rattle.std.specs.Prelude.{⊤, ◌≡◌, ◌<◌, ◌↔◌, IfOk, IfSome, IsNone, option_map};
ghost use Rattle.std.specs.Int.RustNames.{bit_or};
ghost use Rattle.serde_json.specs.View.{view};
ghost use Rattle.lsp_shape.specs.Read.{read};
ghost use Rattle.lsp_offer_work.specs.WatchKind.{bits_of, watch_kind_row, watch_kinds};

use bitflags::{Flag, Flags};
use lsp_shape::{Misfit, NoMemory, Wanted, Wire, attempt};
use serde_json::Value;
use std::alloc::Global;
use std::ops::BitOr;

/// The events on files that are watched, as a set: `WatchKind::Create | WatchKind::Delete`. Its
/// other operations are those of `bitflags::Flags` (LSP 3.17, "DidChangeWatchedFiles
/// Notification").
#[derive(Debug, PartialEq, Eq, PartialOrd, Ord, Hash, Clone, Copy)]
pub struct WatchKind(u8);

impl WatchKind {
    /// A file is created.
    pub const Create: WatchKind = WatchKind(1);
    /// A file is changed.
    pub const Change: WatchKind = WatchKind(2);
    /// A file is deleted.
    pub const Delete: WatchKind = WatchKind(4);

    const FLAGS: &'static [Flag<WatchKind>] = &[
        Flag {
            name: "Create",
            value: WatchKind::Create,
        },
        Flag {
            name: "Change",
            value: WatchKind::Change,
        },
        Flag {
            name: "Delete",
            value: WatchKind::Delete,
        },
    ];

    /// The set of these bits: 1, 2 and 4 in any union. None for any other bit, that is, for each
    /// number above 7.
    #[tactic(auto, using(std::proofs::lemmas::Grind::and_numeral), unfolding(crate::specs::WatchKind::watch_kinds, bitflags::specs::Sets::known_from))]
    pub fn from_bits(bits: u8) -> Option<WatchKind>
        ensures set { IfSome result (λ kind. bits_of kind ≡ bits) }
        ensures none { IsNone result ↔ 7 < bits }
    {
        <WatchKind as Flags>::from_bits(bits)
    }
}

// The bits of LSP 3.17.
const _: () = prove!(WatchKind::Create.0 == 1);

const _: () = prove!(WatchKind::Change.0 == 2);

const _: () = prove!(WatchKind::Delete.0 == 4);

#[tactic(auto, unfolding(crate::specs::WatchKind::watch_kinds))]
impl Flags for WatchKind {
    type Bits = u8;

    ghost exact = { ⊤ };

    ghost table = { watch_kinds };

    ghost set_of = { bits_of };

    fn flags<'a>() -> &'a [Flag<WatchKind>] {
        WatchKind::FLAGS
    }

    fn bits(&self) -> u8 {
        self.0
    }

    fn from_bits_retain(bits: u8) -> WatchKind {
        WatchKind(bits)
    }
}

impl BitOr for WatchKind {
    type Output = WatchKind;

    ghost bitor_gives = { λ a b both. bits_of both ≡ bit_or (bits_of a) (bits_of b) };

    fn bitor(self, other: WatchKind) -> WatchKind {
        WatchKind(self.0 | other.0)
    }
}

// The set whose bits the value is.
#[tactic(auto, unfolding(crate::specs::WatchKind::watch_kind_row))]
fn kind_of(alloc: Global, value: &Value) -> Result<Option<WatchKind>, NoMemory>
    ensures { IfOk result
        (λ o. option_map watch_kind_row.shown o ≡ read watch_kind_row.shape (view value.now)) }
{
    match attempt(alloc, value)? {
        Some(bits) => Ok(WatchKind::from_bits(bits)),
        None => Ok(None),
    }
}

#[tactic(auto, unfolding(crate::specs::WatchKind::watch_kind_row))]
impl Wire for WatchKind {
    ghost shape = { watch_kind_row.shape };

    ghost shown = { watch_kind_row.shown };

    fn from_value(alloc: Global, value: &Value) -> Result<WatchKind, Misfit> {
        match kind_of(alloc, value)? {
            Some(kind) => Ok(kind),
            None => Err(Misfit::wanted(Wanted::Unsigned)),
        }
    }

    fn to_value(&self, _alloc: Global) -> Result<Value, NoMemory> {
        Ok(Value::from(self.0))
    }
}
