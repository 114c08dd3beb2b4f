//! The desk that threads share.
ghost use Rattle.std.specs.Prelude.{◌≡◌, ◌^◌, true, false, length, IfOk};

use crate::door::Door;
use crate::rested::Rested;
use crate::rule::Turns;
use crate::view::View;
use atomic_table::Table;
use lsp_desk::PlainDesk;
use no_memory::NoMemory;
use std::alloc::Global;

/// A desk that threads share, each through a seat of its own. Calls take turns; a seat draws one as
/// soon as no other has the desk.
#[derive(Drop)]
pub struct SharedDesk {
    pub(crate) table: Table<PlainDesk, View, (), Turns, Global>,
    pub(crate) door: Door,
    pub ghost words: { table.shared.table_id.words ≡ 2 },
}

/// The first seat of a desk, through which no call was made.
#[derive(Drop)]
pub struct OwnerSeat {
    pub(crate) rested: Rested,
    pub ghost unseen: { length rested.seat.me.0.seen ≡ 0 },
    pub ghost unmade: { length rested.seat.me.0.made ≡ 0 },
    pub ghost unspent: { rested.spent ≡ false },
    pub ghost whole: { rested.seat.me.0.share ≡ 2 ^ 63 },
    pub ghost owns: { rested.seat.me.0.owner ≡ true },
}

impl SharedDesk {
    ghost use Rattle.lsp_shared.specs.Desks.{desk_id, first_desk};

    /// A desk on which nothing was done, with its owner's seat. `NoMemory`: there is none.
    pub fn new(alloc: Global) -> Result<(SharedDesk, OwnerSeat), NoMemory>
        ensures { IfOk result (λ r. first_desk r.1 ≡ desk_id r.0) }
    {
        let mut slots = Vec::new(alloc);
        slots.push(PlainDesk::new(alloc))?;
        let Ok((table, seat)) = Table::new(alloc, &[0, 0], slots, &()) else {
            return Err(NoMemory);
        };
        let rested = Rested {
            seat,
            seen: 0,
            share: 1 << 63,
            spent: false,
        };
        let door = Door::new();
        Ok((SharedDesk { table, door }, OwnerSeat { rested }))
    }
}
