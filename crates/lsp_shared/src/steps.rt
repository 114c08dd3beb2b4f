//! The steps of a turn: it is drawn, it comes, and it passes.
ghost use Rattle.std.specs.Prelude.{◌≡◌, ◌<◌, []};
ghost use Rattle.lsp_shared.specs.declared.view.Phase.TheVariants.{Idle, Drawn};
ghost use Rattle.lsp_shared.specs.Desks.{desk_id};
ghost use Rattle.lsp_shared.specs.Steps.{passing_turn, HasDrawn, GotTurn, Ready};

use crate::desk::SharedDesk;
use crate::door::Patience;
use crate::rule::{Draws, Passes, Reads, Said, Takes};
use crate::view::View;
use atomic_table::Seat;
use lsp_desk::{DeskFault, PlainDesk};
use std::hint::spin_loop;
use std::sync::Wait;

pub type TurnSeat = Seat<PlainDesk, View>;

/// The word of the turn that is drawn next.
pub const TICKET: usize = 0;

// The word of the turn that has come.
const SERVING: usize = 1;

/// Draws a turn, as soon as no other seat has one. There is none where the last number was read.
pub fn draw<R: Wait>(rt: &R, desk: &SharedDesk, seat: &mut TurnSeat) -> Option<u64>
    requires here { seat.old.table_id ≡ desk_id desk.now }
    requires may { (seat.old.me.0.phase ≡ Idle) × (0 < seat.old.me.0.share) }
    ensures here { seat.new.table_id ≡ seat.old.table_id }
    ensures drawn { HasDrawn seat.old.me result seat.new.me }
{
    let table = &desk.table.shared;
    let mut patience = Patience::new();
    for _ in rt.forever() {
        let n = table.load::<Reads>(seat, TICKET);
        if n == u64::MAX {
            return None;
        }
        if table.peek(SERVING) != n {
            wait_at_door(rt, desk, &mut patience);
        } else if table.compare_exchange::<Draws>(seat, TICKET, n, n + 1) == n {
            return Some(n);
        }
    }
    unreachable!()
}

// Lets another seat have the desk for a while.
fn wait_at_door<R: Wait>(rt: &R, desk: &SharedDesk, patience: &mut Patience) {
    if patience.lasts() {
        return;
    }
    let heard = desk.door.listen();
    let table = &desk.table.shared;
    if table.peek(SERVING) != table.peek(TICKET) {
        desk.door.sleep(rt, heard);
    }
}

/// Waits for the turn t, and has the desk then. It has come already where `draw` gave it.
pub fn wait<R: Wait>(rt: &R, desk: &SharedDesk, seat: &mut TurnSeat, t: u64)
    requires here { seat.old.table_id ≡ desk_id desk.now }
    requires waits { (seat.old.me.0.phase ≡ Drawn t) × (0 < seat.old.me.0.share) }
    requires empty { seat.old.me.1 ≡ [] }
    ensures { (seat.new.table_id ≡ seat.old.table_id) × GotTurn seat.old.me.0 t seat.new.me }
{
    let table = &desk.table.shared;
    for _ in rt.forever() {
        let turn = table.load::<Takes>(seat, SERVING);
        if turn == t {
            return;
        }
        spin_loop();
    }
    unreachable!()
}

/// Passes the turn t on with what its call was answered, and wakes one of those who wait for the
/// desk.
pub fn pass<T, N: Said>(
    desk: &SharedDesk,
    seat: &mut TurnSeat,
    t: u64,
    _result: &Result<T, DeskFault>,
)
    requires here { seat.old.table_id ≡ desk_id desk.now }
    requires ready { Ready N.item t seat.old.me × (0 < seat.old.me.0.share) }
    ensures { (seat.new.table_id ≡ seat.old.table_id)
        × (seat.new.me ≡ (passing_turn seat.old.me.0 t N.item, [])) }
{
    let table = &desk.table.shared;
    table.fetch_add::<Passes<N>>(seat, SERVING, 1);
    desk.door.open();
}
