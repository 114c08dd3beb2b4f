//! A whole turn: it is drawn, it comes, the call is made, and it passes.
ghost use Rattle.std.specs.Prelude.{◌≡◌, ℕ, ◌-◌, ◌^◌, true, false, IfOk};
ghost use Rattle.lsp_desk.specs.Call.{is_client, call_has_float};
ghost use Rattle.lsp_desk.specs.Reply.{reply_has_float};
ghost use Rattle.lsp_shared.specs.Rule.{call_of};
ghost use Rattle.lsp_shared.specs.Steps.{Answered, HasTurn};
ghost use Rattle.lsp_shared.specs.Desks.{desk_id, rested_desk, rested_view, rested_spent};

use crate::call::DeskCall;
use crate::desk::SharedDesk;
use crate::rested::Rested;
use crate::rule::Note;
use crate::steps::{draw, pass, wait};
use lsp_desk::DeskFault;
use std::marker::Brand;
use std::sync::Wait;

/// One call, of either kind. A client's seat makes client calls alone.
pub fn turn<C: DeskCall, N: Note, R: Wait>(
    rt: &R,
    desk: &SharedDesk,
    seat: &mut Rested,
    call: C,
) -> Result<C::Reply, DeskFault>
    requires here { rested_desk seat.old ≡ desk_id desk.now }
    requires may { (rested_view seat.old).owner ≡ false → is_client (call_of (C.asked call))
        ≡ true }
    requires float_free { call_has_float (call_of (C.asked call)) ≡ false }
    requires note { N.call ≡ C.asked call }
    ensures here { rested_desk seat.new ≡ rested_desk seat.old }
    ensures owner { (rested_view seat.new).owner ≡ (rested_view seat.old).owner }
    ensures answered { Answered C.replied N.call (rested_view seat.old) result
        (rested_view seat.new) }
    ensures spent { (n : ℕ) → result ≡ Err (DeskFault.Spent n) → (n ≡ 2 ^ 64 - 1)
        × (rested_spent seat.new ≡ true) }
    ensures spent_stays { HasTurn result (rested_spent seat.new ≡ rested_spent seat.old) }
    ensures float_free { IfOk result (λ reply. reply_has_float (C.shown reply) ≡ false) }
{
    let Some(t) = draw(rt, desk, &mut seat.seat) else {
        seat.spent = true;
        return Err(DeskFault::Spent(u64::MAX));
    };
    wait(rt, desk, &mut seat.seat, t);
    let result = call.make(seat.seat.slot_mut(&desk.table.shared, 0));
    pass::<C::Reply, Brand>(desk, &mut seat.seat, t, &result);
    seat.seen = t + 1;
    result
}
