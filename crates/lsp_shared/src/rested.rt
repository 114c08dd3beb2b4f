//! A seat that names neither its desk nor a runtime, so that a thread can hand it back.
ghost use Rattle.std.specs.Prelude.{◌≡◌, ◌≤◌, ◌<◌, ◌==◌, ◌^◌, ◌-◌, ℕ, true, length};
ghost use Rattle.lsp_desk.specs.Trace.{AllBelow, times};
ghost use Rattle.lsp_shared.specs.Phases.{is_idle};
ghost use Rattle.lsp_shared.specs.Props.{AllBelow-prop};

use crate::steps::TurnSeat;

/// A seat at rest: what a `DeskOwner` or a `SharedClient` is without its desk and its runtime.
#[derive(Drop)]
pub struct Rested {
    pub(crate) seat: TurnSeat,
    pub(crate) seen: u64,
    pub(crate) share: u64,
    pub(crate) spent: bool,
    pub ghost idle: { is_idle seat.me.0.phase ≡ true },
    pub ghost empty: { length seat.me.1 ≡ 0 },
    pub ghost seen_is: { length seat.me.0.seen ≡ seen },
    pub ghost share_is: { seat.me.0.share ≡ share },
    pub ghost has_share: { 0 < share },
    // The turn that was read last is the last one that there is.
    pub ghost spent_is: { spent ≡ (seat.me.0.read == 2 ^ 64 - 1) },
    pub ghost inside: { AllBelow (length seat.me.0.seen) seat.me.0.made } by { AllBelow-prop _ _ },
    pub ghost once: { (n : ℕ) → times n seat.me.0.made ≤ 1 },
}
