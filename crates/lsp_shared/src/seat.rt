//! Seats as callers and desks.
ghost use Rattle.std.specs.Prelude.{◌≡◌};
ghost use Rattle.lsp_shared.specs.Props.{TableId-set};
ghost use Rattle.lsp_shared.specs.Desks.{desk_id, rested_desk, rested_view};

use crate::desk::{OwnerSeat, SharedDesk};
use crate::rested::Rested;
use crate::role::{Client, Owner, Role};
use crate::rule::{Halves, Joins, Learns};
use crate::steps::TICKET;
use crate::turn::turn;
use lsp_desk::{Caller, ClientCall, ClientReply, Desk, DeskFault, ServerCall, ServerReply};
use no_memory::NoMemory;
use std::marker::{Brand, PhantomData};
use std::sync::Wait;

/// A seat of a shared desk, with the runtime that its calls wait by.
#[derive(Drop)]
pub struct DeskSeat<'a, R: Wait + Sync, K: Role> {
    rt: &'a R,
    desk: &'a SharedDesk,
    rested: Rested,
    role: PhantomData<K>,
    pub ghost here: { rested_desk rested ≡ desk_id desk.now } by { TableId-set _ _ },
    pub ghost role_is: { (rested_view rested).owner ≡ K.owns },
}

/// The seat of a shared desk through which its session calls.
pub type DeskOwner<'a, R> = DeskSeat<'a, R, Owner>;

/// A seat of a shared desk for a server's calls.
pub type SharedClient<'a, R> = DeskSeat<'a, R, Client>;

impl SharedDesk {
    ghost use Rattle.lsp_desk.specs.Meaning.{IsOpening};
    ghost use Rattle.lsp_shared.specs.Desks.{first_desk};
    ghost use Rattle.lsp_shared.specs.Steps.{IsNew};
    ghost use Rattle.lsp_shared.specs.Seats.{seat_meaning, seat_view, seat_desk};

    /// The owner's seat, with the runtime that its calls wait by.
    pub fn owner<'a, R: Wait + Sync>(&'a self, rt: &'a R, seat: OwnerSeat) -> DeskOwner<'a, R>
        requires { first_desk seat ≡ desk_id self.now }
        ensures is_new { IsNew (seat_view result) }
        ensures opening { IsOpening seat_meaning result }
        ensures same { seat_desk result ≡ desk_id self.now }
    {
        let OwnerSeat { rested } = seat;
        DeskSeat {
            rt,
            desk: self,
            rested,
            role: PhantomData,
        }
    }
}

impl<'a, R: Wait + Sync, K: Role> Caller for DeskSeat<'a, R, K> {
    ghost use Rattle.std.specs.Prelude.{ℕ, ◌-◌, ◌^◌, true, false, IfOk};
    ghost use Rattle.lsp_desk.specs.Call.{call_has_float};
    ghost use Rattle.lsp_desk.specs.Reply.{reply_has_float};
    ghost use Rattle.lsp_desk.specs.Shown.{show_client_call, show_client_reply};
    ghost use Rattle.lsp_desk.specs.Meaning.{Calls};
    ghost use Rattle.lsp_shared.specs.declared.view.Asked.TheVariants as asked;
    ghost use Rattle.lsp_shared.specs.Steps.{by_client, Answered, HasTurn};
    ghost use Rattle.lsp_shared.specs.Seats.{seat_meaning, seat_laws, seat_view, seat_desk, SeenTicketsAddUp};

    ghost meaning = { seat_meaning };

    fn client(&mut self, call: ClientCall) -> Result<ClientReply, DeskFault>
        requires { call_has_float (show_client_call call) ≡ false }
        ensures turned { Answered by_client (asked.Client call) (seat_view self.old) result
            (seat_view self.new) }
        ensures tickets { HasTurn result (SeenTicketsAddUp (seat_view self.new)) }
        ensures same { seat_desk self.new ≡ seat_desk self.old }
        ensures calls { Calls seat_meaning show_client_reply self.old
            (show_client_call call) result self.new }
        ensures spent { (n : ℕ) → result ≡ Err (DeskFault.Spent n) → (n ≡ 2 ^ 64 - 1)
            × (seat_meaning.spent self.new ≡ true) }
        ensures spent_stays { HasTurn result (seat_meaning.spent self.new
            ≡ seat_meaning.spent self.old) }
        ensures float_free { IfOk result (λ reply. reply_has_float (show_client_reply reply)
            ≡ false) }
    {
        turn::<ClientCall, Brand, R>(self.rt, self.desk, &mut self.rested, call)
    }

    ghost laws = { seat_laws };
}

impl<'a, R: Wait + Sync> Desk for DeskOwner<'a, R> {
    ghost use Rattle.std.specs.Prelude.{ℕ, ◌-◌, ◌^◌, true, false, IfOk};
    ghost use Rattle.lsp_desk.specs.Call.{call_has_float};
    ghost use Rattle.lsp_desk.specs.Reply.{reply_has_float};
    ghost use Rattle.lsp_desk.specs.Shown.{show_server_call, show_server_reply};
    ghost use Rattle.lsp_desk.specs.Meaning.{Calls};
    ghost use Rattle.lsp_shared.specs.declared.view.Asked.TheVariants as asked;
    ghost use Rattle.lsp_shared.specs.Steps.{by_server, Answered, HasTurn};
    ghost use Rattle.lsp_shared.specs.Seats.{seat_meaning, seat_view, seat_desk, SeenTicketsAddUp};

    fn server(&mut self, call: ServerCall) -> Result<ServerReply, DeskFault>
        requires { call_has_float (show_server_call call) ≡ false }
        ensures turned { Answered by_server (asked.Server call) (seat_view self.old) result
            (seat_view self.new) }
        ensures tickets { HasTurn result (SeenTicketsAddUp (seat_view self.new)) }
        ensures same { seat_desk self.new ≡ seat_desk self.old }
        ensures calls { Calls seat_meaning show_server_reply self.old
            (show_server_call call) result self.new }
        ensures spent { (n : ℕ) → result ≡ Err (DeskFault.Spent n) → (n ≡ 2 ^ 64 - 1)
            × (seat_meaning.spent self.new ≡ true) }
        ensures spent_stays { HasTurn result (seat_meaning.spent self.new
            ≡ seat_meaning.spent self.old) }
        ensures float_free { IfOk result (λ reply. reply_has_float (show_server_reply reply)
            ≡ false) }
    {
        turn::<ServerCall, Brand, R>(self.rt, self.desk, &mut self.rested, call)
    }

    ghost is_chief = { λ desk. desk.role_is };
}

impl<'a, R: Wait + Sync, K: Role> DeskSeat<'a, R, K> {
    ghost use Rattle.std.specs.Prelude.{◌≤◌, ◌||◌, true, false, length, IsOk, IfOk};
    ghost use Rattle.lsp_shared.specs.Desks.{rested_spent};
    ghost use Rattle.lsp_shared.specs.Seats.{seat_meaning, seat_view, seat_desk};
    ghost use Rattle.lsp_shared.specs.Steps.{half, rest_of, joined, learned, Begins, AddsClients, IsSoundView};

    /// The seat at its desk again.
    pub fn sit(rt: &'a R, desk: &'a SharedDesk, rested: Rested) -> DeskSeat<'a, R, K>
        requires same { rested_desk rested ≡ desk_id desk.now }
        requires role { (rested_view rested).owner ≡ K.owns }
        ensures { (seat_view result ≡ rested_view rested)
            × (seat_desk result ≡ rested_desk rested) × (seat_meaning.spent result
            ≡ rested_spent rested) }
    {
        DeskSeat {
            rt,
            desk,
            rested,
            role: PhantomData,
        }
    }

    /// The seat at rest: without its desk and its runtime, so that a thread can hand it back.
    pub fn rest(self) -> Rested
        ensures same { (rested_view result ≡ seat_view self.entry)
            × (rested_desk result ≡ seat_desk self.entry)
            × (rested_spent result ≡ seat_meaning.spent self.entry) }
        ensures role { (rested_view result).owner ≡ K.owns }
    {
        let DeskSeat {
            rt: _,
            desk: _,
            rested,
            role: _,
        } = self;
        rested
    }

    /// Cuts the share in two: the new seat gets half of it, rounded down. It has seen what this one
    /// has, and made no call.
    pub fn split(&mut self) -> Result<SharedClient<'a, R>, NoMemory>
        requires { 2 ≤ (seat_view self.old).share }
        ensures ready { IsOk result }
        ensures kept { (seat_view self.new ≡ rest_of (seat_view self.old))
            × (seat_desk self.new ≡ seat_desk self.old) × (seat_meaning.spent self.new
            ≡ seat_meaning.spent self.old) }
        ensures given { IfOk result (λ c. (seat_view c ≡ half (seat_view self.old))
            × (seat_desk c ≡ seat_desk self.old) × (seat_meaning.spent c ≡ false)) }
    {
        let rested = &mut self.rested;
        let share = rested.share / 2;
        let seat = self
            .desk
            .table
            .shared
            .split_seat::<Halves>(&mut rested.seat);
        rested.share -= share;
        let rested = Rested {
            seat,
            seen: rested.seen,
            share,
            spent: false,
        };
        Ok(DeskSeat {
            rt: self.rt,
            desk: self.desk,
            rested,
            role: PhantomData,
        })
    }

    /// Takes in another seat of this desk: its share and its calls are this seat's, and this one
    /// has seen what either had. Of what they had seen one begins the other, and what it brings
    /// the owner are client calls.
    pub fn join(&mut self, other: SharedClient<'_, R>)
        requires { seat_desk other ≡ seat_desk self.old }
        ensures joined { seat_view self.new
            ≡ learned (joined (seat_view self.old) (seat_view other.entry)) }
        ensures seen { Begins (seat_view self.old).seen (seat_view self.new).seen
            × Begins (seat_view other.entry).seen (seat_view self.new).seen }
        ensures clients { K.owns ≡ true
            → AddsClients (seat_view self.old).seen (seat_view self.new).seen }
        ensures sound { IsSoundView (seat_view self.new) }
        ensures same { seat_desk self.new ≡ seat_desk self.old }
        ensures spent { seat_meaning.spent self.new
            ≡ (seat_meaning.spent self.old || seat_meaning.spent other.entry) }
    {
        let Rested {
            seat,
            seen,
            share,
            spent,
        } = other.rest();
        let table = &self.desk.table.shared;
        let rested = &mut self.rested;
        table.join_seat::<Joins>(&mut rested.seat, seat);
        table.load::<Learns>(&mut rested.seat, TICKET);
        rested.seen = rested.seen.max(seen);
        rested.share += share;
        rested.spent |= spent;
    }

    /// The desk that this is a seat of.
    pub fn desk(&self) -> &'a SharedDesk
        ensures { desk_id result.now ≡ seat_desk self.now }
    {
        self.desk
    }

    /// How many entries of the history this seat has seen.
    pub fn seen(&self) -> u64
        ensures { result ≡ length (seat_view self.now).seen }
    {
        self.rested.seen
    }

    /// This seat's share: all seats of a desk together have 2^63.
    pub fn share(&self) -> u64
        ensures { result ≡ (seat_view self.now).share }
    {
        self.rested.share
    }
}
