//! The owner's seat with a count of the messages that it was given.
ghost use Rattle.std.specs.Prelude.{◌≡◌, ◌≤◌, ◌+◌, ◌-◌, ◌^◌, ◌%◌, ◌||◌, ℕ, [], true, false, Err, IfOk};
ghost use Rattle.lsp_desk.specs.Call.{call_has_float};
ghost use Rattle.lsp_desk.specs.Reply.{reply_has_float};
ghost use Rattle.lsp_desk.specs.Shown.{show_client_call, show_client_reply, show_server_call, show_server_reply};
ghost use Rattle.lsp_desk.specs.Meaning.{Calls};
ghost use Rattle.lsp_shared.specs.declared.view.Asked.TheVariants as asked;
ghost use Rattle.lsp_shared.specs.Desks.{desk_id, rested_view};
ghost use Rattle.lsp_shared.specs.Seats.{seat_meaning, seat_view, seat_desk, entries_seen};
ghost use Rattle.lsp_shared.specs.Steps.{by_client, by_server, Answered, HasTurn, joined, learned, Begins, AddsClients, IsSoundView};
ghost use Rattle.lsp_callers.specs.Counted.{delivered_in};
ghost use Rattle.lsp_callers.specs.Given.{is_take as is_take_def, messages_given};

use lsp_desk::{Caller, ClientCall, ClientReply, Desk, DeskFault, ServerCall, ServerReply};
use lsp_shared::{DeskOwner, Rested, SharedClient, SharedDesk};
use std::sync::Wait;

/// The owner's seat of a shared desk, which counts the messages that the desk gives to `Take`.
#[derive(Drop)]
pub struct Tallied<'a, R: Wait + Sync> {
    owner: DeskOwner<'a, R>,
    delivered: u64,
    pub ghost counted: { delivered ≡ delivered_in (entries_seen (seat_view owner)) % 2 ^ 64 },
}

/// The same at rest, so that a thread can hand it back.
#[derive(Drop)]
pub struct RestedTally {
    seat: Rested,
    delivered: u64,
    pub ghost counted: { delivered ≡ delivered_in (entries_seen (rested_view seat)) % 2 ^ 64 },
    pub ghost owns: { (rested_view seat).owner ≡ true },
}

impl<'a, R: Wait + Sync> Tallied<'a, R> {
    ghost use Rattle.lsp_callers.specs.Tallies.{tallied_view, tallied_desk, tallied_spent, tally_view, tally_desk, tally_spent};

    /// A seat that has seen nothing has been given nothing.
    pub fn new(owner: DeskOwner<'a, R>) -> Tallied<'a, R>
        requires { (seat_view owner).seen ≡ [] }
        ensures { (tallied_view result ≡ seat_view owner.entry)
            × (tallied_desk result ≡ seat_desk owner.entry)
            × (tallied_spent result ≡ seat_meaning.spent owner.entry) }
    {
        Tallied {
            owner,
            delivered: 0,
        }
    }

    /// The seat at its desk again.
    pub fn sit(rt: &'a R, desk: &'a SharedDesk, tally: RestedTally) -> Tallied<'a, R>
        requires { tally_desk tally ≡ desk_id desk.now }
        ensures { (tallied_view result ≡ tally_view tally) × (tallied_desk result ≡ tally_desk tally)
            × (tallied_spent result ≡ tally_spent tally) }
    {
        let RestedTally { seat, delivered } = tally;
        Tallied {
            owner: DeskOwner::sit(rt, desk, seat),
            delivered,
        }
    }

    /// The seat at rest.
    pub fn rest(self) -> RestedTally
        ensures { (tally_view result ≡ tallied_view self.entry)
            × (tally_desk result ≡ tallied_desk self.entry)
            × (tally_spent result ≡ tallied_spent self.entry) }
    {
        let Tallied { owner, delivered } = self;
        RestedTally {
            seat: owner.rest(),
            delivered,
        }
    }

    /// How many messages it was given.
    pub fn delivered(&self) -> u64
        ensures { result ≡ delivered_in (entries_seen (tallied_view self.now)) % 2 ^ 64 }
    {
        self.delivered
    }

    /// The seat alone.
    pub fn into_owner(self) -> DeskOwner<'a, R>
        ensures { (seat_view result ≡ tallied_view self.entry)
            × (seat_desk result ≡ tallied_desk self.entry)
            × (seat_meaning.spent result ≡ tallied_spent self.entry) }
    {
        let Tallied {
            owner,
            delivered: _,
        } = self;
        owner
    }

    /// Takes in another seat of this desk.
    pub fn join(&mut self, other: SharedClient<'_, R>)
        requires { seat_desk other ≡ tallied_desk self.old }
        ensures joined { tallied_view self.new
            ≡ learned (joined (tallied_view self.old) (seat_view other.entry)) }
        ensures seen { Begins (tallied_view self.old).seen (tallied_view self.new).seen
            × Begins (seat_view other.entry).seen (tallied_view self.new).seen }
        ensures clients { AddsClients (tallied_view self.old).seen (tallied_view self.new).seen }
        ensures sound { IsSoundView (tallied_view self.new) }
        ensures same { tallied_desk self.new ≡ tallied_desk self.old }
        ensures spent { tallied_spent self.new
            ≡ (tallied_spent self.old || seat_meaning.spent other.entry) }
    {
        self.owner.join(other);
    }
}

impl<'a, R: Wait + Sync> Caller for Tallied<'a, R> {
    ghost use Rattle.lsp_callers.specs.Tallies.{tallied_meaning, tallied_laws, tallied_view, tallied_desk};

    ghost meaning = { tallied_meaning };

    fn client(&mut self, call: ClientCall) -> Result<ClientReply, DeskFault>
        requires { call_has_float (show_client_call call) ≡ false }
        ensures turned { Answered by_client (asked.Client call) (tallied_view self.old) result
            (tallied_view self.new) }
        ensures same { tallied_desk self.new ≡ tallied_desk self.old }
        ensures calls { Calls tallied_meaning show_client_reply self.old
            (show_client_call call) result self.new }
        ensures spent { (n : ℕ) → result ≡ Err (DeskFault.Spent n) → (n ≡ 2 ^ 64 - 1)
            × (tallied_meaning.spent self.new ≡ true) }
        ensures spent_stays { HasTurn result (tallied_meaning.spent self.new
            ≡ tallied_meaning.spent self.old) }
        ensures float_free { IfOk result (λ reply. reply_has_float (show_client_reply reply)
            ≡ false) }
    {
        self.owner.client(call)
    }

    ghost laws = { tallied_laws };
}

impl<'a, R: Wait + Sync> Desk for Tallied<'a, R> {
    ghost use Rattle.lsp_callers.specs.Tallies.{tallied_meaning, tallied_view, tallied_desk};

    fn server(&mut self, call: ServerCall) -> Result<ServerReply, DeskFault>
        requires { call_has_float (show_server_call call) ≡ false }
        ensures turned { Answered by_server (asked.Server call) (tallied_view self.old) result
            (tallied_view self.new) }
        ensures same { tallied_desk self.new ≡ tallied_desk self.old }
        ensures calls { Calls tallied_meaning show_server_reply self.old
            (show_server_call call) result self.new }
        ensures spent { (n : ℕ) → result ≡ Err (DeskFault.Spent n) → (n ≡ 2 ^ 64 - 1)
            × (tallied_meaning.spent self.new ≡ true) }
        ensures spent_stays { HasTurn result (tallied_meaning.spent self.new
            ≡ tallied_meaning.spent self.old) }
        ensures float_free { IfOk result (λ reply. reply_has_float (show_server_reply reply)
            ≡ false) }
    {
        let is_take = is_take(&call);
        let reply = self.owner.server(call);
        if is_take {
            self.delivered = self.delivered.wrapping_add(given(&reply));
        }
        reply
    }

    ghost is_chief = { λ desk. desk.owner.role_is };
}

fn is_take(call: &ServerCall) -> bool
    ensures { result ≡ is_take_def (show_server_call call.now) }
{
    matches!(call, ServerCall::Take)
}

// How many messages a reply gives.
fn given(reply: &Result<ServerReply, DeskFault>) -> u64
    ensures { result ≡ messages_given reply.now }
{
    match reply {
        Ok(ServerReply::Messages(messages)) => messages.len() as u64,
        _ => 0,
    }
}
