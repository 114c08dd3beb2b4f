//! Four seats on four threads.
ghost use Rattle.std.specs.Prelude.{◌≡◌, IfOk};
ghost use Rattle.lsp_shared.specs.Desks.{desk_id, first_desk};
ghost use Rattle.lsp_turns.specs.Seats.{IsOwnerOf, IsClientOf, IsLike};

use crate::calls::{Reply, Told};
use crate::seats::{Work, Worked, client_calls, owner_calls};
use lsp_desk::ServerReply;
use lsp_shared::{DeskOwner, NoMemory, OwnerSeat, Rested, SharedClient, SharedDesk};
use std::alloc::Global;
use std::sync::Wait;
use std::thread::{Threads, join};

/// What came of the calls of all seats.
#[derive(Drop)]
pub struct Made {
    /// What the seats were told.
    pub told: Vec<Told>,
    /// How many entries the desk's history has.
    pub entries: u64,
    /// The owner's share of the desk, after it took in the other seats.
    pub share: u64,
    /// Calls of one seat stand between the calls of another.
    pub overlapped: bool,
}

impl Made {
    /// The same, with a note whose place is another's.
    pub fn misplaced(mut self) -> Made {
        if let Some(told) = self.told.first_mut() {
            told.place = told.place.wrapping_add(1);
        }
        self
    }

    /// The same, with a note of a reply that wasn't given: the owner's first call looks.
    pub fn misheard(mut self) -> Made {
        if let Some(told) = self.told.first_mut() {
            told.reply = Reply::Server(Ok(ServerReply::Ignored));
        }
        self
    }
}

/// Whether calls of others stand between these.
fn is_cut(told: &[Told]) -> bool {
    match (told.first(), told.last()) {
        (Some(first), Some(last)) => {
            let places = last.place.wrapping_sub(first.place);
            places.wrapping_add(1) != told.len() as u64
        }
        _ => false,
    }
}

/// The owner makes so many calls by itself.
pub fn alone<R: Wait + Sync>(rt: &R, alloc: Global, calls: u64) -> Result<Made, NoMemory> {
    let (desk, seat) = SharedDesk::new(alloc)?;
    let owner = desk.owner(rt, seat);
    let work = Work {
        alloc,
        calls,
        noted: false,
    };
    let worked = owner_calls(rt, &desk, owner.rest(), work)?;
    let owner = DeskOwner::sit(rt, &desk, worked.seat);
    Ok(Made {
        told: worked.told,
        entries: owner.seen(),
        share: owner.share(),
        overlapped: false,
    })
}

/// The owner and three clients make so many calls each, at once.
pub fn four<R: Threads + Wait + Sync>(
    rt: &R,
    alloc: Global,
    calls: u64,
    noted: bool,
) -> Result<Made, NoMemory> {
    let (desk, seat) = SharedDesk::new(alloc)?;
    let work = Work {
        alloc,
        calls,
        noted,
    };
    four_at(rt, &desk, seat, work)
}

fn four_at<R: Threads + Wait + Sync>(
    rt: &R,
    desk: &SharedDesk,
    seat: OwnerSeat,
    work: Work,
) -> Result<Made, NoMemory>
    requires { first_desk seat ≡ desk_id desk.now }
{
    let mut owner = desk.owner(rt, seat);
    let first = owner.split()?.rest();
    let second = owner.split()?.rest();
    let third = owner.split()?.rest();
    let owner = owner.rest();
    let (one, two) = join(
        rt,
        || -> Result<(Worked, Worked), NoMemory>
            requires { IsOwnerOf desk.now owner × IsClientOf desk.now first }
            ensures { IfOk result (λ worked. IsLike owner worked.0.seat
                × IsLike first worked.1.seat) }
        { owner_and_client(rt, desk, owner, first, work) },
        || -> Result<(Worked, Worked), NoMemory>
            requires { IsClientOf desk.now second × IsClientOf desk.now third }
            ensures { IfOk result (λ worked. IsLike second worked.0.seat
                × IsLike third worked.1.seat) }
        { two_clients(rt, desk, second, third, work) },
    );
    let (owner, first) = one?;
    let (second, third) = two?;
    let mut all = DeskOwner::sit(rt, desk, owner.seat);
    all.join(SharedClient::sit(rt, desk, first.seat));
    all.join(SharedClient::sit(rt, desk, second.seat));
    all.join(SharedClient::sit(rt, desk, third.seat));
    let seats = [&owner.told, &first.told, &second.told, &third.told];
    let overlapped = seats.iter().any(|told| is_cut(told));
    let mut told = owner.told;
    told.extend(first.told)?;
    told.extend(second.told)?;
    told.extend(third.told)?;
    Ok(Made {
        told,
        entries: all.seen(),
        share: all.share(),
        overlapped,
    })
}

fn owner_and_client<R: Threads + Wait + Sync>(
    rt: &R,
    desk: &SharedDesk,
    owner: Rested,
    client: Rested,
    work: Work,
) -> Result<(Worked, Worked), NoMemory>
    requires { IsOwnerOf desk.now owner × IsClientOf desk.now client }
    ensures { IfOk result (λ worked. IsLike owner worked.0.seat × IsLike client worked.1.seat) }
{
    let (one, two) = join(
        rt,
        || -> Result<Worked, NoMemory>
            requires { IsOwnerOf desk.now owner }
            ensures { IfOk result (λ worked. IsLike owner worked.seat) }
        { owner_calls(rt, desk, owner, work) },
        || -> Result<Worked, NoMemory>
            requires { IsClientOf desk.now client }
            ensures { IfOk result (λ worked. IsLike client worked.seat) }
        { client_calls(rt, desk, client, work) },
    );
    Ok((one?, two?))
}

fn two_clients<R: Threads + Wait + Sync>(
    rt: &R,
    desk: &SharedDesk,
    first: Rested,
    second: Rested,
    work: Work,
) -> Result<(Worked, Worked), NoMemory>
    requires { IsClientOf desk.now first × IsClientOf desk.now second }
    ensures { IfOk result (λ worked. IsLike first worked.0.seat × IsLike second worked.1.seat) }
{
    let (one, two) = join(
        rt,
        || -> Result<Worked, NoMemory>
            requires { IsClientOf desk.now first }
            ensures { IfOk result (λ worked. IsLike first worked.seat) }
        { client_calls(rt, desk, first, work) },
        || -> Result<Worked, NoMemory>
            requires { IsClientOf desk.now second }
            ensures { IfOk result (λ worked. IsLike second worked.seat) }
        { client_calls(rt, desk, second, work) },
    );
    Ok((one?, two?))
}
