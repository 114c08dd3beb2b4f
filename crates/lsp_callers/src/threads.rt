//! The callers' seats and threads.
ghost use Rattle.std.specs.Prelude.{◌≡◌, ◌≤◌, ◌<◌, ◌+◌, ◌++◌, ◌^◌, ◌⊎◌, ℕ, true, length, Err, IsOk, OnOk, OnErr, IfOk};
ghost use Rattle.std.specs.List.{AllZip};
ghost use Rattle.std.specs.Option.{option_or};
ghost use Rattle.std.specs.Result.{result_err};
ghost use Rattle.lsp_shared.specs.Desks.{desk_id};
ghost use Rattle.lsp_shared.specs.Seats.{seat_view, seat_desk, seat_meaning};
ghost use Rattle.lsp_shared.specs.Steps.{AddsClients};
ghost use Rattle.lsp_callers.specs.Made.{entries_made};
ghost use Rattle.lsp_callers.specs.Callers.{IsIdleOn, AreIdleFrom, AreHeardOn, ComesOf, idle_shares, heard_shares, all_said_of, messages_of, first_fault, KeepsHistory};
ghost use Rattle.lsp_callers.specs.Tallies.{tallied_view, tallied_desk, tallied_spent};

use crate::caller::{Heard, Idle, Plan, call};
use crate::gate::Gate;
use crate::tallied::Tallied;
use lsp_desk::DeskFault;
use lsp_shared::{DeskOwner, NoMemory, SharedClient, SharedDesk};
use std::alloc::Global;
use std::collections::VecDeque;
use std::sync::Wait;
use std::thread;
use std::thread::Threads;

/// Makes so many callers, each with a seat that is split off the owner's.
pub fn idle_callers<R: Wait + Sync>(
    alloc: Global,
    owner: &mut DeskOwner<'_, R>,
    count: u64,
) -> Result<Vec<Idle>, NoMemory>
    requires count { count ≤ 4 }
    requires whole { (seat_view owner.old).share ≡ 2 ^ 63 }
    ensures idle { IfOk result (λ callers. AreIdleFrom (seat_desk owner.old) 0 callers.items
        × (length callers.items ≡ count)) }
    ensures shares { IfOk result (λ callers. (seat_view owner.new).share
        + idle_shares callers.items ≡ 2 ^ 63) }
    ensures err { OnErr result ((seat_view owner.new).share ≡ 2 ^ 63) }
    ensures kept { KeepsHistory (seat_view owner.old) (seat_view owner.new)
        × (seat_desk owner.new ≡ seat_desk owner.old)
        × (seat_meaning.spent owner.new ≡ seat_meaning.spent owner.old) }
{
    let mut callers = Vec::with_capacity(alloc, count as usize)?;
    let mut number = 0;
    while number < count {
        number += 1;
        let seat = owner.split()?.rest();
        callers.push_reserved(Idle { number, seat });
    }
    Ok(callers)
}

/// All callers make their calls, each on a thread of its own. Where no thread can be started, the
/// calls are made on the thread that has them to make.
pub fn call_all<R: Threads + Wait + Sync, G: Gate + Sync>(
    rt: &R,
    desk: &SharedDesk,
    gate: &G,
    plan: Plan,
    callers: Vec<Idle>,
) -> Result<Vec<Heard>, NoMemory>
    requires { AreIdleFrom (desk_id desk.now) 0 callers.items }
    ensures { IfOk result (λ heard. AllZip (ComesOf plan.messages) callers.items heard.items) }
{
    let calls = |caller: Idle| -> Heard
        requires { IsIdleOn (desk_id desk.now) caller }
        ensures { ComesOf plan.messages caller result }
    { call(rt, desk, gate, plan, caller) };
    Ok(thread::map_vec(rt, callers, &calls)?)
}

/// Takes in the seats of all callers, also of those that were told a fault, and answers how many
/// messages were sent, or the first fault.
pub fn gather<R: Wait + Sync>(
    rt: &R,
    desk: &SharedDesk,
    tallied: &mut Tallied<'_, R>,
    heard: Vec<Heard>,
) -> Result<u64, DeskFault>
    requires here { desk_id desk.now ≡ tallied_desk tallied.old }
    requires heard { AreHeardOn (desk_id desk.now) heard.items }
    requires fits { messages_of heard.items < 2 ^ 64 }
    ensures said { OnOk result (entries_made (tallied_view tallied.new)
        ≡ entries_made (tallied_view tallied.old) ++ all_said_of heard.items) }
    ensures sent { IfOk result (λ sent. sent ≡ messages_of heard.items) }
    ensures fault { result_err result ≡ first_fault heard.items }
    ensures spent { (n : ℕ) → result ≡ Err (DeskFault.Spent n) → tallied_spent tallied.new ≡ true }
    ensures stays { tallied_spent tallied.old ≡ true → tallied_spent tallied.new ≡ true }
    ensures shares { (tallied_view tallied.new).share
        ≡ (tallied_view tallied.old).share + heard_shares heard.items }
    ensures clients { AddsClients (tallied_view tallied.old).seen (tallied_view tallied.new).seen }
    ensures same { tallied_desk tallied.new ≡ tallied_desk tallied.old }
{
    let mut rest = VecDeque::from_vec(heard);
    let mut all = Ok(0);
    while let Some(heard) = rest.pop_front() {
        tallied.join(SharedClient::sit(rt, desk, heard.seat));
        all = added(all, heard.sent);
    }
    all
}

// Both numbers together, or the first fault.
fn added(one: Result<u64, DeskFault>, other: Result<u64, DeskFault>) -> Result<u64, DeskFault>
    requires { IfOk one (λ a. IfOk other (λ b. a + b < 2 ^ 64)) }
    ensures ok { IfOk result (λ n. IfOk one (λ a. IfOk other (λ b. n ≡ a + b))) }
    ensures both { OnOk result (IsOk one × IsOk other) }
    ensures fault { result_err result ≡ option_or (result_err one) (result_err other) }
    ensures err { (n : ℕ) → result ≡ Err (DeskFault.Spent n)
        → (one ≡ Err (DeskFault.Spent n)) ⊎ (other ≡ Err (DeskFault.Spent n)) }
{
    match (one, other) {
        (Ok(a), Ok(b)) => Ok(a + b),
        (Err(fault), _) => Err(fault),
        (Ok(_), Err(fault)) => Err(fault),
    }
}
