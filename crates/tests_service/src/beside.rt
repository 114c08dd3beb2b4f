// A client's message goes out while a session serves, and while a read of it waits.
ghost use Rattle.std.specs.Prelude.{◌≡◌, false};
ghost use Rattle.lsp_desk.specs.Meaning.{IsOpening};
ghost use Rattle.lsp_shared.specs.Desks.{desk_id, rested_desk, rested_view};
ghost use Rattle.lsp_shared.specs.Seats.{seat_meaning};

use crate::client::{ANSWERED, SEEN, new_stage, send};
use crate::idle::pump_silent;
use crate::turns::serve_patient;
use lsp_callers::Plan;
use lsp_rows::{RowError, Trial};
use lsp_rpc::NoMemory;
use lsp_shared::{DeskOwner, Rested, SharedDesk};
use std::alloc::Global;
use std::sync::atomic::{AtomicU64, Ordering};
use std::sync::{Arc, Wait};
use std::thread::{Threads, join};

// How the session is served: over a source that waits for the client before each read, or while
// another thread reads from an editor that waits for the client's message.
#[derive(Clone, Copy)]
enum Way {
    Patient,
    Silent,
}

// What is tried, and what has come about at the end.
const WAYS: &[(Way, &str, u64)] = &[
    (Way::Patient, "written while it serves", ANSWERED),
    (Way::Silent, "written before the read returned", SEEN),
];

// Serves in that way, and says whether it ended as it should.
fn serve<R: Threads + Wait + Sync>(
    rt: &R,
    alloc: Global,
    owner: DeskOwner<'_, R>,
    way: Way,
    stage: &Arc<AtomicU64, Global>,
) -> bool
    requires { IsOpening seat_meaning owner }
{
    match way {
        Way::Patient => serve_patient(alloc, owner, stage),
        Way::Silent => pump_silent(rt, alloc, owner, stage),
    }
}

fn beside<R: Threads + Wait + Sync>(
    rt: &R,
    desk: &SharedDesk,
    owner: DeskOwner<'_, R>,
    client: Rested,
    plan: Plan,
    way: Way,
    stage: &Arc<AtomicU64, Global>,
) -> bool
    requires opening { IsOpening seat_meaning owner }
    requires seat { (rested_desk client ≡ desk_id desk.now)
        × ((rested_view client).owner ≡ false) }
{
    let (told, served) = join(
        rt,
        || -> bool
            requires { (rested_desk client ≡ desk_id desk.now)
                × ((rested_view client).owner ≡ false) }
        { send(rt, desk, client, plan, stage) },
        || -> bool
            requires { IsOpening seat_meaning owner }
        { serve(rt, plan.alloc, owner, way, stage) },
    );
    told && served
}

// Serves, and sends a message from another thread meanwhile.
fn serve_beside<R: Threads + Wait + Sync>(
    rt: &R,
    alloc: Global,
    way: Way,
    stage: &Arc<AtomicU64, Global>,
) -> Result<bool, NoMemory> {
    let (desk, seat) = SharedDesk::new(alloc)?;
    let mut owner = desk.owner(rt, seat);
    let client = owner.split()?.rest();
    let plan = Plan { alloc, messages: 1 };
    Ok(beside(rt, &desk, owner, client, plan, way, stage))
}

#[test]
fn messages_beside(rt: HostRuntime) -> Result<(), RowError> {
    let alloc = rt.alloc();
    let mut trial = Trial::new(alloc);
    for (way, name, end) in WAYS {
        let stage = new_stage(alloc)?;
        trial.is_true(*name, serve_beside(&rt, alloc, *way, &stage)?);
        trial.same(*name, stage.load(Ordering::SeqCst), *end);
    }
    trial.end()
}
