//! What one thread does: it calls through its seat, and hands the seat back.
ghost use Rattle.std.specs.Prelude.{IfOk};
ghost use Rattle.lsp_turns.specs.Seats.{IsOwnerOf, IsClientOf, IsLike};

use crate::calls::{Reply, Told, client_call, server_call};
use lsp_desk::{Caller, Desk};
use lsp_shared::{DeskOwner, NoMemory, Rested, SharedClient, SharedDesk};
use std::alloc::Global;
use std::sync::Wait;

/// A seat at rest, and what it was told of its calls, in their order.
#[derive(Drop)]
pub struct Worked {
    pub seat: Rested,
    pub told: Vec<Told>,
}

/// How many calls a seat makes, and whether it notes what it is told.
#[derive(Clone, Copy)]
pub struct Work {
    pub alloc: Global,
    pub calls: u64,
    pub noted: bool,
}

/// Calls through a client's seat.
pub fn client_calls<R: Wait + Sync>(
    rt: &R,
    desk: &SharedDesk,
    seat: Rested,
    work: Work,
) -> Result<Worked, NoMemory>
    requires { IsClientOf desk.now seat }
    ensures { IfOk result (λ worked. IsLike seat worked.seat) }
{
    let mut client = SharedClient::sit(rt, desk, seat);
    let mut told = Vec::new(work.alloc);
    for number in 0..work.calls {
        let reply = client.client(client_call(work.alloc, number)?);
        if work.noted {
            told.push(Told {
                place: client.seen().wrapping_sub(1),
                number,
                reply: Reply::Client(reply),
            })?;
        }
    }
    Ok(Worked {
        seat: client.rest(),
        told,
    })
}

/// Calls through the owner's seat.
pub fn owner_calls<R: Wait + Sync>(
    rt: &R,
    desk: &SharedDesk,
    seat: Rested,
    work: Work,
) -> Result<Worked, NoMemory>
    requires { IsOwnerOf desk.now seat }
    ensures { IfOk result (λ worked. IsLike seat worked.seat) }
{
    let mut owner = DeskOwner::sit(rt, desk, seat);
    let mut told = Vec::new(work.alloc);
    for number in 0..work.calls {
        let reply = owner.server(server_call(number));
        if work.noted {
            told.push(Told {
                place: owner.seen().wrapping_sub(1),
                number,
                reply: Reply::Server(reply),
            })?;
        }
    }
    Ok(Worked {
        seat: owner.rest(),
        told,
    })
}
