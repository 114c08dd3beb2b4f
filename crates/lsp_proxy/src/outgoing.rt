//! What is sent for a message of the server, where a notification to several editors stands once.
ghost use Rattle.std.specs.Prelude.{◌≡◌, ◌<◌, ◌^◌, [], length, map, IfOk, IsOk};
ghost use Rattle.lsp_rpc.specs.Message.{request};
ghost use Rattle.lsp_rpc.specs.Shown.{show_request};
ghost use Rattle.lsp_proxy.specs.Proxy.{here_from};
ghost use Rattle.lsp_proxy.specs.Sent.{all_sent};

use crate::parts::Sent;
use crate::side::{Presence, Side};
use lsp_rpc::{Message, NoMemory, Request};
use std::alloc::Global;

/// What is sent for a message of the server.
#[derive(Drop, Debug)]
pub enum Outgoing {
    /// Messages, each with the side that it goes to, in order.
    Each(Sent),
    /// One notification, to each of these editors in order.
    Broadcast(Vec<u32>, Request),
}

/// The editors that are still here.
pub(crate) fn here(alloc: Global, editors: &[Presence]) -> Result<Vec<u32>, NoMemory>
    requires { length editors.now < 2 ^ 32 }
    ensures here { IfOk result (λ here. here.items ≡ here_from 0 editors.now) }
    ensures ready { here_from 0 editors.now ≡ [] → IsOk result }
{
    let mut here = Vec::new(alloc);
    let mut k = 0;
    for presence in editors {
        if !presence.is_gone() {
            here.push(k)?;
        }
        k += 1;
    }
    Ok(here)
}

/// The notification for each of the editors.
pub(crate) fn to_each(alloc: Global, editors: &[u32], note: Request) -> Result<Sent, NoMemory>
    ensures sent { IfOk result (λ sent. all_sent sent.items
        ≡ map (λ k. (Side.Editor k, request (show_request note))) editors.now) }
    ensures ready { editors.now ≡ [] → IsOk result }
{
    let mut sent = Vec::new(alloc);
    // The last of them gets the notification itself, and the others a copy.
    let mut last = None;
    for k in editors {
        if let Some(before) = last {
            sent.push((Side::Editor(before), Message::Request(note.clone(alloc)?)))?;
        }
        last = Some(*k);
    }
    if let Some(before) = last {
        sent.push((Side::Editor(before), Message::Request(note)))?;
    }
    Ok(sent)
}
