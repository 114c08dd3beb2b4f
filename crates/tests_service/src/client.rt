// A client on a thread of its own, which sends one message beside a session.
ghost use Rattle.std.specs.Prelude.{◌≡◌, false, IfOk};
ghost use Rattle.lsp_desk.specs.Call.{call_has_float};
ghost use Rattle.lsp_desk.specs.Shown.{show_client_call};
ghost use Rattle.lsp_shared.specs.Desks.{desk_id, rested_desk, rested_view};

use lsp_callers::Plan;
use lsp_desk::{Caller, ClientCall, ClientReply};
use lsp_rpc::NoMemory;
use lsp_shared::{Rested, SharedClient, SharedDesk};
use serde_json::Value;
use std::alloc::{AllocError, Global};
use std::sync::atomic::{AtomicU64, Ordering};
use std::sync::{Arc, Wait};
use std::thread::yield_now;

/// A message of the editor.
pub(crate) const NOTE: &str =
    "Content-Length: 52\r\n\r\n{\"jsonrpc\":\"2.0\",\"method\":\"initialized\",\"params\":{}}";

/// The method of the client's message.
pub(crate) const OWN: &str = "window/own";

/// What has come about: the session served what was sent first, the client was answered, what is
/// awaited is written, and a read that waits saw that. No stage comes after a later one.
pub(crate) const READY: u64 = 1;

pub(crate) const ANSWERED: u64 = 2;

pub(crate) const WRITTEN: u64 = 3;

pub(crate) const SEEN: u64 = 4;

// How often one thread looks for what another does.
const LOOKS: u64 = 100_000_000;

/// A stage that threads share, at 0.
pub(crate) fn new_stage(alloc: Global) -> Result<Arc<AtomicU64, Global>, AllocError> {
    Ok(Arc::new(alloc, AtomicU64::new(0))?)
}

/// Whether it comes to this stage within many looks.
pub(crate) fn comes_to(stage: &AtomicU64, wanted: u64) -> bool {
    for _ in 0..LOOKS {
        if stage.load(Ordering::SeqCst) >= wanted {
            return true;
        }
        yield_now();
    }
    false
}

fn own_message(alloc: Global) -> Result<ClientCall, NoMemory>
    ensures { IfOk result (λ call. call_has_float (show_client_call call) ≡ false) }
{
    Ok(ClientCall::Tell {
        method: String::from_str(alloc, OWN)?,
        params: Value::Null,
        gated: false,
    })
}

/// Sends one message once the session is ready, and says whether it was, and took the message.
pub(crate) fn send<R: Wait + Sync>(
    rt: &R,
    desk: &SharedDesk,
    client: Rested,
    plan: Plan,
    stage: &AtomicU64,
) -> bool
    requires { (rested_desk client ≡ desk_id desk.now) × ((rested_view client).owner ≡ false) }
{
    let mut client = SharedClient::sit(rt, desk, client);
    let is_ready = comes_to(stage, READY);
    let is_sent = match own_message(plan.alloc) {
        Ok(call) => matches!(client.client(call), Ok(ClientReply::Sent)),
        Err(NoMemory) => false,
    };
    stage.fetch_max(ANSWERED, Ordering::SeqCst);
    is_ready && is_sent
}
