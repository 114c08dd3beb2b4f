//! Examples, and each public call once with ample memory.
ghost use Rattle.std.specs.Prelude.{◌≡◌, false, IfOk};
ghost use Rattle.lsp_desk.specs.Call.{call_has_float};
ghost use Rattle.lsp_desk.specs.Shown.{show_client_call};

use crate::desk::{Asked, Served, reply_asked, reply_served};
use lsp_desk::{Caller, ClientCall, Desk, Life, ServerCall, ServerReply};
use lsp_rows::{RowError, Trial};
use lsp_rpc::NoMemory;
use lsp_shared::{DeskOwner, SharedClient, SharedDesk};
use serde_json::Value;
use std::alloc::Global;

fn log_message(alloc: Global, gated: bool) -> Result<ClientCall, NoMemory>
    ensures { IfOk result (λ call. call_has_float (show_client_call call) ≡ false) }
{
    let method = String::from_str(alloc, "window/logMessage")?;
    Ok(ClientCall::Tell {
        method,
        params: Value::Null,
        gated,
    })
}

// How many messages are to be sent.
fn taken<D: Desk>(desk: &mut D) -> Option<usize> {
    match desk.server(ServerCall::Take) {
        Ok(ServerReply::Messages(requests)) => Some(requests.len()),
        _ => None,
    }
}

#[test]
fn numbers_in_turn(rt: HostRuntime) -> Result<(), RowError> {
    let alloc = rt.alloc();
    let (desk, seat) = SharedDesk::new(alloc)?;
    let mut owner = desk.owner(&rt, seat);
    let mut client = owner.split()?;
    let mut trial = Trial::new(alloc);
    trial.same("the owner's share", owner.share(), 1 << 62);
    trial.same("the client's share", client.share(), 1 << 62);
    trial.shows("first", client.client(ClientCall::NextId), "Ok(Number(0))");
    trial.shows("second", client.client(ClientCall::NextId), "Ok(Number(1))");
    owner.join(client);
    trial.shows("third", owner.client(ClientCall::NextId), "Ok(Number(2))");
    trial.same("calls seen", owner.seen(), 3);
    trial.same("the whole share", owner.share(), 1 << 63);
    drop(owner);
    trial.end()
}

#[test]
fn gated_message(rt: HostRuntime) -> Result<(), RowError> {
    let alloc = rt.alloc();
    let (desk, seat) = SharedDesk::new(alloc)?;
    let mut owner = desk.owner(&rt, seat);
    let mut client = owner.split()?;
    let early = client.client(log_message(alloc, true)?);
    let mut trial = Trial::new(alloc);
    trial.shows("early", early, "Ok(Suppressed)");
    trial.same("calls seen", client.seen(), 1);
    drop(client);
    drop(owner);
    trial.end()
}

#[test]
fn message_taken(rt: HostRuntime) -> Result<(), RowError> {
    let alloc = rt.alloc();
    let (desk, seat) = SharedDesk::new(alloc)?;
    let mut owner = desk.owner(&rt, seat);
    let mut client = owner.split()?;
    let told = client.client(log_message(alloc, false)?);
    let mut trial = Trial::new(alloc);
    trial.shows("told", told, "Ok(Sent)");
    trial.same("calls the client has seen", client.seen(), 1);
    trial.same("taken", taken(&mut owner), Some(1));
    trial.same("taken again", taken(&mut owner), Some(0));
    trial.same("calls the owner has seen", owner.seen(), 3);
    drop(client);
    drop(owner);
    trial.end()
}

#[test]
fn seats_at_rest(rt: HostRuntime) -> Result<(), RowError> {
    let alloc = rt.alloc();
    let (desk, seat) = SharedDesk::new(alloc)?;
    let mut owner = desk.owner(&rt, seat);
    let client = owner.split()?;
    let mut client = SharedClient::sit(&rt, &desk, client.rest());
    let mut other = client.split()?;
    let mut trial = Trial::new(alloc);
    trial.shows("asked", other.client(ClientCall::NextId), "Ok(Number(0))");
    let owner = DeskOwner::sit(&rt, &desk, owner.rest());
    trial.same("calls the owner has seen", owner.seen(), 0);
    trial.same("calls the other has seen", other.seen(), 1);
    trial.same("the other's share", other.share(), 1 << 61);
    client.join(other);
    trial.same("calls seen", client.seen(), 1);
    trial.same("the share", client.share(), 1 << 62);
    drop(client);
    drop(owner);
    trial.end()
}

// A call, and through which seat it is made.
#[derive(Clone, Copy)]
enum Through {
    Client(Asked),
    Owner(Asked),
    Session(Served),
}

fn reply<O: Desk, C: Caller>(
    alloc: Global,
    owner: &mut O,
    client: &mut C,
    call: Through,
) -> Result<String, NoMemory> {
    match call {
        Through::Client(call) => reply_asked(alloc, client, call),
        Through::Owner(call) => reply_asked(alloc, owner, call),
        Through::Session(call) => reply_served(alloc, owner, call),
    }
}

const ANSWERED: &str = "{\"jsonrpc\":\"2.0\",\"result\":\"x\",\"id\":1}";

const CALLS: &[(Through, &str)] = &[
    (
        Through::Session(Served::Rise(Life::Initializing)),
        "Ok(Done)",
    ),
    (Through::Session(Served::Look), "Ok(Life(Initializing))"),
    (Through::Session(Served::Fall), "Ok(Done)"),
    (Through::Session(Served::Look), "Ok(Life(Uninitialized))"),
    (Through::Client(Asked::Ask), "Ok(Ticket(0, Number(0)))"),
    (Through::Owner(Asked::Ask), "Ok(Ticket(1, Number(1)))"),
    (Through::Client(Asked::Tell), "Ok(Sent)"),
    (Through::Owner(Asked::Tell), "Ok(Sent)"),
    (
        Through::Client(Asked::Raw(Some(1))),
        "Ok(Ticket(2, Number(1)))",
    ),
    (
        Through::Owner(Asked::Raw(Some(1))),
        "Ok(Ticket(3, Number(1)))",
    ),
    (Through::Client(Asked::NextId), "Ok(Number(2))"),
    (Through::Owner(Asked::NextId), "Ok(Number(3))"),
    (Through::Session(Served::Answer("x")), "Ok(Given)"),
    (Through::Client(Asked::Poll(0)), "Ok(Awaited)"),
    (Through::Owner(Asked::Poll(1)), ANSWERED),
    (Through::Owner(Asked::Poll(1)), "Ok(Gone)"),
    (Through::Session(Served::Answer("x")), "Ok(Given)"),
    (Through::Client(Asked::Poll(2)), ANSWERED),
    (Through::Session(Served::Answer("x")), "Ok(Given)"),
    (Through::Session(Served::Answer("x")), "Ok(Ignored)"),
    (
        Through::Session(Served::Next),
        "{\"jsonrpc\":\"2.0\",\"method\":\"m\",\"params\":null,\"id\":0}",
    ),
    (Through::Session(Served::Take), "5"),
    (Through::Client(Asked::Tell), "Ok(Sent)"),
    (Through::Session(Served::Close), "1"),
    (Through::Session(Served::Look), "Ok(Life(Exited))"),
    (Through::Client(Asked::Raw(Some(1))), "Ok(Exited)"),
];

#[test]
fn each_call_through_a_seat(rt: HostRuntime) -> Result<(), RowError> {
    let alloc = rt.alloc();
    let (desk, seat) = SharedDesk::new(alloc)?;
    let mut owner = desk.owner(&rt, seat);
    let mut client = owner.split()?;
    let mut trial = Trial::new(alloc);
    for (at, (call, expected)) in CALLS.iter().enumerate() {
        let found = reply(alloc, &mut owner, &mut client, *call);
        trial.text(format_args!("row {at}"), found, *expected);
    }
    drop(client);
    drop(owner);
    trial.end()
}
