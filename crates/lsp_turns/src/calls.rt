//! The calls that seats make, by their number, and what they are told.
ghost use Rattle.std.specs.Prelude.{◌≡◌, false, IfOk};
ghost use Rattle.lsp_desk.specs.Call.{call_has_float};
ghost use Rattle.lsp_desk.specs.Shown.{show_client_call, show_server_call};

use lsp_desk::{
    Caller, ClientCall, ClientReply, Desk, DeskFault, PlainDesk, ServerCall, ServerReply,
};
use lsp_shared::NoMemory;
use serde_json::Value;
use std::alloc::Global;

/// The reply to a call of a client, or of the owner.
#[derive(Drop, Debug)]
pub enum Reply {
    Client(Result<ClientReply, DeskFault>),
    Server(Result<ServerReply, DeskFault>),
}

/// What a seat was told of one of its calls.
#[derive(Drop)]
pub struct Told {
    /// Where the call stands in the desk's history.
    pub place: u64,
    /// Which of the seat's calls it is.
    pub number: u64,
    pub reply: Reply,
}

/// A client's call of that number: of four calls two ask, one tells and one draws an id.
pub fn client_call(alloc: Global, number: u64) -> Result<ClientCall, NoMemory>
    ensures { IfOk result (λ call. call_has_float (show_client_call call) ≡ false) }
{
    Ok(match number % 4 {
        0 => ClientCall::NextId,
        1 => ClientCall::Tell {
            method: String::from_str(alloc, "window/logMessage")?,
            params: Value::Null,
            gated: false,
        },
        _ => ClientCall::Ask {
            method: String::from_str(alloc, "workspace/workspaceFolders")?,
            params: Value::Null,
            gated: false,
        },
    })
}

/// The owner's call of that number: of four calls two take all messages, one takes the first, and
/// one looks.
pub fn server_call(number: u64) -> ServerCall
    ensures { call_has_float (show_server_call result) ≡ false }
{
    match number % 4 {
        0 => ServerCall::Look,
        1 => ServerCall::Next,
        _ => ServerCall::Take,
    }
}

impl Told {
    /// The ticket that was given.
    pub fn ticket(&self) -> Option<u64> {
        match &self.reply {
            Reply::Client(Ok(ClientReply::Ticket(ticket, _))) => Some(*ticket),
            _ => None,
        }
    }

    /// Whether the call was out of memory, and so changed nothing.
    pub fn lacked_memory(&self) -> bool {
        matches!(
            &self.reply,
            Reply::Client(Err(DeskFault::NoMemory)) | Reply::Server(Err(DeskFault::NoMemory))
        )
    }

    /// What another desk replies to the same call.
    pub fn again(&self, alloc: Global, desk: &mut PlainDesk) -> Result<Reply, NoMemory> {
        Ok(match &self.reply {
            Reply::Client(_) => Reply::Client(desk.client(client_call(alloc, self.number)?)),
            Reply::Server(_) => Reply::Server(desk.server(server_call(self.number))),
        })
    }
}
