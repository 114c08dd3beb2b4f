//! The two kinds of call, of which a turn makes either.
ghost use Rattle.std.specs.Prelude.{◌≡◌, true, false, refl, Some, IsOk, IfOk};
ghost use Rattle.lsp_desk.specs.Call.{call_has_float};
ghost use Rattle.lsp_desk.specs.Reply.{Reply as ReplyData, reply_has_float};
ghost use Rattle.lsp_desk.specs.Shown.{show_client_reply, show_server_reply};
ghost use Rattle.lsp_desk.specs.Plain.{plain_state, StepsTo, takes_no_memory};
ghost use Rattle.lsp_shared.specs.declared.view.Asked.{Asked};
ghost use Rattle.lsp_shared.specs.declared.view.Asked.TheVariants as asks;
ghost use Rattle.lsp_shared.specs.declared.view.Replied.{Replied};
ghost use Rattle.lsp_shared.specs.Rule.{call_of, reply_of};
ghost use Rattle.lsp_shared.specs.Steps.{by_client, by_server};

use lsp_desk::{
    Caller, ClientCall, ClientReply, Desk, DeskFault, PlainDesk, ServerCall, ServerReply,
};

/// A call on a desk, by a server or by the session.
pub trait DeskCall: Drop {
    type Reply;

    // The call, and a reply to it, as the history has them.
    ghost asked: { Self → Asked };

    ghost replied: { Self.Reply → Replied };

    // A reply as plain data.
    ghost shown: { Self.Reply → ReplyData };

    /// Makes the call on the desk whose turn has come.
    fn make(self, desk: &mut PlainDesk) -> Result<Self::Reply, DeskFault>
        requires { call_has_float (call_of (asked self)) ≡ false }
        ensures ready { takes_no_memory (plain_state desk.old) (call_of (asked self)) ≡ true
            → IsOk result }
        ensures steps { StepsTo shown desk.old (call_of (asked self)) result desk.new }
        ensures float_free { IfOk result (λ reply. reply_has_float (shown reply) ≡ false) };

    ghost same: { (reply : Self.Reply) → reply_of (replied reply) ≡ Some (shown reply) };
}

impl DeskCall for ClientCall {
    type Reply = ClientReply;

    ghost asked = { λ call. asks.Client call };

    ghost replied = { by_client };

    ghost shown = { show_client_reply };

    fn make(self, desk: &mut PlainDesk) -> Result<ClientReply, DeskFault> {
        desk.client(self)
    }

    ghost same = { λ reply. refl };
}

impl DeskCall for ServerCall {
    type Reply = ServerReply;

    ghost asked = { λ call. asks.Server call };

    ghost replied = { by_server };

    ghost shown = { show_server_reply };

    fn make(self, desk: &mut PlainDesk) -> Result<ServerReply, DeskFault> {
        desk.server(self)
    }

    ghost same = { λ reply. refl };
}
