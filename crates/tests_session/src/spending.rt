//! A desk of the tests that others use too, and that has few turns.
ghost use Rattle.std.specs.Prelude.{◌≡◌, ◌^◌, ◌-◌, ℕ, true, false, IfOk, IfErr, OnOk, OnErr};
ghost use Rattle.lsp_desk.specs.Call.{call_has_float};
ghost use Rattle.lsp_desk.specs.Reply.{reply_has_float};
ghost use Rattle.lsp_desk.specs.Shown.{show_client_call, show_client_reply, show_server_call, show_server_reply};

use lsp_desk::{
    Caller, ClientCall, ClientReply, Desk, DeskFault, PlainDesk, ServerCall, ServerReply,
};
use std::alloc::Global;

/// A desk with so many turns, after which each call finds it spent.
#[derive(Drop)]
pub(crate) struct Spending {
    desk: PlainDesk,
    left: u64,
    is_spent: bool,
}

impl Spending {
    ghost use Rattle.tests_session.specs.Spending.{OpensAt};

    /// A desk on which nothing was done.
    pub(crate) fn new(alloc: Global, turns: u64) -> Spending
        ensures { OpensAt result (λ s. s.desk) (λ s. s.is_spent) }
    {
        Spending {
            desk: PlainDesk::new(alloc),
            left: turns,
            is_spent: false,
        }
    }

    /// How many turns are left.
    pub(crate) fn left(&self) -> u64
        ensures { result ≡ self.now.left }
    {
        self.left
    }

    // Takes a turn.
    fn turn(&mut self) -> Result<(), DeskFault>
        ensures desk { self.new.desk ≡ self.old.desk }
        ensures ok { OnOk result (self.new.is_spent ≡ self.old.is_spent) }
        ensures err { OnErr result (self.new.is_spent ≡ true) }
        ensures spent { IfErr result (λ fault. fault ≡ DeskFault.Spent (2 ^ 64 - 1)) }
    {
        if self.left == 0 {
            self.is_spent = true;
            return Err(DeskFault::Spent(u64::MAX));
        }
        self.left -= 1;
        Ok(())
    }
}

impl Caller for Spending {
    ghost use Rattle.lsp_desk.specs.Meaning.{Calls};
    ghost use Rattle.tests_session.specs.Spending.{spending_meaning, spending_laws};

    ghost meaning = { spending_meaning (λ s. s.desk) (λ s. s.is_spent) };

    fn client(&mut self, call: ClientCall) -> Result<ClientReply, DeskFault> {
        self.turn()?;
        self.desk.client(call)
    }

    ghost laws = { spending_laws (λ s. s.desk) (λ s. s.is_spent) };
}

impl Desk for Spending {
    ghost use Rattle.std.specs.Prelude.{refl};

    fn server(&mut self, call: ServerCall) -> Result<ServerReply, DeskFault> {
        self.turn()?;
        self.desk.server(call)
    }

    ghost is_chief = { λ desk. refl };
}
