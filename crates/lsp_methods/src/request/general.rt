// The requests of a session itself.
ghost use Rattle.std.specs.Prelude.{codes};

use super::Request;
use lsp_initialize::{InitializeParams, InitializeResult};

/// `initialize` (LSP 3.17, "Initialize Request").
#[derive(Clone, Copy)]
pub enum Initialize {}

impl Request for Initialize {
    type Params = InitializeParams;

    type Result = InitializeResult;

    ghost name = { codes "initialize" };

    fn method() -> &'static str {
        "initialize"
    }
}

/// `shutdown` (LSP 3.17, "Shutdown Request").
#[derive(Clone, Copy)]
pub enum Shutdown {}

impl Request for Shutdown {
    type Params = ();

    type Result = ();

    ghost name = { codes "shutdown" };

    fn method() -> &'static str {
        "shutdown"
    }
}
