// The requests of a server.
ghost use Rattle.std.specs.Prelude.{codes};

use super::Request;
use lsp_offer_work::{RegistrationParams, UnregistrationParams};
use lsp_work::{
    MessageActionItem, ShowDocumentParams, ShowDocumentResult, ShowMessageRequestParams,
    WorkDoneProgressCreateParams,
};

/// `client/registerCapability` (LSP 3.17, "Register Capability").
#[derive(Clone, Copy)]
pub enum RegisterCapability {}

impl Request for RegisterCapability {
    type Params = RegistrationParams;

    type Result = ();

    ghost name = { codes "client/registerCapability" };

    fn method() -> &'static str {
        "client/registerCapability"
    }
}

/// `client/unregisterCapability` (LSP 3.17, "Unregister Capability").
#[derive(Clone, Copy)]
pub enum UnregisterCapability {}

impl Request for UnregisterCapability {
    type Params = UnregistrationParams;

    type Result = ();

    ghost name = { codes "client/unregisterCapability" };

    fn method() -> &'static str {
        "client/unregisterCapability"
    }
}

/// `window/showMessageRequest` (LSP 3.17, "ShowMessage Request").
#[derive(Clone, Copy)]
pub enum ShowMessageRequest {}

impl Request for ShowMessageRequest {
    type Params = ShowMessageRequestParams;

    type Result = Option<MessageActionItem>;

    ghost name = { codes "window/showMessageRequest" };

    fn method() -> &'static str {
        "window/showMessageRequest"
    }
}

/// `window/showDocument` (LSP 3.17, "Show Document Request").
#[derive(Clone, Copy)]
pub enum ShowDocument {}

impl Request for ShowDocument {
    type Params = ShowDocumentParams;

    type Result = ShowDocumentResult;

    ghost name = { codes "window/showDocument" };

    fn method() -> &'static str {
        "window/showDocument"
    }
}

/// `window/workDoneProgress/create` (LSP 3.17, "Creating Work Done Progress").
#[derive(Clone, Copy)]
pub enum WorkDoneProgressCreate {}

impl Request for WorkDoneProgressCreate {
    type Params = WorkDoneProgressCreateParams;

    type Result = ();

    ghost name = { codes "window/workDoneProgress/create" };

    fn method() -> &'static str {
        "window/workDoneProgress/create"
    }
}
