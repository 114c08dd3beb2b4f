// A call as a session hands it in.
use crate::call::Call;
use lsp_session::Kind;

/// A call, with the kind by which its method was registered.
#[derive(Drop)]
pub struct Incoming {
    pub call: Call,
    pub kind: Kind,
}
