// How the life of a session follows what comes of its requests, and where its calls begin.
ghost use Rattle.lsp_laws.specs.Lives.{LivesFollow};
ghost use Rattle.lsp_laws.specs.Starts.{CallsBegin};

use lsp_desk::Caller;
use lsp_session::Handlers;

/// A life follows what comes of `initialize` and `shutdown`: Initializing once an `initialize`
/// begins, Initialized where it ends well, Uninitialized where it ends with an error or is
/// cancelled, ShutDown after a `shutdown`. Nothing else changes it but an `exit`.
pub fn lives_follow<D: Caller, H: Handlers<D>>()
    ensures { LivesFollow H.semantics }
{}

/// A call begins where the life, the kind, the id, the params and the slots let it: an `initialize`
/// where none has begun, any other once it has ended well.
pub fn calls_begin<D: Caller, H: Handlers<D>>()
    ensures { CallsBegin H.semantics }
{}
