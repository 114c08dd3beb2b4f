// Replies that servers have in common. They let calls and params go, so that an author's crate
// needn't.
ghost use Rattle.std.specs.Prelude.{◌≡◌, IfOk};
ghost use Rattle.lsp_rpc.specs.Message.{error_with_code};
ghost use Rattle.lsp_rpc.specs.declared.code.ErrorCode.TheVariants.{MethodNotFound};
ghost use Rattle.lsp_service.specs.Data.{refusal};
ghost use Rattle.lsp_service.specs.Replies.{show_reply};

use crate::call::Call;
use crate::reply::Reply;
use lsp_rpc::{Error, NoMemory};
use std::alloc::Global;

/// The reply to a method that a server doesn't have.
pub fn not_found(alloc: Global) -> Result<Reply, NoMemory>
    ensures { IfOk result (λ r. show_reply r ≡ refusal (error_with_code MethodNotFound)) }
{
    Ok(Reply::Error(Error::method_not_found(alloc)?))
}

/// The same reply, to this call.
pub fn not_found_for(alloc: Global, call: Call) -> Result<Reply, NoMemory>
    ensures { IfOk result (λ r. show_reply r ≡ refusal (error_with_code MethodNotFound)) }
{
    drop(call);
    not_found(alloc)
}

/// Lets a call go, before what is done of it.
pub fn let_go(call: Call) {
    drop(call);
}
