//! Bytes into a sink.
ghost use Rattle.std.specs.Prelude.{◌≡◌, [], IsOk};
ghost use Rattle.lsp_relay.specs.Sends.{SendsBytes};

use lsp_server::{ServeError, Sink, write_all};

/// Writes all the bytes.
pub(crate) fn send<O: Sink>(sink: &mut O, bytes: &[u8]) -> Result<(), ServeError>
    ensures sent { SendsBytes O.taken O.flushed O.faults O.beside sink.old sink.new bytes.now
        result }
    ensures none { bytes.now ≡ [] → IsOk result }
{
    write_all(sink, bytes)?;
    Ok(())
}
