// Bytes into a sink.
ghost use Rattle.std.specs.Prelude.{◌≡◌, ℕ, List, [], OnOk, OnErr, IsOk};
ghost use Rattle.std.specs.Io.KnownBytes.{Appends};
ghost use Rattle.lsp_server.specs.Calls.{OnlyTakes};
ghost use Rattle.lsp_server.specs.Written.{IsPrefixOf};

use crate::{Refused, Sink};

/// Writes all the bytes, by as many calls of the sink as it takes.
pub fn write_all<O: Sink>(sink: &mut O, bytes: &[u8]) -> Result<(), Refused>
    ensures ok { OnOk result (Appends (O.taken sink.old) (O.taken sink.new) bytes.now) }
    ensures part { OnErr result ((written : List ℕ) × IsPrefixOf written bytes.now
        × Appends (O.taken sink.old) (O.taken sink.new) written) }
    ensures sink { OnlyTakes O.flushed O.faults O.beside sink.old sink.new result }
    ensures none { bytes.now ≡ [] → IsOk result }
{
    let mut at = 0;
    while at < bytes.len() {
        at += sink.write(&bytes[at..])?;
    }
    Ok(())
}
