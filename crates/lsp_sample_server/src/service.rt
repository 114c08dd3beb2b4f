// The server behind its methods.
ghost use Rattle.std.specs.Prelude.{◌≡◌, [], IfOk, IfErr};
ghost use Rattle.lsp_methods.specs.ServiceTable.{customs_of};
ghost use Rattle.lsp_sample_server.specs.Sessions.{sample};

use crate::sample::Sample;
use lsp_desk::{ClientSocket, Desk};
use lsp_service::{LspService, Unmade};
use std::alloc::Global;

/// A service of the sample, without custom methods, and the socket over the desk. Out of memory the
/// server and the desk are handed back.
pub fn sample_service<D: Desk + Drop>(
    alloc: Global,
    desk: D,
) -> Result<(LspService<Sample>, ClientSocket<D>), Unmade<Sample, D>>
    ensures server { IfOk result (λ made. made.0.server ≡ sample) }
    ensures customs { IfOk result (λ made. customs_of made.0.table ≡ []) }
    ensures desk { IfOk result (λ made. made.1.desk ≡ desk) }
    ensures back { IfErr result (λ unmade. unmade ≡ record { server = sample; desk = desk }) }
{
    LspService::new(alloc, Sample, desk)
}
