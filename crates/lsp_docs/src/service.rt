// The server behind its methods.
ghost use Rattle.std.specs.Prelude.{◌≡◌, IfOk};
ghost use Rattle.std.specs.FinMap as map;
ghost use Rattle.lsp_methods.specs.ServiceTable.{customs_of};
ghost use Rattle.lsp_docs.specs.Docs.{docs_methods};

use crate::docs::DocsServer;
use lsp_desk::{ClientSocket, Desk};
use lsp_service::{LspService, NoMemory};
use lsp_session::Kind;
use std::alloc::Global;

/// A service that keeps documents, with `docs/text` as its one custom method, and the socket over
/// the desk. Out of memory the desk is let go.
pub fn docs_service<D: Desk + Drop>(
    alloc: Global,
    desk: D,
) -> Result<(LspService<DocsServer>, ClientSocket<D>), NoMemory>
    ensures documents { IfOk result (λ made. made.0.server.documents ≡ map.empty) }
    ensures desk { IfOk result (λ made. made.1.desk ≡ desk) }
    ensures methods { IfOk result (λ made. customs_of made.0.table ≡ docs_methods) }
{
    let Ok(mut builder) = LspService::build(alloc, DocsServer::new(alloc), desk) else {
        return Err(NoMemory);
    };
    builder.custom_method("docs/text", Kind::Request)?;
    Ok(builder.finish())
}
