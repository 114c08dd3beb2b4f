// The server behind its methods.
ghost use Rattle.std.specs.Prelude.{◌≡◌, ◌≢◌, ◌≤◌, IfOk};
ghost use Rattle.std.specs.Process.{exit_status};

use crate::asks::Asks;
use lsp_desk::{ClientSocket, Desk, PlainDesk};
use lsp_server::Server;
use lsp_service::{InTime, LspService, NoMemory, serve_stdio};
use lsp_session::Kind;
use lsp_stdio::Status;
use std::alloc::Global;
use std::io::{Read, Write};
use std::process::ExitCode;

// A service of the server, with `asks/echo` as its one custom method, and the socket over the desk.
fn asks_service<D: Desk + Drop>(
    alloc: Global,
    desk: D,
) -> Result<(LspService<InTime<Asks>>, ClientSocket<D>), NoMemory>
    ensures { IfOk result (λ made. made.1.desk ≡ desk) }
{
    let Ok(mut builder) = LspService::build(alloc, InTime { server: Asks }, desk) else {
        return Err(NoMemory);
    };
    builder.custom_method("asks/echo", Kind::Request)?;
    Ok(builder.finish())
}

/// Serves from `input` to `output`, and answers what `main` returns: never 2, since there are no
/// arguments.
pub fn serve_asks<R: Read + Drop, W: Write + Drop>(alloc: Global, input: R, output: W) -> ExitCode
    ensures { (exit_status result ≤ 7) × (exit_status result ≢ 2) }
{
    match asks_service(alloc, PlainDesk::new(alloc)) {
        Ok((service, socket)) => serve_stdio(alloc, input, output, service, Server::new(socket)),
        Err(NoMemory) => ExitCode::from(Status::NoMemory as u8),
    }
}
