// A session of a server, from the bodies that its editor sends to the bytes that it is sent.
ghost use Rattle.std.specs.Prelude.{IfOk};
ghost use Rattle.lsp_desk.specs.Meaning.{IsOpening};
ghost use Rattle.lsp_desk.specs.Plain.{plain_meaning};

use lsp_desk::{ClientSocket, PlainDesk};
use lsp_rows::RowError;
use lsp_rpc::NoMemory;
use lsp_sample_server::{Sample, sample_service};
use lsp_server::Server;
use lsp_service::{LanguageServer, LspService, serve_stdio};
use std::alloc::{AllocError, Global};
use std::process::ExitCode;

/// The frames of bodies of these lengths.
pub(crate) fn frames(alloc: Global, bodies: &[(usize, &str)]) -> Result<String, AllocError> {
    let mut frames = String::new(alloc);
    for (length, body) in bodies {
        let frame = format!(in alloc; "Content-Length: {length}\r\n\r\n{body}")?;
        frames.push_str(&frame)?;
    }
    Ok(frames)
}

/// The same, of the lengths that they have.
pub(crate) fn framed(alloc: Global, bodies: &[&str]) -> Result<Vec<u8>, AllocError> {
    let mut bytes = Vec::new(alloc);
    for body in bodies {
        let head = format!(in alloc; "Content-Length: {}\r\n\r\n", body.len())?;
        bytes.extend_from_slice(head.as_bytes())?;
        bytes.extend_from_slice(body.as_bytes())?;
    }
    Ok(bytes)
}

/// A service of the sample over a desk of its own.
pub(crate) fn new_sample(
    alloc: Global,
) -> Result<(LspService<Sample>, ClientSocket<PlainDesk>), NoMemory>
    ensures { IfOk result (λ made. IsOpening plain_meaning made.1.desk) }
{
    match sample_service(alloc, PlainDesk::new(alloc)) {
        Ok(made) => Ok(made),
        Err(_) => Err(NoMemory),
    }
}

/// What a session of the service writes, from its beginning to the end of these bodies, with no exit
/// among them.
pub(crate) fn served<S: LanguageServer<PlainDesk>>(
    alloc: Global,
    service: LspService<S>,
    socket: ClientSocket<PlainDesk>,
    bodies: &[&str],
) -> Result<String, RowError>
    requires { IsOpening plain_meaning socket.desk }
{
    let bytes = framed(alloc, bodies)?;
    let mut written = Vec::new(alloc);
    let status = serve_stdio(
        alloc,
        bytes.as_slice(),
        &mut written,
        service,
        Server::new(socket),
    );
    match String::from_utf8(written) {
        Ok(text) if status == ExitCode::FAILURE => Ok(text),
        _ => Err(RowError::NoMemory),
    }
}
