// A session whose read waits until a client's message is written.
ghost use Rattle.lsp_desk.specs.Meaning.{IsOpening};
ghost use Rattle.lsp_shared.specs.Seats.{seat_meaning};

use crate::client::{NOTE, OWN};
use crate::silent::{Silent, Watched};
use lsp_program::Status;
use lsp_sample_server::sample_service;
use lsp_server::{ReadSource, Server, WriteSink};
use lsp_service::pump;
use lsp_shared::DeskOwner;
use std::alloc::Global;
use std::sync::atomic::AtomicU64;
use std::sync::{Arc, Wait};
use std::thread::Threads;

/// Serves an editor that is silent until the client's message is written, and says whether the
/// session ended without an exit.
pub(crate) fn pump_silent<R: Threads + Wait + Sync>(
    rt: &R,
    alloc: Global,
    owner: DeskOwner<'_, R>,
    stage: &Arc<AtomicU64, Global>,
) -> bool
    requires { IsOpening seat_meaning owner }
{
    let Ok(theirs) = Arc::try_clone(stage) else {
        return false;
    };
    let source = ReadSource::new(Silent {
        sent: NOTE.as_bytes(),
        stage: theirs,
    });
    let Ok((service, socket)) = sample_service(alloc, owner) else {
        return false;
    };
    let server = Server::new(socket);
    let mut written = Vec::new(alloc);
    let mut sink = WriteSink::new(Watched {
        written: &mut written,
        awaited: OWN,
        stage,
    });
    let (_, status) = pump(rt, alloc, source, &mut sink, service, server, 8);
    status == Status::Unfinished as u8
}
