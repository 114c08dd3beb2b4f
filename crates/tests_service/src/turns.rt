// A session whose source waits for a client, which has its turn while the session serves.
ghost use Rattle.std.specs.Prelude.{None};
ghost use Rattle.lsp_desk.specs.Meaning.{IsOpening};
ghost use Rattle.lsp_shared.specs.Seats.{seat_meaning};

use crate::client::{ANSWERED, NOTE, OWN, READY, comes_to};
use lsp_program::Status;
use lsp_sample_server::sample_service;
use lsp_server::{Failed, MemorySink, Server, Source};
use lsp_service::serve;
use lsp_shared::DeskOwner;
use std::alloc::Global;
use std::str;
use std::sync::Wait;
use std::sync::atomic::{AtomicU64, Ordering};

// How many reads give a message.
const READS: u64 = 200;

// What comes last is answered.
const LAST: &str = "Content-Length: 41\r\n\r\n{\"jsonrpc\":\"2.0\",\"method\":\"last\",\"id\":70}";

const LAST_ID: &str = "\"id\":70";

/// Gives one message a read. Before each but the first it waits until a client on another thread was
/// answered.
#[derive(Drop)]
struct Patient<'a> {
    left: u64,
    stage: &'a AtomicU64,
}

impl<'a> Source for Patient<'a> {
    ghost left = { λ _. None };

    ghost faults = { λ _. 0 };

    fn read(&mut self, piece: &mut [u8]) -> Result<usize, Failed> {
        if self.left == 0 {
            return Ok(0);
        }
        self.left -= 1;
        if self.left < READS - 1 {
            self.stage.fetch_max(READY, Ordering::SeqCst);
            comes_to(self.stage, ANSWERED);
        }
        let frame = if self.left == 0 { LAST } else { NOTE };
        let n = frame.len().min(piece.len());
        piece[..n].copy_from_slice(&frame.as_bytes()[..n]);
        Ok(n)
    }
}

// Whether the client's message was written before the answer to what comes last.
fn is_before_last(bytes: &[u8]) -> bool {
    let Ok(text) = str::from_utf8(bytes) else {
        return false;
    };
    match (text.find(OWN), text.find(LAST_ID)) {
        (Some(own), Some(last)) => own < last,
        _ => false,
    }
}

/// Serves, and says whether the client's message was written in time.
pub(crate) fn serve_patient<R: Wait + Sync>(
    alloc: Global,
    owner: DeskOwner<'_, R>,
    stage: &AtomicU64,
) -> bool
    requires { IsOpening seat_meaning owner }
{
    let Ok((service, socket)) = sample_service(alloc, owner) else {
        return false;
    };
    let server = Server::new(socket);
    let mut source = Patient { left: READS, stage };
    let mut sink = MemorySink::new(alloc, Vec::new(alloc));
    let status = serve(alloc, &mut source, &mut sink, service, server, 8);
    status == Status::Unfinished as u8 && is_before_last(sink.bytes())
}
