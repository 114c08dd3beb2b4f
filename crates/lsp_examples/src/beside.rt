// The counting server as a program.
ghost use Rattle.std.specs.Prelude.{◌≢◌, ◌≤◌};
ghost use Rattle.std.specs.Process.{exit_status};

use crate::counts::Counts;
use crate::worker::{Jobs, PLACES, work};
use lsp_desk::PlainDesk;
use lsp_frame::Floats;
use lsp_server::Server;
use lsp_service::{InTime, LspService, pump_stdio};
use lsp_stdio::Status;
use rtrb::RingBuffer;
use std::alloc::Global;
use std::io::{Read, Write};
use std::process::ExitCode;
use std::sync::Wait;
use std::thread::{self, Parker, Threads};

fn serve<T: Threads + Wait, R: Read + Send + Drop + 'static, W: Write + Drop>(
    rt: &T,
    alloc: Global,
    input: R,
    output: W,
    jobs: Jobs<'_>,
) -> ExitCode
    ensures { (exit_status result ≤ 7) × (exit_status result ≢ 2) }
{
    let desk = PlainDesk::new(alloc);
    let server = Counts { jobs };
    let Ok((service, socket)) = LspService::new(alloc, InTime { server }, desk) else {
        return ExitCode::from(Status::NoMemory as u8);
    };
    let server = Server::new(socket)
        .floats(Floats::Read)
        .allow_empty_params();
    pump_stdio(rt, alloc, input, output, service, server)
}

/// Serves from `input` to `output`, with a thread beside that counts primes, and answers what `main`
/// returns, never 2: `count_beside(&rt, rt.alloc(), rt.stdin(), rt.stdout())`.
///
/// It may wait for the input.
pub fn count_beside<T: Threads + Wait + Sync, R: Read + Send + Drop + 'static, W: Write + Drop>(
    rt: &T,
    alloc: Global,
    input: R,
    output: W,
) -> ExitCode
    ensures { (exit_status result ≤ 7) × (exit_status result ≢ 2) }
{
    let Ok((ring, jobs_there)) = RingBuffer::new(alloc, PLACES) else {
        return ExitCode::from(Status::NoMemory as u8);
    };
    let bell = Parker::new();
    let jobs = Jobs { ring, bell: &bell };
    let ((), status) = thread::join(
        rt,
        || work(rt, jobs_there, &bell),
        || -> ExitCode
            ensures { (exit_status result ≤ 7) × (exit_status result ≢ 2) }
        { serve(rt, alloc, input, output, jobs) },
    );
    status
}
