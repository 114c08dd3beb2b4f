// The session beside the callers.
ghost use Rattle.std.specs.Prelude.{◌≡◌, ℕ, IfOk};
ghost use Rattle.lsp_shared.specs.Desks.{desk_id};
ghost use Rattle.lsp_callers.specs.Tallies.{tallied_view, tallied_desk, tallied_spent, tally_view, tally_desk, tally_spent};
ghost use Rattle.lsp_sample_server.specs.Sessions.{IsSampleService};
ghost use Rattle.lsp_talk.specs.Hello.{hello_bytes, IsUnseen, EndsHello};

use lsp_callers::{RestedTally, Tallied};
use lsp_desk::{ClientSocket, DeskFault};
use lsp_rpc::NoMemory;
use lsp_sample_server::{Sample, sample_service};
use lsp_server::{NeverSink, NeverSource, ServeError, Served, Server, Stopped};
use lsp_service::{LspService, Unmade, serve_session};
use lsp_session::InOrder;
use lsp_shared::SharedDesk;
use std::alloc::Global;
use std::sync::Wait;

const HELLO: &str =
    "{\"jsonrpc\":\"2.0\",\"method\":\"initialize\",\"params\":{\"capabilities\":{}},\"id\":1}";

// How many bytes of the session are read at a time.
const READ_SIZE: usize = 4096;

// How many rounds of polls follow each message.
const ROUNDS: u64 = 8;

// What the editor sends: the frame of an `initialize`.
pub(crate) fn hello(alloc: Global) -> Result<Vec<u8>, NoMemory>
    ensures { IfOk result (λ input. input.items ≡ hello_bytes) }
{
    let len = HELLO.len();
    let head = format!(in alloc; "Content-Length: {len}\r\n\r\n")?;
    let mut input = Vec::new(alloc);
    input.extend_from_slice(head.as_bytes())?;
    input.extend_from_slice(HELLO.as_bytes())?;
    Ok(input)
}

// Serves a sample over these bytes, in memory, and hands back its desk.
fn session<'a, R: Wait + Sync>(
    alloc: Global,
    input: Vec<u8>,
    desk: Tallied<'a, R>,
) -> (Result<(), DeskFault>, Tallied<'a, R>)
    requires hello { input.items ≡ hello_bytes }
    requires unseen { IsUnseen (tallied_view desk) (tallied_spent desk) }
    ensures { EndsHello (tallied_desk desk.entry) (tallied_view desk.entry) result.0
        (tallied_desk result.1) (tallied_view result.1) (tallied_spent result.1) }
{
    match sample_service(alloc, desk) {
        Ok((service, socket)) => serve_hello(alloc, input, service, socket),
        Err(unmade) => {
            let Unmade { desk, .. } = unmade;
            (Err(DeskFault::NoMemory), desk)
        }
    }
}

// The same by this service.
fn serve_hello<'a, R: Wait + Sync>(
    alloc: Global,
    input: Vec<u8>,
    service: LspService<Sample>,
    socket: ClientSocket<Tallied<'a, R>>,
) -> (Result<(), DeskFault>, Tallied<'a, R>)
    requires hello { input.items ≡ hello_bytes }
    requires sample { IsSampleService service }
    requires unseen { IsUnseen (tallied_view socket.desk) (tallied_spent socket.desk) }
    ensures { EndsHello (tallied_desk socket.entry.desk) (tallied_view socket.entry.desk) result.0
        (tallied_desk result.1) (tallied_view result.1) (tallied_spent result.1) }
{
    let mut source = NeverSource::new(input, READ_SIZE);
    let mut sink = NeverSink::new(alloc);
    match serve_session(
        alloc,
        &mut source,
        &mut sink,
        service,
        Server::new(socket),
        &mut InOrder,
        u64::MAX,
        ROUNDS,
    ) {
        Ok(served) => {
            let Served { desk, .. } = served;
            (Ok(()), desk)
        }
        Err(stopped) => {
            let Stopped { error, desk } = stopped;
            (Err(fault_of(error)), desk)
        }
    }
}

// The same over a seat at rest.
pub(crate) fn session_at<R: Wait + Sync>(
    rt: &R,
    alloc: Global,
    input: Vec<u8>,
    desk: &SharedDesk,
    tally: RestedTally,
) -> (Result<(), DeskFault>, RestedTally)
    requires here { tally_desk tally ≡ desk_id desk.now }
    requires hello { input.items ≡ hello_bytes }
    requires unseen { IsUnseen (tally_view tally) (tally_spent tally) }
    ensures { EndsHello (tally_desk tally) (tally_view tally) result.0
        (tally_desk result.1) (tally_view result.1) (tally_spent result.1) }
{
    let (served, tallied) = session(alloc, input, Tallied::sit(rt, desk, tally));
    (served, tallied.rest())
}

// Nothing fails in memory, and there are more reads than bytes.
fn fault_of(error: ServeError) -> DeskFault
    ensures spent { (n : ℕ) → result ≡ DeskFault.Spent n → error ≡ ServeError.DeskSpent n }
    ensures told { (n : ℕ) → error ≡ ServeError.DeskSpent n → result ≡ DeskFault.Spent n }
{
    match error {
        ServeError::DeskSpent(n) => DeskFault::Spent(n),
        ServeError::ReadFault
        | ServeError::WriteFault
        | ServeError::ReadsSpent
        | ServeError::NoMemory => DeskFault::NoMemory,
    }
}
