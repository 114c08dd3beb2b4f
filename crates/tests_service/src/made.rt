// Services of the strange server.
ghost use Rattle.std.specs.Prelude.{◌≡◌, IfOk};
ghost use Rattle.lsp_desk.specs.Meaning.{IsOpening};
ghost use Rattle.lsp_desk.specs.Plain.{plain_meaning};

use crate::strange::Strange;
use lsp_desk::{ClientSocket, Desk, Life, PlainDesk, ServerCall};
use lsp_rows::{RowError, Trial};
use lsp_service::{AtOnce, LspService};
use lsp_session::Kind;
use std::alloc::Global;

/// A service, its socket, and the numbers of its custom methods.
#[derive(Drop)]
pub(crate) struct Made {
    pub(crate) service: LspService<AtOnce<Strange>>,
    pub(crate) socket: ClientSocket<PlainDesk>,
    pub(crate) numbers: [u64; 2],
}

/// A service of the strange server with the custom requests `custom` and `initialize`.
pub(crate) fn make_service(alloc: Global) -> Result<Made, RowError>
    ensures { IfOk result (λ made. IsOpening plain_meaning made.socket.desk) }
{
    let desk = PlainDesk::new(alloc);
    let Ok(mut builder) = LspService::build(alloc, AtOnce { server: Strange }, desk) else {
        return Err(RowError::NoMemory);
    };
    let custom = builder.custom_method("custom", Kind::Request)?;
    let initialize = builder.custom_method("initialize", Kind::Request)?;
    let (service, socket) = builder.finish();
    Ok(Made {
        service,
        socket,
        numbers: [custom, initialize],
    })
}

// A socket whose session has ended.
fn exited_socket(alloc: Global) -> ClientSocket<PlainDesk> {
    let mut desk = PlainDesk::new(alloc);
    let _ = desk.server(ServerCall::Rise(Life::Exited));
    ClientSocket::new(desk)
}

#[test]
fn custom_methods_are_numbered_and_a_service_is_ready_until_exit(
    rt: HostRuntime,
) -> Result<(), RowError> {
    let alloc = rt.alloc();
    let mut made = make_service(alloc)?;
    let numbers = made.numbers;
    let at_first = made.service.poll_ready(&mut made.socket);
    let after_exit = made.service.poll_ready(&mut exited_socket(alloc));
    drop(made);
    let mut trial = Trial::new(alloc);
    trial.same("their numbers", numbers, [0, 1]);
    trial.shows("at first", at_first, "Ok(Ready(Ok(())))");
    trial.shows("after exit", after_exit, "Ok(Ready(Err(ExitedError)))");
    trial.end()
}
