// How a service is made.
ghost use Rattle.std.specs.Prelude.{◌≡◌, ◌++◌, ◌∷◌, [], IfOk, IfErr, OnErr, length};
ghost use Rattle.lsp_methods.specs.ServiceTable.{customs_of};

use crate::service::LspService;
use lsp_desk::{ClientSocket, Desk};
use lsp_methods::ServiceTable;
use lsp_session::{Kind, Layer, NoMemory};
use std::alloc::Global;

/// A server and a desk that were handed in, where there was no memory for a service.
#[derive(Drop)]
pub struct Unmade<S, D> {
    pub server: S,
    pub desk: D,
}

/// A service that is yet to be finished.
#[derive(Drop)]
pub struct LspServiceBuilder<S, D: Desk + Drop> {
    service: LspService<S>,
    socket: ClientSocket<D>,
}

impl<S> LspService<S> {
    /// A service over the server, without custom methods, and the socket over the desk.
    pub fn new<D: Desk + Drop>(
        alloc: Global,
        server: S,
        desk: D,
    ) -> Result<(LspService<S>, ClientSocket<D>), Unmade<S, D>>
        ensures server { IfOk result (λ made. made.0.server ≡ server) }
        ensures desk { IfOk result (λ made. made.1.desk ≡ desk) }
        ensures customs { IfOk result (λ made. customs_of made.0.table ≡ []) }
        ensures back { IfErr result (λ unmade. unmade ≡ record { server = server; desk = desk }) }
    {
        match LspService::build(alloc, server, desk) {
            Ok(builder) => Ok(builder.finish()),
            Err(unmade) => Err(unmade),
        }
    }

    /// The same, but the service may get custom methods before it is finished.
    pub fn build<D: Desk + Drop>(
        alloc: Global,
        server: S,
        desk: D,
    ) -> Result<LspServiceBuilder<S, D>, Unmade<S, D>>
        ensures server { IfOk result (λ builder. builder.service.server ≡ server) }
        ensures desk { IfOk result (λ builder. builder.socket.desk ≡ desk) }
        ensures customs { IfOk result (λ builder. customs_of builder.service.table ≡ []) }
        ensures back { IfErr result (λ unmade. unmade ≡ record { server = server; desk = desk }) }
    {
        match ServiceTable::new(alloc) {
            Ok(table) => Ok(LspServiceBuilder {
                service: LspService { server, table },
                socket: ClientSocket::new(desk),
            }),
            Err(NoMemory) => Err(Unmade { server, desk }),
        }
    }
}

impl<S, D: Desk + Drop> LspServiceBuilder<S, D> {
    /// Registers a custom method behind the others, and answers its number, from 0. Of a name that is
    /// registered already, the first is found, and none comes under this number.
    pub fn custom_method(&mut self, name: &str, kind: Kind) -> Result<u64, NoMemory>
        ensures number { IfOk result (λ number.
            number ≡ length (customs_of self.old.service.table)) }
        ensures ok { IfOk result (λ _. customs_of self.new.service.table
            ≡ customs_of self.old.service.table
            ++ record { name = name.now; layer = Layer.Normal; kind = kind } ∷ []) }
        ensures err { OnErr result (customs_of self.new.service.table
            ≡ customs_of self.old.service.table) }
        ensures server { self.new.service.server ≡ self.old.service.server }
        ensures socket { self.new.socket ≡ self.old.socket }
    {
        self.service.table.custom(name, kind)
    }

    /// The service and the socket.
    pub fn finish(self) -> (LspService<S>, ClientSocket<D>)
        ensures service { result.0 ≡ self.service }
        ensures socket { result.1 ≡ self.socket }
    {
        (self.service, self.socket)
    }
}
