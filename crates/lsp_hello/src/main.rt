//! A language server that greets: a template for one of your own.
#![tactic(auto)]

mod hello;

use hello::Hello;
use lsp_desk::PlainDesk;
use lsp_frame::Floats;
use lsp_server::Server;
use lsp_service::{AtOnce, LspService, pump_stdio};
use lsp_stdio::Status;
use std::process::ExitCode;

fn main(rt: HostRuntime) -> ExitCode {
    let desk = PlainDesk::new(rt.alloc());
    let Ok((service, socket)) = LspService::new(rt.alloc(), AtOnce { server: Hello }, desk) else {
        return ExitCode::from(Status::NoMemory as u8);
    };
    let server = Server::new(socket)
        .floats(Floats::Read)
        .allow_empty_params();
    pump_stdio(&rt, rt.alloc(), rt.stdin(), rt.stdout(), service, server)
}
