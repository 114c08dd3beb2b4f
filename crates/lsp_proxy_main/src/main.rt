//! Relays between several editors and one language server, over standard input and output.
#![tactic(auto)]

use lsp_program::{Status, words};
use lsp_relay::run_proxy;
use lsp_server::{ReadSource, Sink, WriteSink};
use std::env;
use std::io::BufWriter;
use std::process::ExitCode;

fn main(rt: HostRuntime) -> ExitCode {
    let arguments = match words(rt.alloc(), env::args(&rt)) {
        Ok(arguments) => arguments,
        Err(status) => return ExitCode::from(status as u8),
    };
    let Ok(output) = BufWriter::new(rt.alloc(), rt.stdout()) else {
        return ExitCode::from(Status::NoMemory as u8);
    };
    let mut source = ReadSource::new(rt.stdin());
    let mut sink = WriteSink::new(output);
    let status = run_proxy(rt.alloc(), &arguments, &mut source, &mut sink);

    // After a failure some of what was written may still wait here; nothing can be told of a second
    // one.
    let _ = sink.flush();
    ExitCode::from(status)
}
