//! Language servers over standard input and output: a small one, and one that keeps documents.
#![tactic(auto)]

use lsp_program::{Status, words};
use lsp_sample_run::run;
use lsp_server::{ReadSource, Sink, WriteSink};
use lsp_shared::SharedDesk;
use std::env;
use std::io::BufWriter;
use std::process::ExitCode;

fn main(rt: HostRuntime) -> ExitCode {
    let arguments = match words(rt.alloc(), env::args(&rt)) {
        Ok(arguments) => arguments,
        Err(status) => return ExitCode::from(status as u8),
    };
    let Ok(output) = BufWriter::new(rt.alloc(), rt.stdout()) else {
        return ExitCode::from(Status::NoMemory as u8);
    };
    let Ok((desk, seat)) = SharedDesk::new(rt.alloc()) else {
        return ExitCode::from(Status::NoMemory as u8);
    };
    let owner = desk.owner(&rt, seat);
    let source = ReadSource::new(rt.stdin());
    let mut sink = WriteSink::new(output);
    let (_, status, _) = run(&rt, rt.alloc(), &arguments, owner, source, &mut sink);

    // After a failure some of what was written may still wait here; nothing can be told of a second
    // one.
    let _ = sink.flush();
    ExitCode::from(status)
}
