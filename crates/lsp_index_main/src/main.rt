//! Answers a query over an index of a program, which comes over standard input.
#![tactic(auto)]

use lsp_index::answer;
use lsp_program::words;
use lsp_server::{ReadSource, WriteSink};
use std::env;
use std::process::ExitCode;

fn main(rt: HostRuntime) -> ExitCode {
    let words = match words(rt.alloc(), env::args(&rt)) {
        Ok(words) => words,
        Err(status) => return ExitCode::from(status as u8),
    };
    let mut source = ReadSource::new(rt.stdin());

    // The one line of the answer is written whole, so it needs no buffer.
    let mut sink = WriteSink::new(rt.stdout());
    ExitCode::from(answer(rt.alloc(), &words, &mut source, &mut sink))
}
