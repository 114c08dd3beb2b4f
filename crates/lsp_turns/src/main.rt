//! Four threads call on one shared desk at once, each through its seat.
//!
//! Its arguments are `check CALLS`: each seat makes so many calls, and what they were told is compared
//! with what a desk that one thread uses replies; or `alone CALLS` or `beside CALLS`, for
//! measuring: the owner makes so many calls, by itself or while three clients make as many each.
#![tactic(auto)]

mod calls;
mod seats;
mod threads;
mod verdict;

use lsp_shared::NoMemory;
use std::alloc::Global;
use std::process::ExitCode;
use std::rt::Env;
use std::sync::Wait;
use std::thread::Threads;
use std::{env, io};
use threads::{Made, alone, four};
use verdict::Verdict;

/// The program's arguments, without its own name.
fn arguments(rt: &(impl Env + Alloc<A = Global>)) -> io::Result<Vec<String>> {
    let mut arguments = Vec::new(rt.alloc());
    for argument in env::args(rt)?.skip(1) {
        arguments.push(argument)?;
    }
    Ok(arguments)
}

fn main(rt: HostRuntime) -> ExitCode {
    let Ok(arguments) = arguments(&rt) else {
        return ExitCode::from(6);
    };
    let [mode, calls] = arguments.as_slice() else {
        return ExitCode::from(2);
    };
    let Ok(calls) = calls.as_str().parse::<u64>() else {
        return ExitCode::from(2);
    };
    match run(&rt, rt.alloc(), mode.as_str(), calls) {
        Ok(Some(line)) => match println!(rt; "{line}") {
            Ok(()) => ExitCode::SUCCESS,
            Err(_) => ExitCode::from(4),
        },
        Ok(None) => ExitCode::from(2),
        Err(NoMemory) => ExitCode::from(6),
    }
}

/// What is printed: of a check its verdict, and else how many entries the desk's history has. None
/// where the first argument is none of the program's.
fn run<R: Threads + Wait + Sync>(
    rt: &R,
    alloc: Global,
    mode: &str,
    calls: u64,
) -> Result<Option<String>, NoMemory> {
    Ok(Some(match mode {
        "check" => {
            let verdict = Verdict::of(alloc, four(rt, alloc, calls, true)?)?;
            let wrong = wrong(rt, alloc)?;
            format!(in alloc; "{verdict}\n{wrong}")?
        }
        "alone" => entries(alloc, &alone(rt, alloc, calls)?)?,
        "beside" => entries(alloc, &four(rt, alloc, calls, false)?)?,
        _ => return Ok(None),
    }))
}

// How many calls each seat makes of which one is noted wrong.
const FEW: u64 = 4;

/// That a note of a wrong place is seen, and one of a wrong reply.
fn wrong<R: Threads + Wait + Sync>(rt: &R, alloc: Global) -> Result<String, NoMemory> {
    let place = Verdict::of(alloc, four(rt, alloc, FEW, true)?.misplaced())?.is_right();
    let reply = Verdict::of(alloc, four(rt, alloc, FEW, true)?.misheard())?.is_right();
    Ok(format!(in alloc; "right with a wrong place: {place}; right with a wrong reply: {reply}")?)
}

fn entries(alloc: Global, made: &Made) -> Result<String, NoMemory> {
    let entries = made.entries;
    Ok(format!(in alloc; "{entries} entries")?)
}
