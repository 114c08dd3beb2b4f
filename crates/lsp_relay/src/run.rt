//! The program but for its `main`.
ghost use Rattle.std.specs.Prelude.{◌≡◌, ◌≢◌, ℕ, ◌≤◌, ◌<◌, ◌⊎◌, ◌↔◌, ◌-◌, ◌^◌, None, length, IfSome};
ghost use Rattle.lsp_server.specs.SourceSink.{CountRose};
ghost use Rattle.lsp_server.specs.Served.{call_bytes};
ghost use Rattle.lsp_relay.specs.Relay.{RelayWroteTold, RelayWrotePart};
ghost use Rattle.lsp_relay.specs.Arguments.{editors_asked, HasRelayed, StatusTells, WhereRelaying};

use crate::reads::relay;
use lsp_program::{Status, number, status_of};
use lsp_server::{Sink, Source};
use std::alloc::Global;

/// Runs the program over a source and a sink, and answers its exit status.
///
/// Its one argument is the number of editors, from 1 to 64 in decimal digits alone. With other
/// arguments nothing is read or written.
pub fn run_proxy<I: Source, O: Sink>(
    alloc: Global,
    arguments: &Vec<String>,
    source: &mut I,
    sink: &mut O,
) -> u8
    ensures known { (result ≤ 6) × (result ≢ 1) }

    // The arguments.
    ensures usage { (result ≡ 2) ↔ (editors_asked arguments.now.items ≡ None) }
    ensures untouched { editors_asked arguments.now.items ≡ None
        → (source.new ≡ source.old) × (sink.new ≡ sink.old) }

    // All the source's bytes were read, and what is written is what the proxy sends for their
    // items.
    ensures done { result ≡ 0 → WhereRelaying arguments.now.items (I.left source.old) (λ editors bytes.
        HasRelayed editors
        (call_bytes bytes (I.left source.new) (O.taken sink.old) (O.taken sink.new))) }

    // What was written is flushed, and each failure has its cause and is told.
    ensures told { StatusTells I.left I.faults O.taken O.flushed O.faults
        source.old source.new sink.old sink.new result }

    // So with no failure, and with fewer bytes than reads, only `NoMemory` may come.
    ensures complete { WhereRelaying arguments.now.items (I.left source.old) (λ _ bytes.
        length bytes < 2 ^ 64 - 1
        → ¬ CountRose (I.faults source.old) (I.faults source.new)
        → ¬ CountRose (O.faults sink.old) (O.faults sink.new) → (result ≡ 0) ⊎ (result ≡ 6)) }

    // What was written by then.
    ensures exact { (result ≡ 3) ⊎ (result ≡ 5)
        → WhereRelaying arguments.now.items (I.left source.old) (λ editors bytes. RelayWroteTold editors
        (call_bytes bytes (I.left source.new) (O.taken sink.old) (O.taken sink.new))) }
    ensures part { 3 ≤ result
        → WhereRelaying arguments.now.items (I.left source.old) (λ editors bytes. RelayWrotePart editors
        (call_bytes bytes (I.left source.new) (O.taken sink.old) (O.taken sink.new)) 4096) }
{
    match read_arguments(arguments) {
        Some(editors) => relay_all(alloc, editors, source, sink),
        None => Status::Usage as u8,
    }
}

// Relays between so many editors, with all the reads that can be counted. A relay has no desk that
// could be spent.
#[tactic(auto, using(lsp_program::proofs::StatusLemmas::status_known))]
fn relay_all<I: Source, O: Sink>(alloc: Global, editors: u32, source: &mut I, sink: &mut O) -> u8
    requires { 1 ≤ editors }
    ensures known { (result ≤ 6) × (result ≢ 1) × (result ≢ 2) }
    ensures done { result ≡ 0 → IfSome (I.left source.old) (λ bytes. HasRelayed editors
        (call_bytes bytes (I.left source.new) (O.taken sink.old) (O.taken sink.new))) }
    ensures told { StatusTells I.left I.faults O.taken O.flushed O.faults
        source.old source.new sink.old sink.new result }
    ensures complete { IfSome (I.left source.old) (λ bytes. length bytes < 2 ^ 64 - 1
        → ¬ CountRose (I.faults source.old) (I.faults source.new)
        → ¬ CountRose (O.faults sink.old) (O.faults sink.new) → (result ≡ 0) ⊎ (result ≡ 6)) }
    ensures exact { (result ≡ 3) ⊎ (result ≡ 5)
        → IfSome (I.left source.old) (λ bytes. RelayWroteTold editors
        (call_bytes bytes (I.left source.new) (O.taken sink.old) (O.taken sink.new))) }
    ensures part { 3 ≤ result → IfSome (I.left source.old) (λ bytes. RelayWrotePart editors
        (call_bytes bytes (I.left source.new) (O.taken sink.old) (O.taken sink.new)) 4096) }
{
    match relay(alloc, editors, source, sink, u64::MAX) {
        Ok(_) => Status::Done as u8,
        Err(error) => status_of(error),
    }
}

// How many editors the arguments ask for: one argument, of a number from 1 to 64.
fn read_arguments(arguments: &Vec<String>) -> Option<u32>
    ensures value { result ≡ editors_asked arguments.now.items }
    ensures some { IfSome result (λ editors. 1 ≤ editors) }
{
    let [argument] = arguments.as_slice() else {
        return None;
    };
    match number(argument.as_str()) {
        Some(n) if 1 <= n && n <= 64 => Some(n as u32),
        _ => None,
    }
}
