// The program but for its `main`.
ghost use Rattle.std.specs.Prelude.{◌≡◌, ◌≢◌, ◌≤◌, ◌<◌, ◌⊎◌, ◌↔◌, ◌+◌, ◌-◌, ◌^◌, None, length, IfOk, IfSome};
ghost use Rattle.lsp_server.specs.SourceSink.{CountRose, IsFlushed};
ghost use Rattle.lsp_server.specs.Served.{call_bytes};
ghost use Rattle.lsp_uri.specs.Uri.{uri_text};
ghost use Rattle.lsp_index.specs.Answered.{IsQueryAnswered, IsRefused, WroteBegun, WroteNone, WhereAsked, AreAnswers};
ghost use Rattle.lsp_index.specs.Ended.{AnswerTells, ended_with, status_from};
ghost use Rattle.lsp_index.specs.Shown.{show_query};
ghost use Rattle.lsp_index.specs.Words.{query_asked};

use crate::Request;
use crate::lines::{Lines, Search};
use crate::query::Query;
use crate::words::read_words;
use lsp_base::Position;
use lsp_program::{Status, status_of};
use lsp_rpc::NoMemory;
use lsp_server::{Ends, ServeError, Sink, Source, over_reads};
use lsp_uri::Uri;
use std::alloc::Global;

/// Answers the query that the words ask over the dump that the source holds, as one line of JSON,
/// and gives the program's exit status.
///
/// With other words nothing is read or written.
pub fn answer<I: Source, O: Sink>(
    alloc: Global,
    words: &Vec<String>,
    source: &mut I,
    sink: &mut O,
) -> u8
    ensures known { (result ≤ 8) × (result ≢ 1) × (result ≢ 7) }

    // The words.
    ensures usage { (result ≡ 2) ↔ (query_asked words.now.items ≡ None) }
    ensures untouched { query_asked words.now.items ≡ None
        → (source.new ≡ source.old) × (sink.new ≡ sink.old) }

    // No line is bad, all bytes were read, and the line of the answer was written.
    ensures done { result ≡ 0 → WhereAsked words.now.items (I.left source.old) (λ q bytes.
        IsQueryAnswered q (call_bytes bytes (I.left source.new) (O.taken sink.old) (O.taken sink.new))) }

    // A line is bad, nothing was read after the piece in which it ends, and nothing was written.
    ensures bad { result ≡ 8 → WhereAsked words.now.items (I.left source.old) (λ q bytes.
        IsRefused (call_bytes bytes (I.left source.new) (O.taken sink.old) (O.taken sink.new))) }

    // What was written is flushed.
    ensures flushed { (result ≡ 0) ⊎ (result ≡ 3) ⊎ (result ≡ 5) ⊎ (result ≡ 8)
        → IsFlushed (O.taken sink.old) (O.flushed sink.old)
        → IsFlushed (O.taken sink.new) (O.flushed sink.new) }

    // Each failure has its cause, and is told.
    ensures read { result ≡ 3 → CountRose (I.faults source.old) (I.faults source.new) }
    ensures write { result ≡ 4 → CountRose (O.faults sink.old) (O.faults sink.new) }
    ensures spent { result ≡ 5 → IfSome (I.left source.old) (λ bytes.
        IfSome (I.left source.new) (λ rest. 2 ^ 64 - 1 + length rest ≤ length bytes)) }
    ensures read_told { I.faults source.old < I.faults source.new → result ≡ 3 }
    ensures write_told { O.faults sink.old < O.faults sink.new → result ≡ 4 }

    // So with no failure, and with fewer bytes than reads, only these may come.
    ensures complete { WhereAsked words.now.items (I.left source.old) (λ _ bytes.
        length bytes < 2 ^ 64 - 1
        → ¬ CountRose (I.faults source.old) (I.faults source.new)
        → ¬ CountRose (O.faults sink.old) (O.faults sink.new)
        → (result ≡ 0) ⊎ (result ≡ 6) ⊎ (result ≡ 8)) }

    // What was read and written by then.
    ensures unwritten { (result ≡ 3) ⊎ (result ≡ 5)
        → WhereAsked words.now.items (I.left source.old) (λ q bytes.
        WroteNone (call_bytes bytes (I.left source.new) (O.taken sink.old) (O.taken sink.new))) }
    ensures part { (result ≡ 4) ⊎ (result ≡ 6) → WhereAsked words.now.items (I.left source.old) (λ q bytes.
        WroteBegun q (call_bytes bytes (I.left source.new) (O.taken sink.old) (O.taken sink.new))) }
{
    match read_words(alloc, words) {
        Ok(Some(query)) => answer_query(alloc, query, source, sink),
        Ok(None) => Status::Usage as u8,
        Err(NoMemory) => Status::NoMemory as u8,
    }
}

// Answers a query, with all the reads that can be counted. No desk could be spent.
fn answer_query<I: Source, O: Sink>(alloc: Global, query: Query, source: &mut I, sink: &mut O) -> u8
    ensures { AnswerTells (show_query query)
        (record {
          left = I.left source.old;
          left_after = I.left source.new;
          reads_failed = I.faults source.old;
          reads_failed_after = I.faults source.new;
          taken = O.taken sink.old;
          taken_after = O.taken sink.new;
          flushed = O.flushed sink.old;
          flushed_after = O.flushed sink.new;
          writes_failed = O.faults sink.old;
          writes_failed_after = O.faults sink.new;
        }) result }
{
    let mut lines = Lines {
        part: Vec::new(alloc),
    };
    let mut search = Search::new(alloc, query);
    let mut ends = Ends { source, sink };
    let ended = over_reads(&mut ends, &mut lines, &mut search, u64::MAX);
    drop(lines);
    let good = !search.is_bad;
    drop(search);
    status(ended, good)
}

// The exit status of what the reads ended with, and whether no line is bad.
fn status(ended: Result<(), ServeError>, good: bool) -> u8
    ensures { result ≡ status_from (ended_with ended good) }
{
    match ended {
        Ok(()) if good => Status::Done as u8,
        Ok(()) => Status::BadInput as u8,
        Err(error) => status_of(error),
    }
}

/// Answers what is asked at each of the positions of a document, over a dump that is read once: each
/// line is what `answer` writes there. None comes where a line of the dump is bad.
pub fn answer_each(
    alloc: Global,
    request: Request,
    uri: Uri,
    positions: &[Position],
    dump: &[u8],
) -> Result<Option<Vec<String>>, NoMemory>
    ensures { IfOk result (λ lines. AreAnswers
        (λ p. record { request = request; uri = uri_text uri; position = p })
        dump.now positions.now lines) }
{
    let position = Position::new(0, 0);
    let query = Query {
        request,
        uri,
        position,
    };
    let mut search = Search::new(alloc, query);
    search.answer_each(positions, dump)
}
