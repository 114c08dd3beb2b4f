// The program: what its arguments ask for, and how it ends.
ghost use Rattle.std.specs.Prelude.{◌≡◌, ◌≢◌, ℕ, ◌≤◌, ◌↔◌, true, None, IfSome};
ghost use Rattle.lsp_shared.specs.Seats.{seat_meaning, seat_view, seat_desk};
ghost use Rattle.lsp_shared.specs.Steps.{IsNew};
ghost use Rattle.lsp_desk.specs.Meaning.{IsOpening};
ghost use Rattle.lsp_desk.specs.Plain.{plain_meaning};
ghost use Rattle.lsp_server.specs.Course.{course};
ghost use Rattle.lsp_server.specs.Served.{call_bytes};
ghost use Rattle.lsp_server.specs.ServerView.{server_desk, setting as server_setting};
ghost use Rattle.lsp_stdio.specs.Stdio.{in_order, EndsWith};
ghost use Rattle.lsp_stdio.specs.Pumping.{EndsUnread};
ghost use Rattle.lsp_sample_run.specs.Arguments.{form_asked};
ghost use Rattle.lsp_sample_run.specs.Bulk.{EndsBulk};
ghost use Rattle.lsp_sample_run.specs.Run.{ServesSample, PumpsSample, ServesDocs, EndsTalking, NeverUnread, ToldByStatus, ToldByForm, WhereServing, WhereDocs, WherePumping, WhereMadeUp, WhereTalking, WhereOther};

use crate::arguments::{DEFAULT, Form, Setting, read_arguments};
use crate::bulk::bulk;
use lsp_desk::PlainDesk;
use lsp_docs::{DocsServer, docs_service};
use lsp_frame::Floats;
use lsp_program::Status;
use lsp_rpc::NoMemory;
use lsp_sample_server::{Sample, sample_service};
use lsp_server::{Server, Sink, Source};
use lsp_service::{LanguageServer, LspService, pump};
use lsp_session::Handlers;
use lsp_shared::DeskOwner;
use lsp_talk::{Open, talk_with};
use std::alloc::Global;
use std::sync::Wait;
use std::thread::Threads;

/// Runs the program over a source, a sink and an owner's seat of a shared desk, and answers the
/// source, its exit status and the owner.
///
/// With no arguments, or with `serve`, it serves a [`Sample`] to the end of input or the first
/// `exit`: at most 4 calls are polled at a time, in 8 rounds after each message. `serve MAX ROUNDS`
/// sets these two numbers. `docs` serves a [`DocsServer`] so, and reads floats and lets in empty
/// params, as editors send them. `pump MAX ROUNDS` serves a [`Sample`] while a thread of its own
/// reads: where input waits, calls go on and what they ask goes out; it may wait for the source.
/// `bulk SEED COUNT` reads nothing: it serves a made-up session of COUNT messages in memory, as
/// `serve` does, and writes one line that sums up what the server wrote. `talk CLONES MESSAGES`
/// reads nothing: it is [`talk_with`] so many clones, each of which sends so many messages. With
/// other arguments nothing is read or written.
pub fn run<'a, R: Threads + Wait + Sync, I: Source + Send + Drop + 'static, O: Sink>(
    rt: &'a R,
    alloc: Global,
    arguments: &Vec<String>,
    owner: DeskOwner<'a, R>,
    mut source: I,
    sink: &mut O,
) -> (I, u8, DeskOwner<'a, R>)
    requires new { IsNew (seat_view owner) }
    requires opening { IsOpening seat_meaning owner }
    ensures known { result.1 ≤ 7 }
    ensures usage { (result.1 ≡ 2) ↔ (form_asked arguments.now.items ≡ None) }
    ensures untouched { form_asked arguments.now.items ≡ None → (result.0 ≡ source)
        × (sink.new ≡ sink.old) × (seat_view result.2 ≡ seat_view owner.entry) }

    // What is written is a session over all the source's bytes; a summary; or a line of a history.
    ensures serving { WhereServing arguments.now.items (I.left source) (λ setting bytes.
        ServesSample ⟦<LspService<Sample> as Handlers<PlainDesk>>⟧.semantics setting
        (call_bytes bytes (I.left result.0) (O.taken sink.old) (O.taken sink.new)) result.1) }
    ensures docs { WhereDocs arguments.now.items (I.left source) (λ bytes.
        ServesDocs ⟦<LspService<DocsServer> as Handlers<PlainDesk>>⟧.semantics
        (call_bytes bytes (I.left result.0) (O.taken sink.old) (O.taken sink.new)) result.1) }
    ensures pumped { WherePumping arguments.now.items (I.left source) (λ setting bytes.
        PumpsSample ⟦<LspService<Sample> as Handlers<PlainDesk>>⟧.semantics setting
        (call_bytes bytes (I.left result.0) (O.taken sink.old) (O.taken sink.new))
        (I.faults source) (I.faults result.0) result.1) }
    ensures bulk { WhereMadeUp arguments.now.items (λ session. EndsBulk
        ⟦<LspService<Sample> as Handlers<PlainDesk>>⟧.semantics session source result.0
        (O.taken sink.old) (O.taken sink.new) (O.faults sink.old) (O.faults sink.new) result.1) }
    ensures talk { WhereTalking arguments.now.items (λ clones. EndsTalking clones source result.0
        sink.old sink.new (O.taken sink.old) (O.taken sink.new) (seat_view result.2) result.1) }
    ensures told { ToldByForm (form_asked arguments.now.items) (I.left source) (I.faults source)
        (I.faults result.0) (O.faults sink.old) (O.faults sink.new) (O.taken sink.old)
        (O.flushed sink.old) (O.taken sink.new) (O.flushed sink.new) result.1 }
    ensures desk_spent { result.1 ≡ 7 → seat_meaning.spent result.2 ≡ true }
    ensures same { seat_desk result.2 ≡ seat_desk owner.entry }
    ensures unused { WhereOther arguments.now.items (seat_view result.2 ≡ seat_view owner.entry) }
{
    match read_arguments(arguments) {
        Some(Form::Serve(setting)) => {
            let status = serve(alloc, setting, &mut source, sink);
            (source, status, owner)
        }
        Some(Form::Docs) => {
            let status = serve_docs(alloc, &mut source, sink);
            (source, status, owner)
        }
        Some(Form::Pump(setting)) => {
            let (source, status) = serve_pumped(rt, alloc, setting, source, sink);
            (source, status, owner)
        }
        Some(Form::Bulk(session)) => (source, bulk(alloc, session, sink), owner),
        Some(Form::Talk(clones)) => {
            let (status, owner) = talk_with(
                rt,
                alloc,
                clones.count,
                clones.messages,
                owner,
                &Open,
                sink,
            );
            (source, status, owner)
        }
        None => (source, Status::Usage as u8, owner),
    }
}

// Serves the sample over a new desk. But for the calls and the rounds all is as in a new server.
pub(crate) fn serve<I: Source, O: Sink>(
    alloc: Global,
    setting: Setting,
    source: &mut I,
    sink: &mut O,
) -> u8
    requires positive { (1 ≤ setting.max) × (1 ≤ setting.rounds) }
    ensures known { (result ≤ 6) × (result ≢ 2) }
    ensures session { IfSome (I.left source.old) (λ bytes. ServesSample
        ⟦<LspService<Sample> as Handlers<PlainDesk>>⟧.semantics setting
        (call_bytes bytes (I.left source.new) (O.taken sink.old) (O.taken sink.new)) result) }
    ensures told { ToldByStatus (I.left source.old) NeverUnread (I.faults source.old)
        (I.faults source.new) (O.faults sink.old) (O.faults sink.new) (O.taken sink.old)
        (O.flushed sink.old) (O.taken sink.new) (O.flushed sink.new) result }
{
    match sample_service(alloc, new_desk(alloc)) {
        Ok((service, socket)) => {
            let server = Server::new(socket).concurrency_level(setting.max);
            serve_service(alloc, source, sink, service, server, setting.rounds)
        }
        Err(_) => Status::NoMemory as u8,
    }
}

// The same, while a thread reads.
fn serve_pumped<R: Threads + Wait, I: Source + Send + Drop + 'static, O: Sink>(
    rt: &R,
    alloc: Global,
    setting: Setting,
    source: I,
    sink: &mut O,
) -> (I, u8)
    requires positive { (1 ≤ setting.max) × (1 ≤ setting.rounds) }
    ensures known { (result.1 ≤ 6) × (result.1 ≢ 2) }
    ensures session { IfSome (I.left source) (λ bytes. PumpsSample
        ⟦<LspService<Sample> as Handlers<PlainDesk>>⟧.semantics setting
        (call_bytes bytes (I.left result.0) (O.taken sink.old) (O.taken sink.new))
        (I.faults source) (I.faults result.0) result.1) }
    ensures told { ToldByStatus (I.left source) EndsUnread (I.faults source) (I.faults result.0)
        (O.faults sink.old) (O.faults sink.new) (O.taken sink.old) (O.flushed sink.old)
        (O.taken sink.new) (O.flushed sink.new) result.1 }
{
    match sample_service(alloc, new_desk(alloc)) {
        Ok((service, socket)) => {
            let server = Server::new(socket).concurrency_level(setting.max);
            pump(rt, alloc, source, sink, service, server, setting.rounds)
        }
        Err(_) => (source, Status::NoMemory as u8),
    }
}

// Serves the document server over a new desk. It reads floats and lets in empty params.
fn serve_docs<I: Source, O: Sink>(alloc: Global, source: &mut I, sink: &mut O) -> u8
    ensures known { (result ≤ 6) × (result ≢ 2) }
    ensures session { IfSome (I.left source.old) (λ bytes. ServesDocs
        ⟦<LspService<DocsServer> as Handlers<PlainDesk>>⟧.semantics
        (call_bytes bytes (I.left source.new) (O.taken sink.old) (O.taken sink.new)) result) }
    ensures told { ToldByStatus (I.left source.old) NeverUnread (I.faults source.old)
        (I.faults source.new) (O.faults sink.old) (O.faults sink.new) (O.taken sink.old)
        (O.flushed sink.old) (O.taken sink.new) (O.flushed sink.new) result }
{
    match docs_service(alloc, new_desk(alloc)) {
        Ok((service, socket)) => {
            let server = Server::new(socket)
                .floats(Floats::Read)
                .allow_empty_params();
            serve_service(alloc, source, sink, service, server, DEFAULT.rounds)
        }
        Err(NoMemory) => Status::NoMemory as u8,
    }
}

// Serves a service over a desk that nobody else uses.
fn serve_service<I: Source, O: Sink, S: LanguageServer<PlainDesk>>(
    alloc: Global,
    source: &mut I,
    sink: &mut O,
    service: LspService<S>,
    server: Server<PlainDesk>,
    rounds: u64,
) -> u8
    requires rounds { 1 ≤ rounds }
    requires opening { IsOpening plain_meaning (server_desk server) }
    ensures known { (result ≤ 6) × (result ≢ 2) }
    ensures session { IfSome (I.left source.old) (λ bytes. EndsWith
        (course ⟦<LspService<S> as Handlers<PlainDesk>>⟧.semantics plain_meaning in_order
        (server_setting server service tt rounds))
        (call_bytes bytes (I.left source.new) (O.taken sink.old) (O.taken sink.new)) result) }
    ensures told { ToldByStatus (I.left source.old) NeverUnread (I.faults source.old)
        (I.faults source.new) (O.faults sink.old) (O.faults sink.new) (O.taken sink.old)
        (O.flushed sink.old) (O.taken sink.new) (O.flushed sink.new) result }
{
    lsp_service::serve(alloc, source, sink, service, server, rounds)
}

// A desk of one's own.
pub(crate) fn new_desk(alloc: Global) -> PlainDesk
    ensures { IsOpening plain_meaning result }
{
    PlainDesk::new(alloc)
}
