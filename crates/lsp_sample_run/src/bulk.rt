//! A made-up session that is served in memory, and its summary.
ghost use Rattle.std.specs.Prelude.{◌≡◌, ◌⊎◌, ◌≤◌, ◌<◌, ◌+◌, ◌++◌, IfOk, OnOk, OnErr, IsOk, Some, None, is_some, string_bytes, count_by};
ghost use Rattle.lsp_rpc.specs.Shown.{show_message};
ghost use Rattle.lsp_sample_run.specs.Tally.{IsCounted};
ghost use Rattle.lsp_frame.specs.Codec.{shown, message as message_item};
ghost use Rattle.lsp_frame.specs.Frames.{framed};
ghost use Rattle.lsp_server.specs.SourceSink.{CountRose, IsFlushed};
ghost use Rattle.lsp_sample_run.specs.Bulk.{next_drawn, body_of, bodies, echo_text, wait_text, unknown_text as unknown_text_def, unknown_command as unknown_command_def, shutdown as shutdown_def, generated, read_of, is_reply, is_error, is_own, summary as summary_def, IsSummary, WroteSummary, WroteSome};

use crate::arguments::{DEFAULT, MadeUp};
use crate::program::serve;
use lsp_desk::PlainDesk;
use lsp_frame::{Decoded, LanguageServerCodec};
use lsp_program::Status;
use lsp_rpc::{Message, NoMemory};
use lsp_sample_server::Sample;
use lsp_server::{NeverSink, NeverSource, Sink};
use lsp_service::LspService;
use lsp_session::Handlers;
use lsp_talk::write_line;
use std::alloc::Global;

const INITIALIZE: &str =
    "{\"jsonrpc\":\"2.0\",\"method\":\"initialize\",\"params\":{\"capabilities\":{}},\"id\":0}";

const INITIALIZED: &str = "{\"jsonrpc\":\"2.0\",\"method\":\"initialized\",\"params\":{}}";

const EXIT: &str = "{\"jsonrpc\":\"2.0\",\"method\":\"exit\"}";

/// How many bytes of the session are read at a time.
const READ_SIZE: usize = 4096;

/// Serves the session in memory, writes its summary, and answers the exit status.
pub(crate) fn bulk<O: Sink>(alloc: Global, session: MadeUp, sink: &mut O) -> u8
    requires { session.count ≤ 100000 }
    ensures known { (result ≡ 0) ⊎ (result ≡ 4) ⊎ (result ≡ 6) }
    ensures wrote { result ≡ 0 → WroteSummary
        ⟦<LspService<Sample> as Handlers<PlainDesk>>⟧.semantics session (O.taken sink.old)
        (O.taken sink.new) }
    ensures part { 3 ≤ result → WroteSome
        ⟦<LspService<Sample> as Handlers<PlainDesk>>⟧.semantics session (O.taken sink.old)
        (O.taken sink.new) }
    ensures flushed { result ≡ 0 → IsFlushed (O.taken sink.old) (O.flushed sink.old)
        → IsFlushed (O.taken sink.new) (O.flushed sink.new) }
    ensures write { result ≡ 4 → CountRose (O.faults sink.old) (O.faults sink.new) }
    ensures write_told { O.faults sink.old < O.faults sink.new → result ≡ 4 }
{
    match served_summary(alloc, session) {
        Ok(line) => write_line(sink, line.as_bytes()),
        Err(NoMemory) => Status::NoMemory as u8,
    }
}

// The summary of the session, which is served in memory.
fn served_summary(alloc: Global, session: MadeUp) -> Result<String, NoMemory>
    requires { session.count ≤ 100000 }
    ensures { IfOk result (λ line. IsSummary
        ⟦<LspService<Sample> as Handlers<PlainDesk>>⟧.semantics session (string_bytes line)) }
{
    let input = generate(alloc, session)?;
    let mut source = NeverSource::new(input, READ_SIZE);
    let mut output = NeverSink::new(alloc);
    if serve(alloc, DEFAULT, &mut source, &mut output) > 1 {
        return Err(NoMemory);
    }
    summary(alloc, output.bytes())
}

// The bytes of a made-up session.
fn generate(alloc: Global, session: MadeUp) -> Result<Vec<u8>, NoMemory>
    requires { session.count ≤ 100000 }
    ensures { IfOk result (λ input. input.items ≡ generated session) }
{
    let mut input = Vec::new(alloc);
    push_frame(alloc, &mut input, INITIALIZE)?;
    push_messages(alloc, &mut input, session)?;
    let last = shutdown(alloc, session.count + 1)?;
    push_text(alloc, &mut input, last)?;
    push_frame(alloc, &mut input, EXIT)?;
    Ok(input)
}

// Appends the frames of the messages between `initialize` and `shutdown`.
fn push_messages(alloc: Global, input: &mut Vec<u8>, session: MadeUp) -> Result<(), NoMemory>
    ensures { OnOk result (input.new.items ≡ input.old.items ++ bodies session.seed session.count) }
{
    let mut x = session.seed % 2147483648;
    for k in 0..session.count {
        x = next(x);
        push_message(alloc, input, k + 1, x)?;
    }
    Ok(())
}

// The number after this one in the drawing.
fn next(x: u64) -> u64
    requires { x < 2147483648 }
    ensures value { result ≡ next_drawn x }
    ensures small { result < 2147483648 }
{
    (x * 1103515245 + 12345) % 2147483648
}

// Appends the frame of the k-th message, where x was drawn for it.
fn push_message(alloc: Global, input: &mut Vec<u8>, k: u64, x: u64) -> Result<(), NoMemory>
    ensures { OnOk result (input.new.items ≡ input.old.items ++ framed (body_of k x)) }
{
    match x / 65536 % 5 {
        0 => push_text(alloc, input, echo(alloc, k)?),
        1 => push_text(alloc, input, wait(alloc, k, x % 4)?),
        2 => push_text(alloc, input, unknown_method(alloc, k)?),
        3 => push_text(alloc, input, unknown_command(alloc, k)?),
        _ => push_frame(alloc, input, INITIALIZED),
    }
}

fn push_text(alloc: Global, input: &mut Vec<u8>, body: String) -> Result<(), NoMemory>
    ensures { OnOk result (input.new.items ≡ input.old.items ++ framed (string_bytes body)) }
{
    push_frame(alloc, input, body.as_str())
}

// Appends the body after its head.
fn push_frame(alloc: Global, input: &mut Vec<u8>, body: &str) -> Result<(), NoMemory>
    ensures { OnOk result (input.new.items ≡ input.old.items ++ framed body.now) }
{
    let len = body.len();
    let head = format!(in alloc; "Content-Length: {len}\r\n\r\n")?;
    input.extend_from_slice(head.as_bytes())?;
    input.extend_from_slice(body.as_bytes())?;
    Ok(())
}

fn echo(alloc: Global, k: u64) -> Result<String, NoMemory>
    ensures { IfOk result (λ body. string_bytes body ≡ echo_text k) }
{
    Ok(format!(in alloc;
        "{{\"jsonrpc\":\"2.0\",\"method\":\"workspace/executeCommand\",\"params\":{{\"command\":\"echo\",\"arguments\":[{k}]}},\"id\":{k}}}"
    )?)
}

fn wait(alloc: Global, k: u64, polls: u64) -> Result<String, NoMemory>
    ensures { IfOk result (λ body. string_bytes body ≡ wait_text k polls) }
{
    Ok(format!(in alloc;
        "{{\"jsonrpc\":\"2.0\",\"method\":\"workspace/executeCommand\",\"params\":{{\"command\":\"wait\",\"arguments\":[{polls}]}},\"id\":{k}}}"
    )?)
}

fn unknown_method(alloc: Global, k: u64) -> Result<String, NoMemory>
    ensures { IfOk result (λ body. string_bytes body ≡ unknown_text_def k) }
{
    Ok(format!(in alloc; "{{\"jsonrpc\":\"2.0\",\"method\":\"bulk/none\",\"id\":{k}}}")?)
}

fn unknown_command(alloc: Global, k: u64) -> Result<String, NoMemory>
    ensures { IfOk result (λ body. string_bytes body ≡ unknown_command_def k) }
{
    Ok(format!(in alloc;
        "{{\"jsonrpc\":\"2.0\",\"method\":\"workspace/executeCommand\",\"params\":{{\"command\":\"none\"}},\"id\":{k}}}"
    )?)
}

fn shutdown(alloc: Global, k: u64) -> Result<String, NoMemory>
    ensures { IfOk result (λ body. string_bytes body ≡ shutdown_def k) }
{
    Ok(format!(in alloc; "{{\"jsonrpc\":\"2.0\",\"method\":\"shutdown\",\"id\":{k}}}")?)
}

// What is counted of the messages that a server wrote.
#[derive(Drop)]
struct Tally {
    replies: u64,
    errors: u64,
    own: u64,
}

// The summary of what a server wrote.
fn summary(alloc: Global, written: &[u8]) -> Result<String, NoMemory>
    ensures { IfOk result (λ line. string_bytes line ≡ summary_def written.now) }
{
    let Tally {
        replies,
        errors,
        own,
    } = count_all(alloc, written)?;
    let bytes = written.len();
    Ok(format!(in alloc; "replies {replies} errors {errors} messages {own} bytes {bytes}\n")?)
}

// Counts the messages that an editor reads of the bytes.
fn count_all(alloc: Global, written: &[u8]) -> Result<Tally, NoMemory>
    ensures replies { IfOk result (λ tally. tally.replies
        ≡ count_by is_reply (read_of written.now)) }
    ensures errors { IfOk result (λ tally. tally.errors ≡ count_by is_error (read_of written.now)) }
    ensures own { IfOk result (λ tally. tally.own ≡ count_by is_own (read_of written.now)) }
{
    let mut codec = LanguageServerCodec::default(alloc);
    codec.feed(written)?;
    let mut tally = Tally {
        replies: 0,
        errors: 0,
        own: 0,
    };
    'items: while count_next(&mut tally, codec.decode()?)? {}
    Ok(tally)
}

// Counts what was told, and says whether anything was.
fn count_next(tally: &mut Tally, told: Decoded) -> Result<bool, NoMemory>
    ensures told { IfOk result (λ some. some ≡ is_some (shown told)) }
    ensures counted { OnOk result (IsCounted tally.old (shown told) tally.new) }
    // Where nothing was told, no memory is taken.
    ensures memory { shown told ≡ None → IsOk result }
{
    let some = count_told(tally, &told);
    drop(told);
    some
}

// The same, over what goes on.
fn count_told(tally: &mut Tally, told: &Decoded) -> Result<bool, NoMemory>
    ensures told { IfOk result (λ some. some ≡ is_some (shown told.now)) }
    ensures counted { OnOk result (IsCounted tally.old (shown told.now) tally.new) }
    ensures memory { shown told.now ≡ None → IsOk result }
{
    match told {
        Decoded::Item(message) => {
            count(tally, message)?;
            Ok(true)
        }
        Decoded::Fault(_) => Ok(true),
        Decoded::More => Ok(false),
    }
}

// Counts one message more.
fn count(tally: &mut Tally, message: &Message) -> Result<(), NoMemory>
    ensures { OnOk result
        (IsCounted tally.old (Some (message_item (show_message message.now))) tally.new) }
{
    match message {
        Message::Response(response) => {
            tally.replies = one_more(tally.replies)?;
            if response.is_error() {
                tally.errors = one_more(tally.errors)?;
            }
        }
        Message::Request(_) => tally.own = one_more(tally.own)?,
    }
    Ok(())
}

fn one_more(count: u64) -> Result<u64, NoMemory>
    ensures { IfOk result (λ more. more ≡ count + 1) }
{
    count.checked_add(1).ok_or(NoMemory)
}
