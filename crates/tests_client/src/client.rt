//! What a server asks of its client, over a desk.
use crate::asked::{answer, answered, asked, read, serve, told};
use lsp_base::Diagnostic;
use lsp_client::{Answered, Asked, Client, Ticket, Told};
use lsp_desk::{DeskFault, Life, PlainDesk, ServerCall};
use lsp_kinds::MessageType;
use lsp_methods::notification::Progress;
use lsp_methods::request::{HoverRequest, WorkspaceFoldersRequest};
use lsp_rows::{RowError, Trial};
use lsp_shape::Misfit;
use std::alloc::Global;

// A step of a test, with the text of its params where it has any.
#[derive(Clone, Copy)]
enum Step {
    Rise(Life),
    Close,
    // An answer of the client.
    Answer(&'static str),
    // The first message that is to be sent.
    Next,
    Folders,
    PollFolders,
    Call(Call),
}

// A call of a client.
#[derive(Clone, Copy)]
enum Call {
    Register(&'static str),
    Unregister(&'static str),
    ShowMessage(&'static str),
    LogMessage(&'static str),
    ShowMessageRequest(&'static str),
    ShowDocument(&'static str),
    Telemetry(&'static str),
    Refresh,
    Publish(&'static str),
    Configuration(&'static str),
    ApplyEdit(&'static str),
    Hover(&'static str),
    Progress(&'static str),
    NextId,
}

fn send_message<D: Client>(alloc: Global, desk: &mut D, call: Call) -> Result<String, Misfit> {
    let made = match call {
        Call::ShowMessage(message) => desk.show_message(alloc, MessageType::LOG, message),
        Call::LogMessage(message) => desk.log_message(alloc, MessageType::ERROR, message),
        Call::Telemetry(event) => desk.telemetry_event(alloc, read(alloc, event)?),
        Call::Publish(diagnostics) => publish(alloc, desk, diagnostics)?,
        Call::Progress(params) => {
            desk.send_notification::<Progress>(alloc, read(alloc, params)?)
        }
        _ => Err(DeskFault::NoMemory),
    };
    told(alloc, made)
}

fn publish<D: Client>(
    alloc: Global,
    desk: &mut D,
    diagnostics: &str,
) -> Result<Result<Told, DeskFault>, Misfit> {
    let uri = read(alloc, "\"file:///a\"")?;
    let diagnostics: Vec<Diagnostic> = read(alloc, diagnostics)?;
    Ok(desk.publish_diagnostics(alloc, uri, diagnostics, Some(7)))
}

fn ask_of_window<D: Client>(alloc: Global, desk: &mut D, call: Call) -> Result<String, Misfit> {
    match call {
        Call::Register(registrations) => {
            let made = desk.register_capability(alloc, read(alloc, registrations)?);
            asked(alloc, made)
        }
        Call::Unregister(registrations) => {
            let made = desk.unregister_capability(alloc, read(alloc, registrations)?);
            asked(alloc, made)
        }
        Call::ShowMessageRequest(actions) => {
            let actions = read(alloc, actions)?;
            let made = desk.show_message_request(alloc, MessageType::INFO, "which", actions);
            asked(alloc, made)
        }
        Call::ShowDocument(params) => {
            let made = desk.show_document(alloc, read(alloc, params)?);
            asked(alloc, made)
        }
        other => send_message(alloc, desk, other),
    }
}

fn make<D: Client>(alloc: Global, desk: &mut D, call: Call) -> Result<String, Misfit> {
    match call {
        Call::Refresh => asked(alloc, desk.inlay_hint_refresh(alloc)),
        Call::Configuration(items) => {
            let made = desk.configuration(alloc, read(alloc, items)?);
            asked(alloc, made)
        }
        Call::ApplyEdit(edit) => {
            let made = desk.apply_edit(alloc, read(alloc, edit)?);
            asked(alloc, made)
        }
        Call::Hover(params) => {
            let made = desk.send_request::<HoverRequest>(alloc, read(alloc, params)?);
            asked(alloc, made)
        }
        Call::NextId => {
            let drawn = desk.next_request_id();
            Ok(format!(in alloc; "{drawn:?}")?)
        }
        other => ask_of_window(alloc, desk, other),
    }
}

// A desk, and what was asked of the client through it.
#[derive(Drop)]
struct Tried {
    desk: PlainDesk,
    folders: Option<Ticket<WorkspaceFoldersRequest>>,
}

impl Tried {
    fn new(alloc: Global) -> Tried {
        Tried {
            desk: PlainDesk::new(alloc),
            folders: None,
        }
    }

    fn ask_folders(&mut self, alloc: Global) -> Result<String, Misfit> {
        match self.desk.workspace_folders(alloc) {
            Ok(Asked::Ticket(ticket)) => {
                self.folders = Some(ticket);
                Ok(String::from_str(alloc, "Ticket")?)
            }
            other => asked(alloc, other),
        }
    }

    fn poll_folders(&mut self, alloc: Global) -> Result<String, Misfit> {
        match self.folders.take() {
            None => Ok(String::from_str(alloc, "no ticket")?),
            Some(ticket) => match self.desk.poll_answer(alloc, ticket) {
                Ok(Answered::Pending(ticket)) => {
                    self.folders = Some(ticket);
                    Ok(String::from_str(alloc, "Pending")?)
                }
                other => answered(alloc, other),
            },
        }
    }

    fn step(&mut self, alloc: Global, step: Step) -> Result<String, Misfit> {
        match step {
            Step::Rise(life) => serve(alloc, &mut self.desk, ServerCall::Rise(life)),
            Step::Close => serve(alloc, &mut self.desk, ServerCall::Close),
            Step::Next => serve(alloc, &mut self.desk, ServerCall::Next),
            Step::Answer(text) => answer(alloc, &mut self.desk, text),
            Step::Folders => self.ask_folders(alloc),
            Step::PollFolders => self.poll_folders(alloc),
            Step::Call(call) => make(alloc, &mut self.desk, call),
        }
    }
}

// Makes the steps in turn, each of which has what comes of it beside it.
fn try_steps(alloc: Global, rows: &[(Step, &str)]) -> Result<(), RowError> {
    let mut trial = Trial::new(alloc);
    let mut tried = Tried::new(alloc);
    for (at, (step, expected)) in rows.iter().enumerate() {
        trial.text(
            format_args!("step {at}"),
            tried.step(alloc, *step),
            *expected,
        );
    }
    trial.end()
}

const ASKED_FOLDERS: &str =
    "{\"jsonrpc\":\"2.0\",\"method\":\"workspace/workspaceFolders\",\"params\":null,\"id\":0}";

const FOLDERS: &[(Step, &str)] = &[
    (Step::Folders, "Refused(-32002)"),
    (Step::Rise(Life::Initialized), "Done"),
    (Step::Folders, "Ticket"),
    (Step::PollFolders, "Pending"),
    (Step::Next, ASKED_FOLDERS),
    (Step::Next, "First(None)"),
    (
        Step::Answer("{\"jsonrpc\":\"2.0\",\"result\":null,\"id\":0}"),
        "Given",
    ),
    (Step::PollFolders, "null"),
    (Step::PollFolders, "no ticket"),
];

#[test]
fn folders(rt: HostRuntime) -> Result<(), RowError> {
    try_steps(rt.alloc(), FOLDERS)
}

const ANSWERS: &[(Step, &str)] = &[
    (Step::Rise(Life::Initialized), "Done"),
    (Step::Folders, "Ticket"),
    (
        Step::Answer("{\"jsonrpc\":\"2.0\",\"result\":7,\"id\":0}"),
        "Given",
    ),
    (Step::PollFolders, "Error(-32700)"),
    (Step::Folders, "Ticket"),
    (
        Step::Answer(
            "{\"jsonrpc\":\"2.0\",\"error\":{\"code\":-32601,\"message\":\"x\"},\"id\":1}",
        ),
        "Given",
    ),
    (Step::PollFolders, "Error(-32601)"),
    (Step::Folders, "Ticket"),
    (
        Step::Answer(
            "{\"jsonrpc\":\"2.0\",\"result\":[{\"uri\":\"file:///w\",\"name\":\"w\"}],\"id\":2}",
        ),
        "Given",
    ),
    (
        Step::PollFolders,
        "[{\"name\":\"w\",\"uri\":\"file:///w\"}]",
    ),
    (Step::Close, "Messages"),
    (Step::Folders, "Refused(-32002)"),
];

#[test]
fn answers(rt: HostRuntime) -> Result<(), RowError> {
    try_steps(rt.alloc(), ANSWERS)
}

const TELEMETRY: &[(Step, &str)] = &[
    (Step::Call(Call::Telemetry("null")), "Sent"),
    (
        Step::Next,
        "{\"jsonrpc\":\"2.0\",\"method\":\"telemetry/event\",\"params\":null}",
    ),
    (Step::Call(Call::Telemetry("[1,2,3]")), "Sent"),
    (
        Step::Next,
        "{\"jsonrpc\":\"2.0\",\"method\":\"telemetry/event\",\"params\":[1,2,3]}",
    ),
    (Step::Call(Call::Telemetry("{}")), "Sent"),
    (
        Step::Next,
        "{\"jsonrpc\":\"2.0\",\"method\":\"telemetry/event\",\"params\":{}}",
    ),
    (Step::Call(Call::Telemetry("\"hello\"")), "Sent"),
    (
        Step::Next,
        "{\"jsonrpc\":\"2.0\",\"method\":\"telemetry/event\",\"params\":[\"hello\"]}",
    ),
    (Step::Next, "First(None)"),
    (Step::Close, "Messages"),
    (Step::Call(Call::Telemetry("null")), "Exited"),
];

#[test]
fn telemetry(rt: HostRuntime) -> Result<(), RowError> {
    try_steps(rt.alloc(), TELEMETRY)
}

const HELD_BACK: &[(Step, &str)] = &[
    (Step::Call(Call::Publish("[]")), "Suppressed"),
    (Step::Call(Call::Configuration("[]")), "Refused(-32002)"),
    (Step::Call(Call::ApplyEdit("{}")), "Refused(-32002)"),
    (Step::Call(Call::Register("[]")), "Refused(-32002)"),
    (Step::Call(Call::Unregister("[]")), "Refused(-32002)"),
    (
        Step::Call(Call::ShowDocument("{\"uri\":\"file:///a\"}")),
        "Refused(-32002)",
    ),
    (Step::Call(Call::Refresh), "Refused(-32002)"),
    (
        Step::Call(Call::Progress("{\"token\":1,\"value\":{\"kind\":\"end\"}}")),
        "Suppressed",
    ),
    (Step::Next, "First(None)"),
];

#[test]
fn held_back(rt: HostRuntime) -> Result<(), RowError> {
    try_steps(rt.alloc(), HELD_BACK)
}

// What holds a float isn't sent.
const FLOATS: &[(Step, &str)] = &[
    (Step::Rise(Life::Initialized), "Done"),
    (Step::Call(Call::Telemetry("1.5")), "Suppressed"),
    (
        Step::Call(Call::Register("[{\"id\":\"r\",\"method\":\"m\",\"registerOptions\":1.5}]")),
        "Refused(-32603)",
    ),
    (Step::Next, "First(None)"),
];

#[test]
fn floats_stay(rt: HostRuntime) -> Result<(), RowError> {
    try_steps(rt.alloc(), FLOATS)
}

const PUT_OUT: &[(Step, &str)] = &[
    (Step::Rise(Life::Initialized), "Done"),
    (Step::Call(Call::LogMessage("a")), "Sent"),
    (
        Step::Next,
        "{\"jsonrpc\":\"2.0\",\"method\":\"window/logMessage\",\"params\":{\"message\":\"a\",\"type\":1}}",
    ),
    (Step::Call(Call::Publish("[]")), "Sent"),
    (
        Step::Next,
        "{\"jsonrpc\":\"2.0\",\"method\":\"textDocument/publishDiagnostics\",\"params\":{\"diagnostics\":[],\"uri\":\"file:///a\",\"version\":7}}",
    ),
    (
        Step::Call(Call::Configuration("[{\"section\":\"s\"}]")),
        "Ticket",
    ),
    (
        Step::Next,
        "{\"jsonrpc\":\"2.0\",\"method\":\"workspace/configuration\",\"params\":{\"items\":[{\"section\":\"s\"}]},\"id\":0}",
    ),
    (Step::Call(Call::ApplyEdit("{}")), "Ticket"),
    (
        Step::Next,
        "{\"jsonrpc\":\"2.0\",\"method\":\"workspace/applyEdit\",\"params\":{\"edit\":{}},\"id\":1}",
    ),
    (
        Step::Call(Call::Register("[{\"id\":\"r\",\"method\":\"m\"}]")),
        "Ticket",
    ),
    (
        Step::Next,
        "{\"jsonrpc\":\"2.0\",\"method\":\"client/registerCapability\",\"params\":{\"registrations\":[{\"id\":\"r\",\"method\":\"m\"}]},\"id\":2}",
    ),
    (
        Step::Call(Call::Unregister("[{\"id\":\"r\",\"method\":\"m\"}]")),
        "Ticket",
    ),
    (
        Step::Next,
        "{\"jsonrpc\":\"2.0\",\"method\":\"client/unregisterCapability\",\"params\":{\"unregisterations\":[{\"id\":\"r\",\"method\":\"m\"}]},\"id\":3}",
    ),
    (
        Step::Call(Call::ShowMessageRequest("[{\"title\":\"t\"}]")),
        "Ticket",
    ),
    (
        Step::Next,
        "{\"jsonrpc\":\"2.0\",\"method\":\"window/showMessageRequest\",\"params\":{\"actions\":[{\"title\":\"t\"}],\"message\":\"which\",\"type\":3},\"id\":4}",
    ),
    (
        Step::Call(Call::ShowDocument("{\"uri\":\"file:///a\"}")),
        "Ticket",
    ),
    (
        Step::Next,
        "{\"jsonrpc\":\"2.0\",\"method\":\"window/showDocument\",\"params\":{\"uri\":\"file:///a\"},\"id\":5}",
    ),
    (Step::Call(Call::Refresh), "Ticket"),
    (
        Step::Next,
        "{\"jsonrpc\":\"2.0\",\"method\":\"workspace/inlayHint/refresh\",\"params\":null,\"id\":6}",
    ),
    (
        Step::Call(Call::Hover(
            "{\"textDocument\":{\"uri\":\"file:///a\"},\"position\":{\"line\":1,\"character\":2}}",
        )),
        "Ticket",
    ),
    (
        Step::Next,
        "{\"jsonrpc\":\"2.0\",\"method\":\"textDocument/hover\",\"params\":{\"position\":{\"character\":2,\"line\":1},\"textDocument\":{\"uri\":\"file:///a\"}},\"id\":7}",
    ),
    (
        Step::Call(Call::Progress("{\"token\":1,\"value\":{\"kind\":\"end\"}}")),
        "Sent",
    ),
    (
        Step::Next,
        "{\"jsonrpc\":\"2.0\",\"method\":\"$/progress\",\"params\":{\"token\":1,\"value\":{\"kind\":\"end\"}}}",
    ),
    (Step::Call(Call::NextId), "Ok(Number(8))"),
    (Step::Next, "First(None)"),
];

#[test]
fn put_out(rt: HostRuntime) -> Result<(), RowError> {
    try_steps(rt.alloc(), PUT_OUT)
}
