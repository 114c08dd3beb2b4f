// The commands of the server.
ghost use Rattle.std.specs.Prelude.{◌≡◌, map};
ghost use Rattle.serde_json.specs.View.{view};
ghost use Rattle.lsp_shape.specs.Plain.{no_parts, parts_of};
ghost use Rattle.lsp_shape.specs.Row.{any, maybe};
ghost use Rattle.lsp_shape.specs.Shown.{show_value};
ghost use Rattle.lsp_work.specs.Workspace.{execute_command_params_row};
ghost use Rattle.lsp_sample_server.specs.Command.{argument_in, command_in, command_of, of_argument, wait_of};

use lsp_work::ExecuteCommandParams;
use serde_json::Value;

/// What `workspace/executeCommand` asks for.
#[derive(Clone, Copy, Debug, PartialEq, Eq)]
pub enum Command {
    /// `echo` gives its one argument back.
    Echo,
    /// `wait` goes on for so many polls, and then gives their number.
    Wait(u64),
    /// `ask` gives the folders that the client has in its workspace.
    Ask,
    /// Another command, or other arguments.
    Unknown,
}

/// The most polls that a `wait` takes.
const MOST_POLLS: u64 = 1000;

/// The command that these params ask for.
#[tactic(auto, unfolding(lsp_work::specs::Workspace::execute_command_params_row))]
pub(crate) fn read_command(params: &ExecuteCommandParams) -> Command
    ensures { result ≡ command_in (execute_command_params_row.shown params.now) }
{
    named(params.command.as_str(), params.arguments.as_slice())
}

/// What `echo` gives back: the last of the arguments, of which it has one.
#[tactic(auto, unfolding(lsp_work::specs::Workspace::execute_command_params_row))]
pub(crate) fn echoed(params: ExecuteCommandParams) -> Option<Value>
    ensures { (maybe any).shown result ≡ argument_in (execute_command_params_row.shown params) }
{
    let mut arguments = params.arguments;
    arguments.pop()
}

// The command of that name with these arguments.
fn named(name: &str, arguments: &[Value]) -> Command
    ensures { result ≡ command_of name.now (parts_of (map show_value arguments.now)) }
{
    match arguments {
        [] => without_argument(name),
        [value] => with_argument(name, value),
        _ => Command::Unknown,
    }
}

// The same without arguments.
fn without_argument(name: &str) -> Command
    ensures { result ≡ command_of name.now no_parts }
{
    match name {
        "ask" => Command::Ask,
        _ => Command::Unknown,
    }
}

// The same with one argument.
fn with_argument(name: &str, argument: &Value) -> Command
    ensures { result ≡ of_argument name.now (view argument.now) }
{
    match name {
        "echo" => Command::Echo,
        "wait" => wait(argument.as_u64()),
        _ => Command::Unknown,
    }
}

fn wait(polls: Option<u64>) -> Command
    ensures { result ≡ wait_of polls }
{
    match polls {
        Some(polls) if polls <= MOST_POLLS => Command::Wait(polls),
        _ => Command::Unknown,
    }
}
