// Commands.
ghost use Rattle.std.specs.Prelude.{◌≡◌, [], string_bytes};
ghost use Rattle.lsp_base.specs.Command.{command_row};

use lsp_shape::{Misfit, NoMemory, Optional, Required, Wire, Writer, read_object};
use serde_json::Value;
use std::alloc::Global;

/// A command that a client offers to the user (LSP 3.17, "Command").
#[derive(Debug, PartialEq, Clone, Drop)]
pub struct Command {
    /// The title that the user sees, such as `Save`.
    pub title: String,
    /// The identifier of the command.
    pub command: String,
    /// The arguments to execute it with. Absent: none.
    pub arguments: Option<Vec<Value>>,
}

impl Command {
    /// The command with that title and these arguments.
    pub fn new(title: String, command: String, arguments: Option<Vec<Value>>) -> Command
        ensures { result ≡ record { title = title; command = command; arguments = arguments } }
    {
        Command {
            title,
            command,
            arguments,
        }
    }

    /// A command whose strings are empty, without arguments.
    pub fn default(alloc: Global) -> Command
        ensures title { string_bytes result.title ≡ [] }
        ensures command { string_bytes result.command ≡ [] }
        ensures arguments { result.arguments ≡ None }
    {
        Command::new(String::new(alloc), String::new(alloc), None)
    }
}

#[tactic(auto, unfolding(crate::specs::Command::command_row))]
impl Wire for Command {
    ghost shape = { command_row.shape };

    ghost shown = { command_row.shown };

    fn from_value(alloc: Global, value: &Value) -> Result<Command, Misfit> {
        let (title, command, arguments) = read_object(
            alloc,
            value,
            (
                Required("title"),
                Required("command"),
                Optional("arguments"),
            ),
        )?;
        Ok(Command {
            title,
            command,
            arguments,
        })
    }

    fn to_value(&self, alloc: Global) -> Result<Value, NoMemory> {
        let mut object = Writer::new(alloc);
        object.field("title", &self.title);
        object.field("command", &self.command);
        object.optional("arguments", &self.arguments);
        object.end()
    }
}
