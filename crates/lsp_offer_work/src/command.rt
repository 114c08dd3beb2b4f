// Commands.
ghost use Rattle.std.specs.Prelude.{◌≡◌, None, []};
ghost use Rattle.lsp_offer_work.specs.Command.{execute_command_options_row, execute_command_registration_options_row};

use lsp_names::WorkDoneProgressOptions;
use lsp_shape::{Flat, Misfit, NoMemory, Required, Wire, Writer, flat, read_object};
use serde_json::Value;
use std::alloc::Global;

/// The commands that a server executes on `workspace/executeCommand`, as the capability
/// `executeCommandProvider` (LSP 3.17, "Execute a command").
#[derive(Debug, PartialEq, Eq, Clone, Drop)]
pub struct ExecuteCommandOptions {
    /// The identifiers of the commands, which `workspace/executeCommand` has in `command`.
    pub commands: Vec<String>,
    /// Whether the server can report progress on the request.
    pub work_done_progress_options: WorkDoneProgressOptions,
}

impl ExecuteCommandOptions {
    /// No commands, and it isn't stated whether progress is reported.
    pub fn default(alloc: Global) -> ExecuteCommandOptions
        ensures commands { result.commands.items ≡ [] }
        ensures progress { result.work_done_progress_options.work_done_progress ≡ None }
    {
        ExecuteCommandOptions {
            commands: Vec::new(alloc),
            work_done_progress_options: WorkDoneProgressOptions::default(),
        }
    }
}

#[tactic(auto, unfolding(crate::specs::Command::execute_command_options_row, lsp_names::specs::Progress::work_done_progress_options_row))]
impl Wire for ExecuteCommandOptions {
    ghost shape = { execute_command_options_row.shape };

    ghost shown = { execute_command_options_row.shown };

    fn from_value(alloc: Global, value: &Value) -> Result<ExecuteCommandOptions, Misfit> {
        let (commands, work_done_progress_options) = read_object(
            alloc,
            value,
            (Required("commands"), Flat),
        )?;
        Ok(ExecuteCommandOptions {
            commands,
            work_done_progress_options,
        })
    }

    fn to_value(&self, alloc: Global) -> Result<Value, NoMemory> {
        let mut object = Writer::new(alloc);
        object.field("commands", &self.commands);
        object.flat(&self.work_done_progress_options);
        object.end()
    }
}

/// Options for registering `workspace/executeCommand` while the server runs, with
/// `client/registerCapability` (LSP 3.17, "Execute a command").
#[derive(Debug, PartialEq, Eq, Clone, Drop)]
pub struct ExecuteCommandRegistrationOptions {
    /// The identifiers of the commands, which `workspace/executeCommand` has in `command`.
    pub commands: Vec<String>,
    /// Whether the server can report progress on the request.
    pub work_done_progress_options: WorkDoneProgressOptions,
}

#[tactic(auto, unfolding(crate::specs::Command::execute_command_registration_options_row, lsp_names::specs::Progress::work_done_progress_options_row))]
impl Wire for ExecuteCommandRegistrationOptions {
    ghost shape = { execute_command_registration_options_row.shape };

    ghost shown = { execute_command_registration_options_row.shown };

    fn from_value(
        alloc: Global,
        value: &Value,
    ) -> Result<ExecuteCommandRegistrationOptions, Misfit> {
        let (commands, work_done_progress_options) = read_object(
            alloc,
            value,
            (Required("commands"), Flat),
        )?;
        Ok(ExecuteCommandRegistrationOptions {
            commands,
            work_done_progress_options,
        })
    }

    fn to_value(&self, alloc: Global) -> Result<Value, NoMemory> {
        let mut object = Writer::new(alloc);
        object.field("commands", &self.commands);
        object.flat(&self.work_done_progress_options);
        object.end()
    }
}
