// What a server offers to tell of work in progress, of section "Work Done Progress".
ghost use Rattle.lsp_names.specs.Progress.{work_done_progress_options_row};

use lsp_shape::{Misfit, Optional, Wire, Writer, read_object};
use no_memory::NoMemory;
use serde_json::Value;
use std::alloc::Global;

/// Whether a server reports work done progress for its requests, where the client sends a token.
/// Since 3.15 (LSP 3.17, "Client Initiated Progress").
#[derive(Clone, Copy, Debug, PartialEq, Eq, Default)]
pub struct WorkDoneProgressOptions {
    /// Whether it does. Absent: it doesn't.
    pub work_done_progress: Option<bool>,
}

#[tactic(auto, unfolding(crate::specs::Progress::work_done_progress_options_row))]
impl Wire for WorkDoneProgressOptions {
    ghost shape = { work_done_progress_options_row.shape };

    ghost shown = { work_done_progress_options_row.shown };

    fn from_value(alloc: Global, value: &Value) -> Result<WorkDoneProgressOptions, Misfit> {
        let work_done_progress = read_object(alloc, value, Optional("workDoneProgress"))?;
        Ok(WorkDoneProgressOptions { work_done_progress })
    }

    fn to_value(&self, alloc: Global) -> Result<Value, NoMemory> {
        let mut object = Writer::new(alloc);
        object.optional("workDoneProgress", &self.work_done_progress);
        object.end()
    }
}
