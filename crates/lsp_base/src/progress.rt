// Tokens of progress.
ghost use Rattle.lsp_base.specs.Progress.{partial_result_params_row, work_done_progress_params_row};

use crate::position::NumberOrString;
use lsp_shape::{Misfit, NoMemory, Optional, Wire, Writer, read_object};
use serde_json::Value;
use std::alloc::Global;

/// Ties a `$/progress` notification to what it is about (LSP 3.17, "Progress Support").
pub type ProgressToken = NumberOrString;

/// The token under which a client wants the result of its request in parts (LSP 3.17,
/// "PartialResultParams").
#[derive(Debug, PartialEq, Eq, Default, Clone, Drop)]
pub struct PartialResultParams {
    /// The token of the `$/progress` notifications that hold the parts; the response after them is
    /// empty. Absent: the response has the whole result.
    pub partial_result_token: Option<ProgressToken>,
}

#[tactic(auto, unfolding(crate::specs::Progress::partial_result_params_row))]
impl Wire for PartialResultParams {
    ghost shape = { partial_result_params_row.shape };

    ghost shown = { partial_result_params_row.shown };

    fn from_value(alloc: Global, value: &Value) -> Result<PartialResultParams, Misfit> {
        let partial_result_token = read_object(alloc, value, Optional("partialResultToken"))?;
        Ok(PartialResultParams {
            partial_result_token,
        })
    }

    fn to_value(&self, alloc: Global) -> Result<Value, NoMemory> {
        let mut object = Writer::new(alloc);
        object.optional("partialResultToken", &self.partial_result_token);
        object.end()
    }
}

/// The token under which a client wants work done progress for its request. Since 3.15 (LSP 3.17,
/// "Client Initiated Progress").
#[derive(Debug, PartialEq, Eq, Default, Clone, Drop)]
pub struct WorkDoneProgressParams {
    /// The token of the `$/progress` notifications. Absent: the client wants none.
    pub work_done_token: Option<ProgressToken>,
}

#[tactic(auto, unfolding(crate::specs::Progress::work_done_progress_params_row))]
impl Wire for WorkDoneProgressParams {
    ghost shape = { work_done_progress_params_row.shape };

    ghost shown = { work_done_progress_params_row.shown };

    fn from_value(alloc: Global, value: &Value) -> Result<WorkDoneProgressParams, Misfit> {
        let work_done_token = read_object(alloc, value, Optional("workDoneToken"))?;
        Ok(WorkDoneProgressParams { work_done_token })
    }

    fn to_value(&self, alloc: Global) -> Result<Value, NoMemory> {
        let mut object = Writer::new(alloc);
        object.optional("workDoneToken", &self.work_done_token);
        object.end()
    }
}
