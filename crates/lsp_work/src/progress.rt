// The progress of work.
ghost use Rattle.std.specs.Prelude.{◌≡◌, None, [], string_bytes};
ghost use Rattle.lsp_work.specs.Progress.{progress_params_row, progress_params_value_row, work_done_progress_row, work_done_progress_begin_row, work_done_progress_report_row, work_done_progress_end_row, work_done_progress_create_params_row, work_done_progress_cancel_params_row};

use lsp_base::ProgressToken;
use lsp_shape::{
    Misfit, NoMemory, Optional, Required, Wanted, Wire, Writer, form, put_tag, read_object, tag,
};
use serde_json::Value;
use std::alloc::Global;

/// The parameters of `$/progress`, which reports the progress of an operation or sends a part of a
/// result. Since 3.15 (LSP 3.17, "Progress Support").
#[derive(Debug, PartialEq, Clone, Drop)]
pub struct ProgressParams {
    /// The token of the operation, from a request of the client or from
    /// `window/workDoneProgress/create`.
    pub token: ProgressToken,
    /// The state of the operation.
    pub value: ProgressParamsValue,
}

#[tactic(auto, unfolding(crate::specs::Progress::progress_params_row))]
impl Wire for ProgressParams {
    ghost shape = { progress_params_row.shape };

    ghost shown = { progress_params_row.shown };

    fn from_value(alloc: Global, value: &Value) -> Result<ProgressParams, Misfit> {
        let (token, value) = read_object(alloc, value, (Required("token"), Required("value")))?;
        Ok(ProgressParams { token, value })
    }

    fn to_value(&self, alloc: Global) -> Result<Value, NoMemory> {
        let mut object = Writer::new(alloc);
        object.field("token", &self.token);
        object.field("value", &self.value);
        object.end()
    }
}

/// What `$/progress` reports. LSP allows any value, such as a part of a result; this type has work
/// done progress alone. Since 3.15 (LSP 3.17, "Progress Support").
#[derive(Debug, PartialEq, Clone, Drop)]
pub enum ProgressParamsValue {
    /// The state of an operation, to show to the user.
    WorkDone(WorkDoneProgress),
}

#[tactic(auto, unfolding(crate::specs::Progress::progress_params_value_row))]
impl Wire for ProgressParamsValue {
    ghost shape = { progress_params_value_row.shape };

    ghost shown = { progress_params_value_row.shown };

    fn from_value(alloc: Global, value: &Value) -> Result<ProgressParamsValue, Misfit> {
        Ok(ProgressParamsValue::WorkDone(form(alloc, value)?))
    }

    fn to_value(&self, alloc: Global) -> Result<Value, NoMemory> {
        match self {
            ProgressParamsValue::WorkDone(done) => done.to_value(alloc),
        }
    }
}

/// The state of an operation, sent with `$/progress`: first `Begin`, then any number of `Report`,
/// and last `End`. Since 3.15 (LSP 3.17, "Work Done Progress").
#[derive(Debug, PartialEq, Clone, Drop)]
pub enum WorkDoneProgress {
    /// The operation starts.
    Begin(WorkDoneProgressBegin),
    /// The operation goes on.
    Report(WorkDoneProgressReport),
    /// The operation has ended.
    End(WorkDoneProgressEnd),
}

#[tactic(auto, unfolding(crate::specs::Progress::work_done_progress_row, crate::specs::Progress::work_done_progress_begin_row, crate::specs::Progress::work_done_progress_report_row, crate::specs::Progress::work_done_progress_end_row))]
impl Wire for WorkDoneProgress {
    ghost shape = { work_done_progress_row.shape };

    ghost shown = { work_done_progress_row.shown };

    fn from_value(alloc: Global, value: &Value) -> Result<WorkDoneProgress, Misfit> {
        match tag(value, "kind") {
            Some("begin") => Ok(WorkDoneProgress::Begin(form(alloc, value)?)),
            Some("report") => Ok(WorkDoneProgress::Report(form(alloc, value)?)),
            Some("end") => Ok(WorkDoneProgress::End(form(alloc, value)?)),
            _ => Err(Misfit::wanted(Wanted::Form)),
        }
    }

    fn to_value(&self, alloc: Global) -> Result<Value, NoMemory> {
        match self {
            WorkDoneProgress::Begin(begin) => put_tag(alloc, "kind", "begin", begin),
            WorkDoneProgress::Report(report) => put_tag(alloc, "kind", "report", report),
            WorkDoneProgress::End(end) => put_tag(alloc, "kind", "end", end),
        }
    }
}

/// The start of an operation whose progress is shown to the user. Since 3.15 (LSP 3.17, "Work Done
/// Progress").
#[derive(Debug, PartialEq, Clone, Drop)]
pub struct WorkDoneProgressBegin {
    /// A short name of the operation, such as `Indexing`.
    pub title: String,
    /// Whether the client should let the user cancel the operation. Absent: as `false`.
    pub cancellable: Option<bool>,
    /// A detail of the current step, such as `3/25 files`, shown with the title.
    pub message: Option<String>,
    /// How much is done, from 0 to 100. Absent: unknown, and the client may then ignore the
    /// percentages of later reports.
    pub percentage: Option<u32>,
}

impl WorkDoneProgressBegin {
    /// The default value: an empty title, and every other field absent.
    pub fn default(alloc: Global) -> WorkDoneProgressBegin
        ensures title { string_bytes result.title ≡ [] }
        ensures cancellable { result.cancellable ≡ None }
        ensures message { result.message ≡ None }
        ensures percentage { result.percentage ≡ None }
    {
        WorkDoneProgressBegin {
            title: String::new(alloc),
            cancellable: None,
            message: None,
            percentage: None,
        }
    }
}

#[tactic(auto, unfolding(crate::specs::Progress::work_done_progress_begin_row))]
impl Wire for WorkDoneProgressBegin {
    ghost shape = { work_done_progress_begin_row.shape };

    ghost shown = { work_done_progress_begin_row.shown };

    fn from_value(alloc: Global, value: &Value) -> Result<WorkDoneProgressBegin, Misfit> {
        let (title, cancellable, message, percentage) = read_object(
            alloc,
            value,
            (
                Required("title"),
                Optional("cancellable"),
                Optional("message"),
                Optional("percentage"),
            ),
        )?;
        Ok(WorkDoneProgressBegin {
            title,
            cancellable,
            message,
            percentage,
        })
    }

    fn to_value(&self, alloc: Global) -> Result<Value, NoMemory> {
        let mut object = Writer::new(alloc);
        object.field("title", &self.title);
        object.optional("cancellable", &self.cancellable);
        object.optional("message", &self.message);
        object.optional("percentage", &self.percentage);
        object.end()
    }
}

/// The progress of an operation that has begun. Since 3.15 (LSP 3.17, "Work Done Progress").
#[derive(Debug, PartialEq, Default, Clone, Drop)]
pub struct WorkDoneProgressReport {
    /// Whether the user can cancel the operation at this time. Only if `Begin` allowed it.
    pub cancellable: Option<bool>,
    /// A detail of the current step, such as `3/25 files`. Absent: the previous message still
    /// holds.
    pub message: Option<String>,
    /// How much is done, from 0 to 100. It should not decrease.
    pub percentage: Option<u32>,
}

#[tactic(auto, unfolding(crate::specs::Progress::work_done_progress_report_row))]
impl Wire for WorkDoneProgressReport {
    ghost shape = { work_done_progress_report_row.shape };

    ghost shown = { work_done_progress_report_row.shown };

    fn from_value(alloc: Global, value: &Value) -> Result<WorkDoneProgressReport, Misfit> {
        let (cancellable, message, percentage) = read_object(
            alloc,
            value,
            (
                Optional("cancellable"),
                Optional("message"),
                Optional("percentage"),
            ),
        )?;
        Ok(WorkDoneProgressReport {
            cancellable,
            message,
            percentage,
        })
    }

    fn to_value(&self, alloc: Global) -> Result<Value, NoMemory> {
        let mut object = Writer::new(alloc);
        object.optional("cancellable", &self.cancellable);
        object.optional("message", &self.message);
        object.optional("percentage", &self.percentage);
        object.end()
    }
}

/// The end of an operation whose progress is shown to the user. Since 3.15 (LSP 3.17, "Work Done
/// Progress").
#[derive(Debug, PartialEq, Default, Clone, Drop)]
pub struct WorkDoneProgressEnd {
    /// A final message, for example about the outcome.
    pub message: Option<String>,
}

#[tactic(auto, unfolding(crate::specs::Progress::work_done_progress_end_row))]
impl Wire for WorkDoneProgressEnd {
    ghost shape = { work_done_progress_end_row.shape };

    ghost shown = { work_done_progress_end_row.shown };

    fn from_value(alloc: Global, value: &Value) -> Result<WorkDoneProgressEnd, Misfit> {
        let message = read_object(alloc, value, Optional("message"))?;
        Ok(WorkDoneProgressEnd { message })
    }

    fn to_value(&self, alloc: Global) -> Result<Value, NoMemory> {
        let mut object = Writer::new(alloc);
        object.optional("message", &self.message);
        object.end()
    }
}

/// The parameters of `window/workDoneProgress/create`, with which a server announces progress that
/// belongs to no request of the client. Only for clients with `window.workDoneProgress`. Since 3.15
/// (LSP 3.17, "Creating Work Done Progress").
#[derive(Debug, PartialEq, Clone, Drop)]
pub struct WorkDoneProgressCreateParams {
    /// The token that the server will use in `$/progress`, unless the response is an error. Each
    /// token may be used for one operation only.
    pub token: ProgressToken,
}

#[tactic(auto, unfolding(crate::specs::Progress::work_done_progress_create_params_row))]
impl Wire for WorkDoneProgressCreateParams {
    ghost shape = { work_done_progress_create_params_row.shape };

    ghost shown = { work_done_progress_create_params_row.shown };

    fn from_value(alloc: Global, value: &Value) -> Result<WorkDoneProgressCreateParams, Misfit> {
        let token = read_object(alloc, value, Required("token"))?;
        Ok(WorkDoneProgressCreateParams { token })
    }

    fn to_value(&self, alloc: Global) -> Result<Value, NoMemory> {
        let mut object = Writer::new(alloc);
        object.field("token", &self.token);
        object.end()
    }
}

/// The parameters of `window/workDoneProgress/cancel`, with which a client cancels an operation
/// that the server announced, even one that isn't `cancellable`. Since 3.15 (LSP 3.17, "Canceling a
/// Work Done Progress").
#[derive(Debug, PartialEq, Clone, Drop)]
pub struct WorkDoneProgressCancelParams {
    /// The token of the operation.
    pub token: ProgressToken,
}

#[tactic(auto, unfolding(crate::specs::Progress::work_done_progress_cancel_params_row))]
impl Wire for WorkDoneProgressCancelParams {
    ghost shape = { work_done_progress_cancel_params_row.shape };

    ghost shown = { work_done_progress_cancel_params_row.shown };

    fn from_value(alloc: Global, value: &Value) -> Result<WorkDoneProgressCancelParams, Misfit> {
        let token = read_object(alloc, value, Required("token"))?;
        Ok(WorkDoneProgressCancelParams { token })
    }

    fn to_value(&self, alloc: Global) -> Result<Value, NoMemory> {
        let mut object = Writer::new(alloc);
        object.field("token", &self.token);
        object.end()
    }
}
