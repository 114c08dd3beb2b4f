// Reports on the workspace.
ghost use Rattle.std.specs.Prelude.{◌≡◌, []};
ghost use Rattle.lsp_report.specs.Workspace.{workspace_diagnostic_params_row, previous_result_id_row, workspace_diagnostic_report_result_row, workspace_diagnostic_report_row, workspace_document_diagnostic_report_row, workspace_full_document_diagnostic_report_row, workspace_unchanged_document_diagnostic_report_row, workspace_diagnostic_report_partial_result_row};
ghost use Rattle.lsp_report.specs.declared.workspace.WorkspaceDiagnosticReportResult.TheVariants as workspace_diagnostic_report_result;
ghost use Rattle.lsp_report.specs.declared.workspace.WorkspaceDocumentDiagnosticReport.TheVariants as workspace_document_diagnostic_report;

use crate::document::{FullDocumentDiagnosticReport, UnchangedDocumentDiagnosticReport};
use lsp_base::{PartialResultParams, WorkDoneProgressParams};
use lsp_shape::{
    Flat, Misfit, NoMemory, Optional, Required, Wanted, Wire, Writer, attempt, flat, form, put_tag,
    read_object, tag,
};
use lsp_uri::Uri;
use serde_json::Value;
use std::alloc::Global;

/// The parameters of `workspace/diagnostic`, with which a client asks for the diagnostics of the
/// whole workspace. Since 3.17 (LSP 3.17, "Pull Diagnostics").
#[derive(Debug, PartialEq, Eq, Clone, Drop)]
pub struct WorkspaceDiagnosticParams {
    /// The identifier that the server gave in its registration. Absent: it gave none.
    pub identifier: Option<String>,
    /// The result ids of the last reports that the client received, one for each document for which
    /// it has one.
    pub previous_result_ids: Vec<PreviousResultId>,
    /// The token, chosen by the client, under which the server may report work done progress with
    /// `$/progress`. Absent: the client asks for none. Since 3.15.
    pub work_done_progress_params: WorkDoneProgressParams,
    /// The token, chosen by the client, under which the server may send the result in parts with
    /// `$/progress`, and then an empty response. Absent: the response has the whole result. Since
    /// 3.15.
    pub partial_result_params: PartialResultParams,
}

#[tactic(auto, unfolding(crate::specs::Workspace::workspace_diagnostic_params_row, lsp_base::specs::Progress::work_done_progress_params_row, lsp_base::specs::Progress::partial_result_params_row))]
impl Wire for WorkspaceDiagnosticParams {
    ghost shape = { workspace_diagnostic_params_row.shape };

    ghost shown = { workspace_diagnostic_params_row.shown };

    fn from_value(alloc: Global, value: &Value) -> Result<WorkspaceDiagnosticParams, Misfit> {
        let (identifier, previous_result_ids, work_done_progress_params, partial_result_params) =
            read_object(
                alloc,
                value,
                (
                    Optional("identifier"),
                    Required("previousResultIds"),
                    Flat,
                    Flat,
                ),
            )?;
        Ok(WorkspaceDiagnosticParams {
            identifier,
            previous_result_ids,
            work_done_progress_params,
            partial_result_params,
        })
    }

    fn to_value(&self, alloc: Global) -> Result<Value, NoMemory> {
        let mut object = Writer::new(alloc);
        object.nullable("identifier", &self.identifier);
        object.field("previousResultIds", &self.previous_result_ids);
        object.flat(&self.work_done_progress_params);
        object.flat(&self.partial_result_params);
        object.end()
    }
}

/// The result id of the last report on a document, in the parameters of `workspace/diagnostic`.
/// Since 3.17 (LSP 3.17, "Pull Diagnostics").
#[derive(Debug, PartialEq, Eq, Clone, Drop)]
pub struct PreviousResultId {
    /// The URI of the document.
    pub uri: Uri,
    /// The result id, as the server gave it.
    pub value: String,
}

#[tactic(auto, unfolding(crate::specs::Workspace::previous_result_id_row))]
impl Wire for PreviousResultId {
    ghost shape = { previous_result_id_row.shape };

    ghost shown = { previous_result_id_row.shown };

    fn from_value(alloc: Global, value: &Value) -> Result<PreviousResultId, Misfit> {
        let (uri, value) = read_object(alloc, value, (Required("uri"), Required("value")))?;
        Ok(PreviousResultId { uri, value })
    }

    fn to_value(&self, alloc: Global) -> Result<Value, NoMemory> {
        let mut object = Writer::new(alloc);
        object.field("uri", &self.uri);
        object.field("value", &self.value);
        object.end()
    }
}

/// The result of `workspace/diagnostic`, or a later part of it. Since 3.17 (LSP 3.17, "Pull
/// Diagnostics").
#[derive(Debug, PartialEq, Clone, Drop)]
pub enum WorkspaceDiagnosticReportResult {
    /// The report on the workspace. If the result is sent in parts, this is the first part.
    Report(WorkspaceDiagnosticReport),
    /// A further part, with more reports. Once written as JSON, it is read back as `Report`.
    Partial(WorkspaceDiagnosticReportPartialResult),
}

#[tactic(auto, unfolding(crate::specs::Workspace::workspace_diagnostic_report_result_row))]
impl Wire for WorkspaceDiagnosticReportResult {
    ghost shape = { workspace_diagnostic_report_result_row.shape };

    ghost shown = { workspace_diagnostic_report_result_row.shown };

    fn from_value(alloc: Global, value: &Value) -> Result<WorkspaceDiagnosticReportResult, Misfit> {
        if let Some(report) = attempt(alloc, value)? {
            return Ok(WorkspaceDiagnosticReportResult::Report(report));
        }
        Ok(WorkspaceDiagnosticReportResult::Partial(form(alloc, value)?))
    }

    fn to_value(&self, alloc: Global) -> Result<Value, NoMemory> {
        match self {
            WorkspaceDiagnosticReportResult::Report(report) => report.to_value(alloc),
            WorkspaceDiagnosticReportResult::Partial(partial) => partial.to_value(alloc),
        }
    }
}

impl From<WorkspaceDiagnosticReport> for WorkspaceDiagnosticReportResult {
    ghost from_gives = { λ given made. made ≡ workspace_diagnostic_report_result.Report given };

    fn from(report: WorkspaceDiagnosticReport) -> WorkspaceDiagnosticReportResult {
        WorkspaceDiagnosticReportResult::Report(report)
    }
}

impl From<WorkspaceDiagnosticReportPartialResult> for WorkspaceDiagnosticReportResult {
    ghost from_gives = { λ given made. made ≡ workspace_diagnostic_report_result.Partial given };

    fn from(partial: WorkspaceDiagnosticReportPartialResult) -> WorkspaceDiagnosticReportResult {
        WorkspaceDiagnosticReportResult::Partial(partial)
    }
}

/// Reports on documents of the workspace, as the result of `workspace/diagnostic`. Since 3.17 (LSP
/// 3.17, "Pull Diagnostics").
#[derive(Debug, PartialEq, Clone, Drop)]
pub struct WorkspaceDiagnosticReport {
    /// One report for each document.
    pub items: Vec<WorkspaceDocumentDiagnosticReport>,
}

impl WorkspaceDiagnosticReport {
    /// The default value: no reports.
    pub fn default(alloc: Global) -> WorkspaceDiagnosticReport
        ensures items { result.items.items ≡ [] }
    {
        WorkspaceDiagnosticReport {
            items: Vec::new(alloc),
        }
    }
}

#[tactic(auto, unfolding(crate::specs::Workspace::workspace_diagnostic_report_row))]
impl Wire for WorkspaceDiagnosticReport {
    ghost shape = { workspace_diagnostic_report_row.shape };

    ghost shown = { workspace_diagnostic_report_row.shown };

    fn from_value(alloc: Global, value: &Value) -> Result<WorkspaceDiagnosticReport, Misfit> {
        let items = read_object(alloc, value, Required("items"))?;
        Ok(WorkspaceDiagnosticReport { items })
    }

    fn to_value(&self, alloc: Global) -> Result<Value, NoMemory> {
        let mut object = Writer::new(alloc);
        object.field("items", &self.items);
        object.end()
    }
}

/// The report on one document, in the result of `workspace/diagnostic`. Since 3.17 (LSP 3.17, "Pull
/// Diagnostics").
#[derive(Debug, PartialEq, Clone, Drop)]
pub enum WorkspaceDocumentDiagnosticReport {
    /// All diagnostics of the document.
    Full(WorkspaceFullDocumentDiagnosticReport),
    /// The diagnostics are still the ones of the last report.
    Unchanged(WorkspaceUnchangedDocumentDiagnosticReport),
}

#[tactic(auto, unfolding(crate::specs::Workspace::workspace_document_diagnostic_report_row, crate::specs::Workspace::workspace_full_document_diagnostic_report_row, crate::specs::Document::full_document_diagnostic_report_row, crate::specs::Workspace::workspace_unchanged_document_diagnostic_report_row, crate::specs::Document::unchanged_document_diagnostic_report_row))]
impl Wire for WorkspaceDocumentDiagnosticReport {
    ghost shape = { workspace_document_diagnostic_report_row.shape };

    ghost shown = { workspace_document_diagnostic_report_row.shown };

    fn from_value(
        alloc: Global,
        value: &Value,
    ) -> Result<WorkspaceDocumentDiagnosticReport, Misfit> {
        match tag(value, "kind") {
            Some("full") => Ok(WorkspaceDocumentDiagnosticReport::Full(form(alloc, value)?)),
            Some("unchanged") => Ok(WorkspaceDocumentDiagnosticReport::Unchanged(form(
                alloc, value,
            )?)),
            _ => Err(Misfit::wanted(Wanted::Form)),
        }
    }

    fn to_value(&self, alloc: Global) -> Result<Value, NoMemory> {
        match self {
            WorkspaceDocumentDiagnosticReport::Full(full) => put_tag(alloc, "kind", "full", full),
            WorkspaceDocumentDiagnosticReport::Unchanged(unchanged) => put_tag(
                alloc,
                "kind",
                "unchanged",
                unchanged,
            ),
        }
    }
}

impl From<WorkspaceFullDocumentDiagnosticReport> for WorkspaceDocumentDiagnosticReport {
    ghost from_gives = { λ given made. made ≡ workspace_document_diagnostic_report.Full given };

    fn from(full: WorkspaceFullDocumentDiagnosticReport) -> WorkspaceDocumentDiagnosticReport {
        WorkspaceDocumentDiagnosticReport::Full(full)
    }
}

impl From<WorkspaceUnchangedDocumentDiagnosticReport> for WorkspaceDocumentDiagnosticReport {
    ghost from_gives = { λ given made. made
        ≡ workspace_document_diagnostic_report.Unchanged given };

    fn from(
        unchanged: WorkspaceUnchangedDocumentDiagnosticReport,
    ) -> WorkspaceDocumentDiagnosticReport {
        WorkspaceDocumentDiagnosticReport::Unchanged(unchanged)
    }
}

/// All diagnostics of one document, in the result of `workspace/diagnostic`. Since 3.17 (LSP 3.17,
/// "Pull Diagnostics").
#[derive(Debug, PartialEq, Clone, Drop)]
pub struct WorkspaceFullDocumentDiagnosticReport {
    /// The URI of the document.
    pub uri: Uri,
    /// The version of the document that the diagnostics belong to. `None`, sent as `null`, if the
    /// document isn't open in the client.
    pub version: Option<i64>,
    /// The diagnostics of the document. Its fields are part of the same JSON object.
    pub full_document_diagnostic_report: FullDocumentDiagnosticReport,
}

#[tactic(auto, unfolding(crate::specs::Workspace::workspace_full_document_diagnostic_report_row, crate::specs::Document::full_document_diagnostic_report_row))]
impl Wire for WorkspaceFullDocumentDiagnosticReport {
    ghost shape = { workspace_full_document_diagnostic_report_row.shape };

    ghost shown = { workspace_full_document_diagnostic_report_row.shown };

    fn from_value(
        alloc: Global,
        value: &Value,
    ) -> Result<WorkspaceFullDocumentDiagnosticReport, Misfit> {
        let (uri, version, full_document_diagnostic_report) = read_object(
            alloc,
            value,
            (Required("uri"), Optional("version"), Flat),
        )?;
        Ok(WorkspaceFullDocumentDiagnosticReport {
            uri,
            version,
            full_document_diagnostic_report,
        })
    }

    fn to_value(&self, alloc: Global) -> Result<Value, NoMemory> {
        let mut object = Writer::new(alloc);
        object.field("uri", &self.uri);
        object.nullable("version", &self.version);
        object.flat(&self.full_document_diagnostic_report);
        object.end()
    }
}

/// The statement that one document's diagnostics have not changed since the last report, in the
/// result of `workspace/diagnostic`. Since 3.17 (LSP 3.17, "Pull Diagnostics").
#[derive(Debug, PartialEq, Clone, Drop)]
pub struct WorkspaceUnchangedDocumentDiagnosticReport {
    /// The URI of the document.
    pub uri: Uri,
    /// The version of the document that the diagnostics belong to. `None`, sent as `null`, if the
    /// document isn't open in the client.
    pub version: Option<i64>,
    /// The result id for the document. Its fields are part of the same JSON object.
    pub unchanged_document_diagnostic_report: UnchangedDocumentDiagnosticReport,
}

#[tactic(auto, unfolding(crate::specs::Workspace::workspace_unchanged_document_diagnostic_report_row, crate::specs::Document::unchanged_document_diagnostic_report_row))]
impl Wire for WorkspaceUnchangedDocumentDiagnosticReport {
    ghost shape = { workspace_unchanged_document_diagnostic_report_row.shape };

    ghost shown = { workspace_unchanged_document_diagnostic_report_row.shown };

    fn from_value(
        alloc: Global,
        value: &Value,
    ) -> Result<WorkspaceUnchangedDocumentDiagnosticReport, Misfit> {
        let (uri, version, unchanged_document_diagnostic_report) = read_object(
            alloc,
            value,
            (Required("uri"), Optional("version"), Flat),
        )?;
        Ok(WorkspaceUnchangedDocumentDiagnosticReport {
            uri,
            version,
            unchanged_document_diagnostic_report,
        })
    }

    fn to_value(&self, alloc: Global) -> Result<Value, NoMemory> {
        let mut object = Writer::new(alloc);
        object.field("uri", &self.uri);
        object.nullable("version", &self.version);
        object.flat(&self.unchanged_document_diagnostic_report);
        object.end()
    }
}

/// A later part of the result of `workspace/diagnostic`, sent with `$/progress` after a first
/// `WorkspaceDiagnosticReport`. Since 3.17 (LSP 3.17, "Pull Diagnostics").
#[derive(Debug, PartialEq, Clone, Drop)]
pub struct WorkspaceDiagnosticReportPartialResult {
    /// Reports on further documents.
    pub items: Vec<WorkspaceDocumentDiagnosticReport>,
}

impl WorkspaceDiagnosticReportPartialResult {
    /// The default value: no reports.
    pub fn default(alloc: Global) -> WorkspaceDiagnosticReportPartialResult
        ensures items { result.items.items ≡ [] }
    {
        WorkspaceDiagnosticReportPartialResult {
            items: Vec::new(alloc),
        }
    }
}

#[tactic(auto, unfolding(crate::specs::Workspace::workspace_diagnostic_report_partial_result_row))]
impl Wire for WorkspaceDiagnosticReportPartialResult {
    ghost shape = { workspace_diagnostic_report_partial_result_row.shape };

    ghost shown = { workspace_diagnostic_report_partial_result_row.shown };

    fn from_value(
        alloc: Global,
        value: &Value,
    ) -> Result<WorkspaceDiagnosticReportPartialResult, Misfit> {
        let items = read_object(alloc, value, Required("items"))?;
        Ok(WorkspaceDiagnosticReportPartialResult { items })
    }

    fn to_value(&self, alloc: Global) -> Result<Value, NoMemory> {
        let mut object = Writer::new(alloc);
        object.field("items", &self.items);
        object.end()
    }
}
