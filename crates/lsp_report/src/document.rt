// Reports on a document.
ghost use Rattle.std.specs.Prelude.{◌≡◌, None, []};
ghost use Rattle.lsp_report.specs.Document.{document_diagnostic_params_row, document_diagnostic_report_result_row, document_diagnostic_report_row, document_diagnostic_report_kind_row, related_full_document_diagnostic_report_row, related_unchanged_document_diagnostic_report_row, full_document_diagnostic_report_row, unchanged_document_diagnostic_report_row, document_diagnostic_report_partial_result_row};
ghost use Rattle.lsp_report.specs.declared.document.DocumentDiagnosticReport.TheVariants as document_diagnostic_report;
ghost use Rattle.lsp_report.specs.declared.document.DocumentDiagnosticReportKind.TheVariants as document_diagnostic_report_kind;
ghost use Rattle.lsp_report.specs.declared.document.DocumentDiagnosticReportResult.TheVariants as document_diagnostic_report_result;

use lsp_base::{Diagnostic, PartialResultParams, TextDocumentIdentifier, WorkDoneProgressParams};
use lsp_shape::{
    Copies, Flat, Misfit, NoMemory, Optional, Required, Wanted, Wire, Writer, attempt, flat, form,
    put_tag, read_object, tag,
};
use lsp_uri::Uri;
use serde_json::Value;
use std::alloc::{AllocError, Global};
use std::collections::HashMap;

/// The parameters of `textDocument/diagnostic`, with which a client asks for the diagnostics of a
/// document. Since 3.17 (LSP 3.17, "Pull Diagnostics").
#[derive(Debug, PartialEq, Eq, Drop)]
pub struct DocumentDiagnosticParams {
    /// The document whose diagnostics are requested.
    pub text_document: TextDocumentIdentifier,
    /// The identifier that the server gave in its registration. Absent: it gave none.
    pub identifier: Option<String>,
    /// The result id of the last report that the client received for this document. Absent: there
    /// is none.
    pub previous_result_id: Option<String>,
    /// The token, chosen by the client, under which the server may report work done progress with
    /// `$/progress`. Absent: the client asks for none. Since 3.15.
    pub work_done_progress_params: WorkDoneProgressParams,
    /// The token, chosen by the client, under which the server may send the result in parts with
    /// `$/progress`, and then an empty response. Absent: the response has the whole result. Since
    /// 3.15.
    pub partial_result_params: PartialResultParams,
}

impl Clone for DocumentDiagnosticParams {
    ghost is_clone = { λ x y. ⟦<TextDocumentIdentifier as Clone>⟧.is_clone
        x.text_document y.text_document
        × ⟦<Option<String> as Clone>⟧.is_clone x.identifier y.identifier
        × ⟦<Option<String> as Clone>⟧.is_clone x.previous_result_id y.previous_result_id
        × ⟦<WorkDoneProgressParams as Clone>⟧.is_clone
        x.work_done_progress_params y.work_done_progress_params
        × ⟦<PartialResultParams as Clone>⟧.is_clone
        x.partial_result_params y.partial_result_params };

    fn clone(&self) -> Result<DocumentDiagnosticParams, AllocError> {
        let mut copies = Copies::new();
        let copy = DocumentDiagnosticParams {
            text_document: self.text_document.clone()?,
            identifier: copies.optional(&self.identifier),
            previous_result_id: copies.optional(&self.previous_result_id),
            work_done_progress_params: self.work_done_progress_params.clone()?,
            partial_result_params: self.partial_result_params.clone()?,
        };
        copies.end(copy)
    }
}

#[tactic(auto, unfolding(crate::specs::Document::document_diagnostic_params_row, lsp_base::specs::Progress::work_done_progress_params_row, lsp_base::specs::Progress::partial_result_params_row))]
impl Wire for DocumentDiagnosticParams {
    ghost shape = { document_diagnostic_params_row.shape };

    ghost shown = { document_diagnostic_params_row.shown };

    fn from_value(alloc: Global, value: &Value) -> Result<DocumentDiagnosticParams, Misfit> {
        let (
            text_document,
            identifier,
            previous_result_id,
            work_done_progress_params,
            partial_result_params,
        ) = read_object(
            alloc,
            value,
            (
                Required("textDocument"),
                Optional("identifier"),
                Optional("previousResultId"),
                Flat,
                Flat,
            ),
        )?;
        Ok(DocumentDiagnosticParams {
            text_document,
            identifier,
            previous_result_id,
            work_done_progress_params,
            partial_result_params,
        })
    }

    fn to_value(&self, alloc: Global) -> Result<Value, NoMemory> {
        let mut object = Writer::new(alloc);
        object.field("textDocument", &self.text_document);
        object.nullable("identifier", &self.identifier);
        object.nullable("previousResultId", &self.previous_result_id);
        object.flat(&self.work_done_progress_params);
        object.flat(&self.partial_result_params);
        object.end()
    }
}

/// The result of `textDocument/diagnostic`, or a later part of it. Since 3.17 (LSP 3.17, "Pull
/// Diagnostics").
#[derive(Debug, Clone, Drop)]
pub enum DocumentDiagnosticReportResult {
    /// The report on the document. If the result is sent in parts, this is the first part.
    Report(DocumentDiagnosticReport),
    /// A further part, with reports on related documents.
    Partial(DocumentDiagnosticReportPartialResult),
}

#[tactic(auto, unfolding(crate::specs::Document::document_diagnostic_report_result_row))]
impl Wire for DocumentDiagnosticReportResult {
    ghost shape = { document_diagnostic_report_result_row.shape };

    ghost shown = { document_diagnostic_report_result_row.shown };

    fn from_value(alloc: Global, value: &Value) -> Result<DocumentDiagnosticReportResult, Misfit> {
        if let Some(report) = attempt(alloc, value)? {
            return Ok(DocumentDiagnosticReportResult::Report(report));
        }
        Ok(DocumentDiagnosticReportResult::Partial(form(alloc, value)?))
    }

    fn to_value(&self, alloc: Global) -> Result<Value, NoMemory> {
        match self {
            DocumentDiagnosticReportResult::Report(report) => report.to_value(alloc),
            DocumentDiagnosticReportResult::Partial(partial) => partial.to_value(alloc),
        }
    }
}

impl From<DocumentDiagnosticReport> for DocumentDiagnosticReportResult {
    ghost from_gives = { λ given made. made ≡ document_diagnostic_report_result.Report given };

    fn from(report: DocumentDiagnosticReport) -> DocumentDiagnosticReportResult {
        DocumentDiagnosticReportResult::Report(report)
    }
}

impl From<DocumentDiagnosticReportPartialResult> for DocumentDiagnosticReportResult {
    ghost from_gives = { λ given made. made ≡ document_diagnostic_report_result.Partial given };

    fn from(partial: DocumentDiagnosticReportPartialResult) -> DocumentDiagnosticReportResult {
        DocumentDiagnosticReportResult::Partial(partial)
    }
}

/// The report on a document and on related ones, as the result of `textDocument/diagnostic`. Since
/// 3.17 (LSP 3.17, "Pull Diagnostics").
#[derive(Debug, Clone, Drop)]
pub enum DocumentDiagnosticReport {
    /// All diagnostics of the document.
    Full(RelatedFullDocumentDiagnosticReport),
    /// The diagnostics are still the ones of the last report.
    Unchanged(RelatedUnchangedDocumentDiagnosticReport),
}

#[tactic(auto, unfolding(crate::specs::Document::document_diagnostic_report_row, crate::specs::Document::related_full_document_diagnostic_report_row, crate::specs::Document::full_document_diagnostic_report_row, crate::specs::Document::related_unchanged_document_diagnostic_report_row, crate::specs::Document::unchanged_document_diagnostic_report_row))]
impl Wire for DocumentDiagnosticReport {
    ghost shape = { document_diagnostic_report_row.shape };

    ghost shown = { document_diagnostic_report_row.shown };

    fn from_value(alloc: Global, value: &Value) -> Result<DocumentDiagnosticReport, Misfit> {
        match tag(value, "kind") {
            Some("full") => Ok(DocumentDiagnosticReport::Full(form(alloc, value)?)),
            Some("unchanged") => Ok(DocumentDiagnosticReport::Unchanged(form(alloc, value)?)),
            _ => Err(Misfit::wanted(Wanted::Form)),
        }
    }

    fn to_value(&self, alloc: Global) -> Result<Value, NoMemory> {
        match self {
            DocumentDiagnosticReport::Full(full) => put_tag(alloc, "kind", "full", full),
            DocumentDiagnosticReport::Unchanged(unchanged) => put_tag(
                alloc,
                "kind",
                "unchanged",
                unchanged,
            ),
        }
    }
}

impl From<RelatedFullDocumentDiagnosticReport> for DocumentDiagnosticReport {
    ghost from_gives = { λ given made. made ≡ document_diagnostic_report.Full given };

    fn from(full: RelatedFullDocumentDiagnosticReport) -> DocumentDiagnosticReport {
        DocumentDiagnosticReport::Full(full)
    }
}

impl From<RelatedUnchangedDocumentDiagnosticReport> for DocumentDiagnosticReport {
    ghost from_gives = { λ given made. made ≡ document_diagnostic_report.Unchanged given };

    fn from(unchanged: RelatedUnchangedDocumentDiagnosticReport) -> DocumentDiagnosticReport {
        DocumentDiagnosticReport::Unchanged(unchanged)
    }
}

/// The report on a related document, as part of the result of `textDocument/diagnostic`. Since 3.17
/// (LSP 3.17, "Pull Diagnostics").
#[derive(Debug, PartialEq, Clone, Drop)]
pub enum DocumentDiagnosticReportKind {
    /// All diagnostics of the document.
    Full(FullDocumentDiagnosticReport),
    /// The diagnostics are still the ones of the last report.
    Unchanged(UnchangedDocumentDiagnosticReport),
}

#[tactic(auto, unfolding(crate::specs::Document::document_diagnostic_report_kind_row, crate::specs::Document::full_document_diagnostic_report_row, crate::specs::Document::unchanged_document_diagnostic_report_row))]
impl Wire for DocumentDiagnosticReportKind {
    ghost shape = { document_diagnostic_report_kind_row.shape };

    ghost shown = { document_diagnostic_report_kind_row.shown };

    fn from_value(alloc: Global, value: &Value) -> Result<DocumentDiagnosticReportKind, Misfit> {
        match tag(value, "kind") {
            Some("full") => Ok(DocumentDiagnosticReportKind::Full(form(alloc, value)?)),
            Some("unchanged") => Ok(DocumentDiagnosticReportKind::Unchanged(form(alloc, value)?)),
            _ => Err(Misfit::wanted(Wanted::Form)),
        }
    }

    fn to_value(&self, alloc: Global) -> Result<Value, NoMemory> {
        match self {
            DocumentDiagnosticReportKind::Full(full) => put_tag(alloc, "kind", "full", full),
            DocumentDiagnosticReportKind::Unchanged(unchanged) => put_tag(
                alloc,
                "kind",
                "unchanged",
                unchanged,
            ),
        }
    }
}

impl From<FullDocumentDiagnosticReport> for DocumentDiagnosticReportKind {
    ghost from_gives = { λ given made. made ≡ document_diagnostic_report_kind.Full given };

    fn from(full: FullDocumentDiagnosticReport) -> DocumentDiagnosticReportKind {
        DocumentDiagnosticReportKind::Full(full)
    }
}

impl From<UnchangedDocumentDiagnosticReport> for DocumentDiagnosticReportKind {
    ghost from_gives = { λ given made. made ≡ document_diagnostic_report_kind.Unchanged given };

    fn from(unchanged: UnchangedDocumentDiagnosticReport) -> DocumentDiagnosticReportKind {
        DocumentDiagnosticReportKind::Unchanged(unchanged)
    }
}

/// All diagnostics of a document, and reports on related documents. Since 3.17 (LSP 3.17, "Pull
/// Diagnostics").
#[derive(Debug, Clone, Drop)]
pub struct RelatedFullDocumentDiagnosticReport {
    /// Reports on other documents that this one affects, by URI. Only for clients with the
    /// capability `relatedDocumentSupport`.
    pub related_documents: Option<HashMap<Uri, DocumentDiagnosticReportKind>>,
    /// The diagnostics of the document. Its fields are part of the same JSON object.
    pub full_document_diagnostic_report: FullDocumentDiagnosticReport,
}

impl RelatedFullDocumentDiagnosticReport {
    /// The default value: no diagnostics, no result id, and no related documents.
    pub fn default(alloc: Global) -> RelatedFullDocumentDiagnosticReport
        ensures related_documents { result.related_documents ≡ None }
        ensures result_id { result.full_document_diagnostic_report.result_id ≡ None }
        ensures items { result.full_document_diagnostic_report.items.items ≡ [] }
    {
        RelatedFullDocumentDiagnosticReport {
            related_documents: None,
            full_document_diagnostic_report: FullDocumentDiagnosticReport::default(alloc),
        }
    }
}

#[tactic(auto, unfolding(crate::specs::Document::related_full_document_diagnostic_report_row, crate::specs::Document::full_document_diagnostic_report_row))]
impl Wire for RelatedFullDocumentDiagnosticReport {
    ghost shape = { related_full_document_diagnostic_report_row.shape };

    ghost shown = { related_full_document_diagnostic_report_row.shown };

    fn from_value(
        alloc: Global,
        value: &Value,
    ) -> Result<RelatedFullDocumentDiagnosticReport, Misfit> {
        let (related_documents, full_document_diagnostic_report) = read_object(
            alloc,
            value,
            (Optional("relatedDocuments"), Flat),
        )?;
        Ok(RelatedFullDocumentDiagnosticReport {
            related_documents,
            full_document_diagnostic_report,
        })
    }

    fn to_value(&self, alloc: Global) -> Result<Value, NoMemory> {
        let mut object = Writer::new(alloc);
        object.optional("relatedDocuments", &self.related_documents);
        object.flat(&self.full_document_diagnostic_report);
        object.end()
    }
}

/// The statement that a document's diagnostics have not changed since the last report, and reports
/// on related documents. Since 3.17 (LSP 3.17, "Pull Diagnostics").
#[derive(Debug, Clone, Drop)]
pub struct RelatedUnchangedDocumentDiagnosticReport {
    /// Reports on other documents that this one affects, by URI. Only for clients with the
    /// capability `relatedDocumentSupport`.
    pub related_documents: Option<HashMap<Uri, DocumentDiagnosticReportKind>>,
    /// The result id for the document. Its fields are part of the same JSON object.
    pub unchanged_document_diagnostic_report: UnchangedDocumentDiagnosticReport,
}

#[tactic(auto, unfolding(crate::specs::Document::related_unchanged_document_diagnostic_report_row, crate::specs::Document::unchanged_document_diagnostic_report_row))]
impl Wire for RelatedUnchangedDocumentDiagnosticReport {
    ghost shape = { related_unchanged_document_diagnostic_report_row.shape };

    ghost shown = { related_unchanged_document_diagnostic_report_row.shown };

    fn from_value(
        alloc: Global,
        value: &Value,
    ) -> Result<RelatedUnchangedDocumentDiagnosticReport, Misfit> {
        let (related_documents, unchanged_document_diagnostic_report) = read_object(
            alloc,
            value,
            (Optional("relatedDocuments"), Flat),
        )?;
        Ok(RelatedUnchangedDocumentDiagnosticReport {
            related_documents,
            unchanged_document_diagnostic_report,
        })
    }

    fn to_value(&self, alloc: Global) -> Result<Value, NoMemory> {
        let mut object = Writer::new(alloc);
        object.optional("relatedDocuments", &self.related_documents);
        object.flat(&self.unchanged_document_diagnostic_report);
        object.end()
    }
}

/// All diagnostics of a document. Since 3.17 (LSP 3.17, "Pull Diagnostics").
#[derive(Debug, PartialEq, Clone, Drop)]
pub struct FullDocumentDiagnosticReport {
    /// An id of the server's choice for this result, which the client sends back in its next
    /// request for the document. Absent: the next report can't be an unchanged one.
    pub result_id: Option<String>,
    /// The diagnostics. An empty array means that there are none.
    pub items: Vec<Diagnostic>,
}

impl FullDocumentDiagnosticReport {
    /// The default value: no diagnostics, and no result id.
    pub fn default(alloc: Global) -> FullDocumentDiagnosticReport
        ensures result_id { result.result_id ≡ None }
        ensures items { result.items.items ≡ [] }
    {
        FullDocumentDiagnosticReport {
            result_id: None,
            items: Vec::new(alloc),
        }
    }
}

#[tactic(auto, unfolding(crate::specs::Document::full_document_diagnostic_report_row))]
impl Wire for FullDocumentDiagnosticReport {
    ghost shape = { full_document_diagnostic_report_row.shape };

    ghost shown = { full_document_diagnostic_report_row.shown };

    fn from_value(alloc: Global, value: &Value) -> Result<FullDocumentDiagnosticReport, Misfit> {
        let (result_id, items) = read_object(
            alloc,
            value,
            (Optional("resultId"), Required("items")),
        )?;
        Ok(FullDocumentDiagnosticReport { result_id, items })
    }

    fn to_value(&self, alloc: Global) -> Result<Value, NoMemory> {
        let mut object = Writer::new(alloc);
        object.optional("resultId", &self.result_id);
        object.field("items", &self.items);
        object.end()
    }
}

/// The statement that a document's diagnostics have not changed since the last report. Only in
/// response to a request that holds a previous result id. Since 3.17 (LSP 3.17, "Pull
/// Diagnostics").
#[derive(Debug, PartialEq, Clone, Drop)]
pub struct UnchangedDocumentDiagnosticReport {
    /// An id of the server's choice, which the client sends back in its next request for the
    /// document.
    pub result_id: String,
}

#[tactic(auto, unfolding(crate::specs::Document::unchanged_document_diagnostic_report_row))]
impl Wire for UnchangedDocumentDiagnosticReport {
    ghost shape = { unchanged_document_diagnostic_report_row.shape };

    ghost shown = { unchanged_document_diagnostic_report_row.shown };

    fn from_value(
        alloc: Global,
        value: &Value,
    ) -> Result<UnchangedDocumentDiagnosticReport, Misfit> {
        let result_id = read_object(alloc, value, Required("resultId"))?;
        Ok(UnchangedDocumentDiagnosticReport { result_id })
    }

    fn to_value(&self, alloc: Global) -> Result<Value, NoMemory> {
        let mut object = Writer::new(alloc);
        object.field("resultId", &self.result_id);
        object.end()
    }
}

/// A later part of the result of `textDocument/diagnostic`, sent with `$/progress` after a first
/// part with the report itself. Since 3.17 (LSP 3.17, "Pull Diagnostics").
#[derive(Debug, Default, Clone, Drop)]
pub struct DocumentDiagnosticReportPartialResult {
    /// Reports on related documents, by URI.
    pub related_documents: Option<HashMap<Uri, DocumentDiagnosticReportKind>>,
}

#[tactic(auto, unfolding(crate::specs::Document::document_diagnostic_report_partial_result_row))]
impl Wire for DocumentDiagnosticReportPartialResult {
    ghost shape = { document_diagnostic_report_partial_result_row.shape };

    ghost shown = { document_diagnostic_report_partial_result_row.shown };

    fn from_value(
        alloc: Global,
        value: &Value,
    ) -> Result<DocumentDiagnosticReportPartialResult, Misfit> {
        let related_documents = read_object(alloc, value, Optional("relatedDocuments"))?;
        Ok(DocumentDiagnosticReportPartialResult { related_documents })
    }

    fn to_value(&self, alloc: Global) -> Result<Value, NoMemory> {
        let mut object = Writer::new(alloc);
        object.optional("relatedDocuments", &self.related_documents);
        object.end()
    }
}
