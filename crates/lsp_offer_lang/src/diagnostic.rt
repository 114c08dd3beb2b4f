// Diagnostics that the client asks for.
ghost use Rattle.lsp_offer_lang.specs.Diagnostic.{diagnostic_server_capabilities_row, diagnostic_options_row, diagnostic_registration_options_row};

use lsp_base::{StaticRegistrationOptions, TextDocumentRegistrationOptions};
use lsp_names::WorkDoneProgressOptions;
use lsp_shape::{
    Flat, Misfit, NoMemory, Optional, Required, Wire, Writer, attempt, flat, form, read_object,
};
use serde_json::Value;
use std::alloc::Global;

/// How a server supports `textDocument/diagnostic` and `workspace/diagnostic`, by which the client
/// asks for diagnostics, as the capability `diagnosticProvider`. Since 3.17 (LSP 3.17, "Pull
/// Diagnostics").
#[derive(Debug, PartialEq, Eq, Clone, Drop)]
pub enum DiagnosticServerCapabilities {
    /// The requests are supported, with these options.
    Options(DiagnosticOptions),
    /// The requests are supported for the selected documents. For sending only: such an object is
    /// read as `Options`.
    RegistrationOptions(DiagnosticRegistrationOptions),
}

#[tactic(auto, unfolding(crate::specs::Diagnostic::diagnostic_server_capabilities_row))]
impl Wire for DiagnosticServerCapabilities {
    ghost shape = { diagnostic_server_capabilities_row.shape };

    ghost shown = { diagnostic_server_capabilities_row.shown };

    fn from_value(alloc: Global, value: &Value) -> Result<DiagnosticServerCapabilities, Misfit> {
        if let Some(options) = attempt(alloc, value)? {
            return Ok(DiagnosticServerCapabilities::Options(options));
        }
        Ok(DiagnosticServerCapabilities::RegistrationOptions(form(alloc, value)?))
    }

    fn to_value(&self, alloc: Global) -> Result<Value, NoMemory> {
        match self {
            DiagnosticServerCapabilities::Options(options) => options.to_value(alloc),
            DiagnosticServerCapabilities::RegistrationOptions(options) => options.to_value(alloc),
        }
    }
}

/// Options for `textDocument/diagnostic` and `workspace/diagnostic`, since 3.17 (LSP 3.17, "Pull
/// Diagnostics").
#[derive(Debug, PartialEq, Eq, Default, Clone, Drop)]
pub struct DiagnosticOptions {
    /// A name for the diagnostics of this registration, which the client repeats in its requests.
    /// Absent: they have none.
    pub identifier: Option<String>,
    /// Whether a change in one document can alter the diagnostics of another.
    pub inter_file_dependencies: bool,
    /// Whether `workspace/diagnostic` is supported too.
    pub workspace_diagnostics: bool,
    /// Whether the server can report progress on these requests.
    pub work_done_progress_options: WorkDoneProgressOptions,
}

#[tactic(auto, unfolding(crate::specs::Diagnostic::diagnostic_options_row, lsp_names::specs::Progress::work_done_progress_options_row))]
impl Wire for DiagnosticOptions {
    ghost shape = { diagnostic_options_row.shape };

    ghost shown = { diagnostic_options_row.shown };

    fn from_value(alloc: Global, value: &Value) -> Result<DiagnosticOptions, Misfit> {
        let (
            identifier,
            inter_file_dependencies,
            workspace_diagnostics,
            work_done_progress_options,
        ) = read_object(
            alloc,
            value,
            (
                Optional("identifier"),
                Required("interFileDependencies"),
                Required("workspaceDiagnostics"),
                Flat,
            ),
        )?;
        Ok(DiagnosticOptions {
            identifier,
            inter_file_dependencies,
            workspace_diagnostics,
            work_done_progress_options,
        })
    }

    fn to_value(&self, alloc: Global) -> Result<Value, NoMemory> {
        let mut object = Writer::new(alloc);
        object.optional("identifier", &self.identifier);
        object.field("interFileDependencies", &self.inter_file_dependencies);
        object.field("workspaceDiagnostics", &self.workspace_diagnostics);
        object.flat(&self.work_done_progress_options);
        object.end()
    }
}

/// Options for registering `textDocument/diagnostic`, in `ServerCapabilities` or while the server
/// runs. Since 3.17 (LSP 3.17, "Pull Diagnostics").
#[derive(Debug, PartialEq, Eq, Default, Clone, Drop)]
pub struct DiagnosticRegistrationOptions {
    /// The documents for which diagnostics are offered.
    pub text_document_registration_options: TextDocumentRegistrationOptions,
    /// The options for the requests.
    pub diagnostic_options: DiagnosticOptions,
    /// The id for unregistering what is registered in `ServerCapabilities`. A dynamic registration
    /// has its id in `Registration`.
    pub static_registration_options: StaticRegistrationOptions,
}

#[tactic(auto, unfolding(crate::specs::Diagnostic::diagnostic_registration_options_row, lsp_base::specs::Registration::text_document_registration_options_row, crate::specs::Diagnostic::diagnostic_options_row, lsp_names::specs::Progress::work_done_progress_options_row, lsp_base::specs::Registration::static_registration_options_row))]
impl Wire for DiagnosticRegistrationOptions {
    ghost shape = { diagnostic_registration_options_row.shape };

    ghost shown = { diagnostic_registration_options_row.shown };

    fn from_value(alloc: Global, value: &Value) -> Result<DiagnosticRegistrationOptions, Misfit> {
        Ok(DiagnosticRegistrationOptions {
            text_document_registration_options: flat(alloc, value)?,
            diagnostic_options: flat(alloc, value)?,
            static_registration_options: flat(alloc, value)?,
        })
    }

    fn to_value(&self, alloc: Global) -> Result<Value, NoMemory> {
        let mut object = Writer::new(alloc);
        object.flat(&self.text_document_registration_options);
        object.flat(&self.diagnostic_options);
        object.flat(&self.static_registration_options);
        object.end()
    }
}
