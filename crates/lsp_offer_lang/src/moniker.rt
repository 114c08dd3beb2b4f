// Monikers.
ghost use Rattle.lsp_offer_lang.specs.Moniker.{moniker_server_capabilities_row, moniker_options_row, moniker_registration_options_row};

use lsp_base::TextDocumentRegistrationOptions;
use lsp_names::WorkDoneProgressOptions;
use lsp_shape::{Misfit, NoMemory, Reader, Wire, Writer, attempt, flat, form};
use serde_json::Value;
use std::alloc::Global;

/// How a server supports `textDocument/moniker`, in place of a boolean in `ServerCapabilities`.
/// Since 3.16 (LSP 3.17, "Monikers").
#[derive(Debug, PartialEq, Eq, Clone, Drop)]
pub enum MonikerServerCapabilities {
    /// The request is supported, with these options.
    Options(MonikerOptions),
    /// The request is supported for the selected documents. For sending only: such an object is
    /// read as `Options`.
    RegistrationOptions(MonikerRegistrationOptions),
}

#[tactic(auto, unfolding(crate::specs::Moniker::moniker_server_capabilities_row))]
impl Wire for MonikerServerCapabilities {
    ghost shape = { moniker_server_capabilities_row.shape };

    ghost shown = { moniker_server_capabilities_row.shown };

    fn from_value(alloc: Global, value: &Value) -> Result<MonikerServerCapabilities, Misfit> {
        if let Some(options) = attempt(alloc, value)? {
            return Ok(MonikerServerCapabilities::Options(options));
        }
        Ok(MonikerServerCapabilities::RegistrationOptions(form(alloc, value)?))
    }

    fn to_value(&self, alloc: Global) -> Result<Value, NoMemory> {
        match self {
            MonikerServerCapabilities::Options(options) => options.to_value(alloc),
            MonikerServerCapabilities::RegistrationOptions(options) => options.to_value(alloc),
        }
    }
}

/// Options for `textDocument/moniker`, since 3.16 (LSP 3.17, "Monikers").
#[derive(Debug, PartialEq, Eq, Clone, Drop)]
pub struct MonikerOptions {
    /// Whether the server can report progress on the request.
    pub work_done_progress_options: WorkDoneProgressOptions,
}

#[tactic(auto, unfolding(crate::specs::Moniker::moniker_options_row, lsp_names::specs::Progress::work_done_progress_options_row))]
impl Wire for MonikerOptions {
    ghost shape = { moniker_options_row.shape };

    ghost shown = { moniker_options_row.shown };

    fn from_value(alloc: Global, value: &Value) -> Result<MonikerOptions, Misfit> {
        Ok(MonikerOptions {
            work_done_progress_options: flat(alloc, value)?,
        })
    }

    fn to_value(&self, alloc: Global) -> Result<Value, NoMemory> {
        let mut object = Writer::new(alloc);
        object.flat(&self.work_done_progress_options);
        object.end()
    }
}

/// Options for registering `textDocument/moniker`, in `ServerCapabilities` or while the server
/// runs. Since 3.16 (LSP 3.17, "Monikers").
#[derive(Debug, PartialEq, Eq, Clone, Drop)]
pub struct MonikerRegistrationOptions {
    /// The documents for which monikers are offered.
    pub text_document_registration_options: TextDocumentRegistrationOptions,
    /// The options for the request.
    pub moniker_options: MonikerOptions,
}

#[tactic(auto, unfolding(crate::specs::Moniker::moniker_registration_options_row, lsp_base::specs::Registration::text_document_registration_options_row, crate::specs::Moniker::moniker_options_row, lsp_names::specs::Progress::work_done_progress_options_row))]
impl Wire for MonikerRegistrationOptions {
    ghost shape = { moniker_registration_options_row.shape };

    ghost shown = { moniker_registration_options_row.shown };

    fn from_value(alloc: Global, value: &Value) -> Result<MonikerRegistrationOptions, Misfit> {
        Ok(MonikerRegistrationOptions {
            text_document_registration_options: flat(alloc, value)?,
            moniker_options: flat(alloc, value)?,
        })
    }

    fn to_value(&self, alloc: Global) -> Result<Value, NoMemory> {
        let mut object = Writer::new(alloc);
        object.flat(&self.text_document_registration_options);
        object.flat(&self.moniker_options);
        object.end()
    }
}
