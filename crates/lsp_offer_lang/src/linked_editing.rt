// Ranges that are edited together.
ghost use Rattle.lsp_offer_lang.specs.LinkedEditing.{linked_editing_range_server_capabilities_row, linked_editing_range_options_row, linked_editing_range_registration_options_row};

use lsp_base::{StaticRegistrationOptions, TextDocumentRegistrationOptions};
use lsp_names::WorkDoneProgressOptions;
use lsp_shape::{Misfit, NoMemory, Reader, Wire, Writer, attempt, flat, form};
use serde_json::Value;
use std::alloc::Global;

/// Whether a server supports `textDocument/linkedEditingRange`, as the capability
/// `linkedEditingRangeProvider`. Since 3.16 (LSP 3.17, "Linked Editing Range").
#[derive(Debug, PartialEq, Eq, Clone, Drop)]
pub enum LinkedEditingRangeServerCapabilities {
    /// `true` if the request is supported.
    Simple(bool),
    /// The request is supported, with these options.
    Options(LinkedEditingRangeOptions),
    /// The request is supported for the selected documents. For sending only: such an object is
    /// read as `Options`.
    RegistrationOptions(LinkedEditingRangeRegistrationOptions),
}

#[tactic(auto, unfolding(crate::specs::LinkedEditing::linked_editing_range_server_capabilities_row))]
impl Wire for LinkedEditingRangeServerCapabilities {
    ghost shape = { linked_editing_range_server_capabilities_row.shape };

    ghost shown = { linked_editing_range_server_capabilities_row.shown };

    fn from_value(
        alloc: Global,
        value: &Value,
    ) -> Result<LinkedEditingRangeServerCapabilities, Misfit> {
        if let Some(simple) = attempt(alloc, value)? {
            return Ok(LinkedEditingRangeServerCapabilities::Simple(simple));
        }
        if let Some(options) = attempt(alloc, value)? {
            return Ok(LinkedEditingRangeServerCapabilities::Options(options));
        }
        Ok(LinkedEditingRangeServerCapabilities::RegistrationOptions(form(alloc, value)?))
    }

    fn to_value(&self, alloc: Global) -> Result<Value, NoMemory> {
        match self {
            LinkedEditingRangeServerCapabilities::Simple(simple) => simple.to_value(alloc),
            LinkedEditingRangeServerCapabilities::Options(options) => options.to_value(alloc),
            LinkedEditingRangeServerCapabilities::RegistrationOptions(options) => options.to_value(
                alloc,
            ),
        }
    }
}

/// Options for `textDocument/linkedEditingRange`, since 3.16 (LSP 3.17, "Linked Editing Range").
#[derive(Debug, PartialEq, Eq, Default, Clone, Drop)]
pub struct LinkedEditingRangeOptions {
    /// Whether the server can report progress on the request.
    pub work_done_progress_options: WorkDoneProgressOptions,
}

#[tactic(auto, unfolding(crate::specs::LinkedEditing::linked_editing_range_options_row, lsp_names::specs::Progress::work_done_progress_options_row))]
impl Wire for LinkedEditingRangeOptions {
    ghost shape = { linked_editing_range_options_row.shape };

    ghost shown = { linked_editing_range_options_row.shown };

    fn from_value(alloc: Global, value: &Value) -> Result<LinkedEditingRangeOptions, Misfit> {
        Ok(LinkedEditingRangeOptions {
            work_done_progress_options: flat(alloc, value)?,
        })
    }

    fn to_value(&self, alloc: Global) -> Result<Value, NoMemory> {
        let mut object = Writer::new(alloc);
        object.flat(&self.work_done_progress_options);
        object.end()
    }
}

/// Options for registering `textDocument/linkedEditingRange`, in `ServerCapabilities` or while the
/// server runs. Since 3.16 (LSP 3.17, "Linked Editing Range").
#[derive(Debug, PartialEq, Eq, Clone, Drop)]
pub struct LinkedEditingRangeRegistrationOptions {
    /// The documents for which linked editing is offered.
    pub text_document_registration_options: TextDocumentRegistrationOptions,
    /// The options for the request.
    pub linked_editing_range_options: LinkedEditingRangeOptions,
    /// The id for unregistering what is registered in `ServerCapabilities`. A dynamic registration
    /// has its id in `Registration`.
    pub static_registration_options: StaticRegistrationOptions,
}

#[tactic(auto, unfolding(crate::specs::LinkedEditing::linked_editing_range_registration_options_row, lsp_base::specs::Registration::text_document_registration_options_row, crate::specs::LinkedEditing::linked_editing_range_options_row, lsp_names::specs::Progress::work_done_progress_options_row, lsp_base::specs::Registration::static_registration_options_row))]
impl Wire for LinkedEditingRangeRegistrationOptions {
    ghost shape = { linked_editing_range_registration_options_row.shape };

    ghost shown = { linked_editing_range_registration_options_row.shown };

    fn from_value(
        alloc: Global,
        value: &Value,
    ) -> Result<LinkedEditingRangeRegistrationOptions, Misfit> {
        Ok(LinkedEditingRangeRegistrationOptions {
            text_document_registration_options: flat(alloc, value)?,
            linked_editing_range_options: flat(alloc, value)?,
            static_registration_options: flat(alloc, value)?,
        })
    }

    fn to_value(&self, alloc: Global) -> Result<Value, NoMemory> {
        let mut object = Writer::new(alloc);
        object.flat(&self.text_document_registration_options);
        object.flat(&self.linked_editing_range_options);
        object.flat(&self.static_registration_options);
        object.end()
    }
}
