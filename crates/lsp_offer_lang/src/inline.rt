// Inlay hints and inline values.
ghost use Rattle.lsp_offer_lang.specs.Inline.{inlay_hint_server_capabilities_row, inlay_hint_options_row, inlay_hint_registration_options_row, inline_value_server_capabilities_row, inline_value_options_row, inline_value_registration_options_row};

use lsp_base::{StaticRegistrationOptions, TextDocumentRegistrationOptions};
use lsp_names::WorkDoneProgressOptions;
use lsp_shape::{Flat, Misfit, NoMemory, Optional, Wire, Writer, attempt, flat, form, read_object};
use serde_json::Value;
use std::alloc::Global;

/// How a server supports `textDocument/inlayHint`, in place of a boolean in `ServerCapabilities`.
/// Since 3.17 (LSP 3.17, "Inlay Hint Request").
#[derive(Debug, PartialEq, Eq, Clone, Drop)]
pub enum InlayHintServerCapabilities {
    /// The request is supported, with these options.
    Options(InlayHintOptions),
    /// The request is supported for the selected documents. For sending only: such an object is
    /// read as `Options`.
    RegistrationOptions(InlayHintRegistrationOptions),
}

#[tactic(auto, unfolding(crate::specs::Inline::inlay_hint_server_capabilities_row))]
impl Wire for InlayHintServerCapabilities {
    ghost shape = { inlay_hint_server_capabilities_row.shape };

    ghost shown = { inlay_hint_server_capabilities_row.shown };

    fn from_value(alloc: Global, value: &Value) -> Result<InlayHintServerCapabilities, Misfit> {
        if let Some(options) = attempt(alloc, value)? {
            return Ok(InlayHintServerCapabilities::Options(options));
        }
        Ok(InlayHintServerCapabilities::RegistrationOptions(form(alloc, value)?))
    }

    fn to_value(&self, alloc: Global) -> Result<Value, NoMemory> {
        match self {
            InlayHintServerCapabilities::Options(options) => options.to_value(alloc),
            InlayHintServerCapabilities::RegistrationOptions(options) => options.to_value(alloc),
        }
    }
}

/// Options for `textDocument/inlayHint`, since 3.17 (LSP 3.17, "Inlay Hint Request").
#[derive(Debug, PartialEq, Eq, Default, Clone, Drop)]
pub struct InlayHintOptions {
    /// Whether the server can report progress on the request.
    pub work_done_progress_options: WorkDoneProgressOptions,
    /// Whether `inlayHint/resolve` is supported, by which the client asks for further details of a
    /// hint when it needs them.
    pub resolve_provider: Option<bool>,
}

#[tactic(auto, unfolding(crate::specs::Inline::inlay_hint_options_row, lsp_names::specs::Progress::work_done_progress_options_row))]
impl Wire for InlayHintOptions {
    ghost shape = { inlay_hint_options_row.shape };

    ghost shown = { inlay_hint_options_row.shown };

    fn from_value(alloc: Global, value: &Value) -> Result<InlayHintOptions, Misfit> {
        let (work_done_progress_options, resolve_provider) = read_object(
            alloc,
            value,
            (Flat, Optional("resolveProvider")),
        )?;
        Ok(InlayHintOptions {
            work_done_progress_options,
            resolve_provider,
        })
    }

    fn to_value(&self, alloc: Global) -> Result<Value, NoMemory> {
        let mut object = Writer::new(alloc);
        object.flat(&self.work_done_progress_options);
        object.optional("resolveProvider", &self.resolve_provider);
        object.end()
    }
}

/// Options for registering `textDocument/inlayHint`, in `ServerCapabilities` or while the server
/// runs. Since 3.17 (LSP 3.17, "Inlay Hint Request").
#[derive(Debug, PartialEq, Eq, Default, Clone, Drop)]
pub struct InlayHintRegistrationOptions {
    /// The options for the request.
    pub inlay_hint_options: InlayHintOptions,
    /// The documents for which inlay hints are offered.
    pub text_document_registration_options: TextDocumentRegistrationOptions,
    /// The id for unregistering what is registered in `ServerCapabilities`. A dynamic registration
    /// has its id in `Registration`.
    pub static_registration_options: StaticRegistrationOptions,
}

#[tactic(auto, unfolding(crate::specs::Inline::inlay_hint_registration_options_row, crate::specs::Inline::inlay_hint_options_row, lsp_names::specs::Progress::work_done_progress_options_row, lsp_base::specs::Registration::text_document_registration_options_row, lsp_base::specs::Registration::static_registration_options_row))]
impl Wire for InlayHintRegistrationOptions {
    ghost shape = { inlay_hint_registration_options_row.shape };

    ghost shown = { inlay_hint_registration_options_row.shown };

    fn from_value(alloc: Global, value: &Value) -> Result<InlayHintRegistrationOptions, Misfit> {
        Ok(InlayHintRegistrationOptions {
            inlay_hint_options: flat(alloc, value)?,
            text_document_registration_options: flat(alloc, value)?,
            static_registration_options: flat(alloc, value)?,
        })
    }

    fn to_value(&self, alloc: Global) -> Result<Value, NoMemory> {
        let mut object = Writer::new(alloc);
        object.flat(&self.inlay_hint_options);
        object.flat(&self.text_document_registration_options);
        object.flat(&self.static_registration_options);
        object.end()
    }
}

/// How a server supports `textDocument/inlineValue`, in place of a boolean in `ServerCapabilities`.
/// Since 3.17 (LSP 3.17, "Inline Value Request").
#[derive(Debug, PartialEq, Eq, Clone, Drop)]
pub enum InlineValueServerCapabilities {
    /// The request is supported, with these options.
    Options(InlineValueOptions),
    /// The request is supported for the selected documents. For sending only: such an object is
    /// read as `Options`.
    RegistrationOptions(InlineValueRegistrationOptions),
}

#[tactic(auto, unfolding(crate::specs::Inline::inline_value_server_capabilities_row))]
impl Wire for InlineValueServerCapabilities {
    ghost shape = { inline_value_server_capabilities_row.shape };

    ghost shown = { inline_value_server_capabilities_row.shown };

    fn from_value(alloc: Global, value: &Value) -> Result<InlineValueServerCapabilities, Misfit> {
        if let Some(options) = attempt(alloc, value)? {
            return Ok(InlineValueServerCapabilities::Options(options));
        }
        Ok(InlineValueServerCapabilities::RegistrationOptions(form(alloc, value)?))
    }

    fn to_value(&self, alloc: Global) -> Result<Value, NoMemory> {
        match self {
            InlineValueServerCapabilities::Options(options) => options.to_value(alloc),
            InlineValueServerCapabilities::RegistrationOptions(options) => options.to_value(alloc),
        }
    }
}

/// Options for `textDocument/inlineValue`, since 3.17 (LSP 3.17, "Inline Value Request").
#[derive(Debug, PartialEq, Eq, Default, Clone, Drop)]
pub struct InlineValueOptions {
    /// Whether the server can report progress on the request.
    pub work_done_progress_options: WorkDoneProgressOptions,
}

#[tactic(auto, unfolding(crate::specs::Inline::inline_value_options_row, lsp_names::specs::Progress::work_done_progress_options_row))]
impl Wire for InlineValueOptions {
    ghost shape = { inline_value_options_row.shape };

    ghost shown = { inline_value_options_row.shown };

    fn from_value(alloc: Global, value: &Value) -> Result<InlineValueOptions, Misfit> {
        Ok(InlineValueOptions {
            work_done_progress_options: flat(alloc, value)?,
        })
    }

    fn to_value(&self, alloc: Global) -> Result<Value, NoMemory> {
        let mut object = Writer::new(alloc);
        object.flat(&self.work_done_progress_options);
        object.end()
    }
}

/// Options for registering `textDocument/inlineValue`, in `ServerCapabilities` or while the server
/// runs. Since 3.17 (LSP 3.17, "Inline Value Request").
#[derive(Debug, PartialEq, Eq, Default, Clone, Drop)]
pub struct InlineValueRegistrationOptions {
    /// The options for the request.
    pub inline_value_options: InlineValueOptions,
    /// The documents for which inline values are offered.
    pub text_document_registration_options: TextDocumentRegistrationOptions,
    /// The id for unregistering what is registered in `ServerCapabilities`. A dynamic registration
    /// has its id in `Registration`.
    pub static_registration_options: StaticRegistrationOptions,
}

#[tactic(auto, unfolding(crate::specs::Inline::inline_value_registration_options_row, crate::specs::Inline::inline_value_options_row, lsp_names::specs::Progress::work_done_progress_options_row, lsp_base::specs::Registration::text_document_registration_options_row, lsp_base::specs::Registration::static_registration_options_row))]
impl Wire for InlineValueRegistrationOptions {
    ghost shape = { inline_value_registration_options_row.shape };

    ghost shown = { inline_value_registration_options_row.shown };

    fn from_value(alloc: Global, value: &Value) -> Result<InlineValueRegistrationOptions, Misfit> {
        Ok(InlineValueRegistrationOptions {
            inline_value_options: flat(alloc, value)?,
            text_document_registration_options: flat(alloc, value)?,
            static_registration_options: flat(alloc, value)?,
        })
    }

    fn to_value(&self, alloc: Global) -> Result<Value, NoMemory> {
        let mut object = Writer::new(alloc);
        object.flat(&self.inline_value_options);
        object.flat(&self.text_document_registration_options);
        object.flat(&self.static_registration_options);
        object.end()
    }
}
