// Ranges that can be selected.
ghost use Rattle.std.specs.Prelude.{◌≡◌};
ghost use Rattle.lsp_offer_text.specs.Selection.{selection_range_provider_capability_row, selection_range_options_row, selection_range_registration_options_row};
ghost use Rattle.lsp_offer_text.specs.declared.selection.SelectionRangeProviderCapability.TheVariants as selection_range_provider_capability;

use crate::goto::StaticTextDocumentRegistrationOptions;
use lsp_names::WorkDoneProgressOptions;
use lsp_shape::{Misfit, NoMemory, Reader, Wire, Writer, attempt, flat, form};
use serde_json::Value;
use std::alloc::Global;

/// Whether a server supports `textDocument/selectionRange`, as the capability
/// `selectionRangeProvider`. Since 3.15 (LSP 3.17, "Selection Range Request").
#[derive(Debug, PartialEq, Eq, Clone, Drop)]
pub enum SelectionRangeProviderCapability {
    /// `true` if the request is supported.
    Simple(bool),
    /// The request is supported, with these options.
    Options(SelectionRangeOptions),
    /// The request is supported for the selected documents. For sending only: such an object is
    /// read as `Options`, without the documents and the id.
    RegistrationOptions(SelectionRangeRegistrationOptions),
}

#[tactic(auto, unfolding(crate::specs::Selection::selection_range_provider_capability_row))]
impl Wire for SelectionRangeProviderCapability {
    ghost shape = { selection_range_provider_capability_row.shape };

    ghost shown = { selection_range_provider_capability_row.shown };

    fn from_value(
        alloc: Global,
        value: &Value,
    ) -> Result<SelectionRangeProviderCapability, Misfit> {
        if let Some(simple) = attempt(alloc, value)? {
            return Ok(SelectionRangeProviderCapability::Simple(simple));
        }
        if let Some(options) = attempt(alloc, value)? {
            return Ok(SelectionRangeProviderCapability::Options(options));
        }
        Ok(SelectionRangeProviderCapability::RegistrationOptions(form(alloc, value)?))
    }

    fn to_value(&self, alloc: Global) -> Result<Value, NoMemory> {
        match self {
            SelectionRangeProviderCapability::Simple(simple) => simple.to_value(alloc),
            SelectionRangeProviderCapability::Options(options) => options.to_value(alloc),
            SelectionRangeProviderCapability::RegistrationOptions(options) => options.to_value(
                alloc,
            ),
        }
    }
}

impl From<SelectionRangeRegistrationOptions> for SelectionRangeProviderCapability {
    ghost from_gives = { λ given made. made
        ≡ selection_range_provider_capability.RegistrationOptions given };

    fn from(options: SelectionRangeRegistrationOptions) -> SelectionRangeProviderCapability {
        SelectionRangeProviderCapability::RegistrationOptions(options)
    }
}

impl From<SelectionRangeOptions> for SelectionRangeProviderCapability {
    ghost from_gives = { λ given made. made ≡ selection_range_provider_capability.Options given };

    fn from(options: SelectionRangeOptions) -> SelectionRangeProviderCapability {
        SelectionRangeProviderCapability::Options(options)
    }
}

impl From<bool> for SelectionRangeProviderCapability {
    ghost from_gives = { λ given made. made ≡ selection_range_provider_capability.Simple given };

    fn from(simple: bool) -> SelectionRangeProviderCapability {
        SelectionRangeProviderCapability::Simple(simple)
    }
}

/// What a server offers for `textDocument/selectionRange`. Since 3.15 (LSP 3.17, "Selection Range
/// Request").
#[derive(Debug, PartialEq, Eq, Default, Clone, Drop)]
pub struct SelectionRangeOptions {
    /// Whether the server reports work done progress for these requests where the client sends a
    /// token. Since 3.15.
    pub work_done_progress_options: WorkDoneProgressOptions,
}

#[tactic(auto, unfolding(crate::specs::Selection::selection_range_options_row, lsp_names::specs::Progress::work_done_progress_options_row))]
impl Wire for SelectionRangeOptions {
    ghost shape = { selection_range_options_row.shape };

    ghost shown = { selection_range_options_row.shown };

    fn from_value(alloc: Global, value: &Value) -> Result<SelectionRangeOptions, Misfit> {
        Ok(SelectionRangeOptions {
            work_done_progress_options: flat(alloc, value)?,
        })
    }

    fn to_value(&self, alloc: Global) -> Result<Value, NoMemory> {
        let mut object = Writer::new(alloc);
        object.flat(&self.work_done_progress_options);
        object.end()
    }
}

/// The options with which a server registers `textDocument/selectionRange`. Since 3.15 (LSP 3.17,
/// "Selection Range Request").
#[derive(Debug, PartialEq, Eq, Clone, Drop)]
pub struct SelectionRangeRegistrationOptions {
    /// What the server offers for the documents of the registration.
    pub selection_range_options: SelectionRangeOptions,
    /// The documents that the registration applies to, and its id.
    pub registration_options: StaticTextDocumentRegistrationOptions,
}

#[tactic(auto, unfolding(crate::specs::Selection::selection_range_registration_options_row, crate::specs::Selection::selection_range_options_row, lsp_names::specs::Progress::work_done_progress_options_row, crate::specs::Goto::static_text_document_registration_options_row))]
impl Wire for SelectionRangeRegistrationOptions {
    ghost shape = { selection_range_registration_options_row.shape };

    ghost shown = { selection_range_registration_options_row.shown };

    fn from_value(
        alloc: Global,
        value: &Value,
    ) -> Result<SelectionRangeRegistrationOptions, Misfit> {
        Ok(SelectionRangeRegistrationOptions {
            selection_range_options: flat(alloc, value)?,
            registration_options: flat(alloc, value)?,
        })
    }

    fn to_value(&self, alloc: Global) -> Result<Value, NoMemory> {
        let mut object = Writer::new(alloc);
        object.flat(&self.selection_range_options);
        object.flat(&self.registration_options);
        object.end()
    }
}
