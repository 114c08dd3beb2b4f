// Formatting and renaming.
ghost use Rattle.std.specs.Prelude.{◌≡◌, None, [], string_bytes};
ghost use Rattle.lsp_offer_text.specs.Formatting.{document_formatting_options_row, document_range_formatting_options_row, document_on_type_formatting_options_row, document_on_type_formatting_registration_options_row, rename_options_row};

use lsp_base::DocumentSelector;
use lsp_names::WorkDoneProgressOptions;
use lsp_shape::{Flat, Misfit, NoMemory, Optional, Required, Wire, Writer, flat, read_object};
use serde_json::Value;
use std::alloc::Global;

/// What a server offers for `textDocument/formatting`, as the capability
/// `documentFormattingProvider` (LSP 3.17, "Document Formatting Request").
#[derive(Debug, PartialEq, Eq, Default, Clone, Drop)]
pub struct DocumentFormattingOptions {
    /// Whether the server reports work done progress for these requests where the client sends a
    /// token. Since 3.15.
    pub work_done_progress_options: WorkDoneProgressOptions,
}

#[tactic(auto, unfolding(crate::specs::Formatting::document_formatting_options_row, lsp_names::specs::Progress::work_done_progress_options_row))]
impl Wire for DocumentFormattingOptions {
    ghost shape = { document_formatting_options_row.shape };

    ghost shown = { document_formatting_options_row.shown };

    fn from_value(alloc: Global, value: &Value) -> Result<DocumentFormattingOptions, Misfit> {
        Ok(DocumentFormattingOptions {
            work_done_progress_options: flat(alloc, value)?,
        })
    }

    fn to_value(&self, alloc: Global) -> Result<Value, NoMemory> {
        let mut object = Writer::new(alloc);
        object.flat(&self.work_done_progress_options);
        object.end()
    }
}

/// What a server offers for `textDocument/rangeFormatting`, as the capability
/// `documentRangeFormattingProvider` (LSP 3.17, "Document Range Formatting Request").
#[derive(Debug, PartialEq, Eq, Clone, Drop)]
pub struct DocumentRangeFormattingOptions {
    /// Whether the server reports work done progress for these requests where the client sends a
    /// token. Since 3.15.
    pub work_done_progress_options: WorkDoneProgressOptions,
}

#[tactic(auto, unfolding(crate::specs::Formatting::document_range_formatting_options_row, lsp_names::specs::Progress::work_done_progress_options_row))]
impl Wire for DocumentRangeFormattingOptions {
    ghost shape = { document_range_formatting_options_row.shape };

    ghost shown = { document_range_formatting_options_row.shown };

    fn from_value(alloc: Global, value: &Value) -> Result<DocumentRangeFormattingOptions, Misfit> {
        Ok(DocumentRangeFormattingOptions {
            work_done_progress_options: flat(alloc, value)?,
        })
    }

    fn to_value(&self, alloc: Global) -> Result<Value, NoMemory> {
        let mut object = Writer::new(alloc);
        object.flat(&self.work_done_progress_options);
        object.end()
    }
}

/// What a server offers for `textDocument/onTypeFormatting`, as the capability
/// `documentOnTypeFormattingProvider` (LSP 3.17, "Document on Type Formatting Request").
#[derive(Debug, PartialEq, Eq, Clone, Drop)]
pub struct DocumentOnTypeFormattingOptions {
    /// A character after which the client requests formatting, such as `}`.
    pub first_trigger_character: String,
    /// Further characters of this sort. Absent: there are none.
    pub more_trigger_character: Option<Vec<String>>,
}

impl DocumentOnTypeFormattingOptions {
    /// The default value: an empty string as first character, and no further ones.
    pub fn default(alloc: Global) -> DocumentOnTypeFormattingOptions
        ensures first_trigger_character { string_bytes result.first_trigger_character ≡ [] }
        ensures more_trigger_character { result.more_trigger_character ≡ None }
    {
        DocumentOnTypeFormattingOptions {
            first_trigger_character: String::new(alloc),
            more_trigger_character: None,
        }
    }
}

#[tactic(auto, unfolding(crate::specs::Formatting::document_on_type_formatting_options_row))]
impl Wire for DocumentOnTypeFormattingOptions {
    ghost shape = { document_on_type_formatting_options_row.shape };

    ghost shown = { document_on_type_formatting_options_row.shown };

    fn from_value(alloc: Global, value: &Value) -> Result<DocumentOnTypeFormattingOptions, Misfit> {
        let (first_trigger_character, more_trigger_character) = read_object(
            alloc,
            value,
            (
                Required("firstTriggerCharacter"),
                Optional("moreTriggerCharacter"),
            ),
        )?;
        Ok(DocumentOnTypeFormattingOptions {
            first_trigger_character,
            more_trigger_character,
        })
    }

    fn to_value(&self, alloc: Global) -> Result<Value, NoMemory> {
        let mut object = Writer::new(alloc);
        object.field("firstTriggerCharacter", &self.first_trigger_character);
        object.optional("moreTriggerCharacter", &self.more_trigger_character);
        object.end()
    }
}

/// The options with which a server registers `textDocument/onTypeFormatting` (LSP 3.17, "Document
/// on Type Formatting Request").
#[derive(Debug, PartialEq, Eq, Clone, Drop)]
pub struct DocumentOnTypeFormattingRegistrationOptions {
    /// The documents that the registration applies to. `None`, sent as `null`: those that the
    /// client selects itself.
    pub document_selector: Option<DocumentSelector>,
    /// A character after which the client requests formatting, such as `}`.
    pub first_trigger_character: String,
    /// Further characters of this sort. Absent: there are none.
    pub more_trigger_character: Option<Vec<String>>,
}

impl DocumentOnTypeFormattingRegistrationOptions {
    /// The default value: an empty string as first character, no further ones, and no document
    /// selector.
    pub fn default(alloc: Global) -> DocumentOnTypeFormattingRegistrationOptions
        ensures document_selector { result.document_selector ≡ None }
        ensures first_trigger_character { string_bytes result.first_trigger_character ≡ [] }
        ensures more_trigger_character { result.more_trigger_character ≡ None }
    {
        DocumentOnTypeFormattingRegistrationOptions {
            document_selector: None,
            first_trigger_character: String::new(alloc),
            more_trigger_character: None,
        }
    }
}

#[tactic(auto, unfolding(crate::specs::Formatting::document_on_type_formatting_registration_options_row))]
impl Wire for DocumentOnTypeFormattingRegistrationOptions {
    ghost shape = { document_on_type_formatting_registration_options_row.shape };

    ghost shown = { document_on_type_formatting_registration_options_row.shown };

    fn from_value(
        alloc: Global,
        value: &Value,
    ) -> Result<DocumentOnTypeFormattingRegistrationOptions, Misfit> {
        let (document_selector, first_trigger_character, more_trigger_character) = read_object(
            alloc,
            value,
            (
                Optional("documentSelector"),
                Required("firstTriggerCharacter"),
                Optional("moreTriggerCharacter"),
            ),
        )?;
        Ok(DocumentOnTypeFormattingRegistrationOptions {
            document_selector,
            first_trigger_character,
            more_trigger_character,
        })
    }

    fn to_value(&self, alloc: Global) -> Result<Value, NoMemory> {
        let mut object = Writer::new(alloc);
        object.nullable("documentSelector", &self.document_selector);
        object.field("firstTriggerCharacter", &self.first_trigger_character);
        object.optional("moreTriggerCharacter", &self.more_trigger_character);
        object.end()
    }
}

/// What a server offers for `textDocument/rename`, as the capability `renameProvider`. Only for
/// clients with the capability `prepare_support`; others get a boolean (LSP 3.17, "Rename
/// Request").
#[derive(Debug, PartialEq, Eq, Clone, Drop)]
pub struct RenameOptions {
    /// Whether `textDocument/prepareRename` is supported. Since 3.12.
    pub prepare_provider: Option<bool>,
    /// Whether the server reports work done progress for these requests where the client sends a
    /// token. Since 3.15.
    pub work_done_progress_options: WorkDoneProgressOptions,
}

#[tactic(auto, unfolding(crate::specs::Formatting::rename_options_row, lsp_names::specs::Progress::work_done_progress_options_row))]
impl Wire for RenameOptions {
    ghost shape = { rename_options_row.shape };

    ghost shown = { rename_options_row.shown };

    fn from_value(alloc: Global, value: &Value) -> Result<RenameOptions, Misfit> {
        let (prepare_provider, work_done_progress_options) = read_object(
            alloc,
            value,
            (Optional("prepareProvider"), Flat),
        )?;
        Ok(RenameOptions {
            prepare_provider,
            work_done_progress_options,
        })
    }

    fn to_value(&self, alloc: Global) -> Result<Value, NoMemory> {
        let mut object = Writer::new(alloc);
        object.optional("prepareProvider", &self.prepare_provider);
        object.flat(&self.work_done_progress_options);
        object.end()
    }
}
