// Completion.
ghost use Rattle.lsp_offer_text.specs.Completion.{completion_options_row, completion_options_completion_item_row, completion_registration_options_row};

use lsp_base::TextDocumentRegistrationOptions;
use lsp_names::WorkDoneProgressOptions;
use lsp_shape::{Flat, Misfit, NoMemory, Optional, Wire, Writer, flat, read_object};
use serde_json::Value;
use std::alloc::Global;

/// What a server offers for `textDocument/completion`, as the capability `completionProvider` (LSP
/// 3.17, "Completion Request").
#[derive(Debug, PartialEq, Eq, Default, Clone, Drop)]
pub struct CompletionOptions {
    /// Whether `completionItem/resolve` is supported, by which the client asks for further details
    /// of an item.
    pub resolve_provider: Option<bool>,
    /// Characters after which the client requests completion automatically, such as `.`. Characters
    /// of identifiers need not be listed.
    pub trigger_characters: Option<Vec<String>>,
    /// Characters that accept an item when typed, unless the item lists its own. Since 3.2.
    pub all_commit_characters: Option<Vec<String>>,
    /// Whether the server reports work done progress for these requests where the client sends a
    /// token. Since 3.15.
    pub work_done_progress_options: WorkDoneProgressOptions,
    /// What the server supports in a single completion item. Since 3.17.
    pub completion_item: Option<CompletionOptionsCompletionItem>,
}

#[tactic(auto, unfolding(crate::specs::Completion::completion_options_row, lsp_names::specs::Progress::work_done_progress_options_row))]
impl Wire for CompletionOptions {
    ghost shape = { completion_options_row.shape };

    ghost shown = { completion_options_row.shown };

    fn from_value(alloc: Global, value: &Value) -> Result<CompletionOptions, Misfit> {
        let (
            resolve_provider,
            trigger_characters,
            all_commit_characters,
            work_done_progress_options,
            completion_item,
        ) = read_object(
            alloc,
            value,
            (
                Optional("resolveProvider"),
                Optional("triggerCharacters"),
                Optional("allCommitCharacters"),
                Flat,
                Optional("completionItem"),
            ),
        )?;
        Ok(CompletionOptions {
            resolve_provider,
            trigger_characters,
            all_commit_characters,
            work_done_progress_options,
            completion_item,
        })
    }

    fn to_value(&self, alloc: Global) -> Result<Value, NoMemory> {
        let mut object = Writer::new(alloc);
        object.optional("resolveProvider", &self.resolve_provider);
        object.optional("triggerCharacters", &self.trigger_characters);
        object.optional("allCommitCharacters", &self.all_commit_characters);
        object.flat(&self.work_done_progress_options);
        object.optional("completionItem", &self.completion_item);
        object.end()
    }
}

/// What a server supports in a completion item, as the capability
/// `completionProvider.completionItem`. Since 3.17 (LSP 3.17, "Completion Request").
#[derive(Debug, PartialEq, Eq, Default, Clone, Drop)]
pub struct CompletionOptionsCompletionItem {
    /// Whether the server understands label details in the item of a `completionItem/resolve`
    /// request.
    pub label_details_support: Option<bool>,
}

#[tactic(auto, unfolding(crate::specs::Completion::completion_options_completion_item_row))]
impl Wire for CompletionOptionsCompletionItem {
    ghost shape = { completion_options_completion_item_row.shape };

    ghost shown = { completion_options_completion_item_row.shown };

    fn from_value(alloc: Global, value: &Value) -> Result<CompletionOptionsCompletionItem, Misfit> {
        let label_details_support = read_object(alloc, value, Optional("labelDetailsSupport"))?;
        Ok(CompletionOptionsCompletionItem {
            label_details_support,
        })
    }

    fn to_value(&self, alloc: Global) -> Result<Value, NoMemory> {
        let mut object = Writer::new(alloc);
        object.optional("labelDetailsSupport", &self.label_details_support);
        object.end()
    }
}

/// The options with which a server registers `textDocument/completion` (LSP 3.17, "Completion
/// Request").
#[derive(Debug, PartialEq, Clone, Drop)]
pub struct CompletionRegistrationOptions {
    /// The documents that the registration applies to.
    pub text_document_registration_options: TextDocumentRegistrationOptions,
    /// What the server offers for the documents of the registration.
    pub completion_options: CompletionOptions,
}

#[tactic(auto, unfolding(crate::specs::Completion::completion_registration_options_row, lsp_base::specs::Registration::text_document_registration_options_row, crate::specs::Completion::completion_options_row, lsp_names::specs::Progress::work_done_progress_options_row))]
impl Wire for CompletionRegistrationOptions {
    ghost shape = { completion_registration_options_row.shape };

    ghost shown = { completion_registration_options_row.shown };

    fn from_value(alloc: Global, value: &Value) -> Result<CompletionRegistrationOptions, Misfit> {
        Ok(CompletionRegistrationOptions {
            text_document_registration_options: flat(alloc, value)?,
            completion_options: flat(alloc, value)?,
        })
    }

    fn to_value(&self, alloc: Global) -> Result<Value, NoMemory> {
        let mut object = Writer::new(alloc);
        object.flat(&self.text_document_registration_options);
        object.flat(&self.completion_options);
        object.end()
    }
}
