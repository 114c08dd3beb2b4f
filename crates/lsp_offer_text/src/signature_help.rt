// Help on signatures.
ghost use Rattle.lsp_offer_text.specs.SignatureHelp.{signature_help_options_row, signature_help_registration_options_row};

use lsp_base::TextDocumentRegistrationOptions;
use lsp_names::WorkDoneProgressOptions;
use lsp_shape::{Flat, Misfit, NoMemory, Optional, Wire, Writer, flat, read_object};
use serde_json::Value;
use std::alloc::Global;

/// What a server offers for `textDocument/signatureHelp`, as the capability `signatureHelpProvider`
/// (LSP 3.17, "Signature Help Request").
#[derive(Debug, PartialEq, Eq, Default, Clone, Drop)]
pub struct SignatureHelpOptions {
    /// Characters after which the client requests signature help automatically, such as `(`.
    pub trigger_characters: Option<Vec<String>>,
    /// Further characters after which the client requests signature help again while it is already
    /// shown, as it does after the trigger characters. Since 3.15.
    pub retrigger_characters: Option<Vec<String>>,
    /// Whether the server reports work done progress for these requests where the client sends a
    /// token. Since 3.15.
    pub work_done_progress_options: WorkDoneProgressOptions,
}

#[tactic(auto, unfolding(crate::specs::SignatureHelp::signature_help_options_row, lsp_names::specs::Progress::work_done_progress_options_row))]
impl Wire for SignatureHelpOptions {
    ghost shape = { signature_help_options_row.shape };

    ghost shown = { signature_help_options_row.shown };

    fn from_value(alloc: Global, value: &Value) -> Result<SignatureHelpOptions, Misfit> {
        let (trigger_characters, retrigger_characters, work_done_progress_options) = read_object(
            alloc,
            value,
            (
                Optional("triggerCharacters"),
                Optional("retriggerCharacters"),
                Flat,
            ),
        )?;
        Ok(SignatureHelpOptions {
            trigger_characters,
            retrigger_characters,
            work_done_progress_options,
        })
    }

    fn to_value(&self, alloc: Global) -> Result<Value, NoMemory> {
        let mut object = Writer::new(alloc);
        object.optional("triggerCharacters", &self.trigger_characters);
        object.optional("retriggerCharacters", &self.retrigger_characters);
        object.flat(&self.work_done_progress_options);
        object.end()
    }
}

/// The options with which a server registers `textDocument/signatureHelp`. LSP 3.17 also has
/// trigger characters here; this type has none, so a server that needs them names them in
/// `SignatureHelpOptions` (LSP 3.17, "Signature Help Request").
#[derive(Debug, PartialEq, Eq, Clone, Drop)]
pub struct SignatureHelpRegistrationOptions {
    /// The documents that the registration applies to.
    pub text_document_registration_options: TextDocumentRegistrationOptions,
}

#[tactic(auto, unfolding(crate::specs::SignatureHelp::signature_help_registration_options_row, lsp_base::specs::Registration::text_document_registration_options_row))]
impl Wire for SignatureHelpRegistrationOptions {
    ghost shape = { signature_help_registration_options_row.shape };

    ghost shown = { signature_help_registration_options_row.shown };

    fn from_value(
        alloc: Global,
        value: &Value,
    ) -> Result<SignatureHelpRegistrationOptions, Misfit> {
        Ok(SignatureHelpRegistrationOptions {
            text_document_registration_options: flat(alloc, value)?,
        })
    }

    fn to_value(&self, alloc: Global) -> Result<Value, NoMemory> {
        let mut object = Writer::new(alloc);
        object.flat(&self.text_document_registration_options);
        object.end()
    }
}
