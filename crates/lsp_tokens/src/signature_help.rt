// Help on signatures.
ghost use Rattle.lsp_tokens.specs.SignatureHelp.{signature_help_params_row, signature_help_context_row, signature_help_row, signature_information_row, parameter_information_row, parameter_label_row};

use lsp_base::{TextDocumentPositionParams, WorkDoneProgressParams};
use lsp_kinds::SignatureHelpTriggerKind;
use lsp_names::Documentation;
use lsp_shape::{
    Flat, Misfit, NoMemory, Optional, Required, Wire, Writer, attempt, flat, form, read_object,
};
use serde_json::Value;
use std::alloc::Global;

/// The parameters of a `textDocument/signatureHelp` request, which asks for the signatures of what
/// is being called at a position (LSP 3.17, "Signature Help Request").
#[derive(Debug, PartialEq, Eq, Clone, Drop)]
pub struct SignatureHelpParams {
    /// How the request was triggered. Clients send it only with the capability
    /// `textDocument.signatureHelp.contextSupport`, since 3.15.
    pub context: Option<SignatureHelpContext>,
    /// The document, and the position inside the call.
    pub text_document_position_params: TextDocumentPositionParams,
    /// The token, chosen by the client, under which the server may report work done progress with
    /// `$/progress`. Absent: the client asks for none. Since 3.15.
    pub work_done_progress_params: WorkDoneProgressParams,
}

#[tactic(auto, unfolding(crate::specs::SignatureHelp::signature_help_params_row, lsp_base::specs::Document::text_document_position_params_row, lsp_base::specs::Progress::work_done_progress_params_row))]
impl Wire for SignatureHelpParams {
    ghost shape = { signature_help_params_row.shape };

    ghost shown = { signature_help_params_row.shown };

    fn from_value(alloc: Global, value: &Value) -> Result<SignatureHelpParams, Misfit> {
        let (context, text_document_position_params, work_done_progress_params) = read_object(
            alloc,
            value,
            (Optional("context"), Flat, Flat),
        )?;
        Ok(SignatureHelpParams {
            context,
            text_document_position_params,
            work_done_progress_params,
        })
    }

    fn to_value(&self, alloc: Global) -> Result<Value, NoMemory> {
        let mut object = Writer::new(alloc);
        object.optional("context", &self.context);
        object.flat(&self.text_document_position_params);
        object.flat(&self.work_done_progress_params);
        object.end()
    }
}

/// How a `textDocument/signatureHelp` request was triggered. Since 3.15 (LSP 3.17, "Signature Help
/// Request").
#[derive(Debug, PartialEq, Eq, Clone, Drop)]
pub struct SignatureHelpContext {
    /// Whether the user or a command invoked it, a trigger character was typed, or the cursor moved
    /// or the text changed.
    pub trigger_kind: SignatureHelpTriggerKind,
    /// The trigger character that was typed. Absent if the request was triggered in another way.
    pub trigger_character: Option<String>,
    /// Whether signature help was already shown when the request was triggered.
    pub is_retrigger: bool,
    /// The signature help that is currently shown, with `active_signature` at the signature that
    /// the user last moved to. Absent if none is shown.
    pub active_signature_help: Option<SignatureHelp>,
}

#[tactic(auto, unfolding(crate::specs::SignatureHelp::signature_help_context_row))]
impl Wire for SignatureHelpContext {
    ghost shape = { signature_help_context_row.shape };

    ghost shown = { signature_help_context_row.shown };

    fn from_value(alloc: Global, value: &Value) -> Result<SignatureHelpContext, Misfit> {
        let (trigger_kind, trigger_character, is_retrigger, active_signature_help) = read_object(
            alloc,
            value,
            (
                Required("triggerKind"),
                Optional("triggerCharacter"),
                Required("isRetrigger"),
                Optional("activeSignatureHelp"),
            ),
        )?;
        Ok(SignatureHelpContext {
            trigger_kind,
            trigger_character,
            is_retrigger,
            active_signature_help,
        })
    }

    fn to_value(&self, alloc: Global) -> Result<Value, NoMemory> {
        let mut object = Writer::new(alloc);
        object.field("triggerKind", &self.trigger_kind);
        object.optional("triggerCharacter", &self.trigger_character);
        object.field("isRetrigger", &self.is_retrigger);
        object.optional("activeSignatureHelp", &self.active_signature_help);
        object.end()
    }
}

/// The result of a `textDocument/signatureHelp` request: the signatures that may be meant, and
/// which of them and of its parameters is current (LSP 3.17, "Signature Help Request").
#[derive(Debug, PartialEq, Eq, Clone, Drop)]
pub struct SignatureHelp {
    /// At least one signature. A server that has none sends null as the result instead.
    pub signatures: Vec<SignatureInformation>,
    /// The zero-based index in `signatures` of the current one. Absent, or out of bounds: 0.
    pub active_signature: Option<u32>,
    /// The zero-based index of the current parameter in the current signature. Absent, or out of
    /// bounds: 0. Ignored where the signature has no parameters.
    pub active_parameter: Option<u32>,
}

#[tactic(auto, unfolding(crate::specs::SignatureHelp::signature_help_row))]
impl Wire for SignatureHelp {
    ghost shape = { signature_help_row.shape };

    ghost shown = { signature_help_row.shown };

    fn from_value(alloc: Global, value: &Value) -> Result<SignatureHelp, Misfit> {
        let (signatures, active_signature, active_parameter) = read_object(
            alloc,
            value,
            (
                Required("signatures"),
                Optional("activeSignature"),
                Optional("activeParameter"),
            ),
        )?;
        Ok(SignatureHelp {
            signatures,
            active_signature,
            active_parameter,
        })
    }

    fn to_value(&self, alloc: Global) -> Result<Value, NoMemory> {
        let mut object = Writer::new(alloc);
        object.field("signatures", &self.signatures);
        object.optional("activeSignature", &self.active_signature);
        object.optional("activeParameter", &self.active_parameter);
        object.end()
    }
}

/// A signature of something that can be called, as one of those in `SignatureHelp` (LSP 3.17,
/// "Signature Help Request").
#[derive(Debug, PartialEq, Eq, Clone, Drop)]
pub struct SignatureInformation {
    /// The whole signature, as the client shows it.
    pub label: String,
    /// A description of what is called, which the client may show.
    pub documentation: Option<Documentation>,
    /// The parameters, in their order.
    pub parameters: Option<Vec<ParameterInformation>>,
    /// The zero-based index of the current parameter, used in place of the one in `SignatureHelp`.
    /// Only for clients with the capability `activeParameterSupport`, since 3.16.
    pub active_parameter: Option<u32>,
}

#[tactic(auto, unfolding(crate::specs::SignatureHelp::signature_information_row))]
impl Wire for SignatureInformation {
    ghost shape = { signature_information_row.shape };

    ghost shown = { signature_information_row.shown };

    fn from_value(alloc: Global, value: &Value) -> Result<SignatureInformation, Misfit> {
        let (label, documentation, parameters, active_parameter) = read_object(
            alloc,
            value,
            (
                Required("label"),
                Optional("documentation"),
                Optional("parameters"),
                Optional("activeParameter"),
            ),
        )?;
        Ok(SignatureInformation {
            label,
            documentation,
            parameters,
            active_parameter,
        })
    }

    fn to_value(&self, alloc: Global) -> Result<Value, NoMemory> {
        let mut object = Writer::new(alloc);
        object.field("label", &self.label);
        object.optional("documentation", &self.documentation);
        object.optional("parameters", &self.parameters);
        object.optional("activeParameter", &self.active_parameter);
        object.end()
    }
}

/// A parameter of a `SignatureInformation` (LSP 3.17, "Signature Help Request").
#[derive(Debug, PartialEq, Eq, Clone, Drop)]
pub struct ParameterInformation {
    /// The part of the signature's label that stands for the parameter, which the client can
    /// highlight.
    pub label: ParameterLabel,
    /// A description of the parameter, which the client may show.
    pub documentation: Option<Documentation>,
}

#[tactic(auto, unfolding(crate::specs::SignatureHelp::parameter_information_row))]
impl Wire for ParameterInformation {
    ghost shape = { parameter_information_row.shape };

    ghost shown = { parameter_information_row.shown };

    fn from_value(alloc: Global, value: &Value) -> Result<ParameterInformation, Misfit> {
        let (label, documentation) = read_object(
            alloc,
            value,
            (Required("label"), Optional("documentation")),
        )?;
        Ok(ParameterInformation {
            label,
            documentation,
        })
    }

    fn to_value(&self, alloc: Global) -> Result<Value, NoMemory> {
        let mut object = Writer::new(alloc);
        object.field("label", &self.label);
        object.optional("documentation", &self.documentation);
        object.end()
    }
}

/// Where a parameter is in the label of its signature (LSP 3.17, "Signature Help Request").
#[derive(Debug, PartialEq, Eq, Clone, Drop)]
pub enum ParameterLabel {
    /// The text of the parameter, which should occur in the label of the signature.
    Simple(String),
    /// Its start, and its end (exclusive), as zero-based offsets in the label of the signature, in
    /// UTF-16 code units. Only for clients with the capability `labelOffsetSupport`, since 3.14.
    LabelOffsets([u32; 2]),
}

#[tactic(auto, unfolding(crate::specs::SignatureHelp::parameter_label_row))]
impl Wire for ParameterLabel {
    ghost shape = { parameter_label_row.shape };

    ghost shown = { parameter_label_row.shown };

    fn from_value(alloc: Global, value: &Value) -> Result<ParameterLabel, Misfit> {
        if let Some(simple) = attempt(alloc, value)? {
            return Ok(ParameterLabel::Simple(simple));
        }
        Ok(ParameterLabel::LabelOffsets(form(alloc, value)?))
    }

    fn to_value(&self, alloc: Global) -> Result<Value, NoMemory> {
        match self {
            ParameterLabel::Simple(simple) => simple.to_value(alloc),
            ParameterLabel::LabelOffsets(offsets) => offsets.to_value(alloc),
        }
    }
}
