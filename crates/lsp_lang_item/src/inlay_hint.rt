// Inlay hints.
ghost use Rattle.std.specs.Prelude.{◌≡◌, None, [], string_bytes};
ghost use Rattle.lsp_lang_item.specs.InlayHint.{inlay_hint_params_row, inlay_hint_row, inlay_hint_label_row, inlay_hint_tooltip_row, inlay_hint_label_part_row, inlay_hint_label_part_tooltip_row};
ghost use Rattle.lsp_lang_item.specs.declared.inlay_hint.InlayHintLabel.TheVariants as inlay_hint_label;
ghost use Rattle.lsp_lang_item.specs.declared.inlay_hint.InlayHintLabelPartTooltip.TheVariants as inlay_hint_label_part_tooltip;
ghost use Rattle.lsp_lang_item.specs.declared.inlay_hint.InlayHintTooltip.TheVariants as inlay_hint_tooltip;

use lsp_base::{
    Command, LSPAny, Location, Position, Range, TextDocumentIdentifier, TextEdit,
    WorkDoneProgressParams,
};
use lsp_kinds::InlayHintKind;
use lsp_names::MarkupContent;
use lsp_shape::{
    Copies, Flat, Misfit, NoMemory, Optional, Required, Wire, Writer, attempt, flat, form,
    read_object,
};
use serde_json::Value;
use std::alloc::{AllocError, Global};

/// Parameters of `textDocument/inlayHint`: the part of a document for which hints are wanted, since
/// 3.17 (LSP 3.17, "Inlay Hint Request").
#[derive(Debug, PartialEq, Eq, Clone, Drop)]
pub struct InlayHintParams {
    /// The token for progress reports on this request, if the client sent one.
    pub work_done_progress_params: WorkDoneProgressParams,
    /// The document to compute hints for.
    pub text_document: TextDocumentIdentifier,
    /// The part of the document for which hints are wanted, usually the one on the screen.
    pub range: Range,
}

#[tactic(auto, unfolding(crate::specs::InlayHint::inlay_hint_params_row, lsp_base::specs::Progress::work_done_progress_params_row))]
impl Wire for InlayHintParams {
    ghost shape = { inlay_hint_params_row.shape };

    ghost shown = { inlay_hint_params_row.shown };

    fn from_value(alloc: Global, value: &Value) -> Result<InlayHintParams, Misfit> {
        let (work_done_progress_params, text_document, range) = read_object(
            alloc,
            value,
            (Flat, Required("textDocument"), Required("range")),
        )?;
        Ok(InlayHintParams {
            work_done_progress_params,
            text_document,
            range,
        })
    }

    fn to_value(&self, alloc: Global) -> Result<Value, NoMemory> {
        let mut object = Writer::new(alloc);
        object.flat(&self.work_done_progress_params);
        object.field("textDocument", &self.text_document);
        object.field("range", &self.range);
        object.end()
    }
}

/// A note that a client draws between the characters of a document, such as an inferred type: an
/// entry of the result of `textDocument/inlayHint`, since 3.17. What a client lists in
/// `textDocument.inlayHint.resolveSupport` may be left to `inlayHint/resolve` (LSP 3.17, "Inlay
/// Hint Request").
#[derive(Debug, Drop)]
pub struct InlayHint {
    /// Where in the document the hint is drawn.
    pub position: Position,
    /// What the hint shows. It must not be empty.
    pub label: InlayHintLabel,
    /// Whether the hint shows a type or the name of a parameter. Absent: the client decides how to
    /// draw it.
    pub kind: Option<InlayHintKind>,
    /// Edits that the client applies when the user accepts the hint. They should write what it
    /// shows into the text, so that the hint can disappear.
    pub text_edits: Option<Vec<TextEdit>>,
    /// What appears when the user hovers over the hint.
    pub tooltip: Option<InlayHintTooltip>,
    /// Whether the client leaves some space before the hint. Absent: it doesn't.
    pub padding_left: Option<bool>,
    /// Whether the client leaves some space after the hint. Absent: it doesn't.
    pub padding_right: Option<bool>,
    /// Any value, sent as the member `data`. The client returns it unchanged in
    /// `inlayHint/resolve`.
    pub payload: Option<LSPAny>,
}

impl Clone for InlayHint {
    ghost is_clone = { λ x y. ⟦<Position as Clone>⟧.is_clone x.position y.position
        × ⟦<InlayHintLabel as Clone>⟧.is_clone x.label y.label
        × ⟦<Option<InlayHintKind> as Clone>⟧.is_clone x.kind y.kind
        × ⟦<Option<Vec<TextEdit>> as Clone>⟧.is_clone x.text_edits y.text_edits
        × ⟦<Option<InlayHintTooltip> as Clone>⟧.is_clone x.tooltip y.tooltip
        × ⟦<Option<bool> as Clone>⟧.is_clone x.padding_left y.padding_left
        × ⟦<Option<bool> as Clone>⟧.is_clone x.padding_right y.padding_right
        × ⟦<Option<LSPAny> as Clone>⟧.is_clone x.payload y.payload };

    fn clone(&self) -> Result<InlayHint, AllocError> {
        let mut copies = Copies::new();
        let copy = InlayHint {
            position: self.position,
            label: self.label.clone()?,
            kind: copies.optional(&self.kind),
            text_edits: copies.optional(&self.text_edits),
            tooltip: copies.optional(&self.tooltip),
            padding_left: copies.optional(&self.padding_left),
            padding_right: copies.optional(&self.padding_right),
            payload: copies.optional(&self.payload),
        };
        copies.end(copy)
    }
}

#[tactic(auto, unfolding(crate::specs::InlayHint::inlay_hint_row))]
impl Wire for InlayHint {
    ghost shape = { inlay_hint_row.shape };

    ghost shown = { inlay_hint_row.shown };

    fn from_value(alloc: Global, value: &Value) -> Result<InlayHint, Misfit> {
        let ((position, label, kind, text_edits), (tooltip, padding_left, padding_right, payload)) =
            read_object(
                alloc,
                value,
                (
                    (
                        Required("position"),
                        Required("label"),
                        Optional("kind"),
                        Optional("textEdits"),
                    ),
                    (
                        Optional("tooltip"),
                        Optional("paddingLeft"),
                        Optional("paddingRight"),
                        Optional("data"),
                    ),
                ),
            )?;
        Ok(InlayHint {
            position,
            label,
            kind,
            text_edits,
            tooltip,
            padding_left,
            padding_right,
            payload,
        })
    }

    fn to_value(&self, alloc: Global) -> Result<Value, NoMemory> {
        let mut object = Writer::new(alloc);
        object.field("position", &self.position);
        object.field("label", &self.label);
        object.optional("kind", &self.kind);
        object.optional("textEdits", &self.text_edits);
        object.optional("tooltip", &self.tooltip);
        object.optional("paddingLeft", &self.padding_left);
        object.optional("paddingRight", &self.padding_right);
        object.optional("data", &self.payload);
        object.end()
    }
}

/// What an inlay hint shows, since 3.17 (LSP 3.17, "Inlay Hint Request").
#[derive(Debug, Clone, Drop)]
pub enum InlayHintLabel {
    /// A text as a whole.
    String(String),
    /// The text in parts, each of which may have a tooltip, a location or a command of its own.
    LabelParts(Vec<InlayHintLabelPart>),
}

#[tactic(auto, unfolding(crate::specs::InlayHint::inlay_hint_label_row))]
impl Wire for InlayHintLabel {
    ghost shape = { inlay_hint_label_row.shape };

    ghost shown = { inlay_hint_label_row.shown };

    fn from_value(alloc: Global, value: &Value) -> Result<InlayHintLabel, Misfit> {
        if let Some(string) = attempt(alloc, value)? {
            return Ok(InlayHintLabel::String(string));
        }
        Ok(InlayHintLabel::LabelParts(form(alloc, value)?))
    }

    fn to_value(&self, alloc: Global) -> Result<Value, NoMemory> {
        match self {
            InlayHintLabel::String(string) => string.to_value(alloc),
            InlayHintLabel::LabelParts(parts) => parts.to_value(alloc),
        }
    }
}

impl From<String> for InlayHintLabel {
    ghost from_gives = { λ given made. made ≡ inlay_hint_label.String given };

    fn from(string: String) -> InlayHintLabel {
        InlayHintLabel::String(string)
    }
}

impl From<Vec<InlayHintLabelPart>> for InlayHintLabel {
    ghost from_gives = { λ given made. made ≡ inlay_hint_label.LabelParts given };

    fn from(parts: Vec<InlayHintLabelPart>) -> InlayHintLabel {
        InlayHintLabel::LabelParts(parts)
    }
}

/// What appears when the user hovers over an inlay hint, since 3.17 (LSP 3.17, "Inlay Hint
/// Request").
#[derive(Debug, Clone, Drop)]
pub enum InlayHintTooltip {
    /// Plain text.
    String(String),
    /// Plain text or Markdown, as its kind says.
    MarkupContent(MarkupContent),
}

#[tactic(auto, unfolding(crate::specs::InlayHint::inlay_hint_tooltip_row))]
impl Wire for InlayHintTooltip {
    ghost shape = { inlay_hint_tooltip_row.shape };

    ghost shown = { inlay_hint_tooltip_row.shown };

    fn from_value(alloc: Global, value: &Value) -> Result<InlayHintTooltip, Misfit> {
        if let Some(string) = attempt(alloc, value)? {
            return Ok(InlayHintTooltip::String(string));
        }
        Ok(InlayHintTooltip::MarkupContent(form(alloc, value)?))
    }

    fn to_value(&self, alloc: Global) -> Result<Value, NoMemory> {
        match self {
            InlayHintTooltip::String(string) => string.to_value(alloc),
            InlayHintTooltip::MarkupContent(content) => content.to_value(alloc),
        }
    }
}

impl From<String> for InlayHintTooltip {
    ghost from_gives = { λ given made. made ≡ inlay_hint_tooltip.String given };

    fn from(string: String) -> InlayHintTooltip {
        InlayHintTooltip::String(string)
    }
}

impl From<MarkupContent> for InlayHintTooltip {
    ghost from_gives = { λ given made. made ≡ inlay_hint_tooltip.MarkupContent given };

    fn from(content: MarkupContent) -> InlayHintTooltip {
        InlayHintTooltip::MarkupContent(content)
    }
}

/// A part of the label of an inlay hint, since 3.17 (LSP 3.17, "Inlay Hint Request").
#[derive(Debug, Drop)]
pub struct InlayHintLabelPart {
    /// The text of the part. It must not be empty.
    pub value: String,
    /// What appears when the user hovers over the part.
    pub tooltip: Option<InlayHintLabelPartTooltip>,
    /// The location of a symbol that the part stands for. The client can show the hover of that
    /// symbol and let the user go to its definition.
    pub location: Option<Location>,
    /// A command for the part, which clients usually run on a click.
    pub command: Option<Command>,
}

impl Clone for InlayHintLabelPart {
    ghost is_clone = { λ x y. ⟦<String as Clone>⟧.is_clone x.value y.value
        × ⟦<Option<InlayHintLabelPartTooltip> as Clone>⟧.is_clone x.tooltip y.tooltip
        × ⟦<Option<Location> as Clone>⟧.is_clone x.location y.location
        × ⟦<Option<Command> as Clone>⟧.is_clone x.command y.command };

    fn clone(&self) -> Result<InlayHintLabelPart, AllocError> {
        let mut copies = Copies::new();
        let copy = InlayHintLabelPart {
            value: self.value.clone()?,
            tooltip: copies.optional(&self.tooltip),
            location: copies.optional(&self.location),
            command: copies.optional(&self.command),
        };
        copies.end(copy)
    }
}

impl InlayHintLabelPart {
    /// An empty text, and nothing else.
    pub fn default(alloc: Global) -> InlayHintLabelPart
        ensures value { string_bytes result.value ≡ [] }
        ensures tooltip { result.tooltip ≡ None }
        ensures location { result.location ≡ None }
        ensures command { result.command ≡ None }
    {
        InlayHintLabelPart {
            value: String::new(alloc),
            tooltip: None,
            location: None,
            command: None,
        }
    }
}

#[tactic(auto, unfolding(crate::specs::InlayHint::inlay_hint_label_part_row))]
impl Wire for InlayHintLabelPart {
    ghost shape = { inlay_hint_label_part_row.shape };

    ghost shown = { inlay_hint_label_part_row.shown };

    fn from_value(alloc: Global, value: &Value) -> Result<InlayHintLabelPart, Misfit> {
        let (value, tooltip, location, command) = read_object(
            alloc,
            value,
            (
                Required("value"),
                Optional("tooltip"),
                Optional("location"),
                Optional("command"),
            ),
        )?;
        Ok(InlayHintLabelPart {
            value,
            tooltip,
            location,
            command,
        })
    }

    fn to_value(&self, alloc: Global) -> Result<Value, NoMemory> {
        let mut object = Writer::new(alloc);
        object.field("value", &self.value);
        object.optional("tooltip", &self.tooltip);
        object.optional("location", &self.location);
        object.optional("command", &self.command);
        object.end()
    }
}

/// What appears when the user hovers over a part of an inlay hint, since 3.17 (LSP 3.17, "Inlay
/// Hint Request").
#[derive(Debug, PartialEq, Eq, Clone, Drop)]
pub enum InlayHintLabelPartTooltip {
    /// Plain text.
    String(String),
    /// Plain text or Markdown, as its kind says.
    MarkupContent(MarkupContent),
}

#[tactic(auto, unfolding(crate::specs::InlayHint::inlay_hint_label_part_tooltip_row))]
impl Wire for InlayHintLabelPartTooltip {
    ghost shape = { inlay_hint_label_part_tooltip_row.shape };

    ghost shown = { inlay_hint_label_part_tooltip_row.shown };

    fn from_value(alloc: Global, value: &Value) -> Result<InlayHintLabelPartTooltip, Misfit> {
        if let Some(string) = attempt(alloc, value)? {
            return Ok(InlayHintLabelPartTooltip::String(string));
        }
        Ok(InlayHintLabelPartTooltip::MarkupContent(form(alloc, value)?))
    }

    fn to_value(&self, alloc: Global) -> Result<Value, NoMemory> {
        match self {
            InlayHintLabelPartTooltip::String(string) => string.to_value(alloc),
            InlayHintLabelPartTooltip::MarkupContent(content) => content.to_value(alloc),
        }
    }
}

impl From<String> for InlayHintLabelPartTooltip {
    ghost from_gives = { λ given made. made ≡ inlay_hint_label_part_tooltip.String given };

    fn from(string: String) -> InlayHintLabelPartTooltip {
        InlayHintLabelPartTooltip::String(string)
    }
}

impl From<MarkupContent> for InlayHintLabelPartTooltip {
    ghost from_gives = { λ given made. made ≡ inlay_hint_label_part_tooltip.MarkupContent given };

    fn from(content: MarkupContent) -> InlayHintLabelPartTooltip {
        InlayHintLabelPartTooltip::MarkupContent(content)
    }
}
