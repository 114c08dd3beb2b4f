// Inline values.
ghost use Rattle.std.specs.Prelude.{◌≡◌, [], string_bytes};
ghost use Rattle.lsp_lang_item.specs.InlineValue.{inline_value_params_row, inline_value_context_row, inline_value_row, inline_value_text_row, inline_value_variable_lookup_row, inline_value_evaluatable_expression_row};
ghost use Rattle.lsp_lang_item.specs.declared.inline_value.InlineValue.TheVariants as inline_value;

use lsp_base::{Range, TextDocumentIdentifier, WorkDoneProgressParams};
use lsp_shape::{
    Flat, Misfit, NoMemory, Optional, Required, Wire, Writer, attempt, flat, form, read_object,
};
use serde_json::Value;
use std::alloc::Global;

/// Parameters of `textDocument/inlineValue`: the part of a document in which the client wants to
/// show values while debugging, since 3.17 (LSP 3.17, "Inline Value Request").
#[derive(Debug, PartialEq, Eq, Clone, Drop)]
pub struct InlineValueParams {
    /// The token for progress reports on this request, if the client sent one.
    pub work_done_progress_params: WorkDoneProgressParams,
    /// The document that shows the values.
    pub text_document: TextDocumentIdentifier,
    /// The part of the document for which values are wanted.
    pub range: Range,
    /// Where the program has stopped.
    pub context: InlineValueContext,
}

#[tactic(auto, unfolding(crate::specs::InlineValue::inline_value_params_row, lsp_base::specs::Progress::work_done_progress_params_row))]
impl Wire for InlineValueParams {
    ghost shape = { inline_value_params_row.shape };

    ghost shown = { inline_value_params_row.shown };

    fn from_value(alloc: Global, value: &Value) -> Result<InlineValueParams, Misfit> {
        let (work_done_progress_params, text_document, range, context) = read_object(
            alloc,
            value,
            (
                Flat,
                Required("textDocument"),
                Required("range"),
                Required("context"),
            ),
        )?;
        Ok(InlineValueParams {
            work_done_progress_params,
            text_document,
            range,
            context,
        })
    }

    fn to_value(&self, alloc: Global) -> Result<Value, NoMemory> {
        let mut object = Writer::new(alloc);
        object.flat(&self.work_done_progress_params);
        object.field("textDocument", &self.text_document);
        object.field("range", &self.range);
        object.field("context", &self.context);
        object.end()
    }
}

/// Where the debugged program has stopped, as a client sends it in `textDocument/inlineValue`,
/// since 3.17 (LSP 3.17, "Inline Value Request").
#[derive(Debug, PartialEq, Eq, Default, Clone, Drop)]
pub struct InlineValueContext {
    /// The stack frame, by its id in the Debug Adapter Protocol (DAP).
    pub frame_id: i32,
    /// The range in the document at which the program has stopped. Clients usually show the values
    /// on its last line.
    pub stopped_location: Range,
}

#[tactic(auto, unfolding(crate::specs::InlineValue::inline_value_context_row))]
impl Wire for InlineValueContext {
    ghost shape = { inline_value_context_row.shape };

    ghost shown = { inline_value_context_row.shown };

    fn from_value(alloc: Global, value: &Value) -> Result<InlineValueContext, Misfit> {
        let (frame_id, stopped_location) = read_object(
            alloc,
            value,
            (Required("frameId"), Required("stoppedLocation")),
        )?;
        Ok(InlineValueContext {
            frame_id,
            stopped_location,
        })
    }

    fn to_value(&self, alloc: Global) -> Result<Value, NoMemory> {
        let mut object = Writer::new(alloc);
        object.field("frameId", &self.frame_id);
        object.field("stoppedLocation", &self.stopped_location);
        object.end()
    }
}

/// A value shown in the text of a document while debugging: an entry of the result of
/// `textDocument/inlineValue`, since 3.17 (LSP 3.17, "Inline Value Request").
#[derive(Debug, PartialEq, Eq, Clone, Drop)]
pub enum InlineValue {
    /// Text from the server, shown as it is.
    Text(InlineValueText),
    /// A variable whose value the client gets from the debugger.
    VariableLookup(InlineValueVariableLookup),
    /// An expression that the client lets the debugger evaluate.
    EvaluatableExpression(InlineValueEvaluatableExpression),
}

#[tactic(auto, unfolding(crate::specs::InlineValue::inline_value_row))]
impl Wire for InlineValue {
    ghost shape = { inline_value_row.shape };

    ghost shown = { inline_value_row.shown };

    fn from_value(alloc: Global, value: &Value) -> Result<InlineValue, Misfit> {
        if let Some(text) = attempt(alloc, value)? {
            return Ok(InlineValue::Text(text));
        }
        if let Some(lookup) = attempt(alloc, value)? {
            return Ok(InlineValue::VariableLookup(lookup));
        }
        Ok(InlineValue::EvaluatableExpression(form(alloc, value)?))
    }

    fn to_value(&self, alloc: Global) -> Result<Value, NoMemory> {
        match self {
            InlineValue::Text(text) => text.to_value(alloc),
            InlineValue::VariableLookup(lookup) => lookup.to_value(alloc),
            InlineValue::EvaluatableExpression(expression) => expression.to_value(alloc),
        }
    }
}

impl From<InlineValueText> for InlineValue {
    ghost from_gives = { λ given made. made ≡ inline_value.Text given };

    fn from(text: InlineValueText) -> InlineValue {
        InlineValue::Text(text)
    }
}

impl From<InlineValueVariableLookup> for InlineValue {
    ghost from_gives = { λ given made. made ≡ inline_value.VariableLookup given };

    fn from(lookup: InlineValueVariableLookup) -> InlineValue {
        InlineValue::VariableLookup(lookup)
    }
}

impl From<InlineValueEvaluatableExpression> for InlineValue {
    ghost from_gives = { λ given made. made ≡ inline_value.EvaluatableExpression given };

    fn from(expression: InlineValueEvaluatableExpression) -> InlineValue {
        InlineValue::EvaluatableExpression(expression)
    }
}

/// An inline value whose text the server knows, since 3.17 (LSP 3.17, "Inline Value Request").
#[derive(Debug, PartialEq, Eq, Clone, Drop)]
pub struct InlineValueText {
    /// The code that the value belongs to.
    pub range: Range,
    /// What the client shows.
    pub text: String,
}

impl InlineValueText {
    /// An empty text, at the start of the document.
    pub fn default(alloc: Global) -> InlineValueText
        ensures range_start { result.range.start ≡ record { line = 0; character = 0 } }
        ensures range_end { result.range.end ≡ record { line = 0; character = 0 } }
        ensures text { string_bytes result.text ≡ [] }
    {
        InlineValueText {
            range: Range::default(),
            text: String::new(alloc),
        }
    }
}

#[tactic(auto, unfolding(crate::specs::InlineValue::inline_value_text_row))]
impl Wire for InlineValueText {
    ghost shape = { inline_value_text_row.shape };

    ghost shown = { inline_value_text_row.shown };

    fn from_value(alloc: Global, value: &Value) -> Result<InlineValueText, Misfit> {
        let (range, text) = read_object(alloc, value, (Required("range"), Required("text")))?;
        Ok(InlineValueText { range, text })
    }

    fn to_value(&self, alloc: Global) -> Result<Value, NoMemory> {
        let mut object = Writer::new(alloc);
        object.field("range", &self.range);
        object.field("text", &self.text);
        object.end()
    }
}

/// An inline value that the client finds by the name of a variable, since 3.17 (LSP 3.17, "Inline
/// Value Request").
#[derive(Debug, PartialEq, Eq, Default, Clone, Drop)]
pub struct InlineValueVariableLookup {
    /// The variable in the document. The text of this range is the name to look up, unless
    /// `variable_name` is present.
    pub range: Range,
    /// The name to look up. Absent: the text in `range`.
    pub variable_name: Option<String>,
    /// Whether upper and lower case differ in the lookup.
    pub case_sensitive_lookup: bool,
}

#[tactic(auto, unfolding(crate::specs::InlineValue::inline_value_variable_lookup_row))]
impl Wire for InlineValueVariableLookup {
    ghost shape = { inline_value_variable_lookup_row.shape };

    ghost shown = { inline_value_variable_lookup_row.shown };

    fn from_value(alloc: Global, value: &Value) -> Result<InlineValueVariableLookup, Misfit> {
        let (range, variable_name, case_sensitive_lookup) = read_object(
            alloc,
            value,
            (
                Required("range"),
                Optional("variableName"),
                Required("caseSensitiveLookup"),
            ),
        )?;
        Ok(InlineValueVariableLookup {
            range,
            variable_name,
            case_sensitive_lookup,
        })
    }

    fn to_value(&self, alloc: Global) -> Result<Value, NoMemory> {
        let mut object = Writer::new(alloc);
        object.field("range", &self.range);
        object.optional("variableName", &self.variable_name);
        object.field("caseSensitiveLookup", &self.case_sensitive_lookup);
        object.end()
    }
}

/// An inline value that the client finds by evaluating an expression, since 3.17 (LSP 3.17, "Inline
/// Value Request").
#[derive(Debug, PartialEq, Eq, Default, Clone, Drop)]
pub struct InlineValueEvaluatableExpression {
    /// The expression in the document. The text of this range is evaluated, unless `expression` is
    /// present.
    pub range: Range,
    /// What to evaluate. Absent: the text in `range`.
    pub expression: Option<String>,
}

#[tactic(auto, unfolding(crate::specs::InlineValue::inline_value_evaluatable_expression_row))]
impl Wire for InlineValueEvaluatableExpression {
    ghost shape = { inline_value_evaluatable_expression_row.shape };

    ghost shown = { inline_value_evaluatable_expression_row.shown };

    fn from_value(
        alloc: Global,
        value: &Value,
    ) -> Result<InlineValueEvaluatableExpression, Misfit> {
        let (range, expression) = read_object(
            alloc,
            value,
            (Required("range"), Optional("expression")),
        )?;
        Ok(InlineValueEvaluatableExpression { range, expression })
    }

    fn to_value(&self, alloc: Global) -> Result<Value, NoMemory> {
        let mut object = Writer::new(alloc);
        object.field("range", &self.range);
        object.optional("expression", &self.expression);
        object.end()
    }
}
