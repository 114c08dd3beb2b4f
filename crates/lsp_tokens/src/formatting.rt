// Formatting.
ghost use Rattle.std.specs.Prelude.{◌≡◌, None, [], false};
ghost use Rattle.lsp_tokens.specs.Formatting.{document_formatting_params_row, formatting_options_row, formatting_property_row, document_range_formatting_params_row, document_on_type_formatting_params_row};

use lsp_base::{Range, TextDocumentIdentifier, TextDocumentPositionParams, WorkDoneProgressParams};
use lsp_shape::{
    Flat, Misfit, NoMemory, Reader, Required, Wire, Writer, attempt, flat, form, read_object,
};
use serde_json::Value;
use std::alloc::Global;
use std::collections::HashMap;

/// The parameters of a `textDocument/formatting` request, which asks for edits that format a whole
/// document (LSP 3.17, "Document Formatting Request").
#[derive(Debug, Clone, Drop)]
pub struct DocumentFormattingParams {
    /// The document that is to be formatted.
    pub text_document: TextDocumentIdentifier,
    /// How the user wants it formatted.
    pub options: FormattingOptions,
    /// The token, chosen by the client, under which the server may report work done progress with
    /// `$/progress`. Absent: the client asks for none. Since 3.15.
    pub work_done_progress_params: WorkDoneProgressParams,
}

#[tactic(auto, unfolding(crate::specs::Formatting::document_formatting_params_row, lsp_base::specs::Progress::work_done_progress_params_row))]
impl Wire for DocumentFormattingParams {
    ghost shape = { document_formatting_params_row.shape };

    ghost shown = { document_formatting_params_row.shown };

    fn from_value(alloc: Global, value: &Value) -> Result<DocumentFormattingParams, Misfit> {
        let (text_document, options, work_done_progress_params) = read_object(
            alloc,
            value,
            (Required("textDocument"), Required("options"), Flat),
        )?;
        Ok(DocumentFormattingParams {
            text_document,
            options,
            work_done_progress_params,
        })
    }

    fn to_value(&self, alloc: Global) -> Result<Value, NoMemory> {
        let mut object = Writer::new(alloc);
        object.field("textDocument", &self.text_document);
        object.field("options", &self.options);
        object.flat(&self.work_done_progress_params);
        object.end()
    }
}

/// How a document is to be formatted, as the client sends it with each formatting request (LSP
/// 3.17, "Document Formatting Request").
#[derive(Debug, Clone, Drop)]
pub struct FormattingOptions {
    /// The width of a tab, in spaces.
    pub tab_size: u32,
    /// Whether to indent with spaces, and not with tabs.
    pub insert_spaces: bool,
    /// Options that the standard doesn't define, by their names: all members of the object that
    /// have no field here.
    pub properties: HashMap<String, FormattingProperty>,
    /// Whether to remove whitespace at the end of lines. Since 3.15.
    pub trim_trailing_whitespace: Option<bool>,
    /// Whether a file that doesn't end with a newline gets one. Since 3.15.
    pub insert_final_newline: Option<bool>,
    /// Whether to keep only one of several newlines that end the file. Since 3.15.
    pub trim_final_newlines: Option<bool>,
}

impl FormattingOptions {
    /// The default value: a tab size of 0, indentation with tabs, and no other options.
    pub fn default(alloc: Global) -> FormattingOptions
        ensures tab_size { result.tab_size ≡ 0 }
        ensures insert_spaces { result.insert_spaces ≡ false }
        ensures properties { result.properties.entries ≡ [] }
        ensures trim_trailing_whitespace { result.trim_trailing_whitespace ≡ None }
        ensures insert_final_newline { result.insert_final_newline ≡ None }
        ensures trim_final_newlines { result.trim_final_newlines ≡ None }
    {
        FormattingOptions {
            tab_size: 0,
            insert_spaces: false,
            properties: HashMap::new(alloc),
            trim_trailing_whitespace: None,
            insert_final_newline: None,
            trim_final_newlines: None,
        }
    }
}

#[tactic(auto, unfolding(crate::specs::Formatting::formatting_options_row))]
impl Wire for FormattingOptions {
    ghost shape = { formatting_options_row.shape };

    ghost shown = { formatting_options_row.shown };

    fn from_value(alloc: Global, value: &Value) -> Result<FormattingOptions, Misfit> {
        let object = Reader::new(alloc, value)?;
        Ok(FormattingOptions {
            properties: object.rest(&[
                "tabSize",
                "insertSpaces",
                "trimTrailingWhitespace",
                "insertFinalNewline",
                "trimFinalNewlines",
            ])?,
            tab_size: object.field("tabSize")?,
            insert_spaces: object.field("insertSpaces")?,
            trim_trailing_whitespace: object.optional("trimTrailingWhitespace")?,
            insert_final_newline: object.optional("insertFinalNewline")?,
            trim_final_newlines: object.optional("trimFinalNewlines")?,
        })
    }

    fn to_value(&self, alloc: Global) -> Result<Value, NoMemory> {
        let mut object = Writer::with_rest(alloc, &self.properties);
        object.field("tabSize", &self.tab_size);
        object.field("insertSpaces", &self.insert_spaces);
        object.optional("trimTrailingWhitespace", &self.trim_trailing_whitespace);
        object.optional("insertFinalNewline", &self.insert_final_newline);
        object.optional("trimFinalNewlines", &self.trim_final_newlines);
        object.end()
    }
}

/// The value of an option that the standard doesn't define, in `FormattingOptions`: a boolean, an
/// integer or a string. Reading fails for other kinds of values (LSP 3.17, "Document Formatting
/// Request").
#[derive(Debug, PartialEq, Clone, Drop)]
pub enum FormattingProperty {
    /// A boolean.
    Bool(bool),
    /// An integer of 32 bits.
    Number(i32),
    /// A string.
    String(String),
}

#[tactic(auto, unfolding(crate::specs::Formatting::formatting_property_row))]
impl Wire for FormattingProperty {
    ghost shape = { formatting_property_row.shape };

    ghost shown = { formatting_property_row.shown };

    fn from_value(alloc: Global, value: &Value) -> Result<FormattingProperty, Misfit> {
        if let Some(bool) = attempt(alloc, value)? {
            return Ok(FormattingProperty::Bool(bool));
        }
        if let Some(number) = attempt(alloc, value)? {
            return Ok(FormattingProperty::Number(number));
        }
        Ok(FormattingProperty::String(form(alloc, value)?))
    }

    fn to_value(&self, alloc: Global) -> Result<Value, NoMemory> {
        match self {
            FormattingProperty::Bool(bool) => bool.to_value(alloc),
            FormattingProperty::Number(number) => number.to_value(alloc),
            FormattingProperty::String(string) => string.to_value(alloc),
        }
    }
}

/// The parameters of a `textDocument/rangeFormatting` request, which asks for edits that format a
/// part of a document (LSP 3.17, "Document Range Formatting Request").
#[derive(Debug, Clone, Drop)]
pub struct DocumentRangeFormattingParams {
    /// The document that is to be formatted.
    pub text_document: TextDocumentIdentifier,
    /// The part to format.
    pub range: Range,
    /// How the user wants it formatted.
    pub options: FormattingOptions,
    /// The token, chosen by the client, under which the server may report work done progress with
    /// `$/progress`. Absent: the client asks for none. Since 3.15.
    pub work_done_progress_params: WorkDoneProgressParams,
}

#[tactic(auto, unfolding(crate::specs::Formatting::document_range_formatting_params_row, lsp_base::specs::Progress::work_done_progress_params_row))]
impl Wire for DocumentRangeFormattingParams {
    ghost shape = { document_range_formatting_params_row.shape };

    ghost shown = { document_range_formatting_params_row.shown };

    fn from_value(alloc: Global, value: &Value) -> Result<DocumentRangeFormattingParams, Misfit> {
        let (text_document, range, options, work_done_progress_params) = read_object(
            alloc,
            value,
            (
                Required("textDocument"),
                Required("range"),
                Required("options"),
                Flat,
            ),
        )?;
        Ok(DocumentRangeFormattingParams {
            text_document,
            range,
            options,
            work_done_progress_params,
        })
    }

    fn to_value(&self, alloc: Global) -> Result<Value, NoMemory> {
        let mut object = Writer::new(alloc);
        object.field("textDocument", &self.text_document);
        object.field("range", &self.range);
        object.field("options", &self.options);
        object.flat(&self.work_done_progress_params);
        object.end()
    }
}

/// The parameters of a `textDocument/onTypeFormatting` request, which the client sends when the
/// user types a character that the server registered for it (LSP 3.17, "Document on Type Formatting
/// Request").
#[derive(Debug, Clone, Drop)]
pub struct DocumentOnTypeFormattingParams {
    /// The document, and the position around which to format. That need not be exactly where the
    /// character was typed.
    pub text_document_position: TextDocumentPositionParams,
    /// The character that the user typed. Others may stand after it, such as a closing brace that
    /// the client inserted on its own.
    pub ch: String,
    /// How the user wants the text formatted.
    pub options: FormattingOptions,
}

#[tactic(auto, unfolding(crate::specs::Formatting::document_on_type_formatting_params_row, lsp_base::specs::Document::text_document_position_params_row))]
impl Wire for DocumentOnTypeFormattingParams {
    ghost shape = { document_on_type_formatting_params_row.shape };

    ghost shown = { document_on_type_formatting_params_row.shown };

    fn from_value(alloc: Global, value: &Value) -> Result<DocumentOnTypeFormattingParams, Misfit> {
        let (text_document_position, ch, options) = read_object(
            alloc,
            value,
            (Flat, Required("ch"), Required("options")),
        )?;
        Ok(DocumentOnTypeFormattingParams {
            text_document_position,
            ch,
            options,
        })
    }

    fn to_value(&self, alloc: Global) -> Result<Value, NoMemory> {
        let mut object = Writer::new(alloc);
        object.flat(&self.text_document_position);
        object.field("ch", &self.ch);
        object.field("options", &self.options);
        object.end()
    }
}
