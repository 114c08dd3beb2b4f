// Diagnostics of a document.
ghost use Rattle.std.specs.Prelude.{◌≡◌, [], string_bytes};
ghost use Rattle.lsp_base.specs.Diagnostic.{simple_diagnostic, code_description_row, diagnostic_related_information_row, diagnostic_row};
ghost use Rattle.lsp_base.specs.Position.{first_range};

use crate::position::{Location, NumberOrString, Position, Range};
use lsp_kinds::{DiagnosticSeverity, DiagnosticTag};
use lsp_shape::{Copies, Misfit, NoMemory, Optional, Required, Wire, Writer, read_object};
use lsp_uri::Uri;
use serde_json::Value;
use std::alloc::{AllocError, Global};

/// Where a diagnostic's code is explained. Since 3.16 (LSP 3.17, "Diagnostic").
#[derive(Debug, PartialEq, Eq, Clone, Drop)]
pub struct CodeDescription {
    /// The page that explains it.
    pub href: Uri,
}

#[tactic(auto, unfolding(crate::specs::Diagnostic::code_description_row))]
impl Wire for CodeDescription {
    ghost shape = { code_description_row.shape };

    ghost shown = { code_description_row.shown };

    fn from_value(alloc: Global, value: &Value) -> Result<CodeDescription, Misfit> {
        let href = read_object(alloc, value, Required("href"))?;
        Ok(CodeDescription { href })
    }

    fn to_value(&self, alloc: Global) -> Result<Value, NoMemory> {
        let mut object = Writer::new(alloc);
        object.field("href", &self.href);
        object.end()
    }
}

/// Another location that has to do with a diagnostic (LSP 3.17, "Diagnostic").
#[derive(Debug, PartialEq, Eq, Clone, Drop)]
pub struct DiagnosticRelatedInformation {
    /// The location.
    pub location: Location,
    /// What it has to do with the diagnostic.
    pub message: String,
}

#[tactic(auto, unfolding(crate::specs::Diagnostic::diagnostic_related_information_row))]
impl Wire for DiagnosticRelatedInformation {
    ghost shape = { diagnostic_related_information_row.shape };

    ghost shown = { diagnostic_related_information_row.shown };

    fn from_value(alloc: Global, value: &Value) -> Result<DiagnosticRelatedInformation, Misfit> {
        let (location, message) = read_object(
            alloc,
            value,
            (Required("location"), Required("message")),
        )?;
        Ok(DiagnosticRelatedInformation { location, message })
    }

    fn to_value(&self, alloc: Global) -> Result<Value, NoMemory> {
        let mut object = Writer::new(alloc);
        object.field("location", &self.location);
        object.field("message", &self.message);
        object.end()
    }
}

/// What is found in a range of a document, such as an error of a compiler (LSP 3.17, "Diagnostic").
#[derive(Debug, PartialEq, Drop)]
pub struct Diagnostic {
    /// The range in which it is found.
    pub range: Range,
    /// How severe it is. Absent: the client decides.
    pub severity: Option<DiagnosticSeverity>,
    /// Its code, which a client may show.
    pub code: Option<NumberOrString>,
    /// Where the code is explained. Since 3.16.
    pub code_description: Option<CodeDescription>,
    /// What found it, such as the name of a compiler.
    pub source: Option<String>,
    /// What is found, for the user to read.
    pub message: String,
    /// Other locations that have to do with it. Only for clients with `relatedInformation`; since
    /// 3.7.
    pub related_information: Option<Vec<DiagnosticRelatedInformation>>,
    /// Marks on it, such as `DiagnosticTag::UNNECESSARY`. Only for clients with `tagSupport`; since
    /// 3.15.
    pub tags: Option<Vec<DiagnosticTag>>,
    /// Any JSON value, which a client with `dataSupport` returns unchanged in
    /// `textDocument/codeAction`. In JSON the name is `data`. Since 3.16.
    pub payload: Option<Value>,
}

impl Clone for Diagnostic {
    ghost is_clone = { λ x y. ⟦<Range as Clone>⟧.is_clone x.range y.range
        × ⟦<Option<DiagnosticSeverity> as Clone>⟧.is_clone x.severity y.severity
        × ⟦<Option<NumberOrString> as Clone>⟧.is_clone x.code y.code
        × ⟦<Option<CodeDescription> as Clone>⟧.is_clone x.code_description y.code_description
        × ⟦<Option<String> as Clone>⟧.is_clone x.source y.source
        × ⟦<String as Clone>⟧.is_clone x.message y.message
        × ⟦<Option<Vec<DiagnosticRelatedInformation>> as Clone>⟧.is_clone
        x.related_information y.related_information
        × ⟦<Option<Vec<DiagnosticTag>> as Clone>⟧.is_clone x.tags y.tags
        × ⟦<Option<Value> as Clone>⟧.is_clone x.payload y.payload };

    fn clone(&self) -> Result<Diagnostic, AllocError> {
        let mut copies = Copies::new();
        let copy = Diagnostic {
            range: self.range,
            severity: copies.optional(&self.severity),
            code: copies.optional(&self.code),
            code_description: copies.optional(&self.code_description),
            source: copies.optional(&self.source),
            message: self.message.clone()?,
            related_information: copies.optional(&self.related_information),
            tags: copies.optional(&self.tags),
            payload: copies.optional(&self.payload),
        };
        copies.end(copy)
    }
}

impl Diagnostic {
    /// A diagnostic of these fields. It has no description of its code and no payload.
    pub fn new(
        range: Range,
        severity: Option<DiagnosticSeverity>,
        code: Option<NumberOrString>,
        source: Option<String>,
        message: String,
        related_information: Option<Vec<DiagnosticRelatedInformation>>,
        tags: Option<Vec<DiagnosticTag>>,
    ) -> Diagnostic
        ensures { result ≡ record (simple_diagnostic range message) {
          severity = severity;
          code = code;
          source = source;
          related_information = related_information;
          tags = tags;
        } }
    {
        Diagnostic {
            range,
            severity,
            code,
            code_description: None,
            source,
            message,
            related_information,
            tags,
            payload: None,
        }
    }

    /// A diagnostic of that range and message, and nothing else.
    pub fn new_simple(range: Range, message: String) -> Diagnostic
        ensures { result ≡ simple_diagnostic range message }
    {
        Diagnostic::new(range, None, None, None, message, None, None)
    }

    /// A diagnostic whose code is that number.
    pub fn new_with_code_number(
        range: Range,
        severity: DiagnosticSeverity,
        code_number: i32,
        source: Option<String>,
        message: String,
    ) -> Diagnostic
        ensures { result ≡ record (simple_diagnostic range message) {
          severity = Some severity;
          code = Some (NumberOrString.Number code_number);
          source = source;
        } }
    {
        let code = Some(NumberOrString::Number(code_number));
        Diagnostic::new(range, Some(severity), code, source, message, None, None)
    }

    /// A diagnostic with an empty message and an empty range at the start of the document.
    pub fn default(alloc: Global) -> Diagnostic
        ensures message { string_bytes result.message ≡ [] }
        ensures simple { result ≡ simple_diagnostic first_range result.message }
    {
        Diagnostic::new_simple(Range::default(), String::new(alloc))
    }
}

#[tactic(auto, unfolding(crate::specs::Diagnostic::diagnostic_row))]
impl Wire for Diagnostic {
    ghost shape = { diagnostic_row.shape };

    ghost shown = { diagnostic_row.shown };

    fn from_value(alloc: Global, value: &Value) -> Result<Diagnostic, Misfit> {
        let (
            (range, severity, code, code_description, source),
            (message, related_information, tags, payload),
        ) = read_object(
            alloc,
            value,
            (
                (
                    Required("range"),
                    Optional("severity"),
                    Optional("code"),
                    Optional("codeDescription"),
                    Optional("source"),
                ),
                (
                    Required("message"),
                    Optional("relatedInformation"),
                    Optional("tags"),
                    Optional("data"),
                ),
            ),
        )?;
        Ok(Diagnostic {
            range,
            severity,
            code,
            code_description,
            source,
            message,
            related_information,
            tags,
            payload,
        })
    }

    fn to_value(&self, alloc: Global) -> Result<Value, NoMemory> {
        let mut object = Writer::new(alloc);
        object.field("range", &self.range);
        object.optional("severity", &self.severity);
        object.optional("code", &self.code);
        object.optional("codeDescription", &self.code_description);
        object.optional("source", &self.source);
        object.field("message", &self.message);
        object.optional("relatedInformation", &self.related_information);
        object.optional("tags", &self.tags);
        object.optional("data", &self.payload);
        object.end()
    }
}
