// Why a stretch of the input gives no message.
ghost use Rattle.std.specs.Prelude.{◌≡◌};
ghost use Rattle.lsp_frame.specs.Faults.{code_of_fault};

use lsp_rpc::ErrorCode;
use std::error::Error;
use std::fmt;

/// Why a body gives no message.
#[derive(Clone, Copy, Debug, PartialEq, Eq)]
pub enum BodyFault {
    /// The body is no JSON text.
    Json,
    /// The value is no message, or holds a float.
    Message,
}

/// Why a stretch of the input gives no message.
#[derive(Clone, Copy, Debug, PartialEq, Eq)]
pub enum ParseError {
    /// The block isn't a head of at most two headers.
    Headers,
    /// The head has no `Content-Length`.
    MissingContentLength,
    /// The `Content-Type` doesn't name UTF-8.
    InvalidContentType,
    /// The `Content-Length` is no number of 64 bits.
    InvalidContentLength,
    /// The body or a header's value isn't UTF-8.
    Utf8,
    /// The body gives no message.
    Body(BodyFault),
    /// The input ended inside a frame.
    Rest,
    /// No head is whole within the limit of a head.
    HeadTooLong,
    /// The `Content-Length` is above the limit of a body.
    BodyTooLong,
}

impl ParseError {
    /// The code with which the fault is answered.
    pub fn code(&self) -> ErrorCode
        ensures { result ≡ code_of_fault self.now }
    {
        match self {
            ParseError::Body(BodyFault::Message) => ErrorCode::InvalidRequest,
            _ => ErrorCode::ParseError,
        }
    }
}

impl fmt::Display for ParseError {
    ghost use Rattle.std.specs.Prelude.{Some};
    ghost use Rattle.lsp_frame.specs.Faults.{text_of_fault};

    ghost output = { λ e. Some (text_of_fault e) };

    fn fmt<W: fmt::Write>(&self, f: &mut fmt::Formatter<W>) -> fmt::Result {
        match self {
            ParseError::Headers => f.write_str("failed to parse headers"),
            ParseError::MissingContentLength => {
                f.write_str("missing required `Content-Length` header")
            }
            ParseError::InvalidContentType => f.write_str("unable to parse content type"),
            ParseError::InvalidContentLength => f.write_str("unable to parse content length"),
            ParseError::Utf8 => f.write_str("request contains invalid UTF8"),
            ParseError::Body(_) => f.write_str("unable to parse JSON body"),
            ParseError::Rest => f.write_str("input ended inside a frame"),
            ParseError::HeadTooLong => f.write_str("head too long"),
            ParseError::BodyTooLong => f.write_str("body too long"),
        }
    }
}

impl Error for ParseError {}
