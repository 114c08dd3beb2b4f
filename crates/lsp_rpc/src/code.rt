//! The codes of errors.
ghost use Rattle.std.specs.Prelude.{◌≡◌, Some};
ghost use Rattle.std.specs.Fmt.{signed_decimal, styled_signed_decimal};
ghost use Rattle.lsp_rpc.specs.Message.{code_number, code_of, description_of};

use std::convert::From;
use std::fmt;

/// What kind of error a response reports: a code of JSON-RPC 2.0, section 5.1 "Error object", one
/// that the Language Server Protocol 3.17 adds, or any other integer.
#[derive(Clone, Copy, Debug, PartialEq, Eq)]
pub enum ErrorCode {
    /// -32700: the text is not JSON.
    ParseError,
    /// -32600: the value is not a request.
    InvalidRequest,
    /// -32601: there is no such method.
    MethodNotFound,
    /// -32602: the method does not take these params.
    InvalidParams,
    /// -32603: an internal fault.
    InternalError,
    /// -32800: the client cancelled the request.
    RequestCancelled,
    /// -32801: a later change made the result worthless.
    ContentModified,
    /// Any other code.
    ServerError(i64),
}

impl ErrorCode {
    /// The integer that stands for the code in a message.
    pub fn code(&self) -> i64
        ensures { result ≡ code_number self.now }
    {
        match self {
            ErrorCode::ParseError => -32700,
            ErrorCode::InvalidRequest => -32600,
            ErrorCode::MethodNotFound => -32601,
            ErrorCode::InvalidParams => -32602,
            ErrorCode::InternalError => -32603,
            ErrorCode::RequestCancelled => -32800,
            ErrorCode::ContentModified => -32801,
            ErrorCode::ServerError(n) => *n,
        }
    }

    /// What the code means, in words.
    pub fn description(&self) -> &'static str
        ensures { result.now ≡ description_of self.now }
    {
        match self {
            ErrorCode::ParseError => "Parse error",
            ErrorCode::InvalidRequest => "Invalid request",
            ErrorCode::MethodNotFound => "Method not found",
            ErrorCode::InvalidParams => "Invalid params",
            ErrorCode::InternalError => "Internal error",
            ErrorCode::RequestCancelled => "Canceled",
            ErrorCode::ContentModified => "Content modified",
            ErrorCode::ServerError(_) => "Server error",
        }
    }
}

impl From<i64> for ErrorCode {
    ghost from_gives = { λ n c. (c ≡ code_of n) × (code_number c ≡ n) };

    fn from(n: i64) -> ErrorCode {
        match n {
            -32700 => ErrorCode::ParseError,
            -32600 => ErrorCode::InvalidRequest,
            -32601 => ErrorCode::MethodNotFound,
            -32602 => ErrorCode::InvalidParams,
            -32603 => ErrorCode::InternalError,
            -32800 => ErrorCode::RequestCancelled,
            -32801 => ErrorCode::ContentModified,
            _ => ErrorCode::ServerError(n),
        }
    }
}

impl From<ErrorCode> for i64 {
    ghost from_gives = { λ c n. n ≡ code_number c };

    fn from(code: ErrorCode) -> i64 {
        code.code()
    }
}

impl fmt::Display for ErrorCode {
    ghost output = { λ code. Some (signed_decimal (code_number code)) };

    ghost styled_output = { λ code spec. Some (styled_signed_decimal spec (code_number code)) };

    fn fmt<W: fmt::Write>(&self, f: &mut fmt::Formatter<W>) -> fmt::Result {
        fmt::Display::fmt(&self.code(), f)
    }
}
