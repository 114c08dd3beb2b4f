//! The error of a response.
ghost use Rattle.std.specs.Prelude.{◌≡◌, Some, IfOk};
ghost use Rattle.lsp_rpc.specs.Message.{error_with_code, error_saying, error_line, not_initialized_error};
ghost use Rattle.lsp_rpc.specs.Shown.{show_error};

use crate::code::ErrorCode;
use crate::value::copy_value;
use no_memory::NoMemory;
use serde_json::Value;
use std::alloc::Global;
use std::fmt;

/// An error of JSON-RPC 2.0, section 5.1 "Error object".
#[derive(Drop, Debug)]
pub struct Error {
    /// The kind of error.
    pub code: ErrorCode,
    /// One sentence about it.
    pub message: String,
    /// The member `data`: whatever else is to be told.
    pub payload: Option<Value>,
}

impl Error {
    /// The error of that code, whose message is the code's description.
    pub fn new(alloc: Global, code: ErrorCode) -> Result<Error, NoMemory>
        ensures { IfOk result (λ e. show_error e ≡ error_with_code code) }
    {
        Error::saying(alloc, code, code.description())
    }

    /// The text is not JSON.
    pub fn parse_error(alloc: Global) -> Result<Error, NoMemory>
        ensures { IfOk result (λ e. show_error e ≡ error_with_code ErrorCode.ParseError) }
    {
        Error::new(alloc, ErrorCode::ParseError)
    }

    /// The value is not a request.
    pub fn invalid_request(alloc: Global) -> Result<Error, NoMemory>
        ensures { IfOk result (λ e. show_error e ≡ error_with_code ErrorCode.InvalidRequest) }
    {
        Error::new(alloc, ErrorCode::InvalidRequest)
    }

    /// There is no such method.
    pub fn method_not_found(alloc: Global) -> Result<Error, NoMemory>
        ensures { IfOk result (λ e. show_error e ≡ error_with_code ErrorCode.MethodNotFound) }
    {
        Error::new(alloc, ErrorCode::MethodNotFound)
    }

    /// The method does not take these params, as the message says.
    pub fn invalid_params(alloc: Global, message: &str) -> Result<Error, NoMemory>
        ensures { IfOk result
            (λ e. show_error e ≡ error_saying ErrorCode.InvalidParams message.now) }
    {
        Error::saying(alloc, ErrorCode::InvalidParams, message)
    }

    /// An internal fault.
    pub fn internal_error(alloc: Global) -> Result<Error, NoMemory>
        ensures { IfOk result (λ e. show_error e ≡ error_with_code ErrorCode.InternalError) }
    {
        Error::new(alloc, ErrorCode::InternalError)
    }

    /// The client cancelled the request (LSP 3.17, "Cancellation Support").
    pub fn request_cancelled(alloc: Global) -> Result<Error, NoMemory>
        ensures { IfOk result (λ e. show_error e ≡ error_with_code ErrorCode.RequestCancelled) }
    {
        Error::new(alloc, ErrorCode::RequestCancelled)
    }

    /// A later change made the result worthless (LSP 3.17, "Base Protocol").
    pub fn content_modified(alloc: Global) -> Result<Error, NoMemory>
        ensures { IfOk result (λ e. show_error e ≡ error_with_code ErrorCode.ContentModified) }
    {
        Error::new(alloc, ErrorCode::ContentModified)
    }

    /// The request came before `initialize` (LSP 3.17, "Initialize Request").
    pub fn not_initialized(alloc: Global) -> Result<Error, NoMemory>
        ensures { IfOk result (λ e. show_error e ≡ not_initialized_error) }
    {
        let code = ErrorCode::ServerError(NOT_INITIALIZED);
        Error::saying(alloc, code, "Server not initialized")
    }

    /// An equal error.
    pub fn clone(&self, alloc: Global) -> Result<Error, NoMemory>
        ensures { IfOk result (λ copy. show_error copy ≡ show_error self.now) }
    {
        Ok(Error {
            code: self.code,
            message: String::from_str(alloc, self.message.as_str())?,
            payload: copy_value(&self.payload)?,
        })
    }

    fn saying(alloc: Global, code: ErrorCode, message: &str) -> Result<Error, NoMemory>
        ensures { IfOk result (λ e. show_error e ≡ error_saying code message.now) }
    {
        Ok(Error {
            code,
            message: String::from_str(alloc, message)?,
            payload: None,
        })
    }
}

impl fmt::Display for Error {
    ghost output = { λ error. Some (error_line (show_error error)) };

    fn fmt<W: fmt::Write>(&self, f: &mut fmt::Formatter<W>) -> fmt::Result {
        let description = self.code.description();
        let message = self.message.as_str();
        write!(f, "{description}: {message}")
    }
}

const NOT_INITIALIZED: i64 = -32002;
