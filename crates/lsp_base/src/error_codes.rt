//! Codes of errors that LSP adds to those of JSON-RPC: section "Response Message" of LSP 3.17.
ghost use Rattle.std.specs.Prelude.{◌≡◌, ◌∷◌, [], neg_ℤ, pos};

/// The message came before `initialize`.
pub const SERVER_NOT_INITIALIZED: i64 = -32002;

/// An error that no other code fits.
pub const UNKNOWN_ERROR_CODE: i64 = -32001;

/// The least of the numbers that LSP keeps for codes of its own. It is itself no code.
pub const LSP_RESERVED_ERROR_RANGE_START: i64 = -32899;

/// The request is well formed, and still could not be carried out.
pub const REQUEST_FAILED: i64 = -32803;

/// The server gave up the request, which was one that a server may give up.
pub const SERVER_CANCELLED: i64 = -32802;

/// The document changed in a way that the server had no reason to expect. A change that is only
/// waiting to be handled is none.
pub const CONTENT_MODIFIED: i64 = -32801;

/// The client cancelled the request.
pub const REQUEST_CANCELLED: i64 = -32800;

/// The greatest of the numbers that LSP keeps for codes of its own.
pub const LSP_RESERVED_ERROR_RANGE_END: i64 = -32800;

/// Each number, in the order of this page.
pub fn constants() -> [i64; 8]
    ensures server_not_initialized { SERVER_NOT_INITIALIZED ≡ neg_ℤ (pos 32002) }
    ensures unknown_error_code { UNKNOWN_ERROR_CODE ≡ neg_ℤ (pos 32001) }
    ensures lsp_reserved_error_range_start { LSP_RESERVED_ERROR_RANGE_START ≡ neg_ℤ (pos 32899) }
    ensures request_failed { REQUEST_FAILED ≡ neg_ℤ (pos 32803) }
    ensures server_cancelled { SERVER_CANCELLED ≡ neg_ℤ (pos 32802) }
    ensures content_modified { CONTENT_MODIFIED ≡ neg_ℤ (pos 32801) }
    ensures request_cancelled { REQUEST_CANCELLED ≡ neg_ℤ (pos 32800) }
    ensures lsp_reserved_error_range_end { LSP_RESERVED_ERROR_RANGE_END ≡ neg_ℤ (pos 32800) }
    ensures all { result ≡ SERVER_NOT_INITIALIZED ∷ UNKNOWN_ERROR_CODE
        ∷ LSP_RESERVED_ERROR_RANGE_START ∷ REQUEST_FAILED ∷ SERVER_CANCELLED ∷ CONTENT_MODIFIED
        ∷ REQUEST_CANCELLED ∷ LSP_RESERVED_ERROR_RANGE_END ∷ [] }
{
    [
        SERVER_NOT_INITIALIZED,
        UNKNOWN_ERROR_CODE,
        LSP_RESERVED_ERROR_RANGE_START,
        REQUEST_FAILED,
        SERVER_CANCELLED,
        CONTENT_MODIFIED,
        REQUEST_CANCELLED,
        LSP_RESERVED_ERROR_RANGE_END,
    ]
}
