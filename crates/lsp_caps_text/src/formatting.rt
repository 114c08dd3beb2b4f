// Formatting.

use lsp_base::DynamicRegistrationClientCapabilities;

/// What a client supports for `textDocument/formatting`, as the capability
/// `textDocument.formatting` (LSP 3.17, "Document Formatting Request").
pub type DocumentFormattingClientCapabilities = DynamicRegistrationClientCapabilities;

/// What a client supports for `textDocument/rangeFormatting`, as the capability
/// `textDocument.rangeFormatting` (LSP 3.17, "Document Range Formatting Request").
pub type DocumentRangeFormattingClientCapabilities = DynamicRegistrationClientCapabilities;

/// What a client supports for `textDocument/onTypeFormatting`, as the capability
/// `textDocument.onTypeFormatting` (LSP 3.17, "Document on Type Formatting Request").
pub type DocumentOnTypeFormattingClientCapabilities = DynamicRegistrationClientCapabilities;
