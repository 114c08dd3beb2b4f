// Code lenses.

use lsp_base::DynamicRegistrationClientCapabilities;

/// What a client supports for `textDocument/codeLens`, as the capability `textDocument.codeLens`
/// (LSP 3.17, "Code Lens Request").
pub type CodeLensClientCapabilities = DynamicRegistrationClientCapabilities;
