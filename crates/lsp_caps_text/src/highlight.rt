// References and highlights.

use lsp_base::DynamicRegistrationClientCapabilities;

/// What a client supports for `textDocument/references`, as the capability
/// `textDocument.references` (LSP 3.17, "Find References Request").
pub type ReferenceClientCapabilities = DynamicRegistrationClientCapabilities;

/// What a client supports for `textDocument/documentHighlight`, as the capability
/// `textDocument.documentHighlight` (LSP 3.17, "Document Highlights Request").
pub type DocumentHighlightClientCapabilities = DynamicRegistrationClientCapabilities;
