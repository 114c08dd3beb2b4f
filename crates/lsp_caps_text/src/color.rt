// Colors.

use lsp_base::DynamicRegistrationClientCapabilities;

/// What a client supports for `textDocument/documentColor` and `textDocument/colorPresentation`, as
/// the capability `textDocument.colorProvider`. Since 3.6 (LSP 3.17, "Document Color Request").
pub type DocumentColorClientCapabilities = DynamicRegistrationClientCapabilities;
