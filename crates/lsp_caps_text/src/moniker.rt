// Monikers.

use lsp_base::DynamicRegistrationClientCapabilities;

/// What a client supports for `textDocument/moniker`, as the capability `textDocument.moniker`.
/// Since 3.16 (LSP 3.17, "Monikers").
pub type MonikerClientCapabilities = DynamicRegistrationClientCapabilities;
