// Hierarchies of calls and of types.

use lsp_base::DynamicRegistrationClientCapabilities;

/// What a client supports for `textDocument/prepareCallHierarchy` and the requests that follow it,
/// as the capability `textDocument.callHierarchy`. Since 3.16 (LSP 3.17, "Prepare Call Hierarchy
/// Request").
pub type CallHierarchyClientCapabilities = DynamicRegistrationClientCapabilities;

/// What a client supports for `textDocument/prepareTypeHierarchy` and the requests that follow it,
/// as the capability `textDocument.typeHierarchy`. Since 3.17 (LSP 3.17, "Prepare Type Hierarchy
/// Request").
pub type TypeHierarchyClientCapabilities = DynamicRegistrationClientCapabilities;
