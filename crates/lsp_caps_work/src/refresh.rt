// What a server may ask the client to ask for again.
ghost use Rattle.lsp_caps_work.specs.Refresh.{code_lens_workspace_client_capabilities_row, semantic_tokens_workspace_client_capabilities_row, inlay_hint_workspace_client_capabilities_row, inline_value_workspace_client_capabilities_row, diagnostic_workspace_client_capabilities_row};

use lsp_shape::{Misfit, NoMemory, Optional, Wire, Writer, read_object};
use serde_json::Value;
use std::alloc::Global;

/// What a client supports for code lenses across the workspace, as the capability
/// `workspace.codeLens`. Since 3.16 (LSP 3.17, "Code Lens Refresh Request").
#[derive(Debug, PartialEq, Eq, Clone, Drop)]
pub struct CodeLensWorkspaceClientCapabilities {
    /// Whether the server may send `workspace/codeLens/refresh`, upon which the client requests all
    /// shown code lenses again.
    pub refresh_support: Option<bool>,
}

#[tactic(auto, unfolding(crate::specs::Refresh::code_lens_workspace_client_capabilities_row))]
impl Wire for CodeLensWorkspaceClientCapabilities {
    ghost shape = { code_lens_workspace_client_capabilities_row.shape };

    ghost shown = { code_lens_workspace_client_capabilities_row.shown };

    fn from_value(
        alloc: Global,
        value: &Value,
    ) -> Result<CodeLensWorkspaceClientCapabilities, Misfit> {
        let refresh_support = read_object(alloc, value, Optional("refreshSupport"))?;
        Ok(CodeLensWorkspaceClientCapabilities { refresh_support })
    }

    fn to_value(&self, alloc: Global) -> Result<Value, NoMemory> {
        let mut object = Writer::new(alloc);
        object.optional("refreshSupport", &self.refresh_support);
        object.end()
    }
}

/// What a client supports for semantic tokens across the workspace, as the capability
/// `workspace.semanticTokens`. Since 3.16 (LSP 3.17, "Semantic Tokens").
#[derive(Debug, PartialEq, Eq, Clone, Drop)]
pub struct SemanticTokensWorkspaceClientCapabilities {
    /// Whether the server may send `workspace/semanticTokens/refresh`, upon which the client
    /// requests all shown semantic tokens again.
    pub refresh_support: Option<bool>,
}

#[tactic(auto, unfolding(crate::specs::Refresh::semantic_tokens_workspace_client_capabilities_row))]
impl Wire for SemanticTokensWorkspaceClientCapabilities {
    ghost shape = { semantic_tokens_workspace_client_capabilities_row.shape };

    ghost shown = { semantic_tokens_workspace_client_capabilities_row.shown };

    fn from_value(
        alloc: Global,
        value: &Value,
    ) -> Result<SemanticTokensWorkspaceClientCapabilities, Misfit> {
        let refresh_support = read_object(alloc, value, Optional("refreshSupport"))?;
        Ok(SemanticTokensWorkspaceClientCapabilities { refresh_support })
    }

    fn to_value(&self, alloc: Global) -> Result<Value, NoMemory> {
        let mut object = Writer::new(alloc);
        object.nullable("refreshSupport", &self.refresh_support);
        object.end()
    }
}

/// What a client supports for inlay hints across the workspace, as the capability
/// `workspace.inlayHint`. Since 3.17 (LSP 3.17, "Inlay Hint Refresh Request").
#[derive(Debug, PartialEq, Eq, Default, Clone, Drop)]
pub struct InlayHintWorkspaceClientCapabilities {
    /// Whether the server may send `workspace/inlayHint/refresh`, upon which the client requests
    /// all shown inlay hints again.
    pub refresh_support: Option<bool>,
}

#[tactic(auto, unfolding(crate::specs::Refresh::inlay_hint_workspace_client_capabilities_row))]
impl Wire for InlayHintWorkspaceClientCapabilities {
    ghost shape = { inlay_hint_workspace_client_capabilities_row.shape };

    ghost shown = { inlay_hint_workspace_client_capabilities_row.shown };

    fn from_value(
        alloc: Global,
        value: &Value,
    ) -> Result<InlayHintWorkspaceClientCapabilities, Misfit> {
        let refresh_support = read_object(alloc, value, Optional("refreshSupport"))?;
        Ok(InlayHintWorkspaceClientCapabilities { refresh_support })
    }

    fn to_value(&self, alloc: Global) -> Result<Value, NoMemory> {
        let mut object = Writer::new(alloc);
        object.optional("refreshSupport", &self.refresh_support);
        object.end()
    }
}

/// What a client supports for inline values across the workspace, as the capability
/// `workspace.inlineValue`. Since 3.17 (LSP 3.17, "Inline Value Refresh Request").
#[derive(Debug, PartialEq, Eq, Default, Clone, Drop)]
pub struct InlineValueWorkspaceClientCapabilities {
    /// Whether the server may send `workspace/inlineValue/refresh`, upon which the client requests
    /// all shown inline values again.
    pub refresh_support: Option<bool>,
}

#[tactic(auto, unfolding(crate::specs::Refresh::inline_value_workspace_client_capabilities_row))]
impl Wire for InlineValueWorkspaceClientCapabilities {
    ghost shape = { inline_value_workspace_client_capabilities_row.shape };

    ghost shown = { inline_value_workspace_client_capabilities_row.shown };

    fn from_value(
        alloc: Global,
        value: &Value,
    ) -> Result<InlineValueWorkspaceClientCapabilities, Misfit> {
        let refresh_support = read_object(alloc, value, Optional("refreshSupport"))?;
        Ok(InlineValueWorkspaceClientCapabilities { refresh_support })
    }

    fn to_value(&self, alloc: Global) -> Result<Value, NoMemory> {
        let mut object = Writer::new(alloc);
        object.optional("refreshSupport", &self.refresh_support);
        object.end()
    }
}

/// What a client supports for pulled diagnostics across the workspace, as the capability
/// `workspace.diagnostics`. Since 3.17 (LSP 3.17, "Pull Diagnostics").
#[derive(Debug, PartialEq, Eq, Default, Clone, Drop)]
pub struct DiagnosticWorkspaceClientCapabilities {
    /// Whether the server may send `workspace/diagnostic/refresh`, upon which the client requests
    /// all pulled diagnostics again.
    pub refresh_support: Option<bool>,
}

#[tactic(auto, unfolding(crate::specs::Refresh::diagnostic_workspace_client_capabilities_row))]
impl Wire for DiagnosticWorkspaceClientCapabilities {
    ghost shape = { diagnostic_workspace_client_capabilities_row.shape };

    ghost shown = { diagnostic_workspace_client_capabilities_row.shown };

    fn from_value(
        alloc: Global,
        value: &Value,
    ) -> Result<DiagnosticWorkspaceClientCapabilities, Misfit> {
        let refresh_support = read_object(alloc, value, Optional("refreshSupport"))?;
        Ok(DiagnosticWorkspaceClientCapabilities { refresh_support })
    }

    fn to_value(&self, alloc: Global) -> Result<Value, NoMemory> {
        let mut object = Writer::new(alloc);
        object.optional("refreshSupport", &self.refresh_support);
        object.end()
    }
}
