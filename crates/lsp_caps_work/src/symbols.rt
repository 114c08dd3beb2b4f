// The symbols of the workspace.
ghost use Rattle.std.specs.Prelude.{◌≡◌, []};
ghost use Rattle.lsp_caps_work.specs.Symbols.{workspace_symbol_client_capabilities_row, workspace_symbol_resolve_support_capability_row};

use lsp_base::{SymbolKindCapability, TagSupport};
use lsp_kinds::SymbolTag;
use lsp_shape::{Misfit, NoMemory, Optional, Required, Supported, Wire, Writer, read_object};
use serde_json::Value;
use std::alloc::Global;

/// What a client supports for `workspace/symbol`, as the capability `workspace.symbol` (LSP 3.17,
/// "Workspace Symbols Request").
#[derive(Debug, PartialEq, Eq, Default, Clone, Drop)]
pub struct WorkspaceSymbolClientCapabilities {
    /// Whether the server may register the feature after initialization, with
    /// `client/registerCapability`.
    pub dynamic_registration: Option<bool>,
    /// The symbol kinds that the client supports. Absent: only those of the first protocol version,
    /// `FILE` to `ARRAY`.
    pub symbol_kind: Option<SymbolKindCapability>,
    /// The symbol tags that the client supports. It also copes with other tags. Since 3.16.
    pub tag_support: Option<TagSupport<SymbolTag>>,
    /// The fields that the client can fetch later with `workspaceSymbol/resolve`. Absent: none.
    /// Since 3.17.
    pub resolve_support: Option<WorkspaceSymbolResolveSupportCapability>,
}

#[tactic(auto, unfolding(crate::specs::Symbols::workspace_symbol_client_capabilities_row))]
impl Wire for WorkspaceSymbolClientCapabilities {
    ghost shape = { workspace_symbol_client_capabilities_row.shape };

    ghost shown = { workspace_symbol_client_capabilities_row.shown };

    fn from_value(
        alloc: Global,
        value: &Value,
    ) -> Result<WorkspaceSymbolClientCapabilities, Misfit> {
        let (dynamic_registration, symbol_kind, tag_support, resolve_support) = read_object(
            alloc,
            value,
            (
                Optional("dynamicRegistration"),
                Optional("symbolKind"),
                Supported("tagSupport"),
                Optional("resolveSupport"),
            ),
        )?;
        Ok(WorkspaceSymbolClientCapabilities {
            dynamic_registration,
            symbol_kind,
            tag_support,
            resolve_support,
        })
    }

    fn to_value(&self, alloc: Global) -> Result<Value, NoMemory> {
        let mut object = Writer::new(alloc);
        object.optional("dynamicRegistration", &self.dynamic_registration);
        object.optional("symbolKind", &self.symbol_kind);
        object.optional("tagSupport", &self.tag_support);
        object.optional("resolveSupport", &self.resolve_support);
        object.end()
    }
}

/// The fields of a workspace symbol that a client can fetch later, with `workspaceSymbol/resolve`.
/// Since 3.17 (LSP 3.17, "Workspace Symbols Request").
#[derive(Debug, PartialEq, Eq, Clone, Drop)]
pub struct WorkspaceSymbolResolveSupportCapability {
    /// The names of the fields, such as `location.range`.
    pub properties: Vec<String>,
}

impl WorkspaceSymbolResolveSupportCapability {
    /// The default value: empty strings and arrays, zero numbers, `false` booleans, and every
    /// optional field absent.
    pub fn default(alloc: Global) -> WorkspaceSymbolResolveSupportCapability
        ensures properties { result.properties.items ≡ [] }
    {
        WorkspaceSymbolResolveSupportCapability {
            properties: Vec::new(alloc),
        }
    }
}

#[tactic(auto, unfolding(crate::specs::Symbols::workspace_symbol_resolve_support_capability_row))]
impl Wire for WorkspaceSymbolResolveSupportCapability {
    ghost shape = { workspace_symbol_resolve_support_capability_row.shape };

    ghost shown = { workspace_symbol_resolve_support_capability_row.shown };

    fn from_value(
        alloc: Global,
        value: &Value,
    ) -> Result<WorkspaceSymbolResolveSupportCapability, Misfit> {
        let properties = read_object(alloc, value, Required("properties"))?;
        Ok(WorkspaceSymbolResolveSupportCapability { properties })
    }

    fn to_value(&self, alloc: Global) -> Result<Value, NoMemory> {
        let mut object = Writer::new(alloc);
        object.field("properties", &self.properties);
        object.end()
    }
}
