// Configuration, watched files and commands.
ghost use Rattle.lsp_caps_work.specs.Configuration.{did_change_watched_files_client_capabilities_row};

use lsp_base::DynamicRegistrationClientCapabilities;
use lsp_shape::{Misfit, NoMemory, Optional, Wire, Writer, read_object};
use serde_json::Value;
use std::alloc::Global;

/// What a client supports for `workspace/didChangeConfiguration`, as the capability
/// `workspace.didChangeConfiguration` (LSP 3.17, "DidChangeConfiguration Notification").
pub type DidChangeConfigurationClientCapabilities = DynamicRegistrationClientCapabilities;

/// What a client supports for `workspace/didChangeWatchedFiles`, as the capability
/// `workspace.didChangeWatchedFiles` (LSP 3.17, "DidChangeWatchedFiles Notification").
#[derive(Debug, PartialEq, Eq, Default, Clone, Copy)]
pub struct DidChangeWatchedFilesClientCapabilities {
    /// Whether the server may register file watchers with `client/registerCapability`. The protocol
    /// has no other way to ask for them.
    pub dynamic_registration: Option<bool>,
    /// Whether a watcher's glob pattern may be relative to a workspace folder or another base URI.
    /// Since 3.17.
    pub relative_pattern_support: Option<bool>,
}

#[tactic(auto, unfolding(crate::specs::Configuration::did_change_watched_files_client_capabilities_row))]
impl Wire for DidChangeWatchedFilesClientCapabilities {
    ghost shape = { did_change_watched_files_client_capabilities_row.shape };

    ghost shown = { did_change_watched_files_client_capabilities_row.shown };

    fn from_value(
        alloc: Global,
        value: &Value,
    ) -> Result<DidChangeWatchedFilesClientCapabilities, Misfit> {
        let (dynamic_registration, relative_pattern_support) = read_object(
            alloc,
            value,
            (
                Optional("dynamicRegistration"),
                Optional("relativePatternSupport"),
            ),
        )?;
        Ok(DidChangeWatchedFilesClientCapabilities {
            dynamic_registration,
            relative_pattern_support,
        })
    }

    fn to_value(&self, alloc: Global) -> Result<Value, NoMemory> {
        let mut object = Writer::new(alloc);
        object.optional("dynamicRegistration", &self.dynamic_registration);
        object.optional("relativePatternSupport", &self.relative_pattern_support);
        object.end()
    }
}

/// What a client supports for `workspace/executeCommand`, as the capability
/// `workspace.executeCommand` (LSP 3.17, "Execute a command").
pub type ExecuteCommandClientCapabilities = DynamicRegistrationClientCapabilities;
