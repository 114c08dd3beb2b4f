// Files that are created, renamed and deleted.
ghost use Rattle.lsp_caps_work.specs.Files.{workspace_file_operations_client_capabilities_row};

use lsp_shape::{Misfit, NoMemory, Optional, Wire, Writer, read_object};
use serde_json::Value;
use std::alloc::Global;

/// Which requests and notifications a client sends when files or folders are created, renamed or
/// deleted from within it, by its user or by a workspace edit, as the capability
/// `workspace.fileOperations`. Since 3.16 (LSP 3.17, "Initialize Request").
#[derive(Debug, PartialEq, Eq, Default, Clone, Drop)]
pub struct WorkspaceFileOperationsClientCapabilities {
    /// Whether the server may register the feature after initialization, with
    /// `client/registerCapability`.
    pub dynamic_registration: Option<bool>,
    /// Whether the client sends `workspace/didCreateFiles`.
    pub did_create: Option<bool>,
    /// Whether the client sends `workspace/willCreateFiles`.
    pub will_create: Option<bool>,
    /// Whether the client sends `workspace/didRenameFiles`.
    pub did_rename: Option<bool>,
    /// Whether the client sends `workspace/willRenameFiles`.
    pub will_rename: Option<bool>,
    /// Whether the client sends `workspace/didDeleteFiles`.
    pub did_delete: Option<bool>,
    /// Whether the client sends `workspace/willDeleteFiles`.
    pub will_delete: Option<bool>,
}

#[tactic(auto, unfolding(crate::specs::Files::workspace_file_operations_client_capabilities_row))]
impl Wire for WorkspaceFileOperationsClientCapabilities {
    ghost shape = { workspace_file_operations_client_capabilities_row.shape };

    ghost shown = { workspace_file_operations_client_capabilities_row.shown };

    fn from_value(
        alloc: Global,
        value: &Value,
    ) -> Result<WorkspaceFileOperationsClientCapabilities, Misfit> {
        let (
            (dynamic_registration, did_create, will_create, did_rename),
            (will_rename, did_delete, will_delete),
        ) = read_object(
            alloc,
            value,
            (
                (
                    Optional("dynamicRegistration"),
                    Optional("didCreate"),
                    Optional("willCreate"),
                    Optional("didRename"),
                ),
                (
                    Optional("willRename"),
                    Optional("didDelete"),
                    Optional("willDelete"),
                ),
            ),
        )?;
        Ok(WorkspaceFileOperationsClientCapabilities {
            dynamic_registration,
            did_create,
            will_create,
            did_rename,
            will_rename,
            did_delete,
            will_delete,
        })
    }

    fn to_value(&self, alloc: Global) -> Result<Value, NoMemory> {
        let mut object = Writer::new(alloc);
        object.optional("dynamicRegistration", &self.dynamic_registration);
        object.optional("didCreate", &self.did_create);
        object.optional("willCreate", &self.will_create);
        object.optional("didRename", &self.did_rename);
        object.optional("willRename", &self.will_rename);
        object.optional("didDelete", &self.did_delete);
        object.optional("willDelete", &self.will_delete);
        object.end()
    }
}
