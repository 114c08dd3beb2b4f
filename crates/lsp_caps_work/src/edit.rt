// Edits of the workspace.
ghost use Rattle.lsp_caps_work.specs.Edit.{workspace_edit_client_capabilities_row, change_annotation_workspace_edit_client_capabilities_row, resource_operation_kind_row, failure_handling_kind_row};

use lsp_shape::{Misfit, NoMemory, Optional, Wanted, Wire, Writer, read_object};
use serde_json::Value;
use std::alloc::Global;

/// What a client supports in a `WorkspaceEdit`, as the capability `workspace.workspaceEdit` (LSP
/// 3.17, "WorkspaceEdit").
#[derive(Debug, PartialEq, Eq, Default, Clone, Drop)]
pub struct WorkspaceEditClientCapabilities {
    /// Whether an edit may use `documentChanges`, which names the version of each document. If the
    /// client has neither this nor `resourceOperations`, only `changes` may be used.
    pub document_changes: Option<bool>,
    /// The operations on files and folders that the client can carry out. Absent: none. Since 3.13.
    pub resource_operations: Option<Vec<ResourceOperationKind>>,
    /// What the client does when a change of an edit fails. Since 3.13.
    pub failure_handling: Option<FailureHandlingKind>,
    /// Whether the client converts the line endings in an edit to the ones that it uses itself.
    /// Since 3.16.
    pub normalizes_line_endings: Option<bool>,
    /// How the client supports change annotations. Absent: it doesn't. Since 3.16.
    pub change_annotation_support: Option<ChangeAnnotationWorkspaceEditClientCapabilities>,
}

#[tactic(auto, unfolding(crate::specs::Edit::workspace_edit_client_capabilities_row))]
impl Wire for WorkspaceEditClientCapabilities {
    ghost shape = { workspace_edit_client_capabilities_row.shape };

    ghost shown = { workspace_edit_client_capabilities_row.shown };

    fn from_value(alloc: Global, value: &Value) -> Result<WorkspaceEditClientCapabilities, Misfit> {
        let (
            document_changes,
            resource_operations,
            failure_handling,
            normalizes_line_endings,
            change_annotation_support,
        ) = read_object(
            alloc,
            value,
            (
                Optional("documentChanges"),
                Optional("resourceOperations"),
                Optional("failureHandling"),
                Optional("normalizesLineEndings"),
                Optional("changeAnnotationSupport"),
            ),
        )?;
        Ok(WorkspaceEditClientCapabilities {
            document_changes,
            resource_operations,
            failure_handling,
            normalizes_line_endings,
            change_annotation_support,
        })
    }

    fn to_value(&self, alloc: Global) -> Result<Value, NoMemory> {
        let mut object = Writer::new(alloc);
        object.optional("documentChanges", &self.document_changes);
        object.optional("resourceOperations", &self.resource_operations);
        object.optional("failureHandling", &self.failure_handling);
        object.optional("normalizesLineEndings", &self.normalizes_line_endings);
        object.optional("changeAnnotationSupport", &self.change_annotation_support);
        object.end()
    }
}

/// How a client supports change annotations, as the capability
/// `workspace.workspaceEdit.changeAnnotationSupport`. Since 3.16 (LSP 3.17, "WorkspaceEdit").
#[derive(Debug, PartialEq, Eq, Default, Clone, Drop)]
pub struct ChangeAnnotationWorkspaceEditClientCapabilities {
    /// Whether the client shows the changes that have the same label as one group.
    pub groups_on_label: Option<bool>,
}

#[tactic(auto, unfolding(crate::specs::Edit::change_annotation_workspace_edit_client_capabilities_row))]
impl Wire for ChangeAnnotationWorkspaceEditClientCapabilities {
    ghost shape = { change_annotation_workspace_edit_client_capabilities_row.shape };

    ghost shown = { change_annotation_workspace_edit_client_capabilities_row.shown };

    fn from_value(
        alloc: Global,
        value: &Value,
    ) -> Result<ChangeAnnotationWorkspaceEditClientCapabilities, Misfit> {
        let groups_on_label = read_object(alloc, value, Optional("groupsOnLabel"))?;
        Ok(ChangeAnnotationWorkspaceEditClientCapabilities { groups_on_label })
    }

    fn to_value(&self, alloc: Global) -> Result<Value, NoMemory> {
        let mut object = Writer::new(alloc);
        object.optional("groupsOnLabel", &self.groups_on_label);
        object.end()
    }
}

/// A kind of operation on files and folders that a client can carry out as part of a
/// `WorkspaceEdit`. Since 3.13 (LSP 3.17, "WorkspaceEdit").
#[derive(Debug, PartialEq, Eq, Clone, Copy)]
pub enum ResourceOperationKind {
    /// The client can create files and folders.
    Create,
    /// The client can rename files and folders.
    Rename,
    /// The client can delete files and folders.
    Delete,
}

#[tactic(auto, unfolding(crate::specs::Edit::resource_operation_kind_row))]
impl Wire for ResourceOperationKind {
    ghost shape = { resource_operation_kind_row.shape };

    ghost shown = { resource_operation_kind_row.shown };

    fn from_value(_alloc: Global, value: &Value) -> Result<ResourceOperationKind, Misfit> {
        match value.as_str() {
            Some("create") => Ok(ResourceOperationKind::Create),
            Some("rename") => Ok(ResourceOperationKind::Rename),
            Some("delete") => Ok(ResourceOperationKind::Delete),
            _ => Err(Misfit::wanted(Wanted::Name)),
        }
    }

    fn to_value(&self, alloc: Global) -> Result<Value, NoMemory> {
        let name = match self {
            ResourceOperationKind::Create => "create",
            ResourceOperationKind::Rename => "rename",
            ResourceOperationKind::Delete => "delete",
        };
        Ok(Value::try_from_str(alloc, name)?)
    }
}

/// What a client does when a change of a `WorkspaceEdit` fails. Since 3.13 (LSP 3.17,
/// "WorkspaceEdit").
#[derive(Debug, PartialEq, Eq, Clone, Copy)]
pub enum FailureHandlingKind {
    /// The client stops at the failed change. The changes made before it stay.
    Abort,
    /// The client makes either all changes or none.
    Transactional,
    /// Like `Transactional` if the edit only changes text; like `Abort` if it also creates, renames
    /// or deletes files.
    TextOnlyTransactional,
    /// The client tries to undo the changes made before the failed one, which may not succeed.
    Undo,
}

#[tactic(auto, unfolding(crate::specs::Edit::failure_handling_kind_row))]
impl Wire for FailureHandlingKind {
    ghost shape = { failure_handling_kind_row.shape };

    ghost shown = { failure_handling_kind_row.shown };

    fn from_value(_alloc: Global, value: &Value) -> Result<FailureHandlingKind, Misfit> {
        match value.as_str() {
            Some("abort") => Ok(FailureHandlingKind::Abort),
            Some("transactional") => Ok(FailureHandlingKind::Transactional),
            Some("textOnlyTransactional") => Ok(FailureHandlingKind::TextOnlyTransactional),
            Some("undo") => Ok(FailureHandlingKind::Undo),
            _ => Err(Misfit::wanted(Wanted::Name)),
        }
    }

    fn to_value(&self, alloc: Global) -> Result<Value, NoMemory> {
        let name = match self {
            FailureHandlingKind::Abort => "abort",
            FailureHandlingKind::Transactional => "transactional",
            FailureHandlingKind::TextOnlyTransactional => "textOnlyTransactional",
            FailureHandlingKind::Undo => "undo",
        };
        Ok(Value::try_from_str(alloc, name)?)
    }
}
