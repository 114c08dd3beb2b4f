// Notebooks.
ghost use Rattle.lsp_caps_work.specs.Notebook.{notebook_document_client_capabilities_row, notebook_document_sync_client_capabilities_row};

use lsp_shape::{Misfit, NoMemory, Optional, Required, Wire, Writer, read_object};
use serde_json::Value;
use std::alloc::Global;

/// What a client supports for notebooks, as `notebookDocument` in its capabilities in `initialize`.
/// Since 3.17 (LSP 3.17, "Notebook Document Synchronization").
#[derive(Debug, PartialEq, Eq, Default, Clone, Drop)]
pub struct NotebookDocumentClientCapabilities {
    /// What the client supports when it keeps the server's copy of a notebook up to date.
    pub synchronization: NotebookDocumentSyncClientCapabilities,
}

#[tactic(auto, unfolding(crate::specs::Notebook::notebook_document_client_capabilities_row))]
impl Wire for NotebookDocumentClientCapabilities {
    ghost shape = { notebook_document_client_capabilities_row.shape };

    ghost shown = { notebook_document_client_capabilities_row.shown };

    fn from_value(
        alloc: Global,
        value: &Value,
    ) -> Result<NotebookDocumentClientCapabilities, Misfit> {
        let synchronization = read_object(alloc, value, Required("synchronization"))?;
        Ok(NotebookDocumentClientCapabilities { synchronization })
    }

    fn to_value(&self, alloc: Global) -> Result<Value, NoMemory> {
        let mut object = Writer::new(alloc);
        object.field("synchronization", &self.synchronization);
        object.end()
    }
}

/// What a client supports for the synchronization of notebooks, as the capability
/// `notebookDocument.synchronization`. Since 3.17 (LSP 3.17, "Notebook Document Synchronization").
#[derive(Debug, PartialEq, Eq, Default, Clone, Drop)]
pub struct NotebookDocumentSyncClientCapabilities {
    /// Whether the server may register the feature after initialization, with
    /// `client/registerCapability`.
    pub dynamic_registration: Option<bool>,
    /// Whether the client sends an `ExecutionSummary` for each cell.
    pub execution_summary_report: Option<bool>,
}

#[tactic(auto, unfolding(crate::specs::Notebook::notebook_document_sync_client_capabilities_row))]
impl Wire for NotebookDocumentSyncClientCapabilities {
    ghost shape = { notebook_document_sync_client_capabilities_row.shape };

    ghost shown = { notebook_document_sync_client_capabilities_row.shown };

    fn from_value(
        alloc: Global,
        value: &Value,
    ) -> Result<NotebookDocumentSyncClientCapabilities, Misfit> {
        let (dynamic_registration, execution_summary_report) = read_object(
            alloc,
            value,
            (
                Optional("dynamicRegistration"),
                Optional("executionSummaryReport"),
            ),
        )?;
        Ok(NotebookDocumentSyncClientCapabilities {
            dynamic_registration,
            execution_summary_report,
        })
    }

    fn to_value(&self, alloc: Global) -> Result<Value, NoMemory> {
        let mut object = Writer::new(alloc);
        object.optional("dynamicRegistration", &self.dynamic_registration);
        object.optional("executionSummaryReport", &self.execution_summary_report);
        object.end()
    }
}
