// Symbols.
ghost use Rattle.lsp_offer_text.specs.Symbols.{document_symbol_options_row, workspace_symbol_options_row};

use lsp_names::WorkDoneProgressOptions;
use lsp_shape::{Flat, Misfit, NoMemory, Optional, Wire, Writer, flat, read_object};
use serde_json::Value;
use std::alloc::Global;

/// What a server offers for `textDocument/documentSymbol`, as the capability
/// `documentSymbolProvider` (LSP 3.17, "Document Symbols Request").
#[derive(Debug, PartialEq, Eq, Clone, Drop)]
pub struct DocumentSymbolOptions {
    /// A name for this server's outline, which the client shows when a document has several
    /// outlines. Since 3.16.
    pub label: Option<String>,
    /// Whether the server reports work done progress for these requests where the client sends a
    /// token. Since 3.15.
    pub work_done_progress_options: WorkDoneProgressOptions,
}

#[tactic(auto, unfolding(crate::specs::Symbols::document_symbol_options_row, lsp_names::specs::Progress::work_done_progress_options_row))]
impl Wire for DocumentSymbolOptions {
    ghost shape = { document_symbol_options_row.shape };

    ghost shown = { document_symbol_options_row.shown };

    fn from_value(alloc: Global, value: &Value) -> Result<DocumentSymbolOptions, Misfit> {
        let (label, work_done_progress_options) = read_object(
            alloc,
            value,
            (Optional("label"), Flat),
        )?;
        Ok(DocumentSymbolOptions {
            label,
            work_done_progress_options,
        })
    }

    fn to_value(&self, alloc: Global) -> Result<Value, NoMemory> {
        let mut object = Writer::new(alloc);
        object.optional("label", &self.label);
        object.flat(&self.work_done_progress_options);
        object.end()
    }
}

/// What a server offers for `workspace/symbol`, as the capability `workspaceSymbolProvider` (LSP
/// 3.17, "Workspace Symbols Request").
#[derive(Debug, PartialEq, Eq, Clone, Drop)]
pub struct WorkspaceSymbolOptions {
    /// Whether the server reports work done progress for these requests where the client sends a
    /// token. Since 3.15.
    pub work_done_progress_options: WorkDoneProgressOptions,
    /// Whether `workspaceSymbol/resolve` is supported, by which the client asks for further details
    /// of a symbol. Since 3.17.
    pub resolve_provider: Option<bool>,
}

#[tactic(auto, unfolding(crate::specs::Symbols::workspace_symbol_options_row, lsp_names::specs::Progress::work_done_progress_options_row))]
impl Wire for WorkspaceSymbolOptions {
    ghost shape = { workspace_symbol_options_row.shape };

    ghost shown = { workspace_symbol_options_row.shown };

    fn from_value(alloc: Global, value: &Value) -> Result<WorkspaceSymbolOptions, Misfit> {
        let (work_done_progress_options, resolve_provider) = read_object(
            alloc,
            value,
            (Flat, Optional("resolveProvider")),
        )?;
        Ok(WorkspaceSymbolOptions {
            work_done_progress_options,
            resolve_provider,
        })
    }

    fn to_value(&self, alloc: Global) -> Result<Value, NoMemory> {
        let mut object = Writer::new(alloc);
        object.flat(&self.work_done_progress_options);
        object.optional("resolveProvider", &self.resolve_provider);
        object.end()
    }
}
