// The symbols of a document.
ghost use Rattle.lsp_caps_text.specs.Symbols.{document_symbol_client_capabilities_row};

use lsp_base::{SymbolKindCapability, TagSupport};
use lsp_kinds::SymbolTag;
use lsp_shape::{Misfit, NoMemory, Reader, Wire, Writer};
use serde_json::Value;
use std::alloc::Global;

/// What a client supports for `textDocument/documentSymbol`, as the capability
/// `textDocument.documentSymbol` (LSP 3.17, "Document Symbols Request").
#[derive(Debug, PartialEq, Eq, Default, Clone, Drop)]
pub struct DocumentSymbolClientCapabilities {
    /// Whether the server may register the feature after initialization, with
    /// `client/registerCapability`.
    pub dynamic_registration: Option<bool>,
    /// The symbol kinds that the client supports. Absent: only those of the first protocol version,
    /// `FILE` to `ARRAY`.
    pub symbol_kind: Option<SymbolKindCapability>,
    /// Whether the response may be a tree of `DocumentSymbol` values. If not, it must be a flat
    /// array of `SymbolInformation` values. Since 3.10.
    pub hierarchical_document_symbol_support: Option<bool>,
    /// The tags that the client supports on `SymbolInformation` values, and on `DocumentSymbol`
    /// values if it supports those. It also copes with other tags. Since 3.16.
    pub tag_support: Option<TagSupport<SymbolTag>>,
}

#[tactic(auto, unfolding(crate::specs::Symbols::document_symbol_client_capabilities_row))]
impl Wire for DocumentSymbolClientCapabilities {
    ghost shape = { document_symbol_client_capabilities_row.shape };

    ghost shown = { document_symbol_client_capabilities_row.shown };

    fn from_value(
        alloc: Global,
        value: &Value,
    ) -> Result<DocumentSymbolClientCapabilities, Misfit> {
        let object = Reader::new(alloc, value)?;
        Ok(DocumentSymbolClientCapabilities {
            dynamic_registration: object.optional("dynamicRegistration")?,
            symbol_kind: object.optional("symbolKind")?,
            hierarchical_document_symbol_support: object.optional(
                "hierarchicalDocumentSymbolSupport",
            )?,
            tag_support: object.supported("tagSupport")?,
        })
    }

    fn to_value(&self, alloc: Global) -> Result<Value, NoMemory> {
        let mut object = Writer::new(alloc);
        object.optional("dynamicRegistration", &self.dynamic_registration);
        object.optional("symbolKind", &self.symbol_kind);
        object.optional(
            "hierarchicalDocumentSymbolSupport",
            &self.hierarchical_document_symbol_support,
        );
        object.optional("tagSupport", &self.tag_support);
        object.end()
    }
}
