// What an editor supports of symbols.
ghost use Rattle.lsp_base.specs.Capability.{symbol_kind_capability_row};

use lsp_kinds::SymbolKind;
use lsp_shape::{Misfit, NoMemory, Optional, Wire, Writer, read_object};
use serde_json::Value;
use std::alloc::Global;

/// The kinds of symbols that a client supports (LSP 3.17, "Document Symbols Request").
#[derive(Debug, PartialEq, Eq, Default, Clone, Drop)]
pub struct SymbolKindCapability {
    /// The kinds. Absent: those from `FILE` to `ARRAY`.
    pub value_set: Option<Vec<SymbolKind>>,
}

#[tactic(auto, unfolding(crate::specs::Capability::symbol_kind_capability_row))]
impl Wire for SymbolKindCapability {
    ghost shape = { symbol_kind_capability_row.shape };

    ghost shown = { symbol_kind_capability_row.shown };

    fn from_value(alloc: Global, value: &Value) -> Result<SymbolKindCapability, Misfit> {
        let value_set = read_object(alloc, value, Optional("valueSet"))?;
        Ok(SymbolKindCapability { value_set })
    }

    fn to_value(&self, alloc: Global) -> Result<Value, NoMemory> {
        let mut object = Writer::new(alloc);
        object.nullable("valueSet", &self.value_set);
        object.end()
    }
}
