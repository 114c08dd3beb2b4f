// What a cell of a notebook holds.
ghost use Rattle.std.specs.Prelude.{◌≡◌, option_map};
ghost use Rattle.serde_json.specs.View.{view};
ghost use Rattle.lsp_shape.specs.Read.{read};
ghost use Rattle.lsp_report.specs.CellKind.{notebook_cell_kind_row};

use lsp_shape::{Misfit, NoMemory, Wanted, Wire};
use serde_json::Value;
use std::alloc::Global;

/// What a cell of a notebook holds. Since 3.17 (LSP 3.17, "Notebook Document Synchronization").
#[derive(Debug, PartialEq, Eq, Clone, Drop)]
pub enum NotebookCellKind {
    /// Text for people.
    Markup,
    /// Code.
    Code,
}

// The kind that the value is the number of.
#[tactic(auto, unfolding(crate::specs::CellKind::notebook_cell_kind_row))]
fn kind_of(value: &Value) -> Option<NotebookCellKind>
    ensures { option_map notebook_cell_kind_row.shown result
        ≡ read notebook_cell_kind_row.shape (view value.now) }
{
    match value {
        Value::Number(number) => match number.as_u64() {
            Some(1) => Some(NotebookCellKind::Markup),
            Some(2) => Some(NotebookCellKind::Code),
            _ => None,
        },
        _ => None,
    }
}

#[tactic(auto, unfolding(crate::specs::CellKind::notebook_cell_kind_row))]
impl Wire for NotebookCellKind {
    ghost shape = { notebook_cell_kind_row.shape };

    ghost shown = { notebook_cell_kind_row.shown };

    fn from_value(_alloc: Global, value: &Value) -> Result<NotebookCellKind, Misfit> {
        match kind_of(value) {
            Some(kind) => Ok(kind),
            None => Err(Misfit::wanted(Wanted::Unsigned)),
        }
    }

    fn to_value(&self, _alloc: Global) -> Result<Value, NoMemory> {
        let number: u8 = match self {
            NotebookCellKind::Markup => 1,
            NotebookCellKind::Code => 2,
        };
        Ok(Value::from(number))
    }
}
