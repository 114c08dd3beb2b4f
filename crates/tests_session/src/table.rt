//! Tables of rows, each of which is tried in turn.
use lsp_rows::{RowError, Trial};
use lsp_rpc::NoMemory;
use std::alloc::Global;

/// A row of a table.
pub(crate) trait TableRow {
    /// Tries what the row says.
    fn try_row(&self, trial: &mut Trial, alloc: Global) -> Result<(), NoMemory>;
}

/// Tries each row, and tells the first that isn't true.
pub(crate) fn try_table<R: TableRow>(alloc: Global, rows: &[R]) -> Result<(), RowError> {
    let mut trial = Trial::new(alloc);
    for row in rows {
        row.try_row(&mut trial, alloc)?;
    }
    trial.end()
}
