// What is folded, of section "Folding Range Request".
ghost use Rattle.lsp_names.specs.Folding.{folding_range_kind_row};

use lsp_shape::{Misfit, Wanted, Wire};
use no_memory::NoMemory;
use serde_json::Value;
use std::alloc::Global;

/// What a range that can be folded holds. LSP allows any string; here only these three are read,
/// and reading fails for others (LSP 3.17, "Folding Range Request").
#[derive(Clone, Debug, PartialEq, Eq, Drop)]
pub enum FoldingRangeKind {
    /// A comment.
    Comment,
    /// Imports or includes.
    Imports,
    /// What the code itself marks as a region, as by `#region`.
    Region,
}

#[tactic(auto, unfolding(crate::specs::Folding::folding_range_kind_row))]
impl Wire for FoldingRangeKind {
    ghost shape = { folding_range_kind_row.shape };

    ghost shown = { folding_range_kind_row.shown };

    fn from_value(_alloc: Global, value: &Value) -> Result<FoldingRangeKind, Misfit> {
        match value.as_str() {
            Some("comment") => Ok(FoldingRangeKind::Comment),
            Some("imports") => Ok(FoldingRangeKind::Imports),
            Some("region") => Ok(FoldingRangeKind::Region),
            _ => Err(Misfit::wanted(Wanted::Name)),
        }
    }

    fn to_value(&self, alloc: Global) -> Result<Value, NoMemory> {
        let name = match self {
            FoldingRangeKind::Comment => "comment",
            FoldingRangeKind::Imports => "imports",
            FoldingRangeKind::Region => "region",
        };
        Ok(Value::try_from_str(alloc, name)?)
    }
}
