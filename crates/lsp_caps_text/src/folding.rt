// Ranges that can be folded.
ghost use Rattle.lsp_caps_text.specs.Folding.{folding_range_client_capabilities_row, folding_range_kind_capability_row, folding_range_capability_row};

use lsp_names::FoldingRangeKind;
use lsp_shape::{Misfit, NoMemory, Optional, Wire, Writer, read_object};
use serde_json::Value;
use std::alloc::Global;

/// What a client supports for `textDocument/foldingRange`, as the capability
/// `textDocument.foldingRange`. Since 3.10 (LSP 3.17, "Folding Range Request").
#[derive(Debug, PartialEq, Eq, Default, Clone, Drop)]
pub struct FoldingRangeClientCapabilities {
    /// Whether the server may register the feature after initialization, with
    /// `client/registerCapability`.
    pub dynamic_registration: Option<bool>,
    /// How many ranges for each document the client would like to receive at most. This is a hint,
    /// which a server may ignore.
    pub range_limit: Option<u32>,
    /// Whether the client folds whole lines only. It then ignores the start and end characters of a
    /// range.
    pub line_folding_only: Option<bool>,
    /// The kinds of folding ranges that the client supports. Since 3.17.
    pub folding_range_kind: Option<FoldingRangeKindCapability>,
    /// What the client supports in a single folding range. Since 3.17.
    pub folding_range: Option<FoldingRangeCapability>,
}

#[tactic(auto, unfolding(crate::specs::Folding::folding_range_client_capabilities_row))]
impl Wire for FoldingRangeClientCapabilities {
    ghost shape = { folding_range_client_capabilities_row.shape };

    ghost shown = { folding_range_client_capabilities_row.shown };

    fn from_value(alloc: Global, value: &Value) -> Result<FoldingRangeClientCapabilities, Misfit> {
        let (
            dynamic_registration,
            range_limit,
            line_folding_only,
            folding_range_kind,
            folding_range,
        ) = read_object(
            alloc,
            value,
            (
                Optional("dynamicRegistration"),
                Optional("rangeLimit"),
                Optional("lineFoldingOnly"),
                Optional("foldingRangeKind"),
                Optional("foldingRange"),
            ),
        )?;
        Ok(FoldingRangeClientCapabilities {
            dynamic_registration,
            range_limit,
            line_folding_only,
            folding_range_kind,
            folding_range,
        })
    }

    fn to_value(&self, alloc: Global) -> Result<Value, NoMemory> {
        let mut object = Writer::new(alloc);
        object.optional("dynamicRegistration", &self.dynamic_registration);
        object.optional("rangeLimit", &self.range_limit);
        object.optional("lineFoldingOnly", &self.line_folding_only);
        object.optional("foldingRangeKind", &self.folding_range_kind);
        object.optional("foldingRange", &self.folding_range);
        object.end()
    }
}

/// The kinds of folding ranges that a client supports, as the capability
/// `textDocument.foldingRange.foldingRangeKind`. Since 3.17 (LSP 3.17, "Folding Range Request").
#[derive(Debug, PartialEq, Eq, Default, Clone, Drop)]
pub struct FoldingRangeKindCapability {
    /// The supported kinds. A client that sends them also copes with other kinds. LSP allows any
    /// string here; reading fails for one that isn't a `FoldingRangeKind`.
    pub value_set: Option<Vec<FoldingRangeKind>>,
}

#[tactic(auto, unfolding(crate::specs::Folding::folding_range_kind_capability_row))]
impl Wire for FoldingRangeKindCapability {
    ghost shape = { folding_range_kind_capability_row.shape };

    ghost shown = { folding_range_kind_capability_row.shown };

    fn from_value(alloc: Global, value: &Value) -> Result<FoldingRangeKindCapability, Misfit> {
        let value_set = read_object(alloc, value, Optional("valueSet"))?;
        Ok(FoldingRangeKindCapability { value_set })
    }

    fn to_value(&self, alloc: Global) -> Result<Value, NoMemory> {
        let mut object = Writer::new(alloc);
        object.optional("valueSet", &self.value_set);
        object.end()
    }
}

/// What a client supports in a folding range, as the capability
/// `textDocument.foldingRange.foldingRange`. Since 3.17 (LSP 3.17, "Folding Range Request").
#[derive(Debug, PartialEq, Eq, Default, Clone, Drop)]
pub struct FoldingRangeCapability {
    /// Whether the client shows the `collapsedText` of a range while it is folded.
    pub collapsed_text: Option<bool>,
}

#[tactic(auto, unfolding(crate::specs::Folding::folding_range_capability_row))]
impl Wire for FoldingRangeCapability {
    ghost shape = { folding_range_capability_row.shape };

    ghost shown = { folding_range_capability_row.shown };

    fn from_value(alloc: Global, value: &Value) -> Result<FoldingRangeCapability, Misfit> {
        let collapsed_text = read_object(alloc, value, Optional("collapsedText"))?;
        Ok(FoldingRangeCapability { collapsed_text })
    }

    fn to_value(&self, alloc: Global) -> Result<Value, NoMemory> {
        let mut object = Writer::new(alloc);
        object.optional("collapsedText", &self.collapsed_text);
        object.end()
    }
}
