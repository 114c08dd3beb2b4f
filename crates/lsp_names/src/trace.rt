// How much a server tells of its own work, of section "TraceValue".
ghost use Rattle.std.specs.Prelude.{◌≡◌};
ghost use Rattle.lsp_names.specs.Trace.{trace_value_row};
ghost use Rattle.lsp_names.specs.declared.trace.TraceValue.TheVariants as values;

use lsp_shape::{Misfit, Wanted, Wire};
use no_memory::NoMemory;
use serde_json::Value;
use std::alloc::Global;

/// How much a server reports with `$/logTrace`. At first `off`, unless `initialize` says otherwise
/// (LSP 3.17, "TraceValue").
#[derive(Clone, Copy, Debug, PartialEq, Eq)]
pub enum TraceValue {
    /// No traces.
    Off,
    /// Messages without `verbose`.
    Messages,
    /// Messages with `verbose`.
    Verbose,
}

impl Default for TraceValue {
    ghost is_default = { λ trace. trace ≡ values.Off };

    fn default() -> TraceValue {
        Self::Off
    }
}

#[tactic(auto, unfolding(crate::specs::Trace::trace_value_row))]
impl Wire for TraceValue {
    ghost shape = { trace_value_row.shape };

    ghost shown = { trace_value_row.shown };

    fn from_value(_alloc: Global, value: &Value) -> Result<TraceValue, Misfit> {
        match value.as_str() {
            Some("off") => Ok(TraceValue::Off),
            Some("messages") => Ok(TraceValue::Messages),
            Some("verbose") => Ok(TraceValue::Verbose),
            _ => Err(Misfit::wanted(Wanted::Name)),
        }
    }

    fn to_value(&self, alloc: Global) -> Result<Value, NoMemory> {
        let name = match self {
            TraceValue::Off => "off",
            TraceValue::Messages => "messages",
            TraceValue::Verbose => "verbose",
        };
        Ok(Value::try_from_str(alloc, name)?)
    }
}
