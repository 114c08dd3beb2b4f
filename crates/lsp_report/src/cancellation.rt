// What a server says when it cancels a request for diagnostics.
ghost use Rattle.std.specs.Prelude.{◌≡◌, true};
ghost use Rattle.lsp_report.specs.Cancellation.{diagnostic_server_cancellation_data_row};

use lsp_shape::{Misfit, NoMemory, Required, Wire, Writer, read_object};
use serde_json::Value;
use std::alloc::Global;

/// The data of the error `ServerCancelled` (-32802), with which a server ends a request for
/// diagnostics. Without it, the client sends the request again. Since 3.17 (LSP 3.17, "Pull
/// Diagnostics").
#[derive(Debug, PartialEq, Clone, Drop)]
pub struct DiagnosticServerCancellationData {
    /// Whether the client should send the request again.
    pub retrigger_request: bool,
}

impl Default for DiagnosticServerCancellationData {
    ghost is_default = { λ made. made ≡ record { retrigger_request = true } };

    fn default() -> DiagnosticServerCancellationData {
        DiagnosticServerCancellationData {
            retrigger_request: true,
        }
    }
}

#[tactic(auto, unfolding(crate::specs::Cancellation::diagnostic_server_cancellation_data_row))]
impl Wire for DiagnosticServerCancellationData {
    ghost shape = { diagnostic_server_cancellation_data_row.shape };

    ghost shown = { diagnostic_server_cancellation_data_row.shown };

    fn from_value(
        alloc: Global,
        value: &Value,
    ) -> Result<DiagnosticServerCancellationData, Misfit> {
        let retrigger_request = read_object(alloc, value, Required("retriggerRequest"))?;
        Ok(DiagnosticServerCancellationData { retrigger_request })
    }

    fn to_value(&self, alloc: Global) -> Result<Value, NoMemory> {
        let mut object = Writer::new(alloc);
        object.field("retriggerRequest", &self.retrigger_request);
        object.end()
    }
}
