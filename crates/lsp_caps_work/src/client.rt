// The client.
ghost use Rattle.lsp_caps_work.specs.Client.{client_info_row, initialized_params_row};

use lsp_shape::{Misfit, NoMemory, Optional, Reader, Required, Wire, Writer, read_object};
use serde_json::Value;
use std::alloc::Global;

/// The name and version of a client, as `clientInfo` in `initialize`. Since 3.15 (LSP 3.17,
/// "Initialize Request").
#[derive(Debug, PartialEq, Clone, Drop)]
pub struct ClientInfo {
    /// The name that the client gives itself.
    pub name: String,
    /// The version of the client, in its own form.
    pub version: Option<String>,
}

#[tactic(auto, unfolding(crate::specs::Client::client_info_row))]
impl Wire for ClientInfo {
    ghost shape = { client_info_row.shape };

    ghost shown = { client_info_row.shown };

    fn from_value(alloc: Global, value: &Value) -> Result<ClientInfo, Misfit> {
        let (name, version) = read_object(alloc, value, (Required("name"), Optional("version")))?;
        Ok(ClientInfo { name, version })
    }

    fn to_value(&self, alloc: Global) -> Result<Value, NoMemory> {
        let mut object = Writer::new(alloc);
        object.field("name", &self.name);
        object.optional("version", &self.version);
        object.end()
    }
}

/// The parameters of `initialized`, which a client sends once, after the result of `initialize` and
/// before any other message: an empty object (LSP 3.17, "Initialized Notification").
#[derive(Debug, PartialEq, Clone, Copy)]
pub struct InitializedParams {}

#[tactic(auto, unfolding(crate::specs::Client::initialized_params_row))]
impl Wire for InitializedParams {
    ghost shape = { initialized_params_row.shape };

    ghost shown = { initialized_params_row.shown };

    fn from_value(alloc: Global, value: &Value) -> Result<InitializedParams, Misfit> {
        Reader::new(alloc, value)?;
        Ok(InitializedParams {})
    }

    fn to_value(&self, alloc: Global) -> Result<Value, NoMemory> {
        let object = Writer::new(alloc);
        object.end()
    }
}
