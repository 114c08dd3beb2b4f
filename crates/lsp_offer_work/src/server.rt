// The server.
ghost use Rattle.std.specs.Prelude.{◌≡◌, None, [], string_bytes};
ghost use Rattle.lsp_offer_work.specs.Server.{server_info_row, initialize_error_row};

use lsp_shape::{Misfit, NoMemory, Optional, Required, Wire, Writer, read_object};
use serde_json::Value;
use std::alloc::Global;

/// The name and version of a server, as part of `InitializeResult`. Since 3.15 (LSP 3.17,
/// "Initialize Request").
#[derive(Debug, PartialEq, Eq, Clone, Drop)]
pub struct ServerInfo {
    /// The name by which the server calls itself.
    pub name: String,
    /// Its version, in a form of its own choice.
    pub version: Option<String>,
}

impl ServerInfo {
    /// The default value: an empty name, and no version.
    pub fn default(alloc: Global) -> ServerInfo
        ensures name { string_bytes result.name ≡ [] }
        ensures version { result.version ≡ None }
    {
        ServerInfo {
            name: String::new(alloc),
            version: None,
        }
    }
}

#[tactic(auto, unfolding(crate::specs::Server::server_info_row))]
impl Wire for ServerInfo {
    ghost shape = { server_info_row.shape };

    ghost shown = { server_info_row.shown };

    fn from_value(alloc: Global, value: &Value) -> Result<ServerInfo, Misfit> {
        let (name, version) = read_object(alloc, value, (Required("name"), Optional("version")))?;
        Ok(ServerInfo { name, version })
    }

    fn to_value(&self, alloc: Global) -> Result<Value, NoMemory> {
        let mut object = Writer::new(alloc);
        object.field("name", &self.name);
        object.optional("version", &self.version);
        object.end()
    }
}

/// The `data` of the error with which a server refuses the request `initialize` (LSP 3.17,
/// "Initialize Request").
#[derive(Debug, PartialEq, Eq, Default, Clone, Drop)]
pub struct InitializeError {
    /// Whether the client, when it shows the error to the user, offers to send `initialize` again.
    pub retry: bool,
}

#[tactic(auto, unfolding(crate::specs::Server::initialize_error_row))]
impl Wire for InitializeError {
    ghost shape = { initialize_error_row.shape };

    ghost shown = { initialize_error_row.shown };

    fn from_value(alloc: Global, value: &Value) -> Result<InitializeError, Misfit> {
        let retry = read_object(alloc, value, Required("retry"))?;
        Ok(InitializeError { retry })
    }

    fn to_value(&self, alloc: Global) -> Result<Value, NoMemory> {
        let mut object = Writer::new(alloc);
        object.field("retry", &self.retry);
        object.end()
    }
}
