//! The members of a message, taken out of their object in one pass.
ghost use Rattle.std.specs.Prelude.{◌≡◌, codes, option_map};
ghost use Rattle.serde_json.specs.View.{view};
ghost use Rattle.lsp_rpc.specs.Pieces.{kept, IsMember, KeepsValue};

use serde_json::{Map, Value};

/// The members that a message may have.
#[derive(Drop)]
pub(crate) struct Members {
    pub(crate) jsonrpc: Option<Value>,
    pub(crate) id: Option<Value>,
    pub(crate) method: Option<Value>,
    pub(crate) params: Option<Value>,
    pub(crate) result: Option<Value>,
    pub(crate) error: Option<Value>,
}

impl Members {
    /// The members of an object, without those of other names.
    pub(crate) fn of(object: Map<String, Value>) -> Members
        ensures jsonrpc { IsMember (codes "jsonrpc") object result.jsonrpc }
        ensures id { IsMember (codes "id") object result.id }
        ensures method { IsMember (codes "method") object result.method }
        ensures params { IsMember (codes "params") object result.params }
        ensures outcome { IsMember (codes "result") object result.result }
        ensures error { IsMember (codes "error") object result.error }
    {
        let mut members = Members {
            jsonrpc: None,
            id: None,
            method: None,
            params: None,
            result: None,
            error: None,
        };
        for (name, value) in object {
            members.keep(name.as_str(), value);
        }
        members
    }

    // Keeps the value where the message has no member of that name yet.
    fn keep(&mut self, name: &str, value: Value)
        ensures jsonrpc { KeepsValue
            (codes "jsonrpc") name.now value self.old.jsonrpc self.new.jsonrpc }
        ensures id { KeepsValue (codes "id") name.now value self.old.id self.new.id }
        ensures method { KeepsValue
            (codes "method") name.now value self.old.method self.new.method }
        ensures params { KeepsValue
            (codes "params") name.now value self.old.params self.new.params }
        ensures outcome { KeepsValue
            (codes "result") name.now value self.old.result self.new.result }
        ensures error { KeepsValue (codes "error") name.now value self.old.error self.new.error }
    {
        match name {
            "jsonrpc" => keep_first(&mut self.jsonrpc, value),
            "id" => keep_first(&mut self.id, value),
            "method" => keep_first(&mut self.method, value),
            "params" => keep_first(&mut self.params, value),
            "result" => keep_first(&mut self.result, value),
            "error" => keep_first(&mut self.error, value),
            _ => {}
        }
    }
}

fn keep_first(place: &mut Option<Value>, value: Value)
    ensures { option_map view place.new ≡ kept (option_map view place.old) (view value) }
{
    if place.is_none() {
        *place = Some(value);
    }
}
