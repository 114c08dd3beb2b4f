//! A request, or a notification where it has no id.
ghost use Rattle.std.specs.Prelude.{◌≡◌, ◌⊎◌, Some, None, Option, false, option_map, option_and_then, string_bytes, IfOk, IsErrOf};
ghost use Rattle.serde_json.specs.Data.{Data};
ghost use Rattle.serde_json.specs.Read.{read};
ghost use Rattle.serde_json.specs.View.{view};
ghost use Rattle.lsp_rpc.specs.Back.{IsReadable, ReadsAs};
ghost use Rattle.lsp_rpc.specs.Message.{request, message_has_float, message_text, clean_request};
ghost use Rattle.lsp_rpc.specs.Shown.{show_id, show_request, show_builder};

use crate::id::Id;
use crate::read::{TextFault, parse_text, value_request};
use crate::value::{copy_value, is_float_free};
use crate::write::{ROOM, push_member, push_request_id, push_text};
use no_memory::NoMemory;
use serde_json::Value;
use std::alloc::Global;

/// A call of a method: a request where it has an id, and a notification where it has none
/// (JSON-RPC 2.0, sections 4 "Request object" and 4.1 "Notification").
#[derive(Drop, Debug)]
pub struct Request {
    pub(crate) method: String,
    pub(crate) params: Option<Value>,
    pub(crate) id: Option<Id>,
}

/// A request in the making.
#[derive(Drop, Debug)]
pub struct RequestBuilder {
    pub(crate) method: String,
    pub(crate) params: Option<Value>,
    pub(crate) id: Option<Id>,
}

impl Request {
    /// Begins a call of the method, with no params and no id.
    pub fn build(method: String) -> RequestBuilder
        ensures { show_builder result
            ≡ record { method = string_bytes method; params = None; id = None } }
    {
        RequestBuilder {
            method,
            params: None,
            id: None,
        }
    }

    /// The call of that method, with this id and these params, where there are any.
    pub fn from_parts(method: String, id: Option<Id>, params: Option<Value>) -> Request
        ensures { show_request result ≡ record {
          method = string_bytes method;
          params = option_map view params;
          id = option_map show_id id;
        } }
    {
        Request { method, id, params }
    }

    /// The name of the method.
    pub fn method(&self) -> &str
        ensures { result.now ≡ (show_request self.now).method }
    {
        self.method.as_str()
    }

    /// The id, if it is no notification.
    pub fn id(&self) -> Option<&Id>
        ensures { option_map (λ id. show_id id.now) result ≡ (show_request self.now).id }
    {
        self.id.as_ref()
    }

    /// The params, if there are any; they may be null.
    pub fn params(&self) -> Option<&Value>
        ensures { option_map (λ value. view value.now) result ≡ (show_request self.now).params }
    {
        self.params.as_ref()
    }

    /// The method, the id and the params.
    pub fn into_parts(self) -> (String, Option<Id>, Option<Value>)
        ensures method { string_bytes result.0 ≡ (show_request self).method }
        ensures id { option_map show_id result.1 ≡ (show_request self).id }
        ensures params { option_map view result.2 ≡ (show_request self).params }
    {
        (self.method, self.id, self.params)
    }

    /// An equal request.
    pub fn clone(&self, alloc: Global) -> Result<Request, NoMemory>
        ensures { IfOk result (λ copy. show_request copy ≡ show_request self.now) }
    {
        Ok(Request {
            method: String::from_str(alloc, self.method.as_str())?,
            params: copy_value(&self.params)?,
            id: copy_id(alloc, &self.id)?,
        })
    }

    /// The text of the request, in which objects inside are ordered by key. Its params hold no
    /// float.
    pub fn to_text(&self, alloc: Global) -> Result<String, NoMemory>
        requires { message_has_float (request (show_request self.now)) ≡ false }
        ensures text { IfOk result
            (λ s. string_bytes s ≡ message_text (request (show_request self.now))) }
        ensures reads_back { IfOk result (λ s. IsReadable (request (show_request self.now))
            → ReadsAs (string_bytes s) (request (show_request self.now))) }
        ensures reads_alone { IfOk result (λ s. IsReadable (request (show_request self.now))
            → option_and_then clean_request (read (string_bytes s))
            ≡ Some (request (show_request self.now))) }
    {
        let mut out = String::with_capacity(alloc, ROOM)?;
        out.push_str("{\"jsonrpc\":\"2.0\",\"method\":")?;
        push_text(alloc, &mut out, self.method.as_str())?;
        push_member(alloc, &mut out, ",\"params\":", &self.params)?;
        push_request_id(alloc, &mut out, &self.id)?;
        out.push_str("}")?;
        Ok(out)
    }

    /// The request that the text is, also where it could be read as a response. The text is one
    /// JSON value with no float in it.
    pub fn from_text(alloc: Global, text: &str) -> Result<Request, TextFault>
        ensures found { IfOk result
            (λ r. option_and_then clean_request (read text.now) ≡ Some (request (show_request r))) }
        ensures json { IsErrOf result TextFault.Json → read text.now ≡ None }
        ensures no_json { read text.now ≡ None
            → IsErrOf result TextFault.Json ⊎ IsErrOf result TextFault.NoMemory }
        ensures message { IsErrOf result TextFault.Message
            → (v : Data) × (read text.now ≡ Some v) × (clean_request v ≡ None) }
        ensures no_message { (v : Data) → read text.now ≡ Some v → clean_request v ≡ None
            → IsErrOf result TextFault.Message ⊎ IsErrOf result TextFault.NoMemory }
        ensures clean { IfOk result (λ r. message_has_float (request (show_request r)) ≡ false) }
    {
        let value = parse_text(alloc, text)?;
        if !is_float_free(&value) {
            return Err(TextFault::Message);
        }
        match value_request(alloc, value) {
            Some(request) => Ok(request),
            None => Err(TextFault::Message),
        }
    }
}

fn copy_id(alloc: Global, id: &Option<Id>) -> Result<Option<Id>, NoMemory>
    ensures { IfOk result (λ copy. option_map show_id copy ≡ option_map show_id id.now) }
{
    match id {
        Some(id) => Ok(Some(id.clone(alloc)?)),
        None => Ok(None),
    }
}

impl RequestBuilder {
    /// Sets the id, so that it is no notification.
    pub fn id(self, id: Id) -> RequestBuilder
        ensures { show_builder result ≡ record (show_builder self) { id = Some (show_id id) } }
    {
        RequestBuilder {
            id: Some(id),
            ..self
        }
    }

    /// Sets the params.
    pub fn params(self, params: Value) -> RequestBuilder
        ensures { show_builder result ≡ record (show_builder self) { params = Some (view params) } }
    {
        RequestBuilder {
            params: Some(params),
            ..self
        }
    }

    /// The request as it was built.
    pub fn finish(self) -> Request
        ensures { show_request result ≡ show_builder self }
    {
        Request {
            method: self.method,
            params: self.params,
            id: self.id,
        }
    }
}
