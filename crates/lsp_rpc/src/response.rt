//! A response to a request.
ghost use Rattle.std.specs.Prelude.{◌≡◌, ◌⊎◌, Some, None, Ok, Err, false, is_ok, is_err, option_map, option_and_then, string_bytes, IfOk, IsErrOf};
ghost use Rattle.std.specs.Result.{result_ok, result_err};
ghost use Rattle.serde_json.specs.Data.{Data};
ghost use Rattle.serde_json.specs.Read.{read};
ghost use Rattle.serde_json.specs.View.{view};
ghost use Rattle.lsp_rpc.specs.Back.{IsReadable, ReadsAs};
ghost use Rattle.lsp_rpc.specs.Message.{response, message_has_float, message_text, clean_response};
ghost use Rattle.lsp_rpc.specs.Shown.{show_id, show_error, show_body, show_response};

use crate::error::Error;
use crate::id::Id;
use crate::read::{TextFault, parse_text, value_response};
use crate::value::is_float_free;
use crate::write::{ROOM, push_body, push_id};
use no_memory::NoMemory;
use serde_json::Value;
use std::alloc::Global;

/// The response to a request: its result or its error (JSON-RPC 2.0, section 5 "Response object").
#[derive(Drop, Debug)]
pub struct Response {
    pub(crate) id: Id,
    pub(crate) body: Result<Value, Error>,
}

impl Response {
    /// The response to a request that went well.
    pub fn from_ok(id: Id, value: Value) -> Response
        ensures { show_response result ≡ record { id = show_id id; body = Ok (view value) } }
    {
        Response::from_parts(id, Ok(value))
    }

    /// The response to a request that failed.
    pub fn from_error(id: Id, error: Error) -> Response
        ensures { show_response result ≡ record { id = show_id id; body = Err (show_error error) } }
    {
        Response::from_parts(id, Err(error))
    }

    /// The response with that result or error.
    pub fn from_parts(id: Id, body: Result<Value, Error>) -> Response
        ensures { show_response result ≡ record { id = show_id id; body = show_body body } }
    {
        Response { id, body }
    }

    /// The id, and the result or the error.
    pub fn into_parts(self) -> (Id, Result<Value, Error>)
        ensures id { show_id result.0 ≡ (show_response self).id }
        ensures body { show_body result.1 ≡ (show_response self).body }
    {
        (self.id, self.body)
    }

    /// Whether the response is a result.
    pub fn is_ok(&self) -> bool
        ensures { result ≡ is_ok (show_response self.now).body }
    {
        self.body.is_ok()
    }

    /// Whether the response is an error.
    pub fn is_error(&self) -> bool
        ensures { result ≡ is_err (show_response self.now).body }
    {
        self.body.is_err()
    }

    /// The result, if the response is one.
    pub fn result(&self) -> Option<&Value>
        ensures { option_map (λ value. view value.now) result
            ≡ result_ok (show_response self.now).body }
    {
        self.body.as_ref().ok()
    }

    /// The error, if the response is one.
    pub fn error(&self) -> Option<&Error>
        ensures { option_map (λ error. show_error error.now) result
            ≡ result_err (show_response self.now).body }
    {
        self.body.as_ref().err()
    }

    /// The id of the request.
    pub fn id(&self) -> &Id
        ensures { show_id result.now ≡ (show_response self.now).id }
    {
        &self.id
    }

    /// An equal response.
    pub fn clone(&self, alloc: Global) -> Result<Response, NoMemory>
        ensures { IfOk result (λ copy. show_response copy ≡ show_response self.now) }
    {
        Ok(Response {
            id: self.id.clone(alloc)?,
            body: copy_body(alloc, &self.body)?,
        })
    }

    /// The text of the response, in which objects inside are ordered by key. Its values hold no
    /// float.
    pub fn to_text(&self, alloc: Global) -> Result<String, NoMemory>
        requires { message_has_float (response (show_response self.now)) ≡ false }
        ensures text { IfOk result
            (λ s. string_bytes s ≡ message_text (response (show_response self.now))) }
        ensures reads_back { IfOk result (λ s. IsReadable (response (show_response self.now))
            → ReadsAs (string_bytes s) (response (show_response self.now))) }
        ensures reads_alone { IfOk result (λ s. IsReadable (response (show_response self.now))
            → option_and_then clean_response (read (string_bytes s))
            ≡ Some (response (show_response self.now))) }
    {
        let mut out = String::with_capacity(alloc, ROOM)?;
        out.push_str("{\"jsonrpc\":\"2.0\"")?;
        push_body(alloc, &mut out, &self.body)?;
        out.push_str(",\"id\":")?;
        push_id(alloc, &mut out, &self.id)?;
        out.push_str("}")?;
        Ok(out)
    }

    /// The response that the text is. The text is one JSON value with no float in it.
    pub fn from_text(alloc: Global, text: &str) -> Result<Response, TextFault>
        ensures found { IfOk result
            (λ r. option_and_then clean_response (read text.now)
            ≡ Some (response (show_response r))) }
        ensures json { IsErrOf result TextFault.Json → read text.now ≡ None }
        ensures no_json { read text.now ≡ None
            → IsErrOf result TextFault.Json ⊎ IsErrOf result TextFault.NoMemory }
        ensures message { IsErrOf result TextFault.Message
            → (v : Data) × (read text.now ≡ Some v) × (clean_response v ≡ None) }
        ensures no_message { (v : Data) → read text.now ≡ Some v → clean_response v ≡ None
            → IsErrOf result TextFault.Message ⊎ IsErrOf result TextFault.NoMemory }
        ensures clean { IfOk result (λ r. message_has_float (response (show_response r)) ≡ false) }
    {
        let value = parse_text(alloc, text)?;
        if !is_float_free(&value) {
            return Err(TextFault::Message);
        }
        match value_response(value) {
            Some(response) => Ok(response),
            None => Err(TextFault::Message),
        }
    }
}

fn copy_body(alloc: Global, body: &Result<Value, Error>) -> Result<Result<Value, Error>, NoMemory>
    ensures { IfOk result (λ copy. show_body copy ≡ show_body body.now) }
{
    match body {
        Ok(value) => Ok(Ok(value.clone()?)),
        Err(error) => Ok(Err(error.clone(alloc)?)),
    }
}
