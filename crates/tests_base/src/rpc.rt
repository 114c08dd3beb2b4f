//! Examples, and each public call once with ample memory.
use lsp_rows::{RowError, Trial};
use lsp_rpc::{
    Error, ErrorCode, Id, NoMemory, NotMessage, Request, Response, TextFault, is_float_free,
    read_message,
};
use serde_json::Value;
use std::alloc::{AllocError, Global};
use std::collections::HashMap;
use std::convert::From;
use std::default::Default;
use std::fmt::{Debug, Display};
use std::test::Fail;

const EXIT: &str = "{\"jsonrpc\":\"2.0\",\"method\":\"exit\"}";

const RESPONSE: &str = "{\"jsonrpc\":\"2.0\",\"id\":0,\"result\":[null]}";

const RESPONSE_WRITTEN: &str = "{\"jsonrpc\":\"2.0\",\"result\":[null],\"id\":0}";

fn displayed<T: Display>(alloc: Global, value: &T) -> Result<String, AllocError> {
    format!(in alloc; "{value}")
}

fn debugged<T: Debug>(alloc: Global, value: &T) -> Result<String, AllocError> {
    format!(in alloc; "{value:?}")
}

// Read, copied and written, or the name of the fault.
fn request_again(alloc: Global, input: &str) -> Result<String, NoMemory> {
    match Request::from_text(alloc, input) {
        Ok(request) => request.clone(alloc)?.to_text(alloc),
        Err(fault) => Ok(debugged(alloc, &fault)?),
    }
}

fn response_again(alloc: Global, input: &str) -> Result<String, NoMemory> {
    match Response::from_text(alloc, input) {
        Ok(response) => response.clone(alloc)?.to_text(alloc),
        Err(fault) => Ok(debugged(alloc, &fault)?),
    }
}

// Read as a message and written, or the name of the fault.
fn message_again(alloc: Global, value: Value) -> Result<String, NoMemory> {
    match read_message(alloc, value) {
        Ok(message) => message.to_text(alloc),
        Err(fault) => Ok(debugged(alloc, &fault)?),
    }
}

#[test]
fn one_form_alone(rt: HostRuntime) -> Result<(), RowError> {
    let alloc = rt.alloc();
    let mut trial = Trial::new(alloc);
    trial.text("a request", request_again(alloc, EXIT), EXIT);
    let again = response_again(alloc, RESPONSE);
    trial.text("a response", again, RESPONSE_WRITTEN);
    let request = "{\"jsonrpc\":\"2.0\",\"method\":\"\",\"id\":0}";
    let again = request_again(alloc, RESPONSE);
    trial.text("a response as a request", again, request);
    let again = response_again(alloc, EXIT);
    trial.text("a request as a response", again, "Message");
    trial.end()
}

// Neither a request nor a response, and why.
const FAULTS: &[(&str, &str)] = &[
    ("[1]", "Message"),
    ("{", "Json"),
    ("{\"jsonrpc\":\"2.0\",\"result\":[0.5],\"id\":0}", "Message"),
];

#[test]
fn faults_of_one_form(rt: HostRuntime) -> Result<(), RowError> {
    let alloc = rt.alloc();
    let mut trial = Trial::new(alloc);
    for (input, fault) in FAULTS {
        let request = request_again(alloc, *input);
        trial.text(format_args!("request {input}"), request, *fault);
        let response = response_again(alloc, *input);
        trial.text(format_args!("response {input}"), response, *fault);
    }
    trial.end()
}

#[test]
fn built_request(rt: HostRuntime) -> Result<(), Fail> {
    let alloc = rt.alloc();
    let params = Value::from_str(alloc, "{\"title\":\"\"}")?;
    if !is_float_free(&params) {
        return Err(Fail::new("no float is there"));
    }
    let method = String::from_str(alloc, "codeAction/resolve")?;
    let request = Request::build(method)
        .params(params)
        .id(Id::from(1))
        .finish();
    let expected = concat!(
        "{\"jsonrpc\":\"2.0\",\"method\":\"codeAction/resolve\",",
        "\"params\":{\"title\":\"\"},\"id\":1}"
    );
    let mut trial = Trial::new(alloc);
    trial.text("the request", request.to_text(alloc), expected);
    Ok(trial.end()?)
}

#[test]
fn parts_of_a_request(rt: HostRuntime) -> Result<(), Fail> {
    let alloc = rt.alloc();
    let request = Request::from_text(alloc, EXIT)?;
    let mut trial = Trial::new(alloc);
    trial.same("the method", request.method(), "exit");
    trial.is_true("no id", request.id().is_none());
    trial.is_true("no params", request.params().is_none());
    let shown = "Request { method: \"exit\", params: None, id: None }";
    trial.text("the request", debugged(alloc, &request), shown);
    let (method, id, params) = request.into_parts();
    let request = Request::from_parts(method, id, params);
    trial.text("the same again", request.to_text(alloc), EXIT);
    let (method, _, _) = request.into_parts();
    let shown = "RequestBuilder { method: \"exit\", params: None, id: None }";
    trial.shows("the builder", Request::build(method), shown);
    Ok(trial.end()?)
}

#[test]
fn parts_of_a_response(rt: HostRuntime) -> Result<(), RowError> {
    let alloc = rt.alloc();
    let response = Response::from_ok(Id::from(2), Value::Null);
    let mut trial = Trial::new(alloc);
    trial.is_true("it is Ok", response.is_ok());
    trial.is_true("it is no error", !response.is_error());
    trial.is_true("the id", *response.id() == Id::Number(2));
    trial.is_true("a result", response.result().is_some());
    trial.is_true("no error", response.error().is_none());
    let (id, body) = response.into_parts();
    let shown = "Response { id: Number(2), body: Ok(Null) }";
    trial.shows("of its parts", Response::from_parts(id, body), shown);
    trial.end()
}

#[test]
fn failed_response(rt: HostRuntime) -> Result<(), RowError> {
    let alloc = rt.alloc();
    let error = Error::internal_error(alloc)?;
    let id = Id::from(String::from_str(alloc, "\"")?);
    let response = Response::from_error(id, error);
    let expected = concat!(
        "{\"jsonrpc\":\"2.0\",\"error\":{\"code\":-32603,",
        "\"message\":\"Internal error\"},\"id\":\"\\\"\"}"
    );
    let mut trial = Trial::new(alloc);
    trial.text("the response", response.to_text(alloc), expected);
    trial.end()
}

#[test]
fn printed(rt: HostRuntime) -> Result<(), RowError> {
    let alloc = rt.alloc();
    let code = ErrorCode::from(-12345);
    let error = Error::parse_error(alloc)?;
    let mut trial = Trial::new(alloc);
    trial.same("the code", code, ErrorCode::ServerError(-12345));
    trial.text("the code's text", displayed(alloc, &code), "-12345");
    trial.text(
        "an error",
        displayed(alloc, &error),
        "Parse error: Parse error",
    );
    trial.text("a fault", displayed(alloc, &TextFault::Json), "not JSON");
    trial.text(
        "another",
        displayed(alloc, &NotMessage::NotMessage),
        "not a message",
    );
    trial.end()
}

// Copied and printed.
fn id_again(alloc: Global, id: Id) -> Result<String, NoMemory> {
    Ok(displayed(alloc, &id.clone(alloc)?)?)
}

#[test]
fn printed_ids(rt: HostRuntime) -> Result<(), RowError> {
    let alloc = rt.alloc();
    let letter = Id::String(String::from_str(alloc, "a")?);
    let line = Id::String(String::from_str(alloc, "\u{e9}\n")?);
    let mut trial = Trial::new(alloc);
    trial.text("a number", id_again(alloc, Id::Number(-7)), "-7");
    trial.text("the default", id_again(alloc, Id::default()), "null");
    trial.text("a letter", id_again(alloc, letter), "\"a\"");
    trial.text("a line", id_again(alloc, line), "\"\u{e9}\\n\"");
    trial.end()
}

#[test]
fn ids_as_keys(rt: HostRuntime) -> Result<(), Fail> {
    let mut seen = HashMap::new(rt.alloc());
    seen.insert(Id::Number(1), 2)?;
    let mut trial = Trial::new(rt.alloc());
    trial.shows("1", seen.get(&Id::Number(1)), "Some(2)");
    trial.shows("null", seen.get(&Id::Null), "None");
    Ok(trial.end()?)
}

// The code of the error's copy, the same by way of its number, the message, and the payload.
fn described(alloc: Global, error: Result<Error, NoMemory>) -> Result<String, NoMemory> {
    let error = error?.clone(alloc)?;
    let code = error.code.code();
    let again = i64::from(ErrorCode::from(code));
    let message = error.message.as_str();
    Ok(format!(in alloc; "{code} {again} {message}, {:?}", error.payload)?)
}

#[test]
fn errors_by_code(rt: HostRuntime) -> Result<(), RowError> {
    let alloc = rt.alloc();
    let mut trial = Trial::new(alloc);
    let error = described(alloc, Error::parse_error(alloc));
    trial.text("error 0", error, "-32700 -32700 Parse error, None");
    let error = described(alloc, Error::invalid_request(alloc));
    trial.text("error 1", error, "-32600 -32600 Invalid request, None");
    let error = described(alloc, Error::method_not_found(alloc));
    trial.text("error 2", error, "-32601 -32601 Method not found, None");
    let error = described(alloc, Error::invalid_params(alloc, "Missing params field"));
    trial.text("error 3", error, "-32602 -32602 Missing params field, None");
    let error = described(alloc, Error::new(alloc, ErrorCode::InvalidParams));
    trial.text("error 4", error, "-32602 -32602 Invalid params, None");
    let error = described(alloc, Error::internal_error(alloc));
    trial.text("error 5", error, "-32603 -32603 Internal error, None");
    let error = described(alloc, Error::request_cancelled(alloc));
    trial.text("error 6", error, "-32800 -32800 Canceled, None");
    let error = described(alloc, Error::content_modified(alloc));
    trial.text("error 7", error, "-32801 -32801 Content modified, None");
    let error = described(alloc, Error::new(alloc, ErrorCode::ServerError(5)));
    trial.text("error 8", error, "5 5 Server error, None");
    let error = described(alloc, Error::not_initialized(alloc));
    trial.text(
        "error 9",
        error,
        "-32002 -32002 Server not initialized, None",
    );
    trial.end()
}

// What comes, and what is written of what it is read as.
const MESSAGES: &[(&str, &str)] = &[
    (
        "{\"id\":0,\"jsonrpc\":\"2.0\"}",
        "{\"jsonrpc\":\"2.0\",\"method\":\"\",\"id\":0}",
    ),
    (
        "{\"jsonrpc\":\"2.0\",\"method\":\"m\",\"params\":null}",
        "{\"jsonrpc\":\"2.0\",\"method\":\"m\",\"params\":null}",
    ),
    (
        "{\"jsonrpc\":\"2.0\",\"id\":null,\"result\":{\"b\":1,\"a\":2},\"error\":1}",
        "{\"jsonrpc\":\"2.0\",\"result\":{\"a\":2,\"b\":1},\"id\":null}",
    ),
    (
        "{\"jsonrpc\":\"2.0\",\"id\":\"a\",\"error\":{\"code\":1,\"message\":\"no\",\"data\":null}}",
        "{\"jsonrpc\":\"2.0\",\"error\":{\"code\":1,\"message\":\"no\"},\"id\":\"a\"}",
    ),
    (
        "{\"jsonrpc\":\"2.0\",\"id\":1,\"error\":{\"code\":1,\"message\":\"no\",\"more\":0}}",
        "{\"jsonrpc\":\"2.0\",\"method\":\"\",\"id\":1}",
    ),
    ("[1]", "NotMessage"),
    ("{\"jsonrpc\":\"1.0\",\"method\":\"m\"}", "NotMessage"),
    ("{\"jsonrpc\":\"2.0\",\"method\":1}", "NotMessage"),
    (
        "{\"jsonrpc\":\"2.0\",\"method\":\"m\",\"id\":true}",
        "NotMessage",
    ),
    (
        "{\"jsonrpc\":\"2.0\",\"method\":\"m\",\"id\":9223372036854775808}",
        "NotMessage",
    ),
    (
        "{\"jsonrpc\":\"2.0\",\"method\":\"m\",\"other\":[1.5]}",
        "NotMessage",
    ),
];

#[test]
fn messages_read_and_written(rt: HostRuntime) -> Result<(), Fail> {
    let alloc = rt.alloc();
    let mut trial = Trial::new(alloc);
    for (input, output) in MESSAGES {
        let value = Value::from_str(alloc, *input)?;
        trial.text(*input, message_again(alloc, value), *output);
    }
    Ok(trial.end()?)
}
