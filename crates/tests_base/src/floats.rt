// Bodies with floats, read where floats are refused and where they are let in.
use crate::frame::decoded;
use lsp_frame::{Floats, LanguageServerCodec};
use lsp_rows::{RowError, Trial};
use no_memory::NoMemory;
use std::alloc::Global;

// A body, and the message or the fault that it is where floats are refused, and where they are let
// in. An id, a fault's data or params that are a float, among them, are null then.
struct Row {
    name: &'static str,
    body: &'static str,
    refused: &'static str,
    read: &'static str,
}

const ROWS: &[Row] = &[
    Row {
        name: "a setting of an editor",
        body: "{\"jsonrpc\":\"2.0\",\"id\":1,\"method\":\"m\",\"params\":{\"fontSize\":1.5,\"tabs\":4}}",
        refused: "Body(Message)",
        read: "{\"jsonrpc\":\"2.0\",\"method\":\"m\",\"params\":{\"fontSize\":null,\"tabs\":4},\"id\":1}",
    },
    Row {
        name: "whole numbers and zeros",
        body: "{\"jsonrpc\":\"2.0\",\"method\":\"m\",\"params\":[1.0,-0,-0.0,0.0,2e2,-30E-1,0.5,-1.5]}",
        refused: "Body(Message)",
        read: "{\"jsonrpc\":\"2.0\",\"method\":\"m\",\"params\":[1,0,0,0,200,-3,null,null]}",
    },
    Row {
        name: "whole numbers past 2^53",
        body: "{\"jsonrpc\":\"2.0\",\"method\":\"m\",\"params\":[9007199254740993,9007199254740993.0,1e16,1e308]}",
        refused: "Body(Message)",
        read: "{\"jsonrpc\":\"2.0\",\"method\":\"m\",\"params\":[9007199254740993,9007199254740992,10000000000000000,null]}",
    },
    Row {
        name: "the greatest numbers",
        body: "{\"jsonrpc\":\"2.0\",\"method\":\"m\",\"params\":[18446744073709551615,18446744073709549568.0,18446744073709551616,9223372036854775808.0]}",
        refused: "Body(Message)",
        read: "{\"jsonrpc\":\"2.0\",\"method\":\"m\",\"params\":[18446744073709551615,18446744073709549568,null,9223372036854775808]}",
    },
    Row {
        name: "the least numbers",
        body: "{\"jsonrpc\":\"2.0\",\"method\":\"m\",\"params\":[-9223372036854775808,-9223372036854775808.0,-9223372036854775809,-9223372036854777856]}",
        refused: "Body(Message)",
        read: "{\"jsonrpc\":\"2.0\",\"method\":\"m\",\"params\":[-9223372036854775808,-9223372036854775808,-9223372036854775808,null]}",
    },
    Row {
        name: "no member and no item is lost",
        body: "{\"jsonrpc\":\"2.0\",\"method\":\"m\",\"params\":{\"b\":[0.5,\"0.5\",true,null,{\"c\":3.0,\"d\":{}}],\"a\":[[]]}}",
        refused: "Body(Message)",
        read: "{\"jsonrpc\":\"2.0\",\"method\":\"m\",\"params\":{\"a\":[[]],\"b\":[null,\"0.5\",true,null,{\"c\":3,\"d\":{}}]}}",
    },
    Row {
        name: "params that are a float",
        body: "{\"jsonrpc\":\"2.0\",\"method\":\"m\",\"params\":0.5}",
        refused: "Body(Message)",
        read: "{\"jsonrpc\":\"2.0\",\"method\":\"m\",\"params\":null}",
    },
    Row {
        name: "an id that is a float",
        body: "{\"jsonrpc\":\"2.0\",\"method\":\"m\",\"id\":1.5}",
        refused: "Body(Message)",
        read: "{\"jsonrpc\":\"2.0\",\"method\":\"m\",\"id\":null}",
    },
    Row {
        name: "an id that is whole",
        body: "{\"jsonrpc\":\"2.0\",\"method\":\"m\",\"id\":2.0}",
        refused: "Body(Message)",
        read: "{\"jsonrpc\":\"2.0\",\"method\":\"m\",\"id\":2}",
    },
    Row {
        name: "a result",
        body: "{\"jsonrpc\":\"2.0\",\"result\":{\"x\":0.1},\"id\":7}",
        refused: "Body(Message)",
        read: "{\"jsonrpc\":\"2.0\",\"result\":{\"x\":null},\"id\":7}",
    },
    Row {
        name: "an error",
        body: "{\"jsonrpc\":\"2.0\",\"error\":{\"code\":1.0,\"message\":\"e\",\"data\":[0.5]},\"id\":7}",
        refused: "Body(Message)",
        read: "{\"jsonrpc\":\"2.0\",\"error\":{\"code\":1,\"message\":\"e\",\"data\":[null]},\"id\":7}",
    },
    Row {
        name: "an error's data that are a float",
        body: "{\"jsonrpc\":\"2.0\",\"error\":{\"code\":1,\"message\":\"e\",\"data\":0.5},\"id\":7}",
        refused: "Body(Message)",
        read: "{\"jsonrpc\":\"2.0\",\"error\":{\"code\":1,\"message\":\"e\"},\"id\":7}",
    },
    Row {
        name: "a code that is a float is no code, and the message is a request",
        body: "{\"jsonrpc\":\"2.0\",\"error\":{\"code\":1.5,\"message\":\"e\"},\"id\":7}",
        refused: "Body(Message)",
        read: "{\"jsonrpc\":\"2.0\",\"method\":\"\",\"id\":7}",
    },
    Row {
        name: "a request without a method",
        body: "{\"jsonrpc\":\"2.0\",\"params\":[1.5,2.0],\"id\":3}",
        refused: "Body(Message)",
        read: "{\"jsonrpc\":\"2.0\",\"method\":\"\",\"params\":[null,2],\"id\":3}",
    },
    Row {
        name: "a float that another value of its name takes the place of",
        body: "{\"jsonrpc\":\"2.0\",\"method\":\"m\",\"params\":1.5,\"params\":2}",
        refused: "{\"jsonrpc\":\"2.0\",\"method\":\"m\",\"params\":2}",
        read: "{\"jsonrpc\":\"2.0\",\"method\":\"m\",\"params\":2}",
    },
    Row {
        name: "no float",
        body: "{\"jsonrpc\":\"2.0\",\"method\":\"m\",\"params\":[1,-1,\"1.5\"]}",
        refused: "{\"jsonrpc\":\"2.0\",\"method\":\"m\",\"params\":[1,-1,\"1.5\"]}",
        read: "{\"jsonrpc\":\"2.0\",\"method\":\"m\",\"params\":[1,-1,\"1.5\"]}",
    },
    Row {
        name: "a number that JSON has no float for",
        body: "{\"jsonrpc\":\"2.0\",\"method\":\"m\",\"params\":[0.5,1e999]}",
        refused: "Body(Json)",
        read: "Body(Json)",
    },
    Row {
        name: "a float beside a fault of JSON",
        body: "{\"jsonrpc\":\"2.0\",\"method\":\"m\",\"params\":[0.5,]}",
        refused: "Body(Json)",
        read: "Body(Json)",
    },
    Row {
        name: "a float beside a method that is none",
        body: "{\"jsonrpc\":\"2.0\",\"method\":7,\"params\":0.5}",
        refused: "Body(Message)",
        read: "Body(Message)",
    },
    Row {
        name: "a float alone",
        body: "1.0",
        refused: "Body(Message)",
        read: "Body(Message)",
    },
];

fn told_after(
    alloc: Global,
    codec: &mut LanguageServerCodec,
    head: &str,
    body: &str,
) -> Result<String, NoMemory> {
    codec.feed(head.as_bytes())?;
    codec.feed(body.as_bytes())?;
    decoded(alloc, codec)
}

// What a codec tells of the body that reads floats so.
fn told(alloc: Global, floats: Floats, body: &str) -> Result<String, NoMemory> {
    let head = format!(in alloc; "Content-Length: {}\r\n\r\n", body.len())?;
    let mut codec = LanguageServerCodec::default(alloc).floats(floats);
    let text = told_after(alloc, &mut codec, head.as_str(), body);
    drop(codec);
    drop(head);
    text
}

#[test]
fn floats(rt: HostRuntime) -> Result<(), RowError> {
    let alloc = rt.alloc();
    let mut trial = Trial::new(alloc);
    for row in ROWS {
        trial.text(
            row.name,
            told(alloc, Floats::Refused, row.body),
            row.refused,
        );
        trial.text(row.name, told(alloc, Floats::Read, row.body), row.read);
    }
    trial.end()
}
