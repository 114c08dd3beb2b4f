ghost use Rattle.std.specs.Prelude.{◌≡◌, []};
ghost use Rattle.lsp_frame.specs.Items.{AreLimits, told_at};
ghost use Rattle.lsp_frame.specs.Shown.{DecodedIsFloatFree};

use bytes::BytesMut;
use lsp_frame::{BodyFault, Decoded, LanguageServerCodec, Limits, ParseError};
use lsp_rows::{RowError, Trial};
use lsp_rpc::ErrorCode;
use no_memory::NoMemory;
use std::alloc::{AllocError, Global};
use std::test::Fail;

const MESSAGE: &[u8] = b"Content-Length: 33\r\n\r\n{\"jsonrpc\":\"2.0\",\"method\":\"exit\"}";

const EXIT: &str = "{\"jsonrpc\":\"2.0\",\"method\":\"exit\"}";

// A message's text, or a fault's name.
pub(crate) fn written(alloc: Global, item: &Decoded) -> Result<String, NoMemory>
    requires { DecodedIsFloatFree item.now }
{
    match item {
        Decoded::Item(message) => message.to_text(alloc),
        Decoded::Fault(fault) => Ok(format!(in alloc; "{fault:?}")?),
        Decoded::More => Ok(String::from_str(alloc, "More")?),
    }
}

// The item is let go.
pub(crate) fn told(alloc: Global, item: Decoded) -> Result<String, NoMemory>
    requires { DecodedIsFloatFree item }
{
    let text = written(alloc, &item);
    drop(item);
    text
}

// The next item.
pub(crate) fn decoded(alloc: Global, codec: &mut LanguageServerCodec) -> Result<String, NoMemory> {
    told(alloc, codec.decode()?)
}

fn ended(alloc: Global, codec: &mut LanguageServerCodec) -> Result<String, NoMemory>
    requires { told_at codec.now ≡ [] }
{
    let rest = codec.finish()?;
    Ok(format!(in alloc; "{rest:?}")?)
}

// What is told of an input that ends here, where all items are given; else the next of them.
fn finished(alloc: Global, codec: &mut LanguageServerCodec) -> Result<String, NoMemory> {
    match codec.decode()? {
        Decoded::More => ended(alloc, codec),
        item => told(alloc, item),
    }
}

// The pieces of a stream, the items that they tell, and what is told of an input that ends then, if
// that is asked.
pub(crate) struct Stream {
    pub(crate) name: &'static str,
    pub(crate) pieces: &'static [&'static [u8]],
    pub(crate) items: &'static [&'static str],
    end: Option<&'static str>,
}

fn try_stream(
    trial: &mut Trial,
    alloc: Global,
    limits: Limits,
    row: &Stream,
) -> Result<(), NoMemory>
    requires { AreLimits limits }
{
    let mut codec = LanguageServerCodec::with_limits(alloc, limits);
    for piece in row.pieces {
        codec.feed(piece)?;
    }
    for item in row.items {
        trial.text(row.name, decoded(alloc, &mut codec), item);
    }
    if let Some(end) = row.end {
        trial.text(row.name, finished(alloc, &mut codec), end);
    }
    Ok(())
}

pub(crate) const STREAMS: &[Stream] = &[
    Stream {
        name: "junk and faults before messages",
        pieces: &[
            b"foobar",
            MESSAGE,
            b"Content-Length: foobar\r\n\r\n",
            MESSAGE,
        ],
        items: &[
            "MissingContentLength",
            EXIT,
            "InvalidContentLength",
            EXIT,
            "More",
            "More",
        ],
        end: None,
    },
    Stream {
        name: "another header",
        pieces: &[b"Content-Lengthy: 5\r\n\r\n", MESSAGE],
        items: &["MissingContentLength", EXIT, "More"],
        end: None,
    },
    Stream {
        name: "an empty body tells nothing",
        pieces: &[b"Content-Length: 0\r\n\r\n", MESSAGE],
        items: &[EXIT, "More"],
        end: None,
    },
    Stream {
        name: "three headers are too many",
        pieces: &[b"A: 1\r\nB: 2\r\n", MESSAGE],
        items: &["Headers", EXIT, "More"],
        end: None,
    },
    Stream {
        name: "a type",
        pieces: &[
            b"Content-Length: 33\r\nContent-Type: a/b; charset=utf8\r\n\r\n",
            b"{\"jsonrpc\":\"2.0\",\"method\":\"exit\"}",
        ],
        items: &[EXIT, "More"],
        end: None,
    },
    Stream {
        name: "a type of another charset",
        pieces: &[
            b"Content-Length: 33\r\nContent-Type: a/b; charset=invalid\r\n\r\n",
            b"{\"jsonrpc\":\"2.0\",\"method\":\"exit\"}",
        ],
        items: &["InvalidContentType", "More"],
        end: None,
    },
    Stream {
        name: "the last of two lengths, and lines that end in LF alone",
        pieces: &[
            b"Content-Length: 5\nContent-Length: +033\n\n",
            b"{\"jsonrpc\":\"2.0\",\"method\":\"exit\"}",
        ],
        items: &[EXIT, "More"],
        end: None,
    },
    Stream {
        name: "bodies",
        pieces: &[
            b"Content-Length: 1\r\n\r\n{",
            b"Content-Length: 2\r\n\r\n[]",
            b"Content-Length: 1\r\n\r\n\xff",
            b"Content-Length: 45\r\n\r\n{\"jsonrpc\":\"2.0\",\"method\":\"a\",\"params\":[0.5]}",
            MESSAGE,
        ],
        items: &[
            "Body(Json)",
            "Body(Message)",
            "Utf8",
            "Body(Message)",
            EXIT,
            "More",
        ],
        end: None,
    },
    Stream {
        name: "a body past the limit",
        pieces: &[b"Content-Length: 67108865\r\n\r\n"],
        items: &["BodyTooLong", "More"],
        end: None,
    },
];

#[test]
fn streams(rt: HostRuntime) -> Result<(), RowError> {
    let alloc = rt.alloc();
    let mut trial = Trial::new(alloc);
    for row in STREAMS {
        try_stream(&mut trial, alloc, Limits::default(), row)?;
    }
    trial.end()
}

fn junk_and_messages(alloc: Global) -> Result<Vec<u8>, AllocError> {
    let mut stream = Vec::new(alloc);
    stream.extend_from_slice(b"foobar")?;
    stream.extend_from_slice(MESSAGE)?;
    stream.extend_from_slice(b"Content-Length: foobar\r\n\r\n")?;
    stream.extend_from_slice(MESSAGE)?;
    Ok(stream)
}

// A byte of that stream completes at most one item.
fn push_byte(
    alloc: Global,
    codec: &mut LanguageServerCodec,
    byte: u8,
    told: &mut String,
) -> Result<(), NoMemory> {
    codec.feed(&[byte])?;
    let text = decoded(alloc, codec)?;
    if text.as_str() != "More" {
        told.push_str(text.as_str())?;
        told.push_str(";")?;
    }
    Ok(())
}

fn told_by_bytes(
    alloc: Global,
    codec: &mut LanguageServerCodec,
    stream: &[u8],
) -> Result<String, NoMemory> {
    let mut told = String::new(alloc);
    for byte in stream {
        push_byte(alloc, codec, *byte, &mut told)?;
    }
    Ok(told)
}

#[test]
fn one_byte_at_a_time(rt: HostRuntime) -> Result<(), RowError> {
    let alloc = rt.alloc();
    let stream = junk_and_messages(alloc)?;
    let mut codec = LanguageServerCodec::default(alloc);
    let told = told_by_bytes(alloc, &mut codec, stream.as_slice());
    drop(stream);
    let mut trial = Trial::new(alloc);
    trial.text("the items", told, ITEMS);
    trial.text("the end", decoded(alloc, &mut codec), "More");
    drop(codec);
    trial.end()
}

const ITEMS: &str = concat!(
    "MissingContentLength;{\"jsonrpc\":\"2.0\",\"method\":\"exit\"};",
    "InvalidContentLength;{\"jsonrpc\":\"2.0\",\"method\":\"exit\"};"
);

#[test]
fn ends_inside_a_frame(rt: HostRuntime) -> Result<(), RowError> {
    let alloc = rt.alloc();
    let mut codec = LanguageServerCodec::default(alloc);
    let mut trial = Trial::new(alloc);
    let fed = codec.feed(b"Content-Length: 33\r\n\r\n{\"jsonrp");
    trial.same("a piece", fed, Ok(()));
    trial.text("inside", finished(alloc, &mut codec), "Some(Rest)");
    // The codec goes on as before.
    let fed = codec.feed(b"c\":\"2.0\",\"method\":\"exit\"}");
    trial.same("the rest", fed, Ok(()));
    trial.text("the message", decoded(alloc, &mut codec), EXIT);
    trial.text("after it", finished(alloc, &mut codec), "None");
    drop(codec);
    trial.end()
}

// Heads of at most 30 bytes, and bodies of at most 40.
const SMALL: Limits = Limits { head: 30, body: 40 };

const LIMITED: &[Stream] = &[
    Stream {
        name: "within the limits",
        pieces: &[MESSAGE],
        items: &[EXIT],
        end: Some("None"),
    },
    Stream {
        name: "a body of 41 bytes is skipped, and one of 40 isn't",
        pieces: &[
            b"Content-Length: 41\r\n\r\nxxxxxxxxxxxxxxxxxxxxxxxxxxxxxxxxxxxxxxxxx",
            MESSAGE,
            b"Content-Length: 40\r\n\r\nxxxxxxxxxxxxxxxxxxxxxxxxxxxxxxxxxxxxxxxx",
        ],
        items: &["BodyTooLong", EXIT, "Body(Json)"],
        end: Some("None"),
    },
    Stream {
        name: "the text in a skipped body is no head",
        pieces: &[b"Content-Length: 55\r\n\r\n", MESSAGE, b"Content-Le"],
        items: &["BodyTooLong"],
        end: Some("Some(Rest)"),
    },
    Stream {
        name: "a long header",
        pieces: &[b"X: aaaaaaaaaaaaaaaaaaaaaaaaaaaaaaaaaaaaaaaa\r\n", MESSAGE],
        items: &["HeadTooLong", EXIT],
        end: Some("None"),
    },
    Stream {
        name: "a head of 30 bytes, and one of 31",
        pieces: &[
            b"Content-Length: 0000000002\r\n\r\n{}",
            b"Content-Length: 00000000002\r\n\r\n{}",
            MESSAGE,
        ],
        items: &["Body(Message)", "HeadTooLong", EXIT],
        end: Some("None"),
    },
    Stream {
        name: "29 bytes",
        pieces: &[b"aaaaaaaaaaaaaaaaaaaaaaaaaaaaa"],
        items: &[],
        end: Some("Some(Rest)"),
    },
    Stream {
        name: "30 bytes",
        pieces: &[b"aaaaaaaaaaaaaaaaaaaaaaaaaaaaa", b"a"],
        items: &["HeadTooLong"],
        end: Some("None"),
    },
];

#[test]
fn limits(rt: HostRuntime) -> Result<(), RowError> {
    let alloc = rt.alloc();
    let mut trial = Trial::new(alloc);
    let limits = Limits::default();
    trial.same("the greatest head", limits.head, 8_192);
    trial.same("the longest body", limits.body, 67_108_864);
    for row in LIMITED {
        try_stream(&mut trial, alloc, SMALL, row)?;
    }
    trial.end()
}

// What is fed, the item that it tells, and how many bytes are held then.
const HELD: &[(&[u8], &str, u64)] = &[
    (b"Content-Length: 33\r\n\r", "More", 21),
    (b"\n{\"jsonrpc\":", "More", 11),
    (b"\"2.0\",\"method\":\"exit\"}", EXIT, 0),
    (b"Content-Length: 41\r\n\r\nxyz", "BodyTooLong", 3),
    (b"0123456789", "More", 0),
    (b"0123456789012345678901234567", "More", 0),
    (
        b"aaaaaaaaaaaaaaaaaaaaaaaaaaaaaaaaaaaaaaaa",
        "HeadTooLong",
        39,
    ),
    (b"", "More", 13),
];

#[test]
fn holds_little(rt: HostRuntime) -> Result<(), RowError> {
    let alloc = rt.alloc();
    let mut codec = LanguageServerCodec::with_limits(alloc, SMALL);
    let mut trial = Trial::new(alloc);
    for (at, (piece, item, held)) in HELD.iter().enumerate() {
        trial.same(format_args!("feed {at}"), codec.feed(*piece), Ok(()));
        trial.text(format_args!("row {at}"), decoded(alloc, &mut codec), *item);
        trial.same(format_args!("held at row {at}"), codec.held(), *held);
    }
    trial.end()
}

// The frame of the message that the item is, after what is in `out`.
fn encode_item(
    codec: &mut LanguageServerCodec,
    item: &Decoded,
    out: &mut BytesMut,
) -> Result<(), NoMemory>
    requires { DecodedIsFloatFree item.now }
{
    match item {
        Decoded::Item(message) => codec.encode(message, out),
        _ => Err(NoMemory),
    }
}

#[test]
fn writes_a_frame(rt: HostRuntime) -> Result<(), Fail> {
    let mut out = BytesMut::new(rt.alloc());
    out.extend_from_slice(b"before")?;
    let mut codec = LanguageServerCodec::default(rt.alloc());
    let mut trial = Trial::new(rt.alloc());
    trial.same("a feed", codec.feed(MESSAGE), Ok(()));
    match codec.decode() {
        Ok(item) => {
            trial.same("encoded", encode_item(&mut codec, &item, &mut out), Ok(()));
            drop(item);
        }
        Err(error) => trial.shows("decoded", error, "a message"),
    }
    let wanted = b"beforeContent-Length: 33\r\n\r\n{\"jsonrpc\":\"2.0\",\"method\":\"exit\"}";
    trial.same("the frame", out.as_slice(), wanted.as_slice());
    drop(out);
    drop(codec);
    Ok(trial.end()?)
}

const FAULTS: &[(ParseError, ErrorCode, &str)] = &[
    (
        ParseError::Headers,
        ErrorCode::ParseError,
        "failed to parse headers",
    ),
    (
        ParseError::MissingContentLength,
        ErrorCode::ParseError,
        "missing required `Content-Length` header",
    ),
    (
        ParseError::InvalidContentType,
        ErrorCode::ParseError,
        "unable to parse content type",
    ),
    (
        ParseError::InvalidContentLength,
        ErrorCode::ParseError,
        "unable to parse content length",
    ),
    (
        ParseError::Utf8,
        ErrorCode::ParseError,
        "request contains invalid UTF8",
    ),
    (
        ParseError::Body(BodyFault::Json),
        ErrorCode::ParseError,
        "unable to parse JSON body",
    ),
    (
        ParseError::Body(BodyFault::Message),
        ErrorCode::InvalidRequest,
        "unable to parse JSON body",
    ),
    (
        ParseError::Rest,
        ErrorCode::ParseError,
        "input ended inside a frame",
    ),
    (
        ParseError::HeadTooLong,
        ErrorCode::ParseError,
        "head too long",
    ),
    (
        ParseError::BodyTooLong,
        ErrorCode::ParseError,
        "body too long",
    ),
];

#[test]
fn faults(rt: HostRuntime) -> Result<(), RowError> {
    let mut trial = Trial::new(rt.alloc());
    for (fault, code, text) in FAULTS {
        trial.same(*text, fault.code(), *code);
        trial.text(*text, format!(in rt.alloc(); "{fault}"), *text);
    }
    trial.end()
}
