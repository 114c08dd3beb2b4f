//! From the parts of a message to their text.
ghost use Rattle.std.specs.Prelude.{◌≡◌, ◌++◌, All, IsTrue, OnOk, false, codes, option_map};
ghost use Rattle.serde_json.specs.Data.{string};
ghost use Rattle.serde_json.specs.View.{view};
ghost use Rattle.serde_json.specs.Written.{compact_text, has_float};
ghost use Rattle.lsp_rpc.specs.Back.{ReadsBack, MayReadBack, IdFits, MayFit, ErrorReadsBack, BodyReadsBack};
ghost use Rattle.lsp_rpc.specs.Message.{id_data, next_member, error_text, body_text, may_have_float, body_has_float};
ghost use Rattle.lsp_rpc.specs.Pieces.{Appends, IsPlain};
ghost use Rattle.lsp_rpc.specs.Shown.{show_id, show_error, show_body};

use crate::error::Error;
use crate::id::Id;
use serde_json::Value;
use std::alloc::{AllocError, Global};

/// The bytes that a message's text begins with room for: most responses are shorter.
pub(crate) const ROOM: usize = 160;

fn push_value(alloc: Global, out: &mut String, value: &Value) -> Result<(), AllocError>
    requires { has_float (view value.now) ≡ false }
    ensures text { OnOk result (Appends out.old out.new (compact_text (view value.now))) }
    ensures back { OnOk result (ReadsBack (view value.now)) }
{
    let text = value.to_string(alloc)?;
    out.push_str(text.as_str())
}

// Whether the string stands between its quotes as it is: no byte of it has to be escaped.
fn is_plain(text: &str) -> bool
    ensures { IsTrue result → All IsPlain text.now }
{
    text.as_bytes()
        .iter()
        .all(|byte| *byte >= b' ' && *byte != b'"' && *byte != b'\\')
}

fn push_quoted(out: &mut String, text: &str) -> Result<(), AllocError>
    ensures { OnOk result (Appends out.old out.new (codes "\"" ++ (text.now ++ codes "\""))) }
{
    out.push_str("\"")?;
    out.push_str(text)?;
    out.push_str("\"")
}

pub(crate) fn push_text(alloc: Global, out: &mut String, text: &str) -> Result<(), AllocError>
    ensures { OnOk result (Appends out.old out.new (compact_text (string text.now))) }
{
    if is_plain(text) {
        push_quoted(out, text)
    } else {
        let value = Value::try_from_str(alloc, text)?;
        push_value(alloc, out, &value)
    }
}

pub(crate) fn push_member(
    alloc: Global,
    out: &mut String,
    name: &str,
    value: &Option<Value>,
) -> Result<(), AllocError>
    requires { may_have_float (option_map view value.now) ≡ false }
    ensures text { OnOk result (Appends out.old out.new
        (next_member name.now (option_map view value.now))) }
    ensures back { OnOk result (MayReadBack (option_map view value.now)) }
{
    match value {
        Some(value) => {
            out.push_str(name)?;
            push_value(alloc, out, value)
        }
        None => Ok(()),
    }
}

pub(crate) fn push_id(alloc: Global, out: &mut String, id: &Id) -> Result<(), AllocError>
    ensures text { OnOk result (Appends out.old out.new (compact_text (id_data (show_id id.now)))) }
    ensures fits { OnOk result (IdFits (show_id id.now)) }
{
    match id {
        Id::Number(n) => {
            let mut buffer = itoa::Buffer::new();
            out.push_str(buffer.format(*n))
        }
        Id::String(text) => push_text(alloc, out, text.as_str()),
        Id::Null => out.push_str("null"),
    }
}

pub(crate) fn push_request_id(
    alloc: Global,
    out: &mut String,
    id: &Option<Id>,
) -> Result<(), AllocError>
    ensures text { OnOk result (Appends out.old out.new
        (next_member (codes ",\"id\":") (option_map id_data (option_map show_id id.now)))) }
    ensures fits { OnOk result (MayFit (option_map show_id id.now)) }
{
    match id {
        Some(id) => {
            out.push_str(",\"id\":")?;
            push_id(alloc, out, id)
        }
        None => Ok(()),
    }
}

fn push_error(alloc: Global, out: &mut String, error: &Error) -> Result<(), AllocError>
    requires { may_have_float (option_map view error.now.payload) ≡ false }
    ensures text { OnOk result (Appends out.old out.new (error_text (show_error error.now))) }
    ensures back { OnOk result (ErrorReadsBack (show_error error.now)) }
{
    out.push_str("{\"code\":")?;
    let mut buffer = itoa::Buffer::new();
    out.push_str(buffer.format(error.code.code()))?;
    out.push_str(",\"message\":")?;
    push_text(alloc, out, error.message.as_str())?;
    push_member(alloc, out, ",\"data\":", &error.payload)?;
    out.push_str("}")
}

pub(crate) fn push_body(
    alloc: Global,
    out: &mut String,
    body: &Result<Value, Error>,
) -> Result<(), AllocError>
    requires { body_has_float (show_body body.now) ≡ false }
    ensures text { OnOk result (Appends out.old out.new (body_text (show_body body.now))) }
    ensures back { OnOk result (BodyReadsBack (show_body body.now)) }
{
    match body {
        Ok(value) => {
            out.push_str(",\"result\":")?;
            let text = value.to_string(alloc)?;
            out.push_str(text.as_str())
        }
        Err(error) => {
            out.push_str(",\"error\":")?;
            push_error(alloc, out, error)
        }
    }
}
