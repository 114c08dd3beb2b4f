//! A value from tokens.
ghost use Rattle.std.specs.Prelude.{◌≡◌, ◌<◌, ◌∷◌, length, Some, false, IfOk, OnOk};
ghost use Rattle.json.specs.Json.{value};
ghost use Rattle.json.specs.Token.{begin_array, begin_object};
ghost use Rattle.serde_json.specs.Data.{array, object};
ghost use Rattle.serde_json.specs.Read.{converted};
ghost use Rattle.serde_json.specs.View.{view, items_view, members_view};
ghost use Rattle.serde_json.specs.Written.{has_float, items_have_float, members_have_float};
ghost use Rattle.lsp_text.specs.Floats.{of_json_by, read_by};

use crate::floats::Floats;
use crate::number::number;
use crate::unread::Unread;
use json::{Reader, Scratch, Token};
use serde_json::{Map, Value};
use std::alloc::Global;

/// The value whose tokens come next, where arrays and objects nest at most so deep in it, and what
/// becomes of floats is said. After an error the reader stands anywhere in the text.
#[cycle(reading)]
pub fn read_value(
    alloc: Global,
    reader: &mut Reader<'_>,
    floats: Floats,
    depth: usize,
) -> Result<Value, Unread>
    ensures value { IfOk result
        (λ v. converted (of_json_by floats) (value depth reader.old) ≡ Some (view v, reader.new)) }
    ensures shorter { OnOk result (length reader.new < length reader.old) }
    ensures clean { IfOk result (λ v. has_float (view v) ≡ false) }
{
    match reader.next().ok_or(Unread)? {
        Token::Null => Ok(Value::Null),
        Token::Bool(truth) => Ok(Value::Bool(truth)),
        Token::Number(text) => match number(floats, text) {
            Some(value) => Ok(value),
            None => Err(Unread),
        },
        Token::String(text) => Ok(Value::String(String::from_str(alloc, text)?)),
        Token::BeginArray => Ok(Value::Array(read_items(alloc, reader, floats, depth)?)),
        Token::BeginObject => Ok(Value::Object(read_members(alloc, reader, floats, depth)?)),
        _ => Err(Unread),
    }
}

// The items of an array, after the bracket that opens it and with the one that closes it.
#[cycle(reading)]
fn read_items(
    alloc: Global,
    reader: &mut Reader<'_>,
    floats: Floats,
    depth: usize,
) -> Result<Vec<Value>, Unread>
    ensures value { IfOk result (λ items. converted (of_json_by floats) (value depth (begin_array ∷ reader.old))
        ≡ Some (array (items_view items.items), reader.new)) }
    ensures shorter { OnOk result (length reader.new < length reader.old) }
    ensures clean { IfOk result (λ items. items_have_float (items_view items.items) ≡ false) }
{
    if depth == 0 {
        return Err(Unread);
    }
    let mut items = Vec::new(alloc);
    'items: while !reader.take_end_array() {
        let item = read_value(alloc, reader, floats, depth - 1)?;
        items.push(item)?;
    }
    Ok(items)
}

// The members of an object, after the brace that opens it and with the one that closes it. The
// last value of a name stays.
#[cycle(reading)]
fn read_members(
    alloc: Global,
    reader: &mut Reader<'_>,
    floats: Floats,
    depth: usize,
) -> Result<Map<String, Value>, Unread>
    ensures value { IfOk result
        (λ members. converted (of_json_by floats) (value depth (begin_object ∷ reader.old))
        ≡ Some (object (members_view members.entries), reader.new)) }
    ensures shorter { OnOk result (length reader.new < length reader.old) }
    ensures clean { IfOk result
        (λ members. members_have_float (members_view members.entries) ≡ false) }
{
    if depth == 0 {
        return Err(Unread);
    }
    let mut members = Map::new(alloc);
    'members: while let Some(name) = reader.next_key()? {
        let key = String::from_str(alloc, name)?;
        let member = read_value(alloc, reader, floats, depth - 1)?;
        drop(members.insert(key, member)?);
    }
    Ok(members)
}

// How deep the value of a text may nest.
const DEPTH: usize = 127;

/// The value that the text is. Where it gives `Unread` the text is no JSON, or has a float that
/// isn't let in, or memory wasn't there.
#[inline(never)]
pub fn read_whole(alloc: Global, floats: Floats, text: &str) -> Result<Value, Unread>
    ensures value { IfOk result (λ v. read_by floats text.now ≡ Some (view v)) }
    ensures clean { IfOk result (λ v. has_float (view v) ≡ false) }
{
    let mut scratch = Box::new(alloc, Scratch::new(alloc))?;
    let mut reader = Reader::new(text, &mut scratch)?;
    let value = read_value(alloc, &mut reader, floats, DEPTH)?;
    if reader.next().is_some() {
        return Err(Unread);
    }
    Ok(value)
}
