// A record without one of its members.
use crate::error::{RowError, untrue};
use crate::question::{Asked, Question, ask, json};
use crate::told::{Told, UNFIT};
use serde_json::{Map, Value};
use std::alloc::Global;

// What a line says of a record without a member.
enum Without<'w> {
    // It does not fit.
    Unfit,
    // It is written without the member too.
    Unwritten,
    // It is written with that as the member.
    Written(&'w str),
}

fn said_of<'w>(words: &'w str, name: &str) -> Without<'w> {
    for word in words.split_whitespace() {
        match word.split_once('=') {
            None if word == name => return Without::Unfit,
            Some((member, value)) if member == name => return Without::Written(value),
            _ => {}
        }
    }
    Without::Unwritten
}

fn object<'v>(
    alloc: Global,
    line: &str,
    value: Option<&'v Value>,
) -> Result<&'v Map<String, Value>, RowError> {
    match value {
        Some(Value::Object(members)) => Ok(members),
        _ => Err(untrue(alloc, line, "an object", "another value")?),
    }
}

// What the words say that is written of the record without that member.
fn expected(
    alloc: Global,
    words: &str,
    name: &str,
    written: &Map<String, Value>,
) -> Result<String, RowError> {
    let mut members = written.clone()?;
    drop(members.remove(name));
    match said_of(words, name) {
        Without::Unfit => return Ok(String::from_str(alloc, UNFIT)?),
        Without::Unwritten => {}
        Without::Written(text) => {
            serde_json::put(&mut members, alloc, name, json(alloc, words, text)?)?;
        }
    }
    Ok(Value::Object(members).to_string(alloc)?)
}

// Each word without a value names a member of the text.
fn are_members(alloc: Global, words: &str, whole: &Map<String, Value>) -> Result<(), RowError> {
    for word in words.split_whitespace() {
        if word.split_once('=').is_none() && !whole.contains_key(word) {
            return Err(untrue(alloc, words, "members of the first text", word)?);
        }
    }
    Ok(())
}

// What is written of the object without that member.
fn ask_member(
    alloc: Global,
    words: &str,
    name: &str,
    whole: &Map<String, Value>,
    written: &Map<String, Value>,
) -> Result<Question, RowError> {
    let expected = expected(alloc, words, name, written)?;
    let mut members = whole.clone()?;
    drop(members.remove(name));
    let value = Value::Object(members);
    Question::new(alloc, name, Asked::Written, value, expected.as_str())
}

/// Asks of the value, of which the type told that, without each of its members in turn, what the
/// words say: it does not fit without a member that they name, is written with `value` in the place
/// of one in `member=value`, and without the member otherwise.
pub(crate) fn ask_members(
    alloc: Global,
    words: &str,
    value: &Value,
    told: &Told,
    questions: &mut Vec<Question>,
) -> Result<(), RowError> {
    let whole = object(alloc, words, Some(value))?;
    let written = object(alloc, words, told.written())?;
    are_members(alloc, words, whole)?;
    for (name, _) in whole.iter() {
        ask(
            questions,
            ask_member(alloc, words, name.as_str(), whole, written)?,
        )?;
    }
    Ok(())
}
