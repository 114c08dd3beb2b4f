// What a line of a table asks of a type.
ghost use Rattle.std.specs.Prelude.{◌≡◌, Some, IfOk};
ghost use Rattle.serde_json.specs.Read as json_text;
ghost use Rattle.serde_json.specs.View.{view};

use crate::error::{RowError, compare, untrue};
use crate::told::Told;
use lsp_shape::NoMemory;
use serde_json::Value;
use std::alloc::Global;

/// What is asked about a value.
#[derive(Clone, Copy)]
pub(crate) enum Asked {
    /// What is written of what it is read as.
    Written,
    /// What `Debug` shows of that.
    Shown,
    /// Why it does not fit.
    Why,
}

/// A question about a value, and the answer that is expected.
#[derive(Drop)]
pub(crate) struct Question {
    /// The line that asks, as an error tells it.
    line: String,
    pub(crate) asked: Asked,
    pub(crate) value: Value,
    expected: String,
}

impl Question {
    pub(crate) fn new(
        alloc: Global,
        line: &str,
        asked: Asked,
        value: Value,
        expected: &str,
    ) -> Result<Question, RowError> {
        let line = String::from_str(alloc, line)?;
        let expected = String::from_str(alloc, expected)?;
        Ok(Question {
            line,
            asked,
            value,
            expected,
        })
    }

    /// What is written of the first text of the table that is to be read. Nothing is expected of it.
    pub(crate) fn first(alloc: Global, rows: &str) -> Result<Question, RowError> {
        let text = first_text(rows).unwrap_or("null");
        Question::new(alloc, text, Asked::Written, json(alloc, text, text)?, "")
    }

    /// The type told what is expected.
    pub(crate) fn compare(&self, alloc: Global, told: Told) -> Result<(), RowError> {
        compare(
            alloc,
            self.line.as_str(),
            self.expected.as_str(),
            told.text(alloc)?.as_str(),
        )
    }
}

/// Asks one question more.
pub(crate) fn ask(questions: &mut Vec<Question>, question: Question) -> Result<(), NoMemory> {
    questions.push(question)?;
    Ok(())
}

/// The value of a text of that line.
pub(crate) fn json(alloc: Global, line: &str, text: &str) -> Result<Value, RowError>
    ensures { IfOk result (λ v. json_text.read text.now ≡ Some (view v)) }
{
    match Value::from_str(alloc, text) {
        Ok(value) => Ok(value),
        Err(error) if error.is_memory() => Err(RowError::NoMemory),
        Err(_) => Err(untrue(alloc, line, "a JSON text", text)?),
    }
}

// A line's text, what is written of it, and what is shown.
fn parts(line: &str) -> (&str, &str, &str) {
    let (text, shown) = line.split_once(" :: ").unwrap_or((line, ""));
    let (text, written) = text.split_once(" => ").unwrap_or((text, text));
    (text, written, shown)
}

// The first text of the table that is to be read.
fn first_text(rows: &str) -> Option<&str> {
    for line in rows.lines() {
        if !line.is_empty() && !line.starts_with("#") && !line.starts_with("!") {
            return Some(parts(line).0);
        }
    }
    None
}

/// Asks what a line says that names no members.
pub(crate) fn ask_line(
    alloc: Global,
    line: &str,
    questions: &mut Vec<Question>,
) -> Result<(), RowError> {
    if let Some(refused) = line.strip_prefix("! ") {
        let (text, why) = refused.split_once(" :: ").unwrap_or((refused, ""));
        let value = json(alloc, line, text)?;
        ask(
            questions,
            Question::new(alloc, line, Asked::Why, value, why)?,
        )?;
        return Ok(());
    }
    let (text, written, shown) = parts(line);
    if !shown.is_empty() {
        let value = json(alloc, line, text)?;
        ask(
            questions,
            Question::new(alloc, line, Asked::Shown, value, shown)?,
        )?;
    }
    let expected = json(alloc, line, written)?.to_string(alloc)?;
    let value = json(alloc, line, text)?;
    let question = Question::new(alloc, line, Asked::Written, value, expected.as_str())?;
    ask(questions, question)?;
    Ok(())
}
