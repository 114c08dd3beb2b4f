// A table that is tried on a type.
use crate::error::RowError;
use crate::members::ask_members;
use crate::question::{Question, ask_line};
use crate::told::Told;
use std::alloc::Global;

/// What a table asks, and the first answer that was another one than was expected.
#[derive(Drop)]
pub(crate) struct Table {
    alloc: Global,
    // What is written of the first text.
    first: Result<Question, RowError>,
    questions: Vec<Question>,
    found: Result<(), RowError>,
}

impl Table {
    /// The table of those rows, which asks nothing yet but what is written of its first text.
    pub(crate) fn new(alloc: Global, rows: &str) -> Table {
        Table {
            alloc,
            first: Question::first(alloc, rows),
            questions: Vec::new(alloc),
            found: Ok(()),
        }
    }

    /// What is written of the first text.
    pub(crate) fn first(&self) -> Option<&Question> {
        self.first.as_ref().ok()
    }

    /// Asks what the lines say, of which the type told that of the first text.
    pub(crate) fn ask(&mut self, rows: &str, told: Told) {
        self.found = match &self.first {
            Ok(first) => ask_all(self.alloc, rows, first, &told, &mut self.questions),
            Err(_) => Ok(()),
        };
    }

    /// How many questions there are.
    pub(crate) fn len(&self) -> usize {
        self.questions.len()
    }

    /// A question by its number. None is left once an answer was another one.
    pub(crate) fn question(&self, number: usize) -> Option<&Question> {
        if self.found.is_err() {
            return None;
        }
        self.questions.get(number)
    }

    /// Compares what the type told with what is expected.
    pub(crate) fn compare(&mut self, number: usize, told: Told) {
        if self.found.is_ok()
            && let Some(question) = self.questions.get(number)
        {
            self.found = question.compare(self.alloc, told);
        }
    }

    /// The first that was not as it should be.
    pub(crate) fn end(self) -> Result<(), RowError> {
        self.first?;
        self.found
    }
}

// Asks what each line says.
fn ask_all(
    alloc: Global,
    rows: &str,
    first: &Question,
    told: &Told,
    questions: &mut Vec<Question>,
) -> Result<(), RowError> {
    for line in rows.lines() {
        if line.is_empty() || line.starts_with("#") {
            continue;
        }
        match line.strip_prefix("?") {
            Some(words) => ask_members(alloc, words, &first.value, told, questions)?,
            None => ask_line(alloc, line, questions)?,
        }
    }
    Ok(())
}
