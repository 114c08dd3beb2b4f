// What a type makes of a value.
ghost use Rattle.std.specs.Prelude.{◌≡◌, IfOk, option_map};
ghost use Rattle.serde_json.specs.View.{view};
ghost use Rattle.lsp_shape.specs.Read.{read};
ghost use Rattle.lsp_shape.specs.Write.{write};

use crate::error::RowError;
use crate::question::{Asked, Question};
use lsp_shape::{NoMemory, Unfit, Wire, attempt, why_unfit};
use serde_json::Value;
use std::alloc::{AllocError, Global};
use std::fmt::Debug;

// What is told in place of what is written or shown, where the value does not fit.
pub(crate) const UNFIT: &str = "none: it does not fit";

// What is told in place of why, where it fits.
const FITS: &str = "none: it fits";

/// What a type tells of a value: nothing is written or shown of one that does not fit, and there is
/// no reason why one that fits does not. The one error is out of memory.
#[derive(Drop)]
pub(crate) enum Told {
    Written(Result<Option<Value>, NoMemory>),
    Shown(Result<Option<String>, NoMemory>),
    Why(Result<Option<Unfit>, NoMemory>),
}

impl Told {
    /// As the text that a line says.
    pub(crate) fn text(self, alloc: Global) -> Result<String, RowError> {
        let text = match self {
            Told::Written(written) => written_text(alloc, written?)?,
            Told::Shown(shown) => shown_text(alloc, shown?)?,
            Told::Why(why) => why_text(alloc, why?)?,
        };
        Ok(text)
    }

    /// What is written, if that was asked.
    pub(crate) fn written(&self) -> Option<&Value> {
        match self {
            Told::Written(Ok(Some(value))) => Some(value),
            _ => None,
        }
    }
}

fn written_text(alloc: Global, written: Option<Value>) -> Result<String, AllocError> {
    match written {
        Some(value) => value.to_string(alloc),
        None => String::from_str(alloc, UNFIT),
    }
}

fn shown_text(alloc: Global, shown: Option<String>) -> Result<String, AllocError> {
    match shown {
        Some(text) => Ok(text),
        None => String::from_str(alloc, UNFIT),
    }
}

fn why_text(alloc: Global, why: Option<Unfit>) -> Result<String, AllocError> {
    match why {
        Some(unfit) => format!(in alloc; "{unfit}"),
        None => String::from_str(alloc, FITS),
    }
}

// What is written of what the value is read as.
fn written_as<T: Wire>(alloc: Global, value: &Value) -> Result<Option<Value>, NoMemory>
    ensures { IfOk result (λ told. option_map view told
        ≡ option_map (write T.shape) (read T.shape (view value.now))) }
{
    match attempt::<T>(alloc, value) {
        Ok(Some(read)) => match read.to_value(alloc) {
            Ok(written) => Ok(Some(written)),
            Err(NoMemory) => Err(NoMemory),
        },
        Ok(None) => Ok(None),
        Err(NoMemory) => Err(NoMemory),
    }
}

// What `Debug` shows of what the value is read as.
fn shown_as<T: Wire + Debug>(alloc: Global, value: &Value) -> Result<Option<String>, NoMemory> {
    match attempt::<T>(alloc, value) {
        Ok(Some(read)) => match format!(in alloc; "{read:?}") {
            Ok(shown) => Ok(Some(shown)),
            Err(_) => Err(NoMemory),
        },
        Ok(None) => Ok(None),
        Err(NoMemory) => Err(NoMemory),
    }
}

/// What the type tells of a value, as it is asked.
pub(crate) fn tell<T: Wire + Debug>(alloc: Global, question: Option<&Question>) -> Told {
    match question {
        Some(question) => match question.asked {
            Asked::Written => Told::Written(written_as::<T>(alloc, &question.value)),
            Asked::Shown => Told::Shown(shown_as::<T>(alloc, &question.value)),
            Asked::Why => Told::Why(why_unfit::<T>(alloc, &question.value)),
        },
        None => Told::Written(Ok(None)),
    }
}
