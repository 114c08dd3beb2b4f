// Why a value does not fit a type, told by the names of its members.
ghost use Rattle.std.specs.Prelude.{◌≡◌, IfOk, IfSome, IsSome, IsNone, None, map, option_map, is_some, true};
ghost use Rattle.serde_json.specs.View.{view, members_view};
ghost use Rattle.lsp_shape.specs.Read.{read};
ghost use Rattle.lsp_shape.specs.Unfit.{step_shown, path_shown};
ghost use Rattle.lsp_shape.specs.Why.{IsReason, path_by, step_to, name_at, member_at};

use crate::member::find;
use crate::why::{Misfit, Wanted, Why};
use crate::wire::Wire;
use no_memory::NoMemory;
use serde_json::{Map, Value};
use std::alloc::Global;
use std::fmt;

/// A step down a value.
#[derive(Debug, PartialEq, Eq, Drop)]
pub enum Step {
    /// To the member of that name.
    Member(String),
    /// To the item of that number, from 0.
    Item(u16),
}

/// Why a value does not fit: the path to a place in it where something else is wanted, and what is
/// wanted there. Of a member that is missing, the path is that of the object without it.
///
/// It is written as `textDocument.position.line: an unsigned integer is wanted`, or
/// `textDocument.uri: is missing`.
#[derive(Debug, PartialEq, Eq, Drop)]
pub struct Unfit {
    /// Down to the place, step by step.
    pub path: Vec<Step>,
    /// What is wanted there.
    pub wanted: Wanted,
}

/// Why the value does not fit the type, or None where it fits. The one error is out of memory.
pub fn why_unfit<T: Wire>(alloc: Global, value: &Value) -> Result<Option<Unfit>, NoMemory>
    // No value of the type has there what stands there, and where the word says it, each has what
    // is wanted.
    ensures reason { IfOk result (λ told. IfSome told
        (λ unfit. IsReason (read T.shape) (view value.now) (path_shown unfit) unfit.wanted)) }
    ensures unfit { IfOk result (λ told. IsSome told → read T.shape (view value.now) ≡ None) }
    ensures fits { IfOk result (λ told. IsNone told → is_some (read T.shape (view value.now)) ≡ true) }
{
    match T::from_value(alloc, value) {
        Ok(_fitting) => Ok(None),
        Err(Misfit::Unfit(why)) => Ok(Some(Unfit {
            path: path_of(alloc, value, why.steps())?,
            wanted: why.wanted(),
        })),
        Err(Misfit::NoMemory) => Err(NoMemory),
    }
}

// The path by those steps down the value, as far as they lead.
fn path_of(alloc: Global, value: &Value, steps: &[u16]) -> Result<Vec<Step>, NoMemory>
    ensures { IfOk result
        (λ path. map step_shown path.items ≡ path_by steps.now (view value.now)) }
{
    let mut path = Vec::new(alloc);
    let mut place = value;
    for number in steps {
        let down = step_down(alloc, place, *number)?;
        match down {
            Some((step, below)) => {
                path.push(step)?;
                place = below;
            }
            None => return Ok(path),
        }
    }
    Ok(path)
}

// The step to the member or item of that number, and what stands there.
fn step_down(alloc: Global, value: &Value, number: u16) -> Result<Option<(Step, &Value)>, NoMemory>
    ensures { IfOk result
        (λ down. option_map (λ s. (step_shown s.0, view s.1.now)) down
        ≡ step_to number (view value.now)) }
{
    match value {
        Value::Array(_) => match value.get(usize::from(number)) {
            Some(item) => Ok(Some((Step::Item(number), item))),
            None => Ok(None),
        },
        Value::Object(members) => match member_of(members, number) {
            Some((name, member)) => {
                Ok(Some((Step::Member(String::from_str(alloc, name)?), member)))
            }
            None => Ok(None),
        },
        _ => Ok(None),
    }
}

// The member of that number, with its name.
fn member_of(members: &Map<String, Value>, number: u16) -> Option<(&str, &Value)>
    ensures { option_map (λ m. (m.0.now, view m.1.now)) result
        ≡ member_at number (members_view members.now.entries) }
{
    let name = name_of(members, number)?;
    let member = find(members, name)?;
    Some((name, member))
}

// The name of the member of that number.
fn name_of(members: &Map<String, Value>, number: u16) -> Option<&str>
    ensures { option_map (λ name. name.now) result
        ≡ name_at number (members_view members.now.entries) }
{
    let mut left = number;
    for (name, _) in members.iter() {
        if left == 0 {
            return Some(name.as_str());
        }
        left -= 1;
    }
    None
}

impl fmt::Display for Wanted {
    fn fmt<W: fmt::Write>(&self, f: &mut fmt::Formatter<W>) -> fmt::Result {
        let text = match self {
            Wanted::Member(name) => return write!(f, "{name} is wanted"),
            Wanted::Null => "null is wanted",
            Wanted::Boolean => "true or false is wanted",
            Wanted::Unsigned => "an unsigned integer is wanted",
            Wanted::Integer => "an integer is wanted",
            Wanted::Text => "a text is wanted",
            Wanted::Name => "one of its texts is wanted",
            Wanted::Uri => "a URI is wanted",
            Wanted::List => "a list is wanted",
            Wanted::Length => "a list of another length is wanted",
            Wanted::Object => "an object is wanted",
            Wanted::Keys => "other names of its members are wanted",
            Wanted::Form => "one of its forms is wanted",
            Wanted::Inside => "something inside does not fit",
        };
        f.write_str(text)
    }
}

impl fmt::Display for Step {
    fn fmt<W: fmt::Write>(&self, f: &mut fmt::Formatter<W>) -> fmt::Result {
        match self {
            Step::Member(name) => f.write_str(name.as_str()),
            Step::Item(number) => write!(f, "[{number}]"),
        }
    }
}

impl fmt::Display for Unfit {
    fn fmt<W: fmt::Write>(&self, f: &mut fmt::Formatter<W>) -> fmt::Result {
        let mut is_first = true;
        for step in &self.path {
            if !is_first && matches!(step, Step::Member(_)) {
                f.write_str(".")?;
            }
            write!(f, "{step}")?;
            is_first = false;
        }
        match (&self.wanted, is_first) {
            (Wanted::Member(name), true) => write!(f, "{name}: is missing"),
            (Wanted::Member(name), false) => write!(f, ".{name}: is missing"),
            (wanted, true) => write!(f, "{wanted}"),
            (wanted, false) => write!(f, ": {wanted}"),
        }
    }
}
