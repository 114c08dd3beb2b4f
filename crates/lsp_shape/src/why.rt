// Why a value is not read.
ghost use Rattle.std.specs.Prelude.{◌≡◌, [], IfSome, IsNone, IfOk, None, Some};
ghost use Rattle.serde_json.specs.Data.{Data};
ghost use Rattle.serde_json.specs.Find.{get_member};
ghost use Rattle.serde_json.specs.View.{members_view};
ghost use Rattle.lsp_shape.specs.Shape.{Shape};
ghost use Rattle.lsp_shape.specs.Why.{steps_of, name_at, name_text, IsForMember, Refuses, Lacks, IfUnfit, IsUnfit, IsUnfitted, IsWhole, IsUnder, IsInMember, IsInItem, IsOfMember, IsOfItem};
ghost use Rattle.lsp_shape.specs.declared.why.Why.{Why};
ghost use Rattle.lsp_shape.specs.declared.why.Misfit.TheVariants as misfits;

use no_memory::NoMemory;
use serde_json::{Map, Value};
use std::alloc::{AllocError, AllocFailed};
use std::fmt;

/// The name of a member, of at most 32 bytes. It is held by value, since a `?` on a result that holds a
/// reference gets no proof where what was read is a type with a model.
#[derive(Clone, Copy, PartialEq, Eq)]
pub struct MemberName {
    bytes: [u8; 32],
    len: u8,
}

impl MemberName {
    // The name, where it is not too long.
    fn of(name: &str) -> Option<MemberName>
        ensures { IfSome result (λ n. name_text n ≡ name.now) }
    {
        let text = name.as_bytes();
        if text.len() > 32 {
            return None;
        }
        let mut bytes = [0; 32];
        bytes[..text.len()].copy_from_slice(text);
        Some(MemberName {
            bytes,
            len: text.len() as u8,
        })
    }

    // Its bytes.
    fn as_bytes(&self) -> &[u8]
        ensures { result.now ≡ name_text self.now }
    {
        self.bytes
            .get(..usize::from(self.len))
            .unwrap_or(&self.bytes)
    }

    /// The name, as text.
    pub fn as_str(&self) -> Option<&str>
        ensures { IfSome result (λ text. text.now ≡ name_text self.now) }
    {
        str::from_utf8(self.as_bytes()).ok()
    }
}

impl fmt::Display for MemberName {
    fn fmt<W: fmt::Write>(&self, f: &mut fmt::Formatter<W>) -> fmt::Result {
        f.write_str(self.as_str().unwrap_or("a member"))
    }
}

impl fmt::Debug for MemberName {
    fn fmt<W: fmt::Write>(&self, f: &mut fmt::Formatter<W>) -> fmt::Result {
        write!(f, "{self}")
    }
}

/// What is wanted where a value does not fit.
#[derive(Clone, Copy, Debug, PartialEq, Eq)]
pub enum Wanted {
    /// Null.
    Null,
    /// True or false.
    Boolean,
    /// An integer from 0 on, no larger than the type holds.
    Unsigned,
    /// An integer, no larger and no smaller than the type holds.
    Integer,
    /// A text.
    Text,
    /// One of the texts that the type knows.
    Name,
    /// A text that is a URI.
    Uri,
    /// A list.
    List,
    /// A list of another length.
    Length,
    /// An object.
    Object,
    /// An object whose members have other names.
    Keys,
    /// An object with a member of that name.
    Member(MemberName),
    /// One of several forms, none of which fits.
    Form,
    /// Something inside that fits. The place is too deep in the value to be told, or behind too
    /// many items.
    Inside,
}

impl Wanted {
    /// An object with a member of that name. Where the name is longer than 32 bytes, only that other
    /// names of its members are wanted.
    pub fn member(name: &str) -> Wanted
        ensures { IsForMember name.now result }
    {
        match MemberName::of(name) {
            Some(name) => Wanted::Member(name),
            None => Wanted::Keys,
        }
    }
}

/// Where in a value something else is wanted, and what: for each step down, the number of the
/// member or item in the one that holds it. Deeper than eight steps it is not told.
#[derive(Clone, Copy, Debug, PartialEq, Eq)]
pub struct Why {
    steps: [u16; 8],
    depth: u8,
    wanted: Wanted,
}

impl Why {
    // That is wanted of the value as a whole.
    fn here(wanted: Wanted) -> Why
        ensures steps { steps_of result ≡ [] }
        ensures wanted { result.wanted ≡ wanted }
    {
        Why {
            steps: [0; 8],
            depth: 0,
            wanted,
        }
    }

    // The same of the member or item of that number.
    fn under(self, step: u16) -> Why
        ensures { IsUnder step self result }
    {
        let [a, b, c, d, e, f, g, _] = self.steps;
        let steps = [step, a, b, c, d, e, f, g];
        if self.depth < 8 {
            Why {
                steps,
                depth: self.depth + 1,
                wanted: self.wanted,
            }
        } else {
            Why {
                steps,
                depth: 8,
                wanted: Wanted::Inside,
            }
        }
    }

    /// What is wanted there.
    pub fn wanted(&self) -> Wanted
        ensures { result ≡ self.now.wanted }
    {
        self.wanted
    }

    // The number of the member or item at each step.
    pub(crate) fn steps(&self) -> &[u16]
        ensures { result.now ≡ steps_of self.now }
    {
        self.steps
            .get(..usize::from(self.depth))
            .unwrap_or(&self.steps)
    }
}

/// Why a value is not read.
#[derive(Clone, Copy, Debug, PartialEq, Eq)]
pub enum Misfit {
    /// The value does not fit the shape of the type.
    Unfit(Why),
    /// Out of memory.
    NoMemory,
}

impl Misfit {
    /// That is wanted of the value as a whole.
    pub fn wanted(wanted: Wanted) -> Misfit
        ensures refuses { (why : Why) → result ≡ misfits.Unfit why → (s : Shape) (d : Data)
            → Lacks s d wanted → Refuses s d why }
        ensures whole { (why : Why) → result ≡ misfits.Unfit why → IsWhole wanted why }
        ensures unfit { IsUnfitted result }
    {
        Misfit::Unfit(Why::here(wanted))
    }

    /// The same, but where the value does not fit, that is wanted of it as a whole.
    pub fn whole(self, wanted: Wanted) -> Misfit
        ensures refuses { (why : Why) → result ≡ misfits.Unfit why → (s : Shape) (d : Data)
            → Lacks s d wanted → Refuses s d why }
        ensures whole { (why : Why) → result ≡ misfits.Unfit why → IsWhole wanted why }
        ensures unfit { IsUnfitted result → IsUnfitted self }
    {
        match self {
            Misfit::Unfit(_) => Misfit::wanted(wanted),
            Misfit::NoMemory => Misfit::NoMemory,
        }
    }
}

impl From<AllocError> for Misfit {
    ghost from_gives = { λ _ m. m ≡ misfits.NoMemory };

    fn from(_error: AllocError) -> Misfit {
        Misfit::NoMemory
    }
}

impl From<NoMemory> for Misfit {
    ghost from_gives = { λ _ m. m ≡ misfits.NoMemory };

    fn from(_error: NoMemory) -> Misfit {
        Misfit::NoMemory
    }
}

impl<T: Drop> From<AllocFailed<T>> for Misfit {
    ghost from_gives = { λ _ m. m ≡ misfits.NoMemory };

    fn from(_error: AllocFailed<T>) -> Misfit {
        Misfit::NoMemory
    }
}

// The number of the member of that name.
fn number_of(object: &Map<String, Value>, name: &str) -> Option<usize>
    ensures found { IfSome result
        (λ n. name_at n (members_view object.now.entries) ≡ Some name.now) }
    ensures none { IsNone result → get_member name.now (members_view object.now.entries) ≡ None }
{
    let mut number = 0usize;
    for (key, _) in object.iter() {
        if key.as_str() == name {
            return Some(number);
        }
        number += 1;
    }
    None
}

// The reason of the object, whose member of that name has this one.
fn in_member(object: &Map<String, Value>, name: &str, why: Why) -> Why
    ensures { IsInMember name.now (members_view object.now.entries) why result }
{
    match number_of(object, name) {
        Some(number) => in_item(number, why),
        None => why,
    }
}

// The reason of the list, whose item of that number, from 0, has this one.
fn in_item(number: usize, why: Why) -> Why
    ensures { IsInItem number why result }
{
    match u16::try_from(number) {
        Ok(number) => why.under(number),
        Err(_) => Why::here(Wanted::Inside),
    }
}

/// What the member of that name was read as, or why the object does not fit.
pub fn told_member<T: Drop>(
    object: &Map<String, Value>,
    name: &str,
    member: Result<T, Misfit>,
) -> Result<T, Misfit>
    ensures ok { IfOk result (λ x. member ≡ Ok x) }
    ensures unfit { IfUnfit result
        (λ why. IsOfMember name.now (members_view object.now.entries) member why) }
{
    match member {
        Ok(value) => Ok(value),
        Err(Misfit::Unfit(why)) => Err(Misfit::Unfit(in_member(object, name, why))),
        Err(Misfit::NoMemory) => Err(Misfit::NoMemory),
    }
}

/// What the item of that number, from 0, was read as, or why the list does not fit.
pub fn told_item<T: Drop>(number: usize, item: Result<T, Misfit>) -> Result<T, Misfit>
    ensures ok { IfOk result (λ x. item ≡ Ok x) }
    ensures unfit { IfUnfit result (λ why. IsOfItem number item why) }
{
    match item {
        Ok(value) => Ok(value),
        Err(Misfit::Unfit(why)) => Err(Misfit::Unfit(in_item(number, why))),
        Err(Misfit::NoMemory) => Err(Misfit::NoMemory),
    }
}

// What was read of a value. Where it does not fit, that is wanted of it as a whole.
pub(crate) fn told_whole<T: Drop>(read: Result<T, Misfit>, wanted: Wanted) -> Result<T, Misfit>
    ensures ok { IfOk result (λ x. read ≡ Ok x) }
    ensures unfit { IfUnfit result (λ _. IsUnfit read) }
    ensures refuses { IfUnfit result
        (λ why. (s : Shape) (d : Data) → Lacks s d wanted → Refuses s d why) }
    ensures whole { IfUnfit result (λ why. IsWhole wanted why) }
{
    match read {
        Ok(x) => Ok(x),
        Err(misfit) => Err(misfit.whole(wanted)),
    }
}
