// Values whose members stand among others, and values that are told apart by how they are written.
ghost use Rattle.std.specs.Prelude.{◌≡◌, IfOk, OnOk, true, Some, None, option_map, option_and_then};
ghost use Rattle.serde_json.specs.Data.{Data, object as object_of, put as with_member, string};
ghost use Rattle.serde_json.specs.Find.{get, as_str};
ghost use Rattle.serde_json.specs.View.{view, members_view};
ghost use Rattle.lsp_shape.specs.Read.{read};
ghost use Rattle.lsp_shape.specs.Shape.{Shape};
ghost use Rattle.lsp_shape.specs.Write.{write, put_all, members_in};
ghost use Rattle.lsp_shape.specs.Values.{is_of};
ghost use Rattle.lsp_shape.specs.Why.{Refuses, Lacks, IfUnfit, IsUnfit, HasFlat, fields_of};

use crate::member::put_value;
use crate::why::{Misfit, Wanted, told_whole};
use crate::wire::Wire;
use no_memory::NoMemory;
use serde_json::{Map, Value};
use std::alloc::Global;

/// The value read as this type, or none where it does not fit.
pub fn attempt<T: Wire>(alloc: Global, value: &Value) -> Result<Option<T>, NoMemory>
    ensures { IfOk result (λ o. read T.shape (view value.now) ≡ option_map T.shown o) }
{
    match T::from_value(alloc, value) {
        Ok(x) => Ok(Some(x)),
        Err(Misfit::Unfit(_)) => Ok(None),
        Err(Misfit::NoMemory) => Err(NoMemory),
    }
}

/// The value read as this type, which is one of several. Where it does not fit, one of several
/// forms is wanted of it as a whole.
pub fn form<T: Wire>(alloc: Global, value: &Value) -> Result<T, Misfit>
    ensures read { IfOk result (λ x. read T.shape (view value.now) ≡ Some (T.shown x)) }
    ensures unfit { IfUnfit result (λ why. read T.shape (view value.now) ≡ None) }
    ensures refuses { IfUnfit result
        (λ why. (s : Shape) (d : Data) → Lacks s d Wanted.Form → Refuses s d why) }
{
    as_form(T::from_value(alloc, value))
}

/// What was read of a value as one of several forms. Where it does not fit, one of these is wanted
/// of it as a whole.
pub fn as_form<T: Drop>(read: Result<T, Misfit>) -> Result<T, Misfit>
    ensures ok { IfOk result (λ x. read ≡ Ok x) }
    ensures unfit { IfUnfit result (λ _. IsUnfit read) }
    ensures refuses { IfUnfit result
        (λ why. (s : Shape) (d : Data) → Lacks s d Wanted.Form → Refuses s d why) }
{
    told_whole(read, Wanted::Form)
}

/// The value read as a type whose members stand among those of another.
pub fn flat<T: Wire>(alloc: Global, value: &Value) -> Result<T, Misfit>
    ensures read { IfOk result (λ x. read T.shape (view value.now) ≡ Some (T.shown x)) }
    ensures unfit { IfUnfit result
        (λ why. (t : Shape) → HasFlat T.shape (fields_of t) → Refuses t (view value.now) why) }
{
    T::from_value(alloc, value)
}

fn put_each(object: &mut Map<String, Value>, members: Map<String, Value>) -> Result<(), NoMemory>
    ensures { OnOk result
        (members_view object.new.entries
        ≡ put_all (members_view members.entries) (members_view object.old.entries)) }
{
    for (name, member) in members {
        drop(object.insert(name, member)?);
    }
    Ok(())
}

fn members_of(alloc: Global, value: Value) -> Map<String, Value>
    ensures { members_view result.entries ≡ members_in (view value) }
{
    match value {
        Value::Object(members) => members,
        _ => Map::new(alloc),
    }
}

/// The members of what is written for the value.
pub fn members_written<T: Wire>(alloc: Global, value: &T) -> Result<Map<String, Value>, NoMemory>
    ensures written { IfOk result
        (λ m. members_view m.entries ≡ members_in (write T.shape (T.shown value.now))) }
    ensures of_shape { OnOk result (is_of T.shape (T.shown value.now) ≡ true) }
{
    Ok(members_of(alloc, value.to_value(alloc)?))
}

/// Puts each member of what is written for the value. After `NoMemory` the object may have some of
/// them.
pub fn put_flat<T: Wire>(
    alloc: Global,
    object: &mut Map<String, Value>,
    value: &T,
) -> Result<(), NoMemory>
    ensures written { OnOk result
        (members_view object.new.entries
        ≡ put_all (members_in (write T.shape (T.shown value.now)))
        (members_view object.old.entries)) }
    ensures of_shape { OnOk result (is_of T.shape (T.shown value.now) ≡ true) }
{
    put_each(object, members_of(alloc, value.to_value(alloc)?))
}

/// The text of the member of that name, where it is one.
pub fn tag<'v>(value: &'v Value, name: &str) -> Option<&'v str>
    ensures { option_map (λ s. s.now) result
        ≡ option_and_then as_str (get name.now (view value.now)) }
{
    value.get(name)?.as_str()
}

/// What is written for the value, with a text as the member of that name.
pub fn put_tag<T: Wire>(alloc: Global, tag: &str, name: &str, value: &T) -> Result<Value, NoMemory>
    ensures written { IfOk result
        (λ v. view v
        ≡ object_of (with_member tag.now (string name.now)
        (members_in (write T.shape (T.shown value.now))))) }
    ensures of_shape { OnOk result (is_of T.shape (T.shown value.now) ≡ true) }
{
    let mut object = members_of(alloc, value.to_value(alloc)?);
    let text = Value::try_from_str(alloc, name)?;
    put_value(alloc, &mut object, tag, text)?;
    Ok(Value::Object(object))
}
