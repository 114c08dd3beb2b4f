// Members of an object, read and written.
ghost use Rattle.std.specs.Prelude.{◌≡◌, IfOk, OnOk, OnErr, true, Some, None, option_map};
ghost use Rattle.serde_json.specs.Data.{object as object_of, put as with_member, string};
ghost use Rattle.serde_json.specs.Find.{get_member};
ghost use Rattle.serde_json.specs.View.{view, members_view};
ghost use Rattle.lsp_shape.specs.Plain.{maybe_of};
ghost use Rattle.lsp_shape.specs.Shape.{Shape, required, omitted, or_empty, or_false, list, truth};
ghost use Rattle.lsp_shape.specs.Shown.{show_list, show_bool};
ghost use Rattle.lsp_shape.specs.Read.{read, read_member, read_supported, read_or_truth, or_absent, empty_set};
ghost use Rattle.lsp_shape.specs.Write.{write, write_member, write_maybe, put_present};
ghost use Rattle.lsp_shape.specs.Shape.{unless_empty, unless_false};
ghost use Rattle.lsp_shape.specs.Values.{is_of, is_maybe};
ghost use Rattle.lsp_shape.specs.Why.{Refuses, Fails, IfUnfit, IsUnfit, IsWhole, fields_of, named_field, named_supported, one_field, one_supported};

use crate::why::{Misfit, Wanted, told_member, told_whole};
use crate::wire::Wire;
use no_memory::NoMemory;
use serde_json::{Map, Value};
use std::alloc::Global;

/// The member of that name.
pub fn find<'v>(object: &'v Map<String, Value>, name: &str) -> Option<&'v Value>
    ensures { option_map (λ v. view v.now) result
        ≡ get_member name.now (members_view object.now.entries) }
{
    object.get(name)
}

/// What the member of that name is read as. `Unfit` comes wherever it is missing.
pub fn field<T: Wire>(alloc: Global, object: &Map<String, Value>, name: &str) -> Result<T, Misfit>
    ensures read { IfOk result
        (λ x. read_member required (read T.shape)
        (get_member name.now (members_view object.now.entries)) ≡ Some (T.shown x)) }
    ensures unfit { IfUnfit result
        (λ why. (t : Shape) → named_field name.now (fields_of t) ≡ Some (required, T.shape)
        → Refuses t (object_of (members_view object.now.entries)) why) }
    ensures missing { get_member name.now (members_view object.now.entries) ≡ None
        → IsUnfit result }
{
    match find(object, name) {
        Some(value) => told_member(object, name, T::from_value(alloc, value)),
        None => Err(Misfit::wanted(Wanted::member(name))),
    }
}

/// What the member of that name is read as, where it is there and not null.
pub fn optional<T: Wire>(
    alloc: Global,
    object: &Map<String, Value>,
    name: &str,
) -> Result<Option<T>, Misfit>
    ensures read { IfOk result
        (λ o. read_member omitted (read T.shape)
        (get_member name.now (members_view object.now.entries))
        ≡ Some (maybe_of (option_map T.shown o))) }
    ensures alone { IfUnfit result
        (λ why. Refuses (one_field name.now omitted T.shape)
        (object_of (members_view object.now.entries)) why) }
    ensures unfit { IfUnfit result
        (λ why. (t : Shape) → named_field name.now (fields_of t) ≡ Some (omitted, T.shape)
        → Refuses t (object_of (members_view object.now.entries)) why) }
{
    match find(object, name) {
        Some(value) => told_member(object, name, Option::<T>::from_value(alloc, value)),
        None => Ok(None),
    }
}

/// What the member of that name is read as, where it is there, and not null or false. True is read
/// as `{"valueSet": []}` is.
pub fn supported<T: Wire>(
    alloc: Global,
    object: &Map<String, Value>,
    name: &str,
) -> Result<Option<T>, Misfit>
    ensures read { IfOk result
        (λ o. read_supported (read T.shape) (get_member name.now (members_view object.now.entries))
        ≡ Some (maybe_of (option_map T.shown o))) }
    ensures alone { IfUnfit result
        (λ why. Refuses (one_supported name.now T.shape)
        (object_of (members_view object.now.entries)) why) }
    ensures unfit { IfUnfit result
        (λ why. (t : Shape) → named_supported name.now (fields_of t) ≡ Some T.shape
        → Refuses t (object_of (members_view object.now.entries)) why) }
{
    match find(object, name) {
        Some(value) => told_member(object, name, supported_value(alloc, value)),
        None => Ok(None),
    }
}

// What the value is read as, where it may be null, true or false too.
fn supported_value<T: Wire>(alloc: Global, value: &Value) -> Result<Option<T>, Misfit>
    ensures read { IfOk result
        (λ o. read_or_truth (read T.shape) (view value.now)
        ≡ Some (maybe_of (option_map T.shown o))) }
    ensures unfit { IfUnfit result
        (λ why. Fails (read_or_truth (read T.shape)) (view value.now) why) }
{
    match value.as_bool() {
        Some(is_supported) => truth_supported(alloc, is_supported),
        None => Option::<T>::from_value(alloc, value),
    }
}

// What false is read as, and true.
fn truth_supported<T: Wire>(alloc: Global, is_supported: bool) -> Result<Option<T>, Misfit>
    ensures read { IfOk result
        (λ o. or_absent is_supported (read T.shape) ≡ Some (maybe_of (option_map T.shown o))) }
    ensures unfit { IfUnfit result (λ why. or_absent is_supported (read T.shape) ≡ None) }
    ensures whole { IfUnfit result (λ why. IsWhole Wanted.Form why) }
{
    if is_supported {
        set_supported(alloc)
    } else {
        Ok(None)
    }
}

// What true is read as.
fn set_supported<T: Wire>(alloc: Global) -> Result<Option<T>, Misfit>
    ensures read { IfOk result
        (λ o. or_absent true (read T.shape) ≡ Some (maybe_of (option_map T.shown o))) }
    ensures unfit { IfUnfit result (λ why. or_absent true (read T.shape) ≡ None) }
    ensures whole { IfUnfit result (λ why. IsWhole Wanted.Form why) }
{
    let set = empty_value_set(alloc)?;
    Ok(Some(told_whole(T::from_value(alloc, &set), Wanted::Form)?))
}

fn empty_value_set(alloc: Global) -> Result<Value, NoMemory>
    ensures { IfOk result (λ v. view v ≡ empty_set) }
{
    let mut object = Map::new(alloc);
    put_value(
        alloc,
        &mut object,
        "valueSet",
        Value::Array(Vec::new(alloc)),
    )?;
    Ok(Value::Object(object))
}

/// What the member of that name is read as, and an empty list where it is missing.
pub fn list_or_empty<T: Wire>(
    alloc: Global,
    object: &Map<String, Value>,
    name: &str,
) -> Result<Vec<T>, Misfit>
    ensures read { IfOk result
        (λ x. read_member or_empty (read (list T.shape))
        (get_member name.now (members_view object.now.entries)) ≡ Some (show_list T.shown x)) }
    ensures unfit { IfUnfit result
        (λ why. (t : Shape) → named_field name.now (fields_of t) ≡ Some (or_empty, (list T.shape))
        → Refuses t (object_of (members_view object.now.entries)) why) }
{
    match find(object, name) {
        Some(value) => told_member(object, name, Vec::<T>::from_value(alloc, value)),
        None => Ok(Vec::new(alloc)),
    }
}

/// What the member of that name is read as, and false where it is missing.
pub fn truth_or_false(
    alloc: Global,
    object: &Map<String, Value>,
    name: &str,
) -> Result<bool, Misfit>
    ensures read { IfOk result
        (λ b. read_member or_false (read truth)
        (get_member name.now (members_view object.now.entries)) ≡ Some (show_bool b)) }
    ensures unfit { IfUnfit result
        (λ why. (t : Shape) → named_field name.now (fields_of t) ≡ Some (or_false, truth)
        → Refuses t (object_of (members_view object.now.entries)) why) }
{
    match find(object, name) {
        Some(value) => told_member(object, name, bool::from_value(alloc, value)),
        None => Ok(false),
    }
}

/// Makes the member of that name the value.
pub fn put_value(
    alloc: Global,
    object: &mut Map<String, Value>,
    name: &str,
    value: Value,
) -> Result<(), NoMemory>
    ensures ok { OnOk result
        (members_view object.new.entries
        ≡ with_member name.now (view value) (members_view object.old.entries)) }
    ensures err { OnErr result (object.new.entries ≡ object.old.entries) }
{
    Ok(serde_json::put(object, alloc, name, value)?)
}

/// Makes the member of that name the text.
pub fn put_text(
    alloc: Global,
    object: &mut Map<String, Value>,
    name: &str,
    text: &str,
) -> Result<(), NoMemory>
    ensures ok { OnOk result
        (members_view object.new.entries
        ≡ with_member name.now (string text.now) (members_view object.old.entries)) }
    ensures err { OnErr result (object.new.entries ≡ object.old.entries) }
{
    let text = Value::try_from_str(alloc, text)?;
    put_value(alloc, object, name, text)
}

/// Makes the member of that name what is written for the value.
pub fn put<T: Wire>(
    alloc: Global,
    object: &mut Map<String, Value>,
    name: &str,
    value: &T,
) -> Result<(), NoMemory>
    ensures ok { OnOk result
        (members_view object.new.entries
        ≡ with_member name.now (write T.shape (T.shown value.now))
        (members_view object.old.entries)) }
    ensures of_shape { OnOk result (is_of T.shape (T.shown value.now) ≡ true) }
    ensures err { OnErr result (object.new.entries ≡ object.old.entries) }
{
    let member = value.to_value(alloc)?;
    put_value(alloc, object, name, member)
}

/// The same for Some. None leaves the object as it was.
pub fn put_optional<T: Wire>(
    alloc: Global,
    object: &mut Map<String, Value>,
    name: &str,
    value: &Option<T>,
) -> Result<(), NoMemory>
    ensures ok { OnOk result
        (members_view object.new.entries
        ≡ put_present name.now (write T.shape) (maybe_of (option_map T.shown value.now))
        (members_view object.old.entries)) }
    ensures of_shape { OnOk result
        (is_maybe (is_of T.shape) (maybe_of (option_map T.shown value.now)) ≡ true) }
    ensures err { OnErr result (object.new.entries ≡ object.old.entries) }
{
    match value {
        Some(x) => put(alloc, object, name, x),
        None => Ok(()),
    }
}

/// The same for Some. None makes the member null.
pub fn put_nullable<T: Wire>(
    alloc: Global,
    object: &mut Map<String, Value>,
    name: &str,
    value: &Option<T>,
) -> Result<(), NoMemory>
    ensures ok { OnOk result
        (members_view object.new.entries
        ≡ with_member name.now
        (write_maybe (write T.shape) (maybe_of (option_map T.shown value.now)))
        (members_view object.old.entries)) }
    ensures of_shape { OnOk result
        (is_maybe (is_of T.shape) (maybe_of (option_map T.shown value.now)) ≡ true) }
    ensures err { OnErr result (object.new.entries ≡ object.old.entries) }
{
    let member = value.to_value(alloc)?;
    put_value(alloc, object, name, member)
}

/// The same, but an empty list leaves the object as it was.
pub fn put_unless_empty<T: Wire>(
    alloc: Global,
    object: &mut Map<String, Value>,
    name: &str,
    value: &Vec<T>,
) -> Result<(), NoMemory>
    ensures ok { OnOk result
        (members_view object.new.entries
        ≡ write_member name.now unless_empty (write (list T.shape)) (show_list T.shown value.now)
        (members_view object.old.entries)) }
    ensures of_shape { OnOk result (is_of (list T.shape) (show_list T.shown value.now) ≡ true) }
    ensures err { OnErr result (object.new.entries ≡ object.old.entries) }
{
    if value.is_empty() {
        Ok(())
    } else {
        put(alloc, object, name, value)
    }
}

/// Makes the member of that name true, or leaves the object as it was.
pub fn put_unless_false(
    alloc: Global,
    object: &mut Map<String, Value>,
    name: &str,
    value: bool,
) -> Result<(), NoMemory>
    ensures ok { OnOk result
        (members_view object.new.entries
        ≡ write_member name.now unless_false (write truth) (show_bool value)
        (members_view object.old.entries)) }
    ensures err { OnErr result (object.new.entries ≡ object.old.entries) }
{
    if value {
        put(alloc, object, name, &value)
    } else {
        Ok(())
    }
}
