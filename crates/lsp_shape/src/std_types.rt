// `Wire` of std's types.
ghost use Rattle.std.specs.Prelude.{◌≡◌, option_map, map, IfOk, Some};
ghost use Rattle.serde_json.specs.View.{view, items_view};
ghost use Rattle.serde_json.specs.Data.{array, null, item, no_items};
ghost use Rattle.lsp_shape.specs.Plain.{leaf, parts, parts_of};
ghost use Rattle.lsp_shape.specs.Shape.{nil, truth, any, list, pair, maybe, u8_shape, u32_shape, i32_shape, i64_shape, string_shape, object_shape};
ghost use Rattle.lsp_shape.specs.Read.{read, read_items};
ghost use Rattle.lsp_shape.specs.Why.{Refuses, IfUnfit};
ghost use Rattle.lsp_shape.specs.Shown.{show_bool, show_pair, show_unsigned, show_signed, show_string, show_value, show_option, show_list, show_object};

use crate::why::{Misfit, Wanted, told_item};
use crate::wire::Wire;
use no_memory::NoMemory;
use serde_json::{Map, Value};
use std::alloc::Global;

impl Wire for bool {
    ghost shape = { truth };

    ghost shown = { show_bool };

    fn from_value(_alloc: Global, value: &Value) -> Result<bool, Misfit> {
        match value.as_bool() {
            Some(b) => Ok(b),
            None => Err(Misfit::wanted(Wanted::Boolean)),
        }
    }

    fn to_value(&self, _alloc: Global) -> Result<Value, NoMemory> {
        Ok(Value::Bool(*self))
    }
}

impl Wire for () {
    ghost shape = { nil };

    ghost shown = { λ _. leaf null };

    fn from_value(_alloc: Global, value: &Value) -> Result<(), Misfit> {
        if value.is_null() {
            Ok(())
        } else {
            Err(Misfit::wanted(Wanted::Null))
        }
    }

    fn to_value(&self, _alloc: Global) -> Result<Value, NoMemory> {
        Ok(Value::Null)
    }
}

// The number that the value is, where it is one of a `u8`.
fn u8_of(value: &Value) -> Option<u8>
    ensures { option_map show_unsigned result ≡ read u8_shape (view value.now) }
{
    match value {
        Value::Number(number) => match number.as_u64() {
            Some(n) if n <= u8::MAX as u64 => Some(n as u8),
            _ => None,
        },
        _ => None,
    }
}

impl Wire for u8 {
    ghost shape = { u8_shape };

    ghost shown = { show_unsigned };

    fn from_value(_alloc: Global, value: &Value) -> Result<u8, Misfit> {
        match u8_of(value) {
            Some(n) => Ok(n),
            None => Err(Misfit::wanted(Wanted::Unsigned)),
        }
    }

    fn to_value(&self, _alloc: Global) -> Result<Value, NoMemory> {
        Ok(Value::from(*self))
    }
}

// The number that the value is, where it is one of a `u32`.
fn u32_of(value: &Value) -> Option<u32>
    ensures { option_map show_unsigned result ≡ read u32_shape (view value.now) }
{
    match value {
        Value::Number(number) => match number.as_u64() {
            Some(n) if n <= u32::MAX as u64 => Some(n as u32),
            _ => None,
        },
        _ => None,
    }
}

impl Wire for u32 {
    ghost shape = { u32_shape };

    ghost shown = { show_unsigned };

    fn from_value(_alloc: Global, value: &Value) -> Result<u32, Misfit> {
        match u32_of(value) {
            Some(n) => Ok(n),
            None => Err(Misfit::wanted(Wanted::Unsigned)),
        }
    }

    fn to_value(&self, _alloc: Global) -> Result<Value, NoMemory> {
        Ok(Value::from(*self))
    }
}

// The number that the value is, where it is one of a `i32`.
fn i32_of(value: &Value) -> Option<i32>
    ensures { option_map show_signed result ≡ read i32_shape (view value.now) }
{
    match value {
        Value::Number(number) => match number.as_i64() {
            Some(n) if i32::MIN as i64 <= n && n <= i32::MAX as i64 => Some(n as i32),
            _ => None,
        },
        _ => None,
    }
}

impl Wire for i32 {
    ghost shape = { i32_shape };

    ghost shown = { show_signed };

    fn from_value(_alloc: Global, value: &Value) -> Result<i32, Misfit> {
        match i32_of(value) {
            Some(n) => Ok(n),
            None => Err(Misfit::wanted(Wanted::Integer)),
        }
    }

    fn to_value(&self, _alloc: Global) -> Result<Value, NoMemory> {
        Ok(Value::from(*self))
    }
}

// The number that the value is, where it is one of an `i64`.
fn i64_of(value: &Value) -> Option<i64>
    ensures { option_map show_signed result ≡ read i64_shape (view value.now) }
{
    match value {
        Value::Number(number) => number.as_i64(),
        _ => None,
    }
}

impl Wire for i64 {
    ghost shape = { i64_shape };

    ghost shown = { show_signed };

    fn from_value(_alloc: Global, value: &Value) -> Result<i64, Misfit> {
        match i64_of(value) {
            Some(n) => Ok(n),
            None => Err(Misfit::wanted(Wanted::Integer)),
        }
    }

    fn to_value(&self, _alloc: Global) -> Result<Value, NoMemory> {
        Ok(Value::from(*self))
    }
}

impl Wire for String {
    ghost shape = { string_shape };

    ghost shown = { show_string };

    fn from_value(alloc: Global, value: &Value) -> Result<String, Misfit> {
        match value.as_str() {
            Some(text) => Ok(String::from_str(alloc, text)?),
            None => Err(Misfit::wanted(Wanted::Text)),
        }
    }

    fn to_value(&self, _alloc: Global) -> Result<Value, NoMemory> {
        Ok(Value::String(self.clone()?))
    }
}

impl Wire for Value {
    ghost shape = { any };

    ghost shown = { show_value };

    fn from_value(_alloc: Global, value: &Value) -> Result<Value, Misfit> {
        Ok(value.clone()?)
    }

    fn to_value(&self, _alloc: Global) -> Result<Value, NoMemory> {
        Ok(self.clone()?)
    }
}

impl<T: Wire> Wire for Option<T> {
    ghost shape = { maybe T.shape };

    ghost shown = { show_option T.shown };

    fn from_value(alloc: Global, value: &Value) -> Result<Option<T>, Misfit> {
        if value.is_null() {
            Ok(None)
        } else {
            Ok(Some(T::from_value(alloc, value)?))
        }
    }

    fn to_value(&self, alloc: Global) -> Result<Value, NoMemory> {
        match self {
            None => Ok(Value::Null),
            Some(x) => x.to_value(alloc),
        }
    }
}

impl<T: Wire> Wire for Box<T> {
    ghost shape = { T.shape };

    ghost shown = { λ b. T.shown b.value };

    fn from_value(alloc: Global, value: &Value) -> Result<Box<T>, Misfit> {
        Ok(Box::new(alloc, T::from_value(alloc, value)?)?)
    }

    fn to_value(&self, alloc: Global) -> Result<Value, NoMemory> {
        (**self).to_value(alloc)
    }
}

#[tactic(auto, using(crate::proofs::Items::item_lemmas))]
impl<T: Wire> Wire for Vec<T> {
    ghost shape = { list T.shape };

    ghost shown = { show_list T.shown };

    fn from_value(alloc: Global, value: &Value) -> Result<Vec<T>, Misfit> {
        match value.as_array() {
            Some(items) => read_all(alloc, items),
            None => Err(Misfit::wanted(Wanted::List)),
        }
    }

    fn to_value(&self, alloc: Global) -> Result<Value, NoMemory> {
        let mut items = Vec::with_capacity(alloc, self.len())?;
        for x in self {
            items.push(x.to_value(alloc)?)?;
        }
        Ok(Value::Array(items))
    }
}

// What the items are read as.
#[tactic(auto, using(crate::proofs::Items::item_lemmas))]
fn read_all<T: Wire>(alloc: Global, items: &Vec<Value>) -> Result<Vec<T>, Misfit>
    ensures read { IfOk result
        (λ v. read_items (read T.shape) (items_view items.now.items)
        ≡ Some (parts_of (map T.shown v.items))) }
    ensures unfit { IfUnfit result
        (λ why. Refuses (list T.shape) (array (items_view items.now.items)) why) }
{
    let mut all = Vec::with_capacity(alloc, items.len())?;
    for item in items {
        all.push(told_item(all.len(), T::from_value(alloc, item))?)?;
    }
    Ok(all)
}

// What the items of a list are read as, where they are two.
fn read_pair(alloc: Global, items: &[Value]) -> Result<[u32; 2], Misfit>
    ensures read { IfOk result
        (λ x. read pair (array (items_view items.now)) ≡ Some (show_pair x)) }
    ensures unfit { IfUnfit result (λ why. Refuses pair (array (items_view items.now)) why) }
{
    if items.len() == 2 {
        read_two(alloc, &items[0], &items[1])
    } else {
        Err(Misfit::wanted(Wanted::Length))
    }
}

// What the two items of a list are read as.
fn read_two(alloc: Global, first: &Value, second: &Value) -> Result<[u32; 2], Misfit>
    ensures read { let items = item (view first.now) (item (view second.now) no_items) in
        IfOk result (λ x. read pair (array items) ≡ Some (show_pair x)) }
    ensures unfit { let items = item (view first.now) (item (view second.now) no_items) in
        IfUnfit result (λ why. Refuses pair (array items) why) }
{
    Ok([
        told_item(0, u32::from_value(alloc, first))?,
        told_item(1, u32::from_value(alloc, second))?,
    ])
}

#[tactic(auto, using(crate::proofs::Items::item_lemmas))]
impl Wire for [u32; 2] {
    ghost shape = { pair };

    ghost shown = { show_pair };

    fn from_value(alloc: Global, value: &Value) -> Result<[u32; 2], Misfit> {
        match value.as_array() {
            Some(items) => read_pair(alloc, items.as_slice()),
            None => Err(Misfit::wanted(Wanted::List)),
        }
    }

    fn to_value(&self, alloc: Global) -> Result<Value, NoMemory> {
        let mut items = Vec::with_capacity(alloc, 2)?;
        items.push(Value::from(self[0]))?;
        items.push(Value::from(self[1]))?;
        Ok(Value::Array(items))
    }
}
