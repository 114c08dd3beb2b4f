// An object that is read, and one that is written. A writer, and the reader of a wide record, tell at
// their end what failed, so that a record with many members is written or read line by line, with no
// test after each.
ghost use Rattle.std.specs.Prelude.{◌≡◌, IfOk, OnOk, IsOk, IsErrOf, true, Some, None, option_map, List, ℕ, map};
ghost use Rattle.serde_json.specs.Data.{object as object_of, put as with_member, no_members, string};
ghost use Rattle.serde_json.specs.Find.{get_member};
ghost use Rattle.serde_json.specs.View.{view};
ghost use Rattle.lsp_shape.specs.Object.{read_from, members_of, misfit_of, Takes, written_to, is_whole, Puts};
ghost use Rattle.lsp_shape.specs.Plain.{maybe_of, entries_of};
ghost use Rattle.lsp_shape.specs.Shape.{Shape, required, omitted, or_empty, or_false, list, truth, unless_empty, unless_false};
ghost use Rattle.lsp_shape.specs.Shown.{show_list, show_bool};
ghost use Rattle.lsp_shape.specs.Read.{read, read_member, read_supported, read_entries};
ghost use Rattle.lsp_shape.specs.Write.{write, write_member, write_maybe, put_present, put_all, members_in};
ghost use Rattle.lsp_shape.specs.Values.{is_of, is_maybe};
ghost use Rattle.lsp_shape.specs.Why.{Refuses, IfUnfit, IsUnfit, suits, fields_of, named_field, named_supported, IsMapBeside, one_field, one_supported};
ghost use Rattle.lsp_shape.specs.declared.why.Misfit.TheVariants as misfits;

use crate::map::{self, Key};
use crate::why::{Misfit, Wanted};
use crate::wire::Wire;
use crate::{flatten, member};
use no_memory::NoMemory;
use serde_json::{Map, Value};
use std::alloc::Global;
use std::collections::HashMap;

/// An object that is read, member by member. A member that does not fit, or is missing, is `Unfit`.
#[derive(Clone, Copy)]
pub struct Reader<'v> {
    alloc: Global,
    object: &'v Map<String, Value>,
}

impl<'v> Reader<'v> {
    /// The members of the object that the value is. `Unfit` comes only where it is none.
    pub fn new(alloc: Global, value: &'v Value) -> Result<Reader<'v>, Misfit>
        ensures ok { IfOk result (λ r. view value.now ≡ object_of (read_from r)) }
        ensures unfit { IfUnfit result
            (λ why. (t : Shape) → suits t Wanted.Object ≡ true → Refuses t (view value.now) why) }
    {
        match value.as_object() {
            Some(object) => Ok(Reader { alloc, object }),
            None => Err(Misfit::wanted(Wanted::Object)),
        }
    }

    /// The member of that name.
    pub fn field<T: Wire>(&self, name: &str) -> Result<T, Misfit>
        ensures read { IfOk result
            (λ x. read_member required (read T.shape) (get_member name.now (read_from self.now))
            ≡ Some (T.shown x)) }
        ensures unfit { IfUnfit result
            (λ why. (t : Shape) → named_field name.now (fields_of t) ≡ Some (required, T.shape)
            → Refuses t (object_of (read_from self.now)) why) }
        ensures missing { get_member name.now (read_from self.now) ≡ None
            → IsUnfit result }
    {
        member::field(self.alloc, self.object, name)
    }

    /// The member of that name, and None where it is missing or null.
    pub fn optional<T: Wire>(&self, name: &str) -> Result<Option<T>, Misfit>
        ensures read { IfOk result
            (λ o. read_member omitted (read T.shape) (get_member name.now (read_from self.now))
            ≡ Some (maybe_of (option_map T.shown o))) }
        ensures alone { IfUnfit result
            (λ why. Refuses (one_field name.now omitted T.shape) (object_of (read_from self.now)) why) }
        ensures unfit { IfUnfit result
            (λ why. (t : Shape) → named_field name.now (fields_of t) ≡ Some (omitted, T.shape)
            → Refuses t (object_of (read_from self.now)) why) }
    {
        member::optional(self.alloc, self.object, name)
    }

    /// The same, but false is None too, and true is read as `{"valueSet": []}` is.
    pub fn supported<T: Wire>(&self, name: &str) -> Result<Option<T>, Misfit>
        ensures read { IfOk result
            (λ o. read_supported (read T.shape) (get_member name.now (read_from self.now))
            ≡ Some (maybe_of (option_map T.shown o))) }
        ensures alone { IfUnfit result
            (λ why. Refuses (one_supported name.now T.shape) (object_of (read_from self.now)) why) }
        ensures unfit { IfUnfit result
            (λ why. (t : Shape) → named_supported name.now (fields_of t) ≡ Some T.shape
            → Refuses t (object_of (read_from self.now)) why) }
    {
        member::supported(self.alloc, self.object, name)
    }

    /// The member of that name, and an empty list where it is missing.
    pub fn list_or_empty<T: Wire>(&self, name: &str) -> Result<Vec<T>, Misfit>
        ensures read { IfOk result
            (λ x. read_member or_empty (read (list T.shape))
            (get_member name.now (read_from self.now)) ≡ Some (show_list T.shown x)) }
        ensures unfit { IfUnfit result
            (λ why. (t : Shape) → named_field name.now (fields_of t) ≡ Some (or_empty, (list T.shape))
            → Refuses t (object_of (read_from self.now)) why) }
    {
        member::list_or_empty(self.alloc, self.object, name)
    }

    /// The member of that name, and false where it is missing.
    pub fn truth_or_false(&self, name: &str) -> Result<bool, Misfit>
        ensures read { IfOk result
            (λ b. read_member or_false (read truth) (get_member name.now (read_from self.now))
            ≡ Some (show_bool b)) }
        ensures unfit { IfUnfit result
            (λ why. (t : Shape) → named_field name.now (fields_of t) ≡ Some (or_false, truth)
            → Refuses t (object_of (read_from self.now)) why) }
    {
        member::truth_or_false(self.alloc, self.object, name)
    }

    /// The members that are not named, as a map.
    pub fn rest<K: Key, T: Wire>(&self, names: &[&str]) -> Result<HashMap<K, T>, Misfit>
        ensures read { IfOk result
            (λ m. read_entries (map (λ n. n.now) names.now) K.is_key (read T.shape)
            (read_from self.now) ≡ Some (entries_of K.key_text T.shown m.entries)) }
        ensures unfit { IfUnfit result
            (λ why. (t : Shape) → IsMapBeside T.shape (map (λ n. n.now) names.now) t
            → ((k : List ℕ) → K.is_key k ≡ true) → Refuses t (object_of (read_from self.now)) why) }
    {
        map::rest(self.alloc, self.object, names)
    }
}

/// The object of a wide record that is read, member by member. A member that has to be there is
/// `Unfit` at once where it is missing or does not fit. The first misfit of the others is told at
/// the end: from then on nothing more is read of them. So each of them is a line, with no test
/// after it: the tests of a `Reader` cost the prover as much as all that was read before them.
#[derive(Drop)]
pub struct WideReader<'v> {
    object: Reader<'v>,
    misfit: Option<Misfit>,
}

impl<'v> WideReader<'v> {
    /// The members of the object that the value is. `Unfit` comes only where it is none.
    pub fn new(alloc: Global, value: &'v Value) -> Result<WideReader<'v>, Misfit>
        ensures ok { IfOk result (λ r. view value.now ≡ object_of (members_of r)) }
        ensures fits { IfOk result (λ r. misfit_of r ≡ None) }
        ensures unfit { IfUnfit result
            (λ why. (t : Shape) → suits t Wanted.Object ≡ true → Refuses t (view value.now) why) }
    {
        Ok(WideReader {
            object: Reader::new(alloc, value)?,
            misfit: None,
        })
    }

    /// The member of that name.
    pub fn field<T: Wire>(&self, name: &str) -> Result<T, Misfit>
        ensures read { IfOk result
            (λ x. read_member required (read T.shape) (get_member name.now (members_of self.now))
            ≡ Some (T.shown x)) }
        ensures unfit { IfUnfit result
            (λ why. (t : Shape) → named_field name.now (fields_of t) ≡ Some (required, T.shape)
            → Refuses t (object_of (members_of self.now)) why) }
        ensures missing { get_member name.now (members_of self.now) ≡ None
            → IsUnfit result }
    {
        self.object.field(name)
    }

    /// The member of that name, and None where it is missing or null.
    pub fn optional<T: Wire>(&mut self, name: &str) -> Option<T>
        ensures { Takes self.old self.new
            (one_field name.now omitted T.shape)
            (read_member omitted (read T.shape) (get_member name.now (members_of self.old)))
            (maybe_of (option_map T.shown result)) }
    {
        if self.misfit.is_some() {
            return None;
        }
        match self.object.optional(name) {
            Ok(value) => value,
            Err(misfit) => {
                self.misfit = Some(misfit);
                None
            }
        }
    }

    /// The same, but false is None too, and true is read as `{"valueSet": []}` is.
    pub fn supported<T: Wire>(&mut self, name: &str) -> Option<T>
        ensures { Takes self.old self.new
            (one_supported name.now T.shape)
            (read_supported (read T.shape) (get_member name.now (members_of self.old)))
            (maybe_of (option_map T.shown result)) }
    {
        if self.misfit.is_some() {
            return None;
        }
        match self.object.supported(name) {
            Ok(value) => value,
            Err(misfit) => {
                self.misfit = Some(misfit);
                None
            }
        }
    }

    /// What was read of the object, or the first misfit that was met.
    pub fn end<T: Drop>(self, read: T) -> Result<T, Misfit>
        ensures value { IfOk result (λ x. x ≡ read) }
        ensures fits { OnOk result (misfit_of self.entry ≡ None) }
        ensures unfit { IfUnfit result (λ why. misfit_of self.entry ≡ Some (misfits.Unfit why)) }
        ensures no_memory { IsErrOf result Misfit.NoMemory
            → misfit_of self.entry ≡ Some Misfit.NoMemory }
    {
        match self.misfit {
            None => Ok(read),
            Some(misfit) => Err(misfit),
        }
    }
}

/// An object that is written, member by member. Want of memory is told at the end: from then on
/// nothing more is written.
#[derive(Drop)]
pub struct Writer {
    alloc: Global,
    object: Map<String, Value>,
    is_whole: bool,
}

impl Writer {
    /// An object with no member.
    pub fn new(alloc: Global) -> Writer
        ensures empty { written_to result ≡ no_members }
        ensures whole { is_whole result ≡ true }
    {
        Writer {
            alloc,
            object: Map::new(alloc),
            is_whole: true,
        }
    }

    /// The members of what is written for the value.
    pub fn with_rest<T: Wire>(alloc: Global, value: &T) -> Writer
        ensures written { is_whole result ≡ true
            → written_to result ≡ members_in (write T.shape (T.shown value.now)) }
        ensures of_shape { is_whole result ≡ true → is_of T.shape (T.shown value.now) ≡ true }
    {
        match flatten::members_written(alloc, value) {
            Ok(object) => Writer {
                alloc,
                object,
                is_whole: true,
            },
            Err(NoMemory) => Writer {
                alloc,
                object: Map::new(alloc),
                is_whole: false,
            },
        }
    }

    /// Makes the member of that name the value.
    pub fn field<T: Wire>(&mut self, name: &str, value: &T)
        ensures { Puts self.old self.new
            (with_member name.now (write T.shape (T.shown value.now)) (written_to self.old))
            (is_of T.shape (T.shown value.now)) }
    {
        if self.is_whole {
            self.is_whole = member::put(self.alloc, &mut self.object, name, value).is_ok();
        }
    }

    /// The same for Some. None is left out.
    pub fn optional<T: Wire>(&mut self, name: &str, value: &Option<T>)
        ensures { Puts self.old self.new
            (put_present name.now (write T.shape) (maybe_of (option_map T.shown value.now))
            (written_to self.old))
            (is_maybe (is_of T.shape) (maybe_of (option_map T.shown value.now))) }
    {
        if self.is_whole {
            self.is_whole = member::put_optional(self.alloc, &mut self.object, name, value).is_ok();
        }
    }

    /// The same for Some. None is null.
    pub fn nullable<T: Wire>(&mut self, name: &str, value: &Option<T>)
        ensures { Puts self.old self.new
            (with_member name.now
            (write_maybe (write T.shape) (maybe_of (option_map T.shown value.now)))
            (written_to self.old))
            (is_maybe (is_of T.shape) (maybe_of (option_map T.shown value.now))) }
    {
        if self.is_whole {
            self.is_whole = member::put_nullable(self.alloc, &mut self.object, name, value).is_ok();
        }
    }

    /// The same for a list. An empty one is left out.
    pub fn unless_empty<T: Wire>(&mut self, name: &str, value: &Vec<T>)
        ensures { Puts self.old self.new
            (write_member name.now unless_empty (write (list T.shape)) (show_list T.shown value.now)
            (written_to self.old))
            (is_of (list T.shape) (show_list T.shown value.now)) }
    {
        if self.is_whole {
            self.is_whole = member::put_unless_empty(
                self.alloc,
                &mut self.object,
                name,
                value,
            ).is_ok();
        }
    }

    /// The same for true. False is left out.
    pub fn unless_false(&mut self, name: &str, value: bool)
        ensures { Puts self.old self.new
            (write_member name.now unless_false (write truth) (show_bool value)
            (written_to self.old))
            true }
    {
        if self.is_whole {
            self.is_whole = member::put_unless_false(
                self.alloc,
                &mut self.object,
                name,
                value,
            ).is_ok();
        }
    }

    /// Puts each member of what is written for the value.
    pub fn flat<T: Wire>(&mut self, value: &T)
        ensures { Puts self.old self.new
            (put_all (members_in (write T.shape (T.shown value.now))) (written_to self.old))
            (is_of T.shape (T.shown value.now)) }
    {
        if self.is_whole {
            self.is_whole = flatten::put_flat(self.alloc, &mut self.object, value).is_ok();
        }
    }

    /// Makes the member of that name the text, which tells a variant.
    pub fn tag(&mut self, name: &str, text: &str)
        ensures { Puts self.old self.new
            (with_member name.now (string text.now) (written_to self.old)) true }
    {
        if self.is_whole {
            self.is_whole = member::put_text(self.alloc, &mut self.object, name, text).is_ok();
        }
    }

    /// The object. The one error is out of memory, in this call or an earlier one.
    pub fn end(self) -> Result<Value, NoMemory>
        ensures whole { OnOk result (is_whole self ≡ true) }
        ensures written { IfOk result (λ v. view v ≡ object_of (written_to self)) }
        ensures no_memory { is_whole self ≡ true → IsOk result }
    {
        if self.is_whole {
            Ok(Value::Object(self.object))
        } else {
            Err(NoMemory)
        }
    }
}
