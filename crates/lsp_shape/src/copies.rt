// A record that is cloned, field by field. Want of memory is told at the end, as by a `Writer`.
ghost use Rattle.std.specs.Prelude.{◌≡◌, IfOk, OnOk, IsOk, true};
ghost use Rattle.lsp_shape.specs.Clones.{are_whole};

use std::alloc::AllocError;

/// Copies of the fields of a record that may be absent. Want of memory is told at the end: from
/// then on nothing more is copied. `Clone` of a wide record is written by it, since a derived one
/// costs the prover minutes: each of its `?` lets go all that was copied before.
#[derive(Drop)]
pub struct Copies {
    is_whole: bool,
}

impl Copies {
    /// Nothing is copied yet.
    pub fn new() -> Copies
        ensures { are_whole result ≡ true }
    {
        Copies { is_whole: true }
    }

    /// A copy of the field.
    pub fn optional<T: Clone>(&mut self, value: &Option<T>) -> Option<T>
        ensures whole { are_whole self.new ≡ true → are_whole self.old ≡ true }
        ensures copy { are_whole self.new ≡ true
            → ⟦<Option<T> as Clone>⟧.is_clone value.now result }
    {
        if !self.is_whole {
            return None;
        }
        match value.clone() {
            Ok(copy) => copy,
            Err(AllocError) => {
                self.is_whole = false;
                None
            }
        }
    }

    /// The record of the copies. The one error is out of memory, in an earlier call.
    pub fn end<T: Drop>(self, copy: T) -> Result<T, AllocError>
        ensures copy { IfOk result (λ x. x ≡ copy) }
        ensures whole { OnOk result (are_whole self ≡ true) }
        ensures no_memory { are_whole self ≡ true → IsOk result }
    {
        if self.is_whole {
            Ok(copy)
        } else {
            Err(AllocError)
        }
    }
}
