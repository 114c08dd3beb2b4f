// Members that are read of an object, all in one call: the tests after each `?` of many calls cost the
// prover as much as all that was read before them.
ghost use Rattle.std.specs.Prelude.{◌≡◌, IfOk, true, Some, option_map};
ghost use Rattle.serde_json.specs.Data.{Data, object as object_of};
ghost use Rattle.serde_json.specs.Find.{get};
ghost use Rattle.serde_json.specs.View.{view};
ghost use Rattle.lsp_shape.specs.Object.{read_from};
ghost use Rattle.lsp_shape.specs.Plain.{maybe_of};
ghost use Rattle.lsp_shape.specs.Shape.{Shape, Fields, required, omitted, or_false, truth};
ghost use Rattle.lsp_shape.specs.Shown.{show_bool};
ghost use Rattle.lsp_shape.specs.Read.{read, read_member, read_supported};
ghost use Rattle.lsp_shape.specs.Write.{members_in};
ghost use Rattle.lsp_shape.specs.Why.{Refuses, IfUnfit, HasFlat, suits, fields_of, named_field, named_supported};
ghost use Rattle.lsp_shape.specs.declared.why.Wanted.{Wanted};

use crate::flatten::flat;
use crate::object::Reader;
use crate::why::Misfit;
use crate::wire::Wire;
use serde_json::Value;
use std::alloc::Global;

/// Members of an object, by their names, that are read as that. A tuple of up to six such reads
/// them all.
pub trait Reads<T>: Drop {
    /// They are read so of that value.
    ghost IsRead: { Self → Data → T → Type 0 };

    /// A record has them, as these fields.
    ghost Named: { Self → Fields → Type 0 };

    /// Reads them of the object that the value is. `Unfit` comes only where one does not fit, or is
    /// missing.
    fn read_of(self, alloc: Global, value: &Value, object: Reader) -> Result<T, Misfit>
        requires { view value.now ≡ object_of (read_from object) }
        ensures read { IfOk result (λ x. IsRead self (view value.now) x) }
        ensures unfit { IfUnfit result
            (λ why. (t : Shape) → Named self (fields_of t) → Refuses t (view value.now) why) };
}

/// The member of that name, which has to be there.
#[derive(Clone, Copy)]
pub struct Required<'n>(pub &'n str);

impl<T: Wire> Reads<T> for Required<'_> {
    ghost IsRead = { λ m d x. read_member required (read T.shape) (get m.0.now d)
        ≡ Some (T.shown x) };

    ghost Named = { λ m fs. named_field m.0.now fs ≡ Some (required, T.shape) };

    fn read_of(self, _: Global, _: &Value, object: Reader) -> Result<T, Misfit> {
        object.field(self.0)
    }
}

/// The member of that name, and None where it is missing or null.
#[derive(Clone, Copy)]
pub struct Optional<'n>(pub &'n str);

impl<T: Wire> Reads<Option<T>> for Optional<'_> {
    ghost IsRead = { λ m d x. read_member omitted (read T.shape) (get m.0.now d)
        ≡ Some (maybe_of (option_map T.shown x)) };

    ghost Named = { λ m fs. named_field m.0.now fs ≡ Some (omitted, T.shape) };

    fn read_of(self, _: Global, _: &Value, object: Reader) -> Result<Option<T>, Misfit> {
        object.optional(self.0)
    }
}

/// The same, but false is None too, and true is read as `{"valueSet": []}` is.
#[derive(Clone, Copy)]
pub struct Supported<'n>(pub &'n str);

impl<T: Wire> Reads<Option<T>> for Supported<'_> {
    ghost IsRead = { λ m d x. read_supported (read T.shape) (get m.0.now d)
        ≡ Some (maybe_of (option_map T.shown x)) };

    ghost Named = { λ m fs. named_supported m.0.now fs ≡ Some T.shape };

    fn read_of(self, _: Global, _: &Value, object: Reader) -> Result<Option<T>, Misfit> {
        object.supported(self.0)
    }
}

/// The member of that name, and false where it is missing.
#[derive(Clone, Copy)]
pub struct TruthOrFalse<'n>(pub &'n str);

impl Reads<bool> for TruthOrFalse<'_> {
    ghost IsRead = { λ m d b. read_member or_false (read truth) (get m.0.now d)
        ≡ Some (show_bool b) };

    ghost Named = { λ m fs. named_field m.0.now fs ≡ Some (or_false, truth) };

    fn read_of(self, _: Global, _: &Value, object: Reader) -> Result<bool, Misfit> {
        object.truth_or_false(self.0)
    }
}

/// A type whose members stand among the others.
#[derive(Clone, Copy)]
pub struct Flat;

impl<T: Wire> Reads<T> for Flat {
    ghost IsRead = { λ m d x. read T.shape d ≡ Some (T.shown x) };

    ghost Named = { λ m fs. HasFlat T.shape fs };

    fn read_of(self, alloc: Global, value: &Value, _: Reader) -> Result<T, Misfit> {
        flat(alloc, value)
    }
}

impl<A: Drop, B: Drop, P: Reads<A>, Q: Reads<B>> Reads<(A, B)> for (P, Q) {
    ghost IsRead = { λ m d x. P.IsRead m.0 d x.0 × Q.IsRead m.1 d x.1 };

    ghost Named = { λ m fs. P.Named m.0 fs × Q.Named m.1 fs };

    fn read_of(self, alloc: Global, value: &Value, object: Reader) -> Result<(A, B), Misfit> {
        let (a, b) = self;
        Ok((
            a.read_of(alloc, value, object)?,
            b.read_of(alloc, value, object)?,
        ))
    }
}

impl<A: Drop, B: Drop, C: Drop, P: Reads<A>, Q: Reads<B>, R: Reads<C>> Reads<(A, B, C)>
    for (P, Q, R) {
    ghost IsRead = { λ m d x. P.IsRead m.0 d x.0 × Q.IsRead m.1 d x.1 × R.IsRead m.2 d x.2 };

    ghost Named = { λ m fs. P.Named m.0 fs × Q.Named m.1 fs × R.Named m.2 fs };

    fn read_of(self, alloc: Global, value: &Value, object: Reader) -> Result<(A, B, C), Misfit> {
        let (a, b, c) = self;
        let ((a, b), c) = ((a, b), c).read_of(alloc, value, object)?;
        Ok((a, b, c))
    }
}

impl<A: Drop, B: Drop, C: Drop, D: Drop, P: Reads<A>, Q: Reads<B>, R: Reads<C>, S: Reads<D>> Reads<
    (A, B, C, D),
> for (P, Q, R, S) {
    ghost IsRead = { λ m d x. P.IsRead m.0 d x.0 × Q.IsRead m.1 d x.1 × R.IsRead m.2 d x.2
        × S.IsRead m.3 d x.3 };

    ghost Named = { λ m fs. P.Named m.0 fs × Q.Named m.1 fs × R.Named m.2 fs × S.Named m.3 fs };

    fn read_of(self, alloc: Global, value: &Value, object: Reader) -> Result<(A, B, C, D), Misfit> {
        let (a, b, c, d) = self;
        let ((a, b), (c, d)) = ((a, b), (c, d)).read_of(alloc, value, object)?;
        Ok((a, b, c, d))
    }
}

impl<
    A: Drop,
    B: Drop,
    C: Drop,
    D: Drop,
    E: Drop,
    P: Reads<A>,
    Q: Reads<B>,
    R: Reads<C>,
    S: Reads<D>,
    U: Reads<E>,
> Reads<(A, B, C, D, E)> for (P, Q, R, S, U) {
    ghost IsRead = { λ m d x. P.IsRead m.0 d x.0 × Q.IsRead m.1 d x.1 × R.IsRead m.2 d x.2
        × S.IsRead m.3 d x.3 × U.IsRead m.4 d x.4 };

    ghost Named = { λ m fs. P.Named m.0 fs × Q.Named m.1 fs × R.Named m.2 fs × S.Named m.3 fs
        × U.Named m.4 fs };

    fn read_of(
        self,
        alloc: Global,
        value: &Value,
        object: Reader,
    ) -> Result<(A, B, C, D, E), Misfit> {
        let (a, b, c, d, e) = self;
        let ((a, b, c), (d, e)) = ((a, b, c), (d, e)).read_of(alloc, value, object)?;
        Ok((a, b, c, d, e))
    }
}

impl<
    A: Drop,
    B: Drop,
    C: Drop,
    D: Drop,
    E: Drop,
    F: Drop,
    P: Reads<A>,
    Q: Reads<B>,
    R: Reads<C>,
    S: Reads<D>,
    U: Reads<E>,
    V: Reads<F>,
> Reads<(A, B, C, D, E, F)> for (P, Q, R, S, U, V) {
    ghost IsRead = { λ m d x. P.IsRead m.0 d x.0 × Q.IsRead m.1 d x.1 × R.IsRead m.2 d x.2
        × S.IsRead m.3 d x.3 × U.IsRead m.4 d x.4 × V.IsRead m.5 d x.5 };

    ghost Named = { λ m fs. P.Named m.0 fs × Q.Named m.1 fs × R.Named m.2 fs × S.Named m.3 fs
        × U.Named m.4 fs × V.Named m.5 fs };

    fn read_of(
        self,
        alloc: Global,
        value: &Value,
        object: Reader,
    ) -> Result<(A, B, C, D, E, F), Misfit> {
        let (a, b, c, d, e, f) = self;
        let ((a, b, c), (d, e, f)) = ((a, b, c), (d, e, f)).read_of(alloc, value, object)?;
        Ok((a, b, c, d, e, f))
    }
}

/// What members are read as of the object that the value is. `Unfit` comes only where it is none,
/// or one of them does not fit, or is missing.
pub fn read_object<T: Drop, M: Reads<T>>(
    alloc: Global,
    value: &Value,
    members: M,
) -> Result<T, Misfit>
    ensures object { IfOk result (λ _. view value.now ≡ object_of (members_in (view value.now))) }
    ensures read { IfOk result (λ x. M.IsRead members (view value.now) x) }
    ensures unfit { IfUnfit result
        (λ why. (t : Shape) → suits t Wanted.Object ≡ true → M.Named members (fields_of t)
        → Refuses t (view value.now) why) }
{
    let object = Reader::new(alloc, value)?;
    members.read_of(alloc, value, object)
}
