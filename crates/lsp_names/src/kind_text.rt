// The text of a kind: a known name, or any other text.
ghost use Rattle.std.specs.Prelude.{◌≡◌, ℕ, List, IfOk, Some, string_bytes, bytes_eq, refl};
ghost use Rattle.std.specs.Ordering.{nat_cmp};
ghost use Rattle.std.specs.Hash as fed;
ghost use Rattle.std.specs.Cmp.{partial_equiv_from_equiv};
ghost use Rattle.std.specs.Cmp.Lexicographic.{slice_cmp, nat_list_eq_equiv, nat_list_cmp_total, texts_ties, texts_po};
ghost use Rattle.std.specs.Cmp.Rules.{hashing};
ghost use Rattle.std.proofs.Common.{rules};

use no_memory::NoMemory;
use std::alloc::{AllocError, Global};
use std::borrow::CowStr;
use std::cmp::Ordering;
use std::fmt;
use std::hash::{Hash, Hasher};
use std::marker::Model;

// Two are compared, ordered and hashed as their texts are, and shown as them.
#[derive(Drop)]
pub(crate) struct KindText {
    text: CowStr<'static, Global>,
}

impl Model for KindText {
    ghost use Rattle.std.specs.Prelude.{ℕ, List};
    ghost use Rattle.std.specs.Cow.{cow_str_bytes};

    ghost Value = { List ℕ };

    ghost view = { λ k. cow_str_bytes k.text };
}

impl KindText {
    // One of the names that LSP knows. It takes no memory.
    pub(crate) fn known(name: &'static str) -> KindText
        ensures { result ≡ name.now }
    {
        KindText {
            text: CowStr::Borrowed(name),
        }
    }

    pub(crate) fn new(alloc: Global, text: &str) -> Result<KindText, NoMemory>
        ensures { IfOk result (λ k. k ≡ text.now) }
    {
        Ok(KindText::from(String::from_str(alloc, text)?))
    }

    pub(crate) fn as_str(&self) -> &str
        ensures { result.now ≡ self.now }
    {
        self.text.as_str()
    }
}

impl From<String> for KindText {
    ghost from_gives = { λ text k. k ≡ string_bytes text };

    fn from(text: String) -> KindText {
        KindText {
            text: CowStr::Owned(text),
        }
    }
}

impl Clone for KindText {
    ghost is_clone = { λ k copy. copy ≡ k };

    fn clone(&self) -> Result<KindText, AllocError> {
        Ok(KindText {
            text: self.text.clone()?,
        })
    }
}

impl PartialEq for KindText {
    ghost eq = { bytes_eq };

    ghost laws = { partial_equiv_from_equiv nat_list_eq_equiv };

    fn eq(&self, other: &KindText) -> bool {
        self.as_str() == other.as_str()
    }
}

impl Eq for KindText {
    ghost laws = { nat_list_eq_equiv };
}

impl PartialOrd for KindText {
    ghost partial_cmp = { λ a b. Some (slice_cmp nat_cmp a b) };

    ghost laws = { texts_po };

    fn partial_cmp(&self, other: &KindText) -> Option<Ordering> {
        Some(self.cmp(other))
    }
}

impl Ord for KindText {
    ghost cmp = { slice_cmp nat_cmp };

    ghost total = { nat_list_cmp_total };

    ghost matches_partial_cmp = { λ a b. refl };

    ghost matches_eq = { texts_ties };

    fn cmp(&self, other: &KindText) -> Ordering {
        self.as_str().cmp(other.as_str())
    }
}

impl Hash for KindText {
    ghost hash_input = { fed.str };

    ghost respects_eq = { Prim.search (hashing, rules) };

    fn hash<H: Hasher>(&self, state: &mut H) {
        self.as_str().hash(state);
    }
}

impl fmt::Debug for KindText {
    fn fmt<W: fmt::Write>(&self, f: &mut fmt::Formatter<W>) -> fmt::Result {
        fmt::Debug::fmt(&self.as_str(), f)
    }
}
