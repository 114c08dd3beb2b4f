ghost use Rattle.std.specs.Prelude.{◌≡◌, ◌↔◌, true, false, Some, option_map, string_bytes, bytes_eq, IfOk, OnOk, IsErrOf, refl};
ghost use Rattle.std.specs.Cmp.{on_equiv, on_per, on_po, on_total, partial_equiv_from_equiv};
ghost use Rattle.std.specs.Cmp.Lexicographic.{slice_cmp, nat_list_eq_equiv, nat_list_cmp_total, texts_po, texts_ties};
ghost use Rattle.std.specs.Cmp.Rules.{hashing};
ghost use Rattle.std.specs.Hash as fed;
ghost use Rattle.std.specs.Ordering.{nat_cmp};
ghost use Rattle.std.proofs.Common.{rules};
ghost use Rattle.lsp_uri.specs.Grammar.{is_uri_reference};
ghost use Rattle.lsp_uri.specs.declared.uri.UriError.TheVariants as errors;

use crate::parts::{is_uri_reference, split};
use lsp_shape::{Key, Misfit, Wanted, Wire};
use no_memory::NoMemory;
use serde_json::Value;
use std::alloc::{AllocError, AllocFailed, Global};
use std::cmp::Ordering;
use std::error::Error;
use std::fmt;
use std::hash::{Hash, Hasher};

/// Why a text is not parsed.
#[derive(Clone, Copy, Debug, PartialEq, Eq)]
pub enum UriError {
    /// The text is outside the grammar of URI references, RFC 3986, appendix A.
    NotUri,
    /// Out of memory.
    NoMemory,
}

impl From<AllocError> for UriError {
    ghost from_gives = { λ _ e. e ≡ errors.NoMemory };

    fn from(_error: AllocError) -> UriError {
        UriError::NoMemory
    }
}

impl<T: Drop> From<AllocFailed<T>> for UriError {
    ghost from_gives = { λ _ e. e ≡ errors.NoMemory };

    fn from(_error: AllocFailed<T>) -> UriError {
        UriError::NoMemory
    }
}

impl fmt::Display for UriError {
    ghost use Rattle.lsp_uri.specs.Uri.{text_of_error};

    ghost output = { λ e. Some (text_of_error e) };

    fn fmt<W: fmt::Write>(&self, f: &mut fmt::Formatter<W>) -> fmt::Result {
        match self {
            UriError::NotUri => f.write_str("not a URI reference"),
            UriError::NoMemory => f.write_str("out of memory"),
        }
    }
}

impl Error for UriError {}

/// A URI reference: RFC 3986, section 4.1. Two are compared and hashed as their texts are, byte by
/// byte.
#[derive(Debug, Drop)]
pub struct Uri {
    text: String,
    ghost is_reference: { is_uri_reference (string_bytes text) ≡ true },
}

impl Uri {
    ghost use Rattle.lsp_uri.specs.Grammar.{scheme_of, authority_of, path_of, query_of, fragment_of};
    ghost use Rattle.lsp_uri.specs.Uri.{uri_text};
    ghost use Rattle.lsp_uri.specs.Whole.{recomposed};

    /// Reads a URI reference, by the grammar of RFC 3986, appendix A. The text is kept as it is.
    pub fn parse(alloc: Global, text: &str) -> Result<Uri, UriError>
        ensures kept { IfOk result (λ u. uri_text u ≡ text.now) }
        ensures fits { OnOk result (is_uri_reference text.now ≡ true) }
        ensures not_uri { IsErrOf result UriError.NotUri ↔ (is_uri_reference text.now ≡ false) }
    {
        if !is_uri_reference(text) {
            return Err(UriError::NotUri);
        }
        Ok(Uri {
            text: String::from_str(alloc, text)?,
        })
    }

    /// The text that was parsed. Its parts, put together as in RFC 3986, section 5.3, are the text.
    pub fn as_str(&self) -> &str
        ensures text { result.now ≡ uri_text self.now }
        ensures fits { is_uri_reference (uri_text self.now) ≡ true }
        ensures whole { let s = uri_text self.now in recomposed (scheme_of s) (authority_of s)
            (path_of s) (query_of s) (fragment_of s) ≡ s }
    {
        self.text.as_str()
    }

    /// What stands before the first `:`, if it is a scheme: RFC 3986, section 3.1.
    pub fn scheme(&self) -> Option<&str>
        ensures { option_map (λ s. s.now) result ≡ scheme_of (uri_text self.now) }
    {
        split(self.text.as_str()).scheme
    }

    /// What follows `//`, up to a `/`, a `?` or a `#`: RFC 3986, section 3.2.
    pub fn authority(&self) -> Option<&str>
        ensures { option_map (λ s. s.now) result ≡ authority_of (uri_text self.now) }
    {
        split(self.text.as_str()).authority
    }

    /// What follows the scheme and the authority, up to a `?` or a `#`: RFC 3986, section 3.3.
    pub fn path(&self) -> &str
        ensures { result.now ≡ path_of (uri_text self.now) }
    {
        split(self.text.as_str()).path
    }

    /// What follows the first `?`, up to a `#`: RFC 3986, section 3.4.
    pub fn query(&self) -> Option<&str>
        ensures { option_map (λ s. s.now) result ≡ query_of (uri_text self.now) }
    {
        split(self.text.as_str()).query
    }

    /// What follows the first `#`: RFC 3986, section 3.5.
    pub fn fragment(&self) -> Option<&str>
        ensures { option_map (λ s. s.now) result ≡ fragment_of (uri_text self.now) }
    {
        split(self.text.as_str()).fragment
    }
}

impl Clone for Uri {
    ghost use Rattle.lsp_uri.specs.Uri.{uri_text};

    ghost is_clone = { λ u v. uri_text v ≡ uri_text u };

    fn clone(&self) -> Result<Uri, AllocError> {
        Ok(Uri {
            text: self.text.clone()?,
        })
    }
}

impl PartialEq for Uri {
    ghost use Rattle.lsp_uri.specs.Uri.{uri_text};

    ghost eq = { λ u v. bytes_eq (uri_text u) (uri_text v) };

    ghost laws = { on_per uri_text (partial_equiv_from_equiv nat_list_eq_equiv) };

    fn eq(&self, other: &Uri) -> bool {
        self.text == other.text
    }
}

impl Eq for Uri {
    ghost use Rattle.lsp_uri.specs.Uri.{uri_text};

    ghost laws = { on_equiv uri_text nat_list_eq_equiv };
}

impl PartialOrd for Uri {
    ghost use Rattle.lsp_uri.specs.Uri.{uri_text};

    ghost partial_cmp = { λ u v. Some (slice_cmp nat_cmp (uri_text u) (uri_text v)) };

    ghost laws = { on_po uri_text texts_po };

    fn partial_cmp(&self, other: &Uri) -> Option<Ordering> {
        Some(self.cmp(other))
    }
}

impl Ord for Uri {
    ghost use Rattle.lsp_uri.specs.Uri.{uri_text};

    ghost cmp = { λ u v. slice_cmp nat_cmp (uri_text u) (uri_text v) };

    ghost total = { on_total uri_text nat_list_cmp_total };

    ghost matches_partial_cmp = { λ u v. refl };

    ghost matches_eq = { λ u v. texts_ties (uri_text u) (uri_text v) };

    fn cmp(&self, other: &Uri) -> Ordering {
        self.text.cmp(&other.text)
    }
}

impl Hash for Uri {
    ghost use Rattle.lsp_uri.specs.Uri.{uri_text};

    ghost hash_input = { λ u. fed.str (uri_text u) };

    ghost respects_eq = { Prim.search (hashing, rules) };

    fn hash<H: Hasher>(&self, state: &mut H) {
        self.text.hash(state);
    }
}

impl fmt::Display for Uri {
    ghost use Rattle.lsp_uri.specs.Uri.{uri_text};

    ghost output = { λ u. Some (uri_text u) };

    fn fmt<W: fmt::Write>(&self, f: &mut fmt::Formatter<W>) -> fmt::Result {
        f.write_str(self.text.as_str())
    }
}

impl Uri {
    ghost use Rattle.lsp_shape.specs.Why.{IsUnfit, IfUnfit, IsWhole};
    ghost use Rattle.lsp_uri.specs.Uri.{uri_text};

    // The URI that the text is. Where it is none, a URI is wanted.
    fn of_text(alloc: Global, text: &str) -> Result<Uri, Misfit>
        ensures read { IfOk result (λ uri. uri_text uri ≡ text.now) }
        ensures fits { OnOk result (is_uri_reference text.now ≡ true) }
        ensures unfit { IsUnfit result ↔ (is_uri_reference text.now ≡ false) }
        ensures whole { IfUnfit result (λ why. IsWhole Wanted.Uri why) }
    {
        match Uri::parse(alloc, text) {
            Ok(uri) => Ok(uri),
            Err(UriError::NotUri) => Err(Misfit::wanted(Wanted::Uri)),
            Err(UriError::NoMemory) => Err(Misfit::NoMemory),
        }
    }
}

impl Wire for Uri {
    ghost use Rattle.lsp_uri.specs.Uri.{uri_row};

    ghost shape = { uri_row.shape };

    ghost shown = { uri_row.shown };

    fn from_value(alloc: Global, value: &Value) -> Result<Uri, Misfit> {
        match value.as_str() {
            Some(text) => Uri::of_text(alloc, text),
            None => Err(Misfit::wanted(Wanted::Uri)),
        }
    }

    fn to_value(&self, _alloc: Global) -> Result<Value, NoMemory> {
        Ok(Value::String(self.text.clone()?))
    }
}

impl Key for Uri {
    ghost use Rattle.lsp_uri.specs.Uri.{uri_text};

    ghost key_text = { uri_text };

    ghost is_key = { is_uri_reference };

    ghost told_by_text = { Prim.search rules };

    fn from_text(alloc: Global, text: &str) -> Result<Uri, Misfit> {
        Uri::of_text(alloc, text)
    }

    fn as_text(&self) -> &str {
        self.as_str()
    }
}
