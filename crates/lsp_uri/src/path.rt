// Paths: RFC 3986, section 3.3.
ghost use Rattle.std.specs.Prelude.{◌≡◌};
ghost use Rattle.lsp_uri.specs.Grammar.{are_segments, is_path_abempty, is_path_absolute, is_path_rootless, is_path_noscheme};

use crate::chars::is_made_of;
use crate::cuts::{cut, strip};

// segment *( "/" segment )
#[tactic(auto, using(crate::proofs::Segments::segment_lemmas))]
fn are_segments(text: &str) -> bool
    ensures { result ≡ are_segments text.now }
{
    let mut rest = text;
    loop {
        let (segment, tail) = cut(rest, '/');
        if !is_made_of(segment, b":@") {
            return false;
        }
        match tail {
            None => return true,
            Some(tail) => rest = tail,
        }
    }
}

#[tactic(auto, unfolding(crate::specs::Grammar::is_path_abempty))]
pub fn is_path_abempty(text: &str) -> bool
    ensures { result ≡ is_path_abempty text.now }
{
    match strip(text, '/') {
        Some(rest) => are_segments(rest),
        None => text.is_empty(),
    }
}

#[tactic(auto, unfolding(crate::specs::Grammar::is_path_rootless))]
pub fn is_path_rootless(text: &str) -> bool
    ensures { result ≡ is_path_rootless text.now }
{
    match cut(text, '/') {
        (first, None) => !first.is_empty() && is_made_of(first, b":@"),
        (first, Some(rest)) => !first.is_empty() && is_made_of(first, b":@") && are_segments(rest),
    }
}

#[tactic(auto, unfolding(crate::specs::Grammar::is_path_noscheme))]
pub fn is_path_noscheme(text: &str) -> bool
    ensures { result ≡ is_path_noscheme text.now }
{
    match cut(text, '/') {
        (first, None) => !first.is_empty() && is_made_of(first, b"@"),
        (first, Some(rest)) => !first.is_empty() && is_made_of(first, b"@") && are_segments(rest),
    }
}

#[tactic(auto, unfolding(crate::specs::Grammar::is_path_absolute))]
pub fn is_path_absolute(text: &str) -> bool
    ensures { result ≡ is_path_absolute text.now }
{
    match strip(text, '/') {
        Some(rest) => rest.is_empty() || is_path_rootless(rest),
        None => false,
    }
}
