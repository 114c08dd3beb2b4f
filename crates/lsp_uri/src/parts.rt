// The parts of a URI reference: RFC 3986, sections 3, 4 and appendix B.
ghost use Rattle.std.specs.Prelude.{◌≡◌, option_map};
ghost use Rattle.std.specs.List.{list_all};
ghost use Rattle.lsp_uri.specs.Cuts.{is_absent_or};
ghost use Rattle.lsp_uri.specs.Grammar.{is_scheme_char, is_scheme, is_query, is_hier_part, is_relative_part, is_by_parts, is_uri_reference, front_of, scheme_in, rest_in, authority_in, path_in, scheme_of, authority_of, path_of, query_of, fragment_of};

use crate::authority::is_authority;
use crate::chars::is_made_of;
use crate::cuts::{cut, cut_before, strip};
use crate::path::{is_path_abempty, is_path_absolute, is_path_noscheme, is_path_rootless};

#[derive(Clone, Copy)]
pub struct Parts<'a> {
    pub scheme: Option<&'a str>,
    pub authority: Option<&'a str>,
    pub path: &'a str,
    pub query: Option<&'a str>,
    pub fragment: Option<&'a str>,
}

#[tactic(auto, unfolding(crate::specs::Grammar::scheme_of, crate::specs::Grammar::authority_of, crate::specs::Grammar::path_of))]
pub fn split(text: &str) -> Parts<'_>
    ensures scheme { option_map (λ s. s.now) result.scheme ≡ scheme_of text.now }
    ensures authority { option_map (λ s. s.now) result.authority ≡ authority_of text.now }
    ensures path { result.path.now ≡ path_of text.now }
    ensures query { option_map (λ s. s.now) result.query ≡ query_of text.now }
    ensures fragment { option_map (λ s. s.now) result.fragment ≡ fragment_of text.now }
{
    let (rest, fragment) = cut(text, '#');
    let (rest, query) = cut(rest, '?');
    let (scheme, rest) = cut_scheme(rest);
    let (authority, path) = cut_authority(rest);
    Parts {
        scheme,
        authority,
        path,
        query,
        fragment,
    }
}

fn cut_scheme(text: &str) -> (Option<&str>, &str)
    ensures scheme { option_map (λ s. s.now) result.0 ≡ scheme_in text.now }
    ensures rest { result.1.now ≡ rest_in text.now }
{
    match cut(text, ':') {
        (scheme, Some(rest)) if is_scheme(scheme) => (Some(scheme), rest),
        _ => (None, text),
    }
}

fn cut_authority(text: &str) -> (Option<&str>, &str)
    ensures authority { option_map (λ s. s.now) result.0 ≡ authority_in text.now }
    ensures path { result.1.now ≡ path_in text.now }
{
    let Some(rest) = strip(text, '/') else {
        return (None, text);
    };
    let Some(rest) = strip(rest, '/') else {
        return (None, text);
    };
    let (authority, path) = cut_before(rest, '/');
    (Some(authority), path)
}

#[tactic(auto, unfolding(crate::specs::Grammar::is_scheme_char))]
fn is_scheme_char(c: u8) -> bool
    ensures { result ≡ is_scheme_char c }
{
    c.is_ascii_alphanumeric() || b"+-.".contains(&c)
}

fn are_scheme_chars(bytes: &[u8]) -> bool
    ensures { result ≡ list_all is_scheme_char bytes.now }
{
    bytes.iter().all(|c| is_scheme_char(*c))
}

fn is_scheme(text: &str) -> bool
    ensures { result ≡ is_scheme text.now }
{
    match text.as_bytes() {
        [] => false,
        [first, rest @ ..] => first.is_ascii_alphabetic() && are_scheme_chars(rest),
    }
}

// A query or a fragment.
fn is_absent_or_query(text: Option<&str>) -> bool
    ensures { result ≡ is_absent_or is_query (option_map (λ s. s.now) text.entry) }
{
    match text {
        None => true,
        Some(text) => is_made_of(text, b":@/?"),
    }
}

#[tactic(auto, unfolding(crate::specs::Grammar::is_hier_part))]
fn is_hier_part(authority: Option<&str>, path: &str) -> bool
    ensures { result ≡ is_hier_part (option_map (λ s. s.now) authority.entry) path.now }
{
    match authority {
        Some(authority) => is_authority(authority) && is_path_abempty(path),
        None => is_path_absolute(path) || is_path_rootless(path) || path.is_empty(),
    }
}

#[tactic(auto, unfolding(crate::specs::Grammar::is_relative_part))]
fn is_relative_part(authority: Option<&str>, path: &str) -> bool
    ensures { result ≡ is_relative_part (option_map (λ s. s.now) authority.entry) path.now }
{
    match authority {
        Some(authority) => is_authority(authority) && is_path_abempty(path),
        None => is_path_absolute(path) || is_path_noscheme(path) || path.is_empty(),
    }
}

#[tactic(auto, unfolding(crate::specs::Grammar::is_by_parts))]
fn is_by_parts(parts: Parts<'_>) -> bool
    ensures { result
        ≡ is_by_parts (option_map (λ s. s.now) parts.entry.scheme)
        (option_map (λ s. s.now) parts.entry.authority) parts.entry.path.now
        (option_map (λ s. s.now) parts.entry.query) (option_map (λ s. s.now) parts.entry.fragment) }
{
    let starts = match parts.scheme {
        Some(_) => is_hier_part(parts.authority, parts.path),
        None => is_relative_part(parts.authority, parts.path),
    };
    starts && is_absent_or_query(parts.query) && is_absent_or_query(parts.fragment)
}

#[tactic(auto, unfolding(crate::specs::Grammar::is_uri_reference))]
pub fn is_uri_reference(text: &str) -> bool
    ensures { result ≡ is_uri_reference text.now }
{
    is_by_parts(split(text))
}
