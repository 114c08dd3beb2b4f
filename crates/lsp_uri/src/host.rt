// Hosts: RFC 3986, section 3.2.2.
ghost use Rattle.std.specs.Prelude.{◌≡◌, ◌≤◌, codes, IfSome};
ghost use Rattle.std.specs.List.{list_all};
ghost use Rattle.std.specs.Char.{is_ascii_hexdigit};
ghost use Rattle.lsp_uri.specs.Cuts.{pieces};
ghost use Rattle.lsp_uri.specs.Grammar.{is_dec_octet, is_ipv4, is_h16, is_plain, is_h16s_and_ls32, is_shortened, is_ipv6, is_hex_number, is_future_address, is_future, is_ipvfuture};
ghost use Rattle.lsp_uri.specs.Widths.{last_width, width, width_or_none, leaves_a_group};

use crate::chars::is_plain;
use crate::cuts::{cut, cut_colons, strip};

fn is_dec_octet(text: &str) -> bool
    ensures { result ≡ is_dec_octet text.now }
{
    match text.as_bytes() {
        [a] => a.is_ascii_digit(),
        [b'1'..=b'9', b] => b.is_ascii_digit(),
        [b'1', b, c] => b.is_ascii_digit() && c.is_ascii_digit(),
        [b'2', b'0'..=b'4', c] => c.is_ascii_digit(),
        [b'2', b'5', b'0'..=b'5'] => true,
        _ => false,
    }
}

#[tactic(auto, unfolding(crate::specs::Grammar::is_ipv4))]
pub fn is_ipv4(text: &str) -> bool
    ensures { result ≡ is_ipv4 text.now }
{
    let (first, Some(rest)) = cut(text, '.') else {
        return false;
    };
    let (second, Some(rest)) = cut(rest, '.') else {
        return false;
    };
    let (third, Some(fourth)) = cut(rest, '.') else {
        return false;
    };
    is_dec_octet(first) && is_dec_octet(second) && is_dec_octet(third) && is_dec_octet(fourth)
}

fn are_hex_digits(text: &str) -> bool
    ensures { result ≡ list_all is_ascii_hexdigit text.now }
{
    text.as_bytes().iter().all(|c| c.is_ascii_hexdigit())
}

#[tactic(auto, unfolding(crate::specs::Grammar::is_h16))]
fn is_h16(text: &str) -> bool
    ensures { result ≡ is_h16 text.now }
{
    1 <= text.len() && text.len() <= 4 && are_hex_digits(text)
}

// How many groups of 16 bits stand between the colons. An IPv4 address at the end, where it is
// allowed, is two.
#[tactic(auto, using(crate::proofs::Groups::group_lemmas))]
fn width(text: &str, ends_in_ipv4: bool) -> Option<usize>
    ensures { result ≡ width ends_in_ipv4 (pieces 58 text.now) }
{
    let mut groups = 0;
    let mut rest = text;
    loop {
        let (group, tail) = cut(rest, ':');
        match tail {
            None => return Some(groups + last_width(group, ends_in_ipv4)?),
            Some(_) if !is_h16(group) => return None,
            Some(tail) => {
                groups += 1;
                rest = tail;
            }
        }
    }
}

fn last_width(group: &str, ends_in_ipv4: bool) -> Option<usize>
    ensures width { result ≡ last_width ends_in_ipv4 group.now }
    ensures small { IfSome result (λ n. n ≤ 2) }
{
    if is_h16(group) {
        Some(1)
    } else if ends_in_ipv4 && is_ipv4(group) {
        Some(2)
    } else {
        None
    }
}

// The same, where no group at all is none.
fn width_or_none(text: &str, ends_in_ipv4: bool) -> Option<usize>
    ensures { result ≡ width_or_none ends_in_ipv4 text.now }
{
    if text.is_empty() {
        Some(0)
    } else {
        width(text, ends_in_ipv4)
    }
}

#[tactic(auto, unfolding(crate::specs::Grammar::is_ipv6))]
pub fn is_ipv6(text: &str) -> bool
    ensures { result ≡ is_ipv6 text.now }
{
    let (left, right) = cut_colons(text);
    match right {
        None => has_eight_groups(left),
        Some(right) => is_shortened(left, right),
    }
}

fn has_eight_groups(text: &str) -> bool
    ensures { result ≡ is_h16s_and_ls32 6 (pieces 58 text.now) }
{
    match width(text, true) {
        Some(n) => n == 8,
        None => false,
    }
}

// An address with `::`, which stands for at least one group of zeros.
fn is_shortened(left: &str, right: &str) -> bool
    ensures { result ≡ is_shortened left.now right.now }
{
    leaves_a_group(width_or_none(left, false), width_or_none(right, true))
}

fn leaves_a_group(left: Option<usize>, right: Option<usize>) -> bool
    ensures { result ≡ leaves_a_group left right }
{
    match (left, right) {
        (Some(l), Some(r)) => l <= 7 && r <= 7 - l,
        _ => false,
    }
}

fn is_hex_number(text: &str) -> bool
    ensures { result ≡ is_hex_number text.now }
{
    !text.is_empty() && are_hex_digits(text)
}

fn are_plain(text: &str) -> bool
    ensures { result ≡ list_all (is_plain (codes ":")) text.now }
{
    text.as_bytes().iter().all(|c| is_plain(*c, b":"))
}

fn is_future_address(text: &str) -> bool
    ensures { result ≡ is_future_address text.now }
{
    !text.is_empty() && are_plain(text)
}

// What follows the `v`.
fn is_future(text: &str) -> bool
    ensures { result ≡ is_future text.now }
{
    let (version, Some(address)) = cut(text, '.') else {
        return false;
    };
    is_hex_number(version) && is_future_address(address)
}

pub fn is_ipvfuture(text: &str) -> bool
    ensures { result ≡ is_ipvfuture text.now }
{
    match strip(text, 'v') {
        Some(rest) => is_future(rest),
        None => match strip(text, 'V') {
            Some(rest) => is_future(rest),
            None => false,
        },
    }
}
