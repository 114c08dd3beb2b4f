// Authorities: RFC 3986, section 3.2.
ghost use Rattle.std.specs.Prelude.{◌≡◌};
ghost use Rattle.lsp_uri.specs.Grammar.{is_port, is_port_part, is_bracketed, is_named, is_host_and_port, is_authority};

use crate::chars::is_made_of;
use crate::cuts::{cut, strip};
use crate::host::{is_ipv4, is_ipv6, is_ipvfuture};

fn is_port(text: &str) -> bool
    ensures { result ≡ is_port text.now }
{
    text.as_bytes().iter().all(|c| c.is_ascii_digit())
}

// Whether nothing follows a host, or a port does.
fn is_port_part(text: &str) -> bool
    ensures { result ≡ is_port_part text.now }
{
    match strip(text, ':') {
        Some(port) => is_port(port),
        None => text.is_empty(),
    }
}

// What follows the `[` of an address in brackets.
fn is_bracketed(text: &str) -> bool
    ensures { result ≡ is_bracketed text.now }
{
    let (address, Some(rest)) = cut(text, ']') else {
        return false;
    };
    (is_ipv6(address) || is_ipvfuture(address)) && is_port_part(rest)
}

fn is_named(text: &str) -> bool
    ensures { result ≡ is_named text.now }
{
    match cut(text, ':') {
        (host, None) => is_ipv4(host) || is_made_of(host, b""),
        (host, Some(port)) => (is_ipv4(host) || is_made_of(host, b"")) && is_port(port),
    }
}

#[tactic(auto, unfolding(crate::specs::Grammar::is_host_and_port))]
fn is_host_and_port(text: &str) -> bool
    ensures { result ≡ is_host_and_port text.now }
{
    match strip(text, '[') {
        Some(rest) => is_bracketed(rest),
        None => is_named(text),
    }
}

#[tactic(auto, unfolding(crate::specs::Grammar::is_authority))]
pub fn is_authority(text: &str) -> bool
    ensures { result ≡ is_authority text.now }
{
    match cut(text, '@') {
        (host, None) => is_host_and_port(host),
        (userinfo, Some(host)) => is_made_of(userinfo, b":") && is_host_and_port(host),
    }
}
