// Characters, and texts that are made of them: RFC 3986, section 2.
ghost use Rattle.std.specs.Prelude.{◌≡◌};
ghost use Rattle.lsp_uri.specs.Grammar.{is_unreserved, is_sub_delim, is_plain, is_made_of};

#[tactic(auto, unfolding(crate::specs::Grammar::is_unreserved))]
fn is_unreserved(c: u8) -> bool
    ensures { result ≡ is_unreserved c }
{
    c.is_ascii_alphanumeric() || b"-._~".contains(&c)
}

#[tactic(auto, unfolding(crate::specs::Grammar::is_sub_delim))]
fn is_sub_delim(c: u8) -> bool
    ensures { result ≡ is_sub_delim c }
{
    b"!$&'()*+,;=".contains(&c)
}

#[tactic(auto, unfolding(crate::specs::Grammar::is_plain))]
pub fn is_plain(c: u8, more: &[u8]) -> bool
    ensures { result ≡ is_plain more.now c }
{
    is_unreserved(c) || is_sub_delim(c) || more.contains(&c)
}

// Whether a text is unreserved characters, percent escapes, sub-delims and the characters of
// `more`.
pub fn is_made_of(text: &str, more: &[u8]) -> bool
    ensures { result ≡ is_made_of more.now text.now }
{
    let mut rest = text.as_bytes();
    loop {
        rest = match rest {
            [] => return true,
            [b'%', high, low, tail @ ..] if high.is_ascii_hexdigit() && low.is_ascii_hexdigit() =>
                tail,
            [c, tail @ ..] if *c != b'%' && is_plain(*c, more) => tail,
            _ => return false,
        };
    }
}
