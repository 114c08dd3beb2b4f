// What headers say of the body.
ghost use Rattle.std.specs.Prelude.{◌≡◌, [], ◌∷◌, MatchOption, ◌≤◌, ◌<◌, IfSome, is_some, length, map, take, All, None, slice_index_or};
ghost use Rattle.std.specs.Str.{is_utf8};
ghost use Rattle.httparse.specs.Spans.{header_bytes, IsHeaderWithin};
ghost use Rattle.lsp_frame.specs.Headers.{length_of, is_type_good as type_good, charset_in as charset_of, names_utf8 as names, parts_from, length_after as length_then, content_length as length_in};
ghost use Rattle.lsp_frame.specs.NoSpan.{no_span};

use crate::head::Head;
use crate::parse_error::ParseError;

// The bytes as a text, where they are one.
fn text_of(bytes: &[u8]) -> Option<&str>
    ensures text { IfSome result (λ s. s.now ≡ bytes.now) }
    ensures test { is_some result ≡ is_utf8 bytes.now }
{
    match str::from_utf8(bytes) {
        Ok(text) => Some(text),
        Err(_) => None,
    }
}

// The number that a `Content-Length` value writes.
fn length_value(value: &str) -> Option<u64>
    ensures { result ≡ length_of value.now }
{
    value.parse::<u64>().ok()
}

// Whether the part names UTF-8, where it names a charset.
fn charset_in(part: &str) -> Option<bool>
    ensures { result ≡ charset_of part.now }
{
    let part = part.trim();
    if part.as_bytes().starts_with(b"charset=") {
        Some(part == "charset=utf-8" || part == "charset=utf8")
    } else {
        None
    }
}

// The first part, and what stands after it.
fn cut(value: &str) -> Option<(&str, &str)>
    ensures parts { MatchOption result (parts_from [] value.now ≡ value.now ∷ [])
        (λ x. parts_from [] value.now ≡ x.0.now ∷ parts_from [] x.1.now) }
    ensures shorter { IfSome result (λ x. length x.1.now < length value.now) }
{
    value.split_once(';')
}

// Whether the parts after the first name UTF-8.
fn is_type_good(value: &str) -> bool
    ensures { result ≡ type_good value.now }
{
    let Some((_, rest)) = cut(value) else {
        return false;
    };
    names_utf8(rest)
}

// Whether the parts name UTF-8.
fn names_utf8(value: &str) -> bool
    ensures { result ≡ names (parts_from [] value.now) }
{
    let mut rest = value;
    'parts: loop {
        match cut(rest) {
            Some((part, more)) => match charset_in(part) {
                Some(good) => return good,
                None => rest = more,
            },
            None => return charset_in(rest).unwrap_or(false),
        }
    }
}

// The length after one more header, where the header isn't faulty.
fn length_after(before: Option<u64>, name: &[u8], value: &[u8]) -> Result<Option<u64>, ParseError>
    ensures { result ≡ length_then before (name.now, value.now) }
{
    if name == b"Content-Length".as_slice() {
        let Some(text) = text_of(value) else {
            return Err(ParseError::Utf8);
        };
        match length_value(text) {
            Some(length) => Ok(Some(length)),
            None => Err(ParseError::InvalidContentLength),
        }
    } else if name == b"Content-Type".as_slice() {
        let Some(text) = text_of(value) else {
            return Err(ParseError::Utf8);
        };
        if is_type_good(text) {
            Ok(before)
        } else {
            Err(ParseError::InvalidContentType)
        }
    } else {
        Ok(before)
    }
}

// The same for the header at a place of the head.
fn length_at(
    block: &[u8],
    head: &Head,
    i: usize,
    before: Option<u64>,
) -> Result<Option<u64>, ParseError>
    requires within { All (IsHeaderWithin (length block.now)) (take head.now.count head.now.spans) }
    requires few { head.now.count ≤ length head.now.spans }
    requires index { i < head.now.count }
    ensures { result
        ≡ length_then before (header_bytes block.now (slice_index_or head.now.spans i no_span)) }
{
    let span = head.spans[i];
    length_after(before, span.name.of(block), span.value.of(block))
}

// The last length that the headers give, or the first fault.
pub(crate) fn content_length(block: &[u8], head: &Head) -> Result<Option<u64>, ParseError>
    requires within { All (IsHeaderWithin (length block.now)) (take head.now.count head.now.spans) }
    requires few { head.now.count ≤ length head.now.spans }
    ensures { result
        ≡ length_in None (map (header_bytes block.now) (take head.now.count head.now.spans)) }
{
    let mut length = None;
    for i in 0..head.count {
        match length_at(block, head, i, length) {
            Ok(now) => length = now,
            Err(fault) => return Err(fault),
        }
    }
    Ok(length)
}
