// The bytes of a text at which positions are.
ghost use Rattle.std.specs.Prelude.{ℕ, ◌≡◌, ◌≤◌, ◌<◌, ◌+◌, ◌-◌, ◌^◌, length, take, drop, option_map, sum_by, Some, IfSome, IsSome};
ghost use Rattle.std.specs.Str.{chars, encode_utf8_all, IsCharBoundary};
ghost use Rattle.lsp_documents.specs.Lines.{first_line, later_lines, from_line, fitting, units, place_of, IsPosition};

use crate::block;
use memchr::memchr2;

// How many bytes the first line takes with its end; none where it is the last.
fn line_len(text: &[u8]) -> Option<usize>
    ensures later { later_lines text.now ≡ option_map (λ n. drop n text.now) result }
    ensures some { IfSome result (λ n. n ≤ length text.now) }
    ensures more { IfSome result (λ n. 0 < n) }
{
    let end = memchr2(b'\n', b'\r', text)?;
    if text[end] == b'\r' && end + 1 < text.len() && text[end + 1] == b'\n' {
        return Some(end + 2);
    }
    Some(end + 1)
}

// The byte at which a line begins, found line by line; none where there is no such line.
fn near_line_start(text: &[u8], line: u32) -> Option<usize>
    ensures later { from_line line text.now ≡ option_map (λ n. drop n text.now) result }
    ensures some { IfSome result (λ n. n ≤ length text.now) }
{
    let mut start = 0;
    for _line in 0..line {
        start += line_len(&text[start..])?;
    }
    Some(start)
}

// The byte at which a line begins; none where there is no such line.
fn line_start(text: &[u8], line: u32) -> Option<usize>
    ensures later { from_line line text.now ≡ option_map (λ n. drop n text.now) result }
    ensures some { IfSome result (λ n. n ≤ length text.now) }
{
    let (skipped, left) = block::before_line(text, line);
    Some(skipped + near_line_start(&text[skipped..], left)?)
}

// How many UTF-16 code units the character is.
fn units_of(c: char) -> usize
    ensures { result ≡ units c }
{
    c.len_utf16()
}

// How many bytes the characters of the first line take that are at most so many UTF-16 units,
// found character by character.
fn near_fitting_len(text: &str, character: usize) -> usize
    ensures { let cs = chars text.now in
        result ≡ length (encode_utf8_all (take (fitting character (first_line cs)) cs)) }
{
    let mut left = character;
    let mut len = 0;
    for c in text.chars() {
        let taken = units_of(c);
        if c == '\n' || c == '\r' || left < taken {
            return len;
        }
        left -= taken;
        len += c.len_utf8();
    }
    len
}

// How many bytes and UTF-16 units the first block has, where no line ends in it, it is not more than
// so many units, and the text goes on behind it.
fn fitting_block(text: &str, character: usize) -> Option<(usize, usize)>
    ensures same { IfSome result (λ r. let cs = chars text.now in let later = chars (drop r.0 text.now) in
        length (encode_utf8_all (take (fitting character (first_line cs)) cs))
        ≡ r.0 + length (encode_utf8_all (take (fitting (character - r.1) (first_line later)) later))) }
    ensures more { IfSome result (λ r. 0 < r.0) }
    ensures boundary { IfSome result (λ r. IsCharBoundary text.now r.0) }
    ensures units { IfSome result (λ r. r.1 ≤ character) }
{
    if text.len() <= block::LEN {
        return None;
    }
    let len = text.floor_char_boundary(block::LEN);
    let first = &text[..len];
    let units = block::units(first);
    if character < units || line_len(first.as_bytes()).is_some() {
        return None;
    }
    Some((len, units))
}

// How many bytes the characters of the first line take that are at most so many UTF-16 units.
fn fitting_len(text: &str, character: u32) -> usize
    ensures { let cs = chars text.now in
        result ≡ length (encode_utf8_all (take (fitting character (first_line cs)) cs)) }
{
    let mut left = character as usize;
    let mut len = 0;
    while let Some((passed, units)) = fitting_block(&text[len..], left) {
        len += passed;
        left -= units;
    }
    len + near_fitting_len(&text[len..], left)
}

/// The byte at which a position is.
pub fn offset(text: &str, line: u32, character: u32) -> usize
    ensures { let cs = chars text.now in
        result ≡ length (encode_utf8_all (take (place_of line character cs) cs)) }
{
    match line_start(text.as_bytes(), line) {
        Some(start) => start + fitting_len(&text[start..], character),
        None => text.len(),
    }
}

// The bytes at which two positions are, the second so many lines below the first. Its line is sought
// from that of the first on.
fn offsets_below(text: &str, start: (u32, u32), below: (u32, u32)) -> (usize, usize)
    ensures start { let cs = chars text.now in
        result.0 ≡ length (encode_utf8_all (take (place_of start.0 start.1 cs) cs)) }
    ensures end { let cs = chars text.now in let line = start.0 + below.0 in
        result.1 ≡ length (encode_utf8_all (take (place_of line below.1 cs) cs)) }
{
    match line_start(text.as_bytes(), start.0) {
        Some(begin) => {
            let rest = &text[begin..];
            let first = begin + fitting_len(rest, start.1);
            (first, begin + offset(rest, below.0, below.1))
        }
        None => (text.len(), text.len()),
    }
}

/// The bytes at which two positions are. The line of the second is sought from that of the first
/// on, where it is not before.
pub fn offsets(text: &str, start: (u32, u32), end: (u32, u32)) -> (usize, usize)
    ensures start { let cs = chars text.now in
        result.0 ≡ length (encode_utf8_all (take (place_of start.0 start.1 cs) cs)) }
    ensures end { let cs = chars text.now in
        result.1 ≡ length (encode_utf8_all (take (place_of end.0 end.1 cs) cs)) }
{
    if end == start {
        let both = offset(text, start.0, start.1);
        return (both, both);
    }
    if end.0 < start.0 {
        return (offset(text, start.0, start.1), offset(text, end.0, end.1));
    }
    offsets_below(text, start, (end.0 - start.0, end.1))
}

// How many UTF-16 code units a text is.
fn units_len(text: &str) -> usize
    ensures value { result ≡ sum_by units (chars text.now) }
    ensures bound { result ≤ length text.now }
{
    let mut len = 0;
    for c in text.chars() {
        len += units_of(c);
    }
    len
}

// The line that a byte is in, and the byte at which that line begins.
fn line_at(text: &[u8], offset: usize) -> (usize, usize)
    requires { offset ≤ length text.now }
    ensures line { from_line result.0 text.now ≡ Some (drop result.1 text.now) }
    ensures begun { result.1 ≤ offset }
    ensures bound { result.0 ≤ result.1 }
    ensures not_later { IfSome (later_lines (drop result.1 text.now))
        (λ later. offset < length text.now - length later) }
{
    let mut line = 0;
    let mut start = 0;
    while let Some(len) = line_len(&text[start..]) {
        if offset - start < len {
            return (line, start);
        }
        start += len;
        line += 1;
    }
    (line, start)
}

/// The position of a byte, where a character begins or the text ends.
pub fn position(text: &str, offset: usize) -> Option<(u32, u32)>
    ensures is { IfSome result (λ p.
        IsPosition (chars text.now) (length (chars (take offset text.now))) p.0 p.1) }
    ensures some { IsCharBoundary text.now offset → length text.now < 2 ^ 32 → IsSome result }
    ensures in_range { IsCharBoundary text.now offset → (line : ℕ) (character : ℕ)
        → IsPosition (chars text.now) (length (chars (take offset text.now))) line character
        → line < 2 ^ 32 → character < 2 ^ 32 → IsSome result }
    ensures boundary { IsSome result → IsCharBoundary text.now offset }
{
    if !text.is_char_boundary(offset) {
        return None;
    }
    let (line, start) = line_at(text.as_bytes(), offset);
    let character = units_len(&text[start..offset]);
    if line.max(character) > u32::MAX as usize {
        return None;
    }
    Some((line as u32, character as u32))
}
