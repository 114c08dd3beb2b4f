// Lines and code units counted a block of bytes at a time, without a branch for a byte.
ghost use Rattle.std.specs.Prelude.{ℕ, ◌≡◌, ◌≤◌, ◌<◌, ◌-◌, length, drop, sum_by};
ghost use Rattle.std.specs.Str.{chars};
ghost use Rattle.lsp_documents.specs.Lines.{from_line, units};
ghost use Rattle.lsp_documents.specs.Blocks.{ends_with, units_begun};

/// How many bytes are counted at once: their count fits one byte.
pub const LEN: usize = 240;

// One where a line ends with the byte that is before the other.
fn end_of_line(byte: u8, next: u8) -> u8
    ensures { result ≡ ends_with byte next }
{
    u8::from((byte == b'\n') | ((byte == b'\r') & (next != b'\n')))
}

// How many lines end with the bytes of the first block.
fn line_ends(text: &[u8]) -> u8
    requires { 240 < length text.now }
    ensures { (line : ℕ) → result < line
        → from_line line text.now ≡ from_line (line - result) (drop 240 text.now) }
{
    let mut ends = 0;
    for i in 0..LEN {
        ends += end_of_line(text[i], text[i + 1]);
    }
    ends
}

/// A byte before the start of a line, and how many lines begin behind it up to that line.
pub fn before_line(text: &[u8], line: u32) -> (usize, u32)
    ensures line { from_line line text.now ≡ from_line result.1 (drop result.0 text.now) }
    ensures within { result.0 ≤ length text.now }
{
    let mut left = line;
    let mut start = 0;
    while text.len() - start > LEN {
        let ends = line_ends(&text[start..]) as u32;
        if left <= ends {
            return (start, left);
        }
        left -= ends;
        start += LEN;
    }
    (start, left)
}

// How many UTF-16 code units the character is of which the byte is the first; none of others.
fn units_at(byte: u8) -> u8
    ensures { result ≡ units_begun byte }
{
    u8::from((byte < 0x80) | (byte >= 0xC0)) + u8::from(byte >= 0xF0)
}

/// How many UTF-16 code units a text of at most a block is.
pub fn units(text: &str) -> usize
    requires { length text.now ≤ 240 }
    ensures { result ≡ sum_by units (chars text.now) }
{
    let mut count = 0;
    for byte in text.as_bytes() {
        count += units_at(*byte);
    }
    count as usize
}
