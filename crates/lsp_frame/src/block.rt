// Blocks: the bytes through the first empty line.
ghost use Rattle.std.specs.Prelude.{◌≡◌, ◌-◌, ◌<◌, ◌≤◌, length, IfSome, None};
ghost use Rattle.lsp_frame.specs.Blocks.{block_len as length_of_block, empty_line as length_of_empty_line};
ghost use Rattle.lsp_frame.specs.Kept.{IsClear};

use memchr::memchr;

// The length of the empty line that stands at the front.
fn empty_line(bytes: &[u8]) -> Option<usize>
    ensures value { result ≡ length_of_empty_line bytes.now }
    ensures within { IfSome result (λ n. (0 < n) × (n ≤ 2) × (n ≤ length bytes.now)) }
{
    if bytes.starts_with(b"\n") {
        Some(1)
    } else if bytes.starts_with(b"\r\n") {
        Some(2)
    } else {
        None
    }
}

// The length through the first empty line; none stands right after an LF before the place that
// was looked through.
pub(crate) fn block_len(bytes: &[u8], looked: usize) -> Option<usize>
    requires { IsClear bytes.now looked }
    ensures value { result ≡ length_of_block bytes.now }
    ensures within { IfSome result (λ n. (0 < n) × (n ≤ length bytes.now)) }
    ensures before { IfSome result (λ n. IsClear bytes.now (n - 2)) }
    ensures all { result ≡ None → IsClear bytes.now (length bytes.now) }
{
    if let Some(n) = empty_line(bytes) {
        return Some(n);
    }
    // A line may end right before the place.
    let mut place = looked.saturating_sub(1);
    'lines: while place < bytes.len() {
        let Some(line) = memchr(b'\n', &bytes[place..]) else {
            return None;
        };
        place += line + 1;
        if let Some(n) = empty_line(&bytes[place..]) {
            return Some(place + n);
        }
    }
    None
}
