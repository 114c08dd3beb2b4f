// The head that a block is.
ghost use Rattle.std.specs.Prelude.{◌≡◌, ◌≤◌, ◌+◌, length, map, take, option_map, IfSome, All};
ghost use Rattle.httparse.specs.Spans.{header_bytes, IsHeaderWithin};
ghost use Rattle.lsp_frame.specs.Blocks.{headers_in};

use httparse::Status;
use httparse::spans::{EMPTY_HEADER_SPAN, HeaderSpan, parse_headers};

// Where the headers of a block lie in it.
#[derive(Clone, Copy, Debug)]
pub struct Head {
    pub spans: [HeaderSpan; 2],
    pub count: usize,
}

// The headers of the block, where it is, whole, a head of at most two.
pub(crate) fn head_of(block: &[u8]) -> Option<Head>
    ensures value { option_map (λ h. map (header_bytes block.now) (take h.count h.spans)) result
        ≡ headers_in 2 block.now }
    ensures within { IfSome result (λ h. All (IsHeaderWithin (length block.now))
        (take h.count h.spans)) }
    ensures count { IfSome result (λ h. h.count ≤ length h.spans) }
{
    let mut spans = [EMPTY_HEADER_SPAN; 2];
    match parse_headers(block, &mut spans) {
        Ok(Status::Complete((len, count))) => {
            if len == block.len() {
                Some(Head { spans, count })
            } else {
                None
            }
        }
        Ok(Status::Partial) => None,
        Err(_) => None,
    }
}
