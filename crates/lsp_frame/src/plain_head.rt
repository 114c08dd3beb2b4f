// A head of one header, in the form in which most writers give it.
ghost use Rattle.std.specs.Prelude.{◌≤◌, IfSome};
ghost use Rattle.lsp_frame.specs.PlainHeads.{IsPlainHead};

// A head that gives a length alone.
#[derive(Clone, Copy, Debug)]
pub struct PlainHead {
    // The length of the body.
    pub len: u64,
    // How many bytes the head has.
    pub size: usize,
}

// No number of 64 bits has more digits.
const DIGITS: usize = 20;

// The head that stands at the front, where it has this form and at most so many bytes. It is known
// by its text: that of the number that its digits seem to write.
pub(crate) fn read_plain_head(bytes: &[u8], most: u64) -> Option<PlainHead>
    ensures value { IfSome result (λ head. IsPlainHead head bytes.now) }
    ensures within { IfSome result (λ head. head.size ≤ most) }
{
    let rest = bytes.strip_prefix(b"Content-Length: ".as_slice())?;
    let mut len: u64 = 0;
    for byte in &rest[..rest.len().min(DIGITS)] {
        if !byte.is_ascii_digit() {
            break;
        }
        len = len.wrapping_mul(10).wrapping_add(u64::from(*byte & 15));
    }
    let mut buffer = itoa::Buffer::new();
    let digits = buffer.format(len);
    let rest = rest.strip_prefix(digits.as_bytes())?;
    rest.strip_prefix(b"\r\n\r\n".as_slice())?;
    let size = b"Content-Length: \r\n\r\n".len() + digits.len();
    if size as u64 <= most {
        Some(PlainHead { len, size })
    } else {
        None
    }
}
