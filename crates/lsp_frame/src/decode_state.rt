// Where decoding stands.

/// What is looked for next.
#[derive(Clone, Copy, Debug)]
pub enum DecodeState {
    /// A frame begins here.
    Frame,
    /// The next `Content-Length` is looked for.
    Search,
    /// A body of this length begins here.
    Body(u64),
    /// So many bytes of a body that is too long are still to be skipped.
    Skip(u64),
}
