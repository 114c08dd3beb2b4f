// How large a head and a body may be.

/// How many bytes a head and a body may have, each at least 1.
///
/// A head is counted with the empty line that ends it. A larger head is the fault `HeadTooLong`,
/// after which the next `Content-Length` is looked for; a larger body is the fault `BodyTooLong`,
/// and is skipped.
#[derive(Clone, Copy, Debug, PartialEq, Eq)]
pub struct Limits {
    /// How many bytes a head may have.
    pub head: u64,
    /// How many bytes a body may have.
    pub body: u64,
}

impl Default for Limits {
    ghost use Rattle.std.specs.Prelude.{◌≡◌};
    ghost use Rattle.lsp_frame.specs.Items.{default_limits};

    ghost is_default = { λ limits. limits ≡ default_limits };

    /// 8,192 bytes a head and 64 MiB a body.
    fn default() -> Limits {
        Limits {
            head: 8192,
            body: 64 * 1024 * 1024,
        }
    }
}
