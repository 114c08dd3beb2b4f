// How a codec reads.
use crate::limits::Limits;
use lsp_text::Floats;

/// How a codec reads: how large a head and a body may be, and what becomes of floats.
#[derive(Clone, Copy, Debug, PartialEq, Eq)]
pub struct CodecSettings {
    /// How large a head and a body may be.
    pub limits: Limits,
    /// What a body with a float is read as.
    pub floats: Floats,
}

impl Default for CodecSettings {
    ghost use Rattle.std.specs.Prelude.{◌≡◌};
    ghost use Rattle.lsp_frame.specs.Items.{default_settings};

    ghost is_default = { λ settings. settings ≡ default_settings };

    /// The default limits, and no float.
    fn default() -> CodecSettings {
        CodecSettings {
            limits: Limits::default(),
            floats: Floats::Refused,
        }
    }
}
