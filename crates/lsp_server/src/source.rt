// What bytes come from.
ghost use Rattle.std.specs.Prelude.{◌<◌, ℕ, List, Option, length};
ghost use Rattle.lsp_server.specs.Calls.{GivesBytes, CountsRead};

/// A read failed, and took nothing.
#[derive(Clone, Copy, Debug, PartialEq, Eq)]
pub struct Failed;

/// What bytes come from.
pub trait Source {
    /// The bytes still to come, where the source tells them.
    ghost left: { Self → Option (List ℕ) };

    /// How often a read has failed: a count that never falls.
    ghost faults: { Self → ℕ };

    /// Reads into the front of `piece`, which isn't empty. The answer is the number of bytes read;
    /// 0 is the end of input.
    fn read(&mut self, piece: &mut [u8]) -> Result<usize, Failed>
        requires { 0 < length piece.old }
        ensures gives { GivesBytes left self.old self.new piece.new result }

        // The count rises exactly where the read failed.
        ensures counts { CountsRead faults self.old self.new result };
}
