// A number among the arguments.
ghost use Rattle.std.specs.Prelude.{◌≡◌};
ghost use Rattle.lsp_program.specs.Number.{number_of};

/// The number that is written in decimal digits alone, at least one, if it fits 64 bits. Std's
/// reader takes a plus sign too.
pub fn number(argument: &str) -> Option<u64>
    ensures { result ≡ number_of argument.now }
{
    if argument.as_bytes().starts_with(b"+") {
        None
    } else {
        argument.parse::<u64>().ok()
    }
}
