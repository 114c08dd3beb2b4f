//! What holds of all texts: a function whose contract is a law.
ghost use Rattle.lsp_documents.specs.Lines.{PositionsComeBack};

/// Each place in a text has one position, whose place it is; but that of the place between CR and
/// LF is before the CR. Any other position of a line is at the last place of the line that isn't
/// behind it.
pub fn positions_come_back()
    ensures { PositionsComeBack }
{}
