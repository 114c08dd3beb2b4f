//! What holds of all queries: a function whose contract is a law.
ghost use Rattle.lsp_index.specs.Answered.{OneAnswer};

/// Over one dump a query has one answer.
pub fn one_answer()
    ensures { OneAnswer }
{}
