// What comes of the answers that a desk is given, and which calls it refuses.
ghost use Rattle.lsp_laws.specs.Answers.{AnswersComeBack};
ghost use Rattle.lsp_laws.specs.Gates.{GatedCallsWait};

/// A poll of a ticket is replied the oldest answer that is kept for it, which is kept no more. An
/// answer that is given for a ticket for which none was kept is what the next poll of the ticket is
/// replied, whatever is called in between. So the first answer to the id under which a call asked
/// is what a later poll of that call's ticket is replied, unless the id or the ticket was open for
/// another (JSON-RPC 2.0, "Response object").
pub fn answers_come_back()
    ensures { AnswersComeBack }
{}

/// Until `initialize` has ended well, and after an exit, a gated call changes nothing and isn't sent:
/// an `Ask` is refused, a `Tell` suppressed (LSP 3.17, "Initialize Request").
pub fn gated_calls_wait()
    ensures { GatedCallsWait }
{}
