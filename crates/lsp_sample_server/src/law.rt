// What is written for the sample's replies: a function whose contract is a law.
ghost use Rattle.lsp_sample_server.specs.Written.{SampleIsWritten};

/// What is written for `initialize` and for `shutdown`, and for a command its result or its error,
/// where no float is in it.
pub fn sample_is_written_so()
    ensures { SampleIsWritten }
{}
