//! What holds of the JSON value of any message.
ghost use Rattle.lsp_relay.specs.Value.{ValuesRead};

/// The value in which a message is written is read as that message, where ids and codes are
/// integers of 64 bits, an error's data isn't null, and a code that a variant names is that
/// variant.
pub fn values_read()
    ensures { ValuesRead }
{}
