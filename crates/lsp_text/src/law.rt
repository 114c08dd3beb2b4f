//! What holds of all values: functions whose contract is a law.
ghost use Rattle.lsp_text.specs.Floats.{OnlyFloatsGo, IntegersComeBack};

/// A value that is made free of floats keeps all else: each item and member is there, and what held
/// no float is as it was.
pub fn only_floats_go()
    ensures { OnlyFloatsGo }
{}

/// A float that is a natural number up to 2^53, as `1.0` is, is read as that number.
pub fn integers_come_back()
    ensures { IntegersComeBack }
{}
