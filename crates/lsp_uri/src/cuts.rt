// Where a text is cut by an ASCII character.
ghost use Rattle.std.specs.Prelude.{◌≡◌, ◌<◌, option_map};
ghost use Rattle.lsp_uri.specs.Cuts.{before, after, from, stripped, before_two, after_two};

// What stands before the first `at`, and what stands after it; all the text where there is none.
pub fn cut(text: &str, at: char) -> (&str, Option<&str>)
    requires { at < 128 }
    ensures before { result.0.now ≡ before at text.now }
    ensures after { option_map (λ s. s.now) result.1 ≡ after at text.now }
{
    match text.split_once(at) {
        None => (text, None),
        Some((front, back)) => (front, Some(back)),
    }
}

// As `cut`, but what comes second begins with the `at`.
pub fn cut_before(text: &str, at: char) -> (&str, &str)
    requires { at < 128 }
    ensures before { result.0.now ≡ before at text.now }
    ensures from { result.1.now ≡ from at text.now }
{
    match text.find(at) {
        None => (text, ""),
        Some(i) => text.split_at(i),
    }
}

// What follows the `first` at the front.
pub fn strip(text: &str, first: char) -> Option<&str>
    requires { first < 128 }
    ensures { option_map (λ s. s.now) result ≡ stripped first text.now }
{
    text.strip_prefix(first)
}

// What stands before the first `::`, and what stands after it; all the text where there is none.
pub fn cut_colons(text: &str) -> (&str, Option<&str>)
    ensures before { result.0.now ≡ before_two 58 text.now }
    ensures after { option_map (λ s. s.now) result.1 ≡ after_two 58 text.now }
{
    match text.split_once("::") {
        None => (text, None),
        Some((front, back)) => (front, Some(back)),
    }
}
