// The numbers that have a name, as pairs of both.
ghost use Rattle.std.specs.Prelude.{◌≡◌, map, option_map, Some};
ghost use Rattle.std.specs.Fmt.{DisplaysOnOk};
ghost use Rattle.lsp_kinds.specs.Named.{number_in, name_in, name_or_number};

use std::fmt;

// Why a text is not read as a kind.
pub(crate) const UNKNOWN: &str = "unknown enum variant";

pub(crate) fn number_of(mut names: &[(&'static str, i32)], name: &str) -> Option<i32>
    ensures { result ≡ number_in (map (λ e. (e.0.now, e.1)) names.entry.now) name.now }
{
    while let [entry, rest @ ..] = names {
        if entry.0 == name {
            return Some(entry.1);
        }
        names = rest;
    }
    None
}

pub(crate) fn name_of(mut names: &[(&'static str, i32)], number: i32) -> Option<&'static str>
    ensures { option_map (λ s. s.now) result
        ≡ name_in (map (λ e. (e.0.now, e.1)) names.entry.now) number }
{
    while let [entry, rest @ ..] = names {
        if entry.1 == number {
            return Some(entry.0);
        }
        names = rest;
    }
    None
}

// The name of the number, or the number with its type.
pub(crate) fn write_kind<W: fmt::Write>(
    f: &mut fmt::Formatter<W>,
    type_name: &str,
    name: Option<&'static str>,
    number: i32,
) -> fmt::Result
    ensures { DisplaysOnOk W.write_str_gives f.old result
        (Some (name_or_number type_name.now (option_map (λ s. s.now) name.entry) number)) f.new }
{
    match name {
        Some(name) => f.write_str(name),
        None => write!(f, "{type_name}({number})"),
    }
}
