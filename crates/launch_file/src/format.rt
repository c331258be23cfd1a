//! The format of a launch file.
ghost use Rattle.std.specs.Prelude.{◌≡◌};
ghost use Rattle.toml.specs.View.{table_view};
ghost use Rattle.launch_file.specs.Values.{format_numbered, format_in};

use crate::keys::integer_at;
use toml::Table;

/// Which keys a launch file has: one launch of one dimension, one of up to three, or several.
#[derive(Clone, Copy, PartialEq, Eq, Debug)]
pub(crate) enum Format {
    One,
    Two,
    Three,
}

fn format_numbered(number: i64) -> Option<Format>
    ensures { result ≡ format_numbered number }
{
    match number {
        1 => Some(Format::One),
        2 => Some(Format::Two),
        3 => Some(Format::Three),
        _ => None,
    }
}

/// The format of a file.
pub(crate) fn format_of(table: &Table) -> Option<Format>
    ensures { result ≡ format_in (table_view table.now) }
{
    match integer_at(table, "format") {
        Some(number) => format_numbered(number),
        None => None,
    }
}
