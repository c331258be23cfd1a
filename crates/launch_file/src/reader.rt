//! Reading a launch file.
ghost use Rattle.std.specs.Prelude.{◌≡◌, ◌≤◌, All, false, length, IfOk, Err, Some, codes};
ghost use Rattle.toml.specs.View.{view, table_view, items_view};
ghost use Rattle.toml.specs.Data.{as_table, get_member};
ghost use Rattle.launch_file.specs.Keys.{has_only as has_only_keys, passes, each_passes, tables_pass};
ghost use Rattle.launch_file.specs.Refusals as spec;
ghost use Rattle.launch_file.specs.Texts.{part_of, text_of};
ghost use Rattle.launch_file.specs.Values.{HasTexts, HasOneLength, HasNumber};
ghost use Rattle.launch_file.specs.declared.text.LaunchError.TheVariants.{Refused};

use crate::document::{DocumentError, document};
use crate::format::{Format, format_of};
use crate::keys::{has_only, tables_have_only, value_at};
use crate::parts::values_in;
use crate::refusal::Refusal;
use crate::settle::settle;
use crate::text::{LaunchError, LaunchText};
use std::alloc::Global;
use toml::{Table, Value};
use wg_num::Memory;

fn has_file_keys(format: Format, table: &Table) -> bool
    ensures { result ≡ has_only_keys (spec.file_keys format) (table_view table.now) }
{
    match format {
        Format::One => has_only(
            table,
            &[
                "format", "kernel", "global", "local", "lanes", "turns", "defines", "buffer", "arg",
            ],
        ),
        Format::Two => has_only(
            table,
            &[
                "format", "kernel", "global", "local", "offset", "lanes", "turns", "defines",
                "buffer", "arg",
            ],
        ),
        Format::Three => has_only(
            table,
            &["format", "lanes", "turns", "defines", "buffer", "launch"],
        ),
    }
}

fn args_know(table: &Table) -> bool
    ensures { result ≡ tables_pass (has_only_keys spec.arg_keys) (get_member (codes "arg") (table_view table.now)) }
{
    tables_have_only(table, "arg", &["buffer", "value", "local"])
}

fn knows_launch(table: &Table) -> bool
    ensures { result ≡ spec.knows_launch (table_view table.now) }
{
    let own = has_only(table, &["kernel", "global", "local", "offset", "arg"]);
    let args = args_know(table);
    own && args
}

fn item_knows(value: &Value) -> bool
    ensures { result ≡ passes spec.knows_launch (as_table (view value.now)) }
{
    match value.as_table() {
        Some(table) => knows_launch(table),
        None => true,
    }
}

fn items_know(items: &[Value]) -> bool
    ensures { result ≡ each_passes spec.knows_launch (items_view items.now) }
{
    for value in items {
        if !item_knows(value) {
            return false;
        }
    }
    true
}

fn launches_know(table: &Table) -> bool
    ensures { result ≡ tables_pass spec.knows_launch (get_member (codes "launch") (table_view table.now)) }
{
    match value_at(table, "launch") {
        Some(value) => match value.as_table() {
            Some(launch) => knows_launch(launch),
            None => match value.as_array() {
                Some(items) => items_know(items),
                None => true,
            },
        },
        None => true,
    }
}

fn knows_keys(format: Format, table: &Table) -> bool
    ensures { result ≡ spec.knows_keys format (table_view table.now) }
{
    let own = has_file_keys(format, table);
    let buffers = tables_have_only(table, "buffer", &["name", "bytes", "load", "save"]);
    let args = args_know(table);
    let launches = launches_know(table);
    (own && buffers) && (args && launches)
}

fn has_unknown_key(table: &Table) -> bool
    ensures { result ≡ spec.has_unknown_key (table_view table.now) }
{
    let format = format_of(table).unwrap_or(Format::One);
    !knows_keys(format, table)
}

/// What the table of a launch file says.
fn read_table(
    alloc: Global,
    table: &Table,
    lanes: Option<u64>,
    turns: Option<u64>,
) -> Result<LaunchText, LaunchError>
    ensures read { IfOk result (λ t. spec.IsRead (table_view table.now) lanes turns (text_of t)) }
    ensures texts { IfOk result (λ t. All HasTexts t.buffers.items) }
    ensures lengths { IfOk result (λ t. All (λ p. HasOneLength (part_of p)) t.list.items) }
    ensures numbers { IfOk result (λ t. All HasNumber t.defines.list.items) }
    ensures some { IfOk result (λ t. 1 ≤ length t.list.items) }
    ensures few { IfOk result (λ t. length t.list.items ≤ 16) }
    ensures apart { IfOk result (λ t. spec.saved_twice t.buffers.items ≡ false) }
    ensures refused { (first : Refusal) → result ≡ Err (Refused first) →
        spec.refusal_of (table_view table.now) lanes turns ≡ Some first }
{
    if has_unknown_key(table) {
        return Err(LaunchError::Refused(Refusal::UnknownKey));
    }
    match values_in(alloc, table)? {
        Some(values) => match settle(values, lanes, turns) {
            Ok(text) => Ok(text),
            Err(refusal) => Err(LaunchError::Refused(refusal)),
        },
        None => Err(LaunchError::Refused(Refusal::KeyMissing)),
    }
}

/// What a launch file and the options `--lanes` and `--turns` say. It is refused for the first of
/// these conditions that stands: `NotToml`, `UnknownKey`, `KeyMissing`, `BufferNamedTwice`,
/// `SavedTwice`, `Lanes`, `Turns`, `Launches`. An option comes before the file's key.
pub fn read(
    alloc: Global,
    bytes: &[u8],
    lanes: Option<u64>,
    turns: Option<u64>,
) -> Result<LaunchText, LaunchError>
    ensures read { IfOk result (λ t. spec.Reads bytes.now lanes turns (text_of t)) }
    ensures texts { IfOk result (λ t. All HasTexts t.buffers.items) }
    ensures lengths { IfOk result (λ t. All (λ p. HasOneLength (part_of p)) t.list.items) }
    ensures numbers { IfOk result (λ t. All HasNumber t.defines.list.items) }
    ensures some { IfOk result (λ t. 1 ≤ length t.list.items) }
    ensures few { IfOk result (λ t. length t.list.items ≤ 16) }
    ensures apart { IfOk result (λ t. spec.saved_twice t.buffers.items ≡ false) }
    ensures refused { (first : Refusal) → result ≡ Err (Refused first) →
        spec.IsRefused bytes.now lanes turns first }
{
    match document(alloc, bytes) {
        Ok(table) => read_table(alloc, &table, lanes, turns),
        Err(DocumentError::NotToml) => Err(LaunchError::Refused(Refusal::NotToml)),
        Err(DocumentError::Memory) => Err(LaunchError::Memory),
    }
}
