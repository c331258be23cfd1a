//! The launches of a launch file, and all of its values.
ghost use Rattle.std.specs.Prelude.{◌≡◌, IfOk, IfSome, All, option_map, codes, replicate, pos, map, ◌∷◌};
ghost use Rattle.std.specs.Prelude.{[]};
ghost use Rattle.toml.specs.View.{view, table_view, items_view};
ghost use Rattle.toml.specs.Data.{as_table, get_member};
ghost use Rattle.launch_file.specs.Keys.{given};
ghost use Rattle.launch_file.specs.Texts.{part_of};
ghost use Rattle.launch_file.specs.Values as spec;
ghost use Rattle.launch_file.specs.ValueViews.{values_of};

use crate::format::{Format, format_of};
use crate::keys::{optional_integer, string_at, value_at};
use crate::text::{BufferText, LaunchPart};
use crate::values::{args_in, buffers_in, defines_in};
use cl_prep::Define;
use std::alloc::Global;
use toml::{Table, Value};
use wg_num::{Memory, Word};

/// The values of a launch file.
#[derive(Drop)]
pub(crate) struct Values {
    pub(crate) lanes: Option<i64>,
    pub(crate) turns: Option<i64>,
    pub(crate) defines: Vec<Define>,
    pub(crate) buffers: Vec<BufferText>,
    pub(crate) several: bool,
    pub(crate) list: Vec<LaunchPart>,
}

fn integers_of(alloc: Global, items: &[Value]) -> Result<Option<Vec<i64>>, Memory>
    ensures { IfOk result (λ o. option_map (λ v. v.items) o ≡ spec.integers_of (items_view items.now)) }
{
    let mut list = Vec::new(alloc);
    for value in items {
        let Some(number) = value.as_integer() else {
            return Ok(None);
        };
        if list.push(number).is_err() {
            return Err(Memory);
        }
    }
    Ok(Some(list))
}

fn one_size(alloc: Global, value: &Value) -> Result<Option<Vec<i64>>, Memory>
    ensures { IfOk result (λ o. option_map (λ v. v.items) o ≡ spec.sizes_of Format.One (view value.now)) }
{
    let Some(number) = value.as_integer() else {
        return Ok(None);
    };
    let mut list = Vec::new(alloc);
    if list.push(number).is_err() {
        return Err(Memory);
    }
    Ok(Some(list))
}

fn sizes_of(alloc: Global, format: Format, value: &Value) -> Result<Option<Vec<i64>>, Memory>
    ensures { IfOk result (λ o. option_map (λ v. v.items) o ≡ spec.sizes_of format (view value.now)) }
{
    if format == Format::One {
        return one_size(alloc, value);
    }
    match value.as_array() {
        Some(items) => integers_of(alloc, items),
        None => Ok(None),
    }
}

fn sizes_at(
    alloc: Global,
    format: Format,
    table: &Table,
    key: &str,
) -> Result<Option<Vec<i64>>, Memory>
    ensures { IfOk result (λ o. option_map (λ v. v.items) o ≡ given (get_member key.now (table_view table.now))
        (spec.sizes_of format)) }
{
    match value_at(table, key) {
        Some(value) => sizes_of(alloc, format, value),
        None => Ok(None),
    }
}

fn zeros(alloc: Global, count: usize) -> Result<Vec<i64>, Memory>
    ensures { IfOk result (λ v. v.items ≡ replicate count (pos 0)) }
{
    match vec![in alloc; 0i64; count] {
        Ok(list) => Ok(list),
        Err(_) => Err(Memory),
    }
}

fn offsets_of(
    alloc: Global,
    format: Format,
    sizes: &[i64],
    table: &Table,
) -> Result<Option<Vec<i64>>, Memory>
    ensures { IfOk result (λ o. option_map (λ v. v.items) o ≡
        spec.offsets_of format sizes.now (get_member (codes "offset") (table_view table.now))) }
{
    match value_at(table, "offset") {
        Some(value) => sizes_of(alloc, format, value),
        None => match zeros(alloc, sizes.len()) {
            Ok(list) => Ok(Some(list)),
            Err(Memory) => Err(Memory),
        },
    }
}

fn have_one_length(global: &[i64], local: &[i64], offset: &[i64]) -> bool
    ensures { result ≡ spec.have_one_length global.now local.now offset.now }
{
    let some = 1 <= global.len() && global.len() <= 3;
    let same = local.len() == global.len() && offset.len() == global.len();
    some && same
}

/// The launch that a table says.
fn part_in(alloc: Global, format: Format, table: &Table) -> Result<Option<LaunchPart>, Memory>
    ensures same { IfOk result (λ o. option_map part_of o ≡ spec.part_in format (table_view table.now)) }
    ensures length { IfOk result (λ o. IfSome o (λ p. spec.HasOneLength (part_of p))) }
{
    let Some(kernel) = string_at(table, "kernel") else {
        return Ok(None);
    };
    let Some(global) = sizes_at(alloc, format, table, "global")? else {
        return Ok(None);
    };
    let Some(local) = sizes_at(alloc, format, table, "local")? else {
        return Ok(None);
    };
    let Some(offset) = offsets_of(alloc, format, global.as_slice(), table)? else {
        return Ok(None);
    };
    let Some(args) = args_in(alloc, table)? else {
        return Ok(None);
    };
    if !have_one_length(global.as_slice(), local.as_slice(), offset.as_slice()) {
        return Ok(None);
    }
    let kernel = Word::new(alloc, kernel.as_bytes())?;
    Ok(Some(LaunchPart {
        kernel,
        global,
        local,
        offset,
        args,
    }))
}

fn part_item(alloc: Global, value: &Value) -> Result<Option<LaunchPart>, Memory>
    ensures same { IfOk result (λ o. option_map part_of o ≡ given (as_table (view value.now))
        (spec.part_in Format.Three)) }
    ensures length { IfOk result (λ o. IfSome o (λ p. spec.HasOneLength (part_of p))) }
{
    match value.as_table() {
        Some(table) => part_in(alloc, Format::Three, table),
        None => Ok(None),
    }
}

fn parts_of(alloc: Global, items: &[Value]) -> Result<Option<Vec<LaunchPart>>, Memory>
    ensures same { IfOk result (λ o. option_map (λ v. map part_of v.items) o ≡
        spec.parts_of (items_view items.now)) }
    ensures lengths { IfOk result (λ o. IfSome o (λ v. All (λ p. spec.HasOneLength (part_of p)) v.items)) }
{
    let mut list = Vec::new(alloc);
    for value in items {
        let Some(part) = part_item(alloc, value)? else {
            return Ok(None);
        };
        if list.push(part).is_err() {
            return Err(Memory);
        }
    }
    Ok(Some(list))
}

fn one_launch(
    alloc: Global,
    format: Format,
    table: &Table,
) -> Result<Option<Vec<LaunchPart>>, Memory>
    ensures same { IfOk result (λ o. option_map (λ v. map part_of v.items) o ≡
        option_map (λ part. part ∷ []) (spec.part_in format (table_view table.now))) }
    ensures lengths { IfOk result (λ o. IfSome o (λ v. All (λ p. spec.HasOneLength (part_of p)) v.items)) }
{
    let Some(part) = part_in(alloc, format, table)? else {
        return Ok(None);
    };
    let mut list = Vec::new(alloc);
    if list.push(part).is_err() {
        return Err(Memory);
    }
    Ok(Some(list))
}

fn launches_in(
    alloc: Global,
    format: Format,
    table: &Table,
) -> Result<Option<Vec<LaunchPart>>, Memory>
    ensures same { IfOk result (λ o. option_map (λ v. map part_of v.items) o ≡
        spec.launches_in format (table_view table.now)) }
    ensures lengths { IfOk result (λ o. IfSome o (λ v. All (λ p. spec.HasOneLength (part_of p)) v.items)) }
{
    if format != Format::Three {
        return one_launch(alloc, format, table);
    }
    match value_at(table, "launch") {
        Some(value) => match value.as_array() {
            Some(items) => parts_of(alloc, items),
            None => Ok(None),
        },
        None => Ok(None),
    }
}

/// The values of a table; `None` where a needed key is missing or a value is of another kind.
pub(crate) fn values_in(alloc: Global, table: &Table) -> Result<Option<Values>, Memory>
    ensures same { IfOk result (λ o. option_map values_of o ≡ spec.values_in (table_view table.now)) }
    ensures texts { IfOk result (λ o. IfSome o (λ v. All spec.HasTexts v.buffers.items)) }
    ensures lengths { IfOk result (λ o. IfSome o (λ v. All (λ p. spec.HasOneLength (part_of p)) v.list.items)) }
    ensures numbers { IfOk result (λ o. IfSome o (λ v. All spec.HasNumber v.defines.items)) }
{
    let Some(format) = format_of(table) else {
        return Ok(None);
    };
    let Some(lanes) = optional_integer(table, "lanes") else {
        return Ok(None);
    };
    let Some(turns) = optional_integer(table, "turns") else {
        return Ok(None);
    };
    let Some(defines) = defines_in(alloc, table)? else {
        return Ok(None);
    };
    let Some(buffers) = buffers_in(alloc, table)? else {
        return Ok(None);
    };
    let Some(list) = launches_in(alloc, format, table)? else {
        return Ok(None);
    };
    Ok(Some(Values {
        lanes,
        turns,
        defines,
        buffers,
        several: format == Format::Three,
        list,
    }))
}
