//! The values of a launch file: the parts that stand alone.
ghost use Rattle.std.specs.Prelude.{◌≡◌, ◌≤◌, IfOk, IfSome, IsUtf8, All, option_map, option_and_then};
ghost use Rattle.std.specs.Prelude.{codes};
ghost use Rattle.std.specs.List.{list_all};
ghost use Rattle.cl_token.specs.Bytes as class;
ghost use Rattle.toml.specs.View.{view, table_view, items_view};
ghost use Rattle.toml.specs.Data.{as_table, as_str, as_integer, get_member};
ghost use Rattle.launch_file.specs.Keys.{given};
ghost use Rattle.launch_file.specs.Values as spec;

use crate::keys::{integer_at, optional_string, string_at, value_at};
use crate::text::{ArgText, BufferText};
use cl_prep::Define;
use cl_token::{is_name_byte, is_name_start};
use std::alloc::Global;
use toml::{Table, Value};
use wg_num::{Memory, Word};

fn are_name_bytes(bytes: &[u8]) -> bool
    ensures { result ≡ list_all class.is_name_byte bytes.now }
{
    for byte in bytes {
        if !is_name_byte(*byte) {
            return false;
        }
    }
    true
}

/// Whether the text is an identifier of the language (C99, section 6.4.2.1).
fn is_identifier(text: &[u8]) -> bool
    ensures { result ≡ spec.is_identifier text.now }
{
    match text {
        [first, rest @ ..] => {
            if is_name_start(*first) {
                are_name_bytes(rest)
            } else {
                false
            }
        }
        [] => false,
    }
}

fn copied(alloc: Global, text: Option<&str>) -> Result<Option<Word>, Memory>
    ensures same { IfOk result (λ word. word ≡ option_map (λ s. s.now) text.entry) }
    ensures text { IfOk result (λ word. IfSome word IsUtf8) }
{
    match text {
        Some(text) => {
            let word = Word::new(alloc, text.as_bytes())?;
            Ok(Some(word))
        }
        None => Ok(None),
    }
}

fn buffer_of(alloc: Global, table: &Table) -> Result<Option<BufferText>, Memory>
    ensures same { IfOk result (λ o. o ≡ spec.buffer_of (table_view table.now)) }
    ensures texts { IfOk result (λ o. IfSome o spec.HasTexts) }
{
    let Some(name) = string_at(table, "name") else {
        return Ok(None);
    };
    let Some(bytes) = integer_at(table, "bytes") else {
        return Ok(None);
    };
    let Some(load) = optional_string(table, "load") else {
        return Ok(None);
    };
    let Some(save) = optional_string(table, "save") else {
        return Ok(None);
    };
    let name = Word::new(alloc, name.as_bytes())?;
    let load = copied(alloc, load)?;
    let save = copied(alloc, save)?;
    Ok(Some(BufferText {
        name,
        bytes,
        load,
        save,
    }))
}

fn buffer_item(alloc: Global, value: &Value) -> Result<Option<BufferText>, Memory>
    ensures same { IfOk result (λ o. o ≡ given (as_table (view value.now)) spec.buffer_of) }
    ensures texts { IfOk result (λ o. IfSome o spec.HasTexts) }
{
    match value.as_table() {
        Some(table) => buffer_of(alloc, table),
        None => Ok(None),
    }
}

fn buffers_of(alloc: Global, items: &[Value]) -> Result<Option<Vec<BufferText>>, Memory>
    ensures same { IfOk result (λ o. option_map (λ v. v.items) o ≡ spec.buffers_of (items_view items.now)) }
    ensures texts { IfOk result (λ o. IfSome o (λ v. All spec.HasTexts v.items)) }
{
    let mut list = Vec::new(alloc);
    for value in items {
        let Some(buffer) = buffer_item(alloc, value)? else {
            return Ok(None);
        };
        if list.push(buffer).is_err() {
            return Err(Memory);
        }
    }
    Ok(Some(list))
}

/// The buffers of a file; none where it has no such key.
pub(crate) fn buffers_in(alloc: Global, table: &Table) -> Result<Option<Vec<BufferText>>, Memory>
    ensures same { IfOk result (λ o. option_map (λ v. v.items) o ≡
        spec.optional_buffers (get_member (codes "buffer") (table_view table.now))) }
    ensures texts { IfOk result (λ o. IfSome o (λ v. All spec.HasTexts v.items)) }
{
    match value_at(table, "buffer") {
        Some(value) => match value.as_array() {
            Some(items) => buffers_of(alloc, items),
            None => Ok(None),
        },
        None => Ok(Some(Vec::new(alloc))),
    }
}

fn buffer_named(alloc: Global, value: &Value) -> Result<Option<ArgText>, Memory>
    ensures { IfOk result (λ o. o ≡ option_map ArgText.Buffer (as_str (view value.now))) }
{
    match value.as_str() {
        Some(name) => {
            let word = Word::new(alloc, name.as_bytes())?;
            Ok(Some(ArgText::Buffer(word)))
        }
        None => Ok(None),
    }
}

fn value_given(value: &Value) -> Option<ArgText>
    ensures { result ≡ option_map ArgText.Value (as_integer (view value.now)) }
{
    match value.as_integer() {
        Some(number) => Some(ArgText::Value(number)),
        None => None,
    }
}

fn local_bytes(value: &Value) -> Option<ArgText>
    ensures { result ≡ option_map ArgText.Local (as_integer (view value.now)) }
{
    match value.as_integer() {
        Some(number) => Some(ArgText::Local(number)),
        None => None,
    }
}

fn arg_of(alloc: Global, table: &Table) -> Result<Option<ArgText>, Memory>
    ensures { IfOk result (λ o. o ≡ spec.arg_of (table_view table.now)) }
{
    let buffer = value_at(table, "buffer");
    let value = value_at(table, "value");
    let local = value_at(table, "local");
    match (buffer, value, local) {
        (Some(buffer), None, None) => buffer_named(alloc, buffer),
        (None, Some(value), None) => Ok(value_given(value)),
        (None, None, Some(local)) => Ok(local_bytes(local)),
        _ => Ok(None),
    }
}

fn arg_item(alloc: Global, value: &Value) -> Result<Option<ArgText>, Memory>
    ensures { IfOk result (λ o. o ≡ given (as_table (view value.now)) spec.arg_of) }
{
    match value.as_table() {
        Some(table) => arg_of(alloc, table),
        None => Ok(None),
    }
}

fn args_of(alloc: Global, items: &[Value]) -> Result<Option<Vec<ArgText>>, Memory>
    ensures { IfOk result (λ o. option_map (λ v. v.items) o ≡ spec.args_of (items_view items.now)) }
{
    let mut list = Vec::new(alloc);
    for value in items {
        let Some(arg) = arg_item(alloc, value)? else {
            return Ok(None);
        };
        if list.push(arg).is_err() {
            return Err(Memory);
        }
    }
    Ok(Some(list))
}

/// The arguments of a launch; none where it has no such key.
pub(crate) fn args_in(alloc: Global, table: &Table) -> Result<Option<Vec<ArgText>>, Memory>
    ensures { IfOk result (λ o. option_map (λ v. v.items) o ≡
        spec.optional_args (get_member (codes "arg") (table_view table.now))) }
{
    match value_at(table, "arg") {
        Some(value) => match value.as_array() {
            Some(items) => args_of(alloc, items),
            None => Ok(None),
        },
        None => Ok(Some(Vec::new(alloc))),
    }
}

fn natural(value: &Value) -> Option<u64>
    ensures same { result ≡ option_and_then spec.natural (as_integer (view value.now)) }
    ensures small { IfSome result (λ n. n ≤ 9223372036854775807) }
{
    match value.as_integer() {
        Some(number) => {
            if number < 0 {
                None
            } else {
                Some(number as u64)
            }
        }
        None => None,
    }
}

#[tactic(auto, unfolding(crate::specs::Values::define_of))]
fn define_of(alloc: Global, key: &str, value: &Value) -> Result<Option<Define>, Memory>
    ensures same { IfOk result (λ o. o ≡ spec.define_of key.now (view value.now)) }
    ensures numbers { IfOk result (λ o. IfSome o spec.HasNumber) }
{
    let Some(number) = natural(value) else {
        return Ok(None);
    };
    if !is_identifier(key.as_bytes()) {
        return Ok(None);
    }
    let name = Word::new(alloc, key.as_bytes())?;
    Ok(Some(Define {
        name,
        value: number,
    }))
}

fn defines_of(alloc: Global, table: &Table) -> Result<Option<Vec<Define>>, Memory>
    ensures same { IfOk result (λ o. option_map (λ v. v.items) o ≡ spec.defines_of (table_view table.now)) }
    ensures numbers { IfOk result (λ o. IfSome o (λ v. All spec.HasNumber v.items)) }
{
    let mut list = Vec::new(alloc);
    for (key, value) in table {
        let Some(define) = define_of(alloc, key.as_str(), value)? else {
            return Ok(None);
        };
        if list.push(define).is_err() {
            return Err(Memory);
        }
    }
    Ok(Some(list))
}

/// The given names of a file; none where it has no such key.
pub(crate) fn defines_in(alloc: Global, table: &Table) -> Result<Option<Vec<Define>>, Memory>
    ensures same { IfOk result (λ o. option_map (λ v. v.items) o ≡
        spec.optional_defines (get_member (codes "defines") (table_view table.now))) }
    ensures numbers { IfOk result (λ o. IfSome o (λ v. All spec.HasNumber v.items)) }
{
    match value_at(table, "defines") {
        Some(value) => match value.as_table() {
            Some(names) => defines_of(alloc, names),
            None => Ok(None),
        },
        None => Ok(Some(Vec::new(alloc))),
    }
}
