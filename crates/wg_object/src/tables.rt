//! Words and constant tables, as bytes and back.

ghost use Rattle.std.specs.Prelude.{◌≡◌, ◌++◌, ◌∷◌, OnOk, IfOk, length, map};
ghost use Rattle.wg_object.specs.Plain.{table_of};
ghost use Rattle.wg_object.specs.Reading as reading;
ghost use Rattle.wg_object.specs.Text as texts;
ghost use Rattle.wg_object.specs.Valid as valid;

use crate::items::{place_at, put_list, put_place, take_list};
use crate::numbers::{space_number, space_of, type_number};
use crate::parts::{byte_at, eight_at, type_at};
use crate::puts::{eight, put};
use cl_model::{Array, Table};
use std::alloc::Global;
use wg_num::{Memory, Word, push};

/// Puts bytes behind their count.
pub(crate) fn put_word(out: &mut Vec<u8>, word: &[u8]) -> Result<(), Memory>
    ensures put { OnOk result (out.new.items ≡ out.old.items ++ texts.word_text word.now) }
    ensures fits { valid.IsList valid.IsByte word.now }
{
    put(out, &eight(word.len() as u64))?;
    put(out, word)
}

/// Bytes behind their count, fewer where they end.
#[tactic(auto, unfolding(crate::specs::Reading::word_at))]
fn word_at(bytes: &[u8]) -> (&[u8], &[u8])
    ensures { (result.0.now, result.1.now) ≡ reading.word_at bytes.now }
{
    let (count, rest) = eight_at(bytes);
    let most = (rest.len() as u64).min(count) as usize;
    rest.split_at(most)
}

pub(crate) fn take_word(alloc: Global, bytes: &[u8]) -> Result<(Word, &[u8]), Memory>
    ensures { IfOk result (λ x. (x.0, x.1.now) ≡ reading.word_at bytes.now) }
{
    let (front, rest) = word_at(bytes);
    let word = Word::new(alloc, front)?;
    Ok((word, rest))
}

fn take_bytes(alloc: Global, bytes: &[u8]) -> Result<(Vec<u8>, &[u8]), Memory>
    ensures { IfOk result (λ x. (x.0.items, x.1.now) ≡ reading.word_at bytes.now) }
{
    let (front, rest) = word_at(bytes);
    match front.to_vec(alloc) {
        Ok(list) => Ok((list, rest)),
        Err(_) => Err(Memory),
    }
}

fn put_table(out: &mut Vec<u8>, table: &Table) -> Result<(), Memory>
    ensures put { OnOk result (out.new.items ≡ out.old.items ++ texts.table_text (table_of table.now)) }
    ensures fits { OnOk result (valid.IsTable (table_of table.now)) }
{
    let array = &table.array;
    put_word(out, array.name.bytes())?;
    put(
        out,
        &[space_number(array.space), type_number(array.element)],
    )?;
    put_list(out, &array.dims)?;
    put_place(out, array.place)?;
    put_word(out, &table.bytes)
}

fn put_each(out: &mut Vec<u8>, tables: &[Table]) -> Result<(), Memory>
    ensures put { OnOk result (out.new.items ≡ out.old.items ++
        texts.flat_texts texts.table_text (map table_of tables.now)) }
    ensures fit { OnOk result (valid.AllFit valid.IsTable (map table_of tables.now)) }
{
    for table in tables {
        put_table(out, table)?;
    }
    Ok(())
}

/// Puts tables behind their count.
pub(crate) fn put_tables(out: &mut Vec<u8>, tables: &[Table]) -> Result<(), Memory>
    ensures put { OnOk result (out.new.items ≡ out.old.items ++
        texts.list_text texts.table_text (map table_of tables.now)) }
    ensures fit { OnOk result (valid.IsList valid.IsTable (map table_of tables.now)) }
{
    put(out, &eight(tables.len() as u64))?;
    put_each(out, tables)
}

#[tactic(auto, unfolding(crate::specs::Reading::table_at))]
fn table_at(alloc: Global, bytes: &[u8]) -> Result<(Table, &[u8]), Memory>
    ensures { IfOk result (λ x. (table_of x.0, x.1.now) ≡ reading.table_at bytes.now) }
{
    let (name, rest) = take_word(alloc, bytes)?;
    let (space, rest) = byte_at(rest);
    let (element, rest) = type_at(rest);
    let (dims, rest) = take_list::<u64>(alloc, rest)?;
    let (place, rest) = place_at(rest);
    let (bytes, rest) = take_bytes(alloc, rest)?;
    let space = space_of(space);
    let array = Array {
        name,
        space,
        element,
        dims,
        place,
    };
    Ok((Table { array, bytes }, rest))
}

/// So many tables, fewer where the bytes end.
fn tables_at(alloc: Global, count: u64, bytes: &[u8]) -> Result<(Vec<Table>, &[u8]), Memory>
    ensures { IfOk result (λ x. (map table_of x.0.items, x.1.now) ≡ reading.items_at reading.table_at count bytes.now) }
{
    let mut tables = Vec::new(alloc);
    let mut rest = bytes;
    for _ in 0..count {
        if rest.is_empty() {
            return Ok((tables, rest));
        }
        let (table, after) = table_at(alloc, rest)?;
        push(&mut tables, table)?;
        rest = after;
    }
    Ok((tables, rest))
}

/// Tables behind their count.
#[tactic(auto, unfolding(crate::specs::Reading::list_at))]
pub(crate) fn take_tables(alloc: Global, bytes: &[u8]) -> Result<(Vec<Table>, &[u8]), Memory>
    ensures { IfOk result (λ x. (map table_of x.0.items, x.1.now) ≡ reading.list_at reading.table_at bytes.now) }
{
    let (count, rest) = eight_at(bytes);
    tables_at(alloc, count, rest)
}
