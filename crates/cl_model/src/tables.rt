//! How many bytes an array has, and copies of arrays and tables.

ghost use Rattle.std.specs.Prelude.{◌≡◌, [], map, IfOk};
ghost use Rattle.wg_num.specs.Bytes.{size_of};
ghost use Rattle.cl_model.specs.Sizes.{product};
ghost use Rattle.cl_model.specs.Objects.{array_bytes};
ghost use Rattle.cl_model.specs.View.{array_of, table_of};

use crate::program::{Array, Table};
use std::alloc::Global;
use wg_num::{Memory, copy_list, push, size_of};

/// How many elements an array of these lengths has, 1 for none (C99 6.5.2.1); `Memory` where the
/// product passes 64 bits on the way.
pub fn product_of(lengths: &[u64]) -> Result<u64, Memory>
    ensures { IfOk result (λ n. n ≡ product lengths.now) }
{
    let mut so_far = 1u64;
    for length in lengths {
        let Some(longer) = so_far.checked_mul(*length) else {
            return Err(Memory);
        };
        so_far = longer;
    }
    Ok(so_far)
}

/// How many bytes the array has; `Memory` where 64 bits do not count them.
pub fn bytes_of_array(array: &Array) -> Result<u64, Memory>
    ensures { IfOk result (λ n. n ≡ array_bytes (array_of array.now)) }
{
    let count = product_of(&array.dims)?;
    count
        .checked_mul(size_of(array.element) as u64)
        .ok_or(Memory)
}

/// An array with the same parts; `Memory` where none is to be had.
pub fn copy_array(alloc: Global, array: &Array) -> Result<Array, Memory>
    ensures { IfOk result (λ a. array_of a ≡ array_of array.now) }
{
    let name = array.name.copy(alloc)?;
    let dims = copy_list(alloc, &array.dims)?;
    Ok(Array {
        name,
        space: array.space,
        element: array.element,
        dims,
        place: array.place,
    })
}

/// A table with the same parts; `Memory` where none is to be had.
pub fn copy_table(alloc: Global, table: &Table) -> Result<Table, Memory>
    ensures { IfOk result (λ t. table_of t ≡ table_of table.now) }
{
    let array = copy_array(alloc, &table.array)?;
    let bytes = copy_list(alloc, &table.bytes)?;
    Ok(Table { array, bytes })
}

/// The same tables in the same order; `Memory` where none are to be had.
pub fn copy_tables(alloc: Global, tables: &[Table]) -> Result<Vec<Table>, Memory>
    ensures { IfOk result (λ v. map table_of v.items ≡ map table_of tables.now) }
{
    let mut list = Vec::new(alloc);
    for table in tables {
        let copied = copy_table(alloc, table)?;
        push(&mut list, copied)?;
    }
    Ok(list)
}
