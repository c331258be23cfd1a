//! The bytes of the constant tables of a unit.
ghost use Rattle.std.specs.Prelude.{◌≡◌, ◌++◌, ◌*◌, [], map, OnOk, IfOk};
ghost use Rattle.cl_tree.specs.Syntax.{view};
ghost use Rattle.wg_num.specs.Wrap.{IsValue};
ghost use Rattle.wg_num.specs.Bytes.{bytes_of, size_of as bytes_in};
ghost use Rattle.cl_model.specs.Sizes.{product};
ghost use Rattle.cl_meaning.specs.Constants as constants;
ghost use Rattle.cl_meaning.specs.Declarations as spec;
ghost use Rattle.cl_scope.specs.Declarators.{declarator_view};

use crate::declarator::{Declarator, has_list};
use cl_meaning::{Declared, constant_of};
use cl_model::product_of;
use cl_tree::Tree;
use std::alloc::Global;
use wg_num::{IntType, Memory, bits, push, size_of, wrap};

/// Pushes the bytes of a value, lowest first.
fn push_value(bytes: &mut Vec<u8>, of: IntType, value: i128) -> Result<(), Memory>
    requires { IsValue of value }
    ensures { OnOk result (bytes.new.items ≡ bytes.old.items ++ bytes_of of value) }
{
    let mut rest = bits(of, value);
    for _place in 0..size_of(of) {
        push(bytes, (rest % 256) as u8)?;
        rest /= 256;
    }
    Ok(())
}

/// Pushes the bytes of a constant as an element of this type.
fn push_constant(bytes: &mut Vec<u8>, of: IntType, tree: &Tree) -> Result<(), Memory>
    ensures { OnOk result (bytes.new.items ≡ bytes.old.items ++
        spec.constant_bytes of (constants.constant_of (view tree.now))) }
{
    match constant_of(tree) {
        Some(constant) => push_value(bytes, of, wrap(of, constant.value)),
        None => Ok(()),
    }
}

/// Pushes the bytes of constants as elements of this type.
fn push_constants(bytes: &mut Vec<u8>, of: IntType, trees: &[Tree]) -> Result<(), Memory>
    ensures { OnOk result (bytes.new.items ≡ bytes.old.items ++ spec.all_bytes of (map view trees.now)) }
{
    for tree in trees {
        push_constant(bytes, of, tree)?;
    }
    Ok(())
}

/// How many bytes a table of these lengths has.
fn table_size(of: IntType, lengths: &[u64]) -> Result<usize, Memory>
    ensures { IfOk result (λ n. n ≡ product lengths.now * bytes_in of) }
{
    match product_of(lengths)?.checked_mul(u64::from(size_of(of))) {
        Some(size) => Ok(size as usize),
        None => Err(Memory),
    }
}

/// Pushes the bytes of the initialiser.
#[tactic(auto, using(cl_meaning::proofs::Views::view_out))]
fn push_initial(bytes: &mut Vec<u8>, of: IntType, declarator: &Declarator) -> Result<(), Memory>
    ensures { OnOk result (bytes.new.items ≡ bytes.old.items ++
        spec.all_bytes of (spec.initial_values (declarator_view declarator.now).init)) }
{
    let many = has_list(declarator);
    match declarator.init {
        Some(tree) => {
            if many {
                return push_constants(bytes, of, &tree.parts);
            }
            push_constant(bytes, of, tree)
        }
        None => Ok(()),
    }
}

/// Pushes zeros until there are so many bytes.
fn fill(bytes: &mut Vec<u8>, size: usize) -> Result<(), Memory>
    ensures { OnOk result (bytes.new.items ≡ spec.filled size bytes.old.items) }
{
    if bytes.len() >= size {
        return Ok(());
    }
    match bytes.resize(size, 0) {
        Ok(()) => Ok(()),
        Err(_) => Err(Memory),
    }
}

/// The bytes of a table of the unit: its initialiser, and zeros behind it.
pub(crate) fn table_bytes(
    alloc: Global,
    declared: Declared,
    lengths: &[u64],
    declarator: &Declarator,
) -> Result<Vec<u8>, Memory>
    ensures { IfOk result (λ v. v.items ≡ spec.table_bytes declared lengths.now (declarator_view declarator.now)) }
{
    let size = table_size(declared.of, lengths)?;
    let mut bytes = Vec::new(alloc);
    push_initial(&mut bytes, declared.of, declarator)?;
    fill(&mut bytes, size)?;
    Ok(bytes)
}
