//! The step of each action on the values of its operands.
//!
//! Each puts its lines behind the lines so far, and its new cells behind those of the kernel. `Memory` is answered
//! where memory was refused, and where a number of a cell, a variable or an element would not fit in 32 bits.

ghost use Rattle.std.specs.Prelude.{◌≡◌, ◌+◌, [], IfOk, OnOk};
ghost use Rattle.wg_num.specs.Builtins as builtins;
ghost use Rattle.cl_model.specs.Tree as tree;
ghost use Rattle.cl_model.specs.Valid as valid;
ghost use Rattle.kir.specs.Listed.{lines_of};
ghost use Rattle.kir.specs.Tree.{ClearThen, Unary, Builtin, Ask, joined_to};
ghost use Rattle.kir_lower.specs.Made as made_spec;
ghost use Rattle.kir_lower.specs.Actions as spec;
ghost use Rattle.kir_lower.specs.View.{made_of, instance_of};

use crate::emit::{put, put_computed, put_copy, put_if};
use crate::places::{Instance, Made, Value, add_value, behind, cell_at, constant, int, type_at};
use cl_model::Root;
use cl_model::types::{binary_type, query_type, unary_type};
use kir::{Atom, Line, Work};
use std::alloc::Global;
use wg_num::{Bin, Fun, IntType, Memory, Un, push, result_type};

/// A compound assignment, `++` or `--`: it computes in `of` and converts to `back`, and gives the
/// old value where `old` is set.
#[derive(Clone, Copy)]
pub struct Change {
    pub op: Bin,
    pub of: IntType,
    pub back: IntType,
    pub old: bool,
}

/// An element of an object of the kernel, which a site accesses: its type, the kernel's root of the object, and the
/// element's number from the start of that, of type `long`.
#[derive(Clone, Copy)]
pub struct Element {
    pub site: u32,
    pub of: IntType,
    pub root: Root,
    pub index: Atom,
}

/// The lines of a branch of `?:`, `&&` or `||` (C99, sections 6.5.13 to 6.5.15), and the value that they give.
#[derive(Drop)]
pub struct Part {
    pub lines: Vec<Line>,
    pub value: Value,
}

/// The value of a variable: a new cell of its type, to which its cell is copied (C99, section 6.5.1).
#[inline(never)]
pub fn put_variable(
    here: &Instance<'_>,
    made: &mut Made,
    lines: &mut Vec<Line>,
    x: u32,
) -> Result<Value, Memory>
    ensures lines { OnOk result (lines_of lines.new.items ≡ joined_to (lines_of lines.old.items)
        (spec.action_code (instance_of here.now) (tree.Variable x) [] (made_of made.old)).lines) }
    ensures value { IfOk result (λ v. v ≡
        (spec.action_code (instance_of here.now) (tree.Variable x) [] (made_of made.old)).value) }
    ensures made { OnOk result (made_of made.new ≡
        (spec.action_code (instance_of here.now) (tree.Variable x) [] (made_of made.old)).made) }
{
    let of = type_at(here, x);
    let cell = cell_at(here, x)?;
    put_computed(made, lines, Work::Copy(Atom::Cell(cell)), of)
}

/// A variable is set: its cell takes the value, which has its type (C99, section 6.5.16.1).
#[inline(never)]
pub fn put_assigned(
    here: &Instance<'_>,
    lines: &mut Vec<Line>,
    x: u32,
    value: Value,
) -> Result<(), Memory>
    ensures { OnOk result (lines_of lines.new.items ≡ joined_to (lines_of lines.old.items)
        (spec.set_to ((instance_of here.now).base + x) value.atom)) }
{
    let cell = cell_at(here, x)?;
    put_copy(lines, cell, value.atom)
}

/// The value of a unary operator on a value that is promoted to `of`, in a new cell (C99, section 6.5.3.3).
#[inline(never)]
pub fn put_unary(
    made: &mut Made,
    lines: &mut Vec<Line>,
    op: Un,
    of: IntType,
    a: Value,
) -> Result<Value, Memory>
    ensures lines { OnOk result (lines_of lines.new.items ≡ joined_to (lines_of lines.old.items)
        (spec.computed (Unary op of a.atom) (valid.unary_type op of) (made_of made.old)).lines) }
    ensures value { IfOk result (λ v. v ≡
        (spec.computed (Unary op of a.atom) (valid.unary_type op of) (made_of made.old)).value) }
    ensures made { OnOk result (made_of made.new ≡
        (spec.computed (Unary op of a.atom) (valid.unary_type op of) (made_of made.old)).made) }
{
    put_computed(
        made,
        lines,
        Work::Unary { op, of, a: a.atom },
        unary_type(op, of),
    )
}

/// The value of a binary operator on atoms of type `of`, where the right one of a shift may have another type, in a new
/// cell; its type is `int` where the operator compares, and else `of` (C99, sections 6.5.5 to 6.5.12).
#[inline(never)]
pub fn put_binary(
    made: &mut Made,
    lines: &mut Vec<Line>,
    op: Bin,
    of: IntType,
    a: Atom,
    b: Atom,
) -> Result<Value, Memory>
    ensures lines { OnOk result (lines_of lines.new.items ≡ joined_to (lines_of lines.old.items)
        (spec.operated op of a b (made_of made.old)).lines) }
    ensures value { IfOk result (λ v. v ≡ (spec.operated op of a b (made_of made.old)).value) }
    ensures made { OnOk result (made_of made.new ≡ (spec.operated op of a b (made_of made.old)).made) }
{
    put_computed(
        made,
        lines,
        Work::Binary { op, of, a, b },
        binary_type(op, of),
    )
}

fn atoms_of(alloc: Global, values: &[Value]) -> Result<Vec<Atom>, Memory>
    ensures { IfOk result (λ v. v.items ≡ spec.atoms_of values.now) }
{
    let mut atoms = Vec::new(alloc);
    for value in values {
        push(&mut atoms, value.atom)?;
    }
    Ok(atoms)
}

/// The value of an integer function on values that are converted to `of`, in a new cell (OpenCL 1.2, section 6.12.3).
#[inline(never)]
pub fn put_builtin(
    alloc: Global,
    made: &mut Made,
    lines: &mut Vec<Line>,
    f: Fun,
    of: IntType,
    values: &[Value],
) -> Result<Value, Memory>
    ensures lines { OnOk result (lines_of lines.new.items ≡ joined_to (lines_of lines.old.items)
        (spec.computed (Builtin f of (spec.atoms_of values.now)) (builtins.result_type f of)
        (made_of made.old)).lines) }
    ensures value { IfOk result (λ v. v ≡
        (spec.computed (Builtin f of (spec.atoms_of values.now)) (builtins.result_type f of)
        (made_of made.old)).value) }
    ensures made { OnOk result (made_of made.new ≡
        (spec.computed (Builtin f of (spec.atoms_of values.now)) (builtins.result_type f of)
        (made_of made.old)).made) }
{
    let args = atoms_of(alloc, values)?;
    put_computed(
        made,
        lines,
        Work::Builtin { f, of, args },
        result_type(f, of),
    )
}

/// An atom converted to a type, in a new cell of that type (C99, section 6.3.1.3).
#[inline(never)]
pub fn put_converted(
    made: &mut Made,
    lines: &mut Vec<Line>,
    to: IntType,
    a: Atom,
) -> Result<Value, Memory>
    ensures lines { OnOk result (lines_of lines.new.items ≡ joined_to (lines_of lines.old.items)
        (spec.converted to a (made_of made.old)).lines) }
    ensures value { IfOk result (λ v. v ≡ (spec.converted to a (made_of made.old)).value) }
    ensures made { OnOk result (made_of made.new ≡ (spec.converted to a (made_of made.old)).made) }
{
    put_computed(made, lines, Work::Convert { to, a }, to)
}

/// What a work-item function answers for a dimension, in a new cell (OpenCL 1.2, section 6.12.1).
#[inline(never)]
pub fn put_answer(
    made: &mut Made,
    lines: &mut Vec<Line>,
    what: cl_model::Query,
    dim: Value,
) -> Result<Value, Memory>
    ensures lines { OnOk result (lines_of lines.new.items ≡ joined_to (lines_of lines.old.items)
        (spec.computed (Ask what dim.atom) (valid.query_type what) (made_of made.old)).lines) }
    ensures value { IfOk result (λ v. v ≡
        (spec.computed (Ask what dim.atom) (valid.query_type what) (made_of made.old)).value) }
    ensures made { OnOk result (made_of made.new ≡
        (spec.computed (Ask what dim.atom) (valid.query_type what) (made_of made.old)).made) }
{
    put_computed(
        made,
        lines,
        Work::Ask {
            what,
            dim: dim.atom,
        },
        query_type(what),
    )
}

/// Whether a value is not 0, as an `int` of 0 or 1 in a new cell (C99, sections 6.5.13 and 6.5.14).
#[inline(never)]
pub fn put_truth(made: &mut Made, lines: &mut Vec<Line>, a: Value) -> Result<Value, Memory>
    ensures lines { OnOk result (lines_of lines.new.items ≡ joined_to (lines_of lines.old.items)
        (spec.truth a (made_of made.old)).lines) }
    ensures value { IfOk result (λ v. v ≡ (spec.truth a (made_of made.old)).value) }
    ensures made { OnOk result (made_of made.new ≡ (spec.truth a (made_of made.old)).made) }
{
    put_binary(made, lines, Bin::Ne, a.of, a.atom, constant(0, a.of).atom)
}

/// The value of an element of an object, in a new cell of the element's type (C99, sections 6.3.2.1 and 6.5.2.1).
#[inline(never)]
pub fn put_loaded(made: &mut Made, lines: &mut Vec<Line>, element: Element) -> Result<Value, Memory>
    ensures lines { OnOk result (lines_of lines.new.items ≡ joined_to (lines_of lines.old.items)
        (spec.loaded element.site element.of element.root element.index (made_of made.old)).lines) }
    ensures value { IfOk result (λ v. v ≡
        (spec.loaded element.site element.of element.root element.index (made_of made.old)).value) }
    ensures made { OnOk result (made_of made.new ≡
        (spec.loaded element.site element.of element.root element.index (made_of made.old)).made) }
{
    let to = add_value(made, element.of)?;
    put(
        lines,
        Line::Load {
            site: element.site,
            to,
            element: element.of,
            root: element.root,
            index: element.index,
        },
    )?;
    Ok(Value {
        atom: Atom::Cell(to),
        of: element.of,
    })
}

/// An element of an object is set to an atom of its type (C99, section 6.5.16.1).
#[inline(never)]
pub fn put_stored(lines: &mut Vec<Line>, element: Element, from: Atom) -> Result<(), Memory>
    ensures { OnOk result (lines_of lines.new.items ≡ joined_to (lines_of lines.old.items)
        (spec.stored element.site element.of element.root element.index from)) }
{
    put(
        lines,
        Line::Store {
            site: element.site,
            element: element.of,
            root: element.root,
            index: element.index,
            from,
        },
    )
}

/// The new value of a compound assignment, `++` or `--`, in the last of three new cells: the old value is converted to
/// the type in which the operator computes, and what that gives is converted back (C99, section 6.5.16.2).
#[tactic(auto, using(crate::proofs::Lists::join_assoc))]
#[inline(never)]
pub fn put_changed(
    made: &mut Made,
    lines: &mut Vec<Line>,
    change: Change,
    was: Atom,
    by: Atom,
) -> Result<Value, Memory>
    ensures lines { OnOk result (lines_of lines.new.items ≡ joined_to (lines_of lines.old.items)
        (spec.changed change.op change.of change.back was by (made_of made.old)).lines) }
    ensures value { IfOk result (λ v. v ≡
        (spec.changed change.op change.of change.back was by (made_of made.old)).value) }
    ensures made { OnOk result (made_of made.new ≡
        (spec.changed change.op change.of change.back was by (made_of made.old)).made) }
{
    let was = put_converted(made, lines, change.of, was)?;
    let now = put_binary(made, lines, change.op, change.of, was.atom, by)?;
    put_converted(made, lines, change.back, now.atom)
}

/// The value of one of two branches, in a new cell that the last lines of both set (C99, section 6.5.15).
#[inline(never)]
pub fn put_choice(
    made: &mut Made,
    lines: &mut Vec<Line>,
    site: u32,
    test: Atom,
    yes: Part,
    no: Part,
) -> Result<Value, Memory>
    ensures lines { OnOk result (lines_of lines.new.items ≡ joined_to (lines_of lines.old.items)
        (spec.choice_code site test (lines_of yes.lines.items) yes.value (lines_of no.lines.items) no.value
        (made_of made.old)).lines) }
    ensures value { IfOk result (λ v. v ≡
        (spec.choice_code site test (lines_of yes.lines.items) yes.value (lines_of no.lines.items) no.value
        (made_of made.old)).value) }
    ensures made { OnOk result (made_of made.new ≡
        (spec.choice_code site test (lines_of yes.lines.items) yes.value (lines_of no.lines.items) no.value
        (made_of made.old)).made) }
{
    let of = yes.value.of;
    let Part {
        lines: mut first,
        value: chosen,
    } = yes;
    let Part {
        lines: mut second,
        value: other,
    } = no;
    let to = add_value(made, of)?;
    put_copy(&mut first, to, chosen.atom)?;
    put_copy(&mut second, to, other.atom)?;
    put_if(lines, site, test, first, second)?;
    Ok(Value {
        atom: Atom::Cell(to),
        of,
    })
}

/// The stores of values into the elements of a private array, from the first on.
#[tactic(auto, using(crate::proofs::Lists::join_assoc, crate::proofs::Lists::join_none))]
fn put_initial(
    lines: &mut Vec<Line>,
    site: u32,
    of: IntType,
    array: u32,
    values: &[Value],
) -> Result<(), Memory>
    ensures { OnOk result (lines_of lines.new.items ≡ joined_to (lines_of lines.old.items)
        (spec.initial_lines site of array 0 values.now)) }
{
    let mut rest = values;
    let mut k = 0u32;
    while let Some((value, others)) = rest.split_first() {
        let element = Element {
            site,
            of,
            root: Root::Private(array),
            index: constant(i128::from(k), IntType::Long).atom,
        };
        put_stored(lines, element, value.atom)?;
        k = behind(k, 1)?;
        rest = others;
    }
    Ok(())
}

/// A private array is set to zeros, and its first elements to the values (C99, section 6.7.8).
#[tactic(auto, using(crate::proofs::Lists::join_assoc))]
#[inline(never)]
pub fn put_filled(
    lines: &mut Vec<Line>,
    site: u32,
    of: IntType,
    array: u32,
    values: &[Value],
) -> Result<(), Memory>
    ensures { OnOk result (lines_of lines.new.items ≡ joined_to (lines_of lines.old.items)
        (ClearThen array (spec.initial_lines site of array 0 values.now))) }
{
    put(lines, Line::Clear { array })?;
    put_initial(lines, site, of, array, values)
}

/// The cell of a loop's or a call's exit is set to the number of a way out (C99, section 6.8.6).
#[inline(never)]
pub fn put_exit(lines: &mut Vec<Line>, exit: u32, way: i128) -> Result<(), Memory>
    ensures { OnOk result (lines_of lines.new.items ≡ joined_to (lines_of lines.old.items)
        (spec.set_to exit (made_spec.int way))) }
{
    put_copy(lines, exit, int(way))
}
