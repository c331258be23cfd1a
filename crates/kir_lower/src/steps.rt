//! Steps of expressions, whose value takes the place of that of the last operand. Each stands in a
//! function of its own, so that the functions that nest keep little on the stack. The lines stand behind the lines so
//! far. `Memory` is answered where memory was refused, and where a number does not fit in 32 bits; what the value and
//! the lines are is then not said.

ghost use Rattle.std.specs.Prelude.{◌≡◌, [], ◌∷◌, if◌then◌else◌, pos, OnOk};
ghost use Rattle.wg_num.specs.Builtins as builtins;
ghost use Rattle.cl_model.specs.Tree as tree;
ghost use Rattle.cl_model.specs.Valid as valid;
ghost use Rattle.kir.specs.Listed.{lines_of};
ghost use Rattle.kir.specs.Tree.{NoLine, IfThen, Unary, Builtin, Ask, joined_to};
ghost use Rattle.kir_lower.specs.Made as made_spec;
ghost use Rattle.kir_lower.specs.Actions as spec;
ghost use Rattle.kir_lower.specs.Code as code;
ghost use Rattle.kir_lower.specs.View.{made_of, instance_of};

use crate::actions::{
    Change, Element, Part, put_answer, put_assigned, put_binary, put_builtin, put_changed,
    put_choice, put_converted, put_loaded, put_stored, put_truth, put_unary, put_variable,
};
use crate::emit::put_if;
use crate::entering::put_result;
use crate::places::{Instance, Made, Value, constant, int};
use crate::ways::{put_closed, put_fallen};
use cl_model::Query;
use kir::{Atom, Line};
use std::alloc::Global;
use std::mem::replace;
use wg_num::{Bin, Fun, IntType, Memory, Un};

/// An arm of a `switch`: its site, the cell of what is pending around it, the number of the arm that
/// is chosen, whether this arm is fallen into, and its number.
#[derive(Clone, Copy)]
pub struct Entered {
    pub site: u32,
    pub exit: u32,
    pub chosen: Atom,
    pub fallen: Atom,
    pub number: u32,
}

/// The value becomes that of a variable, copied to a new cell (C99, section 6.5.1).
#[inline(never)]
pub fn step_variable(
    here: &Instance<'_>,
    made: &mut Made,
    lines: &mut Vec<Line>,
    x: u32,
    value: &mut Value,
) -> Result<(), Memory>
    ensures lines { OnOk result (lines_of lines.new.items ≡ joined_to (lines_of lines.old.items)
        (spec.action_code (instance_of here.now) (tree.Variable x) [] (made_of made.old)).lines) }
    ensures value { OnOk result (value.new ≡
        (spec.action_code (instance_of here.now) (tree.Variable x) [] (made_of made.old)).value) }
    ensures made { OnOk result (made_of made.new ≡
        (spec.action_code (instance_of here.now) (tree.Variable x) [] (made_of made.old)).made) }
{
    *value = put_variable(here, made, lines, x)?;
    Ok(())
}

/// An operator on the value.
#[inline(never)]
pub fn step_unary(
    made: &mut Made,
    lines: &mut Vec<Line>,
    op: Un,
    of: IntType,
    value: &mut Value,
) -> Result<(), Memory>
    ensures lines { OnOk result (lines_of lines.new.items ≡ joined_to (lines_of lines.old.items)
        (spec.computed (Unary op of value.old.atom) (valid.unary_type op of) (made_of made.old)).lines) }
    ensures value { OnOk result (value.new ≡
        (spec.computed (Unary op of value.old.atom) (valid.unary_type op of) (made_of made.old)).value) }
    ensures made { OnOk result (made_of made.new ≡
        (spec.computed (Unary op of value.old.atom) (valid.unary_type op of) (made_of made.old)).made) }
{
    *value = put_unary(made, lines, op, of, *value)?;
    Ok(())
}

/// An operator on another value and this one.
#[inline(never)]
pub fn step_binary(
    made: &mut Made,
    lines: &mut Vec<Line>,
    op: Bin,
    of: IntType,
    first: &Value,
    value: &mut Value,
) -> Result<(), Memory>
    ensures lines { OnOk result (lines_of lines.new.items ≡ joined_to (lines_of lines.old.items)
        (spec.operated op of first.now.atom value.old.atom (made_of made.old)).lines) }
    ensures value { OnOk result (value.new ≡
        (spec.operated op of first.now.atom value.old.atom (made_of made.old)).value) }
    ensures made { OnOk result (made_of made.new ≡
        (spec.operated op of first.now.atom value.old.atom (made_of made.old)).made) }
{
    *value = put_binary(made, lines, op, of, first.atom, value.atom)?;
    Ok(())
}

/// The value in another type.
#[inline(never)]
pub fn step_converted(
    made: &mut Made,
    lines: &mut Vec<Line>,
    to: IntType,
    value: &mut Value,
) -> Result<(), Memory>
    ensures lines { OnOk result (lines_of lines.new.items ≡ joined_to (lines_of lines.old.items)
        (spec.converted to value.old.atom (made_of made.old)).lines) }
    ensures value { OnOk result (value.new ≡ (spec.converted to value.old.atom (made_of made.old)).value) }
    ensures made { OnOk result (made_of made.new ≡ (spec.converted to value.old.atom (made_of made.old)).made) }
{
    *value = put_converted(made, lines, to, value.atom)?;
    Ok(())
}

/// The value, a dimension, becomes what a work-item function answers for it (OpenCL 1.2, section 6.12.1).
#[inline(never)]
pub fn step_answer(
    made: &mut Made,
    lines: &mut Vec<Line>,
    what: Query,
    value: &mut Value,
) -> Result<(), Memory>
    ensures lines { OnOk result (lines_of lines.new.items ≡ joined_to (lines_of lines.old.items)
        (spec.computed (Ask what value.old.atom) (valid.query_type what) (made_of made.old)).lines) }
    ensures value { OnOk result (value.new ≡
        (spec.computed (Ask what value.old.atom) (valid.query_type what) (made_of made.old)).value) }
    ensures made { OnOk result (made_of made.new ≡
        (spec.computed (Ask what value.old.atom) (valid.query_type what) (made_of made.old)).made) }
{
    *value = put_answer(made, lines, what, *value)?;
    Ok(())
}

/// The value becomes 1 where it is not 0, and else 0, of type `int` (C99, sections 6.5.13 and 6.5.14).
#[inline(never)]
pub fn step_truth(made: &mut Made, lines: &mut Vec<Line>, value: &mut Value) -> Result<(), Memory>
    ensures lines { OnOk result (lines_of lines.new.items ≡ joined_to (lines_of lines.old.items)
        (spec.truth value.old (made_of made.old)).lines) }
    ensures value { OnOk result (value.new ≡ (spec.truth value.old (made_of made.old)).value) }
    ensures made { OnOk result (made_of made.new ≡ (spec.truth value.old (made_of made.old)).made) }
{
    *value = put_truth(made, lines, *value)?;
    Ok(())
}

/// The value becomes that of an integer function on these values, which have the type `of` (OpenCL 1.2, section
/// 6.12.3).
#[inline(never)]
pub fn step_builtin(
    alloc: Global,
    made: &mut Made,
    lines: &mut Vec<Line>,
    f: Fun,
    of: IntType,
    values: &[Value],
    value: &mut Value,
) -> Result<(), Memory>
    ensures lines { OnOk result (lines_of lines.new.items ≡ joined_to (lines_of lines.old.items)
        (spec.computed (Builtin f of (spec.atoms_of values.now)) (builtins.result_type f of)
        (made_of made.old)).lines) }
    ensures value { OnOk result (value.new ≡
        (spec.computed (Builtin f of (spec.atoms_of values.now)) (builtins.result_type f of)
        (made_of made.old)).value) }
    ensures made { OnOk result (made_of made.new ≡
        (spec.computed (Builtin f of (spec.atoms_of values.now)) (builtins.result_type f of)
        (made_of made.old)).made) }
{
    *value = put_builtin(alloc, made, lines, f, of, values)?;
    Ok(())
}

/// The value becomes that of an element, in a new cell (C99, sections 6.3.2.1 and 6.5.2.1).
#[inline(never)]
pub fn step_loaded(
    made: &mut Made,
    lines: &mut Vec<Line>,
    element: &Element,
    value: &mut Value,
) -> Result<(), Memory>
    ensures lines { OnOk result (lines_of lines.new.items ≡ joined_to (lines_of lines.old.items)
        (spec.loaded element.now.site element.now.of element.now.root element.now.index (made_of made.old)).lines) }
    ensures value { OnOk result (value.new ≡
        (spec.loaded element.now.site element.now.of element.now.root element.now.index (made_of made.old)).value) }
    ensures made { OnOk result (made_of made.new ≡
        (spec.loaded element.now.site element.now.of element.now.root element.now.index (made_of made.old)).made) }
{
    *value = put_loaded(made, lines, *element)?;
    Ok(())
}

/// A variable is changed from another value by this one.
#[tactic(auto, using(crate::proofs::Lists::join_assoc))]
#[inline(never)]
pub fn step_changed(
    here: &Instance<'_>,
    made: &mut Made,
    lines: &mut Vec<Line>,
    x: u32,
    change: Change,
    was: &Value,
    value: &mut Value,
) -> Result<(), Memory>
    ensures lines { OnOk result (lines_of lines.new.items ≡ joined_to (lines_of lines.old.items)
        (spec.action_code (instance_of here.now) (tree.Change x change.op change.of change.back change.old)
        (was.now ∷ value.old ∷ []) (made_of made.old)).lines) }
    ensures value { OnOk result (value.new ≡
        (spec.action_code (instance_of here.now) (tree.Change x change.op change.of change.back change.old)
        (was.now ∷ value.old ∷ []) (made_of made.old)).value) }
    ensures made { OnOk result (made_of made.new ≡
        (spec.action_code (instance_of here.now) (tree.Change x change.op change.of change.back change.old)
        (was.now ∷ value.old ∷ []) (made_of made.old)).made) }
{
    let now = put_changed(made, lines, change, was.atom, value.atom)?;
    put_assigned(here, lines, x, now)?;
    *value = if change.old { *was } else { now };
    Ok(())
}

/// An element is changed from another value by this one.
#[tactic(auto, using(crate::proofs::Lists::join_assoc))]
#[inline(never)]
pub fn step_changed_element(
    made: &mut Made,
    lines: &mut Vec<Line>,
    element: &Element,
    change: Change,
    was: &Value,
    value: &mut Value,
) -> Result<(), Memory>
    ensures lines { OnOk result (lines_of lines.new.items ≡ joined_to (lines_of lines.old.items)
        (joined_to (spec.changed change.op change.of change.back was.now.atom value.old.atom
        (made_of made.old)).lines (spec.stored element.now.site element.now.of element.now.root
        element.now.index (spec.changed change.op change.of change.back was.now.atom value.old.atom
        (made_of made.old)).value.atom))) }
    ensures value { OnOk result (value.new ≡
        (if change.old then was.now else (spec.changed change.op change.of change.back was.now.atom value.old.atom
        (made_of made.old)).value)) }
    ensures made { OnOk result (made_of made.new ≡
        (spec.changed change.op change.of change.back was.now.atom value.old.atom (made_of made.old)).made) }
{
    let now = put_changed(made, lines, change, was.atom, value.atom)?;
    put_stored(lines, *element, now.atom)?;
    *value = if change.old { *was } else { now };
    Ok(())
}

/// One of two branches: that with its own value, or that with this one.
#[inline(never)]
pub fn step_choice(
    made: &mut Made,
    lines: &mut Vec<Line>,
    site: u32,
    test: &Value,
    yes: Part,
    no: Vec<Line>,
    value: &mut Value,
) -> Result<(), Memory>
    ensures lines { OnOk result (lines_of lines.new.items ≡ joined_to (lines_of lines.old.items)
        (spec.choice_code site test.now.atom (lines_of yes.lines.items) yes.value (lines_of no.items) value.old
        (made_of made.old)).lines) }
    ensures value { OnOk result (value.new ≡
        (spec.choice_code site test.now.atom (lines_of yes.lines.items) yes.value (lines_of no.items) value.old
        (made_of made.old)).value) }
    ensures made { OnOk result (made_of made.new ≡
        (spec.choice_code site test.now.atom (lines_of yes.lines.items) yes.value (lines_of no.items) value.old
        (made_of made.old)).made) }
{
    let no = Part {
        lines: no,
        value: *value,
    };
    *value = put_choice(made, lines, site, test.atom, yes, no)?;
    Ok(())
}

/// The value, behind its lines, where a test holds, and else the `int` 0: the right operand of `&&` (C99, section
/// 6.5.13).
#[inline(never)]
pub fn step_both(
    alloc: Global,
    made: &mut Made,
    lines: &mut Vec<Line>,
    site: u32,
    test: &Value,
    inside: Vec<Line>,
    value: &mut Value,
) -> Result<(), Memory>
    ensures lines { OnOk result (lines_of lines.new.items ≡ joined_to (lines_of lines.old.items)
        (spec.choice_code site test.now.atom (lines_of inside.items) value.old NoLine
        (made_spec.constant (pos 0) IntType.Int) (made_of made.old)).lines) }
    ensures value { OnOk result (value.new ≡
        (spec.choice_code site test.now.atom (lines_of inside.items) value.old NoLine
        (made_spec.constant (pos 0) IntType.Int) (made_of made.old)).value) }
    ensures made { OnOk result (made_of made.new ≡
        (spec.choice_code site test.now.atom (lines_of inside.items) value.old NoLine
        (made_spec.constant (pos 0) IntType.Int) (made_of made.old)).made) }
{
    let yes = Part {
        lines: inside,
        value: *value,
    };
    let no = Part {
        lines: Vec::new(alloc),
        value: constant(0, IntType::Int),
    };
    *value = put_choice(made, lines, site, test.atom, yes, no)?;
    Ok(())
}

/// The `int` 1 where a test holds, and else the value, behind its lines: the right operand of `||` (C99, section
/// 6.5.14).
#[inline(never)]
pub fn step_either(
    alloc: Global,
    made: &mut Made,
    lines: &mut Vec<Line>,
    site: u32,
    test: &Value,
    inside: Vec<Line>,
    value: &mut Value,
) -> Result<(), Memory>
    ensures lines { OnOk result (lines_of lines.new.items ≡ joined_to (lines_of lines.old.items)
        (spec.choice_code site test.now.atom NoLine (made_spec.constant (pos 1) IntType.Int) (lines_of inside.items)
        value.old (made_of made.old)).lines) }
    ensures value { OnOk result (value.new ≡
        (spec.choice_code site test.now.atom NoLine (made_spec.constant (pos 1) IntType.Int) (lines_of inside.items)
        value.old (made_of made.old)).value) }
    ensures made { OnOk result (made_of made.new ≡
        (spec.choice_code site test.now.atom NoLine (made_spec.constant (pos 1) IntType.Int) (lines_of inside.items)
        value.old (made_of made.old)).made) }
{
    let yes = Part {
        lines: Vec::new(alloc),
        value: constant(1, IntType::Int),
    };
    let no = Part {
        lines: inside,
        value: *value,
    };
    *value = put_choice(made, lines, site, test.atom, yes, no)?;
    Ok(())
}

/// The result of a function, if it has one: a new cell, 0 at first.
#[inline(never)]
pub fn step_result(
    made: &mut Made,
    lines: &mut Vec<Line>,
    gives: Option<IntType>,
    value: &mut Value,
) -> Result<(), Memory>
    ensures lines { OnOk result (lines_of lines.new.items ≡ joined_to (lines_of lines.old.items)
        (code.result_code gives (made_of made.old)).lines) }
    ensures value { OnOk result (value.new ≡ (code.result_code gives (made_of made.old)).value) }
    ensures made { OnOk result (made_of made.new ≡ (code.result_code gives (made_of made.old)).made) }
{
    *value = put_result(made, lines, gives)?;
    Ok(())
}

/// Whether an arm is entered: it is the chosen one, or it is fallen into.
#[tactic(auto, using(crate::proofs::Lists::join_assoc))]
#[inline(never)]
pub fn step_entry(
    made: &mut Made,
    lines: &mut Vec<Line>,
    entered: &Entered,
    value: &mut Value,
) -> Result<(), Memory>
    ensures lines { OnOk result (lines_of lines.new.items ≡ joined_to (lines_of lines.old.items)
        (code.entry_code entered.now.chosen entered.now.fallen entered.now.number (made_of made.old)).lines) }
    ensures value { OnOk result (value.new ≡
        (code.entry_code entered.now.chosen entered.now.fallen entered.now.number (made_of made.old)).value) }
    ensures made { OnOk result (made_of made.new ≡
        (code.entry_code entered.now.chosen entered.now.fallen entered.now.number (made_of made.old)).made) }
{
    let number = int(i128::from(entered.number));
    let chosen = put_binary(made, lines, Bin::Eq, IntType::Int, entered.chosen, number)?;
    *value = put_binary(
        made,
        lines,
        Bin::Or,
        IntType::Int,
        entered.fallen,
        chosen.atom,
    )?;
    Ok(())
}

/// An arm around its lines, which are taken out of their list; whether the next one is fallen into
/// takes the place of whether this one is entered.
#[tactic(auto, using(crate::proofs::Lists::join_assoc))]
#[inline(never)]
pub fn step_arm(
    alloc: Global,
    made: &mut Made,
    lines: &mut Vec<Line>,
    entered: &Entered,
    way: Option<u32>,
    inside: &mut Vec<Line>,
    value: &mut Value,
) -> Result<(), Memory>
    ensures lines { OnOk result (lines_of lines.new.items ≡ joined_to (lines_of lines.old.items)
        (IfThen entered.now.site value.old.atom (lines_of inside.old.items) NoLine
        (spec.fallen_code way entered.now.exit value.old (made_of made.old)).lines)) }
    ensures value { OnOk result (value.new ≡
        (spec.fallen_code way entered.now.exit value.old (made_of made.old)).value) }
    ensures made { OnOk result (made_of made.new ≡
        (spec.fallen_code way entered.now.exit value.old (made_of made.old)).made) }
{
    let taken = replace(inside, Vec::new(alloc));
    put_if(lines, entered.site, value.atom, taken, Vec::new(alloc))?;
    *value = put_fallen(made, lines, way, entered.exit, *value)?;
    Ok(())
}

/// Lines in order, or guarded ones, which are taken out of their list.
#[inline(never)]
pub fn step_closed(
    alloc: Global,
    lines: &mut Vec<Line>,
    guard: Option<u32>,
    exit: u32,
    inside: &mut Vec<Line>,
) -> Result<(), Memory>
    ensures lines { OnOk result (lines_of lines.new.items ≡ joined_to (lines_of lines.old.items)
        (spec.closed guard exit (lines_of inside.old.items) NoLine)) }
    ensures inside { OnOk result (inside.new.items ≡ []) }
{
    let taken = replace(inside, Vec::new(alloc));
    put_closed(alloc, lines, guard, exit, taken)
}
