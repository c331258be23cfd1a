//! A call: a function's cells and arrays, its parameters and its result.

ghost use Rattle.std.specs.Prelude.{◌≡◌, ◌+◌, ◌++◌, ◌∷◌, [], IfOk, OnOk, length, map};
ghost use Rattle.cl_model.specs.Tree as tree;
ghost use Rattle.cl_model.specs.Valid as valid;
ghost use Rattle.cl_model.specs.View.{function_of, program_of, root_of};
ghost use Rattle.kir.specs.Listed.{lines_of, cell_of};
ghost use Rattle.kir.specs.Tree.{OfVariable, joined_to};
ghost use Rattle.cl_model.specs.Listed.{listed_roots};
ghost use Rattle.kir_lower.specs.Made as spec;
ghost use Rattle.kir_lower.specs.Code as code;
ghost use Rattle.kir_lower.specs.Whole as whole;
ghost use Rattle.kir_lower.specs.View.{made_of, instance_of, names_in, names_listed, way_of};

use crate::emit::{put_copy, put_set};
use crate::places::{
    Callee, Instance, Made, Value, add_arrays, add_value, behind, constant, elements_of,
    longer_calls, longer_places, number, place_at, root_in, types_of,
};
use cl_model::types::kind_type;
use cl_model::{Arg, Function, Program, Root, Var, VarKind};
use kir::{Atom, Cell, CellKind, Line, Work};
use std::alloc::Global;
use wg_num::{IntType, Memory, Place, push};

/// The kernel's root that an argument names; that of a number does not matter.
fn argument_root(here: &Instance<'_>, argument: &Arg) -> Result<Root, Memory>
    ensures { IfOk result (λ r. r ≡ spec.argument_root (instance_of here.now) (root_of argument.now)) }
{
    match argument {
        Arg::Value(_) => Ok(Root::Param(0)),
        Arg::Offset { root, .. } => root_in(here, *root),
    }
}

/// The kernel's root that each argument names; that of a number does not matter.
#[inline(never)]
pub fn roots_in(alloc: Global, here: &Instance<'_>, args: &[Arg]) -> Result<Vec<Root>, Memory>
    ensures { IfOk result (λ v. v.items ≡ spec.argument_roots (instance_of here.now) (listed_roots args.now)) }
{
    let mut roots = Vec::new(alloc);
    let mut rest = args;
    while let Some((argument, others)) = rest.split_first() {
        let root = argument_root(here, argument)?;
        push(&mut roots, root)?;
        rest = others;
    }
    Ok(roots)
}

/// The cell of a variable of a function behind these calls.
fn variable_cell(
    alloc: Global,
    calls: &[u32],
    places: &[Place],
    function: u32,
    var: u32,
    declared: &Var,
) -> Result<Cell, Memory>
    ensures { IfOk result (λ c. cell_of c ≡
        record {
          kind = OfVariable (record { calls = calls.now; function = function; number = var }) (places.now ++
              declared.now.place ∷ []) declared.now.name;
          of = valid.kind_type declared.now.kind;
        }) }
{
    let path = longer_places(alloc, places, declared.place)?;
    let name = declared.name.copy(alloc)?;
    match calls.to_vec(alloc) {
        Ok(calls) => Ok(Cell {
            kind: CellKind::Variable {
                calls,
                function,
                var,
                path,
                name,
            },
            of: kind_type(declared.kind),
        }),
        Err(_) => Err(Memory),
    }
}

/// Makes the cells of a function's variables.
fn add_variables(
    alloc: Global,
    made: &mut Made,
    calls: &[u32],
    places: &[Place],
    function: u32,
    vars: &[Var],
) -> Result<(), Memory>
    ensures arrays { OnOk result (made.new.arrays ≡ made.old.arrays) }
    ensures cells { OnOk result (map cell_of made.new.cells.items ≡ map cell_of made.old.cells.items ++
        spec.variable_cells calls.now places.now function 0 (names_listed vars.now) (map (λ v. v.kind) vars.now)) }
{
    let mut rest = vars;
    let mut var = 0u32;
    while let Some((declared, others)) = rest.split_first() {
        let cell = variable_cell(alloc, calls, places, function, var, declared)?;
        push(&mut made.cells, cell)?;
        var = behind(var, 1)?;
        rest = others;
    }
    Ok(())
}

/// Who stands there: how deep calls may nest, the calls that lead there, their places, the number of the function.
#[derive(Drop)]
pub struct Way {
    pub depth: usize,
    pub calls: Vec<u32>,
    pub places: Vec<Place>,
    pub roots: Vec<Root>,
    pub function: u32,
}

/// What a function keeps of its variables and arrays: their types, and where they begin.
#[derive(Drop)]
struct Room {
    types: Vec<IntType>,
    elements: Vec<IntType>,
    base: u32,
    arrays: u32,
    answer: u32,
}

/// The room of a function behind what is made.
fn room_for(alloc: Global, made: &Made, function: &Function) -> Result<Room, Memory>
    ensures types { IfOk result (λ r. r.types.items ≡ map valid.kind_type (function_of function.now).variables) }
    ensures elements { IfOk result (λ r. r.elements.items ≡ map (λ (a : tree.Array). a.element)
        (function_of function.now).arrays) }
    ensures base { IfOk result (λ r. r.base ≡ spec.next_cell (made_of made.now)) }
    ensures arrays { IfOk result (λ r. r.arrays ≡ length (made_of made.now).arrays) }
    ensures answer { IfOk result (λ r. r.answer ≡ spec.next_cell (made_of made.now) +
        length (function_of function.now).variables) }
{
    let base = number(made.cells.len())?;
    let arrays = number(made.arrays.len())?;
    let answer = behind(base, number(function.vars.len())?)?;
    let types = types_of(alloc, &function.vars)?;
    let elements = elements_of(alloc, &function.arrays)?;
    Ok(Room {
        types,
        elements,
        base,
        arrays,
        answer,
    })
}

/// Makes the cells of a function's variables and its arrays.
fn make_cells(alloc: Global, made: &mut Made, way: &Way, function: &Function) -> Result<(), Memory>
    ensures { OnOk result (made_of made.new ≡ whole.with_instance (way_of way.now) (names_in function.now)
        (function_of function.now) (made_of made.old)) }
{
    add_variables(
        alloc,
        made,
        &way.calls,
        &way.places,
        way.function,
        &function.vars,
    )?;
    add_arrays(alloc, made, &function.arrays)
}

/// A function behind calls, with new cells for its variables and new arrays.
#[inline(never)]
pub fn placed<'a>(
    alloc: Global,
    program: &'a Program,
    made: &mut Made,
    way: Way,
    function: &Function,
) -> Result<Instance<'a>, Memory>
    ensures here { IfOk result (λ i. instance_of i ≡ whole.instance_at (way_of way) (function_of function.now)
        (made_of made.old)) }
    ensures depth { IfOk result (λ i. i.depth ≡ way.depth) }
    ensures program { IfOk result (λ i. i.program.now ≡ program.now) }
    ensures made { OnOk result (made_of made.new ≡ whole.with_instance (way_of way) (names_in function.now)
        (function_of function.now) (made_of made.old)) }
{
    let room = room_for(alloc, made, function)?;
    make_cells(alloc, made, &way, function)?;
    Ok(Instance {
        program,
        depth: way.depth,
        calls: way.calls,
        places: way.places,
        roots: way.roots,
        types: room.types,
        elements: room.elements,
        base: room.base,
        arrays: room.arrays,
        answer: room.answer,
    })
}

/// An instance behind a box, so that a call takes little of the stack.
fn boxed<'a>(alloc: Global, here: Instance<'a>) -> Result<Box<Instance<'a>>, Memory>
    ensures { IfOk result (λ b. b.value ≡ here.entry) }
{
    match Box::new(alloc, here) {
        Ok(b) => Ok(b),
        Err(_) => Err(Memory),
    }
}

/// The function that is called.
#[inline(never)]
pub fn enter<'a>(
    alloc: Global,
    here: &Instance<'a>,
    made: &mut Made,
    callee: Callee,
    function: &Function,
) -> Result<Box<Instance<'a>>, Memory>
    ensures here { IfOk result (λ i. instance_of i.value ≡
        whole.instance_at (whole.way_behind (program_of here.now.program.now) (instance_of here.now) callee.site
        callee.function callee.roots.items) (function_of function.now) (made_of made.old)) }
    ensures depth { IfOk result (λ i. i.value.depth + 1 ≡ here.now.depth) }
    ensures program { IfOk result (λ i. i.value.program.now ≡ here.now.program.now) }
    ensures made { OnOk result (made_of made.new ≡
        whole.with_instance (whole.way_behind (program_of here.now.program.now) (instance_of here.now) callee.site
        callee.function callee.roots.items) (names_in function.now) (function_of function.now) (made_of made.old)) }
{
    if here.depth == 0 {
        return Err(Memory);
    }
    let place = place_at(here.program, callee.site);
    let calls = longer_calls(alloc, &here.calls, callee.site)?;
    let places = longer_places(alloc, &here.places, place)?;
    let way = Way {
        depth: here.depth - 1,
        calls,
        places,
        roots: callee.roots,
        function: callee.function,
    };
    let there = placed(alloc, here.program, made, way, function)?;
    boxed(alloc, there)
}

/// The parameters are set to the arguments.
#[tactic(auto, using(crate::proofs::Lists::join_assoc, crate::proofs::Lists::join_none))]
#[inline(never)]
pub fn put_parameters(lines: &mut Vec<Line>, base: u32, values: &[Value]) -> Result<(), Memory>
    ensures { OnOk result (lines_of lines.new.items ≡ joined_to (lines_of lines.old.items)
        (whole.parameter_lines base values.now)) }
{
    let mut rest = values;
    let mut cell = base;
    while let Some((value, others)) = rest.split_first() {
        put_copy(lines, cell, value.atom)?;
        cell = behind(cell, 1)?;
        rest = others;
    }
    Ok(())
}

/// The kernel's parameters are set to what the launch binds to them.
#[tactic(auto, using(crate::proofs::Lists::join_assoc, crate::proofs::Lists::join_none))]
pub fn put_bound(lines: &mut Vec<Line>, base: u32, kinds: &[VarKind]) -> Result<(), Memory>
    ensures { OnOk result (lines_of lines.new.items ≡ joined_to (lines_of lines.old.items)
        (whole.bound_lines base 0 kinds.now)) }
{
    let mut rest = kinds;
    let mut cell = base;
    let mut n = 0u32;
    while let Some((_, others)) = rest.split_first() {
        put_set(lines, cell, Work::Argument(n))?;
        cell = behind(cell, 1)?;
        n = behind(n, 1)?;
        rest = others;
    }
    Ok(())
}

/// The result of a function, if it has one: a new cell, 0 at first.
#[tactic(auto, using(crate::proofs::Lists::join_none))]
#[inline(never)]
pub fn put_result(
    made: &mut Made,
    lines: &mut Vec<Line>,
    gives: Option<IntType>,
) -> Result<Value, Memory>
    ensures lines { OnOk result (lines_of lines.new.items ≡ joined_to (lines_of lines.old.items)
        (code.result_code gives (made_of made.old)).lines) }
    ensures value { IfOk result (λ v. v ≡ (code.result_code gives (made_of made.old)).value) }
    ensures made { OnOk result (made_of made.new ≡ (code.result_code gives (made_of made.old)).made) }
{
    match gives {
        None => Ok(constant(0, IntType::Int)),
        Some(of) => {
            let cell = add_value(made, of)?;
            put_copy(lines, cell, constant(0, of).atom)?;
            Ok(Value {
                atom: Atom::Cell(cell),
                of,
            })
        }
    }
}
