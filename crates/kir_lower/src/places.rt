//! Where variables, flags, values and arrays are kept.

ghost use Rattle.std.specs.Prelude.{◌≡◌, ◌+◌, ◌++◌, ◌∷◌, [], IfOk, OnOk, map};
ghost use Rattle.cl_model.specs.Calls as called;
ghost use Rattle.cl_model.specs.Tree as plain;
ghost use Rattle.cl_model.specs.View.{array_of, function_of, program_of};
ghost use Rattle.kir.specs.Tree.{OfFlag, OfValue};
ghost use Rattle.kir.specs.Lowering.{names_of};
ghost use Rattle.cl_model.specs.Valid as valid;
ghost use Rattle.kir_lower.specs.Made as spec;
ghost use Rattle.kir_lower.specs.View.{made_of, instance_of, names_in};
ghost use Rattle.kir_lower.specs.Whole as whole;

use cl_model::types::kind_type;
use cl_model::{Array, Function, Program, Root, Var, copy_array};
use kir::{Atom, Cell, CellKind};
use std::alloc::Global;
use wg_num::{IntType, Memory, Place, push};

/// What an expression gives: an atom, and the type of its value.
#[derive(Clone, Copy)]
pub struct Value {
    pub atom: Atom,
    pub of: IntType,
}

/// The cells and arrays of the kernel that are made so far, in order: the number of each is its place in its list.
#[derive(Drop)]
pub struct Made {
    pub cells: Vec<Cell>,
    pub arrays: Vec<Array>,
}

/// A function as it stands in the inlined kernel: the sites of the calls that lead to it and their
/// places, the kernel's roots of its parameters, the types of its variables and of the elements of
/// its arrays, the first cell of its variables, its first array, the cell of its result, and how
/// deep calls may nest from here.
#[derive(Drop)]
pub struct Instance<'a> {
    pub program: &'a Program,
    pub depth: usize,
    pub calls: Vec<u32>,
    pub places: Vec<Place>,
    pub roots: Vec<Root>,
    pub types: Vec<IntType>,
    pub elements: Vec<IntType>,
    pub base: u32,
    pub arrays: u32,
    pub answer: u32,
}

/// A call: its site, the function that it calls, and the kernel's root of each argument.
#[derive(Drop)]
pub struct Callee {
    pub site: u32,
    pub function: u32,
    pub roots: Vec<Root>,
}

/// A number as the kernel has them, in 32 bits; `Memory` where it does not fit.
pub fn number(n: usize) -> Result<u32, Memory>
    ensures { IfOk result (λ m. m ≡ n) }
{
    match u32::try_from(n) {
        Ok(n) => Ok(n),
        Err(_) => Err(Memory),
    }
}

/// The number that is so far behind another; `Memory` where it does not fit in 32 bits.
pub fn behind(first: u32, n: u32) -> Result<u32, Memory>
    ensures { IfOk result (λ m. m ≡ first + n) }
{
    match first.checked_add(n) {
        Some(n) => Ok(n),
        None => Err(Memory),
    }
}

/// The constant of that value and of type `int`.
pub fn int(value: i128) -> Atom
    ensures { result ≡ spec.int value }
{
    Atom::Const {
        value,
        of: IntType::Int,
    }
}

/// The constant of that value and type, with its type.
pub fn constant(value: i128, of: IntType) -> Value
    ensures { result ≡ spec.constant value of }
{
    Value {
        atom: Atom::Const { value, of },
        of,
    }
}

/// One more cell for a value of that type, behind the others; the answer is its number. `Memory` where memory was
/// refused, and where there are 2^32 cells already.
pub fn add_value(made: &mut Made, of: IntType) -> Result<u32, Memory>
    ensures cell { IfOk result (λ c. c ≡ spec.next_cell (made_of made.old)) }
    ensures made { OnOk result (made_of made.new ≡ spec.with_cell (made_of made.old) OfValue of) }
{
    let cell = number(made.cells.len())?;
    let kind = CellKind::Value;
    push(&mut made.cells, Cell { kind, of })?;
    Ok(cell)
}

/// One more cell for a pending way out, of type `int`, behind the others; the answer is its number. `Memory` where
/// memory was refused, and where there are 2^32 cells already.
pub fn add_flag(made: &mut Made) -> Result<u32, Memory>
    ensures cell { IfOk result (λ c. c ≡ spec.next_cell (made_of made.old)) }
    ensures made { OnOk result (made_of made.new ≡ spec.with_cell (made_of made.old) OfFlag IntType.Int) }
{
    let cell = number(made.cells.len())?;
    let kind = CellKind::Flag;
    let of = IntType::Int;
    push(&mut made.cells, Cell { kind, of })?;
    Ok(cell)
}

/// The number of the cell of a variable of the function; `Memory` where it does not fit in 32 bits.
pub fn cell_at(here: &Instance<'_>, x: u32) -> Result<u32, Memory>
    ensures { IfOk result (λ c. c ≡ (instance_of here.now).base + x) }
{
    behind(here.base, x)
}

/// The type of what a variable holds; `int` of one that is not there, which no valid program names.
pub fn type_at(here: &Instance<'_>, x: u32) -> IntType
    ensures { result ≡ spec.type_at (instance_of here.now) x }
{
    match here.types.get(x as usize) {
        Some(of) => *of,
        None => IntType::Int,
    }
}

/// The type of an array's elements; `int` of one that is not there, which no valid program names.
pub fn element_at(here: &Instance<'_>, array: u32) -> IntType
    ensures { result ≡ spec.element_at (instance_of here.now) array }
{
    match here.elements.get(array as usize) {
        Some(of) => *of,
        None => IntType::Int,
    }
}

/// The kernel's root that a root of the function names: that of the argument for a parameter, the same table, or an
/// array of the kernel. A parameter that is not there, which no valid program names, is itself. `Memory` where the
/// number does not fit in 32 bits.
pub fn root_in(here: &Instance<'_>, root: Root) -> Result<Root, Memory>
    ensures { IfOk result (λ r. r ≡ spec.root_in (instance_of here.now) root) }
{
    match root {
        Root::Param(n) => match here.roots.get(n as usize) {
            Some(root) => Ok(*root),
            None => Ok(Root::Param(n)),
        },
        Root::Constant(n) => Ok(Root::Constant(n)),
        Root::Local(n) => Ok(Root::Local(behind(here.arrays, n)?)),
        Root::Private(n) => Ok(Root::Private(behind(here.arrays, n)?)),
    }
}

/// The function with this number in the program; `Memory` where there are fewer.
pub fn function_at(program: &Program, function: u32) -> Result<&Function, Memory>
    ensures plain { IfOk result (λ f. function_of f.now ≡ called.function_at (program_of program.now) function) }
    ensures names { IfOk result (λ f. names_in f.now ≡ whole.names_at (names_of program.now) function) }
{
    match program.functions.get(function as usize) {
        Some(function) => Ok(function),
        None => Err(Memory),
    }
}

/// The place of a site, by its number in the program; line 0 of one that is not there, which no valid program names.
pub fn place_at(program: &Program, site: u32) -> Place
    ensures { result ≡ whole.place_at (program_of program.now) site }
{
    match program.sites.get(site as usize) {
        Some(place) => *place,
        None => Place { line: 0, column: 0 },
    }
}

/// A path of calls, by their sites, with one call more behind it; `Memory` where memory was refused.
pub fn longer_calls(alloc: Global, calls: &[u32], site: u32) -> Result<Vec<u32>, Memory>
    ensures { IfOk result (λ v. v.items ≡ calls.now ++ site ∷ []) }
{
    match calls.to_vec(alloc) {
        Ok(mut calls) => match calls.push(site) {
            Ok(()) => Ok(calls),
            Err(_) => Err(Memory),
        },
        Err(_) => Err(Memory),
    }
}

/// Places with one more behind them; `Memory` where memory was refused.
pub fn longer_places(alloc: Global, places: &[Place], place: Place) -> Result<Vec<Place>, Memory>
    ensures { IfOk result (λ v. v.items ≡ places.now ++ place ∷ []) }
{
    match places.to_vec(alloc) {
        Ok(mut places) => match places.push(place) {
            Ok(()) => Ok(places),
            Err(_) => Err(Memory),
        },
        Err(_) => Err(Memory),
    }
}

/// The types of what variables hold, in order: `long` of a pointer, which is kept as its offset. `Memory` where memory
/// was refused.
pub fn types_of(alloc: Global, vars: &[Var]) -> Result<Vec<IntType>, Memory>
    ensures { IfOk result (λ v. v.items ≡ map valid.kind_type (map (λ x. x.kind) vars.now)) }
{
    let mut types = Vec::new(alloc);
    for var in vars {
        push(&mut types, kind_type(var.kind))?;
    }
    Ok(types)
}

/// The types of the elements of arrays, in order; `Memory` where memory was refused.
pub fn elements_of(alloc: Global, arrays: &[Array]) -> Result<Vec<IntType>, Memory>
    ensures { IfOk result (λ v. v.items ≡ map (λ (a : plain.Array). a.element) (map array_of arrays.now)) }
{
    let mut types = Vec::new(alloc);
    for array in arrays {
        push(&mut types, array.element)?;
    }
    Ok(types)
}

/// Puts copies of a function's arrays behind those of the kernel; `Memory` where memory was refused.
pub fn add_arrays(alloc: Global, made: &mut Made, arrays: &[Array]) -> Result<(), Memory>
    ensures cells { OnOk result (made.new.cells ≡ made.old.cells) }
    ensures arrays { OnOk result (map array_of made.new.arrays.items ≡ map array_of made.old.arrays.items ++
        map array_of arrays.now) }
{
    for array in arrays {
        let array = copy_array(alloc, array)?;
        push(&mut made.arrays, array)?;
    }
    Ok(())
}
