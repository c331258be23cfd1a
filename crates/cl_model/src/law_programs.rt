//! The programs of the laws, with their launches and buffers.

ghost use Rattle.std.specs.Prelude.{◌≡◌, [], ◌∷◌, ◌<◌, IfOk, replicate};
ghost use Rattle.cl_model.specs.View.{expression_of, array_of, listed_statements, function_of, program_of, launch_of};
ghost use Rattle.cl_model.specs.View.{buffers_of};
ghost use Rattle.cl_model.specs.Heads.{named_array, head_of, heads_of};
ghost use Rattle.cl_model.specs.Increment as increment;
ghost use Rattle.cl_model.specs.Exchange as exchange;

use crate::build::{also, load, store};
use crate::expression::{ask, binary, convert};
use crate::launch::{Bound, Buffers, Launch};
use crate::program::{Array, Expr, Function, Program, Query, Root, Space, Stmt, Var, VarKind};
use std::alloc::Global;
use wg_num::{Bin, IntType, Memory, Place, Word};

/// A place in the one line that each of these sources has.
fn in_column(column: u32) -> Place
    ensures { result ≡ record { line = 1; column = column } }
{
    Place { line: 1, column }
}

/// The element offset of `a[get_global_id(0)]`.
fn own_offset(alloc: Global) -> Result<Expr, Memory>
    ensures { IfOk result (λ e. expression_of e ≡ increment.own_offset) }
{
    let zero = Expr::Literal {
        value: 0,
        of: IntType::Int,
    };
    let dim = convert(alloc, IntType::Uint, zero)?;
    let id = ask(alloc, Query::GlobalId, dim)?;
    let index = convert(alloc, IntType::Long, id)?;
    let offset = binary(alloc, Bin::Add, IntType::Long, Expr::Variable(0), index)?;
    Ok(offset)
}

/// A parameter that points to global ints.
fn global_ints(alloc: Global, name: &[u8], place: Place) -> Result<Var, Memory>
    ensures kind { IfOk result (λ v. v.kind ≡ VarKind.Pointer Space.Global IntType.Int (Root.Param 0)) }
    ensures name { IfOk result (λ v. v.name ≡ name.now) }
    ensures place { IfOk result (λ v. v.place ≡ place) }
{
    let name = Word::new(alloc, name)?;
    let kind = VarKind::Pointer {
        space: Space::Global,
        element: IntType::Int,
        root: Root::Param(0),
    };
    Ok(Var { name, kind, place })
}

/// `a[get_global_id(0)] = a[get_global_id(0)] + 1`.
fn increment_assignment(alloc: Global) -> Result<Expr, Memory>
    ensures { IfOk result (λ e. expression_of e ≡ increment.increment_assignment) }
{
    let target = own_offset(alloc)?;
    let index = own_offset(alloc)?;
    let old = load(alloc, 1, Root::Param(0), index)?;
    let one = Expr::Literal {
        value: 1,
        of: IntType::Int,
    };
    let value = binary(alloc, Bin::Add, IntType::Int, old, one)?;
    let assignment = store(alloc, 0, Root::Param(0), target, value)?;
    Ok(assignment)
}

/// The kernel that adds 1 to each item's own element.
fn increment_kernel(alloc: Global) -> Result<Function, Memory>
    ensures function { IfOk result (λ f. function_of f ≡ increment.increment_kernel) }
    ensures head { IfOk result (λ f. head_of f ≡ increment.increment_head) }
{
    let assignment = increment_assignment(alloc)?;
    let name = Word::new(alloc, b"inc")?;
    let parameter = global_ints(alloc, b"a", in_column(33))?;
    let vars = also(Vec::new(alloc), parameter)?;
    let body = also(Vec::new(alloc), Stmt::Do(assignment))?;
    Ok(Function {
        name,
        params: 1,
        result: None,
        vars,
        arrays: Vec::new(alloc),
        body,
        sizes: None,
    })
}

/// The program of that kernel.
pub fn increment_program(alloc: Global) -> Result<Program, Memory>
    ensures program { IfOk result (λ p. program_of p ≡ increment.increment_program) }
    ensures heads { IfOk result (λ p. heads_of p ≡ increment.increment_head ∷ []) }
{
    let kernel = increment_kernel(alloc)?;
    let functions = also(Vec::new(alloc), kernel)?;
    let sites = also(Vec::new(alloc), in_column(38))?;
    let sites = also(sites, in_column(60))?;
    Ok(Program {
        tables: Vec::new(alloc),
        functions,
        kernel: 0,
        sites,
    })
}

/// A launch in one dimension with no turn, on one buffer.
pub fn flat_launch(alloc: Global, global: u64, local: u64, bytes: u64) -> Result<Launch, Memory>
    ensures { IfOk result (λ l. launch_of l ≡ increment.flat_launch global local bytes) }
{
    let args = also(Vec::new(alloc), Bound::Buffer(0))?;
    let lengths = also(Vec::new(alloc), bytes)?;
    let loads = also(Vec::new(alloc), None)?;
    let saves = also(Vec::new(alloc), None)?;
    Ok(Launch {
        dims: 1,
        global: [global, 1, 1],
        local: [local, 1, 1],
        offset: [0, 0, 0],
        turns: 0,
        args,
        lengths,
        loads,
        saves,
    })
}

/// One buffer of zeros.
pub fn zero_buffer(alloc: Global, bytes: usize) -> Result<Buffers, Memory>
    ensures { IfOk result (λ b. buffers_of b ≡ replicate bytes 0 ∷ []) }
{
    match vec![in alloc; 0u8; bytes] {
        Ok(buffer) => {
            let list = also(Vec::new(alloc), buffer)?;
            Ok(Buffers { list })
        }
        Err(_) => Err(Memory),
    }
}

/// `l` as an element number.
fn own_number(alloc: Global) -> Result<Expr, Memory>
    ensures { IfOk result (λ e. expression_of e ≡ exchange.own_number) }
{
    let number = convert(alloc, IntType::Long, Expr::Variable(1))?;
    Ok(number)
}

/// The element offset of `a[l]`.
fn own_element(alloc: Global) -> Result<Expr, Memory>
    ensures { IfOk result (λ e. expression_of e ≡ exchange.own_element) }
{
    let number = own_number(alloc)?;
    let offset = binary(alloc, Bin::Add, IntType::Long, Expr::Variable(0), number)?;
    Ok(offset)
}

/// `1 - l` as an element number.
fn other_number(alloc: Global) -> Result<Expr, Memory>
    ensures { IfOk result (λ e. expression_of e ≡ exchange.other_number) }
{
    let one = Expr::Literal {
        value: 1,
        of: IntType::Int,
    };
    let difference = binary(alloc, Bin::Sub, IntType::Int, one, Expr::Variable(1))?;
    let number = convert(alloc, IntType::Long, difference)?;
    Ok(number)
}

/// `get_local_id(0)` as an int.
fn local_number(alloc: Global) -> Result<Expr, Memory>
    ensures { IfOk result (λ e. expression_of e ≡ exchange.local_number) }
{
    let zero = Expr::Literal {
        value: 0,
        of: IntType::Int,
    };
    let dim = convert(alloc, IntType::Uint, zero)?;
    let id = ask(alloc, Query::LocalId, dim)?;
    let number = convert(alloc, IntType::Int, id)?;
    Ok(number)
}

/// `t[l] = a[l]`.
fn first_assignment(alloc: Global) -> Result<Expr, Memory>
    ensures { IfOk result (λ e. expression_of e ≡ exchange.first_assignment) }
{
    let target = own_number(alloc)?;
    let index = own_element(alloc)?;
    let value = load(alloc, 1, Root::Param(0), index)?;
    let assignment = store(alloc, 0, Root::Local(0), target, value)?;
    Ok(assignment)
}

/// `a[l] = t[1 - l]`.
fn last_assignment(alloc: Global) -> Result<Expr, Memory>
    ensures { IfOk result (λ e. expression_of e ≡ exchange.last_assignment) }
{
    let target = own_element(alloc)?;
    let index = other_number(alloc)?;
    let value = load(alloc, 4, Root::Local(0), index)?;
    let assignment = store(alloc, 3, Root::Param(0), target, value)?;
    Ok(assignment)
}

/// The statements of the exchange.
fn exchange_body(alloc: Global) -> Result<Vec<Stmt>, Memory>
    ensures { IfOk result (λ b. listed_statements b.items ≡ exchange.exchange_body) }
{
    let number = local_number(alloc)?;
    let first = first_assignment(alloc)?;
    let last = last_assignment(alloc)?;
    let body = also(
        Vec::new(alloc),
        Stmt::Declare {
            var: 1,
            value: Some(number),
        },
    )?;
    let body = also(body, Stmt::Do(first))?;
    let body = also(body, Stmt::Barrier { site: 2 })?;
    let body = also(body, Stmt::Do(last))?;
    Ok(body)
}

/// The local array of two ints.
fn pair_of_ints(alloc: Global) -> Result<Array, Memory>
    ensures array { IfOk result (λ a. array_of a ≡ exchange.pair_of_ints) }
    ensures named { IfOk result (λ a. named_array a ≡ exchange.exchange_array) }
{
    let name = Word::new(alloc, b"t")?;
    let dims = also(Vec::new(alloc), 2)?;
    Ok(Array {
        name,
        space: Space::Local,
        element: IntType::Int,
        dims,
        place: in_column(49),
    })
}

/// The kernel in which two items exchange their elements.
fn exchange_kernel(alloc: Global) -> Result<Function, Memory>
    ensures function { IfOk result (λ f. function_of f ≡ exchange.exchange_kernel) }
    ensures head { IfOk result (λ f. head_of f ≡ exchange.exchange_head) }
{
    let name = Word::new(alloc, b"ex")?;
    let parameter = global_ints(alloc, b"a", in_column(32))?;
    let number = Var {
        name: Word::new(alloc, b"l")?,
        kind: VarKind::Scalar(IntType::Int),
        place: in_column(59),
    };
    let vars = also(Vec::new(alloc), parameter)?;
    let vars = also(vars, number)?;
    let array = pair_of_ints(alloc)?;
    let arrays = also(Vec::new(alloc), array)?;
    let body = exchange_body(alloc)?;
    Ok(Function {
        name,
        params: 1,
        result: None,
        vars,
        arrays,
        body,
        sizes: None,
    })
}

/// The program of that kernel.
pub fn exchange_program(alloc: Global) -> Result<Program, Memory>
    ensures program { IfOk result (λ p. program_of p ≡ exchange.exchange_program) }
    ensures heads { IfOk result (λ p. heads_of p ≡ exchange.exchange_head ∷ []) }
{
    let kernel = exchange_kernel(alloc)?;
    let functions = also(Vec::new(alloc), kernel)?;
    let sites = also(Vec::new(alloc), in_column(80))?;
    let sites = also(sites, in_column(87))?;
    let sites = also(sites, in_column(93))?;
    let sites = also(sites, in_column(123))?;
    let sites = also(sites, in_column(130))?;
    Ok(Program {
        tables: Vec::new(alloc),
        functions,
        kernel: 0,
        sites,
    })
}
