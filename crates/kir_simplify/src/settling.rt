//! What lines compute of constants, computed beforehand.

ghost use Rattle.std.specs.Prelude.{◌≡◌, ℕ, IfOk, OnOk, map};
ghost use Rattle.cl_model.specs.Steps.{nth};
ghost use Rattle.wg_num.specs.Wrap.{IsValue};
ghost use Rattle.kir.specs.Tree as tree;
ghost use Rattle.kir.specs.Listed.{work_of};
ghost use Rattle.kir_simplify.specs.Passes.{constant_value, known_atom, known_work, settled_work, learned, learnt};
ghost use Rattle.kir_simplify.specs.Passes.{reduced_binary};
ghost use Rattle.kir_simplify.specs.Offsets as offset;
ghost use Rattle.kir_simplify.specs.Computable.{IsComputable, AreValuesOf, IsRightOf, IsValueOf};
ghost use Rattle.kir_simplify.specs.Simple as simple;
ghost use Rattle.kir_simplify.specs.Tables.{known_by, known_in, once_by, plain_of, put_known, unlearned};

use crate::counting::{is_one, make_room};
use crate::offsets::CellFacts;
use crate::reading::is_listed;
use cl_model::types::{binary_type, unary_type};
use kir::{Atom, Work};
use std::alloc::Global;
use wg_num::{
    Bin, Fun, IntType, Memory, Un, binary, builtin, convert, push, result_type, same_type, unary,
};

/// What was learned of a cell.
fn learned_of(known: &[Option<Atom>], cell: u32) -> Option<Atom>
    ensures { result ≡ known_by known.now cell }
{
    match known.get(cell as usize) {
        Some(found) => *found,
        None => None,
    }
}

/// What is known of a cell: what was learned, or in a loop that it holds an offset.
fn known_of(facts: &CellFacts, in_loop: bool, known: &[Option<Atom>], cell: u32) -> Option<Atom>
    ensures { result ≡ known_in facts.now in_loop known.now cell }
{
    match learned_of(known, cell) {
        Some(found) => Some(found),
        None => {
            if in_loop && is_listed(&facts.offsets, cell) {
                Some(Atom::Const {
                    value: 0,
                    of: IntType::Long,
                })
            } else {
                None
            }
        }
    }
}

/// What stands for an atom.
pub(crate) fn known_atom(
    facts: &CellFacts,
    in_loop: bool,
    known: &[Option<Atom>],
    atom: Atom,
) -> Atom
    ensures { result ≡ known_atom (known_in facts.now in_loop known.now) atom }
{
    match atom {
        Atom::Const { .. } => atom,
        Atom::Cell(cell) => match known_of(facts, in_loop, known, cell) {
            Some(found) => found,
            None => atom,
        },
    }
}

/// What stands for atoms.
fn known_atoms(
    alloc: Global,
    facts: &CellFacts,
    in_loop: bool,
    known: &[Option<Atom>],
    atoms: &[Atom],
) -> Result<Vec<Atom>, Memory>
    ensures { IfOk result (λ v. v.items ≡ map (known_atom (known_in facts.now in_loop known.now)) atoms.now) }
{
    let mut found = Vec::new(alloc);
    for atom in atoms {
        push(&mut found, known_atom(facts, in_loop, known, *atom))?;
    }
    Ok(found)
}

/// An operator of one operand, computed now where it can be.
fn fold_unary(op: Un, of: IntType, a: Atom) -> Work
    requires { IsValueOf of a }
    ensures { work_of result ≡ settled_work (tree.Unary op of a) }
{
    match a {
        Atom::Cell(_) => Work::Unary { op, of, a },
        Atom::Const { value, .. } => Work::Copy(Atom::Const {
            value: unary(op, of, value),
            of: unary_type(op, of),
        }),
    }
}

/// Whether the operator adds in the type of offsets and indices.
fn is_long_sum(op: Bin, of: IntType) -> bool
    ensures { result ≡ offset.is_long_sum op of }
{
    match op {
        Bin::Add => same_type(IntType::Long, of),
        Bin::Sub
        | Bin::Mul
        | Bin::Div
        | Bin::Rem
        | Bin::Shl
        | Bin::Shr
        | Bin::And
        | Bin::Or
        | Bin::Xor
        | Bin::Eq
        | Bin::Ne
        | Bin::Lt
        | Bin::Le
        | Bin::Gt
        | Bin::Ge => false,
    }
}

/// Whether the atom is the constant 0.
fn is_zero_constant(atom: Atom) -> bool
    ensures { result ≡ offset.is_zero_constant atom }
{
    match atom {
        Atom::Const { value, .. } => value == 0,
        Atom::Cell(_) => false,
    }
}

/// An operator of two operands; a conversion of the right one where that is added to 0.
fn reduce_binary(op: Bin, of: IntType, a: Atom, b: Atom) -> Work
    ensures { work_of result ≡ reduced_binary op of a b }
{
    if is_long_sum(op, of) && is_zero_constant(a) {
        Work::Convert { to: of, a: b }
    } else {
        Work::Binary { op, of, a, b }
    }
}

/// An operator of two, computed now where it can be.
fn fold_binary(op: Bin, of: IntType, a: Atom, b: Atom) -> Work
    requires left { IsValueOf of a }
    requires right { IsRightOf op of b }
    ensures { work_of result ≡ settled_work (tree.Binary op of a b) }
{
    match (a, b) {
        (Atom::Const { value: left, .. }, Atom::Const { value: right, .. }) => {
            Work::Copy(Atom::Const {
                value: binary(op, of, left, right),
                of: binary_type(op, of),
            })
        }
        (Atom::Cell(_), _) | (Atom::Const { .. }, Atom::Cell(_)) => reduce_binary(op, of, a, b),
    }
}

/// A conversion, computed now where it can be.
fn fold_convert(to: IntType, a: Atom) -> Work
    ensures { work_of result ≡ settled_work (tree.Convert to a) }
{
    match a {
        Atom::Cell(_) => Work::Convert { to, a },
        Atom::Const { value, .. } => Work::Copy(Atom::Const {
            value: convert(to, value),
            of: to,
        }),
    }
}

fn is_constant(atom: Atom) -> bool
    ensures { result ≡ simple.is_constant atom }
{
    match atom {
        Atom::Const { .. } => true,
        Atom::Cell(_) => false,
    }
}

/// Whether all are constants.
fn are_constants(atoms: &[Atom]) -> bool
    ensures { result ≡ simple.are_constants atoms.now }
{
    for atom in atoms {
        if !is_constant(*atom) {
            return false;
        }
    }
    true
}

fn constant_value(atom: Atom) -> i128
    ensures { result ≡ constant_value atom }
{
    match atom {
        Atom::Const { value, .. } => value,
        Atom::Cell(_) => 0,
    }
}

/// The value of a constant by its number, 0 where there is none.
fn argument(of: IntType, args: &[Atom], n: usize) -> i128
    requires { AreValuesOf of args.now }
    ensures same { result ≡ nth (map constant_value args.now) n }
    ensures value { IsValue of result }
{
    match args.get(n) {
        Some(atom) => constant_value(*atom),
        None => 0,
    }
}

/// A built-in function, computed now where it can be.
fn fold_builtin(f: Fun, of: IntType, args: Vec<Atom>) -> Work
    requires { AreValuesOf of args.items }
    ensures { work_of result ≡ settled_work (tree.Builtin f of args.items) }
{
    if !are_constants(&args) {
        return Work::Builtin { f, of, args };
    }
    let first = argument(of, &args, 0);
    let second = argument(of, &args, 1);
    let third = argument(of, &args, 2);
    Work::Copy(Atom::Const {
        value: builtin(f, of, [first, second, third]),
        of: result_type(f, of),
    })
}

/// What a line computes where these constants are known, computed now where it can be.
pub(crate) fn fold_work(
    alloc: Global,
    facts: &CellFacts,
    in_loop: bool,
    known: &[Option<Atom>],
    work: &Work,
) -> Result<Work, Memory>
    requires { IsComputable (known_work (known_in facts.now in_loop known.now) (work_of work.now)) }
    ensures { IfOk result (λ w.
        work_of w ≡ settled_work (known_work (known_in facts.now in_loop known.now) (work_of work.now))) }
{
    match work {
        Work::Unary { op, of, a } => {
            let a = known_atom(facts, in_loop, known, *a);
            Ok(fold_unary(*op, *of, a))
        }
        Work::Binary { op, of, a, b } => {
            let a = known_atom(facts, in_loop, known, *a);
            let b = known_atom(facts, in_loop, known, *b);
            Ok(fold_binary(*op, *of, a, b))
        }
        Work::Builtin { f, of, args } => {
            let args = known_atoms(alloc, facts, in_loop, known, args)?;
            Ok(fold_builtin(*f, *of, args))
        }
        Work::Convert { to, a } => Ok(fold_convert(*to, known_atom(facts, in_loop, known, *a))),
        Work::Ask { what, dim } => Ok(Work::Ask {
            what: *what,
            dim: known_atom(facts, in_loop, known, *dim),
        }),
        Work::Argument(number) => Ok(Work::Argument(*number)),
        Work::Copy(a) => Ok(Work::Copy(known_atom(facts, in_loop, known, *a))),
    }
}

/// The constant that is copied, where one is.
fn plain_constant(work: &Work) -> Option<Atom>
    ensures { result ≡ plain_of (work_of work.now) }
{
    match work {
        Work::Copy(Atom::Const { value, of }) => Some(Atom::Const {
            value: *value,
            of: *of,
        }),
        Work::Copy(Atom::Cell(_))
        | Work::Unary { .. }
        | Work::Binary { .. }
        | Work::Builtin { .. }
        | Work::Convert { .. }
        | Work::Ask { .. }
        | Work::Argument(_) => None,
    }
}

/// A cell of which something was learned, and what was known of it before.
#[derive(Clone, Copy)]
pub(crate) struct Learned {
    cell: u32,
    before: Option<Atom>,
}

/// This is known of the cell, or nothing.
fn put_known(known: &mut Vec<Option<Atom>>, cell: u32, found: Option<Atom>) -> Result<(), Memory>
    ensures { OnOk result ((c : ℕ) → known_by known.new.items c ≡ put_known (known_by known.old.items) cell found c) }
{
    let at = cell as usize;
    make_room(known, at, None)?;
    known[at] = found;
    Ok(())
}

/// The atom is learned for the cell.
fn note(
    known: &mut Vec<Option<Atom>>,
    trail: &mut Vec<Learned>,
    to: u32,
    atom: Atom,
) -> Result<(), Memory>
    ensures known { OnOk result ((c : ℕ) →
        known_by known.new.items c ≡ learned (known_by known.old.items) to atom c) }
    ensures before { OnOk result ((c : ℕ) → unlearned trail.new.items (known_by known.new.items) c ≡
        unlearned trail.old.items (known_by known.old.items) c) }
{
    let before = learned_of(known, to);
    push(trail, Learned { cell: to, before })?;
    put_known(known, to, Some(atom))?;
    Ok(())
}

/// What is known behind a line that sets the cell to this work.
pub(crate) fn learn(
    facts: &CellFacts,
    known: &mut Vec<Option<Atom>>,
    trail: &mut Vec<Learned>,
    to: u32,
    work: &Work,
) -> Result<(), Memory>
    ensures known { OnOk result ((c : ℕ) → known_by known.new.items c ≡
        learnt (once_by facts.now) (known_by known.old.items) to (work_of work.now) c) }
    ensures before { OnOk result ((c : ℕ) → unlearned trail.new.items (known_by known.new.items) c ≡
        unlearned trail.old.items (known_by known.old.items) c) }
{
    match plain_constant(work) {
        None => Ok(()),
        Some(atom) => {
            if is_one(&facts.sets, to) {
                note(known, trail, to, atom)
            } else {
                Ok(())
            }
        }
    }
}

/// What was learned is forgotten, the last first.
pub(crate) fn forget(known: &mut Vec<Option<Atom>>, trail: &mut Vec<Learned>) -> Result<(), Memory>
    ensures { OnOk result ((c : ℕ) →
        known_by known.new.items c ≡ unlearned trail.old.items (known_by known.old.items) c) }
{
    while let Some(learned) = trail.pop() {
        put_known(known, learned.cell, learned.before)?;
    }
    Ok(())
}
