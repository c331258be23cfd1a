//! Lines that compute.

ghost use Rattle.std.specs.Prelude.{◌≡◌, ◌++◌, ◌∷◌, [], drop, slice_get, IfOk, OnOk};
ghost use Rattle.kir.specs.Listed.{work_of};
ghost use Rattle.mask_lower.specs.Atoms.{atoms_of};
ghost use Rattle.mask_lower.specs.Registers.{frame_of, past};
ghost use Rattle.mask_lower.specs.Lowered as spec;

use crate::atoms::right_atom;
use crate::placing::read;
use crate::registers::{Free, Layout, Operand, amount_type, crosses, is_wide, register_at};
use cl_model::types::{binary_type, unary_type};
use kir::{Atom, Work};
use lane_code::{Reg, Step};
use wg_num::{Bin, Fun, IntType, Memory, is_shift, push, same_type};

/// Where what is computed in a type goes first, if it is of this kind: to the cell's register, or to
/// that on the way to the other bank.
fn result_at(layout: &Layout, of: IntType, kind: IntType, to: Reg) -> Reg
    ensures { result ≡ spec.result_at (frame_of layout.now) of kind to }
{
    if crosses(of, kind) {
        register_at(layout.scratch, of)
    } else {
        to
    }
}

/// And on to the cell's register.
fn bring(
    code: &mut Vec<Step>,
    layout: &Layout,
    of: IntType,
    kind: IntType,
    to: Reg,
    mask: Reg,
) -> Result<(), Memory>
    ensures { OnOk result (code.new.items ≡ code.old.items ++ spec.brought (frame_of layout.now) of kind to mask) }
{
    if crosses(of, kind) {
        push(
            code,
            Step::Convert {
                to,
                kind,
                from: register_at(layout.scratch, of),
                was: of,
                mask,
            },
        )?;
    }
    Ok(())
}

/// Whether an amount of a shift comes from the other bank.
fn moves(op: Bin, of: IntType, b: Operand) -> bool
    ensures { result ≡ spec.moves op of b }
{
    is_shift(op) && crosses(of, b.of)
}

/// An amount of a shift from the other bank is brought into that of the operator's type.
fn move_amount(
    code: &mut Vec<Step>,
    layout: &Layout,
    op: Bin,
    of: IntType,
    b: Operand,
    mask: Reg,
) -> Result<(), Memory>
    ensures { OnOk result (code.new.items ≡ code.old.items ++ spec.amount_moved (frame_of layout.now) op of b mask) }
{
    if moves(op, of, b) {
        push(
            code,
            Step::Convert {
                to: register_at(layout.scratch, of),
                kind: amount_type(of),
                from: b.at,
                was: b.of,
                mask,
            },
        )?;
    }
    Ok(())
}

/// The register of the right operand.
fn right_at(layout: &Layout, op: Bin, of: IntType, b: Operand) -> Reg
    ensures { result ≡ spec.right_at (frame_of layout.now) op of b }
{
    if moves(op, of, b) {
        register_at(layout.scratch, of)
    } else {
        b.at
    }
}

/// An operator, the type in which it computes, and its operands.
#[derive(Clone, Copy)]
struct Operation {
    op: Bin,
    of: IntType,
    a: Operand,
    b: Operand,
}

fn lower_binary(
    code: &mut Vec<Step>,
    layout: &Layout,
    what: Operation,
    to: Reg,
    mask: Reg,
) -> Result<(), Memory>
    ensures { OnOk result (code.new.items ≡ code.old.items ++ spec.binary_code (frame_of layout.now) what.op what.of
        what.a what.b to mask) }
{
    let Operation { op, of, a, b } = what;
    let kind = binary_type(op, of);
    move_amount(code, layout, op, of, b, mask)?;
    push(
        code,
        Step::Binary {
            op,
            of,
            to: result_at(layout, of, kind, to),
            a: a.at,
            b: right_at(layout, op, of, b),
            mask,
        },
    )?;
    bring(code, layout, of, kind, to, mask)?;
    Ok(())
}

/// The atom that is this argument, where there is one.
fn atom_of(args: &Vec<Atom>, number: usize) -> Option<Atom>
    ensures { result ≡ slice_get args.now.items number }
{
    args.get(number).copied()
}

/// The register of an argument, where there is one, else any other of its bank; and the registers
/// that are free for constants behind it.
fn argument(
    layout: &Layout,
    next: Free,
    other: Reg,
    atom: Option<Atom>,
) -> Result<(Reg, Free), Memory>
    ensures { IfOk result (λ x. (x.0 ≡ spec.argument (frame_of layout.now) next other atom) ×
        (x.1 ≡ spec.past_argument next atom)) }
{
    match atom {
        None => Ok((other, next)),
        Some(atom) => {
            let (x, after) = read(&layout.cells, next, atom)?;
            Ok((x.at, after))
        }
    }
}

/// A built-in function, and the type of its arguments.
#[derive(Clone, Copy)]
struct Called {
    f: Fun,
    of: IntType,
}

/// The registers that are free for constants behind the arguments after the third, which no built-in function has.
fn past_others(layout: &Layout, next: Free, args: &Vec<Atom>) -> Result<Free, Memory>
    ensures { IfOk result (λ after. after ≡ past next (drop 3 args.now.items)) }
{
    let mut after = next;
    for i in 3..args.len() {
        let (_, behind) = read(&layout.cells, after, args[i])?;
        after = behind;
    }
    Ok(after)
}

/// A built-in function takes three arguments at most.
fn lower_builtin(
    code: &mut Vec<Step>,
    layout: &Layout,
    next: Free,
    what: Called,
    args: &Vec<Atom>,
    to: Reg,
    mask: Reg,
) -> Result<Free, Memory>
    ensures { IfOk result (λ after.
        (code.new.items ≡ code.old.items ++ spec.builtin_code (frame_of layout.now) next what.f what.of
        args.now.items to mask ∷ []) × (after ≡ past next args.now.items)) }
{
    let (a, next) = argument(layout, next, to, atom_of(args, 0))?;
    let (b, next) = argument(layout, next, to, atom_of(args, 1))?;
    let (c, next) = argument(layout, next, to, atom_of(args, 2))?;
    push(
        code,
        Step::Builtin {
            f: what.f,
            of: what.of,
            to,
            a,
            b,
            c,
            mask,
        },
    )?;
    past_others(layout, next, args)
}

/// The steps of a line that computes for this register; the registers that are free for constants
/// Whether a conversion of a value of the one type into the other leaves its lane as it is: into its own type, and
/// between those of 64 bits.
fn keeps_lane(of: IntType, kind: IntType) -> bool
    ensures { result ≡ spec.keeps_lane of kind }
{
    same_type(of, kind) || (is_wide(of) && is_wide(kind))
}

/// A conversion, which is a copy where it leaves lanes as they are.
fn convert_step(to: Reg, kind: IntType, a: Operand, mask: Reg) -> Step
    ensures { result ≡ spec.convert_step to kind a mask }
{
    if keeps_lane(a.of, kind) {
        return Step::Copy {
            to,
            from: a.at,
            mask,
        };
    }
    Step::Convert {
        to,
        kind,
        from: a.at,
        was: a.of,
        mask,
    }
}

/// behind it.
pub(crate) fn lower_work(
    code: &mut Vec<Step>,
    layout: &Layout,
    next: Free,
    to: Reg,
    mask: Reg,
    work: &Work,
) -> Result<Free, Memory>
    ensures { IfOk result (λ after.
        (code.new.items ≡ code.old.items ++ spec.work_code (frame_of layout.now) next to mask (work_of work.now))
        × (after ≡ past next (atoms_of (work_of work.now)))) }
{
    match work {
        Work::Unary { op, of, a } => {
            let (a, next) = read(&layout.cells, next, *a)?;
            let kind = unary_type(*op, *of);
            push(
                code,
                Step::Unary {
                    op: *op,
                    of: *of,
                    to: result_at(layout, *of, kind, to),
                    a: a.at,
                    mask,
                },
            )?;
            bring(code, layout, *of, kind, to, mask)?;
            Ok(next)
        }
        Work::Binary { op, of, a, b } => {
            let (a, next) = read(&layout.cells, next, *a)?;
            let (b, next) = read(&layout.cells, next, right_atom(*op, *of, *b))?;
            let what = Operation {
                op: *op,
                of: *of,
                a,
                b,
            };
            lower_binary(code, layout, what, to, mask)?;
            Ok(next)
        }
        Work::Builtin { f, of, args } => {
            let what = Called { f: *f, of: *of };
            let next = lower_builtin(code, layout, next, what, args, to, mask)?;
            Ok(next)
        }
        Work::Convert { to: kind, a } => {
            let (a, next) = read(&layout.cells, next, *a)?;
            push(code, convert_step(to, *kind, a, mask))?;
            Ok(next)
        }
        Work::Ask { what, dim } => {
            let (dim, next) = read(&layout.cells, next, *dim)?;
            push(
                code,
                Step::Ask {
                    what: *what,
                    to,
                    dim: dim.at,
                    mask,
                },
            )?;
            Ok(next)
        }
        Work::Argument(number) => {
            push(
                code,
                Step::Argument {
                    number: *number,
                    to,
                    mask,
                },
            )?;
            Ok(next)
        }
        Work::Copy(a) => {
            let (a, next) = read(&layout.cells, next, *a)?;
            push(
                code,
                Step::Copy {
                    to,
                    from: a.at,
                    mask,
                },
            )?;
            Ok(next)
        }
    }
}
