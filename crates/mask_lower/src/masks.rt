//! Steps on masks, and the jumps that look at them.

ghost use Rattle.std.specs.Prelude.{◌≡◌, ◌+◌, ◌++◌, ◌∷◌, ◌<◌, [], length, slice_set, IfOk};
ghost use Rattle.std.specs.Prelude.{OnOk};
ghost use Rattle.lane_code.specs.declared.step.Step.TheVariants as step;
ghost use Rattle.mask_lower.specs.Banks.{mask_reg as mask_at};
ghost use Rattle.mask_lower.specs.Registers.{frame_of, past_atom};
ghost use Rattle.mask_lower.specs.Lowered as spec;

use crate::placing::read;
use crate::registers::{Free, Layout, mask_reg};
use kir::Atom;
use lane_code::Step;
use wg_num::{Memory, push};

/// The number of the next step.
pub(crate) fn place(code: &Vec<Step>) -> Result<u32, Memory>
    ensures { IfOk result (λ n. n ≡ length code.now.items) }
{
    u32::try_from(code.len()).map_err(|_| Memory)
}

/// The mask `to` is the lanes of `mask` whose value of the atom is not 0; the registers that are free
/// for constants behind it.
pub(crate) fn lower_test(
    code: &mut Vec<Step>,
    layout: &Layout,
    next: Free,
    atom: Atom,
    to: u32,
    mask: u32,
) -> Result<Free, Memory>
    ensures code { OnOk result (code.new.items ≡ code.old.items ++ spec.test_step (frame_of layout.now) next atom to
        mask ∷ []) }
    ensures next { IfOk result (λ after. after ≡ past_atom next atom) }
{
    let (from, after) = read(&layout.cells, next, atom)?;
    push(
        code,
        Step::Test {
            to: mask_reg(to),
            from: from.at,
            mask: mask_reg(mask),
        },
    )?;
    Ok(after)
}

/// The mask `to` is the lanes of both.
pub(crate) fn put_and(code: &mut Vec<Step>, to: u32, a: u32, b: u32) -> Result<(), Memory>
    ensures { OnOk result (code.new.items ≡ code.old.items ++ step.MaskAnd (mask_at to) (mask_at a) (mask_at b) ∷
        []) }
{
    push(
        code,
        Step::MaskAnd {
            to: mask_reg(to),
            a: mask_reg(a),
            b: mask_reg(b),
        },
    )?;
    Ok(())
}

/// The mask `to` is the lanes of `a` that are not in `b`.
pub(crate) fn put_less(code: &mut Vec<Step>, to: u32, a: u32, b: u32) -> Result<(), Memory>
    ensures { OnOk result (code.new.items ≡ code.old.items ++ step.MaskLess (mask_at to) (mask_at a) (mask_at b) ∷
        []) }
{
    push(
        code,
        Step::MaskLess {
            to: mask_reg(to),
            a: mask_reg(a),
            b: mask_reg(b),
        },
    )?;
    Ok(())
}

/// Passes over steps where no lane is set: which is said later.
pub(crate) fn put_skip(code: &mut Vec<Step>, mask: u32) -> Result<(), Memory>
    ensures { OnOk result (code.new.items ≡ code.old.items ++ step.SkipNone (mask_at mask) 0 ∷ []) }
{
    push(
        code,
        Step::SkipNone {
            mask: mask_reg(mask),
            target: 0,
        },
    )?;
    Ok(())
}

/// The step at `from` passes over all steps up to the end of the code.
pub(crate) fn skip_to_end(code: &mut Vec<Step>, from: usize, mask: u32) -> Result<(), Memory>
    requires { from < length code.old.items }
    ensures { OnOk result (code.new.items ≡
        slice_set code.old.items from (step.SkipNone (mask_at mask) (length code.old.items))) }
{
    let target = place(code)?;
    code[from] = Step::SkipNone {
        mask: mask_reg(mask),
        target,
    };
    Ok(())
}

/// The end of a loop whose body begins at a place: the lanes whose answer is not 0 go on, and take a
/// turn. Answers the place of the `Turn`, and the registers that are free for constants behind it.
pub(crate) fn lower_turn(
    code: &mut Vec<Step>,
    layout: &Layout,
    next: Free,
    answer: Atom,
    mask: u32,
    start: u32,
) -> Result<(u32, Free), Memory>
    ensures code { OnOk result (code.new.items ≡ code.old.items ++ spec.turn_code (frame_of layout.now) mask next
        start answer) }
    ensures next { IfOk result (λ x. (x.0 ≡ length code.old.items + 1) × (x.1 ≡ past_atom next answer)) }
{
    let after = lower_test(code, layout, next, answer, mask, mask)?;
    let turn_at = place(code)?;
    push(
        code,
        Step::Turn {
            mask: mask_reg(mask),
            target: start,
        },
    )?;
    Ok((turn_at, after))
}
