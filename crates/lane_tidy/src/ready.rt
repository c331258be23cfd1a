//! Whether a code is ready for the passes.

ghost use Rattle.std.specs.Prelude.{◌≡◌};
ghost use Rattle.lane_code.specs.Fits.{count_of, is_below};
ghost use Rattle.lane_tidy.specs.Ready.{has_lanes, has_mask, works_on, is_ready_step, is_ready};

use lane_code::{Bank, Counts, Reg, Step};

/// Whether there is such a register, of lanes.
pub(crate) fn has_lanes(c: Counts, x: Reg) -> bool
    ensures { result ≡ has_lanes c x }
{
    match x.bank {
        Bank::Narrow => x.number < c.narrow,
        Bank::Wide => x.number < c.wide,
        Bank::Mask | Bank::Scalar => false,
    }
}

/// Whether there is such a mask.
fn has_mask(c: Counts, x: Reg) -> bool
    ensures { result ≡ has_mask c x }
{
    match x.bank {
        Bank::Mask => x.number < c.masks,
        Bank::Narrow | Bank::Wide | Bank::Scalar => false,
    }
}

/// Whether there are such lanes and such a mask.
fn works_on(c: Counts, to: Reg, mask: Reg) -> bool
    ensures { result ≡ works_on c to mask }
{
    has_lanes(c, to) && has_mask(c, mask)
}

/// Whether a step is ready for the passes where it stands.
pub(crate) fn is_ready_step(c: Counts, place: usize, step: Step) -> bool
    ensures { result ≡ is_ready_step c place step }
{
    match step {
        Step::Copy { to, from, mask } => {
            works_on(c, to, mask) && (has_lanes(c, from) && from.bank == to.bank)
        }
        Step::Unary { to, a, mask, .. } => works_on(c, to, mask) && has_lanes(c, a),
        Step::Binary { to, a, b, mask, .. } => {
            works_on(c, to, mask) && (has_lanes(c, a) && has_lanes(c, b))
        }
        Step::Builtin {
            to,
            a,
            b,
            c: third,
            mask,
            ..
        } => {
            let two = has_lanes(c, b) && has_lanes(c, third);
            works_on(c, to, mask) && (has_lanes(c, a) && two)
        }
        Step::Convert { to, from, mask, .. } => works_on(c, to, mask) && has_lanes(c, from),
        Step::Ask { to, dim, mask, .. } => works_on(c, to, mask) && has_lanes(c, dim),
        Step::Argument { to, mask, .. } => works_on(c, to, mask),
        Step::Load {
            index,
            to,
            mask,
            ..
        } => works_on(c, to, mask) && has_lanes(c, index),
        Step::Store {
            index,
            from,
            mask,
            ..
        } => works_on(c, from, mask) && has_lanes(c, index),
        Step::Test { from, mask, .. } => works_on(c, from, mask),
        Step::MaskAnd { a, b, .. } | Step::MaskOr { a, b, .. } | Step::MaskLess { a, b, .. } => {
            has_mask(c, a) && has_mask(c, b)
        }
        Step::Jump { target } | Step::SkipNone { target, .. } | Step::SkipZero { target, .. } => {
            place < target as usize
        }
        Step::Const { .. }
        | Step::Spread { .. }
        | Step::First { .. }
        | Step::Clear { .. }
        | Step::ColumnGet { .. }
        | Step::ColumnPut { .. }
        | Step::OnceGet { .. }
        | Step::OncePut { .. }
        | Step::VoteGet { .. }
        | Step::VotePut { .. }
        | Step::Turn { .. }
        | Step::Mark { .. } => true,
    }
}

/// Whether the steps are.
pub(crate) fn is_ready(c: Counts, steps: &[Step]) -> bool
    ensures { result ≡ is_ready c steps.now }
{
    for i in 0..steps.len() {
        if !is_ready_step(c, i, steps[i]) {
            return false;
        }
    }
    true
}

/// Whether there is such a register.
pub(crate) fn has(c: Counts, x: Reg) -> bool
    ensures { result ≡ is_below c x }
{
    match x.bank {
        Bank::Narrow => x.number < c.narrow,
        Bank::Wide => x.number < c.wide,
        Bank::Mask => x.number < c.masks,
        Bank::Scalar => x.number < c.scalars,
    }
}
