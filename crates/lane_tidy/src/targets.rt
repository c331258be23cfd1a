//! Where the jumps of a code go.

ghost use Rattle.std.specs.Prelude.{◌≡◌, ℕ, ◌<◌, ◌≤◌, ◌||◌, ◌+◌, length, IfOk, slice_index_or, false, true};
ghost use Rattle.lane_tidy.specs.Known.{target_of, is_at, is_target};

use lane_code::Step;
use std::alloc::Global;
use wg_num::Memory;

/// The target of a jump.
pub(crate) fn target_of(step: Step) -> Option<u32>
    ensures { result ≡ target_of step }
{
    match step {
        Step::Jump { target }
        | Step::SkipNone { target, .. }
        | Step::SkipZero { target, .. }
        | Step::Turn { target, .. } => Some(target),
        Step::Const { .. }
        | Step::Copy { .. }
        | Step::Unary { .. }
        | Step::Binary { .. }
        | Step::Builtin { .. }
        | Step::Convert { .. }
        | Step::Spread { .. }
        | Step::First { .. }
        | Step::Ask { .. }
        | Step::Argument { .. }
        | Step::Load { .. }
        | Step::Store { .. }
        | Step::Clear { .. }
        | Step::ColumnGet { .. }
        | Step::ColumnPut { .. }
        | Step::OnceGet { .. }
        | Step::OncePut { .. }
        | Step::VoteGet { .. }
        | Step::VotePut { .. }
        | Step::Test { .. }
        | Step::MaskAnd { .. }
        | Step::MaskOr { .. }
        | Step::MaskLess { .. }
        | Step::Mark { .. } => None,
    }
}

/// Marks the target, if there is one and it has a mark.
fn mark_target(marks: &mut [bool], target: Option<u32>)
    ensures { (n : ℕ) → n < length marks.old →
        slice_index_or marks.new n false ≡ slice_index_or marks.old n false || is_at target n }
{
    if let Some(target) = target {
        let at = target as usize;
        if at < marks.len() {
            marks[at] = true;
        }
    }
}

/// Whether a jump goes there, for each step and the end.
pub(crate) fn targets_of(alloc: Global, steps: &[Step]) -> Result<Vec<bool>, Memory>
    ensures room { IfOk result (λ v. length v.items ≡ length steps.now + 1) }
    ensures targets { IfOk result (λ v. (n : ℕ) → n ≤ length steps.now →
        slice_index_or v.items n false ≡ is_target steps.now n) }
{
    let mut marks = match vec![in alloc; false; steps.len() + 1] {
        Ok(marks) => marks,
        Err(_) => return Err(Memory),
    };
    for step in steps {
        mark_target(&mut marks, target_of(*step));
    }
    Ok(marks)
}
