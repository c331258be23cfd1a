//! The launches of a launch file for a kernel.
ghost use Rattle.std.specs.Prelude.{◌≡◌, ◌<◌, ◌≤◌, All, IfOk, Err, Some, None, IfNone, IfSome};
ghost use Rattle.std.specs.Prelude.{length};
ghost use Rattle.launch_file.specs.Binding as spec;
ghost use Rattle.launch_file.specs.Values.{HasOneLength};
ghost use Rattle.launch_file.specs.NeedsView.{needs_of};
ghost use Rattle.launch_file.specs.Texts.{part_of, text_of};
ghost use Rattle.launch_file.specs.declared.text.LaunchError.TheVariants.{Refused};

use crate::arguments::{
    local_wrong, some_kind_wrong, some_shared, some_unlisted, some_value_wrong,
};
use crate::lengths::{all_bound, buffers_wrong, lengths_of, loads_of, saves_of};
use crate::refusal::Refusal;
use crate::sizes::{is_another_size, sizes_wrong, three_offsets, three_sizes};
use crate::text::{BufferText, LaunchError, LaunchPart, LaunchText};
use cl_model::{Launch, VarKind};
use std::alloc::Global;
use wg_num::Memory;

/// What a kernel asks of its launches: the kinds of its parameters, the bytes of local memory that
/// it declares, and the work-group size that it requires, if it does (OpenCL 1.2, section 6.7.2).
/// More than 2^64 - 1 bytes are told as so many.
#[derive(Drop)]
pub struct KernelNeeds {
    pub kinds: Vec<VarKind>,
    pub local_bytes: u64,
    pub required: Option<[u64; 3]>,
}

// The first condition on the arguments that stands.
fn arguments_refused(
    needs: &KernelNeeds,
    buffers: &[BufferText],
    part: &LaunchPart,
) -> Option<Refusal>
    ensures none { IfNone result (spec.arguments_refusal (needs_of needs.now) buffers.now (part_of part.now) ≡ None) }
    ensures some { IfSome result (λ r. spec.arguments_refusal (needs_of needs.now) buffers.now (part_of part.now) ≡
        Some r) }
{
    let kinds = needs.kinds.as_slice();
    let args = part.args.as_slice();
    if args.len() != kinds.len() {
        return Some(Refusal::ArgumentCount);
    }
    if some_kind_wrong(kinds, args) {
        return Some(Refusal::ArgumentKind);
    }
    if some_value_wrong(kinds, args) {
        return Some(Refusal::ValueOutOfRange);
    }
    if some_unlisted(buffers, args) {
        return Some(Refusal::UnknownBuffer);
    }
    if some_shared(kinds, args) {
        return Some(Refusal::ConstantBufferShared);
    }
    None
}

// The first condition on the launch that stands.
fn launch_refused(needs: &KernelNeeds, buffers: &[BufferText], part: &LaunchPart) -> Option<Refusal>
    ensures none { IfNone result (spec.launch_refusal (needs_of needs.now) buffers.now (part_of part.now) ≡ None) }
    ensures some { IfSome result (λ r. spec.launch_refusal (needs_of needs.now) buffers.now (part_of part.now) ≡
        Some r) }
{
    if sizes_wrong(part) {
        return Some(Refusal::Sizes);
    }
    if let Some(refusal) = arguments_refused(needs, buffers, part) {
        return Some(refusal);
    }
    if is_another_size(three_sizes(&part.local), needs.required) {
        return Some(Refusal::RequiredSize);
    }
    if local_wrong(needs.local_bytes, &part.args) {
        return Some(Refusal::LocalMemory);
    }
    if buffers_wrong(buffers) {
        return Some(Refusal::Buffers);
    }
    None
}

// The launch that a part says, over buffers whose number is within its limit.
fn launch_of(
    alloc: Global,
    turns: u64,
    buffers: &[BufferText],
    part: &LaunchPart,
) -> Result<Launch, Memory>
    requires few { length buffers.now ≤ 64 }
    requires one_length { HasOneLength (part_of part.now) }
    ensures is_its { IfOk result (λ l. spec.IsLaunchOf turns buffers.now (part_of part.now) l) }
    ensures offsets { IfOk result (λ l. spec.AreOffsets l.offset) }
{
    let args = all_bound(alloc, buffers, &part.args)?;
    let lengths = lengths_of(alloc, buffers)?;
    let loads = loads_of(alloc, buffers)?;
    let saves = saves_of(alloc, buffers)?;
    Ok(Launch {
        dims: part.global.len() as u32,
        global: three_sizes(&part.global),
        local: three_sizes(&part.local),
        offset: three_offsets(&part.offset),
        turns,
        args,
        lengths,
        loads,
        saves,
    })
}

/// The launch that a part of a launch file says for a kernel with these needs. It is refused for the
/// first of these conditions that stands: `Sizes`, `ArgumentCount`, `ArgumentKind`,
/// `ValueOutOfRange`, `UnknownBuffer`, `ConstantBufferShared`, `RequiredSize`, `LocalMemory`,
/// `Buffers`. `which` is the number of the launch, counted from 0; the sizes and the offset of a
/// launch have one length from 1 to 3, as `read` gives them.
pub fn bind_kernel(
    alloc: Global,
    needs: &KernelNeeds,
    text: &LaunchText,
    which: usize,
) -> Result<Launch, LaunchError>
    requires within { which < length text.now.list.items }
    requires lengths { All (λ p. HasOneLength (part_of p)) text.now.list.items }
    ensures bound { IfOk result (spec.Binds (needs_of needs.now) (text_of text.now)
        (spec.part_at (text_of text.now) which)) }
    ensures offsets { IfOk result (λ l. spec.AreOffsets l.offset) }
    ensures refused { (first : Refusal) → result ≡ Err (Refused first) →
        spec.launch_refusal (needs_of needs.now) (text_of text.now).buffers
        (spec.part_at (text_of text.now) which) ≡ Some first }
{
    let part = &text.list[which];
    let buffers = text.buffers.as_slice();
    if let Some(refusal) = launch_refused(needs, buffers, part) {
        return Err(LaunchError::Refused(refusal));
    }
    let launch = launch_of(alloc, text.turns, buffers, part)?;
    Ok(launch)
}
