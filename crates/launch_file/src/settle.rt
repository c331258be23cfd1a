//! The conditions on the values of a launch file, and its text.
ghost use Rattle.std.specs.Prelude.{◌≡◌, ◌≤◌, All, length, IfOk, IfErr, None, Some, MatchOption, true};
ghost use Rattle.std.specs.Prelude.{false, pos};
ghost use Rattle.std.specs.List.{list_any};
ghost use Rattle.wg_num.specs.Operators.{lanes_of};
ghost use Rattle.launch_file.specs.Refusals as spec;
ghost use Rattle.launch_file.specs.Texts.{part_of, text_of};
ghost use Rattle.launch_file.specs.Values.{HasTexts, HasOneLength, HasNumber};
ghost use Rattle.launch_file.specs.ValueViews.{values_of};

use crate::parts::Values;
use crate::refusal::Refusal;
use crate::text::{BufferText, LaunchText};
use cl_prep::Defines;
use wg_num::{Width, Word, width_of};

pub(crate) fn is_named(name: &[u8], buffer: &BufferText) -> bool
    ensures { result ≡ spec.is_named name.now buffer.now }
{
    buffer.name.bytes() == name
}

pub(crate) fn has_name(name: &[u8], buffers: &[BufferText]) -> bool
    ensures { result ≡ list_any (spec.is_named name.now) buffers.now }
{
    for buffer in buffers {
        if is_named(name, buffer) {
            return true;
        }
    }
    false
}

fn named_twice(buffers: &[BufferText]) -> bool
    ensures { result ≡ spec.named_twice buffers.now }
{
    for i in 0..buffers.len() {
        if has_name(buffers[i].name.bytes(), &buffers[i + 1..]) {
            return true;
        }
    }
    false
}

fn is_this(name: &[u8], other: &Option<Word>) -> bool
    ensures { result ≡ spec.is_this name.now other.now }
{
    match other {
        Some(other) => other.bytes() == name,
        None => false,
    }
}

fn is_saved(name: &[u8], buffers: &[BufferText]) -> bool
    ensures { result ≡ list_any (λ b. spec.is_this name.now b.save) buffers.now }
{
    for buffer in buffers {
        if is_this(name, &buffer.save) {
            return true;
        }
    }
    false
}

fn saved_again(save: &Option<Word>, buffers: &[BufferText]) -> bool
    ensures { result ≡ spec.saved_again save.now buffers.now }
{
    match save {
        Some(name) => is_saved(name.bytes(), buffers),
        None => false,
    }
}

fn saved_twice(buffers: &[BufferText]) -> bool
    ensures { result ≡ spec.saved_twice buffers.now }
{
    for i in 0..buffers.len() {
        if saved_again(&buffers[i].save, &buffers[i + 1..]) {
            return true;
        }
    }
    false
}

fn chosen(option: Option<u64>, in_file: Option<i64>, other: u32) -> i128
    ensures { result ≡ spec.chosen option in_file other }
{
    match option {
        Some(number) => number as i128,
        None => match in_file {
            Some(number) => number as i128,
            None => other as i128,
        },
    }
}

// The width of that many lanes.
fn width_for(lanes: i128) -> Option<Width>
    ensures { MatchOption result (spec.is_lane_count lanes ≡ false) (λ w. (spec.is_lane_count lanes ≡ true) ×
        (pos (lanes_of w) ≡ lanes)) }
{
    match u64::try_from(lanes) {
        Ok(count) => width_of(count),
        Err(_) => None,
    }
}

fn turn_count(turns: i128) -> Option<u64>
    ensures { MatchOption result (spec.is_turn_count turns ≡ false) (λ n. (spec.is_turn_count turns ≡ true) ×
        (pos n ≡ turns)) }
{
    if turns < 0 || turns > 1_000_000_000_000 {
        None
    } else {
        Some(turns as u64)
    }
}

fn is_launch_count(count: usize) -> bool
    ensures { result ≡ spec.is_launch_count count }
{
    1 <= count && count <= 16
}

/// The text of a file's values and the two options, or the first condition that stands on them.
pub(crate) fn settle(
    values: Values,
    lanes: Option<u64>,
    turns: Option<u64>,
) -> Result<LaunchText, Refusal>
    requires texts { All HasTexts values.buffers.items }
    requires lengths { All (λ p. HasOneLength (part_of p)) values.list.items }
    requires numbers { All HasNumber values.defines.items }
    ensures ok { IfOk result (λ t. spec.Says lanes turns (values_of values) (text_of t)) }
    ensures texts { IfOk result (λ t. All HasTexts t.buffers.items) }
    ensures lengths { IfOk result (λ t. All (λ p. HasOneLength (part_of p)) t.list.items) }
    ensures numbers { IfOk result (λ t. All HasNumber t.defines.list.items) }
    ensures some { IfOk result (λ t. 1 ≤ length t.list.items) }
    ensures few { IfOk result (λ t. length t.list.items ≤ 16) }
    ensures apart { IfOk result (λ t. spec.saved_twice t.buffers.items ≡ false) }
    ensures accepted { IfOk result (λ _. spec.first_of (spec.value_conditions lanes turns (values_of values)) ≡
        None) }
    ensures refused { IfErr result (λ r. spec.first_of (spec.value_conditions lanes turns (values_of values)) ≡
        Some r) }
{
    if named_twice(values.buffers.as_slice()) {
        return Err(Refusal::BufferNamedTwice);
    }
    if saved_twice(values.buffers.as_slice()) {
        return Err(Refusal::SavedTwice);
    }
    let Some(width) = width_for(chosen(lanes, values.lanes, 8)) else {
        return Err(Refusal::Lanes);
    };
    let Some(count) = turn_count(chosen(turns, values.turns, 100_000_000)) else {
        return Err(Refusal::Turns);
    };
    if !is_launch_count(values.list.len()) {
        return Err(Refusal::Launches);
    }
    Ok(LaunchText {
        defines: Defines {
            list: values.defines,
        },
        lanes: width,
        turns: count,
        buffers: values.buffers,
        several: values.several,
        list: values.list,
    })
}
