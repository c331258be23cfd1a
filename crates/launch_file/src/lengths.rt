//! The buffers of a launch file.
ghost use Rattle.std.specs.Prelude.{◌≡◌, ◌≤◌, ◌-◌, ◌^◌, min, length, map, IfOk};
ghost use Rattle.std.specs.List.{list_any};
ghost use Rattle.launch_file.specs.Binding as spec;

use crate::settle::is_named;
use crate::sizes::count_of;
use crate::text::{ArgText, BufferText};
use cl_model::Bound;
use std::alloc::Global;
use wg_num::{Memory, Word};

fn length_wrong(buffer: &BufferText) -> bool
    ensures { result ≡ spec.length_wrong buffer.now }
{
    buffer.bytes < 0 || buffer.bytes > 67_108_864
}

fn some_length_wrong(buffers: &[BufferText]) -> bool
    ensures { result ≡ list_any spec.length_wrong buffers.now }
{
    for buffer in buffers {
        if length_wrong(buffer) {
            return true;
        }
    }
    false
}

// The bytes of all buffers, where that is a number of 64 bits.
fn bytes_total(buffers: &[BufferText]) -> u64
    ensures { result ≡ min (spec.total (λ b. spec.count_of b.bytes) buffers.now) (2 ^ 64 - 1) }
{
    let mut total = 0u64;
    for buffer in buffers {
        total = total.saturating_add(count_of(buffer.bytes));
    }
    total
}

/// Whether a buffer's bytes are wrong, there are more than 64 buffers, or they have too many bytes
/// together.
pub(crate) fn buffers_wrong(buffers: &[BufferText]) -> bool
    ensures { result ≡ spec.buffers_wrong buffers.now }
{
    some_length_wrong(buffers) || buffers.len() > 64 || bytes_total(buffers) > 268_435_456
}

// The number of the first buffer of that name.
fn number_of(name: &[u8], buffers: &[BufferText]) -> u32
    requires { length buffers.now ≤ 64 }
    ensures { result ≡ spec.number_of name.now buffers.now }
{
    for i in 0..buffers.len() {
        if is_named(name, &buffers[i]) {
            return i as u32;
        }
    }
    buffers.len() as u32
}

fn bound_of(buffers: &[BufferText], arg: &ArgText) -> Bound
    requires { length buffers.now ≤ 64 }
    ensures { result ≡ spec.bound_of buffers.now arg.now }
{
    match arg {
        ArgText::Buffer(name) => Bound::Buffer(number_of(name.bytes(), buffers)),
        ArgText::Value(number) => Bound::Value(*number as i128),
        ArgText::Local(bytes) => Bound::Local(count_of(*bytes)),
    }
}

/// What the arguments bind.
pub(crate) fn all_bound(
    alloc: Global,
    buffers: &[BufferText],
    args: &[ArgText],
) -> Result<Vec<Bound>, Memory>
    requires { length buffers.now ≤ 64 }
    ensures { IfOk result (λ v. v.items ≡ map (spec.bound_of buffers.now) args.now) }
{
    let mut list = Vec::new(alloc);
    for arg in args {
        if list.push(bound_of(buffers, arg)).is_err() {
            return Err(Memory);
        }
    }
    Ok(list)
}

/// The length of each buffer.
pub(crate) fn lengths_of(alloc: Global, buffers: &[BufferText]) -> Result<Vec<u64>, Memory>
    ensures { IfOk result (λ v. v.items ≡ map (λ b. spec.count_of b.bytes) buffers.now) }
{
    let mut list = Vec::new(alloc);
    for buffer in buffers {
        if list.push(count_of(buffer.bytes)).is_err() {
            return Err(Memory);
        }
    }
    Ok(list)
}

fn copied(alloc: Global, name: &Option<Word>) -> Result<Option<Word>, Memory>
    ensures { IfOk result (λ w. w ≡ name.now) }
{
    match name {
        Some(word) => match word.copy(alloc) {
            Ok(copy) => Ok(Some(copy)),
            Err(Memory) => Err(Memory),
        },
        None => Ok(None),
    }
}

/// The file that each buffer starts as.
pub(crate) fn loads_of(alloc: Global, buffers: &[BufferText]) -> Result<Vec<Option<Word>>, Memory>
    ensures { IfOk result (λ v. v.items ≡ map (λ b. b.load) buffers.now) }
{
    let mut list = Vec::new(alloc);
    for buffer in buffers {
        let name = copied(alloc, &buffer.load)?;
        if list.push(name).is_err() {
            return Err(Memory);
        }
    }
    Ok(list)
}

/// The file that each buffer is saved as.
pub(crate) fn saves_of(alloc: Global, buffers: &[BufferText]) -> Result<Vec<Option<Word>>, Memory>
    ensures { IfOk result (λ v. v.items ≡ map (λ b. b.save) buffers.now) }
{
    let mut list = Vec::new(alloc);
    for buffer in buffers {
        let name = copied(alloc, &buffer.save)?;
        if list.push(name).is_err() {
            return Err(Memory);
        }
    }
    Ok(list)
}
