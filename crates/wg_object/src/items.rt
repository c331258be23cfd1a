//! Lists of steps, numbers, places and kinds, as bytes and back.

ghost use Rattle.std.specs.Prelude.{◌≡◌, ◌++◌, ◌∷◌, [], ℕ, List, OnOk, IfOk};
ghost use Rattle.wg_object.specs.Reading as reading;
ghost use Rattle.wg_object.specs.Text as texts;
ghost use Rattle.wg_object.specs.Valid as valid;

use crate::numbers::{space_number, space_of, type_number};
use crate::parts::{byte_at, eight_at, four_at, root_at, type_at};
use crate::puts::{eight, four, put, put_pieces, root_bytes};
use crate::step_parts::step_at;
use crate::step_puts::put_step;
use cl_model::VarKind;
use lane_code::Step;
use std::alloc::Global;
use wg_num::{Memory, Place, push};

/// What a list has many of.
pub(crate) trait Item: Copy + Drop {
    // its bytes, whether its numbers have bytes, and what bytes begin with
    ghost spelled: { Self → List ℕ };

    ghost fits: { Self → Type 0 };

    ghost read: { List ℕ → Self × List ℕ };

    fn put(self, out: &mut Vec<u8>) -> Result<(), Memory>
        ensures put { OnOk result (out.new.items ≡ out.old.items ++ spelled self) }
        ensures fits { OnOk result (fits self) };

    fn take(bytes: &[u8]) -> (Self, &[u8])
        ensures { (result.0, result.1.now) ≡ read bytes.now };
}

impl Item for Step {
    ghost spelled = { texts.step_text };

    ghost fits = { valid.IsStep };

    ghost read = { reading.step_at };

    fn put(self, out: &mut Vec<u8>) -> Result<(), Memory> {
        put_step(out, self)
    }

    fn take(bytes: &[u8]) -> (Step, &[u8]) {
        step_at(bytes)
    }
}

impl Item for u64 {
    ghost spelled = { texts.eight };

    ghost fits = { valid.IsEight };

    ghost read = { reading.eight_at };

    fn put(self, out: &mut Vec<u8>) -> Result<(), Memory> {
        put(out, &eight(self))
    }

    fn take(bytes: &[u8]) -> (u64, &[u8]) {
        eight_at(bytes)
    }
}

pub(crate) fn put_place(out: &mut Vec<u8>, place: Place) -> Result<(), Memory>
    ensures put { OnOk result (out.new.items ≡ out.old.items ++ texts.place_text place) }
    ensures fits { OnOk result (valid.IsPlace place) }
{
    put_pieces(out, &[&four(place.line), &four(place.column)])
}

#[tactic(auto, unfolding(crate::specs::Reading::place_at))]
pub(crate) fn place_at(bytes: &[u8]) -> (Place, &[u8])
    ensures { (result.0, result.1.now) ≡ reading.place_at bytes.now }
{
    let (line, rest) = four_at(bytes);
    let (column, rest) = four_at(rest);
    (Place { line, column }, rest)
}

impl Item for Place {
    ghost spelled = { texts.place_text };

    ghost fits = { valid.IsPlace };

    ghost read = { reading.place_at };

    fn put(self, out: &mut Vec<u8>) -> Result<(), Memory> {
        put_place(out, self)
    }

    fn take(bytes: &[u8]) -> (Place, &[u8]) {
        place_at(bytes)
    }
}

fn put_kind(out: &mut Vec<u8>, kind: VarKind) -> Result<(), Memory>
    ensures put { OnOk result (out.new.items ≡ out.old.items ++ texts.kind_text kind) }
    ensures fits { OnOk result (valid.IsKind kind) }
{
    match kind {
        VarKind::Scalar(t) => put(out, &[0, type_number(t)]),
        VarKind::Pointer {
            space,
            element,
            root,
        } => put_pieces(
            out,
            &[
                &[1, space_number(space), type_number(element)],
                &root_bytes(root),
            ],
        ),
    }
}

#[tactic(auto, unfolding(crate::specs::Reading::pointer_at))]
fn pointer_at(bytes: &[u8]) -> (VarKind, &[u8])
    ensures { (result.0, result.1.now) ≡ reading.pointer_at bytes.now }
{
    let (space, rest) = byte_at(bytes);
    let (element, rest) = type_at(rest);
    let (root, rest) = root_at(rest);
    let space = space_of(space);
    (
        VarKind::Pointer {
            space,
            element,
            root,
        },
        rest,
    )
}

#[tactic(auto, unfolding(crate::specs::Reading::kind_at))]
fn kind_at(bytes: &[u8]) -> (VarKind, &[u8])
    ensures { (result.0, result.1.now) ≡ reading.kind_at bytes.now }
{
    let (number, rest) = byte_at(bytes);
    if number == 1 {
        return pointer_at(rest);
    }
    let (t, rest) = type_at(rest);
    (VarKind::Scalar(t), rest)
}

impl Item for VarKind {
    ghost spelled = { texts.kind_text };

    ghost fits = { valid.IsKind };

    ghost read = { reading.kind_at };

    fn put(self, out: &mut Vec<u8>) -> Result<(), Memory> {
        put_kind(out, self)
    }

    fn take(bytes: &[u8]) -> (VarKind, &[u8]) {
        kind_at(bytes)
    }
}

/// Puts items one behind the other.
fn put_items<T: Item>(out: &mut Vec<u8>, items: &[T]) -> Result<(), Memory>
    ensures put { OnOk result (out.new.items ≡ out.old.items ++ texts.flat_texts T.spelled items.now) }
    ensures fit { OnOk result (valid.AllFit T.fits items.now) }
{
    for item in items {
        (*item).put(out)?;
    }
    Ok(())
}

/// Puts a list: its count, and its items.
pub(crate) fn put_list<T: Item>(out: &mut Vec<u8>, items: &[T]) -> Result<(), Memory>
    ensures put { OnOk result (out.new.items ≡ out.old.items ++ texts.list_text T.spelled items.now) }
    ensures fit { OnOk result (valid.IsList T.fits items.now) }
{
    put(out, &eight(items.len() as u64))?;
    put_items(out, items)
}

/// So many items, fewer where the bytes end.
fn take_items<T: Item>(alloc: Global, count: u64, bytes: &[u8]) -> Result<(Vec<T>, &[u8]), Memory>
    ensures { IfOk result (λ x. (x.0.items, x.1.now) ≡ reading.items_at T.read count bytes.now) }
{
    let mut items = Vec::new(alloc);
    let mut rest = bytes;
    for _ in 0..count {
        if rest.is_empty() {
            return Ok((items, rest));
        }
        let (item, after) = T::take(rest);
        push(&mut items, item)?;
        rest = after;
    }
    Ok((items, rest))
}

/// A list behind its count.
#[tactic(auto, unfolding(crate::specs::Reading::list_at))]
pub(crate) fn take_list<T: Item>(alloc: Global, bytes: &[u8]) -> Result<(Vec<T>, &[u8]), Memory>
    ensures { IfOk result (λ x. (x.0.items, x.1.now) ≡ reading.list_at T.read bytes.now) }
{
    let (count, rest) = eight_at(bytes);
    take_items(alloc, count, rest)
}
