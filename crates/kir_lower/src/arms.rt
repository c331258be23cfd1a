//! Which arm of a `switch` is chosen.

ghost use Rattle.std.specs.Prelude.{◌≡◌, IfOk, OnOk};
ghost use Rattle.kir.specs.Listed.{lines_of};
ghost use Rattle.kir.specs.Tree.{joined_to};
ghost use Rattle.cl_model.specs.Listed.{listed_arms};
ghost use Rattle.kir_lower.specs.Actions as spec;
ghost use Rattle.kir_lower.specs.View.{made_of};

use crate::actions::{put_binary, put_converted};
use crate::emit::{put_copy, put_if};
use crate::places::{Made, Value, add_value, behind, constant, int};
use cl_model::SwitchArm;
use cl_model::types::promoted;
use kir::{Atom, Line};
use std::alloc::Global;
use wg_num::{Bin, IntType, Memory};

/// A `switch`: its site, its value, and the cell of the number of the arm that is chosen.
#[derive(Clone, Copy)]
struct Compared {
    site: u32,
    value: Value,
    chosen: u32,
}

/// The number of the arm with `default`, from 0; the number of arms where none has it (C99, section 6.8.4.2).
pub fn default_number(arms: &[SwitchArm]) -> usize
    ensures { result ≡ spec.default_number 0 (listed_arms arms.now) }
{
    for (k, arm) in arms.iter().enumerate() {
        if arm.other {
            return k;
        }
    }
    arms.len()
}

/// An arm is chosen where the value is one of its labels.
#[tactic(auto, using(crate::proofs::Lists::join_assoc, crate::proofs::Lists::join_none))]
fn put_labels(
    alloc: Global,
    made: &mut Made,
    lines: &mut Vec<Line>,
    of: Compared,
    number: u32,
    labels: &[i128],
) -> Result<(), Memory>
    ensures lines { OnOk result (lines_of lines.new.items ≡ joined_to (lines_of lines.old.items)
        (spec.labels_code of.site of.value of.chosen number labels.now (made_of made.old)).lines) }
    ensures made { OnOk result (made_of made.new ≡
        (spec.labels_code of.site of.value of.chosen number labels.now (made_of made.old)).made) }
{
    let mut rest = labels;
    while let Some((label, others)) = rest.split_first() {
        put_label(alloc, made, lines, of, number, *label)?;
        rest = others;
    }
    Ok(())
}

/// An arm is chosen where the value is a label.
#[tactic(auto, using(crate::proofs::Lists::join_assoc, crate::proofs::Lists::join_none))]
fn put_label(
    alloc: Global,
    made: &mut Made,
    lines: &mut Vec<Line>,
    of: Compared,
    number: u32,
    label: i128,
) -> Result<(), Memory>
    ensures lines { OnOk result (lines_of lines.new.items ≡ joined_to (lines_of lines.old.items)
        (spec.label_code of.site of.value of.chosen number label (made_of made.old)).lines) }
    ensures made { OnOk result (made_of made.new ≡
        (spec.label_code of.site of.value of.chosen number label (made_of made.old)).made) }
{
    let label = constant(label, of.value.of);
    let test = put_binary(made, lines, Bin::Eq, of.value.of, of.value.atom, label.atom)?;
    let mut yes = Vec::new(alloc);
    put_copy(&mut yes, of.chosen, int(i128::from(number)))?;
    put_if(lines, of.site, test.atom, yes, Vec::new(alloc))
}

/// The arm of which the value is a label is chosen.
#[tactic(auto, using(crate::proofs::Lists::join_assoc, crate::proofs::Lists::join_none))]
fn put_all_labels(
    alloc: Global,
    made: &mut Made,
    lines: &mut Vec<Line>,
    of: Compared,
    arms: &[SwitchArm],
) -> Result<(), Memory>
    ensures lines { OnOk result (lines_of lines.new.items ≡ joined_to (lines_of lines.old.items)
        ((spec.all_labels_code of.site of.value of.chosen 0 (listed_arms arms.now) (made_of made.old)).lines)) }
    ensures made { OnOk result (made_of made.new ≡
        (spec.all_labels_code of.site of.value of.chosen 0 (listed_arms arms.now) (made_of made.old)).made) }
{
    let mut rest = arms;
    let mut k = 0u32;
    while let Some((arm, others)) = rest.split_first() {
        put_labels(alloc, made, lines, of, k, &arm.labels)?;
        k = behind(k, 1)?;
        rest = others;
    }
    Ok(())
}

/// The number of the arm of which a label is the promoted value, else that with `default`, else the number of arms: an
/// `int` in a new cell (C99, section 6.8.4.2). `Memory` where memory was refused, and where a number does not fit in 32
/// bits.
#[tactic(auto, using(crate::proofs::Lists::join_assoc, crate::proofs::Lists::join_none))]
#[inline(never)]
pub fn put_chosen(
    alloc: Global,
    made: &mut Made,
    lines: &mut Vec<Line>,
    site: u32,
    value: Value,
    arms: &[SwitchArm],
) -> Result<Atom, Memory>
    ensures lines { OnOk result (lines_of lines.new.items ≡ joined_to (lines_of lines.old.items)
        (spec.selected site value (listed_arms arms.now) (made_of made.old)).lines) }
    ensures value { IfOk result (λ a. a ≡
        (spec.selected site value (listed_arms arms.now) (made_of made.old)).value.atom) }
    ensures made { OnOk result (made_of made.new ≡
        (spec.selected site value (listed_arms arms.now) (made_of made.old)).made) }
{
    let value = put_converted(made, lines, promoted(value.of), value.atom)?;
    let to = add_value(made, IntType::Int)?;
    put_copy(lines, to, int(default_number(arms) as i128))?;
    let of = Compared {
        site,
        value,
        chosen: to,
    };
    put_all_labels(alloc, made, lines, of, arms)?;
    Ok(Atom::Cell(to))
}
