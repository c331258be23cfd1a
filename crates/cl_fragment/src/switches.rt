//! `switch` and its labels.

ghost use Rattle.std.specs.Prelude.{◌≡◌, ◌∷◌, List, Option, IfOk, map, option_map, [], false, true};
ghost use Rattle.cl_model.specs.Listed.{listed_arms};
ghost use Rattle.cl_meaning.specs.Environment as visible;
ghost use Rattle.cl_meaning.specs.Kinds.{first_part};
ghost use Rattle.cl_meaning.specs.Constants as constants;
ghost use Rattle.cl_tree.specs.Syntax.{Forest};
ghost use Rattle.cl_meaning.specs.Typed as typed;
ghost use Rattle.cl_meaning.specs.Statements as meaning;
ghost use Rattle.wg_num.specs.declared.types.Place as places;
ghost use Rattle.cl_fragment.specs.Arms.{arms_with, begun_of, begun_by};
ghost use Rattle.cl_fragment.specs.View.{piece_of, what_of, built_of};

use crate::boxes::as_statement;
use crate::fragment::{Piece, What};
use crate::growth::append;
use crate::lines::{body, put};
use crate::parts::{Two, next, only, pair};
use crate::sites::take_site;
use crate::values::read;
use cl_meaning::Constant;
use cl_model::{SwitchArm, statement};
use std::alloc::Global;
use wg_num::{IntType, Memory, Place, beside, boxed, push, wrap};

/// The arm that a statement begins.
fn new_arm(alloc: Global, what: What) -> Result<SwitchArm, Memory>
    ensures { IfOk result (λ a. begun_of a ≡ begun_by (what_of what)) }
{
    let (labels, other, first) = match what {
        What::Labelled {
            labels,
            other,
            behind,
        } => (labels, other, Box::into_inner(behind)),
        plain => (Vec::new(alloc), false, body(alloc, plain)),
    };
    let mut lines = Vec::new(alloc);
    put(&mut lines, first)?;
    Ok(SwitchArm {
        labels,
        other,
        body: lines,
    })
}

/// One statement more: it begins an arm if it has labels, and else belongs to the last one. Gives the last
/// arm.
#[tactic(auto, using(crate::proofs::Lists::arms_listed), unfolding(cl_meaning::specs::Statements::arms_from))]
fn put_in_arm(
    alloc: Global,
    arms: &mut Vec<SwitchArm>,
    mut last: SwitchArm,
    piece: Piece,
) -> Result<SwitchArm, Memory>
    ensures { IfOk result (λ a. (later : List typed.Piece) →
        arms_with arms.new.items a later ≡ arms_with arms.old.items last (piece_of piece ∷ later)) }
{
    let Piece { what, .. } = piece;
    match what {
        What::Labelled {
            labels,
            other,
            behind,
        } => {
            let (_, (labels, behind)) = beside(push(arms, last), (labels, behind))?;
            let first = What::Labelled {
                labels,
                other,
                behind,
            };
            new_arm(alloc, first)
        }
        plain => {
            let line = body(alloc, plain);
            let (_, last) = beside(put(&mut last.body, line), last)?;
            Ok(last)
        }
    }
}

/// The arms of a switch.
#[tactic(auto, using(crate::proofs::Lists::arms_alone), unfolding(cl_meaning::specs::Statements::arms_from))]
fn arms(alloc: Global, mut pieces: Vec<Piece>) -> Result<Vec<SwitchArm>, Memory>
    ensures { IfOk result (λ v. listed_arms v.items ≡ meaning.arms_of (map piece_of pieces.items)) }
{
    let mut all = Vec::new(alloc);
    let Some(first) = next(&mut pieces) else {
        return Ok(all);
    };
    let mut last = new_arm(alloc, first.what)?;
    for piece in pieces {
        last = put_in_arm(alloc, &mut all, last, piece)?;
    }
    push(&mut all, last)?;
    Ok(all)
}

/// What `switch` stands for (C99, section 6.8.4.2).
pub(crate) fn switch(
    alloc: Global,
    place: Place,
    sites: &mut Vec<Place>,
    mut pieces: Vec<Piece>,
) -> Result<What, Memory>
    ensures { IfOk result (λ w. meaning.switch_made place sites.old.items (map piece_of pieces.items) ≡
        built_of w sites.new.items) }
{
    let Some(value) = next(&mut pieces) else {
        return Ok(What::Nothing);
    };
    let arms = arms(alloc, pieces)?;
    let site = take_site(sites, place)?;
    as_statement(alloc, statement::switch(site, read(value.what), arms))
}

/// A label, converted to the type of the switch.
fn label(
    alloc: Global,
    of: Option<IntType>,
    constant: Option<Constant>,
) -> Result<Vec<i128>, Memory>
    ensures { IfOk result (λ v. (labels : Option visible.Labels) → option_map (λ l. l.of) labels ≡ of →
        meaning.label_of labels constant ≡ v.items) }
{
    let mut labels = Vec::new(alloc);
    let (Some(of), Some(constant)) = (of, constant) else {
        return Ok(labels);
    };
    push(&mut labels, wrap(of, constant.value))?;
    Ok(labels)
}

/// A statement with labels more in front of it.
fn labelled(alloc: Global, mut labels: Vec<i128>, other: bool, what: What) -> Result<What, Memory>
    ensures { IfOk result (λ w. what_of w ≡ meaning.labelled_by labels.items other (what_of what)) }
{
    match what {
        What::Labelled {
            labels: later,
            other: another,
            behind,
        } => {
            let (_, behind) = beside(append(&mut labels, later), behind)?;
            Ok(What::Labelled {
                labels,
                other: other || another,
                behind,
            })
        }
        plain => {
            let behind = boxed(alloc, body(alloc, plain))?;
            Ok(What::Labelled {
                labels,
                other,
                behind,
            })
        }
    }
}

/// What `case` stands for, in a switch whose labels are converted to the type `of`; `constant` is its own
/// (C99, section 6.8.1).
pub(crate) fn case(
    alloc: Global,
    of: Option<IntType>,
    constant: Option<Constant>,
    pieces: Vec<Piece>,
) -> Result<What, Memory>
    ensures { IfOk result (λ w. (env : visible.Env) (sites : List places.Place) (parts : Forest) →
        option_map (λ l. l.of) env.labels ≡ of → constants.constant_of (first_part parts) ≡ constant →
        meaning.case_made env sites parts (map piece_of pieces.items) ≡ built_of w sites) }
{
    let Some(two) = pair(pieces) else {
        return Ok(What::Nothing);
    };
    let Two { first, second } = two;
    drop(first);
    let (label, second) = beside(label(alloc, of, constant), second)?;
    let what = labelled(alloc, label, false, second.what)?;
    Ok(what)
}

/// What `default` stands for (C99, section 6.8.1).
pub(crate) fn default(alloc: Global, pieces: Vec<Piece>) -> Result<What, Memory>
    ensures { IfOk result (λ w. (sites : List places.Place) →
        meaning.default_made sites (map piece_of pieces.items) ≡ built_of w sites) }
{
    let Some(a) = only(pieces) else {
        return Ok(What::Nothing);
    };
    let what = labelled(alloc, Vec::new(alloc), true, a.what)?;
    Ok(what)
}
