//! Assignments, `++` and `--`.

ghost use Rattle.std.specs.Prelude.{◌≡◌, IfOk, List, map, false};
ghost use Rattle.cl_model.specs.View.{expression_of};
ghost use Rattle.cl_meaning.specs.Conversions as conversions;
ghost use Rattle.cl_meaning.specs.Expressions as meaning;
ghost use Rattle.wg_num.specs.declared.types.Place as places;
ghost use Rattle.cl_fragment.specs.View.{piece_of, what_of, built_of};

use crate::beside::operand_beside;
use crate::boxes::as_value;
use crate::fragment::{Piece, What};
use crate::parts::pair;
use crate::types::type_in;
use crate::values::{literal, read};
use cl_meaning::{Kind, Setting, operand_type, right_type};
use cl_model::{Expr, expression};
use std::alloc::Global;
use wg_num::{Bin, IntType, Memory};

/// A target set to a value (C99, section 6.5.16.1).
fn assigned(alloc: Global, what: What, value: Expr) -> Result<What, Memory>
    ensures { IfOk result (λ w. what_of w ≡ meaning.assigned (what_of what) (expression_of value)) }
{
    match what {
        What::Target(target) => {
            let assignment = expression::assign(alloc, target, value)?;
            as_value(alloc, assignment)
        }
        other => {
            drop(value);
            drop(other);
            Ok(What::Nothing)
        }
    }
}

/// A target set to the result of an operator on its old value and another (C99, section 6.5.16.2).
fn updated(
    alloc: Global,
    what: What,
    op: Bin,
    of: IntType,
    back: IntType,
    old: bool,
    value: Expr,
) -> Result<What, Memory>
    ensures { IfOk result (λ w. what_of w ≡ meaning.updated (what_of what) op of back old (expression_of value)) }
{
    match what {
        What::Target(target) => {
            let update = expression::update(alloc, target, op, of, back, old, value)?;
            as_value(alloc, update)
        }
        other => {
            drop(value);
            drop(other);
            Ok(What::Nothing)
        }
    }
}

/// An assignment without an operator to a number of this type.
fn set_converted(alloc: Global, of: IntType, a: Piece, b: Piece) -> Result<What, Memory>
    ensures { IfOk result (λ w. what_of w ≡ meaning.assigned (what_of a.what) (meaning.operand of (piece_of b))) }
{
    let (value, what) = operand_beside(alloc, of, b, a.what)?;
    let what = assigned(alloc, what, value)?;
    Ok(what)
}

/// An assignment without an operator.
fn set_plain(alloc: Global, a: Piece, b: Piece) -> Result<What, Memory>
    ensures { IfOk result (λ w. what_of w ≡ meaning.set_what Setting.Plain (piece_of a) (piece_of b) a.kind) }
{
    match a.kind {
        Some(Kind::Number { of, .. }) => set_converted(alloc, of, a, b),
        _ => assigned(alloc, a.what, read(b.what)),
    }
}

/// An assignment with an operator to a number of this type.
fn set_number(alloc: Global, op: Bin, of: IntType, a: Piece, b: Piece) -> Result<What, Memory>
    ensures { IfOk result (λ w. what_of w ≡ meaning.updated (what_of a.what) op
        (conversions.operand_type op of (meaning.type_in b.kind)) of false
        (meaning.operand (conversions.right_type op of (meaning.type_in b.kind)) (piece_of b))) }
{
    let right = type_in(b.kind);
    let (value, what) = operand_beside(alloc, right_type(op, of, right), b, a.what)?;
    let what = updated(
        alloc,
        what,
        op,
        operand_type(op, of, right),
        of,
        false,
        value,
    )?;
    Ok(what)
}

/// An assignment with an operator to a pointer, whose offset is a `long`.
fn set_offset(alloc: Global, op: Bin, a: Piece, b: Piece) -> Result<What, Memory>
    ensures { IfOk result (λ w. what_of w ≡ meaning.updated (what_of a.what) op IntType.Long IntType.Long false
        (meaning.operand IntType.Long (piece_of b))) }
{
    let (value, what) = operand_beside(alloc, IntType::Long, b, a.what)?;
    let what = updated(alloc, what, op, IntType::Long, IntType::Long, false, value)?;
    Ok(what)
}

/// An assignment with an operator.
fn set_with(alloc: Global, op: Bin, a: Piece, b: Piece) -> Result<What, Memory>
    ensures { IfOk result (λ w. what_of w ≡ meaning.set_what (Setting.With op) (piece_of a) (piece_of b) a.kind) }
{
    match a.kind {
        Some(Kind::Number { of, .. }) => set_number(alloc, op, of, a, b),
        _ => set_offset(alloc, op, a, b),
    }
}

/// What an assignment stands for (C99, section 6.5.16).
pub(crate) fn set(
    alloc: Global,
    setting: Option<Setting>,
    pieces: Vec<Piece>,
) -> Result<What, Memory>
    ensures { IfOk result (λ w. (sites : List places.Place) →
        meaning.set_made sites setting (map piece_of pieces.items) ≡ built_of w sites) }
{
    let Some(setting) = setting else {
        return Ok(What::Nothing);
    };
    let Some(two) = pair(pieces) else {
        return Ok(What::Nothing);
    };
    match setting {
        Setting::Plain => set_plain(alloc, two.first, two.second),
        Setting::With(op) => set_with(alloc, op, two.first, two.second),
    }
}

/// What `++` or `--` stands for; its value is the old one where `old` is set (C99, sections 6.5.2.4 and
/// 6.5.3.1).
pub(crate) fn step(alloc: Global, op: Bin, old: bool, a: Piece) -> Result<What, Memory>
    ensures { IfOk result (λ w. what_of w ≡ meaning.step_what op old (piece_of a) a.kind) }
{
    let (of, back) = match a.kind {
        Some(Kind::Number { of, .. }) => (operand_type(op, of, IntType::Int), of),
        _ => (IntType::Long, IntType::Long),
    };
    let what = updated(alloc, a.what, op, of, back, old, literal(1, of))?;
    Ok(what)
}
