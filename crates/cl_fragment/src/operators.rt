//! Operators on values.

ghost use Rattle.std.specs.Prelude.{◌≡◌, IfOk, List, Some, map};
ghost use Rattle.cl_meaning.specs.Conversions as conversions;
ghost use Rattle.cl_meaning.specs.Typed as typed;
ghost use Rattle.cl_meaning.specs.Expressions as meaning;
ghost use Rattle.wg_num.specs.declared.types.Place as places;
ghost use Rattle.cl_fragment.specs.View.{piece_of, what_of, built_of};

use crate::beside::{logical_beside, operand_beside, site_beside};
use crate::boxes::{as_offset, as_value};
use crate::fragment::{Piece, What};
use crate::parts::{Two, pair, triple};
use crate::types::type_in;
use crate::values::{moved, moved_by, operand, read, way};
use cl_meaning::{Declared, Kind, common, operand_type, right_type};
use cl_model::expression;
use std::alloc::Global;
use wg_num::{Bin, IntType, Memory, Place};

/// Whether the operator subtracts.
fn is_sub(op: Bin) -> bool
    ensures { result ≡ meaning.is_sub op }
{
    match op {
        Bin::Sub => true,
        _ => false,
    }
}

/// A pointer moved forward or back by a number (C99, section 6.5.6).
fn pointer_moved(alloc: Global, op: Bin, a: Piece, b: Piece) -> Result<What, Memory>
    ensures { IfOk result (λ w. what_of w ≡ meaning.pointer_moved op (piece_of a) (piece_of b)) }
{
    let (by, what) = operand_beside(alloc, IntType::Long, b, a.what)?;
    let offset = if is_sub(op) {
        expression::binary(alloc, Bin::Sub, IntType::Long, read(what), by)?
    } else {
        moved(alloc, way(what), by)?
    };
    as_offset(alloc, offset)
}

/// A pointer moved forward by the number in front of it (C99, section 6.5.6).
fn number_moved(alloc: Global, a: Piece, b: Piece) -> Result<What, Memory>
    ensures { IfOk result (λ w. what_of w ≡
        typed.offset (Some (meaning.moved_by (meaning.operand IntType.Long (piece_of a))
        (meaning.way (what_of b.what))))) }
{
    let (by, what) = operand_beside(alloc, IntType::Long, a, b.what)?;
    let offset = moved_by(alloc, by, way(what))?;
    as_offset(alloc, offset)
}

/// An operator on two numbers of these types (C99, sections 6.3.1.8 and 6.5.5 to 6.5.12).
fn numbers_joined(
    alloc: Global,
    op: Bin,
    left: IntType,
    right: IntType,
    a: Piece,
    b: Piece,
) -> Result<What, Memory>
    ensures { IfOk result (λ w. what_of w ≡
        typed.value (meaning.joined_by op (conversions.operand_type op left right)
        (meaning.operand (conversions.operand_type op left right) (piece_of a))
        (meaning.operand (conversions.right_type op left right) (piece_of b)))) }
{
    let of = operand_type(op, left, right);
    let (a, b) = operand_beside(alloc, of, a, b)?;
    let (b, a) = operand_beside(alloc, right_type(op, left, right), b, a)?;
    let joined = expression::binary(alloc, op, of, a, b)?;
    as_value(alloc, joined)
}

/// An operator on two operands.
fn joined(alloc: Global, op: Bin, a: Piece, b: Piece) -> Result<What, Memory>
    ensures { IfOk result (λ w. what_of w ≡ meaning.binary_what op (piece_of a) (piece_of b) a.kind b.kind) }
{
    match (a.kind, b.kind) {
        (Some(Kind::Number { of: left, .. }), Some(Kind::Number { of: right, .. })) => {
            numbers_joined(alloc, op, left, right, a, b)
        }
        (Some(Kind::Pointer { .. }), Some(Kind::Number { .. })) => pointer_moved(alloc, op, a, b),
        (Some(Kind::Number { .. }), Some(Kind::Pointer { .. })) => number_moved(alloc, a, b),
        _ => {
            drop(a);
            drop(b);
            Ok(What::Nothing)
        }
    }
}

/// What an operator on two operands stands for.
pub(crate) fn binary(alloc: Global, op: Option<Bin>, pieces: Vec<Piece>) -> Result<What, Memory>
    ensures { IfOk result (λ w. (sites : List places.Place) →
        meaning.binary_made sites op (map piece_of pieces.items) ≡ built_of w sites) }
{
    let Some(op) = op else {
        return Ok(What::Nothing);
    };
    match pair(pieces) {
        None => Ok(What::Nothing),
        Some(two) => {
            let what = joined(alloc, op, two.first, two.second)?;
            Ok(what)
        }
    }
}

/// What `&&` stands for (C99, section 6.5.13).
pub(crate) fn and(
    alloc: Global,
    place: Place,
    sites: &mut Vec<Place>,
    pieces: Vec<Piece>,
) -> Result<What, Memory>
    ensures { IfOk result (λ w. meaning.and_made place sites.old.items (map piece_of pieces.items) ≡
        built_of w sites.new.items) }
{
    let Some(two) = pair(pieces) else {
        return Ok(What::Nothing);
    };
    let (site, two) = site_beside(sites, place, two)?;
    let (a, second) = logical_beside(alloc, two.first, two.second)?;
    let (b, a) = logical_beside(alloc, second, a)?;
    let both = expression::both(alloc, site, a, b)?;
    as_value(alloc, both)
}

/// What `||` stands for (C99, section 6.5.14).
pub(crate) fn or(
    alloc: Global,
    place: Place,
    sites: &mut Vec<Place>,
    pieces: Vec<Piece>,
) -> Result<What, Memory>
    ensures { IfOk result (λ w. meaning.or_made place sites.old.items (map piece_of pieces.items) ≡
        built_of w sites.new.items) }
{
    let Some(two) = pair(pieces) else {
        return Ok(What::Nothing);
    };
    let (site, two) = site_beside(sites, place, two)?;
    let (a, second) = logical_beside(alloc, two.first, two.second)?;
    let (b, a) = logical_beside(alloc, second, a)?;
    let either = expression::either(alloc, site, a, b)?;
    as_value(alloc, either)
}

/// What `?:` stands for (C99, section 6.5.15).
pub(crate) fn choice(
    alloc: Global,
    place: Place,
    sites: &mut Vec<Place>,
    pieces: Vec<Piece>,
) -> Result<What, Memory>
    ensures { IfOk result (λ w. meaning.choice_made place sites.old.items (map piece_of pieces.items) ≡
        built_of w sites.new.items) }
{
    let Some(three) = triple(pieces) else {
        return Ok(What::Nothing);
    };
    let of = common(type_in(three.second.kind), type_in(three.third.kind));
    let (site, three) = site_beside(sites, place, three)?;
    let (yes, rest) = operand_beside(alloc, of, three.second, (three.first, three.third))?;
    let (test, third) = rest;
    let (no, rest) = operand_beside(alloc, of, third, (test, yes))?;
    let (test, yes) = rest;
    let test = read(test.what);
    let chosen = expression::choose(alloc, site, test, yes, no)?;
    as_value(alloc, chosen)
}

/// What a comma stands for (C99, section 6.5.17).
pub(crate) fn comma(alloc: Global, pieces: Vec<Piece>) -> Result<What, Memory>
    ensures { IfOk result (λ w. (sites : List places.Place) →
        meaning.comma_made sites (map piece_of pieces.items) ≡ built_of w sites) }
{
    let Some(two) = pair(pieces) else {
        return Ok(What::Nothing);
    };
    let then = expression::then(alloc, read(two.first.what), read(two.second.what))?;
    as_value(alloc, then)
}

/// What a cast to a type stands for (C99, section 6.5.4).
pub(crate) fn cast(alloc: Global, to: Option<Declared>, pieces: Vec<Piece>) -> Result<What, Memory>
    ensures { IfOk result (λ w. (sites : List places.Place) →
        meaning.cast_made sites to (map piece_of pieces.items) ≡ built_of w sites) }
{
    let Some(to) = to else {
        return Ok(What::Nothing);
    };
    let Some(two) = pair(pieces) else {
        return Ok(What::Nothing);
    };
    let Two { first, second } = two;
    drop(first);
    let value = operand(alloc, to.of, second)?;
    as_value(alloc, value)
}
