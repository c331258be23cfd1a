//! Elements of objects, their addresses and their sizes.

ghost use Rattle.std.specs.Prelude.{◌≡◌, IfOk, Some, map};
ghost use Rattle.cl_model.specs.View.{expression_of};
ghost use Rattle.cl_model.specs.Tree as tree;
ghost use Rattle.cl_model.specs.Tree.{Apply, single};
ghost use Rattle.cl_meaning.specs.Conversions as conversions;
ghost use Rattle.cl_meaning.specs.Typed as typed;
ghost use Rattle.cl_meaning.specs.Expressions as meaning;
ghost use Rattle.cl_meaning.specs.Declarations.{first_type};
ghost use Rattle.cl_tree.specs.Syntax as syntax;
ghost use Rattle.cl_fragment.specs.View.{piece_of, what_of, built_of};

use crate::assignments::step;
use crate::beside::{operand_beside, site_beside};
use crate::boxes::{as_offset, as_value, as_way};
use crate::fragment::{Piece, What};
use crate::parts::{only, pair};
use crate::sites::element;
use crate::types::type_in;
use crate::values::{literal, logical, moved, read, way};
use cl_meaning::{Declared, Each, Kind, Postfix, Prefix, promoted};
use cl_model::{Expr, Root, Target, expression};
use std::alloc::Global;
use wg_num::{Bin, IntType, Memory, Place, Un, size_of};

/// So many elements for each step of an index.
fn scaled(alloc: Global, index: Expr, count: u64) -> Result<Expr, Memory>
    ensures { IfOk result (λ e. expression_of e ≡ meaning.scaled (expression_of index) count) }
{
    let count = literal(i128::from(count), IntType::Long);
    let e = expression::binary(alloc, Bin::Mul, IntType::Long, index, count)?;
    Ok(e)
}

/// The same, and what is kept.
fn scaled_beside<K: Drop>(
    alloc: Global,
    index: Expr,
    count: u64,
    kept: K,
) -> Result<(Expr, K), Memory>
    ensures value { IfOk result (λ r. expression_of r.0 ≡ meaning.scaled (expression_of index) count) }
    ensures kept { IfOk result (λ r. r.1 ≡ kept) }
{
    let value = scaled(alloc, index, count)?;
    Ok((value, kept))
}

/// The element at an index behind a pointer.
fn element_at(
    alloc: Global,
    place: Place,
    sites: &mut Vec<Place>,
    of: IntType,
    root: Root,
    a: Piece,
    b: Piece,
) -> Result<What, Memory>
    ensures { IfOk result (λ w. meaning.sited place sites.old.items
        (λ site. typed.target (typed.element site of root
        (meaning.moved (meaning.way (what_of a.what)) (meaning.operand IntType.Long (piece_of b))))) ≡
        built_of w sites.new.items) }
{
    let (site, parts) = site_beside(sites, place, (a, b))?;
    let (a, b) = parts;
    let (by, what) = operand_beside(alloc, IntType::Long, b, a.what)?;
    let index = moved(alloc, way(what), by)?;
    let target = element(alloc, site, of, root, index)?;
    Ok(What::Target(target))
}

/// The row or plane of so many elements at an index behind a pointer.
fn row_at(alloc: Global, count: u64, a: Piece, b: Piece) -> Result<What, Memory>
    ensures { IfOk result (λ w. what_of w ≡
        typed.offset (Some (meaning.moved (meaning.way (what_of a.what))
        (meaning.scaled (meaning.operand IntType.Long (piece_of b)) count)))) }
{
    let (by, what) = operand_beside(alloc, IntType::Long, b, a.what)?;
    let (by, what) = scaled_beside(alloc, by, count, what)?;
    let offset = moved(alloc, way(what), by)?;
    as_offset(alloc, offset)
}

/// What an index behind a pointer or array reaches (C99, section 6.5.2.1). Planes of more than 2^64
/// elements count as want of memory.
fn index(
    alloc: Global,
    place: Place,
    sites: &mut Vec<Place>,
    a: Piece,
    b: Piece,
) -> Result<What, Memory>
    ensures { IfOk result (λ w. meaning.index_made place sites.old.items (piece_of a) (piece_of b) a.kind ≡
        built_of w sites.new.items) }
{
    let Some(
        Kind::Pointer {
            element: of,
            root,
            each,
            ..
        },
    ) = a.kind
    else {
        drop(a);
        drop(b);
        return Ok(What::Nothing);
    };
    match each {
        Each::Element => element_at(alloc, place, sites, of, root, a, b),
        Each::Row { length } => row_at(alloc, length, a, b),
        Each::Plane { rows, length } => match rows.checked_mul(length) {
            Some(count) => row_at(alloc, count, a, b),
            None => {
                drop(a);
                drop(b);
                Err(Memory)
            }
        },
    }
}

/// What `*` in front of a pointer or array reaches: its first element or row (C99, section 6.5.3.2).
fn content(alloc: Global, place: Place, sites: &mut Vec<Place>, a: Piece) -> Result<What, Memory>
    ensures { IfOk result (λ w. meaning.content_made place sites.old.items (piece_of a) a.kind ≡
        built_of w sites.new.items) }
{
    let Piece { kind, what } = a;
    match kind {
        Some(
            Kind::Pointer {
                element: of,
                root,
                each: Each::Element,
                ..
            },
        ) => {
            let (site, what) = site_beside(sites, place, what)?;
            let target = element(alloc, site, of, root, read(what))?;
            Ok(What::Target(target))
        }
        Some(Kind::Pointer { .. }) => as_way(alloc, way(what)),
        _ => {
            drop(what);
            Ok(What::Nothing)
        }
    }
}

/// The address of an element: its index in its object (C99, section 6.5.3.2).
fn address(what: What) -> What
    ensures { what_of result ≡ meaning.address_what (what_of what) }
{
    match what {
        What::Target(Target::Element { index, .. }) => What::Offset(Some(index)),
        other => {
            drop(other);
            What::Nothing
        }
    }
}

/// The size of a type in bytes (C99, section 6.5.3.4).
fn size(alloc: Global, of: Option<Declared>) -> Result<What, Memory>
    ensures { IfOk result (λ w. what_of w ≡ meaning.size_what of) }
{
    match of {
        None => Ok(What::Nothing),
        Some(declared) => {
            as_value(
                alloc,
                literal(i128::from(size_of(declared.of)), IntType::Ulong),
            )
        }
    }
}

/// An operator on one number (C99, section 6.5.3.3).
fn unary(alloc: Global, op: Un, a: Piece) -> Result<What, Memory>
    ensures { IfOk result (λ w. what_of w ≡
        typed.value (Apply (tree.Unary op (conversions.promoted (meaning.type_in a.kind)))
        (single (meaning.logical (piece_of a))))) }
{
    let of = promoted(type_in(a.kind));
    let a = logical(alloc, a)?;
    let e = expression::unary(alloc, op, of, a)?;
    as_value(alloc, e)
}

/// What an operator in front of its operand stands for (C99, section 6.5.3); `of` is the first part where
/// it is a type.
pub(crate) fn prefix(
    alloc: Global,
    place: Place,
    sites: &mut Vec<Place>,
    of: Option<Declared>,
    operator: Option<Prefix>,
    pieces: Vec<Piece>,
) -> Result<What, Memory>
    ensures { IfOk result (λ w. (parts : syntax.Forest) → first_type parts ≡ of →
        meaning.prefix_made place sites.old.items parts operator (map piece_of pieces.items) ≡
        built_of w sites.new.items) }
{
    match operator {
        None => Ok(What::Nothing),
        Some(Prefix::Size) => size(alloc, of),
        Some(Prefix::Step(op)) => match only(pieces) {
            None => Ok(What::Nothing),
            Some(a) => step(alloc, op, false, a),
        },
        Some(Prefix::Operator(op)) => match only(pieces) {
            None => Ok(What::Nothing),
            Some(a) => unary(alloc, op, a),
        },
        Some(Prefix::Address) => match only(pieces) {
            None => Ok(What::Nothing),
            Some(a) => Ok(address(a.what)),
        },
        Some(Prefix::Content) => match only(pieces) {
            None => Ok(What::Nothing),
            Some(a) => content(alloc, place, sites, a),
        },
    }
}

/// What an operator behind its operand stands for (C99, section 6.5.2).
pub(crate) fn postfix(
    alloc: Global,
    place: Place,
    sites: &mut Vec<Place>,
    operator: Option<Postfix>,
    pieces: Vec<Piece>,
) -> Result<What, Memory>
    ensures { IfOk result (λ w. meaning.postfix_made place sites.old.items operator (map piece_of pieces.items) ≡
        built_of w sites.new.items) }
{
    match operator {
        None => Ok(What::Nothing),
        Some(Postfix::Index) => match pair(pieces) {
            None => Ok(What::Nothing),
            Some(two) => index(alloc, place, sites, two.first, two.second),
        },
        Some(Postfix::Step(op)) => match only(pieces) {
            None => Ok(What::Nothing),
            Some(a) => step(alloc, op, true, a),
        },
    }
}
