//! Steps that may fail, with what is kept beside them; where one fails, what is kept is dropped here.

ghost use Rattle.std.specs.Prelude.{◌≡◌, ◌∷◌, ◌++◌, [], length, Ok, IfOk, OnOk};
ghost use Rattle.cl_model.specs.View.{expression_of};
ghost use Rattle.cl_meaning.specs.Expressions as meaning;
ghost use Rattle.cl_fragment.specs.View.{piece_of};

use crate::fragment::Piece;
use crate::sites::take_site;
use crate::values::{logical, operand};
use cl_model::Expr;
use std::alloc::Global;
use wg_num::{IntType, Memory, Place};

/// The value of a piece, converted, and what is kept.
pub(crate) fn operand_beside<K: Drop>(
    alloc: Global,
    to: IntType,
    piece: Piece,
    kept: K,
) -> Result<(Expr, K), Memory>
    ensures value { IfOk result (λ r. expression_of r.0 ≡ meaning.operand to (piece_of piece)) }
    ensures kept { IfOk result (λ r. r.1 ≡ kept) }
{
    let value = operand(alloc, to, piece)?;
    Ok((value, kept))
}

/// A number as `&&` and `||` take it, and what is kept.
pub(crate) fn logical_beside<K: Drop>(
    alloc: Global,
    piece: Piece,
    kept: K,
) -> Result<(Expr, K), Memory>
    ensures value { IfOk result (λ r. expression_of r.0 ≡ meaning.logical (piece_of piece)) }
    ensures kept { IfOk result (λ r. r.1 ≡ kept) }
{
    let value = logical(alloc, piece)?;
    Ok((value, kept))
}

/// The number of the next site, which is at this place, and what is kept.
pub(crate) fn site_beside<K: Drop>(
    sites: &mut Vec<Place>,
    place: Place,
    kept: K,
) -> Result<(u32, K), Memory>
    ensures number { IfOk result (λ r. r.0 ≡ length sites.old.items) }
    ensures kept { IfOk result (λ r. r.1 ≡ kept) }
    ensures sites { OnOk result (sites.new.items ≡ sites.old.items ++ place ∷ []) }
{
    let site = take_site(sites, place)?;
    Ok((site, kept))
}
