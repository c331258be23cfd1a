//! The values of pieces, converted; and offsets.

ghost use Rattle.std.specs.Prelude.{◌≡◌, IfOk, option_map};
ghost use Rattle.cl_model.specs.View.{expression_of};
ghost use Rattle.cl_meaning.specs.Expressions as meaning;
ghost use Rattle.cl_fragment.specs.View.{piece_of, what_of, target_of};

use crate::fragment::{Piece, What};
use crate::types::type_in;
use cl_meaning::promoted;
use cl_model::{Expr, Target, expression};
use std::alloc::Global;
use wg_num::{Bin, IntType, Memory, same_type};

/// A literal.
pub(crate) fn literal(value: i128, of: IntType) -> Expr
    ensures { expression_of result ≡ meaning.literal value of }
{
    Expr::Literal { value, of }
}

/// The value of a variable or an element.
fn read_target(target: Target) -> Expr
    ensures { expression_of result ≡ meaning.read_target (target_of target) }
{
    match target {
        Target::Var(x) => Expr::Variable(x),
        Target::Element {
            site,
            element,
            root,
            index,
        } => Expr::Load {
            site,
            element,
            root,
            index,
        },
    }
}

/// The value of a piece; that of a pointer is its offset.
pub(crate) fn read(what: What) -> Expr
    ensures { expression_of result ≡ meaning.read (what_of what) }
{
    match what {
        What::Value(e) => Box::into_inner(e),
        What::Target(target) => read_target(target),
        What::Offset(Some(e)) => Box::into_inner(e),
        other => {
            drop(other);
            literal(0, IntType::Long)
        }
    }
}

/// The offset of a pointer, where it does not lead to the first element.
pub(crate) fn way(what: What) -> Option<Expr>
    ensures { option_map expression_of result ≡ meaning.way (what_of what) }
{
    match what {
        What::Offset(None) => None,
        What::Offset(Some(e)) => Some(Box::into_inner(e)),
        other => Some(read(other)),
    }
}

/// A value of one type as one of another (C99, section 6.3.1.3).
pub(crate) fn convert(alloc: Global, to: IntType, from: IntType, e: Expr) -> Result<Expr, Memory>
    ensures { IfOk result (λ r. expression_of r ≡ meaning.convert to from (expression_of e)) }
{
    if same_type(to, from) {
        Ok(e)
    } else {
        expression::convert(alloc, to, e)
    }
}

/// The value of a piece, converted.
pub(crate) fn operand(alloc: Global, to: IntType, piece: Piece) -> Result<Expr, Memory>
    ensures { IfOk result (λ e. expression_of e ≡ meaning.operand to (piece_of piece)) }
{
    convert(alloc, to, type_in(piece.kind), read(piece.what))
}

/// A number as `&&`, `||` and the operators on one operand take it: promoted (C99, section 6.3.1.1).
pub(crate) fn logical(alloc: Global, piece: Piece) -> Result<Expr, Memory>
    ensures { IfOk result (λ e. expression_of e ≡ meaning.logical (piece_of piece)) }
{
    operand(alloc, promoted(type_in(piece.kind)), piece)
}

/// An index behind an offset.
pub(crate) fn moved(alloc: Global, offset: Option<Expr>, index: Expr) -> Result<Expr, Memory>
    ensures { IfOk result (λ e. expression_of e ≡ meaning.moved (option_map expression_of offset)
        (expression_of index)) }
{
    match offset {
        None => Ok(index),
        Some(o) => expression::binary(alloc, Bin::Add, IntType::Long, o, index),
    }
}

/// An offset behind an index.
pub(crate) fn moved_by(alloc: Global, index: Expr, offset: Option<Expr>) -> Result<Expr, Memory>
    ensures { IfOk result (λ e. expression_of e ≡ meaning.moved_by (expression_of index)
        (option_map expression_of offset)) }
{
    match offset {
        None => Ok(index),
        Some(o) => expression::binary(alloc, Bin::Add, IntType::Long, index, o),
    }
}
