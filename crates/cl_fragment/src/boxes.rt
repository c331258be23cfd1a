//! What a node stands for, put together with its trees behind boxes.

ghost use Rattle.std.specs.Prelude.{◌≡◌, IfOk, Some, option_map};
ghost use Rattle.cl_model.specs.View.{expression_of, statement_of};
ghost use Rattle.cl_meaning.specs.Typed as typed;
ghost use Rattle.cl_fragment.specs.View.{what_of};

use crate::fragment::What;
use cl_model::{Expr, Stmt};
use std::alloc::Global;
use wg_num::{Memory, boxed};

/// An expression as a value.
pub(crate) fn as_value(alloc: Global, e: Expr) -> Result<What, Memory>
    ensures { IfOk result (λ w. what_of w ≡ typed.value (expression_of e)) }
{
    let e = boxed(alloc, e)?;
    Ok(What::Value(e))
}

/// An offset of a pointer.
pub(crate) fn as_offset(alloc: Global, e: Expr) -> Result<What, Memory>
    ensures { IfOk result (λ w. what_of w ≡ typed.offset (Some (expression_of e))) }
{
    let e = boxed(alloc, e)?;
    Ok(What::Offset(Some(e)))
}

/// The way of a pointer into its array, which may lead to the first element.
pub(crate) fn as_way(alloc: Global, way: Option<Expr>) -> Result<What, Memory>
    ensures { IfOk result (λ w. what_of w ≡ typed.offset (option_map expression_of way)) }
{
    match way {
        None => Ok(What::Offset(None)),
        Some(e) => as_offset(alloc, e),
    }
}

/// A statement by itself.
pub(crate) fn as_statement(alloc: Global, s: Stmt) -> Result<What, Memory>
    ensures { IfOk result (λ w. what_of w ≡ typed.statement (statement_of s)) }
{
    let s = boxed(alloc, s)?;
    Ok(What::Statement(s))
}
