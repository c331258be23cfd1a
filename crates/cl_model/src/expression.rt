//! Expressions from their parts. Each function fails for want of memory alone.

ghost use Rattle.std.specs.Prelude.{◌≡◌, IfOk, true, false};
ghost use Rattle.cl_model.specs.View.{expression_of, assigned, updated, listed_expressions};
ghost use Rattle.cl_model.specs.Tree as tree;
ghost use Rattle.cl_model.specs.Tree.{Apply, Choose, single, pair, truth_of, decided};
ghost use Rattle.cl_model.specs.Listed.{listed_roots, listed_arguments};

use crate::boxes::boxed_beside;
use crate::program::{Arg, Expr, Query, Root, Target};
use std::alloc::Global;
use wg_num::{Bin, Fun, IntType, Memory, Un, boxed};

/// An operator on one operand, which computes in the type `of` (C99, section 6.5.3.3).
pub fn unary(alloc: Global, op: Un, of: IntType, a: Expr) -> Result<Expr, Memory>
    ensures { IfOk result (λ e. expression_of e ≡ Apply (tree.Unary op of) (single (expression_of a))) }
{
    let a = boxed(alloc, a)?;
    Ok(Expr::Unary { op, of, a })
}

/// An operator on two operands, which computes in the type `of` (C99, sections 6.5.5 to 6.5.12).
pub fn binary(alloc: Global, op: Bin, of: IntType, a: Expr, b: Expr) -> Result<Expr, Memory>
    ensures { IfOk result (λ e. expression_of e ≡
        Apply (tree.Binary op of) (pair (expression_of a) (expression_of b))) }
{
    let (a, b) = boxed_beside(alloc, a, b)?;
    let (b, a) = boxed_beside(alloc, b, a)?;
    Ok(Expr::Binary { op, of, a, b })
}

/// `a && b` (C99, section 6.5.13).
pub fn both(alloc: Global, site: u32, a: Expr, b: Expr) -> Result<Expr, Memory>
    ensures { IfOk result (λ e. expression_of e ≡ Choose site (expression_of a) (truth_of (expression_of b))
        (decided false)) }
{
    let (a, b) = boxed_beside(alloc, a, b)?;
    let (b, a) = boxed_beside(alloc, b, a)?;
    Ok(Expr::Both { site, a, b })
}

/// `a || b` (C99, section 6.5.14).
pub fn either(alloc: Global, site: u32, a: Expr, b: Expr) -> Result<Expr, Memory>
    ensures { IfOk result (λ e. expression_of e ≡ Choose site (expression_of a) (decided true)
        (truth_of (expression_of b))) }
{
    let (a, b) = boxed_beside(alloc, a, b)?;
    let (b, a) = boxed_beside(alloc, b, a)?;
    Ok(Expr::Either { site, a, b })
}

/// `test ? yes : no` (C99, section 6.5.15).
pub fn choose(alloc: Global, site: u32, test: Expr, yes: Expr, no: Expr) -> Result<Expr, Memory>
    ensures { IfOk result (λ e. expression_of e ≡ Choose site (expression_of test) (expression_of yes)
        (expression_of no)) }
{
    let (test, arms) = boxed_beside(alloc, test, (yes, no))?;
    let (yes, rest) = boxed_beside(alloc, arms.0, (test, arms.1))?;
    let (no, test) = boxed_beside(alloc, rest.1, rest.0)?;
    Ok(Expr::Choose {
        site,
        test,
        yes,
        no,
    })
}

/// A conversion to a type (OpenCL 1.2, section 6.2; C99, section 6.3.1.3).
pub fn convert(alloc: Global, to: IntType, a: Expr) -> Result<Expr, Memory>
    ensures { IfOk result (λ e. expression_of e ≡ Apply (tree.Convert to) (single (expression_of a))) }
{
    let a = boxed(alloc, a)?;
    Ok(Expr::Convert { to, a })
}

/// The value of an element of an object.
pub fn load(
    alloc: Global,
    site: u32,
    element: IntType,
    root: Root,
    index: Expr,
) -> Result<Expr, Memory>
    ensures { IfOk result (λ e. expression_of e ≡ Apply (tree.Load site element root)
        (single (expression_of index))) }
{
    let index = boxed(alloc, index)?;
    Ok(Expr::Load {
        site,
        element,
        root,
        index,
    })
}

/// An assignment (C99, section 6.5.16.1).
pub fn assign(alloc: Global, target: Target, value: Expr) -> Result<Expr, Memory>
    ensures { IfOk result (λ e. expression_of e ≡ assigned target (expression_of value)) }
{
    let (value, target) = boxed_beside(alloc, value, target)?;
    Ok(Expr::Assign { target, value })
}

/// A compound assignment, `++` or `--`, which computes in the type `of` and converts to `back`; its value
/// is the old one of the target where `old` is set (C99, sections 6.5.2.4, 6.5.3.1 and 6.5.16.2).
pub fn update(
    alloc: Global,
    target: Target,
    op: Bin,
    of: IntType,
    back: IntType,
    old: bool,
    value: Expr,
) -> Result<Expr, Memory>
    ensures { IfOk result (λ e. expression_of e ≡ updated target op of back old (expression_of value)) }
{
    let (value, target) = boxed_beside(alloc, value, target)?;
    Ok(Expr::Update {
        target,
        op,
        of,
        back,
        value,
        old,
    })
}

/// A call of a function of the unit, by its number (C99, section 6.5.2.2).
pub fn call(site: u32, function: u32, args: Vec<Arg>) -> Expr
    ensures { expression_of result ≡ tree.Call site function (listed_roots args.items) (listed_arguments args.items) }
{
    Expr::Call {
        site,
        function,
        args,
    }
}

/// A built-in function on integers, which computes in the type `of` (OpenCL 1.2, section 6.12.3).
pub fn builtin(f: Fun, of: IntType, args: Vec<Expr>) -> Expr
    ensures { expression_of result ≡ Apply (tree.Builtin f of) (listed_expressions args.items) }
{
    Expr::Builtin { f, of, args }
}

/// A work-item function (OpenCL 1.2, section 6.12.1).
pub fn ask(alloc: Global, what: Query, dim: Expr) -> Result<Expr, Memory>
    ensures { IfOk result (λ e. expression_of e ≡ Apply (tree.Ask what) (single (expression_of dim))) }
{
    let dim = boxed(alloc, dim)?;
    Ok(Expr::Ask { what, dim })
}

/// `a, b` (C99, section 6.5.17).
pub fn then(alloc: Global, a: Expr, b: Expr) -> Result<Expr, Memory>
    ensures { IfOk result (λ e. expression_of e ≡ Apply tree.Second (pair (expression_of a) (expression_of b))) }
{
    let (a, b) = boxed_beside(alloc, a, b)?;
    let (b, a) = boxed_beside(alloc, b, a)?;
    Ok(Expr::Then { a, b })
}
