//! Statements from their parts. Each function fails for want of memory alone.

ghost use Rattle.std.specs.Prelude.{◌≡◌, IfOk};
ghost use Rattle.cl_model.specs.View.{expression_of, optional_expression, statement_of, listed_statements};
ghost use Rattle.cl_model.specs.Tree as tree;
ghost use Rattle.cl_model.specs.Listed.{alone, optional_statement, listed_arms};

use crate::boxes::{boxed_beside, optional_beside};
use crate::program::{Expr, Stmt, SwitchArm};
use std::alloc::Global;
use wg_num::Memory;

/// A block (C99, section 6.8.2).
pub fn block(list: Vec<Stmt>) -> Stmt
    ensures { statement_of result ≡ tree.Block (listed_statements list.items) }
{
    Stmt::Block(list)
}

/// `if` (C99, section 6.8.4.1).
pub fn branch(
    alloc: Global,
    site: u32,
    test: Expr,
    yes: Stmt,
    no: Option<Stmt>,
) -> Result<Stmt, Memory>
    ensures { IfOk result (λ s. statement_of s ≡ tree.If site (expression_of test) (alone (statement_of yes))
        (optional_statement no)) }
{
    let (yes, rest) = boxed_beside(alloc, yes, (test, no))?;
    let (no, parts) = optional_beside(alloc, rest.1, (rest.0, yes))?;
    let (test, yes) = parts;
    Ok(Stmt::If {
        site,
        test,
        yes,
        no,
    })
}

/// `while`, `for` (with `test_first`) and `do` (C99, section 6.8.5).
pub fn repeat(
    alloc: Global,
    site: u32,
    test_first: bool,
    test: Option<Expr>,
    step: Option<Expr>,
    body: Stmt,
) -> Result<Stmt, Memory>
    ensures { IfOk result (λ s. statement_of s ≡ tree.Loop site test_first (optional_expression test)
        (optional_expression step) (statement_of body)) }
{
    let (body, head) = boxed_beside(alloc, body, (test, step))?;
    let (test, step) = head;
    Ok(Stmt::Loop {
        site,
        test_first,
        test,
        step,
        body,
    })
}

/// `switch` (C99, section 6.8.4.2).
pub fn switch(site: u32, value: Expr, arms: Vec<SwitchArm>) -> Stmt
    ensures { statement_of result ≡ tree.Switch site (expression_of value) (listed_arms arms.items) }
{
    Stmt::Switch { site, value, arms }
}
