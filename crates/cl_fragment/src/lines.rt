//! Statements in order.

ghost use Rattle.std.specs.Prelude.{◌≡◌, IfOk, OnOk, List, map, option_map};
ghost use Rattle.cl_model.specs.View.{statement_of, listed_statements};
ghost use Rattle.cl_model.specs.Tree as tree;
ghost use Rattle.cl_meaning.specs.Typed as typed;
ghost use Rattle.cl_meaning.specs.Statements as meaning;
ghost use Rattle.wg_num.specs.declared.types.Place as places;
ghost use Rattle.cl_fragment.specs.View.{piece_of, what_of, built_of};

use crate::boxes::as_statement;
use crate::calls::operands;
use crate::fragment::{Piece, What};
use crate::growth::append;
use crate::parts::next;
use crate::values::read;
use cl_meaning::Declared;
use cl_model::{Stmt, statement};
use std::alloc::Global;
use wg_num::{Memory, push};

/// A statement behind others.
#[tactic(auto, using(crate::proofs::Lists::listed_followed))]
pub(crate) fn put(lines: &mut Vec<Stmt>, line: Stmt) -> Result<(), Memory>
    ensures { OnOk result (listed_statements lines.new.items ≡ meaning.followed (listed_statements lines.old.items)
        (meaning.alone (statement_of line))) }
{
    push(lines, line)?;
    Ok(())
}

/// Statements behind others.
#[tactic(auto, using(crate::proofs::Lists::listed_followed))]
fn put_all(lines: &mut Vec<Stmt>, later: Vec<Stmt>) -> Result<(), Memory>
    ensures { OnOk result (listed_statements lines.new.items ≡ meaning.followed (listed_statements lines.old.items)
        (listed_statements later.items)) }
{
    append(lines, later)?;
    Ok(())
}

/// The statements of a line of a block behind others.
#[tactic(auto, using(crate::proofs::Lists::followed_none))]
pub(crate) fn put_line(lines: &mut Vec<Stmt>, what: What) -> Result<(), Memory>
    ensures { OnOk result (listed_statements lines.new.items ≡ meaning.followed (listed_statements lines.old.items)
        (meaning.lines_of (what_of what))) }
{
    match what {
        What::Lines(later) => put_all(lines, later),
        What::Statement(line) => put(lines, Box::into_inner(line)),
        What::Labelled { behind, .. } => put(lines, Box::into_inner(behind)),
        other => {
            drop(other);
            Ok(())
        }
    }
}

/// The statements of the lines of a block.
#[tactic(auto, using(crate::proofs::Lists::followed_none, crate::proofs::Lists::followed_assoc))]
pub(crate) fn all_lines(alloc: Global, pieces: Vec<Piece>) -> Result<Vec<Stmt>, Memory>
    ensures { IfOk result (λ v. listed_statements v.items ≡ meaning.all_lines (map piece_of pieces.items)) }
{
    let mut lines = Vec::new(alloc);
    for piece in pieces {
        put_line(&mut lines, piece.what)?;
    }
    Ok(lines)
}

/// A statement, its labels aside; nothing else does anything.
pub(crate) fn body(alloc: Global, what: What) -> Stmt
    ensures { statement_of result ≡ meaning.body_of (what_of what) }
{
    match what {
        What::Statement(s) => Box::into_inner(s),
        What::Labelled { behind, .. } => Box::into_inner(behind),
        other => {
            drop(other);
            statement::block(Vec::new(alloc))
        }
    }
}

/// What a declaration stands for (C99, section 6.7).
pub(crate) fn declaration(alloc: Global, pieces: Vec<Piece>) -> Result<What, Memory>
    ensures { IfOk result (λ w. what_of w ≡ typed.lines (meaning.all_lines (map piece_of pieces.items))) }
{
    let lines = all_lines(alloc, pieces)?;
    Ok(What::Lines(lines))
}

/// What a block stands for (C99, section 6.8.2).
pub(crate) fn block(alloc: Global, pieces: Vec<Piece>) -> Result<What, Memory>
    ensures { IfOk result (λ w. what_of w ≡
        typed.statement (tree.Block (meaning.all_lines (map piece_of pieces.items)))) }
{
    let lines = all_lines(alloc, pieces)?;
    as_statement(alloc, statement::block(lines))
}

/// The values of a list, converted to the type of the elements (C99, section 6.7.8).
pub(crate) fn list(
    alloc: Global,
    declared: Option<Declared>,
    pieces: Vec<Piece>,
) -> Result<What, Memory>
    ensures { IfOk result (λ w. (sites : List places.Place) →
        meaning.list_made sites declared (map piece_of pieces.items) ≡ built_of w sites) }
{
    match declared {
        None => Ok(What::Nothing),
        Some(declared) => {
            let values = operands(alloc, declared.of, pieces)?;
            Ok(What::Values(values))
        }
    }
}

/// The last of some pieces.
#[tactic(auto, using(crate::proofs::Lists::last_is, crate::proofs::Lists::last_none))]
pub(crate) fn last(mut pieces: Vec<Piece>) -> Option<Piece>
    ensures { option_map piece_of result ≡ meaning.last_piece (map piece_of pieces.items) }
{
    match pieces.pop() {
        None => None,
        Some(piece) => Some(piece),
    }
}

/// What a whole expression does as a statement (C99, section 6.8.3).
pub(crate) fn simple(alloc: Global, mut pieces: Vec<Piece>) -> Stmt
    ensures { statement_of result ≡ meaning.simple_statement (map piece_of pieces.items) }
{
    match next(&mut pieces) {
        None => statement::block(Vec::new(alloc)),
        Some(piece) => match piece.what {
            What::Barrier { site } => Stmt::Barrier { site },
            What::Fence => statement::block(Vec::new(alloc)),
            other => Stmt::Do(read(other)),
        },
    }
}
