//! Statements that test, repeat and leave.

ghost use Rattle.std.specs.Prelude.{◌≡◌, IfOk, map, option_map};
ghost use Rattle.cl_model.specs.View.{expression_of};
ghost use Rattle.cl_model.specs.Tree as tree;
ghost use Rattle.cl_meaning.specs.Typed as typed;
ghost use Rattle.cl_meaning.specs.Expressions.{sited};
ghost use Rattle.cl_meaning.specs.Statements as meaning;
ghost use Rattle.cl_tree.specs.Syntax.{views};
ghost use Rattle.cl_fragment.specs.Heads.{for_by, loop_by, heads_in, heads_of};
ghost use Rattle.cl_fragment.specs.View.{piece_of, built_of};

use crate::beside::site_beside;
use crate::boxes::as_statement;
use crate::fragment::{Piece, What};
use crate::lines::{body, put, put_line};
use crate::parts::{next, pair};
use crate::sites::take_site;
use crate::values::{operand, read};
use cl_meaning::Yield;
use cl_model::{Expr, Stmt, statement};
use cl_tree::Tree;
use std::alloc::Global;
use wg_num::{Memory, Place, beside};

/// What `if` stands for (C99, section 6.8.4.1).
pub(crate) fn branch(
    alloc: Global,
    place: Place,
    sites: &mut Vec<Place>,
    mut pieces: Vec<Piece>,
) -> Result<What, Memory>
    ensures { IfOk result (λ w. meaning.if_made place sites.old.items (map piece_of pieces.items) ≡
        built_of w sites.new.items) }
{
    let Some(test) = next(&mut pieces) else {
        return Ok(What::Nothing);
    };
    let Some(yes) = next(&mut pieces) else {
        return Ok(What::Nothing);
    };
    let no = next(&mut pieces);
    let (site, (test, yes, no)) = site_beside(sites, place, (test, yes, no))?;
    let yes = body(alloc, yes.what);
    let no = match no {
        None => None,
        Some(no) => Some(body(alloc, no.what)),
    };
    let s = statement::branch(alloc, site, read(test.what), yes, no)?;
    as_statement(alloc, s)
}

/// What `while` stands for (C99, section 6.8.5.1).
pub(crate) fn while_loop(
    alloc: Global,
    place: Place,
    sites: &mut Vec<Place>,
    pieces: Vec<Piece>,
) -> Result<What, Memory>
    ensures { IfOk result (λ w. meaning.while_made place sites.old.items (map piece_of pieces.items) ≡
        built_of w sites.new.items) }
{
    let Some(two) = pair(pieces) else {
        return Ok(What::Nothing);
    };
    let (site, two) = site_beside(sites, place, two)?;
    let test = Some(read(two.first.what));
    let inside = body(alloc, two.second.what);
    let s = statement::repeat(alloc, site, true, test, None, inside)?;
    as_statement(alloc, s)
}

/// What `do` stands for (C99, section 6.8.5.2).
pub(crate) fn do_loop(
    alloc: Global,
    place: Place,
    sites: &mut Vec<Place>,
    pieces: Vec<Piece>,
) -> Result<What, Memory>
    ensures { IfOk result (λ w. meaning.do_made place sites.old.items (map piece_of pieces.items) ≡
        built_of w sites.new.items) }
{
    let Some(two) = pair(pieces) else {
        return Ok(What::Nothing);
    };
    let (site, two) = site_beside(sites, place, two)?;
    let inside = body(alloc, two.first.what);
    let test = Some(read(two.second.what));
    let s = statement::repeat(alloc, site, false, test, None, inside)?;
    as_statement(alloc, s)
}

/// The parts of a `for`.
#[derive(Drop)]
struct Heads {
    start: What,
    test: Option<Expr>,
    step: Option<Expr>,
    inside: What,
}

/// Whether the second part of a `for` is its test: then it stands directly behind the first.
pub(crate) fn second_is_test(parts: &[Tree]) -> bool
    ensures { result ≡ meaning.second_is_test (views parts.now) }
{
    match parts {
        [] => false,
        [_] => false,
        [first, second, ..] => u64::from(second.first) == u64::from(first.last) + 1,
    }
}

/// The parts of a `for` with one expression, or with two.
fn for_parts(mut pieces: Vec<Piece>, tested: bool) -> Option<Heads>
    ensures { option_map heads_of result ≡ heads_in tested (map piece_of pieces.items) }
{
    let start = next(&mut pieces)?.what;
    let second = next(&mut pieces)?.what;
    let Some(third) = next(&mut pieces) else {
        return Some(Heads {
            start,
            test: None,
            step: None,
            inside: second,
        });
    };
    let second = Some(read(second));
    let Some(fourth) = next(&mut pieces) else {
        let (test, step) = if tested {
            (second, None)
        } else {
            (None, second)
        };
        return Some(Heads {
            start,
            test,
            step,
            inside: third.what,
        });
    };
    if !pieces.is_empty() {
        drop(start);
        drop(second);
        drop(third);
        drop(fourth);
        return None;
    }
    Some(Heads {
        start,
        test: second,
        step: Some(read(third.what)),
        inside: fourth.what,
    })
}

/// What a `for` with these parts stands for.
fn for_heads(
    alloc: Global,
    place: Place,
    sites: &mut Vec<Place>,
    heads: Heads,
) -> Result<What, Memory>
    ensures { IfOk result (λ w. for_by place sites.old.items (heads_of heads) ≡ built_of w sites.new.items) }
{
    let (site, heads) = site_beside(sites, place, heads)?;
    let Heads {
        start,
        test,
        step,
        inside,
    } = heads;
    let inside = body(alloc, inside);
    let (s, start) = beside(
        statement::repeat(alloc, site, true, test, step, inside),
        start,
    )?;
    let mut lines = Vec::new(alloc);
    let (_, s) = beside(put_line(&mut lines, start), s)?;
    put(&mut lines, s)?;
    as_statement(alloc, statement::block(lines))
}

/// What `for` stands for; `tested` is whether its second part is its test (C99, section 6.8.5.3).
pub(crate) fn for_loop(
    alloc: Global,
    place: Place,
    sites: &mut Vec<Place>,
    tested: bool,
    pieces: Vec<Piece>,
) -> Result<What, Memory>
    ensures { IfOk result (λ w. loop_by place sites.old.items (heads_in tested (map piece_of pieces.items)) ≡
        built_of w sites.new.items) }
{
    match for_parts(pieces, tested) {
        None => Ok(What::Nothing),
        Some(heads) => {
            let what = for_heads(alloc, place, sites, heads)?;
            Ok(what)
        }
    }
}

/// What `break` stands for (C99, section 6.8.6.3).
pub(crate) fn leave(alloc: Global, place: Place, sites: &mut Vec<Place>) -> Result<What, Memory>
    ensures { IfOk result (λ w. sited place sites.old.items (λ site. typed.statement (tree.Break site)) ≡
        built_of w sites.new.items) }
{
    let site = take_site(sites, place)?;
    as_statement(alloc, Stmt::Break { site })
}

/// What `continue` stands for (C99, section 6.8.6.2).
pub(crate) fn go_on(alloc: Global, place: Place, sites: &mut Vec<Place>) -> Result<What, Memory>
    ensures { IfOk result (λ w. sited place sites.old.items (λ site. typed.statement (tree.Continue site)) ≡
        built_of w sites.new.items) }
{
    let site = take_site(sites, place)?;
    as_statement(alloc, Stmt::Continue { site })
}

/// The value that a function returns, converted to the type of its result.
fn returned(alloc: Global, result_of: Yield, mut pieces: Vec<Piece>) -> Result<Option<Expr>, Memory>
    ensures { IfOk result (λ o. option_map expression_of o ≡
        meaning.returned result_of (map piece_of pieces.items)) }
{
    let Yield::Number(of) = result_of else {
        return Ok(None);
    };
    match next(&mut pieces) {
        None => Ok(None),
        Some(piece) => {
            let value = operand(alloc, of, piece)?;
            Ok(Some(value))
        }
    }
}

/// What `return` stands for in a function that gives `result_of` (C99, section 6.8.6.4).
pub(crate) fn give_back(
    alloc: Global,
    place: Place,
    sites: &mut Vec<Place>,
    result_of: Yield,
    pieces: Vec<Piece>,
) -> Result<What, Memory>
    ensures { IfOk result (λ w. sited place sites.old.items
        (λ site. typed.statement (tree.Return site (meaning.returned result_of (map piece_of pieces.items)))) ≡
        built_of w sites.new.items) }
{
    let value = returned(alloc, result_of, pieces)?;
    let (site, value) = site_beside(sites, place, value)?;
    as_statement(alloc, Stmt::Return { site, value })
}
