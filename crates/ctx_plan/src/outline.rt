//! The outline of a function: where its variables are declared, its cuts, its calls and its blocks.

ghost use Rattle.std.specs.Prelude.{◌≡◌, ◌∷◌, [], IfOk, OnOk};
ghost use Rattle.cl_model.specs.Calls.{calls_in, calls_among, calls_in_optional};
ghost use Rattle.cl_model.specs.View.{expression_of, argument_of, listed_expressions, optional_expression};
ghost use Rattle.cl_model.specs.View.{statement_of, listed_statements, function_of};
ghost use Rattle.cl_model.specs.Listed.{listed_arguments};
ghost use Rattle.ctx_plan.specs.Outline.{Outline, NoPiece, cut_then};
ghost use Rattle.ctx_plan.specs.Outline.{calls_then, outline_then, outlines_then, outlines_of_arms, parameters_then};
ghost use Rattle.ctx_plan.specs.Outline.{function_outline, piece_then, pieces_then};
ghost use Rattle.cl_model.specs.Listed.{listed_arms};
ghost use Rattle.ctx_plan.specs.Points.{calls_onto, entry};

use crate::holding::statement_holds;
use cl_model::{Arg, Expr, Function, Stmt, SwitchArm, Target};
use std::alloc::Global;
use wg_num::{Memory, push};

/// A piece of an outline: a declaration, whose scope is the rest of the block; a cut; a call, in
/// whose place the block of the called function stands; a block.
#[derive(Drop)]
pub enum Piece {
    Declares(u32),
    Cut,
    Calls(u32, u32),
    Block(Vec<Piece>),
}

fn put_call(pieces: &mut Vec<Piece>, site: u32, function: u32) -> Result<(), Memory>
    ensures { OnOk result (pieces.new.items ≡ calls_onto (record { site = site; function = function } ∷ [])
        pieces.old.items) }
{
    push(pieces, Piece::Calls(site, function))
}

#[cycle(calls)]
pub(crate) fn put_expressions(list: &[Expr], pieces: &mut Vec<Piece>) -> Result<(), Memory>
    ensures { OnOk result (pieces.new.items ≡ calls_onto (calls_among (listed_expressions list.now))
        pieces.old.items) }
{
    for e in list {
        put_expression(e, pieces)?;
    }
    Ok(())
}

#[cycle(calls)]
fn put_argument(argument: &Arg, pieces: &mut Vec<Piece>) -> Result<(), Memory>
    ensures { OnOk result (pieces.new.items ≡ calls_onto (calls_in (argument_of argument.now)) pieces.old.items) }
{
    match argument {
        Arg::Value(e) => put_expression(e, pieces),
        Arg::Offset { index, .. } => put_expression(index, pieces),
    }
}

#[cycle(calls)]
fn put_arguments(list: &[Arg], pieces: &mut Vec<Piece>) -> Result<(), Memory>
    ensures { OnOk result (pieces.new.items ≡ calls_onto (calls_among (listed_arguments list.now)) pieces.old.items) }
{
    for argument in list {
        put_argument(argument, pieces)?;
    }
    Ok(())
}

/// Puts the calls of an expression behind the pieces.
#[cycle(calls)]
#[tactic(auto, using(crate::proofs::Onto::calls_onto_both))]
pub(crate) fn put_expression(e: &Expr, pieces: &mut Vec<Piece>) -> Result<(), Memory>
    ensures { OnOk result (pieces.new.items ≡ calls_onto (calls_in (expression_of e.now)) pieces.old.items) }
{
    match e {
        Expr::Literal { .. } | Expr::Variable(_) => Ok(()),
        Expr::Unary { a, .. } | Expr::Convert { a, .. } => put_expression(a, pieces),
        Expr::Load { index, .. } => put_expression(index, pieces),
        Expr::Ask { dim, .. } => put_expression(dim, pieces),
        Expr::Binary { a, b, .. }
        | Expr::Both { a, b, .. }
        | Expr::Either { a, b, .. }
        | Expr::Then { a, b } => {
            put_expression(a, pieces)?;
            put_expression(b, pieces)
        }
        Expr::Choose { test, yes, no, .. } => {
            put_expression(test, pieces)?;
            put_expression(yes, pieces)?;
            put_expression(no, pieces)
        }
        Expr::Assign { target, value } | Expr::Update { target, value, .. } => {
            if let Target::Element { index, .. } = target {
                put_expression(index, pieces)?;
            }
            put_expression(value, pieces)
        }
        Expr::Call {
            site,
            function,
            args,
        } => {
            put_arguments(args, pieces)?;
            put_call(pieces, *site, *function)
        }
        Expr::Builtin { args, .. } => put_expressions(args, pieces),
    }
}

pub(crate) fn put_optional(pieces: &mut Vec<Piece>, e: &Option<Expr>) -> Result<(), Memory>
    ensures { OnOk result (pieces.new.items ≡ calls_onto (calls_in_optional (optional_expression e.now))
        pieces.old.items) }
{
    match e {
        None => Ok(()),
        Some(e) => put_expression(e, pieces),
    }
}

/// A cut, where there is one.
fn put_cut(pieces: &mut Vec<Piece>, cut: bool) -> Result<(), Memory>
    ensures { OnOk result ((rest : Outline) →
        pieces_then pieces.new.items rest ≡ pieces_then pieces.old.items (cut_then cut rest)) }
{
    if cut {
        put_piece(pieces, Piece::Cut)
    } else {
        Ok(())
    }
}

fn put_piece(pieces: &mut Vec<Piece>, piece: Piece) -> Result<(), Memory>
    ensures { OnOk result ((rest : Outline) →
        pieces_then pieces.new.items rest ≡ pieces_then pieces.old.items (piece_then piece rest)) }
{
    push(pieces, piece)
}

fn put_calls(pieces: &mut Vec<Piece>, e: &Expr) -> Result<(), Memory>
    ensures { OnOk result ((rest : Outline) →
        pieces_then pieces.new.items rest ≡
        pieces_then pieces.old.items (calls_then (calls_in (expression_of e.now)) rest)) }
{
    put_expression(e, pieces)
}

fn put_list_calls(pieces: &mut Vec<Piece>, list: &[Expr]) -> Result<(), Memory>
    ensures { OnOk result ((rest : Outline) →
        pieces_then pieces.new.items rest ≡
        pieces_then pieces.old.items (calls_then (calls_among (listed_expressions list.now)) rest)) }
{
    put_expressions(list, pieces)
}

fn put_optional_calls(pieces: &mut Vec<Piece>, e: &Option<Expr>) -> Result<(), Memory>
    ensures { OnOk result ((rest : Outline) →
        pieces_then pieces.new.items rest ≡
        pieces_then pieces.old.items (calls_then (calls_in_optional (optional_expression e.now)) rest)) }
{
    put_optional(pieces, e)
}

#[cycle(statements)]
fn put_statements(
    alloc: Global,
    list: &[Stmt],
    pieces: &mut Vec<Piece>,
    inside: &[bool],
) -> Result<(), Memory>
    ensures { OnOk result ((rest : Outline) →
        pieces_then pieces.new.items rest ≡
        pieces_then pieces.old.items (outlines_then (entry inside.now) (listed_statements list.now) rest)) }
{
    for s in list {
        put_statement(alloc, s, pieces, inside)?;
    }
    Ok(())
}

#[cycle(statements)]
fn put_arms(
    alloc: Global,
    arms: &[SwitchArm],
    pieces: &mut Vec<Piece>,
    inside: &[bool],
) -> Result<(), Memory>
    ensures { OnOk result ((rest : Outline) →
        pieces_then pieces.new.items rest ≡
        pieces_then pieces.old.items (outlines_of_arms (entry inside.now) (listed_arms arms.now) rest)) }
{
    for arm in arms {
        put_statements(alloc, &arm.body, pieces, inside)?;
    }
    Ok(())
}

/// Puts the pieces of a statement behind the pieces; `inside` says of each function whether it
/// holds a barrier.
#[cycle(statements)]
fn put_statement(
    alloc: Global,
    s: &Stmt,
    pieces: &mut Vec<Piece>,
    inside: &[bool],
) -> Result<(), Memory>
    ensures { OnOk result ((rest : Outline) →
        pieces_then pieces.new.items rest ≡
        pieces_then pieces.old.items (outline_then (entry inside.now) (statement_of s.now) rest)) }
{
    match s {
        Stmt::Do(e) => put_calls(pieces, e),
        Stmt::Declare { var, value } => {
            put_optional_calls(pieces, value)?;
            put_piece(pieces, Piece::Declares(*var))
        }
        Stmt::Return { value, .. } => put_optional_calls(pieces, value),
        Stmt::Fill { values, .. } => put_list_calls(pieces, values),
        Stmt::Block(list) => {
            let mut block = Vec::new(alloc);
            put_statements(alloc, list, &mut block, inside)?;
            put_piece(pieces, Piece::Block(block))
        }
        Stmt::If { test, yes, no, .. } => {
            let cut = statement_holds(alloc, inside, s)?;
            put_cut(pieces, cut)?;
            put_calls(pieces, test)?;
            put_cut(pieces, cut)?;
            put_statement(alloc, yes, pieces, inside)?;
            put_cut(pieces, cut)?;
            match no {
                None => {}
                Some(no) => put_statement(alloc, no, pieces, inside)?,
            }
            put_cut(pieces, cut)
        }
        Stmt::Loop {
            test_first,
            test,
            step,
            body,
            ..
        } => {
            let cut = statement_holds(alloc, inside, s)?;
            put_cut(pieces, cut)?;
            if *test_first {
                put_optional_calls(pieces, test)?;
                put_cut(pieces, cut)?;
                put_optional_calls(pieces, step)?;
                put_cut(pieces, cut)?;
                put_statement(alloc, body, pieces, inside)?;
                return put_cut(pieces, cut);
            }
            put_statement(alloc, body, pieces, inside)?;
            put_cut(pieces, cut)?;
            put_optional_calls(pieces, step)?;
            put_cut(pieces, cut)?;
            put_optional_calls(pieces, test)?;
            put_cut(pieces, cut)
        }
        Stmt::Switch { value, arms, .. } => {
            let cut = statement_holds(alloc, inside, s)?;
            put_cut(pieces, cut)?;
            put_calls(pieces, value)?;
            put_cut(pieces, cut)?;
            put_arms(alloc, arms, pieces, inside)?;
            put_cut(pieces, cut)
        }
        Stmt::Break { .. } | Stmt::Continue { .. } => Ok(()),
        Stmt::Barrier { .. } => put_piece(pieces, Piece::Cut),
    }
}

/// The declarations of so many parameters.
fn put_parameters(pieces: &mut Vec<Piece>, count: u32) -> Result<(), Memory>
    ensures { OnOk result ((rest : Outline) →
        pieces_then pieces.new.items rest ≡ pieces_then pieces.old.items (parameters_then 0 count rest)) }
{
    for parameter in 0..count {
        put_piece(pieces, Piece::Declares(parameter))?;
    }
    Ok(())
}

/// The outline of a function: its parameters are declared at the start of its block.
pub(crate) fn outline_of(
    alloc: Global,
    inside: &[bool],
    function: &Function,
) -> Result<Vec<Piece>, Memory>
    ensures { IfOk result (λ v. pieces_then v.items NoPiece ≡ function_outline (entry inside.now)
        (function_of function.now)) }
{
    let mut pieces = Vec::new(alloc);
    put_parameters(&mut pieces, function.params)?;
    put_statements(alloc, &function.body, &mut pieces, inside)?;
    Ok(pieces)
}
