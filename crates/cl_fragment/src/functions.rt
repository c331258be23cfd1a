//! Functions and units.

ghost use Rattle.std.specs.Prelude.{◌≡◌, ◌++◌, IfOk, OnOk, List, map};
ghost use Rattle.cl_model.specs.View.{statement_of, listed_statements};
ghost use Rattle.cl_meaning.specs.Typed as typed;
ghost use Rattle.cl_meaning.specs.Statements as meaning;
ghost use Rattle.cl_meaning.specs.View.{array_of, function_of, variable_of};
ghost use Rattle.cl_fragment.specs.View.{piece_of, what_of};

use crate::declarators::number;
use crate::fragment::{Piece, What};
use crate::lines::last;
use cl_meaning::Yield;
use cl_model::{Array, Function, Stmt, Var};
use std::alloc::Global;
use wg_num::{IntType, Memory, Word, push};

/// What is known at the end of the block of a function: its variables and arrays, and the work-group size
/// that it requires (OpenCL 1.2, section 6.7.2).
#[derive(Drop)]
pub struct Inside {
    pub variables: Vec<Var>,
    pub arrays: Vec<Array>,
    pub sizes: Option<[u64; 3]>,
}

/// The statements of a statement that is a block; no others.
fn statements_in(alloc: Global, s: Stmt) -> Vec<Stmt>
    ensures { listed_statements result.items ≡ meaning.block_of (typed.statement (statement_of s)) }
{
    match s {
        Stmt::Block(list) => list,
        other => {
            drop(other);
            Vec::new(alloc)
        }
    }
}

/// The statements of a block.
fn block_of(alloc: Global, what: What) -> Vec<Stmt>
    ensures { listed_statements result.items ≡ meaning.block_of (what_of what) }
{
    match what {
        What::Statement(s) => statements_in(alloc, Box::into_inner(s)),
        other => {
            drop(other);
            Vec::new(alloc)
        }
    }
}

/// The statements of the block of a function, which is its last part.
fn body_in(alloc: Global, pieces: Vec<Piece>) -> Vec<Stmt>
    ensures { listed_statements result.items ≡ meaning.body_in (map piece_of pieces.items) }
{
    match last(pieces) {
        None => Vec::new(alloc),
        Some(piece) => block_of(alloc, piece.what),
    }
}

/// The type of the number that a function gives.
fn result_type(gives: Yield) -> Option<IntType>
    ensures { result ≡ meaning.result_of gives }
{
    match gives {
        Yield::Number(of) => Some(of),
        _ => None,
    }
}

/// What a function stands for (C99, section 6.9.1).
pub(crate) fn function(
    alloc: Global,
    name: Word,
    parameters: usize,
    gives: Yield,
    inside: Inside,
    pieces: Vec<Piece>,
) -> Result<What, Memory>
    ensures { IfOk result (λ w. what_of w ≡ typed.function (record {
      name = name;
      parameters = parameters;
      result = meaning.result_of gives;
      variables = map variable_of inside.variables.items;
      arrays = map array_of inside.arrays.items;
      body = meaning.body_in (map piece_of pieces.items);
      sizes = inside.sizes;
    })) }
{
    let params = number(parameters)?;
    Ok(What::Function(Function {
        name,
        params,
        result: result_type(gives),
        vars: inside.variables,
        arrays: inside.arrays,
        body: body_in(alloc, pieces),
        sizes: inside.sizes,
    }))
}

/// A function behind others; nothing else is one.
#[tactic(auto, using(crate::proofs::Lists::functions_more))]
fn put_function(all: &mut Vec<Function>, what: What) -> Result<(), Memory>
    ensures { OnOk result ((later : List typed.Function) →
        map function_of all.new.items ++ later ≡ map function_of all.old.items ++
        meaning.function_before (what_of what) later) }
{
    match what {
        What::Function(function) => push(all, function),
        other => {
            drop(other);
            Ok(())
        }
    }
}

/// The functions of a unit, in order.
pub(crate) fn functions(alloc: Global, pieces: Vec<Piece>) -> Result<Vec<Function>, Memory>
    ensures { IfOk result (λ v. map function_of v.items ≡ meaning.functions_in (map piece_of pieces.items)) }
{
    let mut all = Vec::new(alloc);
    for piece in pieces {
        put_function(&mut all, piece.what)?;
    }
    Ok(all)
}
