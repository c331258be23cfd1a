//! What a node stands for by what is visible at it.

ghost use Rattle.std.specs.Prelude.{◌≡◌, IfOk, List, Some, map, option_map};
ghost use Rattle.cl_tree.specs.Syntax.{views};
ghost use Rattle.cl_meaning.specs.Constants as constants;
ghost use Rattle.cl_scope.specs.Declarators.{declarator_view};
ghost use Rattle.cl_scope.specs.View.{visible_in};
ghost use Rattle.cl_scope.specs.Walk.{body_view, body_of};
ghost use Rattle.cl_meaning.specs.Environment.{Env};
ghost use Rattle.cl_meaning.specs.Kinds as kinds;
ghost use Rattle.cl_meaning.specs.Declarations as declarations;
ghost use Rattle.cl_meaning.specs.Expressions as expressions;
ghost use Rattle.cl_meaning.specs.Statements as statements;
ghost use Rattle.wg_num.specs.declared.types.Place as places;
ghost use Rattle.cl_fragment.specs.View.{piece_of, built_of};

use crate::calls::{defined_call, known_call};
use crate::declarators::{Declaring, declarator};
use crate::fragment::{Piece, What};
use crate::functions::{Inside, function};
use crate::leaves;
use crate::switches::case;
use cl_meaning::{Constant, constant_of};
use cl_scope::{
    Body, Callee, Declarator, Environment, Signature, callee_of, is_flag, kept_in, meaning_of,
    signature_in,
};
use cl_tree::Tree;
use std::alloc::Global;
use wg_num::{IntType, Memory, Place};

/// What a name stands for where it is used: a flag of a memory fence, or what it is declared to be.
pub(crate) fn name_at(
    alloc: Global,
    environment: &Environment,
    place: Place,
    sites: &mut Vec<Place>,
    of: &[u8],
) -> Result<What, Memory>
    ensures { IfOk result (λ w. expressions.flagged_made (visible_in environment.now) place sites.old.items
        of.now ≡ built_of w sites.new.items) }
{
    if is_flag(environment, of) {
        return leaves::flag(alloc);
    }
    let what = leaves::name(alloc, place, sites, meaning_of(environment, of))?;
    Ok(what)
}

/// What a call of a name stands for (C99, section 6.5.2.2).
pub(crate) fn call_at(
    alloc: Global,
    environment: &Environment,
    place: Place,
    sites: &mut Vec<Place>,
    of: &[u8],
    pieces: Vec<Piece>,
) -> Result<What, Memory>
    ensures { IfOk result (λ w. expressions.call_made place sites.old.items (map piece_of pieces.items)
        (kinds.callee_of (visible_in environment.now) of.now) ≡ built_of w sites.new.items) }
{
    match callee_of(environment, of) {
        Some(Callee::Defined { number, signature }) => {
            let what = defined_call(alloc, place, sites, number, &signature.parameters, pieces)?;
            Ok(what)
        }
        Some(Callee::Undefined) => Ok(What::Nothing),
        Some(Callee::Known(known)) => {
            let what = known_call(alloc, place, sites, known, pieces)?;
            Ok(what)
        }
        None => Ok(What::Nothing),
    }
}

/// The type to which labels are converted, where some stand before the node.
fn label_type(environment: &Environment) -> Option<IntType>
    ensures { option_map (λ l. l.of) (visible_in environment.now).labels ≡ result }
{
    match &environment.labels {
        None => None,
        Some(labels) => Some(labels.of),
    }
}

/// The constant that the first part is.
fn first_constant(parts: &[Tree]) -> Option<Constant>
    ensures { constants.constant_of (kinds.first_part (views parts.now)) ≡ result }
{
    match parts {
        [] => None,
        [first, ..] => constant_of(first),
    }
}

/// What a `case` stands for (C99, section 6.8.1).
pub(crate) fn case_at(
    alloc: Global,
    environment: &Environment,
    parts: &[Tree],
    pieces: Vec<Piece>,
) -> Result<What, Memory>
    ensures { IfOk result (λ w. (sites : List places.Place) →
        statements.case_made (visible_in environment.now) sites (views parts.now) (map piece_of pieces.items) ≡
        built_of w sites) }
{
    let of = label_type(environment);
    let constant = first_constant(parts);
    let what = case(alloc, of, constant, pieces)?;
    Ok(what)
}

/// What a declarator stands for (C99, section 6.7.5).
#[tactic(auto, using(crate::proofs::Declaring::declarator_is))]
pub(crate) fn declarator_at(
    alloc: Global,
    environment: &Environment,
    place: Place,
    sites: &mut Vec<Place>,
    of: &Declarator,
    pieces: Vec<Piece>,
) -> Result<What, Memory>
    ensures { IfOk result (λ w. statements.declarator_made (visible_in environment.now) place sites.old.items
        (visible_in environment.now).declared (declarator_view of.now) (map piece_of pieces.items) ≡
        built_of w sites.new.items) }
{
    let Some(declared) = environment.declared else {
        return Ok(What::Nothing);
    };
    let declaring = Declaring {
        star: of.star.is_some(),
        dimensions: of.dimensions,
        initialized: of.init.is_some(),
        kept: kept_in(environment, declared),
        variables: environment.variables.len(),
        arrays: environment.arrays.len(),
    };
    let what = declarator(alloc, place, sites, declaring, Some(declared), pieces)?;
    Ok(what)
}

/// What a function stands for, with its variables and arrays at the end of its block (C99, section 6.9.1).
pub(crate) fn function_at(
    alloc: Global,
    body: Option<Body>,
    sizes: Option<[u64; 3]>,
    word: &[u8],
    parts: &[Tree],
    pieces: Vec<Piece>,
) -> Result<What, Memory>
    ensures { IfOk result (λ w. (inner : Env) (sites : List places.Place) →
        option_map body_view body ≡ Some (body_of inner) → sizes ≡ inner.owner.sizes →
        statements.function_made inner sites (declarations.signature_in word.now (views parts.now))
        (map piece_of pieces.items) ≡ built_of w sites) }
{
    let Some(body) = body else {
        return Ok(What::Nothing);
    };
    let Signature {
        name,
        result,
        parameters,
        ..
    } = signature_in(alloc, word, parts)?;
    let inside = Inside {
        variables: body.variables,
        arrays: body.arrays,
        sizes,
    };
    let what = function(alloc, name, parameters.len(), result, inside, pieces)?;
    Ok(what)
}
