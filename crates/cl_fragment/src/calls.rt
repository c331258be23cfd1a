//! Calls.

ghost use Rattle.std.specs.Prelude.{◌≡◌, IfOk, map};
ghost use Rattle.cl_model.specs.View.{expression_of, root_of, argument_of};
ghost use Rattle.cl_model.specs.Tree as tree;
ghost use Rattle.cl_model.specs.Tree.{Apply, single};
ghost use Rattle.cl_model.specs.Listed.{listed_roots, listed_arguments};
ghost use Rattle.cl_meaning.specs.Typed as typed;
ghost use Rattle.cl_meaning.specs.Kinds as kinds;
ghost use Rattle.cl_meaning.specs.Expressions as meaning;
ghost use Rattle.cl_fragment.specs.View.{piece_of, what_of, built_of};

use crate::boxes::as_value;
use crate::fragment::{Piece, What};
use crate::parts::next;
use crate::sites::take_site;
use crate::types::type_in;
use crate::values::{literal, operand, read};
use cl_meaning::{Intrinsic, Kind, Parameter, common, counted};
use cl_model::{Arg, Expr, Query, expression};
use std::alloc::Global;
use wg_num::{Fun, IntType, Memory, Place, push, same_type};

/// An argument for a parameter: a number converted to its type, or the offset of a pointer.
fn passed(alloc: Global, parameter: Parameter, a: Piece) -> Result<Arg, Memory>
    ensures root { IfOk result (λ r. root_of r ≡ meaning.root_in a.kind) }
    ensures value { IfOk result (λ r. argument_of r ≡ meaning.passed parameter (piece_of a)) }
{
    let kind = a.kind;
    let value = match parameter {
        Parameter::Number(of) => operand(alloc, of, a)?,
        _ => read(a.what),
    };
    match kind {
        Some(Kind::Pointer { root, .. }) => Ok(Arg::Offset { root, index: value }),
        _ => Ok(Arg::Value(value)),
    }
}

/// The arguments that parameters take.
fn all_passed(
    alloc: Global,
    parameters: &[Parameter],
    pieces: Vec<Piece>,
) -> Result<Vec<Arg>, Memory>
    ensures roots { IfOk result (λ v. listed_roots v.items ≡ meaning.roots_passed parameters.now
        (map piece_of pieces.items)) }
    ensures values { IfOk result (λ v. listed_arguments v.items ≡ meaning.all_passed parameters.now
        (map piece_of pieces.items)) }
{
    let mut arguments = Vec::new(alloc);
    let mut rest = pieces.into_iter();
    for parameter in parameters {
        let Some(piece) = rest.next() else {
            return Ok(arguments);
        };
        let argument = passed(alloc, *parameter, piece)?;
        push(&mut arguments, argument)?;
    }
    Ok(arguments)
}

/// What a call of a function of the unit stands for (C99, section 6.5.2.2).
pub(crate) fn defined_call(
    alloc: Global,
    place: Place,
    sites: &mut Vec<Place>,
    number: u32,
    parameters: &[Parameter],
    pieces: Vec<Piece>,
) -> Result<What, Memory>
    ensures { IfOk result (λ w. meaning.sited place sites.old.items
        (λ site. typed.value (tree.Call site number
        (meaning.roots_passed parameters.now (map piece_of pieces.items))
        (meaning.all_passed parameters.now (map piece_of pieces.items)))) ≡ built_of w sites.new.items) }
{
    let site = take_site(sites, place)?;
    let arguments = all_passed(alloc, parameters, pieces)?;
    as_value(alloc, expression::call(site, number, arguments))
}

/// The types of some arguments of a built-in function.
fn types_in(alloc: Global, pieces: &[Piece]) -> Result<Vec<IntType>, Memory>
    ensures { IfOk result (λ v. v.items ≡ meaning.types_in (map piece_of pieces.now)) }
{
    let mut types = Vec::new(alloc);
    for piece in pieces {
        if types.push(counted(type_in(piece.kind))).is_err() {
            return Err(Memory);
        }
    }
    Ok(types)
}

/// Whether all types are one.
fn all_of(of: IntType, types: &[IntType]) -> bool
    ensures { result ≡ kinds.all_of of types.now }
{
    for other in types {
        if !same_type(of, *other) {
            return false;
        }
    }
    true
}

/// The common type of some types (C99, section 6.3.1.8).
fn common_of(of: IntType, types: &[IntType]) -> IntType
    ensures { result ≡ kinds.common_of of types.now }
{
    let mut all = of;
    for other in types {
        all = common(all, *other);
    }
    all
}

/// The type in which a built-in function computes (OpenCL 1.2, section 6.12.3).
fn builtin_type(types: &[IntType]) -> IntType
    ensures { result ≡ kinds.builtin_type types.now }
{
    match types {
        [] => IntType::Int,
        [first, rest @ ..] => {
            if all_of(*first, rest) {
                *first
            } else {
                common_of(*first, rest)
            }
        }
    }
}

/// The values of some pieces, converted to one type.
pub(crate) fn operands(alloc: Global, of: IntType, pieces: Vec<Piece>) -> Result<Vec<Expr>, Memory>
    ensures { IfOk result (λ v. map expression_of v.items ≡ meaning.operands of (map piece_of pieces.items)) }
{
    let mut values = Vec::new(alloc);
    for piece in pieces {
        let value = operand(alloc, of, piece)?;
        if values.push(value).is_err() {
            return Err(Memory);
        }
    }
    Ok(values)
}

/// A call of a built-in function (OpenCL 1.2, section 6.12.3).
#[tactic(auto, using(crate::proofs::Lists::expressions_listed))]
fn builtin_call(alloc: Global, f: Fun, pieces: Vec<Piece>) -> Result<What, Memory>
    ensures { IfOk result (λ w. what_of w ≡
        typed.value (Apply (tree.Builtin f (kinds.builtin_type (meaning.types_in (map piece_of pieces.items))))
        (meaning.expressions (meaning.operands (kinds.builtin_type (meaning.types_in (map piece_of pieces.items)))
        (map piece_of pieces.items))))) }
{
    let types = types_in(alloc, &pieces)?;
    let of = builtin_type(&types);
    let values = operands(alloc, of, pieces)?;
    as_value(alloc, expression::builtin(f, of, values))
}

/// The dimension about which a work-item function is asked: its first argument.
fn dimension(alloc: Global, mut pieces: Vec<Piece>) -> Result<Expr, Memory>
    ensures { IfOk result (λ e. expression_of e ≡ meaning.dimension (map piece_of pieces.items)) }
{
    match next(&mut pieces) {
        None => Ok(literal(0, IntType::Uint)),
        Some(a) => {
            let e = operand(alloc, IntType::Uint, a)?;
            Ok(e)
        }
    }
}

/// A call of a work-item function (OpenCL 1.2, section 6.12.1).
fn query_call(alloc: Global, what: Query, pieces: Vec<Piece>) -> Result<What, Memory>
    ensures { IfOk result (λ w. what_of w ≡
        typed.value (Apply (tree.Ask what) (single (meaning.dimension (map piece_of pieces.items))))) }
{
    let dim = dimension(alloc, pieces)?;
    let e = expression::ask(alloc, what, dim)?;
    as_value(alloc, e)
}

/// What a call of a name that is known without a declaration stands for (OpenCL 1.2, section 6.12).
pub(crate) fn known_call(
    alloc: Global,
    place: Place,
    sites: &mut Vec<Place>,
    name: Intrinsic,
    pieces: Vec<Piece>,
) -> Result<What, Memory>
    ensures { IfOk result (λ w. meaning.known_made place sites.old.items (map piece_of pieces.items) name ≡
        built_of w sites.new.items) }
{
    match name {
        Intrinsic::Function(f) => {
            let what = builtin_call(alloc, f, pieces)?;
            Ok(what)
        }
        Intrinsic::Query(q) => {
            let what = query_call(alloc, q, pieces)?;
            Ok(what)
        }
        Intrinsic::Barrier => {
            let site = take_site(sites, place)?;
            Ok(What::Barrier { site })
        }
        Intrinsic::Fence => Ok(What::Fence),
    }
}
