//! The arguments and the results of calls.

ghost use Rattle.std.specs.Prelude.{◌≡◌};
ghost use Rattle.cl_meaning.specs.Kinds as spec;
ghost use Rattle.cl_faults.specs.Known.{known};

use crate::kinds::{is_number, number};
use cl_meaning::{Each, Intrinsic, Kind, Parameter, Yield, common, counted, same_space, type_of};
use cl_model::{Query, arity_of, query_type};
use wg_num::{IntType, result_type, same_type};

/// Whether the kinds of all parts are known.
#[tactic(auto, using(crate::proofs::Known::all_known_more))]
pub fn are_known(kinds: &[Option<Kind>]) -> bool
    ensures { result ≡ spec.is_some (spec.all_known kinds.now) }
{
    for kind in kinds {
        if kind.is_none() {
            return false;
        }
    }
    true
}

/// Whether a parameter takes an argument of that kind.
pub fn argument_fits(parameter: Parameter, kind: Kind) -> bool
    ensures { result ≡ spec.argument_fits parameter kind }
{
    match (parameter, kind) {
        (Parameter::Number(_), Kind::Number { .. }) => true,
        (
            Parameter::Pointer { space, element, .. },
            Kind::Pointer {
                space: other_space,
                element: other_element,
                each: Each::Element,
                ..
            },
        ) => same_space(space, other_space) && same_type(element, other_element),
        _ => false,
    }
}

/// Whether the parameters take the arguments whose kinds are known.
pub fn arguments_fit(parameters: &[Parameter], kinds: &[Option<Kind>]) -> bool
    ensures { result ≡ spec.arguments_fit parameters.now (known kinds.now) }
{
    let mut left = parameters;
    for kind in kinds {
        if let (Some(kind), [parameter, others @ ..]) = (kind, left) {
            if !argument_fits(*parameter, *kind) {
                return false;
            }
            left = others;
        }
    }
    true
}

/// The kind of a call of a function that gives this; `None` for a type outside the profile.
pub fn result_kind(result_of: Yield) -> Option<Kind>
    ensures { result ≡ spec.result_kind result_of }
{
    match result_of {
        Yield::Number(of) => Some(number(of)),
        Yield::Nothing => Some(Kind::Nothing),
        Yield::Outside => None,
    }
}

/// Whether those of the kinds that are known are numbers.
pub fn all_numbers(kinds: &[Option<Kind>]) -> bool
    ensures { result ≡ spec.all_numbers (known kinds.now) }
{
    for kind in kinds {
        if let Some(kind) = kind
            && !is_number(*kind)
        {
            return false;
        }
    }
    true
}

fn all_of(of: IntType, kinds: &[Option<Kind>]) -> bool
    ensures { result ≡ spec.all_of of (spec.counted_types (known kinds.now)) }
{
    for kind in kinds {
        if let Some(kind) = kind
            && !same_type(of, counted(type_of(*kind)))
        {
            return false;
        }
    }
    true
}

fn common_of(of: IntType, kinds: &[Option<Kind>]) -> IntType
    ensures { result ≡ spec.common_of of (spec.counted_types (known kinds.now)) }
{
    let mut all = of;
    for kind in kinds {
        if let Some(kind) = kind {
            all = common(all, counted(type_of(*kind)));
        }
    }
    all
}

/// The type in which a built-in function computes: that of its arguments if it is one type, else their
/// common type (OpenCL 1.2, section 6.12.3).
pub fn builtin_type(kinds: &[Option<Kind>]) -> IntType
    ensures { result ≡ spec.builtin_type (spec.counted_types (known kinds.now)) }
{
    let mut rest = kinds;
    while let [kind, others @ ..] = rest {
        if let Some(kind) = kind {
            let of = counted(type_of(*kind));
            return if all_of(of, others) {
                of
            } else {
                common_of(of, others)
            };
        }
        rest = others;
    }
    IntType::Int
}

fn query_arity(query: Query) -> usize
    ensures { result ≡ spec.query_arity query }
{
    match query {
        Query::WorkDim => 0,
        _ => 1,
    }
}

/// How many arguments a name that is known without a declaration takes (OpenCL 1.2, sections 6.12.1,
/// 6.12.3, 6.12.8 and 6.12.9).
pub fn intrinsic_arity(intrinsic: Intrinsic) -> usize
    ensures { result ≡ spec.intrinsic_arity intrinsic }
{
    match intrinsic {
        Intrinsic::Function(function) => arity_of(function),
        Intrinsic::Query(query) => query_arity(query),
        Intrinsic::Barrier | Intrinsic::Fence => 1,
    }
}

/// The kind of a call of a name that is known without a declaration, with the arguments whose kinds are known.
pub fn intrinsic_result(intrinsic: Intrinsic, kinds: &[Option<Kind>]) -> Kind
    ensures { result ≡ spec.intrinsic_result intrinsic (known kinds.now) }
{
    match intrinsic {
        Intrinsic::Function(function) => number(result_type(function, builtin_type(kinds))),
        Intrinsic::Query(query) => number(query_type(query)),
        Intrinsic::Barrier | Intrinsic::Fence => Kind::Nothing,
    }
}

/// Whether it is a barrier or a memory fence.
pub fn is_fence(intrinsic: Intrinsic) -> bool
    ensures { result ≡ spec.is_fence intrinsic }
{
    match intrinsic {
        Intrinsic::Barrier | Intrinsic::Fence => true,
        _ => false,
    }
}

/// The kind of a list of initialisers, from the kinds of its parts: a number where all are numbers, and
/// else nothing; `None` where one is not known.
#[tactic(auto, using(crate::proofs::Known::all_known_when, crate::proofs::Known::all_known_unless))]
pub fn list_kind(kinds: &[Option<Kind>]) -> Option<Kind>
    ensures { result ≡ spec.list_kind kinds.now }
{
    if !are_known(kinds) {
        return None;
    }
    if all_numbers(kinds) {
        Some(number(IntType::Int))
    } else {
        Some(Kind::Nothing)
    }
}
