//! Names, numbers and parentheses.

ghost use Rattle.std.specs.Prelude.{◌≡◌, IfOk, List, map, option_map, pos};
ghost use Rattle.cl_meaning.specs.Typed as typed;
ghost use Rattle.cl_meaning.specs.Expressions as expressions;
ghost use Rattle.wg_num.specs.declared.types.Place as places;
ghost use Rattle.cl_fragment.specs.View.{piece_of, what_of, built_of};

use crate::boxes::as_value;
use crate::fragment::{Piece, What};
use crate::parts::only;
use crate::sites::{element, take_site};
use crate::values::literal;
use cl_meaning::Meaning;
use cl_model::Target;
use cl_token::Literal;
use std::alloc::Global;
use wg_num::{IntType, Memory, Place};

/// What a name with this meaning stands for (C99, section 6.5.1).
pub(crate) fn name(
    alloc: Global,
    place: Place,
    sites: &mut Vec<Place>,
    meaning: Option<Meaning>,
) -> Result<What, Memory>
    ensures { IfOk result (λ w. expressions.name_made place sites.old.items meaning ≡ built_of w sites.new.items) }
{
    match meaning {
        Some(Meaning::Scalar { number, .. }) => Ok(What::Target(Target::Var(number))),
        Some(Meaning::Pointer { number, .. }) => Ok(What::Target(Target::Var(number))),
        Some(
            Meaning::Object {
                element: of,
                root,
                ..
            },
        ) => {
            let site = take_site(sites, place)?;
            let target = element(alloc, site, of, root, literal(0, IntType::Long))?;
            Ok(What::Target(target))
        }
        Some(Meaning::Array { .. }) => Ok(What::Offset(None)),
        _ => Ok(What::Nothing),
    }
}

/// What a flag of a memory fence stands for (OpenCL 1.2, section 6.12.9).
pub(crate) fn flag(alloc: Global) -> Result<What, Memory>
    ensures { IfOk result (λ w. what_of w ≡ typed.value (expressions.literal (pos 0) IntType.Uint)) }
{
    as_value(alloc, literal(0, IntType::Uint))
}

/// What a number stands for.
pub(crate) fn number(alloc: Global, literal_of: Option<Literal>) -> Result<What, Memory>
    ensures { IfOk result (λ w. what_of w ≡
        expressions.number_what (option_map (λ l. (l.of, l.value)) literal_of)) }
{
    match literal_of {
        None => Ok(What::Nothing),
        Some(l) => as_value(alloc, literal(i128::from(l.value), l.of)),
    }
}

/// What a truth word stands for (OpenCL 1.2, section 6.1.1).
pub(crate) fn truth(alloc: Global, value: Option<i128>) -> Result<What, Memory>
    ensures { IfOk result (λ w. what_of w ≡ expressions.truth_what value) }
{
    match value {
        None => Ok(What::Nothing),
        Some(value) => as_value(alloc, literal(value, IntType::Int)),
    }
}

/// What an expression in parentheses stands for (C99, section 6.5.1).
pub(crate) fn only_part(pieces: Vec<Piece>) -> What
    ensures { (sites : List places.Place) → expressions.only_made sites (map piece_of pieces.items) ≡
        built_of result sites }
{
    match only(pieces) {
        None => What::Nothing,
        Some(a) => a.what,
    }
}
