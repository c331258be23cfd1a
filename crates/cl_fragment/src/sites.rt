//! Sites, and the targets that have one.

ghost use Rattle.std.specs.Prelude.{◌≡◌, ◌∷◌, ◌++◌, [], length, IfOk, OnOk};
ghost use Rattle.cl_model.specs.View.{expression_of};
ghost use Rattle.cl_meaning.specs.Typed.{element as element_at};
ghost use Rattle.cl_fragment.specs.View.{target_of};

use cl_model::{Expr, Root, Target};
use std::alloc::Global;
use wg_num::{IntType, Memory, Place};

/// The number of the next site, which is at this place; it fails for want of memory or of numbers.
pub(crate) fn take_site(sites: &mut Vec<Place>, place: Place) -> Result<u32, Memory>
    ensures number { IfOk result (λ n. n ≡ length sites.old.items) }
    ensures sites { OnOk result (sites.new.items ≡ sites.old.items ++ place ∷ []) }
{
    let Ok(number) = u32::try_from(sites.len()) else {
        return Err(Memory);
    };
    match sites.push(place) {
        Ok(()) => Ok(number),
        Err(_) => Err(Memory),
    }
}

/// An element of an object.
pub(crate) fn element(
    alloc: Global,
    site: u32,
    element: IntType,
    root: Root,
    index: Expr,
) -> Result<Target, Memory>
    ensures { IfOk result (λ t. target_of t ≡ element_at site element root (expression_of index)) }
{
    match Box::new(alloc, index) {
        Ok(index) => Ok(Target::Element {
            site,
            element,
            root,
            index,
        }),
        Err(_) => Err(Memory),
    }
}
