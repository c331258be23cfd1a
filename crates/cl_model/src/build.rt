//! Parts of the programs of the laws.

ghost use Rattle.std.specs.Prelude.{◌≡◌, [], ◌∷◌, ◌++◌, IfOk};
ghost use Rattle.cl_model.specs.View.{expression_of};
ghost use Rattle.cl_model.specs.Tree.{Apply, Load, Store, single, pair};

use crate::boxes::boxed_beside;
use crate::expression::{self, assign};
use crate::program::{Expr, Root, Target};
use std::alloc::Global;
use wg_num::{IntType, Memory};

/// A list with one item more.
pub fn also<T: Drop>(mut list: Vec<T>, item: T) -> Result<Vec<T>, Memory>
    ensures { IfOk result (λ v. v.items ≡ list.items ++ item ∷ []) }
{
    match list.push(item) {
        Ok(()) => Ok(list),
        Err(_) => Err(Memory),
    }
}

/// A load of an int.
pub fn load(alloc: Global, site: u32, root: Root, index: Expr) -> Result<Expr, Memory>
    ensures { IfOk result (λ e. expression_of e ≡ Apply (Load site IntType.Int root)
        (single (expression_of index))) }
{
    expression::load(alloc, site, IntType::Int, root, index)
}

/// An assignment to an int element.
pub fn store(alloc: Global, site: u32, root: Root, index: Expr, value: Expr) -> Result<Expr, Memory>
    ensures { IfOk result (λ e. expression_of e ≡ Apply (Store site IntType.Int root)
        (pair (expression_of index) (expression_of value))) }
{
    let (index, value) = boxed_beside(alloc, index, value)?;
    let target = Target::Element {
        site,
        element: IntType::Int,
        root,
        index,
    };
    assign(alloc, target, value)
}
