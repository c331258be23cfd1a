//! From a unit to the unit without vectors that stands for it, or to the condition on vectors that refuses it.

ghost use Rattle.std.specs.Prelude.{◌≡◌, false, true, None, IfOk, IfErr};
ghost use Rattle.cl_tree.specs.Syntax.{view};
ghost use Rattle.cl_tree.specs.Selections.{has_selection};
ghost use Rattle.cl_short_vec.specs.Answers.{IsForm, IsVectorRefusal};
ghost use Rattle.cl_short_vec.specs.Faults.{refusal_of};
ghost use Rattle.cl_short_vec.specs.Plain.{has_vectors as has_vectors_of};
ghost use Rattle.cl_short_vec.specs.Unit.{scalarised_of};

use crate::marks::mark_unit;
use crate::plain::has_vectors;
use crate::refuse::{VectorRefusal, told};
use crate::unit::scalarised;
use cl_tree::Tree;
use std::alloc::Global;
use wg_num::Memory;

/// Why a unit has no unit without vectors.
#[derive(Clone, Copy, PartialEq, Eq, Debug)]
pub enum VectorError {
    /// A condition of E501 to E503 stands at a node.
    Refused(VectorRefusal),
    Memory,
}

// The unit without vectors of a unit with vectors, or the condition that is told of it.
fn form_of(alloc: Global, unit: &Tree) -> Result<Result<Tree, VectorRefusal>, Memory>
    requires { has_vectors_of (view unit.now) ≡ true }
    ensures { IfOk result (IsForm (view unit.now)) }
{
    let whole = mark_unit(alloc, unit)?;
    match told(alloc, &whole)? {
        Some(refusal) => Ok(Err(refusal)),
        None => Ok(Ok(scalarised(alloc, &whole)?)),
    }
}

/// The unit without vectors that stands for a unit (OpenCL 1.2, sections 6.1.2, 6.1.6, 6.1.7 and 6.3): the unit itself
/// where it names no vector type and selects nothing. A vector statement is a block of lines there, one for each of its
/// steps, and a vector variable is one variable for each component.
///
/// `Refused` with the first condition of E501 to E503 where one stands at a node of the unit. `Memory` where memory was
/// refused, or where a number has no room.
#[tactic(auto, using(crate::proofs::Plainness::none_selected, crate::proofs::Unselected::unselected))]
pub fn scalarise(alloc: Global, unit: Tree) -> Result<Tree, VectorError>
    ensures sound { IfOk result (λ t. refusal_of (view unit) ≡ None) }
    ensures form { IfOk result (λ t. view t ≡ scalarised_of (view unit)) }
    ensures selections { IfOk result (λ t. has_selection (view t) ≡ false) }
    ensures refused { IfErr result (IsVectorRefusal (view unit)) }
{
    if !has_vectors(&unit) {
        return Ok(unit);
    }
    match form_of(alloc, &unit) {
        Ok(Ok(form)) => Ok(form),
        Ok(Err(refusal)) => Err(VectorError::Refused(refusal)),
        Err(Memory) => Err(VectorError::Memory),
    }
}
