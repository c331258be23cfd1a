//! Declarators at fault (C99, sections 6.7.5 and 6.7.8; OpenCL 1.2, sections 6.5 and 6.8).

ghost use Rattle.std.specs.Prelude.{◌≡◌, ◌&&◌, IfOk, map, not};
ghost use Rattle.cl_tree.specs.Syntax.{view};
ghost use Rattle.cl_meaning.specs.Constants.{constant_of as constant_in};
ghost use Rattle.cl_meaning.specs.Declarations as declarations;
ghost use Rattle.cl_meaning.specs.Kinds as kind_spec;
ghost use Rattle.cl_meaning.specs.Faults as spec;
ghost use Rattle.cl_scope.specs.Declarators.{declarator_view};
ghost use Rattle.cl_faults.specs.View.{looked_of};

use crate::kinds::is_number;
use crate::looked::Looked;
use crate::targets::changes_root;
use cl_meaning::{Declared, Each, Kind, constant_of, same_space};
use cl_model::{Space, product_of};
use cl_scope::{
    Declarator, declarator_in, dims_of, has_list, initialiser_count, is_at_outermost, is_at_unit,
    pointed_space,
};
use cl_tree::{Form, Tree};
use std::alloc::Global;
use wg_num::{Memory, same_type};

/// The declarator that the node is.
#[tactic(auto, using(cl_meaning::proofs::Views::view_out))]
pub(crate) fn declarator_of<'a>(node: Looked<'a>) -> Result<Declarator<'a>, Memory>
    ensures { IfOk result (λ d. declarator_view d ≡ declarations.declarator_in (looked_of node.entry).word
        (looked_of node.entry).first (looked_of node.entry).parts) }
{
    declarator_in(node.tree.word.bytes(), node.tree.first, &node.tree.parts)
}

fn is_no_number(kind: Option<Kind>) -> bool
    ensures { result ≡ spec.given kind (λ a. not (kind_spec.is_number a)) }
{
    match kind {
        Some(kind) => !is_number(kind),
        None => false,
    }
}

fn points_as(declared: Declared, kind: Kind) -> bool
    ensures { result ≡ spec.points_as declared kind }
{
    match kind {
        Kind::Pointer {
            space,
            element,
            each: Each::Element,
            ..
        } => same_space(space, pointed_space(declared)) && same_type(element, declared.of),
        _ => false,
    }
}

fn points_elsewhere(declared: Declared, kind: Option<Kind>) -> bool
    ensures { result ≡ spec.given kind (λ a. not (spec.points_as declared a)) }
{
    match kind {
        Some(kind) => !points_as(declared, kind),
        None => false,
    }
}

/// Whether it is an array of pointers, or its initialiser does not fit what it declares.
pub(crate) fn declarator_misfits(
    declared: Option<Declared>,
    declarator: &Declarator,
    kind: Option<Kind>,
) -> bool
    ensures { result ≡ spec.declarator_misfits declared (declarator_view declarator.now) kind }
{
    let declared = match declared {
        Some(declared) => declared,
        None => return false,
    };
    let listed = has_list(declarator);
    let set = declarator.init.is_some();
    match (declarator.star, declarator.dimensions) {
        (Some(_), 0) => listed || (set && points_elsewhere(declared, kind)),
        (Some(_), _) => true,
        (None, 0) => listed || (set && is_no_number(kind)),
        (None, _) => set && (!listed || is_no_number(kind)),
    }
}

/// Whether what has no star and is to be kept there is declared at the wrong place.
fn is_misplaced(node: Looked, declarator: &Declarator, space: Option<Space>) -> bool
    ensures { result ≡ spec.is_misplaced (looked_of node.entry) (declarator_view declarator.now) space }
{
    let environment = node.environment;
    match space {
        Some(Space::Local) => {
            !(environment.owner.kernel && is_at_outermost(environment)) || declarator.init.is_some()
        }
        Some(Space::Global | Space::Constant) => !is_at_unit(environment),
        _ => false,
    }
}

/// Whether a variable or array is declared where its space is not allowed.
pub(crate) fn local_misplaced(node: Looked, declarator: &Declarator) -> bool
    ensures { result ≡ spec.given (looked_of node.entry).env.declared
        (λ d. not (kind_spec.is_some (declarator_view declarator.now).star) &&
        spec.is_misplaced (looked_of node.entry) (declarator_view declarator.now) d.space) }
{
    match node.environment.declared {
        Some(declared) => {
            declarator.star.is_none() && is_misplaced(node, declarator, declared.space)
        }
        None => false,
    }
}

fn all_constant(trees: &[Tree]) -> bool
    ensures { result ≡ spec.all_constant (map view trees.now) }
{
    for tree in trees {
        if constant_of(tree).is_none() {
            return false;
        }
    }
    true
}

/// Whether all initial values are constant.
#[tactic(auto, using(cl_meaning::proofs::Views::view_out, cl_scope::proofs::Trees::listed_views))]
fn has_constant_values(declarator: &Declarator) -> bool
    ensures { result ≡ spec.all_constant (declarations.initial_values (declarator_view declarator.now).init) }
{
    match declarator.init {
        Some(tree) => match tree.form {
            Form::ListNode => all_constant(&tree.parts),
            _ => constant_of(tree).is_some(),
        },
        None => true,
    }
}

fn is_constant_space(space: Option<Space>) -> bool
    ensures { result ≡ spec.is_constant_space space }
{
    match space {
        Some(Space::Constant) => true,
        _ => false,
    }
}

/// Whether it declares something else at the unit than constants with constant values.
pub(crate) fn no_program_variable(declared: Declared, declarator: &Declarator) -> bool
    ensures { result ≡ spec.no_program_variable declared (declarator_view declarator.now) }
{
    !is_constant_space(declared.space)
        || declarator.star.is_some()
        || declarator.init.is_none()
        || !has_constant_values(declarator)
}

/// Whether the node declares a variable or array where its space is not allowed.
#[tactic(auto, using(cl_meaning::proofs::Views::view_out))]
pub(crate) fn is_local_misplaced(node: Looked) -> Result<bool, Memory>
    ensures { IfOk result (λ b. b ≡ spec.local_misplaced (looked_of node.entry) (looked_of node.entry).form) }
{
    match node.tree.form {
        Form::DeclaratorNode => {
            let declarator = declarator_of(node)?;
            Ok(local_misplaced(node, &declarator))
        }
        _ => Ok(false),
    }
}

/// Whether the node declares something else at the unit than constants with constant values.
#[tactic(auto, using(cl_meaning::proofs::Views::view_out))]
pub(crate) fn is_no_program_variable(node: Looked) -> Result<bool, Memory>
    ensures { IfOk result (λ b. b ≡ spec.program_variable (looked_of node.entry) (looked_of node.entry).form) }
{
    match (node.tree.form, node.environment.declared) {
        (Form::DeclaratorNode, Some(declared)) => {
            let declarator = declarator_of(node)?;
            Ok(is_at_unit(node.environment) && no_program_variable(declared, &declarator))
        }
        _ => Ok(false),
    }
}

/// Whether the node declares a pointer variable without an initialiser, or assigns a pointer of another root.
#[tactic(auto, using(cl_meaning::proofs::Views::view_out))]
pub(crate) fn has_wrong_root(node: Looked) -> Result<bool, Memory>
    ensures { IfOk result (λ b. b ≡ spec.pointer_root (looked_of node.entry) (looked_of node.entry).form) }
{
    match node.tree.form {
        Form::DeclaratorNode => {
            let declarator = declarator_of(node)?;
            Ok(declarator.star.is_some() && declarator.dimensions == 0 && declarator.init.is_none())
        }
        Form::AssignNode => Ok(changes_root(node.tree.word.bytes(), node.kinds)),
        _ => Ok(false),
    }
}

/// Whether an array has no lengths, or more initialisers than elements.
fn has_too_many(alloc: Global, declarator: &Declarator) -> Result<bool, Memory>
    ensures { IfOk result (λ b. b ≡ spec.too_many_initialisers (declarator_view declarator.now)
        (declarations.dims_of (declarator_view declarator.now))) }
{
    match dims_of(alloc, declarator)? {
        Some(lengths) => {
            let elements = product_of(&lengths)?;
            Ok(initialiser_count(declarator) as u64 > elements)
        }
        None => Ok(true),
    }
}

fn is_positive(tree: &Tree) -> bool
    ensures { result ≡ spec.is_positive (constant_in (view tree.now)) }
{
    match constant_of(tree) {
        Some(constant) => constant.value >= 1,
        None => false,
    }
}

fn all_positive(trees: &[Tree]) -> bool
    ensures { result ≡ spec.all_positive (map view trees.now) }
{
    for tree in trees {
        if !is_positive(tree) {
            return false;
        }
    }
    true
}

/// Whether an array's lengths or initialisers, or the sizes of an attribute, are at fault.
#[tactic(auto, using(cl_meaning::proofs::Views::view_out, cl_scope::proofs::Trees::listed_views))]
pub(crate) fn has_wrong_length(alloc: Global, node: Looked) -> Result<bool, Memory>
    ensures { IfOk result (λ b. b ≡ spec.array_length (looked_of node.entry) (looked_of node.entry).form) }
{
    match node.tree.form {
        Form::DeclaratorNode => {
            let declarator = declarator_of(node)?;
            Ok(declarator.dimensions >= 1 && has_too_many(alloc, &declarator)?)
        }
        Form::AttributeNode => Ok(!all_positive(&node.tree.parts)),
        _ => Ok(false),
    }
}
