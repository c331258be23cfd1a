//! The tree of a unit, with what each of its expressions is.

ghost use Rattle.std.specs.Prelude.{◌≡◌, true, take, length, option_map, IfOk, OnOk};
ghost use Rattle.cl_tree.specs.Syntax.{view, views};
ghost use Rattle.cl_meaning.specs.Declarations.{form_of, word_of};
ghost use Rattle.cl_short_vec.specs.Kinds.{no_names};
ghost use Rattle.cl_short_vec.specs.Marks as spec;
ghost use Rattle.cl_short_vec.specs.View.{mark_of, marks_of, names_of};

use crate::kinds::{
    Kind, called_kind, cast_kind, is_operator, is_vector, joined_kind, pointer_alone, postfix_kind,
    prefix_kind, value_of,
};
use crate::names::{Entry, kind_named, later, within};
use crate::selections::selection_of;
use crate::types::{Vector, vector_type};
use cl_meaning::{binary_of, intrinsic_of, name_of, postfix_of, prefix_of};
use cl_tree::{Form, Tree};
use std::alloc::Global;
use wg_num::{Memory, push};

/// A node with what it is, where it is an expression; any other node is `Kind::Other`.
#[derive(Drop)]
pub struct Marked<'a> {
    pub tree: &'a Tree,
    pub kind: Kind,
    pub parts: Vec<Marked<'a>>,
}

/// The kind of the first of some parts.
#[tactic(auto, using(crate::proofs::Views::mark_out))]
pub(crate) fn front_kind(parts: &[Marked]) -> Kind
    ensures { result ≡ spec.front_kind (marks_of parts.now) }
{
    match parts {
        [] => Kind::Other { known: true },
        [part, ..] => part.kind,
    }
}

/// The last of some parts.
#[tactic(auto, using(crate::proofs::Views::back_is))]
pub(crate) fn back<'a, 'b>(parts: &'b [Marked<'a>]) -> Option<&'b Marked<'a>>
    ensures { option_map (λ m. mark_of m.now) result ≡ spec.back (marks_of parts.now) }
{
    match parts {
        [] => None,
        [.., part] => Some(part),
    }
}

/// The kind of the last of some parts.
#[tactic(auto, using(crate::proofs::Views::mark_out))]
pub(crate) fn back_kind(parts: &[Marked]) -> Kind
    ensures { result ≡ spec.back_kind (marks_of parts.now) }
{
    match back(parts) {
        Some(part) => part.kind,
        None => Kind::Other { known: true },
    }
}

/// The value of the first of some parts that is a vector.
#[tactic(auto, using(crate::proofs::Views::mark_out))]
pub(crate) fn vector_among(parts: &[Marked]) -> Kind
    ensures { result ≡ spec.vector_among (marks_of parts.now) }
{
    for part in parts {
        if is_vector(part.kind) {
            return value_of(part.kind);
        }
    }
    Kind::Other { known: true }
}

/// The vector type that is the first of some parts.
#[tactic(auto, using(crate::proofs::Views::mark_out))]
pub(crate) fn front_type(parts: &[Marked]) -> Option<Vector>
    ensures { result ≡ spec.front_type (marks_of parts.now) }
{
    match parts {
        [] => None,
        [part, ..] => vector_type(part.tree),
    }
}

/// What a node of that production is, from its own words and its parts. `Memory` where memory was refused.
#[tactic(auto, unfolding(crate::specs::Marks::kind_by))]
fn kind_by(
    alloc: Global,
    names: &[Entry],
    form: Form,
    word: &[u8],
    parts: &[Marked],
) -> Result<Kind, Memory>
    ensures { IfOk result (λ k. k ≡ spec.kind_by (names_of names.now) form word.now (marks_of parts.now)) }
{
    let front = front_kind(parts);
    match form {
        Form::VariableNode => Ok(kind_named(names, name_of(word))),
        Form::ParenNode => Ok(front),
        Form::UnaryNode => Ok(prefix_kind(prefix_of(word), front)),
        Form::PostfixNode => postfix_kind(alloc, selection_of(word), postfix_of(word), front),
        Form::CallNode => Ok(called_kind(intrinsic_of(name_of(word)), vector_among(parts))),
        Form::CastNode => Ok(cast_kind(front_type(parts))),
        Form::ExprNode => Ok(pointer_alone(back_kind(parts))),
        Form::AssignNode => Ok(pointer_alone(front)),
        _ => {
            if is_operator(form) {
                return Ok(joined_kind(binary_of(word), front, back_kind(parts)));
            }
            Ok(Kind::Other { known: true })
        }
    }
}

/// The node of a tree with these parts.
#[tactic(auto, using(crate::proofs::Views::node_seen))]
fn mark_node<'a>(
    alloc: Global,
    names: &[Entry<'a>],
    tree: &'a Tree,
    parts: Vec<Marked<'a>>,
) -> Result<Marked<'a>, Memory>
    ensures { IfOk result (λ m. mark_of m ≡ spec.marked_node (names_of names.now) (view tree.now)
        (marks_of parts.entry.items)) }
{
    let kind = kind_by(alloc, names, tree.form, tree.word.bytes(), &parts)?;
    Ok(Marked { tree, kind, parts })
}

/// Marks the parts of a node of that production, in order; what the parts declare stays visible behind them.
#[cycle(mark)]
#[tactic(auto, using(crate::proofs::Stacks::kept_on), unfolding(crate::specs::Marks::marked_parts))]
fn mark_parts<'a>(
    alloc: Global,
    names: &mut Vec<Entry<'a>>,
    form: Form,
    trees: &'a [Tree],
) -> Result<Vec<Marked<'a>>, Memory>
    ensures marked { IfOk result (λ v. marks_of v.items ≡
        spec.marked_parts form (views trees.now) (names_of names.old.items) true (views trees.now)) }
    ensures kept { OnOk result (take (length names.old.items) names.new.items ≡ names.old.items) }
{
    let mut parts = Vec::new(alloc);
    let mut front = true;
    for tree in trees {
        let part = mark_tree(alloc, names, tree)?;
        push(&mut parts, part)?;
        later(names, form, trees, front, tree)?;
        front = false;
    }
    Ok(parts)
}

/// Marks a tree where these names are visible, which are so again behind it.
#[cycle(mark)]
fn mark_tree<'a>(
    alloc: Global,
    names: &mut Vec<Entry<'a>>,
    tree: &'a Tree,
) -> Result<Marked<'a>, Memory>
    ensures marked { IfOk result (λ m. mark_of m ≡ spec.marked (names_of names.old.items) (view tree.now)) }
    ensures kept { OnOk result (names.new.items ≡ names.old.items) }
{
    let depth = names.len();
    within(names, tree.form, tree.word.bytes())?;
    let parts = mark_parts(alloc, names, tree.form, &tree.parts)?;
    names.truncate(depth);
    mark_node(alloc, names, tree, parts)
}

/// The tree of a unit with what each of its expressions is. `Memory` where memory was refused.
pub fn mark_unit<'a>(alloc: Global, unit: &'a Tree) -> Result<Marked<'a>, Memory>
    ensures { IfOk result (λ m. mark_of m ≡ spec.marked no_names (view unit.now)) }
{
    let mut names = Vec::new(alloc);
    mark_tree(alloc, &mut names, unit)
}
