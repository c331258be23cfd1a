//! Expressions and types without vectors: a component is a variable or an element of its own, and what is added to a
//! pointer to vectors is counted in components.

ghost use Rattle.std.specs.Prelude.{◌≡◌, IfOk};
ghost use Rattle.cl_tree.specs.Syntax.{view, views};
ghost use Rattle.cl_tree.specs.Nodes.{forest1, forest2};
ghost use Rattle.cl_meaning.specs.Declarations.{form_of, word_of};
ghost use Rattle.cl_meaning.specs.Spelling.{name_in, prefix_in};
ghost use Rattle.cl_short_vec.specs.Nodes as nodes;
ghost use Rattle.cl_short_vec.specs.Scalar as spec;
ghost use Rattle.cl_short_vec.specs.View.{mark_of, marks_of};

use crate::kinds::Kind;
use crate::marks::Marked;
use crate::nodes::{
    Span, assigned_at, component_name, constant_word, element_at, further, joined_at, long_at,
    node, one, paren_at, put, scaled, setting_word, span_of, two, variable_at, with_parts,
};
use crate::plain::is_pointed;
use crate::refuse::components_of;
use crate::selections::selection_of;
use crate::steps::is_through;
use crate::types::{Vector, vector_of};
use cl_meaning::{Postfix, Prefix, Setting, is_const, name_of, postfix_of, prefix_of, setting_of};
use cl_tree::{Form, Tree};
use std::alloc::Global;
use wg_num::{Bin, Memory, push};

// ---- types

/// A type's words, with the type of the components in the vector's place. `Memory` where memory was refused, here and
/// below.
fn component_words(alloc: Global, vector: Option<Vector>, word: &[u8]) -> Result<Vec<u8>, Memory>
    ensures { IfOk result (λ v. v.items ≡ spec.component_words vector word.now) }
{
    match vector {
        Some(vector) => constant_word(alloc, is_const(word), vector.of),
        None => {
            let mut text = Vec::new(alloc);
            put(&mut text, word)?;
            Ok(text)
        }
    }
}

/// The node of a type, with the type of the components in the vector's place.
#[tactic(auto, using(cl_meaning::proofs::Views::view_out))]
fn component_typed(alloc: Global, tree: &Tree, parts: Vec<Tree>) -> Result<Tree, Memory>
    ensures { IfOk result (λ t. view t ≡ spec.component_typed (view tree.now) (views parts.items)) }
{
    let word = tree.word.bytes();
    let words = component_words(alloc, vector_of(word), word)?;
    node(alloc, tree.form, &words, span_of(tree), parts)
}

// ---- nodes, by what their parts were and what they are now

#[tactic(auto, using(cl_meaning::proofs::Views::view_out))]
fn leaf_by(alloc: Global, tree: &Tree) -> Result<Tree, Memory>
    ensures { IfOk result (λ t. view t ≡ spec.leaf_by (form_of (view tree.now)) (view tree.now)) }
{
    match tree.form {
        Form::TypeNode => component_typed(alloc, tree, Vec::new(alloc)),
        _ => with_parts(alloc, tree, Vec::new(alloc)),
    }
}

/// A pointer to vectors that is counted up or down.
fn counted(
    alloc: Global,
    op: Bin,
    vector: Vector,
    span: Span,
    pointer: Tree,
) -> Result<Tree, Memory>
    ensures { IfOk result (λ t. view t ≡ spec.counted op vector span (view pointer)) }
{
    let word = setting_word(alloc, op)?;
    let number = long_at(alloc, vector.count, span)?;
    let set = assigned_at(alloc, &word, span, pointer, number)?;
    paren_at(alloc, span, set)
}

fn opposite(op: Bin) -> Bin
    ensures { result ≡ spec.opposite op }
{
    match op {
        Bin::Add => Bin::Sub,
        _ => Bin::Add,
    }
}

/// A pointer to vectors before it is counted up or down.
fn counted_behind(
    alloc: Global,
    op: Bin,
    vector: Vector,
    span: Span,
    pointer: Tree,
) -> Result<Tree, Memory>
    ensures { IfOk result (λ t. view t ≡ spec.counted_behind op vector span (view pointer)) }
{
    let set = counted(alloc, op, vector, span, pointer)?;
    let number = long_at(alloc, vector.count, span)?;
    let before = joined_at(alloc, opposite(op), span, set, number)?;
    paren_at(alloc, span, before)
}

/// The node of a tree with that one part.
fn with_one(alloc: Global, tree: &Tree, part: Tree) -> Result<Tree, Memory>
    ensures { IfOk result (λ t. view t ≡ nodes.with_parts (view tree.now) (forest1 (view part))) }
{
    let parts = one(alloc, part)?;
    with_parts(alloc, tree, parts)
}

/// The node of a tree with these two parts.
fn with_two(alloc: Global, tree: &Tree, a: Tree, b: Tree) -> Result<Tree, Memory>
    ensures { IfOk result (λ t. view t ≡ nodes.with_parts (view tree.now) (forest2 (view a) (view b))) }
{
    let parts = two(alloc, a, b)?;
    with_parts(alloc, tree, parts)
}

/// An operator before its operand.
fn prefixed(
    alloc: Global,
    prefix: Option<Prefix>,
    kind: Kind,
    tree: &Tree,
    part: Tree,
) -> Result<Tree, Memory>
    ensures { IfOk result (λ t. view t ≡ spec.prefixed prefix kind (view tree.now) (view part)) }
{
    let span = span_of(tree);
    match (prefix, kind) {
        (Some(Prefix::Content), Kind::Pointer { .. }) => {
            let pointer = paren_at(alloc, span, part)?;
            let index = long_at(alloc, 0, span)?;
            element_at(alloc, span, pointer, index)
        }
        (Some(Prefix::Step(op)), Kind::Pointer { vector, .. }) => {
            counted(alloc, op, vector, span, part)
        }
        _ => with_one(alloc, tree, part),
    }
}

/// An operator behind its operand.
fn postfixed(
    alloc: Global,
    postfix: Option<Postfix>,
    kind: Kind,
    tree: &Tree,
    part: Tree,
) -> Result<Tree, Memory>
    ensures { IfOk result (λ t. view t ≡ spec.postfixed postfix kind (view tree.now) (view part)) }
{
    match (postfix, kind) {
        (Some(Postfix::Step(op)), Kind::Pointer { vector, .. }) => {
            counted_behind(alloc, op, vector, span_of(tree), part)
        }
        _ => with_one(alloc, tree, part),
    }
}

/// A node of one part that was of that kind; a selection of several components is the place of which they are.
#[tactic(auto, using(cl_meaning::proofs::Views::view_out))]
fn one_by(alloc: Global, kind: Kind, tree: &Tree, part: Tree) -> Result<Tree, Memory>
    ensures { IfOk result (λ t. view t ≡ spec.one_by (form_of (view tree.now)) kind (view tree.now) (view part)) }
{
    let word = tree.word.bytes();
    match tree.form {
        Form::TypeNode => {
            let parts = one(alloc, part)?;
            component_typed(alloc, tree, parts)
        }
        Form::UnaryNode => prefixed(alloc, prefix_of(word), kind, tree, part),
        Form::PostfixNode => {
            if is_pointed(word) {
                return Ok(part);
            }
            postfixed(alloc, postfix_of(word), kind, tree, part)
        }
        _ => with_one(alloc, tree, part),
    }
}

/// What is behind `+=` and `-=`.
fn moved_by(
    alloc: Global,
    setting: Option<Setting>,
    vector: Vector,
    number: Tree,
) -> Result<Tree, Memory>
    ensures { IfOk result (λ t. view t ≡ spec.moved_by setting vector (view number)) }
{
    match setting {
        Some(Setting::With(_)) => scaled(alloc, vector, number),
        _ => Ok(number),
    }
}

/// A node of two parts that were of these kinds: an element, or a number beside a pointer.
#[tactic(auto, using(cl_meaning::proofs::Views::view_out))]
fn two_by(
    alloc: Global,
    front: Kind,
    back: Kind,
    tree: &Tree,
    a: Tree,
    b: Tree,
) -> Result<Tree, Memory>
    ensures { IfOk result (λ t. view t ≡ spec.two_by (form_of (view tree.now)) front back (view tree.now) (view a)
        (view b)) }
{
    match (tree.form, front, back) {
        (Form::PostfixNode, Kind::Pointer { vector, .. }, _) => {
            let index = scaled(alloc, vector, b)?;
            element_at(alloc, span_of(tree), a, index)
        }
        (Form::AssignNode, Kind::Pointer { vector, .. }, Kind::Other { .. }) => {
            let moved = moved_by(alloc, setting_of(tree.word.bytes()), vector, b)?;
            with_two(alloc, tree, a, moved)
        }
        (Form::SumNode, Kind::Pointer { vector, .. }, Kind::Other { .. }) => {
            let moved = scaled(alloc, vector, b)?;
            with_two(alloc, tree, a, moved)
        }
        (Form::SumNode, Kind::Other { .. }, Kind::Pointer { vector, .. }) => {
            let moved = scaled(alloc, vector, a)?;
            with_two(alloc, tree, moved, b)
        }
        _ => with_two(alloc, tree, a, b),
    }
}

// ---- components

fn alone_in(components: &[usize]) -> Option<usize>
    ensures { result ≡ spec.alone_in components.now }
{
    match components {
        [component] => Some(*component),
        _ => None,
    }
}

/// The component that a selection of one component selects.
#[tactic(auto, using(crate::proofs::Views::node_seen))]
fn one_component(alloc: Global, node: &Marked) -> Result<Option<usize>, Memory>
    ensures { IfOk result (λ o. o ≡ spec.one_component (mark_of node.now)) }
{
    match node.tree.form {
        Form::PostfixNode => {
            if selection_of(node.tree.word.bytes()).is_none() {
                return Ok(None);
            }
            let components = components_of(alloc, node)?;
            Ok(alone_in(&components))
        }
        _ => Ok(None),
    }
}

/// A component of an element whose pointer and index are these.
#[tactic(auto, using(cl_meaning::proofs::Views::view_out))]
fn element_component(
    alloc: Global,
    kind: Kind,
    component: usize,
    span: Span,
    tree: &Tree,
    a: Tree,
    b: Tree,
) -> Result<Tree, Memory>
    ensures { IfOk result (λ t. view t ≡ spec.element_component (form_of (view tree.now)) kind component span
        (view tree.now) (view a) (view b)) }
{
    match (tree.form, kind) {
        (Form::PostfixNode, Kind::Pointer { vector, .. }) => {
            let first = scaled(alloc, vector, b)?;
            let index = further(alloc, component, first)?;
            element_at(alloc, span, a, index)
        }
        _ => with_two(alloc, tree, a, b),
    }
}

/// A component of the element at the start of a pointer.
#[tactic(auto, using(cl_meaning::proofs::Views::view_out))]
fn content_component(
    alloc: Global,
    kind: Kind,
    component: usize,
    span: Span,
    tree: &Tree,
    part: Tree,
) -> Result<Tree, Memory>
    ensures { IfOk result (λ t. view t ≡ spec.content_component (form_of (view tree.now))
        (prefix_in (word_of (view tree.now))) kind component span (view tree.now) (view part)) }
{
    match (tree.form, prefix_of(tree.word.bytes()), kind) {
        (Form::UnaryNode, Some(Prefix::Content), Kind::Pointer { .. }) => {
            let pointer = paren_at(alloc, span_of(tree), part)?;
            let first = long_at(alloc, 0, span_of(tree))?;
            let index = further(alloc, component, first)?;
            element_at(alloc, span, pointer, index)
        }
        (Form::PostfixNode, _, _) => paren_at(alloc, span_of(tree), part),
        _ => with_one(alloc, tree, part),
    }
}

/// The component of a variable, for what has that span.
#[tactic(auto, using(cl_meaning::proofs::Views::view_out))]
fn variable_component(
    alloc: Global,
    component: usize,
    span: Span,
    tree: &Tree,
) -> Result<Tree, Memory>
    ensures { IfOk result (λ t. view t ≡
        nodes.variable_at (nodes.component_name (name_in (word_of (view tree.now))) component) span) }
{
    let name = component_name(alloc, name_of(tree.word.bytes()), component)?;
    variable_at(alloc, &name, span)
}

// ---- expressions

/// An expression or a type without vectors.
#[cycle(scalar)]
#[tactic(auto, using(crate::proofs::Views::counted_parts), unfolding(crate::specs::Scalar::scalar))]
pub(crate) fn scalar(alloc: Global, node: &Marked) -> Result<Tree, Memory>
    ensures { IfOk result (λ t. view t ≡ spec.scalar (mark_of node.now)) }
{
    match node.parts.as_slice() {
        [] => leaf_by(alloc, node.tree),
        [a] => match one_component(alloc, node)? {
            Some(component) => component_at(alloc, component, span_of(node.tree), a),
            None => {
                let part = scalar(alloc, a)?;
                one_by(alloc, a.kind, node.tree, part)
            }
        },
        [a, b] => {
            let front = scalar(alloc, a)?;
            let back = scalar(alloc, b)?;
            two_by(alloc, a.kind, b.kind, node.tree, front, back)
        }
        [_, _, _, ..] => {
            let parts = scalars(alloc, &node.parts)?;
            with_parts(alloc, node.tree, parts)
        }
    }
}

/// Expressions and types without vectors, in order.
#[cycle(scalar)]
pub(crate) fn scalars(alloc: Global, nodes: &[Marked]) -> Result<Vec<Tree>, Memory>
    ensures { IfOk result (λ v. views v.items ≡ spec.scalars (marks_of nodes.now)) }
{
    let mut trees = Vec::new(alloc);
    for node in nodes {
        let tree = scalar(alloc, node)?;
        push(&mut trees, tree)?;
    }
    Ok(trees)
}

/// A component of a variable or an element, for what has that span.
#[cycle(scalar)]
#[tactic(auto, using(crate::proofs::Views::counted_parts), unfolding(crate::specs::Scalar::component_at))]
fn component_at(alloc: Global, component: usize, span: Span, node: &Marked) -> Result<Tree, Memory>
    ensures { IfOk result (λ t. view t ≡ spec.component_at component span (mark_of node.now)) }
{
    match node.parts.as_slice() {
        [] => variable_component(alloc, component, span, node.tree),
        [a] => {
            if is_through(node.tree) {
                return component_at(alloc, component, span, a);
            }
            let part = scalar(alloc, a)?;
            content_component(alloc, a.kind, component, span, node.tree, part)
        }
        [a, b] => {
            let front = scalar(alloc, a)?;
            let back = scalar(alloc, b)?;
            element_component(alloc, a.kind, component, span, node.tree, front, back)
        }
        [_, _, _, ..] => {
            let parts = scalars(alloc, &node.parts)?;
            with_parts(alloc, node.tree, parts)
        }
    }
}
