//! One component of a vector expression, whose leaves are in helping variables.

ghost use Rattle.std.specs.Prelude.{◌≡◌, option_map, IfOk};
ghost use Rattle.cl_tree.specs.Syntax.{view, views};
ghost use Rattle.cl_short_vec.specs.Parts as spec;
ghost use Rattle.cl_short_vec.specs.View.{mark_of, marks_of, assigned_from};

use crate::kinds::Kind;
use crate::made::{Made, count_in, made_of, type_in};
use crate::marks::{Marked, front_kind};
use crate::nodes::{
    Span, cast_at, component_joined, helper, helping_component, node, signed_at, span_of,
    variable_at,
};
use crate::refuse::selected_in;
use crate::roles::is_paren;
use crate::selections::selection_of;
use cl_tree::{Form, Tree};
use std::alloc::Global;
use wg_num::{Bin, IntType, Memory, push};

/// A value that is set: behind an operator, the old components of a target are joined with it.
#[derive(Drop)]
pub struct Assigned<'b, 'a> {
    pub operator: Option<Bin>,
    pub of: IntType,
    pub target: Span,
    pub components: Vec<usize>,
    pub value: &'b Marked<'a>,
}

/// How many components items give together.
#[cycle(width)]
#[tactic(auto, unfolding(crate::specs::Parts::item_width))]
fn item_width(parts: &[Marked]) -> Result<usize, Memory>
    ensures { IfOk result (λ n. n ≡ spec.item_width (marks_of parts.now)) }
{
    match parts {
        [] => Ok(0),
        [first, others @ ..] => {
            let width = width_of(first)?;
            width
                .checked_add(count_in(front_kind(others)))
                .ok_or(Memory)
        }
    }
}

/// How many components an operand gives, or the items of a list together. `Memory` where the number has no room.
#[cycle(width)]
#[tactic(auto, using(crate::proofs::Views::mark_out), unfolding(crate::specs::Parts::width_of))]
fn width_of(node: &Marked) -> Result<usize, Memory>
    ensures { IfOk result (λ n. n ≡ spec.width_of (mark_of node.now)) }
{
    match made_of(true, node.tree, node.kind) {
        Made::Items => item_width(&node.parts),
        _ => Ok(count_in(node.kind)),
    }
}

fn chosen_at(numbers: Option<Vec<usize>>, component: usize) -> usize
    ensures { result ≡ spec.chosen_at (option_map (λ v. v.items) numbers) component }
{
    match numbers {
        Some(numbers) => numbers.get(component).copied().unwrap_or(0),
        None => component,
    }
}

fn selection_by(
    alloc: Global,
    selection: Option<&[u8]>,
    kind: Kind,
) -> Result<Option<Vec<usize>>, Memory>
    ensures { IfOk result (λ o. option_map (λ v. v.items) o ≡
        spec.selection_by (option_map (λ n. n.now) selection.entry) kind) }
{
    match selection {
        Some(name) => selected_in(alloc, kind, name),
        None => Ok(None),
    }
}

/// The component of its first part that a selection has at that number.
#[tactic(auto, using(cl_meaning::proofs::Views::view_out))]
fn selected_at(
    alloc: Global,
    tree: &Tree,
    parts: &[Marked],
    component: usize,
) -> Result<usize, Memory>
    ensures { IfOk result (λ c. c ≡ spec.selected_at (view tree.now) (marks_of parts.now) component) }
{
    let numbers = selection_by(alloc, selection_of(tree.word.bytes()), front_kind(parts))?;
    Ok(chosen_at(numbers, component))
}

fn filled_at(width: usize, component: usize) -> usize
    ensures { result ≡ spec.filled_at width component }
{
    if width == 1 { 0 } else { component }
}

/// A number, in a helping variable without components.
fn number_part(alloc: Global, tree: &Tree) -> Result<Tree, Memory>
    ensures { IfOk result (λ t. view t ≡ spec.number_part (view tree.now)) }
{
    let span = span_of(tree);
    let name = helper(alloc, span)?;
    variable_at(alloc, &name, span)
}

/// That component of items, of which the first may be several.
#[cycle(part)]
#[tactic(auto, using(crate::proofs::Slices::item_alone), unfolding(crate::specs::Parts::item_part))]
fn item_part(alloc: Global, parts: &[Marked], tree: &Tree, component: usize) -> Result<Tree, Memory>
    ensures { IfOk result (λ t. view t ≡ spec.item_part (marks_of parts.now) (view tree.now) component) }
{
    match parts {
        [] => number_part(alloc, tree),
        [items] => part_in(alloc, true, items, component),
        [items, last, ..] => {
            let width = width_of(items)?;
            if component < width {
                return part_in(alloc, true, items, component);
            }
            part_in(alloc, false, last, component - width)
        }
    }
}

/// That component of the first part.
#[cycle(part)]
#[tactic(auto, unfolding(crate::specs::Parts::front_part))]
fn front_part(
    alloc: Global,
    parts: &[Marked],
    tree: &Tree,
    component: usize,
) -> Result<Tree, Memory>
    ensures { IfOk result (λ t. view t ≡ spec.front_part (marks_of parts.now) (view tree.now) component) }
{
    match parts {
        [] => number_part(alloc, tree),
        [front, ..] => part_in(alloc, false, front, component),
    }
}

/// That component of the second part.
#[cycle(part)]
#[tactic(auto, unfolding(crate::specs::Parts::second_part))]
fn second_part(
    alloc: Global,
    parts: &[Marked],
    tree: &Tree,
    component: usize,
) -> Result<Tree, Memory>
    ensures { IfOk result (λ t. view t ≡ spec.second_part (marks_of parts.now) (view tree.now) component) }
{
    match parts {
        [] => number_part(alloc, tree),
        [_] => number_part(alloc, tree),
        [_, second, ..] => part_in(alloc, false, second, component),
    }
}

/// That component of each part.
#[cycle(part)]
#[tactic(auto, unfolding(crate::specs::Parts::all_parts))]
fn all_parts(alloc: Global, parts: &[Marked], component: usize) -> Result<Vec<Tree>, Memory>
    ensures { IfOk result (λ v. views v.items ≡ spec.all_parts (marks_of parts.now) component) }
{
    let mut list = Vec::new(alloc);
    for part in parts {
        let tree = part_in(alloc, false, part, component)?;
        push(&mut list, tree)?;
    }
    Ok(list)
}

/// That component of the first part that is a list in parentheses.
#[cycle(part)]
#[tactic(auto, using(crate::proofs::Views::node_seen), unfolding(crate::specs::Parts::list_part))]
fn list_part(alloc: Global, parts: &[Marked], tree: &Tree, component: usize) -> Result<Tree, Memory>
    ensures { IfOk result (λ t. view t ≡ spec.list_part (marks_of parts.now) (view tree.now) component) }
{
    for part in parts {
        if is_paren(part.tree.form) {
            return inside_part(alloc, part, component);
        }
    }
    number_part(alloc, tree)
}

/// That component of a list in parentheses.
#[cycle(part)]
#[tactic(auto, using(crate::proofs::Views::mark_out), unfolding(crate::specs::Parts::inside_part))]
fn inside_part(alloc: Global, list: &Marked, component: usize) -> Result<Tree, Memory>
    ensures { IfOk result (λ t. view t ≡ spec.inside_part (mark_of list.now) component) }
{
    filled_part(alloc, &list.parts, list.tree, component)
}

/// That component of a list, of which one number alone fills all components.
#[cycle(part)]
#[tactic(auto, unfolding(crate::specs::Parts::filled_part))]
fn filled_part(
    alloc: Global,
    parts: &[Marked],
    tree: &Tree,
    component: usize,
) -> Result<Tree, Memory>
    ensures { IfOk result (λ t. view t ≡ spec.filled_part (marks_of parts.now) (view tree.now) component) }
{
    match parts {
        [] => number_part(alloc, tree),
        [items, ..] => {
            let width = width_of(items)?;
            part_in(alloc, true, items, filled_at(width, component))
        }
    }
}

/// That component of an operand, or of the items of a list where `listed` says so.
#[cycle(part)]
#[tactic(auto, using(crate::proofs::Views::node_seen), unfolding(crate::specs::Parts::part_in))]
fn part_in(alloc: Global, listed: bool, operand: &Marked, component: usize) -> Result<Tree, Memory>
    ensures { IfOk result (λ t. view t ≡ spec.part_in listed (mark_of operand.now) component) }
{
    let (tree, parts) = (operand.tree, operand.parts.as_slice());
    let (of, span) = (type_in(operand.kind), span_of(tree));
    match made_of(listed, tree, operand.kind) {
        Made::Number => number_part(alloc, tree),
        Made::Items => item_part(alloc, parts, tree, component),
        Made::Inside => front_part(alloc, parts, tree, component),
        Made::Signed(op) => {
            let operand = front_part(alloc, parts, tree, component)?;
            let signed = signed_at(alloc, op, span, operand)?;
            cast_at(alloc, of, span, signed)
        }
        Made::Selected => {
            let chosen = selected_at(alloc, tree, parts, component)?;
            front_part(alloc, parts, tree, chosen)
        }
        Made::Joined(op) => {
            let left = front_part(alloc, parts, tree, component)?;
            let right = second_part(alloc, parts, tree, component)?;
            component_joined(alloc, op, of, span, left, right)
        }
        Made::Called => {
            let arguments = all_parts(alloc, parts, component)?;
            node(alloc, Form::CallNode, tree.word.bytes(), span, arguments)
        }
        Made::Listed => list_part(alloc, parts, tree, component),
        _ => helping_component(alloc, span, component),
    }
}

/// The value of that number that is set. `Memory` where memory was refused.
#[tactic(auto, using(cl_meaning::proofs::Views::view_out))]
pub(crate) fn assigned_part(
    alloc: Global,
    assigned: &Assigned,
    number: usize,
) -> Result<Tree, Memory>
    ensures { IfOk result (λ t. view t ≡ spec.assigned_part (assigned_from assigned.now) number) }
{
    let value = part_in(alloc, false, assigned.value, number)?;
    match assigned.operator {
        None => Ok(value),
        Some(op) => {
            let component = assigned.components.get(number).copied().unwrap_or(0);
            let old = helping_component(alloc, assigned.target, component)?;
            component_joined(alloc, op, assigned.of, assigned.target, old, value)
        }
    }
}
