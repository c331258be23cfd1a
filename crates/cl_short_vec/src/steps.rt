//! What a vector statement does, step by step.

ghost use Rattle.std.specs.Prelude.{◌≡◌, ◌++◌, IfOk, OnOk, map};
ghost use Rattle.cl_tree.specs.Syntax.{view};
ghost use Rattle.cl_short_vec.specs.Order as spec;
ghost use Rattle.cl_short_vec.specs.View.{mark_of, marks_of, named_of, steps_from};

use crate::kinds::{Kind, Reach};
use crate::made::{Made, count_in, made_of, type_in};
use crate::marks::{Marked, vector_among};
use crate::nodes::{Span, span_of};
use crate::refuse::components_of;
use crate::roles::is_paren;
use crate::selections::{all_components, selection_of};
use crate::types::Vector;
use cl_meaning::{Setting, name_of};
use cl_tree::{Form, Tree};
use std::alloc::Global;
use wg_num::{Bin, IntType, Memory, push};

/// A variable of the unit, where it stands.
#[derive(Clone, Copy)]
pub struct Variable<'a> {
    pub name: &'a [u8],
    pub span: Span,
}

/// A step of a vector statement (OpenCL 1.2, section 6.3, component by component).
#[derive(Clone, Copy)]
pub enum Step<'b, 'a> {
    /// Evaluates where an element stands.
    Offset {
        element: &'b Marked<'a>,
    },
    /// Evaluates a number, as one of that type.
    Number {
        of: IntType,
        number: &'b Marked<'a>,
    },
    /// Takes a component of that type of a variable.
    Copy {
        of: IntType,
        variable: Variable<'a>,
        component: usize,
    },
    /// Loads a component of an element.
    Load {
        element: &'b Marked<'a>,
        component: usize,
    },
    /// Sets a component of a variable to a value, by its number.
    Set {
        variable: Variable<'a>,
        component: usize,
        value: usize,
    },
    /// Stores a value, by its number, to a component of an element.
    Store {
        element: &'b Marked<'a>,
        component: usize,
        value: usize,
    },
}

/// The variable that a tree names.
#[tactic(auto, using(cl_meaning::proofs::Views::view_out))]
fn named_by<'a>(tree: &'a Tree) -> Variable<'a>
    ensures { named_of result ≡ spec.named_by (view tree.now) }
{
    Variable {
        name: name_of(tree.word.bytes()),
        span: span_of(tree),
    }
}

// ---- leaves

fn push_loads<'b, 'a>(
    steps: &mut Vec<Step<'b, 'a>>,
    element: &'b Marked<'a>,
    components: &[usize],
) -> Result<(), Memory>
    ensures { OnOk result (steps_from steps.new.items ≡
        steps_from steps.old.items ++ spec.loads (mark_of element.now) components.now) }
{
    for component in components {
        let component = *component;
        push(steps, Step::Load { element, component })?;
    }
    Ok(())
}

fn push_copies<'b, 'a>(
    steps: &mut Vec<Step<'b, 'a>>,
    of: IntType,
    variable: Variable<'a>,
    components: &[usize],
) -> Result<(), Memory>
    ensures { OnOk result (steps_from steps.new.items ≡
        steps_from steps.old.items ++ spec.copies of (named_of variable.entry) components.now) }
{
    for component in components {
        let component = *component;
        push(
            steps,
            Step::Copy {
                of,
                variable,
                component,
            },
        )?;
    }
    Ok(())
}

fn push_element<'b, 'a>(
    alloc: Global,
    steps: &mut Vec<Step<'b, 'a>>,
    element: &'b Marked<'a>,
) -> Result<(), Memory>
    ensures { OnOk result (steps_from steps.new.items ≡
        steps_from steps.old.items ++ spec.element_steps (mark_of element.now)) }
{
    let components = all_components(alloc, count_in(element.kind))?;
    push(steps, Step::Offset { element })?;
    push_loads(steps, element, &components)
}

fn push_variable<'b, 'a>(
    alloc: Global,
    steps: &mut Vec<Step<'b, 'a>>,
    node: &'b Marked<'a>,
) -> Result<(), Memory>
    ensures { OnOk result (steps_from steps.new.items ≡
        steps_from steps.old.items ++ spec.variable_steps (mark_of node.now)) }
{
    let components = all_components(alloc, count_in(node.kind))?;
    push_copies(steps, type_in(node.kind), named_by(node.tree), &components)
}

/// The leaves of some parts, of which the first may be several items where `listed` says so.
#[cycle(steps)]
#[tactic(auto, unfolding(crate::specs::Order::all_steps))]
fn push_all<'b, 'a>(
    alloc: Global,
    steps: &mut Vec<Step<'b, 'a>>,
    listed: bool,
    of: IntType,
    parts: &'b [Marked<'a>],
) -> Result<(), Memory>
    ensures { OnOk result (steps_from steps.new.items ≡
        steps_from steps.old.items ++ spec.all_steps listed of (marks_of parts.now)) }
{
    let mut items = listed;
    for part in parts {
        push_steps(alloc, steps, items, of, part)?;
        items = false;
    }
    Ok(())
}

/// The leaves of the parts that are lists in parentheses.
#[cycle(steps)]
#[tactic(auto, unfolding(crate::specs::Order::list_steps))]
fn push_lists<'b, 'a>(
    alloc: Global,
    steps: &mut Vec<Step<'b, 'a>>,
    of: IntType,
    parts: &'b [Marked<'a>],
) -> Result<(), Memory>
    ensures { OnOk result (steps_from steps.new.items ≡
        steps_from steps.old.items ++ spec.list_steps of (marks_of parts.now)) }
{
    for part in parts {
        push_inside(alloc, steps, of, part)?;
    }
    Ok(())
}

/// The leaves of a list in parentheses.
#[cycle(steps)]
#[tactic(auto, using(crate::proofs::Views::node_seen), unfolding(crate::specs::Order::inside_steps))]
fn push_inside<'b, 'a>(
    alloc: Global,
    steps: &mut Vec<Step<'b, 'a>>,
    of: IntType,
    list: &'b Marked<'a>,
) -> Result<(), Memory>
    ensures { OnOk result (steps_from steps.new.items ≡
        steps_from steps.old.items ++ spec.inside_steps of (mark_of list.now)) }
{
    if is_paren(list.tree.form) {
        return push_all(alloc, steps, true, of, &list.parts);
    }
    Ok(())
}

/// The leaves of an operand from left to right, or of the items of a list where `listed` says so; a number counts as
/// one of that type.
#[cycle(steps)]
#[tactic(auto, using(crate::proofs::Views::node_seen), unfolding(crate::specs::Order::steps_in))]
fn push_steps<'b, 'a>(
    alloc: Global,
    steps: &mut Vec<Step<'b, 'a>>,
    listed: bool,
    of: IntType,
    node: &'b Marked<'a>,
) -> Result<(), Memory>
    ensures { OnOk result (steps_from steps.new.items ≡
        steps_from steps.old.items ++ spec.steps_in listed of (mark_of node.now)) }
{
    match made_of(listed, node.tree, node.kind) {
        Made::Number => push(steps, Step::Number { of, number: node }),
        Made::Items => push_all(alloc, steps, true, of, &node.parts),
        Made::Variable => push_variable(alloc, steps, node),
        Made::Element => push_element(alloc, steps, node),
        Made::Listed => push_lists(alloc, steps, type_in(node.kind), &node.parts),
        _ => {
            let inner = type_in(vector_among(&node.parts));
            push_all(alloc, steps, false, inner, &node.parts)
        }
    }
}

// ---- statements

/// Whether a place is what its part is, or some components of that.
#[tactic(auto, using(cl_meaning::proofs::Views::view_out))]
pub(crate) fn is_through(tree: &Tree) -> bool
    ensures { result ≡ spec.is_through (view tree.now) }
{
    match tree.form {
        Form::ParenNode => true,
        Form::PostfixNode => selection_of(tree.word.bytes()).is_some(),
        _ => false,
    }
}

/// The variable or element of which a place selects components, parentheses aside.
#[tactic(auto, using(crate::proofs::Views::parted), unfolding(crate::specs::Order::under))]
pub(crate) fn under<'b, 'a>(node: &'b Marked<'a>) -> &'b Marked<'a>
    ensures { mark_of result.now ≡ spec.under (mark_of node.now) }
{
    match node.parts.as_slice() {
        [] => node,
        [front, ..] => {
            if is_through(node.tree) {
                return under(front);
            }
            node
        }
    }
}

fn is_element_in(kind: Kind) -> bool
    ensures { result ≡ spec.is_element_in kind }
{
    match kind {
        Kind::Vectors {
            reach: Reach::Element { .. },
            ..
        } => true,
        _ => false,
    }
}

/// The operator that joins the old value with the new one.
pub(crate) fn operator_in(setting: Option<Setting>) -> Option<Bin>
    ensures { result ≡ spec.operator_in setting }
{
    match setting {
        Some(Setting::With(op)) => Some(op),
        _ => None,
    }
}

/// Where a target stands.
#[tactic(auto, using(crate::proofs::Views::mark_out))]
fn push_target<'b, 'a>(steps: &mut Vec<Step<'b, 'a>>, target: &'b Marked<'a>) -> Result<(), Memory>
    ensures { OnOk result (steps_from steps.new.items ≡
        steps_from steps.old.items ++ spec.target_steps (mark_of target.now)) }
{
    if is_element_in(target.kind) {
        return push(steps, Step::Offset { element: target });
    }
    Ok(())
}

/// The old components of a target, where an operator joins them with the value.
#[tactic(auto, using(crate::proofs::Views::mark_out))]
fn push_old<'b, 'a>(
    steps: &mut Vec<Step<'b, 'a>>,
    operator: Option<Bin>,
    target: &'b Marked<'a>,
    components: &[usize],
) -> Result<(), Memory>
    ensures { OnOk result (steps_from steps.new.items ≡
        steps_from steps.old.items ++ spec.old_steps operator (mark_of target.now) components.now) }
{
    match operator {
        None => Ok(()),
        Some(_) => {
            if is_element_in(target.kind) {
                return push_loads(steps, target, components);
            }
            push_copies(
                steps,
                type_in(target.kind),
                named_by(target.tree),
                components,
            )
        }
    }
}

fn push_stores<'b, 'a>(
    steps: &mut Vec<Step<'b, 'a>>,
    element: &'b Marked<'a>,
    components: &[usize],
) -> Result<(), Memory>
    ensures { OnOk result (steps_from steps.new.items ≡
        steps_from steps.old.items ++ spec.stores (mark_of element.now) components.now 0) }
{
    let mut value = 0;
    for component in components {
        let component = *component;
        push(
            steps,
            Step::Store {
                element,
                component,
                value,
            },
        )?;
        value += 1;
    }
    Ok(())
}

fn push_sets<'b, 'a>(
    steps: &mut Vec<Step<'b, 'a>>,
    variable: Variable<'a>,
    components: &[usize],
) -> Result<(), Memory>
    ensures { OnOk result (steps_from steps.new.items ≡
        steps_from steps.old.items ++ spec.sets (named_of variable.entry) components.now 0) }
{
    let mut value = 0;
    for component in components {
        let component = *component;
        push(
            steps,
            Step::Set {
                variable,
                component,
                value,
            },
        )?;
        value += 1;
    }
    Ok(())
}

/// What is set or stored, each value at its component.
#[tactic(auto, using(crate::proofs::Views::mark_out))]
fn push_new<'b, 'a>(
    steps: &mut Vec<Step<'b, 'a>>,
    target: &'b Marked<'a>,
    components: &[usize],
) -> Result<(), Memory>
    ensures { OnOk result (steps_from steps.new.items ≡
        steps_from steps.old.items ++ spec.new_steps (mark_of target.now) components.now) }
{
    if is_element_in(target.kind) {
        return push_stores(steps, target, components);
    }
    push_sets(steps, named_by(target.tree), components)
}

/// The steps of a statement that sets a target to a value. `Memory` where memory was refused.
#[tactic(auto, using(crate::proofs::Views::mark_out))]
pub(crate) fn setting_steps<'b, 'a>(
    alloc: Global,
    operator: Option<Bin>,
    target: &'b Marked<'a>,
    value: &'b Marked<'a>,
) -> Result<Vec<Step<'b, 'a>>, Memory>
    ensures { IfOk result (λ v. steps_from v.items ≡
        spec.setting_steps operator (mark_of target.now) (mark_of value.now)) }
{
    let components = components_of(alloc, target)?;
    let place = under(target);
    let mut steps = Vec::new(alloc);
    push_target(&mut steps, place)?;
    push_old(&mut steps, operator, place, &components)?;
    push_steps(alloc, &mut steps, false, type_in(target.kind), value)?;
    push_new(&mut steps, place, &components)?;
    Ok(steps)
}

/// The steps of a declaration of a vector variable with its initialiser. `Memory` where memory was refused.
pub(crate) fn initial_steps<'b, 'a>(
    alloc: Global,
    vector: Vector,
    variable: Variable<'a>,
    value: &'b Marked<'a>,
) -> Result<Vec<Step<'b, 'a>>, Memory>
    ensures { IfOk result (λ v. steps_from v.items ≡
        spec.initial_steps vector (named_of variable.entry) (mark_of value.now)) }
{
    let components = all_components(alloc, vector.count)?;
    let mut steps = Vec::new(alloc);
    push_steps(alloc, &mut steps, false, vector.of, value)?;
    push_sets(&mut steps, variable, &components)?;
    Ok(steps)
}
