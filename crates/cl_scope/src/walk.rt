//! From node to node: what is visible at the first part of a node, and at the node behind its parts.
ghost use Rattle.std.specs.Prelude.{◌≡◌, List, length, option_map, OnOk, IfOk};
ghost use Rattle.wg_num.specs.declared.types.Place.{Place};
ghost use Rattle.cl_tree.specs.Syntax.{view};
ghost use Rattle.cl_tree.specs.declared.tree.Form.{Form};
ghost use Rattle.cl_meaning.specs.Environment.{Env};
ghost use Rattle.cl_meaning.specs.Visible as visible;
ghost use Rattle.cl_scope.specs.View.{env_of, visible_in, labels_of};
ghost use Rattle.cl_scope.specs.Walk as spec;

use crate::declare::number_of;
use crate::environment::{Environment, Labels, Owner};
use crate::lookup::{Callee, callee_of, definition_of, function_meaning};
use crate::scopes::{declare, open};
use cl_meaning::types::Declared;
use cl_meaning::{Entry, Intrinsic, Meaning, Yield, name_of};
use cl_model::{Array, Var};
use cl_tree::{Form, Tree};
use std::alloc::Global;
use std::mem::replace;
use wg_num::Memory;

/// The variables and arrays of a function, each in the order of its declarations.
#[derive(Drop)]
pub struct Body {
    pub variables: Vec<Var>,
    pub arrays: Vec<Array>,
}

/// What is visible before a node, as far as it is to be restored behind its parts.
#[derive(Drop)]
pub struct Saved {
    around: Around,
    aside: Aside,
}

#[derive(Clone, Copy)]
struct Around {
    /// How many scopes are open.
    scopes: usize,
    owner: Owner,
    declared: Option<Declared>,
    flags: bool,
    in_body: bool,
    in_loop: bool,
    in_switch: bool,
}

/// What the parts of a node do not share with what is around it.
#[derive(Drop)]
enum Aside {
    Nothing,
    /// The labels outside a label, or outside a statement that holds statements.
    Labels(Option<Labels>),
    /// The variables and arrays outside a function or prototype.
    Body(Body),
}

/// What is known at the end of the parts of a node, and no more behind them.
#[derive(Drop)]
pub struct Inner {
    /// The labels inside a label, or inside a statement that holds statements.
    pub labels: Option<Labels>,
    /// The variables and arrays of a function or prototype.
    pub body: Option<Body>,
    /// The work-group size that is required.
    pub sizes: Option<[u64; 3]>,
}

fn labels_like(alloc: Global, labels: &Option<Labels>) -> Result<Option<Labels>, Memory>
    ensures { IfOk result (λ o. option_map labels_of o ≡ option_map labels_of labels.now) }
{
    match labels {
        Some(labels) => match labels.values.to_vec(alloc) {
            Ok(values) => Ok(Some(Labels {
                of: labels.of,
                values,
                other: labels.other,
            })),
            Err(_) => Err(Memory),
        },
        None => Ok(None),
    }
}

fn save(environment: &Environment) -> Around
    ensures { spec.around_of result ≡ spec.kept_around (visible_in environment.now) }
{
    Around {
        scopes: environment.scopes.len(),
        owner: environment.owner,
        declared: environment.declared,
        flags: environment.flags,
        in_body: environment.in_body,
        in_loop: environment.in_loop,
        in_switch: environment.in_switch,
    }
}

/// Takes the variables and arrays of outside, and sets who is around the parts.
fn take_body(alloc: Global, environment: &mut Environment, number: u32, defining: bool) -> Body
    ensures inside { (places : List Place) →
        env_of places environment.new ≡ visible.in_function (env_of places environment.old) number defining }
    ensures outside { spec.body_view result ≡ spec.body_of (visible_in environment.old) }
{
    environment.owner = Owner {
        number,
        kernel: false,
        defining,
        result: Yield::Nothing,
        sizes: None,
    };
    Body {
        variables: replace(&mut environment.variables, Vec::new(alloc)),
        arrays: replace(&mut environment.arrays, Vec::new(alloc)),
    }
}

/// What the name of a definition stands for.
pub(crate) fn defined_meaning(environment: &Environment, name: &[u8]) -> Result<Meaning, Memory>
    ensures { IfOk result (λ m. m ≡
        visible.defined_meaning (visible.definition_of (visible_in environment.now) name.now)) }
{
    match definition_of(environment, name) {
        None => Ok(Meaning::Undefined),
        Some(definition) => Ok(function_meaning(definition.kernel, number_of(definition.number)?)),
    }
}

/// The number that stands where there is no function of the unit: that of none of them.
fn number_of_none(environment: &Environment) -> Result<u32, Memory>
    ensures { IfOk result (λ n. n ≡ length (visible_in environment.now).functions) }
{
    number_of(environment.functions.len())
}

/// The number of the definition of a function.
fn defined_number(environment: &Environment, name: &[u8]) -> Result<u32, Memory>
    ensures { IfOk result (λ n. n ≡ visible.number_in (visible_in environment.now)
        (visible.definition_of (visible_in environment.now) name.now)) }
{
    match definition_of(environment, name) {
        None => number_of_none(environment),
        Some(definition) => number_of(definition.number),
    }
}

/// Declares a function under its own name.
pub(crate) fn add_function(
    alloc: Global,
    environment: &mut Environment,
    name: &[u8],
) -> Result<(), Memory>
    ensures { OnOk result ((places : List Place) →
        env_of places environment.new ≡ visible.with_function (env_of places environment.old) name.now) }
{
    let meaning = defined_meaning(environment, name)?;
    declare(
        alloc,
        environment,
        name,
        Entry {
            meaning,
            firm: true,
        },
    )
}

/// Goes into a function, whose name is not visible yet.
fn enter_definition(
    alloc: Global,
    environment: &mut Environment,
    name: &[u8],
) -> Result<Body, Memory>
    ensures inside { OnOk result ((places : List Place) →
        env_of places environment.new ≡ visible.in_definition (env_of places environment.old) name.now) }
    ensures outside { IfOk result (λ b. spec.body_view b ≡ spec.body_of (visible_in environment.old)) }
{
    let number = defined_number(environment, name)?;
    Ok(take_body(alloc, environment, number, true))
}

/// Goes into a prototype.
fn enter_prototype(alloc: Global, environment: &mut Environment) -> Result<Body, Memory>
    ensures inside { OnOk result ((places : List Place) →
        env_of places environment.new ≡ visible.in_prototype (env_of places environment.old)) }
    ensures outside { IfOk result (λ b. spec.body_view b ≡ spec.body_of (visible_in environment.old)) }
{
    let number = number_of_none(environment)?;
    Ok(take_body(alloc, environment, number, false))
}

/// Goes into a block, and answers the labels outside: the block of a function shares the scope of its
/// parameters, and each other one opens a scope.
fn enter_block(alloc: Global, environment: &mut Environment) -> Result<Option<Labels>, Memory>
    ensures inside { OnOk result ((places : List Place) →
        env_of places environment.new ≡ visible.in_block (env_of places environment.old)) }
    ensures outside { IfOk result (λ l. option_map labels_of l ≡ (visible_in environment.old).labels) }
{
    let labels = environment.labels.take();
    if environment.in_body {
        environment.in_body = false;
        return Ok(labels);
    }
    open(alloc, environment)?;
    Ok(labels)
}

/// Whether a call of that name is one of a fence.
fn is_fence_call(environment: &Environment, name: &[u8]) -> bool
    ensures { result ≡ visible.is_fence_callee (spec.callee_of (visible_in environment.now) name.now) }
{
    match callee_of(environment, name) {
        Some(Callee::Known(Intrinsic::Barrier | Intrinsic::Fence)) => true,
        _ => false,
    }
}

/// Goes into a loop, and answers the labels outside.
fn enter_loop(environment: &mut Environment) -> Option<Labels>
    ensures inside { (places : List Place) →
        env_of places environment.new ≡ visible.in_loop (env_of places environment.old) }
    ensures outside { option_map labels_of result ≡ (visible_in environment.old).labels }
{
    environment.in_loop = true;
    environment.labels.take()
}

/// Goes into a loop that has a scope of its own, and answers the labels outside.
fn enter_for(alloc: Global, environment: &mut Environment) -> Result<Option<Labels>, Memory>
    ensures inside { OnOk result ((places : List Place) →
        env_of places environment.new ≡ visible.opened (visible.in_loop (env_of places environment.old))) }
    ensures outside { IfOk result (λ l. option_map labels_of l ≡ (visible_in environment.old).labels) }
{
    let labels = enter_loop(environment);
    open(alloc, environment)?;
    Ok(labels)
}

/// Goes into a switch, and answers the labels outside.
fn enter_switch(environment: &mut Environment) -> Option<Labels>
    ensures inside { (places : List Place) →
        env_of places environment.new ≡ visible.in_switch (env_of places environment.old) }
    ensures outside { option_map labels_of result ≡ (visible_in environment.old).labels }
{
    environment.in_switch = true;
    environment.labels.take()
}

/// Goes behind `default`, which is a label then, and answers the labels outside.
fn enter_default(alloc: Global, environment: &mut Environment) -> Result<Option<Labels>, Memory>
    ensures inside { OnOk result ((places : List Place) →
        env_of places environment.new ≡ spec.behind_default (env_of places environment.old)) }
    ensures outside { IfOk result (λ l. option_map labels_of l ≡ (visible_in environment.old).labels) }
{
    let outside = labels_like(alloc, &environment.labels)?;
    if let Some(labels) = &mut environment.labels {
        labels.other = true;
    }
    Ok(outside)
}

/// Goes into a node with this name, and answers what its parts do not share with what is around it.
fn enter_form(
    alloc: Global,
    environment: &mut Environment,
    form: Form,
    name: &[u8],
) -> Result<Aside, Memory>
    ensures inside { OnOk result ((places : List Place) →
        env_of places environment.new ≡ spec.inside_named (env_of places environment.old) form name.now) }
    ensures outside { IfOk result (λ a. spec.aside_of a ≡ spec.aside_at form (visible_in environment.old)) }
{
    match form {
        Form::FunctionNode => Ok(Aside::Body(enter_definition(alloc, environment, name)?)),
        Form::PrototypeNode => Ok(Aside::Body(enter_prototype(alloc, environment)?)),
        Form::BlockNode => Ok(Aside::Labels(enter_block(alloc, environment)?)),
        Form::IfNode => Ok(Aside::Labels(environment.labels.take())),
        Form::WhileNode | Form::DoNode => Ok(Aside::Labels(enter_loop(environment))),
        Form::ForNode => Ok(Aside::Labels(enter_for(alloc, environment)?)),
        Form::SwitchNode => Ok(Aside::Labels(enter_switch(environment))),
        Form::CaseNode => Ok(Aside::Labels(labels_like(alloc, &environment.labels)?)),
        Form::DefaultNode => Ok(Aside::Labels(enter_default(alloc, environment)?)),
        Form::CallNode => {
            environment.flags = is_fence_call(environment, name);
            Ok(Aside::Nothing)
        }
        _ => Ok(Aside::Nothing),
    }
}

/// Goes into a node: what is visible then is what is visible at its first part (C99, section 6.2.1). Answers what
/// `restore` is to put back behind the parts. `Memory` where memory was refused or a number has no room.
pub fn enter(alloc: Global, environment: &mut Environment, tree: &Tree) -> Result<Saved, Memory>
    ensures inside { OnOk result ((places : List Place) →
        env_of places environment.new ≡ spec.entered (env_of places environment.old) (view tree.now)) }
    ensures saved { IfOk result (λ s. (places : List Place) →
        spec.saved_of s ≡ spec.kept_at (view tree.now) (env_of places environment.old)) }
{
    let around = save(environment);
    let name = name_of(tree.word.bytes());
    let aside = enter_form(alloc, environment, tree.form, name)?;
    Ok(Saved { around, aside })
}

/// Puts back what was set aside, and answers what was in its place.
fn exchange(environment: &mut Environment, aside: Aside, sizes: Option<[u64; 3]>) -> Inner
    ensures outside { (places : List Place) →
        env_of places environment.new ≡ spec.with_aside (spec.aside_of aside) (env_of places environment.old) }
    ensures inside { spec.inner_of result ≡ spec.inner_for (spec.aside_of aside) (visible_in environment.old) sizes }
{
    match aside {
        Aside::Nothing => Inner {
            labels: None,
            body: None,
            sizes,
        },
        Aside::Labels(labels) => Inner {
            labels: replace(&mut environment.labels, labels),
            body: None,
            sizes,
        },
        Aside::Body(outside) => Inner {
            labels: None,
            body: Some(Body {
                variables: replace(&mut environment.variables, outside.variables),
                arrays: replace(&mut environment.arrays, outside.arrays),
            }),
            sizes,
        },
    }
}

/// Closes and restores what was opened or set for the parts of a node, and answers what is known at their
/// end.
pub fn restore(environment: &mut Environment, saved: Saved) -> Inner
    ensures restored { (places : List Place) (form : Form) (before : Env) →
        spec.saved_of saved ≡ spec.kept form before →
        env_of places environment.new ≡ visible.restored form before (env_of places environment.old) }
    ensures inner { (places : List Place) (form : Form) (before : Env) →
        spec.saved_of saved ≡ spec.kept form before →
        spec.inner_of result ≡ spec.inner_at form (env_of places environment.old) }
{
    let sizes = environment.owner.sizes;
    let around = saved.around;
    environment.scopes.truncate(around.scopes);
    environment.owner = around.owner;
    environment.declared = around.declared;
    environment.flags = around.flags;
    environment.in_body = around.in_body;
    environment.in_loop = around.in_loop;
    environment.in_switch = around.in_switch;
    exchange(environment, saved.aside, sizes)
}
