//! Out of a node: what it declares for what is behind it. And what is visible at a unit.
ghost use Rattle.std.specs.Prelude.{◌≡◌, ◌∷◌, [], List, length, map, option_map, OnOk, IfOk};
ghost use Rattle.wg_num.specs.declared.types.Place.{Place};
ghost use Rattle.cl_tree.specs.Syntax.{view};
ghost use Rattle.cl_meaning.specs.Environment.{Env, empty_scope};
ghost use Rattle.cl_meaning.specs.Meant.{start_of};
ghost use Rattle.cl_meaning.specs.Visible as visible;
ghost use Rattle.cl_scope.specs.View.{env_of, scope_of, labels_of, signature_of};
ghost use Rattle.cl_scope.specs.Walk as spec;

use crate::declarator::declarator_in;
use crate::declare::{add_declarator, add_parameter, last_kind};
use crate::environment::{Environment, Labels, Names, Owner, Signature};
use crate::lookup::is_announced;
use crate::scopes::declare;
use crate::signature::definitions_in;
use crate::walk::{add_function, defined_meaning};
use cl_meaning::{Entry, Kind, Yield, name_of};
use cl_tree::{Form, Tree};
use indexmap::IndexMap;
use std::alloc::Global;
use wg_num::{Memory, Place};

/// Declares a prototype under its name, where nothing does yet and the name is not known without a
/// declaration.
fn add_prototype(alloc: Global, environment: &mut Environment, name: &[u8]) -> Result<(), Memory>
    ensures { OnOk result ((places : List Place) →
        env_of places environment.new ≡ visible.with_prototype (env_of places environment.old) name.now) }
{
    if !is_announced(environment, name) {
        return Ok(());
    }
    let meaning = defined_meaning(environment, name)?;
    declare(
        alloc,
        environment,
        name,
        Entry {
            meaning,
            firm: false,
        },
    )
}

/// Declares what a declarator node does.
fn leave_declarator(
    alloc: Global,
    environment: &mut Environment,
    tree: &Tree,
    kinds: &[Option<Kind>],
    places: &[Place],
) -> Result<(), Memory>
    ensures { OnOk result (env_of places.now environment.new ≡ spec.declared_by (env_of places.now environment.old)
        (view tree.now) kinds.now) }
{
    let declarator = declarator_in(tree.word.bytes(), tree.first, &tree.parts)?;
    add_declarator(alloc, environment, &declarator, last_kind(kinds), places)
}

/// Declares what a parameter node does.
fn leave_parameter(
    alloc: Global,
    environment: &mut Environment,
    tree: &Tree,
    places: &[Place],
) -> Result<(), Memory>
    ensures { OnOk result (env_of places.now environment.new ≡ spec.parameter_by (env_of places.now environment.old)
        (view tree.now)) }
{
    let name = name_of(tree.word.bytes());
    add_parameter(alloc, environment, name, tree.last, &tree.parts, places)
}

/// Leaves a node behind its parts, whose kinds these are: what it declares is visible then, and behind a label the
/// labels inside are those of the statement (C99, sections 6.2.1 and 6.8.1). `Memory` where memory was refused or a
/// number has no room.
pub fn leave(
    alloc: Global,
    environment: &mut Environment,
    labels: Option<Labels>,
    tree: &Tree,
    kinds: &[Option<Kind>],
    places: &[Place],
) -> Result<(), Memory>
    ensures { OnOk result ((inner : Env) → option_map labels_of labels ≡ spec.labels_at (view tree.now) inner →
        env_of places.now environment.new ≡ spec.departed (env_of places.now environment.old) inner
        (view tree.now) kinds.now) }
{
    match tree.form {
        Form::FunctionNode => add_function(alloc, environment, name_of(tree.word.bytes())),
        Form::PrototypeNode => add_prototype(alloc, environment, name_of(tree.word.bytes())),
        Form::ParamNode => leave_parameter(alloc, environment, tree, places),
        Form::DeclaratorNode => leave_declarator(alloc, environment, tree, kinds, places),
        Form::CaseNode | Form::DefaultNode => {
            environment.labels = labels;
            Ok(())
        }
        _ => Ok(()),
    }
}

fn one_scope(alloc: Global) -> Result<Vec<Names>, Memory>
    ensures { IfOk result (λ v. map scope_of v.items ≡ empty_scope ∷ []) }
{
    let mut scopes = Vec::new(alloc);
    match scopes.push(IndexMap::new(alloc)) {
        Ok(()) => Ok(scopes),
        Err(_) => Err(Memory),
    }
}

/// The number that stands outside every function: that of none of these.
fn number_outside(functions: &[Signature]) -> Result<u32, Memory>
    ensures { IfOk result (λ n. n ≡ length (map signature_of functions.now)) }
{
    match u32::try_from(functions.len()) {
        Ok(number) => Ok(number),
        Err(_) => Err(Memory),
    }
}

/// What is visible at a unit: no name is declared, and the functions are those that it defines, in order (C99,
/// section 6.9). `Memory` where memory was refused, or the unit defines 2^32 functions or more.
pub fn start(alloc: Global, unit: &Tree) -> Result<Environment, Memory>
    ensures { IfOk result (λ e. (places : List Place) → env_of places e ≡ start_of places (view unit.now)) }
{
    let functions = definitions_in(alloc, &unit.parts)?;
    let number = number_outside(&functions)?;
    let scopes = one_scope(alloc)?;
    Ok(Environment {
        functions,
        scopes,
        tables: Vec::new(alloc),
        variables: Vec::new(alloc),
        arrays: Vec::new(alloc),
        owner: Owner {
            number,
            kernel: false,
            defining: false,
            result: Yield::Nothing,
            sizes: None,
        },
        declared: None,
        flags: false,
        in_body: false,
        in_loop: false,
        in_switch: false,
        labels: None,
    })
}
