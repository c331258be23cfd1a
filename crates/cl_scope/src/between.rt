//! From part to part: what a part of a node adds for the parts behind it, beside the names that it declares.
ghost use Rattle.std.specs.Prelude.{◌≡◌, ◌||◌, List, ◌∷◌, [], ◌++◌, Some, map, option_map};
ghost use Rattle.std.specs.Prelude.{slice_get, OnOk, IfOk};
ghost use Rattle.wg_num.specs.declared.types.Place.{Place};
ghost use Rattle.cl_meaning.specs.Constants as constants;
ghost use Rattle.cl_tree.specs.Syntax.{view};
ghost use Rattle.cl_meaning.specs.Declarations.{form_of};
ghost use Rattle.cl_meaning.specs.Environment as environments;
ghost use Rattle.cl_meaning.specs.Visible as spec;
ghost use Rattle.cl_scope.specs.View.{env_of, visible_in, scope_of, signature_of, labels_of, owner_of};

use crate::environment::{Environment, Labels, Names, Owner, Signature};
use crate::lookup::{function_meaning, is_announced};
use crate::scopes::{insert, open};
use crate::signature::{head_sizes, is_kernel_head, yield_of};
use cl_meaning::{Constant, Entry, Kind, constant_of, declared_of, promoted, type_of};
use cl_tree::{Form, Tree};
use indexmap::IndexMap;
use std::alloc::Global;
use wg_num::{IntType, Memory, push, wrap};

/// The type to which the labels of a switch are converted (C99, section 6.8.4.2).
fn label_type(kind: Option<Kind>) -> IntType
    ensures { result ≡ spec.label_type kind }
{
    match kind {
        Some(kind) => promoted(type_of(kind)),
        None => IntType::Int,
    }
}

/// The owner, with a head more; the last sizes that a head requires count.
fn headed(owner: Owner, kernel: bool, sizes: Option<[u64; 3]>) -> Owner
    ensures { owner_of result ≡ record (owner_of owner) {
      kernel = owner.kernel || kernel;
      sizes = spec.or_sizes owner.sizes sizes;
    } }
{
    let sizes = match sizes {
        Some(_) => sizes,
        None => owner.sizes,
    };
    Owner {
        number: owner.number,
        kernel: owner.kernel || kernel,
        defining: owner.defining,
        result: owner.result,
        sizes,
    }
}

/// Behind a head of a function or prototype.
fn behind_head(environment: &mut Environment, part: &Tree) -> Result<(), Memory>
    ensures { OnOk result ((places : List Place) →
        env_of places environment.new ≡ spec.behind_head (env_of places environment.old) (view part.now)) }
{
    let sizes = head_sizes(&part.parts)?;
    let kernel = is_kernel_head(part);
    environment.owner = headed(environment.owner, kernel, sizes);
    Ok(())
}

/// Behind the result of a function or prototype, its name aside.
fn behind_result(environment: &mut Environment, part: &Tree)
    ensures { (places : List Place) →
        env_of places environment.new ≡ spec.behind_result (env_of places environment.old) (view part.now) }
{
    environment.owner.result = yield_of(&part.parts);
}

fn no_names(alloc: Global) -> Names
    ensures { scope_of result ≡ environments.empty_scope }
{
    IndexMap::new(alloc)
}

fn one_name(alloc: Global, name: &[u8], entry: Entry) -> Result<Names, Memory>
    ensures { IfOk result (λ s. scope_of s ≡ environments.with_entry environments.empty_scope name.now entry) }
{
    let mut scope = no_names(alloc);
    insert(alloc, &mut scope, name, entry)?;
    Ok(scope)
}

/// The scope of the name of that function, whose number this is; it is empty where the name stands for something
/// already.
fn named_scope(
    alloc: Global,
    environment: &Environment,
    own: &Signature,
    number: u32,
) -> Result<Names, Memory>
    ensures { IfOk result (λ s. scope_of s ≡ spec.own_scope (visible_in environment.now) number
        (Some (signature_of own.now))) }
{
    let name = own.name.bytes();
    if !is_announced(environment, name) {
        return Ok(no_names(alloc));
    }
    let meaning = function_meaning(own.kernel, number);
    let entry = Entry {
        meaning,
        firm: true,
    };
    one_name(alloc, name, entry)
}

/// The scope of the own name of the function that is around.
fn own_scope(alloc: Global, environment: &Environment) -> Result<Names, Memory>
    ensures { IfOk result (λ s. scope_of s ≡ spec.own_scope (visible_in environment.now)
        environment.now.owner.number (slice_get (map signature_of environment.now.functions.items)
        environment.now.owner.number)) }
{
    let number = environment.owner.number;
    match environment.functions.get(number as usize) {
        Some(own) => named_scope(alloc, environment, own, number),
        None => Ok(no_names(alloc)),
    }
}

fn push_scope(environment: &mut Environment, scope: Names) -> Result<(), Memory>
    ensures { OnOk result ((places : List Place) →
        env_of places environment.new ≡
        record (env_of places environment.old) {
          scopes = (env_of places environment.old).scopes ++
              scope_of scope ∷ [];
        }) }
{
    push(&mut environment.scopes, scope)
}

/// Opens the scope of the own name of the function that is around.
fn add_own(alloc: Global, environment: &mut Environment) -> Result<(), Memory>
    ensures { OnOk result ((places : List Place) →
        env_of places environment.new ≡ spec.with_own (env_of places environment.old)) }
{
    let scope = own_scope(alloc, environment)?;
    push_scope(environment, scope)
}

/// Behind the name of a function, which is visible from there on, and hides nothing that its name stands for already;
/// its parameters and its block share the scope inside (C99, section 6.2.1).
fn behind_name(alloc: Global, environment: &mut Environment) -> Result<(), Memory>
    ensures { OnOk result ((places : List Place) →
        env_of places environment.new ≡ spec.named (env_of places environment.old)) }
{
    add_own(alloc, environment)?;
    open(alloc, environment)
}

/// Behind a part of a function.
fn behind_part(alloc: Global, environment: &mut Environment, part: &Tree) -> Result<(), Memory>
    ensures { OnOk result ((places : List Place) →
        env_of places environment.new ≡ spec.behind_part (env_of places environment.old) (form_of (view part.now))
        (view part.now)) }
{
    match part.form {
        Form::HeadNode => behind_head(environment, part),
        Form::ResultNode => {
            behind_result(environment, part);
            behind_name(alloc, environment)
        }
        Form::ParamsNode => {
            environment.in_body = true;
            Ok(())
        }
        _ => Ok(()),
    }
}

/// Behind a part of a prototype.
fn behind_prototype_part(
    alloc: Global,
    environment: &mut Environment,
    part: &Tree,
) -> Result<(), Memory>
    ensures { OnOk result ((places : List Place) →
        env_of places environment.new ≡ spec.behind_prototype_part (env_of places environment.old)
        (form_of (view part.now)) (view part.now)) }
{
    match part.form {
        Form::HeadNode => behind_head(environment, part),
        Form::ResultNode => {
            behind_result(environment, part);
            open(alloc, environment)
        }
        Form::ParamsNode => {
            environment.in_body = true;
            Ok(())
        }
        _ => Ok(()),
    }
}

/// Behind a part of a declaration.
fn behind_type(environment: &mut Environment, part: &Tree)
    ensures { (places : List Place) →
        env_of places environment.new ≡ spec.behind_type (env_of places environment.old) (form_of (view part.now))
        (view part.now) }
{
    match part.form {
        Form::TypeNode => environment.declared = declared_of(part),
        _ => {}
    }
}

/// Behind the value of a switch no label stands yet.
fn behind_value(alloc: Global, environment: &mut Environment, kind: Option<Kind>)
    ensures { (places : List Place) →
        env_of places environment.new ≡ spec.behind_value (env_of places environment.old)
        (env_of places environment.old).labels kind }
{
    if environment.labels.is_none() {
        environment.labels = Some(Labels {
            of: label_type(kind),
            values: Vec::new(alloc),
            other: false,
        });
    }
}

fn push_label(labels: &mut Labels, constant: Constant) -> Result<(), Memory>
    ensures { OnOk result (Some (labels_of labels.new) ≡ spec.with_label (Some (labels_of labels.old))
        (Some constant)) }
{
    push(&mut labels.values, wrap(labels.of, constant.value))
}

fn add_label(labels: &mut Option<Labels>, tree: &Tree) -> Result<(), Memory>
    ensures { OnOk result (option_map labels_of labels.new ≡ spec.with_label (option_map labels_of labels.old)
        (constants.constant_of (view tree.now))) }
{
    let Some(constant) = constant_of(tree) else {
        return Ok(());
    };
    match labels {
        Some(labels) => push_label(labels, constant),
        None => Ok(()),
    }
}

/// Behind the value of a case, its label stands.
fn behind_label(environment: &mut Environment, front: bool, part: &Tree) -> Result<(), Memory>
    ensures { OnOk result ((places : List Place) →
        env_of places environment.new ≡ spec.behind_label (env_of places environment.old) front (view part.now)) }
{
    if front {
        return add_label(&mut environment.labels, part);
    }
    Ok(())
}

/// Goes behind a part of a node of that production, on to the next part: what the part declares or says is visible
/// then. `front` is whether it is the first part, and `kind` its kind, where it is an expression (C99, sections
/// 6.2.1, 6.7 and 6.8.4.2). `Memory` where memory was refused or a number has no room.
pub fn later(
    alloc: Global,
    environment: &mut Environment,
    form: Form,
    front: bool,
    part: &Tree,
    kind: Option<Kind>,
) -> Result<(), Memory>
    ensures { OnOk result ((places : List Place) →
        env_of places environment.new ≡ spec.later (env_of places environment.old) form front (view part.now)
        kind) }
{
    match form {
        Form::FunctionNode => behind_part(alloc, environment, part),
        Form::PrototypeNode => behind_prototype_part(alloc, environment, part),
        Form::DeclareNode => {
            behind_type(environment, part);
            Ok(())
        }
        Form::SwitchNode => {
            behind_value(alloc, environment, kind);
            Ok(())
        }
        Form::CaseNode => behind_label(environment, front, part),
        _ => Ok(()),
    }
}
