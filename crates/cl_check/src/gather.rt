//! The calls of a unit, by the names that are visible, before any node is judged.

ghost use Rattle.std.specs.Prelude.{◌≡◌, ◌++◌, List, IfOk, OnOk, map, true, false};
ghost use Rattle.std.specs.Prelude.{Bool as TestOf};
ghost use Rattle.cl_meaning.specs.declared.kind.Role.TheVariants as roles;
ghost use Rattle.wg_num.specs.declared.types.Place.{Place as PlaceOf};
ghost use Rattle.cl_tree.specs.Syntax.{view, views, none};
ghost use Rattle.cl_meaning.specs.Declarations.{form_of, word_of};
ghost use Rattle.cl_scope.specs.View.{env_of, visible_in};
ghost use Rattle.cl_meaning.specs.Calls.{call_of};
ghost use Rattle.cl_faults.specs.View.{looked_in};
ghost use Rattle.cl_check.specs.Walk.{kind_at};
ghost use Rattle.cl_check.specs.Gather.{Gathered, GatheredAlong, calls_by, missing_by};

use cl_faults::{Looked, kind_of};
use cl_meaning::{Call, Kind, Role, name_of};
use cl_scope::{Callee, Environment, callee_of, enter, later, leave, restore};
use cl_tree::{Form, Tree};
use std::alloc::Global;
use wg_num::{Memory, Place, Word, push};

/// The calls so far: those of functions that the unit defines, and the names that are called of others.
#[derive(Drop)]
pub(crate) struct Calls {
    pub(crate) calls: Vec<Call>,
    pub(crate) missing: Vec<Word>,
}

/// The call of a node, if it is one of a function.
#[tactic(auto, using(cl_meaning::proofs::Views::view_out))]
fn add_call(
    alloc: Global,
    environment: &Environment,
    tree: &Tree,
    found: &mut Calls,
) -> Result<(), Memory>
    ensures calls { OnOk result (map call_of found.new.calls.items ≡ map call_of found.old.calls.items ++
        calls_by (visible_in environment.now) (form_of (view tree.now)) (word_of (view tree.now))) }
    ensures missing { OnOk result (found.new.missing.items ≡ found.old.missing.items ++
        missing_by (visible_in environment.now) (form_of (view tree.now)) (word_of (view tree.now))) }
{
    if tree.form != Form::CallNode {
        return Ok(());
    }
    let name = name_of(tree.word.bytes());
    match callee_of(environment, name) {
        Some(Callee::Defined { number, .. }) => push(
            &mut found.calls,
            Call {
                caller: environment.owner.number,
                called: number,
            },
        ),
        Some(Callee::Undefined) => push(&mut found.missing, Word::new(alloc, name)?),
        _ => Ok(()),
    }
}

/// Walks through the parts of a node for their calls, and answers their kinds.
#[cycle(gather)]
fn gather_parts(
    alloc: Global,
    places: &[Place],
    environment: &mut Environment,
    found: &mut Calls,
    form: Form,
    trees: &[Tree],
) -> Result<Vec<Option<Kind>>, Memory>
    ensures { IfOk result (λ ks. (front : TestOf) ×
        GatheredAlong form (env_of places.now environment.old) (views trees.now) (env_of places.now environment.new)
        front ks.items (map call_of found.old.calls.items) (map call_of found.new.calls.items)
        found.old.missing.items found.new.missing.items none) }
{
    let mut kinds = Vec::new(alloc);
    let mut front = true;
    for part in trees {
        let kind = gather_tree(alloc, places, environment, found, part)?;
        later(alloc, environment, form, front, part, kind)?;
        front = false;
        push(&mut kinds, kind)?;
    }
    Ok(kinds)
}

/// Walks through a tree for its calls, and answers its kind.
#[cycle(gather)]
pub(crate) fn gather_tree(
    alloc: Global,
    places: &[Place],
    environment: &mut Environment,
    found: &mut Calls,
    tree: &Tree,
) -> Result<Option<Kind>, Memory>
    ensures { IfOk result (λ k. Gathered (env_of places.now environment.old) (view tree.now)
        (map call_of found.old.calls.items) found.old.missing.items (env_of places.now environment.new) k
        (map call_of found.new.calls.items) found.new.missing.items) }
{
    let saved = enter(alloc, environment, tree)?;
    let kinds = gather_parts(
        alloc,
        places,
        environment,
        found,
        tree.form,
        tree.parts.as_slice(),
    )?;
    let inner = restore(environment, saved);
    add_call(alloc, environment, tree, found)?;
    let kind = kind_here(environment, tree, kinds.as_slice());
    leave(
        alloc,
        environment,
        inner.labels,
        tree,
        kinds.as_slice(),
        places,
    )?;
    Ok(kind)
}

/// The kind of a node behind its parts.
fn kind_here(environment: &Environment, tree: &Tree, kinds: &[Option<Kind>]) -> Option<Kind>
    ensures { (places : List PlaceOf) →
        result ≡ kind_at (looked_in (env_of places environment.now) roles.Other (view tree.now) kinds.now) }
{
    kind_of(Looked {
        environment,
        role: Role::Other,
        tree,
        kinds,
    })
}
