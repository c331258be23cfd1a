//! Scopes: opening one, and declaring a name in the innermost.
ghost use Rattle.std.specs.Prelude.{◌≡◌, List, map, OnOk, IfOk};
ghost use Rattle.wg_num.specs.declared.types.Place.{Place};
ghost use Rattle.cl_meaning.specs.Environment as spec;
ghost use Rattle.cl_meaning.specs.Visible as visible;
ghost use Rattle.cl_scope.specs.View.{scope_of, env_of};

use crate::environment::{Environment, Names};
use cl_meaning::Entry;
use indexmap::IndexMap;
use std::alloc::Global;
use wg_num::{Memory, push};

fn key_of(alloc: Global, name: &[u8]) -> Result<Vec<u8>, Memory>
    ensures { IfOk result (λ v. v.items ≡ name.now) }
{
    match name.to_vec(alloc) {
        Ok(key) => Ok(key),
        Err(_) => Err(Memory),
    }
}

/// One name more in a scope.
pub(crate) fn insert(
    alloc: Global,
    scope: &mut Names,
    name: &[u8],
    entry: Entry,
) -> Result<(), Memory>
    ensures { OnOk result (scope_of scope.new ≡ spec.with_entry (scope_of scope.old) name.now entry) }
{
    let key = key_of(alloc, name)?;
    match scope.insert(key, entry) {
        Ok(_) => Ok(()),
        Err(_) => Err(Memory),
    }
}

fn insert_into_last(
    alloc: Global,
    scopes: &mut [Names],
    name: &[u8],
    entry: Entry,
) -> Result<(), Memory>
    ensures { OnOk result (map scope_of scopes.new ≡ spec.into_last (map scope_of scopes.old) name.now entry) }
{
    let count = scopes.len();
    if count == 0 {
        return Ok(());
    }
    insert(alloc, &mut scopes[count - 1], name, entry)
}

/// Declares a name in the innermost scope.
pub(crate) fn declare(
    alloc: Global,
    environment: &mut Environment,
    name: &[u8],
    entry: Entry,
) -> Result<(), Memory>
    ensures { OnOk result ((places : List Place) →
        env_of places environment.new ≡ spec.declare (env_of places environment.old) name.now entry) }
{
    insert_into_last(alloc, &mut environment.scopes, name, entry)
}

/// Opens a scope.
pub(crate) fn open(alloc: Global, environment: &mut Environment) -> Result<(), Memory>
    ensures { OnOk result ((places : List Place) →
        env_of places environment.new ≡ visible.opened (env_of places environment.old)) }
{
    push(&mut environment.scopes, IndexMap::new(alloc))
}
