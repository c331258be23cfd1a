//! What declarators and parameters declare.
ghost use Rattle.std.specs.Prelude.{◌≡◌, List, slice_get, OnOk, IfOk};
ghost use Rattle.wg_num.specs.declared.types.Place.{Place};
ghost use Rattle.cl_tree.specs.Syntax.{views};
ghost use Rattle.cl_meaning.specs.Environment as environments;
ghost use Rattle.cl_meaning.specs.Declarations as spec;
ghost use Rattle.cl_meaning.specs.View.{array_of, table_of, variable_of};
ghost use Rattle.cl_scope.specs.View.{env_of, visible_in};
ghost use Rattle.cl_scope.specs.Declarators.{declarator_view, kept_variable, with_variable_at, scalar_at};
ghost use Rattle.cl_scope.specs.Declarators.{pointer_parameter_at, with_object, with_array_kept, with_table_kept};
ghost use Rattle.cl_scope.specs.Declarators.{kept_array};
ghost use Rattle.cl_scope.specs.declared.environment.Environment as rust;

use crate::declarator::{Declarator, dims_of, each_of, first_type, one_length, second_star};
use crate::environment::Environment;
use crate::lookup::is_at_unit;
use crate::scopes::declare;
use crate::table::table_bytes;
use cl_meaning::{Declared, Entry, Kind, Meaning};
use cl_model::{Array, Root, Space, Table, Var, VarKind};
use cl_tree::Tree;
use std::alloc::Global;
use wg_num::{Memory, Place, Word, push};

/// The line and column of the token with that number; those of the start of the source where there is no such token.
pub fn place_of(places: &[Place], token: u32) -> Place
    ensures { result ≡ environments.or_start (slice_get places.now token) }
{
    match places.get(token as usize) {
        Some(place) => *place,
        None => Place { line: 1, column: 1 },
    }
}

pub(crate) fn number_of(number: usize) -> Result<u32, Memory>
    ensures { IfOk result (λ n. n ≡ number) }
{
    if number > u32::MAX as usize {
        return Err(Memory);
    }
    Ok(number as u32)
}

/// The space into which a pointer points (OpenCL 1.2, section 6.5).
pub fn pointed_space(declared: Declared) -> Space
    ensures { result ≡ spec.pointed_space declared }
{
    match declared.space {
        Some(space) => space,
        None => Space::Private,
    }
}

/// The space in which an array, or a scalar without a star, is kept: constant memory outside of functions, local
/// memory where it is marked so, and else the item's private memory (OpenCL 1.2, section 6.5).
pub fn kept_in(environment: &Environment, declared: Declared) -> Space
    ensures { result ≡ spec.kept_in (visible_in environment.now) declared }
{
    if is_at_unit(environment) {
        return Space::Constant;
    }
    match declared.space {
        Some(Space::Local) => Space::Local,
        _ => Space::Private,
    }
}

/// The root of the next object in a space.
fn next_root(environment: &Environment, space: Space) -> Result<Root, Memory>
    ensures { IfOk result (λ r. r ≡ spec.next_root (visible_in environment.now) space) }
{
    match space {
        Space::Constant => Ok(Root::Constant(number_of(environment.tables.len())?)),
        Space::Local => Ok(Root::Local(number_of(environment.arrays.len())?)),
        _ => Ok(Root::Private(number_of(environment.arrays.len())?)),
    }
}

/// The root of the pointer with which a pointer variable is initialised.
fn root_of(kind: Option<Kind>) -> Root
    ensures { result ≡ spec.root_of kind }
{
    match kind {
        Some(Kind::Pointer { root, .. }) => root,
        _ => Root::Param(0),
    }
}

/// The kind of the last part; `None` where there are no parts, or the last one is no expression.
pub fn last_kind(kinds: &[Option<Kind>]) -> Option<Kind>
    ensures { result ≡ spec.last_kind kinds.now }
{
    match kinds {
        [] => None,
        [.., kind] => *kind,
    }
}

fn push_variable(environment: &mut Environment, variable: Var) -> Result<(), Memory>
    ensures { OnOk result ((places : List Place) →
        env_of places environment.new ≡ kept_variable (env_of places environment.old) (variable_of variable)) }
{
    push(&mut environment.variables, variable)
}

/// One more variable of the function, which the name stands for.
fn add_variable(
    alloc: Global,
    environment: &mut Environment,
    name: &[u8],
    place: Place,
    kind: VarKind,
    meaning: Meaning,
) -> Result<(), Memory>
    ensures { OnOk result ((places : List Place) →
        env_of places environment.new ≡ with_variable_at (env_of places environment.old) name.now place kind
        meaning) }
{
    let variable = Var {
        name: Word::new(alloc, name)?,
        kind,
        place,
    };
    push_variable(environment, variable)?;
    declare(
        alloc,
        environment,
        name,
        Entry {
            meaning,
            firm: true,
        },
    )
}

fn push_array(environment: &mut Environment, array: Array) -> Result<(), Memory>
    ensures { OnOk result ((places : List Place) →
        env_of places environment.new ≡ with_array_kept (env_of places environment.old) (array_of array)) }
{
    push(&mut environment.arrays, array)
}

fn push_table(environment: &mut Environment, table: Table) -> Result<(), Memory>
    ensures { OnOk result ((places : List Place) →
        env_of places environment.new ≡ with_table_kept (env_of places environment.old) (table_of table)) }
{
    push(&mut environment.tables, table)
}

/// One more array of the function, or table of the unit.
fn keep_array(
    alloc: Global,
    environment: &mut Environment,
    array: Array,
    declared: Declared,
    declarator: &Declarator,
) -> Result<(), Memory>
    ensures { OnOk result ((places : List Place) →
        env_of places environment.new ≡ kept_array (env_of places environment.old) (array_of array)
        (spec.table_bytes declared array.dims.items (declarator_view declarator.now))) }
{
    if is_at_unit(environment) {
        let bytes = table_bytes(alloc, declared, &array.dims, declarator)?;
        return push_table(environment, Table { array, bytes });
    }
    push_array(environment, array)
}

/// One more array of the function, or table of the unit, which the name stands for.
fn add_array(
    alloc: Global,
    environment: &mut Environment,
    array: Array,
    declared: Declared,
    declarator: &Declarator,
    meaning: Meaning,
) -> Result<(), Memory>
    requires { array.name ≡ declarator.now.name.now }
    ensures { OnOk result ((places : List Place) →
        env_of places environment.new ≡ spec.with_array (env_of places environment.old) (array_of array)
        (spec.table_bytes declared array.dims.items (declarator_view declarator.now)) meaning) }
{
    keep_array(alloc, environment, array, declared, declarator)?;
    declare(
        alloc,
        environment,
        declarator.name,
        Entry {
            meaning,
            firm: true,
        },
    )
}

/// A pointer variable, whose root is that of its initialiser.
fn add_pointer(
    alloc: Global,
    environment: &mut Environment,
    declared: Declared,
    declarator: &Declarator,
    fixed: bool,
    root: Root,
    places: &[Place],
) -> Result<(), Memory>
    ensures { OnOk result (env_of places.now environment.new ≡ spec.with_pointer (env_of places.now environment.old)
        declared (declarator_view declarator.now) fixed root) }
{
    let number = number_of(environment.variables.len())?;
    let space = pointed_space(declared);
    let place = place_of(places, declarator.token);
    let kind = VarKind::Pointer {
        space,
        element: declared.of,
        root,
    };
    let meaning = Meaning::Pointer {
        space,
        element: declared.of,
        constant: declared.constant,
        root,
        fixed,
        number,
    };
    add_variable(alloc, environment, declarator.name, place, kind, meaning)
}

/// A scalar variable of the function.
fn add_number(
    alloc: Global,
    environment: &mut Environment,
    declared: Declared,
    name: &[u8],
    place: Place,
) -> Result<(), Memory>
    ensures { OnOk result ((places : List Place) →
        env_of places environment.new ≡ scalar_at (env_of places environment.old) declared name.now place) }
{
    let number = number_of(environment.variables.len())?;
    let meaning = Meaning::Scalar {
        of: declared.of,
        constant: declared.constant,
        number,
    };
    add_variable(
        alloc,
        environment,
        name,
        place,
        VarKind::Scalar(declared.of),
        meaning,
    )
}

fn array_in(
    alloc: Global,
    space: Space,
    declared: Declared,
    declarator: &Declarator,
    dims: Vec<u64>,
    places: &[Place],
) -> Result<Array, Memory>
    ensures { IfOk result (λ a. (env : rust.Environment) →
        array_of a ≡ spec.array_in (env_of places.now env) space declared (declarator_view declarator.now)
        dims.items) }
{
    Ok(Array {
        name: Word::new(alloc, declarator.name)?,
        space,
        element: declared.of,
        dims,
        place: place_of(places, declarator.token),
    })
}

/// An object of one element.
fn add_object(
    alloc: Global,
    environment: &mut Environment,
    declared: Declared,
    declarator: &Declarator,
    space: Space,
    places: &[Place],
) -> Result<(), Memory>
    ensures { OnOk result (env_of places.now environment.new ≡ with_object (env_of places.now environment.old)
        declared (declarator_view declarator.now) space) }
{
    let root = next_root(environment, space)?;
    let dims = one_length(alloc)?;
    let array = array_in(alloc, space, declared, declarator, dims, places)?;
    let meaning = Meaning::Object {
        space,
        element: declared.of,
        constant: declared.constant,
        root,
    };
    add_array(alloc, environment, array, declared, declarator, meaning)
}

/// A scalar: a variable of the function, or an object of one element.
fn add_scalar(
    alloc: Global,
    environment: &mut Environment,
    declared: Declared,
    declarator: &Declarator,
    places: &[Place],
) -> Result<(), Memory>
    ensures { OnOk result (env_of places.now environment.new ≡ spec.with_scalar (env_of places.now environment.old)
        declared (declarator_view declarator.now) (spec.kept_in (env_of places.now environment.old) declared)) }
{
    let space = kept_in(environment, declared);
    match space {
        Space::Private => {
            let place = place_of(places, declarator.token);
            add_number(alloc, environment, declared, declarator.name, place)
        }
        _ => add_object(alloc, environment, declared, declarator, space, places),
    }
}

/// The lengths of an array; none where they are at fault.
fn dims_or_none(alloc: Global, declarator: &Declarator) -> Result<Vec<u64>, Memory>
    ensures { IfOk result (λ v. v.items ≡ spec.or_none (spec.dims_of (declarator_view declarator.now))) }
{
    match dims_of(alloc, declarator)? {
        Some(dims) => Ok(dims),
        None => Ok(Vec::new(alloc)),
    }
}

/// An array.
fn add_elements(
    alloc: Global,
    environment: &mut Environment,
    declared: Declared,
    declarator: &Declarator,
    places: &[Place],
) -> Result<(), Memory>
    ensures { OnOk result (env_of places.now environment.new ≡
        spec.with_elements (env_of places.now environment.old) declared (declarator_view declarator.now)
        (spec.kept_in (env_of places.now environment.old) declared)
        (spec.or_none (spec.dims_of (declarator_view declarator.now)))) }
{
    let space = kept_in(environment, declared);
    let root = next_root(environment, space)?;
    let dims = dims_or_none(alloc, declarator)?;
    let each = each_of(&dims);
    let array = array_in(alloc, space, declared, declarator, dims, places)?;
    let meaning = Meaning::Array {
        space,
        element: declared.of,
        constant: declared.constant,
        root,
        each,
    };
    add_array(alloc, environment, array, declared, declarator, meaning)
}

/// Declares what a declarator does, whose last part has that kind.
pub(crate) fn add_declarator(
    alloc: Global,
    environment: &mut Environment,
    declarator: &Declarator,
    kind: Option<Kind>,
    places: &[Place],
) -> Result<(), Memory>
    ensures { OnOk result (env_of places.now environment.new ≡
        spec.with_declarator (env_of places.now environment.old) (env_of places.now environment.old).declared
        (declarator_view declarator.now) kind) }
{
    let Some(declared) = environment.declared else {
        return Ok(());
    };
    if let Some(fixed) = declarator.star {
        let root = root_of(kind);
        return add_pointer(
            alloc,
            environment,
            declared,
            declarator,
            fixed,
            root,
            places,
        );
    }
    if declarator.dimensions == 0 {
        return add_scalar(alloc, environment, declared, declarator, places);
    }
    add_elements(alloc, environment, declared, declarator, places)
}

/// A pointer parameter, which is a root of its own.
fn add_pointer_parameter(
    alloc: Global,
    environment: &mut Environment,
    declared: Declared,
    name: &[u8],
    place: Place,
    fixed: bool,
) -> Result<(), Memory>
    ensures { OnOk result ((places : List Place) →
        env_of places environment.new ≡ pointer_parameter_at (env_of places environment.old) declared name.now
        place fixed) }
{
    let number = number_of(environment.variables.len())?;
    let space = pointed_space(declared);
    let kind = VarKind::Pointer {
        space,
        element: declared.of,
        root: Root::Param(number),
    };
    let meaning = Meaning::Pointer {
        space,
        element: declared.of,
        constant: declared.constant,
        root: Root::Param(number),
        fixed,
        number,
    };
    add_variable(alloc, environment, name, place, kind, meaning)
}

/// Declares a parameter with these parts.
pub(crate) fn add_parameter(
    alloc: Global,
    environment: &mut Environment,
    name: &[u8],
    token: u32,
    parts: &[Tree],
    places: &[Place],
) -> Result<(), Memory>
    ensures { OnOk result (env_of places.now environment.new ≡
        spec.with_parameter (env_of places.now environment.old) name.now token (spec.first_type (views parts.now))
        (spec.second_star (views parts.now))) }
{
    let Some(declared) = first_type(parts) else {
        return Ok(());
    };
    let place = place_of(places, token);
    match second_star(parts) {
        Some(fixed) => add_pointer_parameter(alloc, environment, declared, name, place, fixed),
        None => add_number(alloc, environment, declared, name, place),
    }
}
