//! What names stand for, and where a node stands.
ghost use Rattle.std.specs.Prelude.{◌≡◌, Some, option_map, map};
ghost use Rattle.cl_meaning.specs.Environment as spec;
ghost use Rattle.cl_meaning.specs.Kinds as kinds;
ghost use Rattle.cl_meaning.specs.declared.kind.Kind.TheVariants as variants;
ghost use Rattle.cl_meaning.specs.Visible as visible;
ghost use Rattle.cl_scope.specs.View.{scope_of, visible_in};
ghost use Rattle.cl_scope.specs.Callees.{callee_view, definition_view};

use crate::environment::{Environment, Names, Signature};
use cl_meaning::{Each, Entry, Intrinsic, Kind, Meaning, Reach, flag_of, intrinsic_of};
use cl_model::{Root, Space};
use wg_num::IntType;

fn find(scope: &Names, name: &[u8]) -> Option<Entry>
    ensures { result ≡ scope_of scope.now name.now }
{
    scope.get(name).copied()
}

/// What the name stands for in the innermost of the scopes that has it.
fn found_in(scopes: &[Names], name: &[u8]) -> Option<Entry>
    ensures { result ≡ spec.found_in (map scope_of scopes.now) name.now }
{
    let mut index = scopes.len();
    while index > 0 {
        index -= 1;
        if let Some(entry) = find(&scopes[index], name) {
            return Some(entry);
        }
    }
    None
}

/// What the name stands for in the innermost scope.
fn found_in_last(scopes: &[Names], name: &[u8]) -> Option<Entry>
    ensures { result ≡ spec.in_last (map scope_of scopes.now) name.now }
{
    match scopes {
        [] => None,
        [.., scope] => find(scope, name),
    }
}

/// What the name stands for; `None` where no scope declares it. An inner scope hides the outer ones (C99, section
/// 6.2.1).
pub fn meaning_of(environment: &Environment, name: &[u8]) -> Option<Meaning>
    ensures { result ≡ spec.meaning_of (visible_in environment.now) name.now }
{
    match found_in(&environment.scopes, name) {
        Some(entry) => Some(entry.meaning),
        None => None,
    }
}

/// Whether the innermost scope declares the name, prototypes aside: then it cannot do so again (C99, section 6.7).
pub fn is_declared(environment: &Environment, name: &[u8]) -> bool
    ensures { result ≡ spec.is_declared (visible_in environment.now) name.now }
{
    match found_in_last(&environment.scopes, name) {
        Some(entry) => entry.firm,
        None => false,
    }
}

/// Whether the node is outside of all functions, so that the unit's scope is the only one (C99, section 6.2.1).
pub fn is_at_unit(environment: &Environment) -> bool
    ensures { result ≡ spec.at_unit (visible_in environment.now) }
{
    environment.scopes.len() == 1
}

/// Whether the innermost scope is that of a function's parameters and outermost block, the one scope of a kernel in
/// which local memory may be declared (OpenCL 1.2, section 6.5.2).
pub fn is_at_outermost(environment: &Environment) -> bool
    ensures { result ≡ spec.at_outermost (visible_in environment.now) }
{
    environment.scopes.len() == 3
}

/// What a call calls (C99, section 6.5.2.2).
#[derive(Clone, Copy)]
pub enum Callee<'a> {
    /// A function of the unit, by the number of its definition.
    Defined {
        number: u32,
        signature: &'a Signature,
    },
    /// A function with a prototype and without a definition.
    Undefined,
    /// A name that is known without a declaration.
    Known(Intrinsic),
}

/// What a call of that name calls; `None` where the name is visible as no function, or as a kernel (C99, section
/// 6.5.2.2).
pub fn callee_of<'a>(environment: &'a Environment, name: &[u8]) -> Option<Callee<'a>>
    ensures { option_map callee_view result ≡ kinds.callee_of (visible_in environment.now) name.now }
{
    match meaning_of(environment, name) {
        None => match intrinsic_of(name) {
            Some(intrinsic) => Some(Callee::Known(intrinsic)),
            None => None,
        },
        Some(Meaning::Function { number }) => match environment.functions.get(number as usize) {
            Some(signature) => Some(Callee::Defined { number, signature }),
            None => None,
        },
        Some(Meaning::Undefined) => Some(Callee::Undefined),
        Some(_) => None,
    }
}

/// Whether the name is one of the two that are known in the argument of a fence (OpenCL 1.2, section
/// 6.12.8), and the node is in one.
pub fn is_flag(environment: &Environment, name: &[u8]) -> bool
    ensures { result ≡ kinds.is_flag (visible_in environment.now) name.now }
{
    environment.flags && flag_of(name).is_some()
}

/// The kind of a name that stands for a pointer or an array.
fn pointer_to(
    space: Space,
    element: IntType,
    constant: bool,
    root: Root,
    each: Each,
    reach: Reach,
) -> Option<Kind>
    ensures { result ≡ Some (variants.Pointer space element constant root each reach) }
{
    Some(Kind::Pointer {
        space,
        element,
        constant,
        root,
        each,
        reach,
    })
}

/// The kind of an expression that is a name which stands for this; `None` for functions and kernels (C99, section
/// 6.5.1).
pub fn kind_of_meaning(meaning: Meaning) -> Option<Kind>
    ensures { result ≡ kinds.kind_of_meaning meaning }
{
    match meaning {
        Meaning::Scalar { of, constant, .. } => Some(Kind::Number {
            of,
            reach: Reach::Variable { constant },
        }),
        Meaning::Pointer {
            space,
            element,
            constant,
            root,
            fixed,
            ..
        } => {
            let reach = Reach::Variable { constant: fixed };
            pointer_to(space, element, constant, root, Each::Element, reach)
        }
        Meaning::Object {
            space,
            element,
            constant,
            ..
        } => Some(Kind::Number {
            of: element,
            reach: Reach::Object { space, constant },
        }),
        Meaning::Array {
            space,
            element,
            constant,
            root,
            each,
        } => pointer_to(space, element, constant, root, each, Reach::Value),
        Meaning::Function { .. } | Meaning::Undefined | Meaning::Kernel => None,
    }
}

/// The kind of an expression that is this name; `None` where it is not visible as a number, pointer or array (C99,
/// section 6.5.1). The two names of memory fences are numbers in the argument of a fence (OpenCL 1.2, section
/// 6.12.8).
pub fn name_kind(environment: &Environment, name: &[u8]) -> Option<Kind>
    ensures { result ≡ kinds.name_kind (visible_in environment.now) name.now }
{
    if is_flag(environment, name) {
        return Some(Kind::Number {
            of: IntType::Uint,
            reach: Reach::Value,
        });
    }
    match meaning_of(environment, name) {
        Some(meaning) => kind_of_meaning(meaning),
        None => None,
    }
}

/// What the name of a function stands for, whose number this is.
pub(crate) fn function_meaning(kernel: bool, number: u32) -> Meaning
    ensures { result ≡ visible.function_meaning kernel number }
{
    if kernel {
        return Meaning::Kernel;
    }
    Meaning::Function { number }
}

/// The first definition of a function: its number among those of the unit, from 0, and whether it is a kernel.
#[derive(Clone, Copy)]
pub struct Definition {
    pub number: usize,
    pub kernel: bool,
}

/// The first definition of that name in the unit, in front of the node or behind it; `None` where there is none (C99,
/// section 6.9.1).
pub fn definition_of(environment: &Environment, name: &[u8]) -> Option<Definition>
    ensures { option_map definition_view result ≡ visible.definition_of (visible_in environment.now) name.now }
{
    for (number, function) in environment.functions.iter().enumerate() {
        if function.name.bytes() == name {
            return Some(Definition {
                number,
                kernel: function.kernel,
            });
        }
    }
    None
}

/// Whether a prototype of that name declares it: nothing in the innermost scope does yet, and it is not known without
/// a declaration (C99, section 6.7.5.3).
pub fn is_announced(environment: &Environment, name: &[u8]) -> bool
    ensures { result ≡ visible.announced (visible_in environment.now) name.now }
{
    found_in_last(&environment.scopes, name).is_none() && intrinsic_of(name).is_none()
}
