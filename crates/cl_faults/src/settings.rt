//! Which kinds are assigned, and what to them (C99, sections 6.5.16, 6.5.2.4 and 6.5.3.1).

ghost use Rattle.std.specs.Prelude.{◌≡◌};
ghost use Rattle.cl_meaning.specs.Kinds as spec;
ghost use Rattle.cl_meaning.specs.Faults as faults;

use crate::kinds::value_kind;
use cl_meaning::{Each, Kind, Reach, Setting, same_root, same_space};
use cl_model::Space;
use wg_num::{Bin, same_type};

/// Whether it is a scalar variable, a pointer variable or an element.
pub fn is_target(kind: Kind) -> bool
    ensures { result ≡ spec.is_target kind }
{
    match kind {
        Kind::Number {
            reach: Reach::Value,
            ..
        } => false,
        Kind::Number { .. } => true,
        Kind::Pointer {
            reach: Reach::Variable { .. },
            ..
        } => true,
        _ => false,
    }
}

/// Whether it is an element of constant memory.
pub fn is_constant_memory(kind: Kind) -> bool
    ensures { result ≡ spec.is_constant_memory kind }
{
    match kind {
        Kind::Number {
            reach: Reach::Object { space, .. },
            ..
        } => same_space(space, Space::Constant),
        Kind::Number {
            reach: Reach::Element { space, .. },
            ..
        } => same_space(space, Space::Constant),
        _ => false,
    }
}

/// Whether it is a target that is `const` (C99, section 6.7.3).
pub fn is_fixed(kind: Kind) -> bool
    ensures { result ≡ spec.is_fixed kind }
{
    match kind {
        Kind::Number {
            reach: Reach::Variable { constant },
            ..
        } => constant,
        Kind::Number {
            reach: Reach::Object { constant, .. },
            ..
        } => constant,
        Kind::Number {
            reach: Reach::Element { constant, .. },
            ..
        } => constant,
        Kind::Pointer {
            reach: Reach::Variable { constant },
            ..
        } => constant,
        _ => false,
    }
}

/// Whether the target may be assigned.
pub fn assignable(kind: Kind) -> bool
    ensures { result ≡ spec.assignable kind }
{
    is_target(kind) && !(is_fixed(kind) || is_constant_memory(kind))
}

/// Whether it is no target, or one that is `const` in other memory than constant memory.
pub fn unassignable(kind: Kind) -> bool
    ensures { result ≡ faults.unassignable kind }
{
    !is_target(kind) || (is_fixed(kind) && !is_constant_memory(kind))
}

/// Whether a value fits a target, its root aside.
pub fn value_fits(setting: Setting, target: Kind, value: Kind) -> bool
    ensures { result ≡ spec.value_fits setting target value }
{
    match (setting, target, value) {
        (_, Kind::Number { .. }, Kind::Number { .. }) => true,
        (
            Setting::Plain,
            Kind::Pointer { space, element, .. },
            Kind::Pointer {
                space: other_space,
                element: other_element,
                each: Each::Element,
                ..
            },
        ) => same_space(space, other_space) && same_type(element, other_element),
        (Setting::With(Bin::Add), Kind::Pointer { .. }, Kind::Number { .. }) => true,
        (Setting::With(Bin::Sub), Kind::Pointer { .. }, Kind::Number { .. }) => true,
        _ => false,
    }
}

/// Whether the target would get a pointer of another root.
pub fn root_changes(setting: Setting, target: Kind, value: Kind) -> bool
    ensures { result ≡ spec.root_changes setting target value }
{
    match (setting, target, value) {
        (Setting::Plain, Kind::Pointer { root, .. }, Kind::Pointer { root: other, .. }) => {
            !same_root(root, other)
        }
        _ => false,
    }
}

/// The kind of an assignment; `None` where it is at fault.
pub fn set_kind(setting: Setting, target: Kind, value: Kind) -> Option<Kind>
    ensures { result ≡ spec.set_kind setting target value }
{
    if assignable(target)
        && value_fits(setting, target, value)
        && !root_changes(setting, target, value)
    {
        Some(value_kind(target))
    } else {
        None
    }
}

/// The kind of `++` and `--`; `None` where the operand may not be assigned.
pub fn step_kind(kind: Kind) -> Option<Kind>
    ensures { result ≡ spec.step_kind kind }
{
    if assignable(kind) {
        Some(value_kind(kind))
    } else {
        None
    }
}
