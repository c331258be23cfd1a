//! Kinds, and those of elements, casts and commas.

ghost use Rattle.std.specs.Prelude.{◌≡◌, Some};
ghost use Rattle.cl_meaning.specs.Kinds as spec;
ghost use Rattle.cl_meaning.specs.declared.kind.Kind.TheVariants as kinds;
ghost use Rattle.cl_meaning.specs.declared.kind.Reach.TheVariants as reach;

use cl_meaning::{Declared, Each, Kind, Reach};
use cl_model::{Root, Space};
use wg_num::IntType;

/// The kind of a number that is no more than its value.
pub fn number(of: IntType) -> Kind
    ensures { result ≡ spec.number of }
{
    Kind::Number {
        of,
        reach: Reach::Value,
    }
}

/// Whether it is a number.
pub fn is_number(kind: Kind) -> bool
    ensures { result ≡ spec.is_number kind }
{
    match kind {
        Kind::Number { .. } => true,
        _ => false,
    }
}

/// Whether it is a number or a pointer, and no array of more than one dimension.
pub fn is_scalar(kind: Kind) -> bool
    ensures { result ≡ spec.is_scalar kind }
{
    match kind {
        Kind::Number { .. } => true,
        Kind::Pointer {
            each: Each::Element,
            ..
        } => true,
        _ => false,
    }
}

/// The kind without what it reaches.
pub fn value_kind(kind: Kind) -> Kind
    ensures { result ≡ spec.value_kind kind }
{
    match kind {
        Kind::Number { of, .. } => number(of),
        Kind::Pointer {
            space,
            element,
            constant,
            root,
            each,
            ..
        } => Kind::Pointer {
            space,
            element,
            constant,
            root,
            each,
            reach: Reach::Value,
        },
        Kind::Nothing => Kind::Nothing,
    }
}

/// The kind of a comma (C99, section 6.5.17); `None` where an operand does not fit.
pub fn comma_kind(left: Kind, right: Kind) -> Option<Kind>
    ensures { result ≡ spec.comma_kind left right }
{
    if is_scalar(left) && is_scalar(right) {
        Some(value_kind(right))
    } else {
        None
    }
}

/// The kind of a conversion to a type (C99, section 6.5.4); `None` where the type is outside the profile
/// and for other operands than numbers.
pub fn cast_kind(declared: Option<Declared>, kind: Kind) -> Option<Kind>
    ensures { result ≡ spec.cast_kind declared kind }
{
    match (declared, kind) {
        (Some(declared), Kind::Number { .. }) => Some(number(declared.of)),
        _ => None,
    }
}

/// The kind of an element or a row of an array of more dimensions, which is a pointer and no variable.
fn part_kind(space: Space, element: IntType, constant: bool, root: Root, each: Each) -> Option<Kind>
    ensures { result ≡ Some (kinds.Pointer space element constant root each reach.Value) }
{
    Some(Kind::Pointer {
        space,
        element,
        constant,
        root,
        each,
        reach: Reach::Value,
    })
}

/// What indexing an array or a pointer reaches (C99, section 6.5.2.1); `None` for other kinds.
pub fn element_kind(kind: Kind) -> Option<Kind>
    ensures { result ≡ spec.element_kind kind }
{
    match kind {
        Kind::Pointer {
            space,
            element,
            constant,
            root,
            each: Each::Element,
            ..
        } => Some(Kind::Number {
            of: element,
            reach: Reach::Element {
                space,
                constant,
                root,
            },
        }),
        Kind::Pointer {
            space,
            element,
            constant,
            root,
            each: Each::Row { .. },
            ..
        } => part_kind(space, element, constant, root, Each::Element),
        Kind::Pointer {
            space,
            element,
            constant,
            root,
            each: Each::Plane { length, .. },
            ..
        } => part_kind(space, element, constant, root, Each::Row { length }),
        _ => None,
    }
}

/// The kind of an indexed element; `None` where an operand does not fit.
pub fn index_kind(array: Kind, index: Kind) -> Option<Kind>
    ensures { result ≡ spec.index_kind array index }
{
    match index {
        Kind::Number { .. } => element_kind(array),
        _ => None,
    }
}

/// The kind of the address of an indexed element (C99, section 6.5.3.2); `None` for other operands.
pub fn address_kind(kind: Kind) -> Option<Kind>
    ensures { result ≡ spec.address_kind kind }
{
    match kind {
        Kind::Number {
            of,
            reach: Reach::Element {
                space,
                constant,
                root,
            },
        } => Some(Kind::Pointer {
            space,
            element: of,
            constant,
            root,
            each: Each::Element,
            reach: Reach::Value,
        }),
        _ => None,
    }
}
