//! Which expressions are vectors (OpenCL 1.2, sections 6.1.6, 6.1.7 and 6.3).

ghost use Rattle.std.specs.Prelude.{◌≡◌, ℕ, List, Some, length, option_map, IfOk};
ghost use Rattle.cl_short_vec.specs.Kinds as spec;

use crate::selections::selected;
use crate::types::{Vector, signed_of};
use cl_meaning::{Intrinsic, Postfix, Prefix, is_comparison};
use cl_model::Space;
use cl_tree::Form;
use std::alloc::Global;
use wg_num::{Bin, Memory, Un, result_type};

/// What a vector reaches beside its value: nothing, a variable, or an element in a space. Selected components of a
/// variable or an element reach what it reaches. `constant` is whether the element is `const`.
#[derive(Clone, Copy, PartialEq, Eq, Debug)]
pub enum Reach {
    Value,
    Variable,
    Element { space: Space, constant: bool },
}

/// What an expression is: a vector, a pointer to vectors or an array of them, or anything else. `known` is false of a
/// name that is not visible, and of what may be a vector or not by such a name.
#[derive(Clone, Copy, PartialEq, Eq, Debug)]
pub enum Kind {
    Vectors {
        vector: Vector,
        reach: Reach,
    },
    Pointer {
        space: Space,
        constant: bool,
        vector: Vector,
    },
    Other {
        known: bool,
    },
}

/// Whether it is known what it is: a name that is not visible may be anything.
fn is_known(kind: Kind) -> bool
    ensures { result ≡ spec.is_known kind }
{
    match kind {
        Kind::Other { known } => known,
        _ => true,
    }
}

/// Whether it is a vector.
pub fn is_vector(kind: Kind) -> bool
    ensures { result ≡ spec.is_vector kind }
{
    match kind {
        Kind::Vectors { .. } => true,
        _ => false,
    }
}

/// The value of a vector.
pub fn value_of(kind: Kind) -> Kind
    ensures { result ≡ spec.value_of kind }
{
    match kind {
        Kind::Vectors { vector, .. } => Kind::Vectors {
            vector,
            reach: Reach::Value,
        },
        _ => Kind::Other {
            known: is_known(kind),
        },
    }
}

/// The value of the first of two that is a vector.
fn first_vector(a: Kind, b: Kind) -> Kind
    ensures { result ≡ spec.first_vector a b }
{
    if is_vector(a) {
        value_of(a)
    } else {
        value_of(b)
    }
}

/// What a comma or an assignment gives: a pointer, but no vector.
pub fn pointer_alone(kind: Kind) -> Kind
    ensures { result ≡ spec.pointer_alone kind }
{
    match kind {
        Kind::Pointer { .. } => kind,
        _ => Kind::Other {
            known: is_known(kind),
        },
    }
}

fn element_of(kind: Kind) -> Kind
    ensures { result ≡ spec.element_of kind }
{
    match kind {
        Kind::Pointer {
            space,
            constant,
            vector,
        } => Kind::Vectors {
            vector,
            reach: Reach::Element { space, constant },
        },
        _ => Kind::Other {
            known: is_known(kind),
        },
    }
}

fn address_of(kind: Kind) -> Kind
    ensures { result ≡ spec.address_of kind }
{
    match kind {
        Kind::Vectors {
            vector,
            reach: Reach::Element { space, constant },
        } => Kind::Pointer {
            space,
            constant,
            vector,
        },
        _ => Kind::Other {
            known: is_known(kind),
        },
    }
}

/// What so many components of a vector are.
fn several(vector: Vector, reach: Reach, count: usize) -> Kind
    ensures { (ks : List ℕ) → length ks ≡ count → result ≡ spec.several vector reach (Some ks) }
{
    if count == 1 {
        return Kind::Other { known: true };
    }
    Kind::Vectors {
        vector: Vector {
            of: vector.of,
            count,
        },
        reach,
    }
}

/// What a name selects (OpenCL 1.2, section 6.1.7). `Memory` where memory was refused.
fn selection_kind(alloc: Global, kind: Kind, name: &[u8]) -> Result<Kind, Memory>
    ensures { IfOk result (λ k. k ≡ spec.selection_of kind name.now) }
{
    match kind {
        Kind::Vectors { vector, reach } => match selected(alloc, vector.count, name)? {
            Some(numbers) => Ok(several(vector, reach, numbers.len())),
            None => Ok(Kind::Other { known: true }),
        },
        _ => Ok(Kind::Other { known: true }),
    }
}

fn compared(op: Bin, kind: Kind) -> Kind
    ensures { result ≡ spec.compared op kind }
{
    match kind {
        Kind::Vectors { vector, reach } => {
            if is_comparison(op) {
                return Kind::Vectors {
                    vector: Vector {
                        of: signed_of(vector.of),
                        count: vector.count,
                    },
                    reach,
                };
            }
            kind
        }
        _ => kind,
    }
}

fn pointer_moved(op: Bin, a: Kind, b: Kind) -> Kind
    ensures { result ≡ spec.pointer_moved op a b }
{
    match (op, a, b) {
        (Bin::Add, Kind::Pointer { .. }, Kind::Other { .. }) => a,
        (Bin::Add, Kind::Other { .. }, Kind::Pointer { .. }) => b,
        (Bin::Sub, Kind::Pointer { .. }, Kind::Other { .. }) => a,
        _ => Kind::Other {
            known: is_known(a) && is_known(b),
        },
    }
}

/// What an operator on two operands gives (OpenCL 1.2, section 6.3).
pub fn joined_kind(op: Option<Bin>, a: Kind, b: Kind) -> Kind
    ensures { result ≡ spec.joined_kind op a b }
{
    match op {
        None => Kind::Other { known: true },
        Some(op) => {
            let vector = first_vector(a, b);
            if is_vector(vector) {
                return compared(op, vector);
            }
            pointer_moved(op, a, b)
        }
    }
}

/// What an operator before its operand gives.
pub fn prefix_kind(prefix: Option<Prefix>, kind: Kind) -> Kind
    ensures { result ≡ spec.prefix_kind prefix kind }
{
    match prefix {
        Some(Prefix::Operator(Un::Not)) => Kind::Other { known: true },
        Some(Prefix::Operator(_)) => value_of(kind),
        Some(Prefix::Content) => element_of(kind),
        Some(Prefix::Address) => address_of(kind),
        Some(Prefix::Step(_)) => pointer_alone(kind),
        _ => Kind::Other { known: true },
    }
}

/// What a selection gives, or an operator behind its operand. `Memory` where memory was refused.
pub fn postfix_kind(
    alloc: Global,
    selection: Option<&[u8]>,
    postfix: Option<Postfix>,
    kind: Kind,
) -> Result<Kind, Memory>
    ensures { IfOk result (λ k. k ≡ spec.postfix_kind (option_map (λ n. n.now) selection.entry) postfix kind) }
{
    match (selection, postfix) {
        (Some(name), _) => selection_kind(alloc, kind, name),
        (None, Some(Postfix::Index)) => Ok(element_of(kind)),
        (None, Some(Postfix::Step(_))) => Ok(pointer_alone(kind)),
        (None, None) => Ok(Kind::Other { known: true }),
    }
}

/// What a function that is known without a declaration gives, where the first argument that is a vector is this one
/// (OpenCL 1.2, section 6.12.3).
pub fn called_kind(intrinsic: Option<Intrinsic>, argument: Kind) -> Kind
    ensures { result ≡ spec.called_kind intrinsic argument }
{
    match (intrinsic, argument) {
        (Some(Intrinsic::Function(function)), Kind::Vectors { vector, .. }) => Kind::Vectors {
            vector: Vector {
                of: result_type(function, vector.of),
                count: vector.count,
            },
            reach: Reach::Value,
        },
        _ => Kind::Other { known: true },
    }
}

/// What a cast to that vector type gives; anything else casts to no vector.
pub fn cast_kind(vector: Option<Vector>) -> Kind
    ensures { result ≡ spec.cast_kind vector }
{
    match vector {
        Some(vector) => Kind::Vectors {
            vector,
            reach: Reach::Value,
        },
        None => Kind::Other { known: true },
    }
}

/// Whether a node of that production is an operator on two operands, `&&` and `||` aside.
pub fn is_operator(form: Form) -> bool
    ensures { result ≡ spec.is_operator form }
{
    match form {
        Form::TermNode
        | Form::SumNode
        | Form::ShiftNode
        | Form::OrderNode
        | Form::EqualNode
        | Form::BandNode
        | Form::BxorNode
        | Form::BorNode => true,
        _ => false,
    }
}
