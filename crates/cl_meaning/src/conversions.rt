//! The types in which operators compute.

ghost use Rattle.std.specs.Prelude.{◌≡◌};
ghost use Rattle.cl_meaning.specs.Conversions as spec;
ghost use Rattle.cl_meaning.specs.Kinds as kinds;

use crate::kind::Kind;
use wg_num::{Bin, IntType, Un, is_shift};

/// The type to which a value is promoted (C99, section 6.3.1.1).
pub fn promoted(t: IntType) -> IntType
    ensures { result ≡ spec.promoted t }
{
    match t {
        IntType::Bool | IntType::Char | IntType::Uchar | IntType::Short | IntType::Ushort => {
            IntType::Int
        }
        IntType::Int | IntType::Uint | IntType::Long | IntType::Ulong => t,
    }
}

/// The common type of two operands: of their promoted types the wider one, or of one width the
/// unsigned one (C99, section 6.3.1.8).
pub fn common(a: IntType, b: IntType) -> IntType
    ensures { result ≡ spec.common a b }
{
    match (promoted(a), promoted(b)) {
        (IntType::Ulong, _) | (_, IntType::Ulong) => IntType::Ulong,
        (IntType::Long, _) | (_, IntType::Long) => IntType::Long,
        (IntType::Uint, _) | (_, IntType::Uint) => IntType::Uint,
        _ => IntType::Int,
    }
}

/// Whether the operator compares (C99, sections 6.5.8 and 6.5.9).
pub fn is_comparison(op: Bin) -> bool
    ensures { result ≡ spec.is_comparison op }
{
    match op {
        Bin::Eq | Bin::Ne | Bin::Lt | Bin::Le | Bin::Gt | Bin::Ge => true,
        _ => false,
    }
}

/// The type in which an operator on operands of these types computes, and to which it converts the
/// left one.
pub fn operand_type(op: Bin, a: IntType, b: IntType) -> IntType
    ensures { result ≡ spec.operand_type op a b }
{
    if is_shift(op) {
        promoted(a)
    } else {
        common(a, b)
    }
}

/// The type to which an operator on operands of these types converts the right one.
pub fn right_type(op: Bin, a: IntType, b: IntType) -> IntType
    ensures { result ≡ spec.right_type op a b }
{
    if is_shift(op) {
        promoted(b)
    } else {
        common(a, b)
    }
}

/// The type of the result of an operator that computes in the type.
pub fn binary_type(op: Bin, of: IntType) -> IntType
    ensures { result ≡ spec.binary_type op of }
{
    if is_comparison(op) { IntType::Int } else { of }
}

/// The type of the result of an operator on one operand that computes in the type.
pub fn unary_type(op: Un, of: IntType) -> IntType
    ensures { result ≡ spec.unary_type op of }
{
    match op {
        Un::Not => IntType::Int,
        Un::Plus | Un::Minus | Un::Flip => of,
    }
}

/// The type of a number; that of a pointer is its offset's.
pub fn type_of(kind: Kind) -> IntType
    ensures { result ≡ kinds.type_of kind }
{
    match kind {
        Kind::Number { of, .. } => of,
        _ => IntType::Long,
    }
}

/// A type as that of an argument of a built-in function: `bool` counts as `int` (OpenCL 1.2, section 6.12.3).
pub fn counted(of: IntType) -> IntType
    ensures { result ≡ kinds.counted of }
{
    match of {
        IntType::Bool => IntType::Int,
        other => other,
    }
}
