//! The types of what operators and functions give, and of what variables hold.

ghost use Rattle.std.specs.Prelude.{◌≡◌, slice_get};
ghost use Rattle.cl_model.specs.Valid as valid;

use crate::program::{Query, VarKind};
use wg_num::{Bin, Fun, IntType, Un};

/// The type to which a value is promoted (C99, section 6.3.1.1).
pub fn promoted(t: IntType) -> IntType
    ensures { result ≡ valid.promoted t }
{
    match t {
        IntType::Bool
        | IntType::Char
        | IntType::Uchar
        | IntType::Short
        | IntType::Ushort
        | IntType::Int => IntType::Int,
        IntType::Uint => IntType::Uint,
        IntType::Long => IntType::Long,
        IntType::Ulong => IntType::Ulong,
    }
}

/// The type of the result of an operator that computes in a type.
pub fn unary_type(op: Un, of: IntType) -> IntType
    ensures { result ≡ valid.unary_type op of }
{
    match op {
        Un::Plus | Un::Minus | Un::Flip => of,
        Un::Not => IntType::Int,
    }
}

/// The same of an operator on two operands: int for a comparison.
pub fn binary_type(op: Bin, of: IntType) -> IntType
    ensures { result ≡ valid.binary_type op of }
{
    match op {
        Bin::Add
        | Bin::Sub
        | Bin::Mul
        | Bin::Div
        | Bin::Rem
        | Bin::Shl
        | Bin::Shr
        | Bin::And
        | Bin::Or
        | Bin::Xor => of,
        Bin::Eq | Bin::Ne | Bin::Lt | Bin::Le | Bin::Gt | Bin::Ge => IntType::Int,
    }
}

/// How many arguments a built-in function takes (OpenCL 1.2, section 6.12.3).
pub fn arity_of(f: Fun) -> usize
    ensures { result ≡ valid.arity_of f }
{
    match f {
        Fun::Abs | Fun::Clz | Fun::Popcount => 1,
        Fun::AbsDiff
        | Fun::Min
        | Fun::Max
        | Fun::AddSat
        | Fun::SubSat
        | Fun::Hadd
        | Fun::Rhadd
        | Fun::MulHi
        | Fun::Rotate => 2,
        Fun::Clamp => 3,
    }
}

/// The type of what a work-item function gives (OpenCL 1.2, section 6.12.1).
pub fn query_type(what: Query) -> IntType
    ensures { result ≡ valid.query_type what }
{
    match what {
        Query::WorkDim => IntType::Uint,
        Query::GlobalId
        | Query::LocalId
        | Query::GroupId
        | Query::GlobalSize
        | Query::LocalSize
        | Query::NumGroups
        | Query::GlobalOffset => IntType::Ulong,
    }
}

/// The type of what a variable holds; that of a pointer is its offset.
pub fn kind_type(kind: VarKind) -> IntType
    ensures { result ≡ valid.kind_type kind }
{
    match kind {
        VarKind::Scalar(of) => of,
        VarKind::Pointer { .. } => IntType::Long,
    }
}

/// Whether a parameter has this number, and is a pointer.
pub fn is_pointer(params: &[VarKind], number: u32) -> bool
    ensures { result ≡ valid.is_pointer (slice_get params.now number) }
{
    match params.get(number as usize) {
        Some(VarKind::Pointer { .. }) => true,
        Some(VarKind::Scalar(_)) | None => false,
    }
}
