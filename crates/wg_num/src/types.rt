//! The types of values, and the names of operators and functions.

ghost use Rattle.std.specs.Prelude.{◌≡◌};
ghost use Rattle.std.specs.Bool.{OnTrue};
ghost use Rattle.wg_num.specs.Bytes as bytes;
ghost use Rattle.wg_num.specs.Operators as operators;
ghost use Rattle.wg_num.specs.Types as spec;

use thiserror::Error;

/// An integer type of the language (OpenCL 1.2, section 6.1.1); `size_t` is `Ulong`.
#[derive(Clone, Copy, PartialEq, Eq, Debug)]
pub enum IntType {
    Bool,
    Char,
    Uchar,
    Short,
    Ushort,
    Int,
    Uint,
    Long,
    Ulong,
}

/// Whether two types are one.
#[tactic(auto, using(crate::proofs::TypeLaws::same_type_is))]
pub fn same_type(a: IntType, b: IntType) -> bool
    ensures same { result ≡ spec.same_type a b }
    ensures one { OnTrue result (a ≡ b) }
{
    match (a, b) {
        (IntType::Bool, IntType::Bool) => true,
        (IntType::Char, IntType::Char) => true,
        (IntType::Uchar, IntType::Uchar) => true,
        (IntType::Short, IntType::Short) => true,
        (IntType::Ushort, IntType::Ushort) => true,
        (IntType::Int, IntType::Int) => true,
        (IntType::Uint, IntType::Uint) => true,
        (IntType::Long, IntType::Long) => true,
        (IntType::Ulong, IntType::Ulong) => true,
        _ => false,
    }
}

/// How many bytes a value of the type takes.
pub fn size_of(t: IntType) -> u32
    ensures { result ≡ bytes.size_of t }
{
    match t {
        IntType::Bool | IntType::Char | IntType::Uchar => 1,
        IntType::Short | IntType::Ushort => 2,
        IntType::Int | IntType::Uint => 4,
        IntType::Long | IntType::Ulong => 8,
    }
}

/// The unary operators `+`, `-`, `~` and `!` (C99, section 6.5.3.3).
#[derive(Clone, Copy, PartialEq, Eq, Debug)]
pub enum Un {
    Plus,
    Minus,
    Flip,
    Not,
}

/// The binary operators that take two values (C99, sections 6.5.5 to 6.5.12).
#[derive(Clone, Copy, PartialEq, Eq, Debug)]
pub enum Bin {
    Add,
    Sub,
    Mul,
    Div,
    Rem,
    Shl,
    Shr,
    And,
    Or,
    Xor,
    Eq,
    Ne,
    Lt,
    Le,
    Gt,
    Ge,
}

/// Whether the operator shifts its left operand by its right one (C99, section 6.5.7).
pub fn is_shift(op: Bin) -> bool
    ensures { result ≡ operators.is_shift op }
{
    matches!(op, Bin::Shl | Bin::Shr)
}

/// The built-in integer functions (OpenCL 1.2, section 6.12.3).
#[derive(Clone, Copy, PartialEq, Eq, Debug)]
pub enum Fun {
    Abs,
    AbsDiff,
    Min,
    Max,
    Clamp,
    AddSat,
    SubSat,
    Hadd,
    Rhadd,
    MulHi,
    Rotate,
    Clz,
    Popcount,
}

/// A line and a column of a text, both counted from 1.
#[derive(Clone, Copy, PartialEq, Eq, Debug)]
pub struct Place {
    pub line: u32,
    pub column: u32,
}

/// How many work-items a chunk has.
#[derive(Clone, Copy, PartialEq, Eq, Debug)]
pub enum Width {
    W1,
    W4,
    W8,
    W16,
}

/// How many lanes a chunk of the width has.
pub fn lanes_of(width: Width) -> u32
    ensures { result ≡ operators.lanes_of width }
{
    match width {
        Width::W1 => 1,
        Width::W4 => 4,
        Width::W8 => 8,
        Width::W16 => 16,
    }
}

/// Memory was refused.
#[derive(Clone, Copy, PartialEq, Eq, Debug, Error)]
#[error("out of memory")]
pub struct Memory;
