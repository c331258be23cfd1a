//! The operands of a step.

use crate::step::{Bank, Reg};
use cl_model::{Query, Root};
use wg_num::{Bin, Fun, IntType, Un};

/// The name of a register or of a type among the operands of a step.
#[derive(Clone, Copy, PartialEq, Eq, Debug)]
pub enum Label {
    To,
    From,
    A,
    B,
    C,
    Index,
    Dim,
    Mask,
    Of,
    Was,
    Kind,
}

/// What a register has to be where a step names it.
#[derive(Clone, Copy, PartialEq, Eq, Debug)]
pub enum Role {
    /// Anything: a later operand says what this one has to be.
    Any,
    /// One of the bank.
    In(Bank),
    /// A mask that a step may write, so not mask 0.
    OwnMask,
    /// Lanes of the type.
    Lanes(IntType),
    /// Lanes of the type, or one scalar.
    Values(IntType),
    /// Lanes of either width.
    Numbers,
    /// Lanes of either width, or one scalar.
    NumbersOrScalar,
    /// Values of the type of that kernel parameter.
    Argument(u32),
    /// The dimension of the work-item function whose answer goes into the register `to`.
    Dimension(Query, Reg),
    /// What is converted from the type `was` to the type `kind` into the register `to`.
    Converted {
        kind: IntType,
        was: IntType,
        to: Reg,
    },
}

/// An operand of a step: a register, a number by what it names, a jump's target, a type, a value of
/// a type, an operator, a function or a work-item function, or the root of an access.
#[derive(Clone, Copy, PartialEq, Eq, Debug)]
pub enum Operand {
    Register(Label, Role, Reg),
    Site(u32),
    Array(u32),
    Column(u32),
    Slot(u32),
    Parameter(u32),
    Ahead(u32),
    Back(u32),
    Type(Label, IntType),
    Value(IntType, i128),
    Unary(Un),
    Binary(Bin),
    Function(Fun),
    Query(Query),
    Read(Root),
    Written(Root),
}
