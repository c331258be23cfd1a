//! The steps of lane code and their registers.

use cl_model::{Query, Root};
use wg_num::{Bin, Fun, IntType, Un};

/// A bank of registers: narrow lanes of 32 bits, wide lanes of 64 bits, masks of one truth value per
/// lane, and scalars of 64 bits that a chunk has once.
#[derive(Clone, Copy, PartialEq, Eq, Debug)]
pub enum Bank {
    Narrow,
    Wide,
    Mask,
    Scalar,
}

/// A register, by its bank and its number there. Mask 0 is the existing lanes of the chunk.
#[derive(Clone, Copy, PartialEq, Eq, Debug)]
pub struct Reg {
    pub bank: Bank,
    pub number: u32,
}

/// One step of lane code. A step with a `mask` leaves the other lanes as they were; on scalars it
/// writes always.
#[derive(Clone, Copy, PartialEq, Eq, Debug)]
pub enum Step {
    /// Every lane, or the scalar, is the value.
    Const {
        to: Reg,
        of: IntType,
        value: i128,
    },
    Copy {
        to: Reg,
        from: Reg,
        mask: Reg,
    },
    Unary {
        op: Un,
        of: IntType,
        to: Reg,
        a: Reg,
        mask: Reg,
    },
    Binary {
        op: Bin,
        of: IntType,
        to: Reg,
        a: Reg,
        b: Reg,
        mask: Reg,
    },
    Builtin {
        f: Fun,
        of: IntType,
        to: Reg,
        a: Reg,
        b: Reg,
        c: Reg,
        mask: Reg,
    },
    /// Converts from the type `was` to the type `kind`.
    Convert {
        to: Reg,
        kind: IntType,
        from: Reg,
        was: IntType,
        mask: Reg,
    },
    /// The scalar into every lane.
    Spread {
        to: Reg,
        from: Reg,
    },
    /// The scalar becomes the value of the lowest active lane; where no lane is set it stays.
    First {
        to: Reg,
        from: Reg,
        of: IntType,
        mask: Reg,
    },
    /// A work-item function (OpenCL 1.2, section 6.12.1).
    Ask {
        what: Query,
        to: Reg,
        dim: Reg,
        mask: Reg,
    },
    /// The value that the launch binds to a kernel parameter, 0 for a pointer.
    Argument {
        number: u32,
        to: Reg,
        mask: Reg,
    },
    Load {
        site: u32,
        of: IntType,
        root: Root,
        index: Reg,
        to: Reg,
        mask: Reg,
    },
    /// The active lanes' values of the type `of`, lane 0 first: of a bool 0 or 1.
    Store {
        site: u32,
        of: IntType,
        root: Root,
        index: Reg,
        from: Reg,
        mask: Reg,
    },
    /// The active items' private array becomes zero.
    Clear {
        array: u32,
        mask: Reg,
    },
    ColumnGet {
        column: u32,
        to: Reg,
    },
    ColumnPut {
        column: u32,
        from: Reg,
        mask: Reg,
    },
    /// The entry value of a once slot.
    OnceGet {
        slot: u32,
        to: Reg,
    },
    /// The exit value of a once slot.
    OncePut {
        slot: u32,
        from: Reg,
    },
    /// The items' answers of the last vote.
    VoteGet {
        to: Reg,
    },
    VotePut {
        from: Reg,
        mask: Reg,
    },
    /// The active lanes whose value is not 0.
    Test {
        to: Reg,
        from: Reg,
        mask: Reg,
    },
    MaskAnd {
        to: Reg,
        a: Reg,
        b: Reg,
    },
    MaskOr {
        to: Reg,
        a: Reg,
        b: Reg,
    },
    /// The lanes of `a` that are not in `b`.
    MaskLess {
        to: Reg,
        a: Reg,
        b: Reg,
    },
    Jump {
        target: u32,
    },
    /// Jumps if no lane is set.
    SkipNone {
        mask: Reg,
        target: u32,
    },
    /// Jumps if the scalar is 0.
    SkipZero {
        from: Reg,
        target: u32,
    },
    /// Jumps back and takes a turn if a lane is set; where no turn is left the code ends.
    Turn {
        mask: Reg,
        target: u32,
    },
    /// Ends at a barrier if a lane is set.
    Mark {
        site: u32,
        mask: Reg,
    },
}
