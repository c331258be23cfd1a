//! Kinds of expressions, and what names stand for.

use cl_model::{Root, Space};
use wg_num::IntType;

/// What indexing an array or a pointer reaches: an element, a row of so many elements, or a plane of so
/// many rows of so many elements (an array has at most three dimensions).
#[derive(Clone, Copy, PartialEq, Eq, Debug)]
pub enum Each {
    Element,
    Row { length: u64 },
    Plane { rows: u64, length: u64 },
}

/// What an expression reaches beside its value: nothing, a variable, an object of one element, or an
/// indexed element (C99, section 6.3.2.1). `constant` is whether it is `const`.
#[derive(Clone, Copy, PartialEq, Eq, Debug)]
pub enum Reach {
    Value,
    Variable {
        constant: bool,
    },
    Object {
        space: Space,
        constant: bool,
    },
    Element {
        space: Space,
        constant: bool,
        root: Root,
    },
}

/// The kind of an expression: a number of a type, a pointer or array with the object that it leads to,
/// or nothing, as a call of a function without a result has it.
#[derive(Clone, Copy, PartialEq, Eq, Debug)]
pub enum Kind {
    Number {
        of: IntType,
        reach: Reach,
    },
    Pointer {
        space: Space,
        element: IntType,
        constant: bool,
        root: Root,
        each: Each,
        reach: Reach,
    },
    Nothing,
}

/// What a name stands for.
#[derive(Clone, Copy, PartialEq, Eq, Debug)]
pub enum Meaning {
    /// A variable that holds a number, by its number in its function.
    Scalar {
        of: IntType,
        constant: bool,
        number: u32,
    },
    /// A variable that holds a pointer; `fixed` is whether the variable itself is `const`.
    Pointer {
        space: Space,
        element: IntType,
        constant: bool,
        root: Root,
        fixed: bool,
        number: u32,
    },
    /// A local scalar, or a constant scalar of the unit: an object with one element.
    Object {
        space: Space,
        element: IntType,
        constant: bool,
        root: Root,
    },
    Array {
        space: Space,
        element: IntType,
        constant: bool,
        root: Root,
        each: Each,
    },
    /// A function that is no kernel, by the number of its definition.
    Function {
        number: u32,
    },
    /// A function with a prototype and without a definition.
    Undefined,
    /// A kernel, which is not visible as a function.
    Kernel,
}

/// What a name stands for in a scope; `firm` is whether something else than a prototype declares it there.
#[derive(Clone, Copy, PartialEq, Eq, Debug)]
pub struct Entry {
    pub meaning: Meaning,
    pub firm: bool,
}

/// What a parameter takes.
#[derive(Clone, Copy, PartialEq, Eq, Debug)]
pub enum Parameter {
    Number(IntType),
    Pointer {
        space: Space,
        element: IntType,
        constant: bool,
    },
    /// Its type is outside the profile.
    Outside,
}

/// What a function gives.
#[derive(Clone, Copy, PartialEq, Eq, Debug)]
pub enum Yield {
    Nothing,
    Number(IntType),
    /// Its type is outside the profile.
    Outside,
}

/// The place of a node in its parent, where that matters: the whole expression of a statement, the value
/// that a statement tests, or any other.
#[derive(Clone, Copy, PartialEq, Eq, Debug)]
pub enum Role {
    Whole,
    Tested,
    Other,
}
