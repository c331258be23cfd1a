//! The typed program: names resolved, conversions written out, sites numbered.

use wg_num::{Bin, Fun, IntType, Place, Un, Word};

/// An address space (OpenCL 1.2, section 6.5).
#[derive(Clone, Copy, PartialEq, Eq, Debug)]
pub enum Space {
    Global,
    Constant,
    Local,
    Private,
}

/// The object that a pointer leads to: a parameter of the function, a table of the program, or a
/// local or private array of the function, each by its number.
#[derive(Clone, Copy, PartialEq, Eq, Debug)]
pub enum Root {
    Param(u32),
    Constant(u32),
    Local(u32),
    Private(u32),
}

/// What a variable holds: a number, or an element offset from a root.
#[derive(Clone, Copy, PartialEq, Eq, Debug)]
pub enum VarKind {
    Scalar(IntType),
    Pointer {
        space: Space,
        element: IntType,
        root: Root,
    },
}

/// A variable or parameter of a function; the place is that of its name.
#[derive(Drop)]
pub struct Var {
    pub name: Word,
    pub kind: VarKind,
    pub place: Place,
}

/// An array, or a local scalar as an array of one element; `dims` are its lengths, outermost first.
#[derive(Drop)]
pub struct Array {
    pub name: Word,
    pub space: Space,
    pub element: IntType,
    pub dims: Vec<u64>,
    pub place: Place,
}

/// A constant array of the program with its bytes, lowest byte of an element first.
#[derive(Drop)]
pub struct Table {
    pub array: Array,
    pub bytes: Vec<u8>,
}

/// A function: its first `params` variables are its parameters, and `sizes` is the required
/// work-group size of a kernel that has one (OpenCL 1.2, section 6.7.2).
#[derive(Drop)]
pub struct Function {
    pub name: Word,
    pub params: u32,
    pub result: Option<IntType>,
    pub vars: Vec<Var>,
    pub arrays: Vec<Array>,
    pub body: Vec<Stmt>,
    pub sizes: Option<[u64; 3]>,
}

/// A typed unit with the function that is its kernel; `sites` is the place of each site.
#[derive(Drop)]
pub struct Program {
    pub tables: Vec<Table>,
    pub functions: Vec<Function>,
    pub kernel: u32,
    pub sites: Vec<Place>,
}

/// A work-item function (OpenCL 1.2, section 6.12.1).
#[derive(Clone, Copy, PartialEq, Eq, Debug)]
pub enum Query {
    WorkDim,
    GlobalId,
    LocalId,
    GroupId,
    GlobalSize,
    LocalSize,
    NumGroups,
    GlobalOffset,
}

/// What an assignment sets: a variable, or an element of an object.
#[derive(Drop)]
#[cycle(expression)]
pub enum Target {
    Var(u32),
    Element {
        site: u32,
        element: IntType,
        root: Root,
        index: Box<Expr>,
    },
}

/// An argument of a call: a number, or a pointer as a root of the caller and an element offset.
#[derive(Drop)]
#[cycle(expression)]
pub enum Arg {
    Value(Expr),
    Offset { root: Root, index: Expr },
}

/// An expression; `of` is the type in which an operator computes.
#[derive(Drop)]
#[cycle(expression)]
pub enum Expr {
    Literal {
        value: i128,
        of: IntType,
    },
    Variable(u32),
    Unary {
        op: Un,
        of: IntType,
        a: Box<Expr>,
    },
    Binary {
        op: Bin,
        of: IntType,
        a: Box<Expr>,
        b: Box<Expr>,
    },
    /// `a && b`.
    Both {
        site: u32,
        a: Box<Expr>,
        b: Box<Expr>,
    },
    /// `a || b`.
    Either {
        site: u32,
        a: Box<Expr>,
        b: Box<Expr>,
    },
    /// `test ? yes : no`.
    Choose {
        site: u32,
        test: Box<Expr>,
        yes: Box<Expr>,
        no: Box<Expr>,
    },
    Convert {
        to: IntType,
        a: Box<Expr>,
    },
    Load {
        site: u32,
        element: IntType,
        root: Root,
        index: Box<Expr>,
    },
    Assign {
        target: Target,
        value: Box<Expr>,
    },
    /// A compound assignment, `++` or `--`: it computes in `of` and converts to `back`, the type
    /// of the target; its value is the target's old value where `old` is set, else the new one.
    Update {
        target: Target,
        op: Bin,
        of: IntType,
        back: IntType,
        value: Box<Expr>,
        old: bool,
    },
    Call {
        site: u32,
        function: u32,
        args: Vec<Arg>,
    },
    Builtin {
        f: Fun,
        of: IntType,
        args: Vec<Expr>,
    },
    Ask {
        what: Query,
        dim: Box<Expr>,
    },
    /// `a, b`.
    Then {
        a: Box<Expr>,
        b: Box<Expr>,
    },
}

/// An arm of a `switch`: the labels in front of its statements, and whether `default` is one.
#[derive(Drop)]
#[cycle(statement)]
pub struct SwitchArm {
    pub labels: Vec<i128>,
    pub other: bool,
    pub body: Vec<Stmt>,
}

/// A statement.
#[derive(Drop)]
#[cycle(statement)]
pub enum Stmt {
    Do(Expr),
    Declare {
        var: u32,
        value: Option<Expr>,
    },
    /// Makes the private array zeros, then stores the values into its first elements.
    Fill {
        site: u32,
        array: u32,
        values: Vec<Expr>,
    },
    Block(Vec<Stmt>),
    If {
        site: u32,
        test: Expr,
        yes: Box<Stmt>,
        no: Option<Box<Stmt>>,
    },
    /// `while`, `for` (with `test_first`) and `do`.
    Loop {
        site: u32,
        test_first: bool,
        test: Option<Expr>,
        step: Option<Expr>,
        body: Box<Stmt>,
    },
    Switch {
        site: u32,
        value: Expr,
        arms: Vec<SwitchArm>,
    },
    Break {
        site: u32,
    },
    Continue {
        site: u32,
    },
    Return {
        site: u32,
        value: Option<Expr>,
    },
    Barrier {
        site: u32,
    },
}
