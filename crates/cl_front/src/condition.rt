//! The conditions that refuse a source, each with its number and its text.

ghost use Rattle.std.specs.Prelude.{◌≡◌};
ghost use Rattle.cl_front.specs.Conditions.{number_of, number_of_vector, text_of, text_of_unit, text_of_vector};

use cl_meaning::Fault;
use cl_short_vec::VectorFault;

/// A condition that refuses a source: of its bytes, its macros, its grammar, its vectors, or its unit (OpenCL 1.2,
/// chapter 6; C99, sections 6.4 to 6.10).
#[derive(Clone, Copy, PartialEq, Eq, Debug)]
pub enum Condition {
    /// E101: no token, blank or comment begins.
    NoToken,
    /// E102: a block comment has no end.
    OpenComment,
    /// E103: a number is not spelled as an integer constant.
    BadNumber,
    /// E104: a number fits none of its types.
    LargeNumber,
    /// E105: the source has more than 262,144 bytes.
    TooLong,
    /// E201: a directive is not one that is read.
    BadDirective,
    /// E202: a directive lacks its name.
    NoName,
    /// E203: a name already has a replacement with other words.
    Redefined,
    /// E204: no conditional is open, or its `#else` has been read.
    NoOpening,
    /// E205: a conditional is not closed.
    NotClosed,
    /// E206: a source has more than 65,536 expanded tokens, or replaces more than 1,048,576 names.
    TooMany,
    /// E301: no unit goes on from the tokens up to some token.
    Syntax,
    /// E302: the units that go on from them all nest deeper than 256.
    Nesting,
    /// E501 to E503: a node of the unit is at fault with vectors.
    Vector(VectorFault),
    /// E401 to E424: a node of the unit is at fault.
    Unit(Fault),
}

impl Condition {
    /// The number that is printed behind `E`.
    pub fn number(self) -> u16
        ensures { result ≡ number_of self }
    {
        match self {
            Condition::NoToken => 101,
            Condition::OpenComment => 102,
            Condition::BadNumber => 103,
            Condition::LargeNumber => 104,
            Condition::TooLong => 105,
            Condition::BadDirective => 201,
            Condition::NoName => 202,
            Condition::Redefined => 203,
            Condition::NoOpening => 204,
            Condition::NotClosed => 205,
            Condition::TooMany => 206,
            Condition::Syntax => 301,
            Condition::Nesting => 302,
            Condition::Vector(fault) => vector_number(fault),
            Condition::Unit(fault) => fault.number(),
        }
    }

    /// The text that is printed behind the number, in ASCII.
    pub fn text(self) -> &'static [u8]
        ensures { result.now ≡ text_of self }
    {
        match self {
            Condition::NoToken => b"no token",
            Condition::OpenComment => b"unfinished comment",
            Condition::BadNumber => b"malformed number",
            Condition::LargeNumber => b"number too large",
            Condition::TooLong => b"source too long",
            Condition::BadDirective => b"directive not in the profile",
            Condition::NoName => b"name missing",
            Condition::Redefined => b"defined twice",
            Condition::NoOpening => b"no opening",
            Condition::NotClosed => b"conditional not closed",
            Condition::TooMany => b"too many tokens",
            Condition::Syntax => b"syntax",
            Condition::Nesting => b"nested too deep",
            Condition::Vector(fault) => vector_text(fault),
            Condition::Unit(fault) => unit_text(fault),
        }
    }
}

fn vector_number(fault: VectorFault) -> u16
    ensures { result ≡ number_of_vector fault }
{
    match fault {
        VectorFault::Misplaced => 501,
        VectorFault::NoComponent => 502,
        VectorFault::TypesDiffer => 503,
    }
}

fn vector_text(fault: VectorFault) -> &'static [u8]
    ensures { result.now ≡ text_of_vector fault }
{
    match fault {
        VectorFault::Misplaced => b"vector misplaced",
        VectorFault::NoComponent => b"no such component",
        VectorFault::TypesDiffer => b"component types differ",
    }
}

// The text of a fault of a node.
fn unit_text(fault: Fault) -> &'static [u8]
    ensures { result.now ≡ text_of_unit fault }
{
    match fault {
        Fault::UnknownName => b"unknown name",
        Fault::DeclaredTwice => b"declared twice",
        Fault::OperandTypes => b"operand types do not fit",
        Fault::ArgumentCount => b"argument count",
        Fault::ArgumentType => b"argument type",
        Fault::NotAssignable => b"not assignable",
        Fault::ConstantWritten => b"constant memory written",
        Fault::OutsideType => b"type outside the profile",
        Fault::LocalMisplaced => b"local variable misplaced",
        Fault::ProgramVariable => b"program variable",
        Fault::KernelSignature => b"kernel signature",
        Fault::Recursion => b"recursion",
        Fault::PointerRoot => b"pointer root changes",
        Fault::ArrayLength => b"array length",
        Fault::Misplaced => b"misplaced statement",
        Fault::CaseValue => b"case value",
        Fault::ReturnFit => b"return does not fit",
        Fault::BarrierFlags => b"barrier flags",
        Fault::KernelTooLarge => b"kernel too large",
        Fault::PrivateMemory => b"private memory",
        Fault::BarriersTooDeep => b"barriers too deep",
        Fault::NoSuchKernel => b"no such kernel",
        Fault::LocalMemory => b"local memory",
        Fault::PrototypeMatch => b"prototype does not match",
    }
}
