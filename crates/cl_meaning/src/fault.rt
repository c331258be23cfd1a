//! The faults of nodes.

ghost use Rattle.std.specs.Prelude.{◌≡◌};
ghost use Rattle.cl_meaning.specs.Numbers.{number_of};

/// A fault of a node of the unit (OpenCL 1.2, chapter 6; C99, sections 6.5 to 6.9).
#[derive(Clone, Copy, PartialEq, Eq, Debug)]
pub enum Fault {
    UnknownName,
    DeclaredTwice,
    OperandTypes,
    ArgumentCount,
    ArgumentType,
    NotAssignable,
    ConstantWritten,
    OutsideType,
    LocalMisplaced,
    ProgramVariable,
    KernelSignature,
    Recursion,
    PointerRoot,
    ArrayLength,
    Misplaced,
    CaseValue,
    ReturnFit,
    BarrierFlags,
    KernelTooLarge,
    PrivateMemory,
    BarriersTooDeep,
    NoSuchKernel,
    LocalMemory,
    PrototypeMatch,
}

impl Fault {
    /// The number that is printed behind `E`, 401 to 424.
    pub fn number(self) -> u16
        ensures { result ≡ number_of self }
    {
        match self {
            Fault::UnknownName => 401,
            Fault::DeclaredTwice => 402,
            Fault::OperandTypes => 403,
            Fault::ArgumentCount => 404,
            Fault::ArgumentType => 405,
            Fault::NotAssignable => 406,
            Fault::ConstantWritten => 407,
            Fault::OutsideType => 408,
            Fault::LocalMisplaced => 409,
            Fault::ProgramVariable => 410,
            Fault::KernelSignature => 411,
            Fault::Recursion => 412,
            Fault::PointerRoot => 413,
            Fault::ArrayLength => 414,
            Fault::Misplaced => 415,
            Fault::CaseValue => 416,
            Fault::ReturnFit => 417,
            Fault::BarrierFlags => 418,
            Fault::KernelTooLarge => 419,
            Fault::PrivateMemory => 420,
            Fault::BarriersTooDeep => 421,
            Fault::NoSuchKernel => 422,
            Fault::LocalMemory => 423,
            Fault::PrototypeMatch => 424,
        }
    }
}
