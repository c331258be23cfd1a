//! The registers that a step reads, and the one that it only writes.

ghost use Rattle.std.specs.Prelude.{◌≡◌, ◌≤◌, take, Some, None};
ghost use Rattle.lane_tidy.specs.Reads.{mask_at, scalar_at, same_reg, reads_of, only_writes};

use lane_code::{Bank, Reg, Step};

/// Up to four registers.
#[derive(Clone, Copy)]
pub(crate) struct Reads {
    pub registers: [Reg; 4],
    pub count: usize,
}

impl Reads {
    /// The registers.
    pub(crate) fn list(&self) -> &[Reg]
        requires { self.now.count ≤ 4 }
        ensures { result.now ≡ take self.now.count self.now.registers }
    {
        &self.registers[..self.count]
    }
}

/// These registers.
pub(crate) fn reads_with<const N: usize>(registers: [Reg; N]) -> Reads
    requires { N ≤ 4 }
    ensures registers { take result.count result.registers ≡ registers.entry }
    ensures few { result.count ≤ 4 }
{
    let mut all = [Reg {
        bank: Bank::Mask,
        number: 0,
    }; 4];
    for i in 0..N {
        all[i] = registers[i];
    }
    Reads {
        registers: all,
        count: N,
    }
}

/// The mask of the register's number.
pub(crate) fn mask_at(x: Reg) -> Reg
    ensures { result ≡ mask_at x }
{
    Reg {
        bank: Bank::Mask,
        number: x.number,
    }
}

/// The scalar of the register's number.
fn scalar_at(x: Reg) -> Reg
    ensures { result ≡ scalar_at x }
{
    Reg {
        bank: Bank::Scalar,
        number: x.number,
    }
}

/// Whether two registers are one. The numbers come first, since most registers differ in these.
pub(crate) fn same_reg(x: Reg, y: Reg) -> bool
    ensures { result ≡ same_reg x y }
{
    x.number == y.number && x.bank == y.bank
}

/// The registers that a step reads.
pub(crate) fn reads_of(step: Step) -> Reads
    ensures registers { take result.count result.registers ≡ reads_of step }
    ensures few { result.count ≤ 4 }
{
    match step {
        Step::Copy { from, mask, .. }
        | Step::Convert { from, mask, .. }
        | Step::First { from, mask, .. }
        | Step::ColumnPut { from, mask, .. }
        | Step::Test { from, mask, .. } => reads_with([from, mask_at(mask)]),
        Step::Unary { a, mask, .. } => reads_with([a, mask_at(mask)]),
        Step::Binary { a, b, mask, .. } => reads_with([a, b, mask_at(mask)]),
        Step::Builtin { a, b, c, mask, .. } => reads_with([a, b, c, mask_at(mask)]),
        Step::Ask { dim, mask, .. } => reads_with([dim, mask_at(mask)]),
        Step::Load { index, mask, .. } => reads_with([index, mask_at(mask)]),
        Step::Store {
            index,
            from,
            mask,
            ..
        } => reads_with([index, from, mask_at(mask)]),
        Step::VotePut { from, mask } => reads_with([mask_at(from), mask_at(mask)]),
        Step::MaskAnd { a, b, .. } | Step::MaskOr { a, b, .. } | Step::MaskLess { a, b, .. } => {
            reads_with([mask_at(a), mask_at(b)])
        }
        Step::Argument { mask, .. }
        | Step::Clear { mask, .. }
        | Step::SkipNone { mask, .. }
        | Step::Turn { mask, .. }
        | Step::Mark { mask, .. } => reads_with([mask_at(mask)]),
        Step::Spread { from, .. } | Step::OncePut { from, .. } | Step::SkipZero { from, .. } => {
            reads_with([scalar_at(from)])
        }
        Step::Const { .. }
        | Step::ColumnGet { .. }
        | Step::OnceGet { .. }
        | Step::VoteGet { .. }
        | Step::Jump { .. } => reads_with([]),
    }
}

/// The register of a step that does nothing but write it.
pub(crate) fn only_writes(step: Step) -> Option<Reg>
    ensures { result ≡ only_writes step }
{
    match step {
        Step::Const { to, .. }
        | Step::Copy { to, .. }
        | Step::Unary { to, .. }
        | Step::Binary { to, .. }
        | Step::Builtin { to, .. }
        | Step::Convert { to, .. }
        | Step::Spread { to, .. }
        | Step::Ask { to, .. }
        | Step::Argument { to, .. }
        | Step::ColumnGet { to, .. } => Some(to),
        Step::First { to, .. } | Step::OnceGet { to, .. } => Some(scalar_at(to)),
        Step::VoteGet { to }
        | Step::Test { to, .. }
        | Step::MaskAnd { to, .. }
        | Step::MaskOr { to, .. }
        | Step::MaskLess { to, .. } => Some(mask_at(to)),
        Step::Load { .. }
        | Step::Store { .. }
        | Step::Clear { .. }
        | Step::ColumnPut { .. }
        | Step::OncePut { .. }
        | Step::VotePut { .. }
        | Step::Jump { .. }
        | Step::SkipNone { .. }
        | Step::SkipZero { .. }
        | Step::Turn { .. }
        | Step::Mark { .. } => None,
    }
}
