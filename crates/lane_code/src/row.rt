//! The one table of steps and their operands.

ghost use Rattle.std.specs.Prelude.{◌≡◌, ◌≤◌, take};
ghost use Rattle.lane_code.specs.Rows.{row_of, active};

use crate::operand::{Label, Operand, Role};
use crate::step::{Bank, Reg, Step};

/// The name of a step, and its operands in the order of the listing: the first `count` of seven.
#[derive(Clone, Copy)]
pub struct Row {
    pub name: &'static [u8],
    pub operands: [Operand; 7],
    pub count: usize,
}

impl Row {
    /// The operands.
    pub fn list(&self) -> &[Operand]
        requires { self.now.count ≤ 7 }
        ensures { result.now ≡ take self.now.count self.now.operands }
    {
        &self.operands[..self.count]
    }
}

/// The row of a name and so many operands.
fn row_with<const N: usize>(name: &'static [u8], operands: [Operand; N]) -> Row
    requires { N ≤ 7 }
    ensures name { result.name.now ≡ name.now }
    ensures operands { take result.count result.operands ≡ operands.entry }
    ensures few { result.count ≤ 7 }
{
    let mut all = [Operand::Slot(0); 7];
    for i in 0..N {
        all[i] = operands[i];
    }
    Row {
        name,
        operands: all,
        count: N,
    }
}

/// The mask of the lanes that a step works on.
fn active(mask: Reg) -> Operand
    ensures { result ≡ active mask }
{
    Operand::Register(Label::Mask, Role::In(Bank::Mask), mask)
}

/// The row of a step.
pub fn row_of(step: Step) -> Row
    ensures name { result.name.now ≡ (row_of step).name }
    ensures operands { take result.count result.operands ≡ (row_of step).operands }
    ensures few { result.count ≤ 7 }
{
    match step {
        Step::Const { to, of, value } => row_with(
            b"Const",
            [
                Operand::Register(Label::To, Role::Values(of), to),
                Operand::Type(Label::Of, of),
                Operand::Value(of, value),
            ],
        ),
        Step::Copy { to, from, mask } => row_with(
            b"Copy",
            [
                Operand::Register(Label::To, Role::NumbersOrScalar, to),
                Operand::Register(Label::From, Role::In(to.bank), from),
                active(mask),
            ],
        ),
        Step::Unary {
            op,
            of,
            to,
            a,
            mask,
        } => row_with(
            b"Unary",
            [
                Operand::Unary(op),
                Operand::Type(Label::Of, of),
                Operand::Register(Label::To, Role::Values(of), to),
                Operand::Register(Label::A, Role::In(to.bank), a),
                active(mask),
            ],
        ),
        Step::Binary {
            op,
            of,
            to,
            a,
            b,
            mask,
        } => row_with(
            b"Binary",
            [
                Operand::Binary(op),
                Operand::Type(Label::Of, of),
                Operand::Register(Label::To, Role::Values(of), to),
                Operand::Register(Label::A, Role::In(to.bank), a),
                Operand::Register(Label::B, Role::In(to.bank), b),
                active(mask),
            ],
        ),
        Step::Builtin {
            f,
            of,
            to,
            a,
            b,
            c,
            mask,
        } => row_with(
            b"Builtin",
            [
                Operand::Function(f),
                Operand::Type(Label::Of, of),
                Operand::Register(Label::To, Role::Values(of), to),
                Operand::Register(Label::A, Role::In(to.bank), a),
                Operand::Register(Label::B, Role::In(to.bank), b),
                Operand::Register(Label::C, Role::In(to.bank), c),
                active(mask),
            ],
        ),
        Step::Convert {
            to,
            kind,
            from,
            was,
            mask,
        } => row_with(
            b"Convert",
            [
                Operand::Register(Label::To, Role::Any, to),
                Operand::Type(Label::Kind, kind),
                Operand::Register(Label::From, Role::Converted { kind, was, to }, from),
                Operand::Type(Label::Was, was),
                active(mask),
            ],
        ),
        Step::Spread { to, from } => row_with(
            b"Spread",
            [
                Operand::Register(Label::To, Role::Numbers, to),
                Operand::Register(Label::From, Role::In(Bank::Scalar), from),
            ],
        ),
        Step::First { to, from, of, mask } => row_with(
            b"First",
            [
                Operand::Register(Label::To, Role::In(Bank::Scalar), to),
                Operand::Register(Label::From, Role::Lanes(of), from),
                Operand::Type(Label::Of, of),
                active(mask),
            ],
        ),
        Step::Ask {
            what,
            to,
            dim,
            mask,
        } => row_with(
            b"Ask",
            [
                Operand::Query(what),
                Operand::Register(Label::To, Role::Any, to),
                Operand::Register(Label::Dim, Role::Dimension(what, to), dim),
                active(mask),
            ],
        ),
        Step::Argument { number, to, mask } => row_with(
            b"Argument",
            [
                Operand::Parameter(number),
                Operand::Register(Label::To, Role::Argument(number), to),
                active(mask),
            ],
        ),
        Step::Load {
            site,
            of,
            root,
            index,
            to,
            mask,
        } => row_with(
            b"Load",
            [
                Operand::Site(site),
                Operand::Type(Label::Of, of),
                Operand::Read(root),
                Operand::Register(Label::Index, Role::In(Bank::Wide), index),
                Operand::Register(Label::To, Role::Lanes(of), to),
                active(mask),
            ],
        ),
        Step::Store {
            site,
            of,
            root,
            index,
            from,
            mask,
        } => row_with(
            b"Store",
            [
                Operand::Site(site),
                Operand::Type(Label::Of, of),
                Operand::Written(root),
                Operand::Register(Label::Index, Role::In(Bank::Wide), index),
                Operand::Register(Label::From, Role::Lanes(of), from),
                active(mask),
            ],
        ),
        Step::Clear { array, mask } => row_with(b"Clear", [Operand::Array(array), active(mask)]),
        Step::ColumnGet { column, to } => row_with(
            b"ColumnGet",
            [
                Operand::Column(column),
                Operand::Register(Label::To, Role::Numbers, to),
            ],
        ),
        Step::ColumnPut { column, from, mask } => row_with(
            b"ColumnPut",
            [
                Operand::Column(column),
                Operand::Register(Label::From, Role::Numbers, from),
                active(mask),
            ],
        ),
        Step::OnceGet { slot, to } => row_with(
            b"OnceGet",
            [
                Operand::Slot(slot),
                Operand::Register(Label::To, Role::In(Bank::Scalar), to),
            ],
        ),
        Step::OncePut { slot, from } => row_with(
            b"OncePut",
            [
                Operand::Slot(slot),
                Operand::Register(Label::From, Role::In(Bank::Scalar), from),
            ],
        ),
        Step::VoteGet { to } => row_with(
            b"VoteGet",
            [Operand::Register(Label::To, Role::OwnMask, to)],
        ),
        Step::VotePut { from, mask } => row_with(
            b"VotePut",
            [
                Operand::Register(Label::From, Role::In(Bank::Mask), from),
                active(mask),
            ],
        ),
        Step::Test { to, from, mask } => row_with(
            b"Test",
            [
                Operand::Register(Label::To, Role::OwnMask, to),
                Operand::Register(Label::From, Role::Numbers, from),
                active(mask),
            ],
        ),
        Step::MaskAnd { to, a, b } => row_with(
            b"MaskAnd",
            [
                Operand::Register(Label::To, Role::OwnMask, to),
                Operand::Register(Label::A, Role::In(Bank::Mask), a),
                Operand::Register(Label::B, Role::In(Bank::Mask), b),
            ],
        ),
        Step::MaskOr { to, a, b } => row_with(
            b"MaskOr",
            [
                Operand::Register(Label::To, Role::OwnMask, to),
                Operand::Register(Label::A, Role::In(Bank::Mask), a),
                Operand::Register(Label::B, Role::In(Bank::Mask), b),
            ],
        ),
        Step::MaskLess { to, a, b } => row_with(
            b"MaskLess",
            [
                Operand::Register(Label::To, Role::OwnMask, to),
                Operand::Register(Label::A, Role::In(Bank::Mask), a),
                Operand::Register(Label::B, Role::In(Bank::Mask), b),
            ],
        ),
        Step::Jump { target } => row_with(b"Jump", [Operand::Ahead(target)]),
        Step::SkipNone { mask, target } => row_with(
            b"SkipNone",
            [active(mask), Operand::Ahead(target)],
        ),
        Step::SkipZero { from, target } => row_with(
            b"SkipZero",
            [
                Operand::Register(Label::From, Role::In(Bank::Scalar), from),
                Operand::Ahead(target),
            ],
        ),
        Step::Turn { mask, target } => row_with(b"Turn", [active(mask), Operand::Back(target)]),
        Step::Mark { site, mask } => row_with(b"Mark", [Operand::Site(site), active(mask)]),
    }
}
