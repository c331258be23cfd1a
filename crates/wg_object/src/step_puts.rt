//! The bytes of a step: its number, and its operands in the order of the listing.

ghost use Rattle.std.specs.Prelude.{◌≡◌, ◌++◌, OnOk};
ghost use Rattle.wg_object.specs.Numbers.{index_of_root};
ghost use Rattle.wg_object.specs.Text.{four, reg_text, root_text, flat_texts, operand_text, number_of_step, step_text};
ghost use Rattle.wg_object.specs.Valid.{AllFit, IsFour, IsOperand, IsStep};

use crate::numbers::{binary_number, function_number, query_number, type_number, unary_number};
use crate::puts::{constant, four, put, reg_bytes, root_bytes};
use cl_model::Root;
use lane_code::operand::Operand;
use lane_code::row::row_of;
use lane_code::{Reg, Step};
use wg_num::Memory;

/// The number of a kind of steps.
fn step_number(step: Step) -> u8
    ensures { result ≡ number_of_step step }
{
    match step {
        Step::Const { .. } => 0,
        Step::Copy { .. } => 1,
        Step::Unary { .. } => 2,
        Step::Binary { .. } => 3,
        Step::Builtin { .. } => 4,
        Step::Convert { .. } => 5,
        Step::Spread { .. } => 6,
        Step::First { .. } => 7,
        Step::Ask { .. } => 8,
        Step::Argument { .. } => 9,
        Step::Load { .. } => 10,
        Step::Store { .. } => 11,
        Step::Clear { .. } => 12,
        Step::ColumnGet { .. } => 13,
        Step::ColumnPut { .. } => 14,
        Step::OnceGet { .. } => 15,
        Step::OncePut { .. } => 16,
        Step::VoteGet { .. } => 17,
        Step::VotePut { .. } => 18,
        Step::Test { .. } => 19,
        Step::MaskAnd { .. } => 20,
        Step::MaskOr { .. } => 21,
        Step::MaskLess { .. } => 22,
        Step::Jump { .. } => 23,
        Step::SkipNone { .. } => 24,
        Step::SkipZero { .. } => 25,
        Step::Turn { .. } => 26,
        Step::Mark { .. } => 27,
    }
}

/// Puts a register.
fn put_reg(out: &mut Vec<u8>, x: Reg) -> Result<(), Memory>
    ensures put { OnOk result (out.new.items ≡ out.old.items ++ reg_text x) }
    ensures fits { IsFour x.number }
{
    put(out, &reg_bytes(x))
}

/// Puts a number.
fn put_four(out: &mut Vec<u8>, n: u32) -> Result<(), Memory>
    ensures put { OnOk result (out.new.items ≡ out.old.items ++ four n) }
    ensures fits { IsFour n }
{
    put(out, &four(n))
}

/// Puts a root.
fn put_root(out: &mut Vec<u8>, root: Root) -> Result<(), Memory>
    ensures put { OnOk result (out.new.items ≡ out.old.items ++ root_text root) }
    ensures fits { IsFour (index_of_root root) }
{
    put(out, &root_bytes(root))
}

/// Puts an operand.
fn put_operand(out: &mut Vec<u8>, operand: Operand) -> Result<(), Memory>
    ensures put { OnOk result (out.new.items ≡ out.old.items ++ operand_text operand) }
    ensures fits { IsOperand operand }
{
    match operand {
        Operand::Register(_, _, x) => put_reg(out, x),
        Operand::Site(n) => put_four(out, n),
        Operand::Array(n) => put_four(out, n),
        Operand::Column(n) => put_four(out, n),
        Operand::Slot(n) => put_four(out, n),
        Operand::Parameter(n) => put_four(out, n),
        Operand::Ahead(n) => put_four(out, n),
        Operand::Back(n) => put_four(out, n),
        Operand::Type(_, t) => put(out, &[type_number(t)]),
        Operand::Value(_, value) => put(out, &constant(value)),
        Operand::Unary(op) => put(out, &[unary_number(op)]),
        Operand::Binary(op) => put(out, &[binary_number(op)]),
        Operand::Function(f) => put(out, &[function_number(f)]),
        Operand::Query(what) => put(out, &[query_number(what)]),
        Operand::Read(root) => put_root(out, root),
        Operand::Written(root) => put_root(out, root),
    }
}

/// Puts operands one behind the other.
fn put_operands(out: &mut Vec<u8>, operands: &[Operand]) -> Result<(), Memory>
    ensures put { OnOk result (out.new.items ≡ out.old.items ++ flat_texts operand_text operands.now) }
    ensures fit { OnOk result (AllFit IsOperand operands.now) }
{
    for operand in operands {
        put_operand(out, *operand)?;
    }
    Ok(())
}

/// Puts a step.
pub(crate) fn put_step(out: &mut Vec<u8>, step: Step) -> Result<(), Memory>
    ensures put { OnOk result (out.new.items ≡ out.old.items ++ step_text step) }
    ensures fits { OnOk result (IsStep step) }
{
    put(out, &[step_number(step)])?;
    let row = row_of(step);
    put_operands(out, row.list())
}
