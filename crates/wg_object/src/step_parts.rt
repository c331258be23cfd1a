//! A step at the front of bytes.

ghost use Rattle.std.specs.Prelude.{◌≡◌};
ghost use Rattle.wg_object.specs.Reading as spec;

use crate::numbers::{binary_of, function_of, query_of, unary_of};
use crate::parts::{byte_at, eight_at, four_at, reg_at, root_at, type_at};
use lane_code::{Reg, Step};
use wg_num::value;

#[tactic(auto, unfolding(crate::specs::Reading::two_at))]
fn two_at(bytes: &[u8]) -> (Reg, Reg, &[u8])
    ensures { (result.0, result.1, result.2.now) ≡ spec.two_at bytes.now }
{
    let (x, rest) = reg_at(bytes);
    let (y, rest) = reg_at(rest);
    (x, y, rest)
}

#[tactic(auto, unfolding(crate::specs::Reading::three_at))]
fn three_at(bytes: &[u8]) -> (Reg, Reg, Reg, &[u8])
    ensures { (result.0, result.1, result.2, result.3.now) ≡ spec.three_at bytes.now }
{
    let (x, rest) = reg_at(bytes);
    let (y, rest) = reg_at(rest);
    let (z, rest) = reg_at(rest);
    (x, y, z, rest)
}

#[tactic(auto, unfolding(crate::specs::Reading::number_reg_at))]
fn number_reg_at(bytes: &[u8]) -> (u32, Reg, &[u8])
    ensures { (result.0, result.1, result.2.now) ≡ spec.number_reg_at bytes.now }
{
    let (n, rest) = four_at(bytes);
    let (x, rest) = reg_at(rest);
    (n, x, rest)
}

#[tactic(auto, unfolding(crate::specs::Reading::reg_number_at))]
fn reg_number_at(bytes: &[u8]) -> (Reg, u32, &[u8])
    ensures { (result.0, result.1, result.2.now) ≡ spec.reg_number_at bytes.now }
{
    let (x, rest) = reg_at(bytes);
    let (n, rest) = four_at(rest);
    (x, n, rest)
}

#[tactic(auto, unfolding(crate::specs::Reading::const_at))]
fn const_at(bytes: &[u8]) -> (Step, &[u8])
    ensures { (result.0, result.1.now) ≡ spec.const_at bytes.now }
{
    let (to, rest) = reg_at(bytes);
    let (of, rest) = type_at(rest);
    let (pattern, rest) = eight_at(rest);
    let value = value(of, pattern);
    (Step::Const { to, of, value }, rest)
}

#[tactic(auto, unfolding(crate::specs::Reading::unary_at))]
fn unary_at(bytes: &[u8]) -> (Step, &[u8])
    ensures { (result.0, result.1.now) ≡ spec.unary_at bytes.now }
{
    let (op, rest) = byte_at(bytes);
    let (of, rest) = type_at(rest);
    let (to, a, mask, rest) = three_at(rest);
    let op = unary_of(op);
    (
        Step::Unary {
            op,
            of,
            to,
            a,
            mask,
        },
        rest,
    )
}

#[tactic(auto, unfolding(crate::specs::Reading::binary_at))]
fn binary_at(bytes: &[u8]) -> (Step, &[u8])
    ensures { (result.0, result.1.now) ≡ spec.binary_at bytes.now }
{
    let (op, rest) = byte_at(bytes);
    let (of, rest) = type_at(rest);
    let (to, a, rest) = two_at(rest);
    let (b, mask, rest) = two_at(rest);
    let op = binary_of(op);
    (
        Step::Binary {
            op,
            of,
            to,
            a,
            b,
            mask,
        },
        rest,
    )
}

#[tactic(auto, unfolding(crate::specs::Reading::builtin_at))]
fn builtin_at(bytes: &[u8]) -> (Step, &[u8])
    ensures { (result.0, result.1.now) ≡ spec.builtin_at bytes.now }
{
    let (f, rest) = byte_at(bytes);
    let (of, rest) = type_at(rest);
    let (to, a, b, rest) = three_at(rest);
    let (c, mask, rest) = two_at(rest);
    let f = function_of(f);
    (
        Step::Builtin {
            f,
            of,
            to,
            a,
            b,
            c,
            mask,
        },
        rest,
    )
}

#[tactic(auto, unfolding(crate::specs::Reading::convert_at))]
fn convert_at(bytes: &[u8]) -> (Step, &[u8])
    ensures { (result.0, result.1.now) ≡ spec.convert_at bytes.now }
{
    let (to, rest) = reg_at(bytes);
    let (kind, rest) = type_at(rest);
    let (from, rest) = reg_at(rest);
    let (was, rest) = type_at(rest);
    let (mask, rest) = reg_at(rest);
    (
        Step::Convert {
            to,
            kind,
            from,
            was,
            mask,
        },
        rest,
    )
}

#[tactic(auto, unfolding(crate::specs::Reading::first_at))]
fn first_at(bytes: &[u8]) -> (Step, &[u8])
    ensures { (result.0, result.1.now) ≡ spec.first_at bytes.now }
{
    let (to, from, rest) = two_at(bytes);
    let (of, rest) = type_at(rest);
    let (mask, rest) = reg_at(rest);
    (Step::First { to, from, of, mask }, rest)
}

#[tactic(auto, unfolding(crate::specs::Reading::ask_at))]
fn ask_at(bytes: &[u8]) -> (Step, &[u8])
    ensures { (result.0, result.1.now) ≡ spec.ask_at bytes.now }
{
    let (what, rest) = byte_at(bytes);
    let (to, dim, mask, rest) = three_at(rest);
    let what = query_of(what);
    (
        Step::Ask {
            what,
            to,
            dim,
            mask,
        },
        rest,
    )
}

#[tactic(auto, unfolding(crate::specs::Reading::access_at))]
fn access_at(stores: bool, bytes: &[u8]) -> (Step, &[u8])
    ensures { (result.0, result.1.now) ≡ spec.access_at stores bytes.now }
{
    let (site, rest) = four_at(bytes);
    let (of, rest) = type_at(rest);
    let (root, rest) = root_at(rest);
    let (index, value, mask, rest) = three_at(rest);
    if stores {
        let from = value;
        return (
            Step::Store {
                site,
                of,
                root,
                index,
                from,
                mask,
            },
            rest,
        );
    }
    let to = value;
    (
        Step::Load {
            site,
            of,
            root,
            index,
            to,
            mask,
        },
        rest,
    )
}

/// What follows the number of a step: the fields of a step of its own, or kinds of fields that several
/// steps have.
#[derive(Clone, Copy)]
enum Shape {
    Const,
    Unary,
    Binary,
    Builtin,
    Convert,
    First,
    Ask,
    Load,
    Store,
    VoteGet,
    Jump,
    Two,
    Three,
    NumberReg,
    NumberTwo,
    RegNumber,
}

fn shape_of(number: u8) -> Shape
    ensures { result ≡ spec.shape_of number }
{
    match number {
        0 => Shape::Const,
        1 => Shape::Three,
        2 => Shape::Unary,
        3 => Shape::Binary,
        4 => Shape::Builtin,
        5 => Shape::Convert,
        6 => Shape::Two,
        7 => Shape::First,
        8 => Shape::Ask,
        9 => Shape::NumberTwo,
        10 => Shape::Load,
        11 => Shape::Store,
        14 => Shape::NumberTwo,
        17 => Shape::VoteGet,
        18 => Shape::Two,
        19 => Shape::Three,
        20 => Shape::Three,
        21 => Shape::Three,
        22 => Shape::Three,
        23 => Shape::Jump,
        24 => Shape::RegNumber,
        25 => Shape::RegNumber,
        26 => Shape::RegNumber,
        _ => Shape::NumberReg,
    }
}

fn two_made(number: u8, x: Reg, y: Reg) -> Step
    ensures { result ≡ spec.two_made number x y }
{
    match number {
        6 => Step::Spread { to: x, from: y },
        _ => Step::VotePut { from: x, mask: y },
    }
}

fn three_made(number: u8, x: Reg, y: Reg, z: Reg) -> Step
    ensures { result ≡ spec.three_made number x y z }
{
    match number {
        1 => Step::Copy {
            to: x,
            from: y,
            mask: z,
        },
        19 => Step::Test {
            to: x,
            from: y,
            mask: z,
        },
        20 => Step::MaskAnd { to: x, a: y, b: z },
        21 => Step::MaskOr { to: x, a: y, b: z },
        _ => Step::MaskLess { to: x, a: y, b: z },
    }
}

fn number_reg_made(number: u8, k: u32, x: Reg) -> Step
    ensures { result ≡ spec.number_reg_made number k x }
{
    match number {
        12 => Step::Clear { array: k, mask: x },
        13 => Step::ColumnGet { column: k, to: x },
        15 => Step::OnceGet { slot: k, to: x },
        16 => Step::OncePut { slot: k, from: x },
        _ => Step::Mark { site: k, mask: x },
    }
}

fn number_two_made(number: u8, k: u32, x: Reg, y: Reg) -> Step
    ensures { result ≡ spec.number_two_made number k x y }
{
    match number {
        9 => Step::Argument {
            number: k,
            to: x,
            mask: y,
        },
        _ => Step::ColumnPut {
            column: k,
            from: x,
            mask: y,
        },
    }
}

fn reg_number_made(number: u8, x: Reg, k: u32) -> Step
    ensures { result ≡ spec.reg_number_made number x k }
{
    match number {
        24 => Step::SkipNone { mask: x, target: k },
        25 => Step::SkipZero { from: x, target: k },
        _ => Step::Turn { mask: x, target: k },
    }
}

#[tactic(auto, unfolding(crate::specs::Reading::two_step_at))]
fn two_step_at(number: u8, bytes: &[u8]) -> (Step, &[u8])
    ensures { (result.0, result.1.now) ≡ spec.two_step_at number bytes.now }
{
    let (x, y, rest) = two_at(bytes);
    (two_made(number, x, y), rest)
}

#[tactic(auto, unfolding(crate::specs::Reading::three_step_at))]
fn three_step_at(number: u8, bytes: &[u8]) -> (Step, &[u8])
    ensures { (result.0, result.1.now) ≡ spec.three_step_at number bytes.now }
{
    let (x, y, z, rest) = three_at(bytes);
    (three_made(number, x, y, z), rest)
}

#[tactic(auto, unfolding(crate::specs::Reading::number_reg_step_at))]
fn number_reg_step_at(number: u8, bytes: &[u8]) -> (Step, &[u8])
    ensures { (result.0, result.1.now) ≡ spec.number_reg_step_at number bytes.now }
{
    let (k, x, rest) = number_reg_at(bytes);
    (number_reg_made(number, k, x), rest)
}

#[tactic(auto, unfolding(crate::specs::Reading::number_two_step_at))]
fn number_two_step_at(number: u8, bytes: &[u8]) -> (Step, &[u8])
    ensures { (result.0, result.1.now) ≡ spec.number_two_step_at number bytes.now }
{
    let (k, rest) = four_at(bytes);
    let (x, y, rest) = two_at(rest);
    (number_two_made(number, k, x, y), rest)
}

#[tactic(auto, unfolding(crate::specs::Reading::reg_number_step_at))]
fn reg_number_step_at(number: u8, bytes: &[u8]) -> (Step, &[u8])
    ensures { (result.0, result.1.now) ≡ spec.reg_number_step_at number bytes.now }
{
    let (x, k, rest) = reg_number_at(bytes);
    (reg_number_made(number, x, k), rest)
}

#[tactic(auto, unfolding(crate::specs::Reading::vote_get_at))]
fn vote_get_at(bytes: &[u8]) -> (Step, &[u8])
    ensures { (result.0, result.1.now) ≡ spec.vote_get_at bytes.now }
{
    let (to, rest) = reg_at(bytes);
    (Step::VoteGet { to }, rest)
}

#[tactic(auto, unfolding(crate::specs::Reading::jump_at))]
fn jump_at(bytes: &[u8]) -> (Step, &[u8])
    ensures { (result.0, result.1.now) ≡ spec.jump_at bytes.now }
{
    let (target, rest) = four_at(bytes);
    (Step::Jump { target }, rest)
}

/// A step whose number was read.
#[tactic(auto, unfolding(crate::specs::Reading::shaped_at))]
fn shaped_at(shape: Shape, number: u8, bytes: &[u8]) -> (Step, &[u8])
    ensures { (result.0, result.1.now) ≡ spec.shaped_at shape number bytes.now }
{
    match shape {
        Shape::Const => const_at(bytes),
        Shape::Unary => unary_at(bytes),
        Shape::Binary => binary_at(bytes),
        Shape::Builtin => builtin_at(bytes),
        Shape::Convert => convert_at(bytes),
        Shape::First => first_at(bytes),
        Shape::Ask => ask_at(bytes),
        Shape::Load => access_at(false, bytes),
        Shape::Store => access_at(true, bytes),
        Shape::VoteGet => vote_get_at(bytes),
        Shape::Jump => jump_at(bytes),
        Shape::Two => two_step_at(number, bytes),
        Shape::Three => three_step_at(number, bytes),
        Shape::NumberReg => number_reg_step_at(number, bytes),
        Shape::NumberTwo => number_two_step_at(number, bytes),
        Shape::RegNumber => reg_number_step_at(number, bytes),
    }
}

/// A step, and the bytes behind it.
#[tactic(auto, unfolding(crate::specs::Reading::step_at))]
pub(crate) fn step_at(bytes: &[u8]) -> (Step, &[u8])
    ensures { (result.0, result.1.now) ≡ spec.step_at bytes.now }
{
    let (number, rest) = byte_at(bytes);
    shaped_at(shape_of(number), number, rest)
}
