//! The kinds of operators on one, two and three operands.

ghost use Rattle.std.specs.Prelude.{◌≡◌};
ghost use Rattle.cl_meaning.specs.Kinds as spec;

use crate::kinds::{address_kind, element_kind, index_kind, number, value_kind};
use crate::settings::step_kind;
use cl_meaning::{
    Each, Kind, Postfix, Prefix, binary_type, common, operand_type, promoted, unary_type,
};
use wg_num::{Bin, IntType, Un};

/// The kind of an operator on two operands: on numbers, or on a pointer and a number, which are added in
/// either order or of which the number is taken from the pointer (C99, sections 6.5.5 to 6.5.12); `None`
/// where the operands do not fit.
pub fn binary_kind(op: Bin, left: Kind, right: Kind) -> Option<Kind>
    ensures { result ≡ spec.binary_kind op left right }
{
    match (op, left, right) {
        (_, Kind::Number { of: a, .. }, Kind::Number { of: b, .. }) => {
            Some(number(binary_type(op, operand_type(op, a, b))))
        }
        (
            Bin::Add | Bin::Sub,
            Kind::Pointer {
                each: Each::Element,
                ..
            },
            Kind::Number { .. },
        ) => Some(value_kind(left)),
        (
            Bin::Add,
            Kind::Number { .. },
            Kind::Pointer {
                each: Each::Element,
                ..
            },
        ) => Some(value_kind(right)),
        _ => None,
    }
}

/// The kind of `&&` and `||` (C99, sections 6.5.13 and 6.5.14); `None` where an operand is no number.
pub fn logic_kind(left: Kind, right: Kind) -> Option<Kind>
    ensures { result ≡ spec.logic_kind left right }
{
    match (left, right) {
        (Kind::Number { .. }, Kind::Number { .. }) => Some(number(IntType::Int)),
        _ => None,
    }
}

/// The kind of `test ? yes : no` (C99, section 6.5.15); `None` where an operand is no number.
pub fn choice_kind(test: Kind, yes: Kind, no: Kind) -> Option<Kind>
    ensures { result ≡ spec.choice_kind test yes no }
{
    match (test, yes, no) {
        (Kind::Number { .. }, Kind::Number { of: a, .. }, Kind::Number { of: b, .. }) => {
            Some(number(common(a, b)))
        }
        _ => None,
    }
}

/// The kind of `+`, `-`, `~` and `!` on one operand (C99, section 6.5.3.3); `None` where it is no number.
pub fn operator_kind(op: Un, operand: Kind) -> Option<Kind>
    ensures { result ≡ spec.operator_kind op operand }
{
    match operand {
        Kind::Number { of, .. } => Some(number(unary_type(op, promoted(of)))),
        _ => None,
    }
}

/// The kind of an operator before its operand, from the kinds of the parts; `None` where it is at fault.
pub fn prefix_kind(prefix: Prefix, kinds: &[Option<Kind>]) -> Option<Kind>
    ensures { result ≡ spec.prefix_kind prefix kinds.now }
{
    match (prefix, kinds) {
        (Prefix::Size, _) => Some(number(IntType::Ulong)),
        (Prefix::Step(_), [Some(operand)]) => step_kind(*operand),
        (Prefix::Operator(op), [Some(operand)]) => operator_kind(op, *operand),
        (Prefix::Address, [Some(operand)]) => address_kind(*operand),
        (Prefix::Content, [Some(operand)]) => element_kind(*operand),
        _ => None,
    }
}

/// The kind of an operator behind its operand, from the kinds of the parts; `None` where it is at fault.
pub fn postfix_kind(postfix: Postfix, kinds: &[Option<Kind>]) -> Option<Kind>
    ensures { result ≡ spec.postfix_kind postfix kinds.now }
{
    match (postfix, kinds) {
        (Postfix::Index, [Some(array), Some(index)]) => index_kind(*array, *index),
        (Postfix::Step(_), [Some(operand)]) => step_kind(*operand),
        _ => None,
    }
}
