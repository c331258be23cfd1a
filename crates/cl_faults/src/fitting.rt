//! Operands whose kinds are known and do not fit.

ghost use Rattle.std.specs.Prelude.{◌≡◌, ◌&&◌};
ghost use Rattle.cl_meaning.specs.Kinds as spec;
ghost use Rattle.cl_meaning.specs.Faults as faults;

use crate::kinds::{address_kind, comma_kind, element_kind, index_kind, is_number};
use crate::operators::{binary_kind, choice_kind, logic_kind, operator_kind};
use crate::settings::{is_target, root_changes, value_fits};
use cl_meaning::{Kind, Parameter, Postfix, Prefix, Setting, Yield, same_space};
use wg_num::{Bin, Un, same_type};

/// Whether the operands of a comma do not fit.
pub fn comma_misfits(kinds: &[Option<Kind>]) -> bool
    ensures { result ≡ faults.lacks_pair spec.comma_kind kinds.now }
{
    match kinds {
        [Some(left), Some(right)] => comma_kind(*left, *right).is_none(),
        _ => false,
    }
}

/// Whether the operands of `&&` or `||` do not fit.
pub fn logic_misfits(kinds: &[Option<Kind>]) -> bool
    ensures { result ≡ faults.lacks_pair spec.logic_kind kinds.now }
{
    match kinds {
        [Some(left), Some(right)] => logic_kind(*left, *right).is_none(),
        _ => false,
    }
}

/// Whether the two operands of an operator do not fit.
pub fn binary_misfits(op: Bin, kinds: &[Option<Kind>]) -> bool
    ensures { result ≡ faults.lacks_pair (spec.binary_kind op) kinds.now }
{
    match kinds {
        [Some(left), Some(right)] => binary_kind(op, *left, *right).is_none(),
        _ => false,
    }
}

/// Whether the operands of `test ? yes : no` do not fit.
pub fn choice_misfits(kinds: &[Option<Kind>]) -> bool
    ensures { result ≡ faults.choice_misfits kinds.now }
{
    match kinds {
        [Some(test), Some(yes), Some(no)] => choice_kind(*test, *yes, *no).is_none(),
        _ => false,
    }
}

/// Whether a value does not fit its target, the target's root and its being `const` aside.
pub fn setting_misfits(setting: Setting, kinds: &[Option<Kind>]) -> bool
    ensures { result ≡ faults.setting_misfits kinds.now setting }
{
    match kinds {
        [Some(target), Some(value)] => {
            is_target(*target) && !value_fits(setting, *target, *value)
        }
        _ => false,
    }
}

/// Whether a pointer variable would get a pointer of another root.
pub fn setting_changes_root(setting: Setting, kinds: &[Option<Kind>]) -> bool
    ensures { result ≡ faults.given_pair kinds.now (λ a b. spec.is_target a && spec.root_changes setting a b) }
{
    match kinds {
        [Some(target), Some(value)] => {
            is_target(*target) && root_changes(setting, *target, *value)
        }
        _ => false,
    }
}

fn operator_misfits(op: Un, kinds: &[Option<Kind>]) -> bool
    ensures { result ≡ faults.lacks (spec.operator_kind op) kinds.now }
{
    match kinds {
        [Some(operand), ..] => operator_kind(op, *operand).is_none(),
        _ => false,
    }
}

fn address_misfits(kinds: &[Option<Kind>]) -> bool
    ensures { result ≡ faults.lacks spec.address_kind kinds.now }
{
    match kinds {
        [Some(operand), ..] => address_kind(*operand).is_none(),
        _ => false,
    }
}

fn content_misfits(kinds: &[Option<Kind>]) -> bool
    ensures { result ≡ faults.lacks spec.element_kind kinds.now }
{
    match kinds {
        [Some(operand), ..] => element_kind(*operand).is_none(),
        _ => false,
    }
}

/// Whether the operand of an operator before it does not fit.
pub fn prefix_misfits(prefix: Prefix, kinds: &[Option<Kind>]) -> bool
    ensures { result ≡ faults.prefix_misfits kinds.now prefix }
{
    match prefix {
        Prefix::Operator(op) => operator_misfits(op, kinds),
        Prefix::Address => address_misfits(kinds),
        Prefix::Content => content_misfits(kinds),
        Prefix::Step(_) | Prefix::Size => false,
    }
}

/// Whether the operands of an operator behind the first of them do not fit.
pub fn postfix_misfits(postfix: Postfix, kinds: &[Option<Kind>]) -> bool
    ensures { result ≡ faults.postfix_misfits kinds.now postfix }
{
    match (postfix, kinds) {
        (Postfix::Index, [Some(array), Some(index)]) => index_kind(*array, *index).is_none(),
        _ => false,
    }
}

/// Whether the value of a `return`, if any, is not what the function gives (C99, section 6.8.6.4).
pub fn return_misfits(wanted: Yield, kinds: &[Option<Kind>]) -> bool
    ensures { result ≡ faults.return_misfits wanted kinds.now }
{
    match (wanted, kinds) {
        (Yield::Nothing, _) => !kinds.is_empty(),
        (_, []) => true,
        (_, [Some(kind), ..]) => !is_number(*kind),
        _ => false,
    }
}

/// Whether two functions give the same.
pub fn same_yield(left: Yield, right: Yield) -> bool
    ensures { result ≡ faults.same_yield left right }
{
    match (left, right) {
        (Yield::Nothing, Yield::Nothing) => true,
        (Yield::Number(a), Yield::Number(b)) => same_type(a, b),
        (Yield::Outside, Yield::Outside) => true,
        _ => false,
    }
}

/// Whether two parameters take the same.
pub fn same_parameter(left: Parameter, right: Parameter) -> bool
    ensures { result ≡ faults.same_parameter left right }
{
    match (left, right) {
        (Parameter::Number(a), Parameter::Number(b)) => same_type(a, b),
        (
            Parameter::Pointer {
                space,
                element,
                constant,
            },
            Parameter::Pointer {
                space: other_space,
                element: other_element,
                constant: other_constant,
            },
        ) => {
            same_space(space, other_space)
                && same_type(element, other_element)
                && constant == other_constant
        }
        (Parameter::Outside, Parameter::Outside) => true,
        _ => false,
    }
}

/// Whether two functions take the same.
#[tactic(auto, using(crate::proofs::SameParameters::ends_before))]
pub fn same_parameters(left: &[Parameter], right: &[Parameter]) -> bool
    ensures { result ≡ faults.same_parameters left.now right.now }
{
    let mut others = right;
    for parameter in left {
        match others {
            [other, behind @ ..] if same_parameter(*parameter, *other) => others = behind,
            _ => return false,
        }
    }
    others.is_empty()
}
