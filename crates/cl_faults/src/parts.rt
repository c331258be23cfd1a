//! The kinds of expressions from the kinds of their parts, in order.

ghost use Rattle.std.specs.Prelude.{◌≡◌};
ghost use Rattle.cl_meaning.specs.Kinds as spec;

use crate::kinds::comma_kind;
use crate::operators::{binary_kind, choice_kind, logic_kind};
use crate::settings::set_kind;
use cl_meaning::{Kind, Setting};
use wg_num::Bin;

/// The kind of a comma; `None` where it is at fault or a part is.
pub fn comma_of(kinds: &[Option<Kind>]) -> Option<Kind>
    ensures { result ≡ spec.pair_kind spec.comma_kind kinds.now }
{
    match kinds {
        [Some(left), Some(right)] => comma_kind(*left, *right),
        _ => None,
    }
}

/// The kind of `&&` and `||`; `None` where it is at fault or a part is.
pub fn logic_of(kinds: &[Option<Kind>]) -> Option<Kind>
    ensures { result ≡ spec.pair_kind spec.logic_kind kinds.now }
{
    match kinds {
        [Some(left), Some(right)] => logic_kind(*left, *right),
        _ => None,
    }
}

/// The kind of an operator on two operands; `None` where it is at fault or a part is.
pub fn binary_of(op: Bin, kinds: &[Option<Kind>]) -> Option<Kind>
    ensures { result ≡ spec.pair_kind (spec.binary_kind op) kinds.now }
{
    match kinds {
        [Some(left), Some(right)] => binary_kind(op, *left, *right),
        _ => None,
    }
}

/// The kind of an assignment; `None` where it is at fault or a part is.
pub fn set_of(setting: Setting, kinds: &[Option<Kind>]) -> Option<Kind>
    ensures { result ≡ spec.pair_kind (spec.set_kind setting) kinds.now }
{
    match kinds {
        [Some(target), Some(value)] => set_kind(setting, *target, *value),
        _ => None,
    }
}

/// The kind of `test ? yes : no`; `None` where it is at fault or a part is.
pub fn choice_of(kinds: &[Option<Kind>]) -> Option<Kind>
    ensures { result ≡ spec.choice_part_kind kinds.now }
{
    match kinds {
        [Some(test), Some(yes), Some(no)] => choice_kind(*test, *yes, *no),
        _ => None,
    }
}

/// The kind of what stands in parentheses.
pub fn only_of(kinds: &[Option<Kind>]) -> Option<Kind>
    ensures { result ≡ spec.only_kind kinds.now }
{
    match kinds {
        [kind] => *kind,
        _ => None,
    }
}
