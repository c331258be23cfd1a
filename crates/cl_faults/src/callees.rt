//! Whether the arguments of a call fit what it calls (C99, section 6.5.2.2).

ghost use Rattle.std.specs.Prelude.{◌≡◌};
ghost use Rattle.cl_meaning.specs.Kinds as spec;
ghost use Rattle.cl_meaning.specs.Faults as faults;
ghost use Rattle.cl_faults.specs.Known.{known};
ghost use Rattle.cl_scope.specs.Callees.{callee_view};

use crate::arguments::{
    all_numbers, are_known, arguments_fit, intrinsic_arity, intrinsic_result, is_fence, result_kind,
};
use cl_meaning::{Kind, Yield};
use cl_scope::Callee;

/// Whether a call takes so many arguments.
pub fn arity_fits(callee: Callee, count: usize) -> bool
    ensures { result ≡ spec.arity_fits (callee_view callee.entry) count }
{
    match callee {
        Callee::Defined { signature, .. } => signature.parameters.len() == count,
        Callee::Undefined => true,
        Callee::Known(intrinsic) => intrinsic_arity(intrinsic) == count,
    }
}

/// Whether a call takes the arguments whose kinds are known.
pub fn call_fits(callee: Callee, kinds: &[Option<Kind>]) -> bool
    ensures { result ≡ spec.call_fits (callee_view callee.entry) (known kinds.now) }
{
    match callee {
        Callee::Defined { signature, .. } => arguments_fit(&signature.parameters, kinds),
        Callee::Undefined => true,
        Callee::Known(_) => all_numbers(kinds),
    }
}

/// What a call gives, with the arguments whose kinds are known; `None` where that is not known.
pub fn call_result(callee: Callee, kinds: &[Option<Kind>]) -> Option<Kind>
    ensures { result ≡ spec.call_result (callee_view callee.entry) (known kinds.now) }
{
    match callee {
        Callee::Defined { signature, .. } => result_kind(signature.result),
        Callee::Undefined => None,
        Callee::Known(intrinsic) => Some(intrinsic_result(intrinsic, kinds)),
    }
}

/// The kind of a call, from the kinds of its arguments; `None` where it is at fault or an argument is.
#[tactic(auto, using(crate::proofs::Known::all_are_known))]
pub fn call_kind(callee: Callee, kinds: &[Option<Kind>]) -> Option<Kind>
    ensures { result ≡ spec.on_one (spec.all_known kinds.now) (spec.call_kind (callee_view callee.entry)) }
{
    if are_known(kinds) && arity_fits(callee, kinds.len()) && call_fits(callee, kinds) {
        call_result(callee, kinds)
    } else {
        None
    }
}

/// Whether a call of it has no value.
pub(crate) fn yields_nothing(callee: Callee) -> bool
    ensures { result ≡ faults.yields_nothing (callee_view callee.entry) }
{
    match callee {
        Callee::Defined { signature, .. } => match signature.result {
            Yield::Nothing => true,
            _ => false,
        },
        Callee::Undefined => false,
        Callee::Known(intrinsic) => is_fence(intrinsic),
    }
}

/// Whether it is a barrier or a memory fence.
pub(crate) fn is_fence_call(callee: Callee) -> bool
    ensures { result ≡ faults.is_fence_call (callee_view callee.entry) }
{
    match callee {
        Callee::Known(intrinsic) => is_fence(intrinsic),
        _ => false,
    }
}
