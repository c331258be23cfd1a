//! The arguments of a launch against the parameters of its kernel.
ghost use Rattle.std.specs.Prelude.{◌≡◌, ◌+◌, ◌-◌, ◌^◌, length, min};
ghost use Rattle.std.specs.List.{list_any};
ghost use Rattle.launch_file.specs.Binding as spec;
ghost use Rattle.launch_file.specs.Texts.{Part};

use crate::settle::has_name;
use crate::sizes::count_of;
use crate::text::{ArgText, BufferText};
use cl_model::{Space, VarKind};
use wg_num::wrap;

fn kind_wrong(kind: VarKind, arg: &ArgText) -> bool
    ensures { result ≡ spec.kind_wrong kind arg.now }
{
    match kind {
        VarKind::Scalar(_) => !matches!(arg, ArgText::Value(_)),
        VarKind::Pointer { space, .. } => match space {
            Space::Global | Space::Constant => !matches!(arg, ArgText::Buffer(_)),
            Space::Local => !matches!(arg, ArgText::Local(_)),
            Space::Private => true,
        },
    }
}

/// Whether an argument is of another kind than its parameter.
pub(crate) fn some_kind_wrong(kinds: &[VarKind], args: &[ArgText]) -> bool
    requires { length args.now ≡ length kinds.now }
    ensures { result ≡ spec.some_pair spec.kind_wrong kinds.now args.now }
{
    for i in 0..kinds.len() {
        if kind_wrong(kinds[i], &args[i]) {
            return true;
        }
    }
    false
}

fn value_wrong(kind: VarKind, arg: &ArgText) -> bool
    ensures { result ≡ spec.value_wrong kind arg.now }
{
    match kind {
        VarKind::Scalar(of) => match arg {
            ArgText::Value(number) => {
                let value = *number as i128;
                wrap(of, value) != value
            }
            ArgText::Buffer(_) | ArgText::Local(_) => false,
        },
        VarKind::Pointer { .. } => false,
    }
}

/// Whether a value lies outside its parameter's type.
pub(crate) fn some_value_wrong(kinds: &[VarKind], args: &[ArgText]) -> bool
    requires { length args.now ≡ length kinds.now }
    ensures { result ≡ spec.some_pair spec.value_wrong kinds.now args.now }
{
    for i in 0..kinds.len() {
        if value_wrong(kinds[i], &args[i]) {
            return true;
        }
    }
    false
}

fn is_unlisted(buffers: &[BufferText], arg: &ArgText) -> bool
    ensures { result ≡ spec.is_unlisted buffers.now arg.now }
{
    match arg {
        ArgText::Buffer(name) => !has_name(name.bytes(), buffers),
        ArgText::Value(_) | ArgText::Local(_) => false,
    }
}

/// Whether an argument names a buffer that is not listed.
pub(crate) fn some_unlisted(buffers: &[BufferText], args: &[ArgText]) -> bool
    ensures { result ≡ list_any (spec.is_unlisted buffers.now) args.now }
{
    for arg in args {
        if is_unlisted(buffers, arg) {
            return true;
        }
    }
    false
}

fn is_global_named(name: &[u8], kind: VarKind, arg: &ArgText) -> bool
    ensures { result ≡ spec.is_global_named name.now kind arg.now }
{
    match kind {
        VarKind::Pointer {
            space: Space::Global,
            ..
        } => match arg {
            ArgText::Buffer(other) => other.bytes() == name,
            ArgText::Value(_) | ArgText::Local(_) => false,
        },
        _ => false,
    }
}

fn some_global_named(name: &[u8], kinds: &[VarKind], args: &[ArgText]) -> bool
    requires { length args.now ≡ length kinds.now }
    ensures { result ≡ spec.some_pair (spec.is_global_named name.now) kinds.now args.now }
{
    for i in 0..kinds.len() {
        if is_global_named(name, kinds[i], &args[i]) {
            return true;
        }
    }
    false
}

fn is_shared(kinds: &[VarKind], args: &[ArgText], kind: VarKind, arg: &ArgText) -> bool
    requires { length args.now ≡ length kinds.now }
    ensures { result ≡ spec.is_shared kinds.now args.now kind arg.now }
{
    match kind {
        VarKind::Pointer {
            space: Space::Constant,
            ..
        } => match arg {
            ArgText::Buffer(name) => some_global_named(name.bytes(), kinds, args),
            ArgText::Value(_) | ArgText::Local(_) => false,
        },
        _ => false,
    }
}

/// Whether a buffer is bound to a constant and to a global parameter.
pub(crate) fn some_shared(kinds: &[VarKind], args: &[ArgText]) -> bool
    requires { length args.now ≡ length kinds.now }
    ensures { result ≡ spec.some_pair (spec.is_shared kinds.now args.now) kinds.now args.now }
{
    for i in 0..kinds.len() {
        if is_shared(kinds, args, kinds[i], &args[i]) {
            return true;
        }
    }
    false
}

fn local_bytes_of(arg: &ArgText) -> i64
    ensures { result ≡ spec.local_bytes_of arg.now }
{
    match arg {
        ArgText::Local(bytes) => *bytes,
        ArgText::Buffer(_) | ArgText::Value(_) => 0,
    }
}

fn some_local_negative(args: &[ArgText]) -> bool
    ensures { result ≡ list_any (λ a. spec.is_below_zero (spec.local_bytes_of a)) args.now }
{
    for arg in args {
        if local_bytes_of(arg) < 0 {
            return true;
        }
    }
    false
}

// The bytes of local memory that are declared and given, where that is a number of 64 bits.
fn local_total(declared: u64, args: &[ArgText]) -> u64
    ensures { result ≡ min (declared + spec.total (λ a. spec.count_of (spec.local_bytes_of a)) args.now)
        (2 ^ 64 - 1) }
{
    let mut total = declared;
    for arg in args {
        total = total.saturating_add(count_of(local_bytes_of(arg)));
    }
    total
}

/// Whether local bytes are below 0, or there are more than 65,536 of them.
pub(crate) fn local_wrong(declared: u64, args: &[ArgText]) -> bool
    ensures { (needs : spec.Needs) (part : Part) → needs.local_bytes ≡ declared → part.args ≡ args.now →
        result ≡ spec.local_wrong needs part }
{
    some_local_negative(args) || local_total(declared, args) > 65_536
}
