//! Equal spaces and roots.

ghost use Rattle.std.specs.Prelude.{◌≡◌};
ghost use Rattle.cl_meaning.specs.Kinds as spec;

use cl_model::{Root, Space};

/// Whether two address spaces are one.
pub fn same_space(a: Space, b: Space) -> bool
    ensures { result ≡ spec.same_space a b }
{
    match (a, b) {
        (Space::Global, Space::Global) => true,
        (Space::Constant, Space::Constant) => true,
        (Space::Local, Space::Local) => true,
        (Space::Private, Space::Private) => true,
        _ => false,
    }
}

/// Whether two pointers lead to one object.
pub fn same_root(a: Root, b: Root) -> bool
    ensures { result ≡ spec.same_root a b }
{
    match (a, b) {
        (Root::Param(m), Root::Param(n)) => m == n,
        (Root::Constant(m), Root::Constant(n)) => m == n,
        (Root::Local(m), Root::Local(n)) => m == n,
        (Root::Private(m), Root::Private(n)) => m == n,
        _ => false,
    }
}
