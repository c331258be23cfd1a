//! The object that an access reaches.
ghost use Rattle.std.specs.Prelude.{◌≡◌, ◌<◌, ◌≤◌, ◌^◌, [], ◌∷◌, length, take, map};
ghost use Rattle.std.specs.Prelude.{slice_get, slice_index_or};
ghost use Rattle.cl_model.specs.Objects.{local_arguments};
ghost use Rattle.cl_model.specs.View.{launch_of};
ghost use Rattle.lane_code.specs.Groups.{reached, reached_by};
ghost use Rattle.lane_machine.specs.Standing.{reached_of};

use cl_model::{Bound, Launch, Root};
use lane_code::GroupProgram;

/// A buffer, a constant table or an object of local memory, which all lanes share; a private array,
/// of which each item has its own; or no object.
#[derive(Clone, Copy)]
pub(crate) enum Object {
    Buffer(u32),
    Table(u32),
    Local(usize),
    Private(u32),
    Missing,
}

/// The bytes of one object of a list, and none where there is no such object.
pub(crate) fn bytes_at(list: &[Vec<u8>], n: usize) -> &[u8]
    ensures { result.now ≡ slice_index_or (map (λ v. v.items) list.now) n [] }
{
    match list.get(n) {
        Some(bytes) => bytes,
        None => &[],
    }
}

/// 1 for an argument of local memory.
fn one_if_local(b: &Bound) -> usize
    ensures value { result ≡ length (local_arguments (b.now ∷ [])) }
    ensures few { result ≤ 1 }
{
    match b {
        Bound::Local(_) => 1,
        Bound::Buffer(_) | Bound::Value(_) => 0,
    }
}

/// How many of the first arguments are of local memory.
fn locals_before(args: &[Bound], n: usize) -> usize
    requires { n ≤ length args.now }
    ensures value { result ≡ length (local_arguments (take n args.now)) }
    ensures few { result ≤ n }
{
    let mut count = 0;
    for i in 0..n {
        let one = one_if_local(&args[i]);
        count += one;
    }
    count
}

/// The object of a pointer parameter.
fn object_bound(locals: usize, args: &[Bound], n: usize) -> Object
    requires { locals < 2 ^ 63 }
    ensures { reached_of result ≡ reached_by locals args.now n (slice_get args.now n) }
{
    match args.get(n) {
        Some(Bound::Buffer(b)) => Object::Buffer(*b),
        Some(Bound::Local(_)) => Object::Local(locals + locals_before(args, n)),
        Some(Bound::Value(_)) | None => Object::Missing,
    }
}

/// The object that the root of an access names.
pub(crate) fn object_of(program: &GroupProgram, launch: &Launch, root: Root) -> Object
    ensures { reached_of result ≡ reached (length program.now.locals.items) (launch_of launch.now) root }
{
    match root {
        Root::Param(n) => object_bound(program.locals.len(), &launch.args, n as usize),
        Root::Constant(n) => Object::Table(n),
        Root::Local(n) => Object::Local(n as usize),
        Root::Private(n) => Object::Private(n),
    }
}
