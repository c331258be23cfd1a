//! Reading one token ahead.

ghost use Rattle.std.specs.Prelude.{◌≡◌, not};
ghost use Rattle.cl_tree.specs.Syntax.{Syntax};
ghost use Rattle.cl_read.specs.Starts.{same};
ghost use Rattle.cl_read.specs.Sets.{in_set};
ghost use Rattle.cl_read.specs.Reading.{begins, is, eat, eat_in, no_room};
ghost use Rattle.cl_read.specs.Gives.{Gives, Fails, spot_of};
ghost use Rattle.cl_read.specs.declared.cursor.Fail.TheVariants as fails;

use crate::set::{Set, contains, is_same};
use cl_tree::{Leaf, Terminal};
use std::alloc::{AllocError, AllocFailed};
use wg_num::Memory;

/// Why reading stopped. A place is the number of tokens from it on.
#[derive(Drop)]
pub enum Fail {
    Memory,
    Syntax { left: usize },
    Nesting { left: usize },
}

impl From<Memory> for Fail {
    ghost from_gives = { λ _ e. e ≡ fails.Memory };

    fn from(_e: Memory) -> Fail {
        Fail::Memory
    }
}

impl From<AllocError> for Fail {
    ghost from_gives = { λ _ e. e ≡ fails.Memory };

    fn from(_e: AllocError) -> Fail {
        Fail::Memory
    }
}

impl<T: Drop> From<AllocFailed<T>> for Fail {
    ghost from_gives = { λ _ e. e ≡ fails.Memory };

    fn from(_e: AllocFailed<T>) -> Fail {
        Fail::Memory
    }
}

/// Whether the next token is of that terminal.
pub fn next_is(items: &[Leaf], terminal: Terminal) -> bool
    ensures { result ≡ begins (is terminal) items.now }
{
    match items {
        [] => false,
        [first, ..] => is_same(first.terminal, terminal),
    }
}

/// Whether there is a next token, of another terminal.
pub fn next_differs(items: &[Leaf], terminal: Terminal) -> bool
    ensures { result ≡ begins (λ k. not (same k terminal)) items.now }
{
    match items {
        [] => false,
        [first, ..] => !is_same(first.terminal, terminal),
    }
}

/// Whether the next token is in the set.
pub fn next_in(items: &[Leaf], set: Set) -> bool
    ensures { result ≡ begins (in_set set) items.now }
{
    match items {
        [] => false,
        [first, ..] => contains(set, first.terminal),
    }
}

/// Takes a token of that terminal. Where the next token is another, or there is none, its place is a syntax error.
pub fn take(items: &[Leaf], terminal: Terminal) -> Result<(&Leaf, &[Leaf]), Fail>
    ensures { Gives (λ x. (spot_of x.0.now, x.1.now)) result (eat terminal items.now) }
{
    match items {
        [] => Err(Fail::Syntax { left: 0 }),
        [first, rest @ ..] => {
            if !is_same(first.terminal, terminal) {
                return Err(Fail::Syntax { left: items.len() });
            }
            Ok((first, rest))
        }
    }
}

/// Takes a token that is in the set. Where the next token is not, or there is none, its place is a syntax error.
pub fn take_in(items: &[Leaf], set: Set) -> Result<(&Leaf, &[Leaf]), Fail>
    ensures { Gives (λ x. (spot_of x.0.now, x.1.now)) result (eat_in (in_set set) items.now) }
{
    match items {
        [] => Err(Fail::Syntax { left: 0 }),
        [first, rest @ ..] => {
            if !contains(set, first.terminal) {
                let left = items.len();
                return Err(Fail::Syntax { left });
            }
            Ok((first, rest))
        }
    }
}

/// Why there is no tree where there is no room for one that begins with a token of the set.
pub fn no_tree(items: &[Leaf], set: Set) -> Fail
    ensures { Fails result (no_room {A = Syntax} (in_set set) items.now) }
{
    let left = items.len();
    match items {
        [] => Fail::Syntax { left },
        [first, ..] => {
            if contains(set, first.terminal) {
                Fail::Nesting { left }
            } else {
                Fail::Syntax { left }
            }
        }
    }
}
