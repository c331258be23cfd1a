//! Numbers and truth words.

ghost use Rattle.std.specs.Prelude.{◌≡◌, IfSome, option_map, pos};
ghost use Rattle.wg_num.specs.Wrap.{IsValue};
ghost use Rattle.cl_token.specs.Number.{IsLiteral};
ghost use Rattle.cl_meaning.specs.Literals.{truth_in, literal_in};

use crate::table::look_up;
use cl_token::{Literal, LiteralError, literal_of};

/// The value of a truth word.
#[tactic(auto, unfolding(crate::specs::Literals::truth_in))]
pub fn truth_of(word: &[u8]) -> Option<i128>
    ensures { result ≡ truth_in word.now }
{
    look_up(word, &[("true", 1), ("false", 0)])
}

/// The type and the value of an integer constant; `None` exactly where the word spells none
/// (C99, section 6.4.4.1).
#[tactic(auto, using(crate::proofs::Numbers::numbers))]
pub fn literal(word: &[u8]) -> Option<Literal>
    ensures same { option_map (λ l. (l.of, l.value)) result ≡ literal_in word.now }
    ensures spelled { IfSome result (λ l. IsLiteral word.now l.of l.value) }
    ensures value { IfSome result (λ l. IsValue l.of (pos l.value)) }
{
    match literal_of(word) {
        Ok(found) => Some(found),
        Err(LiteralError::Malformed) => None,
        Err(LiteralError::TooLarge) => None,
    }
}
