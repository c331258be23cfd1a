//! The places of tokens, as lines and columns.
ghost use Rattle.std.specs.Prelude.{◌≡◌, ◌<◌, ◌≤◌, [], length, map, All, IfOk};
ghost use Rattle.cl_token.specs.Places.{place_at, place_behind};

use crate::token::Token;
use std::alloc::Global;
use wg_num::{Memory, Place, push};

const START: Place = Place { line: 1, column: 1 };

/// The place behind a byte.
fn behind(place: Place, byte: u8) -> Place
    ensures { result ≡ place_behind place byte }
{
    if byte == b'\n' {
        Place {
            line: place.line.saturating_add(1),
            column: 1,
        }
    } else {
        Place {
            line: place.line,
            column: place.column.saturating_add(1),
        }
    }
}

/// The place of the byte at `to`, from that of the byte at `from`.
#[tactic(auto, using(crate::proofs::PlaceLaws::place_laws))]
fn advance(source: &[u8], place: Place, from: usize, to: usize) -> Place
    requires order { from ≤ to }
    requires within { to ≤ length source.now }
    requires here { place ≡ place_at source.now from }
    ensures { result ≡ place_at source.now to }
{
    let mut place = place;
    for index in from..to {
        place = behind(place, source[index]);
    }
    place
}

/// The line and the column of the byte at an offset, or of the end of the source.
#[tactic(auto, using(crate::proofs::PlaceLaws::place_laws))]
pub fn place_of(source: &[u8], at: u32) -> Place
    requires { at ≤ length source.now }
    ensures { result ≡ place_at source.now at }
{
    advance(source, START, 0, at as usize)
}

/// The places of the tokens' first bytes, in order.
///
/// Tokens that stand in the order of the source are placed in one pass over it.
#[tactic(auto, using(crate::proofs::PlaceLaws::place_laws))]
pub fn places(alloc: Global, source: &[u8], tokens: &[Token]) -> Result<Vec<Place>, Memory>
    requires { All (λ t. t.start ≤ length source.now) tokens.now }
    ensures { IfOk result (λ ps. ps.items ≡ map (λ t. place_at source.now t.start) tokens.now) }
{
    let mut places = Vec::new(alloc);
    let mut at = 0usize;
    let mut place = START;
    for token in tokens {
        let start = token.start as usize;
        if start < at {
            at = 0;
            place = START;
        }
        place = advance(source, place, at, start);
        at = start;
        push(&mut places, place)?;
    }
    Ok(places)
}
