//! The pieces of the parts of a node, taken apart.

ghost use Rattle.std.specs.Prelude.{◌≡◌, ◌≢◌, [], ◌∷◌, length, IfSome, IfNone};

use crate::fragment::Piece;

/// The pieces of two parts.
#[derive(Drop)]
pub(crate) struct Two {
    pub(crate) first: Piece,
    pub(crate) second: Piece,
}

/// The pieces of three parts.
#[derive(Drop)]
pub(crate) struct Three {
    pub(crate) first: Piece,
    pub(crate) second: Piece,
    pub(crate) third: Piece,
}

/// Takes the first of some pieces.
pub(crate) fn next<T: Drop>(pieces: &mut Vec<T>) -> Option<T>
    ensures some { IfSome result (λ p. pieces.old.items ≡ p ∷ pieces.new.items) }
    ensures none { IfNone result (pieces.old.items ≡ []) }
    ensures rest { IfNone result (pieces.new.items ≡ []) }
{
    if pieces.is_empty() {
        None
    } else {
        Some(pieces.remove(0))
    }
}

/// The only one of some pieces.
pub(crate) fn only(mut pieces: Vec<Piece>) -> Option<Piece>
    ensures some { IfSome result (λ p. pieces.items ≡ p ∷ []) }
    ensures none { IfNone result (length pieces.items ≢ 1) }
{
    if pieces.len() != 1 {
        return None;
    }
    next(&mut pieces)
}

// Two items and no more.
fn two_of<T: Drop>(mut items: Vec<T>) -> Option<(T, T)>
    ensures some { IfSome result (λ t. items.items ≡ t.0 ∷ t.1 ∷ []) }
    ensures none { IfNone result (length items.items ≢ 2) }
{
    if items.len() != 2 {
        return None;
    }
    let first = next(&mut items)?;
    let second = next(&mut items)?;
    Some((first, second))
}

// Three items and no more.
fn three_of<T: Drop>(mut items: Vec<T>) -> Option<(T, T, T)>
    ensures some { IfSome result (λ t. items.items ≡ t.0 ∷ t.1 ∷ t.2 ∷ []) }
    ensures none { IfNone result (length items.items ≢ 3) }
{
    if items.len() != 3 {
        return None;
    }
    let first = next(&mut items)?;
    let second = next(&mut items)?;
    let third = next(&mut items)?;
    Some((first, second, third))
}

/// Two pieces and no more.
pub(crate) fn pair(pieces: Vec<Piece>) -> Option<Two>
    ensures some { IfSome result (λ t. pieces.items ≡ t.first ∷ t.second ∷ []) }
    ensures none { IfNone result (length pieces.items ≢ 2) }
{
    let (first, second) = two_of(pieces)?;
    Some(Two { first, second })
}

/// Three pieces and no more.
pub(crate) fn triple(pieces: Vec<Piece>) -> Option<Three>
    ensures some { IfSome result (λ t. pieces.items ≡ t.first ∷ t.second ∷ t.third ∷ []) }
    ensures none { IfNone result (length pieces.items ≢ 3) }
{
    let (first, second, third) = three_of(pieces)?;
    Some(Three {
        first,
        second,
        third,
    })
}
