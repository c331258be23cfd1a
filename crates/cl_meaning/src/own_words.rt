//! The own words of a node, one at a time.

ghost use Rattle.std.specs.Prelude.{◌≡◌, ◌<◌, ◌≤◌, length, IfSome};
ghost use Rattle.std.specs.List.{before_first, after_first, position_or_len, count_by};
ghost use Rattle.cl_tree.specs.Words.{is_among};
ghost use Rattle.cl_meaning.specs.OwnWords.{is_blank, pieces, name_in, is_text, listed};

/// How many bytes stand before the first blank of a word.
fn front_length(word: &[u8]) -> usize
    ensures run { result ≡ position_or_len is_blank word.now }
    ensures within { result ≤ length word.now }
{
    word.iter().take_while(|byte| **byte != b' ').count()
}

/// The front of a word up to its first blank, and what stands behind that blank.
fn cut(word: &[u8]) -> (&[u8], &[u8])
    ensures front { result.0.now ≡ before_first is_blank word.now }
    ensures behind { result.1.now ≡ after_first is_blank word.now }
{
    let (front, rest) = word.split_at(front_length(word));
    (front, rest.get(1..).unwrap_or(&[]))
}

/// The front of a word up to its first blank.
pub fn name_of(word: &[u8]) -> &[u8]
    ensures { result.now ≡ name_in word.now }
{
    cut(word).0
}

/// The first piece of a word, and what stands behind it.
#[tactic(auto, using(crate::proofs::Cuts::cuts))]
pub(crate) fn next_piece(word: &[u8]) -> Option<(&[u8], &[u8])>
    ensures listed { listed pieces (λ p. p.0.now) (λ p. p.1.now) result ≡ pieces word.now }
    ensures shorter { IfSome result (λ p. length p.1.now < length word.now) }
{
    let mut rest = word;
    while !rest.is_empty() {
        let (piece, behind) = cut(rest);
        if !piece.is_empty() {
            return Some((piece, behind));
        }
        rest = behind;
    }
    None
}

/// Whether the text is among the pieces of a word.
pub(crate) fn has_piece(word: &[u8], text: &[u8]) -> bool
    ensures { result ≡ is_among text.now (pieces word.now) }
{
    let mut rest = word;
    while let Some((piece, behind)) = next_piece(rest) {
        if text == piece {
            return true;
        }
        rest = behind;
    }
    false
}

/// How many pieces of a word are the text.
pub(crate) fn count_pieces(word: &[u8], text: &[u8]) -> usize
    ensures { result ≡ count_by (is_text text.now) (pieces word.now) }
{
    let mut count = 0;
    let mut rest = word;
    while let Some((piece, behind)) = next_piece(rest) {
        if piece == text {
            count += 1;
        }
        rest = behind;
    }
    count
}
