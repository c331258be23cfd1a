//! Looking words up.

ghost use Rattle.std.specs.Prelude.{◌≡◌, map};
ghost use Rattle.cl_tree.specs.Words.{is_among};
ghost use Rattle.cl_meaning.specs.OwnWords.{looked_up};

/// Whether the word is one of these.
pub(crate) fn is_one_of(word: &[u8], words: &[&str]) -> bool
    ensures { result ≡ is_among word.now (map (λ w. w.now) words.now) }
{
    for text in words {
        if word == text.as_bytes() {
            return true;
        }
    }
    false
}

/// What a table gives the word.
pub(crate) fn look_up<T: Copy>(word: &[u8], table: &[(&str, T)]) -> Option<T>
    ensures { result ≡ looked_up word.now (map (λ r. record { word = r.0.now; value = r.1 }) table.now) }
{
    for (text, value) in table {
        if word == text.as_bytes() {
            return Some(*value);
        }
    }
    None
}
