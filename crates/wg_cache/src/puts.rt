//! Bytes behind their count.

ghost use Rattle.std.specs.Prelude.{◌≡◌, ◌++◌, OnOk};
ghost use Rattle.wg_object.specs.Text as texts;

use wg_num::Memory;

/// Puts bytes behind what stands there.
pub(crate) fn put(out: &mut Vec<u8>, bytes: &[u8]) -> Result<(), Memory>
    ensures { OnOk result (out.new.items ≡ out.old.items ++ bytes.now) }
{
    match out.extend_from_slice(bytes) {
        Ok(()) => Ok(()),
        Err(_) => Err(Memory),
    }
}

/// A number of 64 bits, lowest byte first.
#[tactic(auto, unfolding(wg_object::specs::Text::eight))]
pub(crate) fn eight(n: u64) -> [u8; 8]
    ensures { result ≡ texts.eight n }
{
    n.to_le_bytes()
}

/// Puts bytes behind their count.
pub(crate) fn put_word(out: &mut Vec<u8>, word: &[u8]) -> Result<(), Memory>
    ensures { OnOk result (out.new.items ≡ out.old.items ++ texts.word_text word.now) }
{
    put(out, &eight(word.len() as u64))?;
    put(out, word)
}
