//! The key of a kernel.

ghost use Rattle.std.specs.Prelude.{◌≡◌, ◌↔◌, ◌++◌, ◌∷◌, [], OnOk, IfOk, IsUtf8, IsTrue};
ghost use Rattle.wg_num.specs.Operators as operators;
ghost use Rattle.wg_object.specs.Text as texts;
ghost use Rattle.wg_cache.specs.Keys.{key_bytes, key_name, define_text, IsCacheName};

use crate::puts::{eight, put, put_word};
use crate::types::Key;
use cl_prep::{Define, Defines};
use sha2::{Digest, Sha256};
use std::alloc::Global;
use wg_num::{Memory, Width, Word, lanes_of};

/// What each name of a cache file begins with.
const PREFIX: &str = "wgcc-cache-";

/// Puts a number that is given for a name.
fn put_define(out: &mut Vec<u8>, define: &Define) -> Result<(), Memory>
    ensures { OnOk result (out.new.items ≡ out.old.items ++ define_text define.now) }
{
    put_word(out, define.name.bytes())?;
    put(out, &eight(define.value))
}

/// Puts them one behind the other.
fn put_each(out: &mut Vec<u8>, list: &[Define]) -> Result<(), Memory>
    ensures { OnOk result (out.new.items ≡ out.old.items ++ texts.flat_texts define_text list.now) }
{
    for define in list {
        put_define(out, define)?;
    }
    Ok(())
}

/// Puts the numbers that are given for names, behind their count.
fn put_defines(out: &mut Vec<u8>, list: &[Define]) -> Result<(), Memory>
    ensures { OnOk result (out.new.items ≡ out.old.items ++ texts.list_text define_text list.now) }
{
    put(out, &eight(list.len() as u64))?;
    put_each(out, list)
}

/// How many lanes there are, as a byte.
fn lane_byte(width: Width) -> u8
    ensures { result ≡ operators.lanes_of width }
{
    lanes_of(width) as u8
}

/// The name of the file of a key.
#[tactic(auto, unfolding(crate::specs::Keys::key_name))]
fn name_of(alloc: Global, key: &[u8]) -> Result<Word, Memory>
    ensures name { IfOk result (λ w. w ≡ key_name key.now) }
    ensures utf8 { IfOk result (λ w. IsUtf8 w) }
{
    let Ok(digits) = hex::encode(alloc, &Sha256::digest(key)) else {
        return Err(Memory);
    };
    let mut text = Vec::new(alloc);
    put(&mut text, PREFIX.as_bytes())?;
    put(&mut text, digits.as_bytes())?;
    Word::new(alloc, &text)
}

/// The bytes of a key.
fn bytes_of(
    alloc: Global,
    source: &[u8],
    defines: &[Define],
    kernel: &Word,
    width: Width,
) -> Result<Vec<u8>, Memory>
    ensures { IfOk result (λ b. b.items ≡
        key_bytes source.now defines.now kernel.now (operators.lanes_of width)) }
{
    let mut bytes = Vec::new(alloc);
    put_word(&mut bytes, source)?;
    put_word(&mut bytes, kernel.bytes())?;
    put(&mut bytes, &[lane_byte(width)])?;
    put_defines(&mut bytes, defines)?;
    Ok(bytes)
}

/// The key of a kernel of a source, with the numbers that are given for names, compiled for so many lanes.
pub fn key(
    alloc: Global,
    source: &[u8],
    defines: &Defines,
    kernel: &Word,
    width: Width,
) -> Result<Key, Memory>
    ensures bytes { IfOk result (λ k. k.bytes.items ≡
        key_bytes source.now defines.now.list.items kernel.now (operators.lanes_of width)) }
    ensures name { IfOk result (λ k. k.name ≡ key_name k.bytes.items) }
    ensures utf8 { IfOk result (λ k. IsUtf8 k.name) }
{
    let bytes = bytes_of(alloc, source, &defines.list, kernel, width)?;
    let name = name_of(alloc, &bytes)?;
    Ok(Key { name, bytes })
}

/// Whether a name begins as the names of cache files do.
pub fn is_cache_name(name: &Word) -> bool
    ensures { IsTrue result ↔ IsCacheName name.now }
{
    name.bytes().strip_prefix(PREFIX.as_bytes()).is_some()
}
