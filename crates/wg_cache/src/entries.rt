//! The entry of a key, in a store.

ghost use Rattle.std.specs.Prelude.{◌≡◌, ◌≢◌, ◌≤◌, ◌+◌, ◌++◌, ℕ, List, length, MatchOption, IfOk, IfSome, OnOk, OnErr};
ghost use Rattle.std.specs.Prelude.{Ok, Err, None, IsUtf8, is_some};
ghost use Rattle.wg_outside.specs.Counts.{Rose};
ghost use Rattle.wg_outside.specs.Files.{LacksFile, HasSaved, KeepsOthers};
ghost use Rattle.wg_object.specs.Plain.{PlainObject};
ghost use Rattle.wg_object.specs.View.{object_of};
ghost use Rattle.wg_object.specs.Text as texts;
ghost use Rattle.wg_object.specs.Valid.{IsEight};
ghost use Rattle.wg_cache.specs.Entries.{IsEntryOf, HasEntry, LacksEntry, IsFile};

use crate::puts::{eight, put, put_word};
use crate::types::{Entry, Key};
use std::alloc::Global;
use wg_num::{Memory, Word};
use wg_object::{DecodeError, Object, decode, encode};
use wg_outside::{Failed, LoadError, Store};

/// What stands behind other bytes; `None` where the bytes do not begin with them.
fn behind<'a>(front: &[u8], bytes: &'a [u8]) -> Option<&'a [u8]>
    ensures { MatchOption result ((rest : List ℕ) → bytes.now ≢ front.now ++ rest)
        (λ rest. bytes.now ≡ front.now ++ rest.now) }
{
    bytes.strip_prefix(front)
}

/// What stands behind a key and its length; `None` where the bytes do not begin so.
fn behind_key<'a>(key: &[u8], bytes: &'a [u8]) -> Option<&'a [u8]>
    ensures { MatchOption result ((rest : List ℕ) → bytes.now ≢ texts.word_text key.now ++ rest)
        (λ rest. bytes.now ≡ texts.word_text key.now ++ rest.now) }
{
    match behind(&eight(key.len() as u64), bytes) {
        Some(rest) => behind(key, rest),
        None => None,
    }
}

/// The object of an entry of that very key. `NotObject` comes exactly where the bytes are none.
fn object_behind(alloc: Global, key: &[u8], bytes: &[u8]) -> Result<Object, DecodeError>
    ensures found { IfOk result (λ o. IsEntryOf bytes.now key.now (object_of o)) }
    ensures none { result ≡ Err DecodeError.NotObject → (o : PlainObject) → IsEntryOf bytes.now key.now o → ⊥ }
{
    match behind_key(key, bytes) {
        Some(rest) => decode(alloc, rest),
        None => Err(DecodeError::NotObject),
    }
}

/// The whole file of a name, since no list has as many bytes as are asked for; `None` where there is none.
fn load_whole<S: Store>(
    alloc: Global,
    store: &mut S,
    name: &Word,
) -> Result<Option<Vec<u8>>, LoadError>
    requires { IsUtf8 name.now }
    ensures whole { IfOk result (λ found. IfSome found
        (λ v. IsFile (S.files store.old) name.now v.items)) }
    ensures none { result ≡ Ok None → LacksFile (S.files store.old) name.now }
    ensures failed { result ≡ Err LoadError.Failed → Rose (S.faults store.old) (S.faults store.new) }
    ensures never_absent { result ≡ Err LoadError.Absent → ⊥ }
    ensures files_stay { S.files store.new ≡ S.files store.old }
    ensures faults_stand { S.faults store.old ≤ S.faults store.new }
    ensures misses_stand { S.misses store.old ≤ S.misses store.new }
    ensures certain { (saves room : ℕ) → S.certain store.old saves room → S.certain store.new saves room ×
        (S.faults store.new ≡ S.faults store.old) }
{
    let Some(text) = name.text() else {
        unreachable!()
    };
    match store.load(alloc, text, u64::MAX) {
        Ok(bytes) => Ok(Some(bytes)),
        Err(LoadError::Absent) => Ok(None),
        Err(LoadError::Failed) => Err(LoadError::Failed),
        Err(LoadError::Memory) => Err(LoadError::Memory),
    }
}

/// The object of the entry of a key, in a store. `None` comes exactly where the store has no entry of this very key
/// under its name: a file cut short, or of another key, is none. `Failed` comes where the store cannot be read, and
/// `Absent` never.
pub fn find<S: Store>(alloc: Global, store: &mut S, key: &Key) -> Result<Option<Object>, LoadError>
    requires { IsUtf8 key.now.name }
    ensures found { IfOk result (λ found. IfSome found
        (λ o. HasEntry (S.files store.old) key.now.name key.now.bytes.items (object_of o))) }
    ensures none { result ≡ Ok None → LacksEntry (S.files store.old) key.now.name key.now.bytes.items }
    ensures failed { result ≡ Err LoadError.Failed → Rose (S.faults store.old) (S.faults store.new) }
    ensures never_absent { result ≡ Err LoadError.Absent → ⊥ }
    ensures files_stay { S.files store.new ≡ S.files store.old }
    ensures faults_stand { S.faults store.old ≤ S.faults store.new }
    ensures misses_stand { S.misses store.old ≤ S.misses store.new }
    ensures certain { (saves room : ℕ) → S.certain store.old saves room → S.certain store.new saves room ×
        (S.faults store.new ≡ S.faults store.old) }
{
    let Some(bytes) = load_whole(alloc, store, &key.name)? else {
        return Ok(None);
    };
    match object_behind(alloc, &key.bytes, &bytes) {
        Ok(object) => Ok(Some(object)),
        Err(DecodeError::NotObject) => Ok(None),
        Err(DecodeError::Memory) => Err(LoadError::Memory),
    }
}

/// The entry of a key, with that object.
pub fn entry(alloc: Global, key: &Key, object: &Object) -> Result<Entry, Memory>
    ensures bytes { IfOk result (λ e. IsEntryOf e.bytes.items key.now.bytes.items (object_of object.now)) }
    ensures name { IfOk result (λ e. e.name ≡ key.now.name) }
    ensures short { IfOk result (λ e. IsEight (length e.bytes.items)) }
{
    let text = encode(alloc, object)?;
    let name = key.name.copy(alloc)?;
    let mut bytes = Vec::new(alloc);
    put_word(&mut bytes, &key.bytes)?;
    put(&mut bytes, &text)?;
    Ok(Entry { name, bytes })
}

/// Saves an entry under its name. It takes no memory.
pub fn keep<S: Store>(store: &mut S, entry: &Entry) -> Result<(), Failed>
    requires { IsUtf8 entry.now.name }
    ensures saved { OnOk result (HasSaved (S.files store.old) (S.files store.new) entry.now.name
        entry.now.bytes.items) }
    ensures failed { OnErr result (Rose (S.faults store.old) (S.faults store.new)) }
    ensures others { KeepsOthers (S.files store.old) (S.files store.new) entry.now.name }
    ensures tells { is_some (S.files store.new) ≡ is_some (S.files store.old) }
    ensures faults_stand { S.faults store.old ≤ S.faults store.new }
    ensures misses_stand { S.misses store.old ≤ S.misses store.new }
    ensures certain { (saves room : ℕ) →
        S.certain store.old (saves + 1) (room + length entry.now.name + length entry.now.bytes.items) →
        S.certain store.new saves room × (S.faults store.new ≡ S.faults store.old) }
{
    let Some(name) = entry.name.text() else {
        unreachable!()
    };
    store.save(name, &entry.bytes)
}
