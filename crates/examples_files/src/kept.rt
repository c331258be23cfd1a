//! A small object, kept in a store.

ghost use Rattle.std.specs.Prelude.{IfOk, IsUtf8};

use crate::objects::small;
use cl_prep::{Define, Defines};
use std::alloc::Global;
use std::test::Fail;
use wg_cache::{Key, entry, find, keep, key};
use wg_num::{Memory, Width, Word, push};
use wg_outside::{LoadError, MemoryStore};

/// The key of a kernel `inc` of the source, without numbers for names.
fn key_of(alloc: Global, source: &[u8], width: Width) -> Result<Key, Memory>
    ensures { IfOk result (λ k. IsUtf8 k.name) }
{
    let defines = Defines {
        list: Vec::new(alloc),
    };
    let kernel = Word::new(alloc, b"inc")?;
    key(alloc, source, &defines, &kernel, width)
}

/// The key of that kernel, with 3 for the name `N`.
fn key_with_number(alloc: Global, source: &[u8]) -> Result<Key, Memory> {
    let name = Word::new(alloc, b"N")?;
    let mut list = Vec::new(alloc);
    push(&mut list, Define { name, value: 3 })?;
    let kernel = Word::new(alloc, b"inc")?;
    key(alloc, source, &Defines { list }, &kernel, Width::W8)
}

/// Whether the bytes, under the name of the key, are found as its entry.
fn is_found(alloc: Global, key: &Key, bytes: &[u8]) -> Result<bool, Fail>
    requires { IsUtf8 key.now.name }
{
    let mut store = MemoryStore::new(alloc, &[], 0, 0)?;
    let name = key.name.text().ok_or("a name")?;
    store.add(alloc, name, bytes)?;
    let found = find(alloc, &mut store, key)?;
    Ok(found.is_some())
}

#[test]
fn a_name_has_the_digest_of_its_key(rt: HostRuntime) -> Result<(), Fail> {
    let empty = key_of(rt.alloc(), b"", Width::W8)?;
    let name = b"wgcc-cache-364395481c1f90f7bd0c6d14828541856277b1079382ee4a2bc7d90e842cef32";
    assert_eq!(rt; empty.name.bytes(), name.as_slice());
    let named = key_with_number(rt.alloc(), b"abc")?;
    let name = b"wgcc-cache-0503c08d0dafb1271bdcc3a6a2b37a24c2d704b245ce60fbf914542097ae0019";
    assert_eq!(rt; named.name.bytes(), name.as_slice());
    Ok(())
}

#[test]
fn an_entry_is_found_whole_alone(rt: HostRuntime) -> Result<(), Fail> {
    let key = key_of(rt.alloc(), b"abc", Width::W8)?;
    let object = small(rt.alloc()).ok_or("an object")?;
    let mut kept = entry(rt.alloc(), &key, &object)?;
    for n in 0..kept.bytes.len() {
        assert!(rt; !is_found(rt.alloc(), &key, &kept.bytes[..n])?, "at {n}");
    }
    assert!(rt; is_found(rt.alloc(), &key, &kept.bytes)?);
    kept.bytes.push(0)?;
    assert!(rt; !is_found(rt.alloc(), &key, &kept.bytes)?);
    Ok(())
}

#[test]
fn an_entry_of_another_key_is_none(rt: HostRuntime) -> Result<(), Fail> {
    let key = key_of(rt.alloc(), b"abc", Width::W8)?;
    let other = key_of(rt.alloc(), b"abc", Width::W4)?;
    let object = small(rt.alloc()).ok_or("an object")?;
    let kept = entry(rt.alloc(), &other, &object)?;
    assert!(rt; is_found(rt.alloc(), &other, &kept.bytes)?);
    assert!(rt; !is_found(rt.alloc(), &key, &kept.bytes)?);
    Ok(())
}

/// The last two of five calls of the store fail.
#[test]
fn what_was_kept_is_found(rt: HostRuntime) -> Result<(), Fail> {
    let key = key_of(rt.alloc(), b"abc", Width::W8)?;
    let object = small(rt.alloc()).ok_or("an object")?;
    let kept = entry(rt.alloc(), &key, &object)?;
    let mut store = MemoryStore::new(rt.alloc(), &[3, 4], 2, 2_000)?;
    assert!(rt; matches!(find(rt.alloc(), &mut store, &key), Ok(None)));
    assert!(rt; keep(&mut store, &kept).is_ok());
    assert!(rt; matches!(find(rt.alloc(), &mut store, &key), Ok(Some(_))));
    assert!(rt; keep(&mut store, &kept).is_err());
    assert!(rt; matches!(find(rt.alloc(), &mut store, &key), Err(LoadError::Failed)));
    Ok(())
}
