//! Buffers of a launch, from files and to files, and numbers in bytes.
#![tactic(auto)]

ghost use Rattle.std.specs.Prelude.{◌≡◌, ◌≤◌, ◌<◌, ◌+◌, ℕ, IfOk, OnOk, OnErr, Err, IfSome};
ghost use Rattle.std.specs.Prelude.{is_some, IsUtf8, All, map, vec_len, ◌∷◌, []};
ghost use Rattle.wg_outside.specs.Counts.{Rose};
ghost use Rattle.buffer_io.specs.Loads.{AllStartAs, LacksOneFile, StartsAs};
ghost use Rattle.buffer_io.specs.Saves.{AllSavedAs, KeepsAllBut, AreApart, StopsAt, IsSavedAs, saves_for, room_for};
ghost use Rattle.buffer_io.specs.Saves.{all_saves, all_room};
ghost use Rattle.buffer_io.specs.Words.{words_of, bytes_of_words};

use byteorder::{ByteOrder, LittleEndian};
use cl_model::{Buffers, Launch};
use std::alloc::Global;
use wg_num::{Memory, Word};
use wg_outside::{Failed, LoadError, Store};

// The bytes that one buffer starts as.
fn load_one<S: Store>(
    alloc: Global,
    store: &mut S,
    size: u64,
    load: &Option<Word>,
) -> Result<Vec<u8>, LoadError>
    requires { IfSome load.now IsUtf8 }
    ensures content { IfOk result (λ v. StartsAs (S.files store.old) size load.now v.items) }
    ensures failed { result ≡ Err LoadError.Failed → Rose (S.faults store.old) (S.faults store.new) }
    ensures absent { result ≡ Err LoadError.Absent → Rose (S.misses store.old) (S.misses store.new) }
    ensures absent_name { result ≡ Err LoadError.Absent → LacksOneFile (S.files store.old) (load.now ∷ []) }
    ensures absent_is_no_fault { result ≡ Err LoadError.Absent → S.faults store.new ≡ S.faults store.old }
    ensures files_stay { S.files store.new ≡ S.files store.old }
    ensures faults_stand { S.faults store.old ≤ S.faults store.new }
    ensures misses_stand { S.misses store.old ≤ S.misses store.new }
    ensures certain { (saves room : ℕ) → S.certain store.old saves room → S.certain store.new saves room ×
        (S.faults store.new ≡ S.faults store.old) }
{
    let mut bytes = match load {
        None => Vec::new(alloc),
        Some(word) => match word.text() {
            None => unreachable!(),
            Some(name) => store.load(alloc, name, size)?,
        },
    };
    if bytes.resize(size as usize, 0).is_err() {
        return Err(LoadError::Memory);
    }
    Ok(bytes)
}

/// The buffers that a launch starts on: each has its length, filled with the first bytes of its
/// `load` file and zeros behind them, or with zeros alone where it has no `load`. A longer file is
/// read up to the length, and a shorter one is accepted. They are loaded in order, and the first
/// name that is not there, or that cannot be read, ends the call.
pub fn load_all<S: Store>(
    alloc: Global,
    store: &mut S,
    launch: &Launch,
) -> Result<Buffers, LoadError>
    requires same { vec_len launch.now.loads ≡ vec_len launch.now.lengths }
    requires texts { All (λ load. IfSome load IsUtf8) launch.now.loads.items }
    ensures content { IfOk result (λ b. AllStartAs (S.files store.old) launch.now.lengths.items
        launch.now.loads.items (map (λ v. v.items) b.list.items)) }
    ensures failed { result ≡ Err LoadError.Failed → Rose (S.faults store.old) (S.faults store.new) }
    ensures absent { result ≡ Err LoadError.Absent → Rose (S.misses store.old) (S.misses store.new) }
    ensures absent_name { result ≡ Err LoadError.Absent → LacksOneFile (S.files store.old) launch.now.loads.items }
    ensures files_stay { S.files store.new ≡ S.files store.old }
    ensures faults_stand { S.faults store.old ≤ S.faults store.new }
    ensures misses_stand { S.misses store.old ≤ S.misses store.new }
    ensures certain { (saves room : ℕ) → S.certain store.old saves room → S.certain store.new saves room ×
        (S.faults store.new ≡ S.faults store.old) }
{
    let mut list = Vec::new(alloc);
    for i in 0..launch.lengths.len() {
        let bytes = load_one(alloc, store, launch.lengths[i], &launch.loads[i])?;
        if list.push(bytes).is_err() {
            return Err(LoadError::Memory);
        }
    }
    Ok(Buffers { list })
}

// Saves one buffer, if it has a name.
fn save_one<S: Store>(store: &mut S, save: &Option<Word>, bytes: &[u8]) -> Result<(), Failed>
    requires { IfSome save.now IsUtf8 }
    ensures saved { OnOk result (IsSavedAs (S.files store.old) (S.files store.new) save.now bytes.now) }
    ensures failed { OnErr result (Rose (S.faults store.old) (S.faults store.new)) }
    ensures others { KeepsAllBut (S.files store.old) (S.files store.new) (save.now ∷ []) }
    ensures tells { is_some (S.files store.new) ≡ is_some (S.files store.old) }
    ensures faults_stand { S.faults store.old ≤ S.faults store.new }
    ensures misses_stand { S.misses store.old ≤ S.misses store.new }
    ensures certain { (saves room : ℕ) →
        S.certain store.old (saves + saves_for save.now) (room + room_for save.now bytes.now) →
        S.certain store.new saves room × (S.faults store.new ≡ S.faults store.old) }
{
    match save {
        None => Ok(()),
        Some(word) => match word.text() {
            None => unreachable!(),
            Some(name) => store.save(name, bytes),
        },
    }
}

/// Saves each buffer that has a `save` name, whole and in order. It takes no memory. Where a save
/// fails, the earlier buffers are saved, its name is unsaid, and the later ones are untouched.
pub fn save_all<S: Store>(store: &mut S, launch: &Launch, buffers: &Buffers) -> Result<(), Failed>
    requires same { vec_len buffers.now.list ≡ vec_len launch.now.saves }
    requires texts { All (λ save. IfSome save IsUtf8) launch.now.saves.items }
    requires apart { AreApart launch.now.saves.items }
    ensures saved { OnOk result (AllSavedAs (S.files store.old) (S.files store.new) launch.now.saves.items
        (map (λ v. v.items) buffers.now.list.items)) }
    ensures others { KeepsAllBut (S.files store.old) (S.files store.new) launch.now.saves.items }
    ensures stops { OnErr result (StopsAt (S.files store.old) (S.files store.new) launch.now.saves.items
        (map (λ v. v.items) buffers.now.list.items)) }
    ensures failed { OnErr result (Rose (S.faults store.old) (S.faults store.new)) }
    ensures faults_stand { S.faults store.old ≤ S.faults store.new }
    ensures misses_stand { S.misses store.old ≤ S.misses store.new }
    ensures certain { (saves room : ℕ) →
        S.certain store.old (saves + all_saves launch.now.saves.items)
        (room + all_room launch.now.saves.items (map (λ v. v.items) buffers.now.list.items)) →
        OnOk result (S.certain store.new saves room) × (S.faults store.new ≡ S.faults store.old) }
{
    for i in 0..launch.saves.len() {
        if save_one(store, &launch.saves[i], &buffers.list[i]).is_err() {
            return Err(Failed);
        }
    }
    Ok(())
}

/// The 32-bit words of the bytes, lowest byte first; a rest of fewer than four bytes is dropped.
pub fn words(alloc: Global, bytes: &[u8]) -> Result<Vec<u32>, Memory>
    ensures { IfOk result (λ v. v.items ≡ words_of bytes.now) }
{
    let mut list = Vec::new(alloc);
    let mut rest = bytes;
    while rest.len() >= 4 {
        if list.push(LittleEndian::read_u32(rest)).is_err() {
            return Err(Memory);
        }
        rest = &rest[4..];
    }
    Ok(list)
}

/// The bytes of the words, lowest byte first.
pub fn word_bytes(alloc: Global, words: &[u32]) -> Result<Vec<u8>, Memory>
    ensures { IfOk result (λ v. v.items ≡ bytes_of_words words.now) }
{
    let mut bytes = Vec::new(alloc);
    for word in words {
        let mut piece = [0u8; 4];
        LittleEndian::write_u32(&mut piece, *word);
        if bytes.extend_from_slice(&piece).is_err() {
            return Err(Memory);
        }
    }
    Ok(bytes)
}
