// A launch that the program makes itself.
ghost use Rattle.std.specs.Prelude.{◌≡◌, ◌⊎◌, ◌+◌, ◌*◌, ◌%◌, IfOk, IfErr};
ghost use Rattle.wg_top.specs.declared.RunError.TheVariants as refusals;
ghost use Rattle.wg_top.specs.Sample.{source_at, words_from, sample_files, words_sum, IsSaved};
ghost use Rattle.wg_top.specs.CompiledSample.{IsSample, SampleCause};

use crate::RunError;
use crate::run::run_source;
use buffer_io::{word_bytes, words};
use std::alloc::Global;
use wg_num::Memory;
use wg_outside::MemoryStore;

/// The name of the sample's source.
pub(crate) const SAMPLE: &str = "sample.cl";

// How many words the launch works on.
const WORDS: u32 = 65_536;

// What one word is above the one before it, modulo 2 to the power 32.
const STEP: u64 = 2_654_435_769;

// How many words there are.
const MODULUS: u64 = 4_294_967_296;

// The room of the store: that of the saved words and of the name of their file.
const ROOM: u64 = 262_144 + 5;

// The sources: each group's words in reverse; their running sums; the greatest of them.
const REVERSED: &str = "__kernel void sample(__global uint *a) {
  __local uint t[256];
  int l = get_local_id(0);
  t[l] = a[get_global_id(0)];
  barrier(CLK_LOCAL_MEM_FENCE);
  a[get_global_id(0)] = t[255 - l];
}
";

const SUMMED: &str = "__kernel void sample(__global uint *a) {
  __local uint t[256];
  int l = get_local_id(0);
  t[l] = a[get_global_id(0)];
  barrier(CLK_LOCAL_MEM_FENCE);
  int d;
  uint v;
  for (d = 1; d < 256; d *= 2) {
    v = t[l];
    if (l >= d) v += t[l - d];
    barrier(CLK_LOCAL_MEM_FENCE);
    t[l] = v;
    barrier(CLK_LOCAL_MEM_FENCE);
  }
  a[get_global_id(0)] = t[l];
}
";

const GREATEST: &str = "__kernel void sample(__global uint *a) {
  __local uint t[256];
  int l = get_local_id(0);
  t[l] = a[get_global_id(0)];
  barrier(CLK_LOCAL_MEM_FENCE);
  for (int d = 128; d > 0; d /= 2) {
    if (l < d) t[l] = max(t[l], t[l + d]);
    barrier(CLK_LOCAL_MEM_FENCE);
  }
  a[get_global_id(0)] = t[0];
}
";

const LAUNCH: &str = "format = 1
kernel = \"sample\"
global = 65536
local = 256
lanes = 8
[[buffer]]
name = \"a\"
bytes = 262144
load = \"a.bin\"
save = \"a.out\"
[[arg]]
buffer = \"a\"
";

fn source_of(number: u32) -> &'static str
    ensures { result.now ≡ source_at (number % 3) }
{
    match number % 3 {
        0 => REVERSED,
        1 => SUMMED,
        _ => GREATEST,
    }
}

// The word with that number of a launch.
fn word_at(number: u32, k: u32) -> u32
    ensures { result ≡ (number + k * 2654435769) % 4294967296 }
{
    ((u64::from(number) + u64::from(k) * STEP) % MODULUS) as u32
}

// The first words of a launch, so many.
fn first_words(alloc: Global, number: u32, count: u32) -> Result<Vec<u32>, Memory>
    ensures { IfOk result (λ v. v.items ≡ words_from number 0 count) }
{
    let mut list = Vec::new(alloc);
    for k in 0..count {
        if list.push(word_at(number, k)).is_err() {
            return Err(Memory);
        }
    }
    Ok(list)
}

// A store with the source, the launch file and the words.
fn filled_store(alloc: Global, number: u32) -> Result<MemoryStore, Memory>
    ensures { IfOk result (λ s. s.files ≡ sample_files number) }
{
    let list = first_words(alloc, number, WORDS)?;
    let bytes = word_bytes(alloc, &list)?;
    let mut store = MemoryStore::new(alloc, &[], 1, ROOM)?;
    store.add(alloc, SAMPLE, source_of(number).as_bytes())?;
    store.add(alloc, "sample.toml", LAUNCH.as_bytes())?;
    store.add(alloc, "a.bin", &bytes)?;
    Ok(store)
}

// The sum of the words that bytes spell, modulo 2 to the power 32.
fn sum_of(alloc: Global, bytes: &[u8]) -> Result<u32, Memory>
    ensures { IfOk result (λ n. n ≡ words_sum bytes.now) }
{
    let list = words(alloc, bytes)?;
    let mut total = 0u64;
    for k in 0..list.len() {
        total = (total + u64::from(list[k])) % MODULUS;
    }
    Ok(total as u32)
}

// The sum of the words that a store has as the saved file; `Memory` also where it has none.
fn saved_sum(alloc: Global, store: &MemoryStore) -> Result<u32, RunError>
    ensures ok { IfOk result (IsSaved store.now.files) }
    ensures err { IfErr result (λ e. e ≡ refusals.Memory) }
{
    let Some(bytes) = store.file("a.out") else {
        return Err(RunError::Memory);
    };
    match sum_of(alloc, bytes) {
        Ok(sum) => Ok(sum),
        Err(Memory) => Err(RunError::Memory),
    }
}

// The refusal of the sample by that of its run; its store has its files and room for what is saved.
fn refused(error: RunError) -> RunError
    ensures same { (result ≡ error) ⊎ (result ≡ refusals.Memory) }
    ensures no_fault { (result ≡ refusals.Failed → ⊥) × (result ≡ refusals.Absent → ⊥) }
{
    match error {
        RunError::Failed | RunError::Absent => RunError::Memory,
        other => other,
    }
}

/// Makes the launch of that number in a store in memory, runs it, and answers the sum of the words
/// that it leaves, modulo 2 to the power 32.
pub(crate) fn sample_sum(alloc: Global, number: u32) -> Result<u32, RunError>
    ensures ok { IfOk result (IsSample number) }
    ensures err { IfErr result (SampleCause number) }
    ensures no_fault { IfErr result (λ e. (e ≡ refusals.Failed → ⊥) × (e ≡ refusals.Absent → ⊥)) }
{
    let Ok(mut store) = filled_store(alloc, number) else {
        return Err(RunError::Memory);
    };
    match run_source(alloc, &mut store, SAMPLE, "sample.toml", None, None) {
        Ok(_) => saved_sum(alloc, &store),
        Err(error) => Err(refused(error)),
    }
}
