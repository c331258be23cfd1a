// Calls that are numbered, of which some are to fail.
ghost use Rattle.std.specs.Prelude.{◌≡◌, IfOk, true, false, Contains};
ghost use Rattle.wg_outside.specs.Counts.{next_count};

use std::alloc::Global;
use wg_num::Memory;

// The numbers of the calls that are to fail, counted from 0, and the number of the next call.
#[derive(Drop)]
pub(crate) struct Calls {
    pub(crate) fail: Vec<u32>,
    pub(crate) count: u64,
}

impl Calls {
    pub(crate) fn new(alloc: Global, fail: &[u32]) -> Result<Calls, Memory>
        ensures fail { IfOk result (λ s. s.fail.items ≡ fail.now) }
        ensures first { IfOk result (λ s. s.count ≡ 0) }
    {
        match Vec::from_slice(alloc, fail) {
            Ok(fail) => Ok(Calls { fail, count: 0 }),
            Err(_) => Err(Memory),
        }
    }

    // Counts a call, and says whether it is to fail.
    pub(crate) fn next_fails(&mut self) -> bool
        ensures listed { result ≡ true → Contains self.old.fail.items self.old.count }
        ensures unlisted { result ≡ false → Contains self.old.fail.items self.old.count → ⊥ }
        ensures counts { self.new.count ≡ next_count self.old.count }
        ensures fail_stays { self.new.fail ≡ self.old.fail }
    {
        let call = self.count;
        self.count = call.saturating_add(1);
        self.fail.iter().any(|number| u64::from(*number) == call)
    }
}
