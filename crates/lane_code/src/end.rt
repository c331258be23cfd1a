//! How a region and a launch end.

/// The end of a code on one chunk. `Range`: that lane's access at that site is out of range, and no
/// lower active lane's is. `AtBarrier`: the code stands at a mark, and that lane is the lowest that
/// is set. `Turns`: an iteration with an active lane would begin and no turn is left.
#[derive(Clone, Copy, PartialEq, Eq, Debug)]
pub enum RegionEnd {
    Done,
    Range { lane: u32, site: u32 },
    AtBarrier { lane: u32, site: u32 },
    Turns,
}

/// The end of a launch; an item is numbered in the launch.
#[derive(Clone, Copy, PartialEq, Eq, Debug)]
pub enum RunEnd {
    Done,
    Range { group: u64, item: u64, site: u32 },
    Parted { group: u64, item: u64, site: u32 },
    Turns,
}
