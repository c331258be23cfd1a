//! The registers of a chunk, as vectors.

use std::marker::Model;
use std::simd::prelude::*;

/// The registers of one chunk, of `W` lanes: a contract sees the lists that the meaning of code
/// speaks of, and for how many registers of each bank there is room.
#[derive(Drop)]
pub(crate) struct Registers<const W: usize> {
    pub narrow: Vec<Simd<u32, W>>,
    pub wide: Vec<Simd<u64, W>>,
    pub masks: Vec<[bool; W]>,
    pub scalars: Vec<u64>,
}

impl<const W: usize> Model for Registers<W> {
    ghost use Rattle.std.specs.Vec.{vec_capacity};
    ghost use Rattle.lane_machine.specs.Room.{Roomy};

    ghost Value = { Roomy };

    ghost view = { λ r. record {
      plain = record { narrow = r.narrow.items; wide = r.wide.items; masks = r.masks.items; scalars = r.scalars.items };
      room = record {
        narrow = vec_capacity r.narrow;
        wide = vec_capacity r.wide;
        masks = vec_capacity r.masks;
        scalars = vec_capacity r.scalars;
      };
    } };
}
