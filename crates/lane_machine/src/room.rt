//! Room for the registers of every code of a program.
ghost use Rattle.std.specs.Prelude.{◌≡◌, ◌≤◌, IfOk};
ghost use Rattle.lane_code.specs.Program.{work_of};
ghost use Rattle.lane_machine.specs.Room.{Room, HasRoom, HasRoomFor, HasRoomForEach};

use crate::registers::Registers;
use lane_code::{Counts, Node};
use std::alloc::Global;
use wg_num::{Memory, Width};

fn greater(a: u32, b: u32) -> u32
    ensures left { a ≤ result }
    ensures right { b ≤ result }
{
    if a < b { b } else { a }
}

/// No registers.
pub(crate) fn no_registers() -> Counts {
    Counts {
        narrow: 0,
        wide: 0,
        masks: 0,
        scalars: 0,
    }
}

/// As many registers of each bank as either has at most.
fn most(a: Counts, b: Counts) -> Counts
    ensures { (room : Room) → HasRoom result room → HasRoom a room × HasRoom b room }
{
    Counts {
        narrow: greater(a.narrow, b.narrow),
        wide: greater(a.wide, b.wide),
        masks: greater(a.masks, b.masks),
        scalars: greater(a.scalars, b.scalars),
    }
}

/// The same over nodes one behind the other.
#[cycle(node)]
fn most_in_each(nodes: &Vec<Node>, start: Counts) -> Counts
    ensures { (room : Room) → HasRoom result room → HasRoom start room × HasRoomForEach room nodes.now.items }
{
    let mut so_far = start;
    for one in nodes {
        so_far = most_in(one, so_far);
    }
    so_far
}

/// As many registers of each bank as any code of the node has at most, and no fewer than `start`.
#[cycle(node)]
pub(crate) fn most_in(node: &Node, start: Counts) -> Counts
    ensures { (room : Room) → HasRoom result room → HasRoom start room × HasRoomFor room (work_of node.now) }
{
    match node {
        Node::Items(code) => most(start, code.counts),
        Node::Seq(nodes) => most_in_each(nodes, start),
        Node::Vote {
            test,
            yes,
            no,
            mixed,
        } => {
            let codes = most(most(start, test.counts), mixed.counts);
            most_in(no, most_in(yes, codes))
        }
        Node::Loop {
            test,
            body,
            rest,
            ..
        } => most_in(body, most_in(test, most(start, rest.counts))),
    }
}

/// The registers of chunks of one width: those that are counted, if the program has that width.
pub(crate) fn counts_at(width: Width, chunk: Width, counts: Counts) -> Counts
    ensures { width ≡ chunk → result ≡ counts }
{
    if width == chunk {
        counts
    } else {
        no_registers()
    }
}

impl<const W: usize> Registers<W> {
    /// No registers yet, with room for so many.
    pub(crate) fn with_room(alloc: Global, counts: Counts) -> Result<Registers<W>, Memory>
        ensures { IfOk result (λ r. HasRoom counts r.room) }
    {
        let Ok(narrow) = Vec::with_capacity(alloc, counts.narrow as usize) else {
            return Err(Memory);
        };
        let Ok(wide) = Vec::with_capacity(alloc, counts.wide as usize) else {
            return Err(Memory);
        };
        let Ok(masks) = Vec::with_capacity(alloc, counts.masks as usize) else {
            return Err(Memory);
        };
        let Ok(scalars) = Vec::with_capacity(alloc, counts.scalars as usize) else {
            return Err(Memory);
        };
        Ok(Registers {
            narrow,
            wide,
            masks,
            scalars,
        })
    }
}
