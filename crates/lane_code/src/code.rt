//! Codes, and what a work-group does with them.

ghost use Rattle.std.specs.Prelude.{◌≡◌, true};
ghost use Rattle.lane_code.specs.Fits.{is_code};

use crate::step::Step;

/// How many registers of each bank a code has.
#[derive(Clone, Copy, PartialEq, Eq, Debug)]
pub struct Counts {
    pub narrow: u32,
    pub wide: u32,
    pub masks: u32,
    pub scalars: u32,
}

/// The code of a region.
#[derive(Drop)]
pub struct Code {
    pub steps: Vec<Step>,
    pub counts: Counts,
    ghost well: { is_code counts steps.items ≡ true },
}

/// What a work-group does: a code on each of its chunks, nodes one after the other, a vote on a
/// condition, or a loop on which the group votes before each iteration.
#[derive(Drop)]
pub enum Node {
    Items(Code),
    Seq(Vec<Node>),
    Vote {
        test: Code,
        yes: Box<Node>,
        no: Box<Node>,
        mixed: Code,
    },
    Loop {
        test_first: bool,
        test: Box<Node>,
        body: Box<Node>,
        rest: Code,
    },
}
