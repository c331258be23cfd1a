//! Ends, the tally and votes, on small codes.
ghost use Rattle.std.specs.Prelude.{IfOk};
ghost use Rattle.examples_machine.specs.Examples.{IsReady};

use crate::Example;
use cl_model::{Buffers, Query, Root};
use lane_code::{Bank, Code, Reg, RegionEnd, RunEnd, Step};
use lane_machine::Answers;
use std::alloc::Global;
use std::test::Fail;
use wg_num::{Bin, IntType, Width};

const V0: Reg = Reg {
    bank: Bank::Narrow,
    number: 0,
};

const V1: Reg = Reg {
    bank: Bank::Narrow,
    number: 1,
};

const W0: Reg = Reg {
    bank: Bank::Wide,
    number: 0,
};

const W1: Reg = Reg {
    bank: Bank::Wide,
    number: 1,
};

const W2: Reg = Reg {
    bank: Bank::Wide,
    number: 2,
};

const M0: Reg = Reg {
    bank: Bank::Mask,
    number: 0,
};

const M1: Reg = Reg {
    bank: Bank::Mask,
    number: 1,
};

/// One buffer of so many ints, each of this value.
fn ints(alloc: Global, count: usize, value: u8) -> Result<Buffers, Fail> {
    let mut bytes = Vec::new(alloc);
    for _ in 0..count {
        bytes.push(value)?;
        bytes.push(0)?;
        bytes.push(0)?;
        bytes.push(0)?;
    }
    let mut list = Vec::new(alloc);
    list.push(bytes)?;
    Ok(Buffers { list })
}

/// The lowest byte of an int of the buffer.
fn int_at(buffers: &Buffers, item: usize) -> u8 {
    let Some(place) = item.checked_mul(4) else {
        return 0;
    };
    match buffers.list.get(0) {
        Some(bytes) => match bytes.get(place) {
            Some(byte) => *byte,
            None => 0,
        },
        None => 0,
    }
}

/// Sets the lowest byte of an int of the buffer.
fn set_int(buffers: &mut Buffers, item: usize, value: u8) {
    let Some(place) = item.checked_mul(4) else {
        return;
    };
    if let Some(bytes) = buffers.list.get_mut(0) {
        if let Some(byte) = bytes.get_mut(place) {
            *byte = value;
        }
    }
}

/// Loads, doubles and stores the ints of all items.
const DOUBLING: [Step; 5] = [
    Step::Const {
        to: V0,
        of: IntType::Uint,
        value: 0,
    },
    Step::Ask {
        what: Query::GlobalId,
        to: W0,
        dim: V0,
        mask: M0,
    },
    Step::Load {
        site: 0,
        of: IntType::Int,
        root: Root::Param(0),
        index: W0,
        to: V1,
        mask: M0,
    },
    Step::Binary {
        op: Bin::Add,
        of: IntType::Int,
        to: V1,
        a: V1,
        b: V1,
        mask: M0,
    },
    Step::Store {
        site: 1,
        of: IntType::Int,
        root: Root::Param(0),
        index: W0,
        from: V1,
        mask: M0,
    },
];

/// How an example's code ends on the first chunk, and the calls on vectors counted before and behind it.
#[derive(Clone, Copy)]
struct Seen {
    before: u64,
    end: RegionEnd,
    after: u64,
}

/// The code on the first chunk.
fn on_first_chunk(example: Example, buffers: &mut Buffers) -> Seen
    requires { IsReady example.program example.flat example.launch example.machine example.group }
{
    let mut example = example;
    let mut turns = 0;
    let before = example.machine.tally.count();
    let end = example.first_chunk(buffers, &mut turns);
    let after = example.machine.tally.count();
    drop(example);
    Seen { before, end, after }
}

fn doubling(alloc: Global) -> Result<Example, Fail>
    ensures { IfOk result (λ e. IsReady e.program e.flat e.launch e.machine e.group) }
{
    Ok(Example::new(alloc, Width::W8, DOUBLING.to_vec(alloc)?)?)
}

// A load and a store count. The sum of ints is a flat step, which asks for no operator.
#[test]
fn the_tally_counts_the_calls_on_vectors(rt: HostRuntime) -> Result<(), Fail> {
    let mut buffers = ints(rt.alloc(), 20, 7)?;
    let seen = on_first_chunk(doubling(rt.alloc())?, &mut buffers);
    assert_eq!(rt;
        (seen.before, seen.end, seen.after),
        (0, RegionEnd::Done, 2)
    );
    assert_eq!(rt; (int_at(&buffers, 7), int_at(&buffers, 8)), (14, 7));
    Ok(())
}

/// How the example's code ends on all chunks, and the calls on vectors counted behind it.
fn on_all_chunks(example: Example, buffers: &mut Buffers) -> (RunEnd, u64)
    requires { IsReady example.program example.flat example.launch example.machine example.group }
{
    let mut example = example;
    let mut turns = 0;
    let end = example.items(buffers, &mut turns);
    let after = example.machine.tally.count();
    drop(example);
    (end, after)
}

// A load and a store on each of three chunks, the last of which has four items.
#[test]
fn a_region_counts_the_calls_on_vectors(rt: HostRuntime) -> Result<(), Fail> {
    let mut buffers = ints(rt.alloc(), 20, 7)?;
    let seen = on_all_chunks(doubling(rt.alloc())?, &mut buffers);
    assert_eq!(rt; seen, (RunEnd::Done, 6));
    assert_eq!(rt; (int_at(&buffers, 7), int_at(&buffers, 19)), (14, 14));
    Ok(())
}

#[test]
fn the_lowest_lane_out_of_range_is_the_end(rt: HostRuntime) -> Result<(), Fail> {
    let mut few = ints(rt.alloc(), 3, 7)?;
    let seen = on_first_chunk(doubling(rt.alloc())?, &mut few);
    assert_eq!(rt; seen.end, RegionEnd::Range { lane: 3, site: 0 });
    assert_eq!(rt; int_at(&few, 2), 7);
    Ok(())
}

/// Stores 9 in the ints of all items, and ends at a mark in those that are not below 2.
const MARKING: [Step; 9] = [
    Step::Const {
        to: V0,
        of: IntType::Uint,
        value: 0,
    },
    Step::Ask {
        what: Query::GlobalId,
        to: W0,
        dim: V0,
        mask: M0,
    },
    Step::Const {
        to: W1,
        of: IntType::Ulong,
        value: 2,
    },
    Step::Binary {
        op: Bin::Lt,
        of: IntType::Ulong,
        to: W2,
        a: W0,
        b: W1,
        mask: M0,
    },
    Step::Test {
        to: M1,
        from: W2,
        mask: M0,
    },
    Step::Const {
        to: V1,
        of: IntType::Int,
        value: 9,
    },
    Step::Store {
        site: 1,
        of: IntType::Int,
        root: Root::Param(0),
        index: W0,
        from: V1,
        mask: M0,
    },
    Step::MaskLess {
        to: M1,
        a: M0,
        b: M1,
    },
    Step::Mark { site: 0, mask: M1 },
];

fn marking(alloc: Global) -> Result<Example, Fail>
    ensures { IfOk result (λ e. IsReady e.program e.flat e.launch e.machine e.group) }
{
    Ok(Example::new(alloc, Width::W4, MARKING.to_vec(alloc)?)?)
}

#[test]
fn stores_below_the_first_fault_are_done(rt: HostRuntime) -> Result<(), Fail> {
    let mut few = ints(rt.alloc(), 3, 7)?;
    let seen = on_first_chunk(marking(rt.alloc())?, &mut few);
    assert_eq!(rt; seen.end, RegionEnd::Range { lane: 3, site: 1 });
    assert_eq!(rt; int_at(&few, 2), 9);
    Ok(())
}

#[test]
fn a_mark_names_its_lowest_lane(rt: HostRuntime) -> Result<(), Fail> {
    let mut buffers = ints(rt.alloc(), 20, 7)?;
    let seen = on_first_chunk(marking(rt.alloc())?, &mut buffers);
    assert_eq!(rt; seen.end, RegionEnd::AtBarrier { lane: 2, site: 0 });
    Ok(())
}

/// Stores 256 as a bool in the array of each item, loads its byte, and stores that twice as a bool.
const STORING_BOOLS: [Step; 6] = [
    Step::Const {
        to: V0,
        of: IntType::Uint,
        value: 256,
    },
    Step::Const {
        to: W0,
        of: IntType::Long,
        value: 0,
    },
    Step::Store {
        site: 0,
        of: IntType::Bool,
        root: Root::Private(0),
        index: W0,
        from: V0,
        mask: M0,
    },
    Step::Load {
        site: 0,
        of: IntType::Uchar,
        root: Root::Private(0),
        index: W0,
        to: V1,
        mask: M0,
    },
    Step::Binary {
        op: Bin::Add,
        of: IntType::Int,
        to: V1,
        a: V1,
        b: V1,
        mask: M0,
    },
    Step::Store {
        site: 1,
        of: IntType::Bool,
        root: Root::Param(0),
        index: W0,
        from: V1,
        mask: M0,
    },
];

fn storing_bools(alloc: Global) -> Result<Example, Fail>
    ensures { IfOk result (λ e. IsReady e.program e.flat e.launch e.machine e.group) }
{
    Ok(Example::new(alloc, Width::W8, STORING_BOOLS.to_vec(alloc)?)?)
}

#[test]
fn a_stored_bool_is_0_or_1(rt: HostRuntime) -> Result<(), Fail> {
    let mut buffers = ints(rt.alloc(), 20, 7)?;
    let seen = on_first_chunk(storing_bools(rt.alloc())?, &mut buffers);
    assert_eq!(rt; (seen.end, int_at(&buffers, 0)), (RegionEnd::Done, 1));
    Ok(())
}

/// Votes yes in the items whose int is not 0.
const VOTING: [Step; 5] = [
    Step::Const {
        to: V0,
        of: IntType::Uint,
        value: 0,
    },
    Step::Ask {
        what: Query::GlobalId,
        to: W0,
        dim: V0,
        mask: M0,
    },
    Step::Load {
        site: 0,
        of: IntType::Int,
        root: Root::Param(0),
        index: W0,
        to: V1,
        mask: M0,
    },
    Step::Test {
        to: M1,
        from: V1,
        mask: M0,
    },
    Step::VotePut { from: M1, mask: M0 },
];

fn voting(alloc: Global) -> Result<Example, Fail>
    ensures { IfOk result (λ e. IsReady e.program e.flat e.launch e.machine e.group) }
{
    Ok(Example::new(alloc, Width::W16, VOTING.to_vec(alloc)?)?)
}

/// The answers of the group once the code has run on all chunks.
fn answered(example: Example, buffers: &mut Buffers) -> Answers
    requires { IsReady example.program example.flat example.launch example.machine example.group }
{
    let mut example = example;
    let mut turns = 0;
    let _ = example.chunks(buffers, &mut turns);
    let answers = example.group.answers();
    drop(example);
    answers
}

/// The answers of a group whose items have these ints.
fn answers_to(alloc: Global, buffers: &mut Buffers) -> Result<Answers, Fail> {
    let example = voting(alloc)?;
    Ok(answered(example, buffers))
}

#[test]
fn votes_of_all_items_come_together(rt: HostRuntime) -> Result<(), Fail> {
    let mut buffers = ints(rt.alloc(), 20, 0)?;
    let none = answers_to(rt.alloc(), &mut buffers)?;
    set_int(&mut buffers, 19, 1);
    let one = answers_to(rt.alloc(), &mut buffers)?;
    let mut full = ints(rt.alloc(), 20, 1)?;
    let all = answers_to(rt.alloc(), &mut full)?;
    let wanted = (Answers::No, Answers::Mixed, Answers::Yes);
    assert_eq!(rt; (none, one, all), wanted);
    Ok(())
}

/// Whether the steps of a constant of a narrow type into a register, and of a copy of the register into
/// itself, are a code.
fn may_be_set(alloc: Global, to: Reg) -> Result<bool, Fail> {
    let set = Step::Const {
        to,
        of: IntType::Int,
        value: 1,
    };
    let copied = Step::Copy {
        to,
        from: to,
        mask: M0,
    };
    let code = Code::new(vec![in alloc; set, copied]?);
    let is = code.is_some();
    drop(code);
    Ok(is)
}

#[test]
fn no_step_of_a_code_writes_mask_0(rt: HostRuntime) -> Result<(), Fail> {
    let narrow = may_be_set(rt.alloc(), V0)?;
    let other = may_be_set(rt.alloc(), M1)?;
    let existing = may_be_set(rt.alloc(), M0)?;
    assert_eq!(rt; (narrow, other, existing), (true, true, false));
    Ok(())
}
