//! A measure of the lane machine: a long loop of arithmetic, loads and stores at each width. The
//! word, if there is one, is how many iterations; the times go to the standard error stream.
#![tactic(auto)]

ghost use Rattle.std.specs.Prelude.{IfOk};
ghost use Rattle.examples_machine.specs.Examples.{IsReady};

use cl_model::{Buffers, Query, Root};
use examples_machine::Example;
use lane_code::{Bank, Reg, RegionEnd, Step};
use std::alloc::Global;
use std::time::Instant;
use std::{env, io};
use wg_num::{Bin, IntType, Memory, Width};

const FEW_TURNS: u64 = 1000;

const MOST_TURNS: u64 = 1 << 32;

const STEPS_OF_A_TURN: u64 = 7;

const ZERO: Reg = Reg {
    bank: Bank::Narrow,
    number: 0,
};

const THREE: Reg = Reg {
    bank: Bank::Narrow,
    number: 1,
};

const VALUE: Reg = Reg {
    bank: Bank::Narrow,
    number: 2,
};

const ITEM: Reg = Reg {
    bank: Bank::Wide,
    number: 0,
};

const COUNT: Reg = Reg {
    bank: Bank::Wide,
    number: 1,
};

const ONE: Reg = Reg {
    bank: Bank::Wide,
    number: 2,
};

const EXISTING: Reg = Reg {
    bank: Bank::Mask,
    number: 0,
};

/// A loop that ends where no turn is left, of seven steps.
const STEPS: [Step; 12] = [
    Step::Const {
        to: ZERO,
        of: IntType::Uint,
        value: 0,
    },
    Step::Ask {
        what: Query::GlobalId,
        to: ITEM,
        dim: ZERO,
        mask: EXISTING,
    },
    Step::Const {
        to: THREE,
        of: IntType::Int,
        value: 3,
    },
    Step::Const {
        to: COUNT,
        of: IntType::Ulong,
        value: 0,
    },
    Step::Const {
        to: ONE,
        of: IntType::Ulong,
        value: 1,
    },
    Step::Load {
        site: 0,
        of: IntType::Int,
        root: Root::Param(0),
        index: ITEM,
        to: VALUE,
        mask: EXISTING,
    },
    Step::Binary {
        op: Bin::Mul,
        of: IntType::Int,
        to: VALUE,
        a: VALUE,
        b: THREE,
        mask: EXISTING,
    },
    Step::Binary {
        op: Bin::Add,
        of: IntType::Int,
        to: VALUE,
        a: VALUE,
        b: THREE,
        mask: EXISTING,
    },
    Step::Binary {
        op: Bin::Xor,
        of: IntType::Int,
        to: VALUE,
        a: VALUE,
        b: THREE,
        mask: EXISTING,
    },
    Step::Store {
        site: 1,
        of: IntType::Int,
        root: Root::Param(0),
        index: ITEM,
        from: VALUE,
        mask: EXISTING,
    },
    Step::Binary {
        op: Bin::Add,
        of: IntType::Ulong,
        to: COUNT,
        a: COUNT,
        b: ONE,
        mask: EXISTING,
    },
    Step::Turn {
        mask: EXISTING,
        target: 5,
    },
];

/// The loop at a width.
fn looping(alloc: Global, width: Width) -> Result<Example, Memory>
    ensures { IfOk result (λ e. IsReady e.program e.flat e.launch e.machine e.group) }
{
    let Ok(steps) = STEPS.to_vec(alloc) else {
        return Err(Memory);
    };
    Example::new(alloc, width, steps)
}

/// One buffer of 20 ints, each 1.
fn ones(alloc: Global) -> Result<Buffers, Memory> {
    let mut bytes = Vec::new(alloc);
    for _ in 0..20 {
        if bytes.extend_from_slice(&[1u8, 0, 0, 0]).is_err() {
            return Err(Memory);
        }
    }
    let mut list = Vec::new(alloc);
    if list.push(bytes).is_err() {
        return Err(Memory);
    }
    Ok(Buffers { list })
}

/// Runs the loop so often on the first chunk, and answers the lowest byte of the first int.
fn run(alloc: Global, width: Width, turns: u64) -> Result<u8, Memory> {
    let mut example = looping(alloc, width)?;
    let mut buffers = ones(alloc)?;
    let mut left = turns;
    let end = example.first_chunk(&mut buffers, &mut left);
    if end != RegionEnd::Turns || left != 0 {
        return Ok(0);
    }
    match buffers.list.get(0) {
        Some(bytes) => match bytes.get(0) {
            Some(byte) => Ok(*byte),
            None => Ok(0),
        },
        None => Ok(0),
    }
}

/// How many turns the words ask for.
fn turns_asked(rt: &HostRuntime) -> u64 {
    let Ok(args) = env::args(rt) else {
        return FEW_TURNS;
    };
    for arg in args.skip(1) {
        if let Ok(turns) = arg.as_str().parse::<u64>() {
            return turns.min(MOST_TURNS);
        }
    }
    FEW_TURNS
}

fn main(rt: HostRuntime) -> io::Result<()> {
    let turns = turns_asked(&rt);
    for (width, lanes) in [
        (Width::W1, 1u64),
        (Width::W4, 4),
        (Width::W8, 8),
        (Width::W16, 16),
    ] {
        let start = Instant::now(&rt)?;
        let Ok(byte) = run(rt.alloc(), width, turns) else {
            return println!(rt; "out of memory");
        };
        let time = start.elapsed(&rt)?;
        println!(rt; "{lanes} lanes: {byte}")?;
        let micros = time.as_micros().max(1);
        let done = turns as u128 * STEPS_OF_A_TURN as u128 * lanes as u128;
        eprintln!(rt;
            "{lanes} lanes: {done} lane-steps, {} in a microsecond",
            done / micros
        )?;
    }
    Ok(())
}
