//! Which registers small codes need cleared.

use crate::clearing::{Cleared, cleared_in};
use crate::tidied::code_with;
use lane_code::{Bank, Counts, Reg, Step};
use std::alloc::Global;
use std::test::Fail;
use wg_num::{Bin, IntType, Memory, copy_list};

const COUNTS: Counts = Counts {
    narrow: 3,
    wide: 1,
    masks: 2,
    scalars: 0,
};

const V0: Reg = Reg {
    bank: Bank::Narrow,
    number: 0,
};

const V1: Reg = Reg {
    bank: Bank::Narrow,
    number: 1,
};

const V2: Reg = Reg {
    bank: Bank::Narrow,
    number: 2,
};

const W0: Reg = Reg {
    bank: Bank::Wide,
    number: 0,
};

const M0: Reg = Reg {
    bank: Bank::Mask,
    number: 0,
};

const M1: Reg = Reg {
    bank: Bank::Mask,
    number: 1,
};

/// Sets one lane register to a number.
const SET: Step = Step::Const {
    to: V0,
    of: IntType::Int,
    value: 1,
};

/// The sum of a register and `V0`, under a mask.
const fn sum(to: Reg, a: Reg, mask: Reg) -> Step {
    Step::Binary {
        op: Bin::Add,
        of: IntType::Int,
        to,
        a,
        b: V0,
        mask,
    }
}

/// What the steps need cleared.
fn cleared(alloc: Global, steps: &[Step]) -> Result<Cleared, Memory> {
    let copy = copy_list(alloc, steps)?;
    let code = code_with(copy, COUNTS)?;
    cleared_in(alloc, &code)
}

#[test]
fn what_is_set_whole_before_it_is_read_needs_no_clearing(rt: HostRuntime) -> Result<(), Fail> {
    let steps = [
        SET,
        Step::Copy {
            to: V1,
            from: V0,
            mask: M0,
        },
        Step::Test {
            to: M1,
            from: V1,
            mask: M0,
        },
        Step::SkipNone {
            mask: M1,
            target: 5,
        },
        sum(V1, V1, M1),
    ];
    let found = cleared(rt.alloc(), &steps)?;
    assert_eq!(rt; found.narrow.len(), 0);
    assert_eq!(rt; found.wide.len(), 0);
    Ok(())
}

#[test]
fn what_is_set_under_another_mask_needs_clearing(rt: HostRuntime) -> Result<(), Fail> {
    let steps = [
        SET,
        Step::Test {
            to: M1,
            from: V0,
            mask: M0,
        },
        Step::Copy {
            to: V2,
            from: V0,
            mask: M1,
        },
        sum(V1, V2, M0),
        Step::Convert {
            to: W0,
            kind: IntType::Long,
            from: V1,
            was: IntType::Int,
            mask: M1,
        },
    ];
    let found = cleared(rt.alloc(), &steps)?;
    assert!(rt; found.narrow.as_slice() == [2].as_slice());
    assert_eq!(rt; found.wide.len(), 0);
    Ok(())
}

#[test]
fn what_a_loop_reads_and_its_front_does_not_set_needs_clearing(
    rt: HostRuntime,
) -> Result<(), Fail> {
    let steps = [
        SET,
        Step::Jump { target: 3 },
        sum(V1, V1, M0),
        Step::Test {
            to: M1,
            from: V1,
            mask: M0,
        },
        Step::Copy {
            to: V2,
            from: V0,
            mask: M0,
        },
        Step::Turn {
            mask: M1,
            target: 2,
        },
    ];
    let found = cleared(rt.alloc(), &steps)?;
    assert!(rt; found.narrow.as_slice() == [1].as_slice());
    assert_eq!(rt; found.wide.len(), 0);
    Ok(())
}

/// A branch in which one register is set and read, with a step between the two.
fn branch(between: Step) -> [Step; 6] {
    [
        SET,
        Step::Test {
            to: M1,
            from: V0,
            mask: M0,
        },
        Step::SkipNone {
            mask: M1,
            target: 6,
        },
        Step::Copy {
            to: V1,
            from: V0,
            mask: M1,
        },
        between,
        sum(V2, V1, M1),
    ]
}

#[test]
fn what_a_branch_sets_before_it_reads_it_needs_no_clearing(rt: HostRuntime) -> Result<(), Fail> {
    let found = cleared(rt.alloc(), &branch(sum(V0, V1, M1)))?;
    assert_eq!(rt; found.narrow.len(), 0);
    assert_eq!(rt; found.wide.len(), 0);
    Ok(())
}

#[test]
fn what_is_read_under_a_mask_that_was_written_needs_clearing(rt: HostRuntime) -> Result<(), Fail> {
    let written = Step::MaskLess {
        to: M1,
        a: M0,
        b: M1,
    };
    let found = cleared(rt.alloc(), &branch(written))?;
    assert!(rt; found.narrow.as_slice() == [1].as_slice());
    Ok(())
}
