//! Which steps have flat steps of their own. That a flat step stands for its lane step is proved; that it is not `Old` is
//! not.

use cl_model::Root;
use lane_code::{Bank, Reg, Step};
use lane_flat::{FlatStep, flat_of};
use std::mem::size_of;
use wg_num::{Bin, Fun, IntType, Un};

/// A register of the bank.
fn on(bank: Bank) -> Reg {
    Reg { bank, number: 1 }
}

const MASK: Reg = Reg {
    bank: Bank::Mask,
    number: 1,
};

/// The flat step of an operator on registers of the bank.
fn binary(op: Bin, of: IntType, bank: Bank) -> FlatStep {
    flat_of(Step::Binary {
        op,
        of,
        to: on(bank),
        a: on(bank),
        b: on(bank),
        mask: MASK,
    })
}

/// Whether the operator is in the variant.
fn has_own(flat: FlatStep) -> bool {
    !matches!(
        flat,
        FlatStep::Old | FlatStep::Binary32 { .. } | FlatStep::Binary64 { .. }
    )
}

const QUICK: [Bin; 14] = [
    Bin::Add,
    Bin::Sub,
    Bin::Mul,
    Bin::Shl,
    Bin::Shr,
    Bin::And,
    Bin::Or,
    Bin::Xor,
    Bin::Eq,
    Bin::Ne,
    Bin::Lt,
    Bin::Le,
    Bin::Gt,
    Bin::Ge,
];

#[test]
fn operators_on_whole_types_are_variants(rt: HostRuntime) {
    for op in QUICK {
        assert!(rt; has_own(binary(op, IntType::Int, Bank::Narrow)));
        assert!(rt; has_own(binary(op, IntType::Uint, Bank::Narrow)));
        assert!(rt; has_own(binary(op, IntType::Long, Bank::Wide)));
        assert!(rt; has_own(binary(op, IntType::Ulong, Bank::Wide)));
    }
}

/// The flat step of a unary operator, and of a built-in function.
fn others(of: IntType, bank: Bank) -> (FlatStep, FlatStep) {
    let x = on(bank);
    let unary = flat_of(Step::Unary {
        op: Un::Flip,
        of,
        to: x,
        a: x,
        mask: MASK,
    });
    let builtin = flat_of(Step::Builtin {
        f: Fun::Clz,
        of,
        to: x,
        a: x,
        b: x,
        c: x,
        mask: MASK,
    });
    (unary, builtin)
}

#[test]
fn other_operators_on_lanes_are_in_fields(rt: HostRuntime) {
    assert!(rt;
        matches!(
            binary(Bin::Div, IntType::Int, Bank::Narrow),
            FlatStep::Binary32 { .. }
        )
    );
    assert!(rt;
        matches!(
            binary(Bin::Add, IntType::Uchar, Bank::Narrow),
            FlatStep::Binary32 { .. }
        )
    );
    assert!(rt;
        matches!(
            binary(Bin::Rem, IntType::Long, Bank::Wide),
            FlatStep::Binary64 { .. }
        )
    );
    let (unary, builtin) = others(IntType::Int, Bank::Narrow);
    assert!(rt; matches!(unary, FlatStep::Unary32 { .. }));
    assert!(rt; matches!(builtin, FlatStep::Builtin32 { .. }));
    let (unary, builtin) = others(IntType::Long, Bank::Wide);
    assert!(rt; matches!(unary, FlatStep::Unary64 { .. }));
    assert!(rt; matches!(builtin, FlatStep::Builtin64 { .. }));
}

/// The flat step of a conversion.
fn converted(to: Bank, kind: IntType, from: Bank, was: IntType) -> FlatStep {
    flat_of(Step::Convert {
        to: on(to),
        kind,
        from: on(from),
        was,
        mask: MASK,
    })
}

#[test]
fn conversions_are_variants(rt: HostRuntime) {
    let (n, w) = (Bank::Narrow, Bank::Wide);
    assert!(rt;
        matches!(
            converted(w, IntType::Long, n, IntType::Int),
            FlatStep::SignExtend { .. }
        )
    );
    assert!(rt;
        matches!(
            converted(w, IntType::Long, n, IntType::Uint),
            FlatStep::ZeroExtend { .. }
        )
    );
    assert!(rt;
        matches!(
            converted(w, IntType::Ulong, n, IntType::Uchar),
            FlatStep::Widen { .. }
        )
    );
    assert!(rt;
        matches!(
            converted(n, IntType::Uint, w, IntType::Long),
            FlatStep::LowHalf { .. }
        )
    );
    assert!(rt;
        matches!(
            converted(n, IntType::Char, w, IntType::Long),
            FlatStep::Narrow { .. }
        )
    );
    assert!(rt;
        matches!(
            converted(n, IntType::Uint, n, IntType::Int),
            FlatStep::Same32 { .. }
        )
    );
    assert!(rt;
        matches!(
            converted(n, IntType::Short, n, IntType::Int),
            FlatStep::Convert32 { .. }
        )
    );
    assert!(rt;
        matches!(
            converted(w, IntType::Ulong, w, IntType::Long),
            FlatStep::Same64 { .. }
        )
    );
}

/// The flat steps of a load and of a store.
fn accesses(of: IntType, bank: Bank) -> (FlatStep, FlatStep) {
    let load = flat_of(Step::Load {
        site: 0,
        of,
        root: Root::Param(0),
        index: on(Bank::Wide),
        to: on(bank),
        mask: MASK,
    });
    let store = flat_of(Step::Store {
        site: 0,
        of,
        root: Root::Param(0),
        index: on(Bank::Wide),
        from: on(bank),
        mask: MASK,
    });
    (load, store)
}

#[test]
fn accesses_are_variants_by_size(rt: HostRuntime) {
    let one = accesses(IntType::Char, Bank::Narrow);
    assert!(rt; matches!(one, (FlatStep::Load1 { .. }, FlatStep::Store1 { .. })));
    let two = accesses(IntType::Ushort, Bank::Narrow);
    assert!(rt; matches!(two, (FlatStep::Load2 { .. }, FlatStep::Store2 { .. })));
    let four = accesses(IntType::Int, Bank::Narrow);
    assert!(rt; matches!(four, (FlatStep::Load4 { .. }, FlatStep::Store4 { .. })));
    let eight = accesses(IntType::Ulong, Bank::Wide);
    assert!(rt; matches!(eight, (FlatStep::Load8 { .. }, FlatStep::Store8 { .. })));
}

/// Steps on lanes of the bank, and on scalars.
fn moves(x: Reg) -> [Step; 7] {
    let scalar = on(Bank::Scalar);
    let of = IntType::Int;
    [
        Step::Const {
            to: x,
            of,
            value: 1,
        },
        Step::Copy {
            to: x,
            from: x,
            mask: MASK,
        },
        Step::Spread {
            to: x,
            from: scalar,
        },
        Step::First {
            to: scalar,
            from: x,
            of,
            mask: MASK,
        },
        Step::ColumnGet { column: 0, to: x },
        Step::ColumnPut {
            column: 0,
            from: x,
            mask: MASK,
        },
        Step::Test {
            to: MASK,
            from: x,
            mask: MASK,
        },
    ]
}

/// Steps on masks and on scalars, and jumps.
fn rest() -> [Step; 10] {
    let scalar = on(Bank::Scalar);
    let (to, a, b) = (MASK, MASK, MASK);
    let target = 3;
    [
        Step::Const {
            to: scalar,
            of: IntType::Int,
            value: 1,
        },
        Step::OnceGet {
            slot: 0,
            to: scalar,
        },
        Step::OncePut {
            slot: 0,
            from: scalar,
        },
        Step::MaskAnd { to, a, b },
        Step::MaskOr { to, a, b },
        Step::MaskLess { to, a, b },
        Step::Jump { target },
        Step::SkipNone { mask: MASK, target },
        Step::SkipZero {
            from: scalar,
            target,
        },
        Step::Turn { mask: MASK, target },
    ]
}

/// Whether the step has a flat step of its own.
fn is_quick(step: Step) -> bool {
    !matches!(flat_of(step), FlatStep::Old)
}

#[test]
fn moves_masks_and_jumps_are_variants(rt: HostRuntime) {
    for step in moves(on(Bank::Narrow)) {
        assert!(rt; is_quick(step));
    }
    for step in moves(on(Bank::Wide)) {
        assert!(rt; is_quick(step));
    }
    for step in rest() {
        assert!(rt; is_quick(step));
    }
}

#[test]
fn what_is_rare_is_old(rt: HostRuntime) {
    assert!(rt;
        !is_quick(Step::Mark {
            site: 0,
            mask: MASK
        })
    );
    assert!(rt; matches!(binary(Bin::Add, IntType::Int, Bank::Scalar), FlatStep::Old));
}

#[test]
fn a_flat_step_has_24_bytes(rt: HostRuntime) {
    assert_eq!(rt; size_of::<FlatStep>(), 24);
}
