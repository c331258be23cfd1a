//! What the vectors do on a few lanes, at two widths.
#![tactic(auto, unfolding(wg_num::specs::Wrap::half, wg_num::specs::Wrap::modulus))]

use lane_kernels::{
    Tally, any, binary32, binary64, builtin32, convert32, gather32, gather64, lowest, narrow,
    nonzero32, put32, scatter32, scatter64, unary32, widen,
};
use std::simd::prelude::*;
use std::test::Fail;
use wg_num::{Bin, Fun, IntType, Un};

#[test]
fn arithmetic_goes_lane_by_lane(rt: HostRuntime) -> Result<(), Fail> {
    let mut tally = Tally::new();
    let left = u32x4::from_array([7, 0x8000_0000, 0xffff_fff9, 0xffff_fff9]);
    let right = u32x4::from_array([0, 0xffff_ffff, 2, 0]);
    let quotients = binary32(Bin::Div, IntType::Int, left, right, &mut tally).to_array();
    let rests = binary32(Bin::Rem, IntType::Int, left, right, &mut tally).to_array();
    assert_eq!(rt; quotients, [0u32, 0x8000_0000, 0xffff_fffd, 0]);
    assert_eq!(rt; rests, [7u32, 0, 0xffff_ffff, 0xffff_fff9]);
    let flipped = unary32(Un::Flip, IntType::Uchar, u32x4::splat(1), &mut tally).to_array();
    assert_eq!(rt; flipped, [254u32, 254, 254, 254]);
    let most = u64x4::splat(0x7fff_ffff_ffff_ffff);
    let sums = binary64(Bin::Add, IntType::Long, most, u64x4::splat(1), &mut tally).to_array();
    assert_eq!(rt; sums[3], 0x8000_0000_0000_0000u64);
    assert_eq!(rt; tally.count(), 4);
    Ok(())
}

#[test]
fn conversions_and_functions_go_lane_by_lane(rt: HostRuntime) -> Result<(), Fail> {
    let mut tally = Tally::new();
    let small = convert32(IntType::Char, u32x4::splat(200), IntType::Int, &mut tally);
    assert_eq!(rt; small.to_array()[0], 0xffff_ffc8);
    let wide = widen(IntType::Long, small, IntType::Char, &mut tally);
    assert_eq!(rt; wide.to_array()[1], 0xffff_ffff_ffff_ffc8u64);
    let back = narrow(IntType::Ushort, wide, IntType::Long, &mut tally);
    assert_eq!(rt; back.to_array()[2], 0xffc8u32);
    let one = u32x4::splat(1);
    let zeros = builtin32(Fun::Clz, IntType::Uchar, one, one, one, &mut tally);
    assert_eq!(rt; zeros.to_array()[3], 7);
    assert_eq!(rt; tally.count(), 4);
    Ok(())
}

#[test]
fn masks_choose_lanes(rt: HostRuntime) -> Result<(), Fail> {
    let mask = [false, true, false, true];
    let mut mixed = u32x4::splat(4);
    put32(&mut mixed, mask, u32x4::splat(9));
    assert_eq!(rt; mixed.to_array(), [4u32, 9, 4, 9]);
    assert_eq!(rt; nonzero32(u32x4::from_array([0, 5, 0, 1])), mask);
    assert_eq!(rt; lowest(mask), Some(1));
    assert_eq!(rt; lowest([false, false, false, false]), None);
    assert_eq!(rt; any(mask), true);
    Ok(())
}

#[test]
fn an_access_out_of_range_names_the_lowest_active_lane(rt: HostRuntime) -> Result<(), Fail> {
    let mut tally = Tally::new();
    let mut bytes = [1u8, 0, 0, 0, 2, 0, 0, 0];
    let index = u64x4::from_array([0, 9, 1, 2]);
    let some = [true, false, true, false];
    let most = [true, false, true, true];
    let loaded = gather32(&bytes, IntType::Int, index, some, &mut tally);
    assert_eq!(rt; loaded, Ok([1u32, 0, 2, 0]));
    assert_eq!(rt;
        gather32(&bytes, IntType::Int, index, most, &mut tally),
        Err(3)
    );
    let stored = scatter32(
        &mut bytes,
        IntType::Int,
        index,
        u32x4::splat(7),
        most,
        &mut tally,
    );
    assert_eq!(rt; stored, Err(3));
    assert_eq!(rt; bytes, [7u8, 0, 0, 0, 7, 0, 0, 0]);
    let wide = gather64(&bytes, IntType::Long, u64x4::splat(0), some, &mut tally);
    assert_eq!(rt; wide, Ok([0x7_0000_0007u64, 0, 0x7_0000_0007, 0]));
    let negative = u64x4::splat(0xffff_ffff_ffff_ffff);
    let none = scatter64(
        &mut bytes,
        IntType::Long,
        negative,
        negative,
        some,
        &mut tally,
    );
    assert_eq!(rt; none, Err(0));
    assert_eq!(rt; tally.count(), 5);
    Ok(())
}
