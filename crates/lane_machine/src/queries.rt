//! What the work-item functions give an item (OpenCL 1.2, section 6.12.1).
ghost use Rattle.std.specs.Prelude.{◌≡◌, ◌<◌, ◌≤◌, ◌+◌, ◌*◌, ◌%◌, ◌/◌, ◌^◌, pos, take};
ghost use Rattle.cl_model.specs.Sizes.{group_size, product, size_at, offset_at, groups_of, groups_at, local_id};
ghost use Rattle.cl_model.specs.Sizes.{group_id, global_id, answer_within, answer_outside, answer_of};
ghost use Rattle.cl_model.specs.View.{launch_of, three_of};
ghost use Rattle.lane_machine.specs.Sizes.{HasSizes, AreSizes};
ghost use Rattle.lane_machine.specs.Rows.{does_grow};
ghost use Rattle.lane_machine.specs.Spots.{IsSpot};
ghost use Rattle.std.specs.Bool.{OnTrue};

use cl_model::{Launch, Query};

/// The product of three sizes.
pub fn whole(sizes: &[u64; 3]) -> u64
    requires { AreSizes (three_of sizes.now) }
    ensures value { result ≡ product (three_of sizes.now) }
    ensures some { 0 < result }
    ensures few { result ≤ 2 ^ 24 }
{
    sizes[0] * (sizes[1] * sizes[2])
}

/// The product of the sizes of the dimensions before one.
fn before(sizes: &[u64; 3], d: u32) -> u64
    requires sizes { AreSizes (three_of sizes.now) }
    requires dimension { d < 3 }
    ensures value { result ≡ product (take d (three_of sizes.now)) }
    ensures some { 0 < result }
{
    match d {
        0 => 1,
        1 => sizes[0],
        _ => sizes[0] * sizes[1],
    }
}

/// The number of groups in each dimension.
pub fn groups(launch: &Launch) -> [u64; 3]
    requires { HasSizes (launch_of launch.now) }
    ensures counts { three_of result ≡ groups_of (launch_of launch.now) }
    ensures sizes { AreSizes (three_of result) }
{
    [
        launch.global[0] / launch.local[0],
        launch.global[1] / launch.local[1],
        launch.global[2] / launch.local[2],
    ]
}

/// The size in a dimension.
fn size_in(sizes: &[u64; 3], d: u32) -> u64
    requires sizes { AreSizes (three_of sizes.now) }
    requires dimension { d < 3 }
    ensures value { result ≡ size_at (three_of sizes.now) d }
    ensures some { 0 < result }
{
    match d {
        0 => sizes[0],
        1 => sizes[1],
        _ => sizes[2],
    }
}

/// The offset in a dimension.
fn offset_in(offsets: &[u64; 3], d: u32) -> u64
    requires dimension { d < 3 }
    ensures value { result ≡ offset_at (three_of offsets.now) d }
{
    match d {
        0 => offsets[0],
        1 => offsets[1],
        _ => offsets[2],
    }
}

/// The rest of a division, which is not made where the number is below the divisor.
#[inline(always)]
fn rest_of(a: u64, b: u64) -> u64
    requires some { 0 < b }
    ensures value { result ≡ a % b }
{
    if a < b { a } else { a % b }
}

/// A quotient, for which no division is made by 1.
#[inline(always)]
fn quotient_of(a: u64, b: u64) -> u64
    requires some { 0 < b }
    ensures value { result ≡ a / b }
{
    if b == 1 { a } else { a / b }
}

/// The number of groups in a dimension.
fn groups_in(launch: &Launch, d: u32) -> u64
    requires sizes { HasSizes (launch_of launch.now) }
    requires dimension { d < 3 }
    ensures value { result ≡ groups_at (launch_of launch.now) d }
    ensures some { 0 < result }
{
    match d {
        0 => groups(launch)[0],
        1 => groups(launch)[1],
        _ => groups(launch)[2],
    }
}

/// The number of groups in the dimensions before one.
fn groups_before(launch: &Launch, d: u32) -> u64
    requires sizes { HasSizes (launch_of launch.now) }
    requires dimension { d < 3 }
    ensures value { result ≡ product (take d (groups_of (launch_of launch.now))) }
    ensures some { 0 < result }
{
    match d {
        0 => 1,
        1 => groups_in(launch, 0),
        _ => groups_in(launch, 0) * groups_in(launch, 1),
    }
}

/// Whether a dimension has more groups than the number, told without a division; it may be `false` where it has.
fn has_group(launch: &Launch, number: u64, d: u32) -> bool
    requires sizes { HasSizes (launch_of launch.now) }
    requires dimension { d < 3 }
    ensures { OnTrue result (number < groups_at (launch_of launch.now) d) }
{
    number < 0x1000_0000 && (number + 1) * size_in(&launch.local, d) <= size_in(&launch.global, d)
}

/// An item by its number in the launch, with the number of its group and its number there.
#[derive(Clone, Copy)]
pub(crate) struct Spot {
    pub number: u64,
    pub group: u64,
    pub local: u64,
}

/// The item of a number.
pub(crate) fn spot_of(launch: &Launch, number: u64) -> Spot
    requires { HasSizes (launch_of launch.now) }
    ensures number { result.number ≡ number }
    ensures spot { IsSpot (launch_of launch.now) result }
{
    let size = whole(&launch.local);
    Spot {
        number,
        group: number / size,
        local: number % size,
    }
}

/// Where an item stands: the number of its group, and its number there. Two words, so that a call takes it in
/// registers; `Spot`, which has the item's own number too, takes memory.
#[derive(Clone, Copy)]
pub(crate) struct Place {
    pub group: u64,
    pub local: u64,
}

/// The item at a place of the launch.
pub(crate) fn spot_in(launch: &Launch, place: Place) -> Spot
    requires sizes { HasSizes (launch_of launch.now) }
    requires below { place.local < group_size (launch_of launch.now) }
    requires few { place.group * group_size (launch_of launch.now) + place.local < 2 ^ 32 }
    ensures number { result.number ≡ place.group * group_size (launch_of launch.now) + place.local }
    ensures spot { IsSpot (launch_of launch.now) result }
{
    let size = whole(&launch.local);
    Spot {
        number: place.group * size + place.local,
        group: place.group,
        local: place.local,
    }
}

/// The item's number in its group, in a dimension.
fn local_in(launch: &Launch, item: Spot, d: u32) -> u64
    requires sizes { HasSizes (launch_of launch.now) }
    requires spot { IsSpot (launch_of launch.now) item }
    requires dimension { d < 3 }
    ensures value { result ≡ local_id (launch_of launch.now) item.number d }
    ensures below { result < size_at (launch_of launch.now).local d }
{
    rest_of(
        quotient_of(item.local, before(&launch.local, d)),
        size_in(&launch.local, d),
    )
}

/// The number of the item's group, in a dimension.
fn group_in(launch: &Launch, item: Spot, d: u32) -> u64
    requires sizes { HasSizes (launch_of launch.now) }
    requires spot { IsSpot (launch_of launch.now) item }
    requires dimension { d < 3 }
    ensures value { result ≡ group_id (launch_of launch.now) item.number d }
    ensures below { result < groups_at (launch_of launch.now) d }
{
    let number = quotient_of(item.group, groups_before(launch, d));
    if has_group(launch, number, d) {
        return number;
    }
    number % groups_in(launch, d)
}

/// The item's number in the launch, in a dimension, from the offset on.
fn global_in(launch: &Launch, item: Spot, d: u32) -> u64
    requires sizes { HasSizes (launch_of launch.now) }
    requires spot { IsSpot (launch_of launch.now) item }
    requires dimension { d < 3 }
    ensures { result ≡ global_id (launch_of launch.now) item.number d }
{
    let local = local_in(launch, item, d);
    let group = group_in(launch, item, d);
    offset_in(&launch.offset, d) + group * size_in(&launch.local, d) + local
}

/// Whether so many items from an item on stand beside one another in the first dimension of a group.
pub(crate) fn is_row(launch: &Launch, item: Spot, count: u64) -> bool
    requires sizes { HasSizes (launch_of launch.now) }
    requires spot { IsSpot (launch_of launch.now) item }
    requires few { count ≤ 64 }
    ensures { OnTrue result (local_id (launch_of launch.now) item.number 0 + count
        ≤ size_at (launch_of launch.now).local 0) }
{
    let place = local_in(launch, item, 0);
    count <= size_in(&launch.local, 0) - place
}

/// Whether the answer grows by 1 from one item of a row to the next; else it stays the same.
pub(crate) fn grows(what: Query, d: u32) -> bool
    ensures { result ≡ does_grow what d }
{
    match what {
        Query::GlobalId | Query::LocalId => d == 0,
        Query::WorkDim
        | Query::GroupId
        | Query::GlobalSize
        | Query::LocalSize
        | Query::NumGroups
        | Query::GlobalOffset => false,
    }
}

/// What a work-item function gives an item in a dimension below 3.
fn answer_inside(launch: &Launch, item: Spot, what: Query, d: u32) -> u64
    requires sizes { HasSizes (launch_of launch.now) }
    requires spot { IsSpot (launch_of launch.now) item }
    requires dimension { d < 3 }
    ensures { result ≡ answer_within (launch_of launch.now) item.number what d }
{
    match what {
        Query::WorkDim => launch.dims as u64,
        Query::GlobalId => global_in(launch, item, d),
        Query::LocalId => local_in(launch, item, d),
        Query::GroupId => group_in(launch, item, d),
        Query::GlobalSize => size_in(&launch.global, d),
        Query::LocalSize => size_in(&launch.local, d),
        Query::NumGroups => groups_in(launch, d),
        Query::GlobalOffset => offset_in(&launch.offset, d),
    }
}

/// And in any other.
fn answer_beyond(launch: &Launch, what: Query) -> u64
    ensures { result ≡ answer_outside (launch_of launch.now) what }
{
    match what {
        Query::WorkDim => launch.dims as u64,
        Query::GlobalSize | Query::LocalSize | Query::NumGroups => 1,
        Query::GlobalId | Query::LocalId | Query::GroupId | Query::GlobalOffset => 0,
    }
}

/// What a work-item function gives an item for an argument.
pub(crate) fn answer(launch: &Launch, item: Spot, what: Query, d: u32) -> u64
    requires sizes { HasSizes (launch_of launch.now) }
    requires spot { IsSpot (launch_of launch.now) item }
    ensures { pos result ≡ answer_of (launch_of launch.now) item.number what (pos d) }
{
    if d < 3 {
        answer_inside(launch, item, what, d)
    } else {
        answer_beyond(launch, what)
    }
}
