//! The steps that load and store.
ghost use Rattle.std.specs.Prelude.{◌≡◌, ◌≢◌, ◌<◌, ◌≤◌, ◌^◌, ℕ, [], length, map};
ghost use Rattle.std.specs.Prelude.{slice_index_or, None};
ghost use Rattle.std.specs.Bool.{OnTrue, OnFalse};
ghost use Rattle.cl_model.specs.Sizes.{Launch as PlainLaunch};
ghost use Rattle.cl_model.specs.View.{buffers_of, launch_of};
ghost use Rattle.lane_code.specs.Groups.{reached};
ghost use Rattle.lane_code.specs.Registers.{Registers as PlainRegisters};
ghost use Rattle.lane_code.specs.Program.{Plain};
ghost use Rattle.lane_code.specs.View.{plain_of};
ghost use Rattle.lane_code.specs.Acts.{On, shared_bytes, load_at, store_at};
ghost use Rattle.lane_code.specs.declared.step.Bank.TheVariants.{Wide, Mask, Scalar};
ghost use Rattle.lane_machine.specs.State.{IsIn, FitsBank};
ghost use Rattle.lane_machine.specs.Standing.{chunk_from, standing, accessed, reached_of, MayStore, MayWrite};

use crate::group_state::Group;
use crate::objects::{Object, bytes_at, object_of};
use crate::operands::Access;
use crate::own::{load_own, store_own};
use crate::registers::Registers;
use crate::setting::Setting;
use crate::shared::{load_shared, store_into, store_slice};
use cl_model::{Buffers, Root, Table};
use lane_code::GroupProgram;
use lane_kernels::Tally;

/// The bytes of a constant table.
fn table_at(tables: &[Table], n: usize) -> &[u8]
    ensures { result.now ≡ slice_index_or (map (λ t. t.bytes.items) tables.now) n [] }
{
    match tables.get(n) {
        Some(table) => &table.bytes,
        None => &[],
    }
}

/// The objects of a private array.
fn array_at(arrays: &[Vec<Vec<u8>>], n: usize) -> &[Vec<u8>]
    ensures { map (λ v. v.items) result.now ≡ slice_index_or (map (λ a. map (λ v. v.items) a.items) arrays.now) n
        [] }
{
    match arrays.get(n) {
        Some(objects) => objects,
        None => &[],
    }
}

/// The objects of a private array of a group.
fn objects_of(group: &Group, n: usize) -> &[Vec<u8>]
    ensures { map (λ v. v.items) result.now ≡ slice_index_or group.now.kept.privates n [] }
{
    array_at(&group.privates, n)
}

/// The bytes of an object that all lanes share.
fn bytes_of<'a>(
    object: Object,
    group: &'a Group,
    buffers: &'a Buffers,
    program: &'a GroupProgram,
) -> &'a [u8]
    ensures { (r : PlainRegisters) (launch : PlainLaunch) (number first width : ℕ)
        → result.now ≡ shared_bytes (chunk_from (plain_of program.now) launch number first width)
        (standing r group.now.kept (buffers_of buffers.now)) (reached_of object) }
{
    match object {
        Object::Buffer(n) => bytes_at(&buffers.list, n as usize),
        Object::Table(n) => table_at(&program.tables, n as usize),
        Object::Local(n) => bytes_at(&group.locals, n),
        Object::Private(_) => &[],
        Object::Missing => &[],
    }
}

/// A load of the active lanes; it answers the lowest active lane that is out of range.
#[inline(always)]
pub(crate) fn load_step<const W: usize>(
    r: &mut Registers<W>,
    object: Object,
    access: Access,
    group: &Group,
    buffers: &Buffers,
    setting: Setting,
    tally: &mut Tally,
) -> Option<u32>
    requires lanes { W ≤ 64 }
    requires first { setting.first < 2 ^ 32 }
    requires fits { FitsBank access.of access.value.bank }
    requires scalar { access.value.bank ≢ Scalar }
    requires wide { access.index.bank ≡ Wide }
    requires to { IsIn r.old.plain access.value }
    requires index { access.index.number < length r.old.plain.wide }
    requires mask { access.mask.number < length r.old.plain.masks }
    ensures act { (launch : PlainLaunch) (number site : ℕ)
        → load_at (chunk_from (plain_of setting.entry.program.now) launch number setting.entry.first W)
        (standing r.old.plain group.now.kept (buffers_of buffers.now)) site access.of access.index access.value
        access.mask (reached_of object)
        ≡ accessed site result (standing r.new.plain group.now.kept (buffers_of buffers.now)) }
    ensures room { r.new.room ≡ r.old.room }
{
    match object {
        Object::Private(n) => {
            let objects = objects_of(group, n as usize);
            load_own(r, objects, setting.first, access, tally)
        }
        Object::Buffer(_) | Object::Table(_) | Object::Local(_) | Object::Missing => {
            let bytes = bytes_of(object, group, buffers, setting.program);
            load_shared(r, bytes, access, tally)
        }
    }
}

/// A store of the active lanes, as far as none is out of range; it answers the lowest active lane
/// that is.
#[inline(always)]
pub(crate) fn store_step<const W: usize>(
    r: &Registers<W>,
    object: Object,
    access: Access,
    group: &mut Group,
    buffers: &mut Buffers,
    first: usize,
    tally: &mut Tally,
) -> Option<u32>
    requires lanes { W ≤ 64 }
    requires first { first < 2 ^ 32 }
    requires object { MayStore (length group.old.kept.privates) (reached_of object) }
    requires fits { FitsBank access.of access.value.bank }
    requires scalar { access.value.bank ≢ Scalar }
    requires bank { access.value.bank ≢ Mask }
    requires wide { access.index.bank ≡ Wide }
    requires from { IsIn r.now.plain access.value }
    requires index { access.index.number < length r.now.plain.wide }
    requires mask { access.mask.number < length r.now.plain.masks }
    ensures act { (p : Plain) (launch : PlainLaunch) (number site : ℕ)
        → store_at (chunk_from p launch number first W)
        (standing r.now.plain group.old.kept (buffers_of buffers.old)) site access.of access.index access.value
        access.mask (reached_of object)
        ≡ accessed site result (standing r.now.plain group.new.kept (buffers_of buffers.new)) }
    ensures number { group.new.number ≡ group.old.number }
{
    match object {
        Object::Buffer(n) => { store_into(r, &mut buffers.list, n as usize, access, tally) }
        Object::Local(n) => store_into(r, &mut group.locals, n, access, tally),
        Object::Private(n) => {
            let array = n as usize;
            store_own(r, &mut group.privates, array, first, access, tally)
        }
        Object::Table(_) => None,
        Object::Missing => {
            let mut none = [0u8; 0];
            store_slice(r, &mut none, access, tally)
        }
    }
}

/// The load of a step, by the root that it names.
#[inline(always)]
pub(crate) fn load<const W: usize>(
    r: &mut Registers<W>,
    root: Root,
    access: Access,
    group: &Group,
    buffers: &Buffers,
    setting: Setting,
    tally: &mut Tally,
) -> Option<u32>
    requires lanes { W ≤ 64 }
    requires first { setting.first < 2 ^ 32 }
    requires fits { FitsBank access.of access.value.bank }
    requires scalar { access.value.bank ≢ Scalar }
    requires wide { access.index.bank ≡ Wide }
    requires to { IsIn r.old.plain access.value }
    requires index { access.index.number < length r.old.plain.wide }
    requires mask { access.mask.number < length r.old.plain.masks }
    ensures act { (number site : ℕ)
        → load_at (chunk_from (plain_of setting.entry.program.now) (launch_of setting.entry.launch.now) number
        setting.entry.first W)
        (standing r.old.plain group.now.kept (buffers_of buffers.now)) site access.of access.index access.value
        access.mask
        (reached (length setting.entry.program.now.locals.items) (launch_of setting.entry.launch.now) root)
        ≡ accessed site result (standing r.new.plain group.now.kept (buffers_of buffers.now)) }
    ensures room { r.new.room ≡ r.old.room }
{
    let object = object_of(setting.program, setting.launch, root);
    load_step(r, object, access, group, buffers, setting, tally)
}

#[inline(always)]
fn is_none(fault: Option<u32>) -> bool
    ensures none { OnTrue result (fault ≡ None) }
    ensures some { OnFalse result (fault ≢ None) }
{
    match fault {
        None => true,
        Some(_) => false,
    }
}

/// The load of a step from an object that all lanes share, if no active lane is out of range.
#[inline(always)]
pub(crate) fn load_done<const W: usize>(
    r: &mut Registers<W>,
    root: Root,
    access: Access,
    group: &Group,
    buffers: &Buffers,
    setting: Setting,
    tally: &mut Tally,
) -> bool
    requires lanes { W ≤ 64 }
    requires first { setting.first < 2 ^ 32 }
    requires fits { FitsBank access.of access.value.bank }
    requires scalar { access.value.bank ≢ Scalar }
    requires wide { access.index.bank ≡ Wide }
    requires to { IsIn r.old.plain access.value }
    requires index { access.index.number < length r.old.plain.wide }
    requires mask { access.mask.number < length r.old.plain.masks }
    ensures done { OnTrue result ((number site : ℕ)
        → load_at (chunk_from (plain_of setting.entry.program.now) (launch_of setting.entry.launch.now) number
        setting.entry.first W)
        (standing r.old.plain group.now.kept (buffers_of buffers.now)) site access.of access.index access.value
        access.mask
        (reached (length setting.entry.program.now.locals.items) (launch_of setting.entry.launch.now) root)
        ≡ On (standing r.new.plain group.now.kept (buffers_of buffers.now))) }
    ensures kept { OnFalse result (r.new.plain ≡ r.old.plain) }
    ensures room { r.new.room ≡ r.old.room }
{
    let object = object_of(setting.program, setting.launch, root);
    match object {
        Object::Private(_) => false,
        Object::Buffer(_) | Object::Table(_) | Object::Local(_) | Object::Missing => {
            let bytes = bytes_of(object, group, buffers, setting.program);
            let fault = load_shared(r, bytes, access, tally);
            is_none(fault)
        }
    }
}

/// The store of a step, by the root that it names.
#[inline(always)]
pub(crate) fn store<const W: usize>(
    r: &Registers<W>,
    root: Root,
    access: Access,
    group: &mut Group,
    buffers: &mut Buffers,
    setting: Setting,
    tally: &mut Tally,
) -> Option<u32>
    requires lanes { W ≤ 64 }
    requires first { setting.first < 2 ^ 32 }
    requires root { MayWrite (length group.old.kept.privates) root }
    requires fits { FitsBank access.of access.value.bank }
    requires scalar { access.value.bank ≢ Scalar }
    requires bank { access.value.bank ≢ Mask }
    requires wide { access.index.bank ≡ Wide }
    requires from { IsIn r.now.plain access.value }
    requires index { access.index.number < length r.now.plain.wide }
    requires mask { access.mask.number < length r.now.plain.masks }
    ensures act { (number site : ℕ)
        → store_at (chunk_from (plain_of setting.entry.program.now) (launch_of setting.entry.launch.now) number
        setting.entry.first W)
        (standing r.now.plain group.old.kept (buffers_of buffers.old)) site access.of access.index access.value
        access.mask
        (reached (length setting.entry.program.now.locals.items) (launch_of setting.entry.launch.now) root)
        ≡ accessed site result (standing r.now.plain group.new.kept (buffers_of buffers.new)) }
    ensures number { group.new.number ≡ group.old.number }
{
    let object = object_of(setting.program, setting.launch, root);
    store_step(r, object, access, group, buffers, setting.first, tally)
}
