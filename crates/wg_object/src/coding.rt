//! An object as bytes, and back.

ghost use Rattle.std.specs.Prelude.{◌≡◌, ◌++◌, ◌∷◌, OnOk, IfOk, IfSome, IsSome, Some, drop};
ghost use Rattle.wg_object.specs.Plain.{PlainObject};
ghost use Rattle.wg_object.specs.View.{object_of};
ghost use Rattle.wg_object.specs.Reading as reading;
ghost use Rattle.wg_object.specs.Text as texts;
ghost use Rattle.wg_object.specs.Valid as valid;
ghost use Rattle.wg_object.specs.Views.{head_of, kept_of, tail_of, IsRead, Answers};

use crate::items::{put_list, take_list};
use crate::node_parts::node_at;
use crate::node_puts::put_node;
use crate::numbers::{width_number, width_of};
use crate::object::Object;
use crate::parts::{byte_at, eight_at, four_at};
use crate::puts::{eight, four, put, put_pieces};
use crate::tables::{put_tables, put_word, take_tables, take_word};
use cl_model::{Table, VarKind};
use lane_code::{GroupParts, GroupProgram, Node};
use std::alloc::Global;
use wg_num::{Memory, Place, Width, Word};

/// Why bytes are not read as an object.
#[derive(Clone, Copy, PartialEq, Eq, Debug)]
pub enum DecodeError {
    /// The bytes are the text of no object.
    NotObject,
    Memory,
}

/// The most nodes of an object inside one another that are read.
const DEPTH: u32 = 8_192;

// ---- writing

fn put_sizes(out: &mut Vec<u8>, sizes: Option<[u64; 3]>) -> Result<(), Memory>
    ensures put { OnOk result (out.new.items ≡ out.old.items ++ texts.sizes_text sizes) }
    ensures fits { valid.AreSizes sizes }
{
    match sizes {
        None => put(out, &[0]),
        Some(sizes) => put_pieces(
            out,
            &[&[1], &eight(sizes[0]), &eight(sizes[1]), &eight(sizes[2])],
        ),
    }
}

/// The letters, the name, the width and the parameters.
fn put_head(out: &mut Vec<u8>, object: &Object) -> Result<(), Memory>
    ensures put { OnOk result (out.new.items ≡ out.old.items ++ texts.head_text (object_of object.now)) }
    ensures kernel { OnOk result (valid.IsList valid.IsByte (object_of object.now).kernel) }
    ensures params { OnOk result (valid.IsList valid.IsKind (object_of object.now).params) }
{
    put(out, b"WGO1")?;
    put_word(out, object.group.kernel.bytes())?;
    put(out, &[width_number(object.group.width)])?;
    put_list(out, &object.group.params)
}

/// How many columns and slots it has.
fn put_numbers(out: &mut Vec<u8>, columns: u32, slots: u32) -> Result<(), Memory>
    ensures put { OnOk result (out.new.items ≡ out.old.items ++ (texts.four columns ++ texts.four slots)) }
    ensures fits { valid.IsFour columns × valid.IsFour slots }
{
    put_pieces(out, &[&four(columns), &four(slots)])
}

/// What it keeps in memory.
fn put_kept(out: &mut Vec<u8>, object: &Object) -> Result<(), Memory>
    ensures put { OnOk result (out.new.items ≡ out.old.items ++ texts.memory_text (object_of object.now)) }
    ensures tables { OnOk result (valid.IsList valid.IsTable (object_of object.now).tables) }
    ensures locals { OnOk result (valid.IsList valid.IsEight (object_of object.now).locals) }
    ensures privates { OnOk result (valid.IsList valid.IsEight (object_of object.now).privates) }
    ensures columns { OnOk result (valid.IsFour (object_of object.now).columns) }
    ensures slots { OnOk result (valid.IsFour (object_of object.now).slots) }
{
    let group = &object.group;
    put_tables(out, &group.tables)?;
    put_list(out, &group.locals)?;
    put_list(out, &group.privates)?;
    put_numbers(out, group.columns, group.slots)
}

/// The places, what it does, and the sizes.
fn put_tail(out: &mut Vec<u8>, object: &Object) -> Result<(), Memory>
    ensures put { OnOk result (out.new.items ≡ out.old.items ++ texts.tail_text (object_of object.now)) }
    ensures sites { OnOk result (valid.IsList valid.IsPlace (object_of object.now).sites) }
    ensures top { OnOk result (valid.IsWork (object_of object.now).top) }
    ensures sizes { OnOk result (valid.AreSizes (object_of object.now).sizes) }
{
    put_list(out, &object.group.sites)?;
    put_node(out, &object.group.top)?;
    put_sizes(out, object.sizes)
}

/// The text of an object.
pub fn encode(alloc: Global, object: &Object) -> Result<Vec<u8>, Memory>
    ensures { IfOk result (λ v. valid.IsObjectOf v.items (object_of object.now)) }
{
    let mut out = Vec::new(alloc);
    put_head(&mut out, object)?;
    put_kept(&mut out, object)?;
    put_tail(&mut out, object)?;
    Ok(out)
}

// ---- reading

#[derive(Drop)]
struct Head {
    kernel: Word,
    width: Width,
    params: Vec<VarKind>,
}

#[derive(Drop)]
struct Kept {
    tables: Vec<Table>,
    locals: Vec<u64>,
    privates: Vec<u64>,
    columns: u32,
    slots: u32,
}

#[derive(Drop)]
struct Tail {
    sites: Vec<Place>,
    top: Node,
    sizes: Option<[u64; 3]>,
}

/// What stands behind the first four bytes.
fn behind_letters(bytes: &[u8]) -> &[u8]
    ensures { result.now ≡ drop 4 bytes.now }
{
    if bytes.len() < 4 { &[] } else { &bytes[4..] }
}

#[tactic(auto, unfolding(crate::specs::Reading::head_at))]
fn head_at(alloc: Global, bytes: &[u8]) -> Result<(Head, &[u8]), Memory>
    ensures { IfOk result (λ x. (head_of x.0, x.1.now) ≡ reading.head_at bytes.now) }
{
    let rest = behind_letters(bytes);
    let (kernel, rest) = take_word(alloc, rest)?;
    let (width, rest) = byte_at(rest);
    let (params, rest) = take_list::<VarKind>(alloc, rest)?;
    let width = width_of(width);
    Ok((
        Head {
            kernel,
            width,
            params,
        },
        rest,
    ))
}

#[tactic(auto, unfolding(crate::specs::Reading::kept_at))]
fn kept_at(alloc: Global, bytes: &[u8]) -> Result<(Kept, &[u8]), Memory>
    ensures { IfOk result (λ x. (kept_of x.0, x.1.now) ≡ reading.kept_at bytes.now) }
{
    let (tables, rest) = take_tables(alloc, bytes)?;
    let (locals, rest) = take_list::<u64>(alloc, rest)?;
    let (privates, rest) = take_list::<u64>(alloc, rest)?;
    let (columns, rest) = four_at(rest);
    let (slots, rest) = four_at(rest);
    Ok((
        Kept {
            tables,
            locals,
            privates,
            columns,
            slots,
        },
        rest,
    ))
}

#[tactic(auto, unfolding(crate::specs::Reading::sizes_at, crate::specs::Reading::three_numbers_at))]
fn sizes_at(bytes: &[u8]) -> Option<[u64; 3]>
    ensures { result ≡ reading.sizes_at bytes.now }
{
    let (number, rest) = byte_at(bytes);
    if number == 1 {
        let (x, rest) = eight_at(rest);
        let (y, rest) = eight_at(rest);
        let (z, _rest) = eight_at(rest);
        return Some([x, y, z]);
    }
    None
}

#[tactic(auto, unfolding(crate::specs::Reading::tail_at))]
fn tail_at(alloc: Global, bytes: &[u8]) -> Result<Tail, Memory>
    ensures { IfOk result (λ t. Some (tail_of t) ≡ reading.tail_at DEPTH bytes.now) }
{
    let (sites, rest) = take_list::<Place>(alloc, bytes)?;
    let (top, rest) = node_at(alloc, DEPTH, rest)?;
    let sizes = sizes_at(rest);
    let top = Box::into_inner(top);
    Ok(Tail { sites, top, sizes })
}

/// The parts of an object that were read, where they are one.
fn object_from(head: Head, kept: Kept, tail: Tail) -> Option<Object>
    ensures some { valid.IsObject (reading.object_from (head_of head) (kept_of kept) (tail_of tail)) → IsSome result }
    ensures object { IfSome result (λ o. object_of o ≡
        reading.object_from (head_of head) (kept_of kept) (tail_of tail)) }
{
    let Head {
        kernel,
        width,
        params,
    } = head;
    let Kept {
        tables,
        locals,
        privates,
        columns,
        slots,
    } = kept;
    let Tail { sites, top, sizes } = tail;
    let parts = GroupParts {
        kernel,
        width,
        params,
        tables,
        locals,
        privates,
        columns,
        slots,
        sites,
        top,
    };
    match parts.checked() {
        Some(group) => Object::new(group, sizes),
        None => None,
    }
}

/// What the bytes say, where that is an object; `None` where it is none.
#[tactic(auto, unfolding(crate::specs::Reading::object_at))]
fn object_at(alloc: Global, bytes: &[u8]) -> Result<Option<Object>, Memory>
    ensures { IfOk result (λ found. IsRead found (reading.object_at DEPTH bytes.now)) }
{
    let (head, rest) = head_at(alloc, bytes)?;
    let (kept, rest) = kept_at(alloc, rest)?;
    let tail = tail_at(alloc, rest)?;
    Ok(object_from(head, kept, tail))
}

/// The object whose text the bytes are. `NotObject` comes exactly where they are the text of none.
/// What the bytes say is read from the front, what is missing as 0; then it is written again and
/// compared, so that only the text of an object is taken. Nodes nest at most 8,192 deep: `Memory`
/// comes also where they nest deeper.
pub fn decode(alloc: Global, bytes: &[u8]) -> Result<Object, DecodeError>
    ensures found { IfOk result (λ o. valid.IsObjectOf bytes.now (object_of o)) }
    ensures only { (o : PlainObject) → valid.IsObjectOf bytes.now o → Answers o result }
{
    let object = match object_at(alloc, bytes) {
        Ok(Some(object)) => object,
        Ok(None) => return Err(DecodeError::NotObject),
        Err(Memory) => return Err(DecodeError::Memory),
    };
    match encode(alloc, &object) {
        Ok(text) => {
            if text.as_slice() == bytes {
                Ok(object)
            } else {
                drop(object);
                Err(DecodeError::NotObject)
            }
        }
        Err(Memory) => {
            drop(object);
            Err(DecodeError::Memory)
        }
    }
}
