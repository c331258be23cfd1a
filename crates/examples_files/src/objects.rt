//! A small object, and bytes that are nearly one.

use cl_model::{Array, Root, Space, Table, VarKind};
use lane_code::{Bank, Code, GroupParts, Node, Reg, Step};
use std::alloc::Global;
use std::test::Fail;
use wg_num::{IntType, Place, Width, Word};
use wg_object::{DecodeError, Object, decode, encode, shell};

const V0: Reg = Reg {
    bank: Bank::Narrow,
    number: 0,
};

const W0: Reg = Reg {
    bank: Bank::Wide,
    number: 0,
};

const M0: Reg = Reg {
    bank: Bank::Mask,
    number: 0,
};

/// One access to the first parameter, at element -2.
fn steps(alloc: Global) -> Option<Vec<Step>> {
    let index = Step::Const {
        to: W0,
        of: IntType::Long,
        value: -2,
    };
    let load = Step::Load {
        site: 0,
        of: IntType::Int,
        root: Root::Param(0),
        index: W0,
        to: V0,
        mask: M0,
    };
    let store = Step::Store {
        site: 1,
        of: IntType::Int,
        root: Root::Param(0),
        index: W0,
        from: V0,
        mask: M0,
    };
    vec![in alloc; index, load, store].ok()
}

/// A constant table of two bytes.
fn table(alloc: Global) -> Option<Table> {
    let dims = vec![in alloc; 2].ok()?;
    let bytes = b"ab".to_vec(alloc).ok()?;
    let name = Word::new(alloc, b"t").ok()?;
    let array = Array {
        name,
        space: Space::Constant,
        element: IntType::Char,
        dims,
        place: Place { line: 9, column: 9 },
    };
    Some(Table { array, bytes })
}

/// The program of a kernel `inc` of one pointer, with one region.
fn parts(alloc: Global) -> Option<GroupParts> {
    let pointer = VarKind::Pointer {
        space: Space::Global,
        element: IntType::Int,
        root: Root::Param(0),
    };
    let load = Place { line: 1, column: 2 };
    let store = Place { line: 3, column: 4 };
    let kernel = Word::new(alloc, b"inc").ok()?;
    let params = vec![in alloc; pointer].ok()?;
    let tables = vec![in alloc; table(alloc)?].ok()?;
    let sites = vec![in alloc; load, store].ok()?;
    let code = Code::new(steps(alloc)?)?;
    let top = Node::Seq(vec![in alloc; Node::Items(code)].ok()?);
    Some(GroupParts {
        kernel,
        width: Width::W8,
        params,
        tables,
        locals: Vec::new(alloc),
        privates: Vec::new(alloc),
        columns: 0,
        slots: 0,
        sites,
        top,
    })
}

/// An object with that program, whose kernel requires groups of four work-items.
pub(crate) fn small(alloc: Global) -> Option<Object> {
    let group = parts(alloc)?.checked()?;
    Object::new(group, Some([4, 1, 1]))
}

/// The text of that object.
fn small_text(alloc: Global) -> Option<Vec<u8>> {
    let object = small(alloc)?;
    encode(alloc, &object).ok()
}

/// Whether the bytes are the text of no object.
fn is_no_object(alloc: Global, bytes: &[u8]) -> bool {
    matches!(decode(alloc, bytes), Err(DecodeError::NotObject))
}

/// The text of the object that the bytes are the text of.
fn text_again(alloc: Global, bytes: &[u8]) -> Option<Vec<u8>> {
    let object = decode(alloc, bytes).ok()?;
    encode(alloc, &object).ok()
}

#[test]
fn what_was_written_is_read(rt: HostRuntime) -> Result<(), Fail> {
    let text = small_text(rt.alloc()).ok_or("a text")?;
    let again = text_again(rt.alloc(), &text).ok_or("a text again")?;
    assert_eq!(rt; text.len(), 259);
    assert!(rt; text.as_slice() == again.as_slice());
    Ok(())
}

#[test]
fn no_other_length_is_read(rt: HostRuntime) -> Result<(), Fail> {
    let mut text = small_text(rt.alloc()).ok_or("a text")?;
    for n in 0..text.len() {
        assert!(rt; is_no_object(rt.alloc(), &text[..n]), "at {n}");
    }
    text.push(0)?;
    assert!(rt; is_no_object(rt.alloc(), &text));
    Ok(())
}

/// The bytes with a count of 2^64 - 1 at that place.
fn with_greatest_count(alloc: Global, bytes: &[u8], place: usize) -> Option<Vec<u8>> {
    if bytes.len() < 8 || bytes.len() - 8 < place {
        return None;
    }
    let (front, rest) = bytes.split_at(place);
    let (_count, behind) = rest.split_at(8);
    let mut all = Vec::new(alloc);
    all.extend_from_slice(front).ok()?;
    all.extend_from_slice(&[255; 8]).ok()?;
    all.extend_from_slice(behind).ok()?;
    Some(all)
}

/// Where the counts of the text stand: of the kernel's name, the parameters, the tables, the name, lengths and bytes of
/// the table, the local and private arrays, the sites, the nodes and the steps.
const COUNTS: [usize; 11] = [4, 16, 32, 40, 51, 75, 85, 93, 109, 134, 143];

#[test]
fn greatest_counts_are_refused(rt: HostRuntime) -> Result<(), Fail> {
    let text = small_text(rt.alloc()).ok_or("a text")?;
    for place in COUNTS {
        let bytes = with_greatest_count(rt.alloc(), &text, place).ok_or("bytes")?;
        assert!(rt; is_no_object(rt.alloc(), &bytes), "at {place}");
    }
    Ok(())
}

/// The code of no steps, and no nodes.
const NO_STEPS: [u8; 24] = [
    0, 0, 0, 0, 0, 0, 0, 0, 0, 0, 0, 0, 0, 0, 0, 0, 1, 0, 0, 0, 0, 0, 0, 0,
];

const NO_NODES: [u8; 9] = [1, 0, 0, 0, 0, 0, 0, 0, 0];

/// Puts pieces so often behind a text.
fn repeat(text: &mut Vec<u8>, pieces: &[&[u8]], times: usize) -> Option<()> {
    for _ in 0..times {
        for piece in pieces {
            text.extend_from_slice(piece).ok()?;
        }
    }
    Some(())
}

/// The text of an object with so many nodes, each in the one before, where these bytes stand before and behind a node
/// in another.
fn nested(alloc: Global, times: usize, before: &[&[u8]], behind: &[&[u8]]) -> Option<Vec<u8>> {
    let mut text = Vec::new(alloc);
    text.extend_from_slice(b"WGO1").ok()?;
    text.extend_from_slice(&[0; 57]).ok()?;
    repeat(&mut text, before, times)?;
    text.extend_from_slice(&NO_NODES).ok()?;
    repeat(&mut text, behind, times)?;
    text.push(0).ok()?;
    Some(text)
}

/// Sequences in one another.
fn sequences(alloc: Global, times: usize) -> Option<Vec<u8>> {
    nested(alloc, times, &[&[1, 1, 0, 0, 0, 0, 0, 0, 0]], &[])
}

/// Whether the text is read, and written again as it is.
fn is_kept(alloc: Global, text: &[u8]) -> bool {
    match text_again(alloc, text) {
        Some(again) => again.as_slice() == text,
        None => false,
    }
}

#[test]
fn deep_sequences_are_read(rt: HostRuntime) -> Result<(), Fail> {
    let text = sequences(rt.alloc(), 8_191).ok_or("a text")?;
    assert!(rt; is_kept(rt.alloc(), &text));
    let deeper = sequences(rt.alloc(), 1_000_000).ok_or("a text")?;
    assert!(rt; matches!(decode(rt.alloc(), &deeper), Err(DecodeError::Memory)));
    Ok(())
}

#[test]
fn deep_votes_are_read(rt: HostRuntime) -> Result<(), Fail> {
    let before: [&[u8]; 2] = [&[2], &NO_STEPS];
    let behind: [&[u8]; 2] = [&NO_NODES, &NO_STEPS];
    let text = nested(rt.alloc(), 8_191, &before, &behind).ok_or("a text")?;
    assert!(rt; is_kept(rt.alloc(), &text));
    Ok(())
}

#[test]
fn deep_loops_are_read(rt: HostRuntime) -> Result<(), Fail> {
    let before: [&[u8]; 2] = [&[3, 1], &NO_NODES];
    let text = nested(rt.alloc(), 8_191, &before, &[&NO_STEPS]).ok_or("a text")?;
    assert!(rt; is_kept(rt.alloc(), &text));
    Ok(())
}

#[test]
fn a_shell_has_the_kernel_alone(rt: HostRuntime) -> Result<(), Fail> {
    let object = small(rt.alloc()).ok_or("an object")?;
    let program = shell(rt.alloc(), &object).ok().ok_or("a program")?;
    assert_eq!(rt; (program.functions.len(), program.kernel), (1, 0));
    Ok(())
}
