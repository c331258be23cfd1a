//! Codes and nodes at the front of bytes.

ghost use Rattle.std.specs.Prelude.{◌≡◌, ◌++◌, ◌∷◌, [], Some, IfOk, OnOk};
ghost use Rattle.lane_code.specs.Program.{code_of, work_of, Seq};
ghost use Rattle.wg_object.specs.Nodes.{works_in};
ghost use Rattle.wg_object.specs.Reading as spec;

use crate::items::take_list;
use crate::numbers::truth_of;
use crate::parts::{byte_at, eight_at, four_at};
use lane_code::{Code, Counts, Node, Step};
use std::alloc::Global;
use wg_num::{Memory, boxed, push};

#[tactic(auto, unfolding(crate::specs::Reading::counts_at))]
fn counts_at(bytes: &[u8]) -> (Counts, &[u8])
    ensures { (result.0, result.1.now) ≡ spec.counts_at bytes.now }
{
    let (narrow, rest) = four_at(bytes);
    let (wide, rest) = four_at(rest);
    let (masks, rest) = four_at(rest);
    let (scalars, rest) = four_at(rest);
    (
        Counts {
            narrow,
            wide,
            masks,
            scalars,
        },
        rest,
    )
}

/// The code of no steps.
fn no_code(alloc: Global) -> Code
    ensures { code_of result ≡ spec.no_code }
{
    match Code::new(Vec::new(alloc)) {
        Some(code) => code,
        None => unreachable!(),
    }
}

/// These steps where they are a code, and else none.
fn code_with(alloc: Global, counts: Counts, steps: Vec<Step>) -> Code
    ensures { code_of result ≡ spec.code_with counts steps.items }
{
    match Code::with_counts(steps, counts) {
        Some(code) => code,
        None => no_code(alloc),
    }
}

/// A code: its steps, and how many registers of each bank it has.
#[tactic(auto, unfolding(crate::specs::Reading::code_at))]
fn code_at(alloc: Global, bytes: &[u8]) -> Result<(Code, &[u8]), Memory>
    ensures { IfOk result (λ x. (code_of x.0, x.1.now) ≡ spec.code_at bytes.now) }
{
    let (steps, rest) = take_list::<Step>(alloc, bytes)?;
    let (counts, rest) = counts_at(rest);
    let code = code_with(alloc, counts, steps);
    Ok((code, rest))
}

// ---- nodes; what is made of parts is made by calls of their own, so that what nests takes little of the stack

/// One node more at the end of a list.
#[inline(never)]
fn push_node(nodes: &mut Vec<Node>, node: Box<Node>) -> Result<(), Memory>
    ensures { OnOk result (nodes.new.items ≡ nodes.old.items ++ node.value ∷ []) }
{
    push(nodes, Box::into_inner(node))
}

/// The nodes one behind the other.
#[inline(never)]
fn seq_made(alloc: Global, nodes: Vec<Node>) -> Result<Box<Node>, Memory>
    ensures { IfOk result (λ node. work_of node.value ≡ Seq (works_in nodes.items)) }
{
    boxed(alloc, Node::Seq(nodes))
}

/// A code behind a box.
#[inline(never)]
fn boxed_code_at(alloc: Global, bytes: &[u8]) -> Result<(Box<Code>, &[u8]), Memory>
    ensures { IfOk result (λ x. (code_of x.0.value, x.1.now) ≡ spec.code_at bytes.now) }
{
    let (code, rest) = code_at(alloc, bytes)?;
    let code = boxed(alloc, code)?;
    Ok((code, rest))
}

/// A vote of which all is read but the last code.
#[inline(never)]
fn vote_made(
    alloc: Global,
    test: Box<Code>,
    yes: Box<Node>,
    no: Box<Node>,
    bytes: &[u8],
) -> Result<(Box<Node>, &[u8]), Memory>
    ensures { IfOk result (λ x. (work_of x.0.value, x.1.now) ≡
        spec.vote_made (code_of test.value) (work_of yes.value) (work_of no.value) bytes.now) }
{
    let (mixed, rest) = code_at(alloc, bytes)?;
    let test = Box::into_inner(test);
    let node = Node::Vote {
        test,
        yes,
        no,
        mixed,
    };
    let node = boxed(alloc, node)?;
    Ok((node, rest))
}

/// A loop of which all is read but the code.
#[inline(never)]
fn loop_made(
    alloc: Global,
    test_first: bool,
    test: Box<Node>,
    body: Box<Node>,
    bytes: &[u8],
) -> Result<(Box<Node>, &[u8]), Memory>
    ensures { IfOk result (λ x. (work_of x.0.value, x.1.now) ≡
        spec.loop_made test_first (work_of test.value) (work_of body.value) bytes.now) }
{
    let (rest, after) = code_at(alloc, bytes)?;
    let node = Node::Loop {
        test_first,
        test,
        body,
        rest,
    };
    let node = boxed(alloc, node)?;
    Ok((node, after))
}

/// A node of one code.
#[inline(never)]
#[tactic(auto, unfolding(crate::specs::Reading::items_work_at))]
fn items_at(alloc: Global, bytes: &[u8]) -> Result<(Box<Node>, &[u8]), Memory>
    ensures { IfOk result (λ x. Some (work_of x.0.value, x.1.now) ≡ spec.items_work_at bytes.now) }
{
    let (code, rest) = code_at(alloc, bytes)?;
    let node = boxed(alloc, Node::Items(code))?;
    Ok((node, rest))
}

/// So many nodes, fewer where the bytes end.
#[cycle(node)]
fn nodes_at(
    alloc: Global,
    depth: u32,
    count: u64,
    bytes: &[u8],
) -> Result<(Vec<Node>, &[u8]), Memory>
    ensures { IfOk result (λ x. Some (works_in x.0.items, x.1.now) ≡
        spec.works_at (spec.work_at depth) count bytes.now) }
{
    let mut nodes = Vec::new(alloc);
    let mut rest = bytes;
    for _ in 0..count {
        if rest.is_empty() {
            return Ok((nodes, rest));
        }
        let (node, after) = node_at(alloc, depth, rest)?;
        push_node(&mut nodes, node)?;
        rest = after;
    }
    Ok((nodes, rest))
}

#[cycle(node)]
#[inline(never)]
#[tactic(auto, unfolding(crate::specs::Reading::seq_at))]
fn seq_at(alloc: Global, depth: u32, bytes: &[u8]) -> Result<(Box<Node>, &[u8]), Memory>
    ensures { IfOk result (λ x. Some (work_of x.0.value, x.1.now) ≡ spec.seq_at (spec.work_at depth) bytes.now) }
{
    let (count, rest) = eight_at(bytes);
    let (nodes, rest) = nodes_at(alloc, depth, count, rest)?;
    let node = seq_made(alloc, nodes)?;
    Ok((node, rest))
}

#[cycle(node)]
#[inline(never)]
#[tactic(auto, unfolding(crate::specs::Reading::vote_at))]
fn vote_at(alloc: Global, depth: u32, bytes: &[u8]) -> Result<(Box<Node>, &[u8]), Memory>
    ensures { IfOk result (λ x. Some (work_of x.0.value, x.1.now) ≡ spec.vote_at (spec.work_at depth) bytes.now) }
{
    let (test, rest) = boxed_code_at(alloc, bytes)?;
    let (yes, rest) = node_at(alloc, depth, rest)?;
    let (no, rest) = node_at(alloc, depth, rest)?;
    vote_made(alloc, test, yes, no, rest)
}

#[cycle(node)]
#[inline(never)]
#[tactic(auto, unfolding(crate::specs::Reading::loop_at))]
fn loop_at(alloc: Global, depth: u32, bytes: &[u8]) -> Result<(Box<Node>, &[u8]), Memory>
    ensures { IfOk result (λ x. Some (work_of x.0.value, x.1.now) ≡ spec.loop_at (spec.work_at depth) bytes.now) }
{
    let (first, rest) = byte_at(bytes);
    let test_first = truth_of(first);
    let (test, rest) = node_at(alloc, depth, rest)?;
    let (body, rest) = node_at(alloc, depth, rest)?;
    loop_made(alloc, test_first, test, body, rest)
}

/// A node, with at most so many nodes inside one another, itself among them; `Memory` also where
/// there are more.
#[cycle(node)]
pub(crate) fn node_at(alloc: Global, depth: u32, bytes: &[u8]) -> Result<(Box<Node>, &[u8]), Memory>
    ensures { IfOk result (λ x. Some (work_of x.0.value, x.1.now) ≡ spec.work_at depth bytes.now) }
{
    if depth == 0 {
        return Err(Memory);
    }
    let inner = depth - 1;
    let (number, rest) = byte_at(bytes);
    if number == 1 {
        return seq_at(alloc, inner, rest);
    }
    if number == 2 {
        return vote_at(alloc, inner, rest);
    }
    if number == 3 {
        return loop_at(alloc, inner, rest);
    }
    items_at(alloc, rest)
}
