//! The listing of a group program.

ghost use Rattle.std.specs.Prelude.{◌≡◌, ◌++◌, OnOk, IfOk};
ghost use Rattle.lane_code.specs.Listing.{deeper, line_text, step_line, code_text, part_text, named_text};
ghost use Rattle.lane_code.specs.Listing.{nodes_text, loop_name, work_text, listing_text};
ghost use Rattle.lane_code.specs.Program.{work_of, code_of};
ghost use Rattle.wg_num.specs.Operators.{lanes_of};
ghost use Rattle.lane_code.specs.View.{plain_of};

use crate::code::{Code, Node};
use crate::program::GroupProgram;
use crate::step::Step;
use crate::text::{put, put_pieces, put_step};
use itoa::Buffer;
use std::alloc::Global;
use wg_num::{Memory, lanes_of};

/// The indentation one depth further in.
fn further(alloc: Global, indent: &[u8]) -> Result<Vec<u8>, Memory>
    ensures { IfOk result (λ v. v.items ≡ deeper indent.now) }
{
    let mut text = Vec::new(alloc);
    put(&mut text, indent)?;
    put(&mut text, b"  ")?;
    Ok(text)
}

/// Puts a line.
fn put_line(out: &mut Vec<u8>, indent: &[u8], text: &[u8]) -> Result<(), Memory>
    ensures { OnOk result (out.new.items ≡ out.old.items ++ line_text indent.now text.now) }
{
    put_pieces(out, &[indent, text, b"\n"])
}

/// Puts the line of a step.
fn put_step_line(out: &mut Vec<u8>, indent: &[u8], number: usize, step: Step) -> Result<(), Memory>
    ensures { OnOk result (out.new.items ≡ out.old.items ++ step_line indent.now number step) }
{
    let mut buffer = Buffer::new();
    put_pieces(out, &[indent, buffer.format(number).as_bytes(), b" "])?;
    put_step(out, step)?;
    put(out, b"\n")?;
    Ok(())
}

/// Puts the steps of a code.
fn put_code(out: &mut Vec<u8>, indent: &[u8], code: &Code) -> Result<(), Memory>
    ensures { OnOk result (out.new.items ≡ out.old.items ++ code_text indent.now (code_of code.now)) }
{
    for i in 0..code.steps.len() {
        put_step_line(out, indent, i, code.steps[i])?;
    }
    Ok(())
}

/// Puts a named code, one depth further in.
fn put_part(
    alloc: Global,
    out: &mut Vec<u8>,
    indent: &[u8],
    word: &[u8],
    code: &Code,
) -> Result<(), Memory>
    ensures { OnOk result (out.new.items ≡ out.old.items ++ part_text indent.now word.now (code_of code.now)) }
{
    let inner = further(alloc, indent)?;
    put_line(out, indent, word)?;
    put_code(out, &inner, code)?;
    Ok(())
}

/// Puts a named node, one depth further in.
#[cycle(node)]
fn put_branch(
    alloc: Global,
    out: &mut Vec<u8>,
    indent: &[u8],
    word: &[u8],
    node: &Node,
) -> Result<(), Memory>
    ensures { OnOk result (out.new.items ≡ out.old.items ++
        named_text indent.now word.now (work_text (deeper indent.now) (work_of node.now))) }
{
    let inner = further(alloc, indent)?;
    put_line(out, indent, word)?;
    put_node(alloc, out, &inner, node)?;
    Ok(())
}

/// Puts nodes one behind the other.
#[cycle(node)]
fn put_nodes(
    alloc: Global,
    out: &mut Vec<u8>,
    indent: &[u8],
    nodes: &Vec<Node>,
) -> Result<(), Memory>
    ensures { OnOk result (out.new.items ≡ out.old.items ++ nodes_text indent.now nodes.now.items) }
{
    for one in nodes {
        put_node(alloc, out, indent, one)?;
    }
    Ok(())
}

/// Puts what a group does.
#[cycle(node)]
fn put_node(alloc: Global, out: &mut Vec<u8>, indent: &[u8], node: &Node) -> Result<(), Memory>
    ensures { OnOk result (out.new.items ≡ out.old.items ++ work_text indent.now (work_of node.now)) }
{
    let inner = further(alloc, indent)?;
    match node {
        Node::Items(code) => {
            put_part(alloc, out, indent, b"items", code)?;
            Ok(())
        }
        Node::Seq(nodes) => {
            put_line(out, indent, b"seq")?;
            put_nodes(alloc, out, &inner, nodes)?;
            Ok(())
        }
        Node::Vote {
            test,
            yes,
            no,
            mixed,
        } => {
            put_line(out, indent, b"vote")?;
            put_part(alloc, out, &inner, b"test", test)?;
            put_branch(alloc, out, &inner, b"yes", yes)?;
            put_branch(alloc, out, &inner, b"no", no)?;
            put_part(alloc, out, &inner, b"mixed", mixed)?;
            Ok(())
        }
        Node::Loop {
            test_first,
            test,
            body,
            rest,
        } => {
            put_line(out, indent, loop_word(*test_first))?;
            put_branch(alloc, out, &inner, b"test", test)?;
            put_branch(alloc, out, &inner, b"body", body)?;
            put_part(alloc, out, &inner, b"rest", rest)?;
            Ok(())
        }
    }
}

/// The word for a loop whose test comes first or behind its body.
fn loop_word(test_first: bool) -> &'static [u8]
    ensures { result.now ≡ loop_name test_first }
{
    if test_first { b"loop" } else { b"loop after" }
}

/// The text of the program: the kernel's name and the width of a chunk, then what a group does, one
/// line for each node and each step, indented by two blanks per depth.
pub fn listing(alloc: Global, program: &GroupProgram) -> Result<Vec<u8>, Memory>
    ensures { IfOk result (λ v. v.items ≡ listing_text program.now.kernel (plain_of program.now)) }
{
    let mut out = Vec::new(alloc);
    let mut buffer = Buffer::new();
    let width = buffer.format(lanes_of(program.width)).as_bytes();
    put_pieces(
        &mut out,
        &[
            b"kernel ",
            program.kernel.bytes(),
            b", width ",
            width,
            b"\n",
        ],
    )?;
    put_node(alloc, &mut out, b"", &program.top)?;
    Ok(out)
}
