//! The bytes of codes and nodes.

ghost use Rattle.std.specs.Prelude.{◌≡◌, ◌++◌, OnOk, true};
ghost use Rattle.lane_code.specs.Program.{code_of, work_of};
ghost use Rattle.lane_code.specs.Fits.{is_code};
ghost use Rattle.wg_object.specs.Text as texts;
ghost use Rattle.wg_object.specs.Nodes as nodes;
ghost use Rattle.wg_object.specs.Valid as valid;

use crate::items::put_list;
use crate::numbers::truth_number;
use crate::puts::{eight, four, put, put_pieces};
use lane_code::{Code, Counts, Node};
use wg_num::Memory;

fn put_counts(out: &mut Vec<u8>, counts: Counts) -> Result<(), Memory>
    ensures put { OnOk result (out.new.items ≡ out.old.items ++ texts.counts_text counts) }
    ensures fits { valid.AreCounts counts }
{
    put_pieces(
        out,
        &[
            &four(counts.narrow),
            &four(counts.wide),
            &four(counts.masks),
            &four(counts.scalars),
        ],
    )
}

/// Puts a code: its steps, and how many registers of each bank it has.
fn put_code(out: &mut Vec<u8>, code: &Code) -> Result<(), Memory>
    ensures put { OnOk result (out.new.items ≡ out.old.items ++ texts.code_text (code_of code.now)) }
    ensures fits { OnOk result (valid.IsCode (code_of code.now)) }
{
    put_list(out, &code.steps)?;
    put_counts(out, code.counts)
}

/// Puts nodes one behind the other.
#[cycle(node)]
fn put_nodes(out: &mut Vec<u8>, list: &Vec<Node>) -> Result<(), Memory>
    ensures put { OnOk result (out.new.items ≡ out.old.items ++ nodes.nodes_text list.now.items) }
    ensures fits { OnOk result (nodes.AreNodes list.now.items) }
{
    for one in list {
        put_node(out, one)?;
    }
    Ok(())
}

/// Puts a node: its number, and what is in it.
#[cycle(node)]
pub(crate) fn put_node(out: &mut Vec<u8>, node: &Node) -> Result<(), Memory>
    ensures put { OnOk result (out.new.items ≡ out.old.items ++ texts.work_text (work_of node.now)) }
    ensures fits { OnOk result (valid.IsWork (work_of node.now)) }
{
    match node {
        Node::Items(code) => {
            put(out, &[0])?;
            put_code(out, code)
        }
        Node::Seq(list) => {
            put_pieces(out, &[&[1], &eight(list.len() as u64)])?;
            put_nodes(out, list)
        }
        Node::Vote {
            test,
            yes,
            no,
            mixed,
        } => {
            put(out, &[2])?;
            put_code(out, test)?;
            put_node(out, yes)?;
            put_node(out, no)?;
            put_code(out, mixed)
        }
        Node::Loop {
            test_first,
            test,
            body,
            rest,
        } => {
            put(out, &[3, truth_number(*test_first)])?;
            put_node(out, test)?;
            put_node(out, body)?;
            put_code(out, rest)
        }
    }
}
