// What a program of a work-group may ask of the machine. An object file can ask for 2^32 registers in a few bytes,
// and where the system grants more memory than it has, it would end the program. That no compiled kernel asks for
// so much is not proved.

ghost use Rattle.std.specs.Prelude.{◌≡◌};
ghost use Rattle.lane_code.specs.Program.{work_of};
ghost use Rattle.lane_code.specs.View.{plain_of};
ghost use Rattle.wg_top.specs.Guard as spec;

use lane_code::{Counts, GroupProgram, Node};

// The most registers of a bank, in the largest codes of all launches of a file together.
const REGISTERS_MOST: usize = 4_194_304;

// The most columns, and the most slots.
const CELLS_MOST: u32 = 65_536;

/// How many registers of a bank a code may have in a file with so many launches, each of which has registers of its
/// own: 2^22, shared evenly.
pub(crate) fn share_of(launches: usize) -> usize
    ensures { result ≡ spec.share_of launches }
{
    if launches == 0 {
        REGISTERS_MOST
    } else {
        REGISTERS_MOST / launches
    }
}

// Whether a code has at most so many registers of each bank.
fn has_few(most: usize, counts: Counts) -> bool
    ensures { result ≡ spec.has_few most counts }
{
    counts.narrow as usize <= most
        && counts.wide as usize <= most
        && counts.masks as usize <= most
        && counts.scalars as usize <= most
}

// Whether each code of each of the nodes has few registers.
#[cycle(few)]
fn have_few(most: usize, nodes: &Vec<Node>) -> bool
    ensures { result ≡ spec.have_few most nodes.now.items }
{
    for one in nodes {
        if !has_few_in(most, one) {
            return false;
        }
    }
    true
}

// Whether each code of the node has few registers.
#[cycle(few)]
fn has_few_in(most: usize, node: &Node) -> bool
    ensures { result ≡ spec.has_few_in most (work_of node.now) }
{
    match node {
        Node::Items(code) => has_few(most, code.counts),
        Node::Seq(nodes) => have_few(most, nodes),
        Node::Vote {
            test,
            yes,
            no,
            mixed,
        } => {
            has_few(most, test.counts)
                && has_few(most, mixed.counts)
                && has_few_in(most, yes)
                && has_few_in(most, no)
        }
        Node::Loop {
            test,
            body,
            rest,
            ..
        } => has_few(most, rest.counts) && has_few_in(most, test) && has_few_in(most, body),
    }
}

/// Whether the program asks for no more registers, columns and slots than it may: so many registers of a bank in a
/// code, and 65,536 columns and as many slots.
pub(crate) fn is_within(most: usize, group: &GroupProgram) -> bool
    ensures { result ≡ spec.is_within most (plain_of group.now) }
{
    group.columns <= CELLS_MOST && group.slots <= CELLS_MOST && has_few_in(most, &group.top)
}
