//! Nodes, and lists of parts, with their heights.

ghost use Rattle.std.specs.Prelude.{◌≡◌, ◌<◌, ◌-◌, ◌^◌, min, IfOk, nat_le, []};
ghost use Rattle.cl_tree.specs.Syntax.{view, views, nesting, deepest, joined, first_of, last_of, first_in};
ghost use Rattle.cl_tree.specs.Syntax.{last_in};
ghost use Rattle.cl_tree.specs.Nodes.{tree_of, spelled, first_spot, last_spot, word_node, pair_node, forest1, forest2};
ghost use Rattle.cl_tree.specs.Nodes.{forest3};
ghost use Rattle.cl_read.specs.Gives.{spots, spot_of};
ghost use Rattle.cl_read.specs.Reading.{is_unary};

use cl_tree::{Form, Leaf, Tree};
use std::alloc::{AllocError, Global};
use wg_num::Word;

/// A tree, with its nesting as far as 32 bits count it.
#[derive(Drop)]
pub struct Node {
    pub tree: Tree,
    height: u32,
    ghost measured: { height ≡ min (nesting (view tree)) 4294967295 },
}

/// Trees in order, with the greatest of their nestings.
#[derive(Drop)]
pub struct Nodes {
    pub trees: Vec<Tree>,
    height: u32,
    ghost measured: { height ≡ min (deepest (views trees.items)) 4294967295 },
}

impl Nodes {
    /// No trees.
    pub fn new(alloc: Global) -> Nodes
        ensures { result.trees.items ≡ [] }
    {
        Nodes {
            trees: Vec::new(alloc),
            height: 0,
        }
    }
}

/// The trees, and this one behind them.
#[tactic(auto, using(crate::proofs::Views::deepest_pushed, crate::proofs::Views::views_pushed))]
pub fn push(nodes: Nodes, node: Node) -> Result<Nodes, AllocError>
    ensures { IfOk result (λ x. views x.trees.items ≡ joined (views nodes.trees.items) (forest1 (view node.tree))) }
{
    let Nodes { mut trees, height } = nodes;
    let most = height.max(node.height);
    trees.push(node.tree)?;
    Ok(Nodes {
        trees,
        height: most,
    })
}

/// The trees of the one list, and then those of the other.
#[tactic(auto, using(crate::proofs::Views::deepest_append, crate::proofs::Views::views_append))]
pub fn append(nodes: Nodes, others: Nodes) -> Result<Nodes, AllocError>
    ensures { IfOk result (λ x. views x.trees.items ≡ joined (views nodes.trees.items) (views others.trees.items)) }
{
    let Nodes { mut trees, height } = nodes;
    let Nodes {
        trees: mut more_trees,
        height: other,
    } = others;
    let most = height.max(other);
    trees.append(&mut more_trees)?;
    Ok(Nodes {
        trees,
        height: most,
    })
}

/// One tree.
pub fn one(alloc: Global, a: Node) -> Result<Nodes, AllocError>
    ensures { IfOk result (λ x. views x.trees.items ≡ forest1 (view a.tree)) }
{
    push(Nodes::new(alloc), a)
}

/// Two trees.
pub fn two(alloc: Global, a: Node, b: Node) -> Result<Nodes, AllocError>
    ensures { IfOk result (λ x. views x.trees.items ≡ forest2 (view a.tree) (view b.tree)) }
{
    let parts = one(alloc, a)?;
    push(parts, b)
}

/// Three trees.
pub fn three(alloc: Global, a: Node, b: Node, c: Node) -> Result<Nodes, AllocError>
    ensures { IfOk result (λ x. views x.trees.items ≡ forest3 (view a.tree) (view b.tree) (view c.tree)) }
{
    let parts = two(alloc, a, b)?;
    push(parts, c)
}

/// The spellings of the tokens, joined by one blank.
#[tactic(auto, using(crate::proofs::Views::spelled_zero, crate::proofs::Views::spelled_more))]
fn spell(alloc: Global, own: &[&Leaf]) -> Result<Word, AllocError>
    ensures { IfOk result (λ w. w ≡ spelled (spots own.now)) }
{
    let mut bytes = Vec::new(alloc);
    for (i, leaf) in own.iter().enumerate() {
        if i > 0 {
            bytes.push(b' ')?;
        }
        bytes.extend_from_slice(leaf.word.bytes())?;
    }
    match Word::new(alloc, &bytes) {
        Ok(word) => Ok(word),
        Err(_) => Err(AllocError),
    }
}

/// A node of these own tokens and parts.
#[tactic(auto, using(crate::proofs::Views::view_roll))]
pub fn make(
    alloc: Global,
    form: Form,
    own: &[&Leaf],
    first: u32,
    last: u32,
    parts: Nodes,
) -> Result<Node, AllocError>
    ensures { IfOk result (λ x. view x.tree ≡ tree_of form (spots own.now) first last (views parts.trees.items)) }
{
    let word = spell(alloc, own)?;
    let Nodes { trees, height } = parts;
    let tree = Tree {
        form,
        word,
        first,
        last,
        parts: trees,
    };
    Ok(Node {
        tree,
        height: height.saturating_add(1),
    })
}

/// A node of one token.
pub fn of_word(alloc: Global, form: Form, leaf: &Leaf) -> Result<Node, AllocError>
    ensures { IfOk result (λ x. view x.tree ≡ word_node form (spot_of leaf.now)) }
{
    let at = leaf.number;
    make(alloc, form, &[leaf], at, at, Nodes::new(alloc))
}

/// The number of the first token of the node.
#[tactic(auto, using(crate::proofs::Views::view_out))]
pub fn first_token(node: &Node) -> u32
    ensures { result ≡ first_of (view node.now.tree) }
{
    node.tree.first
}

/// The number of the last token of the node.
#[tactic(auto, using(crate::proofs::Views::view_out))]
pub fn last_token(node: &Node) -> u32
    ensures { result ≡ last_of (view node.now.tree) }
{
    node.tree.last
}

/// The number of the first token of the trees, or else the other one.
#[tactic(auto, using(crate::proofs::Views::view_out))]
pub fn first_token_in(nodes: &Nodes, other: u32) -> u32
    ensures { result ≡ first_in (views nodes.now.trees.items) other }
{
    match nodes.trees.as_slice() {
        [] => other,
        [first, ..] => first.first,
    }
}

/// The number of the last token of the trees, or else the other one.
#[tactic(auto, using(crate::proofs::Views::view_out, crate::proofs::Views::last_drop, crate::proofs::Views::last_end))]
pub fn last_token_in(nodes: &Nodes, other: u32) -> u32
    ensures { result ≡ last_in (views nodes.now.trees.items) other }
{
    let mut last = other;
    for tree in &nodes.trees {
        last = tree.last;
    }
    last
}

/// The number of the first of the tokens, or else the other one.
pub fn first_of_own(own: &[&Leaf], other: u32) -> u32
    ensures { result ≡ first_spot (spots own.now) other }
{
    match own {
        [] => other,
        [first, ..] => first.number,
    }
}

/// The number of the last of the tokens, or else the other one.
pub fn last_of_own(own: &[&Leaf], other: u32) -> u32
    ensures { result ≡ last_spot (spots own.now) other }
{
    let mut last = other;
    for leaf in own {
        last = leaf.number;
    }
    last
}

/// A node of two operands, with an operator between them.
pub fn pair(
    alloc: Global,
    form: Form,
    left: Node,
    operator: &Leaf,
    right: Node,
) -> Result<Node, AllocError>
    ensures { IfOk result (λ x. view x.tree ≡ pair_node form (view left.tree) (spot_of operator.now)
        (view right.tree)) }
{
    let first = first_token(&left);
    let last = last_token(&right);
    let parts = two(alloc, left, right)?;
    make(alloc, form, &[operator], first, last, parts)
}

/// Whether the node nests no deeper than the room.
#[tactic(auto, using(crate::proofs::Views::measured_le))]
pub fn fits(node: &Node, room: u32) -> bool
    requires { room < 2 ^ 32 - 1 }
    ensures { result ≡ nat_le (nesting (view node.now.tree)) room }
{
    node.height <= room
}

/// Whether a conditional expression is a unary expression, and so can be assigned to (C99, section 6.5.16).
#[tactic(auto, using(crate::proofs::Views::view_out))]
pub fn is_unary_node(node: &Node) -> bool
    ensures { result ≡ is_unary (view node.now.tree) }
{
    match node.tree.form {
        Form::UnaryNode
        | Form::PostfixNode
        | Form::CallNode
        | Form::ParenNode
        | Form::VariableNode
        | Form::TruthNode
        | Form::NumberNode => true,
        _ => false,
    }
}
