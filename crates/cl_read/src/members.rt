//! Lists that are being read: their own tokens, and their trees.

ghost use Rattle.std.specs.Prelude.{◌≡◌, ◌++◌, ◌∷◌, [], IfOk};
ghost use Rattle.cl_tree.specs.Syntax.{view, none, more};
ghost use Rattle.cl_read.specs.Gives.{spots, spot_of};
ghost use Rattle.cl_read.specs.Members.{members};
ghost use Rattle.cl_read.specs.Reading.{empty, appended};

use crate::node::{Node, Nodes, append, one};
use cl_tree::Leaf;
use std::alloc::{AllocError, Global};

/// A list's own tokens, and its trees.
#[derive(Drop)]
pub struct Members<'a> {
    pub own: Vec<&'a Leaf>,
    pub parts: Nodes,
}

/// A list of nothing.
pub fn nothing<'a>(alloc: Global) -> Members<'a>
    ensures { members result ≡ empty }
{
    Members {
        own: Vec::new(alloc),
        parts: Nodes::new(alloc),
    }
}

/// The tokens of one list and then those of the other.
#[tactic(auto, using(crate::proofs::Views::spots_append))]
pub fn concat<'a>(
    mut own: Vec<&'a Leaf>,
    mut others: Vec<&'a Leaf>,
) -> Result<Vec<&'a Leaf>, AllocError>
    ensures { IfOk result (λ x. spots x.items ≡ spots own.entry.items ++ spots others.entry.items) }
{
    own.append(&mut others)?;
    Ok(own)
}

/// One list and then the other.
pub fn extend<'a>(list: Members<'a>, others: Members<'a>) -> Result<Members<'a>, AllocError>
    ensures { IfOk result (λ x. members x ≡ appended (members list.entry) (members others.entry)) }
{
    let own = concat(list.own, others.own)?;
    let parts = append(list.parts, others.parts)?;
    Ok(Members { own, parts })
}

/// A list of one tree.
pub fn of_tree<'a>(alloc: Global, node: Node) -> Result<Members<'a>, AllocError>
    ensures { IfOk result (λ x. members x ≡ record { own = []; parts = more (view node.tree) none }) }
{
    let parts = one(alloc, node)?;
    let own = Vec::new(alloc);
    Ok(Members { own, parts })
}

/// A list of one token.
pub fn of_token<'a>(alloc: Global, leaf: &'a Leaf) -> Result<Members<'a>, AllocError>
    ensures { IfOk result (λ x. members x ≡ record { own = spot_of leaf.now ∷ []; parts = none }) }
{
    let own = vec![in alloc; leaf]?;
    let parts = Nodes::new(alloc);
    Ok(Members { own, parts })
}

/// A list of one token, and a tree behind it.
pub fn of_token_and_tree<'a>(
    alloc: Global,
    leaf: &'a Leaf,
    node: Node,
) -> Result<Members<'a>, AllocError>
    ensures { IfOk result (λ x. members x ≡ record {
      own = spot_of leaf.now ∷ [];
      parts = more (view node.tree) none;
    }) }
{
    let own = vec![in alloc; leaf]?;
    let parts = one(alloc, node)?;
    Ok(Members { own, parts })
}
