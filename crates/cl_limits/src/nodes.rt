//! How many nodes trees have.

ghost use Rattle.std.specs.Prelude.{◌≡◌, min};
ghost use Rattle.cl_tree.specs.Syntax.{view, views};
ghost use Rattle.cl_limits.specs.Limits as spec;

use cl_tree::Tree;

/// How many nodes trees have together, as far as 64 bits count them.
#[cycle(nodes)]
fn count_all(trees: &[Tree]) -> u64
    ensures { result ≡ min (spec.count_forest (views trees.now)) 18446744073709551615 }
{
    let mut count = 0u64;
    for tree in trees {
        count = count.saturating_add(count_nodes(tree));
    }
    count
}

/// How many nodes a tree has, its root included, as far as 64 bits count them.
#[cycle(nodes)]
#[tactic(auto, using(cl_meaning::proofs::Views::view_out))]
pub fn count_nodes(tree: &Tree) -> u64
    ensures { result ≡ min (spec.count_nodes (view tree.now)) 18446744073709551615 }
{
    count_all(&tree.parts).saturating_add(1)
}
