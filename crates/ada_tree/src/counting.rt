// Numbers of nodes.
ghost use Rattle.std.specs.Prelude.{◌≡◌, ◌+◌, ◌-◌, ◌^◌, min, not, sum_by};
ghost use Rattle.ada_tree.specs.Nodes.{count_of, is_step, tree_count, proof_count};

use crate::doc::{Counts, Doc};
use crate::kind::Kind;
use crate::node::Node;

/// How many nodes the document has. It takes no memory.
pub fn counts(doc: &Doc) -> Counts
    ensures tree { result.tree ≡ min (tree_count doc.now) (2 ^ 64 - 1) }
    ensures proof { result.proof ≡ min (proof_count doc.now) (2 ^ 64 - 1) }
{
    let mut counts = Counts { tree: 0, proof: 0 };
    add_counts(doc.root.kids.as_slice(), &mut counts);
    counts
}

/// Adds the nodes and those below them.
pub fn add_counts(nodes: &[Node], counts: &mut Counts)
    ensures tree { counts.new.tree ≡ min (counts.old.tree + sum_by (count_of (λ k. not (is_step k))) nodes.now) (2 ^ 64 - 1) }
    ensures proof { counts.new.proof ≡ min (counts.old.proof + sum_by (count_of is_step) nodes.now) (2 ^ 64 - 1) }
{
    for node in nodes {
        if node.kind == Kind::Step {
            counts.proof = counts.proof.saturating_add(1);
        } else {
            counts.tree = counts.tree.saturating_add(1);
        }
        add_counts(node.kids.as_slice(), counts);
    }
}
