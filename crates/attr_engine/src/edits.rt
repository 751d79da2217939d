// Trees that are made, and made anew after an edit.
ghost use Rattle.std.specs.Prelude.{◌≡◌, ◌+◌, ◌≤◌, ◌↔◌, false, length, map, IfOk, OnOk};
ghost use Rattle.attr_engine.specs.Nodes.{count, out_of};
ghost use Rattle.attr_engine.specs.Fresh.{fresh, shape_of};
ghost use Rattle.attr_engine.specs.Edits.{spliced, is_there};
ghost use Rattle.attr_engine.specs.Moved.{moved, moved_spliced};
ghost use Rattle.attr_engine.specs.Plans.{planned};
ghost use Rattle.attr_engine.specs.declared.edits.EngineError.TheVariants.{Memory as memory_error};

use crate::engine::{PlansOf, renew, settle};
use crate::grammar::Grammar;
use crate::node::Node;
use crate::plan::{plan_along, plan_shape};
use crate::shape::Shape;
use crate::tree::Tree;
use base_kit::{Ledger, Memory, Path, Steps};
use sqlite_items::Items;
use std::alloc::Global;

/// Why an edit of a tree gives no tree.
#[derive(Clone, Copy, Debug, PartialEq, Eq)]
pub enum EngineError {
    /// The path or the range isn't in the tree.
    BadPath,
    Memory,
}

impl From<Memory> for EngineError {
    ghost from_gives = { λ _ error. error ≡ memory_error };

    fn from(_: Memory) -> Self {
        EngineError::Memory
    }
}

impl<G: Grammar> Tree<G> {
    /// The result of the root.
    pub fn out(&self) -> &G::Out
        ensures { result.now ≡ out_of self.now.root }
    {
        self.root.get().out.get()
    }
}

/// The attributed tree of a shape under an inherited attribute, with one tick for each node.
pub fn attribute<G: Grammar, L: Ledger>(
    alloc: Global,
    grammar: &G,
    shape: Shape<G>,
    input: G::In,
    steps: &mut Steps<L>,
) -> Result<Tree<G>, Memory>
    ensures fresh { IfOk result (λ tree. tree.root ≡ fresh G.rules shape input) }
    ensures ticks { OnOk result (steps.new ≡ steps.old + count shape) }
    ensures at_most { steps.new ≤ steps.old + count shape }
{
    let plan = plan_shape(alloc, grammar, shape)?;
    let root = settle(alloc, grammar, &plan, input, steps)?;
    Ok(Tree { root })
}

/// The attributed tree of the same shape under another inherited attribute. A node ticks exactly where its
/// inherited attribute or its list of children's results becomes another one.
pub fn reattribute<G: Grammar, L: Ledger>(
    alloc: Global,
    grammar: &G,
    tree: &Tree<G>,
    input: G::In,
    steps: &mut Steps<L>,
) -> Result<Tree<G>, Memory>
    ensures fresh { IfOk result (λ new. new.root ≡ fresh G.rules (shape_of {G = G} tree.now.root) input) }
    ensures ticks { IfOk result (λ new. steps.new ≡ steps.old + moved G.In.eq G.Out.eq tree.now.root new.root) }
    ensures at_most { steps.new ≤ steps.old + moved G.In.eq G.Out.eq tree.now.root (fresh G.rules (shape_of {G = G} tree.now.root) input) }
{
    let root = renew(alloc, grammar, &tree.root, input, steps)?;
    Ok(Tree { root })
}

// Whether the path leads to a node that has children from `from` up to `to`.
fn leads<Label, Need, In, Out>(
    node: &Node<Label, Need, In, Out>,
    path: &[u32],
    from: usize,
    to: usize,
) -> bool
    ensures { result ≡ is_there path.now from to node.now }
{
    match path.split_first() {
        None => from <= to && to <= node.kids.len(),
        Some((number, rest)) => match node.kids.get(*number as usize) {
            None => false,
            Some(kid) => leads(kid.get(), rest, from, to),
        },
    }
}

// The plans of shapes, in order.
fn plan_all<G: Grammar>(
    alloc: Global,
    grammar: &G,
    shapes: Vec<Shape<G>>,
) -> Result<PlansOf<G>, Memory>
    ensures { IfOk result (λ plans. plans ≡ map (planned G.rules) shapes.items) }
{
    let mut plans = Items::new(alloc);
    for shape in shapes {
        plans.push(plan_shape(alloc, grammar, shape)?)?;
    }
    Ok(plans)
}

/// The attributed tree, under an inherited attribute, of the shape in which `shapes` replace the children
/// from `from` up to but not `to` of the node that the path leads to. A node ticks exactly where it is new
/// or its inherited attribute or its list of children's results becomes another one.
pub fn splice<G: Grammar, L: Ledger>(
    alloc: Global,
    grammar: &G,
    tree: &Tree<G>,
    path: &Path,
    from: usize,
    to: usize,
    shapes: Vec<Shape<G>>,
    input: G::In,
    steps: &mut Steps<L>,
) -> Result<Tree<G>, EngineError>
    ensures fresh { IfOk result (λ new. new.root ≡ fresh G.rules (spliced path.now from to shapes.items (shape_of tree.now.root)) input) }
    ensures ticks { IfOk result (λ new. steps.new ≡ steps.old + moved_spliced G.In.eq G.Out.eq path.now from to (length shapes.items) tree.now.root new.root) }
    ensures at_most { let new = fresh G.rules (spliced path.now from to shapes.items (shape_of tree.now.root)) input in
        steps.new ≤ steps.old + moved_spliced G.In.eq G.Out.eq path.now from to (length shapes.items) tree.now.root new }
    ensures bad_path { (result ≡ Err EngineError.BadPath) ↔ (is_there path.now from to tree.now.root ≡ false) }
{
    let path = path.0.as_slice();
    if !leads(tree.root.get(), path, from, to) {
        return Err(EngineError::BadPath);
    }
    let made = plan_all(alloc, grammar, shapes)?;
    let plan = plan_along(alloc, grammar, &tree.root, path, from, to, made)?;
    let root = settle(alloc, grammar, &plan, input, steps)?;
    Ok(Tree { root })
}
