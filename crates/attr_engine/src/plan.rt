// Trees whose labels and needs are there, and whose other attributes are to come.
ghost use Rattle.std.specs.Prelude.{◌≡◌, ◌≤◌, ◌<◌, length, map, true, IfOk};
ghost use Rattle.attr_engine.specs.Rules.{values};
ghost use Rattle.attr_engine.specs.Edits.{is_there, replaced};
ghost use Rattle.attr_engine.specs.Plans.{plan_need, kept_plan, paired_plan, planned, planned_along};

use crate::from_end::FromEnd;
use crate::grammar::Grammar;
use crate::node::Node;
use crate::shape::Shape;
use crate::shared::Shared;
use base_kit::Memory;
use sqlite_items::Items;
use std::alloc::Global;
use std::rc::Rc;

/// A tree whose labels and needs are there.
#[derive(Drop)]
pub enum Plan<Label, Need, In, Out> {
    /// An old tree.
    Kept(Shared<Node<Label, Need, In, Out>>),
    /// A new node, of which all below is new.
    New(Shared<Label>, Shared<Need>, Plans<Label, Need, In, Out>),
    /// An old node, with the need of these children.
    Paired(Shared<Node<Label, Need, In, Out>>, Shared<Need>, Plans<Label, Need, In, Out>),
}

/// Plans in order.
pub type Plans<Label, Need, In, Out> = Items<Plan<Label, Need, In, Out>>;

impl<Label, Need, In, Out> Plan<Label, Need, In, Out> {
    pub fn need(&self) -> &Shared<Need>
        ensures { result.now ≡ plan_need self.now }
    {
        match self {
            Plan::Kept(node) => &node.get().need,
            Plan::New(_, need, _) => need,
            Plan::Paired(_, need, _) => need,
        }
    }
}

// The needs of plans, in order.
fn needs_of<Label, Need: Drop, In, Out>(
    alloc: Global,
    plans: &[Plan<Label, Need, In, Out>],
) -> Result<Vec<Rc<Need>>, Memory>
    ensures { IfOk result (λ needs. values needs.items ≡ map plan_need plans.now) }
{
    let mut needs = Vec::new(alloc);
    for plan in plans {
        needs.push(plan.need().counted()?)?;
    }
    Ok(needs)
}

// The plans that keep old trees.
fn keep_all<Label: Drop, Need: Drop, In: Drop, Out: Drop>(
    alloc: Global,
    nodes: &[Shared<Node<Label, Need, In, Out>>],
) -> Result<Plans<Label, Need, In, Out>, Memory>
    ensures { IfOk result (λ plans. plans ≡ map kept_plan nodes.now) }
{
    let mut plans = Items::new(alloc);
    for node in nodes {
        plans.push(Plan::Kept(node.share()?))?;
    }
    Ok(plans)
}

/// The plan of a shape: all of it is new.
#[tactic(auto, using(crate::proofs::Planning::planned_new))]
pub fn plan_shape<G: Grammar>(
    alloc: Global,
    grammar: &G,
    shape: Shape<G>,
) -> Result<Plan<G::Label, G::Need, G::In, G::Out>, Memory>
    ensures { IfOk result (λ plan. plan ≡ planned G.rules shape) }
{
    let Shape { label, mut kids } = shape;
    let mut plans = FromEnd::new(alloc);
    while let Some(kid) = kids.pop() {
        plans = plans.after(plan_shape(alloc, grammar, kid)?)?;
    }
    let plans = plans.into_items();
    let needs = needs_of(alloc, plans.as_slice())?;
    let need = grammar.need(alloc, &label, needs.as_slice())?;
    Ok(Plan::New(Shared::new(alloc, label)?, Shared::new(alloc, need)?, plans))
}

// These plans in place of the nodes from `from` up to but not `to`, and the others kept.
fn put<Label: Drop, Need: Drop, In: Drop, Out: Drop>(
    alloc: Global,
    nodes: &[Shared<Node<Label, Need, In, Out>>],
    from: usize,
    to: usize,
    made: Plans<Label, Need, In, Out>,
) -> Result<Plans<Label, Need, In, Out>, Memory>
    requires from { from ≤ length nodes.now }
    requires to { to ≤ length nodes.now }
    ensures { IfOk result (λ plans. plans ≡ replaced from to made kept_plan nodes.now) }
{
    let mut plans = keep_all(alloc, &nodes[..from])?;
    plans.append(made)?;
    plans.append(keep_all(alloc, &nodes[to..])?)?;
    Ok(plans)
}

// The old node with these children.
fn pair<G: Grammar>(
    alloc: Global,
    grammar: &G,
    old: &Shared<Node<G::Label, G::Need, G::In, G::Out>>,
    kids: Plans<G::Label, G::Need, G::In, G::Out>,
) -> Result<Plan<G::Label, G::Need, G::In, G::Out>, Memory>
    ensures { IfOk result (λ plan. plan ≡ paired_plan G.rules old.now kids) }
{
    let needs = needs_of(alloc, kids.as_slice())?;
    let need = grammar.need(alloc, old.get().label.get(), needs.as_slice())?;
    Ok(Plan::Paired(old.share()?, Shared::new(alloc, need)?, kids))
}

/// The plan of an edit: `made` replaces the children from `from` up to but not `to` of the node that
/// the path leads to.
pub fn plan_along<G: Grammar>(
    alloc: Global,
    grammar: &G,
    old: &Shared<Node<G::Label, G::Need, G::In, G::Out>>,
    path: &[u32],
    from: usize,
    to: usize,
    made: Plans<G::Label, G::Need, G::In, G::Out>,
) -> Result<Plan<G::Label, G::Need, G::In, G::Out>, Memory>
    requires { is_there path.now from to old.now ≡ true }
    ensures { IfOk result (λ plan. plan ≡ planned_along G.rules path.now from to made old.now) }
{
    let nodes = old.get().kids.as_slice();
    match path.split_first() {
        None => pair(alloc, grammar, old, put(alloc, nodes, from, to, made)?),
        Some((number, rest)) => {
            let number = *number as usize;
            let below = plan_along(alloc, grammar, &nodes[number], rest, from, to, made)?;
            let mut one = Items::new(alloc);
            one.push(below)?;
            pair(
                alloc,
                grammar,
                old,
                put(alloc, nodes, number, number + 1, one)?,
            )
        }
    }
}
