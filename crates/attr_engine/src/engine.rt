// Plans become attributed trees.
ghost use Rattle.std.specs.Prelude.{◌≡◌, ◌≤◌, ◌+◌, map, true, IfOk, OnOk, IsTrue, ◌↔◌, ◌&&◌, if◌then◌else◌};
ghost use lib.Pointwise.{pointwise};
ghost use Rattle.std.specs.List.{AllByRecursion};
ghost use Rattle.attr_engine.specs.Nodes.{need_of, label_of, input_of, out_of, kids_of, outs};
ghost use Rattle.attr_engine.specs.Fresh.{finished, regrowth, IsFresh};
ghost use Rattle.attr_engine.specs.Moved.{moved, moved_here};
ghost use Rattle.attr_engine.specs.Plans.{plan_growth, plan_moved, settled, settled_moved, IsRight};

use crate::grammar::Grammar;
use crate::node::{Node, NodeOf};
use crate::plan::{Plan, Plans};
use crate::shared::Shared;
use crate::siblings::Siblings;
use base_kit::{Ledger, Memory, Steps};
use std::alloc::Global;

/// Siblings of a grammar.
type SiblingsOf<G> = Siblings<
    <G as Grammar>::Label,
    <G as Grammar>::Need,
    <G as Grammar>::In,
    <G as Grammar>::Out,
>;

/// A plan of a grammar.
pub type PlanOf<G> = Plan<
    <G as Grammar>::Label,
    <G as Grammar>::Need,
    <G as Grammar>::In,
    <G as Grammar>::Out,
>;

/// Plans of a grammar, in order.
pub type PlansOf<G> = Plans<
    <G as Grammar>::Label,
    <G as Grammar>::Need,
    <G as Grammar>::In,
    <G as Grammar>::Out,
>;

// A node over its children, with one call of `up`.
fn finish<G: Grammar, L: Ledger>(
    alloc: Global,
    grammar: &G,
    label: Shared<G::Label>,
    need: Shared<G::Need>,
    input: G::In,
    kids: SiblingsOf<G>,
    steps: &mut Steps<L>,
) -> Result<Shared<NodeOf<G>>, Memory>
    ensures node { IfOk result (λ node. node ≡ finished G.rules label need input kids.nodes) }
    ensures once { OnOk result (steps.new ≡ steps.old + 1) }
    ensures at_most_once { steps.new ≤ steps.old + 1 }
{
    let (kids, results) = kids.in_order();
    let out = grammar.up(alloc, label.get(), &input, results.as_slice(), steps)?;
    Ok(Shared::new(
        alloc,
        Node {
            label,
            need,
            input: Shared::new(alloc, input)?,
            out: Shared::new(alloc, out)?,
            kids,
        },
    )?)
}

// Whether the results of two lists of nodes are the same.
fn are_alike<Label, Need, In, Out: Eq>(
    old: &[Shared<Node<Label, Need, In, Out>>],
    new: &[Shared<Node<Label, Need, In, Out>>],
) -> bool
    ensures { result ≡ pointwise Out.eq (outs old.now) (outs new.now) }
{
    let count = old.len();
    if count != new.len() {
        return false;
    }
    for at in 0..count {
        if old[at].get().out.get() != new[at].get().out.get() {
            return false;
        }
    }
    true
}

/// The tree of an old tree's labels under another inherited attribute. Where that is the old one, the old
/// tree serves; else the children are asked, from the last to the first.
pub fn renew<G: Grammar, L: Ledger>(
    alloc: Global,
    grammar: &G,
    node: &Shared<NodeOf<G>>,
    input: G::In,
    steps: &mut Steps<L>,
) -> Result<Shared<NodeOf<G>>, Memory>
    requires old_is_fresh { IsFresh G.rules node.now }
    ensures fresh { IfOk result (λ new. new ≡ (regrowth G.rules node.now).under input) }
    ensures ticks { IfOk result (λ new. steps.new ≡ steps.old + moved G.In.eq G.Out.eq node.now new) }
    ensures at_most { steps.new ≤ steps.old + moved G.In.eq G.Out.eq node.now ((regrowth G.rules node.now).under input) }
{
    let old = node.get();
    if *old.input.get() == input {
        return node.share();
    }
    let kids = old.kids.as_slice();
    let mut later = Siblings::new(alloc);
    let mut number = kids.len();
    while number > 0 {
        number -= 1;
        let kid = &kids[number];
        let need = kid.get().need.get();
        let below = grammar.down(
            alloc,
            old.label.get(),
            &input,
            number,
            need,
            later.results(),
        )?;
        later = later.after(renew(alloc, grammar, kid, below, steps)?)?;
    }
    let label = old.label.share()?;
    let need = old.need.share()?;
    finish(alloc, grammar, label, need, input, later, steps)
}

// An old node over its new children. Where its inherited attribute and their results are the old ones, so
// is its result; else `up` is called once.
fn finish_paired<G: Grammar, L: Ledger>(
    alloc: Global,
    grammar: &G,
    old: &NodeOf<G>,
    need: Shared<G::Need>,
    input: G::In,
    later: SiblingsOf<G>,
    steps: &mut Steps<L>,
) -> Result<Shared<NodeOf<G>>, Memory>
    requires old_is_fresh { IsFresh G.rules old.now }
    ensures node { IfOk result (λ node. node ≡ finished G.rules (label_of old.now) need input later.nodes) }
    ensures ticks { OnOk result (steps.new ≡ steps.old + moved_here G.In.eq G.Out.eq (input_of old.now) (outs (kids_of old.now)) input (outs later.nodes)) }
    ensures at_most { steps.new ≤ steps.old + moved_here G.In.eq G.Out.eq (input_of old.now) (outs (kids_of old.now)) input (outs later.nodes) }
{
    let (kids, results) = later.in_order();
    let label = old.label.share()?;
    if *old.input.get() == input && are_alike(old.kids.as_slice(), kids.as_slice()) {
        let out = old.out.share()?;
        let input = old.input.share()?;
        return Ok(Shared::new(
            alloc,
            Node {
                label,
                need,
                input,
                out,
                kids,
            },
        )?);
    }
    let out = grammar.up(alloc, label.get(), &input, results.as_slice(), steps)?;
    let out = Shared::new(alloc, out)?;
    let input = Shared::new(alloc, input)?;
    Ok(Shared::new(
        alloc,
        Node {
            label,
            need,
            input,
            out,
            kids,
        },
    )?)
}

/// The tree that becomes of a plan.
#[cycle(settle)]
pub fn settle<G: Grammar, L: Ledger>(
    alloc: Global,
    grammar: &G,
    plan: &PlanOf<G>,
    input: G::In,
    steps: &mut Steps<L>,
) -> Result<Shared<NodeOf<G>>, Memory>
    requires plan_is_right { IsRight G.rules G.In.eq G.Out.eq plan.now }
    ensures fresh { IfOk result (λ node. node ≡ (plan_growth G.rules plan.now).under input) }
    ensures ticks { IfOk result (λ node. steps.new ≡ steps.old + plan_moved G.In.eq G.Out.eq plan.now node) }
    ensures at_most { steps.new ≤ steps.old + plan_moved G.In.eq G.Out.eq plan.now ((plan_growth G.rules plan.now).under input) }
{
    match plan {
        Plan::Kept(node) => renew(alloc, grammar, node, input, steps),
        Plan::New(label, need, kids) => {
            let label = label.share()?;
            let need = need.share()?;
            let later = settle_kids(alloc, grammar, label.get(), &input, kids.as_slice(), steps)?;
            finish(alloc, grammar, label, need, input, later, steps)
        }
        Plan::Paired(old, need, kids) => {
            let old = old.get();
            let need = need.share()?;
            let label = old.label.get();
            let later = settle_kids(alloc, grammar, label, &input, kids.as_slice(), steps)?;
            finish_paired(alloc, grammar, old, need, input, later, steps)
        }
    }
}

// The children of a node with this label and inherited attribute, from the last to the first.
#[cycle(settle)]
fn settle_kids<G: Grammar, L: Ledger>(
    alloc: Global,
    grammar: &G,
    label: &G::Label,
    input: &G::In,
    plans: &[PlanOf<G>],
    steps: &mut Steps<L>,
) -> Result<SiblingsOf<G>, Memory>
    requires plans_are_right { AllByRecursion (IsRight G.rules G.In.eq G.Out.eq) plans.now }
    ensures nodes { IfOk result (λ later. later.nodes ≡ settled G.rules label.now input.now plans.now) }
    ensures ticks { OnOk result (steps.new ≡ steps.old + settled_moved G.rules G.In.eq G.Out.eq label.now input.now plans.now) }
    ensures at_most { steps.new ≤ steps.old + settled_moved G.rules G.In.eq G.Out.eq label.now input.now plans.now }
{
    let mut later = Siblings::new(alloc);
    let mut number = plans.len();
    while number > 0 {
        number -= 1;
        let plan = &plans[number];
        let need = plan.need().get();
        let under = grammar.down(alloc, label, input, number, need, later.results())?;
        later = later.after(settle(alloc, grammar, plan, under, steps)?)?;
    }
    Ok(later)
}
