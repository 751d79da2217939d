// What a tree's attributes are.
ghost use Rattle.std.specs.Prelude.{◌≡◌, ◌+◌, ◌≤◌, ℕ, List, IfOk, OnOk, map, true, ◌↔◌};
ghost use Rattle.attr_engine.specs.Rules.{Rules, values};

use base_kit::{Ledger, Memory, Steps};
use std::alloc::Global;
use std::rc::Rc;

/// Labels, three attributes and the functions that give them. Children are done from the last to the first.
pub trait Grammar {
    type Label: Eq + Drop;

    /// What a subtree names.
    type Need: Eq + Drop;

    /// The inherited attribute.
    type In: Eq + Drop;

    /// The result.
    type Out: Eq + Drop;

    /// What the three functions give, the same for each value of the type.
    ghost rules: { Rules Self.Label Self.Need Self.In Self.Out };

    /// The need of a node over children with these needs.
    fn need(
        &self,
        alloc: Global,
        label: &Self::Label,
        kids: &[Rc<Self::Need>],
    ) -> Result<Self::Need, Memory>
        ensures { IfOk result (λ need. need ≡ rules.need label.now (values kids.now)) };

    /// The inherited attribute of the child of this number, counted from 0, with this need. `done` are the
    /// results of its later siblings as they were done: the next sibling's is the last one.
    fn down(
        &self,
        alloc: Global,
        label: &Self::Label,
        input: &Self::In,
        child: usize,
        need: &Self::Need,
        done: &[Rc<Self::Out>],
    ) -> Result<Self::In, Memory>
        ensures { IfOk result (λ input_of_child. input_of_child ≡ rules.down label.now input.now child need.now (values done.now)) };

    /// The result of a node over children with these results, which are in order. It ticks once.
    fn up<L: Ledger>(
        &self,
        alloc: Global,
        label: &Self::Label,
        input: &Self::In,
        done: &[Rc<Self::Out>],
        steps: &mut Steps<L>,
    ) -> Result<Self::Out, Memory>
        ensures out { IfOk result (λ out. out ≡ rules.up label.now input.now (values done.now)) }
        ensures once { OnOk result (steps.new ≡ steps.old + 1) }
        ensures at_most_once { steps.new ≤ steps.old + 1 };

    /// Inherited attributes are `==` exactly where they are the same.
    ghost same_in: { (a b : Self.In) → (Self.In.eq a b ≡ true) ↔ (a ≡ b) };

    /// Results are `==` exactly where they are the same.
    ghost same_out: { (a b : Self.Out) → (Self.Out.eq a b ≡ true) ↔ (a ≡ b) };
}
