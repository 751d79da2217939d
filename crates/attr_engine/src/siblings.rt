// Siblings that are done, from the last one on.
ghost use Rattle.std.specs.Prelude.{◌≡◌, [], ◌∷◌, IfOk};
ghost use Rattle.attr_engine.specs.Nodes.{outs, done};
ghost use Rattle.attr_engine.specs.Rules.{values};

use crate::from_end::FromEnd;
use crate::node::{Kids, Node};
use crate::shared::Shared;
use base_kit::Memory;
use std::alloc::Global;
use std::rc::Rc;

/// The later siblings of a node, with their results.
#[derive(Drop)]
pub struct Siblings<Label, Need, In, Out> {
    nodes: FromEnd<Shared<Node<Label, Need, In, Out>>>,
    results: Vec<Rc<Out>>,
    ghost their_results: { values results.items ≡ done nodes },
}

impl<Label, Need, In, Out> Siblings<Label, Need, In, Out> {
    pub fn new(alloc: Global) -> Self
        ensures { result.nodes ≡ [] }
    {
        Siblings {
            nodes: FromEnd::new(alloc),
            results: Vec::new(alloc),
        }
    }

    /// The results in the order in which they were done: the last sibling's first.
    pub fn results(&self) -> &[Rc<Out>]
        ensures { values result.now ≡ done self.now.nodes }
    {
        self.results.as_slice()
    }

    /// The siblings and their results, both in order.
    pub fn in_order(self) -> (Kids<Label, Need, In, Out>, Vec<Rc<Out>>)
        ensures kids { result.0 ≡ self.nodes }
        ensures results { values result.1.items ≡ outs self.nodes }
    {
        let mut results = self.results;
        results.reverse();
        (self.nodes.into_items(), results)
    }
}

impl<Label: Drop, Need: Drop, In: Drop, Out: Drop> Siblings<Label, Need, In, Out> {
    /// The siblings with this one before them.
    pub fn after(self, node: Shared<Node<Label, Need, In, Out>>) -> Result<Self, Memory>
        ensures { IfOk result (λ siblings. siblings.nodes ≡ node ∷ self.nodes) }
    {
        let mut results = self.results;
        results.push(node.get().out.counted()?)?;
        let nodes = self.nodes.after(node)?;
        Ok(Siblings { nodes, results })
    }
}
