// Attributed trees.
ghost use Rattle.attr_engine.specs.Fresh.{IsFresh};

use crate::grammar::Grammar;
use crate::node::NodeOf;
use crate::shared::Shared;

/// An attributed tree: each attribute of each node is the one that the labels and the root's inherited
/// attribute give it.
#[derive(Drop)]
pub struct Tree<G: Grammar> {
    pub root: Shared<NodeOf<G>>,
    ghost fresh: { IsFresh G.rules root },
}
