// Attributed nodes.
use crate::grammar::Grammar;
use crate::shared::Shared;
use sqlite_items::Items;

/// A node with its attributes. All parts are shared: an edit copies nodes along one path, and no value.
#[derive(Drop)]
pub struct Node<Label, Need, In, Out> {
    pub label: Shared<Label>,
    /// What the subtree names.
    pub need: Shared<Need>,
    /// The inherited attribute.
    pub input: Shared<In>,
    /// The result.
    pub out: Shared<Out>,
    pub kids: Kids<Label, Need, In, Out>,
}

/// The children of a node, in order.
pub type Kids<Label, Need, In, Out> = Items<Shared<Node<Label, Need, In, Out>>>;

/// A node of a grammar.
pub type NodeOf<G> = Node<
    <G as Grammar>::Label,
    <G as Grammar>::Need,
    <G as Grammar>::In,
    <G as Grammar>::Out,
>;
