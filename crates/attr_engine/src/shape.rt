// Trees of labels.
use crate::grammar::Grammar;
use sqlite_items::Items;

/// A tree of labels, which `attribute` gives attributes.
#[derive(Drop)]
pub struct Shape<G: Grammar> {
    pub label: G::Label,
    pub kids: Shapes<G>,
}

/// Shapes in order.
pub type Shapes<G> = Items<Shape<G>>;
