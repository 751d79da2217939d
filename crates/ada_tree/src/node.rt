// The nodes of a tree.
use crate::copying::copy_nodes;
use crate::kind::Kind;
use base_kit::{Copied, Memory, Names, Text};
use sqlite_items::Items;
use std::alloc::Global;

/// A node: its kind, its own text, the ordinary comments that belong to it, and its kids, the parts
/// of its line in order (docs/grammar.md).
///
/// Dropping a node, as comparing and counting it, goes down its kids on the machine's stack:
/// docs/DECISIONS.md says how deep a tree may be.
#[derive(Drop)]
pub struct Node {
    pub kind: Kind,
    /// An identifier is in upper case; what follows its `@`, and a rule's name, in lower case. A
    /// number has no underscores and no leading zeros.
    pub text: Text,
    /// Each from its two dashes to its last byte that is no blank.
    pub notes: Names,
    pub kids: Kids,
}

/// The kids of a node, in order.
pub type Kids = Items<Node>;

impl Copied for Node {
    // The depth of the tree takes no stack.
    fn copy(&self, alloc: Global) -> Result<Self, Memory> {
        Ok(Node {
            kind: self.kind,
            text: self.text.copy(alloc)?,
            notes: self.notes.copy(alloc)?,
            kids: copy_nodes(alloc, self.kids.as_slice())?,
        })
    }
}
