// Documents: trees that fit the grammar.
ghost use Rattle.std.specs.Prelude.{◌≡◌, ◌↔◌, IsTrue};
ghost use Rattle.std.specs.Option.{option_copied};
ghost use Rattle.ada_tree.specs.Nodes.{node_at, kind_of, text_of, notes_of};

use crate::node::Node;
use base_kit::{Copied, Memory, Path, Text};
use std::alloc::Global;
use std::marker::Model;

/// A whole document. By its type it fits the grammar: some text spells it, and its nodes and proof
/// steps are nested within the limits (`specs/Fits`). Contracts see the root.
#[derive(Drop)]
pub struct Doc {
    pub root: Node,
}

impl Model for Doc {
    ghost use Rattle.ada_tree.specs.declared.node.Node.{Node};
    ghost use Rattle.ada_tree.specs.contracts.node.Node as node_row;

    ghost Value = { Node };

    ghost coded = { node_row.the_row.coded };

    ghost use Rattle.ada_tree.specs.Fits.{Fits};

    ghost view = { λ doc. doc.root };

    ghost invariant = { λ doc. Fits doc.root };
}

impl Copied for Doc {
    fn copy(&self, alloc: Global) -> Result<Self, Memory> {
        Ok(Doc {
            root: self.root.copy(alloc)?,
        })
    }
}

/// The number of a declared name: the predefined names come first, and the others in the order of
/// the document.
#[derive(Clone, Copy, Debug, PartialEq, Eq)]
pub struct DeclId(pub u32);

/// How many nodes a document has. A number above 18446744073709551615 is given as that.
#[derive(Clone, Copy, Debug, PartialEq, Eq)]
pub struct Counts {
    /// All nodes but the Doc itself and proof steps.
    pub tree: u64,
    /// Proof steps.
    pub proof: u64,
}

/// The node that a path leads to: at each step the number of the kid, from 0. None where the path
/// names no node. It takes no memory.
pub fn at<'a>(doc: &'a Doc, path: &Path) -> Option<&'a Node>
    ensures { option_copied result ≡ node_at path.now doc.now }
{
    let mut node = &doc.root;
    for number in path.0.as_slice() {
        node = node.kids.get(*number as usize)?;
    }
    Some(node)
}

/// Whether two documents are equal, comments included. It takes no memory.
pub fn same(a: &Doc, b: &Doc) -> bool
    ensures { IsTrue result ↔ (a.now ≡ b.now) }
{
    is_same(&a.root, &b.root)
}

fn is_same_text(a: &Text, b: &Text) -> bool
    ensures { IsTrue result ↔ (a.now ≡ b.now) }
{
    a.as_bytes() == b.as_bytes()
}

fn are_same_texts(a: &[Text], b: &[Text]) -> bool
    ensures { IsTrue result ↔ (a.now ≡ b.now) }
{
    if a.len() != b.len() {
        return false;
    }
    for (x, y) in a.iter().zip(b) {
        if !is_same_text(x, y) {
            return false;
        }
    }
    true
}

// Whether two nodes are equal, apart from their kids.
fn is_alike(a: &Node, b: &Node) -> bool
    ensures { IsTrue result ↔ ((kind_of a.now ≡ kind_of b.now) × (text_of a.now ≡ text_of b.now) × (notes_of a.now ≡ notes_of b.now)) }
{
    if a.kind != b.kind || !is_same_text(&a.text, &b.text) {
        return false;
    }
    are_same_texts(a.notes.as_slice(), b.notes.as_slice())
}

/// Whether two nodes are equal, with all below them.
#[cycle(same)]
pub fn is_same(a: &Node, b: &Node) -> bool
    ensures { IsTrue result ↔ (a.now ≡ b.now) }
{
    is_alike(a, b) && are_same(a.kids.as_slice(), b.kids.as_slice())
}

#[cycle(same)]
fn are_same(a: &[Node], b: &[Node]) -> bool
    ensures { IsTrue result ↔ (a.now ≡ b.now) }
{
    if a.len() != b.len() {
        return false;
    }
    for (x, y) in a.iter().zip(b) {
        if !is_same(x, y) {
            return false;
        }
    }
    true
}
