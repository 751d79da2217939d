// Copies of nodes, without recursion: the nodes are visited first, each before its kids and the last
// kid first, and then built in the opposite order, the kids of each being the last that were built.
ghost use Rattle.std.specs.Prelude.{◌≡◌, ◌++◌, [], map, reverse, IfOk, OnOk};
ghost use Rattle.ada_tree.specs.Building.{building, nodes_behind};

use crate::node::{Kids, Node};
use base_kit::{Copied, Memory};
use sqlite_items::Items;
use std::alloc::Global;

fn push_all<'a>(work: &mut Vec<&'a Node>, nodes: &'a [Node]) -> Result<(), Memory>
    ensures { OnOk result (nodes_behind work.new.items ≡ nodes_behind work.old.items ++ nodes.now) }
{
    for node in nodes {
        work.push(node)?;
    }
    Ok(())
}

// The nodes and those below them.
fn visit<'a>(alloc: Global, nodes: &'a [Node]) -> Result<Vec<&'a Node>, Memory>
    ensures { IfOk result (λ visited. building (reverse (nodes_behind visited.items)) [] ≡ nodes.now) }
{
    let mut work = Vec::new(alloc);
    push_all(&mut work, nodes)?;
    let mut visited = Vec::new(alloc);
    while let Some(node) = work.pop() {
        visited.push(node)?;
        push_all(&mut work, node.kids.as_slice())?;
    }
    Ok(visited)
}

// Builds what was visited anew.
fn build(alloc: Global, mut visited: Vec<&Node>) -> Result<Kids, Memory>
    ensures { IfOk result (λ built. built ≡ building (reverse (nodes_behind visited.entry.items)) []) }
{
    let mut built = Vec::new(alloc);
    while let Some(node) = visited.pop() {
        let kids = built.split_off(built.len().saturating_sub(node.kids.len()))?;
        built.push(Node {
            kind: node.kind,
            text: node.text.copy(alloc)?,
            notes: node.notes.copy(alloc)?,
            kids: Items::from_vec(kids),
        })?;
    }
    Ok(Items::from_vec(built))
}

/// Equal nodes. The depth of the trees takes no stack.
pub fn copy_nodes(alloc: Global, nodes: &[Node]) -> Result<Kids, Memory>
    ensures { IfOk result (λ same. same ≡ nodes.now) }
{
    let visited = visit(alloc, nodes)?;
    build(alloc, visited)
}
