// The items of files.
ghost use Rattle.std.specs.Prelude.{◌≡◌, ◌<◌, ◌^◌, ◌++◌, length, map, OnOk, IfOk};
ghost use Rattle.penelope_cli.specs.Items.{items_from, items_in};
ghost use Rattle.penelope_cli.specs.Judging.{placed};

use ada_tree::Node;
use base_kit::Memory;
use std::alloc::Global;

/// An item, with the number of its file and its own number in it, both from 0.
#[derive(Clone, Copy)]
pub struct Item<'a> {
    pub file: u32,
    pub number: u32,
    pub node: &'a Node,
}

// Adds the items of a file.
fn add_items<'a>(items: &mut Vec<Item<'a>>, file: u32, nodes: &'a [Node]) -> Result<(), Memory>
    ensures { OnOk result (map placed items.new.items
        ≡ map placed items.old.items ++ items_from file 0 nodes.now) }
{
    for (number, node) in nodes.iter().enumerate() {
        let number = u32::try_from(number).map_err(|_| Memory)?;
        items.push(Item { file, number, node })?;
    }
    Ok(())
}

/// The items of files, in order.
pub fn items<'a>(alloc: Global, files: &'a [Node]) -> Result<Vec<Item<'a>>, Memory>
    requires { length files.now < 2 ^ 32 }
    ensures { IfOk result (λ items. map placed items.items ≡ items_in 0 files.now) }
{
    let mut items = Vec::new(alloc);
    for (number, file) in files.iter().enumerate() {
        add_items(&mut items, number as u32, file.kids.as_slice())?;
    }
    Ok(items)
}
