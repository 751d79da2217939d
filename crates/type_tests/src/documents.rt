// The documents in which declarations and expressions are judged.
use ada_tree::{Kids, Kind, Node};
use ada_types::{Types, type_of_node};
use base_kit::{Code, Memory, Names, Path, Place, Stop, Text};
use scope_rules::Scope;
use sqlite_items::Items;
use std::alloc::Global;
use text_read::read_file;

/// A fault's code and its place, from the node on that was judged; or none.
pub type Answer = Result<(), (Code, &'static [u32])>;

pub fn path(alloc: Global, numbers: &[u32]) -> Result<Path, Memory> {
    Ok(Path(Vec::from_slice(alloc, numbers)?))
}

// The document of one file.
fn root_of(alloc: Global, file: Node) -> Result<Node, Memory> {
    Ok(Node {
        kind: Kind::Doc,
        text: Text::from(Vec::new(alloc)),
        notes: Names::new(alloc),
        kids: Items::from_vec(vec![in alloc; file]?),
    })
}

/// The document of a file with this text; none where the text has a fault.
pub fn document(alloc: Global, text: &[u8]) -> Result<Option<Node>, Memory> {
    if text.len() >= 1 << 32 {
        return Ok(None);
    }
    match read_file(alloc, text) {
        Ok(file) => Ok(Some(root_of(alloc, file)?)),
        Err(Stop::Memory) => Err(Memory),
        Err(Stop::Fault(_)) => Ok(None),
    }
}

/// Adds the first declarations of a list; whether all of these could be added.
pub fn add_first(
    alloc: Global,
    types: &mut Types,
    root: &Node,
    scope: &Scope,
    list: &[u32],
    count: u32,
) -> Result<bool, Memory> {
    for number in 0..count {
        let mut at = path(alloc, list)?;
        at.0.push(number)?;
        if type_of_node(alloc, types, root, scope, &at).is_err() {
            return Ok(false);
        }
    }
    Ok(true)
}

// The path of a part of what stands at a place.
fn part_of(alloc: Global, place: &[u32], part: &[u32]) -> Result<Path, Memory> {
    let mut numbers = Vec::from_slice(alloc, place)?;
    numbers.extend_from_slice(part)?;
    Ok(Path(numbers))
}

fn is_at(place: &Place, wanted: &Path) -> bool {
    match place {
        Place::At(path) => path.0.as_slice() == wanted.0.as_slice(),
        Place::Line(_, _) => false,
    }
}

/// Whether this is the fault with the code at the part of what stands at the place.
pub fn is_fault(
    alloc: Global,
    stop: &Stop,
    code: Code,
    place: &[u32],
    part: &[u32],
) -> Result<bool, Memory> {
    match stop {
        Stop::Fault(fault) => {
            let wanted = part_of(alloc, place, part)?;
            Ok(fault.code == code && is_at(&fault.place, &wanted))
        }
        Stop::Memory => Err(Memory),
    }
}
