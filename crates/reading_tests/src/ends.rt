// What becomes of a text.
use ada_tree::{Kind, Node, Part};
use base_kit::{Code, Fault, Memory, Place, Stop};
use std::alloc::Global;
use text_read::{has_texts, read_file, read_fragment};

// A node of a kind, a fault in a line of the text, or so many nodes, more than a file may have.
#[derive(Clone, Copy, PartialEq, Eq)]
pub enum End {
    Node(Kind),
    Fault(Code, u32),
    TooMany(u64),
}

// None where the fault has a part that no fault of a text has.
pub fn fault_end(fault: &Fault) -> Option<End> {
    match &fault.place {
        Place::Line(0, line) if fault.count == 0 => Some(End::Fault(fault.code, *line)),
        Place::At(path) if fault.code == Code::F27 && path.0.is_empty() => {
            Some(End::TooMany(fault.count))
        }
        _ => None,
    }
}

fn end_of(read: Result<Node, Stop>) -> Result<Option<End>, Memory> {
    match read {
        Ok(node) => Ok(Some(End::Node(node.kind))),
        Err(Stop::Memory) => Err(Memory),
        Err(Stop::Fault(fault)) => Ok(fault_end(&fault)),
    }
}

pub fn file_end(alloc: Global, bytes: &[u8]) -> Result<Option<End>, Memory> {
    if bytes.len() >= 1 << 32 {
        return Ok(None);
    }
    end_of(read_file(alloc, bytes))
}

pub fn fragment_end(alloc: Global, part: Part, bytes: &[u8]) -> Result<Option<End>, Memory> {
    if !has_texts(part) || bytes.len() >= 1 << 32 {
        return Ok(None);
    }
    end_of(read_fragment(alloc, part, bytes))
}
