// Reads the sources of a document.
ghost use Rattle.std.specs.Prelude.{◌≡◌, ◌<◌, ◌-◌, ◌^◌, length};
ghost use Rattle.std.specs.List.{All};
ghost use Rattle.ada_tree.specs.Nodes.{tree_count, proof_count};
ghost use Rattle.lex_ada.specs.Faults.{Gives};
ghost use Rattle.text_read.specs.Files.{file_answer};
ghost use Rattle.penelope_cli.specs.Counting.{past_limits};
ghost use Rattle.penelope_cli.specs.Documents.{numbered, files_from, document_answer};

use crate::fault::in_file;
use ada_tree::{Counts, Doc, Kids, Kind, Node, counts};
use base_kit::{Code, Fault, Names, Path, Place, Stop, Text};
use file_laws::read_files_make_a_document;
use std::alloc::Global;
use text_read::{MOST_NODES, MOST_STEPS, read_file};

// Reads the source of the file of this number, from 0.
fn read_numbered(alloc: Global, number: u32, bytes: &[u8]) -> Result<Node, Stop>
    requires number { number < 2 ^ 32 - 1 }
    requires bytes { length bytes.now < 2 ^ 32 }
    ensures { Gives result (numbered number (file_answer bytes.now)) }
{
    match read_file(alloc, bytes) {
        Ok(file) => Ok(file),
        Err(Stop::Fault(fault)) => Err(Stop::Fault(in_file(number, fault)?)),
        Err(Stop::Memory) => Err(Stop::Memory),
    }
}

fn read_files(alloc: Global, sources: &[Text]) -> Result<Kids, Stop>
    requires number { length sources.now < 2 ^ 32 }
    requires bytes { All (λ bytes. length bytes < 2 ^ 32) sources.now }
    ensures { Gives result (files_from 0 sources.now) }
{
    let mut files = Kids::new(alloc);
    for (number, bytes) in sources.iter().enumerate() {
        files.push(read_numbered(alloc, number as u32, bytes.as_bytes())?)?;
    }
    Ok(files)
}

// The number of nodes, where there are too many, or else that of proof steps, where these are.
fn past_limits(counts: Counts) -> Option<u64>
    ensures { result ≡ past_limits counts }
{
    if counts.tree > MOST_NODES {
        Some(counts.tree)
    } else if counts.proof > MOST_STEPS {
        Some(counts.proof)
    } else {
        None
    }
}

/// Reads a document: each source as a file, in order.
///
/// It fails with the fault of the first source that is no file, at its place among all files; and where all
/// are files, but have more than 100,000 nodes together, or more than 50,000 proof steps, with F27 at the
/// empty path and the number of nodes, or of steps where the nodes are within.
pub fn read_document(alloc: Global, sources: &[Text]) -> Result<Doc, Stop>
    requires number { length sources.now < 2 ^ 32 }
    requires bytes { All (λ bytes. length bytes < 2 ^ 32) sources.now }
    ensures { Gives result (document_answer sources.now) }
{
    read_files_make_a_document();
    let root = Node {
        kind: Kind::Doc,
        text: Text::from(Vec::new(alloc)),
        notes: Names::new(alloc),
        kids: read_files(alloc, sources)?,
    };
    let doc = Doc { root };
    match past_limits(counts(&doc)) {
        None => Ok(doc),
        Some(count) => Err(Stop::Fault(Fault {
            code: Code::F27,
            place: Place::At(Path(Vec::new(alloc))),
            count,
        })),
    }
}
