// Reading files.
ghost use Rattle.std.specs.Prelude.{◌≡◌, ◌<◌, ◌^◌, length, Ok, Err, IfOk, IfErr};
ghost use Rattle.base_kit.specs.declared.fault.Fault.{Fault as AFault};
ghost use Rattle.ada_tree.specs.declared.node.Node.{Node as ANode};
ghost use Rattle.lex_ada.specs.Faults.{Gives};
ghost use Rattle.text_read.specs.Faults.{OnFault};
ghost use Rattle.text_read.specs.Files.{IsFile, IsFaultOfFile, file_answer, fault_of_counts};

use crate::limits::{MOST_NODES, MOST_STEPS};
use crate::reading::answer_at;
use crate::start::whole_line;
use ada_tree::{Counts, Kind, Node, Rule};
use base_kit::{Code, Fault, Path, Place, Stop};
use lex_ada::tokens;
use note_read::{Counted, read_counted};
use std::alloc::Global;

// What a file may have.
const MOST: Counts = Counts {
    tree: MOST_NODES,
    proof: MOST_STEPS,
};

// The fault of a file that has more.
fn too_many(alloc: Global, counts: Counts) -> Fault
    ensures { result ≡ fault_of_counts counts }
{
    Fault {
        code: Code::F27,
        place: Place::At(Path(Vec::new(alloc))),
        count: if counts.tree > MOST_NODES {
            counts.tree
        } else {
            counts.proof
        },
    }
}

// Reads the file.
fn file(alloc: Global, bytes: &[u8]) -> Result<Node, Stop>
    requires { length bytes.now < 2 ^ 32 }
    ensures { Gives result (file_answer bytes.now) }
{
    let tokens = tokens(alloc, bytes)?;
    let line = whole_line(alloc, Rule::Of(Kind::File))?;
    let tokens = tokens.as_slice();
    match read_counted(alloc, false, line.as_slice(), 0, Some(MOST), tokens, bytes)? {
        Counted::Kept(reading) => answer_at(reading, tokens, bytes),
        Counted::TooMany(counts) => Err(Stop::Fault(too_many(alloc, counts))),
    }
}

/// Reads a file: the node that its text spells, within the limits of nesting, and with at most 100,000
/// nodes and 50,000 proof steps.
///
/// It fails as `read_fragment` does where its text has a fault, and else with F27 where it has more nodes
/// or steps: with the number of nodes, or of steps where the nodes are within, at the empty path. Past that
/// limit it reads on with the counts alone.
pub fn read_file(alloc: Global, bytes: &[u8]) -> Result<Node, Stop>
    requires { length bytes.now < 2 ^ 32 }
    ensures node { IfOk result (λ node. IsFile bytes.now node) }
    ensures fault { IfErr result (λ stop. OnFault (IsFaultOfFile bytes.now) stop) }
    ensures only { (node : ANode) → IsFile bytes.now node → Gives result (Ok node) }
    ensures only_fault { (fault : AFault) → IsFaultOfFile bytes.now fault → Gives result (Err fault) }

    // The same by the function, of which `a_file_has_one_answer` says that it is the answer.
    ensures value { Gives result (file_answer bytes.now) }
{
    file(alloc, bytes)
}
