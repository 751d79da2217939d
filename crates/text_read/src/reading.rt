// Reading texts of parts of the grammar.
ghost use Rattle.std.specs.Prelude.{◌≡◌, ◌<◌, ◌^◌, length, true, is_some, All, Ok, Err, IfOk, IfErr};
ghost use Rattle.base_kit.specs.declared.fault.Fault.{Fault as AFault};
ghost use Rattle.ada_tree.specs.declared.node.Node.{Node as ANode};
ghost use Rattle.lex_ada.specs.Faults.{Gives};
ghost use Rattle.lex_ada.specs.Meanings.{LiesIn, meanings};
ghost use Rattle.note_read.specs.Signs.{outcome_of};
ghost use Rattle.reading_limits.specs.Viable.{read_within};
ghost use Rattle.reading_table.specs.Spelled.{has_texts};
ghost use Rattle.text_read.specs.Answers.{IsOneNode, answer_at, answer_of};
ghost use Rattle.text_read.specs.Faults.{IsFaultOf, OnFault};
ghost use Rattle.text_read.specs.Fragments.{IsText};

use crate::fault::{code_behind, fault_behind};
use crate::fragment::{is_noted, tokens_in};
use crate::start::whole_line;
use ada_tree::{Node, Part};
use base_kit::{Code, Memory, Stop};
use lex_ada::{Token, tokens};
use note_read::{Reading, read_tokens};
use std::alloc::Global;

// Reads the tokens of a text of the part, whole.
#[tactic(auto, using(crate::proofs::Texts::read_as))]
fn read_whole(alloc: Global, part: Part, tokens: &[Token], source: &[u8]) -> Result<Reading, Memory>
    requires texts { has_texts part ≡ true }
    requires lie { All (λ token. LiesIn token source.now) tokens.now }
    ensures { IfOk result (λ read. outcome_of read ≡ read_within 0 part (meanings source.now tokens.now)) }
{
    let line = whole_line(alloc, part.rule)?;
    read_tokens(alloc, is_noted(part), line.as_slice(), 0, tokens, source)
}

/// The answer to a text with these tokens, which are read so.
pub fn answer_at(reading: Reading, tokens: &[Token], source: &[u8]) -> Result<Node, Stop>
    requires short { length source.now < 2 ^ 32 }
    requires lie { All (λ token. LiesIn token source.now) tokens.now }
    requires one { IsOneNode (outcome_of reading) }
    ensures { Gives result (answer_at source.now tokens.now (outcome_of reading)) }
{
    match reading {
        Reading::Read(values) => match values.into_node() {
            Some(node) => Ok(node),
            None => unreachable!(),
        },
        Reading::Refused(count) => {
            let code = code_behind(count, tokens, source);
            Err(Stop::Fault(fault_behind(code, count, tokens, source)))
        }
        Reading::Limited(count) => {
            Err(Stop::Fault(fault_behind(Code::F04, count, tokens, source)))
        }
    }
}

// Reads the text.
fn answer(alloc: Global, part: Part, bytes: &[u8]) -> Result<Node, Stop>
    requires texts { has_texts part ≡ true }
    requires short { length bytes.now < 2 ^ 32 }
    ensures { Gives result (answer_of part bytes.now) }
{
    let tokens = tokens_in(alloc, part, bytes, tokens(alloc, bytes)?)?;
    let tokens = tokens.as_slice();
    let reading = read_whole(alloc, part, tokens, bytes)?;
    answer_at(reading, tokens, bytes)
}

/// Reads a text of a part of the grammar, whole: the node that it spells, within the limits of nesting.
///
/// It fails with F01 or F02 where the bytes are no tokens; else at the first token that no text of the part
/// within the limits goes on with: F04 where a text without the limits does, else F23 where the token
/// begins a form of Ada that isn't in the profile, else F03. The end of the text is a token in its last
/// line. Lines are those of file 0.
pub fn read_fragment(alloc: Global, part: Part, bytes: &[u8]) -> Result<Node, Stop>
    requires texts { has_texts part ≡ true }
    requires short { length bytes.now < 2 ^ 32 }
    ensures node { IfOk result (λ node. IsText part bytes.now node) }
    ensures fault { IfErr result (λ stop. OnFault (IsFaultOf part bytes.now) stop) }
    ensures only { (node : ANode) → IsText part bytes.now node → Gives result (Ok node) }
    ensures only_fault { (fault : AFault) → IsFaultOf part bytes.now fault → Gives result (Err fault) }

    // The same by the function, of which `a_text_has_one_answer` says that it is the answer.
    ensures value { Gives result (answer_of part bytes.now) }
{
    answer(alloc, part, bytes)
}
