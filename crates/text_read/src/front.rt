// Reading the longest text of some parts of the grammar among tokens.
ghost use Rattle.std.specs.Prelude.{◌≡◌, ◌≤◌, ◌<◌, ◌^◌, length, take, drop, true, false, All, IfOk, IfErr};
ghost use Rattle.lex_ada.specs.Meanings.{LiesIn, meanings};
ghost use Rattle.note_read.specs.Fronts.{IsEnding};
ghost use Rattle.reading_exact.specs.Whole.{GrammarReads, are_signs, whole_start};
ghost use Rattle.reading_limits.specs.Viable.{ReadsWithin, read_within};
ghost use Rattle.reading_machine.specs.Machines.{may_end};
ghost use Rattle.reading_table.specs.Spelled.{has_texts};
ghost use Rattle.text_read.specs.declared.parts.TheConstants.{NOTES, PROOFS, TRAIT, TERM};
ghost use Rattle.text_read.specs.Faults.{OnFault};
ghost use Rattle.text_read.specs.FirstWords.{first_word};
ghost use Rattle.text_read.specs.Fronts.{AreTokensOf, GrammarReadsOne, ReadsOneWithin, IsLongest, IsFaultOfFronts, IsReadOn, AnswersLongest};
ghost use Rattle.text_read.specs.Told.{note_told, proof_told};

use crate::fault::{code_behind, fault_behind};
use crate::fragment::is_noted;
use crate::parts::{ASSERT, BASED, INVARIANT, ORPHAN, PROOF, TERM, TRAIT, VIEW, WHERE};
use crate::start::whole_line;
use ada_tree::{Node, Part, Word};
use base_kit::{Code, Memory, Stop};
use lex_ada::{Token, TokenKind};
use note_read::{Ending, Reading, last_end, read_tokens};
use std::alloc::Global;

// How far the tokens are a text of the part.
#[tactic(auto, using(crate::proofs::Texts::whole_is))]
fn ending(
    alloc: Global,
    part: Part,
    tokens: &[Token],
    source: &[u8],
    round: usize,
) -> Result<Ending, Memory>
    requires some { may_end (whole_start part) ≡ false }
    requires lie { All (λ token. LiesIn token source.now) tokens.now }
    ensures { IfOk result (IsEnding round (whole_start part) source.now tokens.now) }
{
    let line = whole_line(alloc, part.rule)?;
    last_end(
        alloc,
        is_noted(part),
        line.as_slice(),
        round,
        tokens,
        source,
    )
}

// The node that the tokens are read as, which are a text of the part.
#[tactic(auto, using(crate::proofs::Texts::read_as))]
fn node(
    alloc: Global,
    part: Part,
    tokens: &[Token],
    source: &[u8],
    round: usize,
) -> Result<Node, Memory>
    requires texts { has_texts part ≡ true }
    requires lie { All (λ token. LiesIn token source.now) tokens.now }
    requires read { IsReadOn round part source.now tokens.now }
    ensures { IfOk result (ReadsWithin round part (meanings source.now tokens.now)) }
{
    let line = whole_line(alloc, part.rule)?;
    match read_tokens(
        alloc,
        is_noted(part),
        line.as_slice(),
        round,
        tokens,
        source,
    )? {
        Reading::Read(values) => match values.into_node() {
            Some(node) => Ok(node),
            None => unreachable!(),
        },
        _ => unreachable!(),
    }
}

// Reads the longest text of the part, and tells how many tokens it has.
fn longest(
    alloc: Global,
    part: Part,
    tokens: &[Token],
    source: &[u8],
    round: usize,
) -> Result<(Node, usize), Stop>
    requires texts { has_texts part ≡ true }
    requires some { may_end (whole_start part) ≡ false }
    requires short { length source.now < 2 ^ 32 }
    requires lie { All (λ token. LiesIn token source.now) tokens.now }
    requires fit { are_signs (meanings source.now tokens.now) ≡ true }
    ensures value { IfOk result (IsLongest (ReadsWithin round part) source.now tokens.now 0) }
    ensures fault { IfErr result (OnFault (IsFaultOfFronts (GrammarReads part) (ReadsWithin round part) source.now tokens.now)) }
{
    match ending(alloc, part, tokens, source, round)? {
        Ending::At(end) => {
            let (front, _) = tokens.split_at(end);
            Ok((node(alloc, part, front, source, round)?, end))
        }
        Ending::Refused(count) => {
            let code = code_behind(count, tokens, source);
            Err(Stop::Fault(fault_behind(code, count, tokens, source)))
        }
        Ending::Limited(count) => Err(Stop::Fault(fault_behind(Code::F04, count, tokens, source))),
    }
}

// The same from a place on.
fn read_part(
    alloc: Global,
    part: Part,
    tokens: &[Token],
    source: &[u8],
    from: usize,
    depth: u32,
) -> Result<(Node, usize), Stop>
    requires texts { has_texts part ≡ true }
    requires some { may_end (whole_start part) ≡ false }
    requires short { length source.now < 2 ^ 32 }
    requires of_source { AreTokensOf source.now tokens.now }
    requires within { from ≤ length tokens.now }
    ensures value { IfOk result (IsLongest (ReadsWithin depth part) source.now tokens.now from) }
    ensures fault { IfErr result (OnFault (IsFaultOfFronts (GrammarReads part) (ReadsWithin depth part) source.now (drop from tokens.now))) }
{
    let (_, rest) = tokens.split_at(from);
    let (node, count) = longest(alloc, part, rest, source, depth as usize)?;
    Ok((node, from + count))
}

// The word with which the tokens begin, comments apart.
fn first_word(tokens: &[Token], source: &[u8]) -> Option<Word>
    requires { All (λ token. LiesIn token source.now) tokens.now }
    ensures { result ≡ first_word (meanings source.now tokens.now) }
{
    for token in tokens {
        match token.kind {
            TokenKind::Comment => {}
            TokenKind::Word => {
                let word = token.word(source);
                if word.is_some() {
                    return word;
                }
            }
            TokenKind::Mark => {
                if token.mark(source).is_some() {
                    return None;
                }
            }
            TokenKind::Name | TokenKind::Number => return None,
        }
    }
    None
}

// Which annotation begins with the word; any where none does.
fn note_told(word: Option<Word>) -> Part
    ensures { result ≡ note_told word }
{
    match word {
        Some(Word::Where) => WHERE,
        Some(Word::Based) => BASED,
        Some(Word::View) => VIEW,
        Some(Word::Invariant) => INVARIANT,
        _ => ASSERT,
    }
}

fn proof_told(word: Option<Word>) -> Part
    ensures { result ≡ proof_told word }
{
    match word {
        Some(Word::Orphan) => ORPHAN,
        _ => PROOF,
    }
}

/// Reads an annotation from a place on, a `where`, `based on`, `view`, `invariant` or `assert`: the longest
/// one, with `depth` nodes that count towards the limit of nesting round it. It gives the node, and the
/// index of the first token that is left.
///
/// It fails where no such text stands there, at the first token that none goes on with: F04 where one does
/// without the limits, else F23 where the token begins a form of Ada that isn't in the profile, else F03.
/// The end of the tokens is a token in the source's last line. Lines are those of file 0.
pub fn read_note(
    alloc: Global,
    tokens: &[Token],
    source: &[u8],
    from: usize,
    depth: u32,
) -> Result<(Node, usize), Stop>
    requires short { length source.now < 2 ^ 32 }
    requires of_source { AreTokensOf source.now tokens.now }
    requires within { from ≤ length tokens.now }
    ensures { AnswersLongest (GrammarReadsOne NOTES) (ReadsOneWithin depth NOTES) source.now tokens.now from result }
{
    let (_, rest) = tokens.split_at(from);
    let part = note_told(first_word(rest, source));
    read_part(alloc, part, tokens, source, from, depth)
}

/// Reads a trait from a place on, as `read_note` reads annotations.
pub fn read_trait(
    alloc: Global,
    tokens: &[Token],
    source: &[u8],
    from: usize,
    depth: u32,
) -> Result<(Node, usize), Stop>
    requires short { length source.now < 2 ^ 32 }
    requires of_source { AreTokensOf source.now tokens.now }
    requires within { from ≤ length tokens.now }
    ensures { AnswersLongest (GrammarReads TRAIT) (ReadsWithin depth TRAIT) source.now tokens.now from result }
{
    read_part(alloc, TRAIT, tokens, source, from, depth)
}

/// Reads a proof, or an orphan proof, from a place on, as `read_note` reads annotations.
pub fn read_proof(
    alloc: Global,
    tokens: &[Token],
    source: &[u8],
    from: usize,
    depth: u32,
) -> Result<(Node, usize), Stop>
    requires short { length source.now < 2 ^ 32 }
    requires of_source { AreTokensOf source.now tokens.now }
    requires within { from ≤ length tokens.now }
    ensures { AnswersLongest (GrammarReadsOne PROOFS) (ReadsOneWithin depth PROOFS) source.now tokens.now from result }
{
    let (_, rest) = tokens.split_at(from);
    let part = proof_told(first_word(rest, source));
    read_part(alloc, part, tokens, source, from, depth)
}

/// Reads a term of an annotation from a place on, as `read_note` reads annotations.
pub fn read_term(
    alloc: Global,
    tokens: &[Token],
    source: &[u8],
    from: usize,
    depth: u32,
) -> Result<(Node, usize), Stop>
    requires short { length source.now < 2 ^ 32 }
    requires of_source { AreTokensOf source.now tokens.now }
    requires within { from ≤ length tokens.now }
    ensures { AnswersLongest (GrammarReads TERM) (ReadsWithin depth TERM) source.now tokens.now from result }
{
    read_part(alloc, TERM, tokens, source, from, depth)
}
