// Reading the tokens of a source to their end.
ghost use Rattle.std.specs.Prelude.{◌≡◌, ◌<◌, ◌^◌, length, All, IfOk, IfErr, Err};
ghost use Rattle.lex_ada.specs.Faults.{Answers};
ghost use Rattle.lex_ada.specs.Meanings.{LiesIn, meanings};
ghost use Rattle.note_read.specs.Counted.{counted_of, counted_from, ended_with};
ghost use Rattle.reading_machine.specs.Bare.{nothing};
ghost use Rattle.reading_machine.specs.Machines.{progress_of};
ghost use Rattle.reading_machine.specs.Values.{state_of};
ghost use Rattle.note_read.specs.Signs.{read_signs, read_by_table, outcome_of, IsReadFrom};
ghost use Rattle.reading_table.specs.Rows.{placed};

use crate::sign::{Sign, sign_of};
use ada_tree::Counts;
use base_kit::{Memory, Stop};
use lex_ada::{Token, tokens};
use reading_machine::{Fed, Machine, Values, passes};
use reading_table::Symbol;
use std::alloc::Global;

/// How reading the tokens of a source ends.
#[derive(Drop)]
pub enum Reading {
    /// All were read: what they were read as.
    Read(Values),
    /// The number of tokens, without comments, before the first one that no text goes on with; of all
    /// tokens where none may end there.
    Refused(usize),
    /// The number of tokens before the first one with which no text within the limits goes on, though
    /// some do without them.
    Limited(usize),
}

/// How reading ends where no more than so many nodes are kept.
#[derive(Drop)]
pub enum Counted {
    /// As it does without that limit.
    Kept(Reading),
    /// All were read, and had more nodes: how many.
    TooMany(Counts),
}

// How many tokens are read between two looks at how many nodes there are.
const BETWEEN_COUNTS: usize = 16_384;

// What has been read, with what was lost before, unless it has too many nodes.
fn unless_too_many(values: Values, most: Option<Counts>, lost: Counts) -> Counted
    ensures { counted_of result ≡ ended_with most lost (state_of values) }
{
    let counts = values.counts_with(lost);
    if passes(most, counts) {
        Counted::TooMany(counts)
    } else {
        Counted::Kept(Reading::Read(values))
    }
}

// Reads the tokens, comments included, from where the machine stands.
fn read_on(
    alloc: Global,
    mut machine: Machine,
    round: usize,
    most: Option<Counts>,
    tokens: &[Token],
    source: &[u8],
) -> Result<Counted, Memory>
    requires { All (λ token. LiesIn token source.now) tokens.now }
    ensures { IfOk result (λ read. counted_of read ≡ counted_from most nothing (read_signs round (progress_of machine) (meanings source.now tokens.now))) }
{
    let mut count = 0;
    let mut lost = Counts { tree: 0, proof: 0 };
    let mut rest = tokens;
    while let Some((token, behind)) = rest.split_first() {
        match sign_of(alloc, token, source)? {
            None => {}
            Some(Sign::Comment(text)) => machine.wait(text)?,
            Some(Sign::Token(token)) => match machine.feed(alloc, round, token)? {
                Fed::Refused => return Ok(Counted::Kept(Reading::Refused(count))),
                Fed::Limited => return Ok(Counted::Kept(Reading::Limited(count))),
                Fed::Admitted => {
                    count += 1;
                    if count % BETWEEN_COUNTS == 0 {
                        lost = machine.thin_out(alloc, most, lost)?;
                    }
                }
            },
        }
        rest = behind;
    }
    Ok(match machine.end(alloc)? {
        Some(values) => unless_too_many(values, most, lost),
        None => Counted::Kept(Reading::Refused(count)),
    })
}

/// Reads the tokens of a source, comments included, by these symbols on this side, to their end, where
/// so many nodes that count are round what is read. With more nodes than the limit, if there is one, it
/// goes on without the kids and comments of nodes, which no reading looks at, and counts them.
///
/// It takes none of the machine's stack, however long and deep the text is.
#[tactic(auto, using(crate::proofs::Runs::read_is_run))]
pub fn read_counted(
    alloc: Global,
    note: bool,
    line: &[Symbol],
    round: usize,
    most: Option<Counts>,
    tokens: &[Token],
    source: &[u8],
) -> Result<Counted, Memory>
    requires { All (λ token. LiesIn token source.now) tokens.now }
    ensures { IfOk result (λ read. counted_of read ≡ counted_from most nothing (read_by_table round (placed note line.now) (meanings source.now tokens.now))) }
{
    read_on(
        alloc,
        Machine::new(alloc, note, line)?,
        round,
        most,
        tokens,
        source,
    )
}

/// The same without such a limit.
pub fn read_tokens(
    alloc: Global,
    note: bool,
    line: &[Symbol],
    round: usize,
    tokens: &[Token],
    source: &[u8],
) -> Result<Reading, Memory>
    requires { All (λ token. LiesIn token source.now) tokens.now }
    ensures { IfOk result (λ read. outcome_of read ≡ read_by_table round (placed note line.now) (meanings source.now tokens.now)) }
{
    match read_counted(alloc, note, line, round, None, tokens, source)? {
        Counted::Kept(reading) => Ok(reading),
        Counted::TooMany(_) => unreachable!(),
    }
}

/// Reads the text by these symbols on this side, whole.
///
/// It fails where the text has no tokens, with the fault of that.
#[tactic(auto, using(crate::proofs::Lying::tokens_lie))]
pub fn read_text(
    alloc: Global,
    note: bool,
    line: &[Symbol],
    round: usize,
    bytes: &[u8],
) -> Result<Reading, Stop>
    requires { length bytes.now < 2 ^ 32 }
    ensures read { IfOk result (λ read. IsReadFrom round (placed note line.now) bytes.now (outcome_of read)) }
    ensures fault { IfErr result (λ stop. Answers (Err stop) bytes.now) }
{
    let tokens = tokens(alloc, bytes)?;
    Ok(read_tokens(alloc, note, line, round, tokens.as_slice(), bytes)?)
}
