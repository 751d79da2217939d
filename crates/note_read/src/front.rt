// Reading as far as tokens may be read.
ghost use Rattle.std.specs.Prelude.{◌≡◌, false, All, IfOk};
ghost use Rattle.lex_ada.specs.Meanings.{LiesIn};
ghost use Rattle.note_read.specs.Fronts.{IsEnding, last_or};
ghost use Rattle.reading_machine.specs.Machines.{may_end};
ghost use Rattle.reading_table.specs.Rows.{placed};

use crate::sign::{Sign, sign_of};
use base_kit::Memory;
use lex_ada::Token;
use reading_machine::{Fed, Machine};
use reading_table::Symbol;
use std::alloc::Global;

/// How far tokens may be read.
#[derive(Clone, Copy)]
pub enum Ending {
    /// So many of the source's tokens, comments among them, may be read to their end, and no more. The
    /// last one is no comment.
    At(usize),
    /// None may. The number of tokens, without comments, before the first one that no text goes on with;
    /// of all tokens where none is at fault.
    Refused(usize),
    /// None may. The number of tokens before the first one with which no text within the limits goes on,
    /// though some do without them.
    Limited(usize),
}

// The last end that was found, or how reading stopped where there was none.
fn last_or(found: Option<usize>, stopped: Ending) -> Ending
    ensures { result ≡ last_or found stopped }
{
    match found {
        Some(end) => Ending::At(end),
        None => stopped,
    }
}

/// How far the tokens of a source, comments included, may be read by these symbols on this side, where so
/// many nodes that count are round what is read. The symbols want a token at least.
///
/// It is one pass over the tokens, and takes none of the machine's stack.
pub fn last_end(
    alloc: Global,
    note: bool,
    line: &[Symbol],
    round: usize,
    tokens: &[Token],
    source: &[u8],
) -> Result<Ending, Memory>
    requires lie { All (λ token. LiesIn token source.now) tokens.now }
    requires some { may_end (placed note line.now) ≡ false }
    ensures { IfOk result (λ ending. IsEnding round (placed note line.now) source.now tokens.now ending) }
{
    let mut machine = Machine::new(alloc, note, line)?;
    let mut found = None;
    let mut count = 0;
    let mut number = 0;
    let mut rest = tokens;
    while let Some((token, behind)) = rest.split_first() {
        number += 1;
        match sign_of(alloc, token, source)? {
            None => {}
            Some(Sign::Comment(text)) => machine.wait(text)?,
            Some(Sign::Token(token)) => match machine.feed(alloc, round, token)? {
                Fed::Refused => return Ok(last_or(found, Ending::Refused(count))),
                Fed::Limited => return Ok(last_or(found, Ending::Limited(count))),
                Fed::Admitted => {
                    count += 1;
                    if machine.may_end() {
                        found = Some(number);
                    }
                }
            },
        }
        rest = behind;
    }
    Ok(last_or(found, Ending::Refused(count)))
}
