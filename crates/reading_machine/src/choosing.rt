// What a part is unfolded to, so that it begins with a token.
ghost use Rattle.std.specs.Prelude.{◌≡◌, List, ◌∷◌, ◌++◌, Bool, ◌&&◌, Some, option_map, IfOk, OnOk};
ghost use Rattle.ada_tree.specs.Choices.{has_side};
ghost use Rattle.reading_machine.specs.Lexemes.{token_of};
ghost use Rattle.reading_machine.specs.Machines.{may_end};
ghost use Rattle.reading_machine.specs.Views.{IsSeenAs};
ghost use Rattle.reading_machine.specs.Rows.{first_lead};
ghost use Rattle.reading_table.specs.Machine.{both, before, lead, enter};
ghost use Rattle.reading_table.specs.Rows.{Placed, turned, side_in, placed, silence};
ghost use Rattle.reading_table.specs.Weighed.{weighed_table};

use crate::lexeme::Token;
use crate::stack::{Line, Stack, push_row};
use ada_tree::Side;
use base_kit::Memory;
use reading_table::{Row, Rule, Symbol, Tokens, entry};
use std::alloc::Global;

fn turned(side: Side, note: bool) -> bool
    ensures { result ≡ turned side note }
{
    match side {
        Side::Both => note,
        Side::Ada => false,
        Side::Note => true,
    }
}

/// What a symbol is to a reader.
#[derive(Clone, Copy)]
pub enum View {
    /// A token of this set.
    Token(Tokens),
    Part(Rule),
    /// Something that is done.
    Quiet,
}

/// What the symbol is to a reader.
pub fn seen(symbol: Symbol) -> View
    ensures { (note : Bool) → IsSeenAs note symbol result }
{
    match symbol {
        Symbol::Take(set) | Symbol::Keep(set) => View::Token(set),
        Symbol::Closing(_) => View::Token(Tokens::Name),
        Symbol::Part(rule) => View::Part(rule),
        _ => View::Quiet,
    }
}

/// On which side what is of the rule stands, where it is read on this one.
pub fn side_in(note: bool, rule: Rule) -> bool
    ensures { result ≡ side_in note rule }
{
    match entry(rule) {
        None => note,
        Some((_, side, ..)) => turned(*side, note),
    }
}

/// What is done where the part is read as nothing, if it may be.
pub fn silence(rule: Rule) -> Option<&'static [Symbol]>
    ensures { (note : Bool) → option_map (λ line. placed (side_in note rule) line.now) result ≡ silence (side_in note rule, rule) }
{
    let (_, _, silence, ..) = entry(rule)?;
    silence.first().copied()
}

/// Tells whether the symbol may be read as nothing.
pub fn may_be_nothing(symbol: Symbol) -> bool
    ensures { (note : Bool) (ss : List Placed) → may_end ((note, symbol) ∷ ss) ≡ (result && may_end ss) }
{
    match seen(symbol) {
        View::Token(_) => false,
        View::Quiet => true,
        View::Part(rule) => silence(rule).is_some(),
    }
}

fn has_side(note: bool, side: Side) -> bool
    ensures { result ≡ has_side note side }
{
    match side {
        Side::Both => true,
        Side::Ada => !note,
        Side::Note => note,
    }
}

// The line, with these symbols on this side behind it.
fn with_rest(alloc: Global, line: &Line, note: bool, rest: &[Symbol]) -> Result<Line, Memory>
    ensures { IfOk result (λ whole. whole ≡ line.now ++ placed note rest.now) }
{
    let mut whole = Stack::new(alloc);
    push_row(&mut whole, note, rest)?;
    whole.push_all(line)?;
    Ok(whole)
}

// These symbols on this side, before what they lead to, if they lead to something.
fn with_front(note: bool, front: &[Symbol], rest: Option<Line>) -> Result<Option<Line>, Memory>
    ensures { IfOk result (λ whole. whole ≡ both (Some (placed note front.now)) rest) }
{
    match rest {
        None => Ok(None),
        Some(mut line) => {
            push_row(&mut line, note, front)?;
            Ok(Some(line))
        }
    }
}

// What the line, on this side, is unfolded to, so that it begins with the token, by parts within each
// other at most so deep.
#[cycle(leading)]
#[tactic(auto, using(crate::proofs::Lines::leads_token, crate::proofs::Lines::leads_quiet, crate::proofs::Lines::leads_part, crate::proofs::Lines::leads_behind, crate::proofs::Lines::leads_nowhere))]
fn lead(
    alloc: Global,
    depth: u8,
    note: bool,
    line: &[Symbol],
    token: &Token,
) -> Result<Option<Line>, Memory>
    ensures { IfOk result (λ led. led ≡ lead weighed_table (enter weighed_table depth) (token_of token.now) (placed note line.now)) }
{
    match line.split_first() {
        None => Ok(None),
        Some((symbol, rest)) => match seen(*symbol) {
            View::Token(set) => {
                if !token.may_be(note, set) {
                    return Ok(None);
                }
                with_front(note, line, Some(Stack::new(alloc)))
            }
            View::Quiet => {
                let led = lead(alloc, depth, note, rest, token)?;
                with_front(note, &[*symbol], led)
            }
            View::Part(rule) => match enter(alloc, depth, note, rule, token)? {
                Some(line) => Ok(Some(with_rest(alloc, &line, note, rest)?)),
                None => match silence(rule) {
                    None => Ok(None),
                    Some(quiet) => {
                        let led = lead(alloc, depth, note, rest, token)?;
                        with_front(side_in(note, rule), quiet, led)
                    }
                },
            },
        },
    }
}

// What the first of these rows that can begin with the token, on this side, is unfolded to.
#[cycle(leading)]
fn first_lead(
    alloc: Global,
    depth: u8,
    note: bool,
    rows: &'static [Row],
    token: &Token,
) -> Result<Option<Line>, Memory>
    ensures { IfOk result (λ led. led ≡ first_lead (lead weighed_table (enter weighed_table depth) (token_of token.now)) note rows.now) }
{
    for (side, row) in rows {
        if has_side(note, *side) {
            let led = lead(alloc, depth, note, row, token)?;
            if led.is_some() {
                return Ok(led);
            }
        }
    }
    Ok(None)
}

/// What the part is unfolded to, so that it begins with the token, by parts within each other at most so
/// deep.
#[cycle(leading)]
#[tactic(auto, using(crate::proofs::Rows::entered_none, crate::proofs::Rows::entered_some))]
pub fn enter(
    alloc: Global,
    depth: u8,
    note: bool,
    rule: Rule,
    token: &Token,
) -> Result<Option<Line>, Memory>
    ensures { IfOk result (λ led. led ≡ enter weighed_table depth (side_in note rule, rule) (token_of token.now)) }
{
    if depth == 0 {
        return Ok(None);
    }
    match entry(rule) {
        None => Ok(None),
        Some(entry) => first_lead(alloc, depth - 1, side_in(note, rule), entry.3, token),
    }
}
