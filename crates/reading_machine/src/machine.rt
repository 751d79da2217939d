// Reading from the left, one token at a time.
ghost use Rattle.std.specs.Prelude.{◌≡◌, ◌≤◌, nat_le, true, option_map, IfOk, OnOk, IsTrue};
ghost use Rattle.reading_table.specs.Rows.{placed};

use crate::choosing::{View, may_be_nothing, seen, silence};
use crate::lexeme::Token;
use crate::load::load_on;
use crate::masses::{highest, open_behind, open_within, rise};
use crate::pending::Pending;
use crate::sight::sight_of;
use crate::stack::{Stack, push_row};
use crate::values::{Values, passes};
use crate::ways::{Way, Ways};
use ada_tree::{Counts, MOST_NESTED, MOST_NESTED_STEPS, MOST_OPEN};
use base_kit::{Memory, Text};
use reading_table::{Height, Symbol};
use std::alloc::Global;

/// What is still to be read, and what has been read.
#[derive(Drop)]
pub struct Machine {
    /// The symbols, each with its side.
    stack: Pending,
    values: Values,
    /// How many are open.
    parentheses: usize,
    /// How parts were read where tokens came before.
    ways: Ways,
    ghost few: { parentheses ≤ 64 },
}

/// What a token is to a reader.
#[derive(Clone, Copy)]
pub enum Fed {
    /// No reading admits it.
    Refused,
    /// Readings admit it, but none within the limits.
    Limited,
    Admitted,
}

impl Machine {
    ghost use Rattle.reading_machine.specs.Bare.{thinned};
    ghost use Rattle.reading_machine.specs.Lexemes.{token_of};
    ghost use Rattle.reading_machine.specs.Machines.{fed, StandsAt, Feeds, FeedsWithin, nothing_read, commented, may_end, ended, progress_of, with_open};
    ghost use Rattle.reading_machine.specs.Values.{weighed_of};
    ghost use Rattle.reading_table.specs.Heights.{highest, least};
    ghost use Rattle.reading_table.specs.Limits.{widest};
    ghost use Rattle.reading_table.specs.Machine.{perform};
    ghost use Rattle.reading_table.specs.States.{Token as TheToken};
    ghost use Rattle.reading_table.specs.Weighed.{is_within, weighed_table};

    /// Nothing has been read, and these symbols are to be read, on this side.
    pub fn new(alloc: Global, note: bool, line: &[Symbol]) -> Result<Self, Memory>
        ensures { IfOk result (λ made. progress_of made ≡ record { stack = placed note line.now; weighed = nothing_read; parentheses = 0 }) }
    {
        let mut stack = Stack::new(alloc);
        push_row(&mut stack, note, line)?;
        let values = Values::new(alloc);
        Ok(Machine {
            stack: Pending::new(stack),
            values,
            parentheses: 0,
            ways: Ways::new(alloc)?,
        })
    }

    /// A comment comes, and waits for its place.
    pub fn wait(&mut self, comment: Text) -> Result<(), Memory>
        ensures { OnOk result (progress_of self.new ≡ commented comment (progress_of self.old)) }
    {
        self.values.wait(comment)
    }

    /// Where there are more nodes than the limit, here and among those that were lost, drops what no
    /// reading looks at. It answers how many nodes are lost then.
    pub fn thin_out(
        &mut self,
        alloc: Global,
        most: Option<Counts>,
        lost: Counts,
    ) -> Result<Counts, Memory>
        ensures { IfOk result (λ more. (progress_of self.new, more) ≡ thinned most (progress_of self.old) lost) }
    {
        if most.is_some() && passes(most, self.values.counts_with(lost)) {
            self.values.thin_out(alloc, lost)
        } else {
            Ok(lost)
        }
    }

    // Does what the symbols say up to the next one of a token, and takes that.
    #[tactic(auto, using(crate::proofs::Advances::quiet_performed, crate::proofs::Advances::part_performed))]
    fn perform(&mut self, alloc: Global) -> Result<Option<(bool, Symbol)>, Memory>
        ensures { (t : TheToken) → IfOk result (λ next. StandsAt (perform weighed_table self.old.stack (weighed_of self.old.values) t) t next self.new) }
    {
        while let Some((note, symbol)) = self.stack.pop() {
            match seen(symbol) {
                View::Token(_) => return Ok(Some((note, symbol))),
                View::Quiet => self.values.act(alloc, symbol)?,
                View::Part(_) => return Ok(None),
            }
        }
        Ok(None)
    }

    // Goes on to the symbol that the token must stand for, and takes it; none where nothing here can begin
    // with the token.
    #[tactic(auto, using(crate::proofs::Advances::quiet_fed, crate::proofs::Advances::token_fed))]
    fn advance(&mut self, alloc: Global, token: &Token) -> Result<Option<(bool, Symbol)>, Memory>
        ensures { IfOk result (λ next. StandsAt (fed (token_of token.now) self.old.stack (weighed_of self.old.values)) (token_of token.now) next self.new) }
    {
        let sight = sight_of(token);
        while let Some((note, symbol)) = self.stack.pop() {
            match seen(symbol) {
                View::Token(_) => return Ok(Some((note, symbol))),
                View::Quiet => self.values.act(alloc, symbol)?,
                View::Part(rule) => {
                    let number = self.ways.find(alloc, note, rule, token, sight)?;
                    match self.ways.at(number) {
                        Way::Line(line) => {
                            self.stack.push_all(line)?;
                            return self.perform(alloc);
                        }
                        Way::Silent(quiet) => self.values.act_all(alloc, quiet)?,
                        Way::Refused => return Ok(None),
                    }
                }
            }
        }
        Ok(None)
    }

    #[tactic(auto, using(crate::proofs::Advances::token_performed))]
    fn feed_within(&mut self, alloc: Global, token: Token) -> Result<bool, Memory>
        ensures { IfOk result (λ admitted. Feeds (token_of token) self.old admitted self.new) }
    {
        match self.advance(alloc, &token)? {
            None => Ok(false),
            Some((note, symbol)) => self.values.take(alloc, note, symbol, token),
        }
    }

    // How high what is read becomes at least.
    #[tactic(auto, using(crate::proofs::Stacks::from_here))]
    fn height_to_be(&self, alloc: Global) -> Result<Height, Memory>
        ensures { IfOk result (λ height. height ≡ highest (least self.now.stack self.now.values.masses)) }
    {
        let mut masses = self.values.masses.copied(alloc)?;
        for depth in 0..self.stack.len() {
            let (_, symbol) = *self.stack.at(depth);
            rise(&mut masses, symbol)?;
        }
        Ok(highest(masses))
    }

    // Tells whether few enough parentheses may be open at once while the rest is read, where so many are
    // open now.
    #[tactic(auto, using(crate::proofs::Stacks::from_here, crate::proofs::Wide::wide_on, crate::proofs::Wide::wide_out))]
    fn may_open_few(&self, parentheses: usize) -> bool
        requires { parentheses ≤ 65 }
        ensures { result ≡ nat_le (widest parentheses self.now.stack) MOST_OPEN }
    {
        let mut count = parentheses;
        for depth in 0..self.stack.len() {
            let (_, symbol) = *self.stack.at(depth);
            if open_within(count, symbol) > MOST_OPEN {
                return false;
            }
            count = open_behind(count, symbol);
        }
        count <= MOST_OPEN
    }

    // Tells whether what is read surely may end within the limits, by sums that are kept.
    fn is_surely_within(&self, round: usize, parentheses: usize) -> bool
        requires { parentheses ≤ 65 }
        ensures { IsTrue result → is_within round (with_open self.now parentheses) ≡ true }
    {
        let symbols = self.stack.load();
        let values = load_on(self.values.masses.height(), parentheses);
        symbols.with(values).is_light(round)
    }

    // Tells whether what is read may end within the limits, by a walk over all.
    fn is_within_after_all(
        &self,
        alloc: Global,
        round: usize,
        parentheses: usize,
    ) -> Result<bool, Memory>
        requires { parentheses ≤ 65 }
        ensures { IfOk result (λ within. within ≡ is_within round (with_open self.now parentheses)) }
    {
        let height = self.height_to_be(alloc)?;
        Ok(
            round.saturating_add(usize::from(height.nodes)) <= MOST_NESTED
                && usize::from(height.steps) <= MOST_NESTED_STEPS
                && self.may_open_few(parentheses),
        )
    }

    // Tells whether what is read may end within the limits.
    fn is_within(&mut self, alloc: Global, round: usize, parentheses: usize) -> Result<bool, Memory>
        requires { parentheses ≤ 65 }
        ensures within { IfOk result (λ within. within ≡ is_within round (with_open self.old parentheses)) }
        ensures same { progress_of self.new ≡ progress_of self.old }
    {
        if self.is_surely_within(round, parentheses) {
            return Ok(true);
        }
        self.values.masses.measure(alloc)?;
        if self.is_surely_within(round, parentheses) {
            return Ok(true);
        }
        self.is_within_after_all(alloc, round, parentheses)
    }

    /// Reads on with the token, if a text that goes on so can be read, where so many nodes that count are
    /// round what is read. Behind a token that isn't admitted the machine is of no use.
    pub fn feed(&mut self, alloc: Global, round: usize, token: Token) -> Result<Fed, Memory>
        ensures { IfOk result (λ fed. FeedsWithin round (token_of token) self.old fed self.new) }
    {
        let parentheses = token.lexeme.open_after(self.parentheses);
        if !self.feed_within(alloc, token)? {
            return Ok(Fed::Refused);
        }
        if !self.is_within(alloc, round, parentheses)? {
            return Ok(Fed::Limited);
        }
        self.parentheses = parentheses;
        Ok(Fed::Admitted)
    }

    /// Tells whether the text may end here.
    #[tactic(auto, using(crate::proofs::Stacks::from_here))]
    pub fn may_end(&self) -> bool
        ensures { result ≡ may_end self.now.stack }
    {
        for depth in 0..self.stack.len() {
            let (_, symbol) = *self.stack.at(depth);
            if !may_be_nothing(symbol) {
                return false;
            }
        }
        true
    }

    /// What has been read where the text ends here, if it may.
    #[tactic(auto, using(crate::proofs::Endings::quiet_end, crate::proofs::Endings::token_end))]
    pub fn end(self, alloc: Global) -> Result<Option<Values>, Memory>
        ensures { IfOk result (λ read. option_map weighed_of read ≡ ended self.stack (weighed_of self.values)) }
    {
        let Machine {
            mut stack,
            mut values,
            ..
        } = self;
        while let Some((_, symbol)) = stack.pop() {
            match seen(symbol) {
                View::Token(_) => return Ok(None),
                View::Quiet => values.act(alloc, symbol)?,
                View::Part(rule) => match silence(rule) {
                    None => return Ok(None),
                    Some(line) => values.act_all(alloc, line)?,
                },
            }
        }
        Ok(Some(values))
    }
}
