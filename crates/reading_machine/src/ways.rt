// How parts are read where tokens come, with what was found kept.
ghost use Rattle.std.specs.Prelude.{◌≡◌, ◌<◌, Bool, Some, length, IfOk, IsTrue};
ghost use Rattle.reading_machine.specs.Lexemes.{token_of};
ghost use Rattle.reading_machine.specs.Sights.{sight_of};
ghost use Rattle.reading_machine.specs.Ways.{IsWay, IsKnown};

use crate::choosing::{enter, silence};
use crate::lexeme::Token;
use crate::sight::Sight;
use crate::stack::Line;
use base_kit::Memory;
use reading_table::{Rule, Symbol};
use std::alloc::Global;

// Parts that begin a row, and those that begin their rows, and so on, stand within each other less deep.
const DEEPEST: u8 = 13;

// How many ways are kept at once.
const MOST_KNOWN: usize = 1024;

/// How a part is read where a token comes.
#[derive(Drop)]
pub enum Way {
    /// By these symbols, of which the first one of a token is that of this one.
    Line(Line),
    /// As nothing: these symbols are done.
    Silent(&'static [Symbol]),
    /// Not at all.
    Refused,
}

fn way_of(alloc: Global, note: bool, rule: Rule, token: &Token) -> Result<Way, Memory>
    ensures { IfOk result (λ way. IsWay note rule (token_of token.now) way) }
{
    match enter(alloc, DEEPEST, note, rule, token)? {
        Some(line) => Ok(Way::Line(line)),
        None => match silence(rule) {
            Some(quiet) => Ok(Way::Silent(quiet)),
            None => Ok(Way::Refused),
        },
    }
}

// Where a way is sought: at a rule, on a side, and what a token is to it.
#[derive(Clone, Copy)]
struct Sought {
    note: bool,
    rule: Rule,
    sight: Sight,
}

impl Sought {
    fn is(self, other: Sought) -> bool
        ensures { IsTrue result → self ≡ other }
    {
        if self.rule as usize != other.rule as usize || self.note != other.note {
            return false;
        }
        self.sight.is(other.sight)
    }

    // A number that is mostly another one for another.
    fn number(self) -> usize
        ensures { result < 1024 }
    {
        let side = if self.note { 512 } else { 0 };
        (self.rule as usize * 37 + self.sight.number() + side) % MOST_KNOWN
    }
}

// A way that is known, if one is.
#[derive(Drop)]
struct Slot {
    sought: Option<Sought>,
    way: Way,
    ghost right: { IsKnown sought way },
}

impl Slot {
    fn has(&self, sought: Sought) -> bool
        ensures { IsTrue result → self.now.sought ≡ Some sought }
    {
        match self.sought {
            Some(own) => own.is(sought),
            None => false,
        }
    }
}

/// Ways that were found.
#[derive(Drop)]
pub struct Ways {
    slots: Vec<Slot>,
    ghost many: { length slots.items ≡ 1024 },
}

impl Ways {
    ghost use Rattle.reading_machine.specs.Finds.{IsFound, IsFoundFor};
    ghost use Rattle.reading_table.specs.declared.rule.Rule.{Rule as TheRule};
    ghost use Rattle.reading_table.specs.States.{Token as TheToken};

    /// None is known.
    pub fn new(alloc: Global) -> Result<Self, Memory> {
        let mut slots = Vec::new(alloc);
        for _ in 0..MOST_KNOWN {
            slots.push(Slot {
                sought: None,
                way: Way::Refused,
            })?;
        }
        Ok(Ways { slots })
    }

    #[tactic(auto, using(crate::proofs::Known::known_found))]
    fn is_known(&self, number: usize, sought: Sought) -> bool
        ensures { IsTrue result → IsFoundFor sought number self.now.slots.items }
    {
        match self.slots.get(number) {
            Some(slot) => slot.has(sought),
            None => false,
        }
    }

    /// Finds how the part is read where the token comes, and tells the number of what it found.
    #[tactic(auto, using(crate::proofs::Known::set_found))]
    pub fn find(
        &mut self,
        alloc: Global,
        note: bool,
        rule: Rule,
        token: &Token,
        sight: Sight,
    ) -> Result<usize, Memory>
        requires { sight ≡ sight_of (token_of token.now) }
        ensures few { IfOk result (λ number. number < 1024) }
        ensures found { IfOk result (λ number. IsFound note rule (token_of token.now) number self.new.slots.items) }
    {
        let sought = Sought { note, rule, sight };
        let number = sought.number();
        if !self.is_known(number, sought) {
            let way = way_of(alloc, note, rule, token)?;
            self.slots[number] = Slot {
                sought: Some(sought),
                way,
            };
        }
        Ok(number)
    }

    /// The way of this number.
    pub fn at(&self, number: usize) -> &Way
        requires { number < 1024 }
        ensures { (note : Bool) (rule : TheRule) (t : TheToken) → IsFound note rule t number self.now.slots.items → IsWay note rule t result.now }
    {
        &self.slots[number].way
    }
}
